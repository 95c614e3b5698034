// What linear equations say of a form. The systems were worked out by hand.
use fields::prime::WIDE_FIELD;
use linear::decide::{Decision, decide};
use linear::equation::{Equation, Form};
use linear::shape::Shape;
use std::array;
use std::test::Fail;

// a x + b y + c z = s
fn equation(a: u32, b: u32, c: u32, s: u32) -> Equation {
    let left = form(a, b, c);
    let coefficients = left.coefficients;
    let mut right_sides = [0; 16];
    right_sides[0] = s;
    Equation {
        coefficients,
        right_sides,
    }
}

fn form(a: u32, b: u32, c: u32) -> Form {
    let mut form = Form::default();
    form.coefficients[0] = a;
    form.coefficients[1] = b;
    form.coefficients[2] = c;
    form
}

fn asked_of(equations: &[Equation], form: &Form) -> Option<Decision> {
    let shape = Shape::new(3, 1)?;
    Some(decide(&WIDE_FIELD, shape, equations, form))
}

// The value that is forced, and zeros after it.
fn value(v: u32) -> Option<Decision> {
    let mut values = [0; 16];
    values[0] = v;
    Some(Decision::Decided(values))
}

#[test]
fn three_unknowns(rt: HostRuntime) {
    let first = equation(1, 2, 3, 6);
    let doubled = equation(2, 4, 6, 12);
    assert_eq!(rt;
        asked_of(&[first, doubled], &form(0, 0, 1)),
        Some(Decision::Open)
    );
    assert_eq!(rt; asked_of(&[first, doubled], &form(3, 6, 9)), value(18));
    assert_eq!(rt;
        asked_of(&[first, equation(2, 4, 6, 13)], &form(0, 0, 1)),
        Some(Decision::Contradictory)
    );
    assert_eq!(rt; asked_of(&[], &form(0, 0, 0)), value(0));
    assert_eq!(rt; asked_of(&[], &form(0, 1, 0)), Some(Decision::Open));
    // numbers above the size are read as their remainders
    assert_eq!(rt;
        asked_of(&[equation(65538, 65539, 3, 65543)], &form(1, 2, 65540)),
        value(6)
    );
}

#[test]
fn the_order_of_equations_does_not_matter(rt: HostRuntime) {
    let a = equation(1, 1, 1, 6);
    let b = equation(1, 2, 3, 14);
    let c = equation(1, 4, 9, 36);
    let wanted = form(1, 10, 100);
    assert_eq!(rt; asked_of(&[a, b, c], &wanted), value(321));
    assert_eq!(rt; asked_of(&[c, b, a], &wanted), value(321));
    assert_eq!(rt; asked_of(&[b, a, c, a, b], &wanted), value(321));
    assert_eq!(rt; asked_of(&[a, c], &wanted), Some(Decision::Open));
    assert_eq!(rt;
        asked_of(&[c, a, b, equation(0, 0, 1, 4)], &wanted),
        Some(Decision::Contradictory)
    );
}

// The value of unknown i on right side j is i + j.
fn side(unknown: usize, j: usize) -> u32 {
    (unknown % 32 + j % 16) as u32
}

// The right sides of an unknown alone; those of it and its neighbour are the sums.
fn sides(place: usize, together: bool) -> [u32; 16] {
    array::from_fn(|j| {
        let neighbour = if together { side(place % 32 + 1, j) } else { 0 };
        side(place, j).saturating_add(neighbour)
    })
}

fn large(place: usize, together: bool) -> Equation {
    let mut coefficients = [0; 32];
    coefficients[(place % 32 + 1) % 32] = if together { 1 } else { 0 };
    coefficients[place % 32] = 1;
    Equation {
        coefficients,
        right_sides: sides(place, together),
    }
}

// 64 equations in 32 unknowns with 16 right sides.
#[test]
fn the_largest_shape(rt: HostRuntime) -> Result<(), Fail> {
    let equations: [Equation; 64] = array::from_fn(|i| large(i / 2, i % 2 == 0));
    let shape = Shape::new(32, 16).ok_or("the largest shape")?;
    let mut asked = Form::default();
    asked.coefficients[31] = 1;
    asked.coefficients[0] = 2;
    let Decision::Decided(values) = decide(&WIDE_FIELD, shape, &equations, &asked) else {
        return Err(Fail::new("decided"));
    };
    assert_eq!(rt; values[0], 31);
    assert_eq!(rt; values[1], 34);
    assert_eq!(rt; values[15], 76);
    Ok(())
}

#[test]
fn shapes_out_of_range(rt: HostRuntime) {
    assert!(rt; Shape::new(0, 1).is_none());
    assert!(rt; Shape::new(33, 1).is_none());
    assert!(rt; Shape::new(1, 0).is_none());
    assert!(rt; Shape::new(1, 17).is_none());
    assert!(rt; Shape::new(32, 16).is_some());
}
