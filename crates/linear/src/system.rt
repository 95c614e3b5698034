// A field and a shape, and what is done with a row of this shape over this field. Clearing and scaling start at a column
// before which the coefficients stand for zero. Statements about rows name the arithmetic and the two numbers, since they
// know no system.
ghost use Rattle.std.specs.Prelude.{◌≡◌, ◌<◌};
ghost use Rattle.linear.specs.Rows.{Cleared, Scaled, Leftover, Reading};

use crate::decide::Decision;
use crate::equation::Equation;
use crate::shape::Shape;
use fields::Field;

#[derive_where(Clone, Copy)]
pub(crate) struct System<'a, F> {
    pub(crate) field: &'a F,
    pub(crate) shape: Shape,
}

// That no values satisfy an equation and those before it. A decision would be no plainer: a row tells nothing of a form.
#[derive(Clone, Copy, Debug, PartialEq, Eq)]
pub(crate) struct Contradiction;

impl<'a, F: Field> System<'a, F> {
    // As an index, here and below; the numbers of a shape are bytes, as a policy's are.
    pub(crate) fn unknowns(&self) -> usize
        ensures { result ≡ self.now.shape.unknowns }
    {
        self.shape.unknowns() as usize
    }

    fn right_sides(&self) -> usize
        ensures { result ≡ self.now.shape.right_sides }
    {
        self.shape.right_sides() as usize
    }

    // Takes off the multiple of the pivot row that leaves zero in the column.
    pub(crate) fn clear(&self, row: &mut Equation, pivot: &Equation, column: usize)
        requires { column < self.now.shape.unknowns }
        ensures { Cleared (F.arithmetic self.now.field.now) self.now.shape.unknowns self.now.shape.right_sides column pivot.now row.old row.new }
    {
        let factor = self.field.negate(row.coefficients[column]);
        self.add_multiple(
            &mut row.coefficients[column..self.unknowns()],
            factor,
            &pivot.coefficients[column..],
        );
        // From 0, here and below: the check has no rule for an open range in a field behind a reference.
        self.add_multiple(
            &mut row.right_sides[0..self.right_sides()],
            factor,
            &pivot.right_sides,
        );
    }

    pub(crate) fn scale(&self, row: &mut Equation, factor: u32, column: usize)
        requires { column < self.now.shape.unknowns }
        ensures { Scaled (F.arithmetic self.now.field.now) self.now.shape.unknowns self.now.shape.right_sides column factor row.old row.new }
    {
        self.multiply_all(&mut row.coefficients[column..self.unknowns()], factor);
        self.multiply_all(&mut row.right_sides[0..self.right_sides()], factor);
    }

    // What an equation tells of which nothing is left on the left: its right sides are zero too, or nothing satisfies it.
    pub(crate) fn leftover(&self, row: &Equation) -> Result<(), Contradiction>
        ensures { Leftover (F.arithmetic self.now.field.now) self.now.shape.right_sides row.now result }
    {
        if self.all_zero(&row.right_sides[..self.right_sides()]) {
            Ok(())
        } else {
            Err(Contradiction)
        }
    }

    // What a form tells that is cleared at every column that has a row: where nothing is left of it, its values are the
    // negated right sides.
    pub(crate) fn reading(&self, row: &Equation) -> Decision
        ensures { Reading (F.arithmetic self.now.field.now) self.now.shape.unknowns self.now.shape.right_sides row.now result }
    {
        if !self.all_zero(&row.coefficients[..self.unknowns()]) {
            return Decision::Open;
        }
        let mut values = row.right_sides;
        self.negate_all(&mut values[..self.right_sides()]);
        Decision::Decided(values)
    }
}
