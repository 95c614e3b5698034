// What a list of linear equations says of a linear form.
ghost use Rattle.std.specs.Prelude.{◌≡◌, List};
ghost use Rattle.linear.specs.Solutions.{Decides, SameMembers};

use crate::equation::{Equation, Form, MOST_RIGHT_SIDES};
use crate::shape::Shape;
use crate::system::System;
use fields::Field;

// What equations tell of a form. A pool says the same three things of a key; one type for both would be no plainer, since
// equations know no key: each has its own word for the third and holds something else there.
#[derive(Clone, Copy, PartialEq, Eq, Debug)]
pub enum Decision {
    // No elements solve the equations.
    Contradictory,
    // Every value of the form is possible.
    Open,
    // Every solution gives the form these values, one for each right side; 0 past them, in fixed memory.
    Decided([u32; MOST_RIGHT_SIDES]),
}

// Says what the equations tell of the form.
pub fn decide<F: Field>(field: &F, shape: Shape, equations: &[Equation], form: &Form) -> Decision
    ensures right { Decides (F.arithmetic field.now) shape.unknowns shape.right_sides equations.now form.now result }
    ensures only { (d : Decision) → Decides (F.arithmetic field.now) shape.unknowns shape.right_sides equations.now form.now d → d ≡ result }
    ensures in_any_order { (others : List Equation) → SameMembers equations.now others → Decides (F.arithmetic field.now) shape.unknowns shape.right_sides others form.now result }
{
    System { field, shape }.eliminate(equations, form)
}
