// Rows in echelon form, which stand for the equations taken in so far. No row is exchanged and none is changed later.
ghost use Rattle.std.specs.Prelude.{◌≡◌, List, length, replicate, None, IfOk, OnErr};
ghost use Rattle.linear.specs.Rows.{InEchelonForm, Inserts, Stands, NeverSatisfied, Promise};
ghost use Rattle.linear.specs.Solutions.{Decides};

use crate::decide::Decision;
use crate::equation::{Equation, Form, MOST_UNKNOWNS};
use crate::system::{Contradiction, System};
use fields::Field;

// At a column the row whose first coefficient other than zero stands there, a one.
#[derive(Drop)]
pub(crate) struct Echelon<'a, F: Field> {
    system: System<'a, F>,
    rows: [Option<Equation>; MOST_UNKNOWNS],
    ghost columns: { length rows ≡ 32 },
    ghost echelon: { InEchelonForm (F.arithmetic system.field.now) system.shape.unknowns rows },
}

impl<'a, F: Field> Echelon<'a, F> {
    fn empty(system: System<'a, F>) -> Echelon<'a, F>
        ensures over { result.system ≡ system.entry }
        ensures rows { result.rows ≡ replicate 32 None }
    {
        Echelon {
            system,
            rows: [None; MOST_UNKNOWNS],
        }
    }

    // Takes in one equation more, unless it contradicts those before. The new row is stored by its column: all the others are
    // only read.
    fn insert(&mut self, equation: &Equation) -> Result<(), Contradiction>
        ensures over { self.new.system ≡ self.old.system }
        ensures inserts { Inserts (F.arithmetic self.old.system.field.now) self.old.system.shape.unknowns self.old.system.shape.right_sides self.old.rows equation.now self.new.rows result }
    {
        let system = self.system;
        let mut row = *equation;
        for (column, slot) in self.rows[..system.unknowns()].iter().enumerate() {
            if let Some(pivot) = slot {
                system.clear(&mut row, pivot, column);
            } else if let Some(inverse) = system.field.inverse(row.coefficients[column]) {
                system.scale(&mut row, inverse, column);
                self.rows[column] = Some(row);
                return Ok(());
            }
        }
        system.leftover(&row)
    }

    // The rows that stand for the equations; a contradiction where no values satisfy them all.
    fn of(system: System<'a, F>, equations: &[Equation]) -> Result<Echelon<'a, F>, Contradiction>
        ensures over { IfOk result (λ e. e.system ≡ system.entry) }
        ensures stands { IfOk result (λ e. Stands (F.arithmetic system.entry.field.now) system.entry.shape.unknowns system.entry.shape.right_sides equations.now e.rows) }
        ensures never { OnErr result (NeverSatisfied (F.arithmetic system.entry.field.now) system.entry.shape.unknowns system.entry.shape.right_sides equations.now) }
    {
        let mut echelon = Echelon::empty(system);
        for equation in equations {
            echelon.insert(equation)?;
        }
        Ok(echelon)
    }

    // Clears the form at every column that has a row: what is left at the others tells whether its value is free. One loop for
    // this and for `insert` would be no plainer, since a column with no row stops nothing here.
    fn decide(&self, form: &Form) -> Decision
        ensures { (equations : List Equation) → Stands (F.arithmetic self.now.system.field.now) self.now.system.shape.unknowns self.now.system.shape.right_sides equations self.now.rows → Decides (F.arithmetic self.now.system.field.now) self.now.system.shape.unknowns self.now.system.shape.right_sides equations form.now result }
    {
        let system = self.system;
        let mut row = form.homogeneous();
        for (column, slot) in self.rows[..system.unknowns()].iter().enumerate() {
            if let Some(pivot) = slot {
                system.clear(&mut row, pivot, column);
            }
        }
        system.reading(&row)
    }
}

impl<'a, F: Field> System<'a, F> {
    // Says what the equations tell of the form, by their rows.
    pub(crate) fn eliminate(&self, equations: &[Equation], form: &Form) -> Decision
        ensures { Promise (F.arithmetic self.now.field.now) self.now.shape.unknowns self.now.shape.right_sides equations.now form.now result }
    {
        // Tried, and the proof did not close: `map_or` with a closure that decides.
        let Ok(echelon) = Echelon::of(*self, equations) else {
            return Decision::Contradictory;
        };
        echelon.decide(form)
    }
}
