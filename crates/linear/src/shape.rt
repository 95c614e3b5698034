// How many unknowns and how many right sides the equations of one list have.
ghost use Rattle.std.specs.Prelude.{◌≡◌, ◌≤◌, MatchOption};

use crate::equation::{MOST_RIGHT_SIDES, MOST_UNKNOWNS};

#[derive(Clone, Copy)]
pub struct Shape {
    unknowns: u8,
    right_sides: u8,
    ghost some_unknowns: { 1 ≤ unknowns },
    ghost most_unknowns: { unknowns ≤ 32 },
    ghost some_right_sides: { 1 ≤ right_sides },
    ghost most_right_sides: { right_sides ≤ 16 },
}

impl Shape {
    // None where there would be no unknown, more than 32, no right side, or more than 16.
    pub fn new(unknowns: u8, right_sides: u8) -> Option<Shape>
        ensures { MatchOption result ((1 ≤ unknowns) → (unknowns ≤ 32) → (1 ≤ right_sides) → (right_sides ≤ 16) → ⊥) (λ s. (s.unknowns ≡ unknowns) × (s.right_sides ≡ right_sides)) }
    {
        if unknowns == 0 || unknowns as usize > MOST_UNKNOWNS {
            return None;
        }
        if right_sides == 0 || right_sides as usize > MOST_RIGHT_SIDES {
            return None;
        }
        Some(Shape {
            unknowns,
            right_sides,
        })
    }

    pub fn unknowns(self) -> u8
        ensures { result ≡ self.unknowns }
    {
        self.unknowns
    }

    pub fn right_sides(self) -> u8
        ensures { result ≡ self.right_sides }
    {
        self.right_sides
    }
}
