// Linear equations and linear forms. Every number is read as the element that it stands for, its remainder by the
// field's size; the places past the shape are not looked at. They are arrays in fixed memory with room for the most, and the
// shape stands once for all of them.
ghost use Rattle.std.specs.Prelude.{◌≡◌, length, replicate};

// How many unknowns and right sides there is room for.
pub const MOST_UNKNOWNS: usize = 32;

pub const MOST_RIGHT_SIDES: usize = 16;

// The coefficients of the unknowns, and the right sides: the same left side for each of them.
#[derive(Clone, Copy)]
pub struct Equation {
    pub coefficients: [u32; MOST_UNKNOWNS],
    pub right_sides: [u32; MOST_RIGHT_SIDES],
    ghost unknowns: { length coefficients ≡ 32 },
    ghost sides: { length right_sides ≡ 16 },
}

// Nothing of any unknown is zero. By hand, here and below: a derive gives no `default` to a type with clauses of its own.
impl Default for Equation {
    ghost is_default = { λ e. (e.coefficients ≡ replicate 32 0) × (e.right_sides ≡ replicate 16 0) };

    fn default() -> Equation {
        Form::default().homogeneous()
    }
}

// A fixed sum of multiples of the unknowns.
#[derive(Clone, Copy)]
pub struct Form {
    pub coefficients: [u32; MOST_UNKNOWNS],
    ghost unknowns: { length coefficients ≡ 32 },
}

// The form that is always zero.
impl Default for Form {
    ghost is_default = { λ f. f.coefficients ≡ replicate 32 0 };

    fn default() -> Form {
        Form {
            coefficients: [0; MOST_UNKNOWNS],
        }
    }
}

impl Form {
    // The equation that the form is zero, on every right side.
    pub(crate) fn homogeneous(&self) -> Equation
        ensures left { result.coefficients ≡ self.now.coefficients }
        ensures right { result.right_sides ≡ replicate 16 0 }
    {
        Equation {
            coefficients: self.coefficients,
            right_sides: [0; MOST_RIGHT_SIDES],
        }
    }
}
