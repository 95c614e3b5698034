// Finite fields whose elements are told by numbers.
#![tactic(auto)]

ghost use Rattle.std.specs.Prelude.{◌≡◌};
ghost use Rattle.fields.specs.Arithmetic.{Arithmetic, Laws};

pub mod byte;
pub mod examples;
pub mod prime;

// A finite field. Its elements are told by the numbers below its size; every function reads a larger number as its
// remainder by the size, and every answer is below the size. No call changes the field.
pub trait Field {
    // What the functions below compute.
    ghost arithmetic: { Self → Arithmetic };

    // How many elements there are.
    fn size(&self) -> u32
        ensures { result ≡ (arithmetic self.now).size };

    fn add(&self, a: u32, b: u32) -> u32
        ensures { result ≡ (arithmetic self.now).add a b };

    // What gives zero when it is added to `a`.
    fn negate(&self, a: u32) -> u32
        ensures { result ≡ (arithmetic self.now).neg a };

    fn multiply(&self, a: u32, b: u32) -> u32
        ensures { result ≡ (arithmetic self.now).mul a b };

    // What gives one when it is multiplied by `a`; none where `a` stands for zero.
    fn inverse(&self, a: u32) -> Option<u32>
        ensures { result ≡ (arithmetic self.now).inv a };

    // The laws of a field, which each implementation proves and all code over a field rests on.
    ghost lawful: { (f : Self) → Laws (arithmetic f) };
}
