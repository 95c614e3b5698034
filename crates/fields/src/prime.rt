// The prime fields: arithmetic modulo a prime number, one family for every prime up to 65,537.
ghost use Rattle.std.specs.Prelude.{◌≡◌, ℕ, ◌≤◌};
ghost use Rattle.fields.specs.Modulo.{Prime, modulo};
ghost use Rattle.std.proofs.Common.{arith, lit≤};
ghost use Rattle.fields.specs.ModuloLemmas.{laws_modulo, wide_prime};

use crate::Field;

// A prime number as a type, so that the compiler divides by a constant.
pub trait Modulus {
    ghost MODULUS: { ℕ };

    const MODULUS: u32;

    ghost prime: { Prime MODULUS };

    ghost range: { MODULUS ≤ 65537 };
}

// The field of the numbers below a prime modulus.
#[derive(Clone, Copy, Drop)]
pub struct PrimeField<M> {
    pub modulus: M,
}

impl<M: Modulus> Field for PrimeField<M> {
    ghost arithmetic = { λ _. modulo M.MODULUS };

    ghost lawful = { λ f.
        let small = M.range in
        laws_modulo M.MODULUS M.prime (omega arith) };

    fn size(&self) -> u32 {
        M::MODULUS
    }

    fn add(&self, a: u32, b: u32) -> u32 {
        ((a as u64 + b as u64) % M::MODULUS as u64) as u32
    }

    fn negate(&self, a: u32) -> u32 {
        (M::MODULUS - a % M::MODULUS) % M::MODULUS
    }

    fn multiply(&self, a: u32, b: u32) -> u32 {
        ((a as u64 * b as u64) % M::MODULUS as u64) as u32
    }

    fn inverse(&self, a: u32) -> Option<u32> {
        euclid(a, M::MODULUS)
    }
}

// The inverse of `a` modulo `m` by the extended Euclidean algorithm; none where the two have a common divisor.
// Throughout, `a` times `factor` leaves `high`, and `a` times `next` leaves `low`.
fn euclid(a: u32, m: u32) -> Option<u32>
    requires { 2 ≤ m }
    ensures { result ≡ (modulo m).inv a }
{
    let modulus = m as u64;
    let mut high = modulus;
    let mut low = a as u64 % modulus;
    let mut factor: u64 = 0;
    let mut next: u64 = 1;
    while low > 0 {
        let quotient = high / low;
        let following = (factor + (modulus - (quotient * next) % modulus)) % modulus;
        let rest = high % low;
        high = low;
        low = rest;
        factor = next;
        next = following;
    }
    if high == 1 { Some(factor as u32) } else { None }
}

// The modulus of the wide field.
#[derive(Clone, Copy, Drop)]
pub struct WideModulus;

impl Modulus for WideModulus {
    ghost MODULUS = { 65537 };

    const MODULUS: u32 = 65537;

    ghost prime = { wide_prime };

    ghost range = { lit≤ tt };
}

// The wide field: the numbers below 65,537.
pub type WideField = PrimeField<WideModulus>;

pub const WIDE_FIELD: WideField = PrimeField {
    modulus: WideModulus,
};

#[cfg(test)]
mod tests {
    use super::*;
    use std::test::Fail;

    #[test]
    fn inverses(rt: HostRuntime) -> Result<(), Fail> {
        assert_eq!(rt; WIDE_FIELD.inverse(0), None);
        assert_eq!(rt; WIDE_FIELD.inverse(1), Some(1));
        assert_eq!(rt; WIDE_FIELD.inverse(2), Some(32769));
        assert_eq!(rt; WIDE_FIELD.inverse(3), Some(21846));
        assert_eq!(rt; WIDE_FIELD.inverse(65536), Some(65536));
        for a in 1u32..300 {
            let inverse = WIDE_FIELD.inverse(a).ok_or("no inverse")?;
            assert_eq!(rt; WIDE_FIELD.multiply(a, inverse), 1);
        }
        Ok(())
    }

    #[test]
    fn larger_numbers_are_read_as_remainders(rt: HostRuntime) {
        assert_eq!(rt; WIDE_FIELD.size(), 65537);
        assert_eq!(rt; WIDE_FIELD.add(65540, 65536), 2);
        assert_eq!(rt; WIDE_FIELD.add(4294967294, 4294967294), 65535);
        assert_eq!(rt; WIDE_FIELD.negate(65540), 65534);
        assert_eq!(rt; WIDE_FIELD.negate(65537), 0);
        assert_eq!(rt; WIDE_FIELD.multiply(65540, 65541), 12);
        assert_eq!(rt; WIDE_FIELD.multiply(4294967294, 4294967294), 1);
        assert_eq!(rt; WIDE_FIELD.inverse(65540), Some(21846));
        assert_eq!(rt; WIDE_FIELD.inverse(65537), None);
    }
}
