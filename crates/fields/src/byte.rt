// The byte field, after FIPS 197: a byte is a polynomial over bits, modulo x^8 + x^4 + x^3 + x + 1.
ghost use Rattle.std.specs.Prelude.{◌≡◌, ◌<◌};
ghost use Rattle.fields.specs.Bytes.{bytes, xtime};
ghost use Rattle.fields.specs.Polynomials.{times, Remainder};
ghost use Rattle.fields.specs.ByteLaws.{byte_lawful};

use crate::Field;

#[derive(Clone, Copy, Drop)]
pub struct ByteField;

// A byte times x: a shift to the left, less the modulus if that passed the byte.
fn times_x(a: u32) -> u32
    requires { a < 256 }
    ensures { result ≡ xtime a }
{
    let doubled = (a << 1) % 256;
    if a >= 0x80 { doubled ^ 0x1b } else { doubled }
}

impl Field for ByteField {
    ghost arithmetic = { λ _. bytes };

    ghost lawful = { λ f. byte_lawful };

    fn size(&self) -> u32 {
        256
    }

    fn add(&self, a: u32, b: u32) -> u32 {
        (a % 256) ^ (b % 256)
    }

    // Every element gives zero with itself.
    fn negate(&self, a: u32) -> u32 {
        a % 256
    }

    fn multiply(&self, a: u32, b: u32) -> u32 {
        let bits = b % 256;
        let mut shifted = a % 256;
        let mut product = 0;
        // No plainer without the place: the bits of a number are no list.
        for i in 0u32..8 {
            if (bits >> i) % 2 == 1 {
                product ^= shifted;
            }
            shifted = times_x(shifted);
        }
        product
    }

    // `a` to the power 254: the powers 2^k - 1 up to 127, and the square of that.
    fn inverse(&self, a: u32) -> Option<u32> {
        let byte = a % 256;
        if byte == 0 {
            return None;
        }
        let mut power = byte;
        for _ in 0u32..6 {
            power = self.multiply(self.multiply(power, power), byte);
        }
        let inverse = self.multiply(power, power);
        Some(inverse)
    }
}

// The product of two bytes in the byte field: the remainder of their product as polynomials over bits.
pub fn byte_product(a: u8, b: u8) -> u8
    ensures { Remainder (times 8 a b) result }
{
    ByteField.multiply(a as u32, b as u32) as u8
}

#[cfg(test)]
mod tests {
    use super::*;
    use std::test::Fail;

    // The examples of FIPS 197.
    #[test]
    fn standard_examples(rt: HostRuntime) {
        assert_eq!(rt; ByteField.add(0x57, 0x83), 0xd4);
        assert_eq!(rt; ByteField.multiply(0x57, 0x83), 0xc1);
        assert_eq!(rt; ByteField.multiply(0x57, 0x02), 0xae);
        assert_eq!(rt; ByteField.multiply(0x57, 0x04), 0x47);
        assert_eq!(rt; ByteField.multiply(0x57, 0x08), 0x8e);
        assert_eq!(rt; ByteField.multiply(0x57, 0x10), 0x07);
        assert_eq!(rt; ByteField.multiply(0x57, 0x13), 0xfe);
        assert_eq!(rt; byte_product(0x57, 0x13), 0xfe);
    }

    #[test]
    fn inverses(rt: HostRuntime) -> Result<(), Fail> {
        assert_eq!(rt; ByteField.inverse(0), None);
        for a in 1u32..256 {
            let inverse = ByteField.inverse(a).ok_or("no inverse")?;
            assert_eq!(rt; ByteField.multiply(a, inverse), 1);
        }
        Ok(())
    }

    #[test]
    fn larger_numbers_are_read_as_remainders(rt: HostRuntime) {
        assert_eq!(rt; ByteField.size(), 256);
        assert_eq!(rt; ByteField.add(0x157, 0x283), 0xd4);
        assert_eq!(rt; ByteField.negate(0x157), 0x57);
        assert_eq!(rt; ByteField.multiply(0x157, 0xffffff83), 0xc1);
        assert_eq!(rt; ByteField.inverse(256), None);
        assert_eq!(rt; ByteField.inverse(0x102), Some(0x8d));
    }
}
