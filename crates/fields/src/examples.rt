// Worked examples of both fields, stated of their arithmetic and computed by the code.
ghost use Rattle.std.specs.Prelude.{◌≡◌, Some};
ghost use Rattle.fields.specs.Examples.{Examples};

use crate::Field;
use crate::byte::ByteField;
use crate::prime::WIDE_FIELD;

#[derive(Clone, Copy)]
pub struct Worked {
    pub sum: u32,
    pub product: u32,
    pub multiple: u32,
    pub square: u32,
    pub half: Option<u32>,
}

pub fn worked_examples() -> Worked
    ensures stated { Examples }
    ensures computed { (result.sum ≡ 212) × (result.product ≡ 193) × (result.multiple ≡ 254) × (result.square ≡ 1) × (result.half ≡ Some 32769) }
{
    Worked {
        sum: ByteField.add(87, 131),
        product: ByteField.multiply(87, 131),
        multiple: ByteField.multiply(87, 19),
        square: WIDE_FIELD.multiply(65536, 65536),
        half: WIDE_FIELD.inverse(2),
    }
}
