// What a card says of the coefficients: by what each of them is multiplied in the card's value.
ghost use Rattle.sharing.specs.Multipliers.{Multiplies};

use crate::MOST_COEFFICIENTS;
use crate::derivative::Derivative;
use crate::policy::Policy;
use fields::Field;

// By what the coefficients of a word are multiplied in its value on a card of this level and id; zeros past them,
// in fixed memory.
pub fn multipliers<F: Field>(
    field: &F,
    policy: Policy,
    level: u8,
    id: u32,
) -> [u32; MOST_COEFFICIENTS]
    ensures { Multiplies (F.arithmetic field.now) policy level id result }
{
    Derivative::on_card(&policy, level, id).multipliers(field)
}
