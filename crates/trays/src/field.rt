// The field that a tray's values are elements of.
ghost use Rattle.std.specs.Prelude.{◌≡◌};
ghost use Rattle.trays.specs.Fields.{KnownField, field_number};

use sharing::refusal::Refusal;

// A field, by the number that a tray knows it by.
#[derive(Clone, Copy, PartialEq, Eq, Debug)]
pub enum TrayField {
    Bytes = 1,
    Wide = 2,
}

impl TryFrom<u8> for TrayField {
    type Error = Refusal;

    ghost try_from_gives = { KnownField };

    fn try_from(number: u8) -> Result<TrayField, Refusal> {
        match number {
            1 => Ok(TrayField::Bytes),
            2 => Ok(TrayField::Wide),
            _ => Err(Refusal::UnknownField),
        }
    }
}

impl TrayField {
    // The number that a tray knows the field by: a name says more than a conversion would.
    pub fn number(self) -> u8
        ensures { result ≡ field_number self }
    {
        self as u8
    }
}
