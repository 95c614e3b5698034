// Why a call was turned down. Each call tries the conditions that concern it in the order of their numbers, and answers
// the first that holds.
ghost use Rattle.std.specs.Prelude.{◌≡◌, Some};
ghost use Rattle.sharing.specs.Refusals.{number, sentence};

use std::error::Error;
use std::fmt;

#[derive(Clone, Copy, PartialEq, Eq, Debug)]
pub enum Refusal {
    TrayEndsEarly = 1,
    UnknownField = 2,
    WrongLevelCount = 3,
    WrongThreshold = 4,
    WrongWordCount = 5,
    WrongCoefficientCount = 6,
    CoefficientOutsideField = 7,
    WrongBufferLength = 8,
    WrongId = 9,
    NoSuchLevel = 10,
    ValueOutsideField = 11,
    IdAlreadyHeld = 12,
    PoolFull = 13,
    IdNotHeld = 14,
    TrailingByte = 15,
}

impl Refusal {
    // The number that reports and users know the refusal by: a name says more than a conversion would.
    pub fn number(self) -> u8
        ensures { result ≡ number self }
    {
        self as u8
    }

    // The refusal in words.
    pub fn sentence(self) -> &'static str
        ensures { result.now ≡ sentence self }
    {
        match self {
            Refusal::TrayEndsEarly => "the tray ends before the part being read is complete",
            Refusal::UnknownField => "the tray's field byte is neither 1 nor 2",
            Refusal::WrongLevelCount => "a policy has 1 to 8 thresholds",
            Refusal::WrongThreshold => "a threshold is 0, above 32, or not above the one before",
            Refusal::WrongWordCount => "the word count is 0 or above 16",
            Refusal::WrongCoefficientCount => {
                "the coefficients are not as many as words times the last threshold"
            }
            Refusal::CoefficientOutsideField => "a coefficient is not below the field's size",
            Refusal::WrongBufferLength => "the buffer has not one place for each word",
            Refusal::WrongId => "the id is 0 or not below the field's size",
            Refusal::NoSuchLevel => "the policy has no such level",
            Refusal::ValueOutsideField => "a value on the card is not below the field's size",
            Refusal::IdAlreadyHeld => "a card with this id is already held",
            Refusal::PoolFull => "the pool holds 64 cards",
            Refusal::IdNotHeld => "no card with this id is held",
            Refusal::TrailingByte => "a byte follows the tray's last card",
        }
    }
}

// By hand: a derive would say the sentences again, beside those that clauses name.
impl fmt::Display for Refusal {
    ghost output = { λ r. Some (sentence r) };

    fn fmt<W: fmt::Write>(&self, f: &mut fmt::Formatter<W>) -> fmt::Result {
        write!(f, "{}", self.sentence())
    }
}

impl Error for Refusal {}
