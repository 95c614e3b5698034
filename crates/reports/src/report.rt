// What a run of a tray reports.
ghost use Rattle.std.specs.Prelude.{◌≡◌};
ghost use Rattle.sharing.specs.declared.refusal.Refusal.TheVariants as refusal;

use arrayvec::ArrayVec;
use pools::judgement::Judgement;
use pools::key::Key;
use sharing::refusal::Refusal;

// What a tray says before its cards, as a report tells it: each part by a byte, the policy by its number of levels. Anybody may
// make a header and print it, so it asks no field or number of words that a tray could have.
#[derive(Clone, Copy)]
pub struct Header {
    pub field: u8,
    pub levels: u8,
    pub words: u8,
    pub cards: u8,
}

// A card that the pool turned away: which of the tray's cards it is, counted from 1, and where it stands. No plainer around a
// fault, which ends a tray.
#[derive(Clone, Copy)]
pub struct RefusedCard {
    pub ordinal: u8,
    pub offset: usize,
    pub refusal: Refusal,
}

// What stands in an unused place. By hand: a refusal has no default.
impl Default for RefusedCard {
    ghost is_default = { λ c. c ≡ record { ordinal = 0; offset = 0; refusal = refusal.TrayEndsEarly } };

    fn default() -> RefusedCard {
        RefusedCard {
            ordinal: 0,
            offset: 0,
            refusal: Refusal::TrayEndsEarly,
        }
    }
}

// How many cards a tray may have.
pub const MOST_TRAY_CARDS: usize = 255;

// Who stopped a run.
#[derive(Clone, Copy)]
pub enum Layer {
    Reader,
    Policy,
}

// Why a run stopped before its end. No plainer around a reader's fault: a policy stops a run too.
#[derive(Clone, Copy)]
pub struct Stop {
    pub refusal: Refusal,
    pub layer: Layer,
    pub offset: usize,
}

// What comes of a run that came to its end: how many cards are held, how many were turned away, and the verdict.
#[derive(Clone, Copy)]
pub struct Judged {
    pub held: usize,
    pub turned: u16,
    pub verdict: Judgement<Key>,
}

// What a run of a tray reports. The header is there once the card count was read; the cards that the pool turned away stand
// in the tray's order.
#[derive(Drop)]
pub struct TrayReport {
    pub header: Option<Header>,
    pub refused: ArrayVec<RefusedCard, MOST_TRAY_CARDS>,
    pub conclusion: Result<Judged, Stop>,
}
