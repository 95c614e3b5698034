// A card as a pool holds it, in fixed memory. Its default stands in the places of a pool that are not used.
use arrayvec::ArrayVec;
use sharing::words::MOST_WORDS;
use std::marker::Model;

#[derive(Default, Drop)]
pub struct HeldCard {
    pub(crate) level: u8,
    pub(crate) id: u32,
    pub(crate) values: ArrayVec<u32, MOST_WORDS>,
}

// Clauses see the card.
impl Model for HeldCard {
    ghost use Rattle.sharing.specs.Cards.{Card};

    ghost Value = { Card };

    ghost view = { λ c. record { level = c.level; id = c.id; values = c.values.items } };
}
