// The cards that were presented and are not withdrawn.
use crate::card::HeldCard;
use arrayvec::ArrayVec;
use fields::Field;
use sharing::policy::Policy;
use sharing::words::WordCount;
use std::marker::Model;

pub mod count;
pub mod hold;
pub mod judge;

// How many cards a pool has room for.
const MOST_CARDS: usize = 64;

// The held cards, oldest first; `turned` counts the presentations that were turned away. In every pool the cards are
// orderly: few, fit for the policy, and different in their ids.
#[derive(Drop)]
pub struct Pool<F: Field> {
    field: F,
    policy: Policy,
    words: WordCount,
    cards: ArrayVec<HeldCard, MOST_CARDS>,
    turned: u16,
}

// Clauses see a pool by its field, its policy, its number of words and its card list. Statements about cards name the
// arithmetic, the policy and the number of words apart, since they know no pool.
impl<F: Field> Model for Pool<F> {
    ghost use Rattle.pools.specs.Pools.{Seen};
    ghost use Rattle.pools.specs.Sessions.{Orderly};

    ghost Value = { Seen F };

    ghost view = { λ p. record { field = p.field; policy = p.policy; words = p.words; list = record { held = p.cards.items; turned = p.turned } } };

    ghost invariant = { λ p. Orderly (F.arithmetic p.field) p.policy p.words (record { held = p.cards.items; turned = p.turned }) };
}
