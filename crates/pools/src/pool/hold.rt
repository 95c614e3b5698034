// Makes pools, and presents and withdraws cards.
ghost use Rattle.std.specs.Prelude.{◌≡◌, ◌==◌, IfOk};
ghost use Rattle.std.specs.List.{position};
ghost use Rattle.pools.specs.Pools.{Frame, Steps, Answers};
ghost use Rattle.sharing.specs.Refusals.{refused};
ghost use Rattle.pools.specs.Sessions.{none_yet, present, withdraw, holds, refuses_card, answer_of};

use super::Pool;
use crate::card::HeldCard;
use arrayvec::ArrayVec;
use fields::Field;
use sharing::elements::any_outside;
use sharing::policy::Policy;
use sharing::refusal::Refusal;
use sharing::words::WordCount;

impl<F: Field> Pool<F> {
    // A pool that holds no card.
    pub fn new(field: F, policy: Policy, words: WordCount) -> Self
        ensures list { result.list ≡ none_yet }
        ensures frame { (result.field ≡ field) × (result.policy ≡ policy) × (result.words ≡ words) }
    {
        Pool {
            field,
            policy,
            words,
            cards: ArrayVec::new(),
            turned: 0,
        }
    }

    // Whether a card with this id is held.
    fn holds(&self, id: u32) -> bool
        ensures { result ≡ holds id self.now.list.held }
    {
        self.cards.iter().any(|card| card.id == id)
    }

    // The card to hold, or why it is turned away. A dealing's `issue` tests length, id and level alike: no plainer as one
    // function, which would take all that they test.
    fn try_card(&self, level: u8, id: u32, values: &[u32]) -> Result<HeldCard, Refusal>
        ensures answer { refused result ≡ refuses_card (F.arithmetic self.now.field) self.now.policy self.now.words self.now.list.held (record { level = level; id = id; values = values.now }) }
        ensures card { IfOk result (λ c. c ≡ record { level = level; id = id; values = values.now }) }
    {
        if values.len() != self.words.get() as usize {
            return Err(Refusal::WrongBufferLength);
        }
        if id == 0 || id >= self.field.size() {
            return Err(Refusal::WrongId);
        }
        if level >= self.policy.levels() {
            return Err(Refusal::NoSuchLevel);
        }
        if any_outside(&self.field, values) {
            return Err(Refusal::ValueOutsideField);
        }
        if self.holds(id) {
            return Err(Refusal::IdAlreadyHeld);
        }
        if self.cards.is_full() {
            return Err(Refusal::PoolFull);
        }
        let Ok(values) = ArrayVec::try_from(values) else {
            unreachable()
        };
        Ok(HeldCard { level, id, values })
    }

    // Holds the card, or turns it away and counts that. A level, an id and values are no plainer as one value, since callers
    // have them apart; nor is a `?` plainer than the `match`, since a card turned away is counted on the way out.
    pub fn present(&mut self, level: u8, id: u32, values: &[u32]) -> Result<(), Refusal>
        ensures list { Steps F.arithmetic self.old (present (record { level = level; id = id; values = values.now })) self.new }
        ensures frame { Frame self.old self.new }
        ensures answer { Answers F.arithmetic self.old (present (record { level = level; id = id; values = values.now })) (answer_of (refused result)) }
    {
        match self.try_card(level, id, values) {
            Ok(card) => {
                self.cards.push(card);
                Ok(())
            }
            Err(refusal) => {
                self.turned = self.turned.saturating_add(1);
                Err(refusal)
            }
        }
    }

    // Where the card with this id stands.
    fn place_of(&self, id: u32) -> Option<usize>
        ensures { result ≡ position (λ h. h.id == id) self.now.list.held }
    {
        self.cards.iter().position(|card| card.id == id)
    }

    // Takes the card with this id out. There is one at most, so that the search ends where it stands. No plainer by `ok_or`
    // and `?`, whose proof would speak of the way out too.
    pub fn withdraw(&mut self, id: u32) -> Result<(), Refusal>
        ensures list { Steps F.arithmetic self.old (withdraw id) self.new }
        ensures frame { Frame self.old self.new }
        ensures answer { Answers F.arithmetic self.old (withdraw id) (answer_of (refused result)) }
    {
        let Some(place) = self.place_of(id) else {
            return Err(Refusal::IdNotHeld);
        };
        self.cards.remove(place);
        Ok(())
    }
}
