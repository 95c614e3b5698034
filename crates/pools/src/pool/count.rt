// What a pool says of itself by number: its words, its cards, and whether they are enough; nothing here judges them.
ghost use Rattle.std.specs.Prelude.{◌≡◌, ◌≤◌, false};
ghost use Rattle.sharing.specs.Refusals.{disordered};
ghost use Rattle.pools.specs.Pools.{Answers};
ghost use Rattle.pools.specs.Sessions.{Orderly, count, ask_held, ask_turned, up_to, number, truth};

use super::Pool;
use fields::Field;
use sharing::words::WordCount;

impl<F: Field> Pool<F> {
    // How many words a key has.
    pub fn words(&self) -> WordCount
        ensures { result ≡ self.now.words }
    {
        self.words
    }

    // How many held cards have this level or a lower one.
    fn up_to(&self, level: u8) -> usize
        ensures { result ≡ up_to (F.arithmetic self.now.field) self.now.policy self.now.words level self.now.list.held }
    {
        let mut cards = 0;
        for card in self.cards.as_slice() {
            if card.level <= level {
                cards += 1;
            }
        }
        cards
    }

    // Whether for some level enough cards of it and the lower ones are held. A loop and no `any`: a threshold is asked of the
    // policy and not listed, so the levels are numbers here.
    pub fn meets_policy(&self) -> bool
        ensures answer { Answers F.arithmetic self.now count (truth result) }
        ensures ordered { disordered self.now.policy ≡ false }
    {
        for level in 0..self.policy.levels() {
            let Some(threshold) = self.policy.threshold(level) else {
                unreachable()
            };
            if self.up_to(level) >= threshold as usize {
                return true;
            }
        }
        false
    }

    // How many cards are held.
    pub fn held(&self) -> usize
        ensures answer { Answers F.arithmetic self.now ask_held (number result) }
        ensures range { result ≤ 64 }
        ensures orderly { Orderly (F.arithmetic self.now.field) self.now.policy self.now.words self.now.list }
    {
        self.cards.len()
    }

    // How many presentations were turned away; the count stops at 65,535.
    pub fn turned_away(&self) -> u16
        ensures { Answers F.arithmetic self.now ask_turned (number result) }
    {
        self.turned
    }
}
