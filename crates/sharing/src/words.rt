// How many words a key has.
ghost use Rattle.std.specs.Prelude.{◌≡◌, ℕ, ◌≤◌, IfOk};
ghost use Rattle.sharing.specs.Refusals.{refused, refuses_words};

use crate::refusal::Refusal;
use std::marker::Model;

// How many words a key may have. A card has a value for each.
pub const MOST_WORDS: usize = 16;

// A number of words, from 1 to 16.
#[derive(Clone, Copy, PartialEq, Eq, Debug)]
pub struct WordCount {
    words: u8,
}

// Clauses see the number.
impl Model for WordCount {
    ghost Value = { ℕ };

    ghost view = { λ w. w.words };

    ghost invariant = { λ w. (1 ≤ w.words) × (w.words ≤ 16) };

    ghost inverse = { λ n. record { words = n } };
}

impl WordCount {
    pub fn new(words: u8) -> Result<WordCount, Refusal>
        ensures answer { refused result ≡ refuses_words words }
        ensures made { IfOk result (λ w. w ≡ words) }
    {
        if words == 0 || words as usize > MOST_WORDS {
            return Err(Refusal::WrongWordCount);
        }
        Ok(WordCount { words })
    }

    // A byte, as trays have it; what asks for an index says so.
    pub fn get(&self) -> u8
        ensures words { result ≡ self.now }
        ensures range { (1 ≤ result) × (result ≤ 16) }
    {
        self.words
    }
}
