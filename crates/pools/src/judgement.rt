// What held cards say of the key.
ghost use Rattle.std.specs.Prelude.{Some};
ghost use Rattle.pools.specs.Judging.{verdict_text};

use crate::key::Key;
use std::fmt;

#[derive(Clone, Copy, PartialEq, Eq, Debug)]
pub enum Judgement<K> {
    // No coefficients agree with every card: some card is false.
    Contradictory,
    // Every key is possible.
    Open,
    // There is one key.
    Key(K),
}

// The verdict in words; those of a key stand each after a space. By hand, as the lines of a report are: no derive writes them.
impl fmt::Display for Judgement<Key> {
    ghost output = { λ j. Some (verdict_text j) };

    fn fmt<W: fmt::Write>(&self, f: &mut fmt::Formatter<W>) -> fmt::Result {
        match *self {
            Judgement::Contradictory => write!(f, "contradictory"),
            Judgement::Open => write!(f, "open"),
            Judgement::Key(key) => {
                write!(f, "key")?;
                for word in key.as_slice() {
                    write!(f, " {word}")?;
                }
                Ok(())
            }
        }
    }
}
