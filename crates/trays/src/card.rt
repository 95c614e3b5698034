// A card of a tray, taken apart.
ghost use Rattle.std.specs.Prelude.{◌≡◌, ℕ, ◌-◌, ◌*◌, ◌≤◌, ◌++◌, length, replicate, MatchOption};
ghost use Rattle.trays.specs.Cards.{Says, Sized, little_endian, numbers};

use crate::limits::card_size;
use sharing::words::{MOST_WORDS, WordCount};

// What a card says. The first values are the card's, as many as it has words; the others are zero, and a caller may read
// them, so they stand in an array, in fixed memory. A card that a pool holds has exactly its values instead, and is a type
// of its own, since a tray has no pool.
#[derive(Clone, Copy)]
pub struct TrayCard {
    pub level: u8,
    pub id: u32,
    pub values: [u32; MOST_WORDS],
    ghost full: { length values ≡ 16 },
}

// The number that four bytes stand for, the lowest first. Tried, and the proof did not close: the library's method at both
// calls.
fn number(bytes: [u8; 4]) -> u32
    ensures { result ≡ little_endian bytes }
{
    u32::from_le_bytes(bytes)
}

// The numbers of four bytes each, and zeros after them.
fn numbers_in(bytes: &[u8]) -> [u32; MOST_WORDS]
    requires { length bytes.now ≤ 64 }
    ensures { (count : ℕ) → length bytes.now ≡ 4 * count → result ≡ numbers count bytes.now ++ replicate (16 - count) 0 }
{
    let (chunks, _) = bytes.as_chunks::<4>();
    let mut values = [0; MOST_WORDS];
    // Tried, and the proof did not close: `array::from_fn(|i| chunks.get(i).map_or(0, |chunk| number(*chunk)))`, and a `zip`
    // of the places with the chunks, of whose writes the check knows nothing.
    for (i, chunk) in chunks.iter().enumerate() {
        values[i] = number(*chunk);
    }
    values
}

// The card in `bytes`, if they are as long as a card with so many words.
pub fn card_of(bytes: &[u8], words: u8) -> Option<TrayCard>
    ensures { MatchOption result (Sized words bytes.now → ⊥) (λ c. Says words bytes.now c.level c.id c.values) }
{
    let words = WordCount::new(words).ok()?;
    if bytes.len() != card_size(words.get()) {
        return None;
    }
    let (level, rest) = bytes.split_first()?;
    let (id, values) = rest.split_first_chunk()?;
    Some(TrayCard {
        level: *level,
        id: number(*id),
        values: numbers_in(values),
    })
}
