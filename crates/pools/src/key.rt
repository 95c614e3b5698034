// A key.
ghost use Rattle.std.specs.Prelude.{◌≡◌, ◌≤◌, length};

use sharing::words::{MOST_WORDS, WordCount};
use std::marker::Model;

// The first `count` places hold the words, and zeros follow: an array in fixed memory, since an `ArrayVec` is no `Copy`. A
// policy keeps its thresholds alike, but of another type and under another rule, so that one type for both would be no plainer.
#[derive(Clone, Copy, PartialEq, Eq, Debug)]
pub struct Key {
    pub(crate) words: [u32; MOST_WORDS],
    pub(crate) count: WordCount,
}

// Clauses see the list of the words.
impl Model for Key {
    ghost use Rattle.std.specs.Prelude.{◌≡◌, ℕ, ◌≤◌, ◌++◌, ◌-◌, List, length, take, drop, replicate};
    ghost use Rattle.std.proofs.Common.{sym, refl, arith};
    ghost use Rattle.std.proofs.lemmas.List.{length-take-le, take-append-drop};

    ghost Value = { List ℕ };

    ghost view = { λ k. take k.count k.words };

    ghost invariant = { λ k. (length k.words ≡ 16) × (k.count ≤ 16) × (drop k.count k.words ≡ replicate (16 - k.count) 0) };

    ghost inverse = { λ ks. record { words = ks ++ replicate (16 - length ks) 0; count = length ks } };

    ghost inverse_ok = { λ k h.
        let long = length-take-le k.count k.words (omega arith) in
        rw (long, sym h.2, take-append-drop k.count k.words) refl };
}

impl Key {
    // The words, in order.
    pub fn as_slice(&self) -> &[u32]
        ensures words { result.now ≡ self.now }
        ensures few { (1 ≤ length result.now) × (length result.now ≤ 16) }
    {
        &self.words[..self.count.get() as usize]
    }
}
