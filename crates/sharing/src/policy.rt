// Who may open a drive.
ghost use Rattle.std.specs.Prelude.{◌≡◌, ◌<◌, ◌≤◌, false, length, IfOk, MatchOption, slice_index};
ghost use Rattle.sharing.specs.Cards.{top, order};
ghost use Rattle.sharing.specs.Refusals.{disordered, refused, refuses_policy};

use crate::refusal::Refusal;
use std::marker::Model;

const MOST_LEVELS: usize = 8;

const LARGEST_THRESHOLD: u8 = 32;

// A policy: one to eight levels, counted from 0, with a threshold each, from 1 to 32 and each above the one before it. The
// first `count` places hold them, and zeros follow: an array in fixed memory, since an `ArrayVec` is no `Copy`. A key keeps
// its words alike, but one type for both would be no plainer: it is of another type and under another rule.
#[derive(Clone, Copy)]
pub struct Policy {
    thresholds: [u8; MOST_LEVELS],
    count: u8,
}

// Clauses see the list of the thresholds, level 0 first.
impl Model for Policy {
    ghost use Rattle.std.specs.Prelude.{◌≡◌, ℕ, ◌≤◌, ◌++◌, ◌-◌, false, List, length, take, drop, replicate};
    ghost use Rattle.std.proofs.Common.{sym, refl, arith};
    ghost use Rattle.std.proofs.lemmas.List.{length-take-le, take-append-drop};
    ghost use Rattle.sharing.specs.Refusals.{disordered};

    ghost Value = { List ℕ };

    ghost view = { λ p. take p.count p.thresholds };

    ghost invariant = { λ p. (length p.thresholds ≡ 8) × (1 ≤ p.count) × (p.count ≤ 8) × (disordered (take p.count p.thresholds) ≡ false) × (drop p.count p.thresholds ≡ replicate (8 - p.count) 0) };

    ghost inverse = { λ ts. record { thresholds = ts ++ replicate (8 - length ts) 0; count = length ts } };

    ghost inverse_ok = { λ p h.
        let long = length-take-le p.count p.thresholds (omega arith) in
        rw (long, sym h.4, take-append-drop p.count p.thresholds) refl };
}

impl Policy {
    // The policy with these thresholds, level 0 first.
    pub fn new(levels: &[u8]) -> Result<Policy, Refusal>
        ensures answer { refused result ≡ refuses_policy levels.now }
        ensures made { IfOk result (λ p. p ≡ levels.now) }
    {
        if levels.is_empty() || levels.len() > MOST_LEVELS {
            return Err(Refusal::WrongLevelCount);
        }
        // No plainer by `is_sorted_by`: the first is held against 0, and each against the largest too.
        let mut last = 0;
        for threshold in levels {
            if *threshold <= last || *threshold > LARGEST_THRESHOLD {
                return Err(Refusal::WrongThreshold);
            }
            last = *threshold;
        }
        let mut thresholds = [0; MOST_LEVELS];
        thresholds[..levels.len()].copy_from_slice(levels);
        Ok(Policy {
            thresholds,
            count: levels.len() as u8,
        })
    }

    // The thresholds, level 0 first.
    fn as_slice(&self) -> &[u8]
        ensures thresholds { result.now ≡ self.now }
        ensures ordered { disordered self.now ≡ false }
    {
        &self.thresholds[..self.count as usize]
    }

    // How many levels there are, 1 to 8.
    pub fn levels(&self) -> u8
        ensures count { result ≡ length self.now }
        ensures range { (1 ≤ result) × (result ≤ 8) }
        ensures ordered { disordered self.now ≡ false }
    {
        self.count
    }

    // The threshold of a level, or none where there is no such level.
    pub fn threshold(&self, level: u8) -> Option<u8>
        ensures { MatchOption result (length self.now ≤ level) (λ t. (level < length self.now) × (t ≡ slice_index self.now level) × (1 ≤ t) × (t ≤ top self.now)) }
    {
        let threshold = self.as_slice().get(level as usize)?;
        Some(*threshold)
    }

    // The last threshold, which is the largest: how many coefficients a word has.
    pub fn top(&self) -> u8
        ensures last { result ≡ top self.now }
        ensures range { (1 ≤ result) × (result ≤ 32) }
        ensures ordered { disordered self.now ≡ false }
    {
        self.thresholds[self.count as usize - 1]
    }

    // The order of the derivative on a level's cards: the top threshold less the level's own.
    pub fn order(&self, level: u8) -> Option<u8>
        ensures { MatchOption result (length self.now ≤ level) (λ d. (level < length self.now) × (d ≡ order self.now level) × (d < top self.now)) }
    {
        let threshold = self.threshold(level)?;
        Some(self.top() - threshold)
    }
}
