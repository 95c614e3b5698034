// Recovery cards: who may open a drive, what the cards say, and what goes wrong with either.
#![tactic(auto)]

pub mod dealing;
mod derivative;
pub mod elements;
pub mod examples;
mod factors;
pub mod multipliers;
pub mod policy;
pub mod refusal;
pub mod words;

// How many coefficients a word may have: as many as the largest threshold says.
pub const MOST_COEFFICIENTS: usize = 32;
