// Pools of presented cards: what they hold, and what their cards say of the key.
#![tactic(auto)]

mod card;
pub mod judgement;
pub mod key;
pub mod pool;
pub mod session;
pub mod theorems;
