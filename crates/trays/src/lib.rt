// Trays: files of cards, and their reader.
#![tactic(auto)]

pub mod card;
pub mod field;
pub mod item;
pub mod limits;
pub mod reader;
pub mod reading;
pub mod theorems;
