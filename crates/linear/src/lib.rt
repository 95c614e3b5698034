// What a list of linear equations says of a linear form, over any field.
#![tactic(auto)]

pub mod decide;
mod echelon;
pub mod equation;
mod numbers;
pub mod shape;
mod system;
pub mod theorems;
