// Runs of whole trays, and what they report.
#![tactic(auto)]

mod opening;
pub mod report;
pub mod run;
mod session;
pub mod text;
