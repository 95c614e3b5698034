// Tests of the libraries: outside vectors and the edges of every rule.
#![tactic(auto)]

#[cfg(test)]
mod issuing;
#[cfg(test)]
mod readers;
#[cfg(test)]
mod runs;
#[cfg(test)]
mod systems;
#[cfg(test)]
mod verdicts;
