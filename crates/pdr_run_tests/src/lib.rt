//! Tests of the engine of invariants, over files and output in memory.
#![tactic(auto)]

#[cfg(test)]
mod finding;
#[cfg(test)]
mod refusing;
#[cfg(test)]
mod running;
