//! Tests of the solver, of its words, and of the engine over files and connections in memory.
#![tactic(auto)]

#[cfg(test)]
mod tests;
