//! Tests of task files and their tasks, over whole files.
#![tactic(auto)]

#[cfg(test)]
mod tests;
