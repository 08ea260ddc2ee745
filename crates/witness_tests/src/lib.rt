//! Tests of the reader of witnesses.
#![tactic(auto)]

#[cfg(test)]
mod tests;
