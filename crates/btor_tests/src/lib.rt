//! Tests of BTOR2 models and their text.
#![tactic(auto)]

#[cfg(test)]
mod tests;
