//! Tests of formulas, of checkers of proofs, and of streams and outputs judged.
#![tactic(auto)]

#[cfg(test)]
mod tests;
