//! Tests of reader, check and player over whole texts.
#![tactic(auto)]

#[cfg(test)]
mod tests;
