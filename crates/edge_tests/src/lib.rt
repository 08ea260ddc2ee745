//! Tests of terms and rules, of the outside in memory, and of reports and cells of a race.
#![tactic(auto)]

#[cfg(test)]
mod tests;
