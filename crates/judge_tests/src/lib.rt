//! The judge fed by hand, and the words of the top call: tests alone.
#![tactic(auto)]

#[cfg(test)]
mod judge_tests;
#[cfg(test)]
mod word_tests;
