//! Tests of the player, and of the cone of a job, over whole texts.
#![tactic(auto)]

#[cfg(test)]
mod tests;
