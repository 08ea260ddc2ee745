//! Tests of whole runs whose streams the engine writes.
#![tactic(auto)]

#[cfg(test)]
mod engine_tests;
