//! Tests of connections in memory: requests, answers and the serving of one connection.
#![tactic(auto)]

#[cfg(test)]
mod tests;
