//! Tests of what hostile deletions cost: each ends within seconds, and takes minutes where a step is done again for all that came before.
#![tactic(auto)]

#[cfg(test)]
mod deletions;
