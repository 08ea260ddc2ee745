//! Streams judged piece by piece: whether they are certificates that an invariant holds of a pair of cycles.
#![tactic(auto)]

mod asking;
mod claim;
mod judging;
mod opening;
mod outcome;
mod stage;

pub use judging::InvJudge;
pub use outcome::InvOutcome;
