//! A judge of a stream as a witness that a goal is reached in a run of a model. What its frames choose is played on the model itself: no
//! answer rests on how the model is written as lines.
#![tactic(auto)]

mod asked;
mod inputs;
mod judging;
mod laws;
mod outcome;
mod outline;
mod playing;
mod slots;
mod sought;

pub use judging::WitnessJudge;
pub use laws::{fates_stay, found_is_shown, one_fate, played_runs_show, some_fate};
pub use outcome::Outcome;
pub use outline::open_shape;
pub use sought::Sought;
