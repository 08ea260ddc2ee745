//! The terms of the runner: modes, jobs, answers, verdicts, statuses and engines, with the tables that decide them.
#![tactic(auto)]

mod address;
mod engine;
mod expect;
mod names;
mod number;
mod path;
mod settled;
mod span;
mod tables;

pub use address::{addresses_are_told, is_address};
pub use engine::{Engine, Words};
pub use expect::Expect;
pub use names::{Answer, Event, JobName, Mode, Status, Verdict};
pub use number::{number_upto, numbers_are_decimal};
pub use path::{job_path, job_text};
pub use settled::Settled;
pub use span::{MAX_DEPTH, MAX_SLICES, MAX_STREAM, Span};
pub use tables::{decide, one_status, one_verdict, rc_of, status_of};
