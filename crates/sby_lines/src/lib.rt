//! The printed lines of a task.
#![tactic(auto)]

mod collected;
mod counts;
mod early;
mod ends;
mod heading;
mod laws;
mod printed;
mod tell;
mod tell_covers;
mod tell_lanes;
mod tell_run;
mod tell_task;
mod text;

pub use collected::{Collected, first_sat};
pub use early::Early;
pub use ends::early_status;
pub use heading::Heading;
pub use laws::{
    fail_shows_its_run, job_lines_are_one, job_lines_exist, lines_exist, printed_finding_exists,
    settled_statement_is_shown,
};
pub use printed::{printed_finding, stop_reading};
pub use tell::{Stop, offer, tell_name};
pub use tell_task::{tell_design, tell_done, tell_early, tell_jobs, tell_unput};
pub use text::{trace_path, usage_line};
