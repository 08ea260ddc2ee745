//! The judge: a stream becomes a finding about the design, and a finding is true wherever it is.
#![tactic(auto)]

mod basis;
mod certificate;
mod designs;
mod encoding;
mod finding;
mod invariant;
mod job_file;
mod judging;
mod laws;
mod problem;
mod run;
mod solver;
mod text;
mod witness;

pub use designs::Designs;
pub use finding::Finding;
pub use job_file::{JobFile, JobText};
pub use judging::{Judge, Progress, State, serves};
pub use laws::{
    base_and_step_show_that_nothing_breaks, every_choice_has_a_run_of_the_design, fates_stay,
    files_tell_what_jobs_ask, findings_tell_what_can_be_solved,
    found_fates_tell_what_can_be_solved, free_variables_are_read,
    invariants_show_that_nothing_breaks, jobs_stand_in_their_order, one_fate, one_file,
    one_played_run, played_run_ends_at_first_goal, played_run_is_zero_where_nothing_reads,
    slices_show_that_nothing_breaks, some_fate, too_many_only_past_the_cost,
};
pub use problem::{Problem, ProblemFault};
pub use run::PlayedRun;
pub use solver::SolverJudge;
pub use text::Text;
