//! The top call: all that the program `sby` does.
#![tactic(auto)]

mod claims;
mod host;
mod judge_stream;
mod laws;
mod outcome;
mod put;
mod run;
mod serve;
mod slot;
mod task;
mod together;
mod top;
mod traces;
mod turns;

pub use claims::{
    each_end_is_of_a_task, each_status_names_its_event, exit_status_0_is_as_expected,
    fail_of_bmc_shows_its_run, fail_of_cover_names_a_statement, fail_of_prove_shows_its_run,
    files_change_by_job_and_trace_files, findings_are_of_the_text, last_line_is_the_status,
    output_can_be_read, pass_of_bmc_is_true, pass_of_cover_shows_its_runs, pass_of_prove_is_true,
    printed_verdicts_are_true, refused_words_give_the_usage_line, sink_grows_by_lines,
};
pub use laws::{
    accepted_design_is_judged, models_are_put_for_witnesses, one_plain_status, some_plain_status,
    stored_certificate_gives_its_verdict, undisturbed_lanes_give_the_plain_status,
    valid_certificate_gives_its_verdict, valid_certificates_give_their_verdict,
    valid_child_gives_its_verdict, valid_child_settles_its_job, valid_children_give_their_verdict,
};
pub use outcome::{Done, TaskEnd};
pub use top::run_sby;
