//! The lanes of one task: which engine serves which job, the words of its child and the judge of its output; and their race, from the bays
//! of a yard to what they report.
#![tactic(auto)]

mod bays;
mod evidence;
mod file;
mod job_judge;
mod lanes;
mod laws;
mod prepare;
mod racing;
mod run;
mod truth;
mod words;

pub use evidence::Evidence;
pub use file::{FileText, ProblemFile};
pub use job_judge::JobJudge;
pub use lanes::ProblemLanes;
pub use laws::{
    each_lane_reports, ends_have_causes, lanes_stop_under_a_limit, streams_give_their_fates,
    winners_carry_findings,
};
pub use prepare::{PreparedRace, cancel_race, prepare_race};
pub use racing::{Racing, RanLanes, race_task};
pub use run::{RacedLanes, finish_race, race_prepared, run_race};
pub use words::btor_path;
