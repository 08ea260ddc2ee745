//! The lanes of a task: the life of a lane's child, its reader and its keeper beside each other; each lane runs its jobs in order, and all run
//! beside each other.
#![tactic(auto)]

mod child_judge;
mod ending;
mod entering;
mod gather;
mod job;
mod keeper;
mod known;
mod lane;
mod laws;
mod life;
mod making;
mod over;
mod passing;
mod placing;
mod prepare;
mod proof;
mod racing;
mod reader;
mod start;
mod task;
mod waiting;

pub use child_judge::{ChildJudge, ForJob};
pub use gather::Raced;
pub use job::{JobRun, run_started};
pub use keeper::Watch;
pub use lane::run_lane;
pub use laws::{lanes_are_consistent, reasons_have_causes};
pub use making::{Child, LaneFactory};
pub use over::Asked;
pub use prepare::{FreshLanes, fresh_lanes, spare_lanes};
pub use racing::{Lane, race, race_fresh, run_lanes};
pub use start::{look_first, run_child, want};
pub use task::{Limit, Task};
