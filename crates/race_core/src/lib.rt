//! The core of a race: what lanes report.
#![tactic(auto)]

mod answering;
mod end;
mod event;
mod event_list;
mod laws;
mod part;
mod printing;
mod report;
mod status;
mod step;

pub use answering::{answer_among, job_at};
pub use end::JobEnd;
pub use event::{Judged, LaneEvent, Polled};
pub use event_list::EventList;
pub use laws::sharing;
pub use part::{By, Keeper, Place, Reader, Reason};
pub use printing::printing_lane;
pub use report::{JobEvents, Report};
pub use status::{Outcome, Room, collect, collect_in};
pub use step::{JobTerms, LaneState, keeper_step, lane_step, place_step, reader_step};
