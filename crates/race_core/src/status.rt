// The status of a task, from the reports of its lanes.

ghost use Rattle.race_core.specs.Told.{told_by};
ghost use Rattle.std.specs.Prelude.{◌≡◌, ◌<◌, ◌≤◌, ◌+◌, ◌*◌, ◌++◌, [], All, IfOk, List, Option, Some, None, true, false, length, map, slice_get, vec_capacity};
ghost use Rattle.race_core.specs.Consistent.{end_at};
ghost use Rattle.race_core.specs.Collect.{AreTold, IsOutcome, IsStatus};
ghost use Rattle.race_core.specs.Room.{HasRoom};

use crate::answering::answers;
use crate::printing::printing_lanes;
use crate::{JobEnd, Report};
use sby_terms::{Answer, Event, Mode, Settled, Status, decide, status_of};
use std::alloc::{AllocError, Global};

// What the end of an unsettled job says.
fn told<T>(end: &JobEnd<T>) -> Event
    ensures { result ≡ told_by end.now }
{
    match end {
        JobEnd::Bad { .. } | JobEnd::ReadFailed | JobEnd::StartFailed | JobEnd::HoldFailed =>
            Event::Fault,
        JobEnd::Stopped(_) => Event::Stopped,
        JobEnd::Memory => Event::Memory,
        JobEnd::Found(_)
        | JobEnd::Unknown
        | JobEnd::NotServed
        | JobEnd::Skipped(_)
        | JobEnd::CalledOff(_) => Event::Quiet,
    }
}

fn told_at<T: Drop>(report: &Report<T>, place: usize) -> Event
    requires { place < length report.now.ends }
    ensures { result ≡ told_by (end_at report.now place) }
{
    told(&report.ends()[place])
}

// Adds what the reports' ends of a job say.
fn add_told<T: Drop>(events: &mut Vec<Event>, reports: &[Report<T>], place: usize)
    requires ends { All (λ r. place < length r.ends) reports.now }
    requires room { length events.old.items + length reports.now ≤ vec_capacity events.old }
    ensures events { events.new.items ≡ events.old.items ++ map (λ r. told_by (end_at r place)) reports.now }
    ensures room { vec_capacity events.new ≡ vec_capacity events.old }
{
    for report in reports {
        events.push_reserved(told_at(report, place));
    }
}

fn is_unsettled(answers: &[Option<Answer>], place: usize) -> bool
    requires { place < length answers.now }
    ensures yes { result ≡ true → slice_get answers.now place ≡ Some None }
    ensures no { result ≡ false → slice_get answers.now place ≡ Some None → ⊥ }
{
    answers[place].is_none()
}

/// What the ends of the unsettled jobs say, in a vector with room for it.
fn events_of<T: Drop>(
    mut events: Vec<Event>,
    reports: &[Report<T>],
    answers: &[Option<Answer>],
) -> Vec<Event>
    requires ends { All (λ r. length r.ends ≡ length answers.now) reports.now }
    requires none { events.items ≡ [] }
    requires room { length answers.now * length reports.now ≤ vec_capacity events }
    ensures { AreTold reports.now answers.now (length answers.now) result.items }
{
    for place in 0..answers.len() {
        if is_unsettled(answers, place) {
            add_told(&mut events, reports, place);
        }
    }
    events
}

/// What follows from the reports of a task.
#[derive(Drop)]
pub struct Outcome {
    /// The answer of each job that is settled.
    pub answers: Vec<Option<Answer>>,
    /// The lane whose finding is printed, for each job that is settled.
    pub lanes: Vec<Option<u32>>,
    pub status: Status,
}

/// Room for the outcome of a race's reports. It is made before the race, so that nothing is lost where memory runs out after it.
#[derive(Drop)]
pub struct Room {
    answers: Vec<Option<Answer>>,
    lanes: Vec<Option<u32>>,
    events: Vec<Event>,
}

impl Room {
    /// Room for this many jobs and reports.
    pub fn new(alloc: Global, jobs: u32, reports: usize) -> Result<Room, AllocError>
        ensures { IfOk result (HasRoom jobs reports) }
    {
        let Some(entries) = (jobs as usize).checked_mul(reports) else {
            return Err(AllocError);
        };
        Ok(Room {
            answers: Vec::with_capacity(alloc, jobs as usize)?,
            lanes: Vec::with_capacity(alloc, jobs as usize)?,
            events: Vec::with_capacity(alloc, entries)?,
        })
    }
}

/// Collects the reports of a task's lanes in room that was made for them.
pub fn collect_in<T: Settled + Drop>(
    room: Room,
    reports: &[Report<T>],
    mode: Mode,
    jobs: u32,
) -> Outcome
    requires room { HasRoom jobs (length reports.now) room }
    requires ends { All (λ r. length r.ends ≡ jobs) reports.now }
    requires events { All (λ r. length r.events ≡ jobs) reports.now }
    ensures { IsOutcome T.job T.answer mode jobs reports.now result.answers.items result.lanes.items result.status }
{
    let answers = answers(room.answers, reports, mode, jobs);
    let lanes = printing_lanes(room.lanes, reports, mode, jobs);
    let status = status_among(room.events, reports, mode, answers.as_slice());
    Outcome {
        answers,
        lanes,
        status,
    }
}

/// Collects the reports of a task's lanes.
pub fn collect<T: Settled + Drop>(
    alloc: Global,
    reports: &[Report<T>],
    mode: Mode,
    jobs: u32,
) -> Result<Outcome, AllocError>
    requires ends { All (λ r. length r.ends ≡ jobs) reports.now }
    requires events { All (λ r. length r.events ≡ jobs) reports.now }
    ensures { IfOk result (λ o. IsOutcome T.job T.answer mode jobs reports.now o.answers.items o.lanes.items o.status) }
{
    let room = Room::new(alloc, jobs, reports.len())?;
    Ok(collect_in(room, reports, mode, jobs))
}

// The status, by the verdict of the answers, else by the ends of the unsettled jobs.
fn status_among<T: Settled + Drop>(
    events: Vec<Event>,
    reports: &[Report<T>],
    mode: Mode,
    answers: &[Option<Answer>],
) -> Status
    requires ends { All (λ r. length r.ends ≡ length answers.now) reports.now }
    requires none { events.items ≡ [] }
    requires room { length answers.now * length reports.now ≤ vec_capacity events }
    ensures { IsStatus T.job mode reports.now answers.now result }
{
    let events = events_of(events, reports, answers);
    status_of(decide(mode, answers), events.as_slice())
}
