// How an event changes the parts of a lane's job.

ghost use Rattle.std.specs.Prelude.{◌≡◌, false, Option, None};
ghost use Rattle.race_core.specs.Parts.{reader_after, keeper_after, place_after, judged, by_of, comes_due, turns, after_look, ending, tells_ending, shows_limit};
ghost use Rattle.race_core.specs.Stepped.{IsStep};
ghost use Rattle.race_core.specs.Asking.{terms_of, is_needless, is_skipped, needless_by, skipped_by};

use crate::event::{Judged, LaneEvent, Polled};
use crate::part::{By, Keeper, Place, Reader, Reason};
use sby_terms::{Answer, JobName, Settled};

/// What a job's first state keeps.
#[derive(Clone, Copy, Debug, PartialEq, Eq)]
pub struct JobTerms {
    /// The place of its cell.
    pub cell: u32,
    pub job: JobName,
    /// No finding makes the job needless.
    pub wait: bool,
    /// The task's start, and its limit, in milliseconds.
    pub start: u64,
    pub limit: Option<u64>,
}

/// The state of the parts of a lane's job.
#[derive(Drop)]
pub struct LaneState<T> {
    pub terms: JobTerms,
    pub reader: Reader<T>,
    pub keeper: Keeper<T>,
    pub place: Place,
}

fn reader_judged<T: Drop>(by: By, progress: Judged<T>) -> Reader<T>
    ensures { result ≡ judged by progress }
{
    match progress {
        Judged::More => match by {
            By::Bytes => Reader::Reading,
            By::Close => Reader::Asking,
            By::File => Reader::Wrong,
        },
        Judged::Found(value) => Reader::Holding { value, by },
        Judged::Unknown => Reader::Unknown { by },
        Judged::Bad { no, at } => Reader::Bad { no, at, by },
        Judged::Failed => Reader::Failed,
        Judged::Unjudged => Reader::Unjudged,
    }
}

fn by_bytes(bytes: u64) -> By
    ensures { result ≡ by_of bytes }
{
    if bytes == 0 { By::Close } else { By::Bytes }
}

/// The reader's part after one of its events.
pub fn reader_step<T: Drop>(part: Reader<T>, event: LaneEvent<T>) -> Reader<T>
    ensures { result ≡ reader_after event part }
{
    match (event, part) {
        (LaneEvent::Read { bytes, progress }, Reader::Fresh | Reader::Reading) => reader_judged(
            by_bytes(bytes),
            progress,
        ),
        (LaneEvent::File { bytes: _, progress }, Reader::Asking) => reader_judged(
            By::File,
            progress,
        ),
        (LaneEvent::Settle { won }, Reader::Holding { value, by }) => Reader::Found {
            value,
            by,
            won,
        },
        (
            LaneEvent::ReaderMemory,
            Reader::Fresh
            | Reader::Reading
            | Reader::Asking
            | Reader::Unjudged
            | Reader::Holding { value: _, by: _ },
        ) => Reader::Short,
        _ => Reader::Wrong,
    }
}

/// What is held of the allowance, after one of the keeper's events.
pub fn place_step<T>(place: Place, event: &LaneEvent<T>) -> Place
    ensures { result ≡ place_after event.now place }
{
    match (event, place) {
        (LaneEvent::Took, Place::Away) => Place::Held,
        (LaneEvent::Start, Place::Held) => Place::Used,
        (LaneEvent::Finish, Place::Used) => Place::Back,
        (LaneEvent::Gave, Place::Held | Place::Back) => Place::Away,
        (LaneEvent::Took | LaneEvent::Start | LaneEvent::Finish | LaneEvent::Gave, _) =>
            Place::Wrong,
        (_, place) => place,
    }
}

impl JobTerms {
    /// Whether a finding makes the job needless: `wait` is off, and it is one for the job itself, or for Step or Inv one that Base is Sat.
    pub fn is_needless<T: Settled>(&self, value: &T) -> bool
        ensures { result ≡ is_needless T.job T.answer self.now value.now }
    {
        !self.wait && is_needless_by(value.job(), value.answer(), self.job)
    }

    /// Whether a finding skips the job before its start: one that makes it needless; or `wait` is off, the job is a slice, and the finding
    /// is that an earlier slice is Sat.
    pub fn is_skipped_by<T: Settled>(&self, value: &T) -> bool
        ensures { result ≡ is_skipped T.job T.answer self.now value.now }
    {
        !self.wait && is_job_skipped_by(value.job(), value.answer(), self.job)
    }

    /// Whether a reading of the clock, in milliseconds, shows the limit.
    pub fn is_shown(&self, reading: u64) -> bool
        ensures { result ≡ shows_limit self.now.start self.now.limit reading }
    {
        match self.limit {
            None => false,
            Some(limit) => self.start <= reading && limit <= reading - self.start,
        }
    }
}

fn is_needless_by(job: JobName, answer: Answer, other: JobName) -> bool
    ensures { result ≡ needless_by job answer other }
{
    match (job, answer, other) {
        (JobName::Base(m), _, JobName::Base(n)) => m == n,
        (JobName::Base(m), Answer::Sat, JobName::Step | JobName::Inv) => m == 0,
        (JobName::Step, _, JobName::Step) | (JobName::Inv, _, JobName::Inv) => true,
        (JobName::Cover(m), _, JobName::Cover(n)) => m == n,
        _ => false,
    }
}

fn is_job_skipped_by(job: JobName, answer: Answer, other: JobName) -> bool
    ensures { result ≡ skipped_by job answer other }
{
    match (job, answer, other) {
        (JobName::Base(m), Answer::Sat, JobName::Base(n)) => m <= n,
        _ => is_needless_by(job, answer, other),
    }
}

fn due<T: Drop>(why: Reason<T>, part: Keeper<T>) -> Keeper<T>
    ensures { result ≡ comes_due why part }
{
    match part {
        Keeper::Fresh | Keeper::Looked | Keeper::Turning => Keeper::Due(why),
        _ => Keeper::Wrong,
    }
}

fn turned<T: Drop>(part: Keeper<T>) -> Keeper<T>
    ensures { result ≡ turns part }
{
    match part {
        Keeper::Fresh | Keeper::Looked | Keeper::Turning => Keeper::Turning,
        _ => Keeper::Wrong,
    }
}

// Whether a finding ends the job, by where its keeper stands.
fn ends_job<T: Settled>(terms: &JobTerms, own: bool, part: &Keeper<T>, value: &T) -> bool
    ensures { result ≡ ending (terms_of T.job T.answer terms.now) own part.now value.now }
{
    match part {
        Keeper::Fresh => terms.is_skipped_by(value),
        Keeper::Looked if !own => terms.is_skipped_by(value),
        _ => terms.is_needless(value),
    }
}

fn looked<T: Settled + Drop>(
    terms: &JobTerms,
    own: bool,
    known: Option<T>,
    part: Keeper<T>,
) -> Keeper<T>
    ensures { result ≡ after_look own known (tells_ending (ending (terms_of T.job T.answer terms.now) own part) known) part }
{
    match known {
        Some(value) if ends_job(terms, own, &part, &value) => match part {
            Keeper::Fresh => Keeper::Due(Reason::Skip(value)),
            Keeper::Looked if own => Keeper::Due(Reason::Needless(value)),
            Keeper::Looked => Keeper::Due(Reason::Skip(value)),
            Keeper::Turning => Keeper::Due(Reason::Needless(value)),
            _ => Keeper::Wrong,
        },
        _ => passed(own, part),
    }
}

// A look that shows nothing that ends the job.
fn passed<T: Drop>(own: bool, part: Keeper<T>) -> Keeper<T>
    ensures { result ≡ after_look own None false part }
{
    match part {
        Keeper::Fresh => Keeper::Looked,
        Keeper::Looked if own => Keeper::Turning,
        Keeper::Looked => Keeper::Looked,
        Keeper::Turning => Keeper::Turning,
        _ => Keeper::Wrong,
    }
}

/// The keeper's part after one of its events.
pub fn keeper_step<T: Settled + Drop>(
    terms: &JobTerms,
    part: Keeper<T>,
    event: LaneEvent<T>,
) -> Keeper<T>
    ensures { result ≡ keeper_after (terms_of T.job T.answer terms.now) event part }
{
    match event {
        LaneEvent::Poll(Polled::Failed) => due(Reason::Fault, part),
        LaneEvent::Poll(Polled::Exited) | LaneEvent::Turns(_) => turned(part),
        LaneEvent::Clock(reading) if terms.is_shown(reading) => due(Reason::Limit(reading), part),
        LaneEvent::Clock(_) => turned(part),
        LaneEvent::Look { cell, known } => looked(terms, cell == terms.cell, known, part),
        LaneEvent::Kill => match part {
            Keeper::Due(why) => Keeper::Killed(why),
            _ => Keeper::Wrong,
        },
        LaneEvent::KeeperMemory => due(Reason::Memory, part),
        LaneEvent::Took | LaneEvent::Start | LaneEvent::Finish | LaneEvent::Gave => part,
        LaneEvent::Read { .. }
        | LaneEvent::File { .. }
        | LaneEvent::Settle { .. }
        | LaneEvent::ReaderMemory => Keeper::Wrong,
    }
}

/// The state after an event of the reader's list, or of the keeper's. Each event changes its own part alone.
pub fn lane_step<T: Settled + Drop>(state: LaneState<T>, event: LaneEvent<T>) -> LaneState<T>
    ensures terms { result.terms ≡ state.terms }
    ensures parts { IsStep (terms_of T.job T.answer state.terms) event state result }
{
    let terms = state.terms;
    let place = place_step(state.place, &event);
    match event {
        LaneEvent::Read { .. }
        | LaneEvent::File { .. }
        | LaneEvent::Settle { .. }
        | LaneEvent::ReaderMemory => LaneState {
            terms,
            reader: reader_step(state.reader, event),
            keeper: state.keeper,
            place,
        },
        _ => LaneState {
            terms,
            reader: state.reader,
            keeper: keeper_step(&terms, state.keeper, event),
            place,
        },
    }
}
