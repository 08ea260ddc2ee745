// A lane: its jobs, in their order.

ghost use Rattle.std.specs.Prelude.{◌≡◌, ◌≢◌, ◌⊎◌, ℕ, ◌+◌, ◌<◌, ◌≤◌, List, [], ◌∷◌, ◌++◌, IfSome, Some, length, option_map, replicate, set, slice_get, slice_index_or};
ghost use Rattle.std.specs.Option.{MatchOption};
ghost use Rattle.race_cells.specs.Notes.{AreNotesOf};
ghost use Rattle.race_core.specs.Asking.{name_at, terms_of};
ghost use Rattle.race_core.specs.Carrying.{KnewBy};
ghost use Rattle.race_core.specs.Consistent.{Replays, end_at, events_at};
ghost use Rattle.race_core.specs.Ends.{IsLast};
ghost use Rattle.race_core.specs.Report.{no_events};
ghost use Rattle.race_core.specs.declared.end.JobEnd.TheVariants as end;
ghost use Rattle.race_core.specs.declared.event.LaneEvent.TheVariants as event;
ghost use Rattle.lane_berth.specs.Berths.{IsIdle};
ghost use Rattle.lane_run.specs.Keeping.{Remember};
ghost use Rattle.lane_run.specs.Starting.{with_starts};
ghost use Rattle.lane_run.specs.Asked.{IsFor, terms_at};
ghost use Rattle.race_core.specs.declared.end.JobEnd.{JobEnd};
ghost use Rattle.lane_run.specs.Done.{CameLate, JobDone, JobFaults, LaneFaults, LaneSoFar, LaneStops, Stand};
ghost use Rattle.lane_run.specs.Started.{JobStarts, LaneStarts};
ghost use Rattle.sby_edge.specs.Child.{StartOf};

use crate::passing::pass_job;
use crate::task::{Task, other_cell};
use crate::{JobRun, LaneFactory, Watch, run_child};
use lane_berth::Berth;
use race_cells::Notes;
use race_core::{EventList, JobEnd, Report, job_at};
use sby_edge::{Clock, Launch};
use sby_terms::Settled;
use std::alloc::Global;
use std::sync::Wait;
use std::thread::Threads;

// The next job, where no earlier end stops it. Answers its end, and its reader's events.
fn do_job<
    R: Threads + Wait + Sync,
    L: Launch,
    M: LaneFactory<T> + Sync,
    T: Settled + Drop + Send + Sync,
    C: Clock,
>(
    rt: &R,
    alloc: Global,
    berth: &mut Berth<'_, L>,
    task: &Task<'_, M, T, C>,
    place: u32,
    report: &Report<T>,
    notes: &mut Notes<T>,
    reader: EventList<T>,
    keeper: &mut EventList<T>,
) -> JobRun<T>
    requires place { (place < length task.now.cells.now) × (place < report.now.jobs) }
    requires notes { AreNotesOf task.now.cells.now notes.old }
    requires idle { IsIdle berth.old }
    requires fresh { (reader.events ≡ []) × (keeper.old.events ≡ []) }
    requires room { (1 ≤ reader.room) × (4 ≤ keeper.old.room) }
    requires so_far { LaneSoFar (IsFor T.problem T.job (M.problem task.now.factory.now) task.now.mode) (λ k. M.is_served task.now.factory.now report.now.lane (name_at task.now.mode k))
        (λ k. terms_of T.job T.answer (terms_at task.now.mode task.now.limit k)) (C.may_read task.now.clock.now) place notes.old report.now }
    ensures done { JobDone (IsFor T.problem T.job (M.problem task.now.factory.now) task.now.mode) (M.is_served task.now.factory.now report.now.lane (name_at task.now.mode place))
        (terms_of T.job T.answer (terms_at task.now.mode task.now.limit place)) (KnewBy (events_at report.now) place) (C.may_read task.now.clock.now) place notes.new
        (record { reader = result.events.events; keeper = keeper.new.events }) result.end }
    ensures remember { Remember notes.old notes.new }
    ensures berth { berth.new ≡ record berth.old { bay = berth.new.bay } }
    ensures looked { keeper.new.events ≢ [] }
    ensures faults { JobFaults (record { starts = L.start_faults berth.old.bay; reads = L.read_faults berth.old.bay; holds = L.hold_faults berth.old.bay }) (record { starts = L.start_faults berth.new.bay; reads = L.read_faults berth.new.bay; holds = L.hold_faults berth.new.bay }) result.end }
    ensures starts { (starts : List StartOf) × (L.told berth.new.bay ≡ option_map (with_starts starts) (L.told berth.old.bay))
        × JobStarts berth.old.pool (M.words task.now.factory.now report.now.lane) (M.file task.now.factory.now) (M.stands task.now.factory.now report.now.lane) (M.ends task.now.factory.now report.now.lane) (M.proves task.now.factory.now report.now.lane)
        (M.most task.now.factory.now) (M.most_output task.now.factory.now report.now.lane) (name_at task.now.mode place) (L.told berth.old.bay) (record { reader = result.events.events; keeper = keeper.new.events }) result.end starts }
{
    let terms = task.terms(place);
    let watch = Watch {
        problem: task.factory,
        cells: task.cells,
        clock: task.clock,
        terms: &terms,
        other: other_cell(terms.job),
    };
    if task.factory.serves(report.lane(), terms.job) {
        run_child(
            rt,
            alloc,
            berth,
            report.lane(),
            &watch,
            notes,
            reader,
            keeper,
        )
    } else {
        JobRun {
            end: pass_job(&watch, report, notes, keeper),
            events: reader,
        }
    }
}

// The end itself, where it ends the lane's work.
fn lasting<T: Drop>(ended: &JobEnd<T>) -> Option<JobEnd<T>>
    ensures { MatchOption result (IsLast ended.now → ⊥) (λ e. IsLast e × (e ≡ ended.now)) }
{
    match ended {
        JobEnd::Stopped(reading) => Some(JobEnd::Stopped(*reading)),
        JobEnd::Memory => Some(JobEnd::Memory),
        _ => None,
    }
}

// The last end, where it ends the lane's work.
fn lasting_end<T: Drop>(ends: &[JobEnd<T>]) -> Option<JobEnd<T>>
    ensures { MatchOption result ((l : ℕ) → l + 1 ≡ length ends.now → IsLast (slice_index_or ends.now l end.NotServed) → ⊥)
        (λ e. (l : ℕ) × (l + 1 ≡ length ends.now) × IsLast e × (e ≡ slice_index_or ends.now l end.NotServed)) }
{
    match ends.last() {
        None => None,
        Some(ended) => lasting(ended),
    }
}

// A job for whose lists memory runs out.
fn want_lists<M: LaneFactory<T>, T: Settled + Drop, C: Clock>(
    task: &Task<'_, M, T, C>,
    place: u32,
    report: &mut Report<T>,
)
    requires place { (place < report.old.jobs) × (length report.old.ends ≡ place) }
    requires left { slice_get report.old.events place ≡ Some no_events }
    ensures report { report.new ≡ record report.old { events = set report.old.events place (record { reader = []; keeper = event.KeeperMemory ∷ [] }); ends = report.old.ends ++ end.Memory ∷ [] } }
    ensures served { M.is_served task.now.factory.now report.old.lane (name_at task.now.mode place) ⊎ (M.is_served task.now.factory.now report.old.lane (name_at task.now.mode place) → ⊥) }
{
    let _is_served = task.factory.serves(report.lane(), job_at(task.mode, place));
    report.want_memory(place);
    report.push_end(JobEnd::Memory);
}

// The next job, where no earlier end stops it.
fn run_job<
    R: Threads + Wait + Sync,
    L: Launch,
    M: LaneFactory<T> + Sync,
    T: Settled + Drop + Send + Sync,
    C: Clock,
>(
    rt: &R,
    alloc: Global,
    berth: &mut Berth<'_, L>,
    task: &Task<'_, M, T, C>,
    place: u32,
    report: &mut Report<T>,
    notes: &mut Notes<T>,
)
    requires place { (place < length task.now.cells.now) × (place < report.old.jobs) }
    requires notes { AreNotesOf task.now.cells.now notes.old }
    requires idle { IsIdle berth.old }
    requires so_far { LaneSoFar (IsFor T.problem T.job (M.problem task.now.factory.now) task.now.mode) (λ k. M.is_served task.now.factory.now report.old.lane (name_at task.now.mode k))
        (λ k. terms_of T.job T.answer (terms_at task.now.mode task.now.limit k)) (C.may_read task.now.clock.now) place notes.old report.old }
    requires free { (l : ℕ) → l < place → IsLast (end_at report.old l) → ⊥ }
    ensures so_far { LaneSoFar (IsFor T.problem T.job (M.problem task.now.factory.now) task.now.mode) (λ k. M.is_served task.now.factory.now report.old.lane (name_at task.now.mode k))
        (λ k. terms_of T.job T.answer (terms_at task.now.mode task.now.limit k)) (C.may_read task.now.clock.now) (place + 1) notes.new report.new }
    ensures remember { Remember notes.old notes.new }
    ensures berth { berth.new ≡ record berth.old { bay = berth.new.bay } }
    ensures same { (report.new.lane ≡ report.old.lane) × (report.new.jobs ≡ report.old.jobs) }
    ensures faults { (e : JobEnd T) × (report.new.ends ≡ report.old.ends ++ e ∷ []) × JobFaults (record { starts = L.start_faults berth.old.bay; reads = L.read_faults berth.old.bay; holds = L.hold_faults berth.old.bay }) (record { starts = L.start_faults berth.new.bay; reads = L.read_faults berth.new.bay; holds = L.hold_faults berth.new.bay }) e }
    ensures stand { Stand place report.old report.new }
    ensures starts { (starts : List StartOf) × (L.told berth.new.bay ≡ option_map (with_starts starts) (L.told berth.old.bay))
        × JobStarts berth.old.pool (M.words task.now.factory.now report.old.lane) (M.file task.now.factory.now) (M.stands task.now.factory.now report.old.lane) (M.ends task.now.factory.now report.old.lane) (M.proves task.now.factory.now report.old.lane)
        (M.most task.now.factory.now) (M.most_output task.now.factory.now report.old.lane) (name_at task.now.mode place) (L.told berth.old.bay) (events_at report.new place) (end_at report.new place) starts }
{
    let Ok(reader) = EventList::new(alloc, 1) else {
        return want_lists(task, place, report);
    };
    let Ok(mut keeper) = EventList::new(alloc, 8) else {
        return want_lists(task, place, report);
    };
    let JobRun { end, events } = do_job(
        rt,
        alloc,
        berth,
        task,
        place,
        report,
        notes,
        reader,
        &mut keeper,
    );
    report.put_events(place, events, keeper);
    report.push_end(end);
}

// The next job: done, or after an end that ended the lane's work.
fn run_next<
    R: Threads + Wait + Sync,
    L: Launch,
    M: LaneFactory<T> + Sync,
    T: Settled + Drop + Send + Sync,
    C: Clock,
>(
    rt: &R,
    alloc: Global,
    berth: &mut Berth<'_, L>,
    task: &Task<'_, M, T, C>,
    place: u32,
    report: &mut Report<T>,
    notes: &mut Notes<T>,
)
    requires place { (place < length task.now.cells.now) × (place < report.old.jobs) }
    requires notes { AreNotesOf task.now.cells.now notes.old }
    requires idle { IsIdle berth.old }
    requires so_far { LaneSoFar (IsFor T.problem T.job (M.problem task.now.factory.now) task.now.mode) (λ k. M.is_served task.now.factory.now report.old.lane (name_at task.now.mode k))
        (λ k. terms_of T.job T.answer (terms_at task.now.mode task.now.limit k)) (C.may_read task.now.clock.now) place notes.old report.old }
    ensures so_far { LaneSoFar (IsFor T.problem T.job (M.problem task.now.factory.now) task.now.mode) (λ k. M.is_served task.now.factory.now report.old.lane (name_at task.now.mode k))
        (λ k. terms_of T.job T.answer (terms_at task.now.mode task.now.limit k)) (C.may_read task.now.clock.now) (place + 1) notes.new report.new }
    ensures remember { Remember notes.old notes.new }
    ensures berth { berth.new ≡ record berth.old { bay = berth.new.bay } }
    ensures same { (report.new.lane ≡ report.old.lane) × (report.new.jobs ≡ report.old.jobs) }
    ensures faults { (e : JobEnd T) × (report.new.ends ≡ report.old.ends ++ e ∷ []) × JobFaults (record { starts = L.start_faults berth.old.bay; reads = L.read_faults berth.old.bay; holds = L.hold_faults berth.old.bay }) (record { starts = L.start_faults berth.new.bay; reads = L.read_faults berth.new.bay; holds = L.hold_faults berth.new.bay }) e }
    ensures stand { Stand place report.old report.new }
    ensures starts { (starts : List StartOf) × (L.told berth.new.bay ≡ option_map (with_starts starts) (L.told berth.old.bay))
        × ((CameLate report.new place × (starts ≡ [])) ⊎ JobStarts berth.old.pool (M.words task.now.factory.now report.old.lane) (M.file task.now.factory.now) (M.stands task.now.factory.now report.old.lane) (M.ends task.now.factory.now report.old.lane) (M.proves task.now.factory.now report.old.lane)
        (M.most task.now.factory.now) (M.most_output task.now.factory.now report.old.lane) (name_at task.now.mode place) (L.told berth.old.bay) (events_at report.new place) (end_at report.new place) starts) }
{
    match lasting_end(report.ends()) {
        Some(end) => report.push_end(end),
        None => run_job(rt, alloc, berth, task, place, report, notes),
    }
}

/// Runs the jobs of a lane in their order. Each is skipped where a finding makes it needless, passed over where the lane's engine
/// doesn't serve it, or started and run to its end; after a reading that shows the limit, or out of memory, the later
/// jobs end the same. The notes then know what the events say; an end that tells of a failed call comes only where the bay's count of
/// such calls rose. A job's child is started at most once, and what it gave is of the script that the bay tells for it. Where there is a
/// limit, its start is a reading that the clock may give. Waits for the children.
pub fn run_lane<
    R: Threads + Wait + Sync,
    L: Launch,
    M: LaneFactory<T> + Sync,
    T: Settled + Drop + Send + Sync,
    C: Clock,
>(
    rt: &R,
    alloc: Global,
    berth: &mut Berth<'_, L>,
    task: &Task<'_, M, T, C>,
    report: &mut Report<T>,
    notes: &mut Notes<T>,
)
    requires jobs { report.old.jobs ≡ length task.now.cells.now }
    requires fresh { (report.old.ends ≡ []) × (report.old.events ≡ replicate report.old.jobs no_events) }
    requires notes { AreNotesOf task.now.cells.now notes.old }
    requires idle { IsIdle berth.old }
    requires start { IfSome task.now.limit.millis (λ millis. C.may_read task.now.clock.now task.now.limit.start) }
    ensures replays { Replays (λ k. M.is_served task.now.factory.now report.old.lane (name_at task.now.mode k))
        (λ k. terms_of T.job T.answer (terms_at task.now.mode task.now.limit k)) report.old.jobs report.new }
    ensures done { LaneSoFar (IsFor T.problem T.job (M.problem task.now.factory.now) task.now.mode) (λ k. M.is_served task.now.factory.now report.old.lane (name_at task.now.mode k))
        (λ k. terms_of T.job T.answer (terms_at task.now.mode task.now.limit k)) (C.may_read task.now.clock.now) report.old.jobs notes.new report.new }
    ensures remember { Remember notes.old notes.new }
    ensures berth { berth.new ≡ record berth.old { bay = berth.new.bay } }
    ensures same { (report.new.lane ≡ report.old.lane) × (report.new.jobs ≡ report.old.jobs) }
    ensures faults { LaneFaults (record { starts = L.start_faults berth.old.bay; reads = L.read_faults berth.old.bay; holds = L.hold_faults berth.old.bay }) (record { starts = L.start_faults berth.new.bay; reads = L.read_faults berth.new.bay; holds = L.hold_faults berth.new.bay }) report.old.jobs report.new }
    ensures starts { LaneStarts berth.old.pool (M.words task.now.factory.now report.old.lane) (M.file task.now.factory.now) (M.stands task.now.factory.now report.old.lane) (M.ends task.now.factory.now report.old.lane) (M.proves task.now.factory.now report.old.lane)
        (M.most task.now.factory.now) (M.most_output task.now.factory.now report.old.lane) task.now.mode (L.told berth.old.bay) (L.told berth.new.bay) report.old.jobs report.new }
    ensures stopped { LaneStops (C.may_read task.now.clock.now) task.now.limit report.old.jobs report.new }
{
    for place in 0..report.jobs() {
        run_next(rt, alloc, berth, task, place, report, notes);
    }
}
