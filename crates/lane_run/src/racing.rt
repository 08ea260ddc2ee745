// The lanes of a task beside each other.

ghost use Rattle.std.specs.Prelude.{◌≡◌, ◌<◌, ◌^◌, ℕ, All, IfErr, IfOk, IfSome, None, Some, length, slice_get, slice_index_or};
ghost use Rattle.race_core.specs.Asking.{name_at, terms_of};
ghost use Rattle.lane_run.specs.Asked.{IsFor, terms_at};
ghost use Rattle.race_core.specs.Consistent.{Consistent};
ghost use Rattle.race_core.specs.Report.{ReportOf};
ghost use Rattle.lane_berth.specs.Berths.{IsIdle};
ghost use Rattle.lane_run.specs.Done.{LaneFaults, LaneStops};
ghost use Rattle.lane_run.specs.Raced.{AreReady, HasDone, IsReady, LanesDone, bays_of, pool_of};
ghost use Rattle.lane_run.specs.Started.{LaneStarts};

use crate::LaneFactory;
use crate::gather::{Raced, gather};
use crate::lane::run_lane;
use crate::prepare::{FreshLanes, fresh_lanes};
use crate::task::Task;
use lane_berth::{Allowance, Berth};
use race_cells::Notes;
use race_core::Report;
use sby_edge::{Clock, Launch};
use sby_terms::Settled;
use std::alloc::Global;
use std::sync::Wait;
use std::thread;
use std::thread::Threads;

/// A lane of a race: its bay with its place, its report, and what it knows of the cells.
pub struct Lane<'p, L, T> {
    pub bay: Berth<'p, L>,
    pub report: Report<T>,
    pub notes: Notes<T>,
}

// Runs one lane.
fn run_one<
    R: Threads + Wait + Sync,
    L: Launch,
    M: LaneFactory<T> + Sync,
    T: Settled + Drop + Send + Sync,
    C: Clock,
>(rt: &R, alloc: Global, task: &Task<'_, M, T, C>, lane: &mut Lane<'_, L, T>)
    requires ready { IsReady task.now.cells.now lane.old.report lane.old.notes }
    requires idle { IsIdle lane.old.bay }
    requires start { IfSome task.now.limit.millis (λ millis. C.may_read task.now.clock.now task.now.limit.start) }
    ensures done { HasDone (IsFor T.problem T.job (M.problem task.now.factory.now) task.now.mode) (λ i k. M.is_served task.now.factory.now i (name_at task.now.mode k))
        (λ k. terms_of T.job T.answer (terms_at task.now.mode task.now.limit k)) (C.may_read task.now.clock.now) task.now.cells.now lane.new.report lane.new.notes }
    ensures lane { lane.new.report.lane ≡ lane.old.report.lane }
    ensures faults { LaneFaults (record { starts = L.start_faults lane.old.bay.bay; reads = L.read_faults lane.old.bay.bay; holds = L.hold_faults lane.old.bay.bay })
        (record { starts = L.start_faults lane.new.bay.bay; reads = L.read_faults lane.new.bay.bay; holds = L.hold_faults lane.new.bay.bay }) (length task.now.cells.now) lane.new.report }
    ensures starts { LaneStarts lane.old.bay.pool (M.words task.now.factory.now lane.old.report.lane) (M.file task.now.factory.now) (M.stands task.now.factory.now lane.old.report.lane) (M.ends task.now.factory.now lane.old.report.lane) (M.proves task.now.factory.now lane.old.report.lane) (M.most task.now.factory.now) (M.most_output task.now.factory.now lane.old.report.lane) task.now.mode
        (L.told lane.old.bay.bay) (L.told lane.new.bay.bay) (length task.now.cells.now) lane.new.report }
    ensures stopped { LaneStops (C.may_read task.now.clock.now) task.now.limit (length task.now.cells.now) lane.new.report }
    ensures idle { IsIdle lane.new.bay }
{
    run_lane(
        rt,
        alloc,
        &mut lane.bay,
        task,
        &mut lane.report,
        &mut lane.notes,
    );
}

/// Runs the lanes of a task beside each other, each in a thread of its own where one can be made.
pub fn run_lanes<
    R: Threads + Wait + Sync,
    L: Launch + Send,
    M: LaneFactory<T> + Sync,
    T: Settled + Drop + Send + Sync,
    C: Clock,
>(rt: &R, alloc: Global, task: &Task<'_, M, T, C>, lanes: &mut [Lane<'_, L, T>])
    requires ready { All (λ l. IsReady task.now.cells.now l.report l.notes) lanes.old }
    requires idle { All (λ l. IsIdle l.bay) lanes.old }
    requires start { IfSome task.now.limit.millis (λ millis. C.may_read task.now.clock.now task.now.limit.start) }
    ensures done { All (λ l. HasDone (IsFor T.problem T.job (M.problem task.now.factory.now) task.now.mode) (λ i k. M.is_served task.now.factory.now i (name_at task.now.mode k))
        (λ k. terms_of T.job T.answer (terms_at task.now.mode task.now.limit k)) (C.may_read task.now.clock.now) task.now.cells.now l.report l.notes) lanes.new }
    ensures lanes { (i : ℕ) (d : Lane L T) → i < length lanes.old → (slice_index_or lanes.new i d).report.lane ≡ (slice_index_or lanes.old i d).report.lane }
    ensures faults { (i : ℕ) (d : Lane L T) → i < length lanes.old → LaneFaults (record { starts = L.start_faults (slice_index_or lanes.old i d).bay.bay; reads = L.read_faults (slice_index_or lanes.old i d).bay.bay; holds = L.hold_faults (slice_index_or lanes.old i d).bay.bay })
        (record { starts = L.start_faults (slice_index_or lanes.new i d).bay.bay; reads = L.read_faults (slice_index_or lanes.new i d).bay.bay; holds = L.hold_faults (slice_index_or lanes.new i d).bay.bay }) (length task.now.cells.now) (slice_index_or lanes.new i d).report }
    ensures starts { (i : ℕ) (d : Lane L T) → i < length lanes.old
        → LaneStarts (slice_index_or lanes.old i d).bay.pool (M.words task.now.factory.now (slice_index_or lanes.old i d).report.lane) (M.file task.now.factory.now) (M.stands task.now.factory.now (slice_index_or lanes.old i d).report.lane) (M.ends task.now.factory.now (slice_index_or lanes.old i d).report.lane) (M.proves task.now.factory.now (slice_index_or lanes.old i d).report.lane) (M.most task.now.factory.now) (M.most_output task.now.factory.now (slice_index_or lanes.old i d).report.lane) task.now.mode
        (L.told (slice_index_or lanes.old i d).bay.bay) (L.told (slice_index_or lanes.new i d).bay.bay) (length task.now.cells.now) (slice_index_or lanes.new i d).report }
    ensures stopped { All (λ l. LaneStops (C.may_read task.now.clock.now) task.now.limit (length task.now.cells.now) l.report) lanes.new }
    ensures idle { All (λ l. IsIdle l.bay) lanes.new }
{
    let count = lanes.len().max(1);
    let run = |_place: usize, lane: &mut Lane<'_, L, T>|
        requires ready { IsReady task.now.cells.now lane.now.report lane.now.notes }
        requires idle { IsIdle lane.now.bay }
        requires start { IfSome task.now.limit.millis (λ millis. C.may_read task.now.clock.now task.now.limit.start) }
        ensures done { HasDone (IsFor T.problem T.job (M.problem task.entry.now.factory.now) task.entry.now.mode) (λ i k. M.is_served task.entry.now.factory.now i (name_at task.entry.now.mode k))
            (λ k. terms_of T.job T.answer (terms_at task.entry.now.mode task.entry.now.limit k)) (C.may_read task.entry.now.clock.now) task.entry.now.cells.now lane.new.report lane.new.notes }
        ensures lane { lane.new.report.lane ≡ lane.old.report.lane }
        ensures faults { LaneFaults (record { starts = L.start_faults lane.old.bay.bay; reads = L.read_faults lane.old.bay.bay; holds = L.hold_faults lane.old.bay.bay })
            (record { starts = L.start_faults lane.new.bay.bay; reads = L.read_faults lane.new.bay.bay; holds = L.hold_faults lane.new.bay.bay }) (length task.entry.now.cells.now) lane.new.report }
        ensures starts { LaneStarts lane.old.bay.pool (M.words task.entry.now.factory.now lane.old.report.lane) (M.file task.entry.now.factory.now) (M.stands task.entry.now.factory.now lane.old.report.lane) (M.ends task.entry.now.factory.now lane.old.report.lane) (M.proves task.entry.now.factory.now lane.old.report.lane) (M.most task.entry.now.factory.now) (M.most_output task.entry.now.factory.now lane.old.report.lane) task.entry.now.mode
            (L.told lane.old.bay.bay) (L.told lane.new.bay.bay) (length task.entry.now.cells.now) lane.new.report }
        ensures stopped { LaneStops (C.may_read task.entry.now.clock.now) task.entry.now.limit (length task.entry.now.cells.now) lane.new.report }
        ensures idle { IsIdle lane.new.bay }
    { run_one(rt, alloc, task, lane) };
    thread::for_each_mut(rt, lanes, count, &run);
}

/// Runs lanes that have done nothing yet beside each other, and gathers what they leave. Lanes are counted from 0, in the order of their
/// bays; a lane's ends tell of failed calls only where the counts of the bay at its place rose, and its starts are those that this bay
/// tells. Where there is a limit, its start is a reading that the clock may give.
pub fn race_fresh<
    R: Threads + Wait + Sync,
    L: Launch + Send,
    M: LaneFactory<T> + Sync,
    T: Settled + Drop + Send + Sync,
    C: Clock,
>(rt: &R, alloc: Global, task: &Task<'_, M, T, C>, fresh: FreshLanes<'_, L, T>) -> Raced<L, T>
    requires ready { AreReady task.now.cells.now fresh }
    requires start { IfSome task.now.limit.millis (λ millis. C.may_read task.now.clock.now task.now.limit.start) }
    ensures consistent { Consistent (IsFor T.problem T.job (M.problem task.now.factory.now) task.now.mode) (λ i k. M.is_served task.now.factory.now i (name_at task.now.mode k))
        (λ k. terms_of T.job T.answer (terms_at task.now.mode task.now.limit k)) (length (bays_of fresh.entry)) (length task.now.cells.now) result.reports.items }
    ensures done { LanesDone (IsFor T.problem T.job (M.problem task.now.factory.now) task.now.mode) (λ i k. M.is_served task.now.factory.now i (name_at task.now.mode k))
        (λ k. terms_of T.job T.answer (terms_at task.now.mode task.now.limit k)) (C.may_read task.now.clock.now) (length task.now.cells.now) result.notes result.reports.items }
    ensures bays { length result.bays.items ≡ length (bays_of fresh.entry) }
    ensures faults { (i : ℕ) (b d : L) (q : ReportOf T) → slice_get (bays_of fresh.entry) i ≡ Some b → slice_get result.bays.items i ≡ Some d → slice_get result.reports.items i ≡ Some q
        → LaneFaults (record { starts = L.start_faults b; reads = L.read_faults b; holds = L.hold_faults b }) (record { starts = L.start_faults d; reads = L.read_faults d; holds = L.hold_faults d }) (length task.now.cells.now) q }
    ensures starts { (i : ℕ) (b d : L) (q : ReportOf T) → slice_get (bays_of fresh.entry) i ≡ Some b → slice_get result.bays.items i ≡ Some d → slice_get result.reports.items i ≡ Some q
        → LaneStarts (pool_of fresh.entry) (M.words task.now.factory.now i) (M.file task.now.factory.now) (M.stands task.now.factory.now i) (M.ends task.now.factory.now i) (M.proves task.now.factory.now i) (M.most task.now.factory.now) (M.most_output task.now.factory.now i) task.now.mode (L.told b) (L.told d) (length task.now.cells.now) q }
    ensures stopped { All (λ q. LaneStops (C.may_read task.now.clock.now) task.now.limit (length task.now.cells.now) q) result.reports.items }
{
    let FreshLanes {
        mut lanes,
        mut raced,
        pool: _,
    } = fresh;
    run_lanes(rt, alloc, task, lanes.as_mut_slice());
    gather(lanes, &mut raced);
    raced
}

/// Races the lanes of a task, one for each bay, beside each other. Where memory runs out, it gives back the bays as they were, and no
/// child was started. Lanes are counted from 0, in the order of the bays; a lane's ends tell of failed calls only where the counts of
/// the bay at its place rose, and its starts are those that this bay tells. Where there is a limit, its start is a reading that the
/// clock may give.
pub fn race<
    R: Threads + Wait + Sync,
    L: Launch + Send,
    M: LaneFactory<T> + Sync,
    T: Settled + Drop + Send + Sync,
    C: Clock,
>(
    rt: &R,
    alloc: Global,
    task: &Task<'_, M, T, C>,
    jobs: u32,
    bays: Vec<L>,
) -> Result<Raced<L, T>, Vec<L>>
    requires jobs { jobs ≡ length task.now.cells.now }
    requires few { length bays.items < 2 ^ 32 }
    requires start { IfSome task.now.limit.millis (λ millis. C.may_read task.now.clock.now task.now.limit.start) }
    ensures given_back { IfErr result (λ given. given.items ≡ bays.items) }
    ensures consistent { IfOk result (λ r. Consistent (IsFor T.problem T.job (M.problem task.now.factory.now) task.now.mode) (λ i k. M.is_served task.now.factory.now i (name_at task.now.mode k))
        (λ k. terms_of T.job T.answer (terms_at task.now.mode task.now.limit k)) (length bays.items) (length task.now.cells.now) r.reports.items) }
    ensures done { IfOk result (λ r. LanesDone (IsFor T.problem T.job (M.problem task.now.factory.now) task.now.mode) (λ i k. M.is_served task.now.factory.now i (name_at task.now.mode k))
        (λ k. terms_of T.job T.answer (terms_at task.now.mode task.now.limit k)) (C.may_read task.now.clock.now) (length task.now.cells.now) r.notes r.reports.items) }
    ensures bays { IfOk result (λ r. length r.bays.items ≡ length bays.items) }
    ensures faults { IfOk result (λ r. (i : ℕ) (b d : L) (q : ReportOf T) → slice_get bays.items i ≡ Some b → slice_get r.bays.items i ≡ Some d → slice_get r.reports.items i ≡ Some q
        → LaneFaults (record { starts = L.start_faults b; reads = L.read_faults b; holds = L.hold_faults b }) (record { starts = L.start_faults d; reads = L.read_faults d; holds = L.hold_faults d }) (length task.now.cells.now) q) }
    ensures starts { IfOk result (λ r. (i : ℕ) (b d : L) (q : ReportOf T) → slice_get bays.items i ≡ Some b → slice_get r.bays.items i ≡ Some d → slice_get r.reports.items i ≡ Some q
        → LaneStarts None (M.words task.now.factory.now i) (M.file task.now.factory.now) (M.stands task.now.factory.now i) (M.ends task.now.factory.now i) (M.proves task.now.factory.now i) (M.most task.now.factory.now) (M.most_output task.now.factory.now i) task.now.mode (L.told b) (L.told d) (length task.now.cells.now) q) }
    ensures stopped { IfOk result (λ r. All (λ q. LaneStops (C.may_read task.now.clock.now) task.now.limit (length task.now.cells.now) q) r.reports.items) }
{
    let mut alone = Allowance::none();
    let fresh = fresh_lanes(alloc, task.cells, jobs, bays, &mut alone);
    alone.end();
    Ok(race_fresh(rt, alloc, task, fresh?))
}
