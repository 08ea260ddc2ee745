// The race of a task's lanes, once all memory for it is taken.

ghost use Rattle.std.specs.Prelude.{◌≡◌, ℕ, All, Option, Some, length, map, slice_get};
ghost use Rattle.jobs_pool.specs.Places.{PoolOf};
ghost use Rattle.judge.specs.Finding.{FindingOf};
ghost use Rattle.race_core.specs.Report.{ReportOf};
ghost use Rattle.lane_run.specs.Done.{LaneFaults, LaneStops};
ghost use Rattle.lane_run.specs.Raced.{AreReady, bays_of, pool_of};
ghost use Rattle.sby_edge.specs.Child.{IsLogged, YardOf};
ghost use Rattle.sby_edge.specs.Files.{Store};
ghost use Rattle.task_race.specs.Bays.{CameBack, counts_at, left_all};
ghost use Rattle.task_race.specs.Prepared.{AreNew, IsPrepared, bays_in};
ghost use Rattle.task_race.specs.Ran.{AreConsistent, AreDone, AreStarts, HasJobFiles, HaveRaced, IsStart, job_count, limit_from, racing_seen};

use crate::ProblemLanes;
use crate::bays::give_back;
use crate::prepare::PreparedRace;
use crate::racing::{Racing, RanLanes};
use crate::truth::learn_reports;
use judge::Finding;
use lane_run::{FreshLanes, Limit, Raced, Task, race_fresh};
use race_cells::Cells;
use sby_edge::{Clock, Files, Launch, Yard};
use std::alloc::Global;
use std::sync::Wait;
use std::thread::Threads;

/// Lanes that ran: what they report, and their bays.
pub struct RacedLanes<L> {
    pub(crate) bays: Vec<L>,
    pub(crate) ran: RanLanes,
}

// The reading at which lanes start, where they have a limit.
fn start_of<C: Clock>(clock: &C, limit: Option<u64>) -> Option<u64>
    ensures { IsStart (C.may_read clock.now) limit result }
{
    match limit {
        Some(_) => Some(clock.now()),
        None => None,
    }
}

// Races these lanes.
fn race_lanes<R: Threads + Wait + Sync, L: Launch + Send, C: Clock>(
    rt: &R,
    alloc: Global,
    clock: &C,
    racing: &Racing<'_>,
    start: Option<u64>,
    cells: &Cells<Finding>,
    lanes: FreshLanes<'_, L, Finding>,
) -> Raced<L, Finding>
    requires cells { length cells.now ≡ job_count (racing_seen racing.now) }
    requires ready { AreReady cells.now lanes }
    requires lanes { length (bays_of lanes) ≡ length racing.now.engines.now }
    requires start { IsStart (C.may_read clock.now) racing.now.limit start }
    ensures consistent { AreConsistent (racing_seen racing.now) start result.reports.items }
    ensures done { AreDone (racing_seen racing.now) (C.may_read clock.now) start result.notes result.reports.items }
    ensures bays { length result.bays.items ≡ length (bays_of lanes.entry) }
    ensures faults { (i : ℕ) (b d : L) (q : ReportOf FindingOf) → slice_get (bays_of lanes.entry) i ≡ Some b → slice_get result.bays.items i ≡ Some d → slice_get result.reports.items i ≡ Some q
        → LaneFaults (counts_at (L.start_faults b) (L.read_faults b) (L.hold_faults b)) (counts_at (L.start_faults d) (L.read_faults d) (L.hold_faults d)) (job_count (racing_seen racing.now)) q }
    ensures starts { (i : ℕ) (b d : L) (q : ReportOf FindingOf) → slice_get (bays_of lanes.entry) i ≡ Some b → slice_get result.bays.items i ≡ Some d → slice_get result.reports.items i ≡ Some q
        → AreStarts (racing_seen racing.now) (pool_of lanes.entry) (L.told b) (L.told d) i q }
    ensures stopped { All (λ q. LaneStops (C.may_read clock.now) (limit_from (racing_seen racing.now) start) (job_count (racing_seen racing.now)) q) result.reports.items }
{
    let factory = ProblemLanes {
        problem: racing.problem,
        engines: racing.engines,
        folder: racing.folder,
    };
    let task = Task {
        factory: &factory,
        cells,
        clock,
        mode: racing.problem.mode(),
        limit: Limit {
            start: start.unwrap_or(0),
            millis: racing.limit,
            wait: racing.wait,
        },
    };
    race_fresh(rt, alloc, &task, lanes)
}

/// Runs the lanes of a prepared race to their ends.
pub fn race_prepared<R: Threads + Wait + Sync, L: Launch + Send, C: Clock>(
    rt: &R,
    alloc: Global,
    clock: &C,
    racing: &Racing<'_>,
    prepared: PreparedRace<'_, L>,
) -> RacedLanes<L>
    requires prepared { (pool : Option PoolOf) × IsPrepared (racing_seen racing.now) pool prepared }
    ensures { (pool : Option PoolOf) (scripts : Option YardOf) → IsPrepared (racing_seen racing.now) pool prepared.entry
        → AreNew scripts racing.now.task (map (λ b. record { told = L.told b; counts = counts_at (L.start_faults b) (L.read_faults b) (L.hold_faults b) }) (bays_in prepared.entry))
        → HaveRaced (racing_seen racing.now) pool (C.may_read clock.now) scripts result.ran.start result.ran.reports.items (map (λ b. record { told = L.told b; counts = counts_at (L.start_faults b) (L.read_faults b) (L.hold_faults b) }) result.bays.items) }
{
    // Its problem is one.
    let _ = racing.problem.flat();
    let PreparedRace { cells, lanes } = prepared;
    let start = start_of(clock, racing.limit);
    let Raced {
        bays,
        reports,
        notes: _,
    } = race_lanes(rt, alloc, clock, racing, start, &cells, lanes);
    learn_reports(&reports);
    RacedLanes {
        bays,
        ran: RanLanes { reports, start },
    }
}

/// Runs the lanes of a prepared race to their ends. A store that tells has the files of all jobs before.
pub fn run_race<R: Threads + Wait + Sync, F: Files, L: Launch + Send, C: Clock>(
    rt: &R,
    alloc: Global,
    files: &F,
    clock: &C,
    racing: &Racing<'_>,
    prepared: PreparedRace<'_, L>,
) -> RacedLanes<L>
    requires files { (store : Store) → F.told files.now ≡ Some store → HasJobFiles (racing_seen racing.now) store }
    requires prepared { (pool : Option PoolOf) × IsPrepared (racing_seen racing.now) pool prepared }
    ensures { (pool : Option PoolOf) (scripts : Option YardOf) → IsPrepared (racing_seen racing.now) pool prepared.entry
        → AreNew scripts racing.now.task (map (λ b. record { told = L.told b; counts = counts_at (L.start_faults b) (L.read_faults b) (L.hold_faults b) }) (bays_in prepared.entry))
        → HaveRaced (racing_seen racing.now) pool (C.may_read clock.now) scripts result.ran.start result.ran.reports.items (map (λ b. record { told = L.told b; counts = counts_at (L.start_faults b) (L.read_faults b) (L.hold_faults b) }) result.bays.items) }
{
    race_prepared(rt, alloc, clock, racing, prepared)
}

/// Gives the bays of lanes that ran back to their yard.
pub fn finish_race<Y: Yard>(yard: &mut Y, raced: RacedLanes<Y::Bay>) -> RanLanes
    ensures ran { result ≡ raced.ran }
    ensures told { Y.told yard.new ≡ Y.told yard.old }
    ensures counts { CameBack (map (λ b. counts_at (Y.Bay.start_faults b) (Y.Bay.read_faults b) (Y.Bay.hold_faults b)) raced.bays.items)
        (counts_at (Y.start_faults yard.old) (Y.read_faults yard.old) (Y.hold_faults yard.old)) (counts_at (Y.start_faults yard.new) (Y.read_faults yard.new) (Y.hold_faults yard.new)) }
    ensures started { IsLogged (left_all (map (λ b. record { told = Y.Bay.told b; counts = counts_at (Y.Bay.start_faults b) (Y.Bay.read_faults b) (Y.Bay.hold_faults b) }) raced.bays.items)) (Y.started yard.old) (Y.started yard.new) }
{
    let RacedLanes { bays, ran } = raced;
    give_back(yard, bays);
    ran
}
