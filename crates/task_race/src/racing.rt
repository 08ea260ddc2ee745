// The race of a task's lanes.

ghost use Rattle.std.specs.Prelude.{◌≡◌, IfOk, None, OnErr, Some};
ghost use Rattle.sby_edge.specs.Files.{Store};
ghost use Rattle.task_race.specs.Bays.{AreLater, NoneStarted, counts_at, yard_at};
ghost use Rattle.task_race.specs.Ran.{HasJobFiles, LanesRan, racing_seen};

use crate::prepare::prepare_race;
use crate::run::{finish_race, run_race};
use judge::{Finding, Problem};
use lane_berth::Allowance;
use race_core::Report;
use sby_edge::{Clock, Files, Yard};
use sby_terms::Engine;
use std::alloc::{AllocError, Global};
use std::sync::Wait;
use std::thread::Threads;

/// What is raced: a problem's jobs, one lane for each engine line. The jobs' files lie in the work folder. The task has a number among
/// those of the call, counted from 0. With `wait` no finding calls a lane off. The limit, where there is one, is in milliseconds.
#[derive(Clone, Copy)]
pub struct Racing<'a> {
    pub problem: &'a Problem,
    pub engines: &'a [Engine],
    pub folder: &'a str,
    pub task: u32,
    pub wait: bool,
    pub limit: Option<u64>,
}

/// What the lanes left: one report of each, in their order, and, where there is a limit, the reading at which they started.
#[derive(Drop)]
pub struct RanLanes {
    pub reports: Vec<Report<Finding>>,
    pub start: Option<u64>,
}

/// Races the lanes of a task, in bays of a yard that all come back to it. A store that tells has the files of all jobs before. Where
/// memory runs out before the first child starts, none is started.
pub fn race_task<R: Threads + Wait + Sync, F: Files, Y: Yard, C: Clock>(
    rt: &R,
    alloc: Global,
    files: &F,
    yard: &mut Y,
    clock: &C,
    racing: &Racing<'_>,
) -> Result<RanLanes, AllocError>
    requires files { (store : Store) → F.told files.now ≡ Some store → HasJobFiles (racing_seen racing.now) store }
    ensures told { Y.told yard.new ≡ Y.told yard.old }
    ensures later { AreLater (counts_at (Y.start_faults yard.old) (Y.read_faults yard.old) (Y.hold_faults yard.old)) (counts_at (Y.start_faults yard.new) (Y.read_faults yard.new) (Y.hold_faults yard.new)) }
    ensures ran { IfOk result (λ ran. LanesRan (racing_seen racing.now) None (C.may_read clock.now)
        (yard_at (Y.told yard.old) (Y.started yard.old) (counts_at (Y.start_faults yard.old) (Y.read_faults yard.old) (Y.hold_faults yard.old)))
        (yard_at (Y.told yard.new) (Y.started yard.new) (counts_at (Y.start_faults yard.new) (Y.read_faults yard.new) (Y.hold_faults yard.new))) ran.start ran.reports.items) }
    ensures memory { OnErr result (NoneStarted (yard_at (Y.told yard.old) (Y.started yard.old) (counts_at (Y.start_faults yard.old) (Y.read_faults yard.old) (Y.hold_faults yard.old)))
        (yard_at (Y.told yard.new) (Y.started yard.new) (counts_at (Y.start_faults yard.new) (Y.read_faults yard.new) (Y.hold_faults yard.new)))) }
{
    let mut alone = Allowance::none();
    let prepared = prepare_race(alloc, yard, racing, &mut alone);
    alone.end();
    let raced = run_race(rt, alloc, files, clock, racing, prepared?);
    Ok(finish_race(yard, raced))
}
