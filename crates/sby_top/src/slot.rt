// Turns that run at the same time, each in its slot.

ghost use Rattle.std.specs.Prelude.{◌≡◌, All, List, Option, ℕ};
ghost use Rattle.jobs_pool.specs.Places.{PoolOf};
ghost use Rattle.sby_edge.specs.Child.{YardOf};
ghost use Rattle.sby_top.specs.Ready.{back_by};
ghost use Rattle.sby_top.specs.Turns.{Turn as TurnOf};
ghost use Rattle.sby_top.specs.Waiting.{AreWaiting, Holds, IsAt, IsOver};
ghost use Rattle.sby_top.specs.World.{FilesOf};

use crate::serve::{Raced, Ready, race};
use crate::task::Task;
use sby_edge::{Clock, Launch};
use sby_lines::Early;
use std::alloc::Global;
use std::sync::Wait;
use std::thread;
use std::thread::Threads;

/// How far a turn is.
pub enum Stage<'p, L> {
    /// Only a fault is to be told, under this name.
    Refused(String, Early),
    /// The task ended before its lanes.
    Ended(Task, Early),
    /// The task is ready for its race.
    Ready(Task, Ready<'p, L>),
    /// The task was raced.
    Raced(Task, Raced<L>),
}

/// A turn, by its number in its call.
pub struct Slot<'p, L> {
    pub number: u32,
    /// Taken out while it is worked on.
    pub stage: Option<Stage<'p, L>>,
}

// The stage after a task's race, where it is ready for one.
fn raced<'p, R: Threads + Wait + Sync, L: Launch + Send, C: Clock>(
    rt: &R,
    alloc: Global,
    clock: &C,
    number: u32,
    stage: Stage<'p, L>,
) -> Stage<'p, L>
    requires { (pool : PoolOf) × (scripts : Option YardOf) × (got : FilesOf) × (put : FilesOf) × (turn : TurnOf) × IsAt (back_by L.told L.start_faults L.read_faults L.hold_faults) (C.may_read clock.now) pool scripts number got put turn stage }
    ensures at { (pool : PoolOf) (scripts : Option YardOf) (got put : FilesOf) (turn : TurnOf) → IsAt (back_by L.told L.start_faults L.read_faults L.hold_faults) (C.may_read clock.now) pool scripts number got put turn stage.entry
        → IsAt (back_by L.told L.start_faults L.read_faults L.hold_faults) (C.may_read clock.now) pool scripts number got put turn result }
    ensures over { IsOver result }
{
    match stage {
        Stage::Ready(task, ready) => {
            let raced = race(rt, alloc, clock, number, &task, ready);
            Stage::Raced(task, raced)
        }
        Stage::Refused(name, early) => Stage::Refused(name, early),
        Stage::Ended(task, early) => Stage::Ended(task, early),
        Stage::Raced(task, raced) => Stage::Raced(task, raced),
    }
}

// Races the task of a slot, where it is ready for that.
fn race_slot<R: Threads + Wait + Sync, L: Launch + Send, C: Clock>(
    rt: &R,
    alloc: Global,
    clock: &C,
    slot: &mut Slot<'_, L>,
)
    requires { (pool : PoolOf) × (scripts : Option YardOf) × (got : FilesOf) × (put : FilesOf) × (turn : TurnOf) × Holds slot.old (IsAt (back_by L.told L.start_faults L.read_faults L.hold_faults) (C.may_read clock.now) pool scripts slot.old.number got put turn) }
    ensures number { slot.new.number ≡ slot.old.number }
    ensures at { (pool : PoolOf) (scripts : Option YardOf) (got put : FilesOf) (turn : TurnOf) → Holds slot.old (IsAt (back_by L.told L.start_faults L.read_faults L.hold_faults) (C.may_read clock.now) pool scripts slot.old.number got put turn)
        → Holds slot.new (IsAt (back_by L.told L.start_faults L.read_faults L.hold_faults) (C.may_read clock.now) pool scripts slot.old.number got put turn) }
    ensures over { Holds slot.new IsOver }
{
    let Some(stage) = slot.stage.take() else {
        unreachable!()
    };
    match slot
        .stage
        .replace(raced(rt, alloc, clock, slot.number, stage))
    {
        None => {}
        Some(_stage) => unreachable!(),
    }
}

// At most this many tasks are raced at the same time, each with a thread for each of its lanes, so that threads don't grow with the number
// of tasks: as many as an allowance has places.
const MOST_RACES: usize = 64;

/// Races the tasks of slots at the same time.
pub fn race_slots<R: Threads + Wait + Sync, L: Launch + Send, C: Clock>(
    rt: &R,
    alloc: Global,
    clock: &C,
    slots: &mut [Slot<'_, L>],
)
    requires { (pool : PoolOf) × (scripts : Option YardOf) × (number : ℕ) × (first : FilesOf) × (last : FilesOf) × (turns : List TurnOf)
        × AreWaiting (back_by L.told L.start_faults L.read_faults L.hold_faults) (C.may_read clock.now) pool scripts number first turns last slots.old }
    ensures waiting { (pool : PoolOf) (scripts : Option YardOf) (number : ℕ) (first last : FilesOf) (turns : List TurnOf)
        → AreWaiting (back_by L.told L.start_faults L.read_faults L.hold_faults) (C.may_read clock.now) pool scripts number first turns last slots.old
        → AreWaiting (back_by L.told L.start_faults L.read_faults L.hold_faults) (C.may_read clock.now) pool scripts number first turns last slots.new }
    ensures over { All (λ slot. Holds slot IsOver) slots.new }
{
    let run = |_: usize, slot: &mut Slot<'_, L>|
        requires { (pool : PoolOf) × (scripts : Option YardOf) × (got : FilesOf) × (put : FilesOf) × (turn : TurnOf) × Holds slot.old (IsAt (back_by L.told L.start_faults L.read_faults L.hold_faults) (C.may_read clock.now) pool scripts slot.old.number got put turn) }
        ensures number { slot.new.number ≡ slot.old.number }
        ensures at { (pool : PoolOf) (scripts : Option YardOf) (got put : FilesOf) (turn : TurnOf) → Holds slot.old (IsAt (back_by L.told L.start_faults L.read_faults L.hold_faults) (C.may_read clock.entry.now) pool scripts slot.old.number got put turn)
            → Holds slot.new (IsAt (back_by L.told L.start_faults L.read_faults L.hold_faults) (C.may_read clock.entry.now) pool scripts slot.old.number got put turn) }
        ensures over { Holds slot.new IsOver }
    { race_slot(rt, alloc, clock, slot) };
    thread::for_each_mut(rt, slots, MOST_RACES, &run);
}
