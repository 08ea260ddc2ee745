// Turns that run at the same time, under an allowance: all are prepared, then raced, then one after the other is shown.

ghost use Rattle.std.specs.Prelude.{◌≡◌, ◌<◌, ◌≤◌, ◌+◌, [], ◌∷◌, All, List, ℕ, IfOk, OnErr, Option, Some, length, map, option_map, string_bytes, vec_capacity};
ghost use Rattle.std.specs.Vec.Iter.{into_iter_items, into_iter_len};
ghost use Rattle.jobs_pool.specs.Places.{PoolOf, blank};
ghost use Rattle.sby_edge.specs.Child.{YardOf};
ghost use Rattle.sby_top.specs.End.{exit_seen};
ghost use Rattle.sby_top.specs.Ending.{RunsTo};
ghost use Rattle.sby_top.specs.Ready.{back_by};
ghost use Rattle.sby_top.specs.Run.{ArePrepared, AreShown, AreUntold, TurnRan, TurnUntold};
ghost use Rattle.sby_top.specs.Turns.{AreTurnsOf, IsSound, Turn as TurnOf, turn_seen};
ghost use Rattle.sby_top.specs.Waiting.{AreSlotted, AreSlottedFor, AreWaiting, Holds, IsAt, IsOver, IsSlotted};
ghost use Rattle.sby_top.specs.World.{FilesOf, Moments, World, files_of, with_files, with_yard};
ghost use Rattle.task_race.specs.Bays.{NoneStarted};

use crate::host::{Host, Outside};
use crate::outcome::{Done, TaskEnd};
use crate::run::{Exit, refuse};
use crate::serve::Raced;
use crate::slot::{Slot, Stage, race_slots};
use crate::top::out_of_memory;
use crate::turns::{Book, Turn, turn_of};
use jobs_pool::{Pool, PoolSeat};
use judge::Designs;
use lane_berth::Allowance;
use sby_edge::{Clock, Files, Sink, Yard};
use std::alloc::{AllocError, Global};
use std::sync::Wait;
use std::thread::Threads;
use std::vec::IntoIter;

// An allowance for this many turns: the room of their ends, and the pool of their children's places with a seat of it.
struct Room {
    ends: Vec<TaskEnd>,
    pool: Pool,
    seat: PoolSeat,
}

// Takes the room of this many turns, under an allowance of this many children.
fn take_room(alloc: Global, turns: usize, most: u32) -> Result<Room, AllocError>
    ensures ends { IfOk result (λ r. (r.ends.items ≡ []) × (turns ≤ vec_capacity r.ends)) }
    ensures pool { IfOk result (λ r. (r.pool.most ≡ most) × (r.seat ≡ record { id = r.pool.id; view = blank })) }
{
    let ends = Vec::with_capacity(alloc, turns)?;
    let (pool, seat) = Pool::new(alloc, u64::from(most))?;
    Ok(Room { ends, pool, seat })
}

impl<R: Threads + Wait + Sync, F: Files, S: Sink, Y: Yard, C: Clock> Host<'_, R, F, S, Y, C> {
    // The stage of a turn, which has this number, when it is prepared.
    fn prepare_stage<'p>(
        &mut self,
        number: u32,
        turn: Turn,
        designs: &mut Designs,
        allowance: &mut Allowance<'p>,
    ) -> Stage<'p, Y::Bay>
        requires { IsSound (turn_seen turn) }
        ensures at { (pool : PoolOf) → allowance.old ≡ Some pool → IsAt (back_by Y.Bay.told Y.Bay.start_faults Y.Bay.read_faults Y.Bay.hold_faults) (⟦<Self as Outside>⟧.may_read self.old) pool (⟦<Self as Outside>⟧.world self.old).yard.scripts
            number (files_of (⟦<Self as Outside>⟧.world self.old)) (files_of (⟦<Self as Outside>⟧.world self.new)) (turn_seen turn) result }
        ensures spared { NoneStarted (⟦<Self as Outside>⟧.world self.old).yard (⟦<Self as Outside>⟧.world self.new).yard }
        ensures silent { ⟦<Self as Outside>⟧.world self.new ≡ with_yard (with_files (⟦<Self as Outside>⟧.world self.old) (files_of (⟦<Self as Outside>⟧.world self.new))) (⟦<Self as Outside>⟧.world self.new).yard }
        ensures allowance { allowance.new ≡ allowance.old }
        ensures keeps { ⟦<Self as Outside>⟧.keeps self.old self.new }
    {
        match turn {
            Turn::Refused(name, early) => Stage::Refused(name, early),
            Turn::Run(task) => match self.prepare(number, &task, designs, allowance) {
                Ok(ready) => Stage::Ready(task, ready),
                Err(early) => Stage::Ended(task, early),
            },
        }
    }

    // Prepares a turn, which has this number.
    fn prepare_turn<'p>(
        &mut self,
        number: u32,
        turn: Turn,
        designs: &mut Designs,
        allowance: &mut Allowance<'p>,
    ) -> Slot<'p, Y::Bay>
        requires { IsSound (turn_seen turn) }
        ensures number { result.number ≡ number }
        ensures at { (pool : PoolOf) → allowance.old ≡ Some pool → Holds result (IsAt (back_by Y.Bay.told Y.Bay.start_faults Y.Bay.read_faults Y.Bay.hold_faults) (⟦<Self as Outside>⟧.may_read self.old) pool (⟦<Self as Outside>⟧.world self.old).yard.scripts
            number (files_of (⟦<Self as Outside>⟧.world self.old)) (files_of (⟦<Self as Outside>⟧.world self.new)) (turn_seen turn)) }
        ensures spared { NoneStarted (⟦<Self as Outside>⟧.world self.old).yard (⟦<Self as Outside>⟧.world self.new).yard }
        ensures silent { ⟦<Self as Outside>⟧.world self.new ≡ with_yard (with_files (⟦<Self as Outside>⟧.world self.old) (files_of (⟦<Self as Outside>⟧.world self.new))) (⟦<Self as Outside>⟧.world self.new).yard }
        ensures allowance { allowance.new ≡ allowance.old }
        ensures keeps { ⟦<Self as Outside>⟧.keeps self.old self.new }
    {
        let stage = self.prepare_stage(number, turn, designs, allowance);
        Slot {
            number,
            stage: Some(stage),
        }
    }

    // Prepares the turn of the task that is asked for, and returns whether it is prepared: memory may run out for its name.
    fn prepare_asked<'p>(
        &mut self,
        book: &Book<'_>,
        asked: Option<&str>,
        designs: &mut Designs,
        allowance: &mut Allowance<'p>,
        slots: &mut Vec<Slot<'p, Y::Bay>>,
    ) -> bool
        requires { length slots.old.items < vec_capacity slots.old }
        ensures slotted { (pool : PoolOf) → allowance.old ≡ Some pool → IsSlotted (back_by Y.Bay.told Y.Bay.start_faults Y.Bay.read_faults Y.Bay.hold_faults) (⟦<Self as Outside>⟧.may_read self.old) pool
            (⟦<Self as Outside>⟧.world self.old)
            (⟦<Self as Outside>⟧.world self.new)
            book.now.stem.now (option_map (λ s. s.now) book.now.directory) book.now.config.now (option_map (λ s. s.now) asked.entry) slots.old.items slots.new.items result }
        ensures room { vec_capacity slots.old ≤ vec_capacity slots.new }
        ensures count { length slots.new.items ≤ length slots.old.items + 1 }
        ensures allowance { allowance.new ≡ allowance.old }
        ensures keeps { ⟦<Self as Outside>⟧.keeps self.old self.new }
    {
        // More turns than a number of 32 bits counts don't run.
        let (Ok(number), Ok(turn)) = (u32::try_from(slots.len()), turn_of(self.alloc, book, asked))
        else {
            return false;
        };
        let slot = self.prepare_turn(number, turn, designs, allowance);
        slots.push_reserved(slot);
        true
    }

    // Prepares the turns of the tasks of these names, in their order, and returns whether all are prepared.
    fn prepare_named<'p>(
        &mut self,
        book: &Book<'_>,
        names: &[String],
        designs: &mut Designs,
        allowance: &mut Allowance<'p>,
        slots: &mut Vec<Slot<'p, Y::Bay>>,
    ) -> bool
        requires fresh { slots.old.items ≡ [] }
        requires room { length names.now ≤ vec_capacity slots.old }
        ensures slotted { (pool : PoolOf) → allowance.old ≡ Some pool → (turns : List TurnOf)
            × AreTurnsOf book.now.stem.now (option_map (λ s. s.now) book.now.directory) book.now.config.now (map Some (map string_bytes names.now)) turns
            × AreSlotted (back_by Y.Bay.told Y.Bay.start_faults Y.Bay.read_faults Y.Bay.hold_faults) (⟦<Self as Outside>⟧.may_read self.old) pool
            (⟦<Self as Outside>⟧.world self.old)
            (⟦<Self as Outside>⟧.world self.new)
            turns result slots.new.items }
        ensures room { length slots.new.items ≤ length names.now }
        ensures allowance { allowance.new ≡ allowance.old }
        ensures keeps { ⟦<Self as Outside>⟧.keeps self.old self.new }
    {
        for name in names {
            if !self.prepare_asked(book, Some(name.as_str()), designs, allowance, slots) {
                return false;
            }
        }
        true
    }

    // Prepares the turns of the tasks of these names under the allowance of a pool, of which this is a seat, and returns whether all are prepared.
    fn prepare_all<'p>(
        &mut self,
        book: &Book<'_>,
        names: &[String],
        pool: &'p Pool,
        seat: PoolSeat,
    ) -> Result<(Vec<Slot<'p, Y::Bay>>, bool), AllocError>
        requires pool { seat.id ≡ pool.now.id }
        requires none { seat.view.held ≡ 0 }
        ensures slotted { IfOk result (λ made. (turns : List TurnOf)
            × AreTurnsOf book.now.stem.now (option_map (λ s. s.now) book.now.directory) book.now.config.now (map Some (map string_bytes names.now)) turns
            × AreSlotted (back_by Y.Bay.told Y.Bay.start_faults Y.Bay.read_faults Y.Bay.hold_faults) (⟦<Self as Outside>⟧.may_read self.old) pool.now
            (⟦<Self as Outside>⟧.world self.old)
            (⟦<Self as Outside>⟧.world self.new)
            turns made.1 made.0.items) }
        ensures count { IfOk result (λ made. length made.0.items ≤ length names.now) }
        ensures err { OnErr result (⟦<Self as Outside>⟧.world self.new ≡ ⟦<Self as Outside>⟧.world self.old) }
        ensures keeps { ⟦<Self as Outside>⟧.keeps self.old self.new }
    {
        let mut allowance: Allowance<'p> = Allowance::of(pool, seat);
        let mut slots: Vec<Slot<'p, Y::Bay>> = match Vec::with_capacity(self.alloc, names.len()) {
            Ok(slots) => slots,
            Err(error) => {
                allowance.end();
                return Err(error);
            }
        };
        // Tasks of one design share it.
        let mut designs = Designs::new(self.alloc);
        let is_all = self.prepare_named(book, names, &mut designs, &mut allowance, &mut slots);
        allowance.end();
        Ok((slots, is_all))
    }

    // Prints the lines of a turn whose race is over, and puts its trace files.
    fn show_slot(&mut self, slot: Slot<'_, Y::Bay>) -> (TaskEnd, Exit)
        requires { (pool : PoolOf) × (got : FilesOf) × (put : FilesOf) × (turn : TurnOf) × Holds slot (IsAt (back_by Y.Bay.told Y.Bay.start_faults Y.Bay.read_faults Y.Bay.hold_faults) (⟦<Self as Outside>⟧.may_read self.old) pool (⟦<Self as Outside>⟧.world self.old).yard.scripts slot.number got put turn) × Holds slot IsOver }
        ensures ran { (pool : PoolOf) (got put : FilesOf) (turn : TurnOf) → Holds slot.entry (IsAt (back_by Y.Bay.told Y.Bay.start_faults Y.Bay.read_faults Y.Bay.hold_faults) (⟦<Self as Outside>⟧.may_read self.old) pool (⟦<Self as Outside>⟧.world self.old).yard.scripts slot.entry.number got put turn)
            → TurnRan (⟦<Self as Outside>⟧.may_read self.old) slot.entry.number
            (record { got = got; put = put; pool = Some pool; before = ⟦<Self as Outside>⟧.world self.old; after = ⟦<Self as Outside>⟧.world self.new })
            turn result.0 (exit_seen result.1) }
        ensures scripts { (⟦<Self as Outside>⟧.world self.new).yard.scripts ≡ (⟦<Self as Outside>⟧.world self.old).yard.scripts }
        ensures keeps { ⟦<Self as Outside>⟧.keeps self.old self.new }
    {
        let Slot { number, stage } = slot;
        match stage {
            Some(Stage::Refused(name, early)) => refuse(self.alloc, self.out, name, early),
            Some(Stage::Ended(task, early)) => self.show_early(number, task, early),
            Some(Stage::Raced(task, raced)) => self.show_task(number, task, raced),
            Some(Stage::Ready(_task, _ready)) => unreachable!(),
            None => unreachable!(),
        }
    }

    // Takes back the bays of a turn that isn't told.
    fn leave_slot(&mut self, slot: Slot<'_, Y::Bay>)
        requires { Holds slot IsOver }
        ensures untold { (pool : PoolOf) (got put : FilesOf) (turn : TurnOf) → Holds slot.entry (IsAt (back_by Y.Bay.told Y.Bay.start_faults Y.Bay.read_faults Y.Bay.hold_faults) (⟦<Self as Outside>⟧.may_read self.old) pool (⟦<Self as Outside>⟧.world self.old).yard.scripts slot.entry.number got put turn)
            → TurnUntold (⟦<Self as Outside>⟧.may_read self.old) slot.entry.number
            (record { got = got; put = put; pool = Some pool; before = ⟦<Self as Outside>⟧.world self.old; after = ⟦<Self as Outside>⟧.world self.new })
            turn }
        ensures scripts { (⟦<Self as Outside>⟧.world self.new).yard.scripts ≡ (⟦<Self as Outside>⟧.world self.old).yard.scripts }
        ensures keeps { ⟦<Self as Outside>⟧.keeps self.old self.new }
    {
        let Slot { number: _, stage } = slot;
        match stage {
            Some(Stage::Raced(_task, raced)) => {
                let Raced {
                    problem: _,
                    room: _,
                    came,
                } = raced;
                self.come_back(came);
            }
            Some(Stage::Refused(_name, _early)) => {}
            Some(Stage::Ended(_task, _early)) => {}
            Some(Stage::Ready(_task, _ready)) => unreachable!(),
            None => unreachable!(),
        }
    }

    // Takes back the bays of turns that aren't told.
    fn leave_slots(&mut self, slots: IntoIter<Slot<'_, Y::Bay>>)
        requires len { into_iter_len slots ≡ length (into_iter_items slots) }
        requires over { All (λ slot. Holds slot IsOver) (into_iter_items slots) }
        ensures untold { (pool : PoolOf) (number : ℕ) (first last : FilesOf) (turns : List TurnOf)
            → AreWaiting (back_by Y.Bay.told Y.Bay.start_faults Y.Bay.read_faults Y.Bay.hold_faults) (⟦<Self as Outside>⟧.may_read self.old) pool (⟦<Self as Outside>⟧.world self.old).yard.scripts number first turns last (into_iter_items slots.entry)
            → (ms : List Moments) × AreUntold (⟦<Self as Outside>⟧.may_read self.old) number turns ms × ArePrepared first ms last
            × AreShown (⟦<Self as Outside>⟧.world self.old) ms (⟦<Self as Outside>⟧.world self.new) × All (λ m. m.pool ≡ Some pool) ms }
        ensures keeps { ⟦<Self as Outside>⟧.keeps self.old self.new }
    {
        let mut left = slots;
        while let Some(slot) = left.next() {
            self.leave_slot(slot);
        }
        left.destroy_empty();
    }

    // Shows turns whose races are over, in their order, up to a failed call of the sink. `is_all` tells that no others were asked for.
    fn show_slots(&mut self, slots: Vec<Slot<'_, Y::Bay>>, is_all: bool, ends: Vec<TaskEnd>) -> Done
        requires none { ends.items ≡ [] }
        requires room { length slots.items ≤ vec_capacity ends }
        requires waiting { (pool : PoolOf) × (start : World) × (turns : List TurnOf) × AreSlotted (back_by Y.Bay.told Y.Bay.start_faults Y.Bay.read_faults Y.Bay.hold_faults) (⟦<Self as Outside>⟧.may_read self.old) pool start (⟦<Self as Outside>⟧.world self.old) turns is_all slots.items }
        requires over { All (λ slot. Holds slot IsOver) slots.items }
        ensures ran { (pool : PoolOf) (start : World) (turns : List TurnOf) → AreSlotted (back_by Y.Bay.told Y.Bay.start_faults Y.Bay.read_faults Y.Bay.hold_faults) (⟦<Self as Outside>⟧.may_read self.old) pool start (⟦<Self as Outside>⟧.world self.old) turns is_all slots.entry.items
            → RunsTo (Some pool.most) (⟦<Self as Outside>⟧.may_read self.old) start turns (⟦<Self as Outside>⟧.world self.new) result }
        ensures keeps { ⟦<Self as Outside>⟧.keeps self.old self.new }
    {
        let mut left = slots.into_iter();
        let mut done = Done { rc: 0, ends };
        while let Some(slot) = left.next() {
            let (end, exit) = self.show_slot(slot);
            done.ends.push_reserved(end);
            match exit {
                Exit::Code(rc) => done.rc |= rc,
                Exit::Cut => {
                    done.rc = 16;
                    self.leave_slots(left);
                    return done;
                }
            }
        }
        left.destroy_empty();
        if is_all {
            return done;
        }
        // Memory ran out for the name of the next turn.
        done.rc |= 32;
        done
    }

    // Races the turns in slots at the same time, and shows them in their order.
    fn race_and_show(
        &mut self,
        slots: Vec<Slot<'_, Y::Bay>>,
        is_all: bool,
        ends: Vec<TaskEnd>,
    ) -> Done
        requires none { ends.items ≡ [] }
        requires room { length slots.items ≤ vec_capacity ends }
        requires waiting { (pool : PoolOf) × (start : World) × (turns : List TurnOf) × AreSlotted (back_by Y.Bay.told Y.Bay.start_faults Y.Bay.read_faults Y.Bay.hold_faults) (⟦<Self as Outside>⟧.may_read self.old) pool start (⟦<Self as Outside>⟧.world self.old) turns is_all slots.items }
        ensures ran { (pool : PoolOf) (start : World) (turns : List TurnOf) → AreSlotted (back_by Y.Bay.told Y.Bay.start_faults Y.Bay.read_faults Y.Bay.hold_faults) (⟦<Self as Outside>⟧.may_read self.old) pool start (⟦<Self as Outside>⟧.world self.old) turns is_all slots.entry.items
            → RunsTo (Some pool.most) (⟦<Self as Outside>⟧.may_read self.old) start turns (⟦<Self as Outside>⟧.world self.new) result }
        ensures keeps { ⟦<Self as Outside>⟧.keeps self.old self.new }
    {
        let mut slots = slots;
        race_slots(self.rt, self.alloc, self.clock, slots.as_mut_slice());
        self.show_slots(slots, is_all, ends)
    }

    /// Has the only turn there is, under an allowance of this many children.
    pub fn run_only_together(&mut self, most: u32, turn: Turn) -> Done
        requires { IsSound (turn_seen turn) }
        ensures ran { RunsTo (Some most) (⟦<Self as Outside>⟧.may_read self.old)
            (⟦<Self as Outside>⟧.world self.old) (turn_seen turn ∷ [])
            (⟦<Self as Outside>⟧.world self.new) result }
        ensures keeps { ⟦<Self as Outside>⟧.keeps self.old self.new }
    {
        let Ok(room) = take_room(self.alloc, 1, most) else {
            return out_of_memory(self.alloc);
        };
        let Room { ends, pool, seat } = room;
        let mut allowance = Allowance::of(&pool, seat);
        let Ok(mut slots) = Vec::with_capacity(self.alloc, 1) else {
            allowance.end();
            return out_of_memory(self.alloc);
        };
        let mut designs = Designs::new(self.alloc);
        let slot = self.prepare_turn(0, turn, &mut designs, &mut allowance);
        slots.push_reserved(slot);
        allowance.end();
        self.race_and_show(slots, true, ends)
    }

    /// Runs the tasks of these names at the same time, under an allowance of this many children.
    pub fn run_together(&mut self, most: u32, book: &Book<'_>, names: &[String]) -> Done
        requires { 0 < length names.now }
        ensures ran { (turns : List TurnOf) × AreTurnsOf book.now.stem.now (option_map (λ s. s.now) book.now.directory) book.now.config.now (map Some (map string_bytes names.now)) turns
            × RunsTo (Some most) (⟦<Self as Outside>⟧.may_read self.old)
            (⟦<Self as Outside>⟧.world self.old) turns
            (⟦<Self as Outside>⟧.world self.new) result }
        ensures keeps { ⟦<Self as Outside>⟧.keeps self.old self.new }
    {
        let Ok(room) = take_room(self.alloc, names.len(), most) else {
            return out_of_memory(self.alloc);
        };
        let Room { ends, pool, seat } = room;
        let Ok((slots, is_all)) = self.prepare_all(book, names, &pool, seat) else {
            return out_of_memory(self.alloc);
        };
        self.race_and_show(slots, is_all, ends)
    }
}
