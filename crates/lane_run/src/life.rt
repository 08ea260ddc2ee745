// A child's life, from its start to its end.

ghost use Rattle.std.specs.Prelude.{◌≡◌, ◌⊎◌, ℕ, ◌+◌, ◌<◌, ◌≤◌, ◌^◌, [], None, Option, IfNone, IfSome, false, option_map, length, true};
ghost use Rattle.std.specs.Option.{MatchOption};
ghost use Rattle.lane_run.specs.Placed.{place_used};
ghost use Rattle.lane_run.specs.Judging.{Within};
ghost use Rattle.lane_run.specs.Keeping.{EndsChild, IsOfCell, Keeps, TakesTurns};
ghost use Rattle.lane_run.specs.Reading.{Comes, HasRead, NoneLeft, ReadSoFar};
ghost use Rattle.lane_run.specs.Sides.{KeptOut, KilledBy, ReadOut};
ghost use Rattle.race_cells.specs.Notes.{AreNotesOf};
ghost use Rattle.race_core.specs.Asking.{terms_of};
ghost use Rattle.race_core.specs.Parts.{keeper_from, place_from, reader_of};
ghost use Rattle.race_core.specs.declared.part.Keeper.TheVariants as keeper;
ghost use Rattle.race_core.specs.declared.part.Place.TheVariants.{Away};
ghost use Rattle.race_core.specs.declared.part.Reader.TheVariants as reader;
ghost use Rattle.race_core.specs.declared.part.Reason.TheVariants as reason;
ghost use Rattle.sby_edge.specs.Cause.{Rose};
ghost use Rattle.sby_edge.specs.Child.{PipeOf, finished};

use crate::child_judge::{ChildJudge, ForJob};
use crate::keeper::{Kept, Watch, keep};
use crate::placing::finish_child;
use crate::reader::read_out;
use lane_berth::Berth;
use race_cells::Notes;
use race_core::{EventList, Reader, Reason};
use sby_edge::{Clock, Hold, Launch, Pipe};
use sby_terms::Settled;
use std::alloc::Global;
use std::sync::Wait;
use std::sync::atomic::{AtomicBool, Ordering};
use std::thread::{Threads, join_mut};

// A work that is done beside another.
pub(crate) trait Side {
    type Output;

    ghost can_run: { Self → Type 0 };

    ghost runs: { Self → Self.Output → Self → Type 0 };

    fn run(&mut self) -> Self::Output
        requires { can_run self.old }
        ensures { runs self.old result self.new };
}

// The reader's side and the keeper beside each other. The flag tells that one of them has ended. Where no thread can be made, `join_mut` calls its second closure first. That has to be
// the reader's side: it needs nothing of the keeper to end, and a keeper without it would wait for ever.
pub(crate) fn run_beside<
    R: Threads + Wait + Sync,
    A: Side<Output = X>,
    J: ForJob<T> + Sync,
    T: Settled + Drop + Send + Sync,
    C: Clock,
    H: Hold + Send,
    X,
>(
    rt: &R,
    reader: &mut A,
    watch: &Watch<'_, J, T, C>,
    has_ended: &AtomicBool,
    hold: &mut H,
    notes: &mut Notes<T>,
    events: &mut EventList<T>,
    reserved: usize,
) -> (X, Kept<T>)
    requires reader { A.can_run reader.old }
    requires cell { watch.now.terms.now.cell < length watch.now.cells.now }
    requires other { IfSome watch.now.other (λ o. o.0 < length watch.now.cells.now) }
    requires notes { AreNotesOf watch.now.cells.now notes.old }
    requires reserved { reserved ≤ 2 }
    requires room { reserved + 2 ≤ events.old.room }
    requires turns { TakesTurns (keeper_from (terms_of T.job T.answer watch.now.terms.now) keeper.Fresh events.old.events) }
    ensures reader { A.runs reader.old result.0 reader.new }
    ensures kept { KeptOut (terms_of T.job T.answer watch.now.terms.now) (IsOfCell T.problem T.job (J.problem watch.now.problem.now) watch.now.terms.now watch.now.other) (C.may_read watch.now.clock.now) notes.old notes.new events.old.events events.new.events
        (H.faults hold.new) result.1.why result.1.is_failed }
    ensures room { reserved ≤ events.new.room }
    ensures turns_room { IfNone result.1.why (reserved + 2 ≤ events.new.room) }
    ensures killed { IfNone result.1.why (H.killed hold.new ≡ H.killed hold.old) }
    ensures reaped { H.is_reaped hold.new ≡ H.is_reaped hold.old }
{
    let (kept, given) = join_mut(
        rt,
        &mut || -> Kept<T>
            requires cell { watch.now.terms.now.cell < length watch.now.cells.now }
            requires other { IfSome watch.now.other (λ o. o.0 < length watch.now.cells.now) }
            requires notes { AreNotesOf watch.now.cells.now notes.now }
            requires reserved { reserved ≤ 2 }
            requires room { reserved + 2 ≤ events.now.room }
            requires turns { TakesTurns (keeper_from (terms_of T.job T.answer watch.now.terms.now) keeper.Fresh events.now.events) }
        {
            let kept = keep(rt, watch, has_ended, hold, notes, events, reserved);
            has_ended.store(true, Ordering::SeqCst);
            kept
        },
        &mut || -> X
            requires { A.can_run reader.now }
        { reader.run() },
    );
    (given, kept)
}

// The reader's side.
pub(crate) struct ReaderSide<'r, 'f, R, P, S, T> {
    pub(crate) rt: &'r R,
    pub(crate) alloc: Global,
    pub(crate) has_ended: &'f AtomicBool,
    pub(crate) pipe: P,
    pub(crate) judge: S,
    pub(crate) events: EventList<T>,
}

impl<'r, 'f, R: Wait, P: Pipe, S: ChildJudge<T>, T: Settled + Drop> Side
    for ReaderSide<'r, 'f, R, P, S, T> {
    type Output = Reader<T>;

    ghost can_run = { λ s. (S.taken s.judge ≡ []) × (s.events.events ≡ []) × (1 ≤ s.events.room) × S.goes_on s.judge };

    ghost runs = { λ before part now. ReadOut (S.stands before.judge) (S.ends before.judge) (S.proves before.judge) (S.proves now.judge)
        (S.awaits now.judge) (S.most before.judge) (P.faults now.pipe) now.events.room (P.told before.pipe) (P.told now.pipe) (S.taken now.judge) now.events.events part };

    fn run(&mut self) -> Reader<T> {
        let part = read_out(
            self.rt,
            self.alloc,
            &mut self.pipe,
            &mut self.judge,
            &mut self.events,
        );
        self.has_ended.store(true, Ordering::SeqCst);
        part
    }
}

/// What a child's two sides leave.
pub(crate) struct Lived<S, T> {
    pub(crate) judge: S,
    pub(crate) events: EventList<T>,
    pub(crate) part: Reader<T>,
    pub(crate) why: Option<Reason<T>>,
    // A kill or the reap failed.
    pub(crate) is_failed: bool,
}

// Kills a child that its keeper didn't kill, after its reader. Answers whether that failed.
fn kill_last<L: Launch, T>(
    berth: &Berth<'_, L>,
    pipe: &L::Pipe,
    hold: &mut L::Hold,
    why: &Option<Reason<T>>,
) -> bool
    requires { IfNone why.now (L.Hold.killed hold.old ≡ None) }
    ensures killed { KilledBy why.now (L.Pipe.told pipe.now) (L.Hold.killed hold.new) }
    ensures faults { L.Hold.faults hold.old ≤ L.Hold.faults hold.new }
    ensures failed { result ≡ true → 0 < L.Hold.faults hold.new }
{
    match why {
        Some(_) => false,
        None => berth.kill(pipe, hold).is_err(),
    }
}

// Kills a child that its keeper didn't kill, and reaps it. Answers whether a kill or the reap failed.
fn end_child<L: Launch, T>(
    berth: &Berth<'_, L>,
    pipe: &L::Pipe,
    hold: &mut L::Hold,
    kept: &Kept<T>,
) -> bool
    requires failed { kept.now.is_failed ≡ true → 0 < L.Hold.faults hold.old }
    requires alive { IfNone kept.now.why (L.Hold.killed hold.old ≡ None) }
    ensures killed { KilledBy kept.now.why (L.Pipe.told pipe.now) (L.Hold.killed hold.new) }
    ensures reaped { L.Hold.is_reaped hold.new ≡ true }
    ensures faults { L.Hold.faults hold.old ≤ L.Hold.faults hold.new }
    ensures failed { result ≡ true → 0 < L.Hold.faults hold.new }
{
    let is_alive = kill_last(berth, pipe, hold, &kept.why);
    let is_lost = hold.reap().is_err();
    kept.is_failed || is_alive || is_lost
}

// Room for the child's end and the return of its place, after what its keeper enters.
const RESERVED: usize = 2;

// The life of a child that was started: reader and keeper beside each other, then the kill, where none came, the reap in every case,
// and the end; then its place is given back.
#[tactic(auto, using(crate::proofs::PlaceLemmas::none_room))]
pub(crate) fn live<
    R: Threads + Wait + Sync,
    L: Launch,
    S: ChildJudge<T>,
    J: ForJob<T> + Sync,
    T: Settled + Drop + Send + Sync,
    C: Clock,
>(
    rt: &R,
    alloc: Global,
    berth: &mut Berth<'_, L>,
    child: (L::Pipe, L::Hold),
    watch: &Watch<'_, J, T, C>,
    judge: S,
    notes: &mut Notes<T>,
    reader_events: EventList<T>,
    keeper_events: &mut EventList<T>,
) -> Lived<S, T>
    requires fresh { (S.taken judge ≡ []) × (reader_events.events ≡ []) }
    requires reader_room { 1 ≤ reader_events.room }
    requires goes_on { S.goes_on judge }
    requires alive { L.Hold.killed child.1 ≡ None }
    requires cell { watch.now.terms.now.cell < length watch.now.cells.now }
    requires other { IfSome watch.now.other (λ o. o.0 < length watch.now.cells.now) }
    requires notes { AreNotesOf watch.now.cells.now notes.old }
    requires room { 4 ≤ keeper_events.old.room }
    requires stands { berth.old.stands ≡ true }
    requires place { place_from Away keeper_events.old.events ≡ place_used berth.old.pool }
    requires turns { TakesTurns (keeper_from (terms_of T.job T.answer watch.now.terms.now) keeper.Fresh keeper_events.old.events) }
    ensures part { result.part ≡ reader_of (record { reader = result.events.events; keeper = [] }) }
    ensures has_read { HasRead result.part }
    ensures room { (result.part ≡ reader.Short) ⊎ (1 ≤ result.events.room) }
    ensures awaits { result.part ≡ reader.Asking → S.awaits result.judge }
    ensures proves { Within (S.proves result.judge) (S.proves judge) }
    ensures most { length (S.taken result.judge) ≤ S.most judge + 2 ^ 16 }
    ensures reader { (now : Option PipeOf) × (killed : Option ℕ) × (L.told berth.new.bay ≡ option_map (finished now killed) (L.told berth.old.bay)) × KilledBy result.why now killed
        × ReadSoFar (L.Pipe.told child.0) now (S.taken result.judge) result.events.events
        × Comes (S.stands judge) (S.ends judge) (S.proves judge) (NoneLeft now) (S.taken result.judge) [] result.part }
    ensures read_failed { result.part ≡ reader.Failed → Rose (L.read_faults berth.old.bay) (L.read_faults berth.new.bay) }
    ensures kept { MatchOption result.why (TakesTurns (keeper_from (terms_of T.job T.answer watch.now.terms.now) keeper.Fresh keeper_events.new.events)) (λ why. keeper_from (terms_of T.job T.answer watch.now.terms.now) keeper.Fresh keeper_events.new.events ≡ keeper.Killed why) }
    ensures keeper_room { IfNone result.why (2 ≤ keeper_events.new.room) }
    ensures place { place_from Away keeper_events.new.events ≡ Away }
    ensures same { berth.new ≡ record berth.old { bay = berth.new.bay; holds = false; stands = false } }
    ensures keeps { Keeps (IsOfCell T.problem T.job (J.problem watch.now.problem.now) watch.now.terms.now watch.now.other) (C.may_read watch.now.clock.now) notes.old notes.new keeper_events.old.events keeper_events.new.events }
    ensures fault { IfSome result.why (λ why. EndsChild why × (why ≡ reason.Fault → Rose (L.hold_faults berth.old.bay) (L.hold_faults berth.new.bay))) }
    ensures failed { result.is_failed ≡ true → Rose (L.hold_faults berth.old.bay) (L.hold_faults berth.new.bay) }
    ensures starts { L.start_faults berth.new.bay ≡ L.start_faults berth.old.bay }
    ensures later { (L.read_faults berth.old.bay ≤ L.read_faults berth.new.bay) × (L.hold_faults berth.old.bay ≤ L.hold_faults berth.new.bay) }
{
    let (pipe, mut hold) = child;
    let flag = AtomicBool::new(false);
    let mut reader = ReaderSide {
        rt,
        alloc,
        has_ended: &flag,
        pipe,
        judge,
        events: reader_events,
    };
    let (part, kept) = run_beside(
        rt,
        &mut reader,
        watch,
        &flag,
        &mut hold,
        notes,
        keeper_events,
        RESERVED,
    );
    let is_failed = end_child(berth, &reader.pipe, &mut hold, &kept);
    let ReaderSide {
        rt: _,
        alloc: _,
        has_ended: _,
        pipe,
        judge,
        events,
    } = reader;
    finish_child(watch, berth, pipe, hold, notes, keeper_events);
    Lived {
        judge,
        events,
        part,
        why: kept.why,
        is_failed,
    }
}
