// A job of a lane that has a child.

ghost use Rattle.std.specs.Prelude.{◌≡◌, ◌≢◌, ◌⊎◌, ◌<◌, ◌≤◌, [], None, Option, IfNone, IfSome, false, length, true};
ghost use Rattle.std.specs.Option.{MatchOption};
ghost use Rattle.lane_run.specs.Placed.{place_used};
ghost use Rattle.lane_run.specs.Keeping.{HasKept, IsOfCell, Keeps, TakesTurns};
ghost use Rattle.lane_run.specs.Reading.{HasRead, IfWon, IsHolding, IsOver, bytes_filed, bytes_read, empty_reads};
ghost use Rattle.lane_run.specs.Starting.{HasRun};
ghost use Rattle.lane_run.specs.Sides.{Asks, Finishes, RanFrom, kept_by};
ghost use Rattle.race_cells.specs.Notes.{AreNotesOf, known_at};
ghost use Rattle.race_core.specs.Asking.{terms_of};
ghost use Rattle.race_core.specs.Ends.{EndIs};
ghost use Rattle.race_core.specs.Parts.{RightKeeper, RightReader, keeper_from, place_from, reader_from};
ghost use Rattle.race_core.specs.declared.part.Reason.{Reason};
ghost use Rattle.race_core.specs.declared.end.JobEnd.TheVariants as end;
ghost use Rattle.race_core.specs.declared.part.Keeper.TheVariants as keeper;
ghost use Rattle.race_core.specs.declared.part.Place.TheVariants.{Away};
ghost use Rattle.race_core.specs.declared.part.Reader.TheVariants as reader;
ghost use Rattle.race_core.specs.declared.part.Reason.TheVariants as reason;
ghost use Rattle.sby_edge.specs.Cause.{Rose};

use crate::child_judge::{ChildJudge, ForJob};
use crate::ending::job_end;
use crate::keeper::Watch;
use crate::life::{Lived, live};
use crate::over::{Asked, settle};
use crate::proof::{Filed, read_proof};
use lane_berth::Berth;
use race_cells::Notes;
use race_core::{EventList, JobEnd, Keeper, Reader, Reason};
use sby_edge::{Clock, Launch};
use sby_terms::Settled;
use std::alloc::Global;
use std::sync::Wait;
use std::thread::Threads;

/// What a child's life leaves to its lane: how the job ends, and the events of its reader.
#[derive(Drop)]
pub struct JobRun<T> {
    pub end: JobEnd<T>,
    pub events: EventList<T>,
}

fn kept<T: Drop>(why: Option<Reason<T>>) -> Keeper<T>
    ensures { result ≡ kept_by why }
{
    match why {
        Some(why) => Keeper::Killed(why),
        None => Keeper::Turning,
    }
}

// Asks for the proof file, where the output left the end to it and no kill came.
fn ask_proof<
    R: Threads + Wait + Sync,
    L: Launch,
    S: ChildJudge<T> + Drop,
    J: ForJob<T> + Sync,
    T: Settled + Drop + Send + Sync,
    C: Clock,
>(
    rt: &R,
    alloc: Global,
    berth: &mut Berth<'_, L>,
    asked: &Asked<'_>,
    watch: &Watch<'_, J, T, C>,
    came: Filed<T>,
    judge: S,
    notes: &mut Notes<T>,
    events: &mut EventList<T>,
    keeper_events: &mut EventList<T>,
) -> Filed<T>
    requires part { came.part ≡ reader_from reader.Fresh events.old.events }
    requires has_read { HasRead came.part }
    requires room { (came.part ≡ reader.Short) ⊎ (1 ≤ events.old.room) }
    requires awaits { came.part ≡ reader.Asking → S.awaits judge }
    requires unfiled { bytes_filed events.old.events ≡ 0 }
    requires cell { watch.now.terms.now.cell < length watch.now.cells.now }
    requires other { IfSome watch.now.other (λ o. o.0 < length watch.now.cells.now) }
    requires notes { AreNotesOf watch.now.cells.now notes.old }
    requires keeper_room { IfNone came.why (2 ≤ keeper_events.old.room) }
    requires kept { MatchOption came.why (TakesTurns (keeper_from (terms_of T.job T.answer watch.now.terms.now) keeper.Fresh keeper_events.old.events)) (λ why. keeper_from (terms_of T.job T.answer watch.now.terms.now) keeper.Fresh keeper_events.old.events ≡ keeper.Killed why) }
    requires ends { HasKept (kept_by came.why) }
    ensures part { result.part ≡ reader_from reader.Fresh events.new.events }
    ensures over { IsOver result.part (kept_by result.why) ⊎ IsHolding result.part }
    ensures room { IsHolding result.part → 1 ≤ events.new.room }
    ensures asks { Asks (S.proves judge) (L.told berth.old.bay) asked.now.job asked.now.most result.why came.part result.part (bytes_filed events.new.events) }
    ensures read { bytes_read events.new.events ≡ bytes_read events.old.events }
    ensures empty { empty_reads events.new.events ≡ empty_reads events.old.events }
    ensures failed { result.part ≡ reader.Failed → (came.part ≡ reader.Failed) ⊎ Rose (L.read_faults berth.old.bay) (L.read_faults berth.new.bay) }
    ensures same { berth.new ≡ record berth.old { bay = berth.new.bay } }
    ensures told { L.told berth.new.bay ≡ L.told berth.old.bay }
    ensures starts { L.start_faults berth.new.bay ≡ L.start_faults berth.old.bay }
    ensures holds { L.hold_faults berth.new.bay ≡ L.hold_faults berth.old.bay }
    ensures reads { L.read_faults berth.old.bay ≤ L.read_faults berth.new.bay }
    ensures unsettled { IfWon result.part (λ f. ⊥) }
    ensures kept { MatchOption result.why (TakesTurns (keeper_from (terms_of T.job T.answer watch.now.terms.now) keeper.Fresh keeper_events.new.events)) (λ why. keeper_from (terms_of T.job T.answer watch.now.terms.now) keeper.Fresh keeper_events.new.events ≡ keeper.Killed why) }
    ensures ends { HasKept (kept_by result.why) }
    ensures still { IfSome came.why (λ _. keeper_events.new.events ≡ keeper_events.old.events) }
    ensures fault { kept_by result.why ≡ keeper.Killed reason.Fault → kept_by came.why ≡ keeper.Killed reason.Fault }
    ensures place { place_from Away keeper_events.new.events ≡ place_from Away keeper_events.old.events }
    ensures keeps { Keeps (IsOfCell T.problem T.job (J.problem watch.now.problem.now) watch.now.terms.now watch.now.other) (C.may_read watch.now.clock.now) notes.old notes.new keeper_events.old.events keeper_events.new.events }
{
    match (came.part, came.why) {
        (Reader::Asking, None) => read_proof(
            rt,
            alloc,
            berth,
            asked,
            watch,
            judge,
            notes,
            events,
            keeper_events,
        ),
        (part, why) => Filed { part, why },
    }
}

// The end of a job whose child is over: the proof file, where the output left the end to it and no kill came, and the settle.
fn conclude<
    R: Threads + Wait + Sync,
    L: Launch,
    S: ChildJudge<T> + Drop,
    J: ForJob<T> + Sync,
    T: Settled + Drop + Send + Sync,
    C: Clock,
>(
    rt: &R,
    alloc: Global,
    berth: &mut Berth<'_, L>,
    asked: &Asked<'_>,
    watch: &Watch<'_, J, T, C>,
    lived: Lived<S, T>,
    notes: &mut Notes<T>,
    keeper_events: &mut EventList<T>,
) -> JobRun<T>
    requires part { lived.part ≡ reader_from reader.Fresh lived.events.events }
    requires has_read { HasRead lived.part }
    requires room { (lived.part ≡ reader.Short) ⊎ (1 ≤ lived.events.room) }
    requires awaits { lived.part ≡ reader.Asking → S.awaits lived.judge }
    requires unfiled { bytes_filed lived.events.events ≡ 0 }
    requires cell { watch.now.terms.now.cell < length watch.now.cells.now }
    requires other { IfSome watch.now.other (λ o. o.0 < length watch.now.cells.now) }
    requires notes { AreNotesOf watch.now.cells.now notes.old }
    requires keeper_room { IfNone lived.why (2 ≤ keeper_events.old.room) }
    requires kept { MatchOption lived.why (TakesTurns (keeper_from (terms_of T.job T.answer watch.now.terms.now) keeper.Fresh keeper_events.old.events)) (λ why. keeper_from (terms_of T.job T.answer watch.now.terms.now) keeper.Fresh keeper_events.old.events ≡ keeper.Killed why) }
    requires ends { HasKept (kept_by lived.why) }
    ensures end { EndIs (terms_of T.job T.answer watch.now.terms.now) (λ _. ⊥) (reader_from reader.Fresh result.events.events) (keeper_from (terms_of T.job T.answer watch.now.terms.now) keeper.Fresh keeper_events.new.events) result.end }
    ensures right { RightReader (reader_from reader.Fresh result.events.events) × RightKeeper (keeper_from (terms_of T.job T.answer watch.now.terms.now) keeper.Fresh keeper_events.new.events) }
    ensures looked { keeper_from (terms_of T.job T.answer watch.now.terms.now) keeper.Fresh keeper_events.new.events ≢ keeper.Fresh }
    ensures finishes { (why : Option (Reason T)) × Finishes (S.proves lived.judge) (L.told berth.old.bay) asked.now.job asked.now.most why lived.part (reader_from reader.Fresh result.events.events) (bytes_filed result.events.events) }
    ensures read { bytes_read result.events.events ≡ bytes_read lived.events.events }
    ensures empty { empty_reads result.events.events ≡ empty_reads lived.events.events }
    ensures won { IfWon (reader_from reader.Fresh result.events.events) (λ f. known_at notes.new watch.now.terms.now.cell ≡ Some f) }
    ensures started { HasRun result.end }
    ensures read_failed { result.end ≡ end.ReadFailed → (lived.part ≡ reader.Failed) ⊎ Rose (L.read_faults berth.old.bay) (L.read_faults berth.new.bay) }
    ensures hold_failed { result.end ≡ end.HoldFailed → (lived.is_failed ≡ true) ⊎ (kept_by lived.why ≡ keeper.Killed reason.Fault) }
    ensures same { berth.new ≡ record berth.old { bay = berth.new.bay } }
    ensures told { L.told berth.new.bay ≡ L.told berth.old.bay }
    ensures starts { L.start_faults berth.new.bay ≡ L.start_faults berth.old.bay }
    ensures holds { L.hold_faults berth.new.bay ≡ L.hold_faults berth.old.bay }
    ensures reads { L.read_faults berth.old.bay ≤ L.read_faults berth.new.bay }
    ensures still { IfSome lived.why (λ _. keeper_events.new.events ≡ keeper_events.old.events) }
    ensures place { place_from Away keeper_events.new.events ≡ place_from Away keeper_events.old.events }
    ensures keeps { Keeps (IsOfCell T.problem T.job (J.problem watch.now.problem.now) watch.now.terms.now watch.now.other) (C.may_read watch.now.clock.now) notes.old notes.new keeper_events.old.events keeper_events.new.events }
{
    let Lived {
        judge,
        mut events,
        part,
        why,
        is_failed,
    } = lived;
    let came = Filed { part, why };
    let Filed { part, why } = ask_proof(
        rt,
        alloc,
        berth,
        asked,
        watch,
        came,
        judge,
        notes,
        &mut events,
        keeper_events,
    );
    let cells = watch.cells;
    let place = watch.terms.cell;
    let part = settle(alloc, cells, place, part, notes, &mut events);
    JobRun {
        end: job_end(part, kept(why), is_failed),
        events,
    }
}

/// Runs a job whose child was started, and not killed since: its reader and its keeper beside each other, a kill where none came, the reap in every case, and
/// the end. Until its reader has ended, the child is killed only by a kill of its keeper's list, for which that has a reason. Then the proof file, where the output leaves the end to it and no kill came, judged with the keeper beside it; and the settle of what was found. Waits for the child.
#[tactic(auto, using(crate::proofs::Endings::rose_later, crate::proofs::Endings::rose_earlier))]
pub fn run_started<
    R: Threads + Wait + Sync,
    L: Launch,
    S: ChildJudge<T> + Drop,
    J: ForJob<T> + Sync,
    T: Settled + Drop + Send + Sync,
    C: Clock,
>(
    rt: &R,
    alloc: Global,
    berth: &mut Berth<'_, L>,
    child: (L::Pipe, L::Hold),
    asked: &Asked<'_>,
    watch: &Watch<'_, J, T, C>,
    judge: S,
    notes: &mut Notes<T>,
    reader_events: EventList<T>,
    keeper_events: &mut EventList<T>,
) -> JobRun<T>
    requires fresh { (S.taken judge ≡ []) × (reader_events.events ≡ []) }
    requires reader_room { 1 ≤ reader_events.room }
    requires goes_on { S.goes_on judge }
    requires alive { L.Hold.killed child.1 ≡ None }
    requires cell { watch.now.terms.now.cell < length watch.now.cells.now }
    requires other { IfSome watch.now.other (λ o. o.0 < length watch.now.cells.now) }
    requires notes { AreNotesOf watch.now.cells.now notes.old }
    requires room { 4 ≤ keeper_events.old.room }
    requires stands { berth.old.stands ≡ true }
    requires place { place_from Away keeper_events.old.events ≡ place_used berth.old.pool }
    requires turns { TakesTurns (keeper_from (terms_of T.job T.answer watch.now.terms.now) keeper.Fresh keeper_events.old.events) }
    ensures end { EndIs (terms_of T.job T.answer watch.now.terms.now) (λ _. ⊥) (reader_from reader.Fresh result.events.events) (keeper_from (terms_of T.job T.answer watch.now.terms.now) keeper.Fresh keeper_events.new.events) result.end }
    ensures right { RightReader (reader_from reader.Fresh result.events.events) × RightKeeper (keeper_from (terms_of T.job T.answer watch.now.terms.now) keeper.Fresh keeper_events.new.events) }
    ensures looked { keeper_from (terms_of T.job T.answer watch.now.terms.now) keeper.Fresh keeper_events.new.events ≢ keeper.Fresh }
    ensures place { place_from Away keeper_events.new.events ≡ Away }
    ensures same { berth.new ≡ record berth.old { bay = berth.new.bay; holds = false; stands = false } }
    ensures keeps { Keeps (IsOfCell T.problem T.job (J.problem watch.now.problem.now) watch.now.terms.now watch.now.other) (C.may_read watch.now.clock.now) notes.old notes.new keeper_events.old.events keeper_events.new.events }
    ensures won { IfWon (reader_from reader.Fresh result.events.events) (λ f. known_at notes.new watch.now.terms.now.cell ≡ Some f) }
    ensures ran { RanFrom (S.stands judge) (S.ends judge) (S.proves judge) asked.now.job asked.now.most (S.most judge) (L.told berth.old.bay) (L.told berth.new.bay)
        (L.Pipe.told child.0) result.events.events keeper_events.new.events }
    ensures started { HasRun result.end }
    ensures read_failed { result.end ≡ end.ReadFailed → Rose (L.read_faults berth.old.bay) (L.read_faults berth.new.bay) }
    ensures hold_failed { result.end ≡ end.HoldFailed → Rose (L.hold_faults berth.old.bay) (L.hold_faults berth.new.bay) }
    ensures starts { L.start_faults berth.new.bay ≡ L.start_faults berth.old.bay }
    ensures reads { L.read_faults berth.old.bay ≤ L.read_faults berth.new.bay }
    ensures holds { L.hold_faults berth.old.bay ≤ L.hold_faults berth.new.bay }
{
    let lived = live(
        rt,
        alloc,
        berth,
        child,
        watch,
        judge,
        notes,
        reader_events,
        keeper_events,
    );
    conclude(rt, alloc, berth, asked, watch, lived, notes, keeper_events)
}
