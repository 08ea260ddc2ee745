// A job from the look before its start on.

ghost use Rattle.std.specs.Prelude.{◌≡◌, ◌≢◌, ◌⊎◌, ℕ, ◌+◌, ◌<◌, ◌≤◌, List, [], Some, IfOk, IfSome, false, length, map, option_map, string_bytes, true};
ghost use Rattle.std.specs.Option.{MatchOption};
ghost use Rattle.lane_berth.specs.Berths.{IsIdle, MayStart};
ghost use Rattle.lane_run.specs.Placed.{place_at};
ghost use Rattle.lane_run.specs.Keeping.{IsOfCell, Keeps, Remember, TakesTurns};
ghost use Rattle.lane_run.specs.Reading.{IfWon};
ghost use Rattle.lane_run.specs.Starting.{NoStart, ReadsScript, Starts, with_starts};
ghost use Rattle.race_cells.specs.Notes.{AreNotesOf, known_at};
ghost use Rattle.race_core.specs.Asking.{is_skipped, terms_of};
ghost use Rattle.race_core.specs.Ends.{EndIs, HasEnd};
ghost use Rattle.race_core.specs.Parts.{RightKeeper, RightReader, keeper_from, place_from, reader_from};
ghost use Rattle.race_core.specs.declared.end.JobEnd.TheVariants as end;
ghost use Rattle.race_core.specs.declared.event.Judged.TheVariants as judged;
ghost use Rattle.race_core.specs.declared.part.Keeper.TheVariants as keeper;
ghost use Rattle.race_core.specs.declared.part.Place.TheVariants.{Away};
ghost use Rattle.race_core.specs.declared.part.Reader.TheVariants as reader;
ghost use Rattle.sby_edge.specs.Cause.{Rose};
ghost use Rattle.sby_edge.specs.Child.{StartOf};

use crate::child_judge::{ChildJudge, ForJob};
use crate::entering::enter;
use crate::job::{JobRun, run_started};
use crate::keeper::{Watch, enter_plain, twice};
use crate::making::{Child, LaneFactory};
use crate::over::Asked;
use crate::placing::{enter_place, give_place};
use crate::waiting::wait_place;
use lane_berth::Berth;
use race_cells::Notes;
use race_core::{EventList, JobEnd, LaneEvent};
use sby_edge::{Clock, Fail, JobFile, Launch};
use sby_terms::{JobName, Settled};
use std::alloc::{AllocError, Global};
use std::sync::Wait;
use std::thread::Threads;

// Two copies of what the cell at a place has, where that skips the job: one for the list, one for the end.
#[tactic(auto, using(crate::proofs::Keepers::learns_remember, crate::proofs::Keepers::learns_known))]
fn skipping_at<J: ForJob<T>, T: Settled + Drop, C: Clock>(
    watch: &Watch<'_, J, T, C>,
    place: u32,
    job: JobName,
    notes: &mut Notes<T>,
) -> Option<Result<(T, T), AllocError>>
    requires place { place < length watch.now.cells.now }
    requires notes { AreNotesOf watch.now.cells.now notes.old }
    ensures notes { Remember notes.old notes.new }
    ensures found { IfSome result (λ copies. IfOk copies (λ c. (c.0 ≡ c.1) × (known_at notes.new place ≡ Some c.0)
        × (T.problem c.0 ≡ J.problem watch.now.problem.now) × (T.job c.0 ≡ job) × (is_skipped T.job T.answer watch.now.terms.now c.0 ≡ true))) }
{
    let value = watch.cells.look(place, notes)?;
    if !watch.problem.is_for(value, job) || !watch.terms.is_skipped_by(value) {
        return None;
    }
    Some(twice(value))
}

// Ends a job that the finding in the cell at a place skips, or whose copies of that finding ran out of memory.
fn skip<J: ForJob<T>, T: Settled + Drop, C: Clock>(
    watch: &Watch<'_, J, T, C>,
    place: u32,
    copies: Result<(T, T), AllocError>,
    notes: &Notes<T>,
    events: &mut EventList<T>,
) -> JobEnd<T>
    requires room { 1 ≤ events.old.room }
    requires skipped { IfOk copies (λ c. (c.0 ≡ c.1) × (is_skipped T.job T.answer watch.now.terms.now c.0 ≡ true)) }
    requires found { IfOk copies (λ c. (known_at notes.now place ≡ Some c.0) × IsOfCell T.problem T.job (J.problem watch.now.problem.now) watch.now.terms.now watch.now.other place c.0) }
    requires before { (keeper_from (terms_of T.job T.answer watch.now.terms.now) keeper.Fresh events.old.events ≡ keeper.Fresh)
        ⊎ ((keeper_from (terms_of T.job T.answer watch.now.terms.now) keeper.Fresh events.old.events ≡ keeper.Looked) × (place ≢ watch.now.terms.now.cell)) }
    ensures end { NoStart result × (keeper_from (terms_of T.job T.answer watch.now.terms.now) keeper.Fresh events.new.events ≢ keeper.Fresh) × RightKeeper (keeper_from (terms_of T.job T.answer watch.now.terms.now) keeper.Fresh events.new.events)
        × EndIs (terms_of T.job T.answer watch.now.terms.now) (λ _. ⊥) reader.Fresh (keeper_from (terms_of T.job T.answer watch.now.terms.now) keeper.Fresh events.new.events) result }
    ensures room { events.new.room + 1 ≡ events.old.room }
    ensures place { place_from Away events.new.events ≡ place_from Away events.old.events }
    ensures keeps { Keeps (IsOfCell T.problem T.job (J.problem watch.now.problem.now) watch.now.terms.now watch.now.other) (C.may_read watch.now.clock.now) notes.now notes.now events.old.events events.new.events }
{
    match copies {
        Ok((known, value)) => {
            enter(
                events,
                LaneEvent::Look {
                    cell: place,
                    known: Some(known),
                },
            );
            JobEnd::Skipped(value)
        }
        Err(_) => {
            enter_plain(watch, notes, events, LaneEvent::KeeperMemory);
            JobEnd::Memory
        }
    }
}

// A look at one cell before the start. Its answer is the end of a job that isn't started.
fn look_before<J: ForJob<T>, T: Settled + Drop, C: Clock>(
    watch: &Watch<'_, J, T, C>,
    place: u32,
    job: JobName,
    notes: &mut Notes<T>,
    events: &mut EventList<T>,
) -> Option<JobEnd<T>>
    requires place { place < length watch.now.cells.now }
    requires notes { AreNotesOf watch.now.cells.now notes.old }
    requires room { 1 ≤ events.old.room }
    requires of_cell { (f : T) → T.problem f ≡ J.problem watch.now.problem.now → T.job f ≡ job → IsOfCell T.problem T.job (J.problem watch.now.problem.now) watch.now.terms.now watch.now.other place f }
    requires before { (keeper_from (terms_of T.job T.answer watch.now.terms.now) keeper.Fresh events.old.events ≡ keeper.Fresh)
        ⊎ ((keeper_from (terms_of T.job T.answer watch.now.terms.now) keeper.Fresh events.old.events ≡ keeper.Looked) × (place ≢ watch.now.terms.now.cell)) }
    ensures end { MatchOption result (keeper_from (terms_of T.job T.answer watch.now.terms.now) keeper.Fresh events.new.events ≡ keeper.Looked)
        (λ e. NoStart e × (keeper_from (terms_of T.job T.answer watch.now.terms.now) keeper.Fresh events.new.events ≢ keeper.Fresh) × RightKeeper (keeper_from (terms_of T.job T.answer watch.now.terms.now) keeper.Fresh events.new.events)
        × EndIs (terms_of T.job T.answer watch.now.terms.now) (λ _. ⊥) reader.Fresh (keeper_from (terms_of T.job T.answer watch.now.terms.now) keeper.Fresh events.new.events) e) }
    ensures room { events.new.room + 1 ≡ events.old.room }
    ensures place { place_from Away events.new.events ≡ place_from Away events.old.events }
    ensures keeps { Keeps (IsOfCell T.problem T.job (J.problem watch.now.problem.now) watch.now.terms.now watch.now.other) (C.may_read watch.now.clock.now) notes.old notes.new events.old.events events.new.events }
{
    let Some(copies) = skipping_at(watch, place, job, notes) else {
        enter_plain(
            watch,
            notes,
            events,
            LaneEvent::Look {
                cell: place,
                known: None,
            },
        );
        return None;
    };
    Some(skip(watch, place, copies, notes, events))
}

// The looks at the cells of the slices before a slice. One that shows nothing isn't entered.
fn look_at_slices<J: ForJob<T>, T: Settled + Drop, C: Clock>(
    watch: &Watch<'_, J, T, C>,
    notes: &mut Notes<T>,
    events: &mut EventList<T>,
) -> Option<JobEnd<T>>
    requires cell { watch.now.terms.now.cell < length watch.now.cells.now }
    requires notes { AreNotesOf watch.now.cells.now notes.old }
    requires room { 1 ≤ events.old.room }
    requires looked { keeper_from (terms_of T.job T.answer watch.now.terms.now) keeper.Fresh events.old.events ≡ keeper.Looked }
    ensures end { MatchOption result (keeper_from (terms_of T.job T.answer watch.now.terms.now) keeper.Fresh events.new.events ≡ keeper.Looked)
        (λ e. NoStart e × (keeper_from (terms_of T.job T.answer watch.now.terms.now) keeper.Fresh events.new.events ≢ keeper.Fresh) × RightKeeper (keeper_from (terms_of T.job T.answer watch.now.terms.now) keeper.Fresh events.new.events)
        × EndIs (terms_of T.job T.answer watch.now.terms.now) (λ _. ⊥) reader.Fresh (keeper_from (terms_of T.job T.answer watch.now.terms.now) keeper.Fresh events.new.events) e) }
    ensures room { events.old.room ≤ events.new.room + 1 }
    ensures place { place_from Away events.new.events ≡ place_from Away events.old.events }
    ensures keeps { Keeps (IsOfCell T.problem T.job (J.problem watch.now.problem.now) watch.now.terms.now watch.now.other) (C.may_read watch.now.clock.now) notes.old notes.new events.old.events events.new.events }
{
    let JobName::Base(_) = watch.terms.job else {
        return None;
    };
    for place in 0..watch.terms.cell {
        if let Some(copies) = skipping_at(watch, place, JobName::Base(place), notes) {
            return Some(skip(watch, place, copies, notes, events));
        }
    }
    None
}

/// Looks before a job's start: at its own cell, then at the other one, or at those of the slices before a slice. Returns the end of a
/// job that isn't started: it is skipped, by a finding that makes it needless or is that an earlier slice is Sat, or it ran out of
/// memory.
pub fn look_first<J: ForJob<T>, T: Settled + Drop, C: Clock>(
    watch: &Watch<'_, J, T, C>,
    notes: &mut Notes<T>,
    events: &mut EventList<T>,
) -> Option<JobEnd<T>>
    requires cell { watch.now.terms.now.cell < length watch.now.cells.now }
    requires other { IfSome watch.now.other (λ o. o.0 < length watch.now.cells.now) }
    requires notes { AreNotesOf watch.now.cells.now notes.old }
    requires fresh { (events.old.events ≡ []) × (2 ≤ events.old.room) }
    ensures end { MatchOption result (keeper_from (terms_of T.job T.answer watch.now.terms.now) keeper.Fresh events.new.events ≡ keeper.Looked)
        (λ e. NoStart e × (keeper_from (terms_of T.job T.answer watch.now.terms.now) keeper.Fresh events.new.events ≢ keeper.Fresh) × RightKeeper (keeper_from (terms_of T.job T.answer watch.now.terms.now) keeper.Fresh events.new.events)
        × EndIs (terms_of T.job T.answer watch.now.terms.now) (λ _. ⊥) reader.Fresh (keeper_from (terms_of T.job T.answer watch.now.terms.now) keeper.Fresh events.new.events) e) }
    ensures room { events.old.room ≤ events.new.room + 2 }
    ensures place { place_from Away events.new.events ≡ Away }
    ensures keeps { Keeps (IsOfCell T.problem T.job (J.problem watch.now.problem.now) watch.now.terms.now watch.now.other) (C.may_read watch.now.clock.now) notes.old notes.new events.old.events events.new.events }
{
    let terms = watch.terms;
    if let Some(end) = look_before(watch, terms.cell, terms.job, notes, events) {
        return Some(end);
    }
    match watch.other {
        Some((place, job)) if place != terms.cell => look_before(watch, place, job, notes, events),
        _ => look_at_slices(watch, notes, events),
    }
}

/// Enters that memory ran out before a job's start, and answers the job's end.
pub fn want<J: ForJob<T>, T: Settled + Drop, C: Clock>(
    watch: &Watch<'_, J, T, C>,
    notes: &Notes<T>,
    events: &mut EventList<T>,
) -> JobEnd<T>
    requires room { 1 ≤ events.old.room }
    requires turns { TakesTurns (keeper_from (terms_of T.job T.answer watch.now.terms.now) keeper.Fresh events.old.events) }
    ensures end { EndIs (terms_of T.job T.answer watch.now.terms.now) (λ _. ⊥) reader.Fresh (keeper_from (terms_of T.job T.answer watch.now.terms.now) keeper.Fresh events.new.events) result }
    ensures right { RightKeeper (keeper_from (terms_of T.job T.answer watch.now.terms.now) keeper.Fresh events.new.events) }
    ensures looked { keeper_from (terms_of T.job T.answer watch.now.terms.now) keeper.Fresh events.new.events ≢ keeper.Fresh }
    ensures is { result ≡ end.Memory }
    ensures place { place_from Away events.new.events ≡ place_from Away events.old.events }
    ensures keeps { Keeps (IsOfCell T.problem T.job (J.problem watch.now.problem.now) watch.now.terms.now watch.now.other) (C.may_read watch.now.clock.now) notes.now notes.now events.old.events events.new.events }
{
    enter_plain(watch, notes, events, LaneEvent::KeeperMemory);
    JobEnd::Memory
}

// Ends a job that has a place and ran out of memory before its child started.
fn want_placed<L: Launch, J: ForJob<T>, T: Settled + Drop, C: Clock>(
    watch: &Watch<'_, J, T, C>,
    berth: &mut Berth<'_, L>,
    notes: &Notes<T>,
    events: &mut EventList<T>,
) -> JobEnd<T>
    requires room { 2 ≤ events.old.room }
    requires held { MayStart berth.old }
    requires turns { TakesTurns (keeper_from (terms_of T.job T.answer watch.now.terms.now) keeper.Fresh events.old.events) }
    requires place { place_from Away events.old.events ≡ place_at berth.old.pool berth.old.holds }
    ensures end { EndIs (terms_of T.job T.answer watch.now.terms.now) (λ _. ⊥) reader.Fresh (keeper_from (terms_of T.job T.answer watch.now.terms.now) keeper.Fresh events.new.events) result }
    ensures right { RightKeeper (keeper_from (terms_of T.job T.answer watch.now.terms.now) keeper.Fresh events.new.events) }
    ensures looked { keeper_from (terms_of T.job T.answer watch.now.terms.now) keeper.Fresh events.new.events ≢ keeper.Fresh }
    ensures is { result ≡ end.Memory }
    ensures place { place_from Away events.new.events ≡ Away }
    ensures same { berth.new ≡ record berth.old { holds = false } }
    ensures keeps { Keeps (IsOfCell T.problem T.job (J.problem watch.now.problem.now) watch.now.terms.now watch.now.other) (C.may_read watch.now.clock.now) notes.now notes.now events.old.events events.new.events }
{
    give_place(watch, berth, notes, events);
    want(watch, notes, events)
}

// What a judge finds is for its job.
fn findings_are_for<S: ChildJudge<T>, T: Settled>(judge: &S)
    ensures { (bytes : List ℕ) (f : T) → S.stands judge.now bytes (judged.Found f) ⊎ (S.ends judge.now bytes (judged.Found f) ⊎ S.proves judge.now bytes (judged.Found f))
        → (T.problem f ≡ S.problem judge.now) × (T.job f ≡ S.job judge.now) }
{}

// Starts a child, and runs it.
#[tactic(auto, using(crate::proofs::Waits::turns_free, crate::proofs::Waits::turns_right, crate::proofs::Waits::turns_looked))]
fn start_child<
    R: Threads + Wait + Sync,
    L: Launch,
    S: ChildJudge<T> + Drop,
    F: JobFile,
    J: ForJob<T> + Sync,
    T: Settled + Drop + Send + Sync,
    C: Clock,
>(
    rt: &R,
    alloc: Global,
    berth: &mut Berth<'_, L>,
    watch: &Watch<'_, J, T, C>,
    child: Child<S>,
    file: &F,
    most: u64,
    notes: &mut Notes<T>,
    reader_events: EventList<T>,
    keeper_events: &mut EventList<T>,
) -> JobRun<T>
    requires fresh { (S.taken child.judge ≡ []) × (reader_events.events ≡ []) }
    requires goes_on { S.goes_on child.judge }
    requires about { (S.problem child.judge ≡ J.problem watch.now.problem.now) × (S.job child.judge ≡ watch.now.terms.now.job) }
    requires reader_room { 1 ≤ reader_events.room }
    requires cell { watch.now.terms.now.cell < length watch.now.cells.now }
    requires other { IfSome watch.now.other (λ o. o.0 < length watch.now.cells.now) }
    requires notes { AreNotesOf watch.now.cells.now notes.old }
    requires room { 5 ≤ keeper_events.old.room }
    requires held { MayStart berth.old }
    requires place { place_from Away keeper_events.old.events ≡ place_at berth.old.pool berth.old.holds }
    requires turns { TakesTurns (keeper_from (terms_of T.job T.answer watch.now.terms.now) keeper.Fresh keeper_events.old.events) }
    ensures end { EndIs (terms_of T.job T.answer watch.now.terms.now) (λ _. ⊥) (reader_from reader.Fresh result.events.events) (keeper_from (terms_of T.job T.answer watch.now.terms.now) keeper.Fresh keeper_events.new.events) result.end }
    ensures right { RightReader (reader_from reader.Fresh result.events.events) × RightKeeper (keeper_from (terms_of T.job T.answer watch.now.terms.now) keeper.Fresh keeper_events.new.events) }
    ensures place { place_from Away keeper_events.new.events ≡ Away }
    ensures same { berth.new ≡ record berth.old { bay = berth.new.bay; holds = false } }
    ensures keeps { Keeps (IsOfCell T.problem T.job (J.problem watch.now.problem.now) watch.now.terms.now watch.now.other) (C.may_read watch.now.clock.now) notes.old notes.new keeper_events.old.events keeper_events.new.events }
    ensures looked { keeper_from (terms_of T.job T.answer watch.now.terms.now) keeper.Fresh keeper_events.new.events ≢ keeper.Fresh }
    ensures won { IfWon (reader_from reader.Fresh result.events.events) (λ f. known_at notes.new watch.now.terms.now.cell ≡ Some f) }
    ensures found { (f : T) → HasEnd (reader_from reader.Fresh result.events.events) (end.Found f) → (T.problem f ≡ J.problem watch.now.problem.now) × (T.job f ≡ watch.now.terms.now.job) }
    ensures starts { (starts : List StartOf) × (L.told berth.new.bay ≡ option_map (with_starts starts) (L.told berth.old.bay))
        × Starts berth.old.pool watch.now.terms.now.job (map string_bytes child.words.items) (F.bytes file.now)
        (ReadsScript (S.stands child.judge) (S.ends child.judge) (S.proves child.judge) (L.told berth.old.bay) watch.now.terms.now.job most (S.most child.judge) result.events.events)
        result.events.events keeper_events.new.events result.end starts }
    ensures start_failed { result.end ≡ end.StartFailed → Rose (L.start_faults berth.old.bay) (L.start_faults berth.new.bay) }
    ensures read_failed { result.end ≡ end.ReadFailed → Rose (L.read_faults berth.old.bay) (L.read_faults berth.new.bay) }
    ensures hold_failed { result.end ≡ end.HoldFailed → Rose (L.hold_faults berth.old.bay) (L.hold_faults berth.new.bay) }
    ensures later { (L.start_faults berth.old.bay ≤ L.start_faults berth.new.bay) × (L.read_faults berth.old.bay ≤ L.read_faults berth.new.bay) × (L.hold_faults berth.old.bay ≤ L.hold_faults berth.new.bay) }
{
    let Child {
        judge,
        words,
        proof,
    } = child;
    findings_are_for(&judge);
    let job = watch.terms.job;
    match berth.start(alloc, job, words.as_slice(), file) {
        Err(Fail::Failed) => {
            give_place(watch, berth, notes, keeper_events);
            JobRun {
                end: JobEnd::StartFailed,
                events: reader_events,
            }
        }
        Err(Fail::Memory) => JobRun {
            end: want_placed(watch, berth, notes, keeper_events),
            events: reader_events,
        },
        Ok(started) => {
            let asked = Asked {
                job,
                proof: proof.as_str(),
                most,
            };
            enter_place(watch, berth, notes, keeper_events, LaneEvent::Start);
            run_started(
                rt,
                alloc,
                berth,
                started,
                &asked,
                watch,
                judge,
                notes,
                reader_events,
                keeper_events,
            )
        }
    }
}

/// Runs a job that the lane serves: it is skipped where a look before its start shows a finding that skips it; else, under an allowance, it
/// waits for a place, where it may end called off or stopped; then its child is made and started, with these words and the job's file,
/// once, and runs to its end. The judge is made only once there is a place, so that a lane that waits holds none. Waits for the child.
#[tactic(auto, using(crate::proofs::Waits::unstarted_start, crate::proofs::Waits::unstarted_read, crate::proofs::Waits::unstarted_hold))]
pub fn run_child<
    R: Threads + Wait + Sync,
    L: Launch,
    M: LaneFactory<T> + Sync,
    T: Settled + Drop + Send + Sync,
    C: Clock,
>(
    rt: &R,
    alloc: Global,
    berth: &mut Berth<'_, L>,
    lane: u32,
    watch: &Watch<'_, M, T, C>,
    notes: &mut Notes<T>,
    reader_events: EventList<T>,
    keeper_events: &mut EventList<T>,
) -> JobRun<T>
    requires served { M.is_served watch.now.problem.now lane watch.now.terms.now.job }
    requires fresh { (reader_events.events ≡ []) × (keeper_events.old.events ≡ []) }
    requires room { (1 ≤ reader_events.room) × (4 ≤ keeper_events.old.room) }
    requires cell { watch.now.terms.now.cell < length watch.now.cells.now }
    requires other { IfSome watch.now.other (λ o. o.0 < length watch.now.cells.now) }
    requires notes { AreNotesOf watch.now.cells.now notes.old }
    requires idle { IsIdle berth.old }
    ensures end { EndIs (terms_of T.job T.answer watch.now.terms.now) (λ _. ⊥) (reader_from reader.Fresh result.events.events) (keeper_from (terms_of T.job T.answer watch.now.terms.now) keeper.Fresh keeper_events.new.events) result.end }
    ensures right { RightReader (reader_from reader.Fresh result.events.events) × RightKeeper (keeper_from (terms_of T.job T.answer watch.now.terms.now) keeper.Fresh keeper_events.new.events) }
    ensures place { place_from Away keeper_events.new.events ≡ Away }
    ensures same { berth.new ≡ record berth.old { bay = berth.new.bay } }
    ensures keeps { Keeps (IsOfCell T.problem T.job (M.problem watch.now.problem.now) watch.now.terms.now watch.now.other) (C.may_read watch.now.clock.now) notes.old notes.new [] keeper_events.new.events }
    ensures looked { keeper_from (terms_of T.job T.answer watch.now.terms.now) keeper.Fresh keeper_events.new.events ≢ keeper.Fresh }
    ensures won { IfWon (reader_from reader.Fresh result.events.events) (λ f. known_at notes.new watch.now.terms.now.cell ≡ Some f) }
    ensures found { (f : T) → HasEnd (reader_from reader.Fresh result.events.events) (end.Found f) → (T.problem f ≡ M.problem watch.now.problem.now) × (T.job f ≡ watch.now.terms.now.job) }
    ensures starts { (starts : List StartOf) × (L.told berth.new.bay ≡ option_map (with_starts starts) (L.told berth.old.bay))
        × Starts berth.old.pool watch.now.terms.now.job (M.words watch.now.problem.now lane watch.now.terms.now.job) (M.file watch.now.problem.now watch.now.terms.now.job)
        (ReadsScript (M.stands watch.now.problem.now lane watch.now.terms.now.job) (M.ends watch.now.problem.now lane watch.now.terms.now.job) (M.proves watch.now.problem.now lane watch.now.terms.now.job)
        (L.told berth.old.bay) watch.now.terms.now.job (M.most watch.now.problem.now) (M.most_output watch.now.problem.now lane) result.events.events)
        result.events.events keeper_events.new.events result.end starts }
    ensures start_failed { result.end ≡ end.StartFailed → Rose (L.start_faults berth.old.bay) (L.start_faults berth.new.bay) }
    ensures read_failed { result.end ≡ end.ReadFailed → Rose (L.read_faults berth.old.bay) (L.read_faults berth.new.bay) }
    ensures hold_failed { result.end ≡ end.HoldFailed → Rose (L.hold_faults berth.old.bay) (L.hold_faults berth.new.bay) }
    ensures later { (L.start_faults berth.old.bay ≤ L.start_faults berth.new.bay) × (L.read_faults berth.old.bay ≤ L.read_faults berth.new.bay) × (L.hold_faults berth.old.bay ≤ L.hold_faults berth.new.bay) }
{
    if let Some(end) = look_first(watch, notes, keeper_events) {
        return JobRun {
            end,
            events: reader_events,
        };
    }
    if let Some(end) = wait_place(rt, watch, berth, notes, keeper_events) {
        return JobRun {
            end,
            events: reader_events,
        };
    }
    let factory = watch.problem;
    let job = watch.terms.job;
    let Ok(child) = factory.make(alloc, lane, job) else {
        return JobRun {
            end: want_placed(watch, berth, notes, keeper_events),
            events: reader_events,
        };
    };
    start_child(
        rt,
        alloc,
        berth,
        watch,
        child,
        &factory.file(lane, job),
        factory.most(),
        notes,
        reader_events,
        keeper_events,
    )
}
