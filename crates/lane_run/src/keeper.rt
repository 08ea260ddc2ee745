// The keeper of a job: it has the child, and ends it where there is a reason to.

ghost use Rattle.std.specs.Prelude.{◌≡◌, ◌≢◌, ◌⊎◌, ℕ, ◌+◌, ◌<◌, ◌≤◌, Option, Some, None, IfNone, IfSome, IfOk, IsOkAnd, length, true};
ghost use Rattle.std.specs.Option.{MatchOption};
ghost use Rattle.lane_run.specs.Keeping.{EndsChild, HasChildStart, IsChildStart, IsOfCell, IsPlain, Keeps, Remember, TakesTurns};
ghost use Rattle.race_cells.specs.Notes.{AreNotesOf, known_at};
ghost use Rattle.race_core.specs.Asking.{is_needless, terms_of};
ghost use Rattle.race_core.specs.Parts.{keeper_after, keeper_from, place_after, place_from};
ghost use Rattle.race_core.specs.declared.part.Keeper.TheVariants as keeper;
ghost use Rattle.race_core.specs.declared.part.Place.TheVariants.{Away};
ghost use Rattle.race_core.specs.declared.part.Reason.TheVariants as reason;

use crate::child_judge::ForJob;
use crate::entering::enter;
use race_cells::{Cells, Notes};
use race_core::{EventList, JobTerms, LaneEvent, Polled, Reason};
use sby_edge::{Clock, Hold};
use sby_terms::{JobName, Settled};
use std::alloc::AllocError;
use std::sync::Wait;
use std::sync::atomic::{AtomicBool, Ordering};

/// What a job's keeper watches beside its child.
#[derive(Drop)]
pub struct Watch<'a, J, T, C> {
    /// The problem.
    pub problem: &'a J,
    pub cells: &'a Cells<T>,
    pub clock: &'a C,
    pub terms: &'a JobTerms,
    /// The cell of another job that can make this one needless, and that job.
    pub other: Option<(u32, JobName)>,
}

// How many entries a turn may make: that the child ended, two looks and the kill.
const ROOM: usize = 4;

// Two copies of what the cell at a place has, where that makes the job needless: one for the list, one for the end.
#[tactic(auto, using(crate::proofs::Keepers::learns_remember, crate::proofs::Keepers::learns_known))]
fn needless_at<J: ForJob<T>, T: Settled + Drop, C: Clock>(
    watch: &Watch<'_, J, T, C>,
    place: u32,
    job: JobName,
    notes: &mut Notes<T>,
) -> Option<Result<(T, T), AllocError>>
    requires place { place < length watch.now.cells.now }
    requires notes { AreNotesOf watch.now.cells.now notes.old }
    ensures notes { Remember notes.old notes.new }
    ensures found { IfSome result (λ copies. IfOk copies (λ c. (c.0 ≡ c.1) × (known_at notes.new place ≡ Some c.0)
        × (T.problem c.0 ≡ J.problem watch.now.problem.now) × (T.job c.0 ≡ job) × (is_needless T.job T.answer watch.now.terms.now c.0 ≡ true))) }
{
    let value = watch.cells.look(place, notes)?;
    if !watch.problem.is_for(value, job) || !watch.terms.is_needless(value) {
        return None;
    }
    Some(twice(value))
}

// Two copies.
pub(crate) fn twice<T: Settled + Drop>(value: &T) -> Result<(T, T), AllocError>
    ensures { IfOk result (λ c. (c.0 ≡ value.now) × (c.1 ≡ value.now)) }
{
    let one = value.copy()?;
    Ok((one, value.copy()?))
}

// A look that makes the job needless, or for whose copies memory runs out.
fn enter_needless<J: ForJob<T>, T: Settled + Drop, C: Clock>(
    watch: &Watch<'_, J, T, C>,
    place: u32,
    copies: Result<(T, T), AllocError>,
    notes: &Notes<T>,
    events: &mut EventList<T>,
) -> Reason<T>
    requires room { 1 ≤ events.old.room }
    requires needless { IfOk copies (λ c. (c.0 ≡ c.1) × (is_needless T.job T.answer watch.now.terms.now c.0 ≡ true)) }
    requires found { IfOk copies (λ c. (known_at notes.now place ≡ Some c.0) × IsOfCell T.problem T.job (J.problem watch.now.problem.now) watch.now.terms.now watch.now.other place c.0) }
    requires turns { TakesTurns (keeper_from (terms_of T.job T.answer watch.now.terms.now) keeper.Fresh events.old.events) }
    requires turning { (place ≡ watch.now.terms.now.cell) ⊎ (keeper_from (terms_of T.job T.answer watch.now.terms.now) keeper.Fresh events.old.events ≡ keeper.Turning) }
    ensures due { keeper_from (terms_of T.job T.answer watch.now.terms.now) keeper.Fresh events.new.events ≡ keeper.Due result }
    ensures room { events.new.room + 1 ≡ events.old.room }
    ensures place { place_from Away events.new.events ≡ place_from Away events.old.events }
    ensures keeps { Keeps (IsOfCell T.problem T.job (J.problem watch.now.problem.now) watch.now.terms.now watch.now.other) (C.may_read watch.now.clock.now) notes.now notes.now events.old.events events.new.events }
    ensures reason { (result ≢ reason.Fault) × EndsChild result }
{
    match copies {
        Ok((known, value)) => {
            enter(
                events,
                LaneEvent::Look {
                    cell: place,
                    known: Some(known),
                },
            );
            Reason::Needless(value)
        }
        Err(_) => {
            enter(events, LaneEvent::KeeperMemory);
            Reason::Memory
        }
    }
}

// The looks of a turn: at the job's own cell, then at the other one.
fn look<J: ForJob<T>, T: Settled + Drop, C: Clock>(
    watch: &Watch<'_, J, T, C>,
    notes: &mut Notes<T>,
    events: &mut EventList<T>,
) -> Option<Reason<T>>
    requires cell { watch.now.terms.now.cell < length watch.now.cells.now }
    requires other { IfSome watch.now.other (λ o. o.0 < length watch.now.cells.now) }
    requires notes { AreNotesOf watch.now.cells.now notes.old }
    requires room { 2 ≤ events.old.room }
    requires turns { TakesTurns (keeper_from (terms_of T.job T.answer watch.now.terms.now) keeper.Fresh events.old.events) }
    ensures due { MatchOption result (events.new ≡ events.old) (λ why. keeper_from (terms_of T.job T.answer watch.now.terms.now) keeper.Fresh events.new.events ≡ keeper.Due why) }
    ensures room { events.old.room ≤ events.new.room + 2 }
    ensures place { place_from Away events.new.events ≡ place_from Away events.old.events }
    ensures keeps { Keeps (IsOfCell T.problem T.job (J.problem watch.now.problem.now) watch.now.terms.now watch.now.other) (C.may_read watch.now.clock.now) notes.old notes.new events.old.events events.new.events }
    ensures reason { IfSome result (λ why. (why ≢ reason.Fault) × EndsChild why) }
{
    let terms = watch.terms;
    if terms.wait {
        return None;
    }
    if let Some(copies) = needless_at(watch, terms.cell, terms.job, notes) {
        return Some(enter_needless(watch, terms.cell, copies, notes, events));
    }
    let (place, job) = watch.other?;
    let copies = needless_at(watch, place, job, notes)?;
    enter(
        events,
        LaneEvent::Look {
            cell: terms.cell,
            known: None,
        },
    );
    Some(enter_needless(watch, place, copies, notes, events))
}

// A reading of the clock, where there is a limit.
fn read_clock<J: ForJob<T>, T: Settled + Drop, C: Clock>(
    watch: &Watch<'_, J, T, C>,
    notes: &Notes<T>,
    events: &mut EventList<T>,
) -> Option<Reason<T>>
    requires room { 1 ≤ events.old.room }
    requires turns { TakesTurns (keeper_from (terms_of T.job T.answer watch.now.terms.now) keeper.Fresh events.old.events) }
    ensures due { MatchOption result (events.new ≡ events.old) (λ why. keeper_from (terms_of T.job T.answer watch.now.terms.now) keeper.Fresh events.new.events ≡ keeper.Due why) }
    ensures room { events.old.room ≤ events.new.room + 1 }
    ensures place { place_from Away events.new.events ≡ place_from Away events.old.events }
    ensures keeps { Keeps (IsOfCell T.problem T.job (J.problem watch.now.problem.now) watch.now.terms.now watch.now.other) (C.may_read watch.now.clock.now) notes.now notes.now events.old.events events.new.events }
    ensures reason { IfSome result (λ why. (why ≢ reason.Fault) × EndsChild why) }
{
    if watch.terms.limit.is_none() {
        return None;
    }
    let reading = watch.clock.now();
    if !watch.terms.is_shown(reading) {
        return None;
    }
    enter(events, LaneEvent::Clock(reading));
    Some(Reason::Limit(reading))
}

// Adds an entry that shows no finding and has no reading.
pub(crate) fn enter_plain<J: ForJob<T>, T: Settled + Drop, C: Clock>(
    watch: &Watch<'_, J, T, C>,
    notes: &Notes<T>,
    events: &mut EventList<T>,
    entry: LaneEvent<T>,
)
    requires room { 1 ≤ events.old.room }
    requires plain { IsPlain entry }
    ensures room { events.new.room + 1 ≡ events.old.room }
    ensures part { keeper_from (terms_of T.job T.answer watch.now.terms.now) keeper.Fresh events.new.events ≡ keeper_after (terms_of T.job T.answer watch.now.terms.now) entry (keeper_from (terms_of T.job T.answer watch.now.terms.now) keeper.Fresh events.old.events) }
    ensures place { place_from Away events.new.events ≡ place_after entry (place_from Away events.old.events) }
    ensures told { IsChildStart entry → HasChildStart events.new.events }
    ensures keeps { Keeps (IsOfCell T.problem T.job (J.problem watch.now.problem.now) watch.now.terms.now watch.now.other) (C.may_read watch.now.clock.now) notes.now notes.now events.old.events events.new.events }
{
    enter(events, entry);
}

// A poll. That the child ended is entered once.
fn poll<J: ForJob<T>, T: Settled + Drop, C: Clock, H: Hold>(
    watch: &Watch<'_, J, T, C>,
    hold: &mut H,
    has_ended: &mut bool,
    notes: &Notes<T>,
    events: &mut EventList<T>,
) -> Option<Reason<T>>
    requires room { 1 ≤ events.old.room }
    requires turns { TakesTurns (keeper_from (terms_of T.job T.answer watch.now.terms.now) keeper.Fresh events.old.events) }
    ensures due { MatchOption result (TakesTurns (keeper_from (terms_of T.job T.answer watch.now.terms.now) keeper.Fresh events.new.events)) (λ why. keeper_from (terms_of T.job T.answer watch.now.terms.now) keeper.Fresh events.new.events ≡ keeper.Due why) }
    ensures room { events.old.room ≤ events.new.room + 1 }
    ensures place { place_from Away events.new.events ≡ place_from Away events.old.events }
    ensures keeps { Keeps (IsOfCell T.problem T.job (J.problem watch.now.problem.now) watch.now.terms.now watch.now.other) (C.may_read watch.now.clock.now) notes.now notes.now events.old.events events.new.events }
    ensures hold { (H.killed hold.new ≡ H.killed hold.old) × (H.is_reaped hold.new ≡ H.is_reaped hold.old) × (H.faults hold.old ≤ H.faults hold.new) }
    ensures fault { IfSome result (λ why. EndsChild why × (why ≡ reason.Fault → 0 < H.faults hold.new)) }
{
    match hold.poll() {
        Err(_) => {
            enter_plain(watch, notes, events, LaneEvent::Poll(Polled::Failed));
            Some(Reason::Fault)
        }
        Ok(Some(_)) if !*has_ended => {
            *has_ended = true;
            enter_plain(watch, notes, events, LaneEvent::Poll(Polled::Exited));
            None
        }
        Ok(_) => None,
    }
}

// One turn beside no child: the looks, and a reading of the clock. A reason to end the job is the last of it.
pub(crate) fn watch_turn<J: ForJob<T>, T: Settled + Drop, C: Clock>(
    watch: &Watch<'_, J, T, C>,
    notes: &mut Notes<T>,
    events: &mut EventList<T>,
) -> Option<Reason<T>>
    requires cell { watch.now.terms.now.cell < length watch.now.cells.now }
    requires other { IfSome watch.now.other (λ o. o.0 < length watch.now.cells.now) }
    requires notes { AreNotesOf watch.now.cells.now notes.old }
    requires room { 2 ≤ events.old.room }
    requires turns { TakesTurns (keeper_from (terms_of T.job T.answer watch.now.terms.now) keeper.Fresh events.old.events) }
    ensures due { MatchOption result (TakesTurns (keeper_from (terms_of T.job T.answer watch.now.terms.now) keeper.Fresh events.new.events)) (λ why. keeper_from (terms_of T.job T.answer watch.now.terms.now) keeper.Fresh events.new.events ≡ keeper.Due why) }
    ensures room { MatchOption result (events.old.room ≤ events.new.room + 1) (λ why. events.old.room ≤ events.new.room + 2) }
    ensures place { place_from Away events.new.events ≡ place_from Away events.old.events }
    ensures keeps { Keeps (IsOfCell T.problem T.job (J.problem watch.now.problem.now) watch.now.terms.now watch.now.other) (C.may_read watch.now.clock.now) notes.old notes.new events.old.events events.new.events }
    ensures reason { IfSome result (λ why. (why ≢ reason.Fault) × EndsChild why) }
{
    if let Some(why) = look(watch, notes, events) {
        return Some(why);
    }
    if let Some(why) = read_clock(watch, notes, events) {
        return Some(why);
    }
    enter_plain(watch, notes, events, LaneEvent::Turns(1));
    None
}

// One turn: a poll, the looks, and a reading of the clock. A reason to end the child is the last of it. Room for `reserved` entries is left
// after that of the kill.
fn turn<J: ForJob<T>, T: Settled + Drop, C: Clock, H: Hold>(
    watch: &Watch<'_, J, T, C>,
    hold: &mut H,
    has_ended: &mut bool,
    notes: &mut Notes<T>,
    events: &mut EventList<T>,
    reserved: usize,
) -> Option<Reason<T>>
    requires cell { watch.now.terms.now.cell < length watch.now.cells.now }
    requires other { IfSome watch.now.other (λ o. o.0 < length watch.now.cells.now) }
    requires notes { AreNotesOf watch.now.cells.now notes.old }
    requires reserved { reserved ≤ 2 }
    requires room { reserved + 2 ≤ events.old.room }
    requires turns { TakesTurns (keeper_from (terms_of T.job T.answer watch.now.terms.now) keeper.Fresh events.old.events) }
    ensures due { MatchOption result (TakesTurns (keeper_from (terms_of T.job T.answer watch.now.terms.now) keeper.Fresh events.new.events)) (λ why. keeper_from (terms_of T.job T.answer watch.now.terms.now) keeper.Fresh events.new.events ≡ keeper.Due why) }
    ensures room { MatchOption result (reserved + 2 ≤ events.new.room) (λ why. reserved + 1 ≤ events.new.room) }
    ensures place { place_from Away events.new.events ≡ place_from Away events.old.events }
    ensures keeps { Keeps (IsOfCell T.problem T.job (J.problem watch.now.problem.now) watch.now.terms.now watch.now.other) (C.may_read watch.now.clock.now) notes.old notes.new events.old.events events.new.events }
    ensures hold { (H.killed hold.new ≡ H.killed hold.old) × (H.is_reaped hold.new ≡ H.is_reaped hold.old) × (H.faults hold.old ≤ H.faults hold.new) }
    ensures fault { IfSome result (λ why. EndsChild why × (why ≡ reason.Fault → 0 < H.faults hold.new)) }
{
    if events.take_room(reserved + ROOM).is_err() {
        enter_plain(watch, notes, events, LaneEvent::KeeperMemory);
        return Some(Reason::Memory);
    }
    if let Some(why) = poll(watch, hold, has_ended, notes, events) {
        return Some(why);
    }
    watch_turn(watch, notes, events)
}

/// The result of a keeper: why it killed the child, if it did, and whether the kill failed.
#[derive(Drop)]
pub(crate) struct Kept<T> {
    pub(crate) why: Option<Reason<T>>,
    pub(crate) is_failed: bool,
}

// The kill, for a reason.
fn kill<J: ForJob<T>, T: Settled + Drop, C: Clock, H: Hold>(
    watch: &Watch<'_, J, T, C>,
    hold: &mut H,
    notes: &Notes<T>,
    events: &mut EventList<T>,
    why: Reason<T>,
) -> Kept<T>
    requires room { 1 ≤ events.old.room }
    requires due { keeper_from (terms_of T.job T.answer watch.now.terms.now) keeper.Fresh events.old.events ≡ keeper.Due why }
    ensures why { result.why ≡ Some why }
    ensures room { events.new.room + 1 ≡ events.old.room }
    ensures killed { keeper_from (terms_of T.job T.answer watch.now.terms.now) keeper.Fresh events.new.events ≡ keeper.Killed why }
    ensures place { place_from Away events.new.events ≡ place_from Away events.old.events }
    ensures keeps { Keeps (IsOfCell T.problem T.job (J.problem watch.now.problem.now) watch.now.terms.now watch.now.other) (C.may_read watch.now.clock.now) notes.now notes.now events.old.events events.new.events }
    ensures hold { (H.is_reaped hold.new ≡ H.is_reaped hold.old) × (H.faults hold.old ≤ H.faults hold.new) }
    ensures fault { result.is_failed ≡ true → 0 < H.faults hold.new }
{
    enter_plain(watch, notes, events, LaneEvent::Kill);
    let is_failed = hold.kill().is_err();
    Kept {
        why: Some(why),
        is_failed,
    }
}

// How long a keeper pauses, in milliseconds, that has paused this long: a sixteenth of that, so that what comes meanwhile is seen soon by
// comparison, and a long job costs next to no processor time; at most 20.
pub(crate) fn pause_after(paused: u32) -> u32
    ensures least { 1 ≤ result }
    ensures most { result ≤ 20 }
{
    (paused / 16).clamp(1, 20)
}

// Takes turns until the reader has ended, or there is a reason to end the child. Room for `reserved` entries is left after that of the kill.
pub(crate) fn keep<R: Wait, J: ForJob<T>, T: Settled + Drop, C: Clock, H: Hold>(
    rt: &R,
    watch: &Watch<'_, J, T, C>,
    reader_ended: &AtomicBool,
    hold: &mut H,
    notes: &mut Notes<T>,
    events: &mut EventList<T>,
    reserved: usize,
) -> Kept<T>
    requires cell { watch.now.terms.now.cell < length watch.now.cells.now }
    requires other { IfSome watch.now.other (λ o. o.0 < length watch.now.cells.now) }
    requires notes { AreNotesOf watch.now.cells.now notes.old }
    requires reserved { reserved ≤ 2 }
    requires room { reserved + 2 ≤ events.old.room }
    requires turns { TakesTurns (keeper_from (terms_of T.job T.answer watch.now.terms.now) keeper.Fresh events.old.events) }
    ensures kept { MatchOption result.why (TakesTurns (keeper_from (terms_of T.job T.answer watch.now.terms.now) keeper.Fresh events.new.events)) (λ why. keeper_from (terms_of T.job T.answer watch.now.terms.now) keeper.Fresh events.new.events ≡ keeper.Killed why) }
    ensures place { place_from Away events.new.events ≡ place_from Away events.old.events }
    ensures keeps { Keeps (IsOfCell T.problem T.job (J.problem watch.now.problem.now) watch.now.terms.now watch.now.other) (C.may_read watch.now.clock.now) notes.old notes.new events.old.events events.new.events }
    ensures killed { IfNone result.why (H.killed hold.new ≡ H.killed hold.old) }
    ensures hold { (H.is_reaped hold.new ≡ H.is_reaped hold.old) × (H.faults hold.old ≤ H.faults hold.new) }
    ensures fault { IfSome result.why (λ why. EndsChild why × (why ≡ reason.Fault → 0 < H.faults hold.new)) }
    ensures failed { result.is_failed ≡ true → 0 < H.faults hold.new }
    ensures room { reserved ≤ events.new.room }
    ensures turns_room { IfNone result.why (reserved + 2 ≤ events.new.room) }
{
    let mut has_ended = false;
    let mut paused: u32 = 0;
    for _ in rt.forever() {
        if reader_ended.load(Ordering::SeqCst) {
            return Kept {
                why: None,
                is_failed: false,
            };
        }
        if let Some(why) = turn(watch, hold, &mut has_ended, notes, events, reserved) {
            return kill(watch, hold, notes, events, why);
        }
        let millis = pause_after(paused);
        watch.clock.pause(millis);
        paused = paused.saturating_add(millis);
    }
    unreachable!()
}
