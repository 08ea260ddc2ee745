// A lane that waits for a place.

ghost use Rattle.std.specs.Prelude.{◌≡◌, ◌≢◌, ◌⊎◌, ◌<◌, ◌≤◌, IfNone, IfSome, false, length};
ghost use Rattle.std.specs.Option.{MatchOption};
ghost use Rattle.lane_berth.specs.Berths.{IsIdle};
ghost use Rattle.lane_run.specs.Keeping.{EndsChild, IsOfCell, Keeps, TakesTurns};
ghost use Rattle.lane_run.specs.Starting.{EndsWaiting};
ghost use Rattle.lane_run.specs.Waiting.{WaitedFor};
ghost use Rattle.race_cells.specs.Notes.{AreNotesOf};
ghost use Rattle.race_core.specs.Asking.{terms_of};
ghost use Rattle.race_core.specs.Ends.{EndIs};
ghost use Rattle.race_core.specs.Parts.{Terms, keeper_from, place_from};
ghost use Rattle.race_core.specs.declared.end.JobEnd.TheVariants as end;
ghost use Rattle.race_core.specs.declared.part.Keeper.TheVariants as keeper;
ghost use Rattle.race_core.specs.declared.part.Place.TheVariants.{Away};
ghost use Rattle.race_core.specs.declared.part.Reader.TheVariants as reader;
ghost use Rattle.race_core.specs.declared.part.Reason.TheVariants as reason;

use crate::child_judge::ForJob;
use crate::keeper::{Watch, pause_after, watch_turn};
use crate::placing::take_place;
use crate::start::want;
use lane_berth::Berth;
use race_cells::Notes;
use race_core::{EventList, JobEnd, Reason};
use sby_edge::{Clock, Launch};
use sby_terms::Settled;
use std::sync::Wait;

// With room for how many entries a place is taken: the place, the child's start, what its keeper enters last and its kill, the child's
// end, and the return of the place.
const ROOM: usize = 6;

// The end of a job whose lane has a reason to wait no longer.
#[tactic(auto, using(crate::proofs::Waits::called_off, crate::proofs::Waits::stopped, crate::proofs::Waits::no_memory))]
fn waited<T: Drop>(why: Reason<T>) -> JobEnd<T>
    requires { (why ≢ reason.Fault) × EndsChild why }
    ensures end { (a : Terms T) → EndIs a (λ _. ⊥) reader.Fresh (keeper.Due why) result }
    ensures is { EndsWaiting result ⊎ (result ≡ end.Memory) }
{
    match why {
        Reason::Needless(value) => JobEnd::CalledOff(value),
        Reason::Limit(reading) => JobEnd::Stopped(reading),
        Reason::Memory => JobEnd::Memory,
        Reason::Skip(_) | Reason::Fault => unreachable!(),
    }
}

// Takes a turn of a lane that waits. Returns the result of the wait, once it is over.
fn wait_turn<L: Launch, J: ForJob<T>, T: Settled + Drop, C: Clock>(
    watch: &Watch<'_, J, T, C>,
    berth: &mut Berth<'_, L>,
    notes: &mut Notes<T>,
    events: &mut EventList<T>,
) -> Option<Option<JobEnd<T>>>
    requires cell { watch.now.terms.now.cell < length watch.now.cells.now }
    requires other { IfSome watch.now.other (λ o. o.0 < length watch.now.cells.now) }
    requires notes { AreNotesOf watch.now.cells.now notes.old }
    requires room { 1 ≤ events.old.room }
    requires idle { IsIdle berth.old }
    requires turns { TakesTurns (keeper_from (terms_of T.job T.answer watch.now.terms.now) keeper.Fresh events.old.events) }
    requires place { place_from Away events.old.events ≡ Away }
    ensures turns { IfNone result (TakesTurns (keeper_from (terms_of T.job T.answer watch.now.terms.now) keeper.Fresh events.new.events) × (place_from Away events.new.events ≡ Away) × IsIdle berth.new × (1 ≤ events.new.room)) }
    ensures over { IfSome result (λ came. WaitedFor (terms_of T.job T.answer watch.now.terms.now) berth.new
        (keeper_from (terms_of T.job T.answer watch.now.terms.now) keeper.Fresh events.new.events) (place_from Away events.new.events) events.new.room came) }
    ensures same { berth.new ≡ record berth.old { holds = berth.new.holds } }
    ensures free { IfNone berth.old.pool (berth.new.holds ≡ false) }
    ensures keeps { Keeps (IsOfCell T.problem T.job (J.problem watch.now.problem.now) watch.now.terms.now watch.now.other) (C.may_read watch.now.clock.now) notes.old notes.new events.old.events events.new.events }
{
    if events.take_room(ROOM).is_err() {
        return Some(Some(want(watch, notes, events)));
    }
    if take_place(watch, berth, notes, events) {
        return Some(None);
    }
    let why = watch_turn(watch, notes, events)?;
    Some(Some(waited(why)))
}

// Waits for a place, where there is an allowance: asks, looks and reads the clock, and pauses. Answers the end of a job that is over before
// it has one: a look shows it needless, or a reading the limit, or memory ran out.
#[tactic(auto, using(crate::proofs::PlaceLemmas::holds_alone))]
pub(crate) fn wait_place<R: Wait, L: Launch, J: ForJob<T>, T: Settled + Drop, C: Clock>(
    rt: &R,
    watch: &Watch<'_, J, T, C>,
    berth: &mut Berth<'_, L>,
    notes: &mut Notes<T>,
    events: &mut EventList<T>,
) -> Option<JobEnd<T>>
    requires cell { watch.now.terms.now.cell < length watch.now.cells.now }
    requires other { IfSome watch.now.other (λ o. o.0 < length watch.now.cells.now) }
    requires notes { AreNotesOf watch.now.cells.now notes.old }
    requires room { 1 ≤ events.old.room }
    requires idle { IsIdle berth.old }
    requires turns { TakesTurns (keeper_from (terms_of T.job T.answer watch.now.terms.now) keeper.Fresh events.old.events) }
    requires place { place_from Away events.old.events ≡ Away }
    ensures over { WaitedFor (terms_of T.job T.answer watch.now.terms.now) berth.new
        (keeper_from (terms_of T.job T.answer watch.now.terms.now) keeper.Fresh events.new.events) (place_from Away events.new.events) events.new.room result }
    ensures same { berth.new ≡ record berth.old { holds = berth.new.holds } }
    ensures free { IfNone berth.old.pool (berth.new.holds ≡ false) }
    ensures keeps { Keeps (IsOfCell T.problem T.job (J.problem watch.now.problem.now) watch.now.terms.now watch.now.other) (C.may_read watch.now.clock.now) notes.old notes.new events.old.events events.new.events }
{
    let mut paused: u32 = 0;
    for _ in rt.forever() {
        if let Some(came) = wait_turn(watch, berth, notes, events) {
            return came;
        }
        let millis = pause_after(paused);
        watch.clock.pause(millis);
        paused = paused.saturating_add(millis);
    }
    unreachable!()
}
