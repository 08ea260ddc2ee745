// A lane's place under an allowance: what it does to its berth, and what its list says of it.

ghost use Rattle.std.specs.Prelude.{◌≡◌, ◌+◌, ◌≤◌, IfNone, IfSome, false, option_map, true};
ghost use Rattle.lane_berth.specs.Berths.{IsIdle, MayStart};
ghost use Rattle.lane_run.specs.Placed.{place_at, place_used, placed_after};
ghost use Rattle.lane_run.specs.Keeping.{HasChildStart, IsChildStart, IsOfCell, IsPlain, Keeps};
ghost use Rattle.race_core.specs.Asking.{terms_of};
ghost use Rattle.race_core.specs.Parts.{keeper_after, keeper_from, place_from};
ghost use Rattle.race_core.specs.declared.event.LaneEvent.TheVariants as event;
ghost use Rattle.race_core.specs.declared.part.Keeper.{Keeper};
ghost use Rattle.race_core.specs.declared.part.Keeper.TheVariants as keeper;
ghost use Rattle.race_core.specs.declared.part.Place.TheVariants.{Away};
ghost use Rattle.sby_edge.specs.Cause.{RisesBy};
ghost use Rattle.sby_edge.specs.Child.{finished};

use crate::child_judge::ForJob;
use crate::keeper::{Watch, enter_plain};
use lane_berth::Berth;
use race_cells::Notes;
use race_core::{EventList, LaneEvent};
use sby_edge::{Clock, Hold, Launch, Pipe};
use sby_terms::Settled;

// Enters what a lane did with its place, where there is an allowance.
#[tactic(auto, using(crate::proofs::PlaceLemmas::placed_some, crate::proofs::PlaceLemmas::placed_none, crate::proofs::PlaceLemmas::told_some, crate::proofs::PlaceLemmas::told_none))]
pub(crate) fn enter_place<L: Launch, J: ForJob<T>, T: Settled + Drop, C: Clock>(
    watch: &Watch<'_, J, T, C>,
    berth: &Berth<'_, L>,
    notes: &Notes<T>,
    events: &mut EventList<T>,
    entry: LaneEvent<T>,
)
    requires room { 1 ≤ events.old.room }
    requires plain { IsPlain entry }
    requires still { (k : Keeper T) → keeper_after (terms_of T.job T.answer watch.now.terms.now) entry k ≡ k }
    ensures room { events.old.room ≤ events.new.room + 1 }
    ensures part { keeper_from (terms_of T.job T.answer watch.now.terms.now) keeper.Fresh events.new.events ≡ keeper_from (terms_of T.job T.answer watch.now.terms.now) keeper.Fresh events.old.events }
    ensures place { place_from Away events.new.events ≡ placed_after berth.now.pool entry (place_from Away events.old.events) }
    ensures told { IfSome berth.now.pool (λ _. IsChildStart entry → HasChildStart events.new.events) }
    ensures keeps { Keeps (IsOfCell T.problem T.job (J.problem watch.now.problem.now) watch.now.terms.now watch.now.other) (C.may_read watch.now.clock.now) notes.now notes.now events.old.events events.new.events }
{
    if berth.is_seated() {
        enter_plain(watch, notes, events, entry);
    }
}

// Asks for a place, where there is an allowance. Whether a child may be started.
pub(crate) fn take_place<L: Launch, J: ForJob<T>, T: Settled + Drop, C: Clock>(
    watch: &Watch<'_, J, T, C>,
    berth: &mut Berth<'_, L>,
    notes: &Notes<T>,
    events: &mut EventList<T>,
) -> bool
    requires room { 1 ≤ events.old.room }
    requires idle { IsIdle berth.old }
    requires place { place_from Away events.old.events ≡ Away }
    ensures taken { result ≡ true → MayStart berth.new × (place_from Away events.new.events ≡ place_at berth.new.pool berth.new.holds) }
    ensures none { result ≡ false → IsIdle berth.new × IfNone berth.old.pool ⊥ × (events.new ≡ events.old) }
    ensures same { berth.new ≡ record berth.old { holds = berth.new.holds } }
    ensures free { IfNone berth.old.pool (berth.new.holds ≡ false) }
    ensures room { events.old.room ≤ events.new.room + 1 }
    ensures part { keeper_from (terms_of T.job T.answer watch.now.terms.now) keeper.Fresh events.new.events ≡ keeper_from (terms_of T.job T.answer watch.now.terms.now) keeper.Fresh events.old.events }
    ensures keeps { Keeps (IsOfCell T.problem T.job (J.problem watch.now.problem.now) watch.now.terms.now watch.now.other) (C.may_read watch.now.clock.now) notes.now notes.now events.old.events events.new.events }
{
    if !berth.take() {
        return false;
    }
    enter_place(watch, berth, notes, events, LaneEvent::Took);
    true
}

// Gives a lane's place back.
pub(crate) fn give_place<L: Launch, J: ForJob<T>, T: Settled + Drop, C: Clock>(
    watch: &Watch<'_, J, T, C>,
    berth: &mut Berth<'_, L>,
    notes: &Notes<T>,
    events: &mut EventList<T>,
)
    requires room { 1 ≤ events.old.room }
    requires held { MayStart berth.old }
    ensures same { berth.new ≡ record berth.old { holds = false } }
    ensures room { events.old.room ≤ events.new.room + 1 }
    ensures part { keeper_from (terms_of T.job T.answer watch.now.terms.now) keeper.Fresh events.new.events ≡ keeper_from (terms_of T.job T.answer watch.now.terms.now) keeper.Fresh events.old.events }
    ensures place { place_from Away events.new.events ≡ placed_after {T = T} berth.old.pool event.Gave (place_from Away events.old.events) }
    ensures keeps { Keeps (IsOfCell T.problem T.job (J.problem watch.now.problem.now) watch.now.terms.now watch.now.other) (C.may_read watch.now.clock.now) notes.now notes.now events.old.events events.new.events }
{
    berth.give();
    enter_place(watch, berth, notes, events, LaneEvent::Gave);
}

// The end of a child that was reaped; then its place is given back.
pub(crate) fn finish_child<L: Launch, J: ForJob<T>, T: Settled + Drop, C: Clock>(
    watch: &Watch<'_, J, T, C>,
    berth: &mut Berth<'_, L>,
    pipe: L::Pipe,
    hold: L::Hold,
    notes: &Notes<T>,
    events: &mut EventList<T>,
)
    requires reaped { L.Hold.is_reaped hold ≡ true }
    requires stands { berth.old.stands ≡ true }
    requires room { 2 ≤ events.old.room }
    requires place { place_from Away events.old.events ≡ place_used berth.old.pool }
    ensures same { berth.new ≡ record berth.old { bay = berth.new.bay; holds = false; stands = false } }
    ensures told { L.told berth.new.bay ≡ option_map (finished (L.Pipe.told pipe) (L.Hold.killed hold)) (L.told berth.old.bay) }
    ensures starts { L.start_faults berth.new.bay ≡ L.start_faults berth.old.bay }
    ensures reads { RisesBy (L.Pipe.faults pipe) (L.read_faults berth.old.bay) (L.read_faults berth.new.bay) }
    ensures holds { RisesBy (L.Hold.faults hold) (L.hold_faults berth.old.bay) (L.hold_faults berth.new.bay) }
    ensures room { events.old.room ≤ events.new.room + 2 }
    ensures part { keeper_from (terms_of T.job T.answer watch.now.terms.now) keeper.Fresh events.new.events ≡ keeper_from (terms_of T.job T.answer watch.now.terms.now) keeper.Fresh events.old.events }
    ensures place { place_from Away events.new.events ≡ Away }
    ensures keeps { Keeps (IsOfCell T.problem T.job (J.problem watch.now.problem.now) watch.now.terms.now watch.now.other) (C.may_read watch.now.clock.now) notes.now notes.now events.old.events events.new.events }
{
    berth.finish(pipe, hold);
    enter_place(watch, berth, notes, events, LaneEvent::Finish);
    give_place(watch, berth, notes, events);
}
