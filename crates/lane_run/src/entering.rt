// Adding to lists of events.

ghost use Rattle.std.specs.Prelude.{◌≡◌, ◌+◌, ◌<◌};
ghost use Rattle.lane_run.specs.Keeping.{Adds};
ghost use Rattle.lane_run.specs.Reading.{bytes_filed, bytes_read, empty_by, empty_reads, filed_by, read_by};
ghost use Rattle.race_core.specs.Parts.{Terms, keeper_after, keeper_from, place_after, place_from, reader_after, reader_from};
ghost use Rattle.race_core.specs.declared.part.Keeper.{Keeper};
ghost use Rattle.race_core.specs.declared.part.Place.{Place};
ghost use Rattle.race_core.specs.declared.part.Reader.{Reader};

use race_core::{EventList, LaneEvent, sharing};

// Adds an event to a list that has the room for it.
#[tactic(auto, using(crate::proofs::Entries::bytes_with, crate::proofs::Entries::filed_with, crate::proofs::Entries::empty_with, crate::proofs::Entries::adds_with))]
pub(crate) fn enter<T: Drop>(events: &mut EventList<T>, entry: LaneEvent<T>)
    requires { 0 < events.old.room }
    ensures room { events.new.room + 1 ≡ events.old.room }
    ensures reader { (r : Reader T) → reader_from r events.new.events ≡ reader_after entry (reader_from r events.old.events) }
    ensures keeper { (a : Terms T) (k : Keeper T) → keeper_from a k events.new.events ≡ keeper_after a entry (keeper_from a k events.old.events) }
    ensures place { (p : Place) → place_from p events.new.events ≡ place_after entry (place_from p events.old.events) }
    ensures bytes { bytes_read events.new.events ≡ bytes_read events.old.events + read_by entry }
    ensures filed { bytes_filed events.new.events ≡ bytes_filed events.old.events + filed_by entry }
    ensures empty { empty_reads events.new.events ≡ empty_reads events.old.events + empty_by entry }
    ensures adds { Adds entry events.old.events events.new.events }
{
    sharing::<T>();
    events.push(entry);
}
