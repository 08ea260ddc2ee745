// What holds of lists of events.

ghost use Rattle.std.specs.Prelude.{◌≡◌, ◌++◌, ◌∷◌, List};
ghost use Rattle.race_core.specs.Parts.{Terms, reader_after, reader_from, keeper_after, keeper_from, place_after, place_from};
ghost use Rattle.race_core.specs.Sharing.{with_event};
ghost use Rattle.race_core.specs.declared.event.LaneEvent.{LaneEvent};
ghost use Rattle.race_core.specs.declared.event.LaneEvent.TheVariants as event;
ghost use Rattle.race_core.specs.declared.part.Reader.{Reader};
ghost use Rattle.race_core.specs.declared.part.Keeper.{Keeper};
ghost use Rattle.race_core.specs.declared.part.Place.{Place};
ghost use Rattle.race_core.specs.declared.part.Place.TheVariants as place;

/// An event that shares the last entry of its list changes the parts as one with an entry of its own.
pub fn sharing<T>()
    ensures reader { (r : Reader T) (e : LaneEvent T) (es : List (LaneEvent T)) → reader_from r (with_event e es) ≡ reader_after e (reader_from r es) }
    ensures keeper { (a : Terms T) (k : Keeper T) (e : LaneEvent T) (es : List (LaneEvent T)) → keeper_from a k (with_event e es) ≡ keeper_after a e (keeper_from a k es) }
    ensures place { (p : Place) (e : LaneEvent T) (es : List (LaneEvent T)) → place_from p (with_event e es) ≡ place_after e (place_from p es) }
{}

/// Where no place is kept at the end, a child was started only while a place was held that no other child used; and it was finished, and
/// the place given back, after that.
pub fn starts_have_places<T>()
    ensures held { (es fs : List (LaneEvent T)) → place_from place.Away (es ++ event.Start ∷ fs) ≡ place.Away → place_from place.Away es ≡ place.Held }
    ensures back { (es fs : List (LaneEvent T)) → place_from place.Away (es ++ event.Start ∷ fs) ≡ place.Away → place_from place.Used fs ≡ place.Away }
{}
