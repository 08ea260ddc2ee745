// What the lanes of a race leave.

ghost use Rattle.std.specs.Prelude.{◌≡◌, ◌+◌, ◌<◌, ◌≤◌, All, List, ◌∷◌, ◌++◌, [], length, map, vec_capacity};
ghost use Rattle.lane_berth.specs.Berths.{IsIdle};
ghost use Rattle.lane_run.specs.Keeping.{Remember};

use crate::racing::Lane;
use race_cells::Notes;
use race_core::Report;

/// What the lanes of a race leave, in their order, and a note that knows what theirs knew.
#[derive(Drop)]
pub struct Raced<L, T> {
    pub bays: Vec<L>,
    pub reports: Vec<Report<T>>,
    pub notes: Notes<T>,
}

// Adds what a lane leaves.
fn take_in<L, T: Drop>(lane: Lane<'_, L, T>, raced: &mut Raced<L, T>)
    requires idle { IsIdle lane.bay }
    requires cells { map (λ n. n.cell) lane.notes ≡ map (λ n. n.cell) raced.old.notes }
    requires bays { length raced.old.bays.items < vec_capacity raced.old.bays }
    requires reports { length raced.old.reports.items < vec_capacity raced.old.reports }
    ensures bays { raced.new.bays.items ≡ raced.old.bays.items ++ lane.entry.bay.bay ∷ [] }
    ensures reports { raced.new.reports.items ≡ raced.old.reports.items ++ lane.entry.report ∷ [] }
    ensures notes { Remember raced.old.notes raced.new.notes × Remember lane.entry.notes raced.new.notes }
    ensures room { (vec_capacity raced.old.bays ≤ vec_capacity raced.new.bays) × (vec_capacity raced.old.reports ≤ vec_capacity raced.new.reports) }
{
    let Lane { bay, report, notes } = lane;
    raced.notes.join(notes);
    raced.bays.push_reserved(bay.into_bay());
    raced.reports.push_reserved(report);
}

// What the lanes leave. There is room for all.
pub(crate) fn gather<L, T: Drop>(lanes: Vec<Lane<'_, L, T>>, raced: &mut Raced<L, T>)
    requires idle { All (λ l. IsIdle l.bay) lanes.items }
    requires fresh { (raced.old.bays.items ≡ []) × (raced.old.reports.items ≡ []) }
    requires cells { All (λ l. map (λ n. n.cell) l.notes ≡ map (λ n. n.cell) raced.old.notes) lanes.items }
    requires bays { length lanes.items ≤ vec_capacity raced.old.bays }
    requires reports { length lanes.items ≤ vec_capacity raced.old.reports }
    ensures bays { raced.new.bays.items ≡ map (λ l. l.bay.bay) lanes.entry.items }
    ensures reports { raced.new.reports.items ≡ map (λ l. l.report) lanes.entry.items }
    ensures notes { All (λ l. Remember l.notes raced.new.notes) lanes.entry.items }
{
    let mut left = lanes.into_iter();
    while let Some(lane) = left.next() {
        take_in(lane, raced);
    }
    left.destroy_empty();
}
