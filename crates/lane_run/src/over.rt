// A job as its lane's child is asked it, and what is left to the reader once the child is over: the settling of what it found.

ghost use Rattle.std.specs.Prelude.{◌≡◌, ◌⊎◌, ◌+◌, ◌<◌, ◌≤◌, Some, length, true};
ghost use Rattle.lane_run.specs.Keeping.{Remember};
ghost use Rattle.lane_run.specs.Reading.{IfWon, IsHolding, Settles, bytes_filed, bytes_read, empty_reads};
ghost use Rattle.race_cells.specs.Notes.{AreNotesOf, known_at};
ghost use Rattle.race_core.specs.Parts.{reader_from};
ghost use Rattle.race_core.specs.declared.event.Judged.TheVariants as judged;
ghost use Rattle.race_core.specs.declared.part.Reader.TheVariants as reader;

use crate::entering::enter;
use race_cells::{Cells, Notes, Settling};
use race_core::{EventList, LaneEvent, Reader};
use sby_terms::{JobName, Settled};
use std::alloc::Global;

/// A job as its lane's child is asked it.
#[derive(Clone, Copy)]
pub struct Asked<'a> {
    pub job: JobName,
    /// The path at which the child may leave a proof file, and of how many bytes it is judged at most.
    pub proof: &'a str,
    pub most: u64,
}

// Out of memory ends the reader.
pub(crate) fn enter_memory<T: Drop>(events: &mut EventList<T>) -> Reader<T>
    requires room { 1 ≤ events.old.room }
    requires part { (reader_from reader.Fresh events.old.events ≡ reader.Asking) ⊎ IsHolding (reader_from reader.Fresh events.old.events) }
    ensures short { result ≡ reader.Short }
    ensures part { result ≡ reader_from reader.Fresh events.new.events }
    ensures read { bytes_read events.new.events ≡ bytes_read events.old.events }
    ensures empty { empty_reads events.new.events ≡ empty_reads events.old.events }
    ensures filed { bytes_filed events.new.events ≡ bytes_filed events.old.events }
{
    enter(events, LaneEvent::ReaderMemory);
    Reader::Short
}

// Settles what the reader holds. A copy stays for the job's end; where memory runs out for that or for the settle, the finding is
// dropped.
#[tactic(auto, using(crate::proofs::Keepers::learns_remember, crate::proofs::Keepers::learns_known))]
pub(crate) fn settle<T: Settled + Drop>(
    alloc: Global,
    cells: &Cells<T>,
    place: u32,
    part: Reader<T>,
    notes: &mut Notes<T>,
    events: &mut EventList<T>,
) -> Reader<T>
    requires place { place < length cells.now }
    requires notes { AreNotesOf cells.now notes.old }
    requires part { part ≡ reader_from reader.Fresh events.old.events }
    requires unsettled { IfWon part (λ f. ⊥) }
    requires room { IsHolding part → 1 ≤ events.old.room }
    ensures part { result ≡ reader_from reader.Fresh events.new.events }
    ensures settles { Settles part result }
    ensures remember { Remember notes.old notes.new }
    ensures won { IfWon result (λ f. known_at notes.new place ≡ Some f) }
    ensures read { bytes_read events.new.events ≡ bytes_read events.old.events }
    ensures empty { empty_reads events.new.events ≡ empty_reads events.old.events }
    ensures filed { bytes_filed events.new.events ≡ bytes_filed events.old.events }
{
    let Reader::Holding { value, by } = part else {
        return part;
    };
    let Ok(kept) = value.copy() else {
        return enter_memory(events);
    };
    let won = match cells.settle(alloc, place, value, notes) {
        Ok(Settling::Won) => true,
        Ok(Settling::Lost(_value)) => false,
        Err(_) => return enter_memory(events),
    };
    enter(events, LaneEvent::Settle { won });
    Reader::Found {
        value: kept,
        by,
        won,
    }
}
