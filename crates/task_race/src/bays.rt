// The bays of a task's lanes, taken from their yard and given back.

ghost use Rattle.std.specs.Prelude.{◌≡◌, ℕ, IfOk, OnErr, Some, length, map, slice_get};
ghost use Rattle.sby_edge.specs.Child.{IsLogged, new_bay};
ghost use Rattle.task_race.specs.Bays.{CameBack, NoneStarted, counts_at, left_all, none_failed, yard_at};

use sby_edge::Yard;
use std::alloc::{AllocError, Global};

/// Gives bays back to their yard, from the last one to the first.
pub fn give_back<Y: Yard>(yard: &mut Y, bays: Vec<Y::Bay>)
    ensures told { Y.told yard.new ≡ Y.told yard.old }
    ensures started { IsLogged (left_all (map (λ b. record { told = Y.Bay.told b; counts = counts_at (Y.Bay.start_faults b) (Y.Bay.read_faults b) (Y.Bay.hold_faults b) }) bays.items)) (Y.started yard.old) (Y.started yard.new) }
    ensures counts { CameBack (map (λ b. counts_at (Y.Bay.start_faults b) (Y.Bay.read_faults b) (Y.Bay.hold_faults b)) bays.items)
        (counts_at (Y.start_faults yard.old) (Y.read_faults yard.old) (Y.hold_faults yard.old)) (counts_at (Y.start_faults yard.new) (Y.read_faults yard.new) (Y.hold_faults yard.new)) }
{
    let mut left = bays;
    while let Some(bay) = left.pop() {
        yard.back(bay);
    }
    left.destroy_empty();
}

/// The bays of a task's lanes, of lane 0, 1 and so on. Room for all is taken first; where one isn't made, those before it go back.
pub fn take_bays<Y: Yard>(
    alloc: Global,
    yard: &mut Y,
    task: u32,
    lanes: u32,
) -> Result<Vec<Y::Bay>, AllocError>
    ensures told { Y.told yard.new ≡ Y.told yard.old }
    ensures started { IfOk result (λ _. Y.started yard.new ≡ Y.started yard.old) }
    ensures none { OnErr result (NoneStarted (yard_at (Y.told yard.old) (Y.started yard.old) (counts_at (Y.start_faults yard.old) (Y.read_faults yard.old) (Y.hold_faults yard.old)))
        (yard_at (Y.told yard.new) (Y.started yard.new) (counts_at (Y.start_faults yard.new) (Y.read_faults yard.new) (Y.hold_faults yard.new)))) }
    ensures counts { counts_at (Y.start_faults yard.new) (Y.read_faults yard.new) (Y.hold_faults yard.new) ≡ counts_at (Y.start_faults yard.old) (Y.read_faults yard.old) (Y.hold_faults yard.old) }
    ensures lanes { IfOk result (λ bays. length bays.items ≡ lanes) }
    ensures fresh { IfOk result (λ bays. (lane : ℕ) (b : Y.Bay) → slice_get bays.items lane ≡ Some b
        → (Y.Bay.told b ≡ new_bay (Y.told yard.old) task lane) × (counts_at (Y.Bay.start_faults b) (Y.Bay.read_faults b) (Y.Bay.hold_faults b) ≡ none_failed)) }
{
    let mut bays = Vec::with_capacity(alloc, lanes as usize)?;
    for lane in 0..lanes {
        match yard.bay(alloc, task, lane) {
            Ok(bay) => bays.push_reserved(bay),
            Err(_) => {
                give_back(yard, bays);
                return Err(AllocError);
            }
        }
    }
    Ok(bays)
}
