// State bits by numbers.

ghost use Rattle.std.specs.Prelude.{◌≡◌, ◌<◌, ◌≤◌, All, IfOk, length};
ghost use Rattle.net_pair.specs.Numbers.{HaveStates, IsTableOf, state_by};

use std::alloc::{AllocError, Global};

// For each place below `size` the state whose place it is, or none.
fn table_of(alloc: Global, size: u32, held: &[u32]) -> Result<Vec<Option<u32>>, AllocError>
    requires below { All (λ place. place < size) held.now }
    requires few { length held.now ≤ size }
    ensures { IfOk result (λ table. IsTableOf held.now table.items) }
{
    let mut table = Vec::new(alloc);
    table.resize(size as usize, None)?;
    for (state, place) in held.iter().enumerate() {
        table[*place as usize] = Some(state as u32);
    }
    Ok(table)
}

// The state whose place this is, or none.
fn state_by(table: &[Option<u32>], place: u32) -> Option<u32>
    ensures { result ≡ state_by table.now place }
{
    match table.get(place as usize) {
        Some(state) => *state,
        None => None,
    }
}

/// For each number, which has a place, the state bit that has this place, counted from 0; none where that is the place of no state bit. The
/// state bits have these places, each below `size`.
pub fn states_at(
    alloc: Global,
    size: u32,
    held: &[u32],
    places: &[u32],
) -> Result<Vec<Option<u32>>, AllocError>
    requires below { All (λ place. place < size) held.now }
    requires few { length held.now ≤ size }
    ensures { IfOk result (λ bits. HaveStates held.now places.now bits.items) }
{
    let table = table_of(alloc, size, held)?;
    let mut bits = Vec::new(alloc);
    for place in places {
        bits.push(state_by(&table, *place))?;
    }
    Ok(bits)
}
