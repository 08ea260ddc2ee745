// Rows of places, all in one list.

ghost use Rattle.std.specs.Prelude.{◌≡◌, ◌+◌, ◌<◌, ◌≤◌, [], ◌∷◌, ◌++◌, IfOk, IfSome, List, OnErr, OnOk, Some, length, slice_get, ℕ};
ghost use Rattle.std.specs.List.{concat};
ghost use Rattle.place_rows.specs.Rows.{start_of};

use std::alloc::{AllocError, Global};
use std::marker::Model;

/// Rows of places, in an order.
#[derive(Drop)]
pub struct Rows {
    places: Vec<u32>,
    // Where each row ends. More places than this can count are answered as out of memory.
    ends: Vec<u32>,
}

impl Model for Rows {
    ghost use Rattle.std.specs.Prelude.{List, length, ℕ};
    ghost use Rattle.place_rows.specs.Rows.{AreEnds, rows_from};

    ghost Value = { List (List ℕ) };

    ghost view = { λ a. rows_from 0 a.ends.items a.places.items };

    ghost invariant = { λ a. AreEnds 0 (length a.places.items) a.ends.items };
}

// Where a row ends that is added after this many places, if it can be counted.
fn end_after(first: usize, row: &[u32]) -> Option<u32>
    ensures { IfSome result (λ end. end ≡ first + length row.now) }
{
    let first = u32::try_from(first).ok()?;
    let count = u32::try_from(row.len()).ok()?;
    first.checked_add(count)
}

// Where a row begins.
fn start_of(ends: &[u32], row: usize) -> u32
    requires { row ≤ length ends.now }
    ensures { result ≡ start_of ends.now row }
{
    if row == 0 {
        return 0;
    }
    ends[row - 1]
}

impl Rows {
    /// No rows.
    pub fn new(alloc: Global) -> Self
        ensures { result ≡ [] }
    {
        Rows {
            places: Vec::new(alloc),
            ends: Vec::new(alloc),
        }
    }

    /// A copy of the rows.
    pub fn copy(&self, alloc: Global) -> Result<Self, AllocError>
        ensures { IfOk result (λ copy. copy ≡ self.now) }
    {
        let places = Vec::from_slice(alloc, self.places.as_slice())?;
        let ends = Vec::from_slice(alloc, self.ends.as_slice())?;
        Ok(Rows { places, ends })
    }

    /// Adds a row after the others. If memory runs out, the rows are as they were.
    pub fn push(&mut self, row: &[u32]) -> Result<(), AllocError>
        ensures ok { OnOk result (self.new ≡ self.old ++ row.now ∷ []) }
        ensures err { OnErr result (self.new ≡ self.old) }
    {
        let first = self.places.len();
        let Some(end) = end_after(first, row) else {
            return Err(AllocError);
        };
        self.places.extend_from_slice(row)?;
        match self.ends.push(end) {
            Ok(()) => Ok(()),
            Err(_) => {
                self.places.truncate(first);
                Err(AllocError)
            }
        }
    }

    /// How many rows there are.
    pub fn len(&self) -> usize
        ensures { result ≡ length self.now }
    {
        self.ends.len()
    }

    /// The places of a row, counted from 0.
    pub fn row(&self, row: usize) -> &[u32]
        requires { row < length self.now }
        ensures { slice_get self.now row ≡ Some result.now }
    {
        let first = start_of(&self.ends, row) as usize;
        let end = self.ends[row] as usize;
        &self.places[first..end]
    }

    /// How many places a row has.
    pub fn width(&self, row: usize) -> u32
        requires { row < length self.now }
        ensures { (places : List ℕ) → slice_get self.now row ≡ Some places → result ≡ length places }
    {
        self.ends[row] - start_of(&self.ends, row)
    }

    /// All places, row by row.
    pub fn places(&self) -> &[u32]
        ensures { result.now ≡ concat self.now }
    {
        self.places.as_slice()
    }
}
