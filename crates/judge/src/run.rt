// A played run, kept in few bytes and shared.

ghost use Rattle.std.specs.Prelude.{◌≡◌, ◌+◌, ◌<◌, ◌≤◌, ◌^◌, [], IfOk, Some, drop, false, length, slice_get, slice_index_or, take};
ghost use Rattle.design_meaning.specs.Runs.{shown_of};
ghost use Rattle.judge.specs.Rows.{AreRowsOf, cycles_in};

use design_meaning::run::{Cycle, Row};
use model_play::kept::Kept;
use std::alloc::{AllocError, Global};
use std::marker::Model;
use std::sync::Arc;

/// A run of a design: a bit a bit, with several owners. Another owner costs no memory that grows with the run.
#[derive(Drop)]
pub struct PlayedRun {
    rows: Arc<Kept, Global>,
    // How many bits the wires, the free numbers and the stored rows have.
    wires: u32,
    free: u32,
    kept: u32,
}

impl Model for PlayedRun {
    ghost use Rattle.std.specs.Prelude.{◌+◌, ◌<◌, ◌^◌, List};
    ghost use Rattle.std.specs.Arc.{arc_value};
    ghost use Rattle.design_meaning.specs.Runs.{CycleOf};
    ghost use Rattle.judge.specs.Rows.{AreRowsOf, cycles_in};

    ghost Value = { List CycleOf };

    ghost view = { λ a. cycles_in a.wires a.free a.kept (arc_value a.rows) };

    ghost invariant = { λ a. AreRowsOf a.wires a.free a.kept (arc_value a.rows) × (a.wires + a.free + 2 + a.kept < 2 ^ 32) };
}

// This many bits of a row, from one on.
fn part(
    alloc: Global,
    rows: &Kept,
    number: usize,
    first: u32,
    count: u32,
) -> Result<Row, AllocError>
    requires number { number < length rows.now }
    requires few { first + count < 2 ^ 32 }
    requires within { first + count ≤ length (slice_index_or rows.now number []) }
    ensures { IfOk result (λ row. row ≡ take count (drop first (slice_index_or rows.now number []))) }
{
    let mut bits = Vec::new(alloc);
    for place in first..first + count {
        bits.push(rows.get(number, place))?;
    }
    Ok(Row::new(bits))
}

impl PlayedRun {
    // The run whose rows have this many bits of the wires, of the free numbers, of the two constants, and of the stored rows.
    pub(crate) fn new(
        alloc: Global,
        rows: Kept,
        wires: u32,
        free: u32,
        kept: u32,
    ) -> Result<PlayedRun, AllocError>
        requires rows { AreRowsOf wires free kept rows }
        requires few { wires + free + 2 + kept < 2 ^ 32 }
        ensures { IfOk result (λ run. run ≡ cycles_in wires free kept rows) }
    {
        match Arc::new(alloc, rows) {
            Ok(rows) => Ok(PlayedRun {
                rows,
                wires,
                free,
                kept,
            }),
            Err(_) => Err(AllocError),
        }
    }

    /// How many cycles it has.
    pub fn cycles(&self) -> usize
        ensures { result ≡ length self.now }
    {
        self.rows.cycles()
    }

    /// A cycle by its number, from 0.
    pub fn cycle(&self, alloc: Global, number: usize) -> Result<Cycle, AllocError>
        requires { number < length self.now }
        ensures { IfOk result (λ c. slice_get self.now number ≡ Some c) }
    {
        let rows = &*self.rows;
        let wires = part(alloc, rows, number, 0, self.wires)?;
        let free = part(alloc, rows, number, self.wires, self.free)?;
        let kept = part(alloc, rows, number, self.wires + self.free + 2, self.kept)?;
        Ok(Cycle::new(wires, free, kept))
    }

    /// The bit at a place of the wires' row of a cycle, both counted from 0.
    pub fn wire_bit(&self, number: usize, place: u32) -> bool
        requires number { number < length self.now }
        requires place { place < length (slice_index_or (shown_of self.now) number []) }
        ensures { result ≡ slice_index_or (slice_index_or (shown_of self.now) number []) place false }
    {
        self.rows.get(number, place)
    }

    /// Another owner.
    pub fn share(&self) -> Result<PlayedRun, AllocError>
        ensures { IfOk result (λ run. run ≡ self.now) }
    {
        let rows = Arc::try_clone(&self.rows)?;
        Ok(PlayedRun {
            rows,
            wires: self.wires,
            free: self.free,
            kept: self.kept,
        })
    }
}
