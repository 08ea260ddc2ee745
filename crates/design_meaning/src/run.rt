// What a design's bits have in the cycles of a run.

ghost use Rattle.std.specs.Prelude.{◌≡◌, [], ◌∷◌, ◌++◌, OnOk, OnErr};

use std::alloc::{AllocError, Global};
use std::marker::Model;

/// A row of bits.
#[derive(Drop)]
pub struct Row {
    bits: Vec<bool>,
}

impl Model for Row {
    ghost use Rattle.std.specs.Prelude.{List, Bool};

    ghost Value = { List Bool };

    ghost view = { λ a. a.bits.items };
}

impl Row {
    /// The row of these bits.
    pub fn new(bits: Vec<bool>) -> Row
        ensures { result ≡ bits.items }
    {
        Row { bits }
    }

    /// The bits, in order.
    pub fn as_slice(&self) -> &[bool]
        ensures { result.now ≡ self.now }
    {
        self.bits.as_slice()
    }

    /// The bits, given back.
    pub fn into_vec(self) -> Vec<bool>
        ensures { result.items ≡ self }
    {
        self.bits
    }
}

/// One cycle: the bits of all wires, in file order, lowest first; the free bits by their numbers; and what the registers with an
/// asynchronous reset keep, in file order, lowest first.
#[derive(Drop)]
pub struct Cycle {
    wires: Row,
    free: Row,
    kept: Row,
}

impl Model for Cycle {
    ghost use Rattle.design_meaning.specs.Runs.{CycleOf};

    ghost Value = { CycleOf };

    ghost view = { λ a. record { wires = a.wires; free = a.free; kept = a.kept } };
}

impl Cycle {
    /// The cycle of these three rows.
    pub fn new(wires: Row, free: Row, kept: Row) -> Cycle
        ensures { result ≡ record { wires = wires; free = free; kept = kept } }
    {
        Cycle { wires, free, kept }
    }

    /// The wires' bits.
    pub fn wires(&self) -> &[bool]
        ensures { result.now ≡ self.now.wires }
    {
        self.wires.as_slice()
    }

    /// The free bits.
    pub fn free(&self) -> &[bool]
        ensures { result.now ≡ self.now.free }
    {
        self.free.as_slice()
    }

    /// The kept bits.
    pub fn kept(&self) -> &[bool]
        ensures { result.now ≡ self.now.kept }
    {
        self.kept.as_slice()
    }
}

/// The cycles of a run, from cycle 0 on.
#[derive(Drop)]
pub struct Run {
    cycles: Vec<Cycle>,
}

impl Model for Run {
    ghost use Rattle.std.specs.Prelude.{List};
    ghost use Rattle.design_meaning.specs.Runs.{CycleOf};

    ghost Value = { List CycleOf };

    ghost view = { λ a. a.cycles.items };
}

impl Run {
    /// A run with no cycle yet.
    pub fn new(alloc: Global) -> Run
        ensures { result ≡ [] }
    {
        Run {
            cycles: Vec::new(alloc),
        }
    }

    /// The cycles, from cycle 0 on.
    pub fn cycles(&self) -> &[Cycle]
        ensures { result.now ≡ self.now }
    {
        self.cycles.as_slice()
    }

    /// Adds a cycle after the others. An error leaves the run as it was.
    pub fn push(&mut self, cycle: Cycle) -> Result<(), AllocError>
        ensures ok { OnOk result (self.new ≡ self.old ++ cycle ∷ []) }
        ensures err { OnErr result (self.new ≡ self.old) }
    {
        self.cycles.push(cycle)?;
        Ok(())
    }
}

/// Of a run, what its wires have: one row for each cycle.
#[derive(Drop)]
pub struct Shown {
    rows: Vec<Row>,
}

impl Model for Shown {
    ghost use Rattle.std.specs.Prelude.{List, Bool};

    ghost Value = { List (List Bool) };

    ghost view = { λ a. a.rows.items };
}

impl Shown {
    /// The wires' rows of each cycle, from cycle 0 on.
    pub fn new(rows: Vec<Row>) -> Shown
        ensures { result ≡ rows.items }
    {
        Shown { rows }
    }

    /// The rows, from cycle 0 on.
    pub fn rows(&self) -> &[Row]
        ensures { result.now ≡ self.now }
    {
        self.rows.as_slice()
    }
}
