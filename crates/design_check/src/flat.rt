// A design in which no fault has an instance.

ghost use Rattle.std.specs.Prelude.{◌≡◌, ◌↔◌, ◌+◌, ◌-◌, ◌<◌, ◌^◌, ℕ, Bool, All, IsTrue, MatchOption, Some, length, not, ◌&&◌, slice_get};
ghost use Rattle.design_core.specs.Cells.{is_set};
ghost use Rattle.design_signals.specs.Chunks.{IsChunk, bits_of};
ghost use Rattle.design_check.specs.Faults.{IsFlat};
ghost use Rattle.design_graph.specs.Order.{IsOrder};
ghost use Rattle.design_graph.specs.Starts.{IsRegisterStart, IsStarts};
ghost use Rattle.design_meaning.specs.Meaning.{Broken, IsRegisterBit, IsStart, asserts, bit_in, is_assert, is_enabled, row_in, says};
ghost use Rattle.design_meaning.specs.Runs.{IsCycleOf, IsRunOf, kept_bits, kept_width, valuation_of, valuations};
ghost use Rattle.design_core.specs.Shape.{CellOf, IsCellOf, IsDeclared, IsDesign};

use crate::numbers::bit_count;
use cell_table::kind::{Kind, Statement};
use design_core::cell::Cell;
use design_core::design::Design;
use design_core::names::PortName;
use design_core::table::{Role, role_of};
use design_graph::driver::Driver;
use design_meaning::run::{Cycle, Run};
use design_signals::bits::Bits;
use design_signals::chunk::Chunk;
use design_signals::sig_bit::SigBit;
use std::marker::Model;

/// A design that the check let pass.
#[derive(Drop)]
pub struct Flat {
    design: Design,
    order: Vec<Driver>,
    // at the place of each bit of a register the digit that it starts with
    starts: Vec<Option<bool>>,
    // how many bits the registers with an asynchronous reset keep
    kept: u128,
}

impl Model for Flat {
    ghost use Rattle.design_core.specs.Shape.{DesignOf};

    ghost Value = { DesignOf };

    ghost view = { λ a. a.design };

    ghost use Rattle.design_check.specs.Faults.{IsFlat};
    ghost use Rattle.design_graph.specs.Order.{IsOrder};
    ghost use Rattle.design_graph.specs.Starts.{IsStarts};
    ghost use Rattle.std.specs.Prelude.{◌≡◌};
    ghost use Rattle.design_meaning.specs.Runs.{kept_bits};

    ghost invariant = { λ a. IsFlat a.design × (IsOrder a.design a.order.items × (IsStarts a.design a.starts.items × (a.kept ≡ kept_bits a.design))) };
}

impl Flat {
    // The flat design, of one in which no fault has an instance.
    pub(crate) fn new(
        design: Design,
        order: Vec<Driver>,
        starts: Vec<Option<bool>>,
        kept: u128,
    ) -> Flat
        requires flat { IsFlat design }
        requires order { IsOrder design order.items }
        requires starts { IsStarts design starts.items }
        requires kept { kept ≡ kept_bits design }
        ensures { result ≡ design }
    {
        Flat {
            design,
            order,
            starts,
            kept,
        }
    }

    /// The design.
    pub fn design(&self) -> &Design
        ensures design { result.now ≡ self.now }
        ensures flat { IsFlat self.now }
    {
        &self.design
    }

    /// All cells whose outputs follow from bits of the same cycle and all bits of connects, each after the drivers of what it reads.
    pub fn order(&self) -> &[Driver]
        ensures { IsOrder self.now result.now }
    {
        self.order.as_slice()
    }

    /// The digit that a register's bit starts with: that of a bit whose chain of connects ends at it. None where there is none, and
    /// where the bit is no register's.
    pub fn start(&self, bit: SigBit) -> Option<bool>
        requires { IsDeclared self.now.wires self.now.free bit }
        ensures bit { (x : Bool) → (result ≡ Some x) ↔ IsRegisterStart self.now bit x }
        ensures register { (i k : ℕ) (x : Bool) → IsRegisterBit self.now i k bit → (result ≡ Some x) ↔ IsStart self.now i k x }
    {
        self.starts[self.design.place(bit)]
    }

    /// Whether each cycle of the run has rows of this design's lengths.
    pub fn fits(&self, run: &Run) -> bool
        ensures { IsTrue result ↔ IsRunOf self.now run.now }
    {
        let cycles = run.cycles();
        for cycle in cycles {
            if !fits_cycle(&self.design, self.kept, cycle) {
                return false;
            }
        }
        true
    }

    /// The first assertion, in file order and counted from 0, that is broken in the run's last cycle.
    pub fn broken(&self, run: &Run) -> Option<u32>
        requires some { 0 < length run.now }
        requires rows { IsRunOf self.now run.now }
        ensures { MatchOption result
            ((a : ℕ) → Broken self.now (valuations self.now run.now (length run.now - 1)) a → ⊥)
            (λ a. Broken self.now (valuations self.now run.now (length run.now - 1)) a × ((k : ℕ) → k < a → Broken self.now (valuations self.now run.now (length run.now - 1)) k → ⊥)) }
    {
        let cycles = run.cycles();
        first_broken(&self.design, &cycles[cycles.len() - 1])
    }

    /// The name of an assertion by its number in file order, counted from 0.
    pub fn assert_name(&self, number: u32) -> &str
        requires { number < length (asserts self.now) }
        ensures { (c : CellOf) × (slice_get (asserts self.now) number ≡ Some c) × (result.now ≡ c.name) }
    {
        let mut before = 0;
        let cells = self.design.cells();
        for cell in cells {
            if is_assert(cell.kind()) {
                if before == number {
                    return cell.name();
                }
                before += 1;
            }
        }
        unreachable!()
    }
}

// Whether the cycle has rows of the design's lengths.
fn fits_cycle(design: &Design, kept: u128, cycle: &Cycle) -> bool
    requires { kept ≡ kept_bits design.now }
    ensures { IsTrue result ↔ IsCycleOf design.now cycle.now }
{
    cycle.wires().len() == design.bits() as usize
        && cycle.free().len() == design.free() as usize
        && cycle.kept().len() as u128 == kept
}

fn is_assert(kind: Kind) -> bool
    ensures { result ≡ is_assert kind }
{
    matches!(kind, Kind::Statement(Statement::Assert))
}

// What a bit has in a cycle.
fn bit_in(design: &Design, cycle: &Cycle, bit: SigBit) -> bool
    requires declared { IsDeclared design.now.wires design.now.free bit }
    requires rows { IsCycleOf design.now cycle.now }
    ensures { result ≡ bit_in (valuation_of design.now cycle.now) bit }
{
    match bit {
        SigBit::Wire(_, _) => cycle.wires()[design.place(bit)],
        SigBit::Const(value) => value,
        SigBit::Free(number) => cycle.free()[number as usize],
    }
}

// Whether some bit of a signal is 1 in a cycle.
fn is_set(design: &Design, cycle: &Cycle, signal: &[Chunk]) -> bool
    requires declared { All (IsDeclared design.now.wires design.now.free) (bits_of signal.now) }
    requires chunks { All IsChunk signal.now }
    requires rows { IsCycleOf design.now cycle.now }
    ensures { result ≡ is_set (row_in (valuation_of design.now cycle.now) (bits_of signal.now)) }
{
    let mut left = Bits::new(signal);
    'bits: while let Some(bit) = left.next() {
        if bit_in(design, cycle, bit) {
            return true;
        }
    }
    false
}

// Whether the statement has EN 1 and A 0 in a cycle.
fn is_broken(design: &Design, cycle: &Cycle, cell: &Cell) -> bool
    requires declared { IsCellOf design.now.wires design.now.free cell.now }
    requires rows { IsCycleOf design.now cycle.now }
    ensures { result ≡ (is_enabled (valuation_of design.now cycle.now) cell.now && not (says (valuation_of design.now cycle.now) cell.now)) }
{
    is_set(design, cycle, cell.signal(PortName::En))
        && !is_set(design, cycle, cell.signal(PortName::A))
}

// The first assertion that is broken in a cycle.
fn first_broken(design: &Design, cycle: &Cycle) -> Option<u32>
    requires { IsCycleOf design.now cycle.now }
    ensures { MatchOption result
        ((a : ℕ) → Broken design.now (valuation_of design.now cycle.now) a → ⊥)
        (λ a. Broken design.now (valuation_of design.now cycle.now) a × ((k : ℕ) → k < a → Broken design.now (valuation_of design.now cycle.now) k → ⊥)) }
{
    let cells = design.cells();
    let mut number = 0;
    for cell in cells {
        if is_assert(cell.kind()) {
            if is_broken(design, cycle, cell) {
                return Some(number);
            }
            number += 1;
        }
    }
    None
}

// How many bits a cell keeps beside the wires.
fn kept_width(cell: &Cell) -> u128
    ensures width { result ≡ kept_width cell.now }
    ensures few { result < 2 ^ 96 }
{
    match role_of(cell.kind()) {
        Role::AsyncResetRegister => bit_count(cell.output()),
        _ => 0,
    }
}

// How many bits all cells keep beside the wires.
pub(crate) fn kept_bits(design: &Design) -> u128
    ensures kept { result ≡ kept_bits design.now }
    ensures design { IsDesign design.now }
{
    let mut kept = 0u128;
    for cell in design.cells() {
        kept += kept_width(cell);
    }
    kept
}
