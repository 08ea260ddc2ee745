//! The check of a design for faults.

ghost use Rattle.std.specs.Prelude.{◌≡◌, ◌+◌, ℕ, IfOk, MatchOption, MatchResult, IsTrue};
ghost use Rattle.design_core.specs.Shape.{IsDesign};
ghost use Rattle.design_graph.specs.Edges.{IsLooped, IsNets, IsStartMarks};
ghost use Rattle.design_graph.specs.Items.{DrivesBit, IsItem};
ghost use Rattle.design_graph.specs.Order.{IsOrder};
ghost use Rattle.design_graph.specs.Starts.{IsStarts};
ghost use Rattle.design_meaning.specs.Runs.{kept_bits};
ghost use Rattle.design_check.specs.Faults.{Instance, IsClean, IsFault, IsFirst, IsFlat, Place, is_of_cells, rank};
ghost use Rattle.design_check.specs.Faults.Place.{Bit, Whole};

use crate::clocks::first_multi_clock;
use crate::conflicts::first_conflict;
use crate::fault::FaultKind;
use crate::flat::{Flat, kept_bits};
use crate::names::{driven_name, item_name};
use crate::parts::{first_at_fault, first_uneven};
use design_core::design::Design;
use design_graph::driver::Driver;
use design_graph::drivers::first_driven_wrongly;
use design_graph::item::Item;
use design_graph::loops::{first_cell_on_loop, first_wire_on_loop, sorted_rests};
use design_graph::nets::net_leaders;
use design_graph::order::order_of;
use design_graph::starts::{StartMarks, start_marks, starts_of};
use design_signals::sig_bit::SigBit;
use std::alloc::{AllocError, Global};
use std::marker::Model;

/// Why a design is refused: the first kind of fault that it has, and what the first instance of that kind names.
#[derive(Debug, Drop)]
pub struct DesignFault {
    kind: FaultKind,
    name: String,
}

impl Model for DesignFault {
    ghost use Rattle.std.specs.Prelude.{string_bytes};
    ghost use Rattle.design_check.specs.Faults.{FaultOf};

    ghost Value = { FaultOf };

    ghost view = { λ a. record { kind = a.kind; name = string_bytes a.name } };
}

impl DesignFault {
    /// The kind of fault.
    pub fn kind(&self) -> FaultKind
        ensures { result ≡ self.now.kind }
    {
        self.kind
    }

    /// The name of a cell, a wire or a wire's bit (as `\y [0]`), or `-` for a connect without wires.
    pub fn name(&self) -> &str
        ensures { result.now ≡ self.now.name }
    {
        self.name.as_str()
    }
}

// The fault of this kind at the first cell or connect, if there is one.
fn item_fault(
    alloc: Global,
    design: &Design,
    kind: FaultKind,
    first: Option<Item>,
) -> Result<Option<DesignFault>, AllocError>
    requires clean { IsClean design.now (rank kind) }
    requires first { MatchOption first ((p : Place) → Instance design.now kind p → ⊥) (λ e. IsItem design.now e × IsFirst design.now (Instance design.now kind) (Whole e)) }
    ensures { IfOk result (λ r. MatchOption r (IsClean design.now (rank kind + 1)) (λ e. IsFault design.now e.kind e.name)) }
{
    match first {
        Some(item) => {
            let name = item_name(alloc, design, item)?;
            Ok(Some(DesignFault { kind, name }))
        }
        None => Ok(None),
    }
}

// The fault of this kind at the first driven bit, if there is one.
fn bit_fault(
    alloc: Global,
    design: &Design,
    kind: FaultKind,
    first: Option<(Item, SigBit)>,
) -> Result<Option<DesignFault>, AllocError>
    requires shape { IsDesign design.now }
    requires clean { IsClean design.now (rank kind) }
    requires first { MatchOption first ((p : Place) → Instance design.now kind p → ⊥) (λ r. (k : ℕ) × DrivesBit design.now r.0 k r.1 × IsFirst design.now (Instance design.now kind) (Bit r.0 k)) }
    ensures { IfOk result (λ r. MatchOption r (IsClean design.now (rank kind + 1)) (λ e. IsFault design.now e.kind e.name)) }
{
    match first {
        Some((item, bit)) => {
            let name = driven_name(alloc, design, item, bit)?;
            Ok(Some(DesignFault { kind, name }))
        }
        None => Ok(None),
    }
}

// The first cell that has a fault of a kind that only cells have, each by itself.
fn first_cell(design: &Design, kind: FaultKind) -> Option<Item>
    requires { IsTrue (is_of_cells kind) }
    ensures { MatchOption result ((p : Place) → Instance design.now kind p → ⊥) (λ e. IsItem design.now e × IsFirst design.now (Instance design.now kind) (Whole e)) }
{
    match first_at_fault(design.cells(), kind) {
        Some(place) => Some(Item::Cell(place)),
        None => None,
    }
}

// The first fault of a kind that only cells have, each by itself, if there is one.
fn cell_fault(
    alloc: Global,
    design: &Design,
    kind: FaultKind,
) -> Result<Option<DesignFault>, AllocError>
    requires clean { IsClean design.now (rank kind) }
    requires part { IsTrue (is_of_cells kind) }
    ensures { IfOk result (λ r. MatchOption r (IsClean design.now (rank kind + 1)) (λ e. IsFault design.now e.kind e.name)) }
{
    item_fault(alloc, design, kind, first_cell(design, kind))
}

// The first cell or connect of a wrong width.
fn first_wrong_width(design: &Design) -> Option<Item>
    ensures { MatchOption result ((p : Place) → Instance design.now FaultKind.PortWidth p → ⊥) (λ e. IsItem design.now e × IsFirst design.now (Instance design.now FaultKind.PortWidth) (Whole e)) }
{
    let connects = design.connects();
    let cell = first_at_fault(design.cells(), FaultKind::PortWidth);
    match (cell, first_uneven(connects)) {
        (Some(cell), Some(connect)) => {
            if connects[connect].cells_before() as usize <= cell {
                Some(Item::Connect(connect))
            } else {
                Some(Item::Cell(cell))
            }
        }
        (Some(cell), None) => Some(Item::Cell(cell)),
        (None, Some(connect)) => Some(Item::Connect(connect)),
        (None, None) => None,
    }
}

// The fault of a wrong width, if there is one.
fn width_fault(alloc: Global, design: &Design) -> Result<Option<DesignFault>, AllocError>
    requires { IsClean design.now 3 }
    ensures { IfOk result (λ r. MatchOption r (IsClean design.now 4) (λ e. IsFault design.now e.kind e.name)) }
{
    item_fault(
        alloc,
        design,
        FaultKind::PortWidth,
        first_wrong_width(design),
    )
}

// The first fault of a cell or connect by itself.
fn part_fault(alloc: Global, design: &Design) -> Result<Option<DesignFault>, AllocError>
    ensures { IfOk result (λ r. MatchOption r (IsClean design.now 6) (λ e. IsFault design.now e.kind e.name)) }
{
    let unknown = cell_fault(alloc, design, FaultKind::UnknownCell)?;
    if let Some(fault) = unknown {
        return Ok(Some(fault));
    }
    let left_out = cell_fault(alloc, design, FaultKind::LeftOut)?;
    if let Some(fault) = left_out {
        return Ok(Some(fault));
    }
    let parameter = cell_fault(alloc, design, FaultKind::BadParameter)?;
    if let Some(fault) = parameter {
        return Ok(Some(fault));
    }
    let width = width_fault(alloc, design)?;
    if let Some(fault) = width {
        return Ok(Some(fault));
    }
    let limit = cell_fault(alloc, design, FaultKind::WidthLimit)?;
    if let Some(fault) = limit {
        return Ok(Some(fault));
    }
    let mixed = cell_fault(alloc, design, FaultKind::MixedSign)?;
    if let Some(fault) = mixed {
        return Ok(Some(fault));
    }
    Ok(None)
}

// The fault of two drivers, if there is one.
fn driver_fault(alloc: Global, design: &Design) -> Result<Option<DesignFault>, AllocError>
    requires shape { IsDesign design.now }
    requires clean { IsClean design.now 6 }
    ensures { IfOk result (λ r. MatchOption r (IsClean design.now 7) (λ e. IsFault design.now e.kind e.name)) }
{
    let first = first_driven_wrongly(alloc, design)?;
    bit_fault(alloc, design, FaultKind::TwoDrivers, first)
}

// The first register whose clock differs from that of the first register with a clock.
fn first_clock(design: &Design, leaders: &[usize]) -> Option<Item>
    requires { IsNets design.now leaders.now }
    ensures { MatchOption result ((p : Place) → Instance design.now FaultKind.MultiClock p → ⊥) (λ e. IsItem design.now e × IsFirst design.now (Instance design.now FaultKind.MultiClock) (Whole e)) }
{
    match first_multi_clock(design, leaders) {
        Some(place) => Some(Item::Cell(place)),
        None => None,
    }
}

// The fault of two clocks, if there is one.
fn clock_fault(
    alloc: Global,
    design: &Design,
    leaders: &[usize],
) -> Result<Option<DesignFault>, AllocError>
    requires nets { IsNets design.now leaders.now }
    requires clean { IsClean design.now 7 }
    ensures { IfOk result (λ r. MatchOption r (IsClean design.now 8) (λ e. IsFault design.now e.kind e.name)) }
{
    let first = first_clock(design, leaders);
    item_fault(alloc, design, FaultKind::MultiClock, first)
}

// The fault of two start digits, if there is one.
fn conflict_fault(
    alloc: Global,
    design: &Design,
    marks: &StartMarks,
) -> Result<Option<DesignFault>, AllocError>
    requires shape { IsDesign design.now }
    requires marks { IsStartMarks design.now marks.now.leaders.items marks.now.registers.items marks.now.low.items marks.now.high.items }
    requires clean { IsClean design.now 8 }
    ensures { IfOk result (λ r. MatchOption r (IsClean design.now 9) (λ e. IsFault design.now e.kind e.name)) }
{
    match first_conflict(design, marks) {
        Some((place, bit)) => {
            let kind = FaultKind::InitConflict;
            let name = driven_name(alloc, design, Item::Cell(place), bit)?;
            Ok(Some(DesignFault { kind, name }))
        }
        None => Ok(None),
    }
}

// The fault of a loop, if there is one.
fn loop_fault(
    alloc: Global,
    design: &Design,
    cyclic: &[bool],
) -> Result<Option<DesignFault>, AllocError>
    requires looped { IsLooped design.now cyclic.now }
    requires clean { IsClean design.now 9 }
    ensures { IfOk result (λ r. MatchOption r (IsClean design.now 10) (λ e. IsFault design.now e.kind e.name)) }
{
    let kind = FaultKind::Loop;
    if let Some(place) = first_cell_on_loop(design, cyclic) {
        let name = String::from_str(alloc, design.cells()[place].name())?;
        return Ok(Some(DesignFault { kind, name }));
    }
    match first_wire_on_loop(design, cyclic) {
        Some(wire) => {
            let name = String::from_str(alloc, design.wires()[wire].name())?;
            Ok(Some(DesignFault { kind, name }))
        }
        None => Ok(None),
    }
}

// What is kept of a design that has no fault.
#[derive(Drop)]
struct Found {
    order: Vec<Driver>,
    starts: Vec<Option<bool>>,
    kept: u128,
}

// What is kept of the design, or its first fault. In time and memory linear in the design.
fn examine(alloc: Global, design: &Design) -> Result<Result<Found, DesignFault>, AllocError>
    ensures { IfOk result (λ r. MatchResult r (λ f. IsFlat design.now × (IsOrder design.now f.order.items × (IsStarts design.now f.starts.items × (f.kept ≡ kept_bits design.now)))) (λ e. IsFault design.now e.kind e.name)) }
{
    let part = part_fault(alloc, design)?;
    if let Some(fault) = part {
        return Ok(Err(fault));
    }
    let kept = kept_bits(design);
    let driver = driver_fault(alloc, design)?;
    if let Some(fault) = driver {
        return Ok(Err(fault));
    }
    let leaders = net_leaders(alloc, design)?;
    let clock = clock_fault(alloc, design, leaders.as_slice())?;
    if let Some(fault) = clock {
        return Ok(Err(fault));
    }
    let marks = start_marks(alloc, design, leaders)?;
    let conflict = conflict_fault(alloc, design, &marks)?;
    if let Some(fault) = conflict {
        return Ok(Err(fault));
    }
    let sorted = sorted_rests(alloc, design)?;
    let looped = loop_fault(alloc, design, sorted.cyclic.as_slice())?;
    if let Some(fault) = looped {
        return Ok(Err(fault));
    }
    let order = order_of(alloc, design, &sorted)?;
    let starts = starts_of(alloc, design, &marks)?;
    Ok(Ok(Found {
        order,
        starts,
        kept,
    }))
}

/// The flat design, or its fault: of the first kind that has an instance, at the first instance in file order. A design
/// that is refused is dropped. The outer error is out of memory alone.
pub fn check(alloc: Global, design: Design) -> Result<Result<Flat, DesignFault>, AllocError>
    ensures { IfOk result (λ r. MatchResult r (λ f. (f ≡ design) × IsFlat design) (λ e. IsFault design e.kind e.name)) }
{
    let found = examine(alloc, &design)?;
    match found {
        Err(fault) => Ok(Err(fault)),
        Ok(found) => Ok(Ok(Flat::new(design, found.order, found.starts, found.kept))),
    }
}
