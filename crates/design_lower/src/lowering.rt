// Lowers the registers with an asynchronous reset.

ghost use Rattle.std.specs.Prelude.{◌≡◌, ◌+◌, ◌<◌, ◌≤◌, ◌^◌, ◌++◌, ◌∷◌, ◌↔◌, [], ℕ, Bool, All, true, false, length, IfNone, IfOk, IfSome, OnOk};
ghost use Rattle.std.specs.List.{sum_by};
ghost use Rattle.design_core.specs.Asked.{number_at};
ghost use Rattle.design_core.specs.Shape.{CellOf, IsCellOf, IsDeclared, IsDesign, IsWire};
ghost use Rattle.design_meaning.specs.Meaning.{IsCell, IsStart};
ghost use Rattle.design_lower.specs.Lowering.{FitsReset, HasDigit, IsLowered, kept_name};
ghost use Rattle.design_lower.specs.Passing.{IsPassing};
ghost use Rattle.design_lower.specs.Progress.{IsEnds, IsFreeSoon, IsNames, has};
ghost use Rattle.design_lower.specs.Room.{HasRoom};

use crate::copies::{copy_cell, copy_signal, copy_wire};
use crate::fits::fits;
use crate::names::{Names, design_names, free_name};
use crate::parts::{KeptWire, register, shown};
use crate::room::has_room;
use crate::starts::{digit_ends, kept_inits};
use design_core::cell::Cell;
use design_core::connect::Connect;
use design_core::design::Design;
use design_core::names::ParameterName;
use design_core::wire::Wire;
use design_graph::drivers::next_item;
use design_graph::item::Item;
use std::alloc::{AllocError, Global};

// What is known of the design that is lowered: its names, and by places where the chains of bits with a start digit 0, or 1, end.
#[derive(Drop)]
struct Known<'a> {
    names: Names<'a>,
    zeros: Vec<bool>,
    ones: Vec<bool>,
}

// What is known of a design.
fn learn(alloc: Global, design: &Design) -> Result<Known, AllocError>
    requires { IsDesign design.now }
    ensures names { IfOk result (λ k. IsNames design.now k.names) }
    ensures zeros { IfOk result (λ k. IsEnds design.now false k.zeros.items) }
    ensures ones { IfOk result (λ k. IsEnds design.now true k.ones.items) }
{
    let names = design_names(alloc, design)?;
    let zeros = digit_ends(alloc, design, false)?;
    let ones = digit_ends(alloc, design, true)?;
    Ok(Known { names, zeros, ones })
}

// Adds copies of wires.
fn copy_wires(alloc: Global, wires: &[Wire], low: &mut Design) -> Result<(), AllocError>
    requires none { low.old.wires ≡ [] }
    requires wires { All IsWire wires.now }
    requires room { sum_by (λ w. w.width) wires.now + low.old.free ≤ 2 ^ 21 }
    ensures { OnOk result (low.new ≡ record low.old { wires = wires.now }) }
{
    for place in 0..wires.len() {
        low.push_wire(copy_wire(alloc, &wires[place])?)?;
    }
    Ok(())
}

// A design with the bits of another, and nothing else.
fn copy_bits(alloc: Global, design: &Design) -> Result<Design, AllocError>
    requires { IsDesign design.now }
    ensures { IfOk result (λ low. low ≡ record design.now { cells = []; connects = [] }) }
{
    let name = String::from_str(alloc, design.name())?;
    let mut low = Design::new(alloc, name);
    low.number_free(design.free());
    copy_wires(alloc, design.wires(), &mut low)?;
    Ok(low)
}

// A register's WIDTH.
fn register_width(cell: &Cell) -> u32
    requires fits { FitsReset cell.now }
    requires room { number_at cell.now.parameters ParameterName.Width ≤ 2 ^ 21 }
    ensures { number_at cell.now.parameters ParameterName.Width ≡ result }
{
    match cell.number(ParameterName::Width) {
        Some(width) => width as u32,
        None => 0,
    }
}

// The new wire of the cell at a place, and the number in its name.
fn kept_wire(
    alloc: Global,
    design: &Design,
    known: &Known,
    place: usize,
    width: u32,
    from: u64,
) -> Result<(u64, Wire), AllocError>
    requires shape { IsDesign design.now }
    requires names { IsNames design.now known.now.names }
    requires zeros { IsEnds design.now false known.now.zeros.items }
    requires ones { IsEnds design.now true known.now.ones.items }
    requires place { place < length design.now.cells }
    requires free { IsFreeSoon known.now.names from }
    requires fits { (c : CellOf) → IsCell design.now place c → FitsReset c × (number_at c.parameters ParameterName.Width ≡ width) }
    ensures number { IfOk result (λ r. (from ≤ r.0) × (r.0 < 2 ^ 32) × ((k : ℕ) → from ≤ k → k < r.0 → has known.now.names (kept_name k) ≡ true)) }
    ensures name { IfOk result (λ r. (r.1.name ≡ kept_name r.0) × (has known.now.names (kept_name r.0) ≡ false)) }
    ensures wire { IfOk result (λ r. IsWire r.1 × (r.1.input ≡ false) × ((c : CellOf) → IsCell design.now place c → r.1.width ≡ number_at c.parameters ParameterName.Width)) }
    ensures digits { IfOk result (λ r. (k : ℕ) (x : Bool) → HasDigit r.1 k x ↔ IsStart design.now place k x) }
{
    let cell = &design.cells()[place];
    let (number, name) = free_name(alloc, &known.names, from)?;
    let inits = kept_inits(
        alloc,
        design,
        cell,
        known.zeros.as_slice(),
        known.ones.as_slice(),
    )?;
    Ok((number, Wire::new(name, width, false, inits)))
}

// Lowers the cell at a place, and gives the number from which the next one's is free.
fn lower_cell(
    alloc: Global,
    design: &Design,
    known: &Known,
    place: usize,
    number: u64,
    low: &mut Design,
    muxes: &mut Vec<Cell>,
) -> Result<u64, AllocError>
    requires shape { IsDesign design.now }
    requires names { IsNames design.now known.now.names }
    requires zeros { IsEnds design.now false known.now.zeros.items }
    requires ones { IsEnds design.now true known.now.ones.items }
    requires place { place < length design.now.cells }
    requires fits { (c : CellOf) → IsCell design.now place c → FitsReset c }
    requires room { HasRoom design.now }
    requires passing { IsPassing design.now place low.old muxes.old.items number }
    ensures passing { IfOk result (λ n. IsPassing design.now (place + 1) low.new muxes.new.items n) }
    ensures connects { OnOk result (low.new.connects ≡ low.old.connects) }
{
    let cell = &design.cells()[place];
    let width = register_width(cell);
    let (number, wire) = kept_wire(alloc, design, known, place, width, number)?;
    let kept = KeptWire {
        wire: low.wires().len() as u32,
        width,
    };
    low.push_wire(wire)?;
    low.push_cell(register(alloc, cell, kept)?)?;
    muxes.push(shown(alloc, cell, kept)?)?;
    Ok(number + 1)
}

// Lowers or copies the cell at a place, and gives the number from which the next one's is free.
fn pass_cell(
    alloc: Global,
    design: &Design,
    known: &Known,
    place: usize,
    number: u64,
    low: &mut Design,
    muxes: &mut Vec<Cell>,
) -> Result<u64, AllocError>
    requires shape { IsDesign design.now }
    requires names { IsNames design.now known.now.names }
    requires zeros { IsEnds design.now false known.now.zeros.items }
    requires ones { IsEnds design.now true known.now.ones.items }
    requires place { place < length design.now.cells }
    requires room { HasRoom design.now }
    requires passing { IsPassing design.now place low.old muxes.old.items number }
    ensures passing { IfOk result (λ n. IsPassing design.now (place + 1) low.new muxes.new.items n) }
    ensures connects { OnOk result (low.new.connects ≡ low.old.connects) }
{
    let cell = &design.cells()[place];
    if fits(cell) {
        lower_cell(alloc, design, known, place, number, low, muxes)
    } else {
        low.push_cell(copy_cell(alloc, cell)?)?;
        Ok(number)
    }
}

// Adds a copy of a connect.
fn copy_connect(alloc: Global, connect: &Connect, low: &mut Design) -> Result<(), AllocError>
    requires left { All (IsDeclared low.old.wires low.old.free) connect.now.left }
    requires right { All (IsDeclared low.old.wires low.old.free) connect.now.right }
    requires few { length low.old.connects < 2 ^ 26 }
    requires order { connect.now.cells_before ≡ length low.old.cells }
    ensures { OnOk result (low.new ≡ record low.old { connects = low.old.connects ++ connect.now ∷ [] }) }
{
    let left = copy_signal(alloc, connect.left())?;
    let right = copy_signal(alloc, connect.right())?;
    low.push_connect(left, right)?;
    Ok(())
}

// Lowers or copies all cells, and copies the connects, each after as many cells as before.
fn pass_items(
    alloc: Global,
    design: &Design,
    known: &Known,
    low: &mut Design,
    muxes: &mut Vec<Cell>,
) -> Result<(), AllocError>
    requires shape { IsDesign design.now }
    requires names { IsNames design.now known.now.names }
    requires zeros { IsEnds design.now false known.now.zeros.items }
    requires ones { IsEnds design.now true known.now.ones.items }
    requires room { HasRoom design.now }
    requires low { low.old ≡ record design.now { cells = []; connects = [] } }
    requires muxes { muxes.old.items ≡ [] }
    ensures passing { OnOk result ((number : ℕ) × IsPassing design.now (length design.now.cells) low.new muxes.new.items number) }
    ensures connects { OnOk result (low.new.connects ≡ design.now.connects) }
{
    let mut number = 0;
    let mut cells = 0;
    let mut connects = 0;
    'items: while let Some(item) = next_item(design, cells, connects) {
        match item {
            Item::Cell(place) => {
                number = pass_cell(alloc, design, known, place, number, low, muxes)?;
                cells = place + 1;
            }
            Item::Connect(place) => {
                copy_connect(alloc, &design.connects()[place], low)?;
                connects = place + 1;
            }
        }
    }
    Ok(())
}

// Adds these cells after the others.
fn add_cells(low: &mut Design, cells: Vec<Cell>) -> Result<(), AllocError>
    requires cells { All (IsCellOf low.old.wires low.old.free) cells.items }
    requires few { length low.old.cells + length cells.items ≤ 2 ^ 27 }
    ensures { OnOk result (low.new ≡ record low.old { cells = low.old.cells ++ cells.items }) }
{
    let mut rest = cells;
    rest.reverse();
    'cells: while let Some(cell) = rest.pop() {
        low.push_cell(cell)?;
    }
    Ok(())
}

// Lowers a design that has room for it.
fn lower_all(alloc: Global, design: &Design) -> Result<Design, AllocError>
    requires shape { IsDesign design.now }
    requires room { HasRoom design.now }
    ensures { IfOk result (λ low. IsLowered design.now low) }
{
    let mut low = copy_bits(alloc, design)?;
    let known = learn(alloc, design)?;
    let mut muxes = Vec::new(alloc);
    pass_items(alloc, design, &known, &mut low, &mut muxes)?;
    add_cells(&mut low, muxes)?;
    Ok(low)
}

/// The design with each register that has an asynchronous reset, and fits its line of the table, lowered to one without; other cells
/// stay. A lowered design has no more to say than the design: its runs are the design's, and so are its claims.
///
/// None exactly where the lowered design, with as many bits more as these registers have and as many cells more as they are, would be
/// past the limits of a design: 2^21 bits and 2^27 cells. An error where memory runs out.
pub fn lower(alloc: Global, design: &Design) -> Result<Option<Design>, AllocError>
    ensures some { IfOk result (λ low. IfSome low (λ e. HasRoom design.now × IsLowered design.now e)) }
    ensures none { IfOk result (λ low. IfNone low (HasRoom design.now → ⊥)) }
{
    if !has_room(design) {
        return Ok(None);
    }
    let low = lower_all(alloc, design)?;
    Ok(Some(low))
}
