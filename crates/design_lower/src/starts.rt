// Where the chains of bits with a start digit end.

ghost use Rattle.std.specs.Prelude.{◌≡◌, ◌+◌, ◌≤◌, ◌<◌, ℕ, Bool, All, IfOk, OnOk, List, Some, Option, IsTrue, ◌↔◌, Contains, length, slice_get, true, false, cond, None};
ghost use Rattle.design_signals.specs.declared.sig_bit.SigBit.{SigBit};
ghost use Rattle.digraph.specs.Graph.{Extends};
ghost use Rattle.design_core.specs.Asked.{output_of};
ghost use Rattle.design_core.specs.Places.{offset, places};
ghost use Rattle.design_core.specs.Shape.{IsCellOf, IsDesign};
ghost use Rattle.design_meaning.specs.Meaning.{IsInit};
ghost use Rattle.design_lower.specs.Progress.{IsDigitEnd, IsDigitsOf, IsEndGraph, IsEnds, IsLedWith};

use design_core::cell::Cell;
use design_core::design::Design;
use design_core::wire::StartDigits;
use design_graph::edges::add_down;
use design_signals::bits::Bits;
use digraph::{add_edge, sort, without_edges};
use std::alloc::{AllocError, Global};

// Whether the start digit is this one.
fn is_digit(start: Option<bool>, digit: bool) -> bool
    ensures { IsTrue result ↔ (start ≡ Some digit) }
{
    match start {
        Some(true) => digit,
        Some(false) => !digit,
        None => false,
    }
}

// Adds an edge from the root to each bit of a wire to which an attribute gives the digit.
fn add_init(
    first: usize,
    digits: &[Option<bool>],
    digit: bool,
    root: usize,
    graph: &mut [Vec<usize>],
) -> Result<(), AllocError>
    requires wire { (b : ℕ) → b < length digits.now → first + b < root }
    requires root { root < length graph.old }
    ensures { OnOk result (Extends graph.old (λ p q. (p ≡ root) × ((b : ℕ) × (slice_get digits.now b ≡ Some (Some digit)) × (q ≡ first + b))) graph.new) }
{
    for bit in 0..digits.len() {
        if is_digit(digits[bit], digit) {
            add_edge(graph, root, first + bit)?;
        }
    }
    Ok(())
}

// Adds an edge from the root to each bit of a wire that has the digit.
fn add_wire(
    design: &Design,
    wire: usize,
    digit: bool,
    root: usize,
    graph: &mut [Vec<usize>],
) -> Result<(), AllocError>
    requires wire { wire < length design.now.wires }
    requires places { places design.now ≤ root }
    requires root { root < length graph.old }
    ensures { OnOk result (Extends graph.old (λ p q. (p ≡ root) × ((b : ℕ) × IsInit design.now wire b digit × (q ≡ offset design.now wire + b))) graph.new) }
{
    let wires = design.wires();
    let first = design.offset(wire as u32) as usize;
    let inits = wires[wire].inits();
    for place in 0..inits.len() {
        add_init(first, inits[place].as_slice(), digit, root, graph)?;
    }
    Ok(())
}

// Adds an edge from the root to each bit that has the digit.
fn add_inits(
    design: &Design,
    digit: bool,
    root: usize,
    graph: &mut [Vec<usize>],
) -> Result<(), AllocError>
    requires places { places design.now ≤ root }
    requires root { root < length graph.old }
    ensures { OnOk result (Extends graph.old (λ p q. (p ≡ root) × ((w : ℕ) × (b : ℕ) × IsInit design.now w b digit × (q ≡ offset design.now w + b))) graph.new) }
{
    for wire in 0..design.wires().len() {
        add_wire(design, wire, digit, root, graph)?;
    }
    Ok(())
}

// Adds an edge from each node below the root to the root.
fn add_back(root: usize, graph: &mut [Vec<usize>]) -> Result<(), AllocError>
    requires { root < length graph.old }
    ensures { OnOk result (Extends graph.old (λ p q. (p < root) × (q ≡ root)) graph.new) }
{
    for place in 0..root {
        add_edge(graph, place, root)?;
    }
    Ok(())
}

// The graph of connects with one node more, from which edges lead to the bits with the digit, and to which edges lead from all bits.
fn end_graph(alloc: Global, design: &Design, digit: bool) -> Result<Vec<Vec<usize>>, AllocError>
    ensures { IfOk result (λ g. IsEndGraph design.now digit g.items) }
{
    let root = design.places();
    let mut graph = without_edges(alloc, root + 1)?;
    let rows = graph.as_mut_slice();
    add_down(design, rows)?;
    add_inits(design, digit, root, rows)?;
    add_back(root, rows)?;
    Ok(graph)
}

// Which nodes below the root have its leader.
fn led_with(alloc: Global, leaders: &[usize], root: usize) -> Result<Vec<bool>, AllocError>
    requires { root < length leaders.now }
    ensures { IfOk result (λ marks. IsLedWith leaders.now root root marks.items) }
{
    let mut marks = Vec::new(alloc);
    for place in 0..root {
        marks.push(leaders[place] == leaders[root])?;
    }
    Ok(marks)
}

/// Marks the bits at which the chain of connects of a bit with the start digit ends.
pub(crate) fn digit_ends(
    alloc: Global,
    design: &Design,
    digit: bool,
) -> Result<Vec<bool>, AllocError>
    requires { IsDesign design.now }
    ensures { IfOk result (λ marks. IsEnds design.now digit marks.items) }
{
    let graph = end_graph(alloc, design, digit)?;
    let sorted = sort(alloc, graph.as_slice())?;
    Ok(led_with(alloc, sorted.leaders.as_slice(), design.places())?)
}

fn digit_if(here: bool, digit: bool) -> Option<bool>
    ensures { result ≡ cond here (Some digit) None }
{
    if here { Some(digit) } else { None }
}

// The digit, beside each of the cell's output bits that is such an end.
fn end_digits(
    alloc: Global,
    design: &Design,
    cell: &Cell,
    ends: &[bool],
    digit: bool,
) -> Result<StartDigits, AllocError>
    requires cell { IsCellOf design.now.wires design.now.free cell.now }
    requires ends { IsEnds design.now digit ends.now }
    ensures { IfOk result (λ digits. IsDigitsOf design.now digit (output_of cell.now) digits) }
{
    let mut digits = Vec::new(alloc);
    let mut left = Bits::new(cell.output());
    'bits: while let Some(bit) = left.next() {
        digits.push(digit_if(ends[design.place(bit)], digit))?;
    }
    Ok(StartDigits::new(digits))
}

/// The start digits of the row that a cell keeps: those 0, and those 1.
pub(crate) fn kept_inits(
    alloc: Global,
    design: &Design,
    cell: &Cell,
    zeros: &[bool],
    ones: &[bool],
) -> Result<Vec<StartDigits>, AllocError>
    requires cell { IsCellOf design.now.wires design.now.free cell.now }
    requires zeros { IsEnds design.now false zeros.now }
    requires ones { IsEnds design.now true ones.now }
    ensures short { IfOk result (λ inits. All (λ digits. length digits ≤ length (output_of cell.now)) inits.items) }
    ensures digits { IfOk result (λ inits. (k : ℕ) (x : Bool)
        → ((digits : List (Option Bool)) × Contains inits.items digits × (slice_get digits k ≡ Some (Some x))) ↔ ((a : SigBit) × (slice_get (output_of cell.now) k ≡ Some a) × IsDigitEnd design.now x a)) }
{
    let mut inits = Vec::new(alloc);
    inits.push(end_digits(alloc, design, cell, zeros, false)?)?;
    inits.push(end_digits(alloc, design, cell, ones, true)?)?;
    Ok(inits)
}
