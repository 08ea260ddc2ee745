// A design's bits as nodes of graphs.

ghost use Rattle.std.specs.Prelude.{◌≡◌, ◌+◌, ◌≤◌, ◌<◌, ℕ, All, IfOk, OnOk, cond, length};
ghost use Rattle.digraph.specs.Graph.{Extends};
ghost use Rattle.design_core.specs.Places.{places};
ghost use Rattle.design_core.specs.Shape.{IsCellOf, IsConnectOf, IsDeclared, IsDesign, IsNumbered};
ghost use Rattle.design_signals.specs.Chunks.{IsChunk, bits_of};
ghost use Rattle.design_graph.specs.Edges.{IsCellEdge, IsCellsEdge, IsDigitPlace, IsDown, IsNetGraph, IsPair, IsPlaceIn, IsPortPlace, IsResetPlace, IsRestGraph, IsUp};

use design_core::cell::Cell;
use design_core::connect::Connect;
use design_core::design::Design;
use design_core::digit::{Constant, Digit};
use design_core::names::ParameterName;
use design_core::table::{Role, ports_read, role_of};
use design_signals::bits::Bits;
use design_signals::chunk::Chunk;
use design_signals::sig_bit::SigBit;
use digraph::{add_edge, without_edges};
use std::alloc::{AllocError, Global};

// Adds an edge from each bit of a signal to the bit beside it in another.
fn add_pairs(
    design: &Design,
    from: &[Chunk],
    to: &[Chunk],
    graph: &mut [Vec<usize>],
) -> Result<(), AllocError>
    requires from { All (IsDeclared design.now.wires design.now.free) (bits_of from.now) }
    requires from_chunks { All IsChunk from.now }
    requires to { All (IsDeclared design.now.wires design.now.free) (bits_of to.now) }
    requires to_chunks { All IsChunk to.now }
    requires nodes { places design.now ≤ length graph.old }
    ensures { OnOk result (Extends graph.old (IsPair design.now (bits_of from.now) (bits_of to.now)) graph.new) }
{
    let mut starts = Bits::new(from);
    let mut ends = Bits::new(to);
    'bits: while let Some(start) = starts.next() {
        let Some(end) = ends.next() else {
            return Ok(());
        };
        add_edge(graph, design.place(start), design.place(end))?;
    }
    Ok(())
}

// Adds an edge from each bit of one side of a connect to the bit beside it in the other: down from what it drives, or up to it.
fn add_connect(
    design: &Design,
    connect: &Connect,
    up: bool,
    graph: &mut [Vec<usize>],
) -> Result<(), AllocError>
    requires connect { IsConnectOf design.now.wires design.now.free connect.now }
    requires nodes { places design.now ≤ length graph.old }
    ensures { OnOk result (Extends graph.old (IsPair design.now (cond up connect.now.right connect.now.left) (cond up connect.now.left connect.now.right)) graph.new) }
{
    if up {
        add_pairs(design, connect.right(), connect.left(), graph)
    } else {
        add_pairs(design, connect.left(), connect.right(), graph)
    }
}

// Adds the edges of each connect.
fn add_connects(design: &Design, up: bool, graph: &mut [Vec<usize>]) -> Result<(), AllocError>
    requires nodes { places design.now ≤ length graph.old }
    ensures { OnOk result (Extends graph.old (cond up (IsUp design.now design.now.connects) (IsDown design.now design.now.connects)) graph.new) }
{
    let connects = design.connects();
    for place in 0..connects.len() {
        add_connect(design, &connects[place], up, graph)?;
    }
    Ok(())
}

/// Adds an edge from what each connect drives to what it drives it from.
pub fn add_down(design: &Design, graph: &mut [Vec<usize>]) -> Result<(), AllocError>
    requires nodes { places design.now ≤ length graph.old }
    ensures { OnOk result (Extends graph.old (IsDown design.now design.now.connects) graph.new) }
{
    add_connects(design, false, graph)
}

// Adds the same edges the other way.
fn add_up(design: &Design, graph: &mut [Vec<usize>]) -> Result<(), AllocError>
    requires nodes { places design.now ≤ length graph.old }
    ensures { OnOk result (Extends graph.old (IsUp design.now design.now.connects) graph.new) }
{
    add_connects(design, true, graph)
}

// The graph of what connects join.
pub(super) fn net_graph(alloc: Global, design: &Design) -> Result<Vec<Vec<usize>>, AllocError>
    ensures { IfOk result (λ g. IsNetGraph design.now g.items) }
{
    let mut graph = without_edges(alloc, design.places())?;
    let rows = graph.as_mut_slice();
    add_down(design, rows)?;
    add_up(design, rows)?;
    Ok(graph)
}

// Adds an edge from each bit to a cell's node.
fn add_to(
    design: &Design,
    bits: &[Chunk],
    node: usize,
    graph: &mut [Vec<usize>],
) -> Result<(), AllocError>
    requires bits { All (IsDeclared design.now.wires design.now.free) (bits_of bits.now) }
    requires chunks { All IsChunk bits.now }
    requires nodes { places design.now ≤ length graph.old }
    ensures { OnOk result (Extends graph.old (λ p q. IsPlaceIn design.now (bits_of bits.now) p × (q ≡ node)) graph.new) }
{
    let mut left = Bits::new(bits);
    'bits: while let Some(bit) = left.next() {
        add_edge(graph, design.place(bit), node)?;
    }
    Ok(())
}

// Adds an edge from a cell's node to each bit.
fn add_from(
    design: &Design,
    node: usize,
    bits: &[Chunk],
    graph: &mut [Vec<usize>],
) -> Result<(), AllocError>
    requires bits { All (IsDeclared design.now.wires design.now.free) (bits_of bits.now) }
    requires chunks { All IsChunk bits.now }
    requires node { node < length graph.old }
    ensures { OnOk result (Extends graph.old (λ p q. (p ≡ node) × IsPlaceIn design.now (bits_of bits.now) q) graph.new) }
{
    let mut left = Bits::new(bits);
    'bits: while let Some(bit) = left.next() {
        add_edge(graph, node, design.place(bit))?;
    }
    Ok(())
}

// Adds an edge from a cell's node to each bit of the ports on which its output rests.
fn add_ports(
    design: &Design,
    cell: &Cell,
    node: usize,
    graph: &mut [Vec<usize>],
) -> Result<(), AllocError>
    requires cell { IsCellOf design.now.wires design.now.free cell.now }
    requires node { node < length graph.old }
    ensures { OnOk result (Extends graph.old (λ p q. (p ≡ node) × IsPortPlace design.now cell.now q) graph.new) }
{
    let names = ports_read(cell.kind());
    for place in 0..names.len() {
        add_from(design, node, cell.signal(names[place]), graph)?;
    }
    Ok(())
}

// Adds an edge from a cell's node to each free bit of a constant.
fn add_digits(
    design: &Design,
    constant: &Constant,
    node: usize,
    graph: &mut [Vec<usize>],
) -> Result<(), AllocError>
    requires digits { All (IsNumbered design.now.free) constant.now }
    requires node { node < length graph.old }
    ensures { OnOk result (Extends graph.old (λ p q. (p ≡ node) × IsDigitPlace design.now constant.now q) graph.new) }
{
    for place in 0..constant.len() {
        if let Digit::Free(number) = constant.digit(place) {
            add_edge(graph, node, design.place(SigBit::Free(number)))?;
        }
    }
    Ok(())
}

// Adds an edge from a cell's node to each free bit of the value to which an asynchronous reset sets its output.
fn add_reset(
    design: &Design,
    cell: &Cell,
    node: usize,
    graph: &mut [Vec<usize>],
) -> Result<(), AllocError>
    requires cell { IsCellOf design.now.wires design.now.free cell.now }
    requires node { node < length graph.old }
    ensures { OnOk result (Extends graph.old (λ p q. (p ≡ node) × IsResetPlace design.now cell.now q) graph.new) }
{
    let Role::AsyncResetRegister = role_of(cell.kind()) else {
        return Ok(());
    };
    match cell.parameter(ParameterName::ArstValue) {
        Some(constant) => {
            add_digits(design, constant, node, graph)?;
            Ok(())
        }
        None => Ok(()),
    }
}

// Adds the edges of a cell.
fn add_cell(
    design: &Design,
    cell: &Cell,
    node: usize,
    graph: &mut [Vec<usize>],
) -> Result<(), AllocError>
    requires cell { IsCellOf design.now.wires design.now.free cell.now }
    requires nodes { places design.now ≤ length graph.old }
    requires node { node < length graph.old }
    ensures { OnOk result (Extends graph.old (IsCellEdge design.now cell.now node) graph.new) }
{
    add_to(design, cell.output(), node, graph)?;
    add_ports(design, cell, node, graph)?;
    add_reset(design, cell, node, graph)?;
    Ok(())
}

// Adds the edges of all cells, whose nodes stand after the places of bits.
fn add_cells(design: &Design, graph: &mut [Vec<usize>]) -> Result<(), AllocError>
    requires { length graph.old ≡ places design.now + length design.now.cells }
    ensures { OnOk result (Extends graph.old (IsCellsEdge design.now design.now.cells) graph.new) }
{
    let cells = design.cells();
    let before = design.places();
    for place in 0..cells.len() {
        add_cell(design, &cells[place], before + place, graph)?;
    }
    Ok(())
}

// The graph of what rests on what.
pub(super) fn rest_graph(alloc: Global, design: &Design) -> Result<Vec<Vec<usize>>, AllocError>
    ensures { IfOk result (λ g. IsRestGraph design.now g.items) }
{
    let mut graph = without_edges(alloc, design.places() + design.cells().len())?;
    let rows = graph.as_mut_slice();
    add_down(design, rows)?;
    add_cells(design, rows)?;
    Ok(graph)
}
