//! Loops of cells and connects within a cycle.

ghost use Rattle.std.specs.Prelude.{◌≡◌, ◌↔◌, ◌<◌, ℕ, IsTrue, None, Some, IfOk, MatchOption, length};
ghost use Rattle.digraph.specs.Graph.{Graph, IsSorted};
ghost use Rattle.design_core.specs.Shape.{IsDesign};
ghost use Rattle.design_graph.specs.Edges.{IsLooped, IsRestGraph, IsWireOnLoop};
ghost use Rattle.design_graph.specs.Order.{IsCellOnLoop};

use crate::edges::rest_graph;
use design_core::design::Design;
use digraph::{Sorted, sort};
use std::alloc::{AllocError, Global};

/// The bits and the cells, sorted by what rests on what.
pub fn sorted_rests(alloc: Global, design: &Design) -> Result<Sorted, AllocError>
    requires { IsDesign design.now }
    ensures looped { IfOk result (λ s. IsLooped design.now s.cyclic.items) }
    ensures sorted { IfOk result (λ s. (g : Graph) × IsRestGraph design.now g × IsSorted g s.order.items s.cyclic.items s.leaders.items) }
{
    let graph = rest_graph(alloc, design)?;
    let sorted = sort(alloc, graph.as_slice())?;
    Ok(sorted)
}

/// The first cell that is on a loop.
pub fn first_cell_on_loop(design: &Design, cyclic: &[bool]) -> Option<usize>
    requires { IsLooped design.now cyclic.now }
    ensures { MatchOption result ((i : ℕ) → IsCellOnLoop design.now i → ⊥) (λ r. IsCellOnLoop design.now r × ((i : ℕ) → i < r → IsCellOnLoop design.now i → ⊥)) }
{
    let before = design.places();
    for place in 0..design.cells().len() {
        if cyclic[before + place] {
            return Some(place);
        }
    }
    None
}

// Whether some bit of the wire is on a loop.
fn is_wire_on_loop(design: &Design, cyclic: &[bool], wire: usize) -> bool
    requires looped { IsLooped design.now cyclic.now }
    requires wire { wire < length design.now.wires }
    ensures { IsTrue result ↔ IsWireOnLoop design.now wire }
{
    let wires = design.wires();
    let first = design.offset(wire as u32) as usize;
    let width = wires[wire].width() as usize;
    for bit in 0..width {
        if cyclic[first + bit] {
            return true;
        }
    }
    false
}

/// The first wire that has a bit on a loop.
pub fn first_wire_on_loop(design: &Design, cyclic: &[bool]) -> Option<usize>
    requires { IsLooped design.now cyclic.now }
    ensures { MatchOption result ((w : ℕ) → IsWireOnLoop design.now w → ⊥) (λ r. IsWireOnLoop design.now r × ((w : ℕ) → w < r → IsWireOnLoop design.now w → ⊥)) }
{
    for wire in 0..design.wires().len() {
        if is_wire_on_loop(design, cyclic, wire) {
            return Some(wire);
        }
    }
    None
}
