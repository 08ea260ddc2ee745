//! The nets that connects make of bits.

ghost use Rattle.std.specs.Prelude.{IfOk, ◌↔◌, IsTrue};
ghost use Rattle.design_core.specs.Shape.{IsDeclared, IsDesign};
ghost use Rattle.design_graph.specs.Edges.{IsNets, IsOneNet};
ghost use Rattle.design_graph.specs.Items.{IsDrivenOnce};

use crate::edges::net_graph;
use design_core::design::Design;
use design_signals::sig_bit::SigBit;
use digraph::sort;
use std::alloc::{AllocError, Global};

/// A number for each place of a design's bits, the same for two bits where they are of one net.
pub fn net_leaders(alloc: Global, design: &Design) -> Result<Vec<usize>, AllocError>
    requires once { IsDrivenOnce design.now }
    requires shape { IsDesign design.now }
    ensures { IfOk result (λ leaders. IsNets design.now leaders.items) }
{
    let graph = net_graph(alloc, design)?;
    let sorted = sort(alloc, graph.as_slice())?;
    Ok(sorted.leaders)
}

/// Whether two bits are of one net.
pub fn is_one_net(design: &Design, leaders: &[usize], left: SigBit, right: SigBit) -> bool
    requires nets { IsNets design.now leaders.now }
    requires left { IsDeclared design.now.wires design.now.free left }
    requires right { IsDeclared design.now.wires design.now.free right }
    ensures { IsTrue result ↔ IsOneNet design.now left right }
{
    leaders[design.place(left)] == leaders[design.place(right)]
}
