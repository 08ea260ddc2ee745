//! An order of the drivers within a cycle, from that of their nodes.

ghost use Rattle.std.specs.Prelude.{◌≡◌, ◌+◌, ◌<◌, ◌++◌, ℕ, None, Some, true, IfOk, OnOk, length, slice_get, replicate};
ghost use Rattle.std.specs.Option.{option_to_list};
ghost use Rattle.digraph.specs.Graph.{Graph, IsSorted};
ghost use Rattle.design_core.specs.Shape.{IsDesign};
ghost use Rattle.design_core.specs.Table.{role_of};
ghost use Rattle.design_meaning.specs.Rests.{IsOnLoop};
ghost use Rattle.design_signals.specs.declared.sig_bit.SigBit.{SigBit};
ghost use Rattle.design_graph.specs.Edges.{IsDriverTable, IsEmitted, IsRestGraph, IsTableUpto};
ghost use Rattle.design_graph.specs.Items.{IsDrivenOnce};
ghost use Rattle.design_graph.specs.Order.{IsCellOnLoop, IsOrder, is_in_cycle};

use crate::driver::Driver;
use cell_table::kind::Kind;
use design_core::design::Design;
use design_core::table::{Role, role_of};
use design_signals::bits::push_bits;
use digraph::Sorted;
use std::alloc::{AllocError, Global};

/// Whether the output of a cell of this type follows from bits of the same cycle.
pub fn is_in_cycle(kind: Kind) -> bool
    ensures { result ≡ is_in_cycle (role_of kind) }
{
    matches!(
        role_of(kind),
        Role::Combinational | Role::AsyncResetRegister
    )
}

// A table without drivers.
fn no_drivers(alloc: Global, count: usize) -> Result<Vec<Option<Driver>>, AllocError>
    ensures { IfOk result (λ table. table.items ≡ replicate count None) }
{
    Ok(vec![in alloc; None; count]?)
}

// Puts each cell that drives within the cycle at its node.
fn put_cells(design: &Design, table: &mut [Option<Driver>])
    requires once { IsDrivenOnce design.now }
    requires table { IsTableUpto design.now 0 0 0 table.old }
    ensures { IsTableUpto design.now (length design.now.cells) 0 0 table.new }
{
    let cells = design.cells();
    let before = design.places();
    for place in 0..cells.len() {
        if is_in_cycle(cells[place].kind()) {
            table[before + place] = Some(Driver::Cell(place));
        }
    }
}

// Puts each bit of a connect at its node.
fn put_connect(
    alloc: Global,
    design: &Design,
    place: usize,
    table: &mut [Option<Driver>],
) -> Result<(), AllocError>
    requires once { IsDrivenOnce design.now }
    requires place { place < length design.now.connects }
    requires table { IsTableUpto design.now (length design.now.cells) place 0 table.old }
    ensures { OnOk result (IsTableUpto design.now (length design.now.cells) (place + 1) 0 table.new) }
{
    let connects = design.connects();
    let mut left = Vec::new(alloc);
    push_bits(&mut left, connects[place].left())?;
    for bit in 0..left.len() {
        table[design.place(left[bit])] = Some(Driver::Connect(place, bit));
    }
    Ok(())
}

// Each driver at its node.
fn driver_table(alloc: Global, design: &Design) -> Result<Vec<Option<Driver>>, AllocError>
    requires { IsDrivenOnce design.now }
    ensures { IfOk result (λ table. IsDriverTable design.now table.items) }
{
    let mut table = no_drivers(alloc, design.places() + design.cells().len())?;
    let entries = table.as_mut_slice();
    put_cells(design, entries);
    for place in 0..design.connects().len() {
        put_connect(alloc, design, place, entries)?;
    }
    Ok(table)
}

// Adds the driver, if there is one.
fn push_some(order: &mut Vec<Driver>, driver: Option<Driver>) -> Result<(), AllocError>
    ensures { OnOk result (order.new.items ≡ order.old.items ++ option_to_list driver) }
{
    match driver {
        Some(driver) => {
            order.push(driver)?;
            Ok(())
        }
        None => Ok(()),
    }
}

// The drivers at the nodes, in their order.
fn emitted(
    alloc: Global,
    table: &[Option<Driver>],
    nodes: &[usize],
) -> Result<Vec<Driver>, AllocError>
    requires { (k p : ℕ) → slice_get nodes.now k ≡ Some p → p < length table.now }
    ensures { IfOk result (λ order. IsEmitted table.now nodes.now (length nodes.now) order.items) }
{
    let mut order = Vec::new(alloc);
    for place in 0..nodes.len() {
        push_some(&mut order, table[nodes[place]])?;
    }
    Ok(order)
}

/// The drivers within the cycle, each after those that drive what it drives from.
pub fn order_of(alloc: Global, design: &Design, sorted: &Sorted) -> Result<Vec<Driver>, AllocError>
    requires once { IsDrivenOnce design.now }
    requires shape { IsDesign design.now }
    requires cells { (i : ℕ) → IsCellOnLoop design.now i → ⊥ }
    requires bits { (w b : ℕ) → IsOnLoop design.now (SigBit.Wire w b) → ⊥ }
    requires sorted { (g : Graph) × IsRestGraph design.now g × IsSorted g sorted.now.order.items sorted.now.cyclic.items sorted.now.leaders.items }
    ensures { IfOk result (λ order. IsOrder design.now order.items) }
{
    let table = driver_table(alloc, design)?;
    let order = emitted(alloc, &table, &sorted.order)?;
    Ok(order)
}
