// The nodes: one for each cell whose output follows from bits of the same cycle, and for each bit of a connect.

ghost use Rattle.std.specs.Prelude.{◌≡◌, ◌+◌, ◌<◌, ◌≤◌, ◌^◌, ℕ, List, [], ◌∷◌, ◌++◌, All, IfOk, OnOk, length};
ghost use Rattle.design_check.specs.Faults.{IsFlat};
ghost use Rattle.design_core.specs.Asked.{number_at, output_of};
ghost use Rattle.design_core.specs.Shape.{IsDeclared};
ghost use Rattle.design_core.specs.declared.names.ParameterName.{ParameterName};
ghost use Rattle.design_graph.specs.Order.{IsDriver, IsOrder};
ghost use Rattle.design_graph.specs.declared.driver.Driver.{Driver};
ghost use Rattle.design_core.specs.Places.{places};
ghost use Rattle.design_meaning.specs.Runs.{kept_bits};
ghost use Rattle.design_signals.specs.Chunks.{IsChunk, bits_of};
ghost use Rattle.model_core.specs.Shape.{NodeOf};
ghost use Rattle.word_model.specs.Built.{AreOffsets, ArePairs, IsPushed, pair_places};
ghost use Rattle.word_model.specs.Kinds.{op_of_kind};
ghost use Rattle.word_model.specs.Layout.{kept_place, parameter_places};
ghost use Rattle.word_model.specs.Nodes.{AreNodes, IsNodeOf, cell_node, op_of, reset_node};
ghost use Rattle.word_model.specs.Served.{IsServed};

use crate::rows::{fill_output, fill_parameter, fill_port, fill_range, flag, place};
use cell_table::kind::Kind;
use design_check::flat::Flat;
use design_core::cell::Cell;
use design_core::design::Design;
use design_core::names::{ParameterName, PortName};
use design_core::table::{Role, role_of};
use design_graph::driver::Driver;
use design_signals::bits::Bits;
use design_signals::chunk::Chunk;
use model_core::draft::Draft;
use model_core::op::Op;
use std::alloc::{AllocError, Global};

/// Rows of places that serve one cell after the other.
#[derive(Drop)]
pub(crate) struct Rows {
    pub a: Vec<u32>,
    pub b: Vec<u32>,
    pub s: Vec<u32>,
    pub y: Vec<u32>,
}

impl Rows {
    pub(crate) fn new(alloc: Global) -> Rows {
        Rows {
            a: Vec::new(alloc),
            b: Vec::new(alloc),
            s: Vec::new(alloc),
            y: Vec::new(alloc),
        }
    }
}

// What a cell of this type does, by its flags A_SIGNED and B_SIGNED and its OFFSET.
fn op_of_kind(kind: Kind, a: bool, b: bool, offset: u32) -> Op
    ensures { result ≡ op_of_kind kind a b offset }
{
    match kind {
        Kind::Unary(kind) => Op::Unary(kind, a),
        Kind::Binary(kind) => Op::Binary(kind, a),
        Kind::Reduce(kind) => Op::Reduce(kind),
        Kind::Logic(kind) => Op::Logic(kind),
        Kind::Compare(kind) => Op::Compare(kind, a),
        Kind::ShiftLeft => Op::ShiftLeft(a),
        Kind::ShiftRight => Op::ShiftRight(a),
        Kind::ShiftSign => Op::ShiftSign(a),
        Kind::ShiftAny => Op::ShiftAny(a, b),
        Kind::Divide(kind) => Op::Divide(kind, a),
        Kind::Mux => Op::Mux,
        Kind::Pmux => Op::Pmux,
        Kind::Bmux => Op::Bmux,
        Kind::Slice => Op::Slice(offset),
        Kind::Concat => Op::Concat,
        Kind::Ff
        | Kind::Dff
        | Kind::Dffe
        | Kind::Sdff
        | Kind::Sdffe
        | Kind::Sdffce
        | Kind::Adff
        | Kind::Adffe
        | Kind::Statement(_)
        | Kind::Any(_)
        | Kind::InitState
        | Kind::LeftOut(_)
        | Kind::Unknown => Op::Copy,
    }
}

// The number of the parameter OFFSET; 0 where it isn't there.
fn offset(design: &Design, cell: &Cell) -> u32
    requires { IsServed design.now cell.now }
    ensures { result ≡ number_at cell.now.parameters ParameterName.Offset }
{
    match cell.parameter(ParameterName::Offset) {
        Some(constant) => constant.number().unwrap_or(0) as u32,
        None => 0,
    }
}

fn op_of(design: &Design, cell: &Cell) -> Op
    requires { IsServed design.now cell.now }
    ensures { result ≡ op_of cell.now }
{
    let a = flag(cell, ParameterName::ASigned);
    let b = flag(cell, ParameterName::BSigned);
    op_of_kind(cell.kind(), a, b, offset(design, cell))
}

// Adds the node of a combinational cell.
fn push_cell(
    design: &Design,
    cell: &Cell,
    rows: &mut Rows,
    draft: &mut Draft,
) -> Result<(), AllocError>
    requires { IsServed design.now cell.now }
    ensures { OnOk result (draft.new ≡ record draft.old { nodes = draft.old.nodes ++ cell_node design.now cell.now ∷ [] }) }
{
    fill_port(design, cell, PortName::A, &mut rows.a)?;
    fill_port(design, cell, PortName::B, &mut rows.b)?;
    fill_port(design, cell, PortName::S, &mut rows.s)?;
    fill_output(design, cell, &mut rows.y)?;
    let op = op_of(design, cell);
    draft.push_node(op, &rows.a, &rows.b, &rows.s, &rows.y)
}

// Adds the node of a register with an asynchronous reset, whose stored row begins at `first`.
fn push_reset(
    design: &Design,
    cell: &Cell,
    first: u32,
    rows: &mut Rows,
    draft: &mut Draft,
) -> Result<(), AllocError>
    requires cell { IsServed design.now cell.now }
    requires room { first + length (output_of cell.now) < 2 ^ 32 }
    requires few { length (output_of cell.now) ≤ 4096 }
    requires value { length (parameter_places design.now cell.now ParameterName.ArstValue) ≤ 4096 }
    ensures { (i : ℕ) → first ≡ kept_place design.now i 0 → OnOk result (draft.new ≡ record draft.old { nodes = draft.old.nodes ++ reset_node design.now i cell.now ∷ [] }) }
{
    fill_output(design, cell, &mut rows.y)?;
    fill_range(first, rows.y.len(), &mut rows.a)?;
    fill_parameter(design, cell, ParameterName::ArstValue, &mut rows.b)?;
    fill_port(design, cell, PortName::Arst, &mut rows.s)?;
    if flag(cell, ParameterName::ArstPolarity) {
        draft.push_node(Op::Mux, &rows.a, &rows.b, &rows.s, &rows.y)
    } else {
        draft.push_node(Op::Mux, &rows.b, &rows.a, &rows.s, &rows.y)
    }
}

// Adds the places of the two sides of a connect, bit by bit.
fn push_pairs(
    design: &Design,
    left: &[Chunk],
    right: &[Chunk],
    pairs: &mut Vec<(u32, u32)>,
) -> Result<(), AllocError>
    requires left { All (IsDeclared design.now.wires design.now.free) (bits_of left.now) }
    requires left_chunks { All IsChunk left.now }
    requires right { All (IsDeclared design.now.wires design.now.free) (bits_of right.now) }
    requires right_chunks { All IsChunk right.now }
    ensures { OnOk result (pairs.new.items ≡ pairs.old.items ++ pair_places design.now (bits_of left.now) (bits_of right.now)) }
{
    let mut driven = Bits::new(left);
    let mut from = Bits::new(right);
    'bits: while let Some(bit) = driven.next() {
        let Some(other) = from.next() else {
            return Ok(());
        };
        pairs.push((place(design, bit), place(design, other)))?;
    }
    Ok(())
}

/// The places of both sides of all connects, and where those of each connect begin.
#[derive(Drop)]
pub(crate) struct Pairs {
    pub first: Vec<usize>,
    pub pairs: Vec<(u32, u32)>,
}

fn connect_pairs(alloc: Global, design: &Design) -> Result<Pairs, AllocError>
    ensures { IfOk result (λ p. ArePairs design.now p.first.items p.pairs.items) }
{
    let connects = design.connects();
    let mut first = Vec::new(alloc);
    let mut pairs = Vec::new(alloc);
    for place in 0..connects.len() {
        first.push(pairs.len())?;
        push_pairs(
            design,
            connects[place].left(),
            connects[place].right(),
            &mut pairs,
        )?;
    }
    Ok(Pairs { first, pairs })
}

// The places of the two sides of bit `bit` of the connect at `place`.
fn pair_of(design: &Design, pairs: &Pairs, place: usize, bit: usize) -> (u32, u32)
    requires flat { IsFlat design.now }
    requires driver { IsDriver design.now (Driver.Connect place bit) }
    requires pairs { ArePairs design.now pairs.now.first.items pairs.now.pairs.items }
    ensures { IsNodeOf design.now (Driver.Connect place bit) (record { op = Op.Copy; a = result.1 ∷ []; b = []; s = []; y = result.0 ∷ [] }) }
{
    let first = pairs.first.as_slice();
    let list = pairs.pairs.as_slice();
    let start = first[place];
    list[start + bit]
}

// Adds the node of one bit of a connect.
fn push_copy(left: u32, right: u32, draft: &mut Draft) -> Result<(), AllocError>
    ensures { OnOk result (draft.new ≡ record draft.old { nodes = draft.old.nodes ++ record { op = Op.Copy; a = right ∷ []; b = []; s = []; y = left ∷ [] } ∷ [] }) }
{
    let from = [right];
    let to = [left];
    draft.push_node(Op::Copy, &from, &[], &[], &to)
}

// Adds the node of the cell at a place.
fn push_place(
    design: &Design,
    place: usize,
    offsets: &[u32],
    rows: &mut Rows,
    draft: &mut Draft,
) -> Result<(), AllocError>
    requires flat { IsFlat design.now }
    requires driver { IsDriver design.now (Driver.Cell place) }
    requires offsets { AreOffsets design.now offsets.now }
    requires fits { places design.now + kept_bits design.now < 2 ^ 32 }
    ensures { OnOk result (IsPushed design.now (Driver.Cell place) draft.old draft.new) }
{
    let cells = design.cells();
    let cell = &cells[place];
    match role_of(cell.kind()) {
        Role::AsyncResetRegister => push_reset(design, cell, offsets[place], rows, draft),
        _ => push_cell(design, cell, rows, draft),
    }
}

// Adds the node of a driver.
fn push_driver(
    design: &Design,
    driver: Driver,
    pairs: &Pairs,
    offsets: &[u32],
    rows: &mut Rows,
    draft: &mut Draft,
) -> Result<(), AllocError>
    requires flat { IsFlat design.now }
    requires driver { IsDriver design.now driver }
    requires pairs { ArePairs design.now pairs.now.first.items pairs.now.pairs.items }
    requires offsets { AreOffsets design.now offsets.now }
    requires fits { places design.now + kept_bits design.now < 2 ^ 32 }
    ensures { OnOk result (IsPushed design.now driver draft.old draft.new) }
{
    match driver {
        Driver::Cell(place) => push_place(design, place, offsets, rows, draft),
        Driver::Connect(place, bit) => {
            let (left, right) = pair_of(design, pairs, place, bit);
            push_copy(left, right, draft)
        }
    }
}

/// Adds the nodes of all drivers, each after those of what it reads.
pub(crate) fn push_nodes(
    alloc: Global,
    flat: &Flat,
    offsets: &[u32],
    draft: &mut Draft,
) -> Result<(), AllocError>
    requires offsets { AreOffsets flat.now offsets.now }
    requires fits { places flat.now + kept_bits flat.now < 2 ^ 32 }
    requires empty { draft.old.nodes ≡ [] }
    ensures { OnOk result ((order : List Driver) × (nodes : List NodeOf) × IsOrder flat.now order × AreNodes flat.now order (length order) nodes × (draft.new ≡ record draft.old { nodes = nodes })) }
{
    let design = flat.design();
    let pairs = connect_pairs(alloc, design)?;
    let mut rows = Rows::new(alloc);
    let order = flat.order();
    for place in 0..order.len() {
        push_driver(design, order[place], &pairs, offsets, &mut rows, draft)?;
    }
    Ok(())
}
