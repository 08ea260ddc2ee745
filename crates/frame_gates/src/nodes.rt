// The nodes of a frame.

ghost use Rattle.std.specs.Prelude.{◌≡◌, ◌+◌, ◌*◌, ◌^◌, ◌<◌, ◌≤◌, ◌++◌, All, IfOk, OnOk, length, slice_get, Some};
ghost use Rattle.std.specs.List.{sum_by};
ghost use Rattle.cnf_form.specs.Cnf.{Assignment, LitWithin};
ghost use Rattle.gate_graph.specs.Circuit.{GatesOf};
ghost use Rattle.gate_rows.specs.Literals.{Builds, IsFull, MeansRow, row_of};
ghost use Rattle.cell_table.specs.Cells.{bmux_fn, mux_fn, slice_fn};
ghost use Rattle.model_core.specs.Meaning.{is_set, node_fn};
ghost use Rattle.model_core.specs.Served.{HasWidths, IsModel};
ghost use Rattle.model_core.specs.Shape.{NodeOf};
ghost use Rattle.frame_gates.specs.Costs.{node_gates, op_gates};
ghost use Rattle.frame_gates.specs.Frames.{IsTable};
ghost use Rattle.frame_gates.specs.Rows.{AreGiven, IsGiven};

use crate::rows::{Words, read_row, write_row};
use cnf_form::Lit;
use gate_graph::{GateFault, Gates};
use model_core::model::WordModel;
use model_core::op::Op;
use std::alloc::{AllocError, Global};

// The row that a node gives, of this many literals.
fn node_row(
    alloc: Global,
    gates: &mut Gates,
    op: Op,
    a: &[Lit],
    b: &[Lit],
    s: &[Lit],
    y: u32,
) -> Result<Vec<Lit>, GateFault>
    requires a { All (LitWithin gates.old.formula.vars) a.now }
    requires b { All (LitWithin gates.old.formula.vars) b.now }
    requires s { All (LitWithin gates.old.formula.vars) s.now }
    requires widths { HasWidths op (length a.now) (length b.now) (length s.now) y }
    ensures row { IfOk result (λ word. MeansRow gates.new (λ x. node_fn op y (row_of x a.now) (row_of x b.now) (row_of x s.now)) word.items) }
    ensures builds { Builds gates.old gates.new (op_gates op (length a.now) (length b.now) y) }
    ensures too_many { result ≡ Err GateFault.TooMany → IsFull gates.old gates.new (op_gates op (length a.now) (length b.now) y) }
{
    match op {
        Op::Copy => copy(alloc, gates, a),
        Op::Unary(kind, signed) => gate_words::unary(alloc, gates, kind, a, signed, y),
        Op::Binary(kind, signed) => gate_words::binary(alloc, gates, kind, a, b, signed, y),
        Op::Reduce(kind) => gate_words::reduce(alloc, gates, kind, a, y),
        Op::Logic(kind) => gate_words::logic(alloc, gates, kind, a, b, y),
        Op::Compare(kind, signed) => gate_words::compare(alloc, gates, kind, a, b, signed, y),
        Op::ShiftLeft(signed) => gate_words::shift_left(alloc, gates, a, b, signed, y),
        Op::ShiftRight(signed) => gate_words::shift_right(alloc, gates, a, b, signed, y),
        Op::ShiftSign(signed) => gate_words::shift_sign(alloc, gates, a, b, signed, y),
        Op::ShiftAny(signed, by_signed) => {
            gate_words::shift_any(alloc, gates, a, b, signed, by_signed, y)
        }
        Op::Divide(kind, signed) => gate_words::divide(alloc, gates, kind, a, b, signed, y),
        Op::Mux => mux(alloc, gates, a, b, s),
        Op::Pmux => gate_words::pmux(alloc, gates, a, b, s),
        Op::Bmux => bmux(alloc, gates, a, s, y),
        Op::Slice(offset) => slice(alloc, gates, a, offset, y),
        Op::Concat => concat(alloc, gates, a, b),
    }
}

// Returns a copy of the literals.
fn copy(alloc: Global, gates: &mut Gates, a: &[Lit]) -> Result<Vec<Lit>, GateFault>
    requires a { All (LitWithin gates.old.formula.vars) a.now }
    requires width { length a.now < 2 ^ 32 }
    ensures row { IfOk result (λ word. MeansRow gates.new (λ x. row_of x a.now) word.items) }
    ensures builds { Builds gates.old gates.new 0 }
    ensures too_many { result ≡ Err GateFault.TooMany → ⊥ }
{
    let word = gate_words::slice(alloc, a, 0, a.len() as u32)?;
    Ok(word)
}

// `b` where the select is true, else `a`.
fn mux(
    alloc: Global,
    gates: &mut Gates,
    a: &[Lit],
    b: &[Lit],
    s: &[Lit],
) -> Result<Vec<Lit>, GateFault>
    requires a { All (LitWithin gates.old.formula.vars) a.now }
    requires b { All (LitWithin gates.old.formula.vars) b.now }
    requires s { All (LitWithin gates.old.formula.vars) s.now }
    requires width { length a.now ≡ length b.now }
    requires select { length s.now ≡ 1 }
    ensures row { IfOk result (λ word. MeansRow gates.new (λ x. mux_fn (row_of x a.now) (row_of x b.now) (is_set (row_of x s.now))) word.items) }
    ensures builds { Builds gates.old gates.new (length a.now) }
    ensures too_many { result ≡ Err GateFault.TooMany → IsFull gates.old gates.new (length a.now) }
{
    let word = gate_words::mux(alloc, gates, a, b, s[0])?;
    Ok(word)
}

// The slice of `a` of width `y` that `s` names.
fn bmux(
    alloc: Global,
    gates: &mut Gates,
    a: &[Lit],
    s: &[Lit],
    y: u32,
) -> Result<Vec<Lit>, GateFault>
    requires a { All (LitWithin gates.old.formula.vars) a.now }
    requires s { All (LitWithin gates.old.formula.vars) s.now }
    requires width { length a.now ≡ y * 2 ^ length s.now }
    ensures row { IfOk result (λ word. MeansRow gates.new (λ x. bmux_fn y (row_of x a.now) (row_of x s.now)) word.items) }
    ensures builds { Builds gates.old gates.new (length a.now) }
    ensures too_many { result ≡ Err GateFault.TooMany → IsFull gates.old gates.new (length a.now) }
{
    let word = gate_words::bmux(alloc, gates, a, s)?;
    Ok(word)
}

// The `y` literals of `a` from `offset` on.
fn slice(
    alloc: Global,
    gates: &mut Gates,
    a: &[Lit],
    offset: u32,
    y: u32,
) -> Result<Vec<Lit>, GateFault>
    requires a { All (LitWithin gates.old.formula.vars) a.now }
    requires width { offset + y ≤ length a.now }
    ensures row { IfOk result (λ word. MeansRow gates.new (λ x. slice_fn y offset (row_of x a.now)) word.items) }
    ensures builds { Builds gates.old gates.new 0 }
    ensures too_many { result ≡ Err GateFault.TooMany → ⊥ }
{
    let word = gate_words::slice(alloc, a, offset, y)?;
    Ok(word)
}

// `b` above `a`.
fn concat(alloc: Global, gates: &mut Gates, a: &[Lit], b: &[Lit]) -> Result<Vec<Lit>, GateFault>
    requires a { All (LitWithin gates.old.formula.vars) a.now }
    requires b { All (LitWithin gates.old.formula.vars) b.now }
    ensures row { IfOk result (λ word. MeansRow gates.new (λ x. row_of x a.now ++ row_of x b.now) word.items) }
    ensures builds { Builds gates.old gates.new 0 }
    ensures too_many { result ≡ Err GateFault.TooMany → ⊥ }
{
    let word = gate_words::concat(alloc, a, b)?;
    Ok(word)
}

// Gives the output of a node that copies its operand the literals there. It takes no row of its own: connects, and what a job doesn't
// rest on, are such nodes.
fn copy_node(
    model: &WordModel,
    node: usize,
    words: &mut Words,
    table: &mut [Lit],
) -> Result<(), AllocError>
    requires model { IsModel model.now }
    requires node { node < length model.now.nodes }
    requires op { (n : NodeOf) → slice_get model.now.nodes node ≡ Some n → n.op ≡ Op.Copy }
    requires size { length table.old ≡ model.now.size }
    ensures { OnOk result ((g : GatesOf) (n : NodeOf) → All (LitWithin g.formula.vars) table.old → slice_get model.now.nodes node ≡ Some n → IsGiven g n table.old table.new) }
{
    read_row(&mut words.a, table, model.a(node))?;
    write_row(table, model.y(node), words.a.as_slice());
    Ok(())
}

// Gives a node's output its literals.
fn run_node(
    alloc: Global,
    gates: &mut Gates,
    model: &WordModel,
    node: usize,
    words: &mut Words,
    table: &mut [Lit],
) -> Result<(), GateFault>
    requires model { IsModel model.now }
    requires node { node < length model.now.nodes }
    requires table { IsTable model.now gates.old table.old }
    ensures given { OnOk result ((n : NodeOf) → slice_get model.now.nodes node ≡ Some n → IsGiven gates.new n table.old table.new) }
    ensures builds { (n : NodeOf) → slice_get model.now.nodes node ≡ Some n → Builds gates.old gates.new (node_gates n) }
    ensures too_many { result ≡ Err GateFault.TooMany → (n : NodeOf) → slice_get model.now.nodes node ≡ Some n → IsFull gates.old gates.new (node_gates n) }
{
    if let Op::Copy = model.op(node) {
        copy_node(model, node, words, table)?;
        return Ok(());
    }
    read_row(&mut words.a, table, model.a(node))?;
    read_row(&mut words.b, table, model.b(node))?;
    read_row(&mut words.s, table, model.s(node))?;
    let (a, b, s) = (words.a.as_slice(), words.b.as_slice(), words.s.as_slice());
    let places = model.y(node);
    let width = places.len() as u32;
    let row = node_row(alloc, gates, model.op(node), a, b, s, width)?;
    write_row(table, places, row.as_slice());
    Ok(())
}

// Gives the outputs of all nodes their literals.
pub fn run_nodes(
    alloc: Global,
    gates: &mut Gates,
    model: &WordModel,
    words: &mut Words,
    table: &mut [Lit],
) -> Result<(), GateFault>
    requires model { IsModel model.now }
    requires table { IsTable model.now gates.old table.old }
    ensures given { OnOk result (AreGiven model.now (length model.now.nodes) gates.new table.old table.new) }
    ensures builds { Builds gates.old gates.new (sum_by node_gates model.now.nodes) }
    ensures too_many { result ≡ Err GateFault.TooMany → IsFull gates.old gates.new (sum_by node_gates model.now.nodes) }
{
    for node in 0..model.nodes() {
        run_node(alloc, gates, model, node, words, table)?;
    }
    Ok(())
}
