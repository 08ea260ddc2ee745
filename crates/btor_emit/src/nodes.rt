// Nodes of a model as lines.

ghost use Rattle.std.specs.Prelude.{◌≡◌, ◌+◌, ◌*◌, ℕ, Contains, OnOk, IfOk, length, ◌++◌};
ghost use Rattle.btor_core.specs.Fits.{IsBtor};
ghost use Rattle.btor_emit.specs.Emitting.{Gives};
ghost use Rattle.btor_emit.specs.Nodes.{AreNodes, IsMove};
ghost use Rattle.btor_emit.specs.Table.{AreIn, AreSeats, Puts, cycle_of};
ghost use Rattle.model_core.specs.Meaning.{node_fn, row_at};
ghost use Rattle.model_core.specs.Served.{HasWidths, IsModel};
ghost use Rattle.model_core.specs.Shape.{IsDistinct};

use crate::choices::{bmux_node, mux_node, pmux_node};
use crate::operands::{reduce_node, two_node, unary_node};
use crate::table::{Seat, alias, gather, give};
use btor_core::draft::{Draft, DraftFault};
use btor_core::line::Word;
use model_core::model::WordModel;
use model_core::op::Op;

// The word of a node that isn't a copy, a slice or a concatenation.
fn word_of(
    draft: &mut Draft,
    table: &mut [Seat],
    op: Op,
    a: &[u32],
    b: &[u32],
    s: &[u32],
    width: u32,
) -> Result<Word, DraftFault>
    requires btor { IsBtor draft.old }
    requires seats { AreSeats draft.old table.old }
    requires a { AreIn table.old a.now }
    requires b { AreIn table.old b.now }
    requires s { AreIn table.old s.now }
    requires widths { HasWidths op (length a.now) (length b.now) (length s.now) width }
    requires word { IsMove op → ⊥ }
    ensures row { IfOk result (λ r. Puts draft.old draft.new table.old table.new r width (12 * (length a.now + length b.now + length s.now) + 20) (λ vs. node_fn op width (row_at (cycle_of table.old vs) a.now) (row_at (cycle_of table.old vs) b.now) (row_at (cycle_of table.old vs) s.now))) }
{
    match op {
        Op::Unary(kind, signed) => unary_node(draft, table, kind, signed, a, width),
        Op::Reduce(kind) => reduce_node(draft, table, kind, a, width),
        Op::Binary(_, _)
        | Op::Logic(_)
        | Op::Compare(_, _)
        | Op::ShiftLeft(_)
        | Op::ShiftRight(_)
        | Op::ShiftSign(_)
        | Op::ShiftAny(_, _)
        | Op::Divide(_, _) => two_node(draft, table, op, a, b, width),
        Op::Mux => mux_node(draft, table, a, b, s),
        Op::Pmux => pmux_node(draft, table, a, b, s),
        Op::Bmux => bmux_node(draft, table, a, s, width),
        Op::Copy | Op::Slice(_) | Op::Concat => gather(draft, table, a),
    }
}

// Adds a node: bits that it only moves stand where they stood.
fn push_node(
    draft: &mut Draft,
    table: &mut [Seat],
    op: Op,
    a: &[u32],
    b: &[u32],
    s: &[u32],
    y: &[u32],
) -> Result<(), DraftFault>
    requires btor { IsBtor draft.old }
    requires seats { AreSeats draft.old table.old }
    requires a { AreIn table.old a.now }
    requires b { AreIn table.old b.now }
    requires s { AreIn table.old s.now }
    requires y { AreIn table.old y.now }
    requires widths { HasWidths op (length a.now) (length b.now) (length s.now) (length y.now) }
    requires distinct { IsDistinct y.now }
    requires apart { (p : ℕ) → Contains y.now p → Contains (a.now ++ (b.now ++ s.now)) p → ⊥ }
    ensures { OnOk result (Gives draft.old draft.new table.old table.new y.now (12 * (length a.now + length b.now + length s.now) + 20) (λ vs. node_fn op (length y.now) (row_at (cycle_of table.old vs) a.now) (row_at (cycle_of table.old vs) b.now) (row_at (cycle_of table.old vs) s.now))) }
{
    match op {
        Op::Copy => alias(table, y, a),
        Op::Slice(offset) => alias(table, y, &a[offset as usize..][..y.len()]),
        Op::Concat => {
            let (low, high) = y.split_at(a.len());
            alias(table, low, a);
            alias(table, high, b);
        }
        _ => {
            let word = word_of(draft, table, op, a, b, s, y.len() as u32)?;
            give(table, y, word);
        }
    }
    Ok(())
}

/// All nodes, in the model's order.
pub fn push_nodes(
    draft: &mut Draft,
    table: &mut [Seat],
    model: &WordModel,
) -> Result<(), DraftFault>
    requires model { IsModel model.now }
    requires btor { IsBtor draft.old }
    requires seats { AreSeats draft.old table.old }
    requires size { length table.old ≡ model.now.size }
    ensures { OnOk result (AreNodes model.now draft.old draft.new table.old table.new (length model.now.nodes)) }
{
    for node in 0..model.nodes() {
        push_node(
            draft,
            table,
            model.op(node),
            model.a(node),
            model.b(node),
            model.s(node),
            model.y(node),
        )?;
    }
    Ok(())
}
