// Nodes of one and of two operands as lines.

ghost use Rattle.std.specs.Prelude.{◌+◌, ◌*◌, [], IfOk, length};
ghost use Rattle.btor_core.specs.Fits.{IsWidth};
ghost use Rattle.btor_emit.specs.Nodes.{ArePut, HasTwo, IsReady};
ghost use Rattle.btor_emit.specs.Table.{Puts, cycle_of};
ghost use Rattle.model_core.specs.Meaning.{node_fn, row_at};
ghost use Rattle.model_core.specs.declared.op.Op.TheVariants as op;

use crate::table::{Seat, gather};
use btor_core::draft::{Draft, DraftFault};
use btor_core::line::Word;
use btor_words::{
    binary, compare, divide, logic, reduce, shift_any, shift_left, shift_right, shift_sign, unary,
};
use cell_table::kind::{Reduce, Unary};
use model_core::op::Op;

// The words of two rows of places.
pub(crate) fn pair(
    draft: &mut Draft,
    table: &mut [Seat],
    a: &[u32],
    b: &[u32],
) -> Result<(Word, Word), DraftFault>
    requires a { IsReady draft.old table.old a.now }
    requires b { IsReady draft.old table.old b.now }
    ensures row { IfOk result (λ x. ArePut draft.old draft.new table.old table.new a.now b.now x.0 x.1) }
{
    let left = gather(draft, table, a)?;
    let right = gather(draft, table, b)?;
    Ok((left, right))
}

/// `$not`, `$pos` and `$neg`.
pub fn unary_node(
    draft: &mut Draft,
    table: &mut [Seat],
    kind: Unary,
    signed: bool,
    a: &[u32],
    width: u32,
) -> Result<Word, DraftFault>
    requires a { IsReady draft.old table.old a.now }
    requires width { IsWidth width }
    ensures row { IfOk result (λ r. Puts draft.old draft.new table.old table.new r width (4 * length a.now + 4) (λ vs. node_fn (op.Unary kind signed) width (row_at (cycle_of table.old vs) a.now) [] [])) }
{
    let left = gather(draft, table, a)?;
    let row = unary(draft, kind, left, signed, width)?;
    Ok(row)
}

/// `$reduce_and`, `$reduce_or`, `$reduce_xor`, `$reduce_xnor`, `$reduce_bool` and `$logic_not`.
pub fn reduce_node(
    draft: &mut Draft,
    table: &mut [Seat],
    kind: Reduce,
    a: &[u32],
    width: u32,
) -> Result<Word, DraftFault>
    requires a { IsReady draft.old table.old a.now }
    requires width { IsWidth width }
    ensures row { IfOk result (λ r. Puts draft.old draft.new table.old table.new r width (4 * length a.now + 6) (λ vs. node_fn (op.Reduce kind) width (row_at (cycle_of table.old vs) a.now) [] [])) }
{
    let left = gather(draft, table, a)?;
    let row = reduce(draft, kind, left, width)?;
    Ok(row)
}

/// A cell of two operands that neither chooses between rows nor moves bits.
pub fn two_node(
    draft: &mut Draft,
    table: &mut [Seat],
    op: Op,
    a: &[u32],
    b: &[u32],
    width: u32,
) -> Result<Word, DraftFault>
    requires two { HasTwo op }
    requires a { IsReady draft.old table.old a.now }
    requires b { IsReady draft.old table.old b.now }
    requires width { IsWidth width }
    ensures row { IfOk result (λ r. Puts draft.old draft.new table.old table.new r width (4 * length a.now + 4 * length b.now + 20) (λ vs. node_fn op width (row_at (cycle_of table.old vs) a.now) (row_at (cycle_of table.old vs) b.now) [])) }
{
    let (left, right) = pair(draft, table, a, b)?;
    match op {
        Op::Binary(kind, signed) => binary(draft, kind, left, right, signed, width),
        Op::Logic(kind) => logic(draft, kind, left, right, width),
        Op::Compare(kind, signed) => compare(draft, kind, left, right, signed, width),
        Op::ShiftLeft(signed) => shift_left(draft, left, right, signed, width),
        Op::ShiftRight(signed) => shift_right(draft, left, right, signed, width),
        Op::ShiftSign(signed) => shift_sign(draft, left, right, signed, width),
        Op::ShiftAny(signed, by_signed) => shift_any(draft, left, right, signed, by_signed, width),
        Op::Divide(kind, signed) => divide(draft, kind, left, right, signed, width),
        // No other cell is passed.
        Op::Copy
        | Op::Unary(_, _)
        | Op::Reduce(_)
        | Op::Mux
        | Op::Pmux
        | Op::Bmux
        | Op::Slice(_)
        | Op::Concat => Ok(left),
    }
}
