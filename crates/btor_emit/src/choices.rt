// Nodes that choose as lines.

ghost use Rattle.std.specs.Prelude.{◌≡◌, ◌+◌, ◌*◌, ◌^◌, [], IfOk, length};
ghost use Rattle.btor_core.specs.Fits.{IsWidth};
ghost use Rattle.btor_emit.specs.Nodes.{IsReady};
ghost use Rattle.btor_emit.specs.Table.{Puts, cycle_of};
ghost use Rattle.model_core.specs.Meaning.{node_fn, row_at};
ghost use Rattle.model_core.specs.declared.op.Op.TheVariants as op;

use crate::operands::pair;
use crate::table::{Seat, gather};
use btor_core::draft::{Draft, DraftFault};
use btor_core::line::Word;
use btor_words::{bmux, mux, pmux};

/// `$mux`.
pub fn mux_node(
    draft: &mut Draft,
    table: &mut [Seat],
    a: &[u32],
    b: &[u32],
    s: &[u32],
) -> Result<Word, DraftFault>
    requires a { IsReady draft.old table.old a.now }
    requires b { IsReady draft.old table.old b.now }
    requires s { IsReady draft.old table.old s.now }
    requires widths { length b.now ≡ length a.now }
    requires one { length s.now ≡ 1 }
    ensures row { IfOk result (λ r. Puts draft.old draft.new table.old table.new r (length a.now) (4 * length a.now + 4 * length b.now + 6) (λ vs. node_fn op.Mux (length a.now) (row_at (cycle_of table.old vs) a.now) (row_at (cycle_of table.old vs) b.now) (row_at (cycle_of table.old vs) s.now))) }
{
    let (other, then) = pair(draft, table, a, b)?;
    let select = gather(draft, table, s)?;
    let row = mux(draft, other, then, select)?;
    Ok(row)
}

/// `$bmux`.
pub fn bmux_node(
    draft: &mut Draft,
    table: &mut [Seat],
    a: &[u32],
    s: &[u32],
    width: u32,
) -> Result<Word, DraftFault>
    requires a { IsReady draft.old table.old a.now }
    requires s { IsReady draft.old table.old s.now }
    requires width { IsWidth width }
    requires widths { length a.now ≡ width * 2 ^ length s.now }
    ensures row { IfOk result (λ r. Puts draft.old draft.new table.old table.new r width (4 * length a.now + 4 * length s.now + 8 * length s.now) (λ vs. node_fn op.Bmux width (row_at (cycle_of table.old vs) a.now) [] (row_at (cycle_of table.old vs) s.now))) }
{
    let (parts, select) = pair(draft, table, a, s)?;
    let row = bmux(draft, parts, select, width)?;
    Ok(row)
}

/// `$pmux`.
pub fn pmux_node(
    draft: &mut Draft,
    table: &mut [Seat],
    a: &[u32],
    b: &[u32],
    s: &[u32],
) -> Result<Word, DraftFault>
    requires a { IsReady draft.old table.old a.now }
    requires b { IsReady draft.old table.old b.now }
    requires s { IsReady draft.old table.old s.now }
    requires widths { length b.now ≡ length a.now * length s.now }
    ensures row { IfOk result (λ r. Puts draft.old draft.new table.old table.new r (length a.now) (4 * length a.now + 4 * length b.now + 4 * length s.now + 6 * length s.now) (λ vs. node_fn op.Pmux (length a.now) (row_at (cycle_of table.old vs) a.now) (row_at (cycle_of table.old vs) b.now) (row_at (cycle_of table.old vs) s.now))) }
{
    let (other, choices) = pair(draft, table, a, b)?;
    let select = gather(draft, table, s)?;
    let row = pmux(draft, other, choices, select)?;
    Ok(row)
}
