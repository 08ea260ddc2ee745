// Statements as words of one bit.

ghost use Rattle.std.specs.Prelude.{[], ◌∷◌, All, OnOk, drop, length, take};
ghost use Rattle.btor_core.specs.Fits.{IsBtor};
ghost use Rattle.btor_core.specs.Shape.{bads, constraints};
ghost use Rattle.btor_emit.specs.Nodes.{IsReady};
ghost use Rattle.btor_emit.specs.Said.{AreSaid, Says, is_broken, is_held, is_reached};
ghost use Rattle.btor_emit.specs.Table.{AreSeats, cycle_of};
ghost use Rattle.model_core.specs.Shape.{IsStatement};

use crate::operands::pair;
use crate::table::Seat;
use btor_core::draft::{Draft, DraftFault};
use btor_core::line::{Binary, Unary};
use btor_words::{apply, join};
use model_core::model::Statement;

// A constraint for an assumption: EN is 0, or A is 1.
fn push_assume(draft: &mut Draft, table: &mut [Seat], cell: Statement) -> Result<(), DraftFault>
    requires a { IsReady draft.old table.old (cell.a ∷ []) }
    requires en { IsReady draft.old table.old (cell.en ∷ []) }
    ensures { OnOk result (Says constraints bads draft.old draft.new table.old table.new (λ vs. is_held (cycle_of table.old vs) cell)) }
{
    let (value, enable) = pair(draft, table, &[cell.a], &[cell.en])?;
    let off = apply(draft, Unary::Not, enable, 1)?;
    let bit = join(draft, Binary::Or, off, value, 1)?;
    draft.constraint(bit)?;
    draft.promise();
    Ok(())
}

// A bad for an assertion: EN is 1, and A is 0.
fn push_assert(draft: &mut Draft, table: &mut [Seat], cell: Statement) -> Result<(), DraftFault>
    requires a { IsReady draft.old table.old (cell.a ∷ []) }
    requires en { IsReady draft.old table.old (cell.en ∷ []) }
    ensures { OnOk result (Says bads constraints draft.old draft.new table.old table.new (λ vs. is_broken (cycle_of table.old vs) cell)) }
{
    let (value, enable) = pair(draft, table, &[cell.a], &[cell.en])?;
    let low = apply(draft, Unary::Not, value, 1)?;
    let bit = join(draft, Binary::And, enable, low, 1)?;
    draft.bad(bit)?;
    draft.promise();
    Ok(())
}

// A bad for a cover statement: EN and A are 1.
fn push_reached(draft: &mut Draft, table: &mut [Seat], cell: Statement) -> Result<(), DraftFault>
    requires a { IsReady draft.old table.old (cell.a ∷ []) }
    requires en { IsReady draft.old table.old (cell.en ∷ []) }
    ensures { OnOk result (Says bads constraints draft.old draft.new table.old table.new (λ vs. is_reached (cycle_of table.old vs) cell)) }
{
    let (value, enable) = pair(draft, table, &[cell.a], &[cell.en])?;
    let bit = join(draft, Binary::And, enable, value, 1)?;
    draft.bad(bit)?;
    draft.promise();
    Ok(())
}

/// A constraint for each assumption.
pub fn push_assumes(
    draft: &mut Draft,
    table: &mut [Seat],
    assumes: &[Statement],
) -> Result<(), DraftFault>
    requires btor { IsBtor draft.old }
    requires seats { AreSeats draft.old table.old }
    requires inside { All (IsStatement (length table.old)) assumes.now }
    ensures { OnOk result (AreSaid constraints bads draft.old draft.new table.old table.new assumes.now is_held) }
{
    for k in 0..assumes.len() {
        push_assume(draft, table, assumes[k])?;
    }
    Ok(())
}

/// A bad for each assertion.
pub fn push_asserts(
    draft: &mut Draft,
    table: &mut [Seat],
    asserts: &[Statement],
) -> Result<(), DraftFault>
    requires btor { IsBtor draft.old }
    requires seats { AreSeats draft.old table.old }
    requires inside { All (IsStatement (length table.old)) asserts.now }
    ensures { OnOk result (AreSaid bads constraints draft.old draft.new table.old table.new asserts.now is_broken) }
{
    for k in 0..asserts.len() {
        push_assert(draft, table, asserts[k])?;
    }
    Ok(())
}

/// A bad for a cover statement, counted from 0, if there is one.
pub fn push_cover(
    draft: &mut Draft,
    table: &mut [Seat],
    covers: &[Statement],
    k: u32,
) -> Result<(), DraftFault>
    requires btor { IsBtor draft.old }
    requires seats { AreSeats draft.old table.old }
    requires inside { All (IsStatement (length table.old)) covers.now }
    ensures { OnOk result (AreSaid bads constraints draft.old draft.new table.old table.new (take 1 (drop k covers.now)) is_reached) }
{
    if k as usize >= covers.len() {
        return Ok(());
    }
    push_reached(draft, table, covers[k as usize])?;
    Ok(())
}
