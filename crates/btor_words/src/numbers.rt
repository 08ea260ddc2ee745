// Cells that compare and divide numbers.

ghost use Rattle.std.specs.Prelude.{◌≡◌, ◌≤◌, ◌+◌, ◌-◌, ◌^◌, [], ◌∷◌, max, Err, IfOk, length};
ghost use Rattle.sby_bits.specs.Rows.{value};
ghost use Rattle.cell_table.specs.Cells.{bit_row, divide_fn, is_compared};
ghost use Rattle.btor_core.specs.declared.draft.DraftFault.TheVariants.{Full};
ghost use Rattle.btor_core.specs.Fits.{IsWidth};
ghost use Rattle.btor_words.specs.Emitting.{Emits, IsWord};
ghost use Rattle.btor_words.specs.Operators.{IsAtMost, IsComparison, IsDivision, IsLess};

use crate::lines::join;
use crate::sizes::resize;
use btor_core::draft::{Draft, DraftFault};
use btor_core::line::{Binary, Word};
use cell_table::kind::{Compare, Divide};

// Whether the first word's number is less; whether it isn't more.
fn less_of(signed: bool) -> Binary
    ensures { IsLess signed result }
{
    if signed { Binary::Slt } else { Binary::Ult }
}

fn at_most_of(signed: bool) -> Binary
    ensures { IsAtMost signed result }
{
    if signed { Binary::Slte } else { Binary::Ulte }
}

// The operator that is the cell, and whether its operands change places.
fn comparison_of(kind: Compare, signed: bool) -> (Binary, bool)
    ensures { IsComparison kind signed result.1 result.0 }
{
    match kind {
        Compare::Eq => (Binary::Eq, false),
        Compare::Eqx => (Binary::Eq, false),
        Compare::Ne => (Binary::Neq, false),
        Compare::Nex => (Binary::Neq, false),
        Compare::Lt => (less_of(signed), false),
        Compare::Le => (at_most_of(signed), false),
        Compare::Gt => (less_of(signed), true),
        Compare::Ge => (at_most_of(signed), true),
    }
}

// The bit of a comparison of two words of one width.
fn compared(
    draft: &mut Draft,
    kind: Compare,
    left: Word,
    right: Word,
    signed: bool,
) -> Result<Word, DraftFault>
    requires left { IsWord draft.old left }
    requires right { IsWord draft.old right }
    requires widths { right.width ≡ left.width }
    ensures row { IfOk result (λ r. Emits draft.old draft.new r 1 2 (λ vs. is_compared kind left.width (value signed (vs left.nid)) (value signed (vs right.nid)) ∷ [])) }
    ensures full { result ≡ Err Full → 2 ^ 32 - 1 ≤ length draft.old.lines + 2 }
{
    let (operator, turned) = comparison_of(kind, signed);
    if turned {
        let bit = join(draft, operator, right, left, 1)?;
        return Ok(bit);
    }
    let bit = join(draft, operator, left, right, 1)?;
    Ok(bit)
}

/// `$eq`, `$ne`, `$eqx`, `$nex`, `$lt`, `$le`, `$gt` and `$ge`: a bit, then zeros.
pub fn compare(
    draft: &mut Draft,
    kind: Compare,
    a: Word,
    b: Word,
    signed: bool,
    width: u32,
) -> Result<Word, DraftFault>
    requires a { IsWord draft.old a }
    requires b { IsWord draft.old b }
    requires width { IsWidth width }
    ensures row { IfOk result (λ r. Emits draft.old draft.new r width 8 (λ vs. bit_row width (is_compared kind (max a.width b.width) (value signed (vs a.nid)) (value signed (vs b.nid))))) }
    ensures full { result ≡ Err Full → 2 ^ 32 - 1 ≤ length draft.old.lines + 8 }
{
    let most = a.width.max(b.width);
    let left = resize(draft, a, signed, most)?;
    let right = resize(draft, b, signed, most)?;
    let bit = compared(draft, kind, left, right, signed)?;
    let word = resize(draft, bit, false, width)?;
    Ok(word)
}

// The operator that is the cell.
fn division_of(kind: Divide, signed: bool) -> Binary
    ensures { IsDivision kind signed result }
{
    match (kind, signed) {
        (Divide::Div, false) => Binary::Udiv,
        (Divide::Div, true) => Binary::Sdiv,
        (Divide::Mod, false) => Binary::Urem,
        (Divide::Mod, true) => Binary::Srem,
    }
}

/// `$div` and `$mod`.
pub fn divide(
    draft: &mut Draft,
    kind: Divide,
    a: Word,
    b: Word,
    signed: bool,
    width: u32,
) -> Result<Word, DraftFault>
    requires a { IsWord draft.old a }
    requires b { IsWord draft.old b }
    requires width { IsWidth width }
    ensures row { IfOk result (λ r. Emits draft.old draft.new r width 8 (λ vs. divide_fn kind width (value signed (vs a.nid)) (value signed (vs b.nid)))) }
    ensures full { result ≡ Err Full → 2 ^ 32 - 1 ≤ length draft.old.lines + 8 }
{
    let operands = a.width.max(b.width);
    let most = operands.max(width);
    let left = resize(draft, a, signed, most)?;
    let right = resize(draft, b, signed, most)?;
    let whole = join(draft, division_of(kind, signed), left, right, most)?;
    let word = resize(draft, whole, false, width)?;
    Ok(word)
}
