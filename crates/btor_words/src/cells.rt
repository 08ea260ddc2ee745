// Cells that go bit by bit, sums and products, and cells that give one bit.

ghost use Rattle.std.specs.Prelude.{◌≡◌, ◌≤◌, ◌+◌, ◌-◌, ◌^◌, [], ◌∷◌, false, Err, IfOk, length};
ghost use Rattle.sby_bits.specs.Rows.{value};
ghost use Rattle.cell_table.specs.Cells.{binary_fn, bit_row, is_logic, is_reduced, unary_fn};
ghost use Rattle.btor_core.specs.declared.draft.DraftFault.TheVariants.{Full};
ghost use Rattle.btor_core.specs.Fits.{IsWidth};
ghost use Rattle.btor_words.specs.Emitting.{Emits, IsWord};
ghost use Rattle.btor_words.specs.Operators.{IsLogic, IsOperator, IsReduction, turned_row};

use crate::lines::{apply, join};
use crate::sizes::resize;
use btor_core::draft::{Draft, DraftFault};
use btor_core::line::{Binary as Operator, Unary as Single, Word};
use cell_table::kind::{Binary, Logic, Reduce, Unary};

/// `$not`, `$pos` and `$neg`.
pub fn unary(
    draft: &mut Draft,
    kind: Unary,
    a: Word,
    signed: bool,
    width: u32,
) -> Result<Word, DraftFault>
    requires a { IsWord draft.old a }
    requires width { IsWidth width }
    ensures row { IfOk result (λ r. Emits draft.old draft.new r width 4 (λ vs. unary_fn kind width (value signed (vs a.nid)))) }
    ensures full { result ≡ Err Full → 2 ^ 32 - 1 ≤ length draft.old.lines + 4 }
{
    let own = resize(draft, a, signed, width)?;
    match kind {
        Unary::Pos => Ok(own),
        Unary::Not => {
            let turned = apply(draft, Single::Not, own, width)?;
            Ok(turned)
        }
        Unary::Neg => {
            let opposite = apply(draft, Single::Neg, own, width)?;
            Ok(opposite)
        }
    }
}

// A word, or its complement.
fn turned_if(draft: &mut Draft, word: Word, turned: bool) -> Result<Word, DraftFault>
    requires word { IsWord draft.old word }
    ensures row { IfOk result (λ r. Emits draft.old draft.new r word.width 2 (λ vs. turned_row turned (vs word.nid))) }
    ensures full { result ≡ Err Full → 2 ^ 32 - 1 ≤ length draft.old.lines + 2 }
{
    if turned {
        let other = apply(draft, Single::Not, word, word.width)?;
        return Ok(other);
    }
    Ok(word)
}

// The operator whose row, or its complement, is the cell's.
fn operator_of(kind: Binary) -> (Operator, bool)
    ensures { IsOperator kind result.0 result.1 }
{
    match kind {
        Binary::And => (Operator::And, false),
        Binary::Or => (Operator::Or, false),
        Binary::Xor => (Operator::Xor, false),
        Binary::Xnor => (Operator::Xor, true),
        Binary::Add => (Operator::Add, false),
        Binary::Sub => (Operator::Sub, false),
        Binary::Mul => (Operator::Mul, false),
    }
}

// Of two words that have the cell's width.
fn combined(draft: &mut Draft, kind: Binary, left: Word, right: Word) -> Result<Word, DraftFault>
    requires left { IsWord draft.old left }
    requires right { IsWord draft.old right }
    requires widths { right.width ≡ left.width }
    ensures row { IfOk result (λ r. Emits draft.old draft.new r left.width 4 (λ vs. binary_fn kind left.width (value false (vs left.nid)) (value false (vs right.nid)))) }
    ensures full { result ≡ Err Full → 2 ^ 32 - 1 ≤ length draft.old.lines + 4 }
{
    let (operator, turned) = operator_of(kind);
    let both = join(draft, operator, left, right, left.width)?;
    let word = turned_if(draft, both, turned)?;
    Ok(word)
}

/// `$and`, `$or`, `$xor`, `$xnor`, `$add`, `$sub` and `$mul`.
pub fn binary(
    draft: &mut Draft,
    kind: Binary,
    a: Word,
    b: Word,
    signed: bool,
    width: u32,
) -> Result<Word, DraftFault>
    requires a { IsWord draft.old a }
    requires b { IsWord draft.old b }
    requires width { IsWidth width }
    ensures row { IfOk result (λ r. Emits draft.old draft.new r width 8 (λ vs. binary_fn kind width (value signed (vs a.nid)) (value signed (vs b.nid)))) }
    ensures full { result ≡ Err Full → 2 ^ 32 - 1 ≤ length draft.old.lines + 8 }
{
    let left = resize(draft, a, signed, width)?;
    let right = resize(draft, b, signed, width)?;
    let word = combined(draft, kind, left, right)?;
    Ok(word)
}

// The operator whose bit, or its complement, is the cell's.
fn reduction_of(kind: Reduce) -> (Single, bool)
    ensures { IsReduction kind result.0 result.1 }
{
    match kind {
        Reduce::And => (Single::Redand, false),
        Reduce::Or | Reduce::Bool => (Single::Redor, false),
        Reduce::Not => (Single::Redor, true),
        Reduce::Xor => (Single::Redxor, false),
        Reduce::Xnor => (Single::Redxor, true),
    }
}

// The bit of a reduction.
fn reduced(draft: &mut Draft, kind: Reduce, a: Word) -> Result<Word, DraftFault>
    requires a { IsWord draft.old a }
    ensures row { IfOk result (λ r. Emits draft.old draft.new r 1 4 (λ vs. is_reduced kind (vs a.nid) ∷ [])) }
    ensures full { result ≡ Err Full → 2 ^ 32 - 1 ≤ length draft.old.lines + 4 }
{
    let (operator, turned) = reduction_of(kind);
    let bit = apply(draft, operator, a, 1)?;
    let word = turned_if(draft, bit, turned)?;
    Ok(word)
}

/// `$reduce_and`, `$reduce_or`, `$reduce_xor`, `$reduce_xnor`, `$reduce_bool` and `$logic_not`: a bit, then zeros.
pub fn reduce(draft: &mut Draft, kind: Reduce, a: Word, width: u32) -> Result<Word, DraftFault>
    requires a { IsWord draft.old a }
    requires width { IsWidth width }
    ensures row { IfOk result (λ r. Emits draft.old draft.new r width 6 (λ vs. bit_row width (is_reduced kind (vs a.nid)))) }
    ensures full { result ≡ Err Full → 2 ^ 32 - 1 ≤ length draft.old.lines + 6 }
{
    let bit = reduced(draft, kind, a)?;
    let word = resize(draft, bit, false, width)?;
    Ok(word)
}

// The operator of two bits.
fn logic_of(kind: Logic) -> Operator
    ensures { IsLogic kind result }
{
    match kind {
        Logic::And => Operator::And,
        Logic::Or => Operator::Or,
    }
}

/// `$logic_and` and `$logic_or`: a bit, then zeros.
pub fn logic(
    draft: &mut Draft,
    kind: Logic,
    a: Word,
    b: Word,
    width: u32,
) -> Result<Word, DraftFault>
    requires a { IsWord draft.old a }
    requires b { IsWord draft.old b }
    requires width { IsWidth width }
    ensures row { IfOk result (λ r. Emits draft.old draft.new r width 8 (λ vs. bit_row width (is_logic kind (vs a.nid) (vs b.nid)))) }
    ensures full { result ≡ Err Full → 2 ^ 32 - 1 ≤ length draft.old.lines + 8 }
{
    let left = apply(draft, Single::Redor, a, 1)?;
    let right = apply(draft, Single::Redor, b, 1)?;
    let bit = join(draft, logic_of(kind), left, right, 1)?;
    let word = resize(draft, bit, false, width)?;
    Ok(word)
}
