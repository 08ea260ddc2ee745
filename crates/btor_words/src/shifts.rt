// Cells that move a word by the number of another.

ghost use Rattle.std.specs.Prelude.{◌≡◌, ◌≤◌, ◌+◌, ◌-◌, ◌*◌, ◌^◌, ◌-ℤ◌, cond, max, pos, Err, IfOk, length};
ghost use Rattle.sby_bits.specs.Rows.{fit, num, top_bit, value};
ghost use Rattle.sby_bits.specs.Words.{moved_number};
ghost use Rattle.cell_table.specs.Cells.{any_shift_fn, left_shift_fn, right_shift_fn, sign_shift_fn};
ghost use Rattle.btor_core.specs.declared.draft.DraftFault.TheVariants.{Full};
ghost use Rattle.btor_core.specs.Fits.{IsWidth};
ghost use Rattle.btor_words.specs.Emitting.{Emits, IsWord};
ghost use Rattle.btor_words.specs.Operators.{IsDown};

use crate::lines::{apply, join, mux};
use crate::sizes::{resize, slice};
use btor_core::draft::{Draft, DraftFault};
use btor_core::line::{Binary, Unary, Word};

/// `$shl` and `$sshl`.
pub fn shift_left(
    draft: &mut Draft,
    a: Word,
    b: Word,
    signed: bool,
    width: u32,
) -> Result<Word, DraftFault>
    requires a { IsWord draft.old a }
    requires b { IsWord draft.old b }
    requires width { IsWidth width }
    ensures row { IfOk result (λ r. Emits draft.old draft.new r width 10 (λ vs. left_shift_fn width (value signed (vs a.nid)) (num (vs b.nid)))) }
    ensures full { result ≡ Err Full → 2 ^ 32 - 1 ≤ length draft.old.lines + 10 }
{
    let most = b.width.max(width);
    let own = resize(draft, a, signed, width)?;
    let left = resize(draft, own, false, most)?;
    let right = resize(draft, b, false, most)?;
    let moved = join(draft, Binary::Sll, left, right, most)?;
    let word = resize(draft, moved, false, width)?;
    Ok(word)
}

// The operator of a shift down.
fn down_of(signed: bool) -> Binary
    ensures { IsDown signed result }
{
    if signed { Binary::Sra } else { Binary::Srl }
}

/// `$sshr`.
pub fn shift_sign(
    draft: &mut Draft,
    a: Word,
    b: Word,
    signed: bool,
    width: u32,
) -> Result<Word, DraftFault>
    requires a { IsWord draft.old a }
    requires b { IsWord draft.old b }
    requires width { IsWidth width }
    ensures row { IfOk result (λ r. Emits draft.old draft.new r width 8 (λ vs. sign_shift_fn width (value signed (vs a.nid)) (num (vs b.nid)))) }
    ensures full { result ≡ Err Full → 2 ^ 32 - 1 ≤ length draft.old.lines + 8 }
{
    let operands = a.width.max(b.width);
    let most = operands.max(width);
    let left = resize(draft, a, signed, most)?;
    let right = resize(draft, b, false, most)?;
    let moved = join(draft, down_of(signed), left, right, most)?;
    let word = resize(draft, moved, false, width)?;
    Ok(word)
}

// A word moved down by the number of one that isn't wider, zeros coming in.
fn down(draft: &mut Draft, word: Word, by: Word) -> Result<Word, DraftFault>
    requires word { IsWord draft.old word }
    requires by { IsWord draft.old by }
    requires wide { by.width ≤ word.width }
    ensures row { IfOk result (λ r. Emits draft.old draft.new r word.width 4 (λ vs. fit word.width (pos (moved_number (num (vs word.nid)) (pos (num (vs by.nid))))))) }
    ensures full { result ≡ Err Full → 2 ^ 32 - 1 ≤ length draft.old.lines + 4 }
{
    let places = resize(draft, by, false, word.width)?;
    let moved = join(draft, Binary::Srl, word, places, word.width)?;
    Ok(moved)
}

// A word moved up by the opposite of a number below zero. Of other numbers nothing is said.
fn up(draft: &mut Draft, word: Word, by: Word) -> Result<Word, DraftFault>
    requires word { IsWord draft.old word }
    requires by { IsWord draft.old by }
    requires wide { by.width ≤ word.width }
    ensures row { IfOk result (λ r. Emits draft.old draft.new r word.width 6 (λ vs. fit word.width (pos (num (vs word.nid) * 2 ^ num (fit by.width (pos 0 -ℤ pos (num (vs by.nid)))))))) }
    ensures full { result ≡ Err Full → 2 ^ 32 - 1 ≤ length draft.old.lines + 6 }
{
    let opposite = apply(draft, Unary::Neg, by, by.width)?;
    let places = resize(draft, opposite, false, word.width)?;
    let moved = join(draft, Binary::Sll, word, places, word.width)?;
    Ok(moved)
}

// The low word, or where the number is below zero the word moved up.
fn either_way(draft: &mut Draft, low: Word, word: Word, by: Word) -> Result<Word, DraftFault>
    requires low { IsWord draft.old low }
    requires word { IsWord draft.old word }
    requires by { IsWord draft.old by }
    requires size { low.width ≡ word.width }
    requires wide { by.width ≤ word.width }
    ensures row { IfOk result (λ r. Emits draft.old draft.new r word.width 10 (λ vs. cond (top_bit (vs by.nid)) (fit word.width (pos (num (vs word.nid) * 2 ^ num (fit by.width (pos 0 -ℤ pos (num (vs by.nid))))))) (vs low.nid))) }
    ensures full { result ≡ Err Full → 2 ^ 32 - 1 ≤ length draft.old.lines + 10 }
{
    let high = up(draft, word, by)?;
    let sign = slice(draft, by, by.width - 1, 1)?;
    let chosen = mux(draft, low, high, sign)?;
    Ok(chosen)
}

// A word moved down by the number of one that isn't wider, or up where that is below zero.
fn moved(draft: &mut Draft, word: Word, by: Word, by_signed: bool) -> Result<Word, DraftFault>
    requires word { IsWord draft.old word }
    requires by { IsWord draft.old by }
    requires wide { by.width ≤ word.width }
    ensures row { IfOk result (λ r. Emits draft.old draft.new r word.width 14 (λ vs. fit word.width (pos (moved_number (num (vs word.nid)) (value by_signed (vs by.nid)))))) }
    ensures full { result ≡ Err Full → 2 ^ 32 - 1 ≤ length draft.old.lines + 14 }
{
    let low = down(draft, word, by)?;
    if by_signed {
        let chosen = either_way(draft, low, word, by)?;
        return Ok(chosen);
    }
    Ok(low)
}

/// `$shift` and `$shiftx`. The sign of `a` goes up to the larger of its width and the result's, and not to the second operand's.
pub fn shift_any(
    draft: &mut Draft,
    a: Word,
    b: Word,
    signed: bool,
    by_signed: bool,
    width: u32,
) -> Result<Word, DraftFault>
    requires a { IsWord draft.old a }
    requires b { IsWord draft.old b }
    requires width { IsWidth width }
    ensures row { IfOk result (λ r. Emits draft.old draft.new r width 20 (λ vs. any_shift_fn width (max a.width width) (value signed (vs a.nid)) (value by_signed (vs b.nid)))) }
    ensures full { result ≡ Err Full → 2 ^ 32 - 1 ≤ length draft.old.lines + 20 }
{
    let size = a.width.max(width);
    let most = size.max(b.width);
    let own = resize(draft, a, signed, size)?;
    let long = resize(draft, own, false, most)?;
    let shifted = moved(draft, long, b, by_signed)?;
    let word = resize(draft, shifted, false, width)?;
    Ok(word)
}

/// `$shr`.
pub fn shift_right(
    draft: &mut Draft,
    a: Word,
    b: Word,
    signed: bool,
    width: u32,
) -> Result<Word, DraftFault>
    requires a { IsWord draft.old a }
    requires b { IsWord draft.old b }
    requires width { IsWidth width }
    ensures row { IfOk result (λ r. Emits draft.old draft.new r width 20 (λ vs. right_shift_fn width (max a.width width) (value signed (vs a.nid)) (num (vs b.nid)))) }
    ensures full { result ≡ Err Full → 2 ^ 32 - 1 ≤ length draft.old.lines + 20 }
{
    let word = shift_any(draft, a, b, signed, false, width)?;
    Ok(word)
}
