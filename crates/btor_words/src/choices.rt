// Cells that choose among parts of a word.

ghost use Rattle.std.specs.Prelude.{◌≡◌, ◌+◌, ◌-◌, ◌*◌, ◌<◌, ◌≤◌, ◌^◌, Err, IfOk, length};
ghost use Rattle.sby_bits.specs.Rows.{num};
ghost use Rattle.sby_bits.specs.Words.{some_bit};
ghost use Rattle.cell_table.specs.Cells.{bmux_fn, mux_fn, pmux_fn, slice_fn};
ghost use Rattle.btor_core.specs.declared.draft.DraftFault.TheVariants.{Full};
ghost use Rattle.btor_core.specs.Fits.{IsWidth};
ghost use Rattle.btor_words.specs.Emitting.{Emits, IsWord};

use crate::lines::mux;
use crate::sizes::slice;
use btor_core::draft::{Draft, DraftFault};
use btor_core::line::Word;

// The part of `b` at this place where its select is set, else what was chosen.
fn choose(draft: &mut Draft, chosen: Word, b: Word, s: Word, place: u32) -> Result<Word, DraftFault>
    requires chosen { IsWord draft.old chosen }
    requires b { IsWord draft.old b }
    requires s { IsWord draft.old s }
    requires inside { chosen.width * place + chosen.width ≤ b.width }
    requires below { place < s.width }
    ensures row { IfOk result (λ r. Emits draft.old draft.new r chosen.width 6 (λ vs. mux_fn (vs chosen.nid) (slice_fn chosen.width (chosen.width * place) (vs b.nid)) (some_bit (slice_fn 1 place (vs s.nid))))) }
    ensures full { result ≡ Err Full → 2 ^ 32 - 1 ≤ length draft.old.lines + 6 }
{
    let select = slice(draft, s, place, 1)?;
    let part = slice(draft, b, chosen.width * place, chosen.width)?;
    let next = mux(draft, chosen, part, select)?;
    Ok(next)
}

/// `$pmux`. The choices stand in a chain, that of the lowest select last.
pub fn pmux(draft: &mut Draft, a: Word, b: Word, s: Word) -> Result<Word, DraftFault>
    requires a { IsWord draft.old a }
    requires b { IsWord draft.old b }
    requires s { IsWord draft.old s }
    requires widths { b.width ≡ a.width * s.width }
    ensures row { IfOk result (λ r. Emits draft.old draft.new r a.width (6 * s.width) (λ vs. pmux_fn a.width (vs a.nid) (vs b.nid) (vs s.nid))) }
    ensures full { result ≡ Err Full → 2 ^ 32 - 1 ≤ length draft.old.lines + 6 * s.width }
{
    let mut left = s.width;
    let mut chosen = a;
    while left > 0 {
        left -= 1;
        chosen = choose(draft, chosen, b, s, left)?;
    }
    Ok(chosen)
}

// The upper half of a word where the select at this place is set, else the lower.
fn halve(draft: &mut Draft, word: Word, s: Word, place: u32, half: u32) -> Result<Word, DraftFault>
    requires word { IsWord draft.old word }
    requires s { IsWord draft.old s }
    requires width { IsWidth half }
    requires inside { half + half ≤ word.width }
    requires below { place < s.width }
    ensures row { IfOk result (λ r. Emits draft.old draft.new r half 8 (λ vs. mux_fn (slice_fn half 0 (vs word.nid)) (slice_fn half half (vs word.nid)) (some_bit (slice_fn 1 place (vs s.nid))))) }
    ensures full { result ≡ Err Full → 2 ^ 32 - 1 ≤ length draft.old.lines + 8 }
{
    let select = slice(draft, s, place, 1)?;
    let low = slice(draft, word, 0, half)?;
    let high = slice(draft, word, half, half)?;
    let next = mux(draft, low, high, select)?;
    Ok(next)
}

/// `$bmux`: half of what is left is dropped with each select, from the highest on.
pub fn bmux(draft: &mut Draft, a: Word, s: Word, width: u32) -> Result<Word, DraftFault>
    requires a { IsWord draft.old a }
    requires s { IsWord draft.old s }
    requires width { IsWidth width }
    requires widths { a.width ≡ width * 2 ^ s.width }
    ensures row { IfOk result (λ r. Emits draft.old draft.new r width (8 * s.width) (λ vs. bmux_fn width (vs a.nid) (vs s.nid))) }
    ensures full { result ≡ Err Full → 2 ^ 32 - 1 ≤ length draft.old.lines + 8 * s.width }
{
    let mut left = s.width;
    let mut chosen = a;
    while left > 0 {
        left -= 1;
        chosen = halve(draft, chosen, s, left, chosen.width / 2)?;
    }
    Ok(chosen)
}
