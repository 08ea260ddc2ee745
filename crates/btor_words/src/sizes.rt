// Words at other widths.

ghost use Rattle.std.specs.Prelude.{◌≡◌, ◌≤◌, ◌+◌, ◌-◌, ◌^◌, Err, IfOk, length};
ghost use Rattle.sby_bits.specs.Rows.{ext};
ghost use Rattle.cell_table.specs.Cells.{slice_fn};
ghost use Rattle.btor_core.specs.declared.draft.DraftFault.TheVariants.{Full};
ghost use Rattle.btor_core.specs.Fits.{IsWidth};
ghost use Rattle.btor_words.specs.Emitting.{Emits, IsWord};

use crate::lines::{longer, part};
use btor_core::draft::{Draft, DraftFault};
use btor_core::line::Word;

/// So many bits of the word from a place on.
pub fn slice(draft: &mut Draft, a: Word, offset: u32, width: u32) -> Result<Word, DraftFault>
    requires a { IsWord draft.old a }
    requires width { IsWidth width }
    requires inside { offset + width ≤ a.width }
    ensures row { IfOk result (λ r. Emits draft.old draft.new r width 2 (λ vs. slice_fn width offset (vs a.nid))) }
    ensures full { result ≡ Err Full → 2 ^ 32 - 1 ≤ length draft.old.lines + 2 }
{
    if width == a.width {
        return Ok(a);
    }
    let word = part(draft, a, offset, width)?;
    Ok(word)
}

/// The word at a width: longer by its sign where `signed`, else by zeros; or its lowest bits.
pub fn resize(draft: &mut Draft, a: Word, signed: bool, width: u32) -> Result<Word, DraftFault>
    requires a { IsWord draft.old a }
    requires width { IsWidth width }
    ensures row { IfOk result (λ r. Emits draft.old draft.new r width 2 (λ vs. ext (vs a.nid) signed width)) }
    ensures full { result ≡ Err Full → 2 ^ 32 - 1 ≤ length draft.old.lines + 2 }
{
    if a.width > width {
        let word = part(draft, a, 0, width)?;
        return Ok(word);
    }
    if a.width == width {
        return Ok(a);
    }
    let word = longer(draft, a, signed, width)?;
    Ok(word)
}
