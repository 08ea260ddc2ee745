// Lines that have a value.

ghost use Rattle.std.specs.Prelude.{◌≡◌, ◌≤◌, ◌+◌, ◌-◌, ◌^◌, ◌++◌, cond, Err, IfOk, length};
ghost use Rattle.sby_bits.specs.Rows.{ext};
ghost use Rattle.sby_bits.specs.Words.{some_bit};
ghost use Rattle.cell_table.specs.Cells.{mux_fn, slice_fn};
ghost use Rattle.btor_core.specs.declared.draft.DraftFault.TheVariants.{Full};
ghost use Rattle.btor_core.specs.declared.line.Binary.TheVariants.{Concat};
ghost use Rattle.btor_core.specs.Fits.{BinaryFits, IsWidth, NodeFits, UnaryFits};
ghost use Rattle.btor_core.specs.Meaning.{binary_row, unary_row};
ghost use Rattle.btor_words.specs.Emitting.{Emits, IsWord};
ghost use Rattle.btor_words.specs.Lining.{Lines};

use btor_core::draft::{Draft, DraftFault};
use btor_core::line::{Binary, Node, Unary, Word};

// A line of this many bits.
pub(crate) fn line(draft: &mut Draft, width: u32, node: Node) -> Result<Word, DraftFault>
    requires width { IsWidth width }
    requires fits { NodeFits draft.old.constants draft.old.lines width node }
    ensures ok { IfOk result (λ r. Lines draft.old draft.new r width node) }
    ensures constants { IfOk result (λ r. draft.new.constants ≡ draft.old.constants) }
    ensures full { result ≡ Err Full → 2 ^ 32 - 1 ≤ length draft.old.lines + 2 }
{
    let word = draft.push(width, node)?;
    draft.promise();
    Ok(word)
}

/// An operator of one operand.
pub fn apply(draft: &mut Draft, operator: Unary, a: Word, width: u32) -> Result<Word, DraftFault>
    requires a { IsWord draft.old a }
    requires width { IsWidth width }
    requires fits { UnaryFits operator width a.width }
    ensures row { IfOk result (λ r. Emits draft.old draft.new r width 2 (λ vs. unary_row operator width (vs a.nid))) }
    ensures full { result ≡ Err Full → 2 ^ 32 - 1 ≤ length draft.old.lines + 2 }
{
    let word = line(draft, width, Node::Unary(operator, a.nid))?;
    Ok(word)
}

/// An operator of two operands.
pub fn join(
    draft: &mut Draft,
    operator: Binary,
    a: Word,
    b: Word,
    width: u32,
) -> Result<Word, DraftFault>
    requires a { IsWord draft.old a }
    requires b { IsWord draft.old b }
    requires width { IsWidth width }
    requires fits { BinaryFits operator width a.width b.width }
    ensures row { IfOk result (λ r. Emits draft.old draft.new r width 2 (λ vs. binary_row operator width (vs a.nid) (vs b.nid))) }
    ensures full { result ≡ Err Full → 2 ^ 32 - 1 ≤ length draft.old.lines + 2 }
{
    let word = line(draft, width, Node::Binary(operator, a.nid, b.nid))?;
    Ok(word)
}

/// The second word above the first.
pub fn above(draft: &mut Draft, low: Word, high: Word) -> Result<Word, DraftFault>
    requires low { IsWord draft.old low }
    requires high { IsWord draft.old high }
    requires width { low.width + high.width ≤ 4096 }
    ensures row { IfOk result (λ r. Emits draft.old draft.new r (low.width + high.width) 2 (λ vs. vs low.nid ++ vs high.nid)) }
    ensures full { result ≡ Err Full → 2 ^ 32 - 1 ≤ length draft.old.lines + 2 }
{
    let word = join(draft, Binary::Concat, high, low, low.width + high.width)?;
    Ok(word)
}

// So many bits of the word from a place on.
pub(crate) fn part(draft: &mut Draft, a: Word, offset: u32, width: u32) -> Result<Word, DraftFault>
    requires a { IsWord draft.old a }
    requires width { IsWidth width }
    requires inside { offset + width ≤ a.width }
    ensures row { IfOk result (λ r. Emits draft.old draft.new r width 2 (λ vs. slice_fn width offset (vs a.nid))) }
    ensures full { result ≡ Err Full → 2 ^ 32 - 1 ≤ length draft.old.lines + 2 }
{
    let word = line(draft, width, Node::Slice(a.nid, offset + width - 1, offset))?;
    Ok(word)
}

// The word at a larger width: by its sign where `signed`, else by zeros.
pub(crate) fn longer(
    draft: &mut Draft,
    a: Word,
    signed: bool,
    width: u32,
) -> Result<Word, DraftFault>
    requires a { IsWord draft.old a }
    requires width { IsWidth width }
    requires longer { a.width ≤ width }
    ensures row { IfOk result (λ r. Emits draft.old draft.new r width 2 (λ vs. ext (vs a.nid) signed width)) }
    ensures full { result ≡ Err Full → 2 ^ 32 - 1 ≤ length draft.old.lines + 2 }
{
    let more = width - a.width;
    if signed {
        let word = line(draft, width, Node::Sext(a.nid, more))?;
        Ok(word)
    } else {
        let word = line(draft, width, Node::Uext(a.nid, more))?;
        Ok(word)
    }
}

/// `$mux`: `b` where the select, of one bit, is set, else `a`.
pub fn mux(draft: &mut Draft, a: Word, b: Word, s: Word) -> Result<Word, DraftFault>
    requires a { IsWord draft.old a }
    requires b { IsWord draft.old b }
    requires s { IsWord draft.old s }
    requires widths { b.width ≡ a.width }
    requires one { s.width ≡ 1 }
    ensures row { IfOk result (λ r. Emits draft.old draft.new r a.width 2 (λ vs. mux_fn (vs a.nid) (vs b.nid) (some_bit (vs s.nid)))) }
    ensures full { result ≡ Err Full → 2 ^ 32 - 1 ≤ length draft.old.lines + 2 }
{
    let word = line(draft, a.width, Node::Ite(s.nid, b.nid, a.nid))?;
    Ok(word)
}
