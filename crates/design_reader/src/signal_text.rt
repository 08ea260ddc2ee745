// Signals.

ghost use Rattle.std.specs.Prelude.{◌≡◌, ℕ, ◌+◌, ◌<◌, ◌≤◌, ◌^◌, false, [], ◌∷◌, ◌++◌, List, Ok, None, min, length, All, OnOk, IfOk, slice_index, reverse};
ghost use Rattle.design_signals.specs.declared.sig_bit.SigBit.{SigBit};
ghost use Rattle.design_reader.specs.Grammar.{constant_part, signal_word, signal_name, slice_fault, slice_word, needs, ◌⊳◌, begins_slice, is_ignored_target};
ghost use Rattle.rtlil_constant.specs.Constants.{constant_of};
ghost use Rattle.design_reader.specs.declared.fault.ReadFaultKind.TheVariants.{Syntax};
ghost use Rattle.design_reader.specs.declared.spot.Target.{Target as AnyTarget};
ghost use Rattle.design_reader.specs.declared.spot.Spot.TheVariants.{Part};
ghost use Rattle.design_reader.specs.Drafts.{Gives, draft_of, IsIndexed, Fits, FitsTarget, FitsRows};

use crate::constant_text::constant;
use crate::digit_rows::{push_numbered, push_plain};
use crate::draft::{Draft, has_room};
use crate::fault::ReadFaultKind;
use crate::spot::{Spot, Target};
use crate::stop::Stop;
use crate::word::is_word;
use design_signals::segments::Segments;
use rtlil_constant::digits::Digits;
use rtlil_constant::number::slice_indices;
use std::alloc::Global;

fn is_ignored(target: &Target) -> bool
    ensures { result ≡ is_ignored_target target.now }
{
    match target {
        Target::Port(cell, _) => cell.ignored(),
        Target::Left | Target::Right(_) => false,
    }
}

/// Adds the bits of a constant's digits as a row.
fn push_digits<'a>(
    draft: &mut Draft<'a>,
    target: &Target<'a>,
    segments: &mut Segments,
    digits: &Digits<'a>,
) -> Result<(), Stop>
    requires target { FitsTarget (draft_of draft.old) target.now }
    requires rows { FitsRows (draft_of draft.old) segments.old }
    ensures step { Gives (λ _. (draft_of draft.new, Part target.now segments.new)) result (constant_part (draft_of draft.old) target.now segments.old digits.now) }
    ensures fits { OnOk result (Fits (draft_of draft.new) (Part target.now segments.new)) }
    ensures indexed { IsIndexed draft.old → OnOk result (IsIndexed draft.new) }
{
    if digits.len() == 0 {
        return Err(Stop::Fault(ReadFaultKind::Syntax));
    }
    if digits.has_marker() {
        return Err(Stop::Fault(ReadFaultKind::LeftOut));
    }
    if is_ignored(target) {
        push_plain(segments, digits)?;
        return Ok(());
    }
    let count = digits.open_count();
    if !has_room(&draft.design, count) {
        return Err(Stop::Fault(ReadFaultKind::Limit));
    }
    push_numbered(segments, draft.design.free(), digits)?;
    draft.design.number_free(count as u32);
    Ok(())
}

/// Adds a constant's bits as a row.
fn push_constant<'a>(
    alloc: Global,
    draft: &mut Draft<'a>,
    target: &Target<'a>,
    segments: &mut Segments,
    word: &'a [u8],
) -> Result<(), Stop>
    requires target { FitsTarget (draft_of draft.old) target.now }
    requires rows { FitsRows (draft_of draft.old) segments.old }
    ensures step { Gives (λ _. (draft_of draft.new, Part target.now segments.new)) result
        (needs Syntax (constant_of 1 word.now) ⊳ constant_part (draft_of draft.old) target.now segments.old) }
    ensures fits { OnOk result (Fits (draft_of draft.new) (Part target.now segments.new)) }
    ensures indexed { IsIndexed draft.old → OnOk result (IsIndexed draft.new) }
{
    let digits = constant(1, word)?.digits(alloc)?;
    push_digits(draft, target, segments, &digits)
}

/// A signal begins.
#[tactic(auto, unfolding(crate::specs::Grammar::signal_word))]
pub fn signal_word<'a>(
    alloc: Global,
    draft: &mut Draft<'a>,
    target: Target<'a>,
    segments: Segments,
    word: &'a [u8],
) -> Result<Spot<'a>, Stop>
    requires target { FitsTarget (draft_of draft.old) target }
    requires rows { FitsRows (draft_of draft.old) segments }
    ensures step { Gives (λ s. (draft_of draft.new, s)) result (signal_word (draft_of draft.old) target.entry segments word.now) }
    ensures fits { IfOk result (λ s. Fits (draft_of draft.new) s) }
    ensures indexed { IsIndexed draft.old → OnOk result (IsIndexed draft.new) }
{
    let mut segments = segments;
    if is_word(word, "{") {
        let Ok(()) = segments.open() else {
            target.discard();
            return Err(Stop::Memory);
        };
        return Ok(Spot::Signal(target, segments));
    }
    match push_constant(alloc, draft, &target, &mut segments, word) {
        Ok(()) => Ok(Spot::Part(target, segments)),
        Err(stop) => {
            target.discard();
            Err(stop)
        }
    }
}

/// Adds a wire's bits as a row.
#[tactic(auto, unfolding(crate::specs::Grammar::signal_name))]
fn push_named<'a>(draft: &Draft<'a>, segments: &mut Segments, name: &'a str) -> Result<(), Stop>
    requires indexed { IsIndexed draft.now }
    requires rows { FitsRows (draft_of draft.now) segments.old }
    ensures step { (t : AnyTarget) → Gives (λ _. (draft_of draft.now, Part t segments.new)) result (signal_name (draft_of draft.now) t segments.old name.now) }
    ensures rows { OnOk result (FitsRows (draft_of draft.now) segments.new) }
    ensures some { OnOk result (0 < length segments.new) }
{
    let Some(place) = draft.wires.place(name) else {
        return Err(Stop::Fault(ReadFaultKind::UnknownWire));
    };
    let wires = draft.design.wires();
    segments.push_wire(place as u32, wires[place].width())?;
    Ok(())
}

/// A wire as a signal.
pub fn signal_name<'a>(
    draft: &Draft<'a>,
    target: Target<'a>,
    segments: Segments,
    name: &'a str,
) -> Result<Spot<'a>, Stop>
    requires indexed { IsIndexed draft.now }
    requires target { FitsTarget (draft_of draft.now) target }
    requires rows { FitsRows (draft_of draft.now) segments }
    ensures step { Gives (λ s. (draft_of draft.now, s)) result (signal_name (draft_of draft.now) target.entry segments name.now) }
    ensures fits { IfOk result (λ s. Fits (draft_of draft.now) s) }
{
    let mut segments = segments;
    match push_named(draft, &mut segments, name) {
        Ok(()) => Ok(Spot::Part(target, segments)),
        Err(stop) => {
            target.discard();
            Err(stop)
        }
    }
}

pub fn begins_slice(word: &[u8]) -> bool
    ensures { result ≡ begins_slice word.now }
{
    matches!(word, [b'[', ..])
}

/// Why bits `high` down to `low` aren't in a row of this many bits.
fn slice_fault(width: usize, high: u64, low: u64) -> Option<ReadFaultKind>
    ensures fault { (n m : ℕ) → high ≡ min n 18446744073709551615 → low ≡ min m 18446744073709551615 → result ≡ slice_fault width n m }
    ensures within { result ≡ None → (low ≤ high) × (high < width) × (high < 18446744073709551615) }
{
    if high >= width as u64 || low >= width as u64 {
        return Some(ReadFaultKind::Index);
    }
    if low > high {
        return Some(ReadFaultKind::Syntax);
    }
    None
}

/// A slice of the last row.
pub fn slice(alloc: Global, segments: Segments, word: &[u8]) -> Result<Segments, Stop>
    requires { 1 ≤ length segments }
    ensures { (row : List SigBit) (rows : List (List SigBit)) → segments ≡ row ∷ rows
        → Gives (λ s. s) result (slice_word row word.now ⊳ λ part. Ok (part ∷ rows)) }
{
    let mut segments = segments;
    let Some((high, low)) = slice_indices(word) else {
        return Err(Stop::Fault(ReadFaultKind::Syntax));
    };
    if let Some(kind) = slice_fault(segments.width()?, high, low) {
        return Err(Stop::Fault(kind));
    }
    segments.slice(alloc, high as usize, low as usize)?;
    Ok(segments)
}
