// Lines of the file and of the module.

ghost use Rattle.std.specs.Prelude.{◌≡◌, ◌≤◌, true, [], ◌∷◌, List, length, reverse, IfOk, OnOk};
ghost use Rattle.design_signals.specs.declared.sig_bit.SigBit.{SigBit};
ghost use Rattle.design_reader.specs.Grammar.{file_line, line, bare_line, wire_option, wire_number, with_attribute, is_form, module_value, behind_signal, begins_slice, goes_on, needs, ◌⊳◌, part_word, part_name};
ghost use Rattle.design_reader.specs.Drafts.{Gives, draft_of, IsIndexed, Fits, FitsTarget, FitsRows, HasRoom};
ghost use Rattle.rtlil_constant.specs.Constants.{constant_of};
ghost use Rattle.design_reader.specs.declared.fault.ReadFaultKind.TheVariants.{Syntax};
ghost use Rattle.design_reader.specs.declared.spot.Spot.TheVariants.{Line};

use crate::cell_text::cell_line;
use crate::constant_text::constant;
use crate::draft::{Draft, add_connect, has_room};
use crate::fault::ReadFaultKind;
use crate::signal_text::{begins_slice, signal_name, signal_word, slice};
use crate::spot::{Attributes, NumberedOption, Spot, Target, WireOptions};
use crate::stop::Stop;
use crate::word::is_word;
use design_signals::segments::Segments;
use design_signals::stored::StoredSignal;
use rtlil_constant::constant::is_constant;
use rtlil_constant::number::{is_number, is_signed_number, number};
use std::alloc::{AllocError, Global};

/// A line of the file.
pub fn file_line<'a>(draft: &Draft<'a>, behind: bool, word: &'a [u8]) -> Result<Spot<'a>, Stop>
    ensures step { Gives (λ s. (draft_of draft.now, s)) result (file_line (draft_of draft.now) behind word.now) }
    ensures fits { IfOk result (λ s. Fits (draft_of draft.now) s) }
{
    if is_word(word, "autoidx") {
        return Ok(Spot::AutoIdx(behind));
    }
    if is_word(word, "attribute") {
        return Ok(Spot::FileAttribute(behind));
    }
    if !is_word(word, "module") {
        return Err(Stop::Fault(ReadFaultKind::Syntax));
    }
    if behind {
        return Err(Stop::Fault(ReadFaultKind::SeveralModules));
    }
    Ok(Spot::Module)
}

/// A line of the module that no attribute stands before.
fn bare_line<'a>(alloc: Global, draft: &Draft<'a>, word: &'a [u8]) -> Result<Spot<'a>, Stop>
    ensures step { Gives (λ s. (draft_of draft.now, s)) result (bare_line (draft_of draft.now) word.now) }
    ensures fits { IfOk result (λ s. Fits (draft_of draft.now) s) }
{
    if is_word(word, "parameter") {
        return Ok(Spot::ModuleParameter);
    }
    if is_word(word, "connect") {
        return Ok(Spot::Signal(Target::Left, Segments::new(alloc)));
    }
    if is_word(word, "end") {
        return Ok(Spot::File(true));
    }
    Err(Stop::Fault(ReadFaultKind::Syntax))
}

/// A line of the module.
#[tactic(auto, unfolding(crate::specs::Grammar::line))]
pub fn line<'a>(
    alloc: Global,
    draft: &Draft<'a>,
    attributes: Attributes<'a>,
    word: &'a [u8],
) -> Result<Spot<'a>, Stop>
    ensures step { Gives (λ s. (draft_of draft.now, s)) result (line (draft_of draft.now) attributes.entry word.now) }
    ensures fits { IfOk result (λ s. Fits (draft_of draft.now) s) }
{
    if is_word(word, "attribute") {
        return Ok(Spot::Attribute(attributes));
    }
    if is_word(word, "wire") {
        if !has_room(&draft.design, 1) {
            return Err(Stop::Fault(ReadFaultKind::Limit));
        }
        let options = WireOptions {
            width: None,
            input: false,
        };
        return Ok(Spot::WireOption(attributes, options));
    }
    if is_word(word, "cell") {
        return Ok(Spot::CellType);
    }
    if is_word(word, "memory") || is_word(word, "process") {
        return Err(Stop::Fault(ReadFaultKind::LeftOut));
    }
    if is_word(word, "module") {
        return Err(Stop::Fault(ReadFaultKind::SeveralModules));
    }
    if attributes.some() {
        return Err(Stop::Fault(ReadFaultKind::Syntax));
    }
    bare_line(alloc, draft, word)
}

/// An option of a wire.
pub fn wire_option<'a>(
    draft: &Draft<'a>,
    attributes: Attributes<'a>,
    options: WireOptions,
    word: &'a [u8],
) -> Result<Spot<'a>, Stop>
    requires { HasRoom (draft_of draft.now) options }
    ensures step { Gives (λ s. (draft_of draft.now, s)) result (wire_option (draft_of draft.now) attributes.entry options word.now) }
    ensures fits { IfOk result (λ s. Fits (draft_of draft.now) s) }
{
    let numbered = if is_word(word, "width") {
        if options.width.is_some() {
            return Err(Stop::Fault(ReadFaultKind::Syntax));
        }
        NumberedOption::Width
    } else if is_word(word, "offset") {
        NumberedOption::Offset
    } else if is_word(word, "input") {
        NumberedOption::Input
    } else if is_word(word, "output") {
        NumberedOption::Output
    } else if is_word(word, "inout") {
        return Err(Stop::Fault(ReadFaultKind::LeftOut));
    } else if is_word(word, "upto") || is_word(word, "signed") {
        return Ok(Spot::WireOption(attributes, options));
    } else {
        return Err(Stop::Fault(ReadFaultKind::Syntax));
    };
    Ok(Spot::WireNumber(attributes, options, numbered))
}

/// A wire's width.
fn wire_width<'a>(
    draft: &Draft<'a>,
    attributes: Attributes<'a>,
    options: WireOptions,
    word: &'a [u8],
) -> Result<Spot<'a>, Stop>
    ensures step { Gives (λ s. (draft_of draft.now, s)) result (wire_number (draft_of draft.now) attributes.entry options NumberedOption.Width word.now) }
    ensures fits { IfOk result (λ s. Fits (draft_of draft.now) s) }
{
    let Some(width) = number(word) else {
        return Err(Stop::Fault(ReadFaultKind::Syntax));
    };
    if width == 0 {
        return Err(Stop::Fault(ReadFaultKind::LeftOut));
    }
    if !has_room(&draft.design, width as usize) {
        return Err(Stop::Fault(ReadFaultKind::Limit));
    }
    let options = WireOptions {
        width: Some(width as u32),
        input: options.input,
    };
    Ok(Spot::WireOption(attributes, options))
}

/// The number of a wire's option.
pub fn wire_number<'a>(
    draft: &Draft<'a>,
    attributes: Attributes<'a>,
    options: WireOptions,
    option: NumberedOption,
    word: &'a [u8],
) -> Result<Spot<'a>, Stop>
    requires { HasRoom (draft_of draft.now) options }
    ensures step { Gives (λ s. (draft_of draft.now, s)) result (wire_number (draft_of draft.now) attributes.entry options option word.now) }
    ensures fits { IfOk result (λ s. Fits (draft_of draft.now) s) }
{
    let options = match option {
        NumberedOption::Width => return wire_width(draft, attributes, options, word),
        NumberedOption::Offset => {
            if !is_signed_number(word) {
                return Err(Stop::Fault(ReadFaultKind::Syntax));
            }
            return Ok(Spot::WireOption(attributes, options));
        }
        NumberedOption::Input => WireOptions {
            width: options.width,
            input: true,
        },
        NumberedOption::Output => options,
    };
    if !is_number(word) {
        return Err(Stop::Fault(ReadFaultKind::Syntax));
    }
    Ok(Spot::WireOption(attributes, options))
}

/// The constant of an attribute, which is kept where it is that of `\init`.
pub fn attribute_value<'a>(
    draft: &Draft<'a>,
    attributes: Attributes<'a>,
    is_init: bool,
    word: &'a [u8],
) -> Result<Spot<'a>, Stop>
    ensures step { Gives (λ s. (draft_of draft.now, s)) result (needs Syntax (constant_of 0 word.now) ⊳ λ digits. goes_on (draft_of draft.now) (Line (with_attribute attributes.entry is_init digits))) }
    ensures fits { IfOk result (λ s. Fits (draft_of draft.now) s) }
{
    let mut attributes = attributes;
    if is_init {
        attributes.push(constant(0, word)?)?;
        return Ok(Spot::Line(attributes));
    }
    if !is_constant(0, word) {
        return Err(Stop::Fault(ReadFaultKind::Syntax));
    }
    attributes.pass();
    Ok(Spot::Line(attributes))
}

pub fn is_form(word: &[u8]) -> bool
    ensures { result ≡ is_form word.now }
{
    is_word(word, "signed") || is_word(word, "real")
}

/// The constant of a parameter of the module, or the next line.
pub fn module_value<'a>(alloc: Global, draft: &Draft<'a>, word: &'a [u8]) -> Result<Spot<'a>, Stop>
    ensures step { Gives (λ s. (draft_of draft.now, s)) result (module_value (draft_of draft.now) word.now (constant_of 1 word.now)) }
    ensures fits { IfOk result (λ s. Fits (draft_of draft.now) s) }
{
    let attributes = Attributes::none(alloc);
    if is_constant(1, word) {
        return Ok(Spot::Line(attributes));
    }
    line(alloc, draft, attributes, word)
}

/// The only row as a signal.
fn stored(alloc: Global, segments: Segments) -> Result<StoredSignal, AllocError>
    requires { length segments ≡ 1 }
    ensures { IfOk result (λ signal. (row : List SigBit) → segments ≡ row ∷ [] → signal ≡ reverse row) }
{
    StoredSignal::new(alloc, segments.into_signal(alloc)?)
}

/// What stands after a signal that is in no concatenation.
fn behind_signal<'a>(
    alloc: Global,
    draft: &mut Draft<'a>,
    target: Target<'a>,
    segments: Segments,
    word: &'a [u8],
) -> Result<Spot<'a>, Stop>
    requires one { length segments ≡ 1 }
    requires target { FitsTarget (draft_of draft.old) target }
    requires rows { FitsRows (draft_of draft.old) segments }
    ensures step { (row : List SigBit) → segments ≡ row ∷ []
        → Gives (λ s. (draft_of draft.new, s)) result (behind_signal (draft_of draft.old) target.entry row word.now) }
    ensures fits { IfOk result (λ s. Fits (draft_of draft.new) s) }
    ensures indexed { IsIndexed draft.old → OnOk result (IsIndexed draft.new) }
{
    let Ok(signal) = stored(alloc, segments) else {
        target.discard();
        return Err(Stop::Memory);
    };
    match target {
        Target::Port(mut cell, label) => {
            cell.push_port(label, signal)?;
            cell_line(alloc, draft, cell, word)
        }
        Target::Left => {
            let target = Target::Right(signal);
            signal_word(alloc, draft, target, Segments::new(alloc), word)
        }
        Target::Right(left) => {
            add_connect(&mut draft.design, left, signal)?;
            line(alloc, draft, Attributes::none(alloc), word)
        }
    }
}

/// A slice of the signal that was just read.
#[tactic(auto, unfolding(crate::specs::Grammar::part_word))]
fn slice_part<'a>(
    alloc: Global,
    draft: &Draft<'a>,
    target: Target<'a>,
    segments: Segments,
    word: &'a [u8],
) -> Result<Spot<'a>, Stop>
    requires some { 1 ≤ length segments }
    requires slice { begins_slice word.now ≡ true }
    requires target { FitsTarget (draft_of draft.now) target }
    requires rows { FitsRows (draft_of draft.now) segments }
    ensures step { Gives (λ s. (draft_of draft.now, s)) result (part_word (draft_of draft.now) target.entry segments word.now) }
    ensures fits { IfOk result (λ s. Fits (draft_of draft.now) s) }
{
    match slice(alloc, segments, word) {
        Ok(segments) => Ok(Spot::Part(target, segments)),
        Err(stop) => {
            target.discard();
            Err(stop)
        }
    }
}

/// After a signal: a slice of it, the end of its concatenation, the next part, or what stands after it.
#[tactic(auto, unfolding(crate::specs::Grammar::part_word))]
pub fn part_word<'a>(
    alloc: Global,
    draft: &mut Draft<'a>,
    target: Target<'a>,
    segments: Segments,
    word: &'a [u8],
) -> Result<Spot<'a>, Stop>
    requires some { 1 ≤ length segments }
    requires target { FitsTarget (draft_of draft.old) target }
    requires rows { FitsRows (draft_of draft.old) segments }
    ensures step { Gives (λ s. (draft_of draft.new, s)) result (part_word (draft_of draft.old) target.entry segments word.now) }
    ensures fits { IfOk result (λ s. Fits (draft_of draft.new) s) }
    ensures indexed { IsIndexed draft.old → OnOk result (IsIndexed draft.new) }
{
    if begins_slice(word) {
        return slice_part(alloc, draft, target, segments, word);
    }
    if segments.len() == 1 {
        return behind_signal(alloc, draft, target, segments, word);
    }
    let mut segments = segments;
    segments.join();
    if is_word(word, "}") {
        return Ok(Spot::Part(target, segments));
    }
    signal_word(alloc, draft, target, segments, word)
}

/// A name after a signal: the next part of its concatenation, or the right side of a `connect`.
#[tactic(auto, unfolding(crate::specs::Grammar::part_name))]
pub fn part_name<'a>(
    alloc: Global,
    draft: &Draft<'a>,
    target: Target<'a>,
    segments: Segments,
    name: &'a str,
) -> Result<Spot<'a>, Stop>
    requires some { 1 ≤ length segments }
    requires indexed { IsIndexed draft.now }
    requires target { FitsTarget (draft_of draft.now) target }
    requires rows { FitsRows (draft_of draft.now) segments }
    ensures step { Gives (λ s. (draft_of draft.now, s)) result (part_name (draft_of draft.now) target.entry segments name.now) }
    ensures fits { IfOk result (λ s. Fits (draft_of draft.now) s) }
{
    if segments.len() > 1 {
        let mut segments = segments;
        segments.join();
        return signal_name(draft, target, segments, name);
    }
    match target {
        Target::Left => {
            let target = Target::Right(stored(alloc, segments)?);
            signal_name(draft, target, Segments::new(alloc), name)
        }
        Target::Port(..) | Target::Right(_) => {
            target.discard();
            Err(Stop::Fault(ReadFaultKind::Syntax))
        }
    }
}
