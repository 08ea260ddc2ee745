// What each word makes of what is read before it.

ghost use Rattle.std.specs.Prelude.{◌≡◌, true, IfOk, OnOk, slice_index};
ghost use Rattle.design_reader.specs.Grammar.{name_step, step, word_step};
ghost use Rattle.design_reader.specs.Drafts.{Gives, draft_of, IsIndexed, Fits};

use crate::cell_text::{cell_line, cell_name, parameter_name, parameter_value, port_name};
use crate::draft::{Draft, add_wire, new_draft};
use crate::fault::ReadFaultKind;
use crate::kinds::{is_ignored, kind};
use crate::labels::starts_name;
use crate::module_text::{
    attribute_value, file_line, is_form, line, module_value, part_name, part_word, wire_number,
    wire_option,
};
use crate::signal_text::{signal_name, signal_word};
use crate::spot::{Attributes, Spot};
use crate::stop::Stop;
use rtlil_constant::constant::is_constant;
use rtlil_constant::number::is_number;
use std::alloc::Global;
use std::mem;

/// A word that is no name.
#[tactic(auto, unfolding(crate::specs::Grammar::word_step))]
fn word_step<'a>(
    alloc: Global,
    draft: &mut Draft<'a>,
    spot: Spot<'a>,
    word: &'a [u8],
) -> Result<Spot<'a>, Stop>
    requires fits { Fits (draft_of draft.old) spot }
    ensures step { Gives (λ s. (draft_of draft.new, s)) result (word_step (draft_of draft.old) spot.entry word.now) }
    ensures fits { IfOk result (λ s. Fits (draft_of draft.new) s) }
    ensures indexed { IsIndexed draft.old → OnOk result (IsIndexed draft.new) }
{
    match spot {
        Spot::File(behind) => file_line(draft, behind, word),
        Spot::AutoIdx(behind) if is_number(word) => Ok(Spot::File(behind)),
        Spot::FileValue(behind) if is_constant(0, word) => Ok(Spot::File(behind)),
        Spot::Line(attributes) => line(alloc, draft, attributes, word),
        Spot::Value(attributes, is_init) => { attribute_value(draft, attributes, is_init, word) }
        Spot::ModuleParameterValue => module_value(alloc, draft, word),
        Spot::WireOption(attributes, options) => wire_option(draft, attributes, options, word),
        Spot::WireNumber(attributes, options, option) => {
            wire_number(draft, attributes, options, option, word)
        }
        Spot::CellLine(cell) => cell_line(alloc, draft, cell, word),
        Spot::CellParameter(cell) if is_form(word) => Ok(Spot::CellParameterName(cell)),
        Spot::CellParameterValue(cell, label) => parameter_value(alloc, draft, cell, label, word),
        Spot::Signal(target, segments) => signal_word(alloc, draft, target, segments, word),
        Spot::Part(target, segments) => part_word(alloc, draft, target, segments, word),
        _ => {
            spot.discard();
            Err(Stop::Fault(ReadFaultKind::Syntax))
        }
    }
}

/// The module's name.
#[tactic(auto, unfolding(crate::specs::Grammar::name_step))]
fn module_name<'a>(alloc: Global, draft: &mut Draft<'a>, name: &'a str) -> Result<Spot<'a>, Stop>
    ensures step { Gives (λ s. (draft_of draft.new, s)) result (name_step (draft_of draft.old) Spot.Module name.now) }
    ensures fits { IfOk result (λ s. Fits (draft_of draft.new) s) }
    ensures indexed { OnOk result (IsIndexed draft.new) }
{
    let new = new_draft(alloc, String::from_str(alloc, name)?);
    mem::replace(draft, new).discard();
    Ok(Spot::Line(Attributes::none(alloc)))
}

/// A name.
#[tactic(auto, unfolding(crate::specs::Grammar::name_step))]
fn name_step<'a>(
    alloc: Global,
    draft: &mut Draft<'a>,
    spot: Spot<'a>,
    name: &'a str,
) -> Result<Spot<'a>, Stop>
    requires fits { Fits (draft_of draft.old) spot }
    requires indexed { IsIndexed draft.old }
    ensures step { Gives (λ s. (draft_of draft.new, s)) result (name_step (draft_of draft.old) spot.entry name.now) }
    ensures fits { IfOk result (λ s. Fits (draft_of draft.new) s) }
    ensures indexed { OnOk result (IsIndexed draft.new) }
{
    match spot {
        Spot::FileAttribute(behind) => Ok(Spot::FileValue(behind)),
        Spot::Module => module_name(alloc, draft, name),
        Spot::Attribute(attributes) => Ok(Spot::Value(attributes, name == r"\init")),
        Spot::ModuleParameter => Ok(Spot::ModuleParameterValue),
        Spot::WireOption(attributes, options) => {
            add_wire(alloc, draft, &attributes, options, name)?;
            Ok(Spot::Line(Attributes::none(alloc)))
        }
        Spot::CellType => Ok(Spot::CellName(kind(name), is_ignored(name))),
        Spot::CellName(kind, ignored) => cell_name(alloc, draft, kind, ignored, name),
        Spot::CellParameter(cell) | Spot::CellParameterName(cell) => {
            parameter_name(draft, cell, name)
        }
        Spot::Port(cell) => port_name(alloc, draft, cell, name),
        Spot::Signal(target, segments) => signal_name(draft, target, segments, name),
        Spot::Part(target, segments) => part_name(alloc, draft, target, segments, name),
        _ => {
            spot.discard();
            Err(Stop::Fault(ReadFaultKind::Syntax))
        }
    }
}

/// One word.
pub fn step<'a>(
    alloc: Global,
    draft: &mut Draft<'a>,
    spot: Spot<'a>,
    word: &'a [u8],
) -> Result<Spot<'a>, Stop>
    requires fits { Fits (draft_of draft.old) spot }
    requires indexed { IsIndexed draft.old }
    ensures step { Gives (λ s. (draft_of draft.new, s)) result (step (draft_of draft.old) spot.entry word.now) }
    ensures fits { IfOk result (λ s. Fits (draft_of draft.new) s) }
    ensures indexed { OnOk result (IsIndexed draft.new) }
{
    if !starts_name(word) {
        return word_step(alloc, draft, spot, word);
    }
    match str::from_utf8(word) {
        Ok(name) => name_step(alloc, draft, spot, name),
        Err(_) => {
            spot.discard();
            Err(Stop::Fault(ReadFaultKind::NotUtf8Name))
        }
    }
}
