// Cells.

ghost use Rattle.std.specs.Prelude.{◌≡◌, true, cond, Some, IfOk, OnOk};
ghost use Rattle.design_reader.specs.Grammar.{takes_free, cell_line, cell_name, cell_parameter, parameter_name, port_name, with_cell, goes_on, needs, ◌⊳◌};
ghost use Rattle.rtlil_constant.specs.Constants.{constant_of};
ghost use Rattle.design_reader.specs.Parts.{no_attributes};
ghost use Rattle.design_reader.specs.Drafts.{Gives, draft_of, IsIndexed, Fits, FitsCell, FitsParameter};
ghost use Rattle.design_reader.specs.declared.fault.ReadFaultKind.TheVariants.{Syntax};
ghost use Rattle.design_reader.specs.declared.spot.Spot.TheVariants.{CellLine, Line};

use crate::cell_draft::CellDraft;
use crate::constant_text::constant;
use crate::draft::{Draft, add_cell, has_room};
use crate::fault::ReadFaultKind;
use crate::labels::{bare_name, parameter_label, port_label};
use crate::parameter_digits::{numbered_constant, plain_constant};
use crate::spot::{Attributes, Spot, Target};
use crate::stop::Stop;
use crate::word::is_word;
use cell_table::kind::Kind;
use design_core::names::ParameterName;
use design_core::table::{ParameterForm, form_of};
use design_signals::segments::Segments;
use rtlil_constant::constant::{Constant, is_constant};
use std::alloc::Global;

/// Whether x, z and - are free bits in this parameter.
fn takes_free(name: ParameterName) -> bool
    ensures { result ≡ takes_free name }
{
    match form_of(name) {
        ParameterForm::Value => true,
        ParameterForm::Flag | ParameterForm::Number | ParameterForm::Width => false,
    }
}

/// The name of a new cell.
pub fn cell_name<'a>(
    alloc: Global,
    draft: &mut Draft<'a>,
    kind: Kind,
    ignored: bool,
    name: &'a str,
) -> Result<Spot<'a>, Stop>
    ensures step { Gives (λ s. (draft_of draft.new, s)) result (cell_name (draft_of draft.old) kind ignored name.now) }
    ensures fits { IfOk result (λ s. Fits (draft_of draft.new) s) }
    ensures indexed { IsIndexed draft.old → OnOk result (IsIndexed draft.new) }
{
    if draft.cells.has(name) {
        return Err(Stop::Fault(ReadFaultKind::DoubleName));
    }
    draft.cells.push(name)?;
    let text = String::from_str(alloc, name)?;
    Ok(Spot::CellLine(CellDraft::new(alloc, kind, text, ignored)))
}

/// The end of a cell.
fn end_cell<'a>(alloc: Global, draft: &mut Draft<'a>, cell: CellDraft<'a>) -> Result<Spot<'a>, Stop>
    requires { FitsCell (draft_of draft.old) cell }
    ensures step { Gives (λ s. (draft_of draft.new, s)) result
        (goes_on (cond cell.entry.ignored (draft_of draft.old) (with_cell (draft_of draft.old) cell.entry.cell)) (Line no_attributes)) }
    ensures fits { IfOk result (λ s. Fits (draft_of draft.new) s) }
    ensures indexed { IsIndexed draft.old → OnOk result (IsIndexed draft.new) }
{
    if !cell.ignored() {
        add_cell(&mut draft.design, cell.into_cell())?;
    }
    Ok(Spot::Line(Attributes::none(alloc)))
}

/// A line of a cell, or its `end`.
#[tactic(auto, unfolding(crate::specs::Grammar::cell_line))]
pub fn cell_line<'a>(
    alloc: Global,
    draft: &mut Draft<'a>,
    cell: CellDraft<'a>,
    word: &'a [u8],
) -> Result<Spot<'a>, Stop>
    requires { FitsCell (draft_of draft.old) cell }
    ensures step { Gives (λ s. (draft_of draft.new, s)) result (cell_line (draft_of draft.old) cell.entry word.now) }
    ensures fits { IfOk result (λ s. Fits (draft_of draft.new) s) }
    ensures indexed { IsIndexed draft.old → OnOk result (IsIndexed draft.new) }
{
    if is_word(word, "parameter") {
        return Ok(Spot::CellParameter(cell));
    }
    if is_word(word, "connect") {
        return Ok(Spot::Port(cell));
    }
    if is_word(word, "end") {
        return end_cell(alloc, draft, cell);
    }
    if is_word(word, "module") {
        return Err(Stop::Fault(ReadFaultKind::SeveralModules));
    }
    Err(Stop::Fault(ReadFaultKind::Syntax))
}

/// The name of a parameter.
pub fn parameter_name<'a>(
    draft: &Draft<'a>,
    cell: CellDraft<'a>,
    name: &'a str,
) -> Result<Spot<'a>, Stop>
    requires { FitsCell (draft_of draft.now) cell }
    ensures step { Gives (λ s. (draft_of draft.now, s)) result (parameter_name (draft_of draft.now) cell.entry name.now) }
    ensures fits { IfOk result (λ s. Fits (draft_of draft.now) s) }
{
    let name = bare_name(name);
    let label = parameter_label(cell.kind(), name);
    if cell.has_parameter(name, label) {
        return Err(Stop::Fault(ReadFaultKind::DoubleName));
    }
    let mut cell = cell;
    cell.name_parameter(name, label)?;
    Ok(Spot::CellParameterValue(cell, label))
}

/// The name of a port.
pub fn port_name<'a>(
    alloc: Global,
    draft: &Draft<'a>,
    cell: CellDraft<'a>,
    name: &'a str,
) -> Result<Spot<'a>, Stop>
    requires { FitsCell (draft_of draft.now) cell }
    ensures step { Gives (λ s. (draft_of draft.now, s)) result (port_name (draft_of draft.now) cell.entry name.now) }
    ensures fits { IfOk result (λ s. Fits (draft_of draft.now) s) }
{
    let name = bare_name(name);
    let label = port_label(name);
    if cell.has_port(name, label) {
        return Err(Stop::Fault(ReadFaultKind::DoubleName));
    }
    let cell = cell.with_port_name(alloc, name, label)?;
    Ok(Spot::Signal(Target::Port(cell, label), Segments::new(alloc)))
}

/// Adds a parameter whose x, z and - are free bits.
fn push_free<'a>(
    alloc: Global,
    draft: &mut Draft<'a>,
    cell: &mut CellDraft<'a>,
    name: ParameterName,
    constant: &Constant<'a>,
) -> Result<(), Stop>
    requires fits { FitsCell (draft_of draft.old) cell.old }
    requires fresh { FitsParameter cell.old (Some name) }
    requires free { takes_free name ≡ true }
    ensures step { Gives (λ _. (draft_of draft.new, CellLine cell.new)) result (cell_parameter (draft_of draft.old) cell.old (Some name) constant.now) }
    ensures fits { OnOk result (FitsCell (draft_of draft.new) cell.new) }
    ensures indexed { IsIndexed draft.old → OnOk result (IsIndexed draft.new) }
{
    let digits = constant.digits(alloc)?;
    let count = digits.open_count();
    if !has_room(&draft.design, count) {
        return Err(Stop::Fault(ReadFaultKind::Limit));
    }
    let kept = numbered_constant(alloc, draft.design.free(), &digits)?;
    cell.push_parameter(name, kept)?;
    draft.design.number_free(count as u32);
    Ok(())
}

/// Adds a parameter that the table names for the type.
fn push_parameter<'a>(
    alloc: Global,
    draft: &mut Draft<'a>,
    cell: &mut CellDraft<'a>,
    name: ParameterName,
    constant: &Constant<'a>,
) -> Result<(), Stop>
    requires fits { FitsCell (draft_of draft.old) cell.old }
    requires fresh { FitsParameter cell.old (Some name) }
    ensures step { Gives (λ _. (draft_of draft.new, CellLine cell.new)) result (cell_parameter (draft_of draft.old) cell.old (Some name) constant.now) }
    ensures fits { OnOk result (FitsCell (draft_of draft.new) cell.new) }
    ensures indexed { IsIndexed draft.old → OnOk result (IsIndexed draft.new) }
{
    if takes_free(name) {
        return push_free(alloc, draft, cell, name, constant);
    }
    let kept = plain_constant(alloc, constant)?;
    cell.push_parameter(name, kept)?;
    Ok(())
}

/// The constant of a parameter that is kept.
fn kept_value<'a>(
    alloc: Global,
    draft: &mut Draft<'a>,
    cell: CellDraft<'a>,
    name: ParameterName,
    word: &'a [u8],
) -> Result<Spot<'a>, Stop>
    requires fits { FitsCell (draft_of draft.old) cell }
    requires fresh { FitsParameter cell (Some name) }
    ensures step { Gives (λ s. (draft_of draft.new, s)) result (needs Syntax (constant_of 1 word.now) ⊳ cell_parameter (draft_of draft.old) cell.entry (Some name)) }
    ensures fits { IfOk result (λ s. Fits (draft_of draft.new) s) }
    ensures indexed { IsIndexed draft.old → OnOk result (IsIndexed draft.new) }
{
    let mut cell = cell;
    let constant = constant(1, word)?;
    push_parameter(alloc, draft, &mut cell, name, &constant)?;
    Ok(Spot::CellLine(cell))
}

/// A parameter's constant.
pub fn parameter_value<'a>(
    alloc: Global,
    draft: &mut Draft<'a>,
    cell: CellDraft<'a>,
    label: Option<ParameterName>,
    word: &'a [u8],
) -> Result<Spot<'a>, Stop>
    requires fits { FitsCell (draft_of draft.old) cell }
    requires fresh { FitsParameter cell label }
    ensures step { Gives (λ s. (draft_of draft.new, s)) result (needs Syntax (constant_of 1 word.now) ⊳ cell_parameter (draft_of draft.old) cell.entry label) }
    ensures fits { IfOk result (λ s. Fits (draft_of draft.new) s) }
    ensures indexed { IsIndexed draft.old → OnOk result (IsIndexed draft.new) }
{
    let Some(name) = label else {
        if !is_constant(1, word) {
            return Err(Stop::Fault(ReadFaultKind::Syntax));
        }
        return Ok(Spot::CellLine(cell));
    };
    kept_value(alloc, draft, cell, name, word)
}
