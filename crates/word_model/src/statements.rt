// The assertions, assumptions and cover statements, and the inputs.

ghost use Rattle.std.specs.Prelude.{◌≡◌, ◌++◌, OnOk, map};
ghost use Rattle.design_core.specs.Places.{place_of};
ghost use Rattle.design_core.specs.Shape.{IsCellOf};
ghost use Rattle.design_meaning.specs.Meaning.{asserts, assumes, covers, is_assert, is_assume, is_cover};
ghost use Rattle.design_meaning.specs.States.{input_bits};
ghost use Rattle.word_model.specs.Built.{statement_of};

use crate::rows::{bit_place, place};
use cell_table::kind::{Kind, Statement as StatementKind};
use design_core::cell::Cell;
use design_core::design::Design;
use design_core::names::PortName;
use design_states::input_bits::input_bits;
use model_core::draft::Draft;
use model_core::model::Statement;
use std::alloc::{AllocError, Global};

fn statement_of(design: &Design, cell: &Cell) -> Statement
    requires { IsCellOf design.now.wires design.now.free cell.now }
    ensures { result ≡ statement_of design.now cell.now }
{
    Statement {
        a: bit_place(design, cell.signal(PortName::A)),
        en: bit_place(design, cell.signal(PortName::En)),
    }
}

fn is_assert(kind: Kind) -> bool
    ensures { result ≡ is_assert kind }
{
    matches!(kind, Kind::Statement(StatementKind::Assert))
}

/// Adds all assertions, in file order.
pub(crate) fn push_asserts(design: &Design, draft: &mut Draft) -> Result<(), AllocError>
    ensures { OnOk result (draft.new ≡ record draft.old { asserts = draft.old.asserts ++ map (statement_of design.now) (asserts design.now) }) }
{
    let cells = design.cells();
    for place in 0..cells.len() {
        let cell = &cells[place];
        if is_assert(cell.kind()) {
            draft.push_assert(statement_of(design, cell))?;
        }
    }
    Ok(())
}

fn is_assume(kind: Kind) -> bool
    ensures { result ≡ is_assume kind }
{
    matches!(kind, Kind::Statement(StatementKind::Assume))
}

/// Adds all assumptions, in file order.
pub(crate) fn push_assumes(design: &Design, draft: &mut Draft) -> Result<(), AllocError>
    ensures { OnOk result (draft.new ≡ record draft.old { assumes = draft.old.assumes ++ map (statement_of design.now) (assumes design.now) }) }
{
    let cells = design.cells();
    for place in 0..cells.len() {
        let cell = &cells[place];
        if is_assume(cell.kind()) {
            draft.push_assume(statement_of(design, cell))?;
        }
    }
    Ok(())
}

fn is_cover(kind: Kind) -> bool
    ensures { result ≡ is_cover kind }
{
    matches!(kind, Kind::Statement(StatementKind::Cover))
}

/// Adds all cover statements, in file order.
pub(crate) fn push_covers(design: &Design, draft: &mut Draft) -> Result<(), AllocError>
    ensures { OnOk result (draft.new ≡ record draft.old { covers = draft.old.covers ++ map (statement_of design.now) (covers design.now) }) }
{
    let cells = design.cells();
    for place in 0..cells.len() {
        let cell = &cells[place];
        if is_cover(cell.kind()) {
            draft.push_cover(statement_of(design, cell))?;
        }
    }
    Ok(())
}

/// Adds all inputs.
pub(crate) fn push_inputs(
    alloc: Global,
    design: &Design,
    draft: &mut Draft,
) -> Result<(), AllocError>
    ensures { OnOk result (draft.new ≡ record draft.old { inputs = draft.old.inputs ++ map (place_of design.now) (input_bits design.now) }) }
{
    let bits = input_bits(alloc, design)?;
    let list = bits.as_slice();
    for index in 0..list.len() {
        draft.push_input(place(design, list[index]))?;
    }
    Ok(())
}
