//! The model of a flat design.

ghost use Rattle.std.specs.Prelude.{◌≡◌, List, IfOk, length};
ghost use Rattle.design_check.specs.Faults.{IsFlat};
ghost use Rattle.design_core.specs.Shape.{IsDesign};
ghost use Rattle.design_graph.specs.Order.{IsOrder};
ghost use Rattle.design_graph.specs.declared.driver.Driver.{Driver};
ghost use Rattle.design_meaning.specs.Runs.{kept_width};
ghost use Rattle.design_signals.specs.Chunks.{bits_of};
ghost use Rattle.word_model.specs.Built.{AreOffsets, IsBuilt};
ghost use Rattle.word_model.specs.Model.{IsModelOf};

use crate::nodes::push_nodes;
use crate::registers::push_registers;
use crate::rows::zero;
use crate::statements::{push_asserts, push_assumes, push_covers, push_inputs};
use design_check::flat::Flat;
use design_core::cell::Cell;
use design_core::design::Design;
use design_core::table::{Role, role_of};
use design_signals::chunk::Chunk;
use model_core::draft::Draft;
use model_core::model::WordModel;
use std::alloc::{AllocError, Global};

// How many bits chunks have, if 32 bits hold it.
fn bit_count(chunks: &[Chunk]) -> Result<u32, AllocError>
    ensures { IfOk result (λ count. count ≡ length (bits_of chunks.now)) }
{
    let mut count = 0u32;
    for chunk in chunks {
        let Some(more) = count.checked_add(chunk.width) else {
            return Err(AllocError);
        };
        count = more;
    }
    Ok(count)
}

// How many bits a cell keeps beside the wires, if 32 bits hold it.
fn kept_width(cell: &Cell) -> Result<u32, AllocError>
    ensures { IfOk result (λ width. width ≡ kept_width cell.now) }
{
    match role_of(cell.kind()) {
        Role::AsyncResetRegister => bit_count(cell.output()),
        Role::Combinational
        | Role::Register
        | Role::Constant
        | Role::Initial
        | Role::Source
        | Role::Statement
        | Role::Unsupported => Ok(0),
    }
}

// Where the stored row of each cell begins, and after the last where the model ends, if 32 bits hold it.
pub(crate) fn kept_offsets(alloc: Global, design: &Design) -> Result<Vec<u32>, AllocError>
    ensures { IfOk result (λ offsets. AreOffsets design.now offsets.items) }
{
    let mut offsets = Vec::new(alloc);
    let mut next = zero(design) + 2;
    for cell in design.cells() {
        offsets.push(next)?;
        let width = kept_width(cell)?;
        let Some(end) = next.checked_add(width) else {
            return Err(AllocError);
        };
        next = end;
    }
    offsets.push(next)?;
    Ok(offsets)
}

// The model's parts.
fn built(alloc: Global, flat: &Flat) -> Result<Draft, AllocError>
    ensures { IfOk result (λ m. (order : List Driver) × IsDesign flat.now × IsFlat flat.now × IsOrder flat.now order × IsBuilt flat.now order m) }
{
    let design = flat.design();
    let offsets = kept_offsets(alloc, design)?;
    let cells = design.cells();
    let size = offsets[cells.len()];
    let mut draft = Draft::new(alloc, size, zero(design));
    push_nodes(alloc, flat, &offsets, &mut draft)?;
    push_registers(alloc, flat, &offsets, &mut draft)?;
    push_inputs(alloc, design, &mut draft)?;
    push_asserts(design, &mut draft)?;
    push_assumes(design, &mut draft)?;
    push_covers(design, &mut draft)?;
    Ok(draft)
}

/// The model of a flat design: its bits, stored rows and constants by places, and its cycles and runs both ways. It has one node for each
/// combinational cell, each register with an asynchronous reset and each bit of a connect, and one register for each cell with a state.
pub fn build(alloc: Global, flat: &Flat) -> Result<WordModel, AllocError>
    ensures model { IfOk result (λ m. IsModelOf flat.now m) }
    ensures built { IfOk result (λ m. (order : List Driver) × IsOrder flat.now order × IsBuilt flat.now order m) }
{
    let draft = built(alloc, flat)?;
    Ok(draft.finish())
}
