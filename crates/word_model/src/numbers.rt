//! The places of the state bits by their numbers.

ghost use Rattle.std.specs.Prelude.{◌≡◌, ◌+◌, ◌<◌, ◌^◌, ◌++◌, IfOk, OnOk, length, map};
ghost use Rattle.design_core.specs.Places.{places};
ghost use Rattle.design_core.specs.Shape.{CellOf};
ghost use Rattle.design_core.specs.Table.{role_of};
ghost use Rattle.design_meaning.specs.Meaning.{IsCell};
ghost use Rattle.design_meaning.specs.Runs.{kept_bits};
ghost use Rattle.design_meaning.specs.States.{state_of};
ghost use Rattle.word_model.specs.Built.{AreOffsets};
ghost use Rattle.word_model.specs.Layout.{state_place};
ghost use Rattle.word_model.specs.Numbers.{group_places, has, numbered_places, state_in_group};

use crate::build::kept_offsets;
use crate::rows::{fill_output, fill_range};
use design_check::flat::Flat;
use design_core::table::{Role, role_of};
use std::alloc::{AllocError, Global};

/// State bits whose numbers stand one after the other: those of registers, of `$anyconst`, and of `$initstate`.
#[derive(Clone, Copy, Debug, PartialEq, Eq)]
pub enum Group {
    Registers,
    Constants,
    Initials,
}

impl Group {
    // Whether the state bits of cells of this role are such.
    fn has(self, role: Role) -> bool
        ensures { result ≡ has self role }
    {
        match role {
            Role::Register | Role::AsyncResetRegister => self == Group::Registers,
            Role::Constant => self == Group::Constants,
            Role::Initial => self == Group::Initials,
            Role::Combinational | Role::Source | Role::Statement | Role::Unsupported => false,
        }
    }
}

// Makes the row that of the places of the state bits of the cell at a place.
fn fill_states(
    flat: &Flat,
    offsets: &[u32],
    place: usize,
    row: &mut Vec<u32>,
) -> Result<(), AllocError>
    requires place { place < length flat.now.cells }
    requires offsets { AreOffsets flat.now offsets.now }
    requires fits { places flat.now + kept_bits flat.now < 2 ^ 32 }
    ensures { OnOk result ((c : CellOf) → IsCell flat.now place c → row.new.items ≡ map (state_place flat.now) (state_of (place, c))) }
{
    let design = flat.design();
    let cells = design.cells();
    let cell = &cells[place];
    match role_of(cell.kind()) {
        Role::Register | Role::Constant | Role::Initial => fill_output(design, cell, row),
        Role::AsyncResetRegister => {
            fill_output(design, cell, row)?;
            let count = row.len();
            fill_range(offsets[place], count, row)
        }
        Role::Combinational | Role::Source | Role::Statement | Role::Unsupported => {
            row.clear();
            Ok(())
        }
    }
}

// Adds the places of the state bits of the cell at a place, if it is of the group.
fn push_cell(
    flat: &Flat,
    offsets: &[u32],
    group: Group,
    place: usize,
    row: &mut Vec<u32>,
    numbers: &mut Vec<u32>,
) -> Result<(), AllocError>
    requires place { place < length flat.now.cells }
    requires offsets { AreOffsets flat.now offsets.now }
    ensures { OnOk result ((c : CellOf) → IsCell flat.now place c → numbers.new.items ≡ numbers.old.items ++ map (state_place flat.now) (state_in_group group (place, c))) }
{
    let cells = flat.design().cells();
    if group.has(role_of(cells[place].kind())) {
        fill_states(flat, offsets, place, row)?;
        numbers.extend_from_slice(row)?;
    }
    Ok(())
}

// Adds the places of the state bits of all cells of the group.
fn push_group(
    alloc: Global,
    flat: &Flat,
    offsets: &[u32],
    group: Group,
    numbers: &mut Vec<u32>,
) -> Result<(), AllocError>
    requires offsets { AreOffsets flat.now offsets.now }
    ensures { OnOk result (numbers.new.items ≡ numbers.old.items ++ group_places flat.now group) }
{
    let mut row = Vec::new(alloc);
    let cells = flat.design().cells();
    for place in 0..cells.len() {
        push_cell(flat, offsets, group, place, &mut row, numbers)?;
    }
    Ok(())
}

/// The places in the design's model of its state bits by their numbers, the first of which is 1: the bits of registers, stored rows among
/// them, then of `$anyconst`, then of `$initstate`, each in file order, lowest first.
pub fn numbered_places(alloc: Global, flat: &Flat) -> Result<Vec<u32>, AllocError>
    ensures { IfOk result (λ numbers. numbers.items ≡ numbered_places flat.now) }
{
    let offsets = kept_offsets(alloc, flat.design())?;
    let mut numbers = Vec::new(alloc);
    push_group(alloc, flat, &offsets, Group::Registers, &mut numbers)?;
    push_group(alloc, flat, &offsets, Group::Constants, &mut numbers)?;
    push_group(alloc, flat, &offsets, Group::Initials, &mut numbers)?;
    Ok(numbers)
}
