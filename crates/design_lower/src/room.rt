// Whether a lowered design is within the limits of a design.

ghost use Rattle.std.specs.Prelude.{◌≡◌, ◌+◌, ◌<◌, ◌⊎◌, ◌↔◌, IfNone, IfSome, IsTrue};
ghost use Rattle.design_core.specs.Asked.{number_at};
ghost use Rattle.design_core.specs.Shape.{IsDesign};
ghost use Rattle.design_lower.specs.Lowering.{FitsReset};
ghost use Rattle.design_lower.specs.Room.{HasRoom};

use crate::fits::fits;
use design_core::cell::Cell;
use design_core::design::Design;
use design_core::names::ParameterName;

// How many bits and cells more there may be.
#[derive(Clone, Copy, Debug)]
struct Room {
    bits: u32,
    cells: usize,
}

// The room that a register leaves, once it is lowered.
fn room_left(room: Room, cell: &Cell) -> Option<Room>
    requires { FitsReset cell.now }
    ensures some { IfSome result (λ left. (left.bits + number_at cell.now.parameters ParameterName.Width ≡ room.bits) × (left.cells + 1 ≡ room.cells)) }
    ensures none { IfNone result ((room.bits < number_at cell.now.parameters ParameterName.Width) ⊎ (room.cells ≡ 0)) }
{
    let width = cell.number(ParameterName::Width)?;
    if width > u64::from(room.bits) || room.cells == 0 {
        return None;
    }
    Some(Room {
        bits: room.bits - width as u32,
        cells: room.cells - 1,
    })
}

/// Whether the lowered design is within the limits of a design.
pub(crate) fn has_room(design: &Design) -> bool
    ensures room { IsTrue result ↔ HasRoom design.now }
    ensures design { IsDesign design.now }
{
    let cells = design.cells();
    let mut room = Room {
        bits: (1 << 21) - (design.bits() + design.free()),
        cells: (1 << 27) - cells.len(),
    };
    for cell in cells {
        if fits(cell) {
            let Some(left) = room_left(room, cell) else {
                return false;
            };
            room = left;
        }
    }
    true
}
