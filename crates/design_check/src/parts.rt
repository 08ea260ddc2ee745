// The faults that a cell or a connect has by itself.

ghost use Rattle.std.specs.Prelude.{◌≡◌, ◌≢◌, ◌↔◌, ◌<◌, ℕ, All, IsTrue, MatchOption, Some, length, slice_get};
ghost use Rattle.design_core.specs.Shape.{CellOf, ConnectOf};
ghost use Rattle.design_check.specs.Faults.{IsMixed, IsPartFault};

use crate::fault::FaultKind;
use crate::numbers::{bit_count, flag};
use crate::parameters::has_parameters;
use crate::ports::{has_ports, is_too_wide};
use cell_table::kind::Kind;
use design_core::cell::Cell;
use design_core::connect::Connect;
use design_core::names::ParameterName;
use design_core::table::asks_one_sign;

// Whether the cell has different signs where its type asks for equal ones.
fn is_mixed(cell: &Cell) -> bool
    ensures { IsTrue result ↔ IsMixed cell.now }
{
    asks_one_sign(cell.kind())
        && flag(cell, ParameterName::ASigned) != flag(cell, ParameterName::BSigned)
}

// Whether the cell has this fault by itself.
fn is_at_fault(cell: &Cell, kind: FaultKind) -> bool
    ensures { IsTrue result ↔ IsPartFault kind cell.now }
{
    match kind {
        FaultKind::UnknownCell => matches!(cell.kind(), Kind::Unknown),
        FaultKind::LeftOut => matches!(cell.kind(), Kind::LeftOut(_)),
        FaultKind::BadParameter => !has_parameters(cell),
        FaultKind::PortWidth => !has_ports(cell),
        FaultKind::WidthLimit => is_too_wide(cell),
        FaultKind::MixedSign => is_mixed(cell),
        FaultKind::TwoDrivers | FaultKind::MultiClock | FaultKind::InitConflict | FaultKind::Loop =>
            false,
    }
}

// The first cell that has this fault by itself.
pub(crate) fn first_at_fault(cells: &[Cell], kind: FaultKind) -> Option<usize>
    ensures { MatchOption result
        ((i : ℕ) (c : CellOf) → slice_get cells.now i ≡ Some c → IsPartFault kind c → ⊥)
        (λ r. ((c : CellOf) × (slice_get cells.now r ≡ Some c) × IsPartFault kind c) × ((i : ℕ) (c : CellOf) → i < r → slice_get cells.now i ≡ Some c → IsPartFault kind c → ⊥)) }
{
    for place in 0..cells.len() {
        if is_at_fault(&cells[place], kind) {
            return Some(place);
        }
    }
    None
}

// Whether the sides of a connect differ in width.
fn is_uneven(connect: &Connect) -> bool
    ensures { IsTrue result ↔ (length connect.now.left ≢ length connect.now.right) }
{
    bit_count(connect.left()) != bit_count(connect.right())
}

// The first connect whose sides differ in width.
pub(crate) fn first_uneven(connects: &[Connect]) -> Option<usize>
    ensures { MatchOption result
        ((i : ℕ) (j : ConnectOf) → slice_get connects.now i ≡ Some j → length j.left ≡ length j.right)
        (λ r. ((j : ConnectOf) × (slice_get connects.now r ≡ Some j) × (length j.left ≢ length j.right)) × ((i : ℕ) (j : ConnectOf) → i < r → slice_get connects.now i ≡ Some j → length j.left ≡ length j.right)) }
{
    for place in 0..connects.len() {
        if is_uneven(&connects[place]) {
            return Some(place);
        }
    }
    None
}
