// A design with a cell, as it is read, and lines of the table of cells.

use crate::tests::design_of;
use cell_table::kind::{Kind, Unary};
use design_core::cell::Cell;
use design_core::names::{ParameterName, PortName};
use design_core::next::{NextState, next_state};
use design_core::table::{Role, ports, role_of};
use design_signals::sig_bit::SigBit;
use std::test::Fail;

// No `$not` has a port CI.
const TURNED: &str = r"module \t
    attribute \init 1'0
    wire \q
    wire \d
    wire \y
    cell $not $n
        parameter \A_SIGNED 0 parameter \A_WIDTH 1 parameter \Y_WIDTH 1'1
        connect \A \q connect \Y \d connect \CI \d
    end
    connect { \y \d } 2'xx
end";

fn has_parts(cell: &Cell) -> bool {
    let [output] = cell.output() else {
        return false;
    };
    output.first == SigBit::Wire(1, 0)
        && cell.name() == "$n"
        && cell.kind() == Kind::Unary(Unary::Not)
        && cell.foreign().len() == 1
}

fn has_numbers(cell: &Cell) -> bool {
    cell.number(ParameterName::AWidth) == Some(1)
        && cell.number(ParameterName::YWidth) == Some(1)
        && cell.number(ParameterName::Width).is_none()
}

fn has_signals(cell: &Cell) -> bool {
    cell.signal(PortName::A).len() == 1
        && cell.signal(PortName::Y).len() == 1
        && cell.signal(PortName::Q).is_empty()
}

#[test]
fn design_is_as_read(rt: HostRuntime) -> Result<(), Fail> {
    let design = design_of(rt.alloc(), TURNED)?;
    assert!(rt; design.name() == "\\t" && design.bits() == 3 && design.free() == 2);
    let ([cell], [connect]) = (design.cells(), design.connects()) else {
        return Err(Fail::from("other cells"));
    };
    assert!(rt; has_parts(cell) && has_numbers(cell) && has_signals(cell));
    assert!(rt; connect.cells_before() == 1, "another place");
    Ok(())
}

#[test]
fn table_has_its_lines(rt: HostRuntime) {
    for (kind, role, count) in [
        (Kind::Pmux, Role::Combinational, 4),
        (Kind::Sdffe, Role::Register, 5),
        (Kind::Adffe, Role::AsyncResetRegister, 5),
        (Kind::InitState, Role::Initial, 1),
        (Kind::Unknown, Role::Unsupported, 0),
    ] {
        assert!(rt;
            role_of(kind) == role && ports(kind).len() == count,
            "another line"
        );
    }
    for (kind, enabled, reset, want) in [
        (Kind::Sdffe, false, true, NextState::ResetValue),
        (Kind::Sdffce, false, true, NextState::Held),
        (Kind::Adffe, false, false, NextState::Held),
        (Kind::Adff, false, false, NextState::Data),
    ] {
        assert!(rt; next_state(kind, enabled, reset) == want, "another row");
    }
}
