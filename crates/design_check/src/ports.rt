// Whether a cell's ports are as the table of cells asks.

ghost use Rattle.std.specs.Prelude.{◌≡◌, ◌↔◌, ◌+◌, ◌*◌, ◌<◌, ◌≤◌, ◌^◌, ℕ, IfNone, IfSome, Contains, IsTrue, true, false, length};
ghost use Rattle.std.specs.List.{list_all, list_any};
ghost use Rattle.design_core.specs.Asked.{HasPort, HasPorts, number_at};
ghost use Rattle.design_core.specs.Ports.{is_port, signal_at};
ghost use Rattle.design_core.specs.Table.{ports_of, width_of};
ghost use Rattle.design_check.specs.Faults.{IsTooWide};
ghost use Rattle.design_core.specs.declared.table.PortLine.{PortLine};
ghost use Rattle.design_check.specs.Numbers.{IsNumber};

use crate::numbers::number;
use cell_table::kind::Kind;
use design_core::cell::Cell;
use design_core::names::PortName;
use design_core::parts::is_port;
use design_core::table::{PortLine, PortWidth, ports, width_limit};

// A number times one that is past 64 bits.
fn times_past(number: u64) -> Option<u64>
    ensures left { (b : ℕ) → 2 ^ 64 ≤ b → IsNumber result (number * b) }
    ensures right { (b : ℕ) → 2 ^ 64 ≤ b → IsNumber result (b * number) }
{
    if number == 0 { Some(0) } else { None }
}

// The product of two numbers; None where it is past 64 bits.
fn product(left: Option<u64>, right: Option<u64>) -> Option<u64>
    ensures { (a b : ℕ) → IsNumber left a → IsNumber right b → IsNumber result (a * b) }
{
    match (left, right) {
        (Some(left), Some(right)) => left.checked_mul(right),
        (Some(left), None) => times_past(left),
        (None, Some(right)) => times_past(right),
        (None, None) => None,
    }
}

// Two to the power of a number; None where it is past 64 bits.
fn power(selects: Option<u64>) -> Option<u64>
    ensures { (b : ℕ) → IsNumber selects b → IsNumber result (2 ^ b) }
{
    match selects {
        Some(selects) if selects < 64 => Some(1u64 << selects),
        _ => None,
    }
}

// The sum of two numbers; None where it is past 64 bits.
fn sum(left: Option<u64>, right: Option<u64>) -> Option<u64>
    ensures { (a b : ℕ) → IsNumber left a → IsNumber right b → IsNumber result (a + b) }
{
    match (left, right) {
        (Some(left), Some(right)) => left.checked_add(right),
        _ => None,
    }
}

// A port's width by the cell's parameters; None where it is past 64 bits.
fn width(cell: &Cell, width: PortWidth) -> Option<u64>
    ensures { IsNumber result (width_of (number_at cell.now.parameters) width) }
{
    match width {
        PortWidth::One => Some(1),
        PortWidth::Of(name) => number(cell, name),
        PortWidth::Product(left, right) => product(number(cell, left), number(cell, right)),
        PortWidth::Choice(each, selects) => product(
            number(cell, each),
            power(number(cell, selects)),
        ),
        PortWidth::Sum(left, right) => sum(number(cell, left), number(cell, right)),
    }
}

// How many bits the signal at a port has, if the port is there.
fn port_len(cell: &Cell, name: PortName) -> Option<usize>
    ensures some { IfSome result (λ n. (list_any (λ p. is_port p.name name) cell.now.ports ≡ true) × (n ≡ length (signal_at cell.now.ports name))) }
    ensures none { IfNone result (list_any (λ p. is_port p.name name) cell.now.ports ≡ false) }
{
    for port in cell.ports() {
        if is_port(port.name, name) {
            return Some(port.signal.len());
        }
    }
    None
}

// Whether the cell has the port, with its width.
fn has_port(cell: &Cell, line: &PortLine) -> bool
    ensures { IsTrue result ↔ HasPort cell.now line.now }
{
    match port_len(cell, line.name) {
        Some(len) => width(cell, line.width) == Some(len as u64),
        None => false,
    }
}

// Whether the cell has each of these ports, with its width.
fn has_lines(cell: &Cell, lines: &[PortLine]) -> bool
    ensures { IsTrue result ↔ ((l : PortLine) → Contains lines.now l → HasPort cell.now l) }
{
    for line in lines {
        if !has_port(cell, line) {
            return false;
        }
    }
    true
}

// Whether the table asks for a port of this name.
fn asks_port(kind: Kind, name: PortName) -> bool
    ensures { result ≡ list_any (λ l. is_port name l.name) (ports_of kind) }
{
    ports(kind).iter().any(|line| is_port(name, line.name))
}

// Whether each port is one that the table asks for.
fn has_only_ports(cell: &Cell) -> bool
    ensures { result ≡ list_all (λ p. list_any (λ l. is_port p.name l.name) (ports_of cell.now.kind)) cell.now.ports }
{
    let kind = cell.kind();
    cell.ports().iter().all(|port| asks_port(kind, port.name))
}

// Whether the cell has just the ports that the table asks for, each of its width.
pub(crate) fn has_ports(cell: &Cell) -> bool
    ensures { IsTrue result ↔ HasPorts cell.now }
{
    has_lines(cell, ports(cell.kind())) && has_only_ports(cell) && cell.foreign().is_empty()
}

// Whether some signal of the cell has more bits than it may have.
pub(crate) fn is_too_wide(cell: &Cell) -> bool
    ensures { IsTrue result ↔ IsTooWide cell.now }
{
    let limit = width_limit(cell.kind());
    for port in cell.ports() {
        if port.signal.len() > limit {
            return true;
        }
    }
    false
}
