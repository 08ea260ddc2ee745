// Whether a register with an asynchronous reset fits its line of the table.

ghost use Rattle.std.specs.Prelude.{◌≡◌, ◌↔◌, IsTrue, IfSome, IfNone, true, false, length};
ghost use Rattle.std.specs.List.{list_any};
ghost use Rattle.cell_table.specs.declared.kind.Kind.TheVariants.{Adff, Adffe};
ghost use Rattle.design_core.specs.Asked.{are_values, count_of, has_number, number_at};
ghost use Rattle.design_core.specs.Ports.{digits_at, is_port, signal_at};
ghost use Rattle.design_core.specs.Table.{ports_of};
ghost use Rattle.design_lower.specs.Asks.{HasEnabling, HasLine, HasReset, HasSignal, HasSignals, has_only};
ghost use Rattle.design_lower.specs.Lowering.{FitsReset};

use cell_table::kind::Kind;
use design_core::cell::Cell;
use design_core::names::{ParameterName, PortName};
use design_core::parts::is_port;
use design_core::table::ports;

// Whether a parameter is there and has no digit but 0 and 1.
fn has_number(cell: &Cell, name: ParameterName) -> bool
    ensures { result ≡ has_number cell.now.parameters name }
{
    match cell.parameter(name) {
        Some(constant) => constant.is_number(),
        None => false,
    }
}

// How many digits ARST_VALUE has, where each is 0, 1 or a free bit.
fn value_width(cell: &Cell) -> Option<usize>
    ensures some { IfSome result (λ n. (are_values (digits_at cell.now.parameters ParameterName.ArstValue) ≡ true) × (count_of (digits_at cell.now.parameters ParameterName.ArstValue) ≡ n)) }
    ensures none { IfNone result (are_values (digits_at cell.now.parameters ParameterName.ArstValue) ≡ false) }
{
    match cell.parameter(ParameterName::ArstValue) {
        Some(constant) if constant.are_values() => Some(constant.len()),
        Some(_) | None => None,
    }
}

// WIDTH, where the parameters of both types are as asked.
fn reset_width(cell: &Cell) -> Option<usize>
    ensures some { IfSome result (λ n. HasReset cell.now.parameters × (number_at cell.now.parameters ParameterName.Width ≡ n)) }
    ensures none { IfNone result (HasReset cell.now.parameters → ⊥) }
{
    let width = value_width(cell)?;
    let as_asked = width > 0
        && cell.number(ParameterName::Width) == Some(width as u64)
        && has_number(cell, ParameterName::ArstPolarity)
        && has_number(cell, ParameterName::ClkPolarity);
    if as_asked { Some(width) } else { None }
}

// How many bits the signal at a port has, if the port is there.
fn port_len(cell: &Cell, name: PortName) -> Option<usize>
    ensures some { IfSome result (λ n. (list_any (λ p. is_port p.name name) cell.now.ports ≡ true) × (n ≡ length (signal_at cell.now.ports name))) }
    ensures none { IfNone result (list_any (λ p. is_port p.name name) cell.now.ports ≡ false) }
{
    for port in cell.ports() {
        if is_port(port.name, name) {
            return Some(port.signal.len());
        }
    }
    None
}

// Whether the cell has a port of this name and width.
fn has_signal(cell: &Cell, name: PortName, width: usize) -> bool
    ensures { IsTrue result ↔ HasSignal cell.now name width }
{
    match port_len(cell, name) {
        Some(len) => len == width,
        None => false,
    }
}

// Whether the cell has the ports of both types.
fn has_signals(cell: &Cell, width: usize) -> bool
    ensures { IsTrue result ↔ HasSignals cell.now width }
{
    has_signal(cell, PortName::Arst, 1)
        && has_signal(cell, PortName::Clk, 1)
        && has_signal(cell, PortName::D, width)
        && has_signal(cell, PortName::Q, width)
}

// Whether the table asks for a port of this name.
fn asks_port(kind: Kind, name: PortName) -> bool
    ensures { result ≡ list_any (λ l. is_port name l.name) (ports_of kind) }
{
    ports(kind).iter().any(|line| is_port(name, line.name))
}

// Whether each port is one of the type's line.
fn has_only(cell: &Cell, kind: Kind) -> bool
    ensures { result ≡ has_only kind cell.now }
{
    cell.ports().iter().all(|port| asks_port(kind, port.name))
}

// Whether the cell has the ports of both types, and no other than its type's line names.
fn has_line(cell: &Cell, kind: Kind, width: usize) -> bool
    ensures { IsTrue result ↔ HasLine kind cell.now width }
{
    has_signals(cell, width) && has_only(cell, kind) && cell.foreign().is_empty()
}

// Whether the cell has an enable as asked.
fn has_enabling(cell: &Cell) -> bool
    ensures { IsTrue result ↔ HasEnabling cell.now }
{
    has_number(cell, ParameterName::EnPolarity) && has_signal(cell, PortName::En, 1)
}

// Whether an `$adff` fits its line.
fn fits_plain(cell: &Cell) -> bool
    requires { cell.now.kind ≡ Adff }
    ensures { IsTrue result ↔ FitsReset cell.now }
{
    match reset_width(cell) {
        Some(width) => has_line(cell, Kind::Adff, width),
        None => false,
    }
}

// Whether an `$adffe` fits its line.
fn fits_enabled(cell: &Cell) -> bool
    requires { cell.now.kind ≡ Adffe }
    ensures { IsTrue result ↔ FitsReset cell.now }
{
    match reset_width(cell) {
        Some(width) => has_line(cell, Kind::Adffe, width) && has_enabling(cell),
        None => false,
    }
}

/// Whether a cell is a register with an asynchronous reset, and fits its line of the table.
pub(crate) fn fits(cell: &Cell) -> bool
    ensures { IsTrue result ↔ FitsReset cell.now }
{
    match cell.kind() {
        Kind::Adff => fits_plain(cell),
        Kind::Adffe => fits_enabled(cell),
        _ => false,
    }
}
