// Copies of a design's parts.

ghost use Rattle.std.specs.Prelude.{◌≡◌, All, IfOk, [], map, string_bytes, IfSome, IsTrue, OnOk};
ghost use Rattle.std.specs.List.{list_all};
ghost use Rattle.design_core.specs.Ports.{are_distinct, names_parameter, parameter_number, port_number};
ghost use Rattle.design_signals.specs.Chunks.{IsChunk, bits_of};

use design_core::cell::Cell;
use design_core::digit::Constant;
use design_core::parts::{Parameter, Port};
use design_core::wire::{StartDigits, Wire};
use design_signals::chunk::Chunk;
use design_signals::signal::Signal;
use design_signals::stored::StoredSignal;
use std::alloc::{AllocError, Global};

// A copy of start digits.
fn copy_digits(alloc: Global, digits: &StartDigits) -> Result<StartDigits, AllocError>
    ensures { IfOk result (λ copy. copy ≡ digits.now) }
{
    Ok(StartDigits::new(Vec::from_slice(alloc, digits.as_slice())?))
}

// A copy of the start digits of all attributes.
fn copy_inits(alloc: Global, inits: &[StartDigits]) -> Result<Vec<StartDigits>, AllocError>
    ensures { IfOk result (λ copy. copy.items ≡ inits.now) }
{
    let mut copy = Vec::new(alloc);
    for digits in inits {
        copy.push(copy_digits(alloc, digits)?)?;
    }
    Ok(copy)
}

/// A copy of a wire.
pub(crate) fn copy_wire(alloc: Global, wire: &Wire) -> Result<Wire, AllocError>
    ensures { IfOk result (λ copy. copy ≡ wire.now) }
{
    let name = String::from_str(alloc, wire.name())?;
    let inits = copy_inits(alloc, wire.inits())?;
    Ok(Wire::new(name, wire.width(), wire.input(), inits))
}

// A copy of a constant that is a number of at most 64 digits; it takes no memory of its own.
fn copy_number(constant: &Constant) -> Option<Constant>
    ensures { IfSome result (λ copy. copy ≡ constant.now) }
{
    let len = constant.len();
    match constant.number() {
        Some(number) if len <= 64 => Some(Constant::number_of(number, len as u32)),
        Some(_) | None => None,
    }
}

/// A copy of a constant.
pub(crate) fn copy_constant(alloc: Global, constant: &Constant) -> Result<Constant, AllocError>
    ensures { IfOk result (λ copy. copy ≡ constant.now) }
{
    if let Some(copy) = copy_number(constant) {
        return Ok(copy);
    }
    let mut digits = Vec::new(alloc);
    for place in 0..constant.len() {
        digits.push(constant.digit(place))?;
    }
    Ok(Constant::new(alloc, digits)?)
}

/// A copy of a signal's chunks as a signal that is kept.
pub(crate) fn copy_signal(alloc: Global, chunks: &[Chunk]) -> Result<StoredSignal, AllocError>
    requires { All IsChunk chunks.now }
    ensures { IfOk result (λ copy. copy ≡ bits_of chunks.now) }
{
    let signal = Signal::new(alloc).joined(chunks)?;
    Ok(StoredSignal::new(alloc, signal)?)
}

// Adds copies of these parameters.
fn copy_parameters(
    alloc: Global,
    parameters: &[Parameter],
    copy: &mut Cell,
) -> Result<(), AllocError>
    requires none { copy.old.parameters ≡ [] }
    requires once { IsTrue (are_distinct (λ p. parameter_number p.name) parameters.now) }
    requires named { IsTrue (list_all (λ p. names_parameter copy.old.kind p.name) parameters.now) }
    ensures { OnOk result (copy.new ≡ record copy.old { parameters = parameters.now }) }
{
    for place in 0..parameters.len() {
        let parameter = &parameters[place];
        let digits = copy_constant(alloc, &parameter.digits)?;
        copy.push_parameter(parameter.name, digits)?;
    }
    Ok(())
}

// Adds copies of these ports.
fn copy_ports(alloc: Global, ports: &[Port], copy: &mut Cell) -> Result<(), AllocError>
    requires none { copy.old.ports ≡ [] }
    requires once { IsTrue (are_distinct (λ p. port_number p.name) ports.now) }
    ensures { OnOk result (copy.new ≡ record copy.old { ports = ports.now }) }
{
    for place in 0..ports.len() {
        let port = &ports[place];
        let signal = copy_signal(alloc, port.signal.chunks())?;
        copy.push_port(port.name, signal)?;
    }
    Ok(())
}

// Adds copies of these names of other ports.
fn copy_foreign(foreign: &[String], copy: &mut Cell) -> Result<(), AllocError>
    requires { copy.old.foreign ≡ [] }
    ensures { OnOk result (copy.new ≡ record copy.old { foreign = map string_bytes foreign.now }) }
{
    for place in 0..foreign.len() {
        copy.push_foreign(foreign[place].clone()?)?;
    }
    Ok(())
}

/// A copy of a cell.
pub(crate) fn copy_cell(alloc: Global, cell: &Cell) -> Result<Cell, AllocError>
    ensures { IfOk result (λ copy. copy ≡ cell.now) }
{
    let name = String::from_str(alloc, cell.name())?;
    let mut copy = Cell::new(alloc, cell.kind(), name);
    copy_parameters(alloc, cell.parameters(), &mut copy)?;
    copy_ports(alloc, cell.ports(), &mut copy)?;
    copy_foreign(cell.foreign(), &mut copy)?;
    Ok(copy)
}
