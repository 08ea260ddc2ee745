// The cells that stand for a lowered register: a register on the new wire, and a `$mux`.

ghost use Rattle.std.specs.Prelude.{◌≡◌, ◌<◌, ◌∷◌, [], cond, IfOk, true};
ghost use Rattle.design_core.specs.Asked.{has_number, number_at};
ghost use Rattle.design_check.specs.Faults.{flag};
ghost use Rattle.design_signals.specs.Chunks.{IsChunk, bits_from, chunk_bits};
ghost use Rattle.design_signals.specs.declared.sig_bit.SigBit.TheVariants.{Wire};
ghost use Rattle.design_lower.specs.Lowering.{digit_bit, digits_of_cell, enabled_register, has_enable, plain_register, register, reset_signal, shown};

use crate::copies::{copy_constant, copy_signal};
use cell_table::kind::Kind;
use design_core::cell::Cell;
use design_core::digit::{Constant, Digit};
use design_core::names::{ParameterName, PortName};
use design_core::parts::is_port;
use design_core::table::ports;
use design_signals::chunk::Chunk;
use design_signals::sig_bit::SigBit;
use design_signals::signal::Signal;
use design_signals::stored::StoredSignal;
use std::alloc::{AllocError, Global};

/// The new wire of a lowered register: its number, and how many bits the register has.
#[derive(Clone, Copy, Debug)]
pub(crate) struct KeptWire {
    pub wire: u32,
    pub width: u32,
}

// Whether a register has an enable.
fn has_enable(cell: &Cell) -> bool
    ensures { result ≡ has_enable cell.now }
{
    ports(cell.kind())
        .iter()
        .any(|line| is_port(line.name, PortName::En))
}

// Whether a parameter isn't 0.
fn flag(cell: &Cell, name: ParameterName) -> bool
    requires { has_number cell.now.parameters name ≡ true }
    ensures { result ≡ flag cell.now name }
{
    cell.number(name) != Some(0)
}

// A copy of a parameter's constant, or one without digits.
fn copied(alloc: Global, cell: &Cell, name: ParameterName) -> Result<Constant, AllocError>
    ensures { IfOk result (λ digits. digits ≡ digits_of_cell cell.now name) }
{
    match cell.parameter(name) {
        Some(constant) => copy_constant(alloc, constant),
        None => Ok(Constant::number_of(0, 0)),
    }
}

// A digit as a signal's chunk.
fn digit_chunk(digit: Digit) -> Chunk
    ensures chunk { IsChunk result }
    ensures bit { chunk_bits result ≡ digit_bit digit ∷ [] }
{
    let first = match digit {
        Digit::Const(bit) => SigBit::Const(bit),
        Digit::Free(number) => SigBit::Free(number),
        Digit::Marker => SigBit::Const(false),
    };
    Chunk { first, width: 1 }
}

// ARST_VALUE as a signal.
fn reset_signal(alloc: Global, cell: &Cell) -> Result<Signal, AllocError>
    ensures { IfOk result (λ signal. signal ≡ reset_signal cell.now) }
{
    let mut signal = Signal::new(alloc);
    let Some(constant) = cell.parameter(ParameterName::ArstValue) else {
        return Ok(signal);
    };
    for place in 0..constant.len() {
        signal.push(digit_chunk(constant.digit(place)))?;
    }
    Ok(signal)
}

// The bits of a kept wire.
fn kept_signal(alloc: Global, kept: KeptWire) -> Result<Signal, AllocError>
    requires { 0 < kept.width }
    ensures { IfOk result (λ signal. signal ≡ bits_from (Wire kept.wire 0) 0 kept.width) }
{
    let mut signal = Signal::new(alloc);
    signal.push(Chunk {
        first: SigBit::Wire(kept.wire, 0),
        width: kept.width,
    })?;
    Ok(signal)
}

// Two signals, the other way round where asked.
fn ordered(turned: bool, first: Signal, second: Signal) -> (Signal, Signal)
    ensures first { result.0 ≡ cond turned second first }
    ensures second { result.1 ≡ cond turned first second }
{
    if turned {
        (second, first)
    } else {
        (first, second)
    }
}

/// What the cell shows: a `$mux` that gives ARST_VALUE while the cell is reset, else the stored row.
pub(crate) fn shown(alloc: Global, cell: &Cell, kept: KeptWire) -> Result<Cell, AllocError>
    requires some { 0 < kept.width }
    requires polarity { has_number cell.now.parameters ParameterName.ArstPolarity ≡ true }
    requires width { number_at cell.now.parameters ParameterName.Width ≡ kept.width }
    ensures { IfOk result (λ mux. mux ≡ shown kept.wire cell.now) }
{
    let name = String::from_str(alloc, cell.name())?;
    let mut mux = Cell::new(alloc, Kind::Mux, name);
    let width = copied(alloc, cell, ParameterName::Width)?;
    mux.push_parameter(ParameterName::Width, width)?;
    let reset = reset_signal(alloc, cell)?;
    let held = kept_signal(alloc, kept)?;
    let (low, high) = ordered(flag(cell, ParameterName::ArstPolarity), reset, held);
    mux.push_port(PortName::A, StoredSignal::new(alloc, low)?)?;
    mux.push_port(PortName::B, StoredSignal::new(alloc, high)?)?;
    let select = copy_signal(alloc, cell.signal(PortName::Arst))?;
    mux.push_port(PortName::S, select)?;
    let output = copy_signal(alloc, cell.output())?;
    mux.push_port(PortName::Y, output)?;
    Ok(mux)
}

// The register of an `$adff`.
fn plain_register(alloc: Global, cell: &Cell, kept: KeptWire) -> Result<Cell, AllocError>
    requires some { 0 < kept.width }
    requires width { number_at cell.now.parameters ParameterName.Width ≡ kept.width }
    ensures { IfOk result (λ r. r ≡ plain_register kept.wire cell.now) }
{
    let name = String::from_str(alloc, cell.name())?;
    let mut register = Cell::new(alloc, Kind::Sdff, name);
    let edge = copied(alloc, cell, ParameterName::ClkPolarity)?;
    register.push_parameter(ParameterName::ClkPolarity, edge)?;
    let polarity = copied(alloc, cell, ParameterName::ArstPolarity)?;
    register.push_parameter(ParameterName::SrstPolarity, polarity)?;
    let value = copied(alloc, cell, ParameterName::ArstValue)?;
    register.push_parameter(ParameterName::SrstValue, value)?;
    let width = copied(alloc, cell, ParameterName::Width)?;
    register.push_parameter(ParameterName::Width, width)?;
    let clock = copy_signal(alloc, cell.signal(PortName::Clk))?;
    register.push_port(PortName::Clk, clock)?;
    let next = copy_signal(alloc, cell.signal(PortName::D))?;
    register.push_port(PortName::D, next)?;
    let held = kept_signal(alloc, kept)?;
    register.push_port(PortName::Q, StoredSignal::new(alloc, held)?)?;
    let reset = copy_signal(alloc, cell.signal(PortName::Arst))?;
    register.push_port(PortName::Srst, reset)?;
    Ok(register)
}

// The register of an `$adffe`.
fn enabled_register(alloc: Global, cell: &Cell, kept: KeptWire) -> Result<Cell, AllocError>
    requires some { 0 < kept.width }
    requires width { number_at cell.now.parameters ParameterName.Width ≡ kept.width }
    ensures { IfOk result (λ r. r ≡ enabled_register kept.wire cell.now) }
{
    let name = String::from_str(alloc, cell.name())?;
    let mut register = Cell::new(alloc, Kind::Sdffe, name);
    let edge = copied(alloc, cell, ParameterName::ClkPolarity)?;
    register.push_parameter(ParameterName::ClkPolarity, edge)?;
    let enabled = copied(alloc, cell, ParameterName::EnPolarity)?;
    register.push_parameter(ParameterName::EnPolarity, enabled)?;
    let polarity = copied(alloc, cell, ParameterName::ArstPolarity)?;
    register.push_parameter(ParameterName::SrstPolarity, polarity)?;
    let value = copied(alloc, cell, ParameterName::ArstValue)?;
    register.push_parameter(ParameterName::SrstValue, value)?;
    let width = copied(alloc, cell, ParameterName::Width)?;
    register.push_parameter(ParameterName::Width, width)?;
    let clock = copy_signal(alloc, cell.signal(PortName::Clk))?;
    register.push_port(PortName::Clk, clock)?;
    let next = copy_signal(alloc, cell.signal(PortName::D))?;
    register.push_port(PortName::D, next)?;
    let enable = copy_signal(alloc, cell.signal(PortName::En))?;
    register.push_port(PortName::En, enable)?;
    let held = kept_signal(alloc, kept)?;
    register.push_port(PortName::Q, StoredSignal::new(alloc, held)?)?;
    let reset = copy_signal(alloc, cell.signal(PortName::Arst))?;
    register.push_port(PortName::Srst, reset)?;
    Ok(register)
}

/// The register that stands in the cell's place.
pub(crate) fn register(alloc: Global, cell: &Cell, kept: KeptWire) -> Result<Cell, AllocError>
    requires some { 0 < kept.width }
    requires width { number_at cell.now.parameters ParameterName.Width ≡ kept.width }
    ensures { IfOk result (λ r. r ≡ register kept.wire cell.now) }
{
    if has_enable(cell) {
        enabled_register(alloc, cell, kept)
    } else {
        plain_register(alloc, cell, kept)
    }
}
