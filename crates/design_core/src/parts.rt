// The ports and the parameters of cells, by names that the table knows.

ghost use Rattle.std.specs.Prelude.{◌≡◌, ◌↔◌, IsTrue, None, IfSome, All};
ghost use Rattle.std.specs.Option.{option_copied};
ghost use Rattle.design_core.specs.Ports.{digits_at, is_parameter, is_port, names_parameter, parameter_number, port_number, signal_at};
ghost use Rattle.design_signals.specs.Chunks.{IsChunk, bits_of};

use crate::digit::Constant;
use crate::names::{ParameterName, PortName};
use crate::table::parameters;
use cell_table::kind::Kind;
use design_signals::chunk::Chunk;
use design_signals::stored::StoredSignal;

/// A port and the signal at it.
#[derive(Drop)]
pub struct Port {
    pub name: PortName,
    pub signal: StoredSignal,
}

/// A parameter and its constant.
#[derive(Drop)]
pub struct Parameter {
    pub name: ParameterName,
    pub digits: Constant,
}

const _: () = prove!(size_of::<Port>() <= 32);

const _: () = prove!(size_of::<Parameter>() <= 32);

fn port_number(name: PortName) -> u8
    ensures { result ≡ port_number name }
{
    match name {
        PortName::A => 0,
        PortName::B => 1,
        PortName::S => 2,
        PortName::En => 3,
        PortName::Y => 4,
        PortName::Clk => 5,
        PortName::D => 6,
        PortName::Q => 7,
        PortName::Srst => 8,
        PortName::Arst => 9,
    }
}

fn parameter_number(name: ParameterName) -> u8
    ensures { result ≡ parameter_number name }
{
    match name {
        ParameterName::ASigned => 0,
        ParameterName::AWidth => 1,
        ParameterName::BSigned => 2,
        ParameterName::BWidth => 3,
        ParameterName::YWidth => 4,
        ParameterName::Width => 5,
        ParameterName::SWidth => 6,
        ParameterName::Offset => 7,
        ParameterName::ClkPolarity => 8,
        ParameterName::EnPolarity => 9,
        ParameterName::SrstPolarity => 10,
        ParameterName::SrstValue => 11,
        ParameterName::ArstPolarity => 12,
        ParameterName::ArstValue => 13,
    }
}

/// Whether two ports have one name.
pub fn is_port(name: PortName, other: PortName) -> bool
    ensures { result ≡ is_port name other }
{
    port_number(name) == port_number(other)
}

/// Whether two parameters have one name.
pub fn is_parameter(name: ParameterName, other: ParameterName) -> bool
    ensures { result ≡ is_parameter name other }
{
    parameter_number(name) == parameter_number(other)
}

/// Whether the table names the parameter for a type.
pub fn names_parameter(kind: Kind, name: ParameterName) -> bool
    ensures { result ≡ names_parameter kind name }
{
    parameters(kind)
        .iter()
        .any(|other| is_parameter(*other, name))
}

/// The signal of the port of this name, or no bits.
pub fn signal(ports: &[Port], name: PortName) -> &[Chunk]
    ensures bits { bits_of result.now ≡ signal_at ports.now name }
    ensures each { All IsChunk result.now }
{
    for port in ports {
        if is_port(port.name, name) {
            return port.signal.chunks();
        }
    }
    &[]
}

/// The constant of the parameter of this name.
pub fn constant(parameters: &[Parameter], name: ParameterName) -> Option<&Constant>
    ensures { option_copied result ≡ digits_at parameters.now name }
{
    for parameter in parameters {
        if is_parameter(parameter.name, name) {
            return Some(&parameter.digits);
        }
    }
    None
}
