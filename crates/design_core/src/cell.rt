// The cells of a design.

ghost use Rattle.std.specs.Prelude.{◌≡◌, All, [], ◌∷◌, ◌++◌, map, string_bytes, false, IsTrue, OnOk, OnErr, IfSome, IfNone, ◌⊎◌, ◌≤◌, ◌^◌, true, None, length};
ghost use Rattle.std.specs.List.{list_all, list_any};
ghost use Rattle.std.specs.Option.{option_copied};
ghost use Rattle.design_core.specs.Asked.{has_number, number_at, output_of};
ghost use Rattle.design_core.specs.Ports.{are_distinct, digits_at, is_parameter, is_port, names_parameter, parameter_number, port_number, signal_at};
ghost use Rattle.design_signals.specs.Chunks.{IsChunk, bits_of};

use crate::digit::Constant;
use crate::names::{ParameterName, PortName};
use crate::parts::{Parameter, Port, constant, is_parameter, is_port, signal};
use crate::table::{output_port, role_of};
use cell_table::kind::Kind;
use design_signals::chunk::Chunk;
use design_signals::stored::StoredSignal;
use std::alloc::{AllocError, Global};
use std::marker::Model;

/// A cell: its type, its name, and its parameters and ports, whose names are the table's and stand once. Of its other ports it has
/// the names alone.
#[derive(Drop)]
pub struct Cell {
    kind: Kind,
    name: String,
    parameters: Vec<Parameter>,
    ports: Vec<Port>,
    foreign: Vec<String>,
}

impl Model for Cell {
    ghost use Rattle.design_core.specs.Shape.{CellOf};

    ghost Value = { CellOf };

    ghost use Rattle.design_core.specs.Cell.{IsCellInside, cell_of};

    ghost view = { cell_of };

    ghost invariant = { IsCellInside };
}

impl Cell {
    /// A cell with no parameter and no port yet.
    pub fn new(alloc: Global, kind: Kind, name: String) -> Cell
        ensures { result ≡ record { kind = kind; name = string_bytes name; parameters = []; ports = []; foreign = [] } }
    {
        Cell {
            kind,
            name,
            parameters: Vec::new(alloc),
            ports: Vec::new(alloc),
            foreign: Vec::new(alloc),
        }
    }

    /// Its type.
    pub fn kind(&self) -> Kind
        ensures { result ≡ self.now.kind }
    {
        self.kind
    }

    /// The name, as in the file.
    pub fn name(&self) -> &str
        ensures { result.now ≡ self.now.name }
    {
        self.name.as_str()
    }

    /// The parameters, in file order.
    pub fn parameters(&self) -> &[Parameter]
        ensures parameters { result.now ≡ self.now.parameters }
        ensures once { IsTrue (are_distinct (λ p. parameter_number p.name) self.now.parameters) }
        ensures named { IsTrue (list_all (λ p. names_parameter self.now.kind p.name) self.now.parameters) }
    {
        self.parameters.as_slice()
    }

    /// The ports, in file order.
    pub fn ports(&self) -> &[Port]
        ensures ports { result.now ≡ self.now.ports }
        ensures once { IsTrue (are_distinct (λ p. port_number p.name) self.now.ports) }
    {
        self.ports.as_slice()
    }

    /// The names of the other ports, in file order.
    pub fn foreign(&self) -> &[String]
        ensures { map string_bytes result.now ≡ self.now.foreign }
    {
        self.foreign.as_slice()
    }

    /// Whether there is a parameter of this name.
    pub fn has_parameter(&self, name: ParameterName) -> bool
        ensures { result ≡ list_any (λ p. is_parameter p.name name) self.now.parameters }
    {
        self.parameters
            .iter()
            .any(|parameter| is_parameter(parameter.name, name))
    }

    /// The constant of the parameter of this name.
    pub fn parameter(&self, name: ParameterName) -> Option<&Constant>
        ensures { option_copied result ≡ digits_at self.now.parameters name }
    {
        constant(self.parameters.as_slice(), name)
    }

    /// The parameter of this name as a number, where it is there, has no digit but 0 and 1, and 64 bits hold it.
    pub fn number(&self, name: ParameterName) -> Option<u64>
        ensures some { IfSome result (λ n. (has_number self.now.parameters name ≡ true) × (n ≡ number_at self.now.parameters name)) }
        ensures none { IfNone result ((has_number self.now.parameters name ≡ false) ⊎ (2 ^ 64 ≤ number_at self.now.parameters name)) }
    {
        match self.parameter(name) {
            Some(constant) => constant.number(),
            None => None,
        }
    }

    /// Adds a parameter after the others. An error leaves the cell as it was.
    pub fn push_parameter(
        &mut self,
        name: ParameterName,
        digits: Constant,
    ) -> Result<(), AllocError>
        requires named { IsTrue (names_parameter self.old.kind name) }
        requires once { list_any (λ p. is_parameter p.name name) self.old.parameters ≡ false }
        ensures ok { OnOk result (self.new ≡ record self.old { parameters = self.old.parameters ++ record { name = name; digits = digits } ∷ [] }) }
        ensures err { OnErr result (self.new ≡ self.old) }
    {
        self.parameters.push(Parameter { name, digits })?;
        Ok(())
    }

    /// Whether there is a port of this name.
    pub fn has_port(&self, name: PortName) -> bool
        ensures { result ≡ list_any (λ p. is_port p.name name) self.now.ports }
    {
        self.ports.iter().any(|port| is_port(port.name, name))
    }

    /// The signal of the port of this name, or no bits.
    pub fn signal(&self, name: PortName) -> &[Chunk]
        ensures bits { bits_of result.now ≡ signal_at self.now.ports name }
        ensures each { All IsChunk result.now }
    {
        signal(self.ports.as_slice(), name)
    }

    /// The bits that the cell drives.
    pub fn output(&self) -> &[Chunk]
        ensures bits { bits_of result.now ≡ output_of self.now }
        ensures each { All IsChunk result.now }
    {
        match output_port(role_of(self.kind)) {
            Some(name) => self.signal(name),
            None => &[],
        }
    }

    /// Adds a port after the others. An error leaves the cell as it was.
    pub fn push_port(&mut self, name: PortName, signal: StoredSignal) -> Result<(), AllocError>
        requires { list_any (λ p. is_port p.name name) self.old.ports ≡ false }
        ensures ok { OnOk result (self.new ≡ record self.old { ports = self.old.ports ++ record { name = name; signal = signal } ∷ [] }) }
        ensures err { OnErr result (self.new ≡ self.old) }
    {
        self.ports.push(Port { name, signal })?;
        Ok(())
    }

    /// Adds the name of a port that no line of the table names. An error leaves the cell as it was.
    pub fn push_foreign(&mut self, name: String) -> Result<(), AllocError>
        ensures ok { OnOk result (self.new ≡ record self.old { foreign = self.old.foreign ++ string_bytes name ∷ [] }) }
        ensures err { OnErr result (self.new ≡ self.old) }
    {
        self.foreign.push(name)?;
        Ok(())
    }
}
