// A cell while it is read.

ghost use Rattle.std.specs.Prelude.{◌≡◌, true, false, string_bytes, OnOk, IfOk, None, List, reverse};
ghost use Rattle.design_signals.specs.declared.sig_bit.SigBit.{SigBit};
ghost use Rattle.std.specs.List.{list_any};
ghost use Rattle.design_core.specs.Ports.{is_parameter, is_port, names_parameter};
ghost use Rattle.design_reader.specs.Grammar.{has_parameter, has_port, named_parameter, named_port, new_cell, with_parameter, with_port};
ghost use Rattle.design_reader.specs.Drafts.{FitsPort};

use crate::names::Names;
use cell_table::kind::Kind;
use design_core::cell::Cell;
use design_core::digit::Constant;
use design_core::names::{ParameterName, PortName};
use design_signals::stored::StoredSignal;
use std::alloc::{AllocError, Global};
use std::marker::Model;

/// A cell so far, and whether its type is one that is ignored.
pub struct CellDraft<'a> {
    cell: Cell,
    // the names of ports that no line of the table names
    foreign: Names<'a>,
    // the names of parameters that aren't kept
    others: Names<'a>,
    ignored: bool,
}

impl<'a> Model for CellDraft<'a> {
    ghost use Rattle.std.specs.Prelude.{◌≡◌};
    ghost use Rattle.design_reader.specs.Parts.{CellDraftOf};

    ghost Value = { CellDraftOf };

    ghost view = { λ a. record { cell = a.cell; others = a.others; ignored = a.ignored } };

    ghost invariant = { λ a. a.foreign ≡ a.cell.foreign };
}

impl<'a> Drop for CellDraft<'a> {
    fn drop(self) {
        let CellDraft {
            cell: _,
            foreign: _,
            others: _,
            ignored: _,
        } = self;
    }
}

impl<'a> CellDraft<'a> {
    /// A cell with no parameter and no port yet.
    pub fn new(alloc: Global, kind: Kind, name: String, ignored: bool) -> CellDraft<'a>
        ensures { result ≡ new_cell kind (string_bytes name) ignored }
    {
        CellDraft {
            cell: Cell::new(alloc, kind, name),
            foreign: Names::new(alloc),
            others: Names::new(alloc),
            ignored,
        }
    }

    /// The cell's type.
    pub fn kind(&self) -> Kind
        ensures { result ≡ self.now.cell.kind }
    {
        self.cell.kind()
    }

    pub fn ignored(&self) -> bool
        ensures { result ≡ self.now.ignored }
    {
        self.ignored
    }

    pub fn into_cell(self) -> Cell
        ensures { result ≡ self.entry.cell }
    {
        let CellDraft {
            cell,
            foreign: _,
            others: _,
            ignored: _,
        } = self;
        cell
    }

    /// Whether there is a parameter of this name.
    pub fn has_parameter(&self, name: &str, label: Option<ParameterName>) -> bool
        ensures { result ≡ has_parameter self.now name.now label }
    {
        match label {
            Some(parameter) => self.cell.has_parameter(parameter),
            None => self.others.has(name),
        }
    }

    /// Takes note of the name of a new parameter that isn't kept.
    pub fn name_parameter(
        &mut self,
        name: &'a str,
        label: Option<ParameterName>,
    ) -> Result<(), AllocError>
        requires { has_parameter self.old name.now label ≡ false }
        ensures { OnOk result (self.new ≡ named_parameter self.old name.now label) }
    {
        match label {
            Some(_) => Ok(()),
            None => self.others.push(name),
        }
    }

    /// Adds a parameter.
    pub fn push_parameter(
        &mut self,
        name: ParameterName,
        digits: Constant,
    ) -> Result<(), AllocError>
        requires named { names_parameter self.old.cell.kind name ≡ true }
        requires once { list_any (λ p. is_parameter p.name name) self.old.cell.parameters ≡ false }
        ensures { OnOk result (self.new ≡ with_parameter self.old name digits) }
    {
        self.cell.push_parameter(name, digits)
    }

    /// Whether there is a port of this name.
    pub fn has_port(&self, name: &str, label: Option<PortName>) -> bool
        ensures { result ≡ has_port self.now name.now label }
    {
        match label {
            Some(port) => self.cell.has_port(port),
            None => self.foreign.has(name),
        }
    }

    /// With the name of a new port, where no line of the table names it.
    pub fn with_port_name(
        self,
        alloc: Global,
        name: &'a str,
        label: Option<PortName>,
    ) -> Result<CellDraft<'a>, AllocError>
        requires { has_port self name.now label ≡ false }
        ensures { IfOk result (λ c. c ≡ named_port self.entry name.now label) }
    {
        match label {
            Some(_) => Ok(self),
            None => self.with_foreign(alloc, name),
        }
    }

    fn with_foreign(self, alloc: Global, name: &'a str) -> Result<CellDraft<'a>, AllocError>
        requires { has_port self name.now None ≡ false }
        ensures { IfOk result (λ c. c ≡ named_port self.entry name.now None) }
    {
        let CellDraft {
            mut cell,
            mut foreign,
            others,
            ignored,
        } = self;
        cell.push_foreign(String::from_str(alloc, name)?)?;
        foreign.push(name)?;
        Ok(CellDraft {
            cell,
            foreign,
            others,
            ignored,
        })
    }

    /// Adds the signal of a port that some line of the table names.
    pub fn push_port(
        &mut self,
        label: Option<PortName>,
        signal: StoredSignal,
    ) -> Result<(), AllocError>
        requires { FitsPort self.old label }
        ensures { (row : List SigBit) → signal ≡ reverse row → OnOk result (self.new ≡ with_port self.old label row) }
    {
        match label {
            Some(name) => self.cell.push_port(name, signal),
            None => Ok(()),
        }
    }
}
