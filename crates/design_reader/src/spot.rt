// What a text goes on with.

ghost use Rattle.std.specs.Prelude.{◌≡◌, [], ◌∷◌, ◌++◌, true, OnOk};
ghost use Rattle.design_reader.specs.Parts.{no_attributes};

use crate::cell_draft::CellDraft;
use cell_table::kind::Kind;
use design_core::names::{ParameterName, PortName};
use design_signals::segments::Segments;
use design_signals::stored::StoredSignal;
use rtlil_constant::constant::Constant;
use std::alloc::{AllocError, Global};
use std::marker::Model;

/// The attributes before an item: whether there is one, and the constants of `\init` among them.
#[derive(Drop)]
pub struct Attributes<'a> {
    some: bool,
    inits: Vec<Constant<'a>>,
}

impl<'a> Model for Attributes<'a> {
    ghost use Rattle.design_reader.specs.Parts.{AttributesOf};

    ghost Value = { AttributesOf };

    ghost view = { λ a. record { some = a.some; inits = a.inits.items } };
}

impl<'a> Attributes<'a> {
    pub fn none(alloc: Global) -> Attributes<'a>
        ensures { result ≡ no_attributes }
    {
        Attributes {
            some: false,
            inits: Vec::new(alloc),
        }
    }

    pub fn some(&self) -> bool
        ensures { result ≡ self.now.some }
    {
        self.some
    }

    pub fn inits(&self) -> &[Constant<'a>]
        ensures { result.now ≡ self.now.inits }
    {
        self.inits.as_slice()
    }

    /// An attribute that says nothing here.
    pub fn pass(&mut self)
        ensures { self.new ≡ record self.old { some = true } }
    {
        self.some = true;
    }

    /// One more `\init`.
    pub fn push(&mut self, init: Constant<'a>) -> Result<(), AllocError>
        ensures { OnOk result (self.new ≡ record { some = true; inits = self.old.inits ++ init.entry ∷ [] }) }
    {
        self.inits.push(init)?;
        self.some = true;
        Ok(())
    }
}

/// A wire's options so far: its width, where it is given, and whether it is an input.
#[derive(Clone, Copy)]
pub struct WireOptions {
    pub width: Option<u32>,
    pub input: bool,
}

/// An option of a wire that has a number.
#[derive(Clone, Copy)]
pub enum NumberedOption {
    Width,
    Offset,
    Input,
    Output,
}

/// What a signal is for: a port of a cell, which some line of the table names or none, or a side of a `connect`, the right one after the left one.
#[derive(Drop)]
pub enum Target<'a> {
    Port(CellDraft<'a>, Option<PortName>),
    Left,
    Right(StoredSignal),
}

impl<'a> Target<'a> {
    /// Lets the target go.
    pub fn discard(self) {}
}

/// What comes next. A `bool` in a variant says whether the module is over.
#[derive(Drop)]
pub enum Spot<'a> {
    /// A line of the file.
    File(bool),
    /// The number of `autoidx`.
    AutoIdx(bool),
    /// The name of an attribute of the file.
    FileAttribute(bool),
    /// Its constant.
    FileValue(bool),
    /// The module's name.
    Module,
    /// A line of the module, after these attributes.
    Line(Attributes<'a>),
    /// The name of one more attribute.
    Attribute(Attributes<'a>),
    /// Its constant, and whether it is `\init`.
    Value(Attributes<'a>, bool),
    /// The name of a parameter of the module.
    ModuleParameter,
    /// Its constant, or the next line.
    ModuleParameterValue,
    /// An option of a wire, or its name.
    WireOption(Attributes<'a>, WireOptions),
    /// The number of an option.
    WireNumber(Attributes<'a>, WireOptions, NumberedOption),
    /// A cell's type.
    CellType,
    /// Its name, and whether the type is one that is ignored.
    CellName(Kind, bool),
    /// A line of the cell.
    CellLine(CellDraft<'a>),
    /// `signed`, `real` or the name of a parameter of the cell.
    CellParameter(CellDraft<'a>),
    /// Its name.
    CellParameterName(CellDraft<'a>),
    /// Its constant, and what the parameter is to the table.
    CellParameterValue(CellDraft<'a>, Option<ParameterName>),
    /// The name of a port.
    Port(CellDraft<'a>),
    /// A signal; the segments are what is read of the concatenations that are open, the innermost first.
    Signal(Target<'a>, Segments),
    /// A slice of the signal that is the first segment, or what stands after it.
    Part(Target<'a>, Segments),
}

impl<'a> Spot<'a> {
    /// Lets the spot go.
    pub fn discard(self) {}
}
