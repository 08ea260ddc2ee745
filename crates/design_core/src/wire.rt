// The wires of a design.

ghost use Rattle.std.specs.Prelude.{◌≡◌, string_bytes};

use std::marker::Model;

/// The start digits of an `\init` attribute, lowest first; None, and a digit past the last, is unknown.
#[derive(Drop)]
pub struct StartDigits {
    digits: Vec<Option<bool>>,
}

impl Model for StartDigits {
    ghost use Rattle.std.specs.Prelude.{List, Option, Bool};

    ghost Value = { List (Option Bool) };

    ghost view = { λ s. s.digits.items };
}

impl StartDigits {
    /// These start digits.
    pub fn new(digits: Vec<Option<bool>>) -> StartDigits
        ensures { result ≡ digits.items }
    {
        StartDigits { digits }
    }

    /// The digits, lowest first.
    pub fn as_slice(&self) -> &[Option<bool>]
        ensures { result.now ≡ self.now }
    {
        self.digits.as_slice()
    }
}

/// A wire: its name, how many bits it has, whether it is an `input`, and the start digits of its `\init` attributes.
#[derive(Drop)]
pub struct Wire {
    name: String,
    width: u32,
    input: bool,
    inits: Vec<StartDigits>,
}

impl Model for Wire {
    ghost use Rattle.std.specs.Prelude.{string_bytes};
    ghost use Rattle.design_core.specs.Shape.{WireOf};

    ghost Value = { WireOf };

    ghost view = { λ a. record { name = string_bytes a.name; width = a.width; input = a.input; inits = a.inits.items } };
}

impl Wire {
    /// A wire of `width` bits.
    pub fn new(name: String, width: u32, input: bool, inits: Vec<StartDigits>) -> Wire
        ensures { result ≡ record { name = string_bytes name; width = width; input = input; inits = inits.items } }
    {
        Wire {
            name,
            width,
            input,
            inits,
        }
    }

    /// The name, as in the file.
    pub fn name(&self) -> &str
        ensures { result.now ≡ self.now.name }
    {
        self.name.as_str()
    }

    /// How many bits it has.
    pub fn width(&self) -> u32
        ensures { result ≡ self.now.width }
    {
        self.width
    }

    /// Whether it is an `input`.
    pub fn input(&self) -> bool
        ensures { result ≡ self.now.input }
    {
        self.input
    }

    /// The start digits of each `\init` attribute, in file order.
    pub fn inits(&self) -> &[StartDigits]
        ensures { result.now ≡ self.now.inits }
    {
        self.inits.as_slice()
    }
}
