// The table of cells: one line for each type, with its part in a design, its parameters and its ports.

ghost use Rattle.std.specs.Prelude.{◌≡◌};
ghost use Rattle.design_core.specs.Table.{
  asks_one_sign,
  form_of,
  is_clocked,
  output_port,
  parameters_of,
  ports_of,
  ports_read,
  role_of,
  width_limit,
};

use crate::names::{ParameterName, PortName};
use cell_table::kind::{Any, Binary, Compare, Kind, Unary};

/// What a cell does in a design.
#[derive(Clone, Copy, Debug, PartialEq, Eq)]
pub enum Role {
    /// Its output follows from its inputs.
    Combinational,
    /// Its output is what it holds from the cycle before.
    Register,
    /// A register whose reset shows at its output at once: it holds a row of its own.
    AsyncResetRegister,
    /// Its output is one value for the run.
    Constant,
    /// Its output tells the first cycle.
    Initial,
    /// Its output is a free value in each cycle.
    Source,
    /// It asserts, assumes or asks to reach something, and has no output.
    Statement,
    /// Its type has no meaning here.
    Unsupported,
}

/// What a parameter has to be.
#[derive(Clone, Copy, Debug, PartialEq, Eq)]
pub enum ParameterForm {
    /// A number of digits 0 and 1, which counts as 1 where it isn't 0.
    Flag,
    /// A number of digits 0 and 1.
    Number,
    /// A number of digits 0 and 1 that is at least 1.
    Width,
    /// As many digits as WIDTH says, each 0, 1 or a free bit.
    Value,
}

/// The width of a port, by the parameters.
#[derive(Clone, Copy, Debug, PartialEq, Eq)]
pub enum PortWidth {
    One,
    /// As a parameter says.
    Of(ParameterName),
    /// The product of two parameters.
    Product(ParameterName, ParameterName),
    /// The first parameter, times two to the power of the second.
    Choice(ParameterName, ParameterName),
    /// The sum of two parameters.
    Sum(ParameterName, ParameterName),
}

/// A port of a type, and its width.
#[derive(Clone, Copy, Debug, PartialEq, Eq)]
pub struct PortLine {
    pub name: PortName,
    pub width: PortWidth,
}

const OPERAND_A: PortLine = PortLine {
    name: PortName::A,
    width: PortWidth::Of(ParameterName::AWidth),
};

const RESULT_Y: PortLine = PortLine {
    name: PortName::Y,
    width: PortWidth::Of(ParameterName::YWidth),
};

const OPERAND_B: PortLine = PortLine {
    name: PortName::B,
    width: PortWidth::Of(ParameterName::BWidth),
};

const WORD_A: PortLine = PortLine {
    name: PortName::A,
    width: PortWidth::Of(ParameterName::Width),
};

const WORD_B: PortLine = PortLine {
    name: PortName::B,
    width: PortWidth::Of(ParameterName::Width),
};

const BIT_S: PortLine = PortLine {
    name: PortName::S,
    width: PortWidth::One,
};

const WORD_Y: PortLine = PortLine {
    name: PortName::Y,
    width: PortWidth::Of(ParameterName::Width),
};

const CHOICES_B: PortLine = PortLine {
    name: PortName::B,
    width: PortWidth::Product(ParameterName::Width, ParameterName::SWidth),
};

const SELECTS: PortLine = PortLine {
    name: PortName::S,
    width: PortWidth::Of(ParameterName::SWidth),
};

const CHOICES_A: PortLine = PortLine {
    name: PortName::A,
    width: PortWidth::Choice(ParameterName::Width, ParameterName::SWidth),
};

const JOINED_Y: PortLine = PortLine {
    name: PortName::Y,
    width: PortWidth::Sum(ParameterName::AWidth, ParameterName::BWidth),
};

const D: PortLine = PortLine {
    name: PortName::D,
    width: PortWidth::Of(ParameterName::Width),
};

const Q: PortLine = PortLine {
    name: PortName::Q,
    width: PortWidth::Of(ParameterName::Width),
};

const CLK: PortLine = PortLine {
    name: PortName::Clk,
    width: PortWidth::One,
};

const EN: PortLine = PortLine {
    name: PortName::En,
    width: PortWidth::One,
};

const SRST: PortLine = PortLine {
    name: PortName::Srst,
    width: PortWidth::One,
};

const ARST: PortLine = PortLine {
    name: PortName::Arst,
    width: PortWidth::One,
};

const BIT_A: PortLine = PortLine {
    name: PortName::A,
    width: PortWidth::One,
};

const BIT_Y: PortLine = PortLine {
    name: PortName::Y,
    width: PortWidth::One,
};

/// What a type does in a design.
pub fn role_of(kind: Kind) -> Role
    ensures { result ≡ role_of kind }
{
    match kind {
        Kind::Unary(_)
        | Kind::Binary(_)
        | Kind::Reduce(_)
        | Kind::Logic(_)
        | Kind::Compare(_)
        | Kind::ShiftLeft
        | Kind::ShiftRight
        | Kind::ShiftSign
        | Kind::ShiftAny
        | Kind::Divide(_)
        | Kind::Mux
        | Kind::Pmux
        | Kind::Bmux
        | Kind::Slice
        | Kind::Concat => Role::Combinational,
        Kind::Ff | Kind::Dff | Kind::Dffe | Kind::Sdff | Kind::Sdffe | Kind::Sdffce =>
            Role::Register,
        Kind::Adff | Kind::Adffe => Role::AsyncResetRegister,
        Kind::Any(Any::Const) => Role::Constant,
        Kind::InitState => Role::Initial,
        Kind::Any(Any::Seq) => Role::Source,
        Kind::Statement(_) => Role::Statement,
        Kind::LeftOut(_) | Kind::Unknown => Role::Unsupported,
    }
}

/// The port that a cell of this role drives, if it drives one.
pub fn output_port(role: Role) -> Option<PortName>
    ensures { result ≡ output_port role }
{
    match role {
        Role::Combinational | Role::Constant | Role::Initial | Role::Source => Some(PortName::Y),
        Role::Register | Role::AsyncResetRegister => Some(PortName::Q),
        Role::Statement | Role::Unsupported => None,
    }
}

/// What a parameter has to be.
pub fn form_of(name: ParameterName) -> ParameterForm
    ensures { result ≡ form_of name }
{
    match name {
        ParameterName::ASigned
        | ParameterName::BSigned
        | ParameterName::ClkPolarity
        | ParameterName::EnPolarity
        | ParameterName::SrstPolarity
        | ParameterName::ArstPolarity => ParameterForm::Flag,
        ParameterName::Offset => ParameterForm::Number,
        ParameterName::AWidth
        | ParameterName::BWidth
        | ParameterName::YWidth
        | ParameterName::Width
        | ParameterName::SWidth => ParameterForm::Width,
        ParameterName::SrstValue | ParameterName::ArstValue => ParameterForm::Value,
    }
}

/// The parameters that the table names for a type.
pub fn parameters(kind: Kind) -> &'static [ParameterName]
    ensures { result.now ≡ parameters_of kind }
{
    match kind {
        Kind::Unary(_) | Kind::Reduce(_) => &[
            ParameterName::ASigned,
            ParameterName::AWidth,
            ParameterName::YWidth,
        ],
        Kind::Binary(_)
        | Kind::Logic(_)
        | Kind::Compare(_)
        | Kind::ShiftLeft
        | Kind::ShiftRight
        | Kind::ShiftSign
        | Kind::ShiftAny
        | Kind::Divide(_) => &[
            ParameterName::ASigned,
            ParameterName::AWidth,
            ParameterName::BSigned,
            ParameterName::BWidth,
            ParameterName::YWidth,
        ],
        Kind::Mux | Kind::Ff | Kind::Any(_) => &[ParameterName::Width],
        Kind::Pmux | Kind::Bmux => &[ParameterName::Width, ParameterName::SWidth],
        Kind::Slice => &[
            ParameterName::Offset,
            ParameterName::AWidth,
            ParameterName::YWidth,
        ],
        Kind::Concat => &[ParameterName::AWidth, ParameterName::BWidth],
        Kind::Dff => &[ParameterName::ClkPolarity, ParameterName::Width],
        Kind::Dffe => &[
            ParameterName::ClkPolarity,
            ParameterName::EnPolarity,
            ParameterName::Width,
        ],
        Kind::Sdff => &[
            ParameterName::ClkPolarity,
            ParameterName::SrstPolarity,
            ParameterName::SrstValue,
            ParameterName::Width,
        ],
        Kind::Sdffe | Kind::Sdffce => &[
            ParameterName::ClkPolarity,
            ParameterName::EnPolarity,
            ParameterName::SrstPolarity,
            ParameterName::SrstValue,
            ParameterName::Width,
        ],
        Kind::Adff => &[
            ParameterName::ArstPolarity,
            ParameterName::ArstValue,
            ParameterName::ClkPolarity,
            ParameterName::Width,
        ],
        Kind::Adffe => &[
            ParameterName::ArstPolarity,
            ParameterName::ArstValue,
            ParameterName::ClkPolarity,
            ParameterName::EnPolarity,
            ParameterName::Width,
        ],
        Kind::Statement(_) | Kind::InitState | Kind::LeftOut(_) | Kind::Unknown => &[],
    }
}

/// The ports that the table asks of a type, with their widths.
pub fn ports(kind: Kind) -> &'static [PortLine]
    ensures { result.now ≡ ports_of kind }
{
    match kind {
        Kind::Unary(_) | Kind::Reduce(_) => &[OPERAND_A, RESULT_Y],
        Kind::Binary(_)
        | Kind::Logic(_)
        | Kind::Compare(_)
        | Kind::ShiftLeft
        | Kind::ShiftRight
        | Kind::ShiftSign
        | Kind::ShiftAny
        | Kind::Divide(_) => &[OPERAND_A, OPERAND_B, RESULT_Y],
        Kind::Mux => &[WORD_A, WORD_B, BIT_S, WORD_Y],
        Kind::Pmux => &[WORD_A, CHOICES_B, SELECTS, WORD_Y],
        Kind::Bmux => &[CHOICES_A, SELECTS, WORD_Y],
        Kind::Slice => &[OPERAND_A, RESULT_Y],
        Kind::Concat => &[OPERAND_A, OPERAND_B, JOINED_Y],
        Kind::Ff => &[D, Q],
        Kind::Dff => &[CLK, D, Q],
        Kind::Dffe => &[CLK, D, EN, Q],
        Kind::Sdff => &[CLK, D, Q, SRST],
        Kind::Sdffe | Kind::Sdffce => &[CLK, D, EN, Q, SRST],
        Kind::Adff => &[ARST, CLK, D, Q],
        Kind::Adffe => &[ARST, CLK, D, EN, Q],
        Kind::Statement(_) => &[BIT_A, EN],
        Kind::Any(_) => &[WORD_Y],
        Kind::InitState => &[BIT_Y],
        Kind::LeftOut(_) | Kind::Unknown => &[],
    }
}

/// The ports on whose bits each bit of the output rests in the same cycle.
pub fn ports_read(kind: Kind) -> &'static [PortName]
    ensures { result.now ≡ ports_read kind }
{
    match kind {
        Kind::Unary(_) | Kind::Reduce(_) | Kind::Slice => &[PortName::A],
        Kind::Binary(_)
        | Kind::Logic(_)
        | Kind::Compare(_)
        | Kind::ShiftLeft
        | Kind::ShiftRight
        | Kind::ShiftSign
        | Kind::ShiftAny
        | Kind::Divide(_)
        | Kind::Concat => &[PortName::A, PortName::B],
        Kind::Mux | Kind::Pmux => &[PortName::A, PortName::B, PortName::S],
        Kind::Bmux => &[PortName::A, PortName::S],
        Kind::Adff | Kind::Adffe => &[PortName::Arst],
        Kind::Ff
        | Kind::Dff
        | Kind::Dffe
        | Kind::Sdff
        | Kind::Sdffe
        | Kind::Sdffce
        | Kind::Statement(_)
        | Kind::Any(_)
        | Kind::InitState
        | Kind::LeftOut(_)
        | Kind::Unknown => &[],
    }
}

/// The most bits that a signal of a cell of this type may have: 128 at arithmetic, orders and shifts, else 4,096.
pub fn width_limit(kind: Kind) -> usize
    ensures { result ≡ width_limit kind }
{
    match kind {
        Kind::Unary(Unary::Neg)
        | Kind::Binary(Binary::Add | Binary::Sub | Binary::Mul)
        | Kind::Compare(Compare::Lt | Compare::Le | Compare::Gt | Compare::Ge)
        | Kind::ShiftLeft
        | Kind::ShiftRight
        | Kind::ShiftSign
        | Kind::ShiftAny
        | Kind::Divide(_) => 128,
        Kind::Unary(Unary::Not | Unary::Pos)
        | Kind::Binary(Binary::And | Binary::Or | Binary::Xor | Binary::Xnor)
        | Kind::Compare(Compare::Eq | Compare::Ne | Compare::Eqx | Compare::Nex)
        | Kind::Reduce(_)
        | Kind::Logic(_)
        | Kind::Mux
        | Kind::Pmux
        | Kind::Bmux
        | Kind::Slice
        | Kind::Concat
        | Kind::Ff
        | Kind::Dff
        | Kind::Dffe
        | Kind::Sdff
        | Kind::Sdffe
        | Kind::Sdffce
        | Kind::Adff
        | Kind::Adffe
        | Kind::Statement(_)
        | Kind::Any(_)
        | Kind::InitState
        | Kind::LeftOut(_)
        | Kind::Unknown => 4096,
    }
}

/// Whether a type's A_SIGNED and B_SIGNED have to be equal.
pub fn asks_one_sign(kind: Kind) -> bool
    ensures { result ≡ asks_one_sign kind }
{
    matches!(kind, Kind::Binary(_) | Kind::Compare(_) | Kind::Divide(_))
}

/// Whether a type has a clock port.
pub fn is_clocked(kind: Kind) -> bool
    ensures { result ≡ is_clocked kind }
{
    matches!(
        kind,
        Kind::Dff | Kind::Dffe | Kind::Sdff | Kind::Sdffe | Kind::Sdffce | Kind::Adff | Kind::Adffe
    )
}
