//! Lines of BTOR2. A line is named by its number, its nid.

/// Operators of one operand.
#[derive(Clone, Copy, Debug, PartialEq, Eq)]
pub enum Unary {
    /// Each bit turned.
    Not,
    /// The negative in two's complement.
    Neg,
    /// Whether every bit is set.
    Redand,
    /// Whether some bit is set.
    Redor,
    /// Whether an odd number of bits is set.
    Redxor,
}

/// Operators of two operands, of equal widths but in `Concat`. Names with `U` and `S` are of numbers without and with a sign.
#[derive(Clone, Copy, Debug, PartialEq, Eq)]
pub enum Binary {
    And,
    Or,
    Xor,
    Add,
    Sub,
    Mul,
    Udiv,
    Urem,
    Sdiv,
    /// The remainder that has the dividend's sign.
    Srem,
    /// The first operand shifted up by the second.
    Sll,
    /// Shifted down, zeros coming in.
    Srl,
    /// Shifted down, the sign coming in.
    Sra,
    Eq,
    Neq,
    Ult,
    Ulte,
    Slt,
    Slte,
    /// The first operand above the second.
    Concat,
}

/// What gives a line its value. Operands are nids of lines before it.
#[derive(Clone, Copy, Debug, PartialEq, Eq)]
pub enum Node {
    Input,
    State,
    /// The bits of the table of constants from this place on, the lowest first.
    Const(u32),
    Zero,
    One,
    /// Every bit set.
    Ones,
    Unary(Unary, u32),
    Binary(Binary, u32, u32),
    /// Of an operand the bits from the upper to the lower place, both included.
    Slice(u32, u32, u32),
    /// An operand extended by this many zeros.
    Uext(u32, u32),
    /// An operand extended by this many copies of its sign.
    Sext(u32, u32),
    /// The second operand where the first, of one bit, is set, else the third.
    Ite(u32, u32, u32),
}

/// What a line says. Where it begins with a sort, this is the sort's nid.
#[derive(Clone, Copy, Debug, PartialEq, Eq)]
pub enum Body {
    /// A sort: bit-vectors of this many bits.
    Sort(u32),
    /// A value of a sort, which is this many bits wide.
    Value(u32, u32, Node),
    /// Of a sort a state, and the line as which it is in the first cycle.
    Init(u32, u32, u32),
    /// Of a sort a state, and the line as which it is in the next cycle.
    Next(u32, u32, u32),
    /// A line of one bit that is never to be set.
    Bad(u32),
    /// A line of one bit that is set in each cycle.
    Constraint(u32),
}

/// A line with its nid.
#[derive(Clone, Copy, Debug, PartialEq, Eq)]
pub struct Line {
    pub nid: u32,
    pub body: Body,
}

/// The nid of a line that has a value, and how many bits the value has.
#[derive(Clone, Copy, Debug, PartialEq, Eq)]
pub struct Word {
    pub nid: u32,
    pub width: u32,
}
