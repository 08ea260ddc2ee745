//! What a node does with the rows at its operands.

use cell_table::kind::{Binary, Compare, Divide, Logic, Reduce, Unary};

/// One line of the table of combinational cells with its parsed parameters; a flag says that operands are numbers in two's complement.
#[derive(Clone, Copy, Debug, PartialEq, Eq)]
pub enum Op {
    /// The row at A itself.
    Copy,
    Unary(Unary, bool),
    Binary(Binary, bool),
    Reduce(Reduce),
    Logic(Logic),
    Compare(Compare, bool),
    ShiftLeft(bool),
    ShiftRight(bool),
    ShiftSign(bool),
    /// By A's flag and by B's.
    ShiftAny(bool, bool),
    Divide(Divide, bool),
    Mux,
    Pmux,
    Bmux,
    /// From this place of A on.
    Slice(u32),
    Concat,
}
