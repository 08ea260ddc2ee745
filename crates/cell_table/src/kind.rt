// The types of cells: one variant for each line of the table of cells.

/// `$not`, `$pos`, `$neg`.
#[derive(Clone, Copy, Debug, PartialEq, Eq)]
pub enum Unary {
    Not,
    Pos,
    Neg,
}

/// `$and`, `$or`, `$xor`, `$xnor`, `$add`, `$sub`, `$mul`.
#[derive(Clone, Copy, Debug, PartialEq, Eq)]
pub enum Binary {
    And,
    Or,
    Xor,
    Xnor,
    Add,
    Sub,
    Mul,
}

/// `$reduce_and`, `$reduce_or`, `$reduce_xor`, `$reduce_xnor`, `$reduce_bool`, `$logic_not`.
#[derive(Clone, Copy, Debug, PartialEq, Eq)]
pub enum Reduce {
    And,
    Or,
    Xor,
    Xnor,
    Bool,
    Not,
}

/// `$logic_and`, `$logic_or`.
#[derive(Clone, Copy, Debug, PartialEq, Eq)]
pub enum Logic {
    And,
    Or,
}

/// `$eq`, `$ne`, `$eqx`, `$nex`, `$lt`, `$le`, `$gt`, `$ge`.
#[derive(Clone, Copy, Debug, PartialEq, Eq)]
pub enum Compare {
    Eq,
    Ne,
    Eqx,
    Nex,
    Lt,
    Le,
    Gt,
    Ge,
}

/// `$div`, `$mod`.
#[derive(Clone, Copy, Debug, PartialEq, Eq)]
pub enum Divide {
    Div,
    Mod,
}

/// `$assert`, `$assume`, `$cover`.
#[derive(Clone, Copy, Debug, PartialEq, Eq)]
pub enum Statement {
    Assert,
    Assume,
    Cover,
}

/// `$anyconst`, `$anyseq`.
#[derive(Clone, Copy, Debug, PartialEq, Eq)]
pub enum Any {
    Const,
    Seq,
}

/// The types that Yosys has and this runner leaves out.
#[derive(Clone, Copy, Debug, PartialEq, Eq)]
pub enum LeftOut {
    /// Each type that begins with `$mem`.
    Memory,
    Dlatch,
    Adlatch,
    Dlatchsr,
    Sr,
    Lut,
    Alu,
    Macc,
    Fsm,
    Tribuf,
    Demux,
    Bwmux,
    Bweqx,
    Divfloor,
    Modfloor,
    /// Each gate-level type `$_..._`.
    Gate,
    Live,
    Fair,
    Allconst,
    Allseq,
    Check,
}

/// A cell's type.
#[derive(Clone, Copy, Debug, PartialEq, Eq)]
pub enum Kind {
    Unary(Unary),
    Binary(Binary),
    Reduce(Reduce),
    Logic(Logic),
    Compare(Compare),
    /// `$shl`, `$sshl`, which are one here.
    ShiftLeft,
    /// `$shr`.
    ShiftRight,
    /// `$sshr`.
    ShiftSign,
    /// `$shift`, `$shiftx`, which are one here.
    ShiftAny,
    Divide(Divide),
    Mux,
    Pmux,
    Bmux,
    Slice,
    Concat,
    Ff,
    Dff,
    Dffe,
    Sdff,
    Sdffe,
    Sdffce,
    /// `$adff`, whose reset is read in each cycle.
    Adff,
    Adffe,
    Statement(Statement),
    Any(Any),
    InitState,
    LeftOut(LeftOut),
    Unknown,
}
