// What a cell with a state holds in the next cycle.

ghost use Rattle.std.specs.Prelude.{◌≡◌, cond};
ghost use Rattle.design_core.specs.Cells.{next_state};

use cell_table::kind::{Any, Kind};

/// Where the row that a cell holds next comes from.
#[derive(Clone, Copy, Debug, PartialEq, Eq)]
pub enum NextState {
    /// From its port D.
    Data,
    /// From its SRST_VALUE or ARST_VALUE.
    ResetValue,
    /// It is what it was.
    Held,
    /// It is 0.
    Zero,
    /// The cell holds nothing.
    Stateless,
}

/// Where a cell's next row comes from, by whether it is enabled and whether it is reset.
pub fn next_state(kind: Kind, enabled: bool, reset: bool) -> NextState
    ensures { result ≡ next_state kind enabled reset }
{
    match kind {
        Kind::Ff | Kind::Dff => NextState::Data,
        Kind::Dffe => enabled_or_held(enabled),
        Kind::Sdff | Kind::Adff => reset_or(reset, NextState::Data),
        Kind::Sdffe | Kind::Adffe => reset_or(reset, enabled_or_held(enabled)),
        Kind::Sdffce if enabled => reset_or(reset, NextState::Data),
        Kind::Sdffce | Kind::Any(Any::Const) => NextState::Held,
        Kind::InitState => NextState::Zero,
        Kind::Unary(_)
        | Kind::Binary(_)
        | Kind::Reduce(_)
        | Kind::Logic(_)
        | Kind::Compare(_)
        | Kind::ShiftLeft
        | Kind::ShiftRight
        | Kind::ShiftSign
        | Kind::ShiftAny
        | Kind::Divide(_)
        | Kind::Mux
        | Kind::Pmux
        | Kind::Bmux
        | Kind::Slice
        | Kind::Concat
        | Kind::Statement(_)
        | Kind::Any(Any::Seq)
        | Kind::LeftOut(_)
        | Kind::Unknown => NextState::Stateless,
    }
}

fn enabled_or_held(enabled: bool) -> NextState
    ensures { result ≡ cond enabled NextState.Data NextState.Held }
{
    if enabled {
        NextState::Data
    } else {
        NextState::Held
    }
}

fn reset_or(reset: bool, otherwise: NextState) -> NextState
    ensures { result ≡ cond reset NextState.ResetValue otherwise }
{
    if reset {
        NextState::ResetValue
    } else {
        otherwise
    }
}
