// What the lines leave open.

use btor_core::line::Word;
use place_rows::Rows;

/// A state of the lines: as many of the model's state bits as its word is wide.
#[derive(Clone, Copy, Debug, PartialEq, Eq)]
pub struct State {
    pub word: Word,
    /// Where its bits begin among the model's state bits.
    pub first: usize,
    /// Whether it has an `init`.
    pub has_start: bool,
}

/// The states, whose bits are the model's state bits one after the other, and the places of each input's bits, the lowest first, all in
/// file order.
#[derive(Drop)]
pub struct Shape {
    pub states: Vec<State>,
    pub inputs: Rows,
}
