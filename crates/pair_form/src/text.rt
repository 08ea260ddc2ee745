//! The text of a pair, as it is still to come.

ghost use Rattle.std.specs.Prelude.{◌≡◌, ◌<◌, ◌≤◌, ◌++◌, [], length, take};
ghost use Rattle.pair_form.specs.Text.{pair_text};

use crate::pair::Pair;
use crate::pieces::{Front, first, refill};
use std::marker::Model;

/// The text of a pair that is still to come: a line `c bit I A B` for each state bit that has literals, its number and
/// its literals in both cycles; then `c start L`, `c next L` and `c bad L`; then the formula in DIMACS. It is made as it
/// is asked for, a line or a literal at a time.
#[derive(Drop)]
pub struct Text<'a> {
    pair: &'a Pair,
    front: Front,
}

impl<'a> Model for Text<'a> {
    ghost use Rattle.std.specs.Prelude.{List, ℕ};
    ghost use Rattle.pair_form.specs.Text.{IsFront, rest_of};

    ghost Value = { List ℕ };

    ghost view = { λ t. rest_of t.pair.now t.front };

    ghost invariant = { λ t. IsFront t.pair.now t.front };
}

impl<'a> Text<'a> {
    /// The whole text of the pair.
    pub fn new(pair: &'a Pair) -> Self
        ensures { result ≡ pair_text pair.now }
    {
        Text {
            pair,
            front: first(),
        }
    }

    /// Fills the front of the buffer, and answers how many bytes it did: 0 only where none is left, or for an empty
    /// buffer.
    pub fn next(&mut self, buffer: &mut [u8]) -> usize
        ensures fits { result ≤ length buffer.new }
        ensures piece { self.old ≡ take result buffer.new ++ self.new }
        ensures ends { result ≡ 0 → 0 < length buffer.new → self.old ≡ [] }
    {
        refill(self.pair, &mut self.front);
        let left = &self.front.piece.as_str().as_bytes()[self.front.given..];
        let count = left.len().min(buffer.len());
        buffer[..count].copy_from_slice(&left[..count]);
        self.front.given += count;
        count
    }
}
