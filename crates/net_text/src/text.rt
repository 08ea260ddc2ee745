//! The text of a formula, as it is still to come.

ghost use Rattle.std.specs.Prelude.{◌≡◌, ◌<◌, ◌≤◌, ◌++◌, [], length, take};
ghost use Rattle.cnf_form.specs.Dimacs.{dimacs_text};
ghost use Rattle.net_unroll.specs.Encoding.{formula_of};

use crate::pieces::{Front, count_clauses, first, refill};
use net_unroll::Encoded;
use std::marker::Model;

/// The text of an encoding's formula in DIMACS that is still to come: `p cnf`, the number of variables and of clauses, then one clause a line,
/// each literal followed by one space, then `0` and a line feed. It is made as it is asked for, a clause at a time.
#[derive(Drop)]
pub struct Text<'a> {
    encoded: &'a Encoded,
    count: u128,
    front: Front,
}

impl<'a> Model for Text<'a> {
    ghost use Rattle.std.specs.Prelude.{◌≡◌, List, ℕ};
    ghost use Rattle.net_text.specs.Text.{IsFront, count_of, rest_of};

    ghost Value = { List ℕ };

    ghost view = { λ t. rest_of t.encoded.now t.front };

    ghost invariant = { λ t. (t.count ≡ count_of t.encoded.now) × IsFront t.encoded.now t.front };
}

impl<'a> Text<'a> {
    /// The whole text of the formula.
    pub fn new(encoded: &'a Encoded) -> Self
        ensures { result ≡ dimacs_text (formula_of encoded.now) }
    {
        Text {
            encoded,
            count: count_clauses(encoded),
            front: first(),
        }
    }

    /// Fills the front of the buffer, and answers how many bytes it did: 0 only where none is left, or for an empty buffer.
    pub fn next(&mut self, buffer: &mut [u8]) -> usize
        ensures fits { result ≤ length buffer.new }
        ensures piece { self.old ≡ take result buffer.new ++ self.new }
        ensures ends { result ≡ 0 → 0 < length buffer.new → self.old ≡ [] }
    {
        refill(self.encoded, self.count, &mut self.front);
        let left = &self.front.piece.as_str().as_bytes()[self.front.given..];
        let count = left.len().min(buffer.len());
        buffer[..count].copy_from_slice(&left[..count]);
        self.front.given += count;
        count
    }
}
