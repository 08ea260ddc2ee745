// A pair of cycles as a formula.

ghost use Rattle.std.specs.Prelude.{◌≡◌, ◌+◌, ◌<◌, ◌≤◌, ◌^◌, ℕ, All, IfSome, Option, Some, length, slice_get};
ghost use Rattle.cnf_form.specs.Cnf.{LitWithin};
ghost use Rattle.pair_form.specs.Pair.{IsPair, bit_lits};

use cnf_form::{Formula, Lit};
use std::marker::Model;

/// Which of the two cycles.
#[derive(Clone, Copy, Debug, PartialEq, Eq)]
pub enum Frame {
    First,
    Second,
}

/// The literals of a state bit in both cycles.
#[derive(Clone, Copy, Debug, PartialEq, Eq)]
pub struct BitLits {
    pub first: Lit,
    pub second: Lit,
}

/// A formula whose assignments are two neighbouring cycles, the first of which is assumed, with the literals that the
/// first may begin a run, that the second is assumed, and that the first breaks an assertion, and those of the state
/// bits in both.
#[derive(Drop)]
pub struct Pair {
    formula: Formula,
    start: Lit,
    next: Lit,
    bad: Lit,
    bits: Vec<Option<BitLits>>,
}

impl Model for Pair {
    ghost use Rattle.pair_form.specs.Pair.{IsPair, PairOf};

    ghost Value = { PairOf };

    ghost view = { λ p. record {
      formula = p.formula;
      start = p.start;
      next = p.next;
      bad = p.bad;
      bits = p.bits.items;
    } };

    ghost invariant = { λ p. IsPair (record {
      formula = p.formula;
      start = p.start;
      next = p.next;
      bad = p.bad;
      bits = p.bits.items;
    }) };
}

impl Pair {
    /// Of these parts, whose literals are of the formula's variables. A state bit's number is one more than its place
    /// among `bits`.
    pub fn new(
        formula: Formula,
        start: Lit,
        next: Lit,
        bad: Lit,
        bits: Vec<Option<BitLits>>,
    ) -> Pair
        requires { IsPair (record { formula = formula; start = start; next = next; bad = bad; bits = bits.items }) }
        ensures { result ≡ record { formula = formula; start = start; next = next; bad = bad; bits = bits.items } }
    {
        Pair {
            formula,
            start,
            next,
            bad,
            bits,
        }
    }

    /// What is so of every pair.
    pub fn promise(&self)
        ensures { IsPair self.now }
    {
        let _ = &self.formula;
    }

    /// The formula.
    pub fn formula(&self) -> &Formula
        ensures { result.now ≡ self.now.formula }
    {
        &self.formula
    }

    /// The literal that the first cycle may begin a run.
    pub fn start(&self) -> Lit
        ensures { result ≡ self.now.start }
    {
        self.start
    }

    /// The literal that the second cycle is assumed.
    pub fn next(&self) -> Lit
        ensures { result ≡ self.now.next }
    {
        self.next
    }

    /// The literal that the first cycle breaks an assertion.
    pub fn bad(&self) -> Lit
        ensures { result ≡ self.now.bad }
    {
        self.bad
    }

    /// The literals of the state bits, the first of which has number 1.
    pub fn bits(&self) -> &[Option<BitLits>]
        ensures { result.now ≡ self.now.bits }
    {
        self.bits.as_slice()
    }

    /// The literal of state bit `number`, from 1, in a cycle; none for a bit without literals.
    pub fn bit(&self, number: u32, frame: Frame) -> Option<Lit>
        ensures { result ≡ bit_lits self.now frame number }
    {
        if number == 0 || number as usize > self.bits.len() {
            return None;
        }
        match self.bits[number as usize - 1] {
            Some(lits) => match frame {
                Frame::First => Some(lits.first),
                Frame::Second => Some(lits.second),
            },
            None => None,
        }
    }
}
