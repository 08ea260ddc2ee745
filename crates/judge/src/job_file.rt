// A job's file, made for it.

ghost use Rattle.std.specs.Prelude.{◌≡◌, ◌<◌, ◌≤◌, ◌++◌, [], length, take};
ghost use Rattle.cnf_form.specs.Dimacs.{dimacs_text};
ghost use Rattle.net_unroll.specs.Encoding.{formula_of};
ghost use Rattle.pair_form.specs.Text.{pair_text};

use net_text::Text as FormulaText;
use net_unroll::Encoded;
use pair_form::{Pair, Text as PairText};
use std::marker::Model;

// What a file is made of.
#[derive(Drop)]
pub(crate) enum Content {
    Formula(Encoded),
    Pair(Pair),
}

/// A job's file, made for it: its formula in DIMACS, or the pair of two neighbouring cycles. The text comes piece by piece and never stands
/// in memory as a whole.
#[derive(Drop)]
pub struct JobFile {
    content: Content,
}

impl Model for JobFile {
    ghost use Rattle.std.specs.Prelude.{ℕ, List};
    ghost use Rattle.judge.specs.JobFile.{text_of};

    ghost Value = { List ℕ };

    ghost view = { λ f. text_of f.content };
}

impl JobFile {
    // The file of a job that is encoded.
    pub(crate) fn of_formula(encoded: Encoded) -> Self
        ensures { result ≡ dimacs_text (formula_of encoded) }
    {
        JobFile {
            content: Content::Formula(encoded),
        }
    }

    // That of a pair.
    pub(crate) fn of_pair(pair: Pair) -> Self
        ensures { result ≡ pair_text pair }
    {
        JobFile {
            content: Content::Pair(pair),
        }
    }

    /// Its text, of which all is still to come.
    pub fn text(&self) -> JobText<'_>
        ensures { result ≡ self.now }
    {
        let text = match &self.content {
            Content::Formula(encoded) => TextOf::Formula(FormulaText::new(encoded)),
            Content::Pair(pair) => TextOf::Pair(PairText::new(pair)),
        };
        JobText { text }
    }
}

// The text of what a file is made of.
#[derive(Drop)]
pub(crate) enum TextOf<'a> {
    Formula(FormulaText<'a>),
    Pair(PairText<'a>),
}

/// The text of a job's file that is still to come.
#[derive(Drop)]
pub struct JobText<'a> {
    text: TextOf<'a>,
}

impl<'a> Model for JobText<'a> {
    ghost use Rattle.std.specs.Prelude.{ℕ, List};
    ghost use Rattle.judge.specs.JobFile.{rest_of};

    ghost Value = { List ℕ };

    ghost view = { λ t. rest_of t.text };
}

impl<'a> JobText<'a> {
    /// Fills the front of the buffer, and answers how many bytes it did: 0 only where none is left, or for an empty buffer.
    pub fn next(&mut self, buffer: &mut [u8]) -> usize
        ensures fits { result ≤ length buffer.new }
        ensures piece { self.old ≡ take result buffer.new ++ self.new }
        ensures ends { result ≡ 0 → 0 < length buffer.new → self.old ≡ [] }
    {
        match &mut self.text {
            TextOf::Formula(text) => text.next(buffer),
            TextOf::Pair(text) => text.next(buffer),
        }
    }
}
