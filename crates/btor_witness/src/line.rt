// Lines, byte by byte.

ghost use Rattle.std.specs.Prelude.{◌≡◌, ◌↔◌, IfOk, IsTrue, OnErr};
ghost use Rattle.btor_witness.specs.Machine.{ScanOf, begin_bits, bit_of, line_entry, line_left, no_scan, number_of, read_bit, second, visible, with_line};

use crate::word::{Tag, Token};
use std::alloc::{AllocError, Global};
use std::marker::Model;

/// What was read of a line. A gap is white space after a word.
#[derive(Clone, Copy, Debug, PartialEq, Eq)]
pub enum Line {
    /// No word so far.
    Blank,
    /// In the first word.
    Word(Token),
    Gap(Token),
    /// In a later word of a line of bads, of which the first is this.
    Bads(u64, Token),
    BadsGap(u64),
    /// In the bits for a number, of which this many are still to come.
    Bits(u64, u32),
    BitsGap(u64),
    /// In the symbol after them.
    Symbol(u64),
    SymbolGap(u64),
    /// No line of a witness, whatever follows.
    Other,
}

/// What a whole line is.
#[derive(Clone, Copy, Debug, PartialEq, Eq)]
pub enum Entry {
    Sat,
    /// The bads that the witness is for, the first of which is this.
    Bads(u64),
    /// The head of a frame's states.
    States(u64),
    /// The head of a frame's inputs.
    Inputs(u64),
    /// A row for a number.
    Assign(u64),
    End,
}

/// What is kept of a line.
#[derive(Drop)]
pub(crate) struct Scanner {
    line: Line,
    // the bits of its row, the highest first
    bits: Vec<bool>,
}

impl Model for Scanner {
    ghost use Rattle.btor_witness.specs.Machine.{ScanOf};

    ghost Value = { ScanOf };

    ghost view = { λ a. record { line = a.line; bits = a.bits.items } };

    ghost invariant = { λ a. Unit {0} };
}

// The bit of a digit; x, which says that any value serves, counts as 0.
fn bit_of(b: u8) -> Option<bool>
    ensures { result ≡ bit_of b }
{
    match b {
        b'1' => Some(true),
        b'0' | b'x' => Some(false),
        _ => None,
    }
}

impl Line {
    fn left(self) -> Line
        ensures { result ≡ line_left self }
    {
        match self {
            Line::Word(token) => Line::Gap(token),
            Line::Bads(first, token) if token.is_bad() => Line::BadsGap(first),
            Line::Bits(number, 0) => Line::BitsGap(number),
            Line::Bads(_, _) | Line::Bits(_, _) => Line::Other,
            Line::Symbol(number) => Line::SymbolGap(number),
            _ => self,
        }
    }

    fn entry(self) -> Option<Entry>
        ensures { result ≡ line_entry self }
    {
        match self {
            Line::Gap(token) => token.entry(),
            Line::BadsGap(first) => Some(Entry::Bads(first)),
            Line::BitsGap(number) | Line::SymbolGap(number) => Some(Entry::Assign(number)),
            _ => None,
        }
    }
}

impl Scanner {
    pub(crate) fn new(alloc: Global) -> Scanner
        ensures { result ≡ no_scan }
    {
        Scanner {
            line: Line::Blank,
            bits: Vec::new(alloc),
        }
    }

    // A new line.
    pub(crate) fn clear(&mut self)
        ensures { self.new ≡ no_scan }
    {
        self.line = Line::Blank;
        self.bits.clear();
    }

    // White space.
    pub(crate) fn leave(&mut self)
        ensures { self.new ≡ with_line self.old (line_left self.old.line) }
    {
        self.line = self.line.left();
    }

    // What the line is where it ends here, if one of a witness.
    pub(crate) fn entry(&self) -> Option<Entry>
        ensures { result ≡ line_entry (line_left self.now.line) }
    {
        self.line.left().entry()
    }

    // The row's bits, the highest first.
    pub(crate) fn bits(&self) -> &[bool]
        ensures { result.now ≡ self.now.bits }
    {
        self.bits.as_slice()
    }

    // Whether no byte before the line feed can change it.
    pub(crate) fn is_other(&self) -> bool
        ensures { IsTrue result ↔ (self.now.line ≡ Line.Other) }
    {
        self.line == Line::Other
    }

    // The number after which bits come.
    pub(crate) fn number(&self) -> Option<u64>
        ensures { result ≡ number_of self.now.line }
    {
        match self.line {
            Line::Gap(token) => token.number(),
            _ => None,
        }
    }

    fn read_bit(&mut self, number: u64, more: u32, bit: Option<bool>) -> Result<(), AllocError>
        ensures ok { IfOk result (λ _. self.new ≡ read_bit self.old number more bit) }
        ensures err { OnErr result (self.new ≡ self.old) }
    {
        match bit {
            Some(bit) if more > 0 => {
                self.bits.push(bit)?;
                self.line = Line::Bits(number, more - 1);
            }
            _ => self.line = Line::Other,
        }
        Ok(())
    }

    fn begin_bits(&mut self, number: u64, width: Option<u32>, b: u8) -> Result<(), AllocError>
        ensures ok { IfOk result (λ _. self.new ≡ begin_bits self.old number width b) }
        ensures err { OnErr result (self.new ≡ self.old) }
    {
        match width {
            Some(width) => self.read_bit(number, width, bit_of(b)),
            None => {
                self.line = Line::Other;
                Ok(())
            }
        }
    }

    // The first byte of the second word.
    fn second(&mut self, token: Token, width: Option<u32>, b: u8) -> Result<(), AllocError>
        ensures ok { IfOk result (λ _. self.new ≡ second self.old token width b) }
        ensures err { OnErr result (self.new ≡ self.old) }
    {
        match token {
            Token::Number(number) => return self.begin_bits(number, width, b),
            Token::Tagged(Tag::Bad, first) => self.line = Line::Bads(first, Token::first(b)),
            _ => self.line = Line::Other,
        }
        Ok(())
    }

    // A visible byte, the width being that of the state or input after whose number bits come.
    pub(crate) fn visible(&mut self, width: Option<u32>, b: u8) -> Result<(), AllocError>
        ensures ok { IfOk result (λ _. self.new ≡ visible self.old width b) }
        ensures err { OnErr result (self.new ≡ self.old) }
    {
        self.line = match self.line {
            Line::Gap(token) => return self.second(token, width, b),
            Line::Bits(number, more) => return self.read_bit(number, more, bit_of(b)),
            Line::Blank => Line::Word(Token::first(b)),
            Line::Word(token) => Line::Word(token.grown(b)),
            Line::Bads(first, token) => Line::Bads(first, token.grown(b)),
            Line::BadsGap(first) => Line::Bads(first, Token::first(b)),
            Line::BitsGap(number) | Line::Symbol(number) => Line::Symbol(number),
            Line::SymbolGap(_) | Line::Other => Line::Other,
        };
        Ok(())
    }
}
