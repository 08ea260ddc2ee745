// The machine.

ghost use Rattle.std.specs.Prelude.{◌≡◌, ◌≢◌, ◌↔◌, ◌⊎◌, ◌+◌, ◌<◌, ◌≤◌, ◌^◌, ◌∷◌, ◌++◌, ◌&&◌, ◌||◌, [], ℕ, Bool, List, true, false, Some, None, cond, eqb, leb, length, map, take, IfOk, IsTrue, OnErr};
ghost use Rattle.cert_stream.specs.Machine.{fault_of};
ghost use Rattle.cert_stream.specs.Telling.{Gets, is_stopped};
ghost use Rattle.cert_stream.specs.Text.{is_blank};
ghost use Rattle.cnf_form.specs.declared.literal.TheConstants.{MAX_VARS};
ghost use Rattle.inv_stream.specs.Machine.{InvOf, Turn, begins, ends, fault, goes_on, grows, is_clause, is_early, is_space, kept_back, line_after, passes, placed, reads, refuses, taken, turn, turn_by};
ghost use Rattle.inv_stream.specs.Spelling.{grown, named};
ghost use Rattle.inv_stream.specs.Taking.{IsChunk, IsLineOf, IsTaken, turns};
ghost use Rattle.inv_stream.specs.Telling.{Hears, at_end_says, fresh};
ghost use Rattle.inv_stream.specs.declared.mode.Line.TheVariants.{Inside, Letter, Lost, Start};
ghost use Rattle.inv_stream.specs.declared.mode.Spell.TheVariants.{S};

use crate::feeding::InvReceiver;
use crate::mode::{InvFault, InvFaultKind, Line, Part, Spell};
use cert_stream::{DrupParser, Fed, ParseFault, ParseFaultKind, before_feed};
use std::alloc::{AllocError, Global};
use std::marker::Model;

/// Reads a stream piece by piece.
#[derive(Drop)]
pub struct InvParser {
    parser: DrupParser,
    part: Part,
    line: Line,
    place: u64,
}

impl Model for InvParser {
    ghost use Rattle.inv_stream.specs.Machine.{InvOf};

    ghost Value = { InvOf };

    ghost view = { λ a. record { parser = a.parser; part = a.part; line = a.line; place = a.place } };

    ghost invariant = { λ a. Unit {0} };
}

fn is_blank(b: u8) -> bool
    ensures { result ≡ is_blank b }
{
    b == b' ' || b == b'\t' || b == b'\r'
}

fn is_space(b: u8) -> bool
    ensures { result ≡ is_space b }
{
    b == b'\n' || is_blank(b)
}

fn is_clause(b: u8) -> bool
    ensures { result ≡ is_clause b }
{
    b == b'-' || b >= b'0' && b <= b'9'
}

// How the reading of a line of DRUP text stands after a byte of it.
fn line_after(fault: Option<ParseFault>, b: u8) -> Line
    ensures { result ≡ line_after fault b }
{
    match fault {
        None if b == b'\n' => Line::Start,
        None | Some(_) => Line::Inside,
    }
}

fn is_stopped(fed: Result<Fed, ParseFault>) -> bool
    ensures { result ≡ is_stopped fed }
{
    match fed {
        Ok(Fed::Stopped) => true,
        Ok(Fed::More) | Err(_) => false,
    }
}

// How many bytes there are up to the first line feed and with it, or in all.
#[tactic(auto, using(crate::proofs::Lining::line_with_feed, crate::proofs::Lining::line_without))]
fn line_len(bytes: &[u8]) -> usize
    requires { 0 < length bytes.now }
    ensures some { 0 < result }
    ensures within { result ≤ length bytes.now }
    ensures line { IsLineOf (take result bytes.now) }
{
    let front = before_feed(bytes);
    if front < bytes.len() {
        front + 1
    } else {
        front
    }
}

impl InvParser {
    /// Before the first byte of a stream over the variables from 1 to `vars`, at most `MAX_VARS`.
    pub fn new(alloc: Global, vars: u32) -> Self
        requires { vars ≤ MAX_VARS }
        ensures { result ≡ fresh vars }
    {
        InvParser {
            parser: DrupParser::new(alloc, vars),
            part: Part::Head,
            line: Line::Start,
            place: 0,
        }
    }

    /// How many bytes were taken.
    pub fn taken(&self) -> u64
        requires { taken self.now < 2 ^ 64 }
        ensures { result ≡ taken self.now }
    {
        if self.line == Line::Letter {
            self.parser.taken() + 1
        } else {
            self.parser.taken()
        }
    }

    /// Where no stream goes on.
    pub fn fault(&self) -> Option<InvFault>
        ensures { result ≡ fault self.now }
    {
        match self.line {
            Line::Refused(fault) => return Some(fault),
            Line::Lost => return None,
            _ => {}
        }
        let fault = self.parser.fault()?;
        Some(InvFault {
            kind: InvFaultKind::Parse(fault.kind),
            byte: fault.byte,
        })
    }

    // Hands bytes on as some of lines of DRUP text.
    fn pass<R: InvReceiver>(
        &mut self,
        bytes: &[u8],
        line: Line,
        receiver: &mut R,
    ) -> Result<bool, AllocError>
        requires vars { R.vars receiver.old ≡ self.old.parser.vars }
        requires count { self.old.parser.taken + length bytes.now < 2 ^ 64 }
        ensures taken { IfOk result (λ stopped. IsTaken R.gets R.parts R.stops (passes self.old bytes.now line) receiver.old receiver.new self.new stopped) }
        ensures vars { IfOk result (λ _. R.vars receiver.new ≡ self.new.parser.vars) }
    {
        let fed = self.parser.feed(bytes, receiver)?;
        self.line = line;
        Ok(is_stopped(fed))
    }

    fn refuse(&mut self, kind: InvFaultKind, byte: u64)
        ensures { self.new ≡ (refuses self.old kind byte).to }
    {
        self.line = Line::Refused(InvFault { kind, byte });
    }

    // Hands the beginning of a line of DRUP text on, or more of it, up to its byte b.
    fn read<R: InvReceiver>(
        &mut self,
        bytes: &[u8],
        b: u8,
        receiver: &mut R,
    ) -> Result<bool, AllocError>
        requires vars { R.vars receiver.old ≡ self.old.parser.vars }
        requires count { self.old.parser.taken + length bytes.now < 2 ^ 64 }
        ensures taken { IfOk result (λ stopped. IsTaken R.gets R.parts R.stops (reads self.old bytes.now b) receiver.old receiver.new self.new stopped) }
        ensures vars { IfOk result (λ _. R.vars receiver.new ≡ self.new.parser.vars) }
    {
        let stopped = self.pass(bytes, Line::Inside, receiver)?;
        self.line = line_after(self.parser.fault(), b);
        Ok(stopped)
    }

    // Whether no clause is deleted yet.
    fn is_early(&self, b: u8) -> bool
        ensures { result ≡ is_early self.now.part b }
    {
        b == b'd' && self.part.place() <= 1
    }

    // A line's first visible byte.
    fn begin<R: InvReceiver>(&mut self, b: u8, receiver: &mut R) -> Result<bool, AllocError>
        requires vars { R.vars receiver.old ≡ self.old.parser.vars }
        requires count { self.old.parser.taken + 1 < 2 ^ 64 }
        ensures taken { IfOk result (λ stopped. IsTaken R.gets R.parts R.stops (begins (placed self.old) b) receiver.old receiver.new self.new stopped) }
        ensures vars { IfOk result (λ _. R.vars receiver.new ≡ self.new.parser.vars) }
    {
        self.place = self.parser.taken();
        if b == b'i' {
            return self.pass(b" ", Line::Word(Spell::I), receiver);
        }
        if b == b's' {
            self.line = Line::Letter;
            return Ok(false);
        }
        if b == b'v' || self.is_early(b) {
            self.refuse(InvFaultKind::Parse(ParseFaultKind::BadLine), self.place);
            return Ok(false);
        }
        if is_clause(b) && self.part.place() == 0 {
            self.refuse(InvFaultKind::BadPart, self.place);
            return Ok(false);
        }
        self.read(&[b], b, receiver)
    }

    // A letter more of a part's word, after which bytes are white space to the lines of DRUP text, or a fault at a byte.
    fn grow<R: InvReceiver>(
        &mut self,
        blanks: &[u8],
        spell: Option<Spell>,
        byte: u64,
        receiver: &mut R,
    ) -> Result<bool, AllocError>
        requires vars { R.vars receiver.old ≡ self.old.parser.vars }
        requires count { self.old.parser.taken + length blanks.now < 2 ^ 64 }
        ensures taken { IfOk result (λ stopped. IsTaken R.gets R.parts R.stops (grows self.old blanks.now spell byte) receiver.old receiver.new self.new stopped) }
        ensures vars { IfOk result (λ _. R.vars receiver.new ≡ self.new.parser.vars) }
    {
        match spell {
            Some(spell) => self.pass(blanks, Line::Word(spell), receiver),
            None => {
                self.refuse(InvFaultKind::Parse(ParseFaultKind::BadLine), byte);
                Ok(false)
            }
        }
    }

    // White space or a line feed after the word of the next part.
    fn go_on<R: InvReceiver>(
        &mut self,
        part: Part,
        b: u8,
        receiver: &mut R,
    ) -> Result<bool, AllocError>
        requires vars { R.vars receiver.old ≡ self.old.parser.vars }
        requires count { self.old.parser.taken + 1 < 2 ^ 64 }
        ensures taken { IfOk result (λ stopped. IsTaken R.gets R.parts R.stops (goes_on self.old part b) receiver.old receiver.new self.new stopped) }
        ensures vars { IfOk result (λ _. R.vars receiver.new ≡ self.new.parser.vars) }
    {
        if b != b'\n' {
            return self.pass(&[b], Line::Named(part), receiver);
        }
        if self.pass(&[b], Line::Start, receiver)? {
            return Ok(true);
        }
        self.part = part;
        receiver.part(self.place)
    }

    // White space or a line feed after letters.
    fn end_word<R: InvReceiver>(
        &mut self,
        part: Option<Part>,
        b: u8,
        receiver: &mut R,
    ) -> Result<bool, AllocError>
        requires vars { R.vars receiver.old ≡ self.old.parser.vars }
        requires count { self.old.parser.taken + 1 < 2 ^ 64 }
        ensures taken { IfOk result (λ stopped. IsTaken R.gets R.parts R.stops (ends self.old part b) receiver.old receiver.new self.new stopped) }
        ensures vars { IfOk result (λ _. R.vars receiver.new ≡ self.new.parser.vars) }
    {
        let Some(part) = part else {
            let byte = self.parser.taken();
            self.refuse(InvFaultKind::Parse(ParseFaultKind::BadLine), byte);
            return Ok(false);
        };
        if self.part.is_next(part) {
            return self.go_on(part, b, receiver);
        }
        self.refuse(InvFaultKind::BadPart, self.place);
        Ok(false)
    }

    // A byte after an s.
    fn after_letter<R: InvReceiver>(&mut self, b: u8, receiver: &mut R) -> Result<bool, AllocError>
        requires line { self.old.line ≡ Letter }
        requires vars { R.vars receiver.old ≡ self.old.parser.vars }
        requires count { self.old.parser.taken + 2 < 2 ^ 64 }
        ensures taken { IfOk result (λ stopped. IsTaken R.gets R.parts R.stops (turn_by self.old Letter b) receiver.old receiver.new self.new stopped) }
        ensures vars { IfOk result (λ _. R.vars receiver.new ≡ self.new.parser.vars) }
    {
        if is_space(b) {
            return self.read(&[b's', b], b, receiver);
        }
        let byte = self.parser.taken() + 1;
        self.grow(b"  ", Spell::S.grown(b), byte, receiver)
    }

    // A byte.
    fn turn<R: InvReceiver>(&mut self, b: u8, receiver: &mut R) -> Result<bool, AllocError>
        requires vars { R.vars receiver.old ≡ self.old.parser.vars }
        requires count { taken self.old + 1 < 2 ^ 64 }
        ensures taken { IfOk result (λ stopped. IsTaken R.gets R.parts R.stops (turn self.old b) receiver.old receiver.new self.new stopped) }
        ensures vars { IfOk result (λ _. R.vars receiver.new ≡ self.new.parser.vars) }
    {
        let byte = self.parser.taken();
        match self.line {
            Line::Start if is_space(b) => self.pass(&[b], Line::Start, receiver),
            Line::Start => self.begin(b, receiver),
            Line::Letter => self.after_letter(b, receiver),
            Line::Word(spell) if is_space(b) => self.end_word(spell.named(), b, receiver),
            Line::Word(spell) => self.grow(b" ", spell.grown(b), byte, receiver),
            Line::Named(part) if is_space(b) => self.go_on(part, b, receiver),
            Line::Named(_) => {
                self.refuse(InvFaultKind::Parse(ParseFaultKind::BadLine), byte);
                Ok(false)
            }
            Line::Inside => self.read(&[b], b, receiver),
            Line::Refused(_) | Line::Lost => Ok(false),
        }
    }

    // How many of some bytes are taken at once.
    pub(crate) fn chunk(&self, bytes: &[u8]) -> usize
        requires { 0 < length bytes.now }
        ensures some { 0 < result }
        ensures within { result ≤ length bytes.now }
        ensures chunk { IsChunk self.now.line (take result bytes.now) }
    {
        match self.line {
            Line::Inside => line_len(bytes),
            _ => 1,
        }
    }

    // Takes bytes at once.
    pub(crate) fn take<R: InvReceiver>(
        &mut self,
        bytes: &[u8],
        receiver: &mut R,
    ) -> Result<bool, AllocError>
        requires chunk { IsChunk self.old.line bytes.now }
        requires some { 0 < length bytes.now }
        requires vars { R.vars receiver.old ≡ self.old.parser.vars }
        requires count { taken self.old + length bytes.now < 2 ^ 64 }
        ensures taken { IfOk result (λ stopped. IsTaken R.gets R.parts R.stops (turns self.old bytes.now) receiver.old receiver.new self.new stopped) }
        ensures vars { IfOk result (λ _. R.vars receiver.new ≡ self.new.parser.vars) }
    {
        let last = bytes[bytes.len() - 1];
        match self.line {
            Line::Inside => self.read(bytes, last, receiver),
            _ => self.turn(last, receiver),
        }
    }

    // What counts by the stream's end.
    pub(crate) fn take_end<R: InvReceiver>(&mut self, receiver: &mut R) -> Result<bool, AllocError>
        requires vars { R.vars receiver.old ≡ self.old.parser.vars }
        ensures told { IfOk result (λ stopped. Gets (Hears R.gets R.parts) R.stops receiver.old (at_end_says self.old) receiver.new stopped) }
        ensures kept { IfOk result (λ _. self.new ≡ self.old) }
        ensures vars { IfOk result (λ _. R.vars receiver.new ≡ self.new.parser.vars) }
    {
        if self.line != Line::Inside {
            return Ok(false);
        }
        let fed = self.parser.end(receiver)?;
        Ok(is_stopped(fed))
    }

    // Memory ran out: nothing is known any more.
    pub(crate) fn lose(&mut self)
        ensures { self.new.line ≡ Lost }
    {
        self.line = Line::Lost;
    }

    pub(crate) fn is_lost(&self) -> bool
        ensures { IsTrue result ↔ (self.now.line ≡ Lost) }
    {
        matches!(self.line, Line::Lost)
    }
}
