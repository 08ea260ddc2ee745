// A proof file in text: a stream without lines of s and v.

ghost use Rattle.std.specs.Prelude.{◌≡◌, ℕ, ◌+◌, ◌<◌, ◌≤◌, ◌^◌, ◌&&◌, Bool, true, false, List, length, take, Option, Some, None, IfOk, slice_index_or};
ghost use Rattle.cert_stream.specs.Telling.{Gets, answer, is_stopped};
ghost use Rattle.cert_stream.specs.Text.{is_blank};
ghost use Rattle.cnf_form.specs.declared.literal.TheConstants.{MAX_VARS};
ghost use Rattle.proof_stream.specs.Text.{TextOf, is_claim, next_starts, text_fault, text_fresh};
ghost use Rattle.proof_stream.specs.File.{FileOf, InText, after, fault, said};
ghost use Rattle.proof_stream.specs.Passing.{Passes, starts_after};

use cert_stream::{DrupParser, Fed, ParseFault, ParseFaultKind, Receiver};
use std::alloc::{AllocError, Global};
use std::marker::Model;

/// Reads a proof file in text.
#[derive(Drop)]
pub(crate) struct TextParser {
    parser: DrupParser,
    // The line has no visible byte so far.
    starts: bool,
    refused: Option<ParseFault>,
}

impl Model for TextParser {
    ghost use Rattle.proof_stream.specs.Text.{TextOf};

    ghost Value = { TextOf };

    ghost view = { λ a. record { parser = a.parser; starts = a.starts; refused = a.refused } };

    ghost invariant = { λ a. Unit {0} };
}

fn is_claim(b: u8) -> bool
    ensures { result ≡ is_claim b }
{
    b == b's' || b == b'v'
}

fn next_starts(starts: bool, b: u8) -> bool
    ensures { result ≡ next_starts starts b }
{
    b == b'\n' || starts && (b == b' ' || b == b'\t' || b == b'\r')
}

// Whether the byte begins a line of s or v.
fn claims(starts: bool, b: u8) -> bool
    ensures { result ≡ (starts && is_claim b) }
{
    starts && is_claim(b)
}

fn is_stopped(fed: Result<Fed, ParseFault>) -> bool
    ensures { result ≡ is_stopped fed }
{
    match fed {
        Ok(Fed::Stopped) => true,
        Ok(Fed::More) | Err(_) => false,
    }
}

// Passes over bytes up to the first line of s or v, and answers how many.
fn pass(starts: &mut bool, bytes: &[u8]) -> usize
    ensures within { result ≤ length bytes.now }
    ensures passes { Passes starts.old (take result bytes.now) }
    ensures starts { starts.new ≡ starts_after starts.old (take result bytes.now) }
    ensures refused { result < length bytes.now → (starts.new && is_claim (slice_index_or bytes.now result 0)) ≡ true }
{
    let mut i = 0;
    while i < bytes.len() {
        let b = bytes[i];
        if claims(*starts, b) {
            return i;
        }
        *starts = next_starts(*starts, b);
        i += 1;
    }
    i
}

impl TextParser {
    pub(crate) fn new(alloc: Global, vars: u32) -> Self
        requires { vars ≤ MAX_VARS }
        ensures { result ≡ text_fresh vars }
    {
        TextParser {
            parser: DrupParser::new(alloc, vars),
            starts: true,
            refused: None,
        }
    }

    pub(crate) fn fault(&self) -> Option<ParseFault>
        ensures { result ≡ text_fault self.now }
    {
        self.parser.fault().or(self.refused)
    }

    pub(crate) fn taken(&self) -> u64
        ensures { result ≡ self.now.parser.taken }
    {
        self.parser.taken()
    }

    // Takes the part of a piece that a stream may have too, and answers whether the receiver stopped.
    fn take_open<R: Receiver>(&mut self, piece: &[u8], receiver: &mut R) -> Result<bool, AllocError>
        requires open { self.old.refused ≡ None }
        requires vars { R.vars receiver.old ≡ self.old.parser.vars }
        requires count { self.old.parser.taken + length piece.now < 2 ^ 64 }
        ensures told { IfOk result (λ stopped. Gets R.gets R.stops receiver.old (said (InText self.old) piece.now) receiver.new stopped) }
        ensures kept { IfOk result (λ stopped. stopped ≡ false → (let r : FileOf = InText self.new in r) ≡ after (InText self.old) piece.now) }
        ensures vars { IfOk result (λ _. R.vars receiver.new ≡ self.new.parser.vars) }
        ensures count { IfOk result (λ _. self.new.parser.taken ≤ self.old.parser.taken + length piece.now) }
    {
        let count = pass(&mut self.starts, piece);
        let fed = self.parser.feed(&piece[..count], receiver)?;
        if is_stopped(fed) {
            return Ok(true);
        }
        if count < piece.len() {
            self.refused = Some(ParseFault {
                kind: ParseFaultKind::BadLine,
                byte: self.parser.taken(),
            });
        }
        Ok(false)
    }

    // Takes a piece, of which nothing is read after a refused line.
    #[tactic(auto, using(crate::proofs::Passing::refused_told, crate::proofs::Passing::refused_kept))]
    fn take<R: Receiver>(&mut self, piece: &[u8], receiver: &mut R) -> Result<bool, AllocError>
        requires vars { R.vars receiver.old ≡ self.old.parser.vars }
        requires count { self.old.parser.taken + length piece.now < 2 ^ 64 }
        ensures told { IfOk result (λ stopped. Gets R.gets R.stops receiver.old (said (InText self.old) piece.now) receiver.new stopped) }
        ensures kept { IfOk result (λ stopped. stopped ≡ false → (let r : FileOf = InText self.new in r) ≡ after (InText self.old) piece.now) }
        ensures vars { IfOk result (λ _. R.vars receiver.new ≡ self.new.parser.vars) }
        ensures count { IfOk result (λ _. self.new.parser.taken ≤ self.old.parser.taken + length piece.now) }
    {
        if self.refused.is_some() {
            return Ok(false);
        }
        self.take_open(piece, receiver)
    }

    pub(crate) fn feed<R: Receiver>(
        &mut self,
        piece: &[u8],
        receiver: &mut R,
    ) -> Result<Result<Fed, ParseFault>, AllocError>
        requires vars { R.vars receiver.old ≡ self.old.parser.vars }
        requires count { self.old.parser.taken + length piece.now < 2 ^ 64 }
        ensures told { IfOk result (λ fed. Gets R.gets R.stops receiver.old (said (InText self.old) piece.now) receiver.new (is_stopped fed)) }
        ensures kept { IfOk result (λ fed. is_stopped fed ≡ false → (let r : FileOf = InText self.new in r) ≡ after (InText self.old) piece.now) }
        ensures vars { IfOk result (λ _. R.vars receiver.new ≡ self.new.parser.vars) }
        ensures answer { IfOk result (λ fed. is_stopped fed ≡ false → fed ≡ answer (fault (after (InText self.old) piece.now))) }
        ensures count { IfOk result (λ _. self.new.parser.taken ≤ self.old.parser.taken + length piece.now) }
    {
        if self.take(piece, receiver)? {
            return Ok(Ok(Fed::Stopped));
        }
        match self.fault() {
            Some(fault) => Ok(Err(fault)),
            None => Ok(Ok(Fed::More)),
        }
    }
}
