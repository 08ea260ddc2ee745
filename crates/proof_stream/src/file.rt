// A proof file, in either form.

ghost use Rattle.std.specs.Prelude.{◌≡◌, ℕ, ◌+◌, ◌<◌, ◌≤◌, ◌^◌, false, List, length, IfOk, IfSome};
ghost use Rattle.cnf_form.specs.declared.literal.TheConstants.{MAX_VARS};
ghost use Rattle.cert_stream.specs.Telling.{Gets, answer, is_stopped};
ghost use Rattle.proof_stream.specs.File.{FileOf, after, end_fault, end_says, fault, fresh, said, taken_of, vars_of};
ghost use Rattle.proof_stream.specs.Reading.{file_of};

use crate::binary::BinaryParser;
use crate::spot::Form;
use crate::text::TextParser;
use cert_stream::{Fed, ParseFault, Receiver};
use std::alloc::{AllocError, Global};
use std::marker::Model;

#[derive(Drop)]
pub(crate) enum Reading {
    Text(TextParser),
    Binary(BinaryParser),
}

/// Reads a proof file, and keeps nothing of earlier lines, and of its line no more than its literals so far.
#[derive(Drop)]
pub struct ProofParser {
    reading: Reading,
}

impl Model for ProofParser {
    ghost use Rattle.proof_stream.specs.File.{FileOf};
    ghost use Rattle.proof_stream.specs.Reading.{file_of};

    ghost Value = { FileOf };

    ghost view = { λ a. file_of a.reading };

    ghost invariant = { λ a. Unit {0} };
}

impl ProofParser {
    /// Before the first byte of a file over the variables from 1 to `vars`, at most `MAX_VARS`.
    pub fn new(alloc: Global, vars: u32, form: Form) -> Self
        requires { vars ≤ MAX_VARS }
        ensures { result ≡ fresh form vars }
    {
        ProofParser {
            reading: match form {
                Form::Text => Reading::Text(TextParser::new(alloc, vars)),
                Form::Binary => Reading::Binary(BinaryParser::new(alloc, vars)),
            },
        }
    }

    /// How many bytes were taken, where there is no fault.
    pub fn taken(&self) -> u64
        ensures { result ≡ taken_of self.now }
    {
        match &self.reading {
            Reading::Text(text) => text.taken(),
            Reading::Binary(binary) => binary.taken(),
        }
    }

    /// Where no proof file goes on.
    pub fn fault(&self) -> Option<ParseFault>
        ensures { result ≡ fault self.now }
    {
        match &self.reading {
            Reading::Text(text) => text.fault(),
            Reading::Binary(binary) => binary.fault(),
        }
    }

    /// Takes the next piece of the file, and hands to the receiver the clauses and deletions that end in it, until it stops. The answer
    /// is then Stopped, and more bytes have no meaning; else it is the fault, if no proof file begins with the bytes so far, or More. A
    /// literal's fault in a binary proof is at its first byte. A file has fewer than 2^64 bytes, and the receiver takes the literals of
    /// its variables.
    pub fn feed<R: Receiver>(
        &mut self,
        piece: &[u8],
        receiver: &mut R,
    ) -> Result<Result<Fed, ParseFault>, AllocError>
        requires vars { R.vars receiver.old ≡ vars_of self.old }
        requires count { taken_of self.old + length piece.now < 2 ^ 64 }
        ensures told { IfOk result (λ fed. Gets R.gets R.stops receiver.old (said self.old piece.now) receiver.new (is_stopped fed)) }
        ensures kept { IfOk result (λ fed. is_stopped fed ≡ false → self.new ≡ after self.old piece.now) }
        ensures vars { IfOk result (λ _. R.vars receiver.new ≡ vars_of self.new) }
        ensures answer { IfOk result (λ fed. is_stopped fed ≡ false → fed ≡ answer (fault (after self.old piece.now))) }
        ensures count { IfOk result (λ _. taken_of self.new ≤ taken_of self.old + length piece.now) }
    {
        match &mut self.reading {
            Reading::Text(text) => text.feed(piece, receiver),
            Reading::Binary(binary) => binary.feed(piece, receiver),
        }
    }

    /// Ends the file, and hands to the receiver what counts by that. The answer is Stopped, or the fault, or More. A last line that is
    /// unfinished, in text one before its 0, is a fault at the byte after the last. Nothing may be read then.
    pub fn end<R: Receiver>(
        &mut self,
        receiver: &mut R,
    ) -> Result<Result<Fed, ParseFault>, AllocError>
        requires vars { R.vars receiver.old ≡ vars_of self.old }
        requires count { taken_of self.old + 1 < 2 ^ 64 }
        ensures told { IfOk result (λ fed. Gets R.gets R.stops receiver.old (end_says self.old) receiver.new (is_stopped fed)) }
        ensures vars { IfOk result (λ _. R.vars receiver.new ≡ vars_of self.new) }
        ensures answer { IfOk result (λ fed. is_stopped fed ≡ false → fed ≡ answer (end_fault self.old)) }
        ensures count { IfOk result (λ _. taken_of self.new ≤ taken_of self.old + 1) }
    {
        let binary = match &mut self.reading {
            Reading::Text(text) => return text.feed(b"\n", receiver),
            Reading::Binary(binary) => binary,
        };
        match binary.end_fault() {
            Some(fault) => Ok(Err(fault)),
            None => Ok(Ok(Fed::More)),
        }
    }
}
