// The reader's call.

ghost use Rattle.std.specs.Prelude.{◌≡◌, ℕ, ◌≤◌, ◌^◌, List, length, Err, IfOk, IfErr};
ghost use Rattle.design_core.specs.Shape.{DesignOf};
ghost use Rattle.design_reader.specs.Grammar.{Reads};
ghost use Rattle.design_reader.specs.Faults.{IsReadFault};
ghost use Rattle.design_reader.specs.Outcome.{Answers};

use crate::fault::{ReadFault, ReadFaultKind};
use crate::reader::Reader;
use crate::stop::Stop;
use design_core::design::Design;
use rtlil_lex::Lexer;
use std::alloc::{AllocError, Global};

/// How many bytes a text may have.
const MOST_BYTES: usize = 1 << 26;

fn refused(byte: u64, kind: ReadFaultKind) -> Result<Design, ReadFault>
    ensures { result ≡ Err (record { byte = byte; kind = kind }) }
{
    Err(ReadFault { byte, kind })
}

/// The design of a text that isn't too long.
fn design(alloc: Global, bytes: &[u8]) -> Result<Result<Design, ReadFault>, AllocError>
    requires { length bytes.now ≤ 2 ^ 26 }
    ensures { IfOk result (λ answer. Answers bytes.now answer) }
{
    let mut lexer = Lexer::new(bytes);
    let mut reader = Reader::new(alloc);
    'tokens: loop {
        match lexer.next() {
            Ok(Some(token)) => match reader.word(alloc, token.text) {
                Ok(next) => reader = next,
                Err(Stop::Fault(kind)) => return Ok(refused(token.start as u64, kind)),
                Err(Stop::Memory) => return Err(AllocError),
            },
            Ok(None) => return Ok(reader.end(bytes.len() as u64)),
            Err(fault) => return Ok(refused(fault.byte, ReadFaultKind::Syntax)),
        }
    }
}

/// Reads RTLIL text: one flat module.
///
/// A text has at most 2^26 bytes, and a design at most 2^20 bits, wires' bits and free bits together. A longer text is refused
/// by `Limit` at byte 2^26. Any other refusal has the first byte of the first token after which no text of the grammar can go
/// on, or the text's length.
///
/// The outer error is out of memory alone. A constant of 2^32 digits or more, where its digits count, wants more memory than
/// there is.
pub fn read(alloc: Global, bytes: &[u8]) -> Result<Result<Design, ReadFault>, AllocError>
    ensures design { IfOk result (λ answer. IfOk answer (λ d. Reads bytes.now d)) }
    // Nothing else is read from the text.
    ensures only { IfOk result (λ answer. IfOk answer (λ d. (e : DesignOf) → Reads bytes.now e → e ≡ d)) }
    ensures fault { IfOk result (λ answer. IfErr answer (λ f. ((d : DesignOf) → Reads bytes.now d → ⊥) × IsReadFault bytes.now f.byte f.kind)) }
{
    if bytes.len() > MOST_BYTES {
        return Ok(refused(MOST_BYTES as u64, ReadFaultKind::Limit));
    }
    design(alloc, bytes)
}

/// A text reads at most one design.
pub fn one_design()
    ensures { (text : List ℕ) (d e : DesignOf) → Reads text d → Reads text e → d ≡ e }
{}

/// A text isn't both read and refused.
pub fn read_or_refused()
    ensures { (text : List ℕ) (d : DesignOf) (byte : ℕ) (kind : ReadFaultKind) → Reads text d → IsReadFault text byte kind → ⊥ }
{}

/// A text is refused at one byte, by one kind.
pub fn one_refusal()
    ensures { (text : List ℕ) (a b : ℕ) (j k : ReadFaultKind) → IsReadFault text a j → IsReadFault text b k → (a ≡ b) × (j ≡ k) }
{}
