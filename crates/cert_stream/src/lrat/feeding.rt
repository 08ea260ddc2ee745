// Pieces of a hinted stream.

ghost use Rattle.std.specs.Prelude.{◌≡◌, ◌≢◌, ℕ, ◌+◌, ◌<◌, ◌≤◌, ◌^◌, Bool, true, false, List, length, Option, Some, None, IfOk, OnErr};
ghost use Rattle.cnf_form.specs.Cnf.{LitWithin, ClauseWithin};
ghost use Rattle.cert_stream.specs.Machine.{IsEventWithin};
ghost use Rattle.cert_stream.specs.Telling.{Gets, answer, is_stopped};
ghost use Rattle.cert_stream.specs.LratMachine.{LratOf, at_end, fault_of};
ghost use Rattle.cert_stream.specs.LratTelling.{LratSaying, TakesMemory, IsClause, IsDelete, IsValue, IsValuesEnd, IsUnknown, after, said, saying, told_by};

use crate::lrat::mode::Hint;
use crate::lrat::parser::LratParser;
use crate::{Event, Fed, ParseFault};
use cnf_form::Lit;
use std::alloc::AllocError;

/// Gets what a hinted stream says. Each call answers whether no more is wanted, or that memory ran out.
pub trait LratReceiver {
    /// It takes literals of the variables from 1 to this one.
    ghost vars: { Self → ℕ };

    /// What becomes of it when it gets a saying.
    ghost gets: { Self → LratSaying → Self → Type 0 };

    /// Whether it wants no more.
    ghost stops: { Self → Bool };

    /// A clause with its id and its hints, and the place of its line's first visible byte in the stream, counted from 0.
    fn clause(
        &mut self,
        id: u64,
        lits: &[Lit],
        hints: &[Hint],
        place: u64,
    ) -> Result<bool, AllocError>
        requires { ClauseWithin (vars self.old) lits.now }
        ensures gets { IfOk result (λ _. gets self.old (IsClause id lits.now hints.now place) self.new) }
        ensures stops { IfOk result (λ stop. stop ≡ stops self.new) }
        ensures vars { IfOk result (λ _. vars self.new ≡ vars self.old) };

    /// The clauses with these ids, none of them negated, are deleted.
    fn delete(&mut self, ids: &[Hint]) -> Result<bool, AllocError>
        ensures gets { IfOk result (λ _. gets self.old (IsDelete ids.now) self.new) }
        ensures stops { IfOk result (λ stop. stop ≡ stops self.new) }
        ensures vars { IfOk result (λ _. vars self.new ≡ vars self.old) };

    /// A literal is true.
    fn value(&mut self, l: Lit) -> Result<bool, AllocError>
        requires { LitWithin (vars self.old) l }
        ensures gets { IfOk result (λ _. gets self.old (IsValue l) self.new) }
        ensures stops { IfOk result (λ stop. stop ≡ stops self.new) }
        ensures vars { IfOk result (λ _. vars self.new ≡ vars self.old) };

    /// No more values come.
    fn values_end(&mut self) -> Result<bool, AllocError>
        ensures gets { IfOk result (λ _. gets self.old IsValuesEnd self.new) }
        ensures stops { IfOk result (λ stop. stop ≡ stops self.new) }
        ensures vars { IfOk result (λ _. vars self.new ≡ vars self.old) };

    /// The engine doesn't know.
    fn unknown(&mut self) -> Result<bool, AllocError>
        ensures gets { IfOk result (λ _. gets self.old IsUnknown self.new) }
        ensures stops { IfOk result (λ stop. stop ≡ stops self.new) }
        ensures vars { IfOk result (λ _. vars self.new ≡ vars self.old) };
}

// Hands on what a byte said.
fn tell<R: LratReceiver>(
    parser: &LratParser,
    receiver: &mut R,
    event: Event,
) -> Result<bool, AllocError>
    requires vars { R.vars receiver.old ≡ parser.now.vars }
    requires within { IsEventWithin parser.now.vars (Some event) }
    ensures vars { IfOk result (λ _. R.vars receiver.new ≡ R.vars receiver.old) }
    ensures gets { IfOk result (λ _. R.gets receiver.old (saying parser.now event) receiver.new) }
    ensures stops { IfOk result (λ stop. stop ≡ R.stops receiver.new) }
{
    match event {
        Event::Clause => receiver.clause(
            parser.id(),
            parser.lits(),
            parser.hints(),
            parser.place(),
        ),
        Event::Delete => receiver.delete(parser.hints()),
        Event::Value(l) => receiver.value(l),
        Event::ValuesEnd => receiver.values_end(),
        Event::Unknown => receiver.unknown(),
    }
}

// Takes a piece, and answers whether the receiver stopped.
#[tactic(auto, using(crate::proofs::LratPieces::left_start, crate::proofs::LratPieces::left_quiet, crate::proofs::LratPieces::left_told, crate::proofs::LratPieces::left_stopped, crate::proofs::LratPieces::left_told_all, crate::proofs::LratPieces::left_kept_all, crate::proofs::LratPieces::memory_at, crate::proofs::LratPieces::memory_told))]
fn take_piece<R: LratReceiver>(
    parser: &mut LratParser,
    piece: &[u8],
    receiver: &mut R,
) -> Result<bool, AllocError>
    requires vars { R.vars receiver.old ≡ parser.old.vars }
    requires count { parser.old.taken + length piece.now < 2 ^ 64 }
    ensures told { IfOk result (λ stopped. Gets R.gets R.stops receiver.old (said parser.old piece.now) receiver.new stopped) }
    ensures kept { IfOk result (λ stopped. stopped ≡ false → parser.new ≡ after parser.old piece.now) }
    ensures vars { IfOk result (λ _. R.vars receiver.new ≡ parser.new.vars) }
    ensures count { IfOk result (λ _. parser.new.taken ≤ parser.old.taken + length piece.now) }
    ensures memory { OnErr result (TakesMemory parser.old piece.now) }
{
    let mut i = 0;
    while i < piece.len() {
        let event = parser.turn(piece[i])?;
        i += 1;
        if let Some(event) = event {
            if tell(parser, receiver, event)? {
                return Ok(true);
            }
        }
    }
    Ok(false)
}

// Tells what counts by the stream's end, and answers whether the receiver stopped.
fn take_end<R: LratReceiver>(parser: &LratParser, receiver: &mut R) -> Result<bool, AllocError>
    requires { R.vars receiver.old ≡ parser.now.vars }
    ensures told { IfOk result (λ stopped. Gets R.gets R.stops receiver.old (told_by parser.now (at_end parser.now.mode)) receiver.new stopped) }
    ensures vars { IfOk result (λ _. R.vars receiver.new ≡ parser.now.vars) }
    ensures memory { OnErr result (at_end parser.now.mode ≢ None) }
{
    let Some(event) = parser.at_end() else {
        return Ok(false);
    };
    tell(parser, receiver, event)
}

impl LratParser {
    // What a call answers.
    fn answer(&self, stopped: bool) -> Result<Fed, ParseFault>
        ensures stopped { is_stopped result ≡ stopped }
        ensures answer { stopped ≡ false → result ≡ answer (fault_of self.now.mode) }
    {
        if stopped {
            return Ok(Fed::Stopped);
        }
        match self.fault() {
            Some(fault) => Err(fault),
            None => Ok(Fed::More),
        }
    }

    /// Takes the next piece of the stream, and hands to the receiver what the bytes say, until it stops. The answer is then Stopped, and
    /// more bytes have no meaning; else it is the fault, if no hinted stream begins with the bytes so far, or More. A stream has fewer
    /// than 2^64 bytes, and the receiver takes the literals of its variables. Out of memory comes only where a number of a list was read or
    /// something said, and after it nothing is known.
    pub fn feed<R: LratReceiver>(
        &mut self,
        piece: &[u8],
        receiver: &mut R,
    ) -> Result<Result<Fed, ParseFault>, AllocError>
        requires vars { R.vars receiver.old ≡ self.old.vars }
        requires count { self.old.taken + length piece.now < 2 ^ 64 }
        ensures told { IfOk result (λ fed. Gets R.gets R.stops receiver.old (said self.old piece.now) receiver.new (is_stopped fed)) }
        ensures kept { IfOk result (λ fed. is_stopped fed ≡ false → self.new ≡ after self.old piece.now) }
        ensures vars { IfOk result (λ _. R.vars receiver.new ≡ self.new.vars) }
        ensures answer { IfOk result (λ fed. is_stopped fed ≡ false → fed ≡ answer (fault_of (after self.old piece.now).mode)) }
        ensures count { IfOk result (λ _. self.new.taken ≤ self.old.taken + length piece.now) }
        ensures memory { OnErr result (TakesMemory self.old piece.now) }
    {
        let stopped = take_piece(self, piece, receiver)?;
        Ok(self.answer(stopped))
    }

    /// Ends the stream, and hands to the receiver what counts by that: a last 0, or UNKNOWN. An unfinished line is no fault.
    pub fn end<R: LratReceiver>(
        &self,
        receiver: &mut R,
    ) -> Result<Result<Fed, ParseFault>, AllocError>
        requires { R.vars receiver.old ≡ self.now.vars }
        ensures told { IfOk result (λ fed. Gets R.gets R.stops receiver.old (told_by self.now (at_end self.now.mode)) receiver.new (is_stopped fed)) }
        ensures vars { IfOk result (λ _. R.vars receiver.new ≡ self.now.vars) }
        ensures answer { IfOk result (λ fed. is_stopped fed ≡ false → fed ≡ answer (fault_of self.now.mode)) }
        ensures memory { OnErr result (at_end self.now.mode ≢ None) }
    {
        let stopped = take_end(self, receiver)?;
        Ok(self.answer(stopped))
    }
}
