// Pieces of a stream.

ghost use Rattle.std.specs.Prelude.{◌≡◌, ◌≢◌, ℕ, ◌+◌, ◌<◌, ◌≤◌, ◌^◌, Bool, true, false, List, [], ◌∷◌, ◌++◌, length, Option, Some, None, IfOk, IfSome, OnErr, IsErr, Ok, ◌⊎◌};
ghost use Rattle.cnf_form.specs.Cnf.{LitOf, LitWithin, ClauseWithin};
ghost use Rattle.cert_stream.specs.Machine.{DrupOf, Turn, IsEventWithin, turn, at_end, fault_of};
ghost use Rattle.cert_stream.specs.Telling.{Saying, TakesMemory, IsClause, IsDelete, IsValue, IsValuesEnd, IsUnknown, saying, told_by, after, said, answer, Gets, is_stopped};
ghost use Rattle.cert_stream.specs.declared.mode.Mode.TheVariants.{Lost};

use crate::mode::{Event, ParseFault};
use crate::parser::DrupParser;
use crate::steps::{Count, Steps, Uncounted};
use cnf_form::Lit;
use std::alloc::AllocError;
use std::sync::ledger::Ledger;

/// Gets what a stream says. Each call answers whether no more is wanted, or that memory ran out.
pub trait Receiver {
    /// It takes literals of the variables from 1 to this one.
    ghost vars: { Self → ℕ };

    /// What becomes of it when it gets a saying.
    ghost gets: { Self → Saying → Self → Type 0 };

    /// Whether it wants no more.
    ghost stops: { Self → Bool };

    /// A clause, and the place of its line's first visible byte in the stream, counted from 0.
    fn clause(&mut self, lits: &[Lit], place: u64) -> Result<bool, AllocError>
        requires { ClauseWithin (vars self.old) lits.now }
        ensures gets { IfOk result (λ _. gets self.old (IsClause lits.now place) self.new) }
        ensures stops { IfOk result (λ stop. stop ≡ stops self.new) }
        ensures vars { IfOk result (λ _. vars self.new ≡ vars self.old) };

    /// A clause with these literals is deleted.
    fn delete(&mut self, lits: &[Lit]) -> Result<bool, AllocError>
        requires { ClauseWithin (vars self.old) lits.now }
        ensures gets { IfOk result (λ _. gets self.old (IsDelete lits.now) self.new) }
        ensures stops { IfOk result (λ stop. stop ≡ stops self.new) }
        ensures vars { IfOk result (λ _. vars self.new ≡ vars self.old) };

    /// A literal is true.
    fn value(&mut self, l: Lit) -> Result<bool, AllocError>
        requires { LitWithin (vars self.old) l }
        ensures gets { IfOk result (λ _. gets self.old (IsValue l) self.new) }
        ensures stops { IfOk result (λ stop. stop ≡ stops self.new) }
        ensures vars { IfOk result (λ _. vars self.new ≡ vars self.old) };

    /// No more values come.
    fn values_end(&mut self) -> Result<bool, AllocError>
        ensures gets { IfOk result (λ _. gets self.old IsValuesEnd self.new) }
        ensures stops { IfOk result (λ stop. stop ≡ stops self.new) }
        ensures vars { IfOk result (λ _. vars self.new ≡ vars self.old) };

    /// The engine doesn't know.
    fn unknown(&mut self) -> Result<bool, AllocError>
        ensures gets { IfOk result (λ _. gets self.old IsUnknown self.new) }
        ensures stops { IfOk result (λ stop. stop ≡ stops self.new) }
        ensures vars { IfOk result (λ _. vars self.new ≡ vars self.old) };
}

/// Whether the receiver stopped the call.
#[derive(Clone, Copy, Debug, PartialEq, Eq)]
pub enum Fed {
    More,
    Stopped,
}

// Hands on what a byte said.
fn tell<R: Receiver>(
    parser: &DrupParser,
    receiver: &mut R,
    event: Event,
) -> Result<bool, AllocError>
    requires vars { R.vars receiver.old ≡ parser.now.vars }
    requires within { IsEventWithin parser.now.vars (Some event) }
    ensures vars { IfOk result (λ _. R.vars receiver.new ≡ R.vars receiver.old) }
    ensures gets { IfOk result (λ _. R.gets receiver.old (saying parser.now event) receiver.new) }
    ensures stops { IfOk result (λ stop. stop ≡ R.stops receiver.new) }
{
    match event {
        Event::Clause => receiver.clause(parser.lits(), parser.place()),
        Event::Delete => receiver.delete(parser.lits()),
        Event::Value(l) => receiver.value(l),
        Event::ValuesEnd => receiver.values_end(),
        Event::Unknown => receiver.unknown(),
    }
}

// Takes a piece, with a step for each turn, and answers whether the receiver stopped.
fn take_piece<R: Receiver, N: Count>(
    parser: &mut DrupParser,
    piece: &[u8],
    receiver: &mut R,
    steps: &mut N,
) -> Result<bool, AllocError>
    requires vars { R.vars receiver.old ≡ parser.old.vars }
    requires count { parser.old.taken + length piece.now < 2 ^ 64 }
    ensures told { IfOk result (λ stopped. Gets R.gets R.stops receiver.old (said parser.old piece.now) receiver.new stopped) }
    ensures kept { IfOk result (λ stopped. stopped ≡ false → parser.new ≡ after parser.old piece.now) }
    ensures vars { IfOk result (λ _. R.vars receiver.new ≡ parser.new.vars) }
    ensures count { IfOk result (λ _. parser.new.taken ≤ parser.old.taken + length piece.now) }
    ensures memory { OnErr result (TakesMemory parser.old piece.now) }
    ensures steps { N.count steps.new ≤ N.count steps.old + length piece.now }
{
    let mut i = 0;
    while i < piece.len() {
        steps.step();
        i += parser.pass(&piece[i..]);
        if i >= piece.len() {
            return Ok(false);
        }
        let event = parser.turn(piece[i])?;
        i += 1;
        if let Some(event) = event {
            if tell(parser, receiver, event)? {
                return Ok(true);
            }
        }
    }
    Ok(false)
}

// Tells what counts by the stream's end, and answers whether the receiver stopped.
fn take_end<R: Receiver>(parser: &DrupParser, receiver: &mut R) -> Result<bool, AllocError>
    requires { R.vars receiver.old ≡ parser.now.vars }
    ensures told { IfOk result (λ stopped. Gets R.gets R.stops receiver.old (told_by parser.now (at_end parser.now.mode)) receiver.new stopped) }
    ensures vars { IfOk result (λ _. R.vars receiver.new ≡ parser.now.vars) }
    ensures memory { OnErr result (at_end parser.now.mode ≢ None) }
{
    let Some(event) = parser.at_end() else {
        return Ok(false);
    };
    tell(parser, receiver, event)
}

impl DrupParser {
    // What a call answers.
    fn answer(
        &mut self,
        stopped: Result<bool, AllocError>,
    ) -> Result<Result<Fed, ParseFault>, AllocError>
        ensures stopped { IfOk result (λ fed. stopped ≡ Ok (is_stopped fed)) }
        ensures kept { IfOk result (λ _. self.new ≡ self.old) }
        ensures answer { IfOk result (λ fed. is_stopped fed ≡ false → fed ≡ answer (fault_of self.old.mode)) }
        ensures lost { OnErr result (self.new.mode ≡ Lost) }
        ensures uncounted { OnErr result (self.new.taken ≡ 0) }
        ensures err { OnErr result (IsErr stopped) }
    {
        let Ok(stopped) = stopped else {
            self.lose();
            return Err(AllocError);
        };
        if stopped {
            return Ok(Ok(Fed::Stopped));
        }
        match self.fault() {
            Some(fault) => Ok(Err(fault)),
            None => Ok(Ok(Fed::More)),
        }
    }

    /// Takes the next piece of the stream, and hands to the receiver what the bytes say, until it stops. The answer is then
    /// Stopped, and more bytes have no meaning; else it is the fault, if no stream begins with the bytes so far, or More. Out of
    /// memory, which is answered from then on, comes only where a literal was read or something said. A stream has fewer than 2^64
    /// bytes, and the receiver takes the literals of its variables.
    pub fn feed<R: Receiver>(
        &mut self,
        piece: &[u8],
        receiver: &mut R,
    ) -> Result<Result<Fed, ParseFault>, AllocError>
        requires vars { R.vars receiver.old ≡ self.old.vars }
        requires count { self.old.taken + length piece.now < 2 ^ 64 }
        ensures told { IfOk result (λ fed. Gets R.gets R.stops receiver.old (said self.old piece.now) receiver.new (is_stopped fed)) }
        ensures kept { IfOk result (λ fed. is_stopped fed ≡ false → self.new ≡ after self.old piece.now) }
        ensures vars { IfOk result (λ _. R.vars receiver.new ≡ self.new.vars) }
        ensures answer { IfOk result (λ fed. is_stopped fed ≡ false → fed ≡ answer (fault_of (after self.old piece.now).mode)) }
        ensures count { self.new.taken ≤ self.old.taken + length piece.now }
        ensures lost { OnErr result (self.new.mode ≡ Lost) }
        ensures stays_lost { IfOk result (λ _. self.old.mode ≢ Lost) }
        ensures memory { OnErr result ((self.old.mode ≡ Lost) ⊎ TakesMemory self.old piece.now) }
    {
        if self.is_lost() {
            return Err(AllocError);
        }
        let stopped = take_piece(self, piece, receiver, &mut Uncounted);
        self.answer(stopped)
    }

    /// Does what `feed` does, and counts one step for each turn of the loop over the piece: at most one for each of its bytes.
    pub fn feed_counted<R: Receiver, L: Ledger>(
        &mut self,
        piece: &[u8],
        receiver: &mut R,
        steps: &mut Steps<L>,
    ) -> Result<Result<Fed, ParseFault>, AllocError>
        requires vars { R.vars receiver.old ≡ self.old.vars }
        requires count { self.old.taken + length piece.now < 2 ^ 64 }
        ensures told { IfOk result (λ fed. Gets R.gets R.stops receiver.old (said self.old piece.now) receiver.new (is_stopped fed)) }
        ensures kept { IfOk result (λ fed. is_stopped fed ≡ false → self.new ≡ after self.old piece.now) }
        ensures vars { IfOk result (λ _. R.vars receiver.new ≡ self.new.vars) }
        ensures answer { IfOk result (λ fed. is_stopped fed ≡ false → fed ≡ answer (fault_of (after self.old piece.now).mode)) }
        ensures count { self.new.taken ≤ self.old.taken + length piece.now }
        ensures lost { OnErr result (self.new.mode ≡ Lost) }
        ensures stays_lost { IfOk result (λ _. self.old.mode ≢ Lost) }
        ensures memory { OnErr result ((self.old.mode ≡ Lost) ⊎ TakesMemory self.old piece.now) }
        ensures steps { steps.new ≤ steps.old + length piece.now }
    {
        if self.is_lost() {
            return Err(AllocError);
        }
        let stopped = take_piece(self, piece, receiver, steps);
        self.answer(stopped)
    }

    /// Ends the stream, and hands to the receiver what counts by that: a 0, or UNKNOWN. An unfinished line is no fault.
    pub fn end<R: Receiver>(
        &mut self,
        receiver: &mut R,
    ) -> Result<Result<Fed, ParseFault>, AllocError>
        requires { R.vars receiver.old ≡ self.old.vars }
        ensures told { IfOk result (λ fed. Gets R.gets R.stops receiver.old (told_by self.old (at_end self.old.mode)) receiver.new (is_stopped fed)) }
        ensures kept { IfOk result (λ _. self.new ≡ self.old) }
        ensures vars { IfOk result (λ _. R.vars receiver.new ≡ self.new.vars) }
        ensures answer { IfOk result (λ fed. is_stopped fed ≡ false → fed ≡ answer (fault_of self.old.mode)) }
        ensures count { self.new.taken ≤ self.old.taken }
        ensures lost { OnErr result (self.new.mode ≡ Lost) }
        ensures stays_lost { IfOk result (λ _. self.old.mode ≢ Lost) }
        ensures memory { OnErr result ((self.old.mode ≡ Lost) ⊎ (at_end self.old.mode ≢ None)) }
    {
        if self.is_lost() {
            return Err(AllocError);
        }
        let stopped = take_end(self, receiver);
        self.answer(stopped)
    }
}
