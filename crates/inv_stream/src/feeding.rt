// Pieces of a stream.

ghost use Rattle.std.specs.Prelude.{◌≡◌, ◌≢◌, ◌⊎◌, ℕ, ◌+◌, ◌<◌, ◌≤◌, ◌^◌, Bool, true, false, List, [], ◌∷◌, ◌++◌, length, Some, None, IfOk, OnErr, IsErr, Ok};
ghost use Rattle.cert_stream.specs.Telling.{Gets};
ghost use Rattle.inv_stream.specs.Machine.{InvOf, fault, taken};
ghost use Rattle.inv_stream.specs.Telling.{Hears, after, answer, at_end_says, is_stopped, said};
ghost use Rattle.inv_stream.specs.declared.mode.Line.TheVariants.{Lost};

use crate::mode::InvFault;
use crate::parser::InvParser;
use cert_stream::{Fed, Receiver};
use std::alloc::AllocError;

/// Gets what a stream says: what lines of DRUP text do, and the words of parts.
pub trait InvReceiver: Receiver {
    /// What becomes of it when it gets a part's word.
    ghost parts: { Self → ℕ → Self → Type 0 };

    /// The next part begins; the place is that of its word's first byte in the stream, counted from 0.
    fn part(&mut self, place: u64) -> Result<bool, AllocError>
        ensures gets { IfOk result (λ _. parts self.old place self.new) }
        ensures stops { IfOk result (λ stop. stop ≡ Self.stops self.new) }
        ensures vars { IfOk result (λ _. Self.vars self.new ≡ Self.vars self.old) };
}

// Takes a piece, and answers whether the receiver stopped.
fn take_piece<R: InvReceiver>(
    parser: &mut InvParser,
    piece: &[u8],
    receiver: &mut R,
) -> Result<bool, AllocError>
    requires vars { R.vars receiver.old ≡ parser.old.parser.vars }
    requires count { taken parser.old + length piece.now < 2 ^ 64 }
    ensures told { IfOk result (λ stopped. Gets (Hears R.gets R.parts) R.stops receiver.old (said parser.old piece.now) receiver.new stopped) }
    ensures kept { IfOk result (λ stopped. stopped ≡ false → parser.new ≡ after parser.old piece.now) }
    ensures vars { IfOk result (λ _. R.vars receiver.new ≡ parser.new.parser.vars) }
{
    let mut i = 0;
    while i < piece.len() {
        let count = parser.chunk(&piece[i..]);
        if parser.take(&piece[i..i + count], receiver)? {
            return Ok(true);
        }
        i += count;
    }
    Ok(false)
}

impl InvParser {
    // What a call answers.
    fn answer(
        &mut self,
        stopped: Result<bool, AllocError>,
    ) -> Result<Result<Fed, InvFault>, AllocError>
        ensures stopped { IfOk result (λ fed. stopped ≡ Ok (is_stopped fed)) }
        ensures kept { IfOk result (λ _. self.new ≡ self.old) }
        ensures answer { IfOk result (λ fed. is_stopped fed ≡ false → fed ≡ answer (fault self.old)) }
        ensures lost { OnErr result (self.new.line ≡ Lost) }
    {
        let Ok(stopped) = stopped else {
            self.lose();
            return Err(AllocError);
        };
        if stopped {
            return Ok(Ok(Fed::Stopped));
        }
        match self.fault() {
            Some(fault) => Ok(Err(fault)),
            None => Ok(Ok(Fed::More)),
        }
    }

    /// Takes the next piece of the stream, and hands to the receiver what the bytes say, until it stops. The answer is then
    /// Stopped, and more bytes have no meaning; else it is the fault, if no stream begins with the bytes so far, or More. Out
    /// of memory is answered from then on. A stream has fewer than 2^64 bytes, and the receiver takes the literals of its
    /// variables.
    pub fn feed<R: InvReceiver>(
        &mut self,
        piece: &[u8],
        receiver: &mut R,
    ) -> Result<Result<Fed, InvFault>, AllocError>
        requires vars { R.vars receiver.old ≡ self.old.parser.vars }
        requires count { taken self.old + length piece.now < 2 ^ 64 }
        ensures told { IfOk result (λ fed. Gets (Hears R.gets R.parts) R.stops receiver.old (said self.old piece.now) receiver.new (is_stopped fed)) }
        ensures kept { IfOk result (λ fed. is_stopped fed ≡ false → self.new ≡ after self.old piece.now) }
        ensures vars { IfOk result (λ _. R.vars receiver.new ≡ self.new.parser.vars) }
        ensures answer { IfOk result (λ fed. is_stopped fed ≡ false → fed ≡ answer (fault (after self.old piece.now))) }
        ensures lost { OnErr result (self.new.line ≡ Lost) }
        ensures stays_lost { IfOk result (λ _. self.old.line ≢ Lost) }
    {
        if self.is_lost() {
            return Err(AllocError);
        }
        let stopped = take_piece(self, piece, receiver);
        self.answer(stopped)
    }

    /// Ends the stream, and hands to the receiver what counts by that: a 0, or UNKNOWN. An unfinished line is no fault.
    pub fn end<R: InvReceiver>(
        &mut self,
        receiver: &mut R,
    ) -> Result<Result<Fed, InvFault>, AllocError>
        requires vars { R.vars receiver.old ≡ self.old.parser.vars }
        ensures told { IfOk result (λ fed. Gets (Hears R.gets R.parts) R.stops receiver.old (at_end_says self.old) receiver.new (is_stopped fed)) }
        ensures kept { IfOk result (λ _. self.new ≡ self.old) }
        ensures vars { IfOk result (λ _. R.vars receiver.new ≡ self.new.parser.vars) }
        ensures answer { IfOk result (λ fed. is_stopped fed ≡ false → fed ≡ answer (fault self.old)) }
        ensures lost { OnErr result (self.new.line ≡ Lost) }
        ensures stays_lost { IfOk result (λ _. self.old.line ≢ Lost) }
    {
        if self.is_lost() {
            return Err(AllocError);
        }
        let stopped = self.take_end(receiver);
        self.answer(stopped)
    }
}
