// The judge of one stream.

ghost use Rattle.std.specs.Prelude.{◌≡◌, ◌≤◌, ◌<◌, ◌+◌, ◌^◌, ◌++◌, true, false, [], ℕ, List, length, Option, Some, None, IfOk, OnErr, IsErr, Ok};
ghost use Rattle.inv_stream.specs.Machine.{taken};
ghost use Rattle.inv_judge.specs.Judging.{Feeds, Heard, IsOver, IsSameJudge, JudgeOf, HasTaken, TakesEnd, TakesPiece, outcome_of, pair_of};
ghost use Rattle.inv_judge.specs.declared.outcome.InvOutcome.{InvOutcome as OutcomeOf};

use crate::claim::Claim;
use crate::outcome::InvOutcome;
use cert_judge::CertKind;
use inv_stream::InvParser;
use pair_form::Pair;
use std::alloc::{AllocError, Global};
use std::marker::Model;

/// A judge of one stream as a certificate that an invariant holds of a pair. It keeps no earlier bytes: a clause goes to the checker as it ends.
#[derive(Drop)]
pub struct InvJudge {
    most: u64,
    // How many bytes were taken, as long as there is no outcome.
    count: u64,
    parser: InvParser,
    claim: Claim,
    // Memory ran out; every later call answers that.
    wanting: bool,
}

impl Model for InvJudge {
    ghost use Rattle.std.specs.Prelude.{◌≡◌, ◌≤◌, ◌^◌, false, None};
    ghost use Rattle.inv_stream.specs.Machine.{taken};
    ghost use Rattle.inv_judge.specs.Judging.{JudgeOf};

    ghost Value = { JudgeOf };

    ghost view = { λ a. record { parser = a.parser; claim = a.claim; count = a.count; most = a.most; wanting = a.wanting } };

    ghost invariant = { λ a. (a.most ≤ 2 ^ 32) × (a.wanting ≡ false → a.claim.outcome ≡ None → (a.claim.pair.formula.vars ≡ a.parser.parser.vars) × (taken a.parser ≤ a.count) × (a.count ≤ a.most)) };
}

impl InvJudge {
    /// A judge that has taken nothing yet, and takes at most `most` bytes, from 1 to 2^32.
    pub fn new(alloc: Global, pair: Pair, most: u64) -> Self
        requires least { 1 ≤ most }
        requires limit { most ≤ 2 ^ 32 }
        ensures pair { pair_of result ≡ pair }
        ensures most { result.most ≡ most }
        ensures stands { HasTaken result [] }
        ensures open { outcome_of result ≡ None }
        ensures live { result.wanting ≡ false }
    {
        let claim = Claim::new(alloc, pair);
        InvJudge {
            most,
            count: 0,
            parser: InvParser::new(alloc, claim.vars()),
            claim,
            wanting: false,
        }
    }

    /// Takes a piece of the stream, and answers the fate of all bytes so far, however they were cut, or nothing where there is none
    /// yet. What follows a complete certificate isn't read.
    ///
    /// An outcome is answered again by every later call, and out of memory too.
    pub fn feed(&mut self, piece: &[u8]) -> Result<Option<InvOutcome>, AllocError>
        ensures same { IfOk result (λ _. IsSameJudge self.old self.new) }
        ensures feeds { (bytes : List ℕ) → HasTaken self.old bytes → IfOk result (λ o. Feeds self.old self.new (bytes ++ piece.now) o) }
        ensures again { (o : OutcomeOf) → self.old.wanting ≡ false → outcome_of self.old ≡ Some o → (result ≡ Ok (Some o)) × (self.new ≡ self.old) }
        ensures wanting { self.old.wanting ≡ true → IsErr result }
        ensures err { OnErr result (self.new.wanting ≡ true) }
    {
        if self.wanting {
            return Err(AllocError);
        }
        if let Some(outcome) = self.claim.outcome() {
            return Ok(Some(outcome));
        }
        let room = self.most - self.count;
        let Ok(()) = take_piece(&mut self.parser, &mut self.claim, piece, room, self.most) else {
            self.wanting = true;
            return Err(AllocError);
        };
        self.count += (piece.len() as u64).min(room);
        Ok(self.claim.outcome())
    }

    /// The stream ends. Answers its fate, and from then on always.
    pub fn end(&mut self) -> Result<InvOutcome, AllocError>
        ensures same { IfOk result (λ _. IsSameJudge self.old self.new) }
        ensures ends { (bytes : List ℕ) → HasTaken self.old bytes → IfOk result (λ o. IsOver self.new bytes o) }
        ensures again { (o : OutcomeOf) → self.old.wanting ≡ false → outcome_of self.old ≡ Some o → (result ≡ Ok o) × (self.new ≡ self.old) }
        ensures wanting { self.old.wanting ≡ true → IsErr result }
        ensures err { OnErr result (self.new.wanting ≡ true) }
    {
        if self.wanting {
            return Err(AllocError);
        }
        if let Some(outcome) = self.claim.outcome() {
            return Ok(outcome);
        }
        let Ok(outcome) = take_end(&mut self.parser, &mut self.claim, self.count) else {
            self.wanting = true;
            return Err(AllocError);
        };
        Ok(outcome)
    }
}

// Takes bytes.
fn read(parser: &mut InvParser, claim: &mut Claim, bytes: &[u8]) -> Result<(), AllocError>
    requires vars { claim.old.pair.formula.vars ≡ parser.old.parser.vars }
    requires open { claim.old.outcome ≡ None }
    requires count { taken parser.old + length bytes.now < 2 ^ 64 }
    ensures heard { IfOk result (λ _. Heard parser.old claim.old bytes.now parser.new claim.new) }
    ensures vars { IfOk result (λ _. claim.new.pair.formula.vars ≡ parser.new.parser.vars) }
{
    let fed = parser.feed(bytes, claim)?;
    claim.conclude(fed);
    Ok(())
}

// Takes a piece, of which there is room for this many bytes.
fn take_piece(
    parser: &mut InvParser,
    claim: &mut Claim,
    piece: &[u8],
    room: u64,
    most: u64,
) -> Result<(), AllocError>
    requires vars { claim.old.pair.formula.vars ≡ parser.old.parser.vars }
    requires open { claim.old.outcome ≡ None }
    requires limit { taken parser.old + room ≤ 2 ^ 32 }
    ensures takes { IfOk result (λ _. TakesPiece most room parser.old claim.old piece.now parser.new claim.new) }
    ensures vars { IfOk result (λ _. claim.new.pair.formula.vars ≡ parser.new.parser.vars) }
{
    if piece.len() as u64 <= room {
        return read(parser, claim, piece);
    }
    read(parser, claim, &piece[..room as usize])?;
    claim.outcome_or(CertKind::TooLong, most);
    Ok(())
}

// Takes the stream's end, which is byte number `count`, and answers the outcome.
fn take_end(parser: &mut InvParser, claim: &mut Claim, count: u64) -> Result<InvOutcome, AllocError>
    requires vars { claim.old.pair.formula.vars ≡ parser.old.parser.vars }
    requires open { claim.old.outcome ≡ None }
    ensures takes { IfOk result (λ _. TakesEnd count parser.old claim.old claim.new) }
    ensures outcome { IfOk result (λ o. claim.new.outcome ≡ Some o) }
    ensures vars { IfOk result (λ _. claim.new.pair.formula.vars ≡ parser.new.parser.vars) }
{
    let fed = parser.end(claim)?;
    claim.conclude(fed);
    Ok(claim.outcome_or(CertKind::EarlyEnd, count))
}
