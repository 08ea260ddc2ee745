// The judge of one stream.

ghost use Rattle.std.specs.Prelude.{◌≡◌, ◌≤◌, ◌<◌, ◌+◌, ◌^◌, ◌++◌, true, false, [], ℕ, List, length, Option, Some, None, IfOk, OnErr, IsErr, Ok};
ghost use Rattle.cert_judge.specs.Judging.{Feeds, IsOver, IsSameJudge, JudgeOf, HasTaken, bits_of, formula_of, kind_of, outcome_of};
ghost use Rattle.cert_judge.specs.Lines.{Fits, TakesEnd, TakesPiece, lines_outcome, lines_taken};
ghost use Rattle.cert_judge.specs.declared.stream.Outcome.{Outcome};

use crate::lines::Lines;
use crate::stream::{CertKind, Outcome, StreamKind};
use clause_source::ClauseSource;
use std::alloc::{AllocError, Global};
use std::marker::Model;

/// A judge of one stream, of any kind, as a certificate for a source's formula. It keeps no earlier bytes: a clause goes to the checker as it ends.
#[derive(Drop)]
pub struct Judge<S: ClauseSource> {
    most: u64,
    lines: Lines<S>,
    // Memory ran out; every later call answers that.
    wanting: bool,
}

impl<S: ClauseSource> Model for Judge<S> {
    ghost use Rattle.std.specs.Prelude.{◌≡◌, ◌≤◌, ◌^◌, false, None};
    ghost use Rattle.cert_judge.specs.Judging.{JudgeOf};
    ghost use Rattle.cert_judge.specs.Lines.{Fits, lines_outcome, lines_taken};

    ghost Value = { JudgeOf S };

    ghost view = { λ a. record { lines = a.lines; most = a.most; wanting = a.wanting } };

    ghost invariant = { λ a. (a.most ≤ 2 ^ 32) × (a.wanting ≡ false → Fits a.lines) × (a.wanting ≡ false → lines_outcome a.lines ≡ None → lines_taken a.lines ≤ a.most) };
}

impl<S: ClauseSource> Judge<S> {
    /// A judge that has taken nothing yet, and takes at most `most` bytes, from 1 to 2^32.
    pub fn new(alloc: Global, source: S, kind: StreamKind, most: u64) -> Result<Self, AllocError>
        requires least { 1 ≤ most }
        requires limit { most ≤ 2 ^ 32 }
        ensures formula { IfOk result (λ j. formula_of j ≡ S.formula source) }
        ensures kind { IfOk result (λ j. kind_of j ≡ kind) }
        ensures most { IfOk result (λ j. j.most ≡ most) }
        ensures stands { IfOk result (λ j. HasTaken j []) }
        ensures open { IfOk result (λ j. outcome_of j ≡ None) }
    {
        Ok(Judge {
            most,
            lines: Lines::new(alloc, source, kind)?,
            wanting: false,
        })
    }

    /// Takes a piece of the stream, and answers the fate of all bytes so far, however they were cut, or nothing where there is none
    /// yet. What follows a complete certificate isn't read.
    ///
    /// An outcome is answered again by every later call, and out of memory too.
    pub fn feed(&mut self, piece: &[u8]) -> Result<Option<Outcome>, AllocError>
        ensures same { IfOk result (λ _. IsSameJudge self.old self.new) }
        ensures feeds { (bytes : List ℕ) → HasTaken self.old bytes → IfOk result (λ o. Feeds self.old self.new (bytes ++ piece.now) o) }
        ensures again { (o : Outcome) → self.old.wanting ≡ false → outcome_of self.old ≡ Some o → (result ≡ Ok (Some o)) × (self.new ≡ self.old) }
        ensures wanting { self.old.wanting ≡ true → IsErr result }
        ensures err { OnErr result (self.new.wanting ≡ true) }
    {
        if self.wanting {
            return Err(AllocError);
        }
        if let Some(outcome) = self.lines.outcome() {
            return Ok(Some(outcome));
        }
        let room = self.most - self.lines.taken();
        let Ok(()) = take_piece(&mut self.lines, piece, room) else {
            self.wanting = true;
            return Err(AllocError);
        };
        Ok(self.lines.outcome())
    }

    /// The stream ends. Answers its fate, and from then on always.
    pub fn end(&mut self) -> Result<Outcome, AllocError>
        ensures same { IfOk result (λ _. IsSameJudge self.old self.new) }
        ensures ends { (bytes : List ℕ) → HasTaken self.old bytes → IfOk result (λ o. IsOver self.new bytes o) }
        ensures again { (o : Outcome) → self.old.wanting ≡ false → outcome_of self.old ≡ Some o → (result ≡ Ok o) × (self.new ≡ self.old) }
        ensures wanting { self.old.wanting ≡ true → IsErr result }
        ensures err { OnErr result (self.new.wanting ≡ true) }
    {
        if self.wanting {
            return Err(AllocError);
        }
        if let Some(outcome) = self.lines.outcome() {
            return Ok(outcome);
        }
        let Ok(outcome) = take_end(&mut self.lines) else {
            self.wanting = true;
            return Err(AllocError);
        };
        Ok(outcome)
    }

    /// Where the outcome is Satisfied, the values: a bit for each variable, at its number; place 0 is no variable's.
    pub fn values(&self) -> &[bool]
        ensures { result.now ≡ bits_of self.now }
    {
        self.lines.values()
    }
}

// Takes a piece, of which there is room for this many bytes.
fn take_piece<S: ClauseSource>(
    lines: &mut Lines<S>,
    piece: &[u8],
    room: u64,
) -> Result<(), AllocError>
    requires fits { Fits lines.old }
    requires open { lines_outcome lines.old ≡ None }
    requires limit { lines_taken lines.old + room ≤ 2 ^ 32 }
    ensures takes { IfOk result (λ _. TakesPiece (lines_taken lines.old + room) room lines.old piece.now lines.new) }
    ensures fits { IfOk result (λ _. Fits lines.new) }
    ensures count { IfOk result (λ _. lines_taken lines.new ≤ lines_taken lines.old + room) }
{
    let most = lines.taken() + room;
    if piece.len() as u64 <= room {
        return lines.take(piece);
    }
    lines.take(&piece[..room as usize])?;
    let _ = lines.outcome_or(CertKind::TooLong, most);
    Ok(())
}

// Takes the stream's end, and answers the outcome.
fn take_end<S: ClauseSource>(lines: &mut Lines<S>) -> Result<Outcome, AllocError>
    requires fits { Fits lines.old }
    requires open { lines_outcome lines.old ≡ None }
    requires limit { lines_taken lines.old ≤ 2 ^ 32 }
    ensures takes { IfOk result (λ _. TakesEnd lines.old lines.new) }
    ensures outcome { IfOk result (λ o. lines_outcome lines.new ≡ Some o) }
    ensures fits { IfOk result (λ _. Fits lines.new) }
{
    let count = lines.taken();
    lines.end()?;
    Ok(lines.outcome_or(CertKind::EarlyEnd, count))
}
