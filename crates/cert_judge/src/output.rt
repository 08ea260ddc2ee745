// The judge of one output.

ghost use Rattle.std.specs.Prelude.{◌≡◌, ◌≤◌, ◌<◌, ◌+◌, ◌^◌, ◌++◌, true, false, [], ◌∷◌, ℕ, List, length, take, Option, Some, None, IfOk, OnErr, IsErr, Ok};
ghost use Rattle.cert_judge.specs.Judging.{IsSameJudge, bits_of, formula_of, outcome_of};
ghost use Rattle.cert_judge.specs.Outcomes.{fate_of, fate_told};
ghost use Rattle.cert_judge.specs.OutputFate.{own_fate};
ghost use Rattle.cert_judge.specs.OutputJudging.{Ends, Feeds, Gave, Goes, OutputOf, HasTaken};
ghost use Rattle.cert_judge.specs.Spots.{amid_given, given_at_end, given_by, values_at_end};
ghost use Rattle.cert_judge.specs.declared.spot.Spot.TheVariants.{Start, Held, Within, Amid};
ghost use Rattle.cert_judge.specs.declared.stream.Outcome.{Outcome};

use crate::judging::Judge;
use crate::spot::{
    AmidSpot, Spot, amid_feed, amid_head, ends_word, head_given, is_blank, is_claim, is_within,
    next_spot, next_values, values_at_end,
};
use crate::stream::{CertKind, Outcome, StreamKind};
use cert_stream::before_feed;
use clause_source::ClauseSource;
use std::alloc::{AllocError, Global};
use std::marker::Model;

/// A judge of the standard output of a solver that leaves a proof file. It keeps no earlier bytes, and passes over every line that is
/// neither one of values nor s UNKNOWN.
#[derive(Drop)]
pub struct OutputJudge<S: ClauseSource> {
    judge: Judge<S>,
    spot: Spot,
    // A line of values was read.
    values: bool,
}

impl<S: ClauseSource> Model for OutputJudge<S> {
    ghost use Rattle.cert_judge.specs.OutputJudging.{OutputOf};

    ghost Value = { OutputOf S };

    ghost view = { λ a. record { judge = a.judge; spot = a.spot; values = a.values } };

    ghost invariant = { λ a. Unit {0} };
}

// Hands bytes on as a stream's.
fn give<S: ClauseSource>(judge: &mut Judge<S>, bytes: &[u8]) -> Result<(), AllocError>
    ensures gave { IfOk result (λ _. Gave judge.old bytes.now judge.new) }
    ensures err { OnErr result (judge.new.wanting ≡ true) }
{
    judge.feed(bytes)?;
    Ok(())
}

// Hands on what a byte in a line's beginning gives.
fn give_start<S: ClauseSource>(judge: &mut Judge<S>, b: u8) -> Result<(), AllocError>
    ensures gave { IfOk result (λ _. Gave judge.old (given_by Start b) judge.new) }
    ensures err { OnErr result (judge.new.wanting ≡ true) }
{
    if ends_word(b) {
        give(judge, &[b])
    } else if is_claim(b) {
        give(judge, &[])
    } else {
        give(judge, b"c")
    }
}

// Amid values, hands on what a line feed gives.
fn give_amid_feed<S: ClauseSource>(judge: &mut Judge<S>, spot: AmidSpot) -> Result<(), AllocError>
    ensures gave { IfOk result (λ _. Gave judge.old (given_by (Amid spot) 10) judge.new) }
    ensures err { OnErr result (judge.new.wanting ≡ true) }
{
    match spot {
        AmidSpot::Held(head) => give(judge, &[amid_head(head), b'\n']),
        _ => give(judge, &[amid_feed(spot)]),
    }
}

// And what another byte gives.
fn give_amid<S: ClauseSource>(judge: &mut Judge<S>, spot: AmidSpot, b: u8) -> Result<(), AllocError>
    ensures gave { IfOk result (λ _. Gave judge.old (amid_given spot b) judge.new) }
    ensures err { OnErr result (judge.new.wanting ≡ true) }
{
    match spot {
        AmidSpot::Start if is_blank(b) => give(judge, &[b]),
        AmidSpot::Start if is_claim(b) => give(judge, &[]),
        AmidSpot::Start => give(judge, b"c"),
        AmidSpot::Held(head) if head == b's' && is_blank(b) => give(judge, b"  "),
        AmidSpot::Held(head) => give(judge, &[head_given(head, b), b]),
        AmidSpot::Within => give(judge, &[b]),
        AmidSpot::Spelled(_) | AmidSpot::Whole | AmidSpot::Passed => give(judge, b" "),
    }
}

// Hands on what a byte gives.
fn give_byte<S: ClauseSource>(judge: &mut Judge<S>, spot: Spot, b: u8) -> Result<(), AllocError>
    ensures gave { IfOk result (λ _. Gave judge.old (given_by spot b) judge.new) }
    ensures err { OnErr result (judge.new.wanting ≡ true) }
{
    match spot {
        Spot::Start => give_start(judge, b),
        Spot::Held(head) => give(judge, &[head_given(head, b), b]),
        Spot::Within => give(judge, &[b]),
        Spot::Amid(amid) if b == b'\n' => give_amid_feed(judge, amid),
        Spot::Amid(amid) => give_amid(judge, amid, b),
    }
}

// Hands on what the output's end gives.
fn give_end<S: ClauseSource>(judge: &mut Judge<S>, spot: Spot) -> Result<(), AllocError>
    ensures gave { IfOk result (λ _. Gave judge.old (given_at_end spot) judge.new) }
    ensures err { OnErr result (judge.new.wanting ≡ true) }
{
    match spot {
        Spot::Held(head) => give(judge, &[head]),
        Spot::Amid(AmidSpot::Held(head)) => give(judge, &[amid_head(head)]),
        Spot::Start | Spot::Within | Spot::Amid(_) => give(judge, &[]),
    }
}

fn own_outcome(values: bool, outcome: Outcome) -> Option<Outcome>
    ensures fate { fate_told result ≡ own_fate values (fate_of outcome) }
    ensures same { (o : Outcome) → result ≡ Some o → o ≡ outcome }
{
    match outcome {
        Outcome::Bad(bad) if bad.kind == CertKind::EarlyEnd && !values => None,
        _ => Some(outcome),
    }
}

impl<S: ClauseSource> OutputJudge<S> {
    /// A judge that has taken nothing yet, and takes at most `most` bytes, from 1 to 2^32.
    pub fn new(alloc: Global, source: S, most: u64) -> Result<Self, AllocError>
        requires least { 1 ≤ most }
        requires limit { most ≤ 2 ^ 32 }
        ensures formula { IfOk result (λ o. formula_of o.judge ≡ S.formula source) }
        ensures most { IfOk result (λ o. o.judge.most ≡ most) }
        ensures stands { IfOk result (λ o. HasTaken o []) }
        ensures open { IfOk result (λ o. outcome_of o.judge ≡ None) }
    {
        Ok(OutputJudge {
            judge: Judge::new(alloc, source, StreamKind::Drup, most)?,
            spot: Spot::Start,
            values: false,
        })
    }

    // Takes what a line has of these bytes after its first visible byte, and answers how many.
    fn pass(&mut self, bytes: &[u8]) -> Result<usize, AllocError>
        ensures within { IfOk result (λ count. count ≤ length bytes.now) }
        ensures goes { IfOk result (λ count. Goes self.old (take count bytes.now) self.new) }
        ensures err { OnErr result (self.new.judge.wanting ≡ true) }
    {
        if !is_within(self.spot) {
            return Ok(0);
        }
        let count = before_feed(bytes);
        give(&mut self.judge, &bytes[..count])?;
        Ok(count)
    }

    fn take(&mut self, b: u8) -> Result<(), AllocError>
        ensures goes { IfOk result (λ _. Goes self.old (b ∷ []) self.new) }
        ensures err { OnErr result (self.new.judge.wanting ≡ true) }
    {
        give_byte(&mut self.judge, self.spot, b)?;
        self.values = next_values(self.spot, self.values, b);
        self.spot = next_spot(self.spot, b);
        Ok(())
    }

    fn take_piece(&mut self, piece: &[u8]) -> Result<(), AllocError>
        ensures goes { IfOk result (λ _. Goes self.old piece.now self.new) }
        ensures err { OnErr result (self.new.judge.wanting ≡ true) }
    {
        let mut i = 0;
        while i < piece.len() {
            i += self.pass(&piece[i..])?;
            if i < piece.len() {
                self.take(piece[i])?;
                i += 1;
            }
        }
        Ok(())
    }

    /// Takes a piece of the output, and answers the fate of all bytes so far, however they were cut, or nothing where there is none
    /// yet. A line that is neither one of values nor s UNKNOWN is passed over, whatever it holds; s UNKNOWN amid values is at fault.
    ///
    /// An outcome is answered again by every later call, and out of memory too.
    pub fn feed(&mut self, piece: &[u8]) -> Result<Option<Outcome>, AllocError>
        ensures same { IfOk result (λ _. IsSameJudge self.old.judge self.new.judge) }
        ensures feeds { (bytes : List ℕ) → HasTaken self.old bytes → IfOk result (λ o. Feeds self.old self.new (bytes ++ piece.now) o) }
        ensures again { (o : Outcome) → self.old.judge.wanting ≡ false → outcome_of self.old.judge ≡ Some o → IfOk result (λ answer. (answer ≡ Some o) × (self.new.judge ≡ self.old.judge)) }
        ensures wanting { self.old.judge.wanting ≡ true → IsErr result }
        ensures err { OnErr result (self.new.judge.wanting ≡ true) }
    {
        self.take_piece(piece)?;
        self.judge.feed(&[])
    }

    /// The output ends. Answers its fate, and from then on always, or nothing where it has none of its own, and the proof file decides:
    /// it is no longer than `most` bytes, has no line of values, and doesn't say that the solver doesn't know.
    pub fn end(&mut self) -> Result<Option<Outcome>, AllocError>
        ensures same { IfOk result (λ _. IsSameJudge self.old.judge self.new.judge) }
        ensures ends { (bytes : List ℕ) → HasTaken self.old bytes → IfOk result (λ o. Ends self.old self.new bytes o) }
        ensures kept { IfOk result (λ _. (self.new.spot ≡ self.old.spot) × (self.new.values ≡ self.old.values)) }
        ensures again { (o : Outcome) → self.old.judge.wanting ≡ false → outcome_of self.old.judge ≡ Some o
            → IfOk result (λ answer. (fate_told answer ≡ own_fate (values_at_end self.old.spot self.old.values) (fate_of o)) × (self.new ≡ self.old)) }
        ensures wanting { self.old.judge.wanting ≡ true → IsErr result }
        ensures err { OnErr result (self.new.judge.wanting ≡ true) }
    {
        give_end(&mut self.judge, self.spot)?;
        let outcome = self.judge.end()?;
        Ok(own_outcome(values_at_end(self.spot, self.values), outcome))
    }

    /// Where the outcome is Satisfied, the values: a bit for each variable, at its number; place 0 is no variable's.
    pub fn values(&self) -> &[bool]
        ensures { result.now ≡ bits_of self.now.judge }
    {
        self.judge.values()
    }
}
