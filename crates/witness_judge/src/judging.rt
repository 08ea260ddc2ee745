// The judge of one stream as a witness.

ghost use Rattle.std.specs.Prelude.{◌≡◌, ◌↔◌, ◌++◌, [], List, ℕ, IfOk, IsTrue, true};
ghost use Rattle.btor_emit.specs.States.{AreStretches};
ghost use Rattle.btor_witness.specs.declared.spot.Seen.TheVariants.{More};
ghost use Rattle.place_rows.specs.Rows.{AreRowsOf};
ghost use Rattle.witness_judge.specs.Judging.{Ends, Feeds, IsSameJudge, Took, is_reading};

use crate::asked::Asked;
use crate::outcome::{Outcome, bad};
use crate::sought::Sought;
use btor_emit::shape::Shape;
use btor_witness::{Seen, Witnesses};
use cert_judge::CertKind;
use model_core::model::WordModel;
use std::alloc::{AllocError, Global};
use std::marker::Model;

/// A judge of one stream as a witness that a goal is reached in a run of a model. It keeps no bytes of the stream, but what its frames choose
/// for the run, of no more frames than there may be.
#[derive(Drop)]
pub struct WitnessJudge<'m> {
    asked: Asked<'m>,
    most: u64,
    taken: u64,
    // There is none where nothing more may come.
    reader: Option<Witnesses>,
}

impl<'m> Model for WitnessJudge<'m> {
    ghost use Rattle.btor_witness.specs.declared.spot.Seen.TheVariants.{More};
    ghost use Rattle.witness_judge.specs.Judging.{IsJudge, JudgeOf};

    ghost Value = { JudgeOf };

    ghost view = { λ a. record { asked = a.asked; most = a.most; taken = a.taken; reader = a.reader } };

    ghost invariant = { λ a. IsJudge (record { asked = a.asked; most = a.most; taken = a.taken; reader = a.reader }) };
}

fn is_more(seen: Seen) -> bool
    ensures { IsTrue result ↔ (seen ≡ More) }
{
    matches!(seen, Seen::More)
}

impl<'m> WitnessJudge<'m> {
    /// A judge that has taken nothing yet, and takes at most `most` bytes. The shape is that of the model's lines, of whichever goal.
    pub fn new(
        alloc: Global,
        model: &'m WordModel,
        shape: Shape,
        sought: Sought,
        most: u64,
    ) -> Result<Self, AllocError>
        requires states { AreStretches model.now shape.states.items }
        requires inputs { AreRowsOf model.now.inputs shape.inputs }
        ensures asked { IfOk result (λ j. j.asked ≡ record { model = model.now; states = shape.states.items; inputs = shape.inputs; sought = sought }) }
        ensures most { IfOk result (λ j. j.most ≡ most) }
        ensures took { IfOk result (λ j. Took j []) }
    {
        let asked = Asked::new(alloc, model, shape, sought);
        let reader = asked.reader()?;
        Ok(WitnessJudge {
            asked,
            most,
            taken: 0,
            reader: Some(reader),
        })
    }

    /// Takes the next piece of the stream, and answers what the bytes so far are judged as, or None where that is undecided. After an answer, and
    /// after one out of memory, nothing more may come.
    pub fn feed(&mut self, piece: &[u8]) -> Result<Option<Outcome>, AllocError>
        requires { is_reading self.old ≡ true }
        ensures same { IsSameJudge self.old self.new }
        ensures feeds { (bytes : List ℕ) → Took self.old bytes → IfOk result (Feeds self.old self.new (bytes ++ piece.now)) }
    {
        let Some(mut reader) = self.reader.take() else {
            return Ok(None);
        };
        let room = self.most - self.taken;
        let count = room.min(piece.len() as u64) as usize;
        let seen = reader.feed(&piece[..count])?;
        self.taken += count as u64;
        if !is_more(seen) {
            let outcome = self.asked.settle(reader, seen)?;
            return Ok(Some(outcome));
        }
        if count < piece.len() {
            return Ok(Some(bad(CertKind::TooLong, self.most)));
        }
        self.reader = Some(reader);
        Ok(None)
    }

    /// The stream ends. Answers what it is judged as. Nothing more may come.
    pub fn end(&mut self) -> Result<Outcome, AllocError>
        requires { is_reading self.old ≡ true }
        ensures same { IsSameJudge self.old self.new }
        ensures ends { (bytes : List ℕ) → Took self.old bytes → IfOk result (Ends self.old bytes) }
    {
        let Some(reader) = self.reader.take() else {
            return Ok(Outcome::Unknown);
        };
        let seen = reader.end();
        self.asked.settle(reader, seen)
    }
}
