// The judge of an inductive invariant.

ghost use Rattle.std.specs.Prelude.{◌≡◌, ◌≢◌, ◌≤◌, ◌^◌, ◌++◌, [], ℕ, List, IfOk, IsErr, OnErr, Ok, Err, Some, option_map};
ghost use Rattle.cert_judge.specs.declared.stream.BadCert.{BadCert};
ghost use Rattle.cnf_form.specs.Cnf.{LitOf};
ghost use Rattle.inv_judge.specs.Claim.{fate_told as outcome_told};
ghost use Rattle.inv_judge.specs.declared.outcome.InvOutcome.TheVariants.{Found};
ghost use Rattle.pair_form.specs.Pair.{IsInvariant};
ghost use Rattle.sby_terms.specs.declared.names.JobName.TheVariants.{Inv};
ghost use Rattle.judge.specs.Answers.{Finds, fate_told};
ghost use Rattle.judge.specs.Inductive.{Ends, Feeds, Took, TookAll};
ghost use Rattle.judge.specs.Invariant.{fate_in};
ghost use Rattle.judge.specs.Problem.{IsJob, pair_in};

use crate::finding::never;
use crate::judging::{Progress, State, state_told};
use crate::problem::Problem;
use cert_judge::BadCert;
use inv_judge::{InvJudge, InvOutcome};
use std::alloc::{AllocError, Global};
use std::marker::Model;

// A judge of one stream as an inductive invariant for a problem that asks for one.
#[derive(Drop)]
pub(crate) struct InvariantReader<'a> {
    problem: &'a Problem,
    most: u64,
    judge: InvJudge,
    state: State,
}

impl<'a> Model for InvariantReader<'a> {
    ghost use Rattle.judge.specs.Inductive.{IsReader, ReaderOf};

    ghost Value = { ReaderOf };

    ghost view = { λ a. record { asked = a.problem.now; most = a.most; judge = a.judge; state = a.state } };

    ghost invariant = { λ a. IsReader (record { asked = a.problem.now; most = a.most; judge = a.judge; state = a.state }) };
}

// The answer to a stream's outcome, if it has one.
fn tell(
    problem: &Problem,
    outcome: Option<InvOutcome>,
) -> Result<Result<Progress, BadCert>, AllocError>
    requires job { IsJob problem.now Inv }
    requires found { outcome ≡ Some Found → (I : List (List LitOf)) × IsInvariant (pair_in problem.now) I }
    ensures finds { IfOk result (λ r. Finds problem.now Inv r) }
    ensures fate { IfOk result (λ r. fate_told r ≡ option_map fate_in (outcome_told outcome)) }
{
    let _flat = problem.flat();
    let Some(outcome) = outcome else {
        return Ok(Ok(Progress::More));
    };
    match outcome {
        InvOutcome::Found => {
            let finding = never(problem)?;
            Ok(Ok(Progress::Done(finding)))
        }
        InvOutcome::Unknown => Ok(Ok(Progress::Unknown)),
        InvOutcome::Bad(bad) => Ok(Err(bad)),
    }
}

impl<'a> InvariantReader<'a> {
    // A judge that has taken nothing yet, and takes at most `most` bytes, from 1 to 2^32.
    pub(crate) fn new(alloc: Global, problem: &'a Problem, most: u64) -> Result<Self, AllocError>
        requires job { IsJob problem.now Inv }
        requires least { 1 ≤ most }
        requires limit { most ≤ 2 ^ 32 }
        ensures asked { IfOk result (λ j. j.asked ≡ problem.now) }
        ensures most { IfOk result (λ j. j.most ≡ most) }
        ensures took { IfOk result (λ j. Took j []) }
    {
        let pair = problem.pair(alloc)?;
        let judge = InvJudge::new(alloc, pair, most);
        Ok(InvariantReader {
            problem,
            most,
            judge,
            state: State::Reading,
        })
    }

    // Takes the next piece of the stream, and answers the fate of all bytes so far, or More where there is none yet.
    pub(crate) fn feed(&mut self, piece: &[u8]) -> Result<Result<Progress, BadCert>, AllocError>
        requires { self.old.state ≢ State.Over }
        ensures feeds { (bytes : List ℕ) → Took self.old bytes → IfOk result (λ r. Feeds self.old self.new (bytes ++ piece.now) r) }
        ensures refused { (b : BadCert) → self.old.state ≡ State.Refused b → (result ≡ Ok (Err b)) × (self.new ≡ self.old) }
        ensures wanting { self.old.state ≡ State.Wanting → IsErr result }
        ensures err { OnErr result (self.new.state ≡ State.Wanting) }
    {
        match self.state {
            State::Refused(bad) => return Ok(Err(bad)),
            State::Wanting => return Err(AllocError),
            State::Over => unreachable!(),
            State::Reading => {}
        }
        let Ok(outcome) = self.judge.feed(piece) else {
            self.state = State::Wanting;
            return Err(AllocError);
        };
        let told = tell(self.problem, outcome);
        self.state = state_told(&told);
        told
    }

    // The stream ends. Answers its fate; where Done or Unknown was answered, that again.
    pub(crate) fn end(&mut self) -> Result<Result<Progress, BadCert>, AllocError>
        ensures ends { (bytes : List ℕ) → Took self.old bytes → IfOk result (λ r. Ends self.old self.new bytes r) }
        ensures again { (bytes : List ℕ) → TookAll self.old bytes → IfOk result (λ r. Ends self.old self.new bytes r) }
        ensures refused { (b : BadCert) → self.old.state ≡ State.Refused b → (result ≡ Ok (Err b)) × (self.new ≡ self.old) }
        ensures wanting { self.old.state ≡ State.Wanting → IsErr result }
        ensures err { OnErr result (self.new.state ≡ State.Wanting) }
    {
        match self.state {
            State::Refused(bad) => return Ok(Err(bad)),
            State::Wanting => return Err(AllocError),
            State::Reading | State::Over => {}
        }
        let Ok(outcome) = self.judge.end() else {
            self.state = State::Wanting;
            return Err(AllocError);
        };
        let told = tell(self.problem, Some(outcome));
        self.state = state_told(&told);
        told
    }
}
