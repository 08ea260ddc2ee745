// The judge of a certificate.

ghost use Rattle.std.specs.Prelude.{◌≡◌, ◌≢◌, ◌≤◌, ◌^◌, ◌++◌, List, ℕ, [], IfOk, IsErr, OnErr, Ok, Err};
ghost use Rattle.job_terms.specs.Decoding.{values_of};
ghost use Rattle.job_terms.specs.Encoding.{EncodedOf};
ghost use Rattle.judge.specs.Answers.{Finds, FindsPlayed, IsTrueOutcome, fate_told};
ghost use Rattle.judge.specs.Certificate.{Ends, Feeds, Took, TookAll};
ghost use Rattle.judge.specs.Problem.{IsEncodedOf, IsTold};
ghost use Rattle.cert_judge.specs.Outcomes.{fate_told as outcome_told};
ghost use Rattle.cert_judge.specs.declared.stream.BadCert.{BadCert};

use crate::finding::{sat, unsat};
use crate::judging::{Progress, State, state_told};
use crate::problem::Problem;
use cert_judge::{BadCert, Judge, Outcome, StreamKind};
use net_text::EncodedClauses;
use sby_terms::JobName;
use std::alloc::{AllocError, Global};
use std::marker::Model;

// A judge of one stream as a certificate for a job of a problem. It keeps no bytes of the stream: each is looked at once.
#[derive(Drop)]
pub(crate) struct CertificateJudge<'a> {
    alloc: Global,
    problem: &'a Problem,
    job: JobName,
    kind: StreamKind,
    most: u64,
    stream: Judge<EncodedClauses>,
    state: State,
}

impl<'a> Model for CertificateJudge<'a> {
    ghost use Rattle.judge.specs.Certificate.{JudgeOf};

    ghost Value = { JudgeOf };

    ghost use Rattle.judge.specs.Certificate.{IsJudge};

    ghost view = { λ a. record { asked = a.problem.now; job = a.job; kind = a.kind; most = a.most; stream = a.stream; state = a.state } };

    ghost invariant = { λ a. IsJudge (record { asked = a.problem.now; job = a.job; kind = a.kind; most = a.most; stream = a.stream; state = a.state }) };
}

impl<'a> CertificateJudge<'a> {
    // A judge that has taken nothing yet, and takes at most `most` bytes, from 1 to 2^32.
    pub(crate) fn new(
        alloc: Global,
        problem: &'a Problem,
        job: JobName,
        kind: StreamKind,
        most: u64,
    ) -> Result<Self, AllocError>
        requires job { IsTold problem.now job }
        requires least { 1 ≤ most }
        requires limit { most ≤ 2 ^ 32 }
        ensures asked { IfOk result (λ j. j.asked ≡ problem.now) }
        ensures job { IfOk result (λ j. j.job ≡ job) }
        ensures kind { IfOk result (λ j. j.kind ≡ kind) }
        ensures most { IfOk result (λ j. j.most ≡ most) }
        ensures took { IfOk result (λ j. Took j []) }
    {
        let clauses = problem.clauses(alloc, job)?;
        let stream = Judge::new(alloc, clauses, kind, most)?;
        Ok(CertificateJudge {
            alloc,
            problem,
            job,
            kind,
            most,
            stream,
            state: State::Reading,
        })
    }

    // Takes a piece of the stream, and answers the fate of all bytes so far, or More where there is none yet. What follows a
    // complete certificate isn't read.
    //
    // After a BadCert every call answers it again, and after an answer out of memory every call answers that. After Done or Unknown no
    // more bytes may come.
    pub(crate) fn feed(&mut self, piece: &[u8]) -> Result<Result<Progress, BadCert>, AllocError>
        requires { self.old.state ≢ State.Over }
        ensures feeds { (bytes : List ℕ) → Took self.old bytes → IfOk result (λ r. Feeds self.old self.new (bytes ++ piece.now) r) }
        ensures refused { (b : BadCert) → self.old.state ≡ State.Refused b → (result ≡ Ok (Err b)) × (self.new ≡ self.old) }
        ensures wanting { self.old.state ≡ State.Wanting → IsErr result }
        ensures err { OnErr result (self.new.state ≡ State.Wanting) }
    {
        match self.state {
            State::Refused(bad) => return Ok(Err(bad)),
            State::Wanting => return Err(AllocError),
            State::Over => unreachable!(),
            State::Reading => {}
        }
        let Ok(outcome) = self.stream.feed(piece) else {
            self.state = State::Wanting;
            return Err(AllocError);
        };
        let values = self.stream.values();
        let told = answer(self.alloc, self.problem, self.job, values, outcome);
        self.state = state_told(&told);
        told
    }

    // The stream ends. Answers its fate, and never More; where Done or Unknown was answered, that again.
    pub(crate) fn end(&mut self) -> Result<Result<Progress, BadCert>, AllocError>
        ensures ends { (bytes : List ℕ) → Took self.old bytes → IfOk result (λ r. Ends self.old self.new bytes r) }
        ensures again { (bytes : List ℕ) → TookAll self.old bytes → IfOk result (λ r. Ends self.old self.new bytes r) }
        ensures refused { (b : BadCert) → self.old.state ≡ State.Refused b → (result ≡ Ok (Err b)) × (self.new ≡ self.old) }
        ensures wanting { self.old.state ≡ State.Wanting → IsErr result }
        ensures err { OnErr result (self.new.state ≡ State.Wanting) }
    {
        match self.state {
            State::Refused(bad) => return Ok(Err(bad)),
            State::Wanting => return Err(AllocError),
            State::Reading | State::Over => {}
        }
        let Ok(outcome) = self.stream.end() else {
            self.state = State::Wanting;
            return Err(AllocError);
        };
        let values = self.stream.values();
        let told = answer(self.alloc, self.problem, self.job, values, Some(outcome));
        self.state = state_told(&told);
        told
    }
}

// The answer to an outcome of a stream for a job, with these values where it is Satisfied.
pub(crate) fn answer(
    alloc: Global,
    problem: &Problem,
    job: JobName,
    values: &[bool],
    outcome: Option<Outcome>,
) -> Result<Result<Progress, BadCert>, AllocError>
    requires { (e : EncodedOf) × IsEncodedOf problem.now job e × IsTrueOutcome e.formula values.now outcome }
    ensures finds { IfOk result (λ r. Finds problem.now job r) }
    ensures run { IfOk result (λ r. FindsPlayed problem.now job (values_of values.now) r) }
    ensures fate { IfOk result (λ r. fate_told r ≡ outcome_told outcome) }
{
    let Some(outcome) = outcome else {
        return Ok(Ok(Progress::More));
    };
    match outcome {
        Outcome::Refuted => {
            let finding = unsat(problem, job)?;
            Ok(Ok(Progress::Done(finding)))
        }
        Outcome::Satisfied => {
            let finding = sat(alloc, problem, job, values)?;
            Ok(Ok(Progress::Done(finding)))
        }
        Outcome::Unknown => Ok(Ok(Progress::Unknown)),
        Outcome::Bad(bad) => Ok(Err(bad)),
    }
}
