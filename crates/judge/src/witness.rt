// The judge of a witness.

ghost use Rattle.std.specs.Prelude.{◌≡◌, ◌≢◌, ◌≤◌, ◌^◌, ◌++◌, [], ◌<◌, ℕ, List, IfOk, IsErr, OnErr, Ok, Err, Some};
ghost use Rattle.net_jobs.specs.Jobs.{IsOfSpan};
ghost use Rattle.sby_terms.specs.Span.{IsSpan};
ghost use Rattle.cert_judge.specs.declared.stream.BadCert.{BadCert};
ghost use Rattle.sby_bits.specs.Rows.{Row};
ghost use Rattle.cert_judge.specs.declared.stream.Kind.TheVariants as Kind;
ghost use Rattle.judge.specs.Answers.{Finds, fate_told};
ghost use Rattle.judge.specs.Fates.{Serves};
ghost use Rattle.judge.specs.Problem.{IsJob};
ghost use Rattle.judge.specs.Reading.{Ends, Feeds, Took, TookAll};
ghost use Rattle.judge.specs.Telling.{IsToldRun, KeepsFound, ShowsSought, told_again};
ghost use Rattle.judge.specs.Witness.{sought_of};
ghost use Rattle.witness_judge.specs.Judging.{fate_told as outcome_told};
ghost use Rattle.witness_judge.specs.declared.outcome.Outcome.TheVariants.{Played};

use crate::finding::{Finding, sat_shown};
use crate::judging::{Progress, State, state_told};
use crate::problem::Problem;
use btor_emit::goal::Goal;
use cert_judge::BadCert;
use sby_terms::{JobName, Settled, Span};
use std::alloc::{AllocError, Global};
use std::marker::Model;
use witness_judge::{Outcome, Sought, WitnessJudge};

// What a witness shows for a job.
pub(crate) fn sought_of(span: Span, job: JobName) -> Option<Sought>
    requires span { IsSpan span }
    requires job { IsOfSpan job span }
    ensures { result ≡ sought_of span job }
{
    match job {
        JobName::Base(slice) => Some(Sought {
            goal: Goal::Asserts,
            first: span.first(slice),
            last: span.last(slice),
        }),
        JobName::Step | JobName::Inv => None,
        JobName::Cover(cover) => Some(Sought {
            goal: Goal::Cover(cover),
            first: 0,
            last: span.depth,
        }),
    }
}

// A judge of one stream as a witness for a job of a problem.
#[derive(Drop)]
pub(crate) struct WitnessReader<'a> {
    alloc: Global,
    problem: &'a Problem,
    job: JobName,
    most: u64,
    judge: WitnessJudge<'a>,
    // The finding that was answered, if one was.
    found: Option<Finding>,
    state: State,
}

impl<'a> Model for WitnessReader<'a> {
    ghost use Rattle.judge.specs.Reading.{IsReader, ReaderOf};

    ghost Value = { ReaderOf };

    ghost view = { λ a. record { asked = a.problem.now; job = a.job; most = a.most; judge = a.judge; found = a.found; state = a.state } };

    ghost invariant = { λ a. IsReader (record { asked = a.problem.now; job = a.job; most = a.most; judge = a.judge; found = a.found; state = a.state }) };
}

// The answer to a stream's outcome, if it has one. A finding is kept, too.
fn tell(
    alloc: Global,
    problem: &Problem,
    job: JobName,
    found: &mut Option<Finding>,
    outcome: Option<Outcome>,
) -> Result<Result<Progress, BadCert>, AllocError>
    requires { (rows : List Row) → outcome ≡ Some (Played rows) → ShowsSought problem.now job rows }
    ensures finds { IfOk result (λ r. Finds problem.now job r) }
    ensures fate { IfOk result (λ r. fate_told r ≡ outcome_told outcome) }
    ensures run { IfOk result (λ r. IsToldRun problem.now outcome r) }
    ensures found { IfOk result (λ r. KeepsFound found.old found.new r) }
{
    let _flat = problem.flat();
    let Some(outcome) = outcome else {
        return Ok(Ok(Progress::More));
    };
    match outcome {
        Outcome::Played(rows) => {
            let run = problem.run_of(alloc, rows)?;
            let finding = sat_shown(problem, job, Some(run))?;
            *found = Some(finding.copy()?);
            Ok(Ok(Progress::Done(finding)))
        }
        Outcome::Unknown => Ok(Ok(Progress::Unknown)),
        Outcome::Bad(bad) => Ok(Err(bad)),
    }
}

// The answer once more, by the finding that was kept.
fn tell_again(found: &Option<Finding>) -> Result<Progress, AllocError>
    ensures { IfOk result (λ r. r ≡ told_again found.now) }
{
    match found {
        Some(finding) => {
            let copy = finding.copy()?;
            Ok(Progress::Done(copy))
        }
        None => Ok(Progress::Unknown),
    }
}

impl<'a> WitnessReader<'a> {
    // A judge that has taken nothing yet, and takes at most `most` bytes.
    pub(crate) fn new(
        alloc: Global,
        problem: &'a Problem,
        job: JobName,
        most: u64,
    ) -> Result<Self, AllocError>
        requires job { IsJob problem.now job }
        requires run { Serves Kind.Witness job }
        ensures asked { IfOk result (λ j. j.asked ≡ problem.now) }
        ensures job { IfOk result (λ j. j.job ≡ job) }
        ensures most { IfOk result (λ j. j.most ≡ most) }
        ensures took { IfOk result (λ j. Took j []) }
    {
        let _flat = problem.flat();
        let Some(sought) = sought_of(problem.span(), job) else {
            unreachable!()
        };
        let shape = problem.shape(alloc)?;
        let judge = WitnessJudge::new(alloc, problem.model(), shape, sought, most)?;
        Ok(WitnessReader {
            alloc,
            problem,
            job,
            most,
            judge,
            found: None,
            state: State::Reading,
        })
    }

    // Takes the next piece of the stream, and answers the fate of all bytes so far, or More where there is none yet.
    pub(crate) fn feed(&mut self, piece: &[u8]) -> Result<Result<Progress, BadCert>, AllocError>
        requires { self.old.state ≢ State.Over }
        ensures feeds { (bytes : List ℕ) → Took self.old bytes → IfOk result (λ r. Feeds self.old self.new (bytes ++ piece.now) r) }
        ensures refused { (b : BadCert) → self.old.state ≡ State.Refused b → (result ≡ Ok (Err b)) × (self.new ≡ self.old) }
        ensures wanting { self.old.state ≡ State.Wanting → IsErr result }
        ensures err { OnErr result (self.new.state ≡ State.Wanting) }
    {
        match self.state {
            State::Refused(bad) => return Ok(Err(bad)),
            State::Wanting => return Err(AllocError),
            State::Over => unreachable!(),
            State::Reading => {}
        }
        let _flat = self.problem.flat();
        let Ok(outcome) = self.judge.feed(piece) else {
            self.state = State::Wanting;
            return Err(AllocError);
        };
        let told = tell(self.alloc, self.problem, self.job, &mut self.found, outcome);
        self.state = state_told(&told);
        told
    }

    // The stream ends. Answers its fate; where Done or Unknown was answered, that again.
    pub(crate) fn end(&mut self) -> Result<Result<Progress, BadCert>, AllocError>
        ensures ends { (bytes : List ℕ) → Took self.old bytes → IfOk result (λ r. Ends self.old self.new bytes r) }
        ensures again { (bytes : List ℕ) → TookAll self.old bytes → IfOk result (λ r. Ends self.old self.new bytes r) }
        ensures refused { (b : BadCert) → self.old.state ≡ State.Refused b → (result ≡ Ok (Err b)) × (self.new ≡ self.old) }
        ensures wanting { self.old.state ≡ State.Wanting → IsErr result }
        ensures err { OnErr result (self.new.state ≡ State.Wanting) }
    {
        match self.state {
            State::Refused(bad) => return Ok(Err(bad)),
            State::Wanting => return Err(AllocError),
            State::Over => return self.end_again(),
            State::Reading => {}
        }
        let _flat = self.problem.flat();
        let Ok(outcome) = self.judge.end() else {
            self.state = State::Wanting;
            return Err(AllocError);
        };
        let told = tell(
            self.alloc,
            self.problem,
            self.job,
            &mut self.found,
            Some(outcome),
        );
        self.state = state_told(&told);
        told
    }

    // Answers again what was answered.
    fn end_again(&mut self) -> Result<Result<Progress, BadCert>, AllocError>
        requires { self.old.state ≡ State.Over }
        ensures again { (bytes : List ℕ) → TookAll self.old bytes → IfOk result (λ r. Ends self.old self.new bytes r) }
        ensures err { OnErr result (self.new.state ≡ State.Wanting) }
    {
        let Ok(told) = tell_again(&self.found) else {
            self.state = State::Wanting;
            return Err(AllocError);
        };
        Ok(Ok(told))
    }
}
