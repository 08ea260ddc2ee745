// A finding: what was found of a job.

ghost use Rattle.std.specs.Prelude.{◌≡◌, ◌↔◌, ◌+◌, length, List, Option, IfOk, IsTrue, None, Some, option_map};
ghost use Rattle.cnf_form.specs.Cnf.{FormulaOf, IsUnsatisfiable, Satisfies};
ghost use Rattle.design_core.specs.Shape.{DesignOf};
ghost use Rattle.design_meaning.specs.Claims.{NeverBreak};
ghost use Rattle.design_meaning.specs.Runs.{CycleOf};
ghost use Rattle.design_reader.specs.Grammar.{Reads};
ghost use Rattle.job_terms.specs.Decoding.{values_of};
ghost use Rattle.job_terms.specs.Encoding.{EncodedOf};
ghost use Rattle.judge.specs.Finding.{Claim, IsTrueFinding};
ghost use Rattle.judge.specs.Jobs.{span_of};
ghost use Rattle.judge.specs.Played.{ShowsPlayed};
ghost use Rattle.judge.specs.Problem.{IsEncodedOf, IsFormulaOf, IsJob};

use crate::problem::Problem;
use crate::run::PlayedRun;
use crate::text::Text;
use sby_terms::{Answer, JobName, Mode, Settled, Span};
use std::alloc::{AllocError, Global};
use std::marker::Model;

/// The answer to a job of a problem, with the run that shows it where it is Sat on Base or Cover.
///
/// It is true wherever it is: no other crate can make one, and `answer` tells what is true of the design. Text and run are shared with
/// the problem and with its copies.
#[derive(Drop)]
pub struct Finding {
    text: Text,
    mode: Mode,
    span: Span,
    job: JobName,
    answer: Answer,
    run: Option<PlayedRun>,
}

impl Model for Finding {
    ghost use Rattle.judge.specs.Finding.{FindingOf, IsTrueFinding};

    ghost Value = { FindingOf };

    ghost view = { λ a. record { problem = record { text = a.text; mode = a.mode; span = a.span }; job = a.job; answer = a.answer; run = a.run } };

    ghost invariant = { λ a. IsTrueFinding (record { problem = record { text = a.text; mode = a.mode; span = a.span }; job = a.job; answer = a.answer; run = a.run }) };
}

impl Finding {
    /// The answer. Whoever asks learns what is true of each design that the problem's text reads, and that it reads one.
    pub fn answer(&self) -> Answer
        ensures answer { result ≡ self.now.answer }
        ensures is_true { IsTrueFinding self.now }
        ensures claim { (d : DesignOf) → Reads self.now.problem.text d → Claim d (span_of self.now.problem) self.now.job result self.now.run }
    {
        self.answer
    }

    /// The job.
    pub fn job(&self) -> JobName
        ensures job { result ≡ self.now.job }
        ensures is_true { IsTrueFinding self.now }
    {
        self.job
    }

    /// The run that shows the answer.
    pub fn run(&self) -> Option<&PlayedRun>
        ensures run { option_map (λ r. r.now) result ≡ self.now.run }
        ensures is_true { IsTrueFinding self.now }
    {
        self.run.as_ref()
    }

    /// Whether it is of this problem and job: of its text, mode and span.
    pub fn is_of(&self, problem: &Problem, job: JobName) -> bool
        ensures { IsTrue result ↔ ((self.now.problem ≡ problem.now.problem) × (self.now.job ≡ job)) }
    {
        self.text.as_slice() == problem.text()
            && self.mode == problem.mode()
            && self.span == problem.span()
            && self.job == job
    }
}

// The finding that a job can't be solved, where its formula can't be satisfied.
pub(crate) fn unsat(problem: &Problem, job: JobName) -> Result<Finding, AllocError>
    requires { (f : FormulaOf) × IsFormulaOf problem.now job f × IsUnsatisfiable f.clauses }
    ensures { IfOk result (λ f. f ≡ record { problem = problem.now.problem; job = job; answer = Answer.Unsat; run = None }) }
{
    let _flat = problem.flat();
    let text = problem.share_text()?;
    Ok(Finding {
        text,
        mode: problem.mode(),
        span: problem.span(),
        job,
        answer: Answer::Unsat,
        run: None,
    })
}

// The finding that the job that asks for an invariant can't be solved, where no run breaks an assertion.
pub(crate) fn never(problem: &Problem) -> Result<Finding, AllocError>
    requires { NeverBreak problem.now.design }
    ensures { IfOk result (λ f. f ≡ record { problem = problem.now.problem; job = JobName.Inv; answer = Answer.Unsat; run = None }) }
{
    let _flat = problem.flat();
    let text = problem.share_text()?;
    Ok(Finding {
        text,
        mode: problem.mode(),
        span: problem.span(),
        job: JobName::Inv,
        answer: Answer::Unsat,
        run: None,
    })
}

// The run that shows that a job can be solved, for values that satisfy its formula.
fn shown(
    alloc: Global,
    problem: &Problem,
    job: JobName,
    values: &[bool],
) -> Result<Option<PlayedRun>, AllocError>
    requires { (e : EncodedOf) × IsEncodedOf problem.now job e × Satisfies (values_of values.now) e.formula.clauses }
    ensures claim { IfOk result (λ run. Claim problem.now.design (span_of problem.now.problem) job Answer.Sat run) }
    ensures played { IfOk result (λ run. ShowsPlayed problem.now job (values_of values.now) run) }
{
    let _flat = problem.flat();
    match job {
        JobName::Inv => unreachable!(),
        JobName::Step => Ok(None),
        JobName::Base(_) | JobName::Cover(_) => {
            let run = problem.played(alloc, job, values)?;
            Ok(Some(run))
        }
    }
}

// The finding that a job can be solved, which this run shows, where one is shown.
pub(crate) fn sat_shown(
    problem: &Problem,
    job: JobName,
    run: Option<PlayedRun>,
) -> Result<Finding, AllocError>
    requires { Claim problem.now.design (span_of problem.now.problem) job Answer.Sat run }
    ensures { IfOk result (λ f. f ≡ record { problem = problem.now.problem; job = job; answer = Answer.Sat; run = run }) }
{
    let _flat = problem.flat();
    let text = problem.share_text()?;
    Ok(Finding {
        text,
        mode: problem.mode(),
        span: problem.span(),
        job,
        answer: Answer::Sat,
        run,
    })
}

// The finding that a job can be solved, where these values satisfy its formula.
pub(crate) fn sat(
    alloc: Global,
    problem: &Problem,
    job: JobName,
    values: &[bool],
) -> Result<Finding, AllocError>
    requires { (e : EncodedOf) × IsEncodedOf problem.now job e × Satisfies (values_of values.now) e.formula.clauses }
    ensures problem { IfOk result (λ f. f.problem ≡ problem.now.problem) }
    ensures job { IfOk result (λ f. f.job ≡ job) }
    ensures answer { IfOk result (λ f. f.answer ≡ Answer.Sat) }
    ensures run { IfOk result (λ f. ShowsPlayed problem.now job (values_of values.now) f.run) }
{
    let run = shown(alloc, problem, job, values)?;
    sat_shown(problem, job, run)
}

// Another owner of a run, where there is one.
fn share_run(run: &Option<PlayedRun>) -> Result<Option<PlayedRun>, AllocError>
    ensures { IfOk result (λ shared. shared ≡ run.now) }
{
    match run {
        None => Ok(None),
        Some(run) => {
            let shared = run.share()?;
            Ok(Some(shared))
        }
    }
}

impl Settled for Finding {
    ghost use Rattle.judge.specs.Finding.{IsTrueFinding};
    ghost use Rattle.judge.specs.Agree.{agree_law};

    ghost problem = { λ f. f.problem };

    ghost job = { λ f. f.job };

    ghost answer = { λ f. f.answer };

    ghost is_true = { IsTrueFinding };

    ghost one_answer = { agree_law };

    fn job(&self) -> JobName {
        self.job()
    }

    fn answer(&self) -> Answer {
        self.answer()
    }

    fn copy(&self) -> Result<Self, AllocError> {
        let text = self.text.share()?;
        let run = share_run(&self.run)?;
        Ok(Finding {
            text,
            mode: self.mode,
            span: self.span,
            job: self.job,
            answer: self.answer,
            run,
        })
    }
}
