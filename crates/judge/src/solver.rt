// The judge of the output of a solver that leaves a proof file.

ghost use Rattle.std.specs.Prelude.{◌≡◌, ◌≤◌, ◌^◌, ◌++◌, true, false, List, ℕ, [], IfOk};
ghost use Rattle.judge.specs.Problem.{IsTold};
ghost use Rattle.judge.specs.Solver.{Ends, Feeds, Took, is_open};

use crate::certificate::answer;
use crate::finding::Finding;
use crate::judging::Progress;
use crate::problem::Problem;
use cert_judge::{BadCert, OutputJudge};
use net_text::EncodedClauses;
use sby_terms::JobName;
use std::alloc::{AllocError, Global};
use std::marker::Model;

/// A judge of the standard output of a solver that leaves a proof file, for a job of a problem. Values that it prints are a certificate
/// for Sat; where it prints none, and not that it doesn't know, the proof file decides. It keeps no bytes of the output.
#[derive(Drop)]
pub struct SolverJudge<'a> {
    alloc: Global,
    problem: &'a Problem,
    job: JobName,
    most: u64,
    output: OutputJudge<EncodedClauses>,
    // Nothing but More was answered yet.
    reading: bool,
}

impl<'a> Model for SolverJudge<'a> {
    ghost use Rattle.judge.specs.Solver.{IsSolver, SolverOf};

    ghost Value = { SolverOf };

    ghost view = { λ a. record { asked = a.problem.now; job = a.job; most = a.most; output = a.output; reading = a.reading } };

    ghost invariant = { λ a. IsSolver (record { asked = a.problem.now; job = a.job; most = a.most; output = a.output; reading = a.reading }) };
}

fn is_open(told: &Result<Result<Progress, BadCert>, AllocError>) -> bool
    ensures { result ≡ is_open told.now }
{
    matches!(told, Ok(Ok(Progress::More)))
}

impl<'a> SolverJudge<'a> {
    /// A judge that has taken nothing yet, and takes at most `most` bytes, from 1 to 2^32.
    pub fn new(
        alloc: Global,
        problem: &'a Problem,
        job: JobName,
        most: u64,
    ) -> Result<Self, AllocError>
        requires job { IsTold problem.now job }
        requires least { 1 ≤ most }
        requires limit { most ≤ 2 ^ 32 }
        ensures asked { IfOk result (λ j. j.asked ≡ problem.now) }
        ensures job { IfOk result (λ j. j.job ≡ job) }
        ensures most { IfOk result (λ j. j.most ≡ most) }
        ensures took { IfOk result (λ j. Took j []) }
    {
        let clauses = problem.clauses(alloc, job)?;
        let output = OutputJudge::new(alloc, clauses, most)?;
        Ok(SolverJudge {
            alloc,
            problem,
            job,
            most,
            output,
            reading: true,
        })
    }

    /// Takes a piece of the output, and answers the fate of all bytes so far, or More where there is none yet. Lines that are neither
    /// values nor status lines are passed over. After another answer than More, and after an answer out of memory, nothing more may come.
    pub fn feed(&mut self, piece: &[u8]) -> Result<Result<Progress, BadCert>, AllocError>
        requires { self.old.reading ≡ true }
        ensures feeds { (bytes : List ℕ) → Took self.old bytes → IfOk result (λ r. Feeds self.old self.new (bytes ++ piece.now) r) }
    {
        let Ok(outcome) = self.output.feed(piece) else {
            self.reading = false;
            return Err(AllocError);
        };
        let values = self.output.values();
        let told = answer(self.alloc, self.problem, self.job, values, outcome);
        self.reading = is_open(&told);
        told
    }

    /// The output ends. Answers its fate, or More where it has none of its own, and the proof file decides. Nothing more may come.
    pub fn end(&mut self) -> Result<Result<Progress, BadCert>, AllocError>
        requires { self.old.reading ≡ true }
        ensures ends { (bytes : List ℕ) → Took self.old bytes → IfOk result (λ r. Ends self.old bytes r) }
        ensures over { self.new.reading ≡ false }
    {
        self.reading = false;
        self.problem.has_file(self.job);
        let outcome = self.output.end()?;
        let values = self.output.values();
        answer(self.alloc, self.problem, self.job, values, outcome)
    }
}
