// The judge of a child's output, as a lane asks for it.

ghost use Rattle.std.specs.Prelude.{◌≡◌, ℕ, ◌++◌, List, true};
ghost use Rattle.judge.specs.Problem.{AskedOf};
ghost use Rattle.task_race.specs.Fates.{Ends, GoesOn, Proves, SolverGoesOn, Stands, judged_as, most_output};
ghost use Rattle.task_race.specs.Watching.{Awaits, EndedSo, FedSo, IsReading, Proving, Watches, told_as};
ghost use Rattle.task_race.specs.declared.evidence.Evidence.TheVariants as evidence;
ghost use Rattle.sby_terms.specs.declared.names.JobName.{JobName};
ghost use Rattle.cert_judge.specs.declared.stream.Kind.{Kind};
ghost use Rattle.cert_judge.specs.declared.stream.StreamKind.{StreamKind};

use crate::evidence::Evidence;
use cert_judge::{BadCert, Kind};
use judge::{Finding, Judge, Problem, Progress, SolverJudge};
use lane_run::ChildJudge;
use race_core::Judged;
use sby_edge::{Nothing, Told, ToldBytes};
use sby_terms::{JobName, MAX_STREAM};
use std::alloc::{AllocError, Global};
use std::mem::replace;

// Who judges the output itself, or the proof file after it, which is a stream.
#[derive(Drop)]
pub(crate) enum Watch<'a> {
    Stream(Judge<'a>),
    Solver(SolverJudge<'a>),
}

/// The judge of a child's output, and of the proof file after it, as evidence for a job of a problem. It keeps none of the output's
/// bytes.
#[derive(Drop)]
pub struct JobJudge<'a> {
    pub(crate) problem: &'a Problem,
    pub(crate) job: JobName,
    pub(crate) evidence: Evidence,
    // Who judges the output, and, once that is due, the proof file. A judge is large, so it stays where it is when this moves.
    pub(crate) watch: Box<Watch<'a>>,
    pub(crate) output: ToldBytes,
    pub(crate) proof: ToldBytes,
}

// An output with its next piece.
#[derive(Drop)]
struct Longer<'o, 'p> {
    output: &'o ToldBytes,
    piece: &'p [u8],
}

impl<'o, 'p> Told for Longer<'o, 'p> {
    ghost use Rattle.std.specs.Prelude.{◌++◌};

    ghost bytes = { λ l. l.output.now.bytes ++ l.piece.now };
}

fn with_piece(output: &ToldBytes, piece: &[u8]) -> ToldBytes
    ensures { result.bytes ≡ output.now.bytes ++ piece.now }
{
    ToldBytes::of(&Longer { output, piece })
}

// An answer of a judge, as a lane's list has it.
fn judged_as(answer: Result<Progress, BadCert>) -> Judged<Finding>
    ensures { result ≡ judged_as answer }
{
    match answer {
        Ok(Progress::More) => Judged::More,
        Ok(Progress::Done(finding)) => Judged::Found(finding),
        Ok(Progress::Unknown) => Judged::Unknown,
        Err(bad) => Judged::Bad {
            no: bad.kind.number(),
            at: bad.at,
        },
    }
}

// Out of memory isn't judged.
fn judged(answer: Result<Result<Progress, BadCert>, AllocError>) -> Judged<Finding>
    ensures { result ≡ told_as answer }
{
    match answer {
        Ok(answer) => judged_as(answer),
        Err(_) => Judged::Unjudged,
    }
}

// What a judge of the job's stream makes of its next piece.
fn feed_stream(judge: &mut Judge, piece: &[u8]) -> Judged<Finding>
    requires { IsReading judge.old }
    ensures { (p : AskedOf) (job : JobName) (kind : Kind) (bytes : List ℕ) → GoesOn p job kind judge.old bytes
        → FedSo p job (evidence.Output kind) (GoesOn p job kind judge.new (bytes ++ piece.now)) (bytes ++ piece.now) result }
{
    judged(judge.feed(piece))
}

// And of its end.
fn end_stream(judge: &mut Judge) -> Judged<Finding>
    ensures { (p : AskedOf) (job : JobName) (kind : Kind) (bytes : List ℕ) → GoesOn p job kind judge.old bytes → EndedSo p job (evidence.Output kind) bytes result }
{
    judged(judge.end())
}

// What a judge of a solver's output makes of its next piece.
fn feed_solver(judge: &mut SolverJudge, piece: &[u8]) -> Judged<Finding>
    requires { judge.old.reading ≡ true }
    ensures { (p : AskedOf) (job : JobName) (kind : StreamKind) (bytes : List ℕ) → SolverGoesOn p job kind judge.old bytes
        → FedSo p job (evidence.ProofFile kind) (SolverGoesOn p job kind judge.new (bytes ++ piece.now)) (bytes ++ piece.now) result }
{
    judged(judge.feed(piece))
}

// And of its end.
fn end_solver(judge: &mut SolverJudge) -> Judged<Finding>
    requires { judge.old.reading ≡ true }
    ensures { (p : AskedOf) (job : JobName) (kind : StreamKind) (bytes : List ℕ) → SolverGoesOn p job kind judge.old bytes → EndedSo p job (evidence.ProofFile kind) bytes result }
{
    judged(judge.end())
}

impl<'a> ChildJudge<Finding> for JobJudge<'a> {
    ghost use Rattle.task_race.specs.Fates.{for_law, stays_law};

    ghost problem = { λ s. s.problem.now.problem };

    ghost job = { λ s. s.job };

    ghost taken = { λ s. s.output.bytes };

    ghost most = { λ s. most_output s.evidence };

    ghost goes_on = { λ s. Watches s.problem.now s.job s.evidence s.watch.value s.output.bytes };

    ghost awaits = { λ s. Awaits s.problem.now s.job s.evidence };

    ghost proved = { λ s. s.proof.bytes };

    ghost proving = { λ s. Proving s.problem.now s.job s.evidence s.watch.value s.proof.bytes };

    ghost stands = { λ s. Stands s.problem.now s.job s.evidence };

    ghost ends = { λ s. Ends s.problem.now s.job s.evidence };

    ghost proves = { λ s. Proves s.problem.now s.job s.evidence };

    fn feed(&mut self, _alloc: Global, piece: &[u8]) -> Judged<Finding> {
        self.problem.has_file(self.job);
        self.output = with_piece(&self.output, piece);
        match &mut *self.watch {
            Watch::Stream(judge) => feed_stream(judge, piece),
            Watch::Solver(judge) => feed_solver(judge, piece),
        }
    }

    fn end(&mut self, _alloc: Global) -> Judged<Finding> {
        self.problem.has_file(self.job);
        match &mut *self.watch {
            Watch::Stream(judge) => end_stream(judge),
            Watch::Solver(judge) => end_solver(judge),
        }
    }

    fn open_proof(&mut self, alloc: Global) -> Result<(), AllocError> {
        let Evidence::ProofFile(kind) = self.evidence else {
            unreachable!()
        };
        let kind = Kind::Certificate(kind);
        let judge = Judge::new(alloc, self.problem, self.job, kind, MAX_STREAM)?;
        // (as an assignment each part of the old judge would be dropped here, which takes minutes to prove)
        drop(replace(&mut *self.watch, Watch::Stream(judge)));
        self.proof = ToldBytes::of(&Nothing);
        Ok(())
    }

    fn feed_proof(&mut self, _alloc: Global, piece: &[u8]) -> Judged<Finding> {
        self.problem.has_file(self.job);
        self.proof = with_piece(&self.proof, piece);
        match &mut *self.watch {
            Watch::Stream(judge) => feed_stream(judge, piece),
            Watch::Solver(_) => unreachable!(),
        }
    }

    fn end_proof(&mut self, _alloc: Global) -> Judged<Finding> {
        self.problem.has_file(self.job);
        match &mut *self.watch {
            Watch::Stream(judge) => end_stream(judge),
            Watch::Solver(_) => unreachable!(),
        }
    }

    ghost stays = { λ s. stays_law s.problem.now s.job s.evidence };

    ghost is_for = { λ s. for_law s.problem.now s.job s.evidence };
}
