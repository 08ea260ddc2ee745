// The lanes of a problem.

ghost use Rattle.std.specs.Prelude.{◌≡◌, ℕ, [], IfOk, MatchBool, Some, map, slice_get, string_bytes};
ghost use Rattle.judge.specs.Problem.{IsJob};
ghost use Rattle.task_race.specs.Fates.{Ends, Proves, Stands, most_bytes, most_output};
ghost use Rattle.task_race.specs.Serving.{IsJudgeable, IsServed, IsServing, evidence_at, evidence_of, file_of};
ghost use Rattle.task_race.specs.Watching.{Watches};
ghost use Rattle.task_race.specs.Words.{path_of, proof_path, words_at};
ghost use Rattle.sby_terms.specs.Span.{slices_of};

use crate::evidence::Evidence;
use crate::file::ProblemFile;
use crate::job_judge::{JobJudge, Watch};
use crate::words::{path_of, proof_path, words_of};
use cert_judge::{Kind, StreamKind};
use judge::{Finding, Judge, Problem, SolverJudge, serves};
use lane_run::{Child, ForJob, LaneFactory};
use sby_edge::{Nothing, ToldBytes};
use sby_terms::{Engine, JobName, MAX_STREAM};
use std::alloc::{AllocError, Global};

/// The lanes of a problem, one for each engine line: `btor` serves the jobs that ask for a run from the start, `inv`
/// the one that asks for an invariant, every other engine each other job. A `net` line's engine is sent the job's file.
/// The jobs' files lie in the work folder, below `model`, and so do the proof files that children leave.
#[derive(Clone, Copy)]
pub struct ProblemLanes<'a> {
    pub problem: &'a Problem,
    pub engines: &'a [Engine],
    pub folder: &'a str,
}

// Where the evidence of an engine's child comes from.
fn evidence_of(engine: &Engine) -> Evidence
    ensures { result ≡ evidence_of engine.now }
{
    match engine {
        Engine::Sat(_) | Engine::Drup(_) | Engine::Net(_) => {
            Evidence::Output(Kind::Certificate(StreamKind::Drup))
        }
        Engine::Btor(_) => Evidence::Output(Kind::Witness),
        Engine::Inv(_) => Evidence::Output(Kind::Invariant),
        Engine::Lrat(_) => Evidence::Output(Kind::Certificate(StreamKind::Lrat)),
        Engine::Proof(_) => Evidence::ProofFile(StreamKind::Proof),
        Engine::ProofBinary(_) => Evidence::ProofFile(StreamKind::ProofBinary),
    }
}

// Whether such evidence is judged for the job.
fn is_judgeable(evidence: Evidence, job: JobName) -> bool
    ensures { MatchBool result (IsJudgeable evidence job) (IsJudgeable evidence job → ⊥) }
{
    match evidence {
        Evidence::Output(kind) => serves(kind, job),
        Evidence::ProofFile(kind) => serves(Kind::Certificate(kind), job),
    }
}

// Whether the lane's engine serves the job.
fn is_serving(engines: &[Engine], lane: u32, job: JobName) -> bool
    ensures { MatchBool result (IsServing (slice_get engines.now lane) job) (IsServing (slice_get engines.now lane) job → ⊥) }
{
    match engines.get(lane as usize) {
        Some(engine) => is_judgeable(evidence_of(engine), job),
        None => false,
    }
}

// A judge of a job's output that has taken nothing yet.
fn watch<'a>(
    alloc: Global,
    problem: &'a Problem,
    job: JobName,
    evidence: Evidence,
) -> Result<Watch<'a>, AllocError>
    requires job { IsJob problem.now job }
    requires judgeable { IsJudgeable evidence job }
    ensures { IfOk result (λ w. Watches problem.now job evidence w []) }
{
    match evidence {
        Evidence::Output(kind) => {
            let judge = Judge::new(alloc, problem, job, kind, MAX_STREAM)?;
            Ok(Watch::Stream(judge))
        }
        Evidence::ProofFile(_) => {
            let judge = SolverJudge::new(alloc, problem, job, MAX_STREAM)?;
            Ok(Watch::Solver(judge))
        }
    }
}

// Whether it is a job of the problem.
fn is_job(problem: &Problem, job: JobName) -> bool
    ensures { MatchBool result (IsJob problem.now job) (IsJob problem.now job → ⊥) }
{
    for place in 0..problem.jobs() {
        if problem.job(place) == job {
            return true;
        }
    }
    false
}

// The path of the file that an engine's child reads for a job.
fn file_path(
    alloc: Global,
    lanes: &ProblemLanes<'_>,
    engine: &Engine,
    job: JobName,
) -> Result<String, AllocError>
    ensures { IfOk result (λ t. string_bytes t ≡ path_of engine.now lanes.now.folder.now (slices_of lanes.now.problem.now.problem.span) job) }
{
    let _flat = lanes.problem.flat();
    path_of(
        alloc,
        engine,
        lanes.folder,
        lanes.problem.span().slices(),
        job,
    )
}

// The path of the proof file that a lane's child leaves for a job.
fn proof_of(
    alloc: Global,
    lanes: &ProblemLanes<'_>,
    lane: u32,
    job: JobName,
) -> Result<String, AllocError>
    ensures { IfOk result (λ t. string_bytes t ≡ proof_path lanes.now.folder.now lane (slices_of lanes.now.problem.now.problem.span) job) }
{
    let _flat = lanes.problem.flat();
    proof_path(
        alloc,
        lanes.folder,
        lane,
        lanes.problem.span().slices(),
        job,
    )
}

impl<'a> ForJob<Finding> for ProblemLanes<'a> {
    ghost problem = { λ l. l.problem.now.problem };

    fn is_for(&self, value: &Finding, job: JobName) -> bool {
        value.is_of(self.problem, job)
    }
}

impl<'a> LaneFactory<Finding> for ProblemLanes<'a> {
    ghost use Rattle.task_race.specs.Fates.{stays_law};

    type ChildJudge = JobJudge<'a>;

    type File = ProblemFile<'a>;

    ghost is_served = { λ l lane job. IsServed l.engines.now l.problem.now lane job };

    ghost words = { λ l lane job. words_at (slice_get l.engines.now lane) l.folder.now lane (slices_of l.problem.now.problem.span) job };

    ghost proof = { λ l lane job. proof_path l.folder.now lane (slices_of l.problem.now.problem.span) job };

    ghost file = { λ l job. file_of l.problem.now job };

    ghost stands = { λ l lane job. Stands l.problem.now job (evidence_at (slice_get l.engines.now lane)) };

    ghost ends = { λ l lane job. Ends l.problem.now job (evidence_at (slice_get l.engines.now lane)) };

    ghost proves = { λ l lane job. Proves l.problem.now job (evidence_at (slice_get l.engines.now lane)) };

    ghost most = { λ l. most_bytes };

    ghost most_output = { λ l lane. most_output (evidence_at (slice_get l.engines.now lane)) };

    fn serves(&self, lane: u32, job: JobName) -> bool {
        is_serving(self.engines, lane, job) && is_job(self.problem, job)
    }

    fn make(
        &self,
        alloc: Global,
        lane: u32,
        job: JobName,
    ) -> Result<Child<JobJudge<'a>>, AllocError> {
        let Some(engine) = self.engines.get(lane as usize) else {
            unreachable!()
        };
        let proof = proof_of(alloc, self, lane, job)?;
        let path = file_path(alloc, self, engine, job)?;
        let words = words_of(alloc, engine, path, proof.as_str())?;
        let evidence = evidence_of(engine);
        let watch = Box::new(alloc, watch(alloc, self.problem, job, evidence)?)?;
        let judge = JobJudge {
            problem: self.problem,
            job,
            evidence,
            watch,
            output: ToldBytes::of(&Nothing),
            proof: ToldBytes::of(&Nothing),
        };
        Ok(Child {
            judge,
            words,
            proof,
        })
    }

    fn file(&self, _lane: u32, job: JobName) -> ProblemFile<'a> {
        ProblemFile::new(self.problem, job)
    }

    fn most(&self) -> u64 {
        MAX_STREAM
    }

    ghost stays = { λ l lane job. stays_law l.problem.now job (evidence_at (slice_get l.engines.now lane)) };
}
