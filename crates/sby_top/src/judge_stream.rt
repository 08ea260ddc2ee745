// The stored stream of a job is judged piece by piece, as it is read.

ghost use Rattle.std.specs.Prelude.{◌≡◌, ◌↔◌, ◌++◌, ◌≤◌, [], ℕ, List, IfErr, IfOk, IsTrue, None, OnOk};
ghost use Rattle.judge.specs.Answers.{fate_told};
ghost use Rattle.judge.specs.Fates.{Serves};
ghost use Rattle.judge.specs.Judging.{Took};
ghost use Rattle.judge.specs.Problem.{IsJob, IsJobFile};
ghost use Rattle.sby_edge.specs.Files.{PieceFrom};
ghost use Rattle.sby_words.specs.Kinds.{IsKindNamed};
ghost use Rattle.sby_top.specs.Judged.{IsJudged};
ghost use Rattle.sby_top.specs.Served.{most_stream};
ghost use Rattle.sby_top.specs.Steps.{end_of, files_at, IsFailedCall, IsTrueEnd, PathEnds, PieceEnds, StreamEnds};

use crate::serve::get_piece;
use cert_judge::{BadCert, Kind};
use judge::{Finding, Judge, Problem, Progress, fates_stay};
use race_core::JobEnd;
use sby_edge::Files;
use sby_lines::Early;
use sby_terms::{JobName, MAX_STREAM};
use std::alloc::Global;

// How many bytes are got at once.
const PIECE: usize = 1 << 16;

fn is_more(answer: &Result<Progress, BadCert>) -> bool
    ensures { IsTrue result ↔ (fate_told answer.now ≡ None) }
{
    matches!(answer, Ok(Progress::More))
}

// Returns the end of a job whose stream was judged as this. A stream that has ended is never judged as More.
fn end_of(answer: Result<Progress, BadCert>) -> JobEnd<Finding>
    ensures end { result ≡ end_of answer }
    ensures is_true { IsTrueEnd result }
{
    match answer {
        Ok(Progress::Done(finding)) => {
            // It tells that it is true.
            let _ = finding.job();
            JobEnd::Found(finding)
        }
        Ok(Progress::Unknown | Progress::More) => JobEnd::Unknown,
        Err(bad) => JobEnd::Bad {
            no: bad.kind.number(),
            at: bad.at,
        },
    }
}

// The end that the stream's next piece brings.
fn feed_piece(judge: &mut Judge, piece: &[u8]) -> Option<JobEnd<Finding>>
    requires took { (bytes : List ℕ) × Took judge.old bytes }
    requires most { judge.old.most ≡ most_stream }
    requires file { (file : List ℕ) × IsJobFile judge.old.asked judge.old.job file }
    ensures { (bytes : List ℕ) → Took judge.old bytes → PieceEnds judge.old judge.new (bytes ++ piece.now) result }
{
    fates_stay();
    let Ok(answer) = judge.feed(piece) else {
        return Some(JobEnd::Memory);
    };
    if is_more(&answer) {
        None
    } else {
        Some(end_of(answer))
    }
}

// The end where the stream ends.
fn end_stream(judge: &mut Judge) -> JobEnd<Finding>
    requires { judge.old.most ≡ most_stream }
    ensures { (bytes : List ℕ) → Took judge.old bytes → StreamEnds judge.old bytes result }
{
    match judge.end() {
        Ok(answer) => end_of(answer),
        Err(_) => JobEnd::Memory,
    }
}

// Feeds the stream at a path, of which the first piece was got, until the judge needs no more or the stream ends.
fn feed_all<F: Files>(
    alloc: Global,
    files: &mut F,
    path: &str,
    judge: &mut Judge,
    first: Vec<u8>,
) -> Result<JobEnd<Finding>, Early>
    requires took { Took judge.old [] }
    requires most { judge.old.most ≡ most_stream }
    requires file { (file : List ℕ) × IsJobFile judge.old.asked judge.old.job file }
    requires first { PieceFrom (F.told files.old) path.now 0 PIECE first.items }
    ensures ok { IfOk result (λ end. PathEnds judge.old (F.told files.old) path.now end) }
    ensures failed { IfErr result (IsFailedCall (files_at (F.told files.old) (F.faults files.old) (F.blamed files.old)) (files_at (F.told files.new) (F.faults files.new) (F.blamed files.new)) path.now) }
    ensures told { F.told files.new ≡ F.told files.old }
    ensures still { OnOk result (F.faults files.new ≡ F.faults files.old) }
    ensures blamed { OnOk result (F.blamed files.new ≡ F.blamed files.old) }
    ensures later { F.faults files.old ≤ F.faults files.new }
{
    let mut piece = first;
    let mut place: u64 = 0;
    'pieces: loop {
        if let Some(end) = feed_piece(judge, &piece) {
            return Ok(end);
        }
        if piece.len() < PIECE {
            return Ok(end_stream(judge));
        }
        place += piece.len() as u64;
        piece = get_piece(alloc, files, path, place, PIECE)?;
    }
}

/// The end of a job by the stream at this path: by its fate as evidence for the job, of the kind that the path names. The stream is read as
/// far as its judge needs it.
pub fn judge_stored<F: Files>(
    alloc: Global,
    files: &mut F,
    problem: &Problem,
    job: JobName,
    kind: Kind,
    path: &str,
) -> Result<JobEnd<Finding>, Early>
    requires job { IsJob problem.now job }
    requires named { IsKindNamed path.now kind }
    requires serves { Serves kind job }
    ensures ok { IfOk result (λ end. IsJudged problem.now (F.told files.old) job path.now end) }
    ensures failed { IfErr result (IsFailedCall (files_at (F.told files.old) (F.faults files.old) (F.blamed files.old)) (files_at (F.told files.new) (F.faults files.new) (F.blamed files.new)) path.now) }
    ensures told { F.told files.new ≡ F.told files.old }
    ensures still { OnOk result (F.faults files.new ≡ F.faults files.old) }
    ensures blamed { OnOk result (F.blamed files.new ≡ F.blamed files.old) }
    ensures later { F.faults files.old ≤ F.faults files.new }
{
    let first = get_piece(alloc, files, path, 0, PIECE)?;
    let Ok(mut judge) = Judge::new(alloc, problem, job, kind, MAX_STREAM) else {
        return Ok(JobEnd::Memory);
    };
    problem.has_file(job);
    feed_all(alloc, files, path, &mut judge, first)
}
