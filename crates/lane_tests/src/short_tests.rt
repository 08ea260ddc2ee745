// Lanes whose judges take fewer bytes than a stream may have.

ghost use Rattle.std.specs.Prelude.{◌≡◌, ◌≢◌, ◌≤◌, ◌^◌, ◌++◌, [], IfOk, ℕ, List};
ghost use Rattle.cert_judge.specs.declared.stream.Kind.TheVariants.{Certificate};
ghost use Rattle.cert_judge.specs.declared.stream.StreamKind.TheVariants.{Drup};
ghost use Rattle.judge.specs.Fates.{Serves};
ghost use Rattle.judge.specs.Problem.{AskedOf, IsJob, IsJobFile};
ghost use Rattle.lane_run.specs.Judging.{Says};
ghost use Rattle.task_race.specs.Serving.{IsServed, file_of};
ghost use Rattle.task_race.specs.Watching.{told_as};
ghost use Rattle.lane_tests.specs.Short.{HasTaken, IsOurs, SaysShort};
ghost use Rattle.sby_terms.specs.declared.names.JobName.{JobName};

use super::tests::{
    Course, Ended, FREE, Kind, Seen, TURNS, engines_of, problem_of, race_over, script_of,
};
use cert_judge::{BadCert, StreamKind};
use judge::{Finding, Judge, Problem, Progress, State, serves};
use lane_run::{Child, ChildJudge, ForJob, LaneFactory};
use race_cells::Cells;
use race_core::Judged;
use sby_edge::{Nothing, Scripted, Told, ToldBytes};
use sby_terms::{Answer, JobName, MAX_STREAM, Verdict};
use std::alloc::{AllocError, Global};
use std::sync::Wait;
use std::test::Fail;
use std::thread::Threads;
use std::time::Clock as SystemClock;
use task_race::{ProblemFile, ProblemLanes};

// An output with its next piece.
#[derive(Drop)]
struct Longer<'o, 'p> {
    output: &'o ToldBytes,
    piece: &'p [u8],
}

impl<'o, 'p> Told for Longer<'o, 'p> {
    ghost use Rattle.std.specs.Prelude.{◌++◌};

    ghost bytes = { λ l. l.output.now.bytes ++ l.piece.now };
}

fn with_piece(output: &ToldBytes, piece: &[u8]) -> ToldBytes
    ensures { result.bytes ≡ output.now.bytes ++ piece.now }
{
    ToldBytes::of(&Longer { output, piece })
}

// A judge's answer, as a lane's list has it.
fn told(answer: Result<Result<Progress, BadCert>, AllocError>) -> Judged<Finding>
    ensures { result ≡ told_as answer }
{
    match answer {
        Ok(Ok(Progress::More)) => Judged::More,
        Ok(Ok(Progress::Done(finding))) => Judged::Found(finding),
        Ok(Ok(Progress::Unknown)) => Judged::Unknown,
        Ok(Err(bad)) => Judged::Bad {
            no: bad.kind.number(),
            at: bad.at,
        },
        Err(_) => Judged::Unjudged,
    }
}

// What a judge makes of its next piece.
fn told_of_piece(judge: &mut Judge, piece: &[u8]) -> Judged<Finding>
    requires { judge.old.state ≢ State.Over }
    ensures { (p : AskedOf) (job : JobName) (most : ℕ) (bytes file : List ℕ) → HasTaken p job most judge.old bytes → IsJobFile p job file
        → SaysShort p job most judge.new (bytes ++ piece.now) result }
{
    told(judge.feed(piece))
}

// And of the end.
fn told_of_end(judge: &mut Judge) -> Judged<Finding>
    ensures { (p : AskedOf) (job : JobName) (most : ℕ) (bytes : List ℕ) → HasTaken p job most judge.old bytes → Says (IsOurs p.problem job) bytes result }
{
    told(judge.end())
}

// The kind of the streams.
const DRUP: cert_judge::Kind = cert_judge::Kind::Certificate(StreamKind::Drup);

// A judge of a stream of at most this many bytes.
#[derive(Drop)]
struct ShortJudge<'a> {
    problem: &'a Problem,
    job: JobName,
    most: u64,
    judge: Judge<'a>,
    output: ToldBytes,
}

// A judge of a job's stream that has taken nothing.
fn short_judge<'a>(
    alloc: Global,
    problem: &'a Problem,
    job: JobName,
    most: u64,
) -> Result<ShortJudge<'a>, AllocError>
    requires job { IsJob problem.now job }
    requires serves { Serves (Certificate Drup) job }
    requires least { 1 ≤ most }
    requires limit { most ≤ 2 ^ 32 }
    ensures problem { IfOk result (λ s. s.problem.now ≡ problem.now) }
    ensures job { IfOk result (λ s. s.job ≡ job) }
    ensures most { IfOk result (λ s. s.most ≡ most) }
    ensures none { IfOk result (λ s. s.output.bytes ≡ []) }
    ensures took { IfOk result (λ s. HasTaken s.problem.now s.job s.most s.judge s.output.bytes) }
{
    let judge = Judge::new(alloc, problem, job, DRUP, most)?;
    Ok(ShortJudge {
        problem,
        job,
        most,
        judge,
        output: ToldBytes::of(&Nothing),
    })
}

impl<'a> ChildJudge<Finding> for ShortJudge<'a> {
    ghost use Rattle.lane_tests.specs.Short.{ours_law};

    ghost problem = { λ s. s.problem.now.problem };

    ghost job = { λ s. s.job };

    ghost taken = { λ s. s.output.bytes };

    ghost most = { λ s. s.most };

    ghost goes_on = { λ s. HasTaken s.problem.now s.job s.most s.judge s.output.bytes };

    ghost awaits = { λ s. Unit {0} };

    ghost proved = { λ s. s.output.bytes };

    ghost proving = { λ s. Unit {0} };

    ghost stands = { λ s. IsOurs s.problem.now.problem s.job };

    ghost ends = { λ s. IsOurs s.problem.now.problem s.job };

    ghost proves = { λ s. IsOurs s.problem.now.problem s.job };

    fn feed(&mut self, _alloc: Global, piece: &[u8]) -> Judged<Finding> {
        self.problem.has_file(self.job);
        self.output = with_piece(&self.output, piece);
        told_of_piece(&mut self.judge, piece)
    }

    fn end(&mut self, _alloc: Global) -> Judged<Finding> {
        told_of_end(&mut self.judge)
    }

    fn open_proof(&mut self, _alloc: Global) -> Result<(), AllocError> {
        self.output = ToldBytes::of(&Nothing);
        Ok(())
    }

    fn feed_proof(&mut self, _alloc: Global, piece: &[u8]) -> Judged<Finding> {
        self.output = with_piece(&self.output, piece);
        Judged::More
    }

    fn end_proof(&mut self, _alloc: Global) -> Judged<Finding> {
        Judged::Unjudged
    }

    ghost stays = { λ s bytes more p some h. h };

    ghost is_for = { λ s. ours_law s.problem.now.problem s.job };
}

// The lanes of a problem, each with a judge of a stream of at most this many bytes. A child in memory needs no words.
#[derive(Clone, Copy)]
struct ShortLanes<'a> {
    lanes: ProblemLanes<'a>,
    most: u64,
}

impl<'a> ForJob<Finding> for ShortLanes<'a> {
    ghost problem = { λ l. l.lanes.problem.now.problem };

    fn is_for(&self, value: &Finding, job: JobName) -> bool {
        self.lanes.is_for(value, job)
    }
}

impl<'a> LaneFactory<Finding> for ShortLanes<'a> {
    ghost use Rattle.std.specs.Prelude.{◌≤◌, ◌^◌, []};

    type ChildJudge = ShortJudge<'a>;

    type File = ProblemFile<'a>;

    ghost is_served = { λ l lane job. IsServed l.lanes.engines.now l.lanes.problem.now lane job × Serves (Certificate Drup) job × (1 ≤ l.most) × (l.most ≤ 2 ^ 32) };

    ghost words = { λ l lane job. [] };

    ghost proof = { λ l lane job. [] };

    ghost file = { λ l job. file_of l.lanes.problem.now job };

    ghost stands = { λ l lane job. IsOurs l.lanes.problem.now.problem job };

    ghost ends = { λ l lane job. IsOurs l.lanes.problem.now.problem job };

    ghost proves = { λ l lane job. IsOurs l.lanes.problem.now.problem job };

    ghost most = { λ l. l.most };

    ghost most_output = { λ l lane. l.most };

    fn serves(&self, lane: u32, job: JobName) -> bool {
        self.lanes.serves(lane, job)
            && serves(DRUP, job)
            && 1 <= self.most
            && self.most <= MAX_STREAM
    }

    fn make(
        &self,
        alloc: Global,
        _lane: u32,
        job: JobName,
    ) -> Result<Child<ShortJudge<'a>>, AllocError> {
        let judge = short_judge(alloc, self.lanes.problem, job, self.most)?;
        Ok(Child {
            judge,
            words: Vec::new(alloc),
            proof: String::new(alloc),
        })
    }

    fn file(&self, lane: u32, job: JobName) -> ProblemFile<'a> {
        self.lanes.file(lane, job)
    }

    fn most(&self) -> u64 {
        self.most
    }

    ghost stays = { λ l lane job bytes more p some h. h };
}

// How many bytes the judge takes, where the child stalls, and how its job and the task end.
#[derive(Clone, Copy)]
struct Row {
    most: u64,
    stalls: Option<u64>,
    end: Ended,
    won: Option<bool>,
    verdict: Option<Verdict>,
}

// A certificate that is too long.
const LONG: Row = Row {
    most: 4,
    stalls: None,
    end: Ended::Bad(47, 4),
    won: None,
    verdict: None,
};

// One that isn't.
const WHOLE: Row = Row {
    most: 6,
    end: Ended::Found(Answer::Unsat),
    won: Some(true),
    verdict: Some(Verdict::Pass),
    ..LONG
};

// A child that stalls ends only where it is killed.
const ROWS: [Row; 5] = [
    LONG,
    Row {
        stalls: Some(5),
        ..LONG
    },
    Row {
        most: 5,
        end: Ended::Bad(47, 5),
        ..LONG
    },
    WHOLE,
    Row {
        stalls: Some(6),
        ..WHOLE
    },
];

// Races one lane of so few bytes over this stream, cut into two at this byte.
fn short_course<R: Threads + Wait + SystemClock + Sync>(
    rt: &R,
    alloc: Global,
    problem: &Problem,
    row: &Row,
    cut: u64,
) -> Result<Course, Fail> {
    let engines = engines_of(alloc, Kind::Sat, 1)?;
    let lanes = ProblemLanes {
        problem,
        engines: &engines,
        folder: "t",
    };
    let factory = ShortLanes {
        lanes,
        most: row.most,
    };
    let cells = Cells::new(alloc, 1)?;
    let scripts = Vec::<Scripted>::new(alloc);
    let mut script = script_of(alloc, "c x\n0\n")?;
    script.stalls = row.stalls;
    script.cut = Some(cut);
    race_over(rt, alloc, &factory, 1, &cells, FREE, &scripts, &script)
}

#[test]
fn streams_past_the_limit_of_a_lane(rt: HostRuntime) -> Result<(), Fail> {
    let problem = problem_of(rt.alloc(), TURNS, 1)?;
    for row in &ROWS {
        let seen = Seen {
            end: row.end,
            won: row.won,
            is_reaped: true,
        };
        for cut in 0..6 {
            let course = short_course(&rt, rt.alloc(), &problem, row, cut)?;
            assert_eq!(rt; course.two[0], Some(seen), "{}", row.most);
            assert_eq!(rt; course.verdict, row.verdict, "{}", row.most);
        }
    }
    Ok(())
}
