// Races of the lanes of a problem, by children of scripts.

ghost use Rattle.std.specs.Prelude.{◌≡◌, ◌<◌, ◌^◌, IfOk, length};

use jobs_pool::Pool;
use judge::{Finding, Problem};
use lane_berth::Allowance;
use lane_run::{LaneFactory, Limit, Raced, Task, fresh_lanes, race_fresh};
use race_cells::Cells;
use race_core::{JobEnd, JobEvents, LaneEvent, Report, answer_among};
use sby_edge::{
    CallFault, Clock, Exit, ListClock, Script, ScriptBay, ScriptYard, Scripted, Stage, Yard,
};
use sby_terms::{Answer, Engine, JobName, Mode, Settled, Span, Verdict, Words, decide};
use std::alloc::{AllocError, Global};
use std::sync::Wait;
use std::test::Fail;
use std::thread::Threads;
use std::time::Clock as SystemClock;
use task_race::ProblemLanes;

/// A register that is 0 first and then turns. Its assertion breaks in every second cycle, cycle 1 first.
pub const TURNS: &str =
    "module \\t\n wire input 1 \\clk\n attribute \\init 1'0\n wire \\q\n wire \\d\n cell $not $n\n parameter \\A_SIGNED 0\n parameter \\A_WIDTH 1\n parameter \\Y_WIDTH 1\n connect \\A \\q\n connect \\Y \\d\n end\n cell $dff $r\n parameter \\CLK_POLARITY 1'1\n parameter \\WIDTH 1\n connect \\CLK \\clk\n connect \\D \\d\n connect \\Q \\q\n end\n cell $assert \\a0\n connect \\A \\d\n connect \\EN 1'1\n end\nend\n";

/// That design without its assertion: its job has one variable and the empty clause.
pub const EMPTY: &str =
    "module \\t\n wire input 1 \\clk\n attribute \\init 1'0\n wire \\q\n wire \\d\n cell $not $n\n parameter \\A_SIGNED 0\n parameter \\A_WIDTH 1\n parameter \\Y_WIDTH 1\n connect \\A \\q\n connect \\Y \\d\n end\n cell $dff $r\n parameter \\CLK_POLARITY 1'1\n parameter \\WIDTH 1\n connect \\CLK \\clk\n connect \\D \\d\n connect \\Q \\q\n end\nend\n";

/// How a lane's job ended.
#[derive(Clone, Copy, Debug, PartialEq, Eq)]
pub enum Ended {
    Found(Answer),
    Unknown,
    NotServed,
    Bad(u8, u64),
    ReadFailed,
    StartFailed,
    HoldFailed,
    Skipped,
    CalledOff,
    Stopped(u64),
    Memory,
    Missing,
}

/// What was seen of a lane: how its job ended, whether it won the cell, where it settled, and whether each child was reaped.
#[derive(Clone, Copy, Debug, PartialEq, Eq)]
pub struct Seen {
    pub end: Ended,
    pub won: Option<bool>,
    pub is_reaped: bool,
}

/// What lanes run under: the last reading of a clock that reads 0 and 400 first, the timeout, whether they wait for each other, and how many
/// children run at a time at most.
#[derive(Clone, Copy)]
pub struct Terms {
    pub last: u64,
    pub millis: Option<u64>,
    pub wait: bool,
    pub places: Option<u64>,
}

/// No timeout, and the first finding calls the others off.
pub const FREE: Terms = Terms {
    last: 400,
    millis: None,
    wait: false,
    places: None,
};

/// A timeout of a second that the third reading shows.
pub const STOPS: Terms = Terms {
    last: 1000,
    millis: Some(1000),
    wait: false,
    places: None,
};

/// The bmc problem of a text, over this many cycles, from 1 to 1,000.
pub fn problem_of(alloc: Global, text: &str, depth: u32) -> Result<Problem, Fail> {
    if depth == 0 || depth > 1000 {
        return Err(Fail::from("no such depth"));
    }
    let bytes = Vec::from_slice(alloc, text.as_bytes())?;
    match Problem::new(alloc, bytes, Mode::Bmc, Span::whole(depth))? {
        Ok(problem) => Ok(problem),
        Err(_) => Err(Fail::from("refused")),
    }
}

/// A child that writes this, and is ended by a signal.
pub fn script_of(alloc: Global, text: &str) -> Result<Script, AllocError> {
    Ok(Script {
        bytes: Vec::from_slice(alloc, text.as_bytes())?,
        stalls: None,
        gate: None,
        exit: Exit::Signal,
        faults: Vec::<CallFault>::new(alloc),
        cut: None,
        proof: Vec::new(alloc),
    })
}

/// How it ended.
pub fn end_of(end: &JobEnd<Finding>) -> Ended {
    match end {
        JobEnd::Found(finding) => Ended::Found(finding.answer()),
        JobEnd::Unknown => Ended::Unknown,
        JobEnd::NotServed => Ended::NotServed,
        JobEnd::Bad { no, at } => Ended::Bad(*no, *at),
        JobEnd::ReadFailed => Ended::ReadFailed,
        JobEnd::StartFailed => Ended::StartFailed,
        JobEnd::HoldFailed => Ended::HoldFailed,
        JobEnd::Skipped(_) => Ended::Skipped,
        JobEnd::CalledOff(_) => Ended::CalledOff,
        JobEnd::Stopped(reading) => Ended::Stopped(*reading),
        JobEnd::Memory => Ended::Memory,
    }
}

// Whether the reader of the first job won the cell, where it settled.
fn won(events: &[JobEvents<Finding>]) -> Option<bool> {
    let job = events.first()?;
    for event in job.reader() {
        if let LaneEvent::Settle { won } = event {
            return Some(*won);
        }
    }
    None
}

fn seen_lane<R: Wait + SystemClock>(report: &Report<Finding>, bay: &ScriptBay<'_, R>) -> Seen {
    Seen {
        end: match report.ends().first() {
            Some(end) => end_of(end),
            None => Ended::Missing,
        },
        won: won(report.events()),
        is_reaped: bay.started().iter().all(|start| start.given.is_some()),
    }
}

/// What was seen of a race: of its first two lanes, the verdict, and how many lanes found the job's answer and reaped each child.
#[derive(Drop)]
pub struct Course {
    pub two: [Option<Seen>; 2],
    pub verdict: Option<Verdict>,
    pub finders: usize,
}

// How many lanes found the job's answer and reaped each child.
fn finders<R: Wait + SystemClock>(raced: &Raced<ScriptBay<'_, R>, Finding>) -> usize {
    let mut count = 0usize;
    for (report, bay) in raced.reports.iter().zip(raced.bays.iter()) {
        let seen = seen_lane(report, bay);
        if matches!(seen.end, Ended::Found(_)) && seen.is_reaped {
            count = count.wrapping_add(1);
        }
    }
    count
}

// What was seen of the first two lanes.
fn seen_two<R: Wait + SystemClock>(raced: &Raced<ScriptBay<'_, R>, Finding>) -> [Option<Seen>; 2] {
    let mut two = [None; 2];
    for lane in 0..2 {
        if let (Some(report), Some(bay)) = (raced.reports.get(lane), raced.bays.get(lane)) {
            two[lane] = Some(seen_lane(report, bay));
        }
    }
    two
}

fn clock_of(alloc: Global, last: u64) -> Result<ListClock, AllocError> {
    let mut readings = vec![in alloc; 0]?;
    readings.push(400)?;
    readings.push(last)?;
    Ok(ListClock::new(readings))
}

/// The kinds of engine lines that are tried.
#[derive(Clone, Copy)]
pub enum Kind {
    Sat,
    Lrat,
    Proof,
    ProofBinary,
    Net,
}

/// The words of a `net` line.
pub fn net_words(alloc: Global) -> Result<Vec<String>, AllocError> {
    let mut words = Vec::new(alloc);
    for word in ["net", "host:1", "--conflicts", "7"] {
        words.push(String::from_str(alloc, word)?)?;
    }
    Ok(words)
}

fn engine_of(alloc: Global, kind: Kind) -> Result<Engine, AllocError> {
    match kind {
        Kind::Sat => Ok(Engine::Sat(None)),
        Kind::Lrat => Ok(Engine::Lrat(Words::new(Vec::new(alloc)))),
        Kind::Proof => Ok(Engine::Proof(Words::new(Vec::new(alloc)))),
        Kind::ProofBinary => Ok(Engine::ProofBinary(Words::new(Vec::new(alloc)))),
        Kind::Net => Ok(Engine::Net(Words::new(net_words(alloc)?))),
    }
}

/// This many engines of a kind.
pub fn engines_of(alloc: Global, kind: Kind, lanes: u32) -> Result<Vec<Engine>, AllocError> {
    let mut engines = Vec::new(alloc);
    for _ in 0..lanes {
        engines.push(engine_of(alloc, kind)?)?;
    }
    Ok(engines)
}

fn give_back<Y: Yard>(yard: &mut Y, mut bays: Vec<Y::Bay>) {
    while let Some(bay) = bays.pop() {
        yard.back(bay);
    }
    bays.destroy_empty();
}

fn bays_of<Y: Yard>(alloc: Global, yard: &mut Y, lanes: u32) -> Result<Vec<Y::Bay>, Fail>
    ensures { IfOk result (λ bays. length bays.items ≡ lanes) }
{
    let mut bays = Vec::with_capacity(alloc, lanes as usize)?;
    for lane in 0..lanes {
        match yard.bay(alloc, 0, lane) {
            Ok(bay) => bays.push_reserved(bay),
            Err(_) => {
                give_back(yard, bays);
                return Err(Fail::from("no bay"));
            }
        }
    }
    Ok(bays)
}

// Races the lanes of these bays over one job. Where memory runs out, the bays go back to their yard.
fn race_bays<R: Threads + Wait + Sync, Y: Yard, C: Clock, M: LaneFactory<Finding> + Sync>(
    rt: &R,
    alloc: Global,
    yard: &mut Y,
    factory: &M,
    cells: &Cells<Finding>,
    clock: &C,
    terms: Terms,
    bays: Vec<Y::Bay>,
    allowance: &mut Allowance<'_>,
) -> Option<Raced<Y::Bay, Finding>>
    requires cells { length cells.now ≡ 1 }
    requires few { length bays.items < 2 ^ 32 }
{
    let start = clock.now();
    let task = Task {
        factory,
        cells,
        clock,
        mode: Mode::Bmc,
        limit: Limit {
            start,
            millis: terms.millis,
            wait: terms.wait,
        },
    };
    match fresh_lanes(alloc, cells, 1, bays, allowance) {
        Ok(fresh) => Some(race_fresh(rt, alloc, &task, fresh)),
        Err(bays) => {
            give_back(yard, bays);
            None
        }
    }
}

// Races these lanes in these bays under the allowance of the terms.
fn race_under<R: Threads + Wait + Sync, Y: Yard, C: Clock, M: LaneFactory<Finding> + Sync>(
    rt: &R,
    alloc: Global,
    yard: &mut Y,
    factory: &M,
    cells: &Cells<Finding>,
    clock: &C,
    terms: Terms,
    bays: Vec<Y::Bay>,
) -> Option<Raced<Y::Bay, Finding>>
    requires cells { length cells.now ≡ 1 }
    requires few { length bays.items < 2 ^ 32 }
{
    let Some(places) = terms.places else {
        let mut alone = Allowance::none();
        let raced = race_bays(
            rt, alloc, yard, factory, cells, clock, terms, bays, &mut alone,
        );
        alone.end();
        return raced;
    };
    let Ok((pool, seat)) = Pool::new(alloc, places) else {
        give_back(yard, bays);
        return None;
    };
    let mut allowance = Allowance::of(&pool, seat);
    let raced = race_bays(
        rt,
        alloc,
        yard,
        factory,
        cells,
        clock,
        terms,
        bays,
        &mut allowance,
    );
    allowance.end();
    raced
}

fn course_of<R: Wait + SystemClock>(raced: &Raced<ScriptBay<'_, R>, Finding>) -> Course {
    let answer = answer_among(&raced.reports, JobName::Base(0));
    Course {
        two: seen_two(raced),
        verdict: decide(Mode::Bmc, &[answer]),
        finders: finders(raced),
    }
}

/// Races these lanes in bays of a yard of scripts.
pub fn race_over<R: Threads + Wait + SystemClock + Sync, M: LaneFactory<Finding> + Sync>(
    rt: &R,
    alloc: Global,
    factory: &M,
    lanes: u32,
    cells: &Cells<Finding>,
    terms: Terms,
    scripts: &[Scripted],
    other: &Script,
) -> Result<Course, Fail>
    requires cells { length cells.now ≡ 1 }
{
    let clock = clock_of(alloc, terms.last)?;
    let stage = Stage::new(alloc);
    let mut yard = ScriptYard::new(rt, alloc, &stage, scripts, other);
    let bays = bays_of(alloc, &mut yard, lanes)?;
    match race_under(rt, alloc, &mut yard, factory, cells, &clock, terms, bays) {
        Some(raced) => Ok(course_of(&raced)),
        None => Err(Fail::from("out of memory")),
    }
}

/// Races this many lanes of a kind over these scripts, lanes without one of their own over the other script.
pub fn raced<R: Threads + Wait + SystemClock + Sync>(
    rt: &R,
    alloc: Global,
    problem: &Problem,
    kind: Kind,
    lanes: u32,
    terms: Terms,
    scripts: &[Scripted],
    other: &Script,
) -> Result<Course, Fail> {
    let engines = engines_of(alloc, kind, lanes)?;
    let factory = ProblemLanes {
        problem,
        engines: &engines,
        folder: "t",
    };
    let cells = Cells::new(alloc, 1)?;
    race_over(rt, alloc, &factory, lanes, &cells, terms, scripts, other)
}
