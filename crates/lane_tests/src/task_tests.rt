// Whole tasks, from the bays of a yard to what their lanes report.

ghost use Rattle.std.specs.Prelude.{None};

use super::tests::{Ended, Kind, TURNS, end_of, engines_of, problem_of, script_of};
use judge::{Finding, Problem};
use race_core::Report;
use sby_edge::{
    Call, CallFault, Clock, Fail as EdgeFail, Files, Got, ListClock, Script, ScriptYard, Scripted,
    Source, Stage, Yard,
};
use sby_terms::{Answer, Engine, JobName};
use std::alloc::{AllocError, Global};
use std::sync::Wait;
use std::test::Fail;
use std::thread::Threads;
use std::time::Clock as SystemClock;
use task_race::{Racing, RanLanes, race_task};

// This many lanes. The child of the first writes this, and may stall after it or not start at all; the others write the other text.
#[derive(Clone, Copy)]
struct Case {
    lanes: u32,
    first: &'static str,
    is_stalling: bool,
    is_failing: bool,
    other: &'static str,
    limit: Option<u64>,
}

// One lane, whose child finds.
const FINDS: Case = Case {
    lanes: 1,
    first: "0\n",
    is_stalling: false,
    is_failing: false,
    other: "s UNKNOWN\n",
    limit: None,
};

// One lane, whose child stalls in mid-stream.
const STALLS: Case = Case {
    first: "c half\n",
    is_stalling: true,
    ..FINDS
};

// The script of the first lane's child.
fn first_script(alloc: Global, case: &Case) -> Result<Script, AllocError> {
    let mut script = script_of(alloc, case.first)?;
    if case.is_stalling {
        script.stalls = Some(case.first.len() as u64);
    }
    if case.is_failing {
        let call = Call::Start;
        script.faults.push(CallFault { call, nth: 1 })?;
    }
    Ok(script)
}

// It alone, of the task with the number 7.
fn scripts_of(alloc: Global, case: &Case) -> Result<Vec<Scripted>, AllocError> {
    let mut scripts = Vec::new(alloc);
    scripts.push(Scripted {
        task: 7,
        lane: 0,
        job: JobName::Base(0),
        script: first_script(alloc, case)?,
    })?;
    Ok(scripts)
}

/// A clock that reads 5 first, then 400, and 1005 from then on.
pub fn clock_of(alloc: Global) -> Result<ListClock, AllocError> {
    let mut readings = vec![in alloc; 5]?;
    readings.push(400)?;
    readings.push(1005)?;
    Ok(ListClock::new(readings))
}

// A store that tells nothing, and of which each call fails. The children of scripts read no file.
#[derive(Drop)]
struct NoFiles {
    faults: u64,
}

impl Files for NoFiles {
    ghost told = { λ _. None };

    ghost faults = { λ f. f.faults };

    ghost blamed = { λ _. None };

    fn get(&mut self, _alloc: Global, _path: &str, _most: u64) -> Result<Got, EdgeFail> {
        self.faults = self.faults.saturating_add(1);
        Err(EdgeFail::Failed)
    }

    fn get_piece(
        &mut self,
        _alloc: Global,
        _path: &str,
        _from: u64,
        _most: usize,
    ) -> Result<Vec<u8>, EdgeFail> {
        self.faults = self.faults.saturating_add(1);
        Err(EdgeFail::Failed)
    }

    fn put(&mut self, _alloc: Global, _path: &str, _bytes: &[u8]) -> Result<(), EdgeFail> {
        self.faults = self.faults.saturating_add(1);
        Err(EdgeFail::Failed)
    }

    fn put_from<S: Source>(
        &mut self,
        _alloc: Global,
        _path: &str,
        _source: &mut S,
    ) -> Result<(), EdgeFail> {
        self.faults = self.faults.saturating_add(1);
        Err(EdgeFail::Failed)
    }
}

/// Races lanes.
pub fn race_over<R: Threads + Wait + Sync, Y: Yard, C: Clock>(
    rt: &R,
    alloc: Global,
    yard: &mut Y,
    clock: &C,
    racing: &Racing<'_>,
) -> Result<RanLanes, AllocError> {
    let files = NoFiles { faults: 0 };
    race_task(rt, alloc, &files, yard, clock, racing)
}

// Races these lanes over these scripts.
fn race_scripts<R: Threads + Wait + SystemClock + Sync>(
    rt: &R,
    alloc: Global,
    racing: &Racing<'_>,
    scripts: &[Scripted],
    other: &Script,
) -> Result<RanLanes, AllocError> {
    let clock = clock_of(alloc)?;
    let stage = Stage::new(alloc);
    let mut yard = ScriptYard::new(rt, alloc, &stage, scripts, other);
    race_over(rt, alloc, &mut yard, &clock, racing)
}

// Races the lanes of the case, as those of the task with the number 7.
fn ran<R: Threads + Wait + SystemClock + Sync>(
    rt: &R,
    alloc: Global,
    problem: &Problem,
    engines: &[Engine],
    case: &Case,
) -> Result<RanLanes, AllocError> {
    let scripts = scripts_of(alloc, case)?;
    let other = script_of(alloc, case.other)?;
    let racing = Racing {
        problem,
        engines,
        folder: "t",
        task: 7,
        wait: false,
        limit: case.limit,
    };
    race_scripts(rt, alloc, &racing, &scripts, &other)
}

// How a lane's job ended. A job that was called off may be skipped as well, by who comes first.
fn ended(reports: &[Report<Finding>], lane: usize) -> Option<Ended> {
    let report = reports.get(lane)?;
    let end = report.ends().first()?;
    match end_of(end) {
        Ended::Skipped => Some(Ended::CalledOff),
        ended => Some(ended),
    }
}

// A case, how the first two lanes' job ends, and when the lanes start.
type Row = (Case, Option<Ended>, Option<Ended>, Option<u64>);

const FOUND: Option<Ended> = Some(Ended::Found(Answer::Unsat));

const ROWS: [Row; 5] = [
    (FINDS, FOUND, None, None),
    (Case { lanes: 0, ..FINDS }, None, None, None),
    (
        Case {
            limit: Some(1000),
            ..STALLS
        },
        Some(Ended::Stopped(1005)),
        None,
        Some(5),
    ),
    (
        Case {
            is_failing: true,
            ..FINDS
        },
        Some(Ended::StartFailed),
        None,
        None,
    ),
    (
        Case {
            lanes: 2,
            other: "0\n",
            ..STALLS
        },
        Some(Ended::CalledOff),
        FOUND,
        None,
    ),
];

// Whether these are the ends of the first two lanes' jobs, and that the start.
fn is_ran(ran: &RanLanes, first: Option<Ended>, second: Option<Ended>, start: Option<u64>) -> bool {
    ran.start == start && ended(&ran.reports, 0) == first && ended(&ran.reports, 1) == second
}

#[test]
fn tasks_race_to_their_ends(rt: HostRuntime) -> Result<(), Fail> {
    let problem = problem_of(rt.alloc(), TURNS, 1)?;
    for (case, first, second, start) in ROWS {
        let engines = engines_of(rt.alloc(), Kind::Sat, case.lanes)?;
        let ran = ran(&rt, rt.alloc(), &problem, &engines, &case)?;
        assert!(rt; is_ran(&ran, first, second, start));
    }
    Ok(())
}
