// Two lanes beside each other.

ghost use Rattle.std.specs.Prelude.{◌<◌};

use super::tests::{Ended, FREE, Kind, STOPS, Seen, TURNS, Terms, problem_of, raced, script_of};
use sby_edge::{Call, CallFault, Gate, Script, Scripted};
use sby_terms::{Answer, JobName, Verdict};
use std::alloc::{AllocError, Global};
use std::sync::Wait;
use std::test::Fail;
use std::thread::Threads;
use std::time::Clock as SystemClock;

// What was seen of two lanes, and the verdict.
#[derive(Clone, Copy)]
struct Pair {
    first: Seen,
    second: Seen,
    verdict: Option<Verdict>,
}

// The script of a lane.
fn of_lane(lane: u32, script: Script) -> Scripted {
    Scripted {
        task: 0,
        lane,
        job: JobName::Base(0),
        script,
    }
}

// A script that waits until the child of the other of two lanes is live, and is `s UNKNOWN` if it never is.
fn gated(alloc: Global, lane: u32, text: &str) -> Result<Scripted, AllocError>
    requires { lane < 2 }
{
    let gate = Gate {
        task: None,
        lane: 1 - lane,
        turns: 10_000,
        instead: Vec::from_slice(alloc, b"s UNKNOWN\n")?,
    };
    Ok(of_lane(
        lane,
        Script {
            gate: Some(gate),
            ..script_of(alloc, text)?
        },
    ))
}

// Each of two lanes waits for the other, and then finds, or the second doesn't.
fn both_gated(alloc: Global, second: &str) -> Result<Vec<Scripted>, AllocError> {
    let mut scripts = Vec::new(alloc);
    scripts.push(gated(alloc, 0, "0\n")?)?;
    scripts.push(gated(alloc, 1, second)?)?;
    Ok(scripts)
}

// A script that stalls in mid-stream.
fn stalling(alloc: Global, lane: u32) -> Result<Scripted, AllocError> {
    let mut script = script_of(alloc, "c half\n")?;
    script.stalls = Some(7);
    Ok(of_lane(lane, script))
}

// The first lanes, this many, stall in mid-stream.
fn first_stall(alloc: Global, lanes: u32) -> Result<Vec<Scripted>, AllocError> {
    let mut scripts = Vec::new(alloc);
    for lane in 0..lanes {
        scripts.push(stalling(alloc, lane)?)?;
    }
    Ok(scripts)
}

// The first lane's child does not start.
fn first_fails(alloc: Global) -> Result<Vec<Scripted>, AllocError> {
    let mut script = script_of(alloc, "0\n")?;
    let fault = CallFault {
        call: Call::Start,
        nth: 1,
    };
    script.faults.push(fault)?;
    let mut scripts = Vec::new(alloc);
    scripts.push(of_lane(0, script))?;
    Ok(scripts)
}

// What was seen of two lanes over these scripts, a lane without one of its own over the other text.
fn paired<R: Threads + Wait + SystemClock + Sync>(
    rt: &R,
    alloc: Global,
    terms: Terms,
    scripts: &[Scripted],
    other: &str,
) -> Result<Pair, Fail> {
    let problem = problem_of(alloc, TURNS, 1)?;
    let other = script_of(alloc, other)?;
    let course = raced(rt, alloc, &problem, Kind::Sat, 2, terms, scripts, &other)?;
    let verdict = course.verdict;
    match (course.two[0], course.two[1]) {
        (Some(first), Some(second)) => Ok(Pair {
            first,
            second,
            verdict,
        }),
        _ => Err(Fail::from("no such lane")),
    }
}

fn are_reaped(pair: &Pair) -> bool {
    pair.first.is_reaped && pair.second.is_reaped
}

// Whether one of the lanes won the cell, and the other lost it.
fn is_won_once(pair: &Pair) -> bool {
    match (pair.first.won, pair.second.won) {
        (Some(first), Some(second)) => first != second,
        _ => false,
    }
}

// How a job ended. One that was called off may be skipped as well, by who comes first.
fn ended(seen: Seen) -> Ended {
    match seen.end {
        Ended::Skipped => Ended::CalledOff,
        end => end,
    }
}

// What the children of two lanes do.
#[derive(Clone, Copy)]
enum Scene {
    // Each waits for the other, and the first finds.
    Gated,
    // Each waits for the other, and finds.
    Meet,
    // The first stalls in mid-stream.
    Stalls,
    // Both do.
    BothStall,
    // Both do the same.
    Alike,
    // The first doesn't start.
    Fails,
}

fn scripts_of(alloc: Global, scene: Scene) -> Result<Vec<Scripted>, AllocError> {
    match scene {
        Scene::Gated => both_gated(alloc, "s UNKNOWN\n"),
        Scene::Meet => both_gated(alloc, "0\n"),
        Scene::Stalls => first_stall(alloc, 1),
        Scene::BothStall => first_stall(alloc, 2),
        Scene::Alike => Ok(Vec::new(alloc)),
        Scene::Fails => first_fails(alloc),
    }
}

// What two lanes do, and how their jobs end, the second's where that is certain; whether the children that start are reaped, and whether both
// find and one wins.
#[derive(Clone, Copy)]
struct Row {
    scene: Scene,
    terms: Terms,
    other: &'static str,
    first: Ended,
    second: Option<Ended>,
    are_reaped: bool,
    is_won_once: bool,
    verdict: Option<Verdict>,
}

const FOUND: Ended = Ended::Found(Answer::Unsat);

const ROWS: [Row; 8] = [
    Row {
        scene: Scene::Gated,
        terms: FREE,
        other: "",
        first: FOUND,
        second: None,
        are_reaped: true,
        is_won_once: false,
        verdict: Some(Verdict::Pass),
    },
    Row {
        scene: Scene::Stalls,
        terms: Terms {
            last: 999,
            millis: Some(1000),
            ..FREE
        },
        other: "0\n",
        first: Ended::CalledOff,
        second: Some(FOUND),
        are_reaped: true,
        is_won_once: false,
        verdict: Some(Verdict::Pass),
    },
    Row {
        scene: Scene::Alike,
        terms: Terms { wait: true, ..FREE },
        other: "0\n",
        first: FOUND,
        second: Some(FOUND),
        are_reaped: true,
        is_won_once: true,
        verdict: Some(Verdict::Pass),
    },
    Row {
        scene: Scene::Fails,
        terms: Terms { wait: true, ..FREE },
        other: "0\n",
        first: Ended::StartFailed,
        second: Some(FOUND),
        are_reaped: false,
        is_won_once: false,
        verdict: Some(Verdict::Pass),
    },
    // With two places both children are live at a time.
    Row {
        scene: Scene::Gated,
        terms: Terms {
            places: Some(2),
            ..FREE
        },
        other: "",
        first: FOUND,
        second: None,
        are_reaped: true,
        is_won_once: false,
        verdict: Some(Verdict::Pass),
    },
    Row {
        scene: Scene::Meet,
        terms: Terms {
            wait: true,
            places: Some(2),
            ..FREE
        },
        other: "",
        first: FOUND,
        second: Some(FOUND),
        are_reaped: true,
        is_won_once: true,
        verdict: Some(Verdict::Pass),
    },
    // With one they aren't.
    Row {
        scene: Scene::Gated,
        terms: Terms {
            places: Some(1),
            ..FREE
        },
        other: "",
        first: Ended::Unknown,
        second: Some(Ended::Unknown),
        are_reaped: true,
        is_won_once: false,
        verdict: None,
    },
    // A lane that waits for a place is stopped like one that has it.
    Row {
        scene: Scene::BothStall,
        terms: Terms {
            places: Some(1),
            ..STOPS
        },
        other: "",
        first: Ended::Stopped(1000),
        second: Some(Ended::Stopped(1000)),
        are_reaped: true,
        is_won_once: false,
        verdict: None,
    },
];

// Whether two lanes end so.
fn ends_so(pair: &Pair, row: &Row) -> bool {
    let is_second = match row.second {
        Some(end) => ended(pair.second) == end,
        None => true,
    };
    ended(pair.first) == row.first
        && is_second
        && are_reaped(pair) == row.are_reaped
        && is_won_once(pair) == row.is_won_once
        && pair.verdict == row.verdict
}

#[test]
fn lanes_run_beside_each_other(rt: HostRuntime) -> Result<(), Fail> {
    for row in ROWS {
        let scripts = scripts_of(rt.alloc(), row.scene)?;
        let pair = paired(&rt, rt.alloc(), row.terms, &scripts, row.other)?;
        assert!(rt; ends_so(&pair, &row));
    }
    Ok(())
}
