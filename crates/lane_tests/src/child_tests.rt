// What one child may send and leave, and the calls that may fail on it.

use super::tests::{EMPTY, Ended, FREE, Kind, STOPS, TURNS, Terms, problem_of, raced, script_of};
use judge::Problem;
use sby_edge::{Call, CallFault, Script, Scripted};
use sby_terms::Answer;
use std::alloc::{AllocError, Global};
use std::sync::Wait;
use std::test::Fail;
use std::thread::Threads;
use std::time::Clock as SystemClock;

// A job, and the lane's child: what it writes, where it stalls, the call that fails on it the first time, and the proof file that it
// leaves; how the job ends, and whether the child is reaped.
#[derive(Clone, Copy)]
struct Row {
    design: &'static str,
    depth: u32,
    kind: Kind,
    terms: Terms,
    text: &'static str,
    stalls: Option<u64>,
    failing: Option<Call>,
    proof: &'static [u8],
    end: Ended,
    is_reaped: bool,
}

// A job that is Unsat.
const TURN: Row = Row {
    design: TURNS,
    depth: 1,
    kind: Kind::Sat,
    terms: FREE,
    text: "0\n",
    stalls: None,
    failing: None,
    proof: b"",
    end: Ended::Found(Answer::Unsat),
    is_reaped: true,
};

// One with the empty clause.
const NONE: Row = Row {
    design: EMPTY,
    depth: 5,
    ..TURN
};

// A child that stalls, of a lane that is stopped then.
const STALLED: Row = Row {
    terms: STOPS,
    text: "c a\nc b\n-1 0\n0\n",
    end: Ended::Stopped(1000),
    ..TURN
};

// One on which a call may fail.
const CALLED: Row = Row {
    terms: STOPS,
    ..TURN
};

// The stream of an engine that is reached over a connection.
const SENT: Row = Row {
    kind: Kind::Net,
    ..TURN
};

// A hinted stream.
const HINTED: Row = Row {
    kind: Kind::Lrat,
    ..NONE
};

// An output that leaves it to the proof file.
const FILED: Row = Row {
    kind: Kind::Proof,
    text: "s UNSATISFIABLE\n",
    ..TURN
};

const BINARY: Row = Row {
    kind: Kind::ProofBinary,
    ..FILED
};

// Streams over one cycle and over two.
const STREAMS: [Row; 11] = [
    Row {
        text: "",
        end: Ended::Bad(48, 0),
        ..TURN
    },
    Row {
        text: "c a\n",
        end: Ended::Bad(48, 4),
        ..TURN
    },
    Row { text: "0", ..TURN },
    Row {
        text: " \t\r\n0",
        ..TURN
    },
    Row {
        text: "0\n@@@ rubbish",
        ..TURN
    },
    Row {
        text: "s UNKNOWN x\n",
        end: Ended::Bad(48, 12),
        ..TURN
    },
    Row {
        text: "x",
        end: Ended::Bad(41, 0),
        ..TURN
    },
    Row {
        text: "vv 0",
        end: Ended::Bad(41, 1),
        ..TURN
    },
    Row {
        depth: 2,
        text: "0 1",
        end: Ended::Bad(44, 0),
        ..TURN
    },
    SENT,
    Row {
        text: "c a\n",
        end: Ended::Bad(48, 4),
        ..SENT
    },
];

// Streams over the job with the empty clause.
const CLAUSES: [Row; 10] = [
    Row {
        text: "0\n",
        ..NONE
    },
    Row {
        text: "2 0\n",
        end: Ended::Bad(42, 0),
        ..NONE
    },
    Row {
        text: "-0",
        end: Ended::Bad(42, 1),
        ..NONE
    },
    Row {
        text: "01",
        end: Ended::Bad(42, 1),
        ..NONE
    },
    Row {
        text: "1 1 0\n",
        end: Ended::Bad(43, 2),
        ..NONE
    },
    Row {
        text: "v 0\n",
        end: Ended::Bad(45, 1),
        ..NONE
    },
    Row {
        text: "2 0 1 0\n",
        ..HINTED
    },
    Row {
        text: "2 0 0\n",
        end: Ended::Bad(60, 0),
        ..HINTED
    },
    Row {
        text: "1 0 1 0\n",
        end: Ended::Bad(58, 0),
        ..HINTED
    },
    Row {
        text: "2 0 -1 0\n",
        end: Ended::Bad(59, 4),
        ..HINTED
    },
];

// Children that stall, and calls that fail.
const CALLS: [Row; 13] = [
    Row {
        stalls: Some(4),
        ..STALLED
    },
    Row {
        stalls: Some(8),
        ..STALLED
    },
    Row {
        stalls: Some(13),
        ..STALLED
    },
    Row {
        stalls: Some(14),
        end: Ended::Found(Answer::Unsat),
        ..STALLED
    },
    Row {
        stalls: Some(15),
        end: Ended::Found(Answer::Unsat),
        ..STALLED
    },
    Row {
        failing: Some(Call::Start),
        end: Ended::StartFailed,
        is_reaped: false,
        ..CALLED
    },
    Row {
        failing: Some(Call::Read),
        end: Ended::ReadFailed,
        ..CALLED
    },
    Row {
        text: "",
        stalls: Some(0),
        failing: Some(Call::Poll),
        end: Ended::HoldFailed,
        ..CALLED
    },
    Row {
        text: "",
        stalls: Some(0),
        failing: Some(Call::Kill),
        end: Ended::Stopped(1000),
        ..CALLED
    },
    Row {
        text: "",
        stalls: Some(0),
        failing: Some(Call::Reap),
        end: Ended::Stopped(1000),
        ..CALLED
    },
    Row {
        failing: Some(Call::Poll),
        ..CALLED
    },
    Row {
        failing: Some(Call::Kill),
        ..CALLED
    },
    Row {
        failing: Some(Call::Reap),
        ..CALLED
    },
];

// Outputs with proof files.
const FILES: [Row; 8] = [
    FILED,
    Row {
        depth: 2,
        end: Ended::Bad(48, 0),
        ..FILED
    },
    Row {
        text: "s UNKNOWN\n",
        end: Ended::Unknown,
        ..FILED
    },
    Row {
        proof: b"v 1 0\n",
        end: Ended::Bad(41, 0),
        ..FILED
    },
    Row {
        terms: STOPS,
        stalls: Some(3),
        end: Ended::Stopped(1000),
        ..FILED
    },
    Row {
        proof: &[0x61, 0x03, 0x00, 0x61, 0x00],
        ..BINARY
    },
    Row {
        proof: b"b",
        end: Ended::Bad(41, 0),
        ..BINARY
    },
    Row {
        proof: &[0x61, 0x01],
        end: Ended::Bad(42, 1),
        ..BINARY
    },
];

// The script of the child, cut into two at this byte.
fn script_at(alloc: Global, row: &Row, cut: u64) -> Result<Script, AllocError> {
    let mut script = script_of(alloc, row.text)?;
    script.stalls = row.stalls;
    script.cut = Some(cut);
    script.proof.extend_from_slice(row.proof)?;
    if let Some(call) = row.failing {
        script.faults.push(CallFault { call, nth: 1 })?;
    }
    Ok(script)
}

// Whether the job ends so over this script.
fn ends_so<R: Threads + Wait + SystemClock + Sync>(
    rt: &R,
    alloc: Global,
    problem: &Problem,
    row: &Row,
    script: &Script,
) -> Result<bool, Fail> {
    let scripts = Vec::<Scripted>::new(alloc);
    let course = raced(rt, alloc, problem, row.kind, 1, row.terms, &scripts, script)?;
    match course.two[0] {
        Some(seen) => Ok(seen.end == row.end && seen.is_reaped == row.is_reaped),
        None => Ok(false),
    }
}

// Whether it ends so wherever the script is cut into two. A cut at 0 or after the end cuts nothing.
fn always_ends<R: Threads + Wait + SystemClock + Sync>(
    rt: &R,
    alloc: Global,
    row: &Row,
) -> Result<bool, Fail> {
    let problem = problem_of(alloc, row.design, row.depth)?;
    for cut in 0..16u64 {
        let script = script_at(alloc, row, cut)?;
        if !ends_so(rt, alloc, &problem, row, &script)? {
            return Ok(false);
        }
    }
    Ok(true)
}

// What the child writes in the first of these rows that doesn't hold.
fn failing_row<R: Threads + Wait + SystemClock + Sync>(
    rt: &R,
    alloc: Global,
    rows: &[Row],
) -> Result<Option<&'static str>, Fail> {
    for row in rows {
        if !always_ends(rt, alloc, row)? {
            return Ok(Some(row.text));
        }
    }
    Ok(None)
}

#[test]
fn streams_over_cycles(rt: HostRuntime) -> Result<(), Fail> {
    assert_eq!(rt; failing_row(&rt, rt.alloc(), &STREAMS)?, None);
    Ok(())
}

#[test]
fn streams_over_an_empty_clause(rt: HostRuntime) -> Result<(), Fail> {
    assert_eq!(rt; failing_row(&rt, rt.alloc(), &CLAUSES)?, None);
    Ok(())
}

#[test]
fn stalled_children_and_failed_calls(rt: HostRuntime) -> Result<(), Fail> {
    assert_eq!(rt; failing_row(&rt, rt.alloc(), &CALLS)?, None);
    Ok(())
}

#[test]
fn proof_files(rt: HostRuntime) -> Result<(), Fail> {
    assert_eq!(rt; failing_row(&rt, rt.alloc(), &FILES)?, None);
    Ok(())
}
