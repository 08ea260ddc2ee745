// Hinted streams of the engine, judged.

use super::freezing::by_dice;
use super::solving::PIGEONS;
use cdcl_run::run_engine;
use cert_judge::{Judge, Outcome, StreamKind};
use cnf_form::{Formula, read_dimacs, write_dimacs};
use net_link::MemDoor;
use sby_edge::{Files, MemFiles, MemSink};
use std::alloc::{AllocError, Global};
use std::test::Fail;

// The exit status and the hinted stream for a formula, within this many conflicts.
fn run(alloc: Global, content: &[u8], conflicts: u64) -> Result<(u8, MemSink), Fail> {
    let mut words = Vec::new(alloc);
    words.push(String::from_str(alloc, "--hints")?)?;
    words.push(String::from_str(alloc, "--conflicts")?)?;
    words.push(format!(in alloc; "{conflicts}")?)?;
    words.push(String::from_str(alloc, "f.cnf")?)?;
    let mut files = MemFiles::new(alloc, Vec::new(alloc));
    if files.put(alloc, "f.cnf", content).is_err() {
        return Err(Fail::from("no file"));
    }
    let mut sink = MemSink::new(alloc, 1 << 26, Vec::new(alloc))?;
    let mut door = MemDoor::new(alloc, Vec::new(alloc), Vec::new(alloc));
    let exit = run_engine(alloc, &words, &mut files, &mut sink, &mut door);
    Ok((exit, sink))
}

fn outcome_by(judge: &mut Judge<Formula>, stream: &[u8]) -> Result<Outcome, AllocError> {
    match judge.feed(stream)? {
        Some(outcome) => Ok(outcome),
        None => judge.end(),
    }
}

// What a stream is judged as.
fn outcome_of(
    alloc: Global,
    formula: &Formula,
    kind: StreamKind,
    stream: &[u8],
) -> Result<Outcome, AllocError> {
    let mut judge = Judge::new(alloc, formula.copy(alloc)?, kind, 1 << 32)?;
    outcome_by(&mut judge, stream)
}

// What a stream is judged as, in words.
pub(crate) fn judged(
    alloc: Global,
    formula: &Formula,
    kind: StreamKind,
    stream: &[u8],
) -> Result<String, AllocError> {
    match outcome_of(alloc, formula, kind, stream)? {
        Outcome::Refuted => String::from_str(alloc, "Refuted"),
        Outcome::Satisfied => String::from_str(alloc, "Satisfied"),
        Outcome::Unknown => String::from_str(alloc, "Unknown"),
        Outcome::Bad(bad) => format!(in alloc; "{:?} at {}", bad.kind, bad.at),
    }
}

// The exit status of the engine, and what its stream is judged as.
fn answer(alloc: Global, formula: &Formula, conflicts: u64) -> Result<(u8, String), Fail> {
    let text = write_dimacs(alloc, formula)?;
    let (exit, sink) = run(alloc, &text, conflicts)?;
    Ok((
        exit,
        judged(alloc, formula, StreamKind::Lrat, sink.bytes())?,
    ))
}

pub(crate) fn read(alloc: Global, text: &str) -> Result<Formula, Fail> {
    match read_dimacs(alloc, text.as_bytes())? {
        Ok(formula) => Ok(formula),
        Err(_) => Err(Fail::from("no formula")),
    }
}

// The fact that 1 is true, by the first clause; the empty clause, by the fact and the second. Tables for all variables of the second
// header would take gigabytes.
#[test]
fn hinted_lines_are_written(rt: HostRuntime) -> Result<(), Fail> {
    for text in ["p cnf 1 2\n1 0\n-1 0\n", "p cnf 134217728 2\n1 0\n-1 0\n"] {
        let (exit, sink) = run(rt.alloc(), text.as_bytes(), 9)?;
        assert_eq!(rt; exit, 20);
        let stream = str::from_utf8(sink.bytes()).unwrap_or("?");
        assert_eq!(rt; stream, "3 1 0 1 0\n4 0 3 2 0\ns UNSATISFIABLE\n");
    }
    Ok(())
}

#[test]
fn small_streams_are_certificates(rt: HostRuntime) -> Result<(), Fail> {
    let alloc = rt.alloc();
    for (text, exit, outcome) in [
        ("p cnf 2 4\n1 2 0\n-1 2 0\n1 -2 0\n-1 -2 0\n", 20, "Refuted"),
        ("p cnf 2 3\n1 2 0\n-1 2 0\n1 -2 0\n", 10, "Satisfied"),
        ("p cnf 0 0\n", 10, "Satisfied"),
        ("p cnf 1 2\n1 0\n0\n", 20, "Refuted"),
        ("p cnf 1 2\n1 0\n-1 0\n", 20, "Refuted"),
        ("p cnf 3 4\n1 0\n-1 2 0\n-2 3 0\n-1 -3 0\n", 20, "Refuted"),
        (PIGEONS, 20, "Refuted"),
        ("p cnf 1000 1\n-3 0\n", 10, "Satisfied"),
    ] {
        let formula = read(alloc, text)?;
        let (found, judged) = answer(alloc, &formula, 1_000_000)?;
        assert_eq!(rt; (found, judged.as_str()), (exit, outcome), "{text}");
    }
    Ok(())
}

#[test]
fn spent_budgets_are_unknown(rt: HostRuntime) -> Result<(), Fail> {
    let formula = read(rt.alloc(), PIGEONS)?;
    for budget in 1..5 {
        let (exit, judged) = answer(rt.alloc(), &formula, budget)?;
        assert_eq!(rt; (exit, judged.as_str()), (0, "Unknown"));
    }
    Ok(())
}

// Deletions and frozen clauses too.
#[test]
fn a_long_stream_is_a_certificate(rt: HostRuntime) -> Result<(), Fail> {
    let formula = by_dice(rt.alloc(), 800)?;
    let (exit, judged) = answer(rt.alloc(), &formula, 1_000_000)?;
    assert_eq!(rt; (exit, judged.as_str()), (20, "Refuted"));
    Ok(())
}
