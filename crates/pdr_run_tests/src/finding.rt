// What is found of small pairs.

use crate::running::{output, run};
use inv_judge::{InvJudge, InvOutcome};
use pair_reader::read_pair;
use std::alloc::Global;
use std::test::Fail;

// Pairs in which no run breaks an assertion.
const HOLDS: [&str; 7] = [
    // A bit that keeps its 0.
    "c bit 1 2 2\nc start -2\nc next 1\nc bad 2\np cnf 2 1\n1 0\n",
    // No assertion.
    "c start 1\nc next 1\nc bad -1\np cnf 1 1\n1 0\n",
    // No start.
    "c bit 1 2 -2\nc start -1\nc next 1\nc bad 2\np cnf 2 1\n1 0\n",
    // No second cycle.
    "c bit 1 2 -2\nc start -2\nc next -1\nc bad 2\np cnf 2 1\n1 0\n",
    // A bit that becomes an input, which is 0 by an assumption.
    "c bit 1 2 3\nc start -2\nc next -3\nc bad 2\np cnf 3 1\n1 0\n",
    // Two bits that become one input, and may not differ.
    "c bit 1 2 4\nc bit 2 3 4\nc start 6\nc next 1\nc bad 5\np cnf 6 8\n1 0\n\
-5 2 3 0\n-5 -2 -3 0\n5 -2 3 0\n5 2 -3 0\n-6 -2 0\n-6 -3 0\n6 2 3 0\n",
    // A counter modulo 5 that may not reach 7, to which 5 and 6 lead.
    "c bit 1 2 5\nc bit 2 3 6\nc bit 3 4 7\nc start 9\nc next 1\nc bad 8\np cnf 9 24\n1 0\n\
-5 -2 0\n-5 -4 3 0\n5 2 4 0\n5 2 -3 0\n-6 2 3 0\n-6 -2 -3 0\n6 -2 3 0\n6 2 -3 0\n\
7 4 -3 -2 0\n7 -4 3 -2 0\n7 -4 -3 2 0\n-7 4 3 0\n-7 4 2 0\n-7 3 2 0\n-7 -4 -3 -2 0\n\
-8 2 0\n-8 3 0\n-8 4 0\n8 -2 -3 -4 0\n-9 -2 0\n-9 -3 0\n-9 -4 0\n9 2 3 4 0\n",
];

// The length of the run that is found to break an assertion, and a pair.
const BREAKS: [(usize, &str); 5] = [
    // A start breaks it.
    (1, "c start 1\nc next 1\nc bad 1\np cnf 1 1\n1 0\n"),
    // So does one of two starts.
    (
        1,
        "c bit 1 2 2\nc start 1\nc next 1\nc bad 2\np cnf 2 1\n1 0\n",
    ),
    // A bit that turns.
    (
        2,
        "c bit 1 2 -2\nc start -2\nc next 1\nc bad 2\np cnf 2 1\n1 0\n",
    ),
    // A bit that becomes an input.
    (
        2,
        "c bit 1 2 3\nc start -2\nc next 1\nc bad 2\np cnf 3 1\n1 0\n",
    ),
    // A counter modulo 5 that may not reach 4.
    (
        5,
        "c bit 1 2 5\nc bit 2 3 6\nc bit 3 4 7\nc start 9\nc next 1\nc bad 8\np cnf 9 24\n1 0\n\
-5 -2 0\n-5 -4 3 0\n5 2 4 0\n5 2 -3 0\n-6 2 3 0\n-6 -2 -3 0\n6 -2 3 0\n6 2 -3 0\n\
7 4 -3 -2 0\n7 -4 3 -2 0\n7 -4 -3 2 0\n-7 4 3 0\n-7 4 2 0\n-7 3 2 0\n-7 -4 -3 -2 0\n\
-8 -2 0\n-8 -3 0\n-8 4 0\n8 2 3 -4 0\n-9 -2 0\n-9 -3 0\n-9 -4 0\n9 2 3 4 0\n",
    ),
];

// More than any of these pairs takes.
const WORDS: &str = "--conflicts 100000 f.cnf";

// What a stream is judged as for the pair of a file.
fn outcome_of(alloc: Global, file: &str, stream: &[u8]) -> Result<InvOutcome, Fail> {
    let Ok(pair) = read_pair(alloc, file.as_bytes())? else {
        return Err(Fail::from("no pair"));
    };
    let mut judge = InvJudge::new(alloc, pair, 1 << 20);
    judge.feed(stream)?;
    let outcome = judge.end()?;
    Ok(outcome)
}

// needs the search
#[test]
fn finds_invariants(rt: HostRuntime) -> Result<(), Fail> {
    for file in HOLDS {
        let (exit, sink) = run(rt.alloc(), WORDS, file, output(rt.alloc(), 1 << 20)?)?;
        assert_eq!(rt; exit, 20, "{file}");
        let outcome = outcome_of(rt.alloc(), file, sink.bytes())?;
        assert_eq!(rt; outcome, InvOutcome::Found, "{file}");
    }
    Ok(())
}

// needs the search
#[test]
fn finds_runs(rt: HostRuntime) -> Result<(), Fail> {
    for (length, file) in BREAKS {
        let (exit, sink) = run(rt.alloc(), WORDS, file, output(rt.alloc(), 100)?)?;
        assert_eq!(rt; exit, 0, "{file}");
        let text = format!(in rt.alloc(); "c an assertion breaks at length {length}\ns UNKNOWN\n")?;
        assert_eq!(rt; sink.bytes(), text.as_bytes(), "{file}");
    }
    Ok(())
}
