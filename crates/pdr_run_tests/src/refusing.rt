// Calls that are refused, and budgets that are spent.

use crate::running::{output, run};
use std::test::Fail;

// A bit that keeps its 0.
const KEPT: &str = "c bit 1 2 2\nc start -2\nc next 1\nc bad 2\np cnf 2 1\n1 0\n";

#[test]
fn tells_why_it_refuses(rt: HostRuntime) -> Result<(), Fail> {
    let usage = "c usage: pdr_program [--conflicts n] FILE\n";
    for (asked, file, line) in [
        ("--conflicts 0 f.cnf", KEPT, usage),
        ("--conflicts 01 f.cnf", KEPT, usage),
        ("--conflicts 1000000001 f.cnf", KEPT, usage),
        ("--hints f.cnf", KEPT, usage),
        ("f.cnf f.cnf", KEPT, usage),
        ("g.cnf", KEPT, "c fault: file\n"),
        ("--conflicts", KEPT, "c fault: file\n"),
        ("f.cnf", "", "c fault: byte 0 Header\n"),
        (
            "f.cnf",
            "c start 1\nc next 1\nc bad 1\np cnf 1 1\n2 0\n",
            "c fault: byte 37 Literal\n",
        ),
        ("f.cnf", "p cnf 1 1\n", "c fault: byte 10 Count\n"),
        ("f.cnf", "p cnf 1 0\n", "c fault: pair\n"),
        (
            "--conflicts 1 f.cnf",
            "c next 1\nc start 1\nc bad 1\np cnf 1 0\n",
            "c fault: pair\n",
        ),
    ] {
        let (exit, sink) = run(rt.alloc(), asked, file, output(rt.alloc(), 100)?)?;
        assert_eq!(rt; exit, 1, "{asked}");
        assert_eq!(rt; sink.bytes(), line.as_bytes(), "{asked}");
    }
    Ok(())
}

const SPENT: &[u8] = b"c 0 conflicts in 1 queries\ns UNKNOWN\n";

#[test]
fn spends_a_budget_of_one_query(rt: HostRuntime) -> Result<(), Fail> {
    let (exit, sink) = run(
        rt.alloc(),
        "--conflicts 1 f.cnf",
        KEPT,
        output(rt.alloc(), 100)?,
    )?;
    assert_eq!(rt; exit, 0);
    assert_eq!(rt; sink.bytes(), SPENT);
    Ok(())
}

#[test]
fn ends_where_the_output_fails(rt: HostRuntime) -> Result<(), Fail> {
    for room in 0..SPENT.len() {
        let (exit, sink) = run(
            rt.alloc(),
            "--conflicts 1 f.cnf",
            KEPT,
            output(rt.alloc(), room)?,
        )?;
        assert_eq!(rt; exit, 1);
        assert_eq!(rt; sink.bytes(), SPENT.split_at(room).0);
    }
    Ok(())
}
