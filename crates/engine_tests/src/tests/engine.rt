// The engine at work, over files and output in memory.

use super::hints::{judged, read};
use cdcl_run::run_engine;
use cert_judge::StreamKind;
use net_link::MemDoor;
use sby_edge::{Files, MemFiles, MemSink};
use std::alloc::{AllocError, Global};
use std::test::Fail;

fn words(alloc: Global, text: &str) -> Result<Vec<String>, AllocError> {
    let mut words = Vec::new(alloc);
    for word in text.split(' ') {
        words.push(String::from_str(alloc, word)?)?;
    }
    Ok(words)
}

// The exit status, and what was written, for a file f.cnf and a sink that fails at one call.
fn run(alloc: Global, asked: &str, content: &[u8], failing: u64) -> Result<(u8, MemSink), Fail> {
    let words = words(alloc, asked)?;
    let mut files = MemFiles::new(alloc, Vec::new(alloc));
    if files.put(alloc, "f.cnf", content).is_err() {
        return Err(Fail::from("no file"));
    }
    let mut sink = MemSink::new(alloc, 1 << 20, vec![in alloc; failing; 1]?)?;
    let mut door = MemDoor::new(alloc, Vec::new(alloc), Vec::new(alloc));
    let exit = run_engine(alloc, &words, &mut files, &mut sink, &mut door);
    Ok((exit, sink))
}

const SQUARE: &[u8] = b"p cnf 2 4\n1 2 0\n-1 2 0\n1 -2 0\n-1 -2 0\n";

#[test]
fn refutes(rt: HostRuntime) -> Result<(), Fail> {
    let (exit, sink) = run(rt.alloc(), "f.cnf", SQUARE, 0)?;
    assert_eq!(rt; exit, 20);
    assert!(rt; sink.bytes().ends_with(b"0\ns UNSATISFIABLE\n"));
    Ok(())
}

#[test]
fn knows_no_answer_within_a_budget(rt: HostRuntime) -> Result<(), Fail> {
    let (exit, sink) = run(rt.alloc(), "--conflicts 1 f.cnf", SQUARE, 0)?;
    assert_eq!(rt; exit, 0);
    assert!(rt; sink.bytes().ends_with(b"0\ns UNKNOWN\n"));
    Ok(())
}

#[test]
fn names_all_values(rt: HostRuntime) -> Result<(), Fail> {
    let text =
        b"p cnf 12 12\n1 0\n-2 0\n3 0\n-4 0\n5 0\n-6 0\n7 0\n-8 0\n9 0\n-10 0\n11 0\n-12 0\n";
    let (exit, sink) = run(rt.alloc(), "f.cnf", text, 0)?;
    assert_eq!(rt; exit, 10);
    assert_eq!(rt;
        sink.bytes(),
        b"s SATISFIABLE\nv 1 -2 3 -4 5 -6 7 -8 9 -10\nv 11 -12 0\n".as_slice()
    );
    let (exit, sink) = run(rt.alloc(), "f.cnf", b"p cnf 0 0\n", 0)?;
    assert_eq!(rt; exit, 10);
    assert_eq!(rt; sink.bytes(), b"s SATISFIABLE\nv 0\n".as_slice());
    Ok(())
}

// How many variables the values of a stream name from 1 on, one after the other, before 0; 0 where others stand among them.
fn named_in_order(stream: &str) -> u32 {
    let mut count = 0;
    for word in stream.split_ascii_whitespace() {
        let Ok(number) = word.parse::<i32>() else {
            continue;
        };
        match number.unsigned_abs() {
            0 => return count,
            var if var - 1 == count => count = var,
            _ => return 0,
        }
    }
    0
}

// The variables above the greatest of a clause.
#[test]
fn names_variables_of_the_header_alone(rt: HostRuntime) -> Result<(), Fail> {
    let alloc = rt.alloc();
    let text = "p cnf 1000 1\n-3 0\n";
    let (exit, sink) = run(alloc, "f.cnf", text.as_bytes(), 0)?;
    assert_eq!(rt; exit, 10);
    let stream = sink.bytes();
    assert_eq!(rt; named_in_order(str::from_utf8(stream).unwrap_or("?")), 1000);
    let outcome = judged(alloc, &read(alloc, text)?, StreamKind::Drup, stream)?;
    assert_eq!(rt; outcome.as_str(), "Satisfied");
    Ok(())
}

// Tables for all variables of the header would take gigabytes.
#[test]
fn a_header_of_most_variables_is_cheap(rt: HostRuntime) -> Result<(), Fail> {
    let text = b"p cnf 134217728 2\n1 0\n-1 0\n";
    let (exit, sink) = run(rt.alloc(), "f.cnf", text, 0)?;
    assert_eq!(rt; exit, 20);
    assert_eq!(rt; sink.bytes(), b"0\ns UNSATISFIABLE\n".as_slice());
    Ok(())
}

#[test]
fn tells_faults(rt: HostRuntime) -> Result<(), Fail> {
    for (asked, text, line) in [
        ("f.cnf", "p cnf 1 1\n2 0\n", "c fault: byte 10 Literal\n"),
        ("f.cnf", "p cnf 1\n", "c fault: byte 8 Header\n"),
        ("f.cnf", "p cnf 1 1\n", "c fault: byte 10 Count\n"),
        ("g.cnf", "", "c fault: file\n"),
        (
            "--conflicts 0 f.cnf",
            "",
            "c usage: cdcl_program [--conflicts n] FILE.cnf | cdcl_program --hints [--conflicts n] FILE.cnf | cdcl_program --serve HOST:PORT --count n\n",
        ),
    ] {
        let (exit, sink) = run(rt.alloc(), asked, text.as_bytes(), 0)?;
        assert_eq!(rt; exit, 1);
        assert_eq!(rt; sink.bytes(), line.as_bytes());
    }
    Ok(())
}

// A formula of many variables, whose values are more than one piece.
fn wide(alloc: Global) -> Result<Vec<u8>, AllocError> {
    Vec::from_slice(alloc, b"p cnf 20000 1\n1 0\n")
}

#[test]
fn ends_where_the_output_fails(rt: HostRuntime) -> Result<(), Fail> {
    let alloc = rt.alloc();
    let text = wide(alloc)?;
    let (exit, whole) = run(alloc, "f.cnf", &text, 0)?;
    assert_eq!(rt; exit, 10);
    assert!(rt; whole.bytes().len() > 65536);
    let (exit, sink) = run(alloc, "f.cnf", &text, 2)?;
    assert_eq!(rt; exit, 1);
    assert_eq!(rt; sink.bytes().len(), 65536);
    assert!(rt; whole.bytes().starts_with(sink.bytes()));
    let (exit, sink) = run(alloc, "f.cnf", SQUARE, 1)?;
    assert_eq!(rt; exit, 1);
    assert!(rt; sink.bytes().is_empty());
    Ok(())
}
