// An engine that serves connections in memory.

use cdcl_run::run_engine;
use net_answer::NetPipe;
use net_link::{LinkScript, MemDoor, MemLink};
use sby_edge::{Files, MemFiles, MemSink, Pipe};
use std::alloc::{AllocError, Global};
use std::test::Fail;

const SQUARE: &[u8] = b"p cnf 2 4\n1 2 0\n-1 2 0\n1 -2 0\n-1 -2 0\n";

// The answer to bytes that are no request.
const REFUSAL: &[u8] = b"\0\0\0\x0fc fault: frame\n\0\0\0\0";

fn words(alloc: Global, text: &str) -> Result<Vec<String>, AllocError> {
    let mut words = Vec::new(alloc);
    for word in text.split(' ') {
        words.push(String::from_str(alloc, word)?)?;
    }
    Ok(words)
}

// The request for an answer to these bytes.
fn request(alloc: Global, budget: u64, job: &[u8]) -> Result<Vec<u8>, AllocError> {
    let mut bytes = Vec::from_slice(alloc, b"SBYJOB1\n")?;
    bytes.extend_from_slice(&budget.to_be_bytes())?;
    bytes.extend_from_slice(&(job.len() as u64).to_be_bytes())?;
    bytes.extend_from_slice(job)?;
    Ok(bytes)
}

// A link that carries these bytes, this many a call, and whose calls fail from this one on, counted from 1; 0 is none.
fn link(
    alloc: Global,
    bytes: Vec<u8>,
    most: usize,
    failing: u64,
) -> Result<LinkScript, AllocError> {
    let mut fails = Vec::new(alloc);
    if failing > 0 {
        for call in failing..failing.saturating_add(9) {
            fails.push(call)?;
        }
    }
    Ok(LinkScript {
        bytes,
        room: 1 << 20,
        most,
        failing: fails,
        failing_cuts: Vec::new(alloc),
    })
}

// The exit status, and the door after it, where these links come and these calls of the door fail. Nothing is written to the output.
fn serve(
    alloc: Global,
    count: usize,
    scripts: Vec<LinkScript>,
    failing: Vec<u64>,
) -> Result<(u8, MemDoor), Fail> {
    let text = format!(in alloc; "--serve 127.0.0.1:9 --count {count}")?;
    let words = words(alloc, text.as_str())?;
    let mut files = MemFiles::new(alloc, Vec::new(alloc));
    let mut sink = MemSink::new(alloc, 1 << 10, Vec::new(alloc))?;
    let mut door = MemDoor::new(alloc, scripts, failing);
    let exit = run_engine(alloc, &words, &mut files, &mut sink, &mut door);
    if sink.bytes().is_empty() {
        Ok((exit, door))
    } else {
        Err(Fail::from("something was written"))
    }
}

// The stream that a file of these bytes gives.
fn by_file(alloc: Global, budget: u64, job: &[u8]) -> Result<MemSink, Fail> {
    let text = format!(in alloc; "--conflicts {budget} f.cnf")?;
    let words = words(alloc, text.as_str())?;
    let mut files = MemFiles::new(alloc, Vec::new(alloc));
    if files.put(alloc, "f.cnf", job).is_err() {
        return Err(Fail::from("no file"));
    }
    let mut sink = MemSink::new(alloc, 1 << 20, Vec::new(alloc))?;
    let mut door = MemDoor::new(alloc, Vec::new(alloc), Vec::new(alloc));
    let _exit = run_engine(alloc, &words, &mut files, &mut sink, &mut door);
    Ok(sink)
}

// What a lane reads of an answer.
fn read(alloc: Global, answer: &[u8]) -> Result<Vec<u8>, Fail> {
    let script = link(alloc, Vec::from_slice(alloc, answer)?, 1 << 20, 0)?;
    let mut pipe = NetPipe::new(MemLink::new(alloc, &script)?, None);
    let mut stream = Vec::new(alloc);
    let mut buffer = [0u8; 4096];
    for _ in 0..1000 {
        match pipe.read(&mut buffer) {
            Ok(0) => return Ok(stream),
            Ok(count) => stream.extend_from_slice(&buffer[..count])?,
            Err(_) => return Err(Fail::from("not read")),
        }
    }
    Err(Fail::from("no end"))
}

#[test]
fn requests_are_answered_as_files_are(rt: HostRuntime) -> Result<(), Fail> {
    let alloc = rt.alloc();
    let mut values = String::from_str(alloc, "p cnf 20000 0\n")?;
    values.push_str("c\n")?;
    for (budget, job) in [
        (1, SQUARE),
        (9, SQUARE),
        (1, b"p cnf 1 1\n2 0\n".as_slice()),
        (1, b"".as_slice()),
        (1_000_000_000, values.as_bytes()),
    ] {
        for most in [1, 100_000] {
            let asked = request(alloc, budget, job)?;
            let scripts = vec![in alloc; link(alloc, asked, most, 0)?]?;
            let (exit, door) = serve(alloc, 1, scripts, Vec::new(alloc))?;
            assert_eq!(rt; (exit, door.came_back().len()), (0, 1));
            let back = &door.came_back()[0];
            assert_eq!(rt; back.faults(), 0);
            let stream = read(alloc, back.written())?;
            assert_eq!(rt; stream.as_slice(), by_file(alloc, budget, job)?.bytes());
        }
    }
    Ok(())
}

#[test]
fn a_request_within_one_conflict(rt: HostRuntime) -> Result<(), Fail> {
    let alloc = rt.alloc();
    let asked = request(alloc, 1, SQUARE)?;
    assert_eq!(rt; asked.len(), 62);
    let scripts = vec![in alloc; link(alloc, asked, 7, 0)?]?;
    let (exit, door) = serve(alloc, 1, scripts, Vec::new(alloc))?;
    assert_eq!(rt; (exit, door.came_back().len()), (0, 1));
    let stream = read(alloc, door.came_back()[0].written())?;
    assert!(rt; stream.ends_with(b"0\ns UNKNOWN\n"));
    Ok(())
}

#[test]
fn what_is_no_request_is_refused(rt: HostRuntime) -> Result<(), Fail> {
    let alloc = rt.alloc();
    let whole = request(alloc, 1, SQUARE)?;
    let mut scripts = Vec::new(alloc);
    for end in 0..whole.len() {
        let part = Vec::from_slice(alloc, &whole[..end])?;
        scripts.push(link(alloc, part, 5, 0)?)?;
    }
    for other in [b"SBY".as_slice(), b"SBYJOB2\n", b"GET / HTTP/1.1\r\n\r\n"] {
        scripts.push(link(alloc, Vec::from_slice(alloc, other)?, 100, 0)?)?;
    }
    for budget in [0, 1_000_000_001, u64::MAX] {
        scripts.push(link(alloc, request(alloc, budget, SQUARE)?, 100, 0)?)?;
    }
    let count = scripts.len();
    let (exit, door) = serve(alloc, count, scripts, Vec::new(alloc))?;
    assert_eq!(rt; (exit, door.came_back().len()), (0, count));
    for back in door.came_back() {
        assert_eq!(rt; (back.written(), back.faults()), (REFUSAL, 0));
    }
    Ok(())
}

#[test]
fn a_client_that_goes_away_leaves_the_others(rt: HostRuntime) -> Result<(), Fail> {
    let alloc = rt.alloc();
    let whole = by_file(alloc, 9, SQUARE)?;
    for failing in 1..9 {
        let mut scripts = Vec::new(alloc);
        scripts.push(link(alloc, request(alloc, 9, SQUARE)?, 100, failing)?)?;
        scripts.push(link(alloc, request(alloc, 9, SQUARE)?, 100, 0)?)?;
        let (exit, door) = serve(alloc, 2, scripts, Vec::new(alloc))?;
        assert_eq!(rt; (exit, door.came_back().len()), (0, 2));
        let gone = &door.came_back()[0];
        let stream = read(alloc, door.came_back()[1].written())?;
        assert_eq!(rt; stream.as_slice(), whole.bytes());
        assert_eq!(rt; door.came_back()[1].faults(), 0);
        if gone.faults() == 0 {
            assert_eq!(rt; gone.written(), door.came_back()[1].written());
        }
    }
    Ok(())
}

#[test]
fn a_door_that_fails_ends_it(rt: HostRuntime) -> Result<(), Fail> {
    let alloc = rt.alloc();
    for (failing, backs) in [(1, 0), (2, 0), (3, 1), (4, 2)] {
        let mut scripts = Vec::new(alloc);
        for _ in 0..2 {
            scripts.push(link(alloc, request(alloc, 1, SQUARE)?, 100, 0)?)?;
        }
        let (exit, door) = serve(alloc, 3, scripts, vec![in alloc; failing; 1]?)?;
        assert_eq!(rt; (exit, door.came_back().len()), (1, backs));
    }
    Ok(())
}
