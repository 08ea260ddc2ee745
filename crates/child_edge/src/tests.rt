// The real outside: what stands in files, an output that nobody reads, and children.

use super::*;
use sby_edge::{
    Clock, Exit, Fail, Failed, Files, Got, Hold, Launch, Nothing, Pipe, Sink, Source, Yard,
};
use sby_terms::JobName;
use std::alloc::{AllocError, Global};
use std::io;
use std::io::PipeReader;
use std::os::fd::AsRawFd;
use std::os::unix::fs::symlink;
use std::test::Fail as Failure;

#[test]
fn files_are_put_and_got(rt: HostRuntime) -> Result<(), Failure> {
    let alloc = rt.alloc();
    let mut files = RealFiles::new(&rt);
    let path = "one/two/model.cnf";
    for content in [b"p cnf 1 1\n0\n".as_slice(), b"p cnf\n"] {
        assert!(rt; files.put(alloc, path, content).is_ok());
        let got = files.get(alloc, path, 100);
        match &got {
            Ok(Got::All(bytes)) => assert_eq!(rt; bytes.as_slice(), content),
            _ => assert!(rt; false),
        }
    }
    let got = files.get(alloc, path, 3);
    match &got {
        Ok(Got::Long(bytes)) => assert_eq!(rt; bytes.as_slice(), b"p cn".as_slice()),
        _ => assert!(rt; false),
    }
    assert_eq!(rt; files.faults, 0);
    assert!(rt; matches!(files.get(alloc, "three", 100), Err(Fail::Failed)));
    assert_eq!(rt; files.faults, 1);
    assert!(rt; matches!(files.put(alloc, "one/two", b"x"), Err(Fail::Failed)));
    assert_eq!(rt; files.faults, 2);
    match &files.blamed {
        Some(path) => assert_eq!(rt; path.as_str(), "one/two"),
        None => assert!(rt; false),
    }
    Ok(())
}

#[test]
fn a_failed_put_leaves_what_stood_there(rt: HostRuntime) -> Result<(), Failure> {
    let alloc = rt.alloc();
    let mut files = RealFiles::new(&rt);
    assert!(rt; files.put(alloc, "late/trace.vcd", b"whole").is_ok());
    // Where the new content is written first, there is a folder.
    assert!(rt; files.put(alloc, "late/trace.vcd.part/x", b"").is_ok());
    assert!(rt;
        matches!(
            files.put(alloc, "late/trace.vcd", b"torn"),
            Err(Fail::Failed)
        )
    );
    match &files.get(alloc, "late/trace.vcd", 100) {
        Ok(Got::All(bytes)) => assert_eq!(rt; bytes.as_slice(), b"whole".as_slice()),
        _ => assert!(rt; false),
    }
    Ok(())
}

// Gives its bytes a few at a time, and closes a pipe after the first of them.
#[derive(Drop)]
struct Pieces<'a> {
    left: &'a [u8],
    most: usize,
    reader: Option<PipeReader>,
    has_begun: bool,
}

impl<'a> Source for Pieces<'a> {
    ghost rest = { λ p. p.left.now };

    fn next(&mut self, buffer: &mut [u8]) -> usize {
        if self.has_begun {
            self.reader = None;
        }
        self.has_begun = true;
        let count = self.left.len().min(buffer.len()).min(self.most.max(1));
        let (piece, left) = self.left.split_at(count);
        buffer[..count].copy_from_slice(piece);
        self.left = left;
        count
    }
}

impl<'a> Pieces<'a> {
    fn new(bytes: &'a [u8], most: usize, reader: Option<PipeReader>) -> Self {
        Pieces {
            left: bytes,
            most,
            reader,
            has_begun: false,
        }
    }
}

#[test]
fn files_are_put_by_pieces(rt: HostRuntime) -> Result<(), Failure> {
    let alloc = rt.alloc();
    let mut files = RealFiles::new(&rt);
    for (length, most) in [
        (0usize, 1usize),
        (5, 1),
        (65536, 70000),
        (65537, 1),
        (200_000, 999),
    ] {
        let mut bytes = Vec::new(alloc);
        for place in 0..length {
            bytes.push((place % 251) as u8)?;
        }
        let mut source = Pieces::new(&bytes, most, None);
        assert!(rt; files.put_from(alloc, "pieces", &mut source).is_ok());
        match &files.get(alloc, "pieces", 200_000) {
            Ok(Got::All(got)) => assert!(rt; got.as_slice() == bytes.as_slice(), "{length}"),
            _ => assert!(rt; false, "{length}"),
        }
    }
    Ok(())
}

#[test]
fn a_put_that_fails_at_its_second_piece_leaves_what_stood_there(
    rt: HostRuntime,
) -> Result<(), Failure> {
    let alloc = rt.alloc();
    let mut files = RealFiles::new(&rt);
    assert!(rt; files.put(alloc, "model.cnf", b"whole").is_ok());
    let Ok((reader, writer)) = io::pipe(&rt) else {
        assert!(rt; false);
        return Ok(());
    };
    // Where the new content is written first, there is a pipe, which has room for one piece and no reader at the next.
    let pipe = format!(in alloc; "/dev/fd/{}", writer.as_raw_fd())?;
    assert!(rt; symlink(&rt, pipe.as_str(), "model.cnf.part").is_ok());
    let bytes = vec![in alloc; 48u8; 65537]?;
    let mut source = Pieces::new(&bytes, 65536, Some(reader));
    assert!(rt;
        matches!(
            files.put_from(alloc, "model.cnf", &mut source),
            Err(Fail::Failed)
        )
    );
    assert!(rt; source.left.is_empty());
    drop(writer);
    match &files.get(alloc, "model.cnf", 100) {
        Ok(Got::All(bytes)) => assert_eq!(rt; bytes.as_slice(), b"whole".as_slice()),
        _ => assert!(rt; false),
    }
    assert!(rt; matches!(std::fs::exists(&rt, "model.cnf.part"), Ok(false)));
    Ok(())
}

// Whether this piece is got.
fn gives<F: Files>(
    files: &mut F,
    alloc: Global,
    path: &str,
    from: u64,
    most: usize,
    wanted: &[u8],
) -> bool {
    match files.get_piece(alloc, path, from, most) {
        Ok(piece) => piece.as_slice() == wanted,
        Err(_) => false,
    }
}

#[test]
fn files_are_read_in_pieces(rt: HostRuntime) -> Result<(), Failure> {
    let alloc = rt.alloc();
    let mut files = RealFiles::new(&rt);
    for content in ["abcdefghij", "ABCDEFGHIJ"] {
        assert!(rt; files.put(alloc, "letters", content.as_bytes()).is_ok());
        for (from, most) in [
            (0, 4),
            (4, 4),
            (8, 4),
            (0, 10),
            (10, 4),
            (0, 4),
            (4, 0),
            (4, 6),
        ] {
            let wanted = &content.as_bytes()[from..(from + most).min(10)];
            assert!(rt;
                gives(&mut files, alloc, "letters", from as u64, most, wanted),
                "{from} {most}"
            );
        }
    }
    assert!(rt; gives(&mut files, alloc, "letters", 2, 3, b"CDE"));
    assert!(rt; gives(&mut files, alloc, "letters", 12, 3, b""));
    assert_eq!(rt; files.faults, 0);
    assert!(rt; matches!(files.get_piece(alloc, "three", 0, 1), Err(Fail::Failed)));
    assert_eq!(rt; files.faults, 1);
    Ok(())
}

#[test]
fn a_pipe_is_read_in_pieces(rt: HostRuntime) -> Result<(), Failure> {
    let alloc = rt.alloc();
    let Ok((reader, writer)) = io::pipe(&rt) else {
        assert!(rt; false);
        return Ok(());
    };
    let path = format!(in alloc; "/dev/fd/{}", reader.as_raw_fd())?;
    let mut out = StdSink::new(writer);
    assert_eq!(rt; out.write(b"abcdefg"), Ok(7));
    drop(out);
    let mut files = RealFiles::new(&rt);
    for (from, wanted) in [(0, "abc"), (3, "def"), (6, "g")] {
        assert!(rt;
            gives(&mut files, alloc, &path, from, 3, wanted.as_bytes()),
            "{from}"
        );
    }
    Ok(())
}

#[test]
fn a_closed_output_fails(rt: HostRuntime) -> Result<(), Failure> {
    let Ok((reader, writer)) = io::pipe(&rt) else {
        assert!(rt; false);
        return Ok(());
    };
    let mut out = StdSink::new(writer);
    assert_eq!(rt; out.write(b"line\n"), Ok(5));
    assert_eq!(rt; out.faults, 0);
    drop(reader);
    assert_eq!(rt; out.write(b"line\n"), Err(Failed));
    assert_eq!(rt; out.faults, 1);
    Ok(())
}

// The words of a shell command.
fn shell(alloc: Global, line: &str) -> Result<Vec<String>, AllocError> {
    let mut words = Vec::new(alloc);
    for word in ["sh", "-c", line] {
        words.push(String::from_str(alloc, word)?)?;
    }
    Ok(words)
}

// All that a child writes up to its end, how it ended, and whether it lived when its output ended. It is killed where that is asked
// for, once its output has ended or this many bytes were read.
fn watched<L: Launch>(
    bay: &mut L,
    alloc: Global,
    words: &[String],
    most: usize,
    kills: bool,
) -> Result<(usize, bool, Exit), Fail> {
    let (mut pipe, mut hold) = bay.start(alloc, JobName::Step, words, &Nothing)?;
    let mut buffer = [0u8; 64];
    let mut taken = 0usize;
    for _ in 0..1000 {
        match pipe.read(&mut buffer) {
            Ok(0) | Err(_) => break,
            Ok(count) => taken = taken.saturating_add(count),
        }
        if taken >= most {
            break;
        }
    }
    let lives = matches!(hold.poll(), Ok(None));
    if kills {
        let _killed = hold.kill();
    }
    let exit = hold.reap();
    bay.finish(pipe, hold);
    match exit {
        Ok(exit) => Ok((taken, lives, exit)),
        Err(_) => Err(Fail::Failed),
    }
}

fn in_yard<Y: Yard>(
    yard: &mut Y,
    alloc: Global,
    words: &[String],
    most: usize,
    kills: bool,
) -> Result<(usize, bool, Exit), Fail> {
    let mut bay = yard.bay(alloc, 0, 0)?;
    let answer = watched(&mut bay, alloc, words, most, kills);
    yard.back(bay);
    answer
}

#[test]
fn children_are_read_killed_and_reaped(rt: HostRuntime) -> Result<(), Failure> {
    let alloc = rt.alloc();
    let log = Log::silent(&rt);
    let mut yard = RealYard::new(&rt, &log);
    let ended = shell(alloc, "echo 0; echo lost >&2; exit 20")?;
    let answer = in_yard(&mut yard, alloc, &ended, 100, false).map(|seen| (seen.0, seen.2));
    assert_eq!(rt; answer, Ok((2, Exit::Code(20))));
    // It writes on and on, and is killed.
    let endless = shell(alloc, "while :; do echo c; done")?;
    let answer = in_yard(&mut yard, alloc, &endless, 10, true);
    assert!(rt; matches!(answer, Ok((10.., true, Exit::Signal))));
    // It closes its output and goes on.
    let silent = shell(alloc, "exec >&-; exec sleep 1000")?;
    let answer = in_yard(&mut yard, alloc, &silent, 100, true);
    assert_eq!(rt; answer, Ok((0, true, Exit::Signal)));
    // It reads no input.
    let reading = shell(alloc, "cat; exit 3")?;
    let answer = in_yard(&mut yard, alloc, &reading, 100, false).map(|seen| (seen.0, seen.2));
    assert_eq!(rt; answer, Ok((0, Exit::Code(3))));
    assert_eq!(rt; yard.start_faults, 0);
    let none = Vec::<String>::new(alloc);
    assert_eq!(rt;
        in_yard(&mut yard, alloc, &none, 1, true),
        Err(Fail::Failed)
    );
    assert_eq!(rt; yard.start_faults, 1);
    Ok(())
}

// Whether a child of a shell's line ends within two seconds of its kill, which comes once its output has this many bytes, or has ended.
fn dies<Y: Yard, C: Clock>(
    yard: &mut Y,
    clock: &C,
    alloc: Global,
    line: &str,
    most: usize,
) -> Result<bool, Fail> {
    let words = shell(alloc, line)?;
    let mut bay = yard.bay(alloc, 0, 0)?;
    let started = bay.start(alloc, JobName::Step, &words, &Nothing);
    let ended = match started {
        Ok((mut pipe, mut hold)) => {
            let mut buffer = [0u8; 4096];
            let mut taken = 0usize;
            for _ in 0..1000 {
                match pipe.read(&mut buffer) {
                    Ok(0) | Err(_) => break,
                    Ok(count) => taken = taken.saturating_add(count),
                }
                if taken >= most {
                    break;
                }
            }
            let before = clock.now();
            let is_killed = hold.kill().is_ok();
            let mut is_over = false;
            for _ in 0..100_000 {
                if matches!(pipe.read(&mut buffer), Ok(0) | Err(_)) {
                    is_over = true;
                    break;
                }
            }
            let exit = hold.reap();
            bay.finish(pipe, hold);
            let is_soon = clock.now().saturating_sub(before) < 2000;
            Ok(is_killed && is_over && is_soon && exit == Ok(Exit::Signal))
        }
        Err(fail) => Err(fail),
    };
    yard.back(bay);
    ended
}

// A file to which the descendants of a test's child write while they live.
const LIVE: &str = "live";

#[test]
fn a_kill_ends_what_a_child_has_started(rt: HostRuntime) -> Result<(), Failure> {
    let alloc = rt.alloc();
    let log = Log::silent(&rt);
    let clock = RealClock::new(&rt);
    let mut yard = RealYard::new(&rt, &log);
    for (line, most) in [
        // A descendant has the output's other end.
        ("echo 1; sleep 1000 | cat", 2),
        // It has it in a session of its own, which no kill reaches.
        ("echo 1; setsid sleep 5 & wait", 2),
        // Ten write on and on.
        (
            "for i in 1 2 3 4 5 6 7 8 9; do (while :; do echo $i; done) & done; while :; do echo c; done",
            100_000,
        ),
        // The child doesn't heed any signal that it may ignore.
        (
            "trap '' TERM INT HUP; echo 1; while :; do sleep 1000; done",
            2,
        ),
        // It is stopped.
        ("echo 1; kill -STOP $$; sleep 1000", 2),
        // It has closed its output, and lives on.
        ("exec >&-; sleep 1000; :", 1),
    ] {
        let dies = dies(&mut yard, &clock, alloc, line, most);
        assert!(rt; dies == Ok(true), "{line}");
    }
    // A descendant that would make a file a little later doesn't live to do so.
    let line = "echo 1; (sleep 1; echo > live) | cat";
    assert_eq!(rt; dies(&mut yard, &clock, alloc, line, 2), Ok(true));
    for _ in 0..1500 {
        clock.pause(1);
    }
    assert!(rt; matches!(std::fs::exists(&rt, LIVE), Ok(false)));
    Ok(())
}

#[test]
fn programs_are_looked_for(rt: HostRuntime) -> Result<(), Failure> {
    let alloc = rt.alloc();
    let log = Log::silent(&rt);
    let mut yard = RealYard::new(&rt, &log);
    let mut files = RealFiles::new(&rt);
    assert!(rt; files.put(alloc, "plain", b"no program").is_ok());
    for (word, starts) in [
        ("true", true),
        ("/bin/true", true),
        ("no_such_program", false),
        ("/bin/no_such_program", false),
        ("./plain", false),
        ("/", false),
        ("", false),
    ] {
        let mut words = Vec::new(alloc);
        words.push(String::from_str(alloc, word)?)?;
        let answer = in_yard(&mut yard, alloc, &words, 1, false);
        assert_eq!(rt;
            answer.map(|seen| seen.2),
            if starts {
                Ok(Exit::Code(0))
            } else {
                Err(Fail::Failed)
            },
            "{word}"
        );
    }
    assert_eq!(rt; yard.start_faults, 5);
    Ok(())
}

fn passes<C: Clock>(clock: &C) -> bool {
    let before = clock.now();
    clock.pause(1);
    before < clock.now()
}

#[test]
fn clocks_go_on(rt: HostRuntime) {
    assert!(rt; passes(&RealClock::new(&rt)));
}
