// The forms in memory at work, each through the bound of its trait.

ghost use Rattle.std.specs.Prelude.{◌≡◌, IfOk, IsErrOf};
ghost use Rattle.sby_edge.specs.declared.outside.Fail.TheVariants.{Failed as FailFailed};

use sby_edge::{
    Bytes, Clock, Exit, Fail, Failed, Files, Got, Hold, Launch, MemFiles, MemSink, Memory, NoYard,
    Nothing, Sink, Source, StillClock, Yard, fill,
};
use sby_terms::JobName;
use std::alloc::{AllocError, Global};
use std::test::Fail as TestFail;

// A store without listed faults, with one file: its count is 0.
fn one_file(alloc: Global, path: &str, bytes: &[u8]) -> Result<MemFiles, Fail>
    ensures count { IfOk result (λ files. files.calls.faults ≡ 0) }
    ensures served { IsErrOf result FailFailed → ⊥ }
{
    let mut files = MemFiles::new(alloc, Vec::new(alloc));
    files.put(alloc, path, bytes)?;
    Ok(files)
}

// Whether all of the content was got, and what was.
fn got<F: Files>(
    files: &mut F,
    alloc: Global,
    path: &str,
    most: u64,
) -> Result<(bool, Vec<u8>), Fail> {
    match files.get(alloc, path, most)? {
        Got::All(bytes) => Ok((true, bytes)),
        Got::Long(bytes) => Ok((false, bytes)),
    }
}

#[test]
fn files_keep_what_was_put(rt: HostRuntime) -> Result<(), TestFail> {
    let mut files = one_file(rt.alloc(), "t.il", b"module")?;
    for (most, whole, wanted) in [
        (7, true, "module"),
        (6, true, "module"),
        (5, false, "module"),
        (2, false, "mod"),
    ] {
        let (all, bytes) = got(&mut files, rt.alloc(), "t.il", most)?;
        assert_eq!(rt; all, whole, "{most}");
        assert_eq!(rt; bytes.as_slice(), wanted.as_bytes(), "{most}");
    }
    assert!(rt; got(&mut files, rt.alloc(), "t", 9).is_err());
    Ok(())
}

fn put<F: Files>(files: &mut F, alloc: Global, path: &str, bytes: &[u8]) -> Result<(), Fail> {
    files.put(alloc, path, bytes)
}

#[test]
fn files_fail_at_listed_calls(rt: HostRuntime) -> Result<(), TestFail> {
    let mut files = MemFiles::new(rt.alloc(), vec![in rt.alloc(); 2]?);
    assert_eq!(rt; put(&mut files, rt.alloc(), "a", b"1"), Ok(()));
    assert_eq!(rt; put(&mut files, rt.alloc(), "a", b"2"), Err(Fail::Failed));
    assert_eq!(rt; files.blamed(), Some("a"));
    assert_eq!(rt; files.content("a"), Some(b"1".as_slice()));
    assert_eq!(rt; files.content("b"), None);
    Ok(())
}

// Gives its bytes one by one.
#[derive(Drop)]
struct Single<'a> {
    left: &'a [u8],
}

impl<'a> Source for Single<'a> {
    ghost rest = { λ s. s.left.now };

    fn next(&mut self, buffer: &mut [u8]) -> usize {
        let count = self.left.len().min(buffer.len()).min(1);
        let (piece, left) = self.left.split_at(count);
        buffer[..count].copy_from_slice(piece);
        self.left = left;
        count
    }
}

// Puts bytes by pieces: as many as there is room for, or one by one.
fn put_pieces<F: Files>(
    files: &mut F,
    alloc: Global,
    path: &str,
    bytes: &[u8],
    single: bool,
) -> Result<(), Fail> {
    if single {
        let mut source = Single { left: bytes };
        files.put_from(alloc, path, &mut source)
    } else {
        let mut source = Bytes::new(bytes);
        files.put_from(alloc, path, &mut source)
    }
}

#[test]
fn files_are_put_by_pieces(rt: HostRuntime) -> Result<(), TestFail> {
    let alloc = rt.alloc();
    let mut files = MemFiles::new(alloc, vec![in alloc; 7]?);
    for (length, single) in [
        (0, false),
        (0, true),
        (9, true),
        (4096, false),
        (5000, true),
        (10_000, false),
    ] {
        let bytes = vec![in alloc; 48u8; length]?;
        assert_eq!(rt; put_pieces(&mut files, alloc, "a", &bytes, single), Ok(()));
        assert_eq!(rt; files.content("a"), Some(bytes.as_slice()), "{length}");
    }
    // The call that is listed to fail leaves the last one's.
    assert_eq!(rt;
        put_pieces(&mut files, alloc, "a", b"new", true),
        Err(Fail::Failed)
    );
    assert_eq!(rt; files.content("a").map(|bytes| bytes.len()), Some(10_000));
    Ok(())
}

#[test]
fn buffers_are_filled(rt: HostRuntime) {
    let mut source = Single { left: b"abcde" };
    for (room, wanted) in [(3, "abc"), (0, ""), (3, "de"), (2, "")] {
        let mut buffer = [0u8; 3];
        let count = fill(&mut source, &mut buffer[..room]);
        assert_eq!(rt; &buffer[..count], wanted.as_bytes());
    }
}

fn wrote<S: Sink>(sink: &mut S, piece: &[u8]) -> Result<usize, Failed> {
    sink.write(piece)
}

#[test]
fn sinks_take_what_fits(rt: HostRuntime) -> Result<(), TestFail> {
    let mut sink = MemSink::new(rt.alloc(), 5, vec![in rt.alloc(); 2]?)?;
    for (piece, answer) in [
        ("abc", Ok(3)),
        ("def", Err(Failed)),
        ("def", Ok(2)),
        ("", Ok(0)),
        ("f", Err(Failed)),
    ] {
        assert_eq!(rt; wrote(&mut sink, piece.as_bytes()), answer, "{piece}");
    }
    assert_eq!(rt; sink.bytes(), b"abcde".as_slice());
    Ok(())
}

// One child from its start to its finish, and its bay given back.
fn one_child<Y: Yard>(yard: &mut Y, alloc: Global, words: &[String]) -> Result<Exit, Fail> {
    let mut bay = yard.bay(alloc, 0, 0)?;
    let answer = in_bay(&mut bay, alloc, words);
    yard.back(bay);
    answer
}

fn in_bay<L: Launch>(bay: &mut L, alloc: Global, words: &[String]) -> Result<Exit, Fail> {
    let (pipe, mut hold) = bay.start(alloc, JobName::Base(0), words, &Nothing)?;
    let killed = hold.kill();
    let reaped = hold.reap();
    bay.finish(pipe, hold);
    match (killed, reaped) {
        (Ok(()), Ok(exit)) => Ok(exit),
        _ => Err(Fail::Failed),
    }
}

#[test]
fn no_yard_starts_a_child(rt: HostRuntime) {
    let mut yard = NoYard::new();
    let words = Vec::<String>::new(rt.alloc());
    assert_eq!(rt; one_child(&mut yard, rt.alloc(), &words), Err(Fail::Failed));
}

fn reading<C: Clock>(clock: &C) -> u64 {
    clock.pause(1);
    clock.now()
}

#[test]
fn still_clocks_stand(rt: HostRuntime) {
    let clock = StillClock(7);
    assert_eq!(rt; reading(&clock), 7);
    assert_eq!(rt; reading(&clock), 7);
}

fn pushed<E: From<AllocError> + Drop>(bytes: &mut Vec<u8>) -> Result<(), E> {
    bytes.push(1).map_err(AllocError::from)?;
    Ok(())
}

#[test]
fn want_of_memory_converts(rt: HostRuntime) -> Result<(), TestFail> {
    let mut bytes = Vec::new(rt.alloc());
    assert_eq!(rt; pushed::<Fail>(&mut bytes), Ok(()));
    assert_eq!(rt; pushed::<Memory>(&mut bytes), Ok(()));
    assert_eq!(rt; Fail::from(Memory), Fail::Memory);
    Ok(())
}
