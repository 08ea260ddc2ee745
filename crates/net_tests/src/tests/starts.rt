// Starts of a lane on engines in memory.

use super::engine::EngineDial;
use super::tools::{GivenFile, all_of, script};
use net_lane::NetLaunch;
use net_link::{Dial, MemDial};
use sby_edge::{Exit, Fail, Hold, Launch};
use sby_terms::JobName;
use std::alloc::{AllocError, Global};
use std::test::Fail as TestFail;

const ANSWER: &[u8] = b"\0\0\0\x0as UNKNOWN\n\0\0\0\0";

fn words(alloc: Global, text: &str) -> Result<Vec<String>, AllocError> {
    let mut words = Vec::new(alloc);
    for word in text.split(' ') {
        words.push(String::from_str(alloc, word)?)?;
    }
    Ok(words)
}

fn bay(alloc: Global, failing: Option<u64>) -> Result<NetLaunch<MemDial>, AllocError> {
    let dial = MemDial::new(script(alloc, ANSWER, 4096, failing)?, Vec::new(alloc));
    Ok(NetLaunch::new(alloc, dial, 0, 0))
}

// What the pipe of a start with these words and this job gives, up to its end.
fn stream<D: Dial + Drop>(
    alloc: Global,
    bay: &mut NetLaunch<D>,
    words: &[String],
    job: &[u8],
) -> Result<Vec<u8>, Fail> {
    let (mut pipe, mut hold) = bay.start(alloc, JobName::Step, words, &GivenFile { bytes: job })?;
    let bytes = all_of(alloc, &mut pipe, 16);
    let _ = bay.kill(&pipe, &mut hold);
    let exit = hold.reap();
    bay.finish(pipe, hold);
    if exit != Ok(Exit::Code(0)) {
        return Err(Fail::Failed);
    }
    Ok(bytes?)
}

#[test]
fn words_ask_for_an_engine(rt: HostRuntime) -> Result<(), TestFail> {
    for (text, is_asked) in [
        ("net 127.0.0.1:4711", true),
        ("net host:65535", true),
        ("net ::1:4711", true),
        ("net host", false),
        ("net :1", false),
        ("net host:", false),
        ("net host:0", false),
        ("net host:65536", false),
        ("net host:01", false),
        ("net host:1 --conflicts 7", true),
        ("net host:1 --conflicts 1000000000", true),
        ("net host:1 --conflicts 1000000001", false),
        ("net host:1 --conflicts 0", false),
        ("net host:1 --conflicts", false),
        ("net host:1 --conflict 7", false),
        ("net", false),
        ("sat host:1", false),
    ] {
        let mut bay = bay(rt.alloc(), None)?;
        let words = words(rt.alloc(), text)?;
        match stream(rt.alloc(), &mut bay, &words, b"ab") {
            Ok(bytes) => assert_eq!(rt;
                (is_asked, bytes.as_slice()),
                (true, b"s UNKNOWN\n".as_slice()),
                "{text}"
            ),
            Err(fault) => assert_eq!(rt; (is_asked, fault), (false, Fail::Failed), "{text}"),
        }
    }
    Ok(())
}

#[test]
fn a_start_fails_with_its_link(rt: HostRuntime) -> Result<(), TestFail> {
    let words = words(rt.alloc(), "net host:1")?;
    // Four writes make a request.
    for call in 1..=5 {
        let mut bay = bay(rt.alloc(), Some(call))?;
        let is_failed = stream(rt.alloc(), &mut bay, &words, b"ab").is_err();
        assert_eq!(rt; is_failed, call < 5, "{call}");
    }
    Ok(())
}

#[test]
fn a_start_fails_with_its_dial(rt: HostRuntime) -> Result<(), TestFail> {
    let words = words(rt.alloc(), "net host:1")?;
    let mut failing = Vec::new(rt.alloc());
    failing.push(1)?;
    let dial = MemDial::new(script(rt.alloc(), ANSWER, 4096, None)?, failing);
    let mut bay = NetLaunch::new(rt.alloc(), dial, 0, 0);
    let first = stream(rt.alloc(), &mut bay, &words, b"ab");
    assert!(rt; matches!(first, Err(Fail::Failed)));
    let second = stream(rt.alloc(), &mut bay, &words, b"ab")?;
    assert_eq!(rt; second.as_slice(), b"s UNKNOWN\n".as_slice());
    Ok(())
}

#[test]
fn an_engine_answers_a_start(rt: HostRuntime) -> Result<(), TestFail> {
    let words = words(rt.alloc(), "net host:1 --conflicts 7")?;
    let mut bay = NetLaunch::new(rt.alloc(), EngineDial, 0, 0);
    // A file of more bytes than are counted or written at once.
    let mut job = Vec::new(rt.alloc());
    for i in 0..10_000usize {
        job.push((i % 251) as u8)?;
    }
    let answer = stream(rt.alloc(), &mut bay, &words, &job)?;
    assert!(rt; answer == job);
    Ok(())
}
