// Answers: written by a sink, read by a pipe, and cut at each place.

use super::tools::{all_of, link};
use net_answer::{FramedSink, NetPipe, write_answer};
use net_link::MemLink;
use sby_edge::{Failed, Sink};
use std::alloc::{AllocError, Global};
use std::test::Fail;

// A stream of 18 bytes.
const STREAM: &[u8] = b"1 0\ns UNSATISFIABL";

const ANSWER: &[u8] = b"\0\0\0\x121 0\ns UNSATISFIABL\0\0\0\0";

fn read(alloc: Global, bytes: &[u8], most: usize, room: usize) -> Result<Vec<u8>, AllocError> {
    let mut pipe = NetPipe::new(link(alloc, bytes, most, None)?, None);
    all_of(alloc, &mut pipe, room)
}

#[test]
fn an_answer_is_read_up_to_its_cut(rt: HostRuntime) -> Result<(), Fail> {
    for length in 0..=ANSWER.len() {
        for (most, room) in [(1, 65536), (3, 1), (65536, 65536)] {
            let found = read(rt.alloc(), &ANSWER[..length], most, room)?;
            let wanted = length.saturating_sub(4).min(18);
            assert_eq!(rt; found.as_slice(), &STREAM[..wanted], "{length} {most}");
        }
    }
    Ok(())
}

#[test]
fn an_answer_ends_at_its_mark(rt: HostRuntime) -> Result<(), Fail> {
    let rows: [(&[u8], &[u8]); 4] = [
        (b"\0\0\0\0behind", b""),
        (b"\0\0\0\x01a\0\0\0\0\0\0\0\x01b", b"a"),
        (b"\0\0\0\x01a\0\x01\0\x01b", b"a"),
        (b"\0\0\0\x01a\0\0\0\x02bc\0\0\0\0", b"abc"),
    ];
    for (bytes, wanted) in rows {
        assert_eq!(rt; read(rt.alloc(), bytes, 2, 2)?.as_slice(), wanted);
    }
    Ok(())
}

// Offers a stream to a sink until it is taken, and answers how many calls failed.
fn put<S: Sink>(sink: &mut S, stream: &[u8]) -> u32 {
    let mut at = 0;
    let mut failed = 0u32;
    for _ in 0..1_000_000u32 {
        if at >= stream.len() {
            break;
        }
        match sink.write(&stream[at..]) {
            Ok(count) => at += count,
            Err(Failed) => failed = failed.saturating_add(1),
        }
    }
    failed
}

fn numbers(alloc: Global, size: usize) -> Result<Vec<u8>, AllocError> {
    let mut stream = Vec::with_capacity(alloc, size)?;
    for i in 0..size {
        stream.push((i % 251) as u8)?;
    }
    Ok(stream)
}

// The bytes that a sink writes of a stream to a link of which one call fails, how many of the sink's calls failed, and whether its end did.
fn sunk(
    alloc: Global,
    stream: &[u8],
    failing: Option<u64>,
) -> Result<(MemLink, u32, bool), AllocError> {
    match FramedSink::new(alloc, link(alloc, b"", 30_000, failing)?) {
        Ok(mut sink) => {
            let failed = put(&mut sink, stream);
            let (sent, end) = sink.finish();
            Ok((sent, failed, end.is_err()))
        }
        Err(_) => Err(AllocError),
    }
}

fn written(alloc: Global, stream: &[u8]) -> Result<Vec<u8>, AllocError> {
    let mut whole = link(alloc, b"", 65536, None)?;
    let _ = write_answer(&mut whole, stream);
    Vec::from_slice(alloc, whole.written())
}

#[test]
fn streams_come_back(rt: HostRuntime) -> Result<(), Fail> {
    for size in [0usize, 1, 65535, 65536, 65537, 140_000] {
        let stream = numbers(rt.alloc(), size)?;
        let (sent, failed, is_cut) = sunk(rt.alloc(), &stream, None)?;
        assert_eq!(rt; (failed, is_cut), (0, false));
        assert!(rt;
            sent.written() == written(rt.alloc(), &stream)?.as_slice(),
            "{size}"
        );
        let back = read(rt.alloc(), sent.written(), 30_000, 65536)?;
        assert!(rt; back == stream, "{size}");
    }
    Ok(())
}

#[test]
fn a_sink_goes_on_where_it_failed(rt: HostRuntime) -> Result<(), Fail> {
    let stream = numbers(rt.alloc(), 65_540)?;
    let whole = written(rt.alloc(), &stream)?;
    // A whole piece takes four calls, and the end three.
    for call in 1..=8 {
        let (sent, failed, is_cut) = sunk(rt.alloc(), &stream, Some(call))?;
        assert_eq!(rt;
            (failed, is_cut),
            ((call < 5) as u32, (5..8).contains(&call)),
            "{call}"
        );
        assert_eq!(rt; sent.written() == whole.as_slice(), !is_cut, "{call}");
    }
    Ok(())
}
