// Requests: what is written, what is read, and what is refused.

use super::tools::{joined, link};
use net_link::MemLink;
use net_request::{RequestFault, read_request, write_request};
use sby_edge::Bytes;
use std::alloc::{AllocError, Global};
use std::test::Fail;

// A formula of 38 bytes, whose request has 62.
const JOB: &[u8] = b"p cnf 2 4\n1 2 0\n-1 2 0\n1 -2 0\n-1 -2 0\n";

const ONE: &[u8] = b"\0\0\0\0\0\0\0\x01";

const LENGTH: &[u8] = b"\0\0\0\0\0\0\0\x26";

fn request(alloc: Global) -> Result<Vec<u8>, AllocError> {
    joined(alloc, &[b"SBYJOB1\n", ONE, LENGTH, JOB])
}

#[test]
fn a_request_is_written(rt: HostRuntime) -> Result<(), Fail> {
    let wanted = request(rt.alloc())?;
    assert_eq!(rt; wanted.len(), 62);
    for most in [1, 7, 4096] {
        let mut sent = link(rt.alloc(), b"", most, None)?;
        let written = write_request(&mut sent, 1, 38, &mut Bytes::new(JOB));
        assert_eq!(rt; written, Ok(()));
        assert_eq!(rt; sent.written(), wanted.as_slice(), "{most}");
    }
    Ok(())
}

// Whether the request that is read has this budget and this job.
fn asks(alloc: Global, link: &mut MemLink, budget: u64, job: &[u8]) -> bool {
    match read_request(alloc, link) {
        Ok(request) => request.budget == budget && request.job.as_slice() == job,
        Err(_) => false,
    }
}

#[test]
fn a_request_is_read_whatever_the_cuts(rt: HostRuntime) -> Result<(), Fail> {
    let bytes = joined(rt.alloc(), &[&request(rt.alloc())?, b"behind"])?;
    for most in [1, 7, 4096] {
        let mut came = link(rt.alloc(), &bytes, most, None)?;
        assert!(rt; asks(rt.alloc(), &mut came, 1, JOB), "{most}");
    }
    Ok(())
}

#[test]
fn each_prefix_is_no_request(rt: HostRuntime) -> Result<(), Fail> {
    let bytes = request(rt.alloc())?;
    for length in 0..bytes.len() {
        let mut came = link(rt.alloc(), &bytes[..length], 4096, None)?;
        let fault = read_request(rt.alloc(), &mut came).err();
        assert_eq!(rt; fault, Some(RequestFault::BadFrame), "{length}");
    }
    Ok(())
}

#[test]
fn numbers_out_of_range_are_refused(rt: HostRuntime) -> Result<(), Fail> {
    let rows: [(&[u8], &[u8], &[u8], bool); 8] = [
        (b"SBYJOB1\n", ONE, LENGTH, true),
        (b"SBYJOB1\n", b"\0\0\0\0\x3b\x9a\xca\0", LENGTH, true),
        (b"SBYJOB1\n", b"\0\0\0\0\x3b\x9a\xca\x01", LENGTH, false),
        (b"SBYJOB1\n", b"\0\0\0\0\0\0\0\0", LENGTH, false),
        (b"SBYJOB1\n", b"\x80\0\0\0\0\0\0\x01", LENGTH, false),
        (b"SBYJOB1\n", ONE, b"\0\0\0\x01\0\0\0\x01", false),
        (b"SBYJOB2\n", ONE, LENGTH, false),
        (b"SBYJOB1\r", ONE, LENGTH, false),
    ];
    for (first, budget, length, is_request) in rows {
        let bytes = joined(rt.alloc(), &[first, budget, length, JOB])?;
        let mut came = link(rt.alloc(), &bytes, 4096, None)?;
        let found = read_request(rt.alloc(), &mut came).is_ok();
        assert_eq!(rt; found, is_request, "{budget:?} {length:?}");
    }
    Ok(())
}

#[test]
fn a_link_that_fails_is_no_request(rt: HostRuntime) -> Result<(), Fail> {
    let bytes = request(rt.alloc())?;
    for call in 1..=5 {
        let mut came = link(rt.alloc(), &bytes, 4096, Some(call))?;
        let fault = read_request(rt.alloc(), &mut came).err();
        let wanted = if call < 5 {
            Some(RequestFault::Failed)
        } else {
            None
        };
        assert_eq!(rt; fault, wanted, "{call}");
    }
    Ok(())
}
