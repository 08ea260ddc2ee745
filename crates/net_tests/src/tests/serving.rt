// The serving of one connection.

use super::engine::Echo;
use super::tools::{link, script};
use net_link::{Door, MemDoor};
use net_serve::{Served, serve_conn};
use sby_edge::Fail;
use std::test::Fail as TestFail;

const REQUEST: &[u8] = b"SBYJOB1\n\0\0\0\0\0\0\0\x01\0\0\0\0\0\0\0\x02ab";

const ANSWER: &[u8] = b"\0\0\0\x02ab\0\0\0\0";

const FAULT: &[u8] = b"\0\0\0\x0fc fault: frame\n\0\0\0\0";

#[test]
fn requests_are_answered(rt: HostRuntime) -> Result<(), TestFail> {
    let rows: [(&[u8], Served, &[u8]); 4] = [
        (REQUEST, Served::Answered, ANSWER),
        (b"SBY", Served::BadFrame, FAULT),
        (b"", Served::BadFrame, FAULT),
        (&REQUEST[..25], Served::BadFrame, FAULT),
    ];
    for (bytes, wanted, answer) in rows {
        for most in [1, 4096] {
            let came = link(rt.alloc(), bytes, most, None)?;
            let (came, served) = serve_conn(rt.alloc(), came, &Echo);
            assert_eq!(rt; served, wanted);
            assert_eq!(rt; came.written(), answer);
        }
    }
    Ok(())
}

#[test]
fn a_link_that_fails_is_told(rt: HostRuntime) -> Result<(), TestFail> {
    for (bytes, calls, wanted) in [
        (REQUEST, 7, Served::Answered),
        (b"SBY".as_slice(), 5, Served::BadFrame),
    ] {
        for call in 1..=calls + 1 {
            let came = link(rt.alloc(), bytes, 4096, Some(call))?;
            let (came, served) = serve_conn(rt.alloc(), came, &Echo);
            let (served_so, faults) = if call > calls {
                (wanted, 0)
            } else {
                (Served::Failed, 1)
            };
            assert_eq!(rt; served, served_so, "{call}");
            assert_eq!(rt; came.faults(), faults, "{call}");
        }
    }
    Ok(())
}

#[test]
fn a_door_gets_its_links_back(rt: HostRuntime) -> Result<(), TestFail> {
    let mut scripts = Vec::new(rt.alloc());
    scripts.push(script(rt.alloc(), b"SBY", 4096, None)?)?;
    scripts.push(script(rt.alloc(), REQUEST, 4096, None)?)?;
    let mut door = MemDoor::new(rt.alloc(), scripts, Vec::new(rt.alloc()));
    assert_eq!(rt; door.listen(rt.alloc(), "127.0.0.1:4711"), Ok(()));
    for _ in 0..2 {
        let came = door.next(rt.alloc())?;
        let (came, _) = serve_conn(rt.alloc(), came, &Echo);
        assert!(rt; door.back(came).is_ok());
    }
    assert!(rt; matches!(door.next(rt.alloc()), Err(Fail::Failed)));
    let back = door.came_back();
    assert_eq!(rt; back.len(), 2);
    assert_eq!(rt; back[0].written(), FAULT);
    assert_eq!(rt; back[1].written(), ANSWER);
    Ok(())
}
