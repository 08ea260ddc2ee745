// Connections within this machine: what one end writes the other reads, and a cut ends a read that waits.

use super::*;
use net_link::{Cut, Dial, Door, Link};
use sby_edge::{Clock, Fail};
use std::alloc::Global;
use std::net::{Net, TcpListener, TcpStream};
use std::test::Fail as Failure;
use std::thread;
use std::time::Clock as SystemClock;

const ADDRESS: &str = "127.0.0.1:47231";

// Takes a connection in, answers its three bytes by four, and gives it back; then takes one in that says nothing, and reads its end.
fn answer<R: Net<Stream = TcpStream, Listener = TcpListener>>(
    door: &mut TcpDoor<'_, R>,
    alloc: Global,
) -> bool {
    let Ok(mut link) = door.next(alloc) else {
        return false;
    };
    let mut asked = [0u8; 3];
    let count = link.read(&mut asked);
    let written = link.write(b"four");
    let is_back = door.back(link).is_ok();
    let Ok(mut silent) = door.next(alloc) else {
        return false;
    };
    let end = silent.read(&mut asked);
    count == Ok(3)
        && asked.as_slice() == b"SBY".as_slice()
        && written == Ok(4)
        && is_back
        && end == Ok(0)
        && door.back(silent).is_ok()
}

// Asks by three bytes, and reads four and the end; then makes a connection, and cuts it from another thread while it is read.
fn ask<R: Net<Stream = TcpStream> + SystemClock + Sync + thread::Threads>(
    rt: &R,
    alloc: Global,
) -> bool {
    let mut dial = TcpDial::new(rt);
    let Ok((mut link, _cut)) = dial.dial(alloc, ADDRESS) else {
        return false;
    };
    let written = link.write(b"SBY");
    let mut answer = [0u8; 9];
    let first = link.read(&mut answer);
    let is_four = &answer[..4] == b"four".as_slice();
    let last = link.read(&mut answer);
    let Ok((mut silent, mut cut)) = dial.dial(alloc, ADDRESS) else {
        return false;
    };
    let clock = RealClock::new(rt);
    let (end, is_cut) = thread::join(
        rt,
        || silent.read(&mut answer),
        || {
            clock.pause(200);
            cut.cut().is_ok()
        },
    );
    written == Ok(3) && first == Ok(4) && is_four && last == Ok(0) && end == Ok(0) && is_cut
}

// Both ends at the same time.
fn answer_and_ask<
    R: Net<Stream = TcpStream, Listener = TcpListener> + SystemClock + Sync + thread::Threads,
>(rt: &R, alloc: Global, door: &mut TcpDoor<'_, R>) -> (bool, bool) {
    thread::join(rt, || answer(door, alloc), || ask(rt, alloc))
}

#[test]
fn connections_carry_bytes_and_are_cut(rt: HostRuntime) -> Result<(), Failure> {
    let alloc = rt.alloc();
    let mut door = TcpDoor::new(&rt);
    assert!(rt; matches!(door.next(alloc), Err(Fail::Failed)));
    assert!(rt; matches!(door.listen(alloc, "127.0.0.1"), Err(Fail::Failed)));
    assert!(rt; door.listen(alloc, ADDRESS).is_ok());
    let mut dial = TcpDial::new(&rt);
    assert!(rt; matches!(dial.dial(alloc, "127.0.0.1:1"), Err(Fail::Failed)));
    assert_eq!(rt; answer_and_ask(&rt, alloc, &mut door), (true, true));
    Ok(())
}
