// Connections of the system that are taken in.

ghost use Rattle.std.specs.Prelude.{◌≡◌, ◌⊎◌, ◌+◌, ◌/◌, ◌<◌, ◌≤◌, None, IfOk, OnOk, length, min};
ghost use Rattle.sby_edge.specs.Cause.{HasPlainCause, Rose, greatest};
ghost use Rattle.sby_edge.specs.Sink.{Takes};
ghost use Rattle.net_link.specs.Link.{Receives};

use crate::clock::monotonic_millis;
use crate::tcp_link::TcpLink;
use net_link::{Door, Link};
use sby_edge::{Fail, Failed, Memory};
use std::alloc::Global;
use std::io::{self, ErrorKind};
use std::net::{Net, TcpListener, TcpStream};
use std::time::Duration;

// How many seconds a read or a write waits.
const CALL: u64 = 10;

// How many milliseconds the reads and writes of a connection wait in all, and for how many bytes that pass they wait one more.
const PATIENCE: u64 = 60_000;

const PACE: u64 = 1024;

// How many milliseconds each read waits for what is still sent once a connection is over, and how many reads there are.
const LEAVING: u64 = 1000;

const LEFT: u32 = 16;

/// The end of a connection that came to a door. No call of it waits for more than ten seconds; and one fails where all calls have waited
/// for longer than a minute, and a second more for each MiB that passed. So the other end can't keep it for ever.
#[derive(Drop)]
pub struct TcpGuest {
    pub(crate) link: TcpLink,
    // How many milliseconds its calls waited, and how many bytes passed.
    waited: u64,
    passed: u64,
}

// A connection that came, with the bounds of its calls.
fn guest(stream: TcpStream) -> io::Result<TcpGuest>
    ensures { IfOk result (λ guest. guest.link.faults ≡ 0) }
{
    stream.set_read_timeout(Some(Duration::from_secs(CALL)))?;
    with_bounded_writes(stream)
}

// A connection with the bounds of its calls, but for that of a single read.
pub(crate) fn with_bounded_writes(stream: TcpStream) -> io::Result<TcpGuest>
    ensures { IfOk result (λ guest. guest.link.faults ≡ 0) }
{
    stream.set_write_timeout(Some(Duration::from_secs(CALL)))?;
    let link = TcpLink::new(stream)?;
    Ok(TcpGuest {
        link,
        waited: 0,
        passed: 0,
    })
}

impl TcpGuest {
    // Adds what a call took since then and how many bytes it moved. It fails where that was too long.
    fn pass(&mut self, start: u64, count: usize) -> Result<usize, Failed>
        ensures same { IfOk result (λ n. n ≡ count) }
        ensures still { OnOk result (self.new.link.faults ≡ self.old.link.faults) }
        ensures patient { OnOk result (self.new.waited ≤ 60000 + self.new.passed / 1024) }
        ensures waited { self.old.waited ≤ self.new.waited }
        ensures moved { self.new.passed ≡ min (self.old.passed + count) greatest }
        ensures cause { HasPlainCause self.old.link.faults self.new.link.faults result }
    {
        let took = monotonic_millis().saturating_sub(start);
        self.waited = self.waited.saturating_add(took);
        self.passed = self.passed.saturating_add(count as u64);
        if self.waited > PATIENCE + self.passed / PACE {
            self.link.faults = self.link.faults.saturating_add(1);
            return Err(Failed);
        }
        Ok(count)
    }
}

impl TcpGuest {
    // Ends the connection. What the other end still sends is read first, up to a bound: where some of it were left unread, the system
    // would take back what was written and hasn't arrived.
    fn leave(mut self) {
        if !self.link.end_writes(LEAVING) {
            return;
        }
        let mut rest = [0u8; 4096];
        for _ in 0..LEFT {
            match self.read(&mut rest) {
                Ok(count) if count > 0 => {}
                _ => return,
            }
        }
    }
}

impl Link for TcpGuest {
    ghost left = { λ _. None };

    ghost written = { λ _. None };

    ghost faults = { λ g. g.link.faults };

    fn read(&mut self, buf: &mut [u8]) -> Result<usize, Failed>
        requires { 0 < length buf.old }
        ensures bytes { Receives None None buf.new result }
        ensures patient { OnOk result (self.new.waited ≤ 60000 + self.new.passed / 1024) }
        ensures waited { self.old.waited ≤ self.new.waited }
        ensures moved { IfOk result (λ count. self.new.passed ≡ min (self.old.passed + count) greatest) }
        ensures fits { IfOk result (λ count. count ≤ length buf.old) }
        ensures stands { IfOk result (λ _. self.new.link.faults ≡ self.old.link.faults) }
        ensures cause { HasPlainCause self.old.link.faults self.new.link.faults result }
    {
        let start = monotonic_millis();
        let count = self.link.read(buf)?;
        self.pass(start, count)
    }

    fn write(&mut self, piece: &[u8]) -> Result<usize, Failed>
        ensures taken { Takes None None piece.now result }
        ensures patient { OnOk result (self.new.waited ≤ 60000 + self.new.passed / 1024) }
        ensures waited { self.old.waited ≤ self.new.waited }
        ensures moved { IfOk result (λ count. self.new.passed ≡ min (self.old.passed + count) greatest) }
        ensures fits { IfOk result (λ count. count ≤ length piece.now) }
        ensures some { IfOk result (λ count. count ≡ 0 → 0 < length piece.now → Rose self.old.link.faults self.new.link.faults) }
        ensures stands { IfOk result (λ count. (0 < count) ⊎ (length piece.now ≡ 0) → self.new.link.faults ≡ self.old.link.faults) }
        ensures cause { HasPlainCause self.old.link.faults self.new.link.faults result }
    {
        let start = monotonic_millis();
        let count = self.link.write(piece)?;
        self.pass(start, count)
    }
}

/// Takes TCP connections in, one after the other, at the address that it is told and no other.
#[derive(Drop)]
pub struct TcpDoor<'a, R> {
    rt: &'a R,
    listener: Option<TcpListener>,
    backs: u64,
    faults: u64,
}

impl<'a, R> TcpDoor<'a, R> {
    /// A door that isn't open yet.
    pub fn new(rt: &'a R) -> Self
        ensures { (result.backs ≡ 0) × (result.faults ≡ 0) }
    {
        TcpDoor {
            rt,
            listener: None,
            backs: 0,
            faults: 0,
        }
    }

    // The next connection. One that is gone before it can be taken in doesn't count.
    fn accept(&self) -> Result<TcpGuest, Failed>
        ensures { IfOk result (λ guest. guest.link.faults ≡ 0) }
    {
        let Some(listener) = &self.listener else {
            return Err(Failed);
        };
        for _ in 0..u64::MAX {
            match listener.accept() {
                Ok((stream, _)) => {
                    if let Ok(guest) = guest(stream) {
                        return Ok(guest);
                    }
                }
                Err(error) if error.kind() == ErrorKind::ConnectionAborted => {}
                Err(error) if error.kind() == ErrorKind::Interrupted => {}
                Err(_) => return Err(Failed),
            }
        }
        Err(Failed)
    }
}

impl<'a, R: Net<Stream = TcpStream, Listener = TcpListener>> Door for TcpDoor<'a, R> {
    type Link = TcpGuest;

    ghost listens_at = { λ _. None };

    ghost coming = { λ _. None };

    ghost came_back = { λ _. None };

    ghost backs = { λ d. d.backs };

    ghost faults = { λ d. d.faults };

    fn listen(&mut self, _alloc: Global, address: &str) -> Result<(), Fail> {
        match TcpListener::bind(self.rt, address) {
            Ok(listener) => {
                self.listener = Some(listener);
                Ok(())
            }
            Err(_) => {
                self.faults = self.faults.saturating_add(1);
                Err(Fail::Failed)
            }
        }
    }

    fn next(&mut self, _alloc: Global) -> Result<TcpGuest, Fail> {
        match self.accept() {
            Ok(guest) => Ok(guest),
            Err(Failed) => {
                self.faults = self.faults.saturating_add(1);
                Err(Fail::Failed)
            }
        }
    }

    fn back(&mut self, guest: TcpGuest) -> Result<(), Memory> {
        guest.leave();
        self.backs = self.backs.saturating_add(1);
        Ok(())
    }
}
