// Connections of the system that are asked for.

ghost use Rattle.std.specs.Prelude.{◌≡◌, None, IfOk};

use crate::tcp_door::{TcpGuest, with_bounded_writes};
use crate::tcp_link::TcpCut;
use net_link::{Dial, Link};
use sby_edge::{Fail, Failed};
use std::alloc::Global;
use std::io;
use std::net::{Net, TcpStream, ToSocketAddrs};
use std::time::Duration;

// How many seconds a host may take to answer that it is there.
const CONNECT: u64 = 10;

/// The end of a connection that was asked for. Its writes wait as those of a guest do, so that a host that reads nothing can't keep its
/// asker; its reads wait for as long as the host searches.
#[derive(Drop)]
pub struct TcpHost {
    guest: TcpGuest,
}

impl Link for TcpHost {
    ghost left = { λ _. None };

    ghost written = { λ _. None };

    ghost faults = { λ h. h.guest.link.faults };

    fn read(&mut self, buf: &mut [u8]) -> Result<usize, Failed> {
        self.guest.link.read(buf)
    }

    fn write(&mut self, piece: &[u8]) -> Result<usize, Failed> {
        self.guest.write(piece)
    }
}

/// Makes TCP connections. A host that doesn't answer within ten seconds isn't there.
#[derive(Drop)]
pub struct TcpDial<'a, R> {
    rt: &'a R,
    faults: u64,
}

impl<'a, R> TcpDial<'a, R> {
    /// No call failed yet.
    pub fn new(rt: &'a R) -> Self
        ensures { result.faults ≡ 0 }
    {
        TcpDial { rt, faults: 0 }
    }
}

// The first connection that one of the host's addresses takes.
fn connect<R: Net<Stream = TcpStream>>(rt: &R, address: &str) -> io::Result<TcpStream> {
    let mut last = io::Error::from(io::ErrorKind::NotFound);
    for address in address.to_socket_addrs(rt)? {
        match TcpStream::connect_timeout(rt, &address, Duration::from_secs(CONNECT)) {
            Ok(stream) => return Ok(stream),
            Err(error) => last = error,
        }
    }
    Err(last)
}

// A connection, and what shuts it down.
fn connect_both<R: Net<Stream = TcpStream>>(rt: &R, address: &str) -> io::Result<(TcpHost, TcpCut)>
    ensures { IfOk result (λ pair. (pair.0.guest.link.faults ≡ 0) × (pair.1.faults ≡ 0)) }
{
    let stream = connect(rt, address)?;
    let again = stream.try_clone()?;
    let guest = with_bounded_writes(stream)?;
    Ok((TcpHost { guest }, TcpCut::new(again)))
}

impl<'a, R: Net<Stream = TcpStream>> Dial for TcpDial<'a, R> {
    type Link = TcpHost;

    type Cut = TcpCut;

    ghost told = { λ _. None };

    ghost faults = { λ d. d.faults };

    fn tells(&self) -> bool {
        false
    }

    fn dial(&mut self, _alloc: Global, address: &str) -> Result<(TcpHost, TcpCut), Fail> {
        match connect_both(self.rt, address) {
            Ok(pair) => Ok(pair),
            Err(_) => {
                self.faults = self.faults.saturating_add(1);
                Err(Fail::Failed)
            }
        }
    }
}
