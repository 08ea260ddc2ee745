// Connections of the system, and what cuts them.

ghost use Rattle.std.specs.Prelude.{◌≡◌, None, IfOk};

use net_link::{Cut, Link};
use sby_edge::Failed;
use std::io::{self, Read, Write};
use std::net::{Shutdown, TcpStream};
use std::time::Duration;

/// One end of a TCP connection. Each of its calls that fails is counted.
#[derive(Drop)]
pub struct TcpLink {
    stream: TcpStream,
    pub(crate) faults: u64,
}

impl TcpLink {
    // An end on which nothing failed yet. What is written is sent at once.
    pub(crate) fn new(stream: TcpStream) -> io::Result<Self>
        ensures { IfOk result (λ link. link.faults ≡ 0) }
    {
        stream.set_nodelay(true)?;
        Ok(TcpLink { stream, faults: 0 })
    }
}

impl TcpLink {
    // Tells the other end that no more is written, and bounds each read that follows. Whether both could be done.
    pub(crate) fn end_writes(&self, millis: u64) -> bool {
        let most = Some(Duration::from_millis(millis));
        self.stream.shutdown(Shutdown::Write).is_ok() && self.stream.set_read_timeout(most).is_ok()
    }
}

impl Link for TcpLink {
    ghost left = { λ _. None };

    ghost written = { λ _. None };

    ghost faults = { λ l. l.faults };

    fn read(&mut self, buf: &mut [u8]) -> Result<usize, Failed> {
        match self.stream.read(buf) {
            Ok(count) => Ok(count),
            Err(_) => {
                self.faults = self.faults.saturating_add(1);
                Err(Failed)
            }
        }
    }

    fn write(&mut self, piece: &[u8]) -> Result<usize, Failed> {
        match self.stream.write(piece) {
            Ok(count) if count > 0 || piece.is_empty() => Ok(count),
            _ => {
                self.faults = self.faults.saturating_add(1);
                Err(Failed)
            }
        }
    }
}

/// What shuts a TCP connection down.
#[derive(Drop)]
pub struct TcpCut {
    stream: TcpStream,
    pub(crate) faults: u64,
}

impl TcpCut {
    // What shuts down the connection of this stream.
    pub(crate) fn new(stream: TcpStream) -> Self
        ensures { result.faults ≡ 0 }
    {
        TcpCut { stream, faults: 0 }
    }
}

impl Cut for TcpCut {
    ghost faults = { λ c. c.faults };

    fn cut(&mut self) -> Result<(), Failed> {
        match self.stream.shutdown(Shutdown::Both) {
            Ok(()) => Ok(()),
            Err(_) => {
                self.faults = self.faults.saturating_add(1);
                Err(Failed)
            }
        }
    }
}
