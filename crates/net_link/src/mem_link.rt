// A connection in memory.

ghost use Rattle.std.specs.Prelude.{◌≡◌, ◌↔◌, ◌⊎◌, ◌<◌, ◌≤◌, [], Some, IfOk, IsErr, length, take};
ghost use Rattle.sby_edge.specs.Calls.{NextFails, uncalled};
ghost use Rattle.sby_edge.specs.Cause.{HasPlainCause};
ghost use Rattle.sby_edge.specs.Memory.{IsFull};
ghost use Rattle.sby_edge.specs.Sink.{Takes};
ghost use Rattle.net_link.specs.Link.{Receives};

use crate::link::Link;
use sby_edge::{Calls, Failed};
use std::alloc::{AllocError, Global};
use std::marker::Model;

/// What a link in memory does: the bytes that its other end sends, how many bytes it takes, and how many a call moves at most, where 0
/// is taken as 1; which of its reads and writes fail, counted together from 1, and which calls of its cut do.
#[derive(Drop, Debug)]
pub struct LinkScript {
    pub bytes: Vec<u8>,
    pub room: usize,
    pub most: usize,
    pub failing: Vec<u64>,
    pub failing_cuts: Vec<u64>,
}

/// A link in memory. It fails where its script says so, and where it has no room for a piece.
#[derive(Drop)]
pub struct MemLink {
    bytes: Vec<u8>,
    // How many bytes were read.
    at: usize,
    taken: Vec<u8>,
    // How many more bytes it takes.
    room: usize,
    // How many bytes a call moves at most.
    most: usize,
    calls: Calls,
}

impl Model for MemLink {
    ghost use Rattle.std.specs.Prelude.{◌+◌, ◌<◌, ◌≤◌, drop, length, vec_capacity, vec_len};
    ghost use Rattle.net_link.specs.Memory.{LinkOf};

    ghost Value = { LinkOf };

    ghost view = { λ l. record { left = drop l.at l.bytes.items; written = l.taken.items; room = l.room; calls = l.calls } };

    ghost invariant = { λ l. (l.at ≤ length l.bytes.items) × (0 < l.most) × (vec_len l.taken + l.room ≤ vec_capacity l.taken) };
}

impl MemLink {
    /// A link of this script, at its beginning.
    pub fn new(alloc: Global, script: &LinkScript) -> Result<Self, AllocError>
        ensures { IfOk result (λ link. link ≡ record { left = script.now.bytes.items; written = []; room = script.now.room; calls = uncalled script.now.failing.items }) }
    {
        Ok(MemLink {
            bytes: Vec::from_slice(alloc, &script.bytes)?,
            at: 0,
            taken: Vec::with_capacity(alloc, script.room)?,
            room: script.room,
            most: script.most.max(1),
            calls: Calls::new(Vec::from_slice(alloc, &script.failing)?),
        })
    }

    /// The bytes written so far.
    pub fn written(&self) -> &[u8]
        ensures { result.now ≡ self.now.written }
    {
        &self.taken
    }

    /// How often a call failed; it stays at the greatest u64.
    pub fn faults(&self) -> u64
        ensures { result ≡ self.now.calls.faults }
    {
        self.calls.faults()
    }
}

// Copies the first bytes.
fn copy(bytes: &[u8], count: usize, buf: &mut [u8])
    requires given { count ≤ length bytes.now }
    requires room { count ≤ length buf.old }
    ensures { take count buf.new ≡ take count bytes.now }
{
    buf[..count].copy_from_slice(&bytes[..count]);
}

impl Link for MemLink {
    ghost left = { λ l. Some l.left };

    ghost written = { λ l. Some l.written };

    ghost faults = { λ l. l.calls.faults };

    fn read(&mut self, buf: &mut [u8]) -> Result<usize, Failed>
        requires { 0 < length buf.old }
        ensures bytes { Receives (Some self.old.left) (Some self.new.left) buf.new result }
        ensures written { self.new.written ≡ self.old.written }
        ensures fits { IfOk result (λ count. count ≤ length buf.old) }
        ensures fails { IsErr result ↔ NextFails self.old.calls }
        ensures stands { IfOk result (λ _. self.new.calls.faults ≡ self.old.calls.faults) }
        ensures cause { HasPlainCause self.old.calls.faults self.new.calls.faults result }
    {
        self.calls.call(true)?;
        let left = self.bytes.split_at(self.at).1;
        let count = left.len().min(buf.len()).min(self.most);
        copy(left, count, buf);
        self.at += count;
        Ok(count)
    }

    fn write(&mut self, piece: &[u8]) -> Result<usize, Failed>
        ensures taken { Takes (Some self.old.written) (Some self.new.written) piece.now result }
        ensures left { self.new.left ≡ self.old.left }
        ensures fits { IfOk result (λ count. count ≤ length piece.now) }
        ensures some { IfOk result (λ count. length piece.now ≡ 0 ⊎ 0 < count) }
        ensures fails { IsErr result ↔ (NextFails self.old.calls ⊎ IsFull self.old.room piece.now) }
        ensures stands { IfOk result (λ _. self.new.calls.faults ≡ self.old.calls.faults) }
        ensures cause { HasPlainCause self.old.calls.faults self.new.calls.faults result }
    {
        let count = piece.len().min(self.room).min(self.most);
        self.calls.call(count > 0 || piece.is_empty())?;
        self.taken.extend_from_slice(&piece[..count]).unwrap();
        self.room -= count;
        Ok(count)
    }
}
