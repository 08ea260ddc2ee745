// Files and output in memory.

ghost use Rattle.std.specs.Prelude.{◌≡◌, ◌+◌, ◌<◌, ◌≤◌, ◌⊎◌, ◌↔◌, ◌++◌, [], None, Some, IfOk, IfSome, IsNone, IsErr, OnOk, OnErr, length, min, option_copied, take};
ghost use Rattle.std.specs.FinMap as map;
ghost use Rattle.sby_edge.specs.Calls.{Called, NextFails, failed, served, uncalled};
ghost use Rattle.sby_edge.specs.Cause.{HasCause, HasPlainCause, greatest};
ghost use Rattle.sby_edge.specs.Files.{Blames, GotAt, GotFits, GotOf, PieceAt, PieceOf, put_at};
ghost use Rattle.sby_edge.specs.Memory.{IsFull, store_of};

use crate::calls::Calls;
use crate::contents::Contents;
use crate::source::gather;
use crate::{Fail, Failed, Files, Got, Sink, Source};
use std::alloc::{AllocError, Global};
use std::marker::Model;

/// A store in memory. The calls that its maker lists fail, and so does one for the content of a missing path. Contracts see its
/// contents and its calls.
#[derive(Drop)]
pub struct MemFiles {
    contents: Contents,
    calls: Calls,
    blamed: Option<String>,
}

impl Model for MemFiles {
    ghost use Rattle.std.specs.Prelude.{option_map, string_bytes};
    ghost use Rattle.sby_edge.specs.Memory.{FilesOf, files_code};

    ghost Value = { FilesOf };

    ghost coded = { files_code };

    ghost view = { λ m. record { contents = m.contents; calls = m.calls; blamed = option_map string_bytes m.blamed } };
}

impl MemFiles {
    /// An empty store. The listed calls of `get`, `get_piece`, `put` and `put_from` fail, counted together from 1.
    pub fn new(alloc: Global, failing: Vec<u64>) -> Self
        ensures empty { result.contents ≡ map.empty }
        ensures calls { result.calls ≡ uncalled failing.items }
        ensures blamed { result.blamed ≡ None }
    {
        MemFiles {
            contents: Contents::new(alloc),
            calls: Calls::new(failing),
            blamed: None,
        }
    }

    /// The content of a path. This isn't counted as a call.
    pub fn content(&self, path: &str) -> Option<&[u8]>
        ensures { option_copied result ≡ store_of self.now.contents path.now }
    {
        self.contents.get(path)
    }

    /// The path at which a call last failed; None where none did, or where memory ran out for the path.
    pub fn blamed(&self) -> Option<&str>
        ensures { option_copied result ≡ self.now.blamed }
    {
        self.blamed.as_deref()
    }

    // One more call, at this path, failed.
    fn fail(&mut self, alloc: Global, path: &str)
        ensures contents { self.new.contents ≡ self.old.contents }
        ensures calls { self.new.calls ≡ failed self.old.calls }
        ensures blamed { IfSome self.new.blamed (λ blamed. blamed ≡ path.now) }
        ensures later { self.old.calls.faults ≤ self.new.calls.faults }
        ensures stays { self.old.calls.faults ≡ greatest → self.new.calls.faults ≡ self.old.calls.faults }
    {
        self.blamed = String::from_str(alloc, path).ok();
        self.calls.fail();
    }
}

// What is got of a content.
pub(crate) fn cut(alloc: Global, bytes: &[u8], most: u64) -> Result<Got, AllocError>
    ensures got { IfOk result (λ got. GotOf bytes.now most got) }
    ensures fits { IfOk result (λ got. GotFits most got) }
{
    if bytes.len() as u64 <= most {
        Ok(Got::All(Vec::from_slice(alloc, bytes)?))
    } else {
        let end = most as usize + 1;
        Ok(Got::Long(Vec::from_slice(alloc, &bytes[..end])?))
    }
}

// A piece of a content.
fn piece_of(alloc: Global, bytes: &[u8], from: u64, most: usize) -> Result<Vec<u8>, AllocError>
    ensures piece { IfOk result (λ piece. PieceOf bytes.now from most piece.items) }
    ensures fits { IfOk result (λ piece. length piece.items ≤ most) }
{
    let start = from.min(bytes.len() as u64) as usize;
    let rest = &bytes[start..];
    Vec::from_slice(alloc, &rest[..most.min(rest.len())])
}

impl Files for MemFiles {
    ghost told = { λ m. Some (store_of m.contents) };

    ghost faults = { λ m. m.calls.faults };

    ghost blamed = { λ m. m.blamed };

    fn get(&mut self, alloc: Global, path: &str, most: u64) -> Result<Got, Fail>
        ensures content { IfOk result (λ got. GotAt (store_of self.old.contents path.now) most got) }
        ensures fits { IfOk result (λ got. GotFits most got) }
        ensures same { self.new.contents ≡ self.old.contents }
        ensures fails { (result ≡ Err Fail.Failed) ↔ (NextFails self.old.calls ⊎ IsNone (store_of self.old.contents path.now)) }
        ensures called { Called self.old.calls self.new.calls result }
        ensures cause { HasCause self.old.calls.faults self.new.calls.faults result }
        ensures blames { Blames self.old.blamed self.new.blamed path.now result }
    {
        if self.calls.next_fails() {
            self.fail(alloc, path);
            return Err(Fail::Failed);
        }
        match self.contents.get(path) {
            Some(content) => {
                let got = cut(alloc, content, most)?;
                self.calls.serve();
                Ok(got)
            }
            None => {
                self.fail(alloc, path);
                Err(Fail::Failed)
            }
        }
    }

    fn get_piece(
        &mut self,
        alloc: Global,
        path: &str,
        from: u64,
        most: usize,
    ) -> Result<Vec<u8>, Fail>
        ensures content { IfOk result (λ piece. PieceAt (store_of self.old.contents path.now) from most piece.items) }
        ensures fits { IfOk result (λ piece. length piece.items ≤ most) }
        ensures same { self.new.contents ≡ self.old.contents }
        ensures fails { (result ≡ Err Fail.Failed) ↔ (NextFails self.old.calls ⊎ IsNone (store_of self.old.contents path.now)) }
        ensures called { Called self.old.calls self.new.calls result }
        ensures cause { HasCause self.old.calls.faults self.new.calls.faults result }
        ensures blames { Blames self.old.blamed self.new.blamed path.now result }
    {
        if self.calls.next_fails() {
            self.fail(alloc, path);
            return Err(Fail::Failed);
        }
        match self.contents.get(path) {
            Some(content) => {
                let piece = piece_of(alloc, content, from, most)?;
                self.calls.serve();
                Ok(piece)
            }
            None => {
                self.fail(alloc, path);
                Err(Fail::Failed)
            }
        }
    }

    fn put(&mut self, alloc: Global, path: &str, bytes: &[u8]) -> Result<(), Fail>
        ensures ok { OnOk result (store_of self.new.contents ≡ put_at path.now bytes.now (store_of self.old.contents)) }
        ensures err { OnErr result (self.new.contents ≡ self.old.contents) }
        ensures fails { (result ≡ Err Fail.Failed) ↔ NextFails self.old.calls }
        ensures called { Called self.old.calls self.new.calls result }
        ensures cause { HasCause self.old.calls.faults self.new.calls.faults result }
        ensures blames { Blames self.old.blamed self.new.blamed path.now result }
    {
        if self.calls.next_fails() {
            self.fail(alloc, path);
            return Err(Fail::Failed);
        }
        let content = Vec::from_slice(alloc, bytes)?;
        self.contents.put(alloc, path, content)?;
        self.calls.serve();
        Ok(())
    }

    // The content is gathered first, so that the old one stands where memory runs out. A listed call reads nothing of the source.
    fn put_from<S: Source>(&mut self, alloc: Global, path: &str, source: &mut S) -> Result<(), Fail>
        ensures ok { OnOk result (store_of self.new.contents ≡ put_at path.now (S.rest source.old) (store_of self.old.contents)) }
        ensures spent { OnOk result (S.rest source.new ≡ []) }
        ensures err { OnErr result (self.new.contents ≡ self.old.contents) }
        ensures fails { (result ≡ Err Fail.Failed) ↔ NextFails self.old.calls }
        ensures called { Called self.old.calls self.new.calls result }
        ensures cause { HasCause self.old.calls.faults self.new.calls.faults result }
        ensures blames { Blames self.old.blamed self.new.blamed path.now result }
    {
        if self.calls.next_fails() {
            self.fail(alloc, path);
            return Err(Fail::Failed);
        }
        let content = gather(alloc, source)?;
        self.contents.put(alloc, path, content)?;
        self.calls.serve();
        Ok(())
    }
}

/// Output in memory, with room for this many bytes, which its maker reserves: `write` takes no memory. The calls that its maker lists
/// fail, and so does one that finds no room. Contracts see the bytes taken, the room left and its calls.
#[derive(Drop)]
pub struct MemSink {
    taken: Vec<u8>,
    room: usize,
    calls: Calls,
    ended: Option<usize>,
}

impl Model for MemSink {
    ghost use Rattle.std.specs.Prelude.{◌+◌, ◌≤◌, vec_len, vec_capacity};
    ghost use Rattle.sby_edge.specs.Memory.{SinkOf};

    ghost Value = { SinkOf };

    ghost view = { λ s. record { taken = s.taken.items; room = s.room; calls = s.calls; ended = s.ended } };

    ghost invariant = { λ s. vec_len s.taken + s.room ≤ vec_capacity s.taken };
}

impl MemSink {
    /// A sink that has taken nothing. The listed calls of `write` fail, counted from 1.
    pub fn new(alloc: Global, room: usize, failing: Vec<u64>) -> Result<Self, AllocError>
        ensures { IfOk result (λ sink. sink ≡ record { taken = []; room = room; calls = uncalled failing.items; ended = None }) }
    {
        Ok(MemSink {
            taken: Vec::with_capacity(alloc, room)?,
            room,
            calls: Calls::new(failing),
            ended: None,
        })
    }

    /// The bytes taken.
    pub fn bytes(&self) -> &[u8]
        ensures { result.now ≡ self.now.taken }
    {
        &self.taken
    }
}

impl Sink for MemSink {
    ghost taken = { λ s. Some s.taken };

    ghost faults = { λ s. s.calls.faults };

    ghost ended = { λ s. s.ended };

    fn write(&mut self, piece: &[u8]) -> Result<usize, Failed>
        ensures taken { IfOk result (λ count. self.new.taken ≡ self.old.taken ++ take count piece.now) }
        ensures count { IfOk result (λ count. (count ≡ min (length piece.now) self.old.room)
            × (self.new.room + count ≡ self.old.room) × (self.new.calls ≡ served self.old.calls) × (self.new.ended ≡ self.old.ended)) }
        ensures err { OnErr result (self.new ≡ record self.old { calls = failed self.old.calls; ended = Some (length self.old.taken) }) }
        ensures fails { IsErr result ↔ (NextFails self.old.calls ⊎ IsFull self.old.room piece.now) }
        ensures cause { HasPlainCause self.old.calls.faults self.new.calls.faults result }
    {
        let count = piece.len().min(self.room);
        if self.calls.next_fails() || (count == 0 && piece.len() > 0) {
            self.calls.fail();
            self.ended = Some(self.taken.len());
            return Err(Failed);
        }
        self.taken.extend_from_slice(&piece[..count]).unwrap();
        self.room -= count;
        self.calls.serve();
        Ok(count)
    }
}
