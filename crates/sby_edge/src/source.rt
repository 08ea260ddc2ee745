// Bytes that come piece by piece.

ghost use Rattle.std.specs.Prelude.{◌≡◌, ℕ, ◌<◌, ◌≤◌, ◌++◌, [], List, IfOk, OnOk, length, take};

use std::alloc::{AllocError, Global};

/// Bytes that come piece by piece.
pub trait Source {
    /// The bytes that are still to come.
    ghost rest: { Self → List ℕ };

    /// Fills the front of the buffer, and answers how many bytes it did: 0 only where none is left, or for an empty buffer.
    fn next(&mut self, buffer: &mut [u8]) -> usize
        ensures fits { result ≤ length buffer.new }
        ensures piece { rest self.old ≡ take result buffer.new ++ rest self.new }
        ensures ends { result ≡ 0 → 0 < length buffer.new → rest self.old ≡ [] };
}

/// The bytes of a slice, as many at a time as there is room for.
#[derive(Drop)]
pub struct Bytes<'a> {
    rest: &'a [u8],
}

impl<'a> Bytes<'a> {
    pub fn new(bytes: &'a [u8]) -> Self
        ensures { result.rest.now ≡ bytes.now }
    {
        Bytes { rest: bytes }
    }
}

impl<'a> Source for Bytes<'a> {
    ghost rest = { λ b. b.rest.now };

    fn next(&mut self, buffer: &mut [u8]) -> usize {
        let count = self.rest.len().min(buffer.len());
        let (piece, rest) = self.rest.split_at(count);
        buffer[..count].copy_from_slice(piece);
        self.rest = rest;
        count
    }
}

/// Fills the front of the buffer from a source, and answers how many bytes: fewer than there is room for only where the source ends.
pub fn fill<S: Source>(source: &mut S, buffer: &mut [u8]) -> usize
    ensures fits { result ≤ length buffer.new }
    ensures piece { S.rest source.old ≡ take result buffer.new ++ S.rest source.new }
    ensures ends { result < length buffer.new → S.rest source.new ≡ [] }
{
    let mut filled = 0;
    while filled < buffer.len() {
        let count = source.next(&mut buffer[filled..]);
        if count == 0 {
            break;
        }
        filled += count;
    }
    filled
}

// All that a source gives.
pub(crate) fn gather<S: Source>(alloc: Global, source: &mut S) -> Result<Vec<u8>, AllocError>
    ensures bytes { IfOk result (λ bytes. bytes.items ≡ S.rest source.old) }
    ensures spent { OnOk result (S.rest source.new ≡ []) }
{
    let mut bytes = Vec::new(alloc);
    let mut buffer = [0u8; 4096];
    loop {
        let count = fill(source, &mut buffer);
        bytes.extend_from_slice(&buffer[..count])?;
        if count < buffer.len() {
            return Ok(bytes);
        }
    }
}
