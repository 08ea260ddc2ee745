// Signals.

ghost use Rattle.std.specs.Prelude.{◌≡◌, ◌+◌, ◌<◌, ◌≤◌, [], ◌++◌, length, slice_get, Some, take, drop, OnOk, OnErr, IfOk, All};
ghost use Rattle.design_signals.specs.Chunks.{IsChunk, bits_of, chunk_bits};

use crate::chunk::{Chunk, above, part};
use crate::sig_bit::SigBit;
use std::alloc::{AllocError, Global};
use std::marker::Model;

/// A signal: its bits, lowest first.
#[derive(Drop)]
pub struct Signal {
    chunks: Vec<Chunk>,
    len: usize,
}

impl Model for Signal {
    ghost use Rattle.std.specs.Prelude.{◌≡◌, All, List, length};
    ghost use Rattle.design_signals.specs.declared.sig_bit.SigBit.{SigBit};
    ghost use Rattle.design_signals.specs.Chunks.{IsChunk, bits_of};

    ghost Value = { List SigBit };

    ghost view = { λ s. bits_of s.chunks.items };

    ghost invariant = { λ s. record { chunks : All IsChunk s.chunks.items; len : s.len ≡ length (bits_of s.chunks.items) } };
}

impl Signal {
    /// A signal without bits.
    pub fn new(alloc: Global) -> Signal
        ensures { result ≡ [] }
    {
        Signal {
            chunks: Vec::new(alloc),
            len: 0,
        }
    }

    /// How many bits it has.
    pub fn len(&self) -> usize
        ensures { result ≡ length self.now }
    {
        self.len
    }

    /// The chunks, lowest first.
    pub fn chunks(&self) -> &[Chunk]
        ensures bits { bits_of result.now ≡ self.now }
        ensures each { All IsChunk result.now }
    {
        self.chunks.as_slice()
    }

    /// The chunks, given back.
    pub fn into_chunks(self) -> Vec<Chunk>
        ensures bits { bits_of result.items ≡ self }
        ensures each { All IsChunk result.items }
    {
        self.chunks
    }

    /// Adds a chunk above the others. An error leaves the signal as it was.
    pub fn push(&mut self, chunk: Chunk) -> Result<(), AllocError>
        requires { IsChunk chunk }
        ensures ok { OnOk result (self.new ≡ self.old ++ chunk_bits chunk) }
        ensures err { OnErr result (self.new ≡ self.old) }
    {
        let Some(len) = self.len.checked_add(chunk.width as usize) else {
            return Err(AllocError);
        };
        self.chunks.push(chunk)?;
        self.len = len;
        Ok(())
    }

    /// The signal with the bits of other chunks above its own.
    pub fn joined(self, above: &[Chunk]) -> Result<Signal, AllocError>
        requires { All IsChunk above.now }
        ensures { IfOk result (λ whole. whole ≡ self ++ bits_of above.now) }
    {
        let mut whole = self;
        for chunk in above {
            whole.push(*chunk)?;
        }
        Ok(whole)
    }

    /// The bit at a place.
    pub fn bit(&self, place: usize) -> SigBit
        requires { place < length self.now }
        ensures { slice_get self.now place ≡ Some result }
    {
        let mut left = place;
        for chunk in self.chunks.as_slice() {
            let width = chunk.width as usize;
            if left < width {
                return above(chunk.first, left as u32);
            }
            left -= width;
        }
        unreachable!()
    }

    /// The bits from `low` on, `width` of them.
    pub fn slice(&self, alloc: Global, low: usize, width: usize) -> Result<Signal, AllocError>
        requires { low + width ≤ length self.now }
        ensures { IfOk result (λ kept. kept ≡ take width (drop low self.now)) }
    {
        let mut kept = Signal::new(alloc);
        let mut skip = low;
        let mut left = width;
        for chunk in self.chunks.as_slice() {
            let room = (chunk.width as usize).saturating_sub(skip);
            let count = room.min(left);
            if count > 0 {
                kept.push(part(*chunk, skip as u32, count as u32))?;
            }
            left -= count;
            skip = skip.saturating_sub(chunk.width as usize);
        }
        Ok(kept)
    }
}
