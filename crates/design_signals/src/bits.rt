// The bits of chunks, one by one.

ghost use Rattle.std.specs.Prelude.{◌≡◌, ◌↔◌, List, [], ◌∷◌, All, ◌++◌, IfSome, IfNone, IsTrue, false, OnOk};
ghost use Rattle.design_signals.specs.declared.sig_bit.SigBit.{SigBit};
ghost use Rattle.design_signals.specs.Chunks.{IsChunk, bits_of, chunk_bits};

use crate::chunk::{Chunk, above};
use crate::sig_bit::SigBit;
use std::alloc::AllocError;
use std::marker::Model;

/// The bits that are left of chunks, lowest first.
#[derive(Drop)]
pub struct Bits<'a> {
    chunks: &'a [Chunk],
    // the next bit's place in the first chunk
    place: u32,
}

impl<'a> Model for Bits<'a> {
    ghost use Rattle.std.specs.Prelude.{All, List, drop};
    ghost use Rattle.design_signals.specs.declared.sig_bit.SigBit.{SigBit};
    ghost use Rattle.design_signals.specs.Chunks.{IsChunk, IsPlaceIn, bits_of};

    ghost Value = { List SigBit };

    ghost view = { λ s. drop s.place (bits_of s.chunks.now) };

    ghost invariant = { λ s. record { chunks : All IsChunk s.chunks.now; place : IsPlaceIn s.place s.chunks.now } };
}

impl<'a> Bits<'a> {
    /// All bits of the chunks.
    pub fn new(chunks: &'a [Chunk]) -> Self
        requires { All IsChunk chunks.now }
        ensures { result ≡ bits_of chunks.now }
    {
        Bits { chunks, place: 0 }
    }

    /// The next bit, which is then left no longer; none where no bit is left.
    pub fn next(&mut self) -> Option<SigBit>
        ensures some { IfSome result (λ bit. self.old ≡ bit ∷ self.new) }
        ensures none { IfNone result ((self.old ≡ []) × (self.new ≡ [])) }
    {
        let (chunk, rest) = self.chunks.split_first()?;
        let (first, width) = (chunk.first, chunk.width);
        let bit = above(first, self.place);
        if self.place < width - 1 {
            self.place += 1;
        } else {
            self.chunks = rest;
            self.place = 0;
        }
        Some(bit)
    }
}

/// Whether the next bit is this one; it is then left no longer.
fn next_is(bits: &mut Bits, bit: SigBit) -> bool
    ensures yes { IsTrue result → bits.old ≡ bit ∷ bits.new }
    ensures no { result ≡ false → (rest : List SigBit) → bits.old ≡ bit ∷ rest → ⊥ }
{
    match bits.next() {
        Some(next) => next == bit,
        None => false,
    }
}

/// Whether the chunks have the same bits, however these are cut.
pub fn is_same(chunks: &[Chunk], others: &[Chunk]) -> bool
    requires chunks { All IsChunk chunks.now }
    requires others { All IsChunk others.now }
    ensures { IsTrue result ↔ (bits_of chunks.now ≡ bits_of others.now) }
{
    let mut left = Bits::new(chunks);
    let mut right = Bits::new(others);
    'bits: while let Some(bit) = left.next() {
        if !next_is(&mut right, bit) {
            return false;
        }
    }
    match right.next() {
        None => true,
        Some(_) => false,
    }
}

/// Adds the bits of a chunk, lowest first.
fn push_chunk(bits: &mut Vec<SigBit>, chunk: Chunk) -> Result<(), AllocError>
    requires { IsChunk chunk }
    ensures { OnOk result (bits.new.items ≡ bits.old.items ++ chunk_bits chunk) }
{
    for place in 0..chunk.width {
        bits.push(above(chunk.first, place))?;
    }
    Ok(())
}

/// Adds the bits of chunks, lowest first.
pub fn push_bits(bits: &mut Vec<SigBit>, chunks: &[Chunk]) -> Result<(), AllocError>
    requires { All IsChunk chunks.now }
    ensures { OnOk result (bits.new.items ≡ bits.old.items ++ bits_of chunks.now) }
{
    for chunk in chunks {
        push_chunk(bits, *chunk)?;
    }
    Ok(())
}
