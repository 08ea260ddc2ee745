// A chunk of a signal.

ghost use Rattle.std.specs.Prelude.{◌≡◌, ◌+◌, ◌<◌, ◌≤◌};
ghost use Rattle.design_signals.specs.Chunks.{HasRoom, IsChunk, above, bits_from, chunk_bits};

use crate::sig_bit::SigBit;

/// Bits that stand side by side: the lowest, and how many they are.
#[derive(Clone, Copy, Debug)]
pub struct Chunk {
    pub first: SigBit,
    pub width: u32,
}

/// The bit that stands `place` above a bit of its chunk.
pub fn above(first: SigBit, place: u32) -> SigBit
    requires { HasRoom first (place + 1) }
    ensures { result ≡ above first place }
{
    match first {
        SigBit::Wire(wire, bit) => SigBit::Wire(wire, bit + place),
        SigBit::Const(bit) => SigBit::Const(bit),
        SigBit::Free(number) => SigBit::Free(number - place),
    }
}

/// Of a chunk, `count` bits from its bit `low` on.
pub fn part(chunk: Chunk, low: u32, count: u32) -> Chunk
    requires chunk { IsChunk chunk }
    requires some { 0 < count }
    requires within { low + count ≤ chunk.width }
    ensures chunk { IsChunk result }
    ensures bits { chunk_bits result ≡ bits_from chunk.first low count }
{
    Chunk {
        first: above(chunk.first, low),
        width: count,
    }
}
