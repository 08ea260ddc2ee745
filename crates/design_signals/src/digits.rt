// Digits as chunks: bits that continue a chunk downwards widen it.

ghost use Rattle.std.specs.Prelude.{◌≡◌, ◌+◌, ◌<◌, ◌≤◌, ◌^◌, All, ℕ, IsTrue, [], ◌∷◌, ◌++◌, IfSome, OnOk, length, drop, take};
ghost use Rattle.design_signals.specs.Chunks.{HasRoom, IsChunk, above};
ghost use Rattle.design_signals.specs.Parts.{falling, row_of};

use crate::chunk::Chunk;
use crate::sig_bit::SigBit;
use std::alloc::AllocError;

/// Whether the bit stands right below another one, so that both can be of one chunk.
fn is_below(bit: SigBit, next: SigBit) -> bool
    ensures bit { IsTrue result → above bit 1 ≡ next }
    ensures room { IsTrue result → (n : ℕ) → HasRoom next n → HasRoom bit (n + 1) }
{
    match bit {
        SigBit::Wire(wire, bit) => {
            matches!(next, SigBit::Wire(other, at) if wire == other && at > 0 && at - 1 == bit)
        }
        SigBit::Const(bit) => matches!(next, SigBit::Const(other) if bit == other),
        SigBit::Free(number) => {
            matches!(next, SigBit::Free(other) if number > 0 && number - 1 == other)
        }
    }
}

/// The chunk with this bit below it, if the two are one chunk.
pub fn widened(chunk: Chunk, bit: SigBit) -> Option<Chunk>
    requires { IsChunk chunk }
    ensures chunk { IfSome result IsChunk }
    ensures bits { IfSome result (λ c. falling c ≡ falling chunk ++ bit ∷ []) }
{
    if chunk.width < u32::MAX && is_below(bit, chunk.first) {
        Some(Chunk {
            first: bit,
            width: chunk.width + 1,
        })
    } else {
        None
    }
}

/// Adds a bit below the row of the chunks from `start` on.
pub fn push_below(chunks: &mut Vec<Chunk>, start: usize, bit: SigBit) -> Result<(), AllocError>
    requires each { All IsChunk chunks.old.items }
    requires start { start ≤ length chunks.old.items }
    requires room { HasRoom bit 1 }
    ensures row { OnOk result (row_of (drop start chunks.new.items) ≡ row_of (drop start chunks.old.items) ++ bit ∷ []) }
    ensures before { take start chunks.new.items ≡ take start chunks.old.items }
    ensures each { All IsChunk chunks.new.items }
    ensures start { start ≤ length chunks.new.items }
{
    let len = chunks.len();
    if start < len {
        if let Some(chunk) = widened(chunks[len - 1], bit) {
            chunks[len - 1] = chunk;
            return Ok(());
        }
    }
    chunks.push(Chunk {
        first: bit,
        width: 1,
    })?;
    Ok(())
}
