// Rows of a signal while it is read.

ghost use Rattle.std.specs.Prelude.{◌≡◌, ◌+◌, ◌<◌, ◌≤◌, ◌^◌, All, [], ◌∷◌, ◌++◌, List, length, reverse, IfOk, OnOk, take, drop};
ghost use Rattle.design_signals.specs.declared.sig_bit.SigBit.{SigBit};
ghost use Rattle.design_signals.specs.declared.chunk.Chunk.{Chunk};
ghost use Rattle.std.specs.Prelude.{replicate};
ghost use Rattle.design_signals.specs.declared.sig_bit.SigBit.TheVariants.{Const};
ghost use Rattle.design_signals.specs.Chunks.{HasRoom, IsChunk};
ghost use Rattle.design_signals.specs.Parts.{IsSliced, falling, free_row, row_of, slice_row, wire_row};

use crate::chunk::Chunk;
use crate::digits::push_below;
use crate::sig_bit::SigBit;
use crate::signal::Signal;
use std::alloc::{AllocError, Global};
use std::marker::Model;

/// Rows of bits, each highest bit first: the part that was just read, and before it what is read of the concatenations
/// that are open. Contracts see the last row first.
#[derive(Drop)]
pub struct Segments {
    // in the order of the text, highest part first
    chunks: Vec<Chunk>,
    // where each row starts
    starts: Vec<usize>,
}

impl Model for Segments {
    ghost use Rattle.std.specs.Prelude.{All, List, reverse, length, map};
    ghost use Rattle.design_signals.specs.declared.sig_bit.SigBit.{SigBit};
    ghost use Rattle.design_signals.specs.Chunks.{IsChunk};
    ghost use Rattle.design_signals.specs.Parts.{rows_of, row_of, AreStarts};

    ghost Value = { List (List SigBit) };

    ghost view = { λ a. map row_of (rows_of a.chunks.items (reverse a.starts.items)) };

    ghost invariant = { λ a. record { chunks : All IsChunk a.chunks.items; starts : AreStarts (length a.chunks.items) (reverse a.starts.items) } };
}

impl Segments {
    pub fn new(alloc: Global) -> Segments
        ensures { result ≡ [] }
    {
        Segments {
            chunks: Vec::new(alloc),
            starts: Vec::new(alloc),
        }
    }

    /// How many rows there are.
    pub fn len(&self) -> usize
        ensures { result ≡ length self.now }
    {
        self.starts.len()
    }

    /// Adds an empty row.
    pub fn open(&mut self) -> Result<(), AllocError>
        ensures { OnOk result (self.new ≡ [] ∷ self.old) }
    {
        self.starts.push(self.chunks.len())?;
        Ok(())
    }

    /// Adds a chunk as a row.
    pub fn push(&mut self, chunk: Chunk) -> Result<(), AllocError>
        requires { IsChunk chunk }
        ensures { OnOk result (self.new ≡ falling chunk ∷ self.old) }
    {
        self.starts.push(self.chunks.len())?;
        self.chunks.push(chunk)?;
        Ok(())
    }

    /// Adds a wire's bits as a row.
    pub fn push_wire(&mut self, wire: u32, width: u32) -> Result<(), AllocError>
        requires { 0 < width }
        ensures { OnOk result (self.new ≡ wire_row wire width ∷ self.old) }
    {
        self.push(Chunk {
            first: SigBit::Wire(wire, 0),
            width,
        })
    }

    /// Adds free bits as a row, numbered from `first` on.
    pub fn push_free(&mut self, first: u32, count: u32) -> Result<(), AllocError>
        requires some { 0 < count }
        requires fits { first + count ≤ 2 ^ 32 }
        ensures { OnOk result (self.new ≡ free_row first count ∷ self.old) }
    {
        self.push(Chunk {
            first: SigBit::Free(first + (count - 1)),
            width: count,
        })
    }

    /// Adds one constant bit, this many times, as a row.
    pub fn push_const(&mut self, bit: bool, count: u32) -> Result<(), AllocError>
        requires { 0 < count }
        ensures { OnOk result (self.new ≡ replicate count (Const bit) ∷ self.old) }
    {
        self.push(Chunk {
            first: SigBit::Const(bit),
            width: count,
        })
    }

    /// Adds a bit below the others of the last row.
    pub fn push_bit(&mut self, bit: SigBit) -> Result<(), AllocError>
        requires some { 1 ≤ length self.old }
        requires room { HasRoom bit 1 }
        ensures { OnOk result ((row : List SigBit) (rows : List (List SigBit)) → self.old ≡ row ∷ rows → self.new ≡ (row ++ bit ∷ []) ∷ rows) }
    {
        let starts = self.starts.as_slice();
        let start = starts[starts.len() - 1];
        push_below(&mut self.chunks, start, bit)
    }

    /// How many bits the last row has.
    pub fn width(&self) -> Result<usize, AllocError>
        requires { 1 ≤ length self.now }
        ensures { IfOk result (λ n. (row : List SigBit) (rows : List (List SigBit)) → self.now ≡ row ∷ rows → n ≡ length row) }
    {
        let starts = self.starts.as_slice();
        let start = starts[starts.len() - 1];
        row_width(&self.chunks.as_slice()[start..])
    }

    /// Makes the last two rows one, the last one below the other.
    pub fn join(&mut self)
        requires { 2 ≤ length self.old }
        ensures { (row : List SigBit) (above : List SigBit) (rows : List (List SigBit)) → self.old ≡ row ∷ above ∷ rows → self.new ≡ (above ++ row) ∷ rows }
    {
        self.starts.pop();
    }

    /// Keeps the bits `high` down to `low` of the last row; its lowest bit has index 0.
    pub fn slice(&mut self, alloc: Global, high: usize, low: usize) -> Result<(), AllocError>
        requires some { 1 ≤ length self.old }
        requires order { low ≤ high }
        requires fits { high + 1 < 2 ^ 64 }
        requires within { (row : List SigBit) (rows : List (List SigBit)) → self.old ≡ row ∷ rows → high < length row }
        ensures { OnOk result ((row : List SigBit) (rows : List (List SigBit)) → self.old ≡ row ∷ rows → self.new ≡ slice_row row high low ∷ rows) }
    {
        let starts = self.starts.as_slice();
        let start = starts[starts.len() - 1];
        keep_slice(alloc, &mut self.chunks, start, high, low)
    }

    /// The only row as a signal, lowest bit first.
    pub fn into_signal(self, alloc: Global) -> Result<Signal, AllocError>
        requires { length self ≡ 1 }
        ensures { IfOk result (λ signal. (row : List SigBit) → self ≡ row ∷ [] → signal ≡ reverse row) }
    {
        turned(alloc, self.chunks.as_slice())
    }
}

/// How many bits a row has, where a number holds it.
fn row_width(chunks: &[Chunk]) -> Result<usize, AllocError>
    ensures { IfOk result (λ n. n ≡ length (row_of chunks.now)) }
{
    let mut width = 0usize;
    for chunk in chunks {
        let Some(more) = width.checked_add(chunk.width as usize) else {
            return Err(AllocError);
        };
        width = more;
    }
    Ok(width)
}

/// A row as a signal.
fn turned(alloc: Global, chunks: &[Chunk]) -> Result<Signal, AllocError>
    requires { All IsChunk chunks.now }
    ensures { IfOk result (λ signal. signal ≡ reverse (row_of chunks.now)) }
{
    let mut signal = Signal::new(alloc);
    let mut left = chunks.len();
    while left > 0 {
        left -= 1;
        signal.push(chunks[left])?;
    }
    Ok(signal)
}

/// Adds chunks, the last of them first.
fn push_turned(chunks: &mut Vec<Chunk>, more: &[Chunk]) -> Result<(), AllocError>
    requires old { All IsChunk chunks.old.items }
    requires more { All IsChunk more.now }
    ensures row { OnOk result (chunks.new.items ≡ chunks.old.items ++ reverse more.now) }
    ensures each { All IsChunk chunks.new.items }
    ensures grows { length chunks.old.items ≤ length chunks.new.items }
{
    let mut left = more.len();
    'chunks: while left > 0 {
        left -= 1;
        let Ok(()) = chunks.push(more[left]) else {
            return Err(AllocError);
        };
    }
    Ok(())
}

/// Keeps of the row from the chunk `start` on the bits `high` down to `low`.
fn keep_slice(
    alloc: Global,
    chunks: &mut Vec<Chunk>,
    start: usize,
    high: usize,
    low: usize,
) -> Result<(), AllocError>
    requires each { All IsChunk chunks.old.items }
    requires start { start ≤ length chunks.old.items }
    requires order { low ≤ high }
    requires fits { high + 1 < 2 ^ 64 }
    requires within { high < length (row_of (drop start chunks.old.items)) }
    ensures row { OnOk result (IsSliced start high low chunks.old.items chunks.new.items) }
    ensures each { All IsChunk chunks.new.items }
    ensures grows { start ≤ length chunks.new.items }
{
    let whole = turned(alloc, &chunks.as_slice()[start..])?;
    let kept = whole.slice(alloc, low, high - low + 1)?;
    chunks.truncate(start);
    push_turned(chunks, kept.chunks())
}
