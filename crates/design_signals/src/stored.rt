// Signals as a design keeps them: 24 bytes where they are one chunk.

ghost use Rattle.std.specs.Prelude.{◌≡◌, ◌<◌, ◌^◌, All, IfOk, length};
ghost use Rattle.design_signals.specs.Chunks.{IsChunk, bits_of};

use crate::chunk::Chunk;
use crate::signal::Signal;
use std::alloc::{AllocError, Global};
use std::marker::Model;
use std::slice;

/// One chunk in place, or any number of them elsewhere.
#[derive(Drop)]
pub enum Parts {
    One(Chunk),
    Many(Box<Vec<Chunk>>),
}

/// A signal that is kept: its bits, lowest first.
#[derive(Drop)]
pub struct StoredSignal {
    parts: Parts,
}

const _: () = prove!(size_of::<StoredSignal>() == 24);

impl Model for StoredSignal {
    ghost use Rattle.std.specs.Prelude.{◌<◌, ◌^◌, All, List, length};
    ghost use Rattle.design_signals.specs.declared.sig_bit.SigBit.{SigBit};
    ghost use Rattle.design_signals.specs.Chunks.{IsChunk, bits_of};
    ghost use Rattle.design_signals.specs.Kept.{chunks_in};

    ghost Value = { List SigBit };

    ghost view = { λ s. bits_of (chunks_in s.parts) };

    ghost invariant = { λ s. record { chunks : All IsChunk (chunks_in s.parts); len : length (bits_of (chunks_in s.parts)) < 2 ^ 64 } };
}

impl StoredSignal {
    /// The signal, packed.
    pub fn new(alloc: Global, signal: Signal) -> Result<StoredSignal, AllocError>
        ensures { IfOk result (λ s. s ≡ signal) }
    {
        let chunks = signal.into_chunks();
        if chunks.len() == 1 {
            return Ok(StoredSignal {
                parts: Parts::One(chunks[0]),
            });
        }
        Ok(StoredSignal {
            parts: Parts::Many(Box::new(alloc, chunks)?),
        })
    }

    /// The chunks, lowest first.
    pub fn chunks(&self) -> &[Chunk]
        ensures bits { bits_of result.now ≡ self.now }
        ensures each { All IsChunk result.now }
        ensures few { length self.now < 2 ^ 64 }
    {
        match &self.parts {
            Parts::One(chunk) => slice::from_ref(chunk),
            Parts::Many(chunks) => chunks.as_slice(),
        }
    }

    /// How many bits it has.
    pub fn len(&self) -> usize
        ensures { result ≡ length self.now }
    {
        let mut len = 0usize;
        for chunk in self.chunks() {
            len += chunk.width as usize;
        }
        len
    }
}
