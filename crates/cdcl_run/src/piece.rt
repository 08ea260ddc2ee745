// A piece of output, gathered in memory that is taken at once.

ghost use Rattle.std.specs.Prelude.{◌≡◌, ◌<◌, ◌≤◌, ◌++◌, [], IfOk, length, take};

use std::alloc::{AllocError, Global};
use std::marker::Model;

/// How many bytes a piece has room for.
pub const PIECE: usize = 65536;

/// The bytes gathered so far.
#[derive(Drop)]
pub struct Piece {
    bytes: Vec<u8>,
}

impl Model for Piece {
    ghost use Rattle.std.specs.Prelude.{ℕ, List, ◌≤◌, length, vec_capacity};

    ghost Value = { List ℕ };

    ghost view = { λ p. p.bytes.items };

    ghost invariant = { λ p. (length p.bytes.items ≤ 65536) × (65536 ≤ vec_capacity p.bytes) };
}

impl Piece {
    /// A piece without bytes.
    pub fn new(alloc: Global) -> Result<Self, AllocError>
        ensures { IfOk result (λ piece. piece ≡ []) }
    {
        Ok(Piece {
            bytes: Vec::with_capacity(alloc, PIECE)?,
        })
    }

    /// The bytes.
    pub fn bytes(&self) -> &[u8]
        ensures { result.now ≡ self.now }
    {
        &self.bytes
    }

    /// Removes all bytes.
    pub fn clear(&mut self)
        ensures { self.new ≡ [] }
    {
        self.bytes.clear();
    }

    /// Gathers as much of a text as there is room for. Returns how much.
    pub fn gather(&mut self, text: &[u8]) -> usize
        ensures fits { result ≤ length text.now }
        ensures gathered { self.new ≡ self.old ++ take result text.now }
        ensures full { result < length text.now → length self.new ≡ 65536 }
    {
        let count = text.len().min(PIECE - self.bytes.len());
        self.bytes.extend_from_slice(&text[..count]).unwrap();
        count
    }
}
