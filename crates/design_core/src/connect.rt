// The connects of a design.

ghost use Rattle.std.specs.Prelude.{◌≡◌, All};
ghost use Rattle.design_signals.specs.Chunks.{IsChunk, bits_of};

use design_signals::chunk::Chunk;
use design_signals::stored::StoredSignal;
use std::marker::Model;

/// `connect left right`: drives left from right.
#[derive(Drop)]
pub struct Connect {
    left: StoredSignal,
    right: StoredSignal,
    cells_before: u32,
}

impl Model for Connect {
    ghost use Rattle.design_core.specs.Shape.{ConnectOf};

    ghost Value = { ConnectOf };

    ghost view = { λ a. record { left = a.left; right = a.right; cells_before = a.cells_before } };
}

impl Connect {
    /// A connect that drives `left` from `right`; this many cells stand before it in the file.
    pub fn new(left: StoredSignal, right: StoredSignal, cells_before: u32) -> Connect
        ensures { result ≡ record { left = left; right = right; cells_before = cells_before } }
    {
        Connect {
            left,
            right,
            cells_before,
        }
    }

    /// What is driven, lowest bit first.
    pub fn left(&self) -> &[Chunk]
        ensures bits { bits_of result.now ≡ self.now.left }
        ensures each { All IsChunk result.now }
    {
        self.left.chunks()
    }

    /// What it is driven from, lowest bit first.
    pub fn right(&self) -> &[Chunk]
        ensures bits { bits_of result.now ≡ self.now.right }
        ensures each { All IsChunk result.now }
    {
        self.right.chunks()
    }

    /// How many cells stand before it in the file.
    pub fn cells_before(&self) -> u32
        ensures { result ≡ self.now.cells_before }
    {
        self.cells_before
    }
}
