// A connection.

ghost use Rattle.std.specs.Prelude.{◌≡◌, ℕ, ◌<◌, ◌≤◌, ◌⊎◌, List, Option, IfOk, length};
ghost use Rattle.sby_edge.specs.Cause.{HasPlainCause, Rose};
ghost use Rattle.sby_edge.specs.Sink.{Takes};
ghost use Rattle.net_link.specs.Link.{Receives};

use sby_edge::Failed;

/// One end of a connection. Neither call takes memory.
pub trait Link {
    /// The bytes that the other end sends and that weren't read yet, where they are told.
    ghost left: { Self → Option (List ℕ) };

    /// The bytes written so far, where they are told.
    ghost written: { Self → Option (List ℕ) };

    /// How often a call failed, or took nothing of a piece that isn't empty; it stays at the greatest u64.
    ghost faults: { Self → ℕ };

    /// Reads into the front of the buffer, and answers how many bytes. That is 0 only where none is left.
    fn read(&mut self, buf: &mut [u8]) -> Result<usize, Failed>
        requires { 0 < length buf.old }
        ensures bytes { Receives (left self.old) (left self.new) buf.new result }
        ensures written { written self.new ≡ written self.old }
        ensures fits { IfOk result (λ count. count ≤ length buf.old) }
        ensures stands { IfOk result (λ _. faults self.new ≡ faults self.old) }
        ensures cause { HasPlainCause (faults self.old) (faults self.new) result };

    /// Takes a prefix of the piece, and answers its length.
    fn write(&mut self, piece: &[u8]) -> Result<usize, Failed>
        ensures taken { Takes (written self.old) (written self.new) piece.now result }
        ensures left { left self.new ≡ left self.old }
        ensures fits { IfOk result (λ count. count ≤ length piece.now) }
        ensures some { IfOk result (λ count. count ≡ 0 → 0 < length piece.now → Rose (faults self.old) (faults self.new)) }
        ensures stands { IfOk result (λ count. (0 < count) ⊎ (length piece.now ≡ 0) → faults self.new ≡ faults self.old) }
        ensures cause { HasPlainCause (faults self.old) (faults self.new) result };
}
