// Pieces of a stream.

ghost use Rattle.std.specs.Prelude.{◌≡◌, ◌≢◌, ◌⊎◌, ◌+◌, ◌<◌, ◌≤◌, ◌^◌, ◌++◌, ℕ, List, IfOk, OnErr, OnOk, length};
ghost use Rattle.btor_witness.specs.Found.{IsKept};
ghost use Rattle.btor_witness.specs.Grammar.{WitnessOf};
ghost use Rattle.btor_witness.specs.Machine.{StandsFor, after, ended, so_far};
ghost use Rattle.btor_witness.specs.Shape.{ShapeOf};
ghost use Rattle.btor_witness.specs.Streams.{EndsWith, Holds, IsFate, IsSeen};
ghost use Rattle.btor_witness.specs.declared.spot.Spot.TheVariants.{Lost};

use crate::spot::Seen;
use crate::witnesses::Witnesses;
use std::alloc::AllocError;

impl Witnesses {
    // Takes a piece, byte by byte but for those that change nothing.
    fn take_bytes(&mut self, piece: &[u8]) -> Result<(), AllocError>
        requires { self.old.taken + length piece.now < 2 ^ 64 }
        ensures ok { OnOk result (self.new ≡ after self.old piece.now) }
        ensures taken { self.new.taken ≤ self.old.taken + length piece.now }
    {
        let mut i = 0;
        while i < piece.len() {
            i += self.pass(&piece[i..]);
            if i >= piece.len() {
                return Ok(());
            }
            self.turn(piece[i])?;
            i += 1;
        }
        Ok(())
    }

    // Takes a piece, of which nothing is read where the reading is over.
    #[tactic(auto, using(crate::proofs::Bytes::after_over))]
    fn take_piece(&mut self, piece: &[u8]) -> Result<(), AllocError>
        requires { self.old.taken + length piece.now < 2 ^ 64 }
        ensures ok { OnOk result (self.new ≡ after self.old piece.now) }
        ensures taken { self.new.taken ≤ self.old.taken + length piece.now }
    {
        if self.is_over() {
            return Ok(());
        }
        self.take_bytes(piece)
    }

    /// Takes the next piece of the stream, and answers what is seen in the bytes so far: More, Whole or BadWitness, which stay, whatever
    /// follows. Out of memory is answered from then on. A stream has fewer than 2^64 bytes.
    pub fn feed(&mut self, piece: &[u8]) -> Result<Seen, AllocError>
        requires { self.old.taken + length piece.now < 2 ^ 64 }
        ensures kept { OnOk result (self.new ≡ after self.old piece.now) }
        ensures seen { IfOk result (λ seen. seen ≡ so_far self.new) }
        ensures exact { IfOk result (λ seen. (shape : ShapeOf) (most : ℕ) (bytes : List ℕ) → StandsFor shape most self.old bytes → IsSeen shape (bytes ++ piece.now) seen) }
        ensures found { OnOk result ((shape : ShapeOf) (most : ℕ) (bytes : List ℕ) (x : WitnessOf) → StandsFor shape most self.old bytes → Holds shape (bytes ++ piece.now) x → IsKept shape most x self.new) }
        ensures taken { self.new.taken ≤ self.old.taken + length piece.now }
        ensures lost { OnErr result (self.new.reading.spot ≡ Lost) }
        ensures stays_lost { OnOk result (self.old.reading.spot ≢ Lost) }
    {
        if self.is_lost() {
            return Err(AllocError);
        }
        let Ok(()) = self.take_piece(piece) else {
            self.lose();
            return Err(AllocError);
        };
        Ok(self.so_far())
    }

    /// What the stream is where it ends here, unless memory ran out before.
    pub fn end(&self) -> Seen
        ensures seen { result ≡ ended self.now }
        ensures exact { (shape : ShapeOf) (most : ℕ) (bytes : List ℕ) → StandsFor shape most self.now bytes → IsFate shape bytes result }
        ensures found { (shape : ShapeOf) (most : ℕ) (bytes : List ℕ) (x : WitnessOf) → StandsFor shape most self.now bytes → (Holds shape bytes x ⊎ EndsWith shape bytes x) → IsKept shape most x self.now }
    {
        self.ended()
    }
}
