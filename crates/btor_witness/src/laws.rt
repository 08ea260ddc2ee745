// Laws of streams in pieces.

ghost use Rattle.std.specs.Prelude.{◌≡◌, ◌⊎◌, ℕ, true, List, ◌++◌};
ghost use Rattle.btor_witness.specs.Found.{IsKept};
ghost use Rattle.btor_witness.specs.Grammar.{WitnessOf};
ghost use Rattle.btor_witness.specs.Machine.{StandsFor, WitnessesOf, after, ended, fresh, is_over, so_far};
ghost use Rattle.btor_witness.specs.Shape.{ShapeOf};
ghost use Rattle.btor_witness.specs.Streams.{EndsWith, Holds, IsFate, IsSeen};
ghost use Rattle.btor_witness.specs.declared.spot.Seen.{Seen};

/// What stands for the bytes so far stands, after a piece, for these with the piece after them.
#[tactic(auto, using(crate::proofs::Cutting::stands_append))]
pub fn pieces_join()
    ensures { (shape : ShapeOf) (most : ℕ) (w : WitnessesOf) (bytes piece : List ℕ) → StandsFor shape most w bytes → StandsFor shape most (after w piece) (bytes ++ piece) }
{}

/// A whole witness and a refused line stay, whatever follows.
#[tactic(auto, using(crate::proofs::Bytes::after_over))]
pub fn ends_stay()
    ensures { (w : WitnessesOf) (bytes : List ℕ) → is_over w.reading.spot ≡ true → after w bytes ≡ w }
{}

/// Bytes are read as the lines of a witness, whether more may follow or the stream ends.
pub fn bytes_are_read()
    ensures seen { (shape : ShapeOf) (most : ℕ) (bytes : List ℕ) → IsSeen shape bytes (so_far (after (fresh shape most) bytes)) }
    ensures fate { (shape : ShapeOf) (most : ℕ) (bytes : List ℕ) → IsFate shape bytes (ended (after (fresh shape most) bytes)) }
{}

/// Bytes are read in one way.
pub fn bytes_come_to_one()
    ensures { (shape : ShapeOf) (bytes : List ℕ) (a b : Seen) → IsSeen shape bytes a → IsSeen shape bytes b → a ≡ b }
{}

/// Of a whole witness is kept what its frames choose.
pub fn witnesses_are_kept()
    ensures { (shape : ShapeOf) (most : ℕ) (w : WitnessesOf) (bytes : List ℕ) (x : WitnessOf) → StandsFor shape most w bytes → (Holds shape bytes x ⊎ EndsWith shape bytes x) → IsKept shape most x w }
{}
