// Laws of streams in pieces.

ghost use Rattle.std.specs.Prelude.{◌≡◌, ℕ, List, Some, ◌++◌};
ghost use Rattle.inv_stream.specs.Machine.{InvOf, fault};
ghost use Rattle.inv_stream.specs.Telling.{StandsFor, after, fresh, said};
ghost use Rattle.inv_stream.specs.declared.mode.InvFault.{InvFault};

/// What stands for the bytes so far stands, after a piece, for these with the piece after them.
#[tactic(auto, using(crate::proofs::Cutting::stands_append))]
pub fn pieces_join()
    ensures { (vars : ℕ) (w : InvOf) (bytes piece : List ℕ) → StandsFor vars w bytes → StandsFor vars (after w piece) (bytes ++ piece) }
{}

/// Bytes say the same in pieces.
#[tactic(auto, using(crate::proofs::Cutting::said_append))]
pub fn pieces_say_the_same()
    ensures { (w : InvOf) (front back : List ℕ) → said w (front ++ back) ≡ said w front ++ said (after w front) back }
{}

/// A fault of a stream stays, whatever follows.
#[tactic(auto, using(crate::proofs::Faults::fault_stays))]
pub fn faults_stay()
    ensures { (vars : ℕ) (f : InvFault) (bytes more : List ℕ) → fault (after (fresh vars) bytes) ≡ Some f → fault (after (fresh vars) (bytes ++ more)) ≡ Some f }
{}
