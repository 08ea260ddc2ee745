// Laws of proof files in pieces.

ghost use Rattle.std.specs.Prelude.{◌≡◌, ℕ, Bool, List, ◌++◌, Option, Some};
ghost use Rattle.cert_stream.specs.Telling.{Saying};
ghost use Rattle.cert_stream.specs.declared.mode.ParseFault.{ParseFault};
ghost use Rattle.proof_stream.specs.File.{FileOf, StandsFor, after, fault, fresh, said, spoken};
ghost use Rattle.proof_stream.specs.Lines.{AreProofLines, FileSays};
ghost use Rattle.proof_stream.specs.Numbers.{groups_read};
ghost use Rattle.proof_stream.specs.Grouping.{IsRead};
ghost use Rattle.proof_stream.specs.AnyLines.{AreSaidTo, SpeltAny};
ghost use Rattle.proof_stream.specs.Spelling.{AreSaid, ProofLine, SaysLines, Spelt};
ghost use Rattle.proof_stream.specs.declared.spot.Form.{Form};
ghost use Rattle.proof_stream.specs.declared.spot.Form.TheVariants.{Text, Binary};

/// What stands for the bytes so far stands, after a piece, for these with the piece after them.
#[tactic(auto, using(crate::proofs::Cutting::stands_append))]
pub fn pieces_join()
    ensures { (form : Form) (vars : ℕ) (r : FileOf) (bytes piece : List ℕ) → StandsFor form vars r bytes → StandsFor form vars (after r piece) (bytes ++ piece) }
{}

/// Bytes say the same in pieces.
#[tactic(auto, using(crate::proofs::Cutting::said_append))]
pub fn pieces_say_the_same()
    ensures { (r : FileOf) (front back : List ℕ) → said r (front ++ back) ≡ said r front ++ said (after r front) back }
{}

/// A fault stays, whatever follows.
#[tactic(auto, using(crate::proofs::Faults::fault_stays))]
pub fn faults_stay()
    ensures { (r : FileOf) (bytes : List ℕ) (f : ParseFault) → fault r ≡ Some f → fault (after r bytes) ≡ Some f }
{}

/// What is said of a file's bytes, whether it ends with them or may go on, is what its lines say, and nothing else is.
#[tactic(auto, using(crate::proofs::Files::file_spoken, crate::proofs::Files::file_once))]
pub fn files_say_lines()
    ensures says { (form : Form) (vars : ℕ) (ended : Bool) (bytes : List ℕ) → FileSays form vars ended bytes (spoken ended (fresh form vars) bytes) }
    ensures once { (form : Form) (vars : ℕ) (ended : Bool) (bytes : List ℕ) (ss : List Saying) → FileSays form vars ended bytes ss → ss ≡ spoken ended (fresh form vars) bytes }
{}

/// A proof file says clauses, deletions and faults alone: no values, and never that a solver doesn't know.
#[tactic(auto, using(crate::proofs::Alone::file_lines))]
pub fn files_say_proof_lines()
    ensures { (form : Form) (vars : ℕ) (ended : Bool) (bytes : List ℕ) (ss : List Saying) → FileSays form vars ended bytes ss → AreProofLines ss }
{}

/// What a binary proof says is its whole lines, and then one fault at most.
#[tactic(auto, using(crate::proofs::BinaryLines::binary_lines))]
pub fn binary_files_say_whole_lines()
    ensures { (vars : ℕ) (ended : Bool) (bytes : List ℕ) (ss : List Saying) → FileSays Binary vars ended bytes ss → SaysLines vars ended bytes ss }
{}

/// A binary proof and the text that spells it say the same lines, and nothing else, but for their places.
#[tactic(auto, using(crate::proofs::AnyLines::spelt_says))]
pub fn spelt_files_say_the_same()
    ensures { (vars : ℕ) (b t : List ℕ) → Spelt vars b t
        → (lines : List ProofLine) × ((ended : Bool) (ss : List Saying) → FileSays Binary vars ended b ss → AreSaid lines ss)
        × ((ended : Bool) (ss : List Saying) → FileSays Text vars ended t ss → AreSaid lines ss) }
{}

/// A binary proof and its text, of literals of any variables and lines of any length, say the same lines up to the first that does not fit, and
/// then a fault that tells what is wrong with it.
#[tactic(auto, using(crate::proofs::AnyLines::spelt_any_says))]
pub fn any_spelt_files_say_the_same()
    ensures { (vars : ℕ) (b t : List ℕ) → SpeltAny vars b t
        → (lines : List ProofLine) × ((ended : Bool) (ss : List Saying) → FileSays Binary vars ended b ss → AreSaidTo vars lines ss)
        × ((ended : Bool) (ss : List Saying) → FileSays Text vars ended t ss → AreSaidTo vars lines ss) }
{}

/// Groups, read one after the other, are read as what they are: a literal, the beginning of one, or none; in a full line none may
/// begin.
#[tactic(auto, using(crate::proofs::Grouping::groups_are))]
pub fn groups_are_read()
    ensures { (vars : ℕ) (full : Bool) (bytes : List ℕ) → IsRead vars full bytes (groups_read vars full 0 1 bytes) }
{}
