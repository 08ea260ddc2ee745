// Laws of hinted streams in pieces.

ghost use Rattle.std.specs.Prelude.{◌≡◌, ◌≢◌, ◌⊎◌, ◌↔◌, ℕ, ◌+◌, ◌<◌, Bool, true, false, List, [], ◌∷◌, ◌++◌, length, take, Some};
ghost use Rattle.cert_stream.specs.Text.{AreBlank, NoFeed, id_of, is_blank};
ghost use Rattle.cert_stream.specs.Scan.{Reads, scan_by};
ghost use Rattle.cert_stream.specs.LratBeginning.{Begins, HasFault, HasNoFault};
ghost use Rattle.cert_stream.specs.LratMachine.{hint};
ghost use Rattle.cert_stream.specs.LratScan.{own_next, part_next};
ghost use Rattle.cert_stream.specs.declared.lrat.mode.IdList.{IdList};
ghost use Rattle.cert_stream.specs.declared.lrat.mode.IdPart.TheVariants.{Gap, Digits};
ghost use Rattle.cert_stream.specs.declared.mode.ParseFault.{ParseFault};
ghost use Rattle.cert_stream.specs.LratMachine.{LratOf};
ghost use Rattle.cert_stream.specs.LratTelling.{IsUnknown, LratSaying, StandsFor, TakesMemory, after, fresh, said, spoken};
ghost use Rattle.cert_stream.specs.LratLines.{sayings};
ghost use Rattle.cert_stream.specs.declared.lrat.mode.Mode.TheVariants.{Bad, Start};

/// What stands for the bytes so far stands, after a piece, for these with the piece after them.
#[tactic(auto, using(crate::proofs::LratCutting::stands_append))]
pub fn pieces_join()
    ensures { (vars : ℕ) (w : LratOf) (bytes piece : List ℕ) → StandsFor vars w bytes → StandsFor vars (after w piece) (bytes ++ piece) }
{}

/// Bytes say the same in pieces.
#[tactic(auto, using(crate::proofs::LratCutting::said_append))]
pub fn pieces_say_the_same()
    ensures { (w : LratOf) (front back : List ℕ) → said w (front ++ back) ≡ said w front ++ said (after w front) back }
{}

/// A fault stays, whatever follows.
#[tactic(auto, using(crate::proofs::LratFaults::bad_stays))]
pub fn faults_stay()
    ensures { (f : ParseFault) (w : LratOf) (bytes : List ℕ) → w.mode ≡ Bad f → (after w bytes).mode ≡ Bad f }
{}

/// What is said of a stream's bytes, whether it ends with them or may go on, is what its lines say.
#[tactic(auto, using(crate::proofs::LratStreams::stream_spoken))]
pub fn streams_say_lines()
    ensures { (vars : ℕ) (ended : Bool) (bytes : List ℕ) → spoken ended (fresh vars) bytes ≡ sayings vars ended bytes }
{}

/// What was said stays said, whatever follows, and where the stream ends.
#[tactic(auto, using(crate::proofs::LratGoingOn::sayings_more, crate::proofs::LratGoingOn::sayings_end))]
pub fn sayings_go_on()
    ensures goes_on { (vars : ℕ) (ended : Bool) (bytes rest : List ℕ) → (more : List LratSaying) × (sayings vars ended (bytes ++ rest) ≡ sayings vars false bytes ++ more) }
    ensures ends { (vars : ℕ) (bytes : List ℕ) → (more : List LratSaying) × (sayings vars true bytes ≡ sayings vars false bytes ++ more) }
{}

/// What a stream says that ends, its last line too, is said as well where a line feed follows, or white space, whatever comes
/// then. Only UNKNOWN at the end needn't be: after white space its line may go on.
#[tactic(auto, using(crate::proofs::LratGoingOn::sayings_fed, crate::proofs::LratGoingOn::sayings_parted))]
pub fn sayings_stay_before_more()
    ensures fed { (vars : ℕ) (bytes rest : List ℕ) → (more : List LratSaying) × (sayings vars false (bytes ++ 10 ∷ rest) ≡ sayings vars true bytes ++ more) }
    ensures blank { (vars : ℕ) (bytes rest : List ℕ) (b : ℕ) → is_blank b ≡ true
        → (said : List LratSaying) × (more : List LratSaying) × (sayings vars false (bytes ++ b ∷ rest) ≡ said ++ more)
        × ((sayings vars true bytes ≡ said) ⊎ (sayings vars true bytes ≡ said ++ IsUnknown ∷ [])) }
{}

/// A fault's byte is the number of bytes of the longest part of the stream with which some hinted stream begins. Where there is no
/// fault, some hinted stream begins with all bytes.
pub fn fault_is_first()
    ensures within { (vars : ℕ) (ended : Bool) (bytes : List ℕ) (f : ParseFault) → HasFault (sayings vars ended bytes) f → f.byte < length bytes }
    ensures before { (vars : ℕ) (ended : Bool) (bytes : List ℕ) (f : ParseFault) → HasFault (sayings vars ended bytes) f → Begins vars (take f.byte bytes) }
    ensures past { (vars : ℕ) (ended : Bool) (bytes : List ℕ) (f : ParseFault) → HasFault (sayings vars ended bytes) f
        → Begins vars (take (f.byte + 1) bytes) → ⊥ }
    ensures none { (vars : ℕ) (ended : Bool) (bytes : List ℕ) → HasNoFault (sayings vars ended bytes) → Begins vars bytes }
{}

/// A comment's bytes and a status line's, up to their line feed, take no memory.
#[tactic(auto, using(crate::proofs::LratQuiet::quiet_line))]
pub fn comments_take_no_memory()
    ensures { (w : LratOf) (amid : Bool) (blanks : List ℕ) (b : ℕ) (text : List ℕ) → w.mode ≡ Start amid → AreBlank blanks → (b ≡ 99) ⊎ (b ≡ 115) → NoFeed text
        → TakesMemory w (blanks ++ b ∷ text) → ⊥ }
{}

/// A word is read as an id exactly where it is one: as a line's own, and without a minus in a list that isn't full.
pub fn ids_are_read()
    ensures own { (text : List ℕ) (n : ℕ) → text ≢ [] → (scan_by own_next 0 text ≡ Reads n) ↔ (id_of text ≡ Some n) }
    ensures list { (kind : IdList) (full : Bool) (place : ℕ) (text : List ℕ) (n : ℕ) → full ≡ false
        → (scan_by (part_next kind full place) Gap text ≡ Reads (Digits (hint n false place))) ↔ (id_of text ≡ Some n) }
{}
