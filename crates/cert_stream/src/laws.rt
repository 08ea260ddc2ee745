// Laws of streams in pieces.

ghost use Rattle.std.specs.Prelude.{◌≡◌, ◌⊎◌, ◌<◌, ◌+◌, ℕ, Bool, true, false, List, [], ◌∷◌, ◌++◌, flat_map, length, take};
ghost use Rattle.cert_stream.specs.Machine.{DrupOf};
ghost use Rattle.cert_stream.specs.Stream.{AreWithin, ended_says, heard_says, lines_say, sayings};
ghost use Rattle.cert_stream.specs.Places.{AreLines, IsList};
ghost use Rattle.cert_stream.specs.declared.mode.ListKind.{ListKind};
ghost use Rattle.cnf_form.specs.Cnf.{LitOf};
ghost use Rattle.cert_stream.specs.Text.{AreBlank, NoFeed, is_blank, lines_of, words_from};
ghost use Rattle.cert_stream.specs.Beginning.{Begins, HasFault, HasNoFault};
ghost use Rattle.cert_stream.specs.Scan.{scan};
ghost use Rattle.cert_stream.specs.Reasons.{HasReason};
ghost use Rattle.cert_stream.specs.Words.{IsRead};
ghost use Rattle.cert_stream.specs.declared.mode.Part.TheVariants.{Gap};
ghost use Rattle.cert_stream.specs.Telling.{IsUnknown, Saying, StandsFor, TakesMemory, after, fresh, said, spoken};
ghost use Rattle.cert_stream.specs.declared.mode.ParseFault.{ParseFault};
ghost use Rattle.cert_stream.specs.declared.mode.Mode.TheVariants.{Bad, Start};

/// What stands for the bytes so far stands, after a piece, for these with the piece after them.
#[tactic(auto, using(crate::proofs::Cutting::stands_append))]
pub fn pieces_join()
    ensures { (vars : ℕ) (w : DrupOf) (bytes piece : List ℕ) → StandsFor vars w bytes → StandsFor vars (after w piece) (bytes ++ piece) }
{}

/// Bytes say the same in pieces.
#[tactic(auto, using(crate::proofs::Cutting::said_append))]
pub fn pieces_say_the_same()
    ensures { (w : DrupOf) (front back : List ℕ) → said w (front ++ back) ≡ said w front ++ said (after w front) back }
{}

/// A fault stays, whatever follows.
#[tactic(auto, using(crate::proofs::Faults::bad_stays))]
pub fn faults_stay()
    ensures { (f : ParseFault) (w : DrupOf) (bytes : List ℕ) → w.mode ≡ Bad f → (after w bytes).mode ≡ Bad f }
{}

/// What is said of a stream's bytes, whether it ends with them or may go on, is what its lines say.
#[tactic(auto, using(crate::proofs::Streams::stream_spoken))]
pub fn streams_say_lines()
    ensures { (vars : ℕ) (ended : Bool) (bytes : List ℕ) → spoken ended (fresh vars) bytes ≡ sayings vars ended bytes }
{}

/// A fault's byte is the number of bytes of the longest part of the stream with which some stream begins. Where there is no
/// fault, some stream begins with all bytes.
pub fn fault_is_first()
    ensures within { (vars : ℕ) (ended : Bool) (bytes : List ℕ) (f : ParseFault) → HasFault (sayings vars ended bytes) f → f.byte < length bytes }
    ensures before { (vars : ℕ) (ended : Bool) (bytes : List ℕ) (f : ParseFault) → HasFault (sayings vars ended bytes) f → Begins vars (take f.byte bytes) }
    ensures past { (vars : ℕ) (ended : Bool) (bytes : List ℕ) (f : ParseFault) → HasFault (sayings vars ended bytes) f
        → Begins vars (take (f.byte + 1) bytes) → ⊥ }
    ensures none { (vars : ℕ) (ended : Bool) (bytes : List ℕ) → HasNoFault (sayings vars ended bytes) → Begins vars bytes }
{}

/// A word of a list, read from the left, is read as what it is: 0, a literal, the beginning of one, or none from one of its
/// bytes on.
pub fn words_are_read()
    ensures { (vars : ℕ) (full : Bool) (text : List ℕ) → IsRead vars full text (scan vars full Gap text) }
{}

/// The literals of a stream have variables from 1 to `vars`.
#[tactic(auto, using(crate::proofs::Within::all_within))]
pub fn sayings_are_within()
    ensures { (vars : ℕ) (ended : Bool) (bytes : List ℕ) → AreWithin vars (sayings vars ended bytes) }
{}

/// What was said stays said, whatever follows, and where the stream ends.
#[tactic(auto, using(crate::proofs::GoingOn::sayings_more, crate::proofs::GoingOn::sayings_end))]
pub fn sayings_go_on()
    ensures goes_on { (vars : ℕ) (ended : Bool) (bytes rest : List ℕ) → (more : List Saying) × (sayings vars ended (bytes ++ rest) ≡ sayings vars false bytes ++ more) }
    ensures ends { (vars : ℕ) (bytes : List ℕ) → (more : List Saying) × (sayings vars true bytes ≡ sayings vars false bytes ++ more) }
{}

/// What a stream says that ends, its last line too, is said as well where a line feed follows, or white space, whatever comes
/// then. Only UNKNOWN at the end needn't be: after white space its line may go on.
#[tactic(auto, using(crate::proofs::GoingOn::sayings_fed, crate::proofs::GoingOn::sayings_parted))]
pub fn sayings_stay_before_more()
    ensures fed { (vars : ℕ) (bytes rest : List ℕ) → (more : List Saying) × (sayings vars false (bytes ++ 10 ∷ rest) ≡ sayings vars true bytes ++ more) }
    ensures blank { (vars : ℕ) (bytes rest : List ℕ) (b : ℕ) → is_blank b ≡ true
        → (said : List Saying) × (more : List Saying) × (sayings vars false (bytes ++ b ∷ rest) ≡ said ++ more)
        × ((sayings vars true bytes ≡ said) ⊎ (sayings vars true bytes ≡ said ++ IsUnknown ∷ [])) }
{}

/// After whole lines without a fault the rest of a stream says what its own lines say; whether they come amid values is a matter
/// of the lines before them.
#[tactic(auto, using(crate::proofs::Apart::lines_apart))]
pub fn lines_come_apart()
    ensures { (vars : ℕ) (front : List ℕ) → AreLines front → HasNoFault (sayings vars false front)
        → (amid : Bool) × ((ended : Bool) (text : List ℕ) → sayings vars ended (front ++ text) ≡ sayings vars false front ++ lines_say vars ended amid (length front) (lines_of text)) }
{}

/// A whole line before a fault that is a list of literals with its 0 is said, after what the lines before it say.
#[tactic(auto, using(crate::proofs::Apart::line_said))]
pub fn whole_lines_are_said()
    ensures { (vars : ℕ) (front line : List ℕ) → AreLines front → NoFeed line → HasNoFault (sayings vars false (front ++ (line ++ 10 ∷ [])))
        → (ended : Bool) (rest : List ℕ) (kind : ListKind) (place : ℕ) (lits : List LitOf) → IsList vars kind place lits (words_from true (length front) [] line)
        → (more : List Saying) × (sayings vars ended (front ++ (line ++ 10 ∷ rest)) ≡ sayings vars false front ++ (flat_map (heard_says kind) lits ++ ended_says kind place lits ∷ more)) }
{}

/// A fault tells what is wrong with the line that it stands in.
#[tactic(auto, using(crate::proofs::Reasoning::fault_reason))]
pub fn faults_have_reasons()
    ensures { (vars : ℕ) (ended : Bool) (f : ParseFault) (bytes : List ℕ) → HasFault (sayings vars ended bytes) f → HasReason vars ended bytes f }
{}

/// A comment's bytes and a status line's, up to their line feed, take no memory.
#[tactic(auto, using(crate::proofs::Quiet::quiet_line))]
pub fn comments_take_no_memory()
    ensures { (w : DrupOf) (amid : Bool) (blanks : List ℕ) (b : ℕ) (text : List ℕ) → w.mode ≡ Start amid → AreBlank blanks → (b ≡ 99) ⊎ (b ≡ 115) → NoFeed text
        → TakesMemory w (blanks ++ b ∷ text) → ⊥ }
{}
