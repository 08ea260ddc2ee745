//! What the definitions mean in the format's terms: each function's contract is a law, and its body is empty.

ghost use Rattle.std.specs.Prelude.{◌≡◌, ◌↔◌, ◌<◌, ◌≤◌, ◌^◌, ◌++◌, Contains, length, ◌∷◌, [], ℕ, List, Some};
ghost use Rattle.sby_file.specs.Comments.{HasComment, MayComment};
ghost use Rattle.sby_file.specs.Faults.{faults_of, first};
ghost use Rattle.sby_file.specs.Faulty.{HasFault, IsNoLater};
ghost use Rattle.sby_file.specs.Placed.{placed};
ghost use Rattle.sby_file.specs.declared.fault.SbyFault.{SbyFault};
ghost use Rattle.sby_file.specs.declared.fault.SbyKind.{SbyKind};
ghost use Rattle.sby_file.specs.Text.{uncommented};

/// A line without its comment is what stands before the first `#` that begins one, white space before it too, or the whole line
/// where none does.
pub fn comments_end_lines()
    ensures whole { (text : List ℕ) → (HasComment text → ⊥) → uncommented text ≡ text }
    ensures cut { (front back : List ℕ) → MayComment front → (HasComment front → ⊥) → uncommented (front ++ 35 ∷ back) ≡ front }
{}

/// The faults of a text of at most 2^24 bytes are those of its lines: each kind, line by line, by what stands before it and after it.
/// A longer text has the one fault Limit, at line 0.
pub fn faults_are_of_lines()
    ensures lines { (bytes : List ℕ) (line : ℕ) (kind : SbyKind) → length bytes ≤ 2 ^ 24
        → Contains (faults_of bytes) (record { line = line; kind = kind }) ↔ HasFault (placed bytes) line kind }
    ensures size { (bytes : List ℕ) → 2 ^ 24 < length bytes → faults_of bytes ≡ record { line = 0; kind = SbyKind.Limit } ∷ [] }
{}

/// The fault that is answered is the first: no other is of an earlier line, or of the same line and of an earlier kind.
pub fn first_fault_is_answered()
    ensures { (bytes : List ℕ) (f g : SbyFault) → first (faults_of bytes) ≡ Some f → Contains (faults_of bytes) g → IsNoLater f g }
{}
