// Laws of hinted proofs.

ghost use Rattle.std.specs.Prelude.{◌≡◌, ℕ, Some, List, [], ◌∷◌, ◌++◌, length, map, Contains};
ghost use Rattle.cnf_form.specs.Cnf.{LitOf, IsAdmitted, IsUnsatisfiable, Line, Addition, Drup};
ghost use Rattle.lrat_check.specs.Hints.{Live, numbered, IsHinted, HintedLine, Adds, HintedProof, added};

/// What its hints admit, the DRUP rule admits from any clauses among which the live ones are.
pub fn hinted_is_admitted()
    ensures { (live : Live) (F : List (List LitOf)) (c : List LitOf) (hints : List ℕ)
        → ((id : ℕ) (d : List LitOf) → live id ≡ Some d → Contains F d)
        → IsHinted live c hints → IsAdmitted F c }
{}

/// The clauses that a hinted proof adds are the additions of a proof in DRUP. Where it ends in the empty clause, no
/// assignment satisfies the formula.
pub fn hinted_proof_is_drup()
    ensures lines { (F : List (List LitOf)) (lines : List HintedLine) (end : Live)
        → HintedProof (numbered F) (length F) lines end → Drup F (map Addition (added lines)) (F ++ added lines) }
    ensures refutes { (F : List (List LitOf)) (lines : List HintedLine) (id : ℕ) (hints : List ℕ) (end : Live)
        → HintedProof (numbered F) (length F) (lines ++ Adds id [] hints ∷ []) end → IsUnsatisfiable F }
{}
