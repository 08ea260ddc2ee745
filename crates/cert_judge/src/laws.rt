// Laws of the fates of streams, of every kind.

ghost use Rattle.std.specs.Prelude.{◌≡◌, ◌⊎◌, ◌<◌, ◌≤◌, ◌∷◌, ◌++◌, [], ℕ, true, List, length, take, Option, Some, None};
ghost use Rattle.cert_stream.specs.Text.{is_blank};
ghost use Rattle.cnf_form.specs.Cnf.{Assignment, FormulaOf, IsUnsatisfiable, Satisfies};
ghost use Rattle.cnf_form.specs.Dimacs.{IsDimacs};
ghost use Rattle.proof_stream.specs.AnyLines.{IsCrowded, SpeltAny};
ghost use Rattle.proof_stream.specs.Spelling.{Spelt};
ghost use Rattle.sby_terms.specs.declared.names.Answer.{Answer};
ghost use Rattle.sby_terms.specs.declared.names.Answer.TheVariants.{Sat, Unsat};
ghost use Rattle.cert_judge.specs.DrupCert.{IsCert};
ghost use Rattle.cert_judge.specs.Fate.{Fate, Found};
ghost use Rattle.cert_judge.specs.Kinds.{IsFate, IsFateSoFar};
ghost use Rattle.cert_judge.specs.Same.{IsLiteralFault, IsSameFate};
ghost use Rattle.cert_judge.specs.declared.stream.StreamKind.{StreamKind};
ghost use Rattle.cert_judge.specs.declared.stream.StreamKind.TheVariants.{Drup, Proof, ProofBinary};

/// A fate that stands in the first bytes stays, whatever bytes follow, and is the stream's: so it doesn't matter how a stream is
/// cut into pieces.
#[tactic(auto, using(crate::proofs::KindFates::so_far_stays, crate::proofs::KindFates::stays))]
pub fn fates_stay()
    ensures so_far { (kind : StreamKind) (job bytes rest : List ℕ) (most : ℕ) (fate : Fate) → IsFateSoFar kind job bytes most (Some fate)
        → IsFateSoFar kind job (bytes ++ rest) most (Some fate) }
    ensures whole { (kind : StreamKind) (job bytes rest : List ℕ) (most : ℕ) (fate : Fate) → IsFateSoFar kind job bytes most (Some fate)
        → IsFate kind job (bytes ++ rest) most fate }
{}

/// Where a stream ends, a fate of all its bytes so far is its fate.
#[tactic(auto, using(crate::proofs::KindFates::at_end))]
pub fn fate_so_far_is_the_fate()
    ensures { (kind : StreamKind) (job stream : List ℕ) (most : ℕ) (fate : Fate) → IsFateSoFar kind job stream most (Some fate)
        → IsFate kind job stream most fate }
{}

/// A stream has one fate at most, and its bytes so far have one.
#[tactic(auto, using(crate::proofs::KindFates::one_whole, crate::proofs::KindFates::one_so_far))]
pub fn one_fate()
    ensures whole { (kind : StreamKind) (job stream : List ℕ) (most : ℕ) (x y : Fate) → IsFate kind job stream most x → IsFate kind job stream most y
        → x ≡ y }
    ensures so_far { (kind : StreamKind) (job bytes : List ℕ) (most : ℕ) (x y : Option Fate) → IsFateSoFar kind job bytes most x
        → IsFateSoFar kind job bytes most y → x ≡ y }
{}

/// No stream is without a fate, nor are its bytes so far.
pub fn some_fate()
    ensures whole { (kind : StreamKind) (job stream : List ℕ) (most : ℕ) (f : FormulaOf) → IsDimacs job f
        → ((x : Fate) → IsFate kind job stream most x → ⊥) → ⊥ }
    ensures so_far { (kind : StreamKind) (job bytes : List ℕ) (most : ℕ) (f : FormulaOf) → IsDimacs job f
        → ((x : Option Fate) → IsFateSoFar kind job bytes most x → ⊥) → ⊥ }
{}

/// Where a stream is found to be a certificate for Unsat, no assignment satisfies the formula of the job's file.
#[tactic(auto, using(crate::proofs::KindFates::found_refuted))]
pub fn found_unsat_is_unsatisfiable()
    ensures { (kind : StreamKind) (job stream : List ℕ) (most : ℕ) (f : FormulaOf) → IsDimacs job f → IsFate kind job stream most (Found Unsat)
        → IsUnsatisfiable f.clauses }
{}

/// Where a stream is found to be a certificate for Sat, some assignment satisfies the formula of the job's file.
#[tactic(auto, using(crate::proofs::KindFates::found_satisfied))]
pub fn found_sat_is_satisfiable()
    ensures { (kind : StreamKind) (job stream : List ℕ) (most : ℕ) (f : FormulaOf) → IsDimacs job f → IsFate kind job stream most (Found Sat)
        → (x : Assignment) × Satisfies x f.clauses }
{}

/// Bytes that have no fate yet are no more than are taken.
#[tactic(auto, using(crate::proofs::KindFates::within_most))]
pub fn no_fate_within_most()
    ensures { (kind : StreamKind) (job bytes : List ℕ) (most : ℕ) → IsFateSoFar kind job bytes most None → length bytes ≤ most }
{}

/// A proof file is never found to be a certificate for Sat.
#[tactic(auto, using(crate::proofs::KindFates::proof_never_satisfied, crate::proofs::KindFates::binary_never_satisfied))]
pub fn proof_files_show_unsat_alone()
    ensures text { (job stream : List ℕ) (most : ℕ) → IsFate Proof job stream most (Found Sat) → ⊥ }
    ensures binary { (job stream : List ℕ) (most : ℕ) → IsFate ProofBinary job stream most (Found Sat) → ⊥ }
{}

/// A certificate in DRUP text, all of whose bytes are taken, is found to be one.
pub fn certificate_is_found()
    ensures { (job stream : List ℕ) (most : ℕ) (answer : Answer) → IsCert job stream answer → length stream ≤ most
        → IsFate Drup job stream most (Found answer) }
{}

/// A certificate that white space or a line feed follows is found, whatever comes then, once that byte is taken.
pub fn certificate_is_found_before_more()
    ensures so_far { (job cert rest : List ℕ) (b most : ℕ) (answer : Answer) → IsCert job cert answer → (is_blank b ≡ true) ⊎ (b ≡ 10)
        → length cert < most → IsFateSoFar Drup job (cert ++ b ∷ rest) most (Some (Found answer)) }
    ensures whole { (job cert rest : List ℕ) (b most : ℕ) (answer : Answer) → IsCert job cert answer → (is_blank b ≡ true) ⊎ (b ≡ 10)
        → length cert < most → IsFate Drup job (cert ++ b ∷ rest) most (Found answer) }
{}

/// A binary proof and the text that spells it, all of whose bytes are taken, have the same fate but for byte numbers.
#[tactic(auto, using(crate::proofs::FileSpelling::spelt_fates))]
pub fn spelt_files_have_the_same_fate()
    ensures { (job b t : List ℕ) (most : ℕ) (f : FormulaOf) (x y : Fate) → IsDimacs job f → Spelt f.vars b t → length b ≤ most → length t ≤ most
        → IsFate ProofBinary job b most x → IsFate Proof job t most y → IsSameFate x y }
{}

/// A binary proof and its text, of literals of any variables and lines of any length, all of whose bytes are taken, have the same fate but for
/// byte numbers. Only where a line has a literal of a greater variable after as many as there are variables it may be BadLiteral in the one and
/// LineTooLong in the other.
pub fn any_spelt_files_have_the_same_fate()
    ensures { (job b t : List ℕ) (most : ℕ) (f : FormulaOf) (x y : Fate) → IsDimacs job f → (s : SpeltAny f.vars b t) → length b ≤ most → length t ≤ most
        → IsFate ProofBinary job b most x → IsFate Proof job t most y → IsSameFate x y ⊎ (IsCrowded f.vars s.0 × IsLiteralFault x × IsLiteralFault y) }
{}

/// A text of whole lines that is found to be a proof begins, with a last line 0, with a certificate of a stream.
#[tactic(auto, using(crate::proofs::FileCertificates::file_found_cert))]
pub fn found_proof_begins_certificate()
    ensures { (job b t : List ℕ) (most : ℕ) (f : FormulaOf) → IsDimacs job f → Spelt f.vars b t → length t ≤ most → IsFate Proof job t most (Found Unsat)
        → (n : ℕ) × (n ≤ length (t ++ 48 ∷ 10 ∷ [])) × IsCert job (take n (t ++ 48 ∷ 10 ∷ [])) Unsat }
{}

/// And where it begins so with a certificate, it is found to be a proof.
#[tactic(auto, using(crate::proofs::FileCertificates::file_cert_found))]
pub fn certificate_is_found_proof()
    ensures { (job b t : List ℕ) (n most : ℕ) (f : FormulaOf) → IsDimacs job f → Spelt f.vars b t → length t ≤ most
        → IsCert job (take n (t ++ 48 ∷ 10 ∷ [])) Unsat → IsFate Proof job t most (Found Unsat) }
{}
