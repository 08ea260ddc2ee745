// Laws of fates.

ghost use Rattle.std.specs.Prelude.{◌≡◌, ◌++◌, List, Option, Some};
ghost use Rattle.cnf_form.specs.Cnf.{LitOf};
ghost use Rattle.pair_form.specs.Pair.{IsInvariant, PairOf};
ghost use Rattle.inv_fate.specs.Cert.{IsCertOf};
ghost use Rattle.inv_fate.specs.Fate.{StreamFate, Found, InvFate};
ghost use Rattle.inv_stream.specs.Machine.{InvSaying};

/// A stream that is found to be a certificate has one in it: clauses over state bits, and three proofs that they are inductive.
pub fn found_is_a_certificate()
    ensures { (p : PairOf) (ss : List InvSaying) → StreamFate p ss (Some Found) → (I : List (List LitOf)) × IsCertOf p I }
{}

/// Each certificate is found in some stream.
pub fn certificates_are_found()
    ensures { (p : PairOf) (I : List (List LitOf)) → IsCertOf p I → (ss : List InvSaying) × StreamFate p ss (Some Found) }
{}

/// What a certificate says is true of all assignments.
pub fn certificates_are_sound()
    ensures { (p : PairOf) (I : List (List LitOf)) → IsCertOf p I → IsInvariant p I }
{}

/// What is said later changes no fate.
pub fn fates_stay()
    ensures { (p : PairOf) (ss more : List InvSaying) (fate : InvFate) → StreamFate p ss (Some fate) → StreamFate p (ss ++ more) (Some fate) }
{}

/// Sayings have one fate at most.
pub fn one_fate()
    ensures { (p : PairOf) (ss : List InvSaying) (x y : Option InvFate) → StreamFate p ss x → StreamFate p ss y → x ≡ y }
{}

/// No sayings have no fate at all.
pub fn some_fate()
    ensures { (p : PairOf) (ss : List InvSaying) → ((x : Option InvFate) → StreamFate p ss x → ⊥) → ⊥ }
{}
