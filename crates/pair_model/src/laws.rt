//! Laws of the definitions: each function's contract is a law, and its body is empty.

ghost use Rattle.std.specs.Prelude.{ℕ, ◌<◌, List};
ghost use Rattle.cnf_form.specs.Cnf.{LitOf};
ghost use Rattle.invariant_rule.specs.Invariant.{IsInductive};
ghost use Rattle.model_core.specs.Claims.{Shows};
ghost use Rattle.model_core.specs.Meaning.{Assumed, Broken, Cycle, Follows, Frame, Starts};
ghost use Rattle.model_core.specs.Shape.{ModelOf};
ghost use Rattle.pair_form.specs.Pair.{IsInvariant, PairOf};
ghost use Rattle.pair_model.specs.Meaning.{HoldOf, IsPairOf};

/// Where clauses over the state bits are an invariant of the formula of two cycles, no run of the model breaks an assertion.
pub fn invariants_rule_out_breaks()
    ensures { (m : ModelOf) (places : List ℕ) (p : PairOf) (I : List (List LitOf)) → IsPairOf m places p → IsInvariant p I
        → (n : ℕ) (cs : ℕ → Cycle) (a : ℕ) → 0 < n → Shows m n cs a → ⊥ }
{}

/// Clauses over the state bits are an invariant of the formula of two cycles exactly where they are inductive for the model.
pub fn invariants_are_inductive()
    ensures inductive { (m : ModelOf) (places : List ℕ) (p : PairOf) (I : List (List LitOf)) → IsPairOf m places p → IsInvariant p I
        → IsInductive (Starts m) (Follows m) (λ c. Frame m c × Assumed m c) (λ c. (a : ℕ) → Broken m c a → ⊥) (HoldOf places p I) }
    ensures invariant { (m : ModelOf) (places : List ℕ) (p : PairOf) (I : List (List LitOf)) → IsPairOf m places p
        → IsInductive (Starts m) (Follows m) (λ c. Frame m c × Assumed m c) (λ c. (a : ℕ) → Broken m c a → ⊥) (HoldOf places p I)
        → IsInvariant p I }
{}
