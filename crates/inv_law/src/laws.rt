//! Laws of the definitions: each function's contract is a law.

ghost use Rattle.std.specs.Prelude.{ℕ, ◌<◌, Bool, List, Some};
ghost use Rattle.cnf_form.specs.Cnf.{LitOf};
ghost use Rattle.inv_fate.specs.Fate.{BytesFate, Found};
ghost use Rattle.model_cone.specs.Slice.{IsSliceOf};
ghost use Rattle.model_cone.specs.declared.asked.Asked.{Asked};
ghost use Rattle.model_core.specs.Claims.{Shows};
ghost use Rattle.model_core.specs.Meaning.{Cycle};
ghost use Rattle.model_core.specs.Served.{IsModel};
ghost use Rattle.model_core.specs.Shape.{ModelOf};
ghost use Rattle.pair_form.specs.Pair.{IsInvariant, PairOf};
ghost use Rattle.pair_model.specs.Meaning.{IsPairOf};

use inv_fate::{certificates_are_sound, found_is_a_certificate};
use model_cone::laws::{slices_have_windows, slices_say_the_same};
use pair_model::invariants_rule_out_breaks;

/// An invariant of the pair of a model's slice, to what all assertions and assumptions rest on, shows that no run of the whole
/// model, of any length, breaks an assertion.
pub fn invariants_of_slices_rule_out_breaks()
    ensures { (m s : ModelOf) (places : List ℕ) (p : PairOf) (I : List (List LitOf)) → IsModel m → IsModel s → IsSliceOf m Asked.Asserts s → IsPairOf s places p → IsInvariant p I
        → (n : ℕ) (cs : ℕ → Cycle) (a : ℕ) → 0 < n → Shows m n cs a → ⊥ }
{
    slices_have_windows();
    slices_say_the_same();
    invariants_rule_out_breaks();
}

/// Where a stream's bytes are found to be a certificate for the pair of a model's slice, no run of the model, of any length,
/// breaks an assertion.
pub fn found_rules_out_breaks()
    ensures { (m s : ModelOf) (places : List ℕ) (p : PairOf) (ended : Bool) (bytes : List ℕ) → IsModel m → IsModel s → IsSliceOf m Asked.Asserts s → IsPairOf s places p → BytesFate p ended bytes (Some Found)
        → (n : ℕ) (cs : ℕ → Cycle) (a : ℕ) → 0 < n → Shows m n cs a → ⊥ }
{
    found_is_a_certificate();
    certificates_are_sound();
    invariants_of_slices_rule_out_breaks();
}
