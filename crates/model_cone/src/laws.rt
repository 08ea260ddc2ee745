//! Laws of the definitions: each function's contract is a law, and its body is empty.

ghost use Rattle.std.specs.Prelude.{◌≡◌, ◌↔◌, ◌<◌, ℕ, false, Contains};
ghost use Rattle.model_core.specs.Choices.{open_states};
ghost use Rattle.model_core.specs.Meaning.{Assumed, Broken, Cycle, Reached, Run, Window};
ghost use Rattle.model_core.specs.Served.{IsModel};
ghost use Rattle.model_core.specs.Shape.{ModelOf, states};
ghost use Rattle.model_cone.specs.Cone.{AgreeInCone, IsInCone};
ghost use Rattle.model_cone.specs.Slice.{IsSliceOf};
ghost use Rattle.model_cone.specs.declared.asked.Asked.{Asked};

/// A slice has a window or a run where the model has one, the same in the cone.
pub fn slices_have_windows()
    ensures window { (m : ModelOf) (asked : Asked) (s : ModelOf) → IsModel m → IsModel s → IsSliceOf m asked s → (n : ℕ) (cs : ℕ → Cycle) → Window m n cs
        → (es : ℕ → Cycle) × Window s n es × ((t : ℕ) → t < n → AgreeInCone m asked (cs t) (es t)) }
    ensures run { (m : ModelOf) (asked : Asked) (s : ModelOf) → IsModel m → IsModel s → IsSliceOf m asked s → (n : ℕ) (cs : ℕ → Cycle) → Run m n cs
        → (es : ℕ → Cycle) × Run s n es × ((t : ℕ) → t < n → AgreeInCone m asked (cs t) (es t)) }
{}

/// The model has a window or a run where a slice has one, the same in the cone. Outside, each input is 0 in each cycle, and so is each
/// state bit in the first cycle of the window; of the run, each that has no start digit.
pub fn windows_of_slices()
    ensures window { (m : ModelOf) (asked : Asked) (s : ModelOf) → IsModel m → IsModel s → IsSliceOf m asked s → (n : ℕ) (es : ℕ → Cycle) → Window s n es
        → (cs : ℕ → Cycle) × Window m n cs × ((t : ℕ) → t < n → AgreeInCone m asked (cs t) (es t))
        × ((t p : ℕ) → t < n → Contains m.inputs p → (IsInCone m asked p → ⊥) → cs t p ≡ false)
        × ((p : ℕ) → Contains (states m) p → (IsInCone m asked p → ⊥) → cs 0 p ≡ false) }
    ensures run { (m : ModelOf) (asked : Asked) (s : ModelOf) → IsModel m → IsModel s → IsSliceOf m asked s → (n : ℕ) (es : ℕ → Cycle) → Run s n es
        → (cs : ℕ → Cycle) × Run m n cs × ((t : ℕ) → t < n → AgreeInCone m asked (cs t) (es t))
        × ((t p : ℕ) → t < n → Contains m.inputs p → (IsInCone m asked p → ⊥) → cs t p ≡ false)
        × ((p : ℕ) → Contains (open_states m) p → (IsInCone m asked p → ⊥) → cs 0 p ≡ false) }
{}

/// Of cycles that are the same in the cone the same is said of all assumptions, and of what is asked.
pub fn slices_say_the_same()
    ensures assumed { (m : ModelOf) (asked : Asked) (s : ModelOf) → IsSliceOf m asked s → (c e : Cycle) → AgreeInCone m asked c e → Assumed m c ↔ Assumed s e }
    ensures broken { (m s : ModelOf) → IsSliceOf m Asked.Asserts s → (c e : Cycle) → AgreeInCone m Asked.Asserts c e → (k : ℕ) → Broken m c k ↔ Broken s e k }
    ensures reached { (m s : ModelOf) (k : ℕ) → IsSliceOf m Asked.Covers s → (c e : Cycle) → AgreeInCone m Asked.Covers c e → Reached m c k ↔ Reached s e k }
{}
