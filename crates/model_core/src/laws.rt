//! Laws of the definitions: each function's contract is a law, and its body is empty.

ghost use Rattle.std.specs.Prelude.{◌≡◌, ◌↔◌, ◌<◌, ◌≤◌, ℕ, ◌++◌, Contains, Some, length, slice_get};
ghost use Rattle.sby_bits.specs.Rows.{Row};
ghost use Rattle.model_core.specs.Choices.{Agree, AreChoicesFor, ChoicesOf, Plays, open_states, start_row};
ghost use Rattle.model_core.specs.Meaning.{Assumed, Broken, Cycle, Follows, Frame, Reached, Run, Starts, next_states, row_at, row_of_node};
ghost use Rattle.model_core.specs.Served.{IsModel};
ghost use Rattle.model_core.specs.Shape.{ModelOf, NodeOf, sources, states};

/// Whatever the state bits and the inputs have, there is a cycle in which they have it.
pub fn every_choice_has_a_frame()
    ensures { (m : ModelOf) → IsModel m → (c : Cycle) → (e : Cycle) × Frame m e × ((p : ℕ) → Contains (states m ++ m.inputs) p → e p ≡ c p) }
{}

/// Two cycles with the same state bits and inputs are the same at all places.
pub fn one_frame()
    ensures { (m : ModelOf) → IsModel m → (c e : Cycle) → Frame m c → Frame m e → ((p : ℕ) → Contains (states m ++ m.inputs) p → c p ≡ e p) → Agree m c e }
{}

/// Whatever is chosen for the open state bits and, cycle by cycle, for the inputs, there is a run with it.
pub fn every_choice_has_a_run()
    ensures { (m : ModelOf) → IsModel m → (c : ChoicesOf) → AreChoicesFor m c → 0 < length c.inputs → (cs : ℕ → Cycle) × Plays m c cs }
{}

/// Two runs with the same choices are the same at all places in each cycle.
pub fn one_run()
    ensures { (m : ModelOf) → IsModel m → (c : ChoicesOf) (cs es : ℕ → Cycle) → Plays m c cs → Plays m c es → (t : ℕ) → t < length c.inputs → Agree m (cs t) (es t) }
{}

/// A node gives as many bits as its output has places.
pub fn node_rows_fit()
    ensures { (m : ModelOf) → IsModel m → (c : Cycle) (i : ℕ) (n : NodeOf) → slice_get m.nodes i ≡ Some n → length (row_of_node c n) ≡ length n.y }
{}

/// What places outside the model have changes nothing that is said of a cycle.
pub fn frames_are_local()
    ensures frame { (m : ModelOf) → IsModel m → (c e : Cycle) → Agree m c e → Frame m c → Frame m e }
    ensures next { (m : ModelOf) → IsModel m → (c e : Cycle) → Agree m c e → next_states m c ≡ next_states m e }
    ensures assumed { (m : ModelOf) → IsModel m → (c e : Cycle) → Agree m c e → Assumed m c → Assumed m e }
    ensures broken { (m : ModelOf) → IsModel m → (c e : Cycle) → Agree m c e → (k : ℕ) → Broken m c k → Broken m e k }
    ensures reached { (m : ModelOf) → IsModel m → (c e : Cycle) → Agree m c e → (k : ℕ) → Reached m c k → Reached m e k }
{}

/// State bits start with their digits and the chosen bits, and have next what registers keep: each a condition on one row.
pub fn state_rows()
    ensures start { (m : ModelOf) → IsModel m → (c : Cycle) (row : Row) → length row ≡ length (open_states m)
        → (Starts m c × (row_at c (open_states m) ≡ row)) ↔ (row_at c (states m) ≡ start_row m.starts row) }
    ensures next { (m : ModelOf) → IsModel m → (c e : Cycle) → Follows m c e ↔ (row_at e (states m) ≡ next_states m c) }
{}

/// A run that is cut after any of its cycles is a run.
pub fn runs_can_be_cut()
    ensures { (m : ModelOf) (n k : ℕ) (cs : ℕ → Cycle) → 0 < k → k ≤ n → Run m n cs → Run m k cs }
{}
