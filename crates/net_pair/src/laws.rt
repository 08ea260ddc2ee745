// Laws of the definitions: each function's contract is a law, and its body is empty.

ghost use Rattle.std.specs.Prelude.{◌≡◌, ◌↔◌, ◌+◌, ◌*◌, ◌^◌, ◌<◌, ◌≤◌, ◌++◌, ℕ, List, Option, None, Some, Contains, length, max, slice_get};
ghost use Rattle.cnf_form.specs.Cnf.{LitOf, Within};
ghost use Rattle.gate_graph.specs.Circuit.{IsFixed};
ghost use Rattle.model_cone.specs.Cone.{IsInCone};
ghost use Rattle.model_cone.specs.Slice.{IsSliceOf};
ghost use Rattle.model_cone.specs.declared.asked.Asked.{Asked};
ghost use Rattle.model_core.specs.Served.{IsModel};
ghost use Rattle.model_core.specs.Shape.{ModelOf, states};
ghost use Rattle.bit_net.specs.Net.{IsNet, NetOf, gate_var, vars};
ghost use Rattle.frame_net.specs.NetOf.{IsNetOf};
ghost use Rattle.pair_form.specs.Pair.{bit_at};
ghost use Rattle.pair_model.specs.Meaning.{IsPairOf};
ghost use Rattle.net_pair.specs.Numbers.{HaveStates};
ghost use Rattle.net_pair.specs.Pairing.{both, made, pair_of};

/// The assignments of the pair of a model's net are exactly the pairs of neighbouring cycles of the model of which the first is assumed.
pub fn pairs_are_of_models()
    ensures { (m : ModelOf) (n : NetOf) (places : List ℕ) (bits : List (Option ℕ)) → IsModel m → IsNet n → IsNetOf m n → HaveStates (states m) places bits → made n bits ≤ 2 ^ 27
        → IsPairOf m places (pair_of n bits) }
{}

/// A number has no literals exactly where its place is that of no state bit.
pub fn states_have_literals()
    ensures { (m : ModelOf) (n : NetOf) (places : List ℕ) (bits : List (Option ℕ)) → IsModel m → IsNetOf m n → HaveStates (states m) places bits
        → (i place : ℕ) → slice_get places i ≡ Some place → (bit_at (pair_of n bits) i ≡ None) ↔ (Contains (states m) place → ⊥) }
{}

/// Of the pair of a model's slice, to what is asked of the model, the number of a state bit has no literals exactly where the bit is outside
/// the cone of that.
pub fn state_bits_in_the_cone_have_literals()
    ensures { (m s : ModelOf) (asked : Asked) (n : NetOf) (places : List ℕ) (bits : List (Option ℕ)) → IsModel s → IsSliceOf m asked s → IsNetOf s n → HaveStates (states s) places bits
        → (i place : ℕ) → slice_get places i ≡ Some place → Contains (states m) place → (bit_at (pair_of n bits) i ≡ None) ↔ (IsInCone m asked place → ⊥) }
{}

/// Unit propagation from the states and inputs of the first cycle and the inputs of the second fixes every variable, whatever is added. The
/// variables after those, which only number state bits, stand in no clause.
pub fn states_and_inputs_fix_all()
    ensures fixed { (n : NetOf) (bits : List (Option ℕ)) → IsNet n → made n bits ≤ 2 ^ 27 → (more : List (List LitOf))
        → ((v : ℕ) → 1 < v → v < gate_var (both n) 0 → IsFixed ((pair_of n bits).formula.clauses ++ more) v)
        → (v : ℕ) → 0 < v → v ≤ vars (both n) → IsFixed ((pair_of n bits).formula.clauses ++ more) v }
    ensures within { (n : NetOf) (bits : List (Option ℕ)) → IsNet n → made n bits ≤ 2 ^ 27 → Within (vars (both n)) (pair_of n bits).formula.clauses }
{}

/// No more variables are made than counting tells: twice the states, inputs and gates, and that which is true, or as many as there are numbers;
/// and one is left over.
pub fn what_is_made_is_counted()
    ensures { (n : NetOf) (bits : List (Option ℕ)) → made n bits ≤ 1 + max (1 + 2 * length n.states + 2 * n.inputs + 2 * length n.gates) (length bits) }
{}
