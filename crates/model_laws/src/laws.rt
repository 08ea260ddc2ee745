//! Laws of the definitions: each function's contract is a law, and its body is empty.

ghost use Rattle.std.specs.Prelude.{◌+◌, ◌*◌, ◌≤◌, ℕ, List, length, Contains};
ghost use Rattle.design_check.specs.Faults.{IsFlat};
ghost use Rattle.design_core.specs.Places.{place_of};
ghost use Rattle.design_core.specs.Shape.{DesignOf, IsDesign};
ghost use Rattle.design_graph.specs.Order.{IsOrder};
ghost use Rattle.design_graph.specs.declared.driver.Driver.{Driver};
ghost use Rattle.design_meaning.specs.States.{StateBit, input_bits, state_bits};
ghost use Rattle.design_signals.specs.declared.sig_bit.SigBit.{SigBit};
ghost use Rattle.frame_gates.specs.Costs.{frame_vars, next_gates};
ghost use Rattle.model_cone.specs.Cone.{IsInCone};
ghost use Rattle.model_cone.specs.declared.asked.Asked.{Asked};
ghost use Rattle.model_core.specs.Shape.{ModelOf, states};
ghost use Rattle.word_model.specs.Built.{IsBuilt};
ghost use Rattle.word_model.specs.Layout.{state_place};
ghost use Rattle.model_laws.specs.Cost.{cost};
ghost use Rattle.model_laws.specs.Reads.{IsReadOtherwise, IsStateRead};

/// A frame of a design's model, with its state bits, what they have next and its statements, takes at most as many variables as the
/// design costs.
pub fn variables_are_within_cost()
    ensures { (d : DesignOf) (order : List Driver) (m : ModelOf) → IsDesign d → IsFlat d → IsOrder d order → IsBuilt d order m
        → 1 + length (states m) + (next_gates m + frame_vars m + 2 * length m.assumes + 2 * length m.asserts + length m.covers + 8) ≤ cost d }
{}

/// What stands in the cone of what is asked is read in the design: each input bit and each state bit is, otherwise than as a clock. Of a row
/// that is kept beside the wires some bit of the register's output is read.
pub fn cone_bits_are_read()
    ensures inputs { (d : DesignOf) (order : List Driver) (m : ModelOf) → IsDesign d → IsFlat d → IsOrder d order → IsBuilt d order m
        → (asked : Asked) (b : SigBit) → Contains (input_bits d) b → IsInCone m asked (place_of d b) → IsReadOtherwise d b }
    ensures states { (d : DesignOf) (order : List Driver) (m : ModelOf) → IsDesign d → IsFlat d → IsOrder d order → IsBuilt d order m
        → (asked : Asked) (s : StateBit) → Contains (state_bits d) s → IsInCone m asked (state_place d s) → IsStateRead d s }
{}
