//! Laws of the definitions: each function's contract is a law, and its body is empty.

ghost use Rattle.std.specs.Prelude.{◌≡◌, ℕ, true};
ghost use Rattle.cell_table.specs.declared.kind.Kind.{Kind};
ghost use Rattle.cell_table.specs.declared.kind.LeftOut.{LeftOut};
ghost use Rattle.design_core.specs.Asked.{HasPorts, has_parameters};
ghost use Rattle.design_core.specs.Shape.{CellOf, DesignOf};
ghost use Rattle.design_graph.specs.Items.{IsDrivenOnce};
ghost use Rattle.design_meaning.specs.Meaning.{IsCell};
ghost use Rattle.design_check.specs.Faults.{IsFlat};

/// Each cell of a flat design is of a type with a meaning and has the parameters and the ports that the table asks for, and no bit is
/// driven twice.
pub fn flat_cells_are_as_asked()
    ensures known { (d : DesignOf) → IsFlat d → (i : ℕ) (c : CellOf) → IsCell d i c → c.kind ≡ Kind.Unknown → ⊥ }
    ensures served { (d : DesignOf) → IsFlat d → (i : ℕ) (c : CellOf) (k : LeftOut) → IsCell d i c → c.kind ≡ Kind.LeftOut k → ⊥ }
    ensures parameters { (d : DesignOf) → IsFlat d → (i : ℕ) (c : CellOf) → IsCell d i c → has_parameters c.kind c.parameters ≡ true }
    ensures ports { (d : DesignOf) → IsFlat d → (i : ℕ) (c : CellOf) → IsCell d i c → HasPorts c }
    ensures once { (d : DesignOf) → IsFlat d → IsDrivenOnce d }
{}
