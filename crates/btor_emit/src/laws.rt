//! Laws of the definitions: each function's contract is a law, and its body is empty.

ghost use Rattle.std.specs.Prelude.{◌<◌, ℕ, List};
ghost use Rattle.btor_core.specs.Meaning.{BtorRun, Values};
ghost use Rattle.btor_core.specs.Shape.{BtorOf};
ghost use Rattle.btor_emit.specs.Drawing.{IsDrawn};
ghost use Rattle.btor_emit.specs.Emission.{IsSame};
ghost use Rattle.btor_emit.specs.declared.goal.Goal.{Goal};
ghost use Rattle.model_core.specs.Meaning.{Cycle, Run};
ghost use Rattle.model_core.specs.Shape.{ModelOf};

/// Lines that say of each cycle what a model says have its runs, and no others.
pub fn drawn_lines_have_the_runs()
    ensures from { (m : ModelOf) (g : Goal) (e : BtorOf) (inputs : List ℕ) → IsDrawn m g e inputs → (n : ℕ) (vss : ℕ → Values) → BtorRun e n vss
        → (cs : ℕ → Cycle) × Run m n cs × ((t : ℕ) → t < n → IsSame m g e inputs (vss t) (cs t)) }
    ensures to { (m : ModelOf) (g : Goal) (e : BtorOf) (inputs : List ℕ) → IsDrawn m g e inputs → (n : ℕ) (cs : ℕ → Cycle) → Run m n cs
        → (vss : ℕ → Values) × BtorRun e n vss × ((t : ℕ) → t < n → IsSame m g e inputs (vss t) (cs t)) }
{}
