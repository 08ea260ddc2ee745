//! Laws of the definitions: each function's contract is a law, and its body is empty.

ghost use Rattle.std.specs.Prelude.{◌<◌, ℕ};
ghost use Rattle.design_core.specs.Shape.{DesignOf, IsDesign};
ghost use Rattle.design_meaning.specs.Claims.{ReachRun as ReachRunOf, Shows as ShowsOf};
ghost use Rattle.design_meaning.specs.Meaning.{Run as RunOf, Valuation, Window as WindowOf};
ghost use Rattle.model_core.specs.Claims.{ReachRun, Shows};
ghost use Rattle.model_core.specs.Meaning.{Cycle, Run, Window};
ghost use Rattle.model_core.specs.Shape.{ModelOf};
ghost use Rattle.word_model.specs.Layout.{IsAlike, valued};
ghost use Rattle.word_model.specs.Model.{IsModelOf};

/// The model's windows and runs are the design's.
pub fn model_runs_are_runs()
    ensures window { (d : DesignOf) (m : ModelOf) → IsModelOf d m → (n : ℕ) (cs : ℕ → Cycle) → Window m n cs → WindowOf d n (λ t. valued d (cs t)) }
    ensures run { (d : DesignOf) (m : ModelOf) → IsModelOf d m → (n : ℕ) (cs : ℕ → Cycle) → Run m n cs → RunOf d n (λ t. valued d (cs t)) }
{}

/// The design's windows and runs are the model's: each is alike one that the model's cycles give.
pub fn runs_are_model_runs()
    ensures window { (d : DesignOf) (m : ModelOf) → IsDesign d → IsModelOf d m → (n : ℕ) (vs : ℕ → Valuation) → WindowOf d n vs
        → (cs : ℕ → Cycle) × Window m n cs × ((t : ℕ) → t < n → IsAlike d (vs t) (valued d (cs t))) }
    ensures run { (d : DesignOf) (m : ModelOf) → IsDesign d → IsModelOf d m → (n : ℕ) (vs : ℕ → Valuation) → RunOf d n vs
        → (cs : ℕ → Cycle) × Run m n cs × ((t : ℕ) → t < n → IsAlike d (vs t) (valued d (cs t))) }
{}

/// Some run of the design shows a break where some run of the model does.
pub fn breaks_carry_over()
    ensures model { (d : DesignOf) (m : ModelOf) → IsModelOf d m → (n : ℕ) (cs : ℕ → Cycle) (a : ℕ) → Shows m n cs a → ShowsOf d n (λ t. valued d (cs t)) a }
    ensures design { (d : DesignOf) (m : ModelOf) → IsDesign d → IsModelOf d m → (n a : ℕ) (vs : ℕ → Valuation) → ShowsOf d n vs a → (cs : ℕ → Cycle) × Shows m n cs a }
{}

/// Some run of the design reaches a cover statement where some run of the model does.
pub fn covers_carry_over()
    ensures model { (d : DesignOf) (m : ModelOf) → IsModelOf d m → (n : ℕ) (cs : ℕ → Cycle) (k : ℕ) → ReachRun m n cs k → ReachRunOf d n (λ t. valued d (cs t)) k }
    ensures design { (d : DesignOf) (m : ModelOf) → IsDesign d → IsModelOf d m → (n k : ℕ) (vs : ℕ → Valuation) → ReachRunOf d n vs k → (cs : ℕ → Cycle) × ReachRun m n cs k }
{}
