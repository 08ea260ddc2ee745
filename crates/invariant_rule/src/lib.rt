//! Inductive invariants, proved once for every system of states and steps.
#![tactic(auto)]

ghost use Rattle.std.specs.Prelude.{◌≡◌, Bool, true};
ghost use Rattle.induct_rule.specs.Induction.{NeverBreaks};
ghost use Rattle.invariant_rule.specs.Invariant.{IsInductive, IsReached};

use induct_rule::Steps;

/// Inductive invariants. Where a condition that each assumed start meets goes on along assumed steps, and no assumed
/// state that meets it breaks, no run of any length breaks; and where none does, what runs reach is such a condition.
pub fn invariant_rule<S: Steps>()
    ensures rules_out { (system : S) (holds : S.State → Bool)
        → IsInductive (S.starts system) (S.follows system) (S.assumed system) (S.ok system) (λ state. holds state ≡ true)
        → NeverBreaks (S.starts system) (S.follows system) (S.assumed system) (S.ok system) }
    ensures reached { (system : S)
        → NeverBreaks (S.starts system) (S.follows system) (S.assumed system) (S.ok system)
        → IsInductive (S.starts system) (S.follows system) (S.assumed system) (S.ok system)
        (IsReached (S.starts system) (S.follows system) (S.assumed system)) }
{}
