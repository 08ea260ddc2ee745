// Clauses are added at level 0.

ghost use Rattle.std.specs.Prelude.{◌≡◌, ◌++◌, ◌∷◌, [], map, IfOk, OnOk, Some, None};
ghost use Rattle.cnf_form.specs.Cnf.{ClauseWithin};
ghost use Rattle.unit_propagation.specs.Propagator.{clauses_of};
ghost use Rattle.cdcl_core.specs.Levels.{IsJustified, IsPending};

use cnf_form::{Formula, Lit};
use std::alloc::{AllocError, Global};
use unit_propagation::Propagator;

// Adds a clause, at level 0.
pub(crate) fn add_at_root(core: &mut Propagator, clause: &[Lit]) -> Result<(), AllocError>
    requires level { core.old.limits ≡ [] }
    requires justified { IsJustified core.old }
    requires pending { IsPending core.old None }
    requires within { ClauseWithin core.old.vars clause.now }
    ensures vars { OnOk result (core.new.vars ≡ core.old.vars) }
    ensures slots { OnOk result (core.new.slots ≡ core.old.slots ++ Some clause.now ∷ []) }
    ensures level { OnOk result (core.new.limits ≡ []) }
    ensures justified { OnOk result (IsJustified core.new) }
    ensures pending { OnOk result (IsPending core.new None) }
{
    core.levels_are_complete();
    core.add_clause(clause)?;
    core.clauses_are_within();
    Ok(())
}

// Adds the clauses of the formula.
fn add_all(core: &mut Propagator, formula: &Formula) -> Result<(), AllocError>
    requires vars { core.old.vars ≡ formula.now.vars }
    requires slots { core.old.slots ≡ [] }
    requires level { core.old.limits ≡ [] }
    requires justified { IsJustified core.old }
    requires pending { IsPending core.old None }
    ensures vars { OnOk result (core.new.vars ≡ formula.now.vars) }
    ensures slots { OnOk result (core.new.slots ≡ map Some formula.now.clauses) }
    ensures level { OnOk result (core.new.limits ≡ []) }
    ensures justified { OnOk result (IsJustified core.new) }
    ensures pending { OnOk result (IsPending core.new None) }
{
    let clauses = formula.clauses();
    for place in 0..clauses.len() {
        add_at_root(core, clauses.get(place))?;
    }
    Ok(())
}

// The clauses of the formula, with what follows from them.
pub(crate) fn load(alloc: Global, formula: &Formula) -> Result<Propagator, AllocError>
    ensures vars { IfOk result (λ p. p.vars ≡ formula.now.vars) }
    ensures clauses { IfOk result (λ p. clauses_of p.slots ≡ formula.now.clauses) }
    ensures slots { IfOk result (λ p. p.slots ≡ map Some formula.now.clauses) }
    ensures level { IfOk result (λ p. p.limits ≡ []) }
    ensures justified { IfOk result (λ p. IsJustified p) }
    ensures pending { IfOk result (λ p. IsPending p None) }
{
    let mut core = Propagator::new(alloc, formula.vars())?;
    add_all(&mut core, formula)?;
    Ok(core)
}
