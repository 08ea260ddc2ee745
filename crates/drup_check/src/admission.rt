// What an addition asks of the clauses, and what a deletion asks.

ghost use Rattle.std.specs.Prelude.{◌≡◌, ◌↔◌, false, map, IsTrue, IfOk, OnOk};
ghost use Rattle.cnf_form.specs.Cnf.{negate, ClauseWithin, IsAdmitted, IsReason};
ghost use Rattle.unit_propagation.specs.Propagation.{IsConsistent, IsFixpoint};
ghost use Rattle.unit_propagation.specs.Propagator.{clauses_of};
ghost use Rattle.drup_check.specs.Inside.{IsRoot};

use cnf_form::Lit;
use std::alloc::AllocError;
use unit_propagation::Propagator;

// The negation of each literal.
fn negate_all(clause: &[Lit], negated: &mut Vec<Lit>) -> Result<(), AllocError>
    ensures { OnOk result (negated.new.items ≡ map negate clause.now) }
{
    negated.clear();
    for l in clause {
        negated.push(l.negate())?;
    }
    Ok(())
}

// Whether unit propagation from the clauses and the negated literals of the clause reaches a conflict.
pub(crate) fn reaches_conflict(
    core: &mut Propagator,
    clause: &[Lit],
    negated: &mut Vec<Lit>,
) -> Result<bool, AllocError>
    requires root { IsRoot core.old }
    requires conflict { core.old.conflict ≡ false }
    requires within { ClauseWithin core.old.vars clause.now }
    ensures core { core.new ≡ core.old }
    ensures exact { IfOk result (λ b. IsTrue b ↔ IsAdmitted (clauses_of core.old.slots) clause.now) }
{
    negate_all(clause, negated)?;
    let _outcome = core.assume(negated)?;
    let conflict = core.conflict();
    core.backtrack(0);
    Ok(conflict)
}

// Whether some literal of the clause is true, and all its others are false.
pub(crate) fn is_reason(core: &Propagator, clause: &[Lit]) -> bool
    requires root { IsRoot core.now }
    requires consistent { IsConsistent core.now.trail }
    requires fixpoint { IsFixpoint core.now.trail (clauses_of core.now.slots) }
    requires within { ClauseWithin core.now.vars clause.now }
    ensures { IsTrue result ↔ IsReason (clauses_of core.now.slots) clause.now }
{
    let mut implied = None;
    for l in clause {
        let l = *l;
        if core.is_true(l) {
            match implied {
                None => {
                    implied = Some(l);
                }
                Some(other) => {
                    if other != l {
                        return false;
                    }
                }
            }
        } else if !core.is_true(l.negate()) {
            return false;
        }
    }
    implied.is_some()
}
