// Clauses over state bits as they are said of a cycle, and whether the present clauses admit them.

ghost use Rattle.std.specs.Prelude.{◌≡◌, ◌↔◌, ◌++◌, IfOk, IsTrue, OnOk};
ghost use Rattle.pair_form.specs.Pair.{clause_over, clauses_over, lits_over};
ghost use Rattle.inv_fate.specs.Fate.{AreAdmitted};

use cnf_form::{Formula, Lit};
use drup_check::Checker;
use pair_form::{Frame, Pair};
use std::alloc::AllocError;

// Puts what a literal over state bits says of a cycle after the others.
fn push_over(lits: &mut Vec<Lit>, pair: &Pair, frame: Frame, lit: Lit) -> Result<(), AllocError>
    ensures { OnOk result (lits.new.items ≡ lits.old.items ++ lits_over pair.now frame lit) }
{
    let Some(own) = pair.bit(lit.var(), frame) else {
        return Ok(());
    };
    let said = if lit.is_negated() { own.negate() } else { own };
    lits.push(said)?;
    Ok(())
}

// What a clause over state bits says of a cycle.
pub(crate) fn say(
    lits: &mut Vec<Lit>,
    pair: &Pair,
    frame: Frame,
    clause: &[Lit],
) -> Result<(), AllocError>
    ensures { OnOk result (lits.new.items ≡ clause_over pair.now frame clause.now) }
{
    lits.clear();
    for lit in clause {
        push_over(lits, pair, frame, *lit)?;
    }
    Ok(())
}

// Whether a checker's clauses admit each of an invariant's as it is said of a cycle.
pub(crate) fn all_admitted(
    checker: &mut Checker,
    lits: &mut Vec<Lit>,
    pair: &Pair,
    frame: Frame,
    invariant: &Formula,
) -> Result<bool, AllocError>
    requires { checker.old.vars ≡ pair.now.formula.vars }
    ensures { IfOk result (λ b. IsTrue b ↔ AreAdmitted checker.old.clauses (clauses_over pair.now frame invariant.now.clauses)) }
{
    pair.promise();
    let clauses = invariant.clauses();
    for place in 0..clauses.len() {
        say(lits, pair, frame, clauses.get(place))?;
        if !checker.admits(lits.as_slice())? {
            return Ok(false);
        }
    }
    Ok(true)
}
