// Literals that are unassigned, neither true nor false, and clauses with a true one.

ghost use Rattle.std.specs.Prelude.{◌≡◌, ◌≤◌, false, IsTrue, IfSome, Contains, ◌⊎◌};
ghost use Rattle.cnf_form.specs.Cnf.{negate, ClauseWithin, LitOf, LitWithin};
ghost use Rattle.unit_propagation.specs.Propagation.{IsUnassigned};

use cnf_form::Lit;
use unit_propagation::Propagator;

/// Whether a literal is neither true nor false.
pub fn is_unassigned(core: &Propagator, l: Lit) -> bool
    requires { l.var ≤ core.now.vars }
    ensures yes { IsTrue result → IsUnassigned core.now.trail l }
    ensures no { result ≡ false → Contains core.now.trail l ⊎ Contains core.now.trail (negate l) }
{
    if core.is_true(l) {
        return false;
    }
    if core.is_true(l.negate()) {
        return false;
    }
    true
}

/// The first unassigned literal of a clause, with this sign if one is given, if the clause has one and no true literal.
pub fn unassigned_in(core: &Propagator, clause: &[Lit], negated: Option<bool>) -> Option<Lit>
    ensures { IfSome result (λ l. LitWithin core.now.vars l × IsUnassigned core.now.trail l) }
{
    let mut found = None;
    for l in clause {
        let l = *l;
        let var = l.var();
        if var == 0 || var > core.vars() || core.is_true(l) {
            return None;
        }
        let fits = match negated {
            Some(negated) => l.is_negated() == negated,
            None => true,
        };
        if fits && found.is_none() && is_unassigned(core, l) {
            found = Some(l);
        }
    }
    found
}

/// Whether a literal of a clause is true.
pub fn is_satisfied(core: &Propagator, clause: &[Lit]) -> bool
    requires within { ClauseWithin core.now.vars clause.now }
    ensures no { result ≡ false → (l : LitOf) → Contains clause.now l → Contains core.now.trail l → ⊥ }
{
    for l in clause {
        if core.is_true(*l) {
            return true;
        }
    }
    false
}
