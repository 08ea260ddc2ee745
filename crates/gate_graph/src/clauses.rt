// The clauses that say what a gate is.

ghost use Rattle.std.specs.Prelude.{◌≡◌, ◌++◌, map, OnOk, OnErr};
ghost use Rattle.cnf_form.specs.Cnf.{LitWithin, Within};
ghost use Rattle.gate_graph.specs.Folding.{clauses_of, operands};
ghost use Rattle.gate_graph.specs.Kept.{OthersWithin};

use crate::gate::Gate;
use cnf_form::{Formula, Lit};
use std::alloc::AllocError;

// Puts the clauses that say of `y` what the gate is after the others. If memory runs out, the formula is as it was.
pub(crate) fn push_clauses(formula: &mut Formula, gate: &Gate, y: Lit) -> Result<(), AllocError>
    requires operands { OthersWithin formula.old.vars (operands gate.now) }
    requires literal { LitWithin formula.old.vars y }
    ensures ok { let all = formula.old.clauses ++ clauses_of y gate.now in
        OnOk result (formula.new ≡ record formula.old { clauses = all }) }
    ensures err { OnErr result (formula.new ≡ formula.old) }
{
    let off = y.negate();
    match *gate {
        Gate::And(a, b) => push_all(
            formula,
            &[&[off, a], &[off, b], &[y, a.negate(), b.negate()]],
        ),
        Gate::Xor(a, b) => push_all(
            formula,
            &[
                &[off, a, b],
                &[off, a.negate(), b.negate()],
                &[y, a, b.negate()],
                &[y, a.negate(), b],
            ],
        ),
        Gate::Mux(s, a, b) => push_all(
            formula,
            &[
                &[off, s, a],
                &[y, s, a.negate()],
                &[off, s.negate(), b],
                &[y, s.negate(), b.negate()],
            ],
        ),
        Gate::Maj(a, b, c) => push_all(
            formula,
            &[
                &[off, a, b],
                &[off, a, c],
                &[off, b, c],
                &[y, a.negate(), b.negate()],
                &[y, a.negate(), c.negate()],
                &[y, b.negate(), c.negate()],
            ],
        ),
    }
}

// Puts the clauses after the others. If memory runs out, the formula is as it was.
fn push_all(formula: &mut Formula, clauses: &[&[Lit]]) -> Result<(), AllocError>
    requires { Within formula.old.vars (map (λ c. c.now) clauses.now) }
    ensures ok { let all = formula.old.clauses ++ map (λ c. c.now) clauses.now in
        OnOk result (formula.new ≡ record formula.old { clauses = all }) }
    ensures err { OnErr result (formula.new ≡ formula.old) }
{
    let [first, rest @ ..] = clauses else {
        return Ok(());
    };
    formula.push(first)?;
    match push_all(formula, rest) {
        Ok(()) => Ok(()),
        Err(e) => {
            formula.remove(formula.clauses().len() - 1);
            Err(e)
        }
    }
}
