// Which literal is decided next.

ghost use Rattle.std.specs.Prelude.{◌*◌, ◌+◌, ◌≤◌, length, IfSome};
ghost use Rattle.cnf_form.specs.Cnf.{LitWithin};
ghost use Rattle.unit_propagation.specs.Propagation.{IsUnassigned};

use cnf_form::{Formula, Lit};
use decision_order::{Order, is_unassigned};
use unit_propagation::Propagator;

// A shorter last clause isn't taken for a goal.
const LEAST_GOAL: usize = 4;

// The literal of a variable, with its phase, if that is unassigned.
fn unassigned(core: &Propagator, order: &Order, var: u32) -> Option<Lit>
    ensures { IfSome result (λ l. LitWithin core.now.vars l × IsUnassigned core.now.trail l) }
{
    if 0 < var && var <= core.vars() {
        let l = Lit::new(var, order.phase(var));
        if is_unassigned(core, l) {
            return Some(l);
        }
    }
    None
}

// The literal of the most active unassigned variable that isn't passed over.
fn unassigned_by_order(core: &Propagator, order: &mut Order) -> Option<Lit>
    ensures { IfSome result (λ l. LitWithin core.now.vars l × IsUnassigned core.now.trail l) }
{
    for _ in 0..order.len() {
        let var = order.pop();
        if order.is_passed(var) {
            continue;
        }
        if let Some(l) = unassigned(core, order, var) {
            return Some(l);
        }
    }
    None
}

// The literal of the first unassigned variable.
fn first_unassigned(core: &Propagator) -> Option<Lit>
    ensures { IfSome result (λ l. LitWithin core.now.vars l × IsUnassigned core.now.trail l) }
{
    for place in 0..core.vars() {
        let l = Lit::new(place + 1, true);
        if is_unassigned(core, l) {
            return Some(l);
        }
    }
    None
}

// Whether a clause looks like a job's goal over several cycles: at least four literals, of rising variables.
fn is_goal(clause: &[Lit]) -> bool {
    if clause.len() < LEAST_GOAL {
        return false;
    }
    let mut last = 0;
    for l in clause {
        if l.var() <= last {
            return false;
        }
        last = l.var();
    }
    true
}

// Whether the formula's last clause looks like a goal.
pub(crate) fn has_goal(formula: &Formula) -> bool {
    let clauses = formula.clauses();
    clauses.len() > 0 && is_goal(clauses.get(clauses.len() - 1))
}

// An unassigned literal: one that is guessed, else the first goal that isn't refuted, else the first in order, else one that is passed
// over. None where all variables have values.
pub(crate) fn choose(core: &Propagator, order: &mut Order, formula: &Formula) -> Option<Lit>
    ensures some { IfSome result (λ l. LitWithin core.now.vars l × IsUnassigned core.now.trail l) }
    ensures room { length core.now.trail ≤ 2 * core.now.vars + 2 }
{
    let _room = core.trail().len();
    if let Some(l) = order.lucky.next(core, formula) {
        return Some(l);
    }
    let clauses = formula.clauses();
    if clauses.len() > 0 {
        let goals = clauses.get(clauses.len() - 1);
        if let Some(l) = order.goals.next(core, goals) {
            return Some(l);
        }
    }
    let front = order.front(core);
    if let Some(l) = unassigned(core, order, front) {
        return Some(l);
    }
    if let Some(l) = unassigned_by_order(core, order) {
        return Some(l);
    }
    let passed = order.next_passed(core);
    if let Some(l) = unassigned(core, order, passed) {
        return Some(l);
    }
    first_unassigned(core)
}
