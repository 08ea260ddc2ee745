// The goals of a formula: the literals of its last clause, where they look like those of a job over several cycles. They are solved one
// after the other, each as the first decision: a refuted one is false at level 0, what was learnt from it serves the next, and the first
// that can be true gives the shortest run (incremental bounded model checking, Eén and Sörensson, 2003). Nothing is promised of it.

ghost use Rattle.std.specs.Prelude.{◌≤◌, IfSome};
ghost use Rattle.cnf_form.specs.Cnf.{LitWithin};
ghost use Rattle.unit_propagation.specs.Propagation.{IsUnassigned};

use crate::unassigned::is_unassigned;
use cnf_form::Lit;
use unit_propagation::Propagator;

// After this many conflicts for one goal all goals are searched for at once.
const GOAL_CONFLICTS: u64 = 2_000;

#[derive(Drop)]
pub struct Goals {
    is_over: bool,
    place: usize,
    conflicts: u64,
}

// Whether a false literal is so at level 0.
fn is_refuted(core: &Propagator, l: Lit) -> bool
    requires { l.var ≤ core.now.vars }
{
    let other = l.negate();
    if !core.is_true(other) {
        return false;
    }
    if core.levels() == 0 {
        return true;
    }
    core.place(other) < core.limit(0)
}

impl Goals {
    pub fn new(has_goals: bool) -> Self {
        Goals {
            is_over: !has_goals,
            place: 0,
            conflicts: 0,
        }
    }

    /// Counts one more conflict.
    pub fn count(&mut self) {
        self.conflicts = self.conflicts.saturating_add(1);
        if self.conflicts > GOAL_CONFLICTS {
            self.is_over = true;
        }
    }

    /// Goals aren't decided any more.
    pub fn end(&mut self) {
        self.is_over = true;
    }

    /// The first goal that isn't refuted, if it is unassigned.
    pub fn next(&mut self, core: &Propagator, goals: &[Lit]) -> Option<Lit>
        ensures { IfSome result (λ l. LitWithin core.now.vars l × IsUnassigned core.now.trail l) }
    {
        if self.is_over {
            return None;
        }
        for place in self.place..goals.len() {
            let l = goals[place];
            if l.var() == 0 || l.var() > core.vars() {
                return None;
            }
            if is_unassigned(core, l) {
                return Some(l);
            }
            if !is_refuted(core, l) {
                return None;
            }
            self.place = place + 1;
            self.conflicts = 0;
        }
        None
    }
}
