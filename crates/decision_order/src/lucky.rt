// Lucky phases (Biere, 2019): guesses that are followed before the search for a goal begins, each from level 0 until a clause is
// falsified: a machine often has a run in which all variables that its clauses don't fix have the same value. Nothing is promised of it.

ghost use Rattle.std.specs.Prelude.{IfSome};
ghost use Rattle.cnf_form.specs.Cnf.{LitWithin};
ghost use Rattle.unit_propagation.specs.Propagation.{IsUnassigned};

use crate::unassigned::{is_unassigned, unassigned_in};
use cnf_form::{Formula, Lit};
use unit_propagation::Propagator;

// This many guesses are made.
const GUESSES: u32 = 4;

// The first guesses, this many, go through the variables alone.
const BY_VARS: u32 = 2;

/// The guesses are numbered from 1: that all is false; that all is true; of each clause that isn't true a negated literal, and what is
/// left is true; the same with the opposite values. The places are those of the next clause and variable.
#[derive(Drop)]
pub struct Lucky {
    guess: u32,
    clause: usize,
    var: u32,
}

impl Lucky {
    /// Before the first guess where there is a goal, else after the last one.
    pub fn new(has_goal: bool) -> Self {
        Lucky {
            guess: if has_goal { 0 } else { GUESSES + 1 },
            clause: 0,
            var: 0,
        }
    }

    /// Whether guesses aren't over.
    pub fn is_left(&self) -> bool {
        self.guess <= GUESSES
    }

    /// Goes on to the next guess.
    pub fn advance(&mut self) {
        self.guess = self.guess.saturating_add(1);
        self.clause = 0;
        self.var = 0;
    }

    fn next_of_clauses(
        &mut self,
        core: &Propagator,
        formula: &Formula,
        negated: bool,
    ) -> Option<Lit>
        ensures { IfSome result (λ l. LitWithin core.now.vars l × IsUnassigned core.now.trail l) }
    {
        let clauses = formula.clauses();
        for place in self.clause..clauses.len() {
            self.clause = place + 1;
            let found = unassigned_in(core, clauses.get(place), Some(negated));
            if found.is_some() {
                return found;
            }
        }
        None
    }

    fn next_of_vars(&mut self, core: &Propagator, negated: bool) -> Option<Lit>
        ensures { IfSome result (λ l. LitWithin core.now.vars l × IsUnassigned core.now.trail l) }
    {
        for place in self.var..core.vars() {
            self.var = place + 1;
            let l = Lit::new(place + 1, negated);
            if is_unassigned(core, l) {
                return Some(l);
            }
        }
        None
    }

    /// The next literal that is guessed.
    pub fn next(&mut self, core: &Propagator, formula: &Formula) -> Option<Lit>
        ensures { IfSome result (λ l. LitWithin core.now.vars l × IsUnassigned core.now.trail l) }
    {
        let negated = self.guess % 2 == 1;
        if self.guess > GUESSES {
            return None;
        }
        if self.guess <= BY_VARS {
            return self.next_of_vars(core, negated);
        }
        if let Some(l) = self.next_of_clauses(core, formula, negated) {
            return Some(l);
        }
        self.next_of_vars(core, !negated)
    }
}
