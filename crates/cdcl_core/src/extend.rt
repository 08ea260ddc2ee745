// Values of all variables: those that were eliminated get theirs from the clauses that were frozen for it (Eén and Biere, 2005).
// Whether the formula is satisfied is tested then.

ghost use Rattle.std.specs.Prelude.{◌≡◌, ◌+◌, ◌<◌, false, length, List, IsTrue, IfOk, IfSome, IfNone, OnOk, Some};
ghost use Rattle.cnf_form.specs.Cnf.{LitOf, Satisfies, SatisfiesClause, lit_in};
ghost use Rattle.unit_propagation.specs.Propagator.{clauses_of, slot_at};
ghost use Rattle.cdcl_core.specs.Searching.{IsSolver, Moves};
ghost use Rattle.cdcl_core.specs.Solving.{valued};

use crate::learn::restart;
use crate::solver::Solver;
use cnf_form::{Formula, Lit};
use frozen_clauses::Frozen;
use std::alloc::{AllocError, Global};
use unit_propagation::Propagator;

// Clauses of variables that were eliminated, one after the other, and where each ends. Where the others of a clause's literals are
// false, its first one is to be true. Nothing is promised of it.
#[derive(Drop)]
pub(crate) struct Extension {
    lits: Vec<Lit>,
    ends: Vec<usize>,
}

impl Extension {
    pub fn new(alloc: Global) -> Self {
        Extension {
            lits: Vec::new(alloc),
            ends: Vec::new(alloc),
        }
    }

    // How many clauses there are.
    pub fn len(&self) -> usize {
        self.ends.len()
    }

    // Where the clause with this number begins.
    fn start(&self, number: usize) -> usize {
        if number == 0 {
            return 0;
        }
        match self.ends.get(number - 1) {
            Some(end) => *end,
            None => self.lits.len(),
        }
    }

    // Adds a clause with a literal of it.
    pub fn push(&mut self, first: Lit, clause: &[Lit]) -> Result<(), AllocError> {
        self.lits.push(first)?;
        for l in clause {
            if *l != first {
                self.lits.push(*l)?;
            }
        }
        self.ends.push(self.lits.len())?;
        Ok(())
    }

    // Leaves the first clauses alone, this many.
    pub fn truncate(&mut self, count: usize) {
        let end = self.start(count);
        self.lits.truncate(end);
        self.ends.truncate(count);
    }

    // Makes the first literals true that are to be, from the last clause to the first.
    pub fn extend(&self, values: &mut [bool]) {
        for taken in 0..self.ends.len() {
            let number = self.ends.len() - 1 - taken;
            let start = self.start(number);
            let end = self.ends[number];
            if start >= end || end > self.lits.len() {
                continue;
            }
            let first = self.lits[start];
            let var = first.var() as usize;
            if var < values.len() && !satisfies_clause(values, &self.lits[start..end]) {
                values[var] = !first.is_negated();
            }
        }
    }
}

/// The value of a literal. A variable that has no value is false.
pub fn value(values: &[bool], lit: Lit) -> bool
    ensures { result ≡ lit_in (valued values.now) lit }
{
    let own = match values.get(lit.var() as usize) {
        Some(own) => *own,
        None => false,
    };
    own != lit.is_negated()
}

// Whether a literal of a clause is true.
fn satisfies_clause(values: &[bool], clause: &[Lit]) -> bool
    ensures { IsTrue result → SatisfiesClause (valued values.now) clause.now }
{
    for lit in clause {
        if value(values, *lit) {
            return true;
        }
    }
    false
}

/// Whether each clause has a true literal.
pub fn satisfies(values: &[bool], formula: &Formula) -> bool
    ensures { IsTrue result → Satisfies (valued values.now) formula.now.clauses }
{
    let clauses = formula.clauses();
    for place in 0..clauses.len() {
        if !satisfies_clause(values, clauses.get(place)) {
            return false;
        }
    }
    true
}

// Which variables are true, each at its number.
fn values_of(alloc: Global, core: &Propagator) -> Result<Vec<bool>, AllocError> {
    let mut values = Vec::new(alloc);
    values.push(false)?;
    for place in 0..core.vars() {
        values.push(core.is_true(Lit::new(place + 1, false)))?;
    }
    Ok(values)
}

// Whether values are those of all variables and satisfy the formula.
fn is_model(vars: u32, values: &[bool], formula: &Formula) -> bool
    ensures sized { IsTrue result → length values.now ≡ vars + 1 }
    ensures satisfies { IsTrue result → Satisfies (valued values.now) formula.now.clauses }
{
    if values.len() != vars as usize + 1 {
        return false;
    }
    satisfies(values, formula)
}

// The number of the first frozen clause that the values don't satisfy.
fn first_falsified(frozen: &Frozen, values: &[bool]) -> Option<u32>
    ensures { IfSome result (λ k. (k < length frozen.now.slots) × ((c : List LitOf) × (slot_at frozen.now.slots k ≡ Some c))) }
{
    for k in 0..frozen.len() {
        if let Some(clause) = frozen.clause(k as u32) {
            if !satisfies_clause(values, clause) {
                return Some(k as u32);
            }
        }
    }
    None
}

impl Solver {
    // Values that satisfy the formula. There are none where a frozen clause is falsified: it is thawed then.
    pub(crate) fn answer(&mut self, formula: &Formula) -> Result<Option<Vec<bool>>, AllocError>
        requires solver { IsSolver self.old }
        requires conflict { self.old.core.conflict ≡ false }
        ensures solver { OnOk result (IsSolver self.new) }
        ensures moves { OnOk result (Moves self.old self.new) }
        ensures sized { IfOk result (λ o. IfSome o (λ v. length v.items ≡ self.new.core.vars + 1)) }
        ensures right { IfOk result (λ o. IfSome o (λ v. Satisfies (valued v.items) formula.now.clauses)) }
        ensures fewer { IfOk result (λ o. IfNone o (length (clauses_of self.new.frozen.slots) < length (clauses_of self.old.frozen.slots))) }
    {
        let mut extended = values_of(self.alloc, &self.core)?;
        self.eliminator.extend(&mut extended);
        if is_model(self.core.vars(), &extended, formula) {
            return Ok(Some(extended));
        }
        let values = values_of(self.alloc, &self.core)?;
        if is_model(self.core.vars(), &values, formula) {
            return Ok(Some(values));
        }
        let Some(k) = first_falsified(&self.frozen, &values) else {
            // Each clause of the formula is watched, and so true, or it is frozen.
            return Err(AllocError);
        };
        restart(&mut self.core, &mut self.order)?;
        self.pending = None;
        self.thaw(k)?;
        Ok(None)
    }
}
