//! A checker of DRUP proofs, on unit propagation with two watched literals.
#![tactic(auto)]

ghost use Rattle.std.specs.Prelude.{◌≡◌, ◌↔◌, ◌≤◌, ◌++◌, ◌∷◌, [], true, false, IfOk, OnOk, OnErr, IsErr, IsTrue, Ok};
ghost use Rattle.clause_source.specs.Given.{lits_of};
ghost use Rattle.cnf_form.specs.Cnf.{ClauseWithin, IsAdmitted, Deletes};
ghost use Rattle.cnf_form.specs.declared.literal.TheConstants.{MAX_VARS};
ghost use Rattle.drup_check.specs.Checking.{CheckerOf, start, with_clause};

mod admission;
mod copies;
mod lookup;
mod marks;

use admission::{is_reason, reaches_conflict};
use clause_source::{ClauseSource, Given};
use cnf_form::{Lit, MAX_VARS};
use copies::Copies;
use lookup::{file_all, file_present, find_clause, literals};
use marks::{SCATTER, reach_both, weigh};
use std::alloc::{AllocError, Global};
use std::marker::Model;
use unit_propagation::Propagator;

/// What a checker answers to a clause.
#[derive(Clone, Copy, Debug, PartialEq, Eq)]
pub enum Added {
    Admitted,
    NotRup,
}

// A checker begins with this many chains of clauses.
const CHAINS: usize = 64;

// The memory of at least this many literals of deleted clauses is kept.
const FEW: usize = 65_536;

/// A checker of DRUP proofs, which holds the clauses that are present.
#[derive(Drop)]
pub struct Checker {
    alloc: Global,
    core: Propagator,
    copies: Copies,
    // By which the clauses are filed.
    salt: u64,
    // They reach as far as the highest variable of a clause that was kept.
    marks: Vec<bool>,
    others: Vec<bool>,
    negated: Vec<Lit>,
    // The literals of the clauses that are present, and of those that were deleted.
    live: usize,
    dead: usize,
    refuted: bool,
    out_of_memory: bool,
}

impl Model for Checker {
    ghost use Rattle.unit_propagation.specs.Propagator.{clauses_of};
    ghost use Rattle.drup_check.specs.Checking.{CheckerOf};

    ghost Value = { CheckerOf };

    ghost use Rattle.drup_check.specs.Inside.{IsRoot, IsFree, IsFiled};

    ghost view = { λ k. record { vars = k.core.vars; clauses = clauses_of k.core.slots; refuted = k.refuted; out_of_memory = k.out_of_memory } };

    ghost invariant = { λ k. IsRoot k.core × IsFree (clauses_of k.core.slots) k.marks.items × IsFree (clauses_of k.core.slots) k.others.items
        × IsFiled k.core k.salt k.copies };
}

impl Checker {
    // A checker without clauses.
    fn empty(alloc: Global, vars: u32) -> Result<Self, AllocError>
        requires { vars ≤ MAX_VARS }
        ensures { IfOk result (λ k. k ≡ record { vars = vars; clauses = []; refuted = false; out_of_memory = false }) }
    {
        let core = Propagator::new(alloc, vars)?;
        Ok(Checker {
            alloc,
            core,
            copies: Copies::new(alloc, CHAINS, 0)?,
            salt: SCATTER,
            marks: Vec::new(alloc),
            others: Vec::new(alloc),
            negated: Vec::new(alloc),
            live: 0,
            dead: 0,
            refuted: false,
            out_of_memory: false,
        })
    }

    /// A checker that has the clauses of a source's formula.
    pub fn new<S: ClauseSource>(alloc: Global, source: &S) -> Result<Self, AllocError>
        ensures { IfOk result (λ k. k ≡ start (S.formula source.now)) }
    {
        let mut checker = Checker::empty(alloc, source.vars())?;
        let mut place = source.first();
        for number in 0..source.count() {
            checker.keep_given(source.next(&mut place))?;
        }
        Ok(checker)
    }

    // Doubles the chains where they are long.
    fn make_room(&mut self) -> Result<(), AllocError>
        ensures { self.new ≡ self.old }
    {
        if !self.copies.is_full() {
            return Ok(());
        }
        let chains = self.copies.chains().saturating_mul(2);
        self.copies = file_all(self.alloc, &self.core, chains, &mut self.marks, self.salt)?;
        Ok(())
    }

    // Keeps a clause, and what follows from it.
    fn keep(&mut self, clause: &[Lit]) -> Result<(), AllocError>
        requires { ClauseWithin self.old.vars clause.now }
        ensures ok { OnOk result (self.new ≡ record self.old { clauses = self.old.clauses ++ clause.now ∷ [] }) }
        ensures err { OnErr result (self.new ≡ self.old) }
    {
        self.make_room()?;
        reach_both(&mut self.marks, &mut self.others, clause)?;
        let weight = weigh(clause, &mut self.marks, self.salt);
        self.copies.make_place()?;
        let k = self.core.len() as u32;
        self.core.add_clause(clause)?;
        self.copies.enter(weight, k);
        self.live = self.live.saturating_add(clause.len());
        Ok(())
    }

    // Keeps a clause that a source gives.
    fn keep_given(&mut self, given: Given<'_>) -> Result<(), AllocError>
        requires { ClauseWithin self.old.vars (lits_of given) }
        ensures { OnOk result (self.new ≡ record self.old { clauses = self.old.clauses ++ lits_of given.entry ∷ [] }) }
    {
        match given {
            Given::One(a) => self.keep(&[a]),
            Given::Two(a, b) => self.keep(&[a, b]),
            Given::Three(a, b, c) => self.keep(&[a, b, c]),
            Given::All(clause) => self.keep(clause),
        }
    }

    /// Whether the clauses admit a clause over the formula's variables, which isn't kept: whether it is RUP (see `add`).
    pub fn admits(&mut self, clause: &[Lit]) -> Result<bool, AllocError>
        requires { ClauseWithin self.old.vars clause.now }
        ensures same { self.new ≡ self.old }
        ensures exact { IfOk result (λ b. IsTrue b ↔ IsAdmitted self.old.clauses clause.now) }
    {
        if self.core.conflict() {
            return Ok(true);
        }
        reaches_conflict(&mut self.core, clause, &mut self.negated)
    }

    // Keeps a clause if it is admitted.
    fn judge(&mut self, clause: &[Lit]) -> Result<Added, AllocError>
        requires { ClauseWithin self.old.vars clause.now }
        ensures exact { IfOk result (λ v. (v ≡ Added.Admitted) ↔ IsAdmitted self.old.clauses clause.now) }
        ensures admitted { result ≡ Ok Added.Admitted → self.new ≡ record self.old { clauses = self.old.clauses ++ clause.now ∷ [] } }
        ensures not_rup { result ≡ Ok Added.NotRup → self.new ≡ self.old }
        ensures err { OnErr result (self.new ≡ self.old) }
    {
        if !self.admits(clause)? {
            return Ok(Added::NotRup);
        }
        self.keep(clause)?;
        Ok(Added::Admitted)
    }

    /// Adds a clause over the formula's variables, if it is RUP: if unit propagation from the clauses and its negated
    /// literals reaches a conflict. If memory runs out, the clauses are as they were, and each later call answers so too.
    pub fn add(&mut self, clause: &[Lit]) -> Result<Added, AllocError>
        requires { ClauseWithin self.old.vars clause.now }
        ensures vars { self.new.vars ≡ self.old.vars }
        ensures exact { IfOk result (λ v. (v ≡ Added.Admitted) ↔ IsAdmitted self.old.clauses clause.now) }
        ensures admitted { result ≡ Ok Added.Admitted → self.new ≡ with_clause self.old clause.now }
        ensures not_rup { result ≡ Ok Added.NotRup → self.new ≡ self.old }
        ensures err { OnErr result (self.new ≡ record self.old { out_of_memory = true }) }
        ensures stays { IsTrue self.old.out_of_memory → IsErr result }
    {
        if self.out_of_memory {
            return Err(AllocError);
        }
        let Ok(added) = self.judge(clause) else {
            self.out_of_memory = true;
            return Err(AllocError);
        };
        if added == Added::Admitted && clause.is_empty() {
            self.refuted = true;
        }
        Ok(added)
    }

    // Deletes one copy of a clause. The memory of its literals is kept.
    fn drop_copy(&mut self, clause: &[Lit])
        requires { ClauseWithin self.old.vars clause.now }
        ensures deleted { Deletes self.old.clauses clause.now self.new.clauses }
        ensures rest { self.new ≡ record self.old { clauses = self.new.clauses } }
    {
        if self.core.conflict() {
            return;
        }
        if is_reason(&self.core, clause) {
            return;
        }
        let Some(found) = find_clause(
            &self.core,
            &mut self.copies,
            clause,
            &mut self.marks,
            &mut self.others,
            self.salt,
        ) else {
            return;
        };
        let size = literals(&self.core, found);
        self.core.remove_clause(found);
        self.live = self.live.saturating_sub(size);
        self.dead = self.dead.saturating_add(size);
    }

    // Whether most literals are those of deleted clauses, and a table by variable is smaller.
    fn is_sparse(&self) -> bool {
        self.dead > FEW && self.dead > self.live && self.dead > self.core.vars() as usize
    }

    // Gives back the memory of deleted clauses where most literals are theirs, if there is memory for that; else it is tried again
    // after as many more deletions.
    fn collect(&mut self)
        ensures { self.new ≡ self.old }
    {
        if !self.is_sparse() {
            return;
        }
        self.dead = 0;
        if self.core.collect().is_err() {
            return;
        }
        self.copies.clear(self.core.len());
        file_present(&self.core, &mut self.copies, &mut self.marks, self.salt);
    }

    // Files the clauses by another salt where searches passed far more than that takes: others then share a chain.
    fn file_again(&mut self)
        ensures { self.new ≡ self.old }
    {
        if !self.copies.is_slow(self.live) {
            return;
        }
        self.salt = self.salt.wrapping_mul(SCATTER);
        self.copies.clear(self.core.len());
        file_present(&self.core, &mut self.copies, &mut self.marks, self.salt);
    }

    /// Deletes one copy of a clause over the formula's variables. Does nothing where there is none, where unit propagation
    /// reaches a conflict, or where it derives one literal of the clause and the negations of all its others.
    pub fn delete(&mut self, clause: &[Lit])
        requires { ClauseWithin self.old.vars clause.now }
        ensures deleted { Deletes self.old.clauses clause.now self.new.clauses }
        ensures rest { self.new ≡ record self.old { clauses = self.new.clauses } }
    {
        self.drop_copy(clause);
        self.collect();
        self.file_again();
    }

    /// Whether an empty clause was admitted.
    pub fn refuted(&self) -> bool
        ensures { result ≡ self.now.refuted }
    {
        self.refuted
    }

    /// Whether memory ran out, so that no further clause can be added.
    pub fn out_of_memory(&self) -> bool
        ensures { result ≡ self.now.out_of_memory }
    {
        self.out_of_memory
    }
}
