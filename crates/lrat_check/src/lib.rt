//! A checker of hinted proofs (LRAT without negative hints): each hint costs its clause's literals.
#![tactic(auto)]

ghost use Rattle.std.specs.Prelude.{◌≡◌, ◌↔◌, ◌<◌, true, false, is_some, IfOk, OnErr, IsErr, IsSome, IsTrue, Ok, All};
ghost use Rattle.cnf_form.specs.Cnf.{ClauseWithin};
ghost use Rattle.lrat_check.specs.Hints.{IsHinted};
ghost use Rattle.lrat_check.specs.Checking.{HintedOf, live_of, Starts, HasAdded, HasDeleted};

mod entries;
mod laws;
mod marks;
mod propagation;

use clause_source::ClauseSource;
use cnf_form::Lit;
use entries::{Table, numbered_clauses};
pub use laws::{hinted_is_admitted, hinted_proof_is_drup};
use marks::{places_for, reach};
use propagation::is_hinted;
use std::alloc::{AllocError, Global};
use std::marker::Model;

/// What a checker answers to a clause and its hints.
#[derive(Clone, Copy, Debug, PartialEq, Eq)]
pub enum Added {
    Admitted,
    NotHinted,
}

/// A checker of hinted proofs, which holds the live clauses, each with its id. The memory of deleted clauses is given back once most are
/// deleted.
#[derive(Drop)]
pub struct Hinted {
    vars: u32,
    clauses: Table,
    // The literals that the line at hand has assigned, each marked. Between lines nothing is marked. There are places up to the highest
    // variable of a line or of the formula's clauses.
    trail: Vec<Lit>,
    marks: Vec<bool>,
    last_id: u64,
    refuted: bool,
    out_of_memory: bool,
}

impl Model for Hinted {
    ghost use Rattle.lrat_check.specs.Checking.{HintedOf};
    ghost use Rattle.lrat_check.specs.Marks.{IsChecker};
    ghost use Rattle.lrat_check.specs.Table.{IsUpto, held, present};

    ghost Value = { HintedOf };

    ghost view = { λ h. record { vars = h.vars; clauses = present h.clauses; last_id = h.last_id; refuted = h.refuted; out_of_memory = h.out_of_memory } };

    ghost invariant = { λ h. IsChecker (held h.clauses) h.marks.items × IsUpto h.clauses h.last_id };
}

impl Hinted {
    /// A checker that has the clauses of a source's formula, whose ids are 1, 2 and so on.
    pub fn new<S: ClauseSource>(alloc: Global, source: &S) -> Result<Self, AllocError>
        ensures { IfOk result (Starts (S.formula source.now)) }
    {
        let vars = source.vars();
        let count = source.count();
        let clauses = numbered_clauses(alloc, source, count)?;
        let marks = places_for(alloc, source, count)?;
        Ok(Hinted {
            vars,
            clauses,
            trail: Vec::new(alloc),
            marks,
            last_id: count as u64,
            refuted: false,
            out_of_memory: false,
        })
    }

    /// The highest id so far: of the formula's clauses and of those that were admitted.
    pub fn last_id(&self) -> u64
        ensures { result ≡ self.now.last_id }
    {
        self.last_id
    }

    /// Whether some clause has the id.
    pub fn live(&self, id: u64) -> bool
        ensures { result ≡ is_some (live_of self.now id) }
    {
        self.clauses.get(id).is_some()
    }

    /// Whether an empty clause was admitted.
    pub fn refuted(&self) -> bool
        ensures { result ≡ self.now.refuted }
    {
        self.refuted
    }

    /// Whether memory ran out, so that no further clause can be added.
    pub fn out_of_memory(&self) -> bool
        ensures { result ≡ self.now.out_of_memory }
    {
        self.out_of_memory
    }

    /// Adds a clause over the formula's variables under a new id, if its hints admit it. From the negations of its literals,
    /// each hint's clause in order is a conflict where all its literals are negated, assigns the one that isn't where all
    /// others are, and is passed over otherwise. If memory runs out, each later call answers so too.
    pub fn add(&mut self, id: u64, clause: &[Lit], hints: &[u64]) -> Result<Added, AllocError>
        requires id { self.old.last_id < id }
        requires clause { ClauseWithin self.old.vars clause.now }
        requires hints { All (λ n. IsSome (live_of self.old n)) hints.now }
        ensures vars { self.new.vars ≡ self.old.vars }
        ensures exact { IfOk result (λ v. (v ≡ Added.Admitted) ↔ IsHinted (live_of self.old) clause.now hints.now) }
        ensures admitted { result ≡ Ok Added.Admitted → HasAdded id clause.now self.old self.new }
        ensures not_hinted { result ≡ Ok Added.NotHinted → self.new ≡ self.old }
        ensures err { OnErr result (self.new ≡ record self.old { out_of_memory = true }) }
        ensures wanting { IsTrue self.old.out_of_memory → IsErr result }
    {
        if self.out_of_memory {
            return Err(AllocError);
        }
        if reach(&mut self.marks, clause).is_err() {
            self.out_of_memory = true;
            return Err(AllocError);
        }
        let found = is_hinted(
            &self.clauses,
            clause,
            hints,
            &mut self.marks,
            &mut self.trail,
        );
        match found {
            Ok(true) => {}
            Ok(false) => {
                return Ok(Added::NotHinted);
            }
            Err(e) => {
                self.out_of_memory = true;
                return Err(e);
            }
        }
        if self.clauses.push(id, clause).is_err() {
            self.out_of_memory = true;
            return Err(AllocError);
        }
        self.last_id = id;
        if clause.is_empty() {
            self.refuted = true;
        }
        Ok(Added::Admitted)
    }

    /// Deletes the clause that has the id. Does nothing where there is none.
    pub fn delete(&mut self, id: u64)
        ensures { HasDeleted id self.old self.new }
    {
        self.clauses.remove(id);
    }
}
