// Frozen clauses, and lists that find those that are subsets of a clause.

ghost use Rattle.std.specs.Prelude.{◌≡◌, ◌<◌, ◌≤◌, ◌++◌, ◌∷◌, [], length, Contains, IfOk, IfSome, IfNone, OnOk, OnErr, Some, None, List, slice_set};
ghost use Rattle.cnf_form.specs.Cnf.{LitOf, ClauseWithin};
ghost use Rattle.cnf_form.specs.declared.literal.TheConstants.{MAX_VARS};
ghost use Rattle.unit_propagation.specs.Propagator.{clauses_of, slot_at, present};

use crate::entry::{Entry, LISTS};
use crate::subset::{find, mark, unmark};
use cnf_form::{Lit, MAX_VARS};
use std::alloc::{AllocError, Global};
use std::marker::Model;

/// Clauses with numbers from 0 by which nothing is propagated: they are kept, and one that is a subset of a clause is found.
// Each is in the list of one of its literals. The marks are all false between calls.
#[derive(Drop)]
pub struct Frozen {
    alloc: Global,
    vars: u32,
    clauses: Vec<Option<Vec<Lit>>>,
    lists: Vec<Vec<Entry>>,
    marks: Vec<bool>,
}

impl Model for Frozen {
    ghost use Rattle.frozen_clauses.specs.Frozen.{FrozenOf};

    ghost Value = { FrozenOf };

    ghost use Rattle.frozen_clauses.specs.Inside.{slots_of, rows_of, IsFrozen};

    ghost view = { λ f. record { vars = f.vars; slots = slots_of f.clauses.items } };

    ghost invariant = { λ f. IsFrozen f.vars (slots_of f.clauses.items) (rows_of f.lists.items) f.marks.items };
}

impl Frozen {
    /// A list without clauses, over the variables from 1 to `vars`, at most `MAX_VARS`.
    pub fn new(alloc: Global, vars: u32) -> Result<Self, AllocError>
        requires { vars ≤ MAX_VARS }
        ensures { IfOk result (λ f. f ≡ record { vars = vars; slots = [] }) }
    {
        let mut lists = Vec::new(alloc);
        for _ in 0..LISTS {
            lists.push(Vec::new(alloc))?;
        }
        let marks = vec![in alloc; false; 2 * vars as usize + 2]?;
        Ok(Frozen {
            alloc,
            vars,
            clauses: Vec::new(alloc),
            lists,
            marks,
        })
    }

    /// The number of clauses that were added, those that were removed among them.
    pub fn len(&self) -> usize
        ensures count { result ≡ length self.now.slots }
        ensures few { length self.now.slots ≤ u32.MAX }
    {
        self.clauses.len()
    }

    /// The clause with a number, if it wasn't removed.
    pub fn clause(&self, k: u32) -> Option<&[Lit]>
        requires { k < length self.now.slots }
        ensures there { IfSome result (λ c. slot_at self.now.slots k ≡ Some c.now) }
        ensures within { IfSome result (λ c. ClauseWithin self.now.vars c.now) }
        ensures full { IfSome result (λ c. 0 < length c.now) }
        ensures gone { IfNone result (slot_at self.now.slots k ≡ None) }
    {
        match &self.clauses[k as usize] {
            Some(clause) => Some(clause.as_slice()),
            None => None,
        }
    }

    // How long the list of a literal is.
    fn list_len(&self, l: Lit) -> usize {
        self.lists[l.index() % LISTS].len()
    }

    // The index of the literal of a clause whose list is shortest: the shorter the lists, the fewer entries are visited.
    fn lightest(&self, clause: &[Lit]) -> usize
        requires { 0 < length clause.now }
        ensures { result < length clause.now }
    {
        let mut lightest = 0;
        for place in 1..clause.len() {
            if self.list_len(clause[place]) < self.list_len(clause[lightest]) {
                lightest = place;
            }
        }
        lightest
    }

    /// Adds a clause over the variables that isn't empty. If memory runs out, or numbers below 2^32 - 1 do, nothing changes.
    pub fn push(&mut self, clause: &[Lit]) -> Result<(), AllocError>
        requires within { ClauseWithin self.old.vars clause.now }
        requires full { 0 < length clause.now }
        ensures ok { OnOk result (self.new ≡ record self.old { slots = self.old.slots ++ Some clause.now ∷ [] }) }
        ensures err { OnErr result (self.new ≡ self.old) }
    {
        // The number has to fit an entry.
        if self.clauses.len() >= u32::MAX as usize {
            return Err(AllocError);
        }
        let place = self.lightest(clause);
        let number = self.clauses.len();
        // The two literals after it, of which the one after the last is the first.
        let entry = Entry {
            clause: number as u32,
            second: clause[(place + 1) % clause.len()],
            third: clause[(place + 2) % clause.len()],
        };
        let copy = clause.to_vec(self.alloc)?;
        self.clauses.push(Some(copy))?;
        if self.lists[clause[place].index() % LISTS]
            .push(entry)
            .is_err()
        {
            // Without an entry the clause would never be found.
            self.clauses.truncate(number);
            return Err(AllocError);
        }
        Ok(())
    }

    /// Removes a clause.
    pub fn remove_clause(&mut self, k: u32)
        requires { k < length self.old.slots }
        ensures { self.new ≡ record self.old { slots = slice_set self.old.slots k None } }
    {
        self.clauses[k as usize] = None;
    }

    // The number of a clause that is a subset of this one, if there is one.
    fn search(&mut self, clause: &[Lit]) -> Option<u32>
        requires within { ClauseWithin self.old.vars clause.now }
        ensures same { self.new ≡ self.old }
        ensures some { IfSome result (λ k. (c : List LitOf) × (slot_at self.old.slots k ≡ Some c)
            × ((l : LitOf) → Contains c l → Contains clause.now l)) }
        ensures none { IfNone result ((c : List LitOf) → Contains (clauses_of self.old.slots) c
            → ((l : LitOf) → Contains c l → Contains clause.now l) → ⊥) }
    {
        mark(&mut self.marks, clause);
        let found = find(clause, &self.lists, &self.clauses, &self.marks);
        unmark(&mut self.marks, clause);
        found
    }

    /// The number of a clause that is a subset of this one, if there is one.
    pub fn subset_of(&mut self, clause: &[Lit]) -> Option<u32>
        requires within { ClauseWithin self.old.vars clause.now }
        ensures same { self.new ≡ self.old }
        ensures some { IfSome result (λ k. (c : List LitOf) × (slot_at self.old.slots k ≡ Some c)
            × ((l : LitOf) → Contains c l → Contains clause.now l)) }
        ensures none { IfNone result ((c : List LitOf) → Contains (clauses_of self.old.slots) c
            → ((l : LitOf) → Contains c l → Contains clause.now l) → ⊥) }
    {
        if self.clauses.is_empty() {
            return None;
        }
        self.search(clause)
    }

    /// Gives back the memory of removed clauses: the others keep their order and are numbered from 0 on. If memory runs out, nothing
    /// changes.
    pub fn collect(&mut self) -> Result<(), AllocError>
        ensures ok { OnOk result (self.new ≡ record self.old { slots = present self.old.slots }) }
        ensures err { OnErr result (self.new ≡ self.old) }
    {
        let mut rest = Frozen::new(self.alloc, self.vars)?;
        for k in 0..self.clauses.len() {
            if let Some(clause) = self.clause(k as u32) {
                rest.push(clause)?;
            }
        }
        *self = rest;
        Ok(())
    }
}
