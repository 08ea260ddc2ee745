// Clauses, watch lists and trail together.

ghost use Rattle.std.specs.Prelude.{ℕ, ◌≡◌, ◌≢◌, ◌↔◌, ◌⊎◌, ◌+◌, ◌*◌, ◌<◌, ◌≤◌, ◌^◌, ◌++◌, ◌∷◌, [], true, false, List, Option, length, take, Contains, All, IfOk, IfSome, IfNone, OnOk, OnErr, IsTrue, Some, None, slice_get, slice_index_or, slice_set};
ghost use Rattle.cnf_form.specs.Cnf.{LitOf, negate, LitWithin, ClauseWithin};
ghost use Rattle.cnf_form.specs.declared.literal.TheConstants.{MAX_VARS};
ghost use Rattle.unit_propagation.specs.Propagation.{IsConsistent, IsUnassigned, IsSatisfied, IsFalsified, IsFalsifiedBut, IsSettled, IsFixpoint, Propagates};
ghost use Rattle.unit_propagation.specs.Marks.{IsBelow, IsDistinct};
ghost use Rattle.unit_propagation.specs.Visit.{IsKept};
ghost use Rattle.unit_propagation.specs.declared.watch.Head.{Head};
ghost use Rattle.unit_propagation.specs.Propagator.{clauses_of, slot_at, present, IsAdded, IsOutOfMemory, IsAssumed, EndsAssumed, IsDecided, EndsDecided, is_conflict};

use crate::assume::assume;
use crate::file::{file_clause, remove_clause};
use crate::lists::WatchLists;
use crate::outcome::Outcome;
use crate::scan::{Standing, scan_clause};
use crate::store::ClauseStore;
use crate::trail::Trail;
use crate::walk::settle_unit;
use crate::watch::GONE;
use cnf_form::{Lit, MAX_VARS};
use std::alloc::{AllocError, Global};
use std::marker::Model;

/// Clauses with numbers from 0, and the literals that are true, on levels: level 0 has what follows from the clauses alone.
#[derive(Drop)]
pub struct Propagator {
    alloc: Global,
    vars: u32,
    store: ClauseStore,
    lists: WatchLists,
    pairs: WatchLists,
    trail: Trail,
    limits: Vec<usize>,
    conflict: bool,
}

impl Model for Propagator {
    ghost use Rattle.std.specs.Prelude.{length};
    ghost use Rattle.unit_propagation.specs.Propagator.{PropagatorOf};

    ghost Value = { PropagatorOf };

    ghost use Rattle.unit_propagation.specs.Watch.{slots_of, rows_of};
    ghost use Rattle.unit_propagation.specs.Inside.{Agree, IsPropagator};

    ghost view = { λ p. record {
      vars = p.vars;
      slots = slots_of p.store.lits.items p.store.heads.items;
      trail = p.trail.lits;
      limits = p.limits.items;
      conflict = p.conflict;
    } };

    ghost invariant = { λ p. Agree p.vars p.store.vars p.lists.vars p.pairs.vars p.trail.vars p.lists.clauses p.pairs.clauses
        (length p.store.heads.items)
        × IsPropagator p.vars (slots_of p.store.lits.items p.store.heads.items)
        (record { heads = p.store.heads.items; rows = rows_of p.lists.vars p.lists.lists.items; trail = p.trail.lits })
        (rows_of p.pairs.vars p.pairs.lists.items) p.limits.items p.conflict };
}

// The literal that a clause which watches nothing names.
fn some_literal(clause: &[Lit]) -> Lit {
    match clause.first() {
        Some(l) => *l,
        None => Lit::new(1, false),
    }
}

impl Propagator {
    /// A propagator without clauses, over the variables from 1 to `vars`, at most `MAX_VARS`.
    pub fn new(alloc: Global, vars: u32) -> Result<Self, AllocError>
        requires { vars ≤ MAX_VARS }
        ensures { IfOk result (λ p. p ≡ record { vars = vars; slots = []; trail = []; limits = []; conflict = false }) }
    {
        let trail = Trail::new(alloc, vars);
        Ok(Propagator {
            alloc,
            vars,
            store: ClauseStore::new(alloc, vars),
            lists: WatchLists::new(alloc, vars),
            pairs: WatchLists::new(alloc, vars),
            trail,
            limits: Vec::new(alloc),
            conflict: false,
        })
    }

    /// The number of variables.
    pub fn vars(&self) -> u32
        ensures vars { result ≡ self.now.vars }
        ensures limit { self.now.vars ≤ MAX_VARS }
    {
        self.vars
    }

    /// The number of clauses that were added, those that were removed among them.
    pub fn len(&self) -> usize
        ensures count { result ≡ length self.now.slots }
        ensures few { length self.now.slots < u32.MAX }
    {
        self.store.len()
    }

    /// Whether there is none.
    pub fn is_empty(&self) -> bool
        ensures { IsTrue result ↔ (self.now.slots ≡ []) }
    {
        self.store.len() == 0
    }

    /// Whether a clause or an assumption is falsified, so that nothing is propagated before that level is taken back.
    pub fn conflict(&self) -> bool
        ensures conflict { result ≡ self.now.conflict }
        ensures consistent { IsConsistent self.now.trail }
        ensures fixpoint { self.now.conflict ≡ false → IsFixpoint self.now.trail (clauses_of self.now.slots) }
    {
        self.conflict
    }

    /// Whether a literal is true.
    #[inline(always)]
    pub fn is_true(&self, l: Lit) -> bool
        requires { l.var ≤ self.now.vars }
        ensures { IsTrue result ↔ Contains self.now.trail l }
    {
        self.trail.is_true(l)
    }

    /// The clause with a number, if it wasn't removed.
    pub fn clause(&self, k: u32) -> Option<&[Lit]>
        requires { k < length self.now.slots }
        ensures there { IfSome result (λ c. slot_at self.now.slots k ≡ Some c.now) }
        ensures within { IfSome result (λ c. ClauseWithin self.now.vars c.now) }
        ensures gone { IfNone result (slot_at self.now.slots k ≡ None) }
    {
        self.store.clause(k)
    }

    /// Takes back the levels above this one.
    pub fn backtrack(&mut self, level: usize)
        requires { level < length self.old.limits }
        ensures { self.new ≡ record self.old {
          trail = take (slice_index_or self.old.limits level 0) self.old.trail;
          limits = take level self.old.limits;
          conflict = false;
        } }
    {
        let limit = self.limits[level];
        self.trail.cut(limit);
        self.limits.truncate(level);
        self.conflict = false;
    }

    /// Removes a clause, at level 0.
    pub fn remove_clause(&mut self, k: u32)
        requires clause { k < length self.old.slots }
        requires level { self.old.limits ≡ [] }
        ensures { self.new ≡ record self.old { slots = slice_set self.old.slots k None } }
    {
        remove_clause(&mut self.store, &mut self.pairs, k);
    }

    // Adds a clause with its watches, at level 0. Without a conflict it has to be kept.
    fn add_watching(
        &mut self,
        clause: &[Lit],
        left: Lit,
        right: Lit,
        conflict: bool,
    ) -> Result<(), AllocError>
        requires level { self.old.limits ≡ [] }
        requires within { ClauseWithin self.old.vars clause.now }
        requires left { left ≢ right → Contains clause.now left }
        requires right { left ≢ right → Contains clause.now right }
        requires kept { conflict ≡ false → (self.old.conflict ≡ false)
            × ((h : Head) → h.left ≡ left → h.right ≡ right → IsKept self.old.trail self.old.trail (Some clause.now) h) }
        ensures ok { OnOk result (self.new
            ≡ record self.old { slots = self.old.slots ++ Some clause.now ∷ []; conflict = conflict }) }
        ensures err { OnErr result (IsOutOfMemory self.old self.new) }
    {
        file_clause(
            &mut self.store,
            &mut self.lists,
            &mut self.pairs,
            clause,
            left,
            right,
        )?;
        self.conflict = conflict;
        Ok(())
    }

    // Adds a clause that watches nothing, since it is satisfied or nothing is propagated any more.
    fn add_loose(&mut self, clause: &[Lit]) -> Result<(), AllocError>
        requires level { self.old.limits ≡ [] }
        requires within { ClauseWithin self.old.vars clause.now }
        requires satisfied { self.old.conflict ≡ false → IsSatisfied self.old.trail clause.now }
        ensures ok { OnOk result (self.new ≡ record self.old { slots = self.old.slots ++ Some clause.now ∷ [] }) }
        ensures err { OnErr result (IsOutOfMemory self.old self.new) }
    {
        let any = some_literal(clause);
        self.add_watching(clause, any, any, self.conflict)
    }

    // Adds a clause that watches two unassigned literals.
    fn attach(&mut self, clause: &[Lit], left: Lit, right: Lit) -> Result<(), AllocError>
        requires level { self.old.limits ≡ [] }
        requires within { ClauseWithin self.old.vars clause.now }
        requires left { Contains clause.now left }
        requires right { Contains clause.now right }
        requires two { left ≢ right }
        requires left_open { IsUnassigned self.old.trail left }
        requires right_open { IsUnassigned self.old.trail right }
        ensures ok { OnOk result (self.new ≡ record self.old { slots = self.old.slots ++ Some clause.now ∷ [] }) }
        ensures err { OnErr result (IsOutOfMemory self.old self.new) }
    {
        self.add_watching(clause, left, right, self.conflict)
    }

    // Adds a falsified clause.
    fn add_falsified(&mut self, clause: &[Lit]) -> Result<(), AllocError>
        requires level { self.old.limits ≡ [] }
        requires within { ClauseWithin self.old.vars clause.now }
        requires conflict { self.old.conflict ≡ false }
        ensures ok { OnOk result (self.new
            ≡ record self.old { slots = self.old.slots ++ Some clause.now ∷ []; conflict = true }) }
        ensures err { OnErr result (IsOutOfMemory self.old self.new) }
    {
        let any = some_literal(clause);
        self.add_watching(clause, any, any, true)
    }

    // Adds a clause of which only the first watch is unassigned, makes that true, and then what follows. The clause has to be kept
    // where levels begin, and once the first watch is true.
    fn add_propagating(
        &mut self,
        clause: &[Lit],
        first: Lit,
        second: Lit,
    ) -> Result<Option<u32>, AllocError>
        requires conflict { self.old.conflict ≡ false }
        requires within { ClauseWithin self.old.vars clause.now }
        requires first { Contains clause.now first }
        requires second { Contains clause.now second }
        requires opened { IsUnassigned self.old.trail first }
        requires unit { IsFalsifiedBut self.old.trail clause.now first }
        requires kept { (h : Head) → h.left ≡ first → h.right ≡ second
            → IsKept self.old.trail (self.old.trail ++ first ∷ []) (Some clause.now) h }
        requires levels { (n : ℕ) (h : Head) → Contains self.old.limits n → h.left ≡ first → h.right ≡ second
            → IsKept (take n self.old.trail) (take n self.old.trail) (Some clause.now) h }
        ensures ok { OnOk result (IsAdded self.old clause.now self.new) }
        ensures ends { IfOk result (λ o. EndsDecided self.new o) }
        ensures err { OnErr result (IsOutOfMemory self.old self.new) }
    {
        file_clause(
            &mut self.store,
            &mut self.lists,
            &mut self.pairs,
            clause,
            first,
            second,
        )?;
        let k = (self.store.len() - 1) as u32;
        match settle_unit(
            &mut self.store,
            &mut self.lists,
            &self.pairs,
            &mut self.trail,
            first,
            k,
        ) {
            Ok(falsified) => {
                self.conflict = falsified.is_some();
                Ok(falsified)
            }
            Err(e) => {
                remove_clause(&mut self.store, &mut self.pairs, k);
                Err(e)
            }
        }
    }

    // Adds a clause whose only unassigned literal is this one, and propagates.
    fn add_unit(&mut self, clause: &[Lit], l: Lit) -> Result<(), AllocError>
        requires level { self.old.limits ≡ [] }
        requires within { ClauseWithin self.old.vars clause.now }
        requires conflict { self.old.conflict ≡ false }
        requires lit { Contains clause.now l }
        requires opened { IsUnassigned self.old.trail l }
        requires unit { IsFalsifiedBut self.old.trail clause.now l }
        ensures ok { OnOk result (IsAdded self.old clause.now self.new) }
        ensures err { OnErr result (IsOutOfMemory self.old self.new) }
    {
        self.add_propagating(clause, l, l)?;
        Ok(())
    }

    /// Adds a clause over the variables at level 0, and makes what follows from it true. After a conflict it is only kept.
    /// If memory runs out, no clause is added; a number may be used up.
    pub fn add_clause(&mut self, clause: &[Lit]) -> Result<(), AllocError>
        requires level { self.old.limits ≡ [] }
        requires within { ClauseWithin self.old.vars clause.now }
        ensures ok { OnOk result (IsAdded self.old clause.now self.new) }
        ensures err { OnErr result (IsOutOfMemory self.old self.new) }
    {
        if self.conflict {
            return self.add_loose(clause);
        }
        match scan_clause(clause, &self.trail) {
            Standing::Satisfied => self.add_loose(clause),
            Standing::Falsified => self.add_falsified(clause),
            Standing::One(l) => self.add_unit(clause, l),
            Standing::Two(l, m) => self.attach(clause, l, m),
        }
    }

    // Adds a clause at which nothing is left to do.
    fn add_settled(&mut self, clause: &[Lit]) -> Result<(), AllocError>
        requires level { self.old.limits ≡ [] }
        requires within { ClauseWithin self.old.vars clause.now }
        requires settled { self.old.conflict ≡ false → IsSettled self.old.trail clause.now }
        ensures ok { OnOk result (self.new ≡ record self.old { slots = self.old.slots ++ Some clause.now ∷ [] }) }
        ensures err { OnErr result (IsOutOfMemory self.old self.new) }
    {
        match scan_clause(clause, &self.trail) {
            Standing::Two(l, m) => self.attach(clause, l, m),
            Standing::Satisfied => self.add_loose(clause),
            Standing::Falsified => self.add_loose(clause),
            Standing::One(_) => self.add_loose(clause),
        }
    }

    // Copies the true literals, without clauses.
    fn without_clauses(&self) -> Result<Self, AllocError>
        requires level { self.now.limits ≡ [] }
        ensures { IfOk result (λ p. p ≡ record self.now { slots = [] }) }
    {
        let trail = self.trail.copy_without_reasons(self.alloc)?;
        Ok(Propagator {
            alloc: self.alloc,
            vars: self.vars,
            store: ClauseStore::new(self.alloc, self.vars),
            lists: WatchLists::new(self.alloc, self.vars),
            pairs: WatchLists::new(self.alloc, self.vars),
            trail,
            limits: Vec::new(self.alloc),
            conflict: self.conflict,
        })
    }

    /// Gives back the memory of removed clauses, at level 0: the others keep their order and are numbered from 0 on. What made a
    /// literal true isn't known any more. If memory runs out, nothing changes.
    pub fn collect(&mut self) -> Result<(), AllocError>
        requires level { self.old.limits ≡ [] }
        ensures ok { OnOk result (self.new ≡ record self.old { slots = present self.old.slots }) }
        ensures err { OnErr result (self.new ≡ self.old) }
    {
        let mut rest = self.without_clauses()?;
        for k in 0..self.store.len() {
            if let Some(clause) = self.clause(k as u32) {
                rest.add_settled(clause)?;
            }
        }
        *self = rest;
        Ok(())
    }

    /// Opens a level, makes the literals true one after another, and then what follows from them. If memory runs out, nothing
    /// changes.
    pub fn assume(&mut self, lits: &[Lit]) -> Result<Outcome, AllocError>
        requires conflict { self.old.conflict ≡ false }
        requires within { ClauseWithin self.old.vars lits.now }
        ensures assumed { OnOk result (IsAssumed self.old lits.now self.new) }
        ensures conflict { IfOk result (λ o. self.new.conflict ≡ is_conflict o) }
        ensures ends { IfOk result (λ o. EndsAssumed self.new lits.now o) }
        ensures err { OnErr result (self.new ≡ self.old) }
    {
        let level = self.limits.len();
        let base = self.trail.len();
        self.limits.push(base)?;
        match assume(
            &mut self.store,
            &mut self.lists,
            &self.pairs,
            &mut self.trail,
            lits,
        ) {
            Ok(outcome) => {
                self.conflict = outcome.is_conflict();
                Ok(outcome)
            }
            Err(e) => {
                self.limits.truncate(level);
                Err(e)
            }
        }
    }

    /// The literals that are true, in the order in which they became so.
    #[inline(always)]
    pub fn trail(&self) -> &[Lit]
        ensures trail { result.now ≡ self.now.trail }
        ensures below { All (IsBelow self.now.vars) result.now }
        ensures consistent { IsConsistent self.now.trail }
        ensures room { length self.now.trail ≤ 2 * self.now.vars + 2 }
        ensures distinct { IsDistinct self.now.trail }
    {
        self.trail.lits()
    }

    /// The place of a true literal on the trail.
    #[inline(always)]
    pub fn place(&self, l: Lit) -> usize
        requires below { l.var ≤ self.now.vars }
        requires on { Contains self.now.trail l }
        ensures within { result < length self.now.trail }
        ensures at { slice_get self.now.trail result ≡ Some l }
        ensures first { Contains (take result self.now.trail) l → ⊥ }
    {
        self.trail.place(l)
    }

    /// The number of the clause that made a true literal so, where one did. A hint: nothing follows from it, and who reads it
    /// looks at the clause.
    #[inline(always)]
    pub fn reason(&self, l: Lit) -> u32
        requires { l.var ≤ self.now.vars }
    {
        self.trail.reason(l)
    }

    /// The number of levels above level 0.
    pub fn levels(&self) -> usize
        ensures { result ≡ length self.now.limits }
    {
        self.limits.len()
    }

    /// The length of the trail when the level above this one began.
    pub fn limit(&self, level: usize) -> usize
        requires { level < length self.now.limits }
        ensures limit { result ≡ slice_index_or self.now.limits level 0 }
        ensures within { result ≤ length self.now.trail }
    {
        self.limits[level]
    }

    /// The level of a place of the trail: how many levels began at it or before it.
    pub fn level_of(&self, place: usize) -> usize
        ensures within { result ≤ length self.now.limits }
        ensures below { (i : ℕ) → i < result → slice_index_or self.now.limits i 0 ≤ place }
        ensures above { (i : ℕ) → result ≤ i → i < length self.now.limits → place < slice_index_or self.now.limits i 0 }
    {
        let count = self.limits.len();
        for taken in 0..count {
            let level = count - taken;
            if self.limits[level - 1] <= place {
                return level;
            }
        }
        0
    }

    /// The clauses are over the variables.
    pub fn clauses_are_within(&self)
        ensures { (c : List LitOf) → Contains (clauses_of self.now.slots) c → ClauseWithin self.now.vars c }
    {
        let _conflict = self.conflict;
    }

    /// Where a level begins, nothing is left to propagate on the trail up to there.
    pub fn levels_are_complete(&self)
        ensures consistent { IsConsistent self.now.trail }
        ensures rising { (i j : ℕ) → i ≤ j → j < length self.now.limits
            → slice_index_or self.now.limits i 0 ≤ slice_index_or self.now.limits j 0 }
        ensures within { (n : ℕ) → Contains self.now.limits n → n ≤ length self.now.trail }
        ensures fixpoint { (n : ℕ) → Contains self.now.limits n
            → IsFixpoint (take n self.now.trail) (clauses_of self.now.slots) }
    {
        let _conflict = self.conflict;
    }

    /// Opens a level, makes an unassigned literal true, and then what follows from it. Returns the number of the falsified clause,
    /// if there is one. If memory runs out, nothing changes.
    pub fn decide(&mut self, l: Lit) -> Result<Option<u32>, AllocError>
        requires conflict { self.old.conflict ≡ false }
        requires below { l.var ≤ self.old.vars }
        requires opened { IsUnassigned self.old.trail l }
        ensures decided { OnOk result (IsDecided self.old l self.new) }
        ensures ends { IfOk result (λ o. EndsDecided self.new o) }
        ensures err { OnErr result (self.new ≡ self.old) }
    {
        let level = self.limits.len();
        let base = self.trail.len();
        self.limits.push(base)?;
        match settle_unit(
            &mut self.store,
            &mut self.lists,
            &self.pairs,
            &mut self.trail,
            l,
            GONE,
        ) {
            Ok(falsified) => {
                self.conflict = falsified.is_some();
                Ok(falsified)
            }
            Err(e) => {
                self.limits.truncate(level);
                Err(e)
            }
        }
    }

    /// Adds a clause on the current level, all of whose literals are false but the first of these two, and of which the second
    /// became false on this level; makes the first true, and then what follows. Returns the number of the falsified clause, if
    /// there is one. If memory runs out, no clause is added; a number may be used up.
    pub fn assert_clause(
        &mut self,
        clause: &[Lit],
        first: Lit,
        second: Lit,
    ) -> Result<Option<u32>, AllocError>
        requires conflict { self.old.conflict ≡ false }
        requires within { ClauseWithin self.old.vars clause.now }
        requires first { Contains clause.now first }
        requires second { Contains clause.now second }
        requires two { first ≢ second }
        requires opened { IsUnassigned self.old.trail first }
        requires unit { IsFalsifiedBut self.old.trail clause.now first }
        requires level { (n : ℕ) → Contains self.old.limits n → Contains (take n self.old.trail) (negate second) → ⊥ }
        ensures ok { OnOk result (IsAdded self.old clause.now self.new) }
        ensures ends { IfOk result (λ o. EndsDecided self.new o) }
        ensures err { OnErr result (IsOutOfMemory self.old self.new) }
    {
        self.add_propagating(clause, first, second)
    }
}
