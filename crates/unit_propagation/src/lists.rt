// Watch lists.

ghost use Rattle.std.specs.Prelude.{◌≡◌, ◌≢◌, ◌==◌, ◌+◌, ◌*◌, ◌<◌, ◌≤◌, ◌^◌, ◌++◌, ◌∷◌, [], length, All, IfOk, OnOk, OnErr, slice_set, Contains};
ghost use Rattle.cnf_form.specs.Cnf.{LitOf, index_of};
ghost use Rattle.unit_propagation.specs.Watch.{AreWatches, WatchFits, Enters, Sweeps, slots_of, rows_of, row};
ghost use Rattle.unit_propagation.specs.declared.watch.Watch.{Watch};

use crate::store::ClauseStore;
use crate::watch::Watch;
use cnf_form::Lit;
use std::alloc::{AllocError, Global};
use std::mem;

// The lists of literals by their index. Those from some index on aren't there while they are empty.
#[derive(Drop)]
pub struct WatchLists {
    alloc: Global,
    vars: u32,
    clauses: u32,
    lists: Vec<Vec<Watch>>,
    // How many entries of each list are counted as those of clauses that were removed: none from some place on.
    stale: Vec<u32>,
    ghost sized: { length lists.items ≤ 2 * vars + 2 },
    ghost fit: { All (AreWatches vars clauses) lists.items },
}

impl WatchLists {
    pub fn new(alloc: Global, vars: u32) -> Self
        ensures vars { result.vars ≡ vars }
        ensures clauses { result.clauses ≡ 0 }
        ensures rows { (l : LitOf) → row (rows_of result.vars result.lists.items) l ≡ [] }
    {
        WatchLists {
            alloc,
            vars,
            clauses: 0,
            lists: Vec::new(alloc),
            stale: Vec::new(alloc),
        }
    }

    // Entries may name one more clause.
    pub fn raise(&mut self)
        requires { self.old.clauses + 1 < 2 ^ 32 }
        ensures vars { self.new.vars ≡ self.old.vars }
        ensures clauses { self.new.clauses ≡ self.old.clauses + 1 }
        ensures rows { self.new.lists ≡ self.old.lists }
    {
        self.clauses += 1;
    }

    // The entries of a literal's list.
    #[inline(always)]
    pub fn entries(&self, l: Lit) -> &[Watch]
        requires lit { l.var ≤ self.now.vars }
        ensures fit { All (WatchFits self.now.vars self.now.clauses) result.now }
        ensures row { result.now ≡ row (rows_of self.now.vars self.now.lists.items) l }
    {
        match self.lists.get(l.index()) {
            Some(list) => list.as_slice(),
            None => &[],
        }
    }

    // Makes the lists up to that of a literal be there.
    fn reach(&mut self, l: Lit) -> Result<(), AllocError>
        requires lit { l.var ≤ self.old.vars }
        ensures vars { self.new.vars ≡ self.old.vars }
        ensures clauses { self.new.clauses ≡ self.old.clauses }
        ensures count { length self.old.lists.items ≤ length self.new.lists.items }
        ensures there { OnOk result (index_of l < length self.new.lists.items) }
        ensures rows { rows_of self.new.vars self.new.lists.items ≡ rows_of self.old.vars self.old.lists.items }
    {
        let alloc = self.alloc;
        for _ in self.lists.len()..l.index() + 1 {
            self.lists.push(Vec::new(alloc))?;
        }
        Ok(())
    }

    #[inline(always)]
    pub fn push(&mut self, l: Lit, clause: u32, blocker: Lit) -> Result<(), AllocError>
        requires lit { l.var ≤ self.old.vars }
        requires clause { clause < self.old.clauses }
        requires blocker { blocker.var ≤ self.old.vars }
        ensures vars { self.new.vars ≡ self.old.vars }
        ensures clauses { self.new.clauses ≡ self.old.clauses }
        ensures count { length self.old.lists.items ≤ length self.new.lists.items }
        ensures ok { OnOk result (rows_of self.new.vars self.new.lists.items ≡ slice_set (rows_of self.old.vars self.old.lists.items) (index_of l)
            (row (rows_of self.old.vars self.old.lists.items) l ++ (record { clause = clause; blocker = blocker }) ∷ [])) }
        ensures err { OnErr result (rows_of self.new.vars self.new.lists.items ≡ rows_of self.old.vars self.old.lists.items) }
    {
        let place = l.index();
        if place >= self.lists.len() {
            self.reach(l)?;
        }
        self.lists[place].push(Watch { clause, blocker })?;
        Ok(())
    }

    // Writes an entry of a list that was taken.
    #[inline(always)]
    pub fn keep(&self, list: &mut [Watch], place: usize, clause: u32, blocker: Lit)
        requires place { place < length list.old }
        requires list { All (WatchFits self.now.vars self.now.clauses) list.old }
        requires clause { clause < self.now.clauses }
        requires blocker { blocker.var ≤ self.now.vars }
        ensures fit { All (WatchFits self.now.vars self.now.clauses) list.new }
        ensures list { list.new ≡ slice_set list.old place (record { clause = clause; blocker = blocker }) }
    {
        list[place] = Watch { clause, blocker };
    }

    // Counts an entry of a literal's list, whose clause was removed. Returns whether half of the list is counted, or there is no
    // memory for counts; the count is 0 then.
    pub fn count_stale(&mut self, l: Lit) -> bool
        requires lit { l.var ≤ self.old.vars }
        ensures vars { self.new.vars ≡ self.old.vars }
        ensures clauses { self.new.clauses ≡ self.old.clauses }
        ensures rows { self.new.lists ≡ self.old.lists }
    {
        let place = l.index();
        if place >= self.stale.len() && self.stale.resize(place + 1, 0).is_err() {
            return true;
        }
        let count = self.stale[place].saturating_add(1);
        let size = self.lists.get(place).map_or(0, |list| list.len());
        let is_half = count as usize >= size / 2;
        self.stale[place] = if is_half { 0 } else { count };
        is_half
    }

    // Removes the entries of removed clauses from the list of a literal.
    pub fn sweep(&mut self, l: Lit, store: &ClauseStore)
        requires lit { l.var ≤ self.old.vars }
        ensures vars { self.new.vars ≡ self.old.vars }
        ensures clauses { self.new.clauses ≡ self.old.clauses }
        ensures rows { Sweeps (slots_of store.now.lits.items store.now.heads.items) (rows_of self.old.vars self.old.lists.items)
            (rows_of self.new.vars self.new.lists.items) }
    {
        let place = l.index();
        if place < self.lists.len() {
            self.lists[place].retain(|w| store.has(w.clause));
        }
    }

    // Takes the list of a literal, which is empty until it is set again.
    pub fn take(&mut self, l: Lit) -> Vec<Watch>
        requires lit { l.var ≤ self.old.vars }
        ensures fit { AreWatches self.old.vars self.old.clauses result }
        ensures vars { self.new.vars ≡ self.old.vars }
        ensures clauses { self.new.clauses ≡ self.old.clauses }
        ensures there { 0 < length result.items → index_of l < length self.new.lists.items }
        ensures list { result.items ≡ row (rows_of self.old.vars self.old.lists.items) l }
        ensures rows { rows_of self.new.vars self.new.lists.items ≡ slice_set (rows_of self.old.vars self.old.lists.items) (index_of l) [] }
    {
        let place = l.index();
        let none = Vec::new(self.alloc);
        if place < self.lists.len() {
            mem::replace(&mut self.lists[place], none)
        } else {
            none
        }
    }

    // Sets the list of a literal, which was taken.
    pub fn set_list(&mut self, l: Lit, list: Vec<Watch>)
        requires lit { l.var ≤ self.old.vars }
        requires fit { AreWatches self.old.vars self.old.clauses list }
        requires there { 0 < length list.items → index_of l < length self.old.lists.items }
        ensures vars { self.new.vars ≡ self.old.vars }
        ensures clauses { self.new.clauses ≡ self.old.clauses }
        ensures rows { rows_of self.new.vars self.new.lists.items ≡ slice_set (rows_of self.old.vars self.old.lists.items) (index_of l) list.items }
    {
        let place = l.index();
        if place < self.lists.len() {
            self.lists[place] = list;
        }
    }

    // Enters a clause in the lists of the two literals that it watches.
    pub fn enter(&mut self, clause: u32, left: Lit, right: Lit) -> Result<(), AllocError>
        requires clause { clause < self.old.clauses }
        requires left { left.var ≤ self.old.vars }
        requires right { right.var ≤ self.old.vars }
        ensures vars { self.new.vars ≡ self.old.vars }
        ensures clauses { self.new.clauses ≡ self.old.clauses }
        ensures enters { Enters (rows_of self.old.vars self.old.lists.items) (rows_of self.new.vars self.new.lists.items) clause left right }
        ensures entered { OnOk result (Contains (row (rows_of self.new.vars self.new.lists.items) left) (record { clause = clause; blocker = right })
            × Contains (row (rows_of self.new.vars self.new.lists.items) right) (record { clause = clause; blocker = left })) }
    {
        self.push(left, clause, right)?;
        self.push(right, clause, left)?;
        Ok(())
    }
}
