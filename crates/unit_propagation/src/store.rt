// Clauses: their literals in one list, one clause after the other, and a head for each.

ghost use Rattle.std.specs.Prelude.{◌≡◌, ◌≢◌, ◌+◌, ◌<◌, ◌≤◌, ◌^◌, ◌++◌, ◌∷◌, [], length, All, OnOk, OnErr, IfSome, IfNone, Some, None, is_some, slice_index_or, slice_range, slice_set};
ghost use Rattle.cnf_form.specs.Cnf.{LitOf};
ghost use Rattle.unit_propagation.specs.Marks.{IsBelow};
ghost use Rattle.unit_propagation.specs.Watch.{HeadFits, HeadsFit, end_of, slot_of, slots_of};
ghost use Rattle.unit_propagation.specs.Propagator.{slot_at};
ghost use Rattle.unit_propagation.specs.declared.watch.TheConstants.{GONE};
ghost use Rattle.unit_propagation.specs.declared.watch.Head.{Head};

use crate::watch::{GONE, Head};
use cnf_form::Lit;
use std::alloc::{AllocError, Global};

#[derive(Drop)]
pub struct ClauseStore {
    vars: u32,
    lits: Vec<Lit>,
    heads: Vec<Head>,
    ghost counted: { length lits.items < GONE },
    ghost few: { length heads.items < GONE },
    ghost below: { All (IsBelow vars) lits.items },
    ghost fit: { HeadsFit vars (length lits.items) heads.items },
}

impl ClauseStore {
    pub fn new(alloc: Global, vars: u32) -> Self
        ensures vars { result.vars ≡ vars }
        ensures heads { result.heads.items ≡ [] }
        ensures lits { result.lits.items ≡ [] }
    {
        ClauseStore {
            vars,
            lits: Vec::new(alloc),
            heads: Vec::new(alloc),
        }
    }

    pub fn len(&self) -> usize
        ensures count { result ≡ length self.now.heads.items }
        ensures few { length self.now.heads.items < GONE }
    {
        self.heads.len()
    }

    #[inline(always)]
    pub fn head(&self, k: u32) -> Head
        requires { k < length self.now.heads.items }
        ensures head { result ≡ slice_index_or self.now.heads.items k result }
        ensures fits { HeadFits self.now.vars (end_of (length self.now.lits.items) self.now.heads.items k) result }
        ensures within { end_of (length self.now.lits.items) self.now.heads.items k < GONE }
        ensures slot { slot_at (slots_of self.now.lits.items self.now.heads.items) k
            ≡ slot_of self.now.lits.items (end_of (length self.now.lits.items) self.now.heads.items k) result }
    {
        self.heads[k as usize]
    }

    // Whether there is a clause with a number that wasn't removed.
    #[inline(always)]
    pub fn has(&self, k: u32) -> bool
        ensures { result ≡ is_some (slot_at (slots_of self.now.lits.items self.now.heads.items) k) }
    {
        match self.heads.get(k as usize) {
            Some(head) => head.from != GONE,
            None => false,
        }
    }

    // Where the literals of a clause end.
    #[inline(always)]
    pub fn end(&self, k: u32) -> u32
        ensures end { result ≡ end_of (length self.now.lits.items) self.now.heads.items k }
        ensures within { result ≤ length self.now.lits.items }
    {
        match self.heads.get(k as usize + 1) {
            Some(next) => next.start,
            None => self.lits.len() as u32,
        }
    }

    #[inline(always)]
    pub fn lits(&self) -> &[Lit]
        ensures lits { result.now ≡ self.now.lits.items }
        ensures below { All (IsBelow self.now.vars) result.now }
    {
        self.lits.as_slice()
    }

    // Stores a clause that watches two literals, or nothing where they are the same.
    pub fn push(&mut self, clause: &[Lit], left: Lit, right: Lit) -> Result<(), AllocError>
        requires below { All (IsBelow self.old.vars) clause.now }
        requires watches { left ≢ right → (left.var ≤ self.old.vars) × (right.var ≤ self.old.vars) }
        ensures vars { self.new.vars ≡ self.old.vars }
        ensures heads { OnOk result ((h : Head) × (self.new.heads.items ≡ self.old.heads.items ++ h ∷ []) × (h.left ≡ left)
            × (h.right ≡ right)) }
        ensures slots { OnOk result (slots_of self.new.lits.items self.new.heads.items
            ≡ slots_of self.old.lits.items self.old.heads.items ++ Some clause.now ∷ []) }
        ensures count { OnOk result (length self.new.heads.items ≡ length self.old.heads.items + 1) }
        ensures limit { OnOk result (length self.new.heads.items < 2 ^ 32) }
        ensures err { OnErr result ((self.new.heads.items ≡ self.old.heads.items)
            × (slots_of self.new.lits.items self.new.heads.items ≡ slots_of self.old.lits.items self.old.heads.items)) }
    {
        let start = self.lits.len();
        let end = start.saturating_add(clause.len());
        if end >= GONE as usize || self.heads.len() + 1 >= GONE as usize {
            return Err(AllocError);
        }
        self.lits.extend_from_slice(clause)?;
        let head = Head {
            start: start as u32,
            from: start as u32,
            left,
            right,
        };
        if self.heads.push(head).is_err() {
            self.lits.truncate(start);
            return Err(AllocError);
        }
        Ok(())
    }

    // Changes the watches of a clause that is there.
    #[inline(always)]
    pub fn watch(&mut self, k: u32, head: Head)
        requires place { k < length self.old.heads.items }
        requires fits { HeadFits self.old.vars (end_of (length self.old.lits.items) self.old.heads.items k) head }
        requires start { head.start ≡ (slice_index_or self.old.heads.items k head).start }
        requires same { slot_of self.old.lits.items (end_of (length self.old.lits.items) self.old.heads.items k) head
            ≡ slot_at (slots_of self.old.lits.items self.old.heads.items) k }
        ensures vars { self.new.vars ≡ self.old.vars }
        ensures lits { self.new.lits ≡ self.old.lits }
        ensures heads { self.new.heads.items ≡ slice_set self.old.heads.items k head }
        ensures count { length self.new.heads.items ≡ length self.old.heads.items }
        ensures slots { slots_of self.new.lits.items self.new.heads.items ≡ slots_of self.old.lits.items self.old.heads.items }
    {
        self.heads[k as usize] = head;
    }

    // Removes a clause.
    pub fn forget(&mut self, k: u32)
        requires { k < length self.old.heads.items }
        ensures vars { self.new.vars ≡ self.old.vars }
        ensures lits { self.new.lits ≡ self.old.lits }
        ensures heads { (h : Head) × (self.new.heads.items ≡ slice_set self.old.heads.items k h) × (h.left ≡ h.right) }
        ensures slots { slots_of self.new.lits.items self.new.heads.items
            ≡ slice_set (slots_of self.old.lits.items self.old.heads.items) k None }
    {
        let Head { start, left, .. } = self.head(k);
        self.heads[k as usize] = Head {
            start,
            from: GONE,
            left,
            right: left,
        };
    }

    // The literals of a clause that is there.
    pub fn clause(&self, k: u32) -> Option<&[Lit]>
        requires { k < length self.now.heads.items }
        ensures there { IfSome result (λ c. slot_at (slots_of self.now.lits.items self.now.heads.items) k ≡ Some c.now) }
        ensures below { IfSome result (λ c. All (IsBelow self.now.vars) c.now) }
        ensures gone { IfNone result (slot_at (slots_of self.now.lits.items self.now.heads.items) k ≡ None) }
    {
        let Head { start, from, .. } = self.head(k);
        if from == GONE {
            None
        } else {
            let end = self.end(k);
            Some(&self.lits[start as usize..end as usize])
        }
    }
}
