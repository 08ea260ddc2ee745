// The analysis of a conflict: the clause of its first unique implication point (Marques-Silva and Sakallah, 1996; Zhang and others, 2001).

ghost use Rattle.std.specs.Prelude.{◌≡◌, ◌≢◌, ◌⊎◌, ℕ, ◌+◌, ◌*◌, ◌<◌, ◌≤◌, ◌++◌, ◌∷◌, [], true, List, length, take, Contains, All, IfOk, IfSome, OnOk, IsTrue, Ok, Some};
ghost use Rattle.cnf_form.specs.Cnf.{LitOf, negate, ClauseWithin};
ghost use Rattle.cnf_form.specs.declared.literal.TheConstants.{MAX_VARS};
ghost use Rattle.unit_propagation.specs.Marks.{is_marked};
ghost use Rattle.unit_propagation.specs.Propagator.{clauses_of};
ghost use Rattle.cdcl_core.specs.Levels.{IsJustified, end_of};
ghost use Rattle.cdcl_core.specs.Analysis.{IsClear, AreMarksListed, IsSeenOrRoot, Supports, IsUip, IsBuilt, IsLearnt};

use cnf_form::{Lit, MAX_VARS};
use std::alloc::{AllocError, Global};
use unit_propagation::Propagator;

// The true literals that a conflict rests on, as far as it was resolved: those that are marked. `lower` has the negations
// of those that were true when the last level began, `current` those that became true on it, resolved ones among them. `used` has
// the numbers of the clauses that were resolved.
#[derive(Drop)]
pub(crate) struct Analysis {
    seen: Vec<bool>,
    lower: Vec<Lit>,
    current: Vec<Lit>,
    used: Vec<u32>,
    pub(crate) clause: Vec<Lit>,
    ghost lower_places: { All (λ l. 2 * l.var + 1 < length seen.items) lower.items },
    ghost current_places: { All (λ l. 2 * l.var + 1 < length seen.items) current.items },
}

impl Analysis {
    pub fn new(alloc: Global, vars: u32) -> Result<Self, AllocError>
        requires { vars ≤ MAX_VARS }
        ensures sized { IfOk result (λ a. length a.seen.items ≡ 2 * vars + 2) }
        ensures clear { IfOk result (λ a. IsClear a.seen.items) }
        ensures lower { IfOk result (λ a. a.lower.items ≡ []) }
        ensures current { IfOk result (λ a. a.current.items ≡ []) }
    {
        let seen = vec![in alloc; false; 2 * vars as usize + 2]?;
        Ok(Analysis {
            seen,
            lower: Vec::new(alloc),
            current: Vec::new(alloc),
            used: Vec::new(alloc),
            clause: Vec::new(alloc),
        })
    }

    // The clause that is to be learnt.
    pub fn clause(&self) -> &[Lit]
        ensures { result.now ≡ self.now.clause.items }
    {
        self.clause.as_slice()
    }

    // The literals of the last level that the conflict rested on.
    pub fn current(&self) -> &[Lit] {
        self.current.as_slice()
    }

    // The literals of lower levels that the conflict rested on, negated.
    pub fn lower(&self) -> &[Lit] {
        self.lower.as_slice()
    }

    // The numbers of the clauses that were resolved.
    pub fn used(&self) -> &[u32] {
        self.used.as_slice()
    }

    // Takes a resolvent of two clauses with these numbers for the clause that is to be added.
    pub fn take(&mut self, resolvent: &[Lit], first: u32, second: u32) -> Result<(), AllocError>
        ensures seen { self.new.seen ≡ self.old.seen }
        ensures lower { self.new.lower ≡ self.old.lower }
        ensures current { self.new.current ≡ self.old.current }
    {
        self.clause.clear();
        self.clause.extend_from_slice(resolvent)?;
        self.used.clear();
        self.used.push(second)?;
        self.used.push(first)?;
        Ok(())
    }

    // Whether a literal is marked.
    pub fn has(&self, l: Lit) -> bool {
        match self.seen.get(l.index()) {
            Some(seen) => *seen,
            None => false,
        }
    }

    // Marks the negation of a literal, which was true when the last level began.
    fn mark_lower(&mut self, m: Lit) -> Result<(), AllocError>
        requires { 2 * m.var + 1 < length self.old.seen.items }
        ensures sized { length self.new.seen.items ≡ length self.old.seen.items }
        ensures listed { (t : List LitOf) (base : ℕ) → Contains (take base t) (negate m)
            → AreMarksListed t base self.old.seen.items self.old.lower.items self.old.current.items
            → AreMarksListed t base self.new.seen.items self.new.lower.items self.new.current.items }
        ensures keeps { (l : LitOf) → is_marked self.old.seen.items l ≡ true → is_marked self.new.seen.items l ≡ true }
        ensures marked { OnOk result (is_marked self.new.seen.items (negate m) ≡ true) }
    {
        self.lower.push(m)?;
        self.seen[m.negate().index()] = true;
        Ok(())
    }

    // Marks a literal that became true on the last level.
    fn mark_current(&mut self, l: Lit) -> Result<(), AllocError>
        requires { 2 * l.var + 1 < length self.old.seen.items }
        ensures sized { length self.new.seen.items ≡ length self.old.seen.items }
        ensures listed { (t : List LitOf) (base : ℕ) → AreMarksListed t base self.old.seen.items self.old.lower.items self.old.current.items
            → AreMarksListed t base self.new.seen.items self.new.lower.items self.new.current.items }
        ensures keeps { (x : LitOf) → is_marked self.old.seen.items x ≡ true → is_marked self.new.seen.items x ≡ true }
        ensures marked { OnOk result (is_marked self.new.seen.items l ≡ true) }
    {
        self.current.push(l)?;
        self.seen[l.index()] = true;
        Ok(())
    }

    // Whether a literal of a clause is false. Its negation is marked then, unless it is true at level 0.
    fn note(
        &mut self,
        core: &Propagator,
        m: Lit,
        root: usize,
        base: usize,
    ) -> Result<bool, AllocError>
        requires below { m.var ≤ core.now.vars }
        requires sized { length self.old.seen.items ≡ 2 * core.now.vars + 2 }
        ensures sized { length self.new.seen.items ≡ 2 * core.now.vars + 2 }
        ensures listed { AreMarksListed core.now.trail base self.old.seen.items self.old.lower.items self.old.current.items
            → AreMarksListed core.now.trail base self.new.seen.items self.new.lower.items self.new.current.items }
        ensures keeps { (l : LitOf) → is_marked self.old.seen.items l ≡ true → is_marked self.new.seen.items l ≡ true }
        ensures noted { result ≡ Ok true → IsSeenOrRoot core.now.trail root self.new.seen.items m }
    {
        let l = m.negate();
        if !core.is_true(l) {
            return Ok(false);
        }
        if self.seen[l.index()] {
            return Ok(true);
        }
        let place = core.place(l);
        if place < root {
            return Ok(true);
        }
        if place < base {
            self.mark_lower(m)?;
        } else {
            self.mark_current(l)?;
        }
        Ok(true)
    }

    // Whether a literal of a clause is `but`, or false. Its negation is marked then, unless it is `but`, or true at level 0.
    fn note_but(
        &mut self,
        core: &Propagator,
        m: Lit,
        but: Lit,
        root: usize,
        base: usize,
    ) -> Result<bool, AllocError>
        requires below { m.var ≤ core.now.vars }
        requires sized { length self.old.seen.items ≡ 2 * core.now.vars + 2 }
        ensures sized { length self.new.seen.items ≡ 2 * core.now.vars + 2 }
        ensures listed { AreMarksListed core.now.trail base self.old.seen.items self.old.lower.items self.old.current.items
            → AreMarksListed core.now.trail base self.new.seen.items self.new.lower.items self.new.current.items }
        ensures keeps { (l : LitOf) → is_marked self.old.seen.items l ≡ true → is_marked self.new.seen.items l ≡ true }
        ensures noted { result ≡ Ok true → m ≢ but → IsSeenOrRoot core.now.trail root self.new.seen.items m }
    {
        if m == but {
            return Ok(true);
        }
        self.note(core, m, root, base)
    }

    // Whether this literal is in the clause, and all others are false, which are noted then.
    fn note_others(
        &mut self,
        core: &Propagator,
        clause: &[Lit],
        but: Lit,
        root: usize,
        base: usize,
    ) -> Result<bool, AllocError>
        requires within { ClauseWithin core.now.vars clause.now }
        requires sized { length self.old.seen.items ≡ 2 * core.now.vars + 2 }
        ensures sized { length self.new.seen.items ≡ 2 * core.now.vars + 2 }
        ensures listed { AreMarksListed core.now.trail base self.old.seen.items self.old.lower.items self.old.current.items
            → AreMarksListed core.now.trail base self.new.seen.items self.new.lower.items self.new.current.items }
        ensures keeps { (l : LitOf) → is_marked self.old.seen.items l ≡ true → is_marked self.new.seen.items l ≡ true }
        ensures found { result ≡ Ok true → Contains clause.now but }
        ensures noted { result ≡ Ok true → (m : LitOf) → Contains clause.now m → m ≢ but
            → IsSeenOrRoot core.now.trail root self.new.seen.items m }
    {
        let mut found = false;
        for m in clause {
            let m = *m;
            if !self.note_but(core, m, but, root, base)? {
                return Ok(false);
            }
            if m == but {
                found = true;
            }
        }
        Ok(found)
    }

    // Begins with a clause. Returns whether all its literals are false.
    fn begin(
        &mut self,
        core: &Propagator,
        k: u32,
        root: usize,
        base: usize,
    ) -> Result<bool, AllocError>
        requires clause { k < length core.now.slots }
        requires sized { length self.old.seen.items ≡ 2 * core.now.vars + 2 }
        ensures sized { length self.new.seen.items ≡ 2 * core.now.vars + 2 }
        ensures listed { AreMarksListed core.now.trail base self.old.seen.items self.old.lower.items self.old.current.items
            → AreMarksListed core.now.trail base self.new.seen.items self.new.lower.items self.new.current.items }
        ensures supports { result ≡ Ok true
            → Supports (clauses_of core.now.slots) core.now.trail root self.new.seen.items }
    {
        let Some(clause) = core.clause(k) else {
            return Ok(false);
        };
        let Some(first) = clause.first() else {
            return Ok(false);
        };
        let first = *first;
        self.used.clear();
        self.used.push(k)?;
        if !self.note(core, first, root, base)? {
            return Ok(false);
        }
        self.note_others(core, clause, first, root, base)
    }

    // Resolves a literal: marks what it was derived from in its place. Returns whether the clause that is its reason derives it.
    fn resolve(
        &mut self,
        core: &Propagator,
        l: Lit,
        root: usize,
        base: usize,
    ) -> Result<bool, AllocError>
        requires below { l.var ≤ core.now.vars }
        requires sized { length self.old.seen.items ≡ 2 * core.now.vars + 2 }
        ensures sized { length self.new.seen.items ≡ 2 * core.now.vars + 2 }
        ensures listed { AreMarksListed core.now.trail base self.old.seen.items self.old.lower.items self.old.current.items
            → AreMarksListed core.now.trail base self.new.seen.items self.new.lower.items self.new.current.items }
        ensures supports { result ≡ Ok true
            → Supports (clauses_of core.now.slots) core.now.trail root self.old.seen.items
            → Supports (clauses_of core.now.slots) core.now.trail root self.new.seen.items }
    {
        let k = core.reason(l);
        if k as usize >= core.len() {
            return Ok(false);
        }
        let Some(clause) = core.clause(k) else {
            return Ok(false);
        };
        self.used.push(k)?;
        self.seen[l.index()] = false;
        self.note_others(core, clause, l, root, base)
    }

    // Whether a literal is a unique implication point: it became true on the last level, and no other literal of that is marked.
    fn is_uip(&self, core: &Propagator, l: Lit, base: usize) -> bool
        requires below { l.var ≤ core.now.vars }
        requires on { Contains core.now.trail l }
        ensures late { IsTrue result → Contains (take base core.now.trail) l → ⊥ }
        ensures only { IsTrue result → (x : LitOf) → Contains self.now.current.items x
            → is_marked self.now.seen.items x ≡ true → x ≡ l }
    {
        for x in &self.current {
            let x = *x;
            if x != l {
                if self.seen[x.index()] {
                    return false;
                }
            }
        }
        if core.place(l) < base {
            return false;
        }
        true
    }

    // Resolves the literals of the last level from the end of the trail on, until one of them alone is marked. Returns that literal.
    fn resolve_to_uip(
        &mut self,
        core: &Propagator,
        root: usize,
        base: usize,
    ) -> Result<Option<Lit>, AllocError>
        requires sized { length self.old.seen.items ≡ 2 * core.now.vars + 2 }
        ensures sized { length self.new.seen.items ≡ 2 * core.now.vars + 2 }
        ensures listed { AreMarksListed core.now.trail base self.old.seen.items self.old.lower.items self.old.current.items
            → AreMarksListed core.now.trail base self.new.seen.items self.new.lower.items self.new.current.items }
        ensures supports { IfOk result (λ o. Supports (clauses_of core.now.slots) core.now.trail root self.old.seen.items
            → IfSome o (λ l. Supports (clauses_of core.now.slots) core.now.trail root self.new.seen.items)) }
        ensures first { IfOk result (λ o. IfSome o (λ l. IsUip core.now.trail base self.new.seen.items self.new.current.items l)) }
    {
        let trail = core.trail();
        let mut resolved: usize = 0;
        for taken in base..trail.len() {
            let l = trail[trail.len() - 1 - (taken - base)];
            if !self.seen[l.index()] {
                continue;
            }
            if self.current.len() <= resolved.saturating_add(1) {
                if self.is_uip(core, l, base) {
                    return Ok(Some(l));
                }
                return Ok(None);
            }
            if !self.resolve(core, l, root, base)? {
                return Ok(None);
            }
            resolved = resolved.saturating_add(1);
        }
        Ok(None)
    }

    // Resolves the literals that aren't decisions from the end of the trail on. Returns the last decision.
    fn resolve_to_decisions(
        &mut self,
        core: &Propagator,
        root: usize,
        base: usize,
    ) -> Result<Option<Lit>, AllocError>
        requires sized { length self.old.seen.items ≡ 2 * core.now.vars + 2 }
        ensures sized { length self.new.seen.items ≡ 2 * core.now.vars + 2 }
        ensures listed { AreMarksListed core.now.trail base self.old.seen.items self.old.lower.items self.old.current.items
            → AreMarksListed core.now.trail base self.new.seen.items self.new.lower.items self.new.current.items }
        ensures supports { IfOk result (λ o. Supports (clauses_of core.now.slots) core.now.trail root self.old.seen.items
            → IfSome o (λ l. Supports (clauses_of core.now.slots) core.now.trail root self.new.seen.items)) }
        ensures on { IfOk result (λ o. IfSome o (λ l. Contains core.now.trail l)) }
    {
        let trail = core.trail();
        for taken in root..trail.len() {
            let l = trail[trail.len() - 1 - (taken - root)];
            if !self.seen[l.index()] || core.reason(l) as usize >= core.len() {
                continue;
            }
            if !self.resolve(core, l, root, base)? {
                return Ok(None);
            }
        }
        if base >= trail.len() {
            return Ok(None);
        }
        Ok(Some(trail[base]))
    }

    // Whether the negation of a literal is marked, or true at level 0.
    fn is_seen_or_root(&self, core: &Propagator, m: Lit, root: usize) -> bool
        requires below { m.var ≤ core.now.vars }
        requires sized { length self.now.seen.items ≡ 2 * core.now.vars + 2 }
        ensures { IsTrue result → IsSeenOrRoot core.now.trail root self.now.seen.items m }
    {
        let l = m.negate();
        if self.seen[l.index()] {
            return true;
        }
        if !core.is_true(l) {
            return false;
        }
        if core.place(l) < root {
            return true;
        }
        false
    }

    // Whether this literal is in the clause, and all others are noted.
    fn has_others(&self, core: &Propagator, clause: &[Lit], but: Lit, root: usize) -> bool
        requires within { ClauseWithin core.now.vars clause.now }
        requires sized { length self.now.seen.items ≡ 2 * core.now.vars + 2 }
        ensures found { IsTrue result → Contains clause.now but }
        ensures noted { IsTrue result → (m : LitOf) → Contains clause.now m → m ≢ but
            → IsSeenOrRoot core.now.trail root self.now.seen.items m }
    {
        let mut found = false;
        for m in clause {
            let m = *m;
            if m == but {
                found = true;
            } else if !self.is_seen_or_root(core, m, root) {
                return false;
            }
        }
        found
    }

    // Takes back the mark of a literal. Returns whether it follows from what is still marked.
    fn drop_implied(&mut self, core: &Propagator, l: Lit, root: usize) -> bool
        requires below { l.var ≤ core.now.vars }
        requires sized { length self.old.seen.items ≡ 2 * core.now.vars + 2 }
        ensures sized { length self.new.seen.items ≡ 2 * core.now.vars + 2 }
        ensures listed { (base : ℕ) → AreMarksListed core.now.trail base self.old.seen.items self.old.lower.items self.old.current.items
            → AreMarksListed core.now.trail base self.new.seen.items self.new.lower.items self.new.current.items }
        ensures supports { IsTrue result
            → Supports (clauses_of core.now.slots) core.now.trail root self.old.seen.items
            → Supports (clauses_of core.now.slots) core.now.trail root self.new.seen.items }
    {
        let k = core.reason(l);
        if k as usize >= core.len() {
            return false;
        }
        let Some(clause) = core.clause(k) else {
            return false;
        };
        self.seen[l.index()] = false;
        self.has_others(core, clause, l, root)
    }

    // Marks these literals too.
    fn mark_all(
        &mut self,
        core: &Propagator,
        implied: &[Lit],
        root: usize,
        base: usize,
    ) -> Result<(), AllocError>
        requires sized { length self.old.seen.items ≡ 2 * core.now.vars + 2 }
        ensures sized { length self.new.seen.items ≡ 2 * core.now.vars + 2 }
        ensures listed { AreMarksListed core.now.trail base self.old.seen.items self.old.lower.items self.old.current.items
            → AreMarksListed core.now.trail base self.new.seen.items self.new.lower.items self.new.current.items }
        ensures keeps { (l : LitOf) → is_marked self.old.seen.items l ≡ true → is_marked self.new.seen.items l ≡ true }
    {
        for l in implied {
            let l = *l;
            if l.var() <= core.vars() {
                self.note(core, l.negate(), root, base)?;
            }
        }
        Ok(())
    }

    // Takes back the marks of these literals, from the last on. Returns whether each follows from what is still marked.
    fn drop_all(&mut self, core: &Propagator, implied: &[Lit], root: usize) -> bool
        requires sized { length self.old.seen.items ≡ 2 * core.now.vars + 2 }
        ensures sized { length self.new.seen.items ≡ 2 * core.now.vars + 2 }
        ensures listed { (base : ℕ) → AreMarksListed core.now.trail base self.old.seen.items self.old.lower.items self.old.current.items
            → AreMarksListed core.now.trail base self.new.seen.items self.new.lower.items self.new.current.items }
        ensures supports { IsTrue result
            → Supports (clauses_of core.now.slots) core.now.trail root self.old.seen.items
            → Supports (clauses_of core.now.slots) core.now.trail root self.new.seen.items }
    {
        for taken in 0..implied.len() {
            let l = implied[implied.len() - 1 - taken];
            if l.var() > core.vars() {
                return false;
            }
            if !self.drop_implied(core, l, root) {
                return false;
            }
        }
        true
    }

    // Pushes a literal whose negation is marked.
    fn push_marked(&mut self, m: Lit) -> Result<(), AllocError>
        requires { 2 * m.var + 1 < length self.old.seen.items }
        ensures seen { self.new.seen ≡ self.old.seen }
        ensures lower { self.new.lower ≡ self.old.lower }
        ensures current { self.new.current ≡ self.old.current }
        ensures keeps { (x : LitOf) → Contains self.old.clause.items x → Contains self.new.clause.items x }
        ensures only { (x : LitOf) → Contains self.new.clause.items x → Contains self.old.clause.items x ⊎ (m ≡ x) }
        ensures marked { OnOk result (is_marked self.old.seen.items (negate m) ≡ true → Contains self.new.clause.items m) }
    {
        if self.seen[m.negate().index()] {
            self.clause.push(m)?;
        }
        Ok(())
    }

    // The clause of the negations of this literal and of what is marked before the last level.
    fn build(&mut self, l: Lit) -> Result<(), AllocError>
        ensures seen { self.new.seen ≡ self.old.seen }
        ensures lower { self.new.lower ≡ self.old.lower }
        ensures current { self.new.current ≡ self.old.current }
        ensures clause { OnOk result (IsBuilt self.old.seen.items self.old.lower.items l self.new.clause.items) }
    {
        self.clause.clear();
        self.clause.push(l.negate())?;
        for k in 0..self.lower.len() {
            let m = self.lower[k];
            self.push_marked(m)?;
        }
        Ok(())
    }

    // Takes back all marks.
    pub fn reset(&mut self)
        ensures sized { length self.new.seen.items ≡ length self.old.seen.items }
        ensures clause { self.new.clause ≡ self.old.clause }
        ensures clear { (t : List LitOf) (base : ℕ) → AreMarksListed t base self.old.seen.items self.old.lower.items self.old.current.items
            → IsClear self.new.seen.items }
        ensures lower { self.new.lower.items ≡ [] }
        ensures current { self.new.current.items ≡ [] }
    {
        for k in 0..self.current.len() {
            let l = self.current[k];
            self.seen[l.index()] = false;
        }
        for k in 0..self.lower.len() {
            let l = self.lower[k].negate();
            self.seen[l.index()] = false;
        }
        self.current.clear();
        self.lower.clear();
    }

    // Finds the first unique implication point: resolves a falsified clause until one literal of the last level alone is left.
    pub fn first_uip(
        &mut self,
        core: &Propagator,
        k: u32,
        root: usize,
        base: usize,
    ) -> Result<Option<Lit>, AllocError>
        requires clause { k < length core.now.slots }
        requires sized { length self.old.seen.items ≡ 2 * core.now.vars + 2 }
        requires listed { AreMarksListed core.now.trail base self.old.seen.items self.old.lower.items self.old.current.items }
        ensures sized { length self.new.seen.items ≡ 2 * core.now.vars + 2 }
        ensures listed { AreMarksListed core.now.trail base self.new.seen.items self.new.lower.items self.new.current.items }
        ensures supports { IfOk result (λ o. IfSome o (λ l. Supports (clauses_of core.now.slots) core.now.trail root self.new.seen.items)) }
        ensures on { IfOk result (λ o. IfSome o (λ l. Contains core.now.trail l)) }
    {
        if !self.begin(core, k, root, base)? {
            return Ok(None);
        }
        self.resolve_to_uip(core, root, base)
    }

    // Resolves a falsified clause until decisions alone are left. Returns the last of these.
    pub fn last_decision(
        &mut self,
        core: &Propagator,
        k: u32,
        root: usize,
        base: usize,
    ) -> Result<Option<Lit>, AllocError>
        requires clause { k < length core.now.slots }
        requires sized { length self.old.seen.items ≡ 2 * core.now.vars + 2 }
        requires listed { AreMarksListed core.now.trail base self.old.seen.items self.old.lower.items self.old.current.items }
        ensures sized { length self.new.seen.items ≡ 2 * core.now.vars + 2 }
        ensures listed { AreMarksListed core.now.trail base self.new.seen.items self.new.lower.items self.new.current.items }
        ensures supports { IfOk result (λ o. IfSome o (λ l. Supports (clauses_of core.now.slots) core.now.trail root self.new.seen.items)) }
        ensures on { IfOk result (λ o. IfSome o (λ l. Contains core.now.trail l)) }
    {
        if !self.begin(core, k, root, base)? {
            return Ok(None);
        }
        self.resolve_to_decisions(core, root, base)
    }

    // Builds the clause that is learnt, without these literals, which follow from its others. Returns its first literal.
    pub fn finish(
        &mut self,
        core: &Propagator,
        l: Lit,
        implied: &[Lit],
        root: usize,
        base: usize,
    ) -> Result<Option<Lit>, AllocError>
        requires sized { length self.old.seen.items ≡ 2 * core.now.vars + 2 }
        requires listed { AreMarksListed core.now.trail base self.old.seen.items self.old.lower.items self.old.current.items }
        requires justified { IsJustified core.now }
        requires root { root ≡ end_of core.now 0 }
        requires supports { Supports (clauses_of core.now.slots) core.now.trail root self.old.seen.items }
        requires on { Contains core.now.trail l }
        requires below { l.var ≤ core.now.vars }
        ensures sized { length self.new.seen.items ≡ 2 * core.now.vars + 2 }
        ensures listed { AreMarksListed core.now.trail base self.new.seen.items self.new.lower.items self.new.current.items }
        ensures learnt { IfOk result (λ o. IfSome o (λ first. IsLearnt core.now base self.new.clause.items first)) }
    {
        self.mark_all(core, implied, root, base)?;
        if !self.drop_all(core, implied, root) {
            return Ok(None);
        }
        if !self.is_uip(core, l, base) {
            return Ok(None);
        }
        self.build(l)?;
        if self.clause.len() > core.vars() as usize {
            return Ok(None);
        }
        Ok(Some(l.negate()))
    }
}
