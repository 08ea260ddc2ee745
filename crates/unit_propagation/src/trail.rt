// The literals that are true, in the order in which they became so.

ghost use Rattle.std.specs.Prelude.{ℕ, ◌≡◌, ◌↔◌, ◌+◌, ◌-◌, ◌*◌, ◌<◌, ◌≤◌, ◌^◌, ◌++◌, ◌∷◌, [], false, replicate, IsTrue, IfOk, OnOk, OnErr, length, take, All, Contains, slice_get, Some};
ghost use Rattle.cnf_form.specs.Cnf.{LitOf, negate, index_of};
ghost use Rattle.unit_propagation.specs.Marks.{is_marked, IsBelow, IsDistinct, Shows};
ghost use Rattle.unit_propagation.specs.Propagation.{IsConsistent, IsUnassigned};
ghost use Rattle.unit_propagation.specs.declared.watch.TheConstants.{GONE};
ghost use Rattle.unit_propagation.specs.declared.watch.Origin.{Origin};

use crate::watch::{GONE, Origin};
use cnf_form::Lit;
use std::alloc::{AllocError, Global};
use std::marker::Model;

// The tables reach as far as the highest variable that was true.
#[derive(Drop)]
pub struct Trail {
    vars: u32,
    // By the place of a literal: whether it is true.
    marks: Vec<bool>,
    origins: Vec<Origin>,
    lits: Vec<Lit>,
}

// Whether a literal is marked in a table, which has no mark past its end.
#[inline(always)]
pub fn is_marked(marks: &[bool], l: Lit) -> bool
    ensures { result ≡ is_marked marks.now l }
{
    match marks.get(l.index()) {
        Some(mark) => *mark,
        None => false,
    }
}

// Makes the tables reach as far as the variable of a literal.
#[inline(always)]
fn reach(marks: &mut Vec<bool>, origins: &mut Vec<Origin>, l: Lit) -> Result<(), AllocError>
    ensures marks { (n : ℕ) × (marks.new.items ≡ marks.old.items ++ replicate n false) }
    ensures origins { (n : ℕ) × (origins.new.items ≡ origins.old.items ++ replicate n (record { place = 0; reason = GONE })) }
    ensures room { (vars : ℕ) → l.var ≤ vars → length marks.old.items ≤ 2 * vars + 2 → length marks.new.items ≤ 2 * vars + 2 }
    ensures places { OnOk result (index_of l < length marks.new.items) }
    ensures vars { OnOk result (l.var < length origins.new.items) }
{
    let var = l.var() as usize;
    if l.index() >= marks.len() {
        marks.resize(2 * var + 2, false)?;
    }
    if var >= origins.len() {
        let origin = Origin {
            place: 0,
            reason: GONE,
        };
        origins.resize(var + 1, origin)?;
    }
    Ok(())
}

impl Model for Trail {
    ghost use Rattle.unit_propagation.specs.Marks.{TrailOf, IsTrail, IsPlaced};

    ghost Value = { TrailOf };

    ghost view = { λ t. record { vars = t.vars; lits = t.lits.items } };

    ghost invariant = { λ t. IsTrail t.vars t.marks.items t.lits.items × IsPlaced t.origins.items t.lits.items };
}

impl Trail {
    pub fn new(alloc: Global, vars: u32) -> Self
        requires { vars ≤ 2 ^ 27 }
        ensures { result ≡ record { vars = vars; lits = [] } }
    {
        Trail {
            vars,
            marks: Vec::new(alloc),
            origins: Vec::new(alloc),
            lits: Vec::new(alloc),
        }
    }

    // Copies the literals, without the clauses that made them true.
    pub fn copy_without_reasons(&self, alloc: Global) -> Result<Self, AllocError>
        ensures { IfOk result (λ t. t ≡ self.now) }
    {
        let mut trail = Trail::new(alloc, self.vars);
        let lits = self.lits();
        for place in 0..lits.len() {
            trail.assign(lits[place], GONE)?;
        }
        Ok(trail)
    }

    #[inline(always)]
    pub fn is_true(&self, l: Lit) -> bool
        requires { l.var ≤ self.now.vars }
        ensures { IsTrue result ↔ Contains self.now.lits l }
    {
        is_marked(&self.marks, l)
    }

    // By the place of a literal: whether it is true. Those from some place on aren't.
    #[inline(always)]
    pub fn marks(&self) -> &[bool]
        ensures shows { Shows result.now self.now.lits }
    {
        self.marks.as_slice()
    }

    // Makes an unassigned literal true. The reason is a hint, from which nothing follows.
    #[inline(always)]
    pub fn assign(&mut self, l: Lit, reason: u32) -> Result<(), AllocError>
        requires below { l.var ≤ self.old.vars }
        requires opened { IsUnassigned self.old.lits l }
        ensures ok { OnOk result (self.new ≡ record self.old { lits = self.old.lits ++ l ∷ [] }) }
        ensures err { OnErr result (self.new ≡ self.old) }
    {
        let place = self.len() as u32;
        reach(&mut self.marks, &mut self.origins, l)?;
        self.lits.push(l)?;
        self.marks[l.index()] = true;
        self.origins[l.var() as usize] = Origin { place, reason };
        Ok(())
    }

    pub fn len(&self) -> usize
        ensures length { result ≡ length self.now.lits }
        ensures room { length self.now.lits ≤ 2 * self.now.vars + 2 }
        ensures apart { IsConsistent self.now.lits }
    {
        self.lits.len()
    }

    #[inline(always)]
    pub fn get(&self, place: usize) -> Lit
        requires { place < length self.now.lits }
        ensures lit { slice_get self.now.lits place ≡ Some result }
        ensures below { result.var ≤ self.now.vars }
    {
        self.lits[place]
    }

    // The place of a true literal.
    #[inline(always)]
    pub fn place(&self, l: Lit) -> usize
        requires below { l.var ≤ self.now.vars }
        requires on { Contains self.now.lits l }
        ensures within { result < length self.now.lits }
        ensures at { slice_get self.now.lits result ≡ Some l }
        ensures first { Contains (take result self.now.lits) l → ⊥ }
    {
        self.origins[l.var() as usize].place as usize
    }

    // The number of the clause that made a literal true, if one did, as it was told.
    #[inline(always)]
    pub fn reason(&self, l: Lit) -> u32
        requires { l.var ≤ self.now.vars }
    {
        match self.origins.get(l.var() as usize) {
            Some(origin) => origin.reason,
            None => GONE,
        }
    }

    // The literals in order.
    #[inline(always)]
    pub fn lits(&self) -> &[Lit]
        ensures lits { result.now ≡ self.now.lits }
        ensures below { All (IsBelow self.now.vars) result.now }
        ensures consistent { IsConsistent self.now.lits }
        ensures room { length self.now.lits ≤ 2 * self.now.vars + 2 }
        ensures distinct { IsDistinct self.now.lits }
    {
        self.lits.as_slice()
    }

    // Takes back the last literal.
    #[inline(always)]
    fn pop(&mut self)
        requires { 0 < length self.old.lits }
        ensures { self.new ≡ record self.old { lits = take (length self.old.lits - 1) self.old.lits } }
    {
        let place = self.lits.len() - 1;
        let l = self.lits[place];
        self.marks[l.index()] = false;
        self.lits.truncate(place);
    }

    // Takes back the literals from a place on.
    pub fn cut(&mut self, place: usize)
        ensures { self.new ≡ record self.old { lits = take place self.old.lits } }
    {
        for _ in place..self.lits.len() {
            self.pop();
        }
    }
}
