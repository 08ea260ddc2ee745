// The ids of clauses.

ghost use Rattle.std.specs.Prelude.{◌≡◌, ◌⊎◌, ◌+◌, ◌<◌, ◌≤◌, ◌^◌, ◌++◌, ◌∷◌, [], ℕ, List, Option, Some, None, length, map, IfOk, IsTrue, OnOk, slice_set};
ghost use Rattle.cnf_form.specs.Cnf.{LitOf, index_of};
ghost use Rattle.cnf_form.specs.declared.literal.TheConstants.{MAX_VARS};
ghost use Rattle.unit_propagation.specs.Propagator.{present, slot_at};
ghost use Rattle.lrat_check.specs.Hints.{Live, numbered, put};
ghost use Rattle.hint_chain.specs.Ids.{AreNamed, id_at};
ghost use Rattle.hint_chain.specs.Kept.{kept};

use cnf_form::Lit;
use frozen_clauses::Frozen;
use std::alloc::{AllocError, Global};
use std::marker::Model;
use unit_propagation::Propagator;

// The highest id that a line may have.
const MAX_ID: u64 = (1 << 63) - 1;

/// The ids of clauses: of watched and of frozen ones by their numbers, and of unit clauses of their own, the facts, by their literals.
/// Nothing is kept where ids aren't wanted.
#[derive(Drop)]
pub struct Ids {
    alloc: Global,
    wanted: bool,
    last: u64,
    watched: Vec<u64>,
    frozen: Vec<u64>,
    facts: Vec<u64>,
}

impl Model for Ids {
    ghost use Rattle.hint_chain.specs.Ids.{IdsOf};

    ghost Value = { IdsOf };

    ghost view = { λ i. record { wanted = i.wanted; last = i.last; watched = i.watched.items; frozen = i.frozen.items; facts = i.facts.items } };
}

// The id at a place, 0 where there is none.
fn id_at(ids: &[u64], place: usize) -> u64
    ensures { result ≡ id_at ids.now place }
{
    match ids.get(place) {
        Some(id) => *id,
        None => 0,
    }
}

// Sets the id at a place, if there is one.
fn set_at(ids: &mut Vec<u64>, place: usize, id: u64)
    ensures { (ids.new.items ≡ ids.old.items) ⊎ ((place < length ids.old.items) × (ids.new.items ≡ slice_set ids.old.items place id)) }
{
    if place < ids.len() {
        ids[place] = id;
    }
}

// The numbers from 1 on, this many.
fn numbers(alloc: Global, count: usize) -> Result<Vec<u64>, AllocError>
    ensures sized { IfOk result (λ v. length v.items ≡ count) }
    ensures each { IfOk result (λ v. (k : ℕ) → k < count → id_at v.items k ≡ k + 1) }
{
    let mut numbers = Vec::new(alloc);
    for number in 0..count {
        numbers.push(number as u64 + 1)?;
    }
    Ok(numbers)
}

// Keeps the id of a clause, unless that was removed.
fn keep_next(left: &mut Vec<u64>, ids: &[u64], core: &Propagator, k: u32) -> Result<(), AllocError>
    requires { k < length core.now.slots }
    ensures { OnOk result (left.new.items ≡ left.old.items ++ kept ids.now k (slot_at core.now.slots k ∷ [])) }
{
    match core.clause(k) {
        Some(_) => {
            left.push(id_at(ids, k as usize))?;
            Ok(())
        }
        None => Ok(()),
    }
}

// The ids of the clauses that weren't removed.
fn kept(alloc: Global, ids: &[u64], core: &Propagator) -> Result<Vec<u64>, AllocError>
    ensures { IfOk result (λ v. v.items ≡ kept ids.now 0 core.now.slots) }
{
    let mut kept = Vec::new(alloc);
    for k in 0..core.len() {
        keep_next(&mut kept, ids, core, k as u32)?;
    }
    Ok(kept)
}

// Keeps the id of a frozen clause, unless that was removed.
fn keep_next_frozen(
    left: &mut Vec<u64>,
    ids: &[u64],
    frozen: &Frozen,
    k: u32,
) -> Result<(), AllocError>
    requires { k < length frozen.now.slots }
    ensures { OnOk result (left.new.items ≡ left.old.items ++ kept ids.now k (slot_at frozen.now.slots k ∷ [])) }
{
    match frozen.clause(k) {
        Some(_) => {
            left.push(id_at(ids, k as usize))?;
            Ok(())
        }
        None => Ok(()),
    }
}

// The ids of the frozen clauses that weren't removed.
fn kept_frozen(alloc: Global, ids: &[u64], frozen: &Frozen) -> Result<Vec<u64>, AllocError>
    ensures { IfOk result (λ v. v.items ≡ kept ids.now 0 frozen.now.slots) }
{
    let mut kept = Vec::new(alloc);
    for k in 0..frozen.len() {
        keep_next_frozen(&mut kept, ids, frozen, k as u32)?;
    }
    Ok(kept)
}

impl Ids {
    /// The ids of this many clauses over the variables from 1 to `vars`, which are the numbers from 1 on, if ids are wanted.
    pub fn new(alloc: Global, wanted: bool, vars: u32, count: usize) -> Result<Self, AllocError>
        requires { vars ≤ MAX_VARS }
        ensures wanted { IfOk result (λ ids. ids.wanted ≡ wanted) }
        ensures last { IfOk result (λ ids. ids.last ≡ count) }
        ensures named { IfOk result (λ ids. (F : List (List LitOf)) → length F ≡ count → AreNamed (numbered F) (map Some F) [] ids) }
    {
        if !wanted {
            return Ok(Ids {
                alloc,
                wanted,
                last: count as u64,
                watched: Vec::new(alloc),
                frozen: Vec::new(alloc),
                facts: Vec::new(alloc),
            });
        }
        let watched = numbers(alloc, count)?;
        let facts = vec![in alloc; 0; 2 * vars as usize + 2]?;
        Ok(Ids {
            alloc,
            wanted,
            last: count as u64,
            watched,
            frozen: Vec::new(alloc),
            facts,
        })
    }

    /// Whether ids are wanted.
    pub fn are_wanted(&self) -> bool
        ensures { result ≡ self.now.wanted }
    {
        self.wanted
    }

    /// The id of the next line, 0 where ids aren't wanted. An error where no id is left, as when memory runs out.
    pub fn next(&self) -> Result<u64, AllocError>
        ensures above { IfOk result (λ id. IsTrue self.now.wanted → self.now.last < id) }
        ensures most { IfOk result (λ id. id < 2 ^ 63) }
    {
        if !self.wanted {
            return Ok(0);
        }
        if self.last >= MAX_ID {
            return Err(AllocError);
        }
        Ok(self.last + 1)
    }

    /// The id of a watched clause.
    pub fn watched(&self, k: u32) -> u64
        ensures { result ≡ id_at self.now.watched k }
    {
        id_at(&self.watched, k as usize)
    }

    /// The id of a frozen clause.
    pub fn frozen(&self, k: u32) -> u64
        ensures { result ≡ id_at self.now.frozen k }
    {
        id_at(&self.frozen, k as usize)
    }

    /// The id of a literal's unit clause, 0 where it has none.
    pub fn fact(&self, l: Lit) -> u64
        ensures { result ≡ id_at self.now.facts (index_of l) }
    {
        id_at(&self.facts, l.index())
    }

    /// The next watched clause has this id, which is above all others.
    pub fn push(&mut self, id: u64) -> Result<(), AllocError>
        ensures wanted { self.new.wanted ≡ self.old.wanted }
        ensures last { OnOk result (IsTrue self.old.wanted → self.new.last ≡ id) }
        ensures named { OnOk result ((live : Live) (slots zs : List (Option (List LitOf))) (c : List LitOf) → (IsTrue self.old.wanted → self.old.last < id)
            → AreNamed live slots zs self.old → AreNamed (put live id (Some c)) (slots ++ Some c ∷ []) zs self.new) }
    {
        if self.wanted {
            self.watched.push(id)?;
            self.last = id;
        }
        Ok(())
    }

    /// A literal's unit clause has this id, which is above all others.
    pub fn set_fact(&mut self, l: Lit, id: u64)
        ensures wanted { self.new.wanted ≡ self.old.wanted }
        ensures last { IsTrue self.old.wanted → self.new.last ≡ id }
        ensures named { (live : Live) (slots zs : List (Option (List LitOf))) → (IsTrue self.old.wanted → self.old.last < id)
            → AreNamed live slots zs self.old → AreNamed (put live id (Some (l ∷ []))) slots zs self.new }
    {
        if self.wanted {
            set_at(&mut self.facts, l.index(), id);
            self.last = id;
        }
    }

    /// A watched clause is frozen.
    pub fn freeze(&mut self, k: u32) -> Result<(), AllocError>
        ensures wanted { self.new.wanted ≡ self.old.wanted }
        ensures last { self.new.last ≡ self.old.last }
        ensures named { OnOk result ((live : Live) (slots zs : List (Option (List LitOf))) (c : List LitOf) → slot_at slots k ≡ Some c
            → AreNamed live slots zs self.old → AreNamed live (slice_set slots k None) (zs ++ Some c ∷ []) self.new) }
    {
        if self.wanted {
            let id = self.watched(k);
            self.frozen.push(id)?;
        }
        Ok(())
    }

    /// A frozen clause is watched again.
    pub fn thaw(&mut self, k: u32) -> Result<(), AllocError>
        ensures wanted { self.new.wanted ≡ self.old.wanted }
        ensures last { self.new.last ≡ self.old.last }
        ensures named { OnOk result ((live : Live) (slots zs : List (Option (List LitOf))) (c : List LitOf) → slot_at zs k ≡ Some c
            → AreNamed live slots zs self.old → AreNamed live (slots ++ Some c ∷ []) (slice_set zs k None) self.new) }
    {
        if self.wanted {
            let id = self.frozen(k);
            self.watched.push(id)?;
        }
        Ok(())
    }

    /// The watched clauses that weren't removed are numbered from 0 on, in the same order.
    pub fn collect(&mut self, core: &Propagator) -> Result<(), AllocError>
        ensures wanted { self.new.wanted ≡ self.old.wanted }
        ensures last { self.new.last ≡ self.old.last }
        ensures named { OnOk result ((live : Live) (zs : List (Option (List LitOf))) → AreNamed live core.now.slots zs self.old
            → AreNamed live (present core.now.slots) zs self.new) }
    {
        if self.wanted {
            self.watched = kept(self.alloc, &self.watched, core)?;
        }
        Ok(())
    }

    /// The frozen clauses that weren't removed are numbered from 0 on, in the same order.
    pub fn collect_frozen(&mut self, frozen: &Frozen) -> Result<(), AllocError>
        ensures wanted { self.new.wanted ≡ self.old.wanted }
        ensures last { self.new.last ≡ self.old.last }
        ensures named { OnOk result ((live : Live) (slots : List (Option (List LitOf))) → AreNamed live slots frozen.now.slots self.old
            → AreNamed live slots (present frozen.now.slots) self.new) }
    {
        if self.wanted {
            self.frozen = kept_frozen(self.alloc, &self.frozen, frozen)?;
        }
        Ok(())
    }
}
