// Assumptions.

ghost use Rattle.std.specs.Prelude.{ℕ, ◌≡◌, ◌≤◌, ◌⊎◌, ◌++◌, ◌∷◌, [], true, false, List, Option, length, Contains, All, IfOk, Ok, slice_index_or};
ghost use Rattle.cnf_form.specs.Cnf.{LitOf, negate};
ghost use Rattle.unit_propagation.specs.Marks.{IsBelow};
ghost use Rattle.unit_propagation.specs.Propagation.{IsUnassigned};
ghost use Rattle.unit_propagation.specs.Propagator.{Assumes, is_conflict};
ghost use Rattle.unit_propagation.specs.Watch.{slots_of, rows_of};
ghost use Rattle.unit_propagation.specs.Visit.{State, AllKept, IsFiled};
ghost use Rattle.unit_propagation.specs.Assumption.{AssumeFits};

use crate::lists::WatchLists;
use crate::outcome::Outcome;
use crate::store::ClauseStore;
use crate::trail::Trail;
use crate::walk::propagate_from;
use crate::watch::GONE;
use cnf_form::Lit;
use std::alloc::AllocError;

// Makes a literal true, unless it is false. Returns whether it is true.
fn assume_one(trail: &mut Trail, l: Lit) -> Result<bool, AllocError>
    requires { l.var ≤ trail.old.vars }
    ensures vars { trail.new.vars ≡ trail.old.vars }
    ensures grown { (trail.new.lits ≡ trail.old.lits) ⊎ (IsUnassigned trail.old.lits l × (trail.new.lits ≡ trail.old.lits ++ l ∷ [])) }
    ensures yes { result ≡ Ok true → Contains trail.new.lits l }
    ensures no { result ≡ Ok false → Contains trail.new.lits (negate l) }
{
    if trail.is_true(l) {
        return Ok(true);
    }
    if trail.is_true(l.negate()) {
        return Ok(false);
    }
    trail.assign(l, GONE)?;
    Ok(true)
}

// Makes literals true up to the first one that is false. Returns whether all are true.
fn assume_all(trail: &mut Trail, lits: &[Lit]) -> Result<bool, AllocError>
    requires { All (IsBelow trail.old.vars) lits.now }
    ensures vars { trail.new.vars ≡ trail.old.vars }
    ensures assumes { Assumes lits.now trail.old.lits trail.new.lits }
    ensures yes { result ≡ Ok true → (l : LitOf) → Contains lits.now l → Contains trail.new.lits l }
    ensures no { result ≡ Ok false → (l : LitOf) × Contains lits.now l × Contains trail.new.lits (negate l) }
{
    for l in lits {
        if !assume_one(trail, *l)? {
            return Ok(false);
        }
    }
    Ok(true)
}

// Assumes literals and propagates. If memory runs out, the trail is as it was.
pub(crate) fn assume(
    store: &mut ClauseStore,
    lists: &mut WatchLists,
    pairs: &WatchLists,
    trail: &mut Trail,
    lits: &[Lit],
) -> Result<Outcome, AllocError>
    requires trail { trail.old.vars ≡ store.old.vars }
    requires lists { lists.old.vars ≡ store.old.vars }
    requires pairs { pairs.now.vars ≡ store.old.vars }
    requires clauses { lists.old.clauses ≡ length store.old.heads.items }
    requires below { All (IsBelow store.old.vars) lits.now }
    ensures trail { trail.new.vars ≡ trail.old.vars }
    ensures store_vars { store.new.vars ≡ store.old.vars }
    ensures slots { slots_of store.new.lits.items store.new.heads.items ≡ slots_of store.old.lits.items store.old.heads.items }
    ensures store_count { length store.new.heads.items ≡ length store.old.heads.items }
    ensures lists_vars { lists.new.vars ≡ lists.old.vars }
    ensures lists_clauses { lists.new.clauses ≡ lists.old.clauses }
    ensures step { let slots = slots_of store.old.lits.items store.old.heads.items in
        let old : State = record { heads = store.old.heads.items; rows = rows_of lists.old.vars lists.old.lists.items; trail = trail.old.lits } in
        let new : State = record { heads = store.new.heads.items; rows = rows_of lists.new.vars lists.new.lists.items; trail = trail.new.lits } in
        IsFiled slots old (rows_of pairs.now.vars pairs.now.lists.items) → AllKept old.trail old.trail slots old.heads
        → AssumeFits slots (rows_of pairs.now.vars pairs.now.lists.items) old new lits.now result }
{
    let base = trail.len();
    match assume_all(trail, lits) {
        Ok(true) => {}
        Ok(false) => {
            return Ok(Outcome::Opposed);
        }
        Err(e) => {
            trail.cut(base);
            return Err(e);
        }
    }
    match propagate_from(store, lists, pairs, trail, base)? {
        None => Ok(Outcome::Complete),
        Some(k) => Ok(Outcome::Falsified(k)),
    }
}
