// Unit propagation over all that became true.

ghost use Rattle.std.specs.Prelude.{ℕ, ◌≡◌, ◌≢◌, ◌⊎◌, ◌+◌, ◌*◌, ◌<◌, ◌≤◌, ◌++◌, ◌∷◌, [], List, Option, length, take, Contains, All, IfOk, IfSome, IfNone, Some, None, slice_index_or};
ghost use Rattle.cnf_form.specs.Cnf.{LitOf, negate};
ghost use Rattle.unit_propagation.specs.Watch.{WatchFits, slots_of, rows_of, row};
ghost use Rattle.unit_propagation.specs.Visit.{State, AllKept, IsVisited, IsPending, StopFits, PairFits, IsFiled, Walks, EndFits, ImpliedFits, AllImplied, PairsFit, SettleFits};
ghost use Rattle.unit_propagation.specs.Propagation.{IsUnassigned, Propagates};
ghost use Rattle.unit_propagation.specs.Propagator.{slot_at, clauses_of};
ghost use Rattle.unit_propagation.specs.declared.watch.Head.{Head};
ghost use Rattle.unit_propagation.specs.declared.watch.Watch.{Watch};

use crate::lists::WatchLists;
use crate::store::ClauseStore;
use crate::trail::Trail;
use crate::visit::{Stop, Visits, visit_entry};
use crate::watch::Watch;
use cnf_form::Lit;
use std::alloc::AllocError;

// Keeps the entries from an index on. Returns how many are kept then.
fn keep_rest(lists: &WatchLists, list: &mut [Watch], kept: usize, from: usize) -> usize
    requires kept { kept ≤ from }
    requires from { from ≤ length list.old }
    requires list { All (WatchFits lists.now.vars lists.now.clauses) list.old }
    ensures kept { result ≤ length list.old }
    ensures list { All (WatchFits lists.now.vars lists.now.clauses) list.new }
    ensures step { (slots : List (Option (List LitOf))) (start s : State) (f : LitOf) → IsVisited slots start s f list.old kept from
        → IsVisited slots start s f list.new result (length list.old) }
{
    if kept == from {
        return list.len();
    }
    let mut kept = kept;
    for k in from..list.len() {
        let Watch { clause, blocker } = list[k];
        lists.keep(list, kept, clause, blocker);
        kept += 1;
    }
    kept
}

// Visits the entries of a false literal's list.
fn visit_list(
    store: &mut ClauseStore,
    lists: &mut WatchLists,
    trail: &mut Trail,
    list: &mut [Watch],
    falsified: Lit,
) -> Visits
    requires trail { trail.old.vars ≡ store.old.vars }
    requires lists { lists.old.vars ≡ store.old.vars }
    requires clauses { lists.old.clauses ≡ length store.old.heads.items }
    requires list { All (WatchFits lists.old.vars lists.old.clauses) list.old }
    ensures trail { trail.new.vars ≡ trail.old.vars }
    ensures store_vars { store.new.vars ≡ store.old.vars }
    ensures slots { slots_of store.new.lits.items store.new.heads.items ≡ slots_of store.old.lits.items store.old.heads.items }
    ensures store_count { length store.new.heads.items ≡ length store.old.heads.items }
    ensures lists_vars { lists.new.vars ≡ lists.old.vars }
    ensures lists_clauses { lists.new.clauses ≡ lists.old.clauses }
    ensures lists_count { length lists.old.lists.items ≤ length lists.new.lists.items }
    ensures list { All (WatchFits lists.old.vars lists.old.clauses) list.new }
    ensures kept { result.kept ≤ length list.old }
    ensures step { (p : List LitOf)
        → let slots = slots_of store.old.lits.items store.old.heads.items in
        let old : State = record { heads = store.old.heads.items; rows = rows_of lists.old.vars lists.old.lists.items; trail = trail.old.lits } in
        let new : State = record { heads = store.new.heads.items; rows = rows_of lists.new.vars lists.new.lists.items; trail = trail.new.lits } in
        IsVisited slots old old falsified list.old 0 0 → IsPending p falsified slots old list.old 0
        → IsVisited slots old new falsified list.new result.kept (length list.old)
        × StopFits p falsified slots new list.new (length list.old) result.stop }
{
    let mut kept = 0;
    for k in 0..list.len() {
        let Visits { kept: more, stop } = visit_entry(
            store, lists, trail, list, kept, k, falsified,
        );
        if stop.is_some() {
            return Visits {
                kept: keep_rest(lists, list, more, k + 1),
                stop,
            };
        }
        kept = more;
    }
    Visits { kept, stop: None }
}

// Makes the other literal of a clause of two true, since the one is false, unless the clause was removed.
#[inline(always)]
fn imply(store: &ClauseStore, trail: &mut Trail, clause: u32, blocker: Lit) -> Option<Stop>
    requires { blocker.var ≤ trail.old.vars }
    ensures vars { trail.new.vars ≡ trail.old.vars }
    ensures grown { (trail.new.lits ≡ trail.old.lits) ⊎ (((c : List LitOf) × (slot_at (slots_of store.now.lits.items store.now.heads.items) clause ≡ Some c))
        × IsUnassigned trail.old.lits blocker × (trail.new.lits ≡ trail.old.lits ++ blocker ∷ [])) }
    ensures ends { ImpliedFits (slots_of store.now.lits.items store.now.heads.items) trail.old.lits trail.new.lits clause blocker result }
{
    if trail.is_true(blocker) {
        return None;
    }
    if !store.has(clause) {
        return None;
    }
    if trail.is_true(blocker.negate()) {
        return Some(Stop::Conflict(clause));
    }
    if trail.assign(blocker, clause).is_err() {
        return Some(Stop::Memory);
    }
    None
}

// Goes through the clauses of two literals that have a false one.
fn visit_pairs(
    store: &ClauseStore,
    pairs: &WatchLists,
    trail: &mut Trail,
    falsified: Lit,
) -> Option<Stop>
    requires vars { pairs.now.vars ≡ trail.old.vars }
    requires lit { falsified.var ≤ trail.old.vars }
    ensures vars { trail.new.vars ≡ trail.old.vars }
    ensures step { let slots = slots_of store.now.lits.items store.now.heads.items in
        let list = row (rows_of pairs.now.vars pairs.now.lists.items) falsified in
        ((w : Watch) → Contains list w → PairFits slots store.now.heads.items falsified w) → Contains trail.old.lits (negate falsified)
        → Propagates (clauses_of slots) trail.old.lits trail.new.lits × PairsFit slots list trail.new.lits result }
{
    let list = pairs.entries(falsified);
    for k in 0..list.len() {
        let Watch { clause, blocker } = list[k];
        let stop = imply(store, trail, clause, blocker);
        if stop.is_some() {
            return stop;
        }
    }
    None
}

// Goes through the list of a false literal.
fn visit_long(
    store: &mut ClauseStore,
    lists: &mut WatchLists,
    trail: &mut Trail,
    falsified: Lit,
) -> Option<Stop>
    requires trail { trail.old.vars ≡ store.old.vars }
    requires lists { lists.old.vars ≡ store.old.vars }
    requires clauses { lists.old.clauses ≡ length store.old.heads.items }
    requires lit { falsified.var ≤ store.old.vars }
    ensures trail { trail.new.vars ≡ trail.old.vars }
    ensures store_vars { store.new.vars ≡ store.old.vars }
    ensures slots { slots_of store.new.lits.items store.new.heads.items ≡ slots_of store.old.lits.items store.old.heads.items }
    ensures store_count { length store.new.heads.items ≡ length store.old.heads.items }
    ensures lists_vars { lists.new.vars ≡ lists.old.vars }
    ensures lists_clauses { lists.new.clauses ≡ lists.old.clauses }
    ensures step { (p : List LitOf) (pairs : List (List Watch))
        → let slots = slots_of store.old.lits.items store.old.heads.items in
        let old : State = record { heads = store.old.heads.items; rows = rows_of lists.old.vars lists.old.lists.items; trail = trail.old.lits } in
        let new : State = record { heads = store.new.heads.items; rows = rows_of lists.new.vars lists.new.lists.items; trail = trail.new.lits } in
        IsFiled slots old pairs → AllKept p old.trail slots old.heads
        → ((l : LitOf) → Contains (p ++ negate falsified ∷ []) l → Contains old.trail l)
        → AllImplied slots (row pairs falsified) old.trail
        → Walks slots pairs old new × EndFits (p ++ negate falsified ∷ []) slots new result }
{
    let mut list = lists.take(falsified);
    let Visits { kept, stop } = visit_list(store, lists, trail, &mut list, falsified);
    list.truncate(kept);
    lists.set_list(falsified, list);
    stop
}

// Goes through all clauses that watch a false literal.
fn visit_literal(
    store: &mut ClauseStore,
    lists: &mut WatchLists,
    pairs: &WatchLists,
    trail: &mut Trail,
    falsified: Lit,
) -> Option<Stop>
    requires trail { trail.old.vars ≡ store.old.vars }
    requires lists { lists.old.vars ≡ store.old.vars }
    requires pairs { pairs.now.vars ≡ store.old.vars }
    requires clauses { lists.old.clauses ≡ length store.old.heads.items }
    requires lit { falsified.var ≤ store.old.vars }
    ensures trail { trail.new.vars ≡ trail.old.vars }
    ensures store_vars { store.new.vars ≡ store.old.vars }
    ensures slots { slots_of store.new.lits.items store.new.heads.items ≡ slots_of store.old.lits.items store.old.heads.items }
    ensures store_count { length store.new.heads.items ≡ length store.old.heads.items }
    ensures lists_vars { lists.new.vars ≡ lists.old.vars }
    ensures lists_clauses { lists.new.clauses ≡ lists.old.clauses }
    ensures step { (p : List LitOf)
        → let slots = slots_of store.old.lits.items store.old.heads.items in
        let old : State = record { heads = store.old.heads.items; rows = rows_of lists.old.vars lists.old.lists.items; trail = trail.old.lits } in
        let new : State = record { heads = store.new.heads.items; rows = rows_of lists.new.vars lists.new.lists.items; trail = trail.new.lits } in
        IsFiled slots old (rows_of pairs.now.vars pairs.now.lists.items) → AllKept p old.trail slots old.heads
        → ((l : LitOf) → Contains (p ++ negate falsified ∷ []) l → Contains old.trail l)
        → Walks slots (rows_of pairs.now.vars pairs.now.lists.items) old new × EndFits (p ++ negate falsified ∷ []) slots new result }
{
    let stop = visit_pairs(store, pairs, trail, falsified);
    if stop.is_some() {
        return stop;
    }
    visit_long(store, lists, trail, falsified)
}

// Unit propagation: deals with the true literals from a place of the trail on, and with what follows from them.
pub(crate) fn propagate(
    store: &mut ClauseStore,
    lists: &mut WatchLists,
    pairs: &WatchLists,
    trail: &mut Trail,
    from: usize,
) -> Option<Stop>
    requires trail { trail.old.vars ≡ store.old.vars }
    requires lists { lists.old.vars ≡ store.old.vars }
    requires pairs { pairs.now.vars ≡ store.old.vars }
    requires clauses { lists.old.clauses ≡ length store.old.heads.items }
    ensures trail { trail.new.vars ≡ trail.old.vars }
    ensures store_vars { store.new.vars ≡ store.old.vars }
    ensures slots { slots_of store.new.lits.items store.new.heads.items ≡ slots_of store.old.lits.items store.old.heads.items }
    ensures store_count { length store.new.heads.items ≡ length store.old.heads.items }
    ensures lists_vars { lists.new.vars ≡ lists.old.vars }
    ensures lists_clauses { lists.new.clauses ≡ lists.old.clauses }
    ensures step { let slots = slots_of store.old.lits.items store.old.heads.items in
        let old : State = record { heads = store.old.heads.items; rows = rows_of lists.old.vars lists.old.lists.items; trail = trail.old.lits } in
        let new : State = record { heads = store.new.heads.items; rows = rows_of lists.new.vars lists.new.lists.items; trail = trail.new.lits } in
        IsFiled slots old (rows_of pairs.now.vars pairs.now.lists.items) → AllKept (take from old.trail) old.trail slots old.heads
        → Walks slots (rows_of pairs.now.vars pairs.now.lists.items) old new × EndFits new.trail slots new result }
{
    let mut head = from;
    while head < trail.len() {
        let falsified = trail.get(head).negate();
        let stop = visit_literal(store, lists, pairs, trail, falsified);
        if stop.is_some() {
            return stop;
        }
        head += 1;
    }
    None
}

// Propagates from a place of the trail on. Returns the falsified clause, if there is one. If memory runs out, the trail is cut
// to that place.
pub(crate) fn propagate_from(
    store: &mut ClauseStore,
    lists: &mut WatchLists,
    pairs: &WatchLists,
    trail: &mut Trail,
    base: usize,
) -> Result<Option<u32>, AllocError>
    requires trail { trail.old.vars ≡ store.old.vars }
    requires lists { lists.old.vars ≡ store.old.vars }
    requires pairs { pairs.now.vars ≡ store.old.vars }
    requires clauses { lists.old.clauses ≡ length store.old.heads.items }
    ensures trail { trail.new.vars ≡ trail.old.vars }
    ensures store_vars { store.new.vars ≡ store.old.vars }
    ensures slots { slots_of store.new.lits.items store.new.heads.items ≡ slots_of store.old.lits.items store.old.heads.items }
    ensures store_count { length store.new.heads.items ≡ length store.old.heads.items }
    ensures lists_vars { lists.new.vars ≡ lists.old.vars }
    ensures lists_clauses { lists.new.clauses ≡ lists.old.clauses }
    ensures step { let slots = slots_of store.old.lits.items store.old.heads.items in
        let old : State = record { heads = store.old.heads.items; rows = rows_of lists.old.vars lists.old.lists.items; trail = trail.old.lits } in
        let new : State = record { heads = store.new.heads.items; rows = rows_of lists.new.vars lists.new.lists.items; trail = trail.new.lits } in
        base ≤ length old.trail → IsFiled slots old (rows_of pairs.now.vars pairs.now.lists.items)
        → AllKept (take base old.trail) old.trail slots old.heads
        → SettleFits slots (rows_of pairs.now.vars pairs.now.lists.items) old new (take base old.trail) result }
{
    match propagate(store, lists, pairs, trail, base) {
        None => Ok(None),
        Some(Stop::Conflict(k)) => Ok(Some(k)),
        Some(Stop::Memory) => {
            trail.cut(base);
            Err(AllocError)
        }
    }
}

// Makes an unassigned literal true, and propagates. Returns the falsified clause, if there is one. If memory runs out, the trail
// is as it was.
pub(crate) fn settle_unit(
    store: &mut ClauseStore,
    lists: &mut WatchLists,
    pairs: &WatchLists,
    trail: &mut Trail,
    l: Lit,
    reason: u32,
) -> Result<Option<u32>, AllocError>
    requires trail { trail.old.vars ≡ store.old.vars }
    requires lists { lists.old.vars ≡ store.old.vars }
    requires pairs { pairs.now.vars ≡ store.old.vars }
    requires clauses { lists.old.clauses ≡ length store.old.heads.items }
    requires below { l.var ≤ store.old.vars }
    requires opened { IsUnassigned trail.old.lits l }
    ensures trail { trail.new.vars ≡ trail.old.vars }
    ensures store_vars { store.new.vars ≡ store.old.vars }
    ensures slots { slots_of store.new.lits.items store.new.heads.items ≡ slots_of store.old.lits.items store.old.heads.items }
    ensures store_count { length store.new.heads.items ≡ length store.old.heads.items }
    ensures lists_vars { lists.new.vars ≡ lists.old.vars }
    ensures lists_clauses { lists.new.clauses ≡ lists.old.clauses }
    ensures step { let slots = slots_of store.old.lits.items store.old.heads.items in
        let old : State = record { heads = store.old.heads.items; rows = rows_of lists.old.vars lists.old.lists.items; trail = trail.old.lits } in
        let new : State = record { heads = store.new.heads.items; rows = rows_of lists.new.vars lists.new.lists.items; trail = trail.new.lits } in
        IsFiled slots old (rows_of pairs.now.vars pairs.now.lists.items) → AllKept old.trail (old.trail ++ l ∷ []) slots old.heads
        → SettleFits slots (rows_of pairs.now.vars pairs.now.lists.items) (record old { trail = old.trail ++ l ∷ [] }) new old.trail result }
{
    let base = trail.len();
    trail.assign(l, reason)?;
    propagate_from(store, lists, pairs, trail, base)
}
