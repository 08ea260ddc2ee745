// Clauses are stored and entered in watch lists, and removed.

ghost use Rattle.std.specs.Prelude.{ℕ, ◌≡◌, ◌≢◌, ◌⊎◌, ◌+◌, ◌<◌, ◌≤◌, ◌++◌, ◌∷◌, [], true, false, List, Option, length, Contains, All, OnOk, OnErr, IsTrue, Some, None, slice_index_or, slice_set};
ghost use Rattle.cnf_form.specs.Cnf.{LitOf};
ghost use Rattle.unit_propagation.specs.Marks.{IsBelow};
ghost use Rattle.unit_propagation.specs.Propagator.{slot_at, Same};
ghost use Rattle.unit_propagation.specs.Watch.{slots_of, rows_of, row, Enters, Sweeps};
ghost use Rattle.unit_propagation.specs.Visit.{State, IsKept, AllKept, IsFiled, IsFiledBut};
ghost use Rattle.unit_propagation.specs.declared.watch.Head.{Head};
ghost use Rattle.unit_propagation.specs.declared.watch.Watch.{Watch};

use crate::lists::WatchLists;
use crate::store::ClauseStore;
use crate::watch::Head;
use cnf_form::Lit;
use std::alloc::AllocError;

// A clause of two literals was removed: its entry in the list of one of them is swept out where half of the list is such entries.
fn leave_list(store: &ClauseStore, pairs: &mut WatchLists, l: Lit)
    requires lit { l.var ≤ pairs.old.vars }
    ensures vars { pairs.new.vars ≡ pairs.old.vars }
    ensures clauses { pairs.new.clauses ≡ pairs.old.clauses }
    ensures sweeps { Sweeps (slots_of store.now.lits.items store.now.heads.items) (rows_of pairs.old.vars pairs.old.lists.items)
        (rows_of pairs.new.vars pairs.new.lists.items) }
{
    if pairs.count_stale(l) {
        pairs.sweep(l, store);
    }
}

// Sweeps the lists of both literals that a removed clause of this size watched, if it is one of two literals.
fn leave_pair(store: &ClauseStore, pairs: &mut WatchLists, size: u32, left: Lit, right: Lit)
    requires left { left ≢ right → left.var ≤ pairs.old.vars }
    requires right { left ≢ right → right.var ≤ pairs.old.vars }
    ensures vars { pairs.new.vars ≡ pairs.old.vars }
    ensures clauses { pairs.new.clauses ≡ pairs.old.clauses }
    ensures sweeps { Sweeps (slots_of store.now.lits.items store.now.heads.items) (rows_of pairs.old.vars pairs.old.lists.items)
        (rows_of pairs.new.vars pairs.new.lists.items) }
{
    if size == 2 && left != right {
        leave_list(store, pairs, left);
        leave_list(store, pairs, right);
    }
}

// Removes a clause: it watches nothing. Its entries stay in lists until those are visited, or half of a list is such entries.
pub(crate) fn remove_clause(store: &mut ClauseStore, pairs: &mut WatchLists, k: u32)
    requires vars { pairs.old.vars ≡ store.old.vars }
    requires clause { k < length store.old.heads.items }
    ensures store_vars { store.new.vars ≡ store.old.vars }
    ensures store_count { length store.new.heads.items ≡ length store.old.heads.items }
    ensures pairs_vars { pairs.new.vars ≡ pairs.old.vars }
    ensures pairs_clauses { pairs.new.clauses ≡ pairs.old.clauses }
    ensures slots { slots_of store.new.lits.items store.new.heads.items
        ≡ slice_set (slots_of store.old.lits.items store.old.heads.items) k None }
    ensures filed { (rows : List (List Watch)) (t : List LitOf)
        → let old : State = record { heads = store.old.heads.items; rows = rows; trail = t } in
        let new : State = record { heads = store.new.heads.items; rows = rows; trail = t } in
        IsFiledBut k (slots_of store.old.lits.items store.old.heads.items) old (rows_of pairs.old.vars pairs.old.lists.items)
        → IsFiled (slots_of store.new.lits.items store.new.heads.items) new (rows_of pairs.new.vars pairs.new.lists.items) }
    ensures kept { (p t : List LitOf)
        → ((j : ℕ) (d : Head) → j < length store.old.heads.items → j ≢ k
        → IsKept p t (slot_at (slots_of store.old.lits.items store.old.heads.items) j) (slice_index_or store.old.heads.items j d))
        → AllKept p t (slots_of store.new.lits.items store.new.heads.items) store.new.heads.items }
{
    let Head {
        start,
        left,
        right,
        ..
    } = store.head(k);
    let size = store.end(k) - start;
    store.forget(k);
    leave_pair(store, pairs, size, left, right);
}

// Enters a clause in the lists of pairs, if it is one, or else in those of longer clauses.
fn enter_clause(
    lists: &mut WatchLists,
    pairs: &mut WatchLists,
    short: bool,
    k: u32,
    left: Lit,
    right: Lit,
) -> Result<(), AllocError>
    requires lists_clause { k < lists.old.clauses }
    requires pairs_clause { k < pairs.old.clauses }
    requires vars { pairs.old.vars ≡ lists.old.vars }
    requires left { left.var ≤ lists.old.vars }
    requires right { right.var ≤ lists.old.vars }
    ensures lists_vars { lists.new.vars ≡ lists.old.vars }
    ensures lists_clauses { lists.new.clauses ≡ lists.old.clauses }
    ensures pairs_vars { pairs.new.vars ≡ pairs.old.vars }
    ensures pairs_clauses { pairs.new.clauses ≡ pairs.old.clauses }
    ensures rows { Enters (rows_of lists.old.vars lists.old.lists.items) (rows_of lists.new.vars lists.new.lists.items) k left right }
    ensures pairs { Enters (rows_of pairs.old.vars pairs.old.lists.items) (rows_of pairs.new.vars pairs.new.lists.items) k left right }
    ensures same_rows { IsTrue short → rows_of lists.new.vars lists.new.lists.items ≡ rows_of lists.old.vars lists.old.lists.items }
    ensures same_pairs { short ≡ false → rows_of pairs.new.vars pairs.new.lists.items ≡ rows_of pairs.old.vars pairs.old.lists.items }
    ensures long { OnOk result (short ≡ false
        → Contains (row (rows_of lists.new.vars lists.new.lists.items) left) (record { clause = k; blocker = right })
        × Contains (row (rows_of lists.new.vars lists.new.lists.items) right) (record { clause = k; blocker = left })) }
    ensures two { OnOk result (IsTrue short
        → Contains (row (rows_of pairs.new.vars pairs.new.lists.items) left) (record { clause = k; blocker = right })
        × Contains (row (rows_of pairs.new.vars pairs.new.lists.items) right) (record { clause = k; blocker = left })) }
{
    if short {
        pairs.enter(k, left, right)?;
    } else {
        lists.enter(k, left, right)?;
    }
    Ok(())
}

// Stores a clause that watches two of its literals, or nothing where they are the same.
pub(crate) fn file_clause(
    store: &mut ClauseStore,
    lists: &mut WatchLists,
    pairs: &mut WatchLists,
    clause: &[Lit],
    left: Lit,
    right: Lit,
) -> Result<(), AllocError>
    requires lists { lists.old.vars ≡ store.old.vars }
    requires pairs { pairs.old.vars ≡ store.old.vars }
    requires lists_clauses { lists.old.clauses ≡ length store.old.heads.items }
    requires pairs_clauses { pairs.old.clauses ≡ length store.old.heads.items }
    requires below { All (IsBelow store.old.vars) clause.now }
    requires left { left ≢ right → Contains clause.now left }
    requires right { left ≢ right → Contains clause.now right }
    ensures store_vars { store.new.vars ≡ store.old.vars }
    ensures lists_vars { lists.new.vars ≡ lists.old.vars }
    ensures pairs_vars { pairs.new.vars ≡ pairs.old.vars }
    ensures lists_clauses { lists.new.clauses ≡ length store.new.heads.items }
    ensures pairs_clauses { pairs.new.clauses ≡ length store.new.heads.items }
    ensures filed { (t : List LitOf)
        → IsFiled (slots_of store.old.lits.items store.old.heads.items)
        (record { heads = store.old.heads.items; rows = rows_of lists.old.vars lists.old.lists.items; trail = t }) (rows_of pairs.old.vars pairs.old.lists.items)
        → IsFiled (slots_of store.new.lits.items store.new.heads.items)
        (record { heads = store.new.heads.items; rows = rows_of lists.new.vars lists.new.lists.items; trail = t }) (rows_of pairs.new.vars pairs.new.lists.items) }
    ensures slots { OnOk result (slots_of store.new.lits.items store.new.heads.items
        ≡ slots_of store.old.lits.items store.old.heads.items ++ Some clause.now ∷ []) }
    ensures heads { OnOk result ((h : Head) × (store.new.heads.items ≡ store.old.heads.items ++ h ∷ []) × (h.left ≡ left)
        × (h.right ≡ right)) }
    ensures err { OnErr result (Same (slots_of store.old.lits.items store.old.heads.items) (slots_of store.new.lits.items store.new.heads.items)) }
    ensures err_kept { OnErr result ((p t : List LitOf)
        → AllKept p t (slots_of store.old.lits.items store.old.heads.items) store.old.heads.items
        → AllKept p t (slots_of store.new.lits.items store.new.heads.items) store.new.heads.items) }
{
    store.push(clause, left, right)?;
    lists.raise();
    pairs.raise();
    if left == right {
        return Ok(());
    }
    let k = (store.len() - 1) as u32;
    if enter_clause(lists, pairs, clause.len() == 2, k, left, right).is_err() {
        remove_clause(store, pairs, k);
        return Err(AllocError);
    }
    Ok(())
}
