// Visits of the clauses that watch a literal which became false.

ghost use Rattle.std.specs.Prelude.{ℕ, ◌≡◌, ◌≢◌, ◌⊎◌, ◌+◌, ◌*◌, ◌<◌, ◌≤◌, List, length, Contains, All, IfOk, IfSome, IfNone, Some, None, slice_index_or, slice_range};
ghost use Rattle.cnf_form.specs.Cnf.{LitOf, negate};
ghost use Rattle.unit_propagation.specs.Marks.{IsBelow, Shows};
ghost use Rattle.unit_propagation.specs.Watch.{HeadFits, WatchFits, Watches, IsStale, end_of, slots_of, rows_of};
ghost use Rattle.unit_propagation.specs.Visit.{VisitFits, VisitedFits, State, watched_of, IsVisited, IsPending, StopFits};
ghost use Rattle.unit_propagation.specs.Propagation.{IsFalsifiedBut};
ghost use Rattle.unit_propagation.specs.Propagator.{slot_at};
ghost use Rattle.unit_propagation.specs.declared.watch.Head.{Head};

use crate::lists::WatchLists;
use crate::store::ClauseStore;
use crate::trail::{Trail, is_marked};
use crate::watch::{Head, Watch};
use cnf_form::Lit;

// What is to be done with a clause when a literal is false.
pub(crate) enum Visit {
    Stale,
    Keep(Lit),
    Move(u32, Lit, Lit),
    Assign(Lit),
    Falsify(Lit),
}

// What was done with it: it doesn't watch the literal, now or any more, or watches it still beside another one.
pub(crate) enum Visited {
    Left,
    Moved(Lit, Lit),
    Satisfied(Lit),
    Assigned(Lit),
    Falsified(Lit),
    NoMemory(Lit),
}

// Why propagation stopped: a clause is falsified, or memory ran out.
#[derive(Clone, Copy)]
pub(crate) enum Stop {
    Conflict(u32),
    Memory,
}

// How many entries of a list were kept so far, and why its visit stopped, if it did.
#[derive(Clone, Copy)]
pub(crate) struct Visits {
    pub kept: usize,
    pub stop: Option<Stop>,
}

// The index of the first literal other than this one that isn't false.
#[inline(always)]
fn index_of_unfalsified(clause: &[Lit], other: Lit, marks: &[bool]) -> Option<usize>
    ensures within { IfSome result (λ k. k < length clause.now) }
    ensures found { (t : List LitOf) → Shows marks.now t → IfSome result (λ k. (d : LitOf)
        → (slice_index_or clause.now k d ≢ other) × (Contains t (negate (slice_index_or clause.now k d)) → ⊥)) }
    ensures none { (t : List LitOf) → Shows marks.now t → IfNone result (IsFalsifiedBut t clause.now other) }
{
    for k in 0..clause.len() {
        let m = clause[k];
        if !is_marked(marks, m.negate()) {
            if m != other {
                return Some(k);
            }
        }
    }
    None
}

// The index of a literal other than this one that isn't false: the first one from an index on, else the first one before it.
#[inline(always)]
fn find_unfalsified(clause: &[Lit], from: usize, other: Lit, marks: &[bool]) -> Option<usize>
    requires from { from ≤ length clause.now }
    ensures within { IfSome result (λ k. k < length clause.now) }
    ensures found { (t : List LitOf) → Shows marks.now t → IfSome result (λ k. (d : LitOf)
        → (slice_index_or clause.now k d ≢ other) × (Contains t (negate (slice_index_or clause.now k d)) → ⊥)) }
    ensures none { (t : List LitOf) → Shows marks.now t → IfNone result (IsFalsifiedBut t clause.now other) }
{
    match index_of_unfalsified(&clause[from..], other, marks) {
        Some(k) => Some(from + k),
        None => index_of_unfalsified(&clause[..from], other, marks),
    }
}

// The other literal that a clause watches, if it watches this one.
#[inline(always)]
fn other_watch(left: Lit, right: Lit, l: Lit) -> Option<Lit>
    ensures some { IfSome result (λ other. (((left ≡ l) × (right ≡ other)) ⊎ ((right ≡ l) × (left ≡ other))) × (left ≢ right)) }
    ensures none { IfNone result ((left ≡ right) ⊎ ((left ≢ l) × (right ≢ l))) }
{
    // Which side it is can't be foreseen: two moves without a branch.
    let (this, other) = if left == l {
        (left, right)
    } else {
        (right, left)
    };
    if this != l {
        None
    } else if this == other {
        None
    } else {
        Some(other)
    }
}

// What is to be done with a clause when a literal is false.
#[inline(always)]
fn look_at(store: &ClauseStore, k: u32, head: Head, trail: &Trail, falsified: Lit) -> Visit
    requires trail { trail.now.vars ≡ store.now.vars }
    requires head { HeadFits trail.now.vars (end_of (length store.now.lits.items) store.now.heads.items k) head }
    ensures { let end = end_of (length store.now.lits.items) store.now.heads.items k in
        VisitFits trail.now.lits (slice_range store.now.lits.items head.start end) end head falsified result }
{
    let Some(other) = other_watch(head.left, head.right, falsified) else {
        return Visit::Stale;
    };
    let marks = trail.marks();
    if is_marked(marks, other) {
        return Visit::Keep(other);
    }
    let lits = store.lits();
    let end = store.end(k);
    let clause = &lits[head.start as usize..end as usize];
    match find_unfalsified(clause, (head.from - head.start) as usize, other, marks) {
        // The next search begins after the new watch.
        Some(k) => Visit::Move(head.start + k as u32 + 1, clause[k], other),
        None => {
            if is_marked(marks, other.negate()) {
                Visit::Falsify(other)
            } else {
                Visit::Assign(other)
            }
        }
    }
}

// Gives a clause that watches a false literal what it needs: another watch, or a true literal.
#[inline(always)]
fn visit_clause(
    store: &mut ClauseStore,
    lists: &mut WatchLists,
    trail: &mut Trail,
    clause: u32,
    falsified: Lit,
) -> Visited
    requires trail { trail.old.vars ≡ store.old.vars }
    requires lists { lists.old.vars ≡ store.old.vars }
    requires clauses { lists.old.clauses ≡ length store.old.heads.items }
    requires clause { clause < length store.old.heads.items }
    ensures trail { trail.new.vars ≡ trail.old.vars }
    ensures store_vars { store.new.vars ≡ store.old.vars }
    ensures slots { slots_of store.new.lits.items store.new.heads.items ≡ slots_of store.old.lits.items store.old.heads.items }
    ensures store_count { length store.new.heads.items ≡ length store.old.heads.items }
    ensures lists_vars { lists.new.vars ≡ lists.old.vars }
    ensures lists_clauses { lists.new.clauses ≡ lists.old.clauses }
    ensures lists_count { length lists.old.lists.items ≤ length lists.new.lists.items }
    ensures other { IfSome (watched_of result) (λ other. other.var ≤ store.old.vars) }
    ensures gone { slot_at (slots_of store.old.lits.items store.old.heads.items) clause ≡ None
        → (result ≡ Visited.Left) × (store.new.heads ≡ store.old.heads) × (lists.new.lists ≡ lists.old.lists)
        × (trail.new ≡ trail.old) }
    ensures visited { (c : List LitOf) (d : Head) → slot_at (slots_of store.old.lits.items store.old.heads.items) clause ≡ Some c
        → VisitedFits (record { heads = store.old.heads.items; rows = rows_of lists.old.vars lists.old.lists.items; trail = trail.old.lits })
        (record { heads = store.new.heads.items; rows = rows_of lists.new.vars lists.new.lists.items; trail = trail.new.lits })
        c clause (slice_index_or store.old.heads.items clause d) falsified result }
{
    let Head {
        start,
        from,
        left,
        right,
    } = store.head(clause);
    let head = Head {
        start,
        from,
        left,
        right,
    };
    match look_at(store, clause, head, trail, falsified) {
        Visit::Stale => Visited::Left,
        Visit::Keep(other) => Visited::Satisfied(other),
        Visit::Move(from, m, other) => {
            if lists.push(m, clause, other).is_err() {
                return Visited::NoMemory(other);
            }
            let head = Head {
                start,
                from,
                left: other,
                right: m,
            };
            store.watch(clause, head);
            Visited::Moved(other, m)
        }
        Visit::Assign(other) => {
            if trail.assign(other, clause).is_err() {
                return Visited::NoMemory(other);
            }
            Visited::Assigned(other)
        }
        Visit::Falsify(other) => Visited::Falsified(other),
    }
}

// Visits the clause of one entry of a false literal's list, and keeps the entry if the clause watches the literal still.
#[inline(always)]
pub(crate) fn visit_entry(
    store: &mut ClauseStore,
    lists: &mut WatchLists,
    trail: &mut Trail,
    list: &mut [Watch],
    kept: usize,
    k: usize,
    falsified: Lit,
) -> Visits
    requires trail { trail.old.vars ≡ store.old.vars }
    requires lists { lists.old.vars ≡ store.old.vars }
    requires clauses { lists.old.clauses ≡ length store.old.heads.items }
    requires list { All (WatchFits lists.old.vars lists.old.clauses) list.old }
    requires kept { kept ≤ k }
    requires place { k < length list.old }
    ensures trail { trail.new.vars ≡ trail.old.vars }
    ensures store_vars { store.new.vars ≡ store.old.vars }
    ensures slots { slots_of store.new.lits.items store.new.heads.items ≡ slots_of store.old.lits.items store.old.heads.items }
    ensures store_count { length store.new.heads.items ≡ length store.old.heads.items }
    ensures lists_vars { lists.new.vars ≡ lists.old.vars }
    ensures lists_clauses { lists.new.clauses ≡ lists.old.clauses }
    ensures lists_count { length lists.old.lists.items ≤ length lists.new.lists.items }
    ensures list { All (WatchFits lists.old.vars lists.old.clauses) list.new }
    ensures kept { result.kept ≤ k + 1 }
    ensures step { (p : List LitOf) (start : State)
        → let slots = slots_of store.old.lits.items store.old.heads.items in
        let old : State = record { heads = store.old.heads.items; rows = rows_of lists.old.vars lists.old.lists.items; trail = trail.old.lits } in
        let new : State = record { heads = store.new.heads.items; rows = rows_of lists.new.vars lists.new.lists.items; trail = trail.new.lits } in
        IsVisited slots start old falsified list.old kept k → IsPending p falsified slots old list.old k
        → IsVisited slots start new falsified list.new result.kept (k + 1)
        × StopFits p falsified slots new list.new (k + 1) result.stop }
{
    let Watch { clause, blocker } = list[k];
    if trail.is_true(blocker) {
        lists.keep(list, kept, clause, blocker);
        return Visits {
            kept: kept + 1,
            stop: None,
        };
    }
    match visit_clause(store, lists, trail, clause, falsified) {
        Visited::Left => Visits { kept, stop: None },
        Visited::Moved(_, _) => Visits { kept, stop: None },
        Visited::Satisfied(other) => {
            lists.keep(list, kept, clause, other);
            Visits {
                kept: kept + 1,
                stop: None,
            }
        }
        Visited::Assigned(other) => {
            lists.keep(list, kept, clause, other);
            Visits {
                kept: kept + 1,
                stop: None,
            }
        }
        Visited::Falsified(other) => {
            lists.keep(list, kept, clause, other);
            Visits {
                kept: kept + 1,
                stop: Some(Stop::Conflict(clause)),
            }
        }
        Visited::NoMemory(other) => {
            lists.keep(list, kept, clause, other);
            Visits {
                kept: kept + 1,
                stop: Some(Stop::Memory),
            }
        }
    }
}
