// Which clause has only marked literals.

ghost use Rattle.std.specs.Prelude.{ℕ, ◌≡◌, ◌⊎◌, ◌↔◌, ◌<◌, true, List, length, All, Contains, IsTrue, IfSome, IfNone, Some};
ghost use Rattle.cnf_form.specs.Cnf.{LitOf};
ghost use Rattle.unit_propagation.specs.Marks.{is_marked};
ghost use Rattle.unit_propagation.specs.Propagator.{slot_at};
ghost use Rattle.frozen_clauses.specs.Inside.{slots_of, rows_of, row, HasPlace, EntryFits, IsCovered};
ghost use Rattle.frozen_clauses.specs.declared.entry.Entry.{Entry};
ghost use Rattle.frozen_clauses.specs.declared.entry.TheConstants.{LISTS};

use crate::entry::{Entry, LISTS};
use cnf_form::Lit;

// Marks the literals of a clause.
pub(crate) fn mark(marks: &mut [bool], clause: &[Lit])
    requires { All (HasPlace (length marks.old)) clause.now }
    ensures on { (l : LitOf) → Contains clause.now l → is_marked marks.new l ≡ true }
    ensures only { (l : LitOf) → is_marked marks.new l ≡ true → is_marked marks.old l ≡ true ⊎ Contains clause.now l }
{
    for l in clause {
        marks[l.index()] = true;
    }
}

// Takes back the marks of the literals of a clause.
pub(crate) fn unmark(marks: &mut [bool], clause: &[Lit])
    requires { All (HasPlace (length marks.old)) clause.now }
    ensures { (l : LitOf) → is_marked marks.new l ≡ true → is_marked marks.old l ≡ true × (Contains clause.now l → ⊥) }
{
    for l in clause {
        marks[l.index()] = false;
    }
}

// Whether all literals are marked.
fn are_marked(lits: &[Lit], marks: &[bool]) -> bool
    requires { All (HasPlace (length marks.now)) lits.now }
    ensures { IsTrue result ↔ ((l : LitOf) → Contains lits.now l → is_marked marks.now l ≡ true) }
{
    for l in lits {
        if !marks[l.index()] {
            return false;
        }
    }
    true
}

// Whether a clause wasn't removed and all its literals are marked. It is called seldom, so it stays out of the loop that calls it.
#[inline(never)]
fn is_covered(clauses: &[Option<Vec<Lit>>], k: u32, marks: &[bool]) -> bool
    requires number { k < length clauses.now }
    requires places { (j : ℕ) (c : List LitOf) → slot_at (slots_of clauses.now) j ≡ Some c → All (HasPlace (length marks.now)) c }
    ensures { IsTrue result ↔ IsCovered marks.now (slots_of clauses.now) k }
{
    match &clauses[k as usize] {
        Some(clause) => are_marked(clause.as_slice(), marks),
        None => false,
    }
}

// The number of a clause in this list all of whose literals are marked, if there is one.
fn find_in_list(list: &[Entry], clauses: &[Option<Vec<Lit>>], marks: &[bool]) -> Option<u32>
    requires entries { All (EntryFits (length clauses.now) (length marks.now)) list.now }
    requires places { (j : ℕ) (c : List LitOf) → slot_at (slots_of clauses.now) j ≡ Some c → All (HasPlace (length marks.now)) c }
    ensures some { IfSome result (λ k. IsCovered marks.now (slots_of clauses.now) k) }
    ensures none { IfNone result ((e : Entry) → Contains list.now e → is_marked marks.now e.second ≡ true
        → is_marked marks.now e.third ≡ true → IsCovered marks.now (slots_of clauses.now) e.clause → ⊥) }
{
    for e in list {
        // For almost all entries one of the two isn't marked: `&` tells with one branch, where `&&` has two.
        if marks[e.second.index()] & marks[e.third.index()] {
            if is_covered(clauses, e.clause, marks) {
                return Some(e.clause);
            }
        }
    }
    None
}

// The number of a clause in the lists of these literals all of whose literals are marked, if there is one.
pub(crate) fn find(
    lits: &[Lit],
    lists: &[Vec<Entry>],
    clauses: &[Option<Vec<Lit>>],
    marks: &[bool],
) -> Option<u32>
    requires lists { length lists.now ≡ LISTS }
    requires entries { (l : LitOf) (e : Entry) → Contains (row (rows_of lists.now) l) e
        → EntryFits (length clauses.now) (length marks.now) e }
    requires places { (j : ℕ) (c : List LitOf) → slot_at (slots_of clauses.now) j ≡ Some c → All (HasPlace (length marks.now)) c }
    ensures some { IfSome result (λ k. IsCovered marks.now (slots_of clauses.now) k) }
    ensures none { IfNone result ((l : LitOf) (e : Entry) → Contains lits.now l → Contains (row (rows_of lists.now) l) e
        → is_marked marks.now e.second ≡ true → is_marked marks.now e.third ≡ true
        → IsCovered marks.now (slots_of clauses.now) e.clause → ⊥) }
{
    for l in lits {
        let list = &lists[l.index() % LISTS];
        if let Some(k) = find_in_list(list.as_slice(), clauses, marks) {
            return Some(k);
        }
    }
    None
}
