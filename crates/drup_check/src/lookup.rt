// The search for a copy of a clause.

ghost use Rattle.std.specs.Prelude.{◌≡◌, ◌↔◌, ℕ, ◌+◌, ◌*◌, ◌<◌, ◌≤◌, [], List, length, IsTrue, IfOk, IfSome, IfNone, Some, None, Contains, true};
ghost use Rattle.cnf_form.specs.Cnf.{LitOf, SameClause};
ghost use Rattle.unit_propagation.specs.Marks.{Shows};
ghost use Rattle.unit_propagation.specs.Propagator.{clauses_of, slot_at};
ghost use Rattle.drup_check.specs.Inside.{IsFree, IsFiled, Keeps};
ghost use Rattle.drup_check.specs.Copies.{after, beginning};
ghost use Rattle.drup_check.specs.Marks.{Weighs};

use crate::copies::Copies;
use crate::marks::{has_places, is_same, mark_all, unmark_all, weigh};
use cnf_form::Lit;
use std::alloc::{AllocError, Global};
use unit_propagation::Propagator;

// How many literals the clause with a number has: 0 where it isn't present.
pub(crate) fn literals(core: &Propagator, k: u32) -> usize {
    if k as usize >= core.len() {
        return 0;
    }
    core.clause(k).map_or(0, |clause| clause.len())
}

// Whether the clause with a number is the same set.
fn is_copy(
    core: &Propagator,
    k: u32,
    clause: &[Lit],
    weight: u64,
    marks: &[bool],
    other: &mut [bool],
    salt: u64,
) -> bool
    requires shows { Shows marks.now clause.now }
    requires weighs { Weighs salt clause.now weight }
    requires free { IsFree (clauses_of core.now.slots) other.old }
    ensures free { IsFree (clauses_of core.now.slots) other.new }
    ensures yes { IsTrue result → (d : List LitOf) × (slot_at core.now.slots k ≡ Some d) × SameClause clause.now d }
    ensures no { (d : List LitOf) → slot_at core.now.slots k ≡ Some d → SameClause clause.now d → IsTrue result }
{
    if k as usize >= core.len() {
        return false;
    }
    match core.clause(k) {
        Some(d) => is_same(clause, marks, weight, d, other, salt),
        None => false,
    }
}

// Whether no clause with a number is present.
fn is_gone(core: &Propagator, k: u32) -> bool
    ensures gone { result ≡ true → slot_at core.now.slots k ≡ None }
{
    if k as usize >= core.len() {
        return true;
    }
    core.clause(k).is_none()
}

// The number of a copy among the clauses of a weight's chain. Each deleted clause that the search meets is taken off the chain, so that
// no later one meets it.
fn find(
    core: &Propagator,
    copies: &mut Copies,
    weight: u64,
    clause: &[Lit],
    marks: &[bool],
    other: &mut [bool],
    salt: u64,
) -> Option<u32>
    requires shows { Shows marks.now clause.now }
    requires weighs { Weighs salt clause.now weight }
    requires free { IsFree (clauses_of core.now.slots) other.old }
    ensures free { IsFree (clauses_of core.now.slots) other.new }
    ensures keeps { Keeps core.now.slots copies.old copies.new }
    ensures found { IfSome result (λ k. (d : List LitOf) × (slot_at core.now.slots k ≡ Some d) × SameClause clause.now d) }
    ensures none { IfNone result ((n k : ℕ) (d : List LitOf) → after copies.old.nexts (beginning copies.old.firsts weight) n ≡ k + 1
        → slot_at core.now.slots k ≡ Some d → SameClause clause.now d → ⊥) }
{
    let mut before = None;
    let mut at = copies.first(weight);
    while at != 0 {
        let k = at - 1;
        at = copies.next(k);
        if is_gone(core, k) {
            copies.unlink(weight, before, k);
            continue;
        }
        if is_copy(core, k, clause, weight, marks, other, salt) {
            return Some(k);
        }
        copies.pass(literals(core, k));
        before = Some(k);
    }
    None
}

// The number of a copy that is present.
pub(crate) fn find_clause(
    core: &Propagator,
    copies: &mut Copies,
    clause: &[Lit],
    marks: &mut [bool],
    others: &mut [bool],
    salt: u64,
) -> Option<u32>
    requires free { IsFree (clauses_of core.now.slots) marks.old }
    requires others_free { IsFree (clauses_of core.now.slots) others.old }
    ensures free { IsFree (clauses_of core.now.slots) marks.new }
    ensures others_free { IsFree (clauses_of core.now.slots) others.new }
    ensures filed { IsFiled core.now salt copies.old → IsFiled core.now salt copies.new }
    ensures found { IfSome result (λ k. (k < length core.now.slots)
        × ((d : List LitOf) × (slot_at core.now.slots k ≡ Some d) × SameClause clause.now d)) }
    ensures none { IfNone result (IsFiled core.now salt copies.old
        → (d : List LitOf) → Contains (clauses_of core.now.slots) d → SameClause clause.now d → ⊥) }
{
    // Each present clause has places.
    if !has_places(clause, marks) {
        return None;
    }
    let weight = mark_all(clause, marks, salt);
    let found = find(core, copies, weight, clause, marks, others, salt);
    unmark_all(clause, marks);
    found
}

// Files the clauses that are present in chains that are empty.
pub(crate) fn file_present(core: &Propagator, copies: &mut Copies, marks: &mut [bool], salt: u64)
    requires free { IsFree (clauses_of core.now.slots) marks.old }
    requires empty { copies.old.count ≡ 0 }
    requires places { length copies.old.nexts ≡ length core.now.slots }
    ensures free { IsFree (clauses_of core.now.slots) marks.new }
    ensures filed { IsFiled core.now salt copies.new }
{
    for k in 0..core.len() {
        if let Some(clause) = core.clause(k as u32) {
            let weight = weigh(clause, marks, salt);
            copies.enter(weight, k as u32);
        }
    }
}

// The clauses that are present in this many chains.
pub(crate) fn file_all(
    alloc: Global,
    core: &Propagator,
    chains: usize,
    marks: &mut [bool],
    salt: u64,
) -> Result<Copies, AllocError>
    requires chains { 0 < chains }
    requires free { IsFree (clauses_of core.now.slots) marks.old }
    ensures free { IsFree (clauses_of core.now.slots) marks.new }
    ensures filed { IfOk result (λ t. IsFiled core.now salt t) }
{
    let mut copies = Copies::new(alloc, chains, core.len())?;
    file_present(core, &mut copies, marks, salt);
    Ok(copies)
}
