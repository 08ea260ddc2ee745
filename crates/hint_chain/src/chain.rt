// The chain of hints for a clause: from the negations of its literals, each hint's clause makes one more literal true, up to one that is
// falsified.

ghost use Rattle.std.specs.Prelude.{◌≡◌, ◌+◌, ◌*◌, ◌<◌, ◌≤◌, ◌^◌, ◌++◌, ◌∷◌, [], true, false, All, Contains, List, Option, Ok, Some, length, map, IfOk, IsTrue, OnOk};
ghost use Rattle.cnf_form.specs.Cnf.{LitOf, negate, ClauseWithin, IsAdmitted};
ghost use Rattle.lrat_check.specs.Marks.{is_marked, HasPlaces, IsConsistent, Marks};
ghost use Rattle.unit_propagation.specs.Propagator.{clauses_of, slot_at};
ghost use Rattle.unit_propagation.specs.Propagation.{IsFixpoint, IsSettled};
ghost use Rattle.hint_chain.specs.Chains.{Ends, Goes, Hints, Reaches};
ghost use Rattle.hint_chain.specs.Standing.{Stands};

use crate::ids::Ids;
use crate::marks::{Marked, Standing};
use cnf_form::Lit;
use std::alloc::{AllocError, Global};
use std::marker::Model;
use unit_propagation::Propagator;

// The most hints that a line may have.
const MAX_HINTS: usize = 1 << 27;

/// The hints of a line, and the room that is needed to find them.
#[derive(Drop)]
pub struct Chain {
    marked: Marked,
    hints: Vec<u64>,
}

impl Model for Chain {
    ghost use Rattle.std.specs.Prelude.{◌≤◌, ◌^◌, ℕ, List, length};
    ghost use Rattle.lrat_check.specs.Marks.{Marks};

    ghost Value = { List ℕ };

    ghost view = { λ c. c.hints.items };

    ghost invariant = { λ c. Marks c.marked.marks.items c.marked.trail.items × (length c.hints.items ≤ 2 ^ 27) };
}

// Adds a hint. An error where a line may have no more, as when memory runs out.
fn push_hint(hints: &mut Vec<u64>, id: u64) -> Result<(), AllocError>
    requires { length hints.old.items ≤ 2 ^ 27 }
    ensures few { length hints.new.items ≤ 2 ^ 27 }
    ensures ok { OnOk result (hints.new.items ≡ hints.old.items ++ id ∷ []) }
{
    if hints.len() >= MAX_HINTS {
        return Err(AllocError);
    }
    hints.push(id)?;
    Ok(())
}

// Makes a literal true if it has a unit clause of its own, unless it or its negation is true.
fn join_fact(ids: &Ids, l: Lit, marked: &mut Marked, hints: &mut Vec<u64>) -> Result<(), AllocError>
    requires marked { Marks marked.old.marks.items marked.old.trail.items }
    requires places { HasPlaces marked.old.marks.items l }
    requires few { length hints.old.items ≤ 2 ^ 27 }
    ensures marked { Marks marked.new.marks.items marked.new.trail.items }
    ensures sized { length marked.new.marks.items ≡ length marked.old.marks.items }
    ensures few { length hints.new.items ≤ 2 ^ 27 }
    ensures goes { OnOk result ((slots : List (Option (List LitOf))) → Goes slots ids.now hints.old.items hints.new.items marked.old.trail.items marked.new.trail.items) }
{
    if marked.has(l) || marked.has(l.negate()) {
        return Ok(());
    }
    let id = ids.fact(l);
    if id == 0 {
        return Ok(());
    }
    push_hint(hints, id)?;
    marked.push(l)
}

// Makes those negations of a clause's literals true that have unit clauses of their own, unless they or their negations are true.
fn join_facts(
    ids: &Ids,
    clause: &[Lit],
    marked: &mut Marked,
    hints: &mut Vec<u64>,
) -> Result<(), AllocError>
    requires marked { Marks marked.old.marks.items marked.old.trail.items }
    requires places { All (HasPlaces marked.old.marks.items) clause.now }
    requires few { length hints.old.items ≤ 2 ^ 27 }
    ensures marked { Marks marked.new.marks.items marked.new.trail.items }
    ensures sized { length marked.new.marks.items ≡ length marked.old.marks.items }
    ensures few { length hints.new.items ≤ 2 ^ 27 }
    ensures goes { OnOk result ((slots : List (Option (List LitOf))) → Goes slots ids.now hints.old.items hints.new.items marked.old.trail.items marked.new.trail.items) }
{
    for l in clause {
        join_fact(ids, l.negate(), marked, hints)?;
    }
    Ok(())
}

// What is left of a clause, where facts count too.
fn standing(
    ids: &Ids,
    clause: &[Lit],
    marked: &mut Marked,
    hints: &mut Vec<u64>,
) -> Result<Standing, AllocError>
    requires marked { Marks marked.old.marks.items marked.old.trail.items }
    requires places { All (HasPlaces marked.old.marks.items) clause.now }
    requires few { length hints.old.items ≤ 2 ^ 27 }
    ensures marked { Marks marked.new.marks.items marked.new.trail.items }
    ensures sized { length marked.new.marks.items ≡ length marked.old.marks.items }
    ensures few { length hints.new.items ≤ 2 ^ 27 }
    ensures goes { OnOk result ((slots : List (Option (List LitOf))) → Goes slots ids.now hints.old.items hints.new.items marked.old.trail.items marked.new.trail.items) }
    ensures stands { IfOk result (λ s. Stands (λ l. is_marked marked.new.marks.items l ≡ true) clause.now s) }
{
    match marked.standing(clause) {
        Standing::Negated => return Ok(Standing::Negated),
        Standing::OneLeft(l) => {
            if ids.fact(l.negate()) == 0 {
                return Ok(Standing::OneLeft(l));
            }
        }
        Standing::MoreLeft => {}
    }
    join_facts(ids, clause, marked, hints)?;
    Ok(marked.standing(clause))
}

// Propagates with one clause. Returns whether it is falsified. It is a hint where it is, or where it makes one more literal true.
fn follow(
    core: &Propagator,
    ids: &Ids,
    k: u32,
    marked: &mut Marked,
    hints: &mut Vec<u64>,
) -> Result<bool, AllocError>
    requires marked { Marks marked.old.marks.items marked.old.trail.items }
    requires places { 2 * core.now.vars + 2 ≤ length marked.old.marks.items }
    requires few { length hints.old.items ≤ 2 ^ 27 }
    ensures marked { Marks marked.new.marks.items marked.new.trail.items }
    ensures sized { length marked.new.marks.items ≡ length marked.old.marks.items }
    ensures few { length hints.new.items ≤ 2 ^ 27 }
    ensures ends { result ≡ Ok true → (start : List LitOf) → Reaches core.now.slots ids.now start hints.old.items marked.old.trail.items
        → Ends core.now.slots ids.now start hints.new.items }
    ensures goes { result ≡ Ok false → Goes core.now.slots ids.now hints.old.items hints.new.items marked.old.trail.items marked.new.trail.items }
    ensures settled { result ≡ Ok false → length marked.new.trail.items ≡ length marked.old.trail.items
        → (c : List LitOf) → slot_at core.now.slots k ≡ Some c → IsSettled marked.new.trail.items c }
{
    if k as usize >= core.len() {
        return Ok(false);
    }
    let Some(clause) = core.clause(k) else {
        return Ok(false);
    };
    match standing(ids, clause, marked, hints)? {
        Standing::Negated => {
            push_hint(hints, ids.watched(k))?;
            Ok(true)
        }
        Standing::OneLeft(l) => {
            if !marked.has(l) {
                push_hint(hints, ids.watched(k))?;
                marked.push(l)?;
            }
            Ok(false)
        }
        Standing::MoreLeft => Ok(false),
    }
}

// Propagates with the clauses that made literals true, in order. Returns whether one is falsified.
fn follow_reasons(
    core: &Propagator,
    ids: &Ids,
    lits: &[Lit],
    marked: &mut Marked,
    hints: &mut Vec<u64>,
) -> Result<bool, AllocError>
    requires marked { Marks marked.old.marks.items marked.old.trail.items }
    requires places { 2 * core.now.vars + 2 ≤ length marked.old.marks.items }
    requires few { length hints.old.items ≤ 2 ^ 27 }
    ensures marked { Marks marked.new.marks.items marked.new.trail.items }
    ensures sized { length marked.new.marks.items ≡ length marked.old.marks.items }
    ensures few { length hints.new.items ≤ 2 ^ 27 }
    ensures ends { result ≡ Ok true → (start : List LitOf) → Reaches core.now.slots ids.now start hints.old.items marked.old.trail.items
        → Ends core.now.slots ids.now start hints.new.items }
    ensures goes { result ≡ Ok false → Goes core.now.slots ids.now hints.old.items hints.new.items marked.old.trail.items marked.new.trail.items }
{
    for l in lits {
        let l = *l;
        if l.var() > core.vars() {
            return Ok(false);
        }
        if follow(core, ids, core.reason(l), marked, hints)? {
            return Ok(true);
        }
    }
    Ok(false)
}

// Propagates with clauses, from the last to the first. Returns whether one is falsified.
fn follow_back(
    core: &Propagator,
    ids: &Ids,
    numbers: &[u32],
    marked: &mut Marked,
    hints: &mut Vec<u64>,
) -> Result<bool, AllocError>
    requires marked { Marks marked.old.marks.items marked.old.trail.items }
    requires places { 2 * core.now.vars + 2 ≤ length marked.old.marks.items }
    requires few { length hints.old.items ≤ 2 ^ 27 }
    ensures marked { Marks marked.new.marks.items marked.new.trail.items }
    ensures sized { length marked.new.marks.items ≡ length marked.old.marks.items }
    ensures few { length hints.new.items ≤ 2 ^ 27 }
    ensures ends { result ≡ Ok true → (start : List LitOf) → Reaches core.now.slots ids.now start hints.old.items marked.old.trail.items
        → Ends core.now.slots ids.now start hints.new.items }
    ensures goes { result ≡ Ok false → Goes core.now.slots ids.now hints.old.items hints.new.items marked.old.trail.items marked.new.trail.items }
{
    for taken in 0..numbers.len() {
        let k = numbers[numbers.len() - 1 - taken];
        if follow(core, ids, k, marked, hints)? {
            return Ok(true);
        }
    }
    Ok(false)
}

// Whether the clauses that made these literals true, in order, and then those with these numbers, from the last to the first, admit the
// clause.
fn follow_order(
    core: &Propagator,
    ids: &Ids,
    clause: &[Lit],
    lits: &[Lit],
    numbers: &[u32],
    marked: &mut Marked,
    hints: &mut Vec<u64>,
) -> Result<bool, AllocError>
    requires marked { Marks marked.old.marks.items marked.old.trail.items }
    requires few { length hints.old.items ≤ 2 ^ 27 }
    requires within { ClauseWithin core.now.vars clause.now }
    ensures marked { Marks marked.new.marks.items marked.new.trail.items }
    ensures few { length hints.new.items ≤ 2 ^ 27 }
    ensures places { result ≡ Ok false → 2 * core.now.vars + 2 ≤ length marked.new.marks.items }
    ensures hints { result ≡ Ok true → Hints core.now.slots ids.now clause.now hints.new.items }
    ensures reaches { result ≡ Ok false → Reaches core.now.slots ids.now (map negate clause.now) hints.new.items marked.new.trail.items }
    ensures starts { result ≡ Ok false → (l : LitOf) → Contains (map negate clause.now) l → Contains marked.new.trail.items l }
    ensures consistent { result ≡ Ok false → IsConsistent marked.new.trail.items }
{
    hints.clear();
    if !marked.begin(core.vars(), clause)? {
        return Ok(true);
    }
    if follow_reasons(core, ids, lits, marked, hints)? {
        return Ok(true);
    }
    follow_back(core, ids, numbers, marked, hints)
}

// Propagates with all clauses, each once. Returns whether one is falsified.
fn follow_all(
    core: &Propagator,
    ids: &Ids,
    marked: &mut Marked,
    hints: &mut Vec<u64>,
) -> Result<bool, AllocError>
    requires marked { Marks marked.old.marks.items marked.old.trail.items }
    requires places { 2 * core.now.vars + 2 ≤ length marked.old.marks.items }
    requires few { length hints.old.items ≤ 2 ^ 27 }
    ensures marked { Marks marked.new.marks.items marked.new.trail.items }
    ensures sized { length marked.new.marks.items ≡ length marked.old.marks.items }
    ensures few { length hints.new.items ≤ 2 ^ 27 }
    ensures ends { result ≡ Ok true → (start : List LitOf) → Reaches core.now.slots ids.now start hints.old.items marked.old.trail.items
        → Ends core.now.slots ids.now start hints.new.items }
    ensures goes { result ≡ Ok false → Goes core.now.slots ids.now hints.old.items hints.new.items marked.old.trail.items marked.new.trail.items }
    ensures fixpoint { result ≡ Ok false → length marked.new.trail.items ≡ length marked.old.trail.items
        → IsFixpoint marked.new.trail.items (clauses_of core.now.slots) }
{
    for k in 0..core.len() {
        if follow(core, ids, k as u32, marked, hints)? {
            return Ok(true);
        }
    }
    Ok(false)
}

// Propagates with all clauses again and again until one is falsified.
fn search(
    core: &Propagator,
    ids: &Ids,
    marked: &mut Marked,
    hints: &mut Vec<u64>,
) -> Result<(), AllocError>
    requires marked { Marks marked.old.marks.items marked.old.trail.items }
    requires places { 2 * core.now.vars + 2 ≤ length marked.old.marks.items }
    requires few { length hints.old.items ≤ 2 ^ 27 }
    requires consistent { IsConsistent marked.old.trail.items }
    requires conflict { (t : List LitOf) → ((l : LitOf) → Contains marked.old.trail.items l → Contains t l) → IsConsistent t → IsFixpoint t (clauses_of core.now.slots) → ⊥ }
    ensures marked { Marks marked.new.marks.items marked.new.trail.items }
    ensures few { length hints.new.items ≤ 2 ^ 27 }
    ensures ends { OnOk result ((start : List LitOf) → Reaches core.now.slots ids.now start hints.old.items marked.old.trail.items
        → Ends core.now.slots ids.now start hints.new.items) }
{
    while marked.trail.len() < marked.marks.len() {
        let before = marked.trail.len();
        if follow_all(core, ids, marked, hints)? {
            return Ok(());
        }
        if marked.trail.len() == before {
            unreachable!();
        }
    }
    // Not all literals are true at the same time, so that it ends before.
    Err(AllocError)
}

impl Chain {
    /// A chain without hints.
    pub fn new(alloc: Global) -> Self
        ensures { result ≡ [] }
    {
        Chain {
            marked: Marked::new(alloc),
            hints: Vec::new(alloc),
        }
    }

    /// The hints.
    pub fn hints(&self) -> &[u64]
        ensures hints { result.now ≡ self.now }
        ensures few { length self.now ≤ 2 ^ 27 }
    {
        &self.hints
    }

    /// Whether the clauses that made these literals true, in order, and then those with these numbers, from the last to the first, admit
    /// the clause. The hints are those of them that are needed, and facts.
    pub fn follow(
        &mut self,
        core: &Propagator,
        ids: &Ids,
        clause: &[Lit],
        lits: &[Lit],
        numbers: &[u32],
    ) -> Result<bool, AllocError>
        requires within { ClauseWithin core.now.vars clause.now }
        ensures hints { result ≡ Ok true → Hints core.now.slots ids.now clause.now self.new }
    {
        follow_order(
            core,
            ids,
            clause,
            lits,
            numbers,
            &mut self.marked,
            &mut self.hints,
        )
    }

    /// Finds hints of a clause that the watched clauses admit: with the given ones where these admit it, else with all.
    pub fn find(
        &mut self,
        core: &Propagator,
        ids: &Ids,
        clause: &[Lit],
        lits: &[Lit],
        numbers: &[u32],
    ) -> Result<(), AllocError>
        requires within { ClauseWithin core.now.vars clause.now }
        requires admitted { IsAdmitted (clauses_of core.now.slots) clause.now }
        ensures hints { OnOk result (Hints core.now.slots ids.now clause.now self.new) }
    {
        if follow_order(
            core,
            ids,
            clause,
            lits,
            numbers,
            &mut self.marked,
            &mut self.hints,
        )? {
            return Ok(());
        }
        search(core, ids, &mut self.marked, &mut self.hints)
    }
}
