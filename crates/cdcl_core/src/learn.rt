// The clause that is learnt from a conflict, and what follows from it.

ghost use Rattle.std.specs.Prelude.{◌≡◌, ◌≢◌, ◌<◌, ◌≤◌, ◌++◌, ◌∷◌, [], ℕ, false, List, length, take, Contains, IsTrue, IfOk, IfSome, OnOk, Some};
ghost use Rattle.cnf_form.specs.Cnf.{LitOf, negate, ClauseWithin};
ghost use Rattle.cdcl_core.specs.Levels.{IsJustified, IsPending, base_of};
ghost use Rattle.cdcl_core.specs.Analysis.{IsLearnt, IsLastOf, ComesLast};
ghost use Rattle.cdcl_core.specs.Searching.{IsPlaced};

use crate::load::add_at_root;
use cnf_form::Lit;
use decision_order::Order;
use std::alloc::AllocError;
use unit_propagation::Propagator;

// Learns the negations of all that was true when the last level was decided. Returns the clause's first literal.
pub(crate) fn negate_trail(
    core: &Propagator,
    k: u32,
    base: usize,
    clause: &mut Vec<Lit>,
) -> Result<Lit, AllocError>
    requires justified { IsJustified core.now }
    requires levels { 0 < length core.now.limits }
    requires base { base ≡ base_of core.now }
    requires conflict { IsPending core.now (Some k) }
    ensures { IfOk result (λ first. IsLearnt core.now base clause.new.items first) }
{
    let trail = core.trail();
    let _limit = core.vars();
    clause.clear();
    for place in 0..base {
        clause.push(trail[place].negate())?;
    }
    let first = trail[base].negate();
    clause.push(first)?;
    Ok(first)
}

// Whether a literal became false before another one.
fn is_before(core: &Propagator, a: Lit, b: Lit) -> bool
    requires a_below { a.var ≤ core.now.vars }
    requires b_below { b.var ≤ core.now.vars }
    requires a_false { Contains core.now.trail (negate a) }
    requires b_false { Contains core.now.trail (negate b) }
    ensures yes { IsTrue result → (n : ℕ) → Contains (take n core.now.trail) (negate b) → Contains (take n core.now.trail) (negate a) }
    ensures no { result ≡ false → (n : ℕ) → Contains (take n core.now.trail) (negate a) → Contains (take n core.now.trail) (negate b) }
{
    let a_place = core.place(a.negate());
    let b_place = core.place(b.negate());
    if a_place < b_place {
        return true;
    }
    false
}

// Of the last false literal so far and `m`, returns the one that became false later.
fn later(core: &Propagator, first: Lit, last: Option<Lit>, m: Lit) -> Option<Lit>
    requires below { m.var ≤ core.now.vars }
    requires false_now { m ≢ first → Contains core.now.trail (negate m) }
    requires last { IfSome last (λ s. (s.var ≤ core.now.vars) × Contains core.now.trail (negate s)) }
    ensures last { IfSome result (λ s. (s.var ≤ core.now.vars) × Contains core.now.trail (negate s)) }
    ensures step { (c : List LitOf) → IsLastOf core.now.trail first c last → IsLastOf core.now.trail first (c ++ m ∷ []) result }
{
    if m == first {
        return last;
    }
    let Some(s) = last else {
        return Some(m);
    };
    if is_before(core, s, m) {
        return Some(m);
    }
    Some(s)
}

// Of the literals of a clause but `first`, returns the one that became false last.
fn last_false(core: &Propagator, clause: &[Lit], first: Lit) -> Option<Lit>
    requires within { ClauseWithin core.now.vars clause.now }
    requires others { (m : LitOf) → Contains clause.now m → m ≢ first → Contains core.now.trail (negate m) }
    ensures { IsLastOf core.now.trail first clause.now result }
{
    let mut last = None;
    for m in clause {
        last = later(core, first, last, *m);
    }
    last
}

// Tells the order that the variables from a place of the trail on will be unassigned.
fn unassign_from(core: &Propagator, order: &mut Order, place: usize) -> Result<(), AllocError> {
    let trail = core.trail();
    for place in place..trail.len() {
        order.unassign(trail[place].var(), trail[place].is_negated())?;
    }
    Ok(())
}

// Backtracks to a level from one above it, after a conflict too.
pub(crate) fn backtrack_to(
    core: &mut Propagator,
    order: &mut Order,
    level: usize,
) -> Result<(), AllocError>
    requires justified { IsJustified core.old }
    requires above { level < length core.old.limits }
    ensures vars { core.new.vars ≡ core.old.vars }
    ensures slots { core.new.slots ≡ core.old.slots }
    ensures limits { OnOk result (core.new.limits ≡ take level core.old.limits) }
    ensures justified { IsJustified core.new }
    ensures conflict { OnOk result (core.new.conflict ≡ false) }
    ensures same { core.old.conflict ≡ false → core.new.conflict ≡ false }
{
    core.levels_are_complete();
    unassign_from(core, order, core.limit(level))?;
    core.backtrack(level);
    Ok(())
}

// Backtracks to level 0 from a level above it, after a conflict too.
pub(crate) fn backtrack_to_root(core: &mut Propagator, order: &mut Order) -> Result<(), AllocError>
    requires justified { IsJustified core.old }
    requires levels { 0 < length core.old.limits }
    ensures vars { core.new.vars ≡ core.old.vars }
    ensures slots { core.new.slots ≡ core.old.slots }
    ensures level { OnOk result (core.new.limits ≡ []) }
    ensures justified { IsJustified core.new }
    ensures conflict { OnOk result (core.new.conflict ≡ false) }
    ensures same { core.old.conflict ≡ false → core.new.conflict ≡ false }
{
    backtrack_to(core, order, 0)
}

// Backtracks to level 0, where no clause is falsified.
pub(crate) fn restart(core: &mut Propagator, order: &mut Order) -> Result<(), AllocError>
    requires justified { IsJustified core.old }
    requires conflict { core.old.conflict ≡ false }
    ensures vars { core.new.vars ≡ core.old.vars }
    ensures slots { core.new.slots ≡ core.old.slots }
    ensures level { OnOk result (core.new.limits ≡ []) }
    ensures justified { IsJustified core.new }
    ensures conflict { core.new.conflict ≡ false }
{
    if core.levels() == 0 {
        return Ok(());
    }
    backtrack_to_root(core, order)
}

// Backtracks to the lowest level on which all literals of a learnt clause but its first are false, adds it, and makes the first
// true. Returns the falsified clause, if there is one above level 0.
pub(crate) fn assert_learnt(
    core: &mut Propagator,
    order: &mut Order,
    clause: &[Lit],
    first: Lit,
) -> Result<Option<u32>, AllocError>
    requires justified { IsJustified core.old }
    requires levels { 0 < length core.old.limits }
    requires learnt { IsLearnt core.old (base_of core.old) clause.now first }
    ensures vars { OnOk result (core.new.vars ≡ core.old.vars) }
    ensures slots { OnOk result (core.new.slots ≡ core.old.slots ++ Some clause.now ∷ []) }
    ensures justified { OnOk result (IsJustified core.new) }
    ensures pending { IfOk result (λ o. IsPending core.new o) }
{
    match last_false(core, clause, first) {
        None => {
            backtrack_to_root(core, order)?;
            add_at_root(core, clause)?;
            Ok(None)
        }
        Some(second) => backtrack_and_assert(core, order, clause, first, second),
    }
}

// Asserts a learnt clause of two literals or more.
fn backtrack_and_assert(
    core: &mut Propagator,
    order: &mut Order,
    clause: &[Lit],
    first: Lit,
    second: Lit,
) -> Result<Option<u32>, AllocError>
    requires justified { IsJustified core.old }
    requires levels { 0 < length core.old.limits }
    requires learnt { IsLearnt core.old (base_of core.old) clause.now first }
    requires last { ComesLast core.old.trail first clause.now second }
    ensures vars { core.new.vars ≡ core.old.vars }
    ensures slots { OnOk result (core.new.slots ≡ core.old.slots ++ Some clause.now ∷ []) }
    ensures justified { OnOk result (IsJustified core.new) }
    ensures pending { IfOk result (λ o. IsPending core.new o) }
{
    core.levels_are_complete();
    let place = core.place(second.negate());
    let level = core.level_of(place);
    unassign_from(core, order, core.limit(level))?;
    core.backtrack(level);
    core.levels_are_complete();
    let falsified = core.assert_clause(clause, first, second)?;
    core.clauses_are_within();
    Ok(falsified)
}

// Adds a clause: at level 0, or where it makes this literal true. Returns the falsified clause, if there is one above level 0.
pub(crate) fn add_at(
    core: &mut Propagator,
    order: &mut Order,
    clause: &[Lit],
    first: Option<Lit>,
) -> Result<Option<u32>, AllocError>
    requires justified { IsJustified core.old }
    requires placed { IsPlaced core.old clause.now first }
    ensures vars { OnOk result (core.new.vars ≡ core.old.vars) }
    ensures slots { OnOk result (core.new.slots ≡ core.old.slots ++ Some clause.now ∷ []) }
    ensures justified { OnOk result (IsJustified core.new) }
    ensures pending { IfOk result (λ o. IsPending core.new o) }
{
    match first {
        Some(first) => assert_learnt(core, order, clause, first),
        None => {
            add_at_root(core, clause)?;
            Ok(None)
        }
    }
}
