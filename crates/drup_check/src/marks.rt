// Sets of literals as tables of marks, which have two places for each variable up to some one.

ghost use Rattle.std.specs.Prelude.{◌≡◌, ◌↔◌, ℕ, ◌+◌, ◌*◌, ◌<◌, ◌≤◌, ◌++◌, [], true, false, length, replicate, All, OnOk, IsTrue, Contains};
ghost use Rattle.cnf_form.specs.Cnf.{LitOf, SameClause};
ghost use Rattle.unit_propagation.specs.Marks.{is_marked, Shows};
ghost use Rattle.drup_check.specs.Marks.{HasPlaces, Weighs, scattered, weight};

use cnf_form::Lit;
use std::alloc::AllocError;

// 2^64 divided by the golden ratio: the first salt, and what each salt is multiplied by to get the next.
pub(crate) const SCATTER: u64 = 0x9e37_79b9_7f4a_7c15;

// What a literal adds to the weight of a set, by its place: never 0, so a smaller set of the same literals weighs less.
#[inline(always)]
fn scattered(place: usize, salt: u64) -> u64
    ensures { result ≡ scattered salt place }
{
    let high = (place as u64).wrapping_mul(salt) / (1 << 32);
    high.wrapping_mul(high) / (1 << 16) % (1 << 32) + 1
}

// Whether a table has places for the literals of a clause.
pub(crate) fn has_places(clause: &[Lit], marks: &[bool]) -> bool
    ensures { IsTrue result ↔ HasPlaces marks.now clause.now }
{
    for l in clause {
        if 2 * l.var() as usize + 1 >= marks.len() {
            return false;
        }
    }
    true
}

// Makes places in a table for a literal.
fn reach_one(marks: &mut Vec<bool>, l: Lit) -> Result<(), AllocError>
    ensures more { (n : ℕ) × (marks.new.items ≡ marks.old.items ++ replicate n false) }
    ensures place { OnOk result (2 * l.var + 1 < length marks.new.items) }
{
    let count = 2 * l.var() as usize + 2;
    if marks.len() < count {
        marks.resize(count, false)?;
    }
    Ok(())
}

// Makes places in a table for the literals of a clause.
fn reach(marks: &mut Vec<bool>, clause: &[Lit]) -> Result<(), AllocError>
    ensures clear { Shows marks.old.items [] → Shows marks.new.items [] }
    ensures longer { length marks.old.items ≤ length marks.new.items }
    ensures places { OnOk result (HasPlaces marks.new.items clause.now) }
{
    for l in clause {
        reach_one(marks, *l)?;
    }
    Ok(())
}

// Makes places in two tables for the literals of a clause.
pub(crate) fn reach_both(
    marks: &mut Vec<bool>,
    others: &mut Vec<bool>,
    clause: &[Lit],
) -> Result<(), AllocError>
    ensures clear { Shows marks.old.items [] → Shows marks.new.items [] }
    ensures others_clear { Shows others.old.items [] → Shows others.new.items [] }
    ensures longer { length marks.old.items ≤ length marks.new.items }
    ensures others_longer { length others.old.items ≤ length others.new.items }
    ensures places { OnOk result (HasPlaces marks.new.items clause.now × HasPlaces others.new.items clause.now) }
{
    reach(marks, clause)?;
    reach(others, clause)
}

// Marks the literals of a clause. Returns what their set weighs.
pub(crate) fn mark_all(clause: &[Lit], marks: &mut [bool], salt: u64) -> u64
    requires places { HasPlaces marks.old clause.now }
    requires clear { Shows marks.old [] }
    ensures shows { Shows marks.new clause.now }
    ensures weight { result ≡ weight salt marks.new }
{
    let mut sum: u64 = 0;
    for l in clause {
        let place = l.index();
        if !marks[place] {
            marks[place] = true;
            sum = sum.wrapping_add(scattered(place, salt));
        }
    }
    sum
}

// Takes back the marks of a clause.
pub(crate) fn unmark_all(clause: &[Lit], marks: &mut [bool])
    requires places { HasPlaces marks.old clause.now }
    requires shows { Shows marks.old clause.now }
    ensures { Shows marks.new [] }
{
    for l in clause {
        marks[l.index()] = false;
    }
}

// What the set of a clause's literals weighs, by a table that is clear.
pub(crate) fn weigh(clause: &[Lit], marks: &mut [bool], salt: u64) -> u64
    requires places { HasPlaces marks.old clause.now }
    requires clear { Shows marks.old [] }
    ensures clear { Shows marks.new [] }
    ensures weighs { Weighs salt clause.now result }
{
    let weight = mark_all(clause, marks, salt);
    unmark_all(clause, marks);
    weight
}

// Whether a literal is marked in a table, which has no mark past its end.
fn is_marked(marks: &[bool], l: Lit) -> bool
    ensures { result ≡ is_marked marks.now l }
{
    match marks.get(l.index()) {
        Some(mark) => *mark,
        None => false,
    }
}

// Whether each literal of the clause is marked.
fn is_within(clause: &[Lit], marks: &[bool]) -> bool
    ensures { IsTrue result ↔ All (λ l. is_marked marks.now l ≡ true) clause.now }
{
    for l in clause {
        if !is_marked(marks, *l) {
            return false;
        }
    }
    true
}

// Whether two clauses are the same set, where the first is marked in a table of its own. A subset that weighs as much is the whole of
// it, so the first is gone through only where it is the same as the second.
pub(crate) fn is_same(
    a: &[Lit],
    a_marks: &[bool],
    a_weight: u64,
    b: &[Lit],
    b_marks: &mut [bool],
    salt: u64,
) -> bool
    requires places { HasPlaces b_marks.old b.now }
    requires shows { Shows a_marks.now a.now }
    requires weighs { Weighs salt a.now a_weight }
    requires clear { Shows b_marks.old [] }
    ensures same { IsTrue result ↔ SameClause a.now b.now }
    ensures clear { Shows b_marks.new [] }
{
    if !is_within(b, a_marks) {
        return false;
    }
    let b_weight = mark_all(b, b_marks, salt);
    if b_weight != a_weight {
        unmark_all(b, b_marks);
        return false;
    }
    let same = is_within(a, b_marks);
    unmark_all(b, b_marks);
    same
}
