// Tables of marks, which have two places for each variable up to some one.

ghost use Rattle.std.specs.Prelude.{◌≡◌, ℕ, ◌≤◌, ◌++◌, false, List, length, replicate, All, Contains, IfOk, OnOk};
ghost use Rattle.clause_source.specs.Given.{lits_of};
ghost use Rattle.cnf_form.specs.Cnf.{LitOf};
ghost use Rattle.lrat_check.specs.Marks.{HasPlaces, IsClear};

use clause_source::{ClauseSource, Given};
use cnf_form::Lit;
use std::alloc::{AllocError, Global};

// Makes places in a table for a literal.
fn reach_one(marks: &mut Vec<bool>, l: Lit) -> Result<(), AllocError>
    ensures more { (n : ℕ) × (marks.new.items ≡ marks.old.items ++ replicate n false) }
    ensures place { OnOk result (HasPlaces marks.new.items l) }
{
    let count = 2 * l.var() as usize + 2;
    if marks.len() < count {
        marks.resize(count, false)?;
    }
    Ok(())
}

// Makes places in a table for the literals of a clause.
pub(crate) fn reach(marks: &mut Vec<bool>, clause: &[Lit]) -> Result<(), AllocError>
    ensures clear { IsClear marks.old.items → IsClear marks.new.items }
    ensures longer { length marks.old.items ≤ length marks.new.items }
    ensures places { OnOk result (All (HasPlaces marks.new.items) clause.now) }
{
    for l in clause {
        reach_one(marks, *l)?;
    }
    Ok(())
}

// Makes places in a table for the literals of a clause that a source gives.
fn reach_given(marks: &mut Vec<bool>, given: Given<'_>) -> Result<(), AllocError>
    ensures clear { IsClear marks.old.items → IsClear marks.new.items }
    ensures longer { length marks.old.items ≤ length marks.new.items }
    ensures places { OnOk result (All (HasPlaces marks.new.items) (lits_of given.entry)) }
{
    match given {
        Given::One(a) => reach(marks, &[a]),
        Given::Two(a, b) => reach(marks, &[a, b]),
        Given::Three(a, b, c) => reach(marks, &[a, b, c]),
        Given::All(clause) => reach(marks, clause),
    }
}

// A table without marks that has places for the literals of the clauses of a source's formula.
pub(crate) fn places_for<S: ClauseSource>(
    alloc: Global,
    source: &S,
    count: usize,
) -> Result<Vec<bool>, AllocError>
    requires { count ≡ length (S.formula source.now).clauses }
    ensures clear { IfOk result (λ m. IsClear m.items) }
    ensures places { IfOk result (λ m. (c : List LitOf) → Contains (S.formula source.now).clauses c → All (HasPlaces m.items) c) }
{
    let mut marks = Vec::new(alloc);
    let mut place = source.first();
    for number in 0..count {
        reach_given(&mut marks, source.next(&mut place))?;
    }
    Ok(marks)
}
