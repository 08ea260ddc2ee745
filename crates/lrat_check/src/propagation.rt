// Unit propagation along hints.

ghost use Rattle.std.specs.Prelude.{◌≡◌, ◌↔◌, ℕ, ◌+◌, ◌*◌, ◌<◌, Bool, true, false, List, [], ◌∷◌, ◌++◌, length, map, All, IsTrue, IsSome, IfOk, OnOk, MatchBool, slice_set};
ghost use Rattle.cnf_form.specs.Cnf.{LitOf, negate, index_of};
ghost use Rattle.lrat_check.specs.Hints.{Live, IsContradictory, Refutes, IsHinted};
ghost use Rattle.lrat_check.specs.Table.{held};
ghost use Rattle.lrat_check.specs.Marks.{is_marked, HasPlaces, Marks, IsClear, IsConsistent, ClauseStands, ClausesHavePlaces};

use crate::entries::Table;
use cnf_form::Lit;
use std::alloc::AllocError;

// How many literals of a clause are not negated.
pub(crate) enum Status {
    Negated,
    OneLeft(Lit),
    MoreLeft,
}

fn is_marked(marks: &[bool], l: Lit) -> bool
    requires { HasPlaces marks.now l }
    ensures { result ≡ is_marked marks.now l }
{
    marks[l.index()]
}

fn set_mark(marks: &mut [bool], l: Lit, value: bool)
    requires { HasPlaces marks.old l }
    ensures { marks.new ≡ slice_set marks.old (index_of l) value }
{
    marks[l.index()] = value;
}

// Marks a literal, and adds it to the trail.
fn assign(marks: &mut [bool], trail: &mut Vec<Lit>, l: Lit) -> Result<(), AllocError>
    requires marks { Marks marks.old trail.old.items }
    requires places { HasPlaces marks.old l }
    ensures marks { Marks marks.new trail.new.items }
    ensures trail { OnOk result (trail.new.items ≡ trail.old.items ++ l ∷ []) }
{
    trail.push(l)?;
    set_mark(marks, l, true);
    Ok(())
}

fn clause_status(clause: &[Lit], marks: &[bool]) -> Status
    requires { All (HasPlaces marks.now) clause.now }
    ensures { ClauseStands (λ l. is_marked marks.now l ≡ true) clause.now result }
{
    let mut open = None;
    for l in clause {
        let l = *l;
        if !is_marked(marks, l.negate()) {
            match open {
                None => {
                    open = Some(l);
                }
                Some(other) => {
                    if other != l {
                        return Status::MoreLeft;
                    }
                }
            }
        }
    }
    match open {
        None => Status::Negated,
        Some(l) => Status::OneLeft(l),
    }
}

// Marks the negations of a clause's literals, unless two of these are a literal and its negation.
fn assume(clause: &[Lit], marks: &mut [bool], trail: &mut Vec<Lit>) -> Result<bool, AllocError>
    requires places { All (HasPlaces marks.old) clause.now }
    requires none { trail.old.items ≡ [] }
    requires clear { IsClear marks.old }
    ensures marks { Marks marks.new trail.new.items }
    ensures cases { IfOk result (λ b. MatchBool b
        ((trail.new.items ≡ map negate clause.now) × IsConsistent trail.new.items)
        (IsContradictory (map negate clause.now))) }
{
    for l in clause {
        let l = *l;
        if is_marked(marks, l) {
            return Ok(false);
        }
        assign(marks, trail, l.negate())?;
    }
    Ok(true)
}

// Whether the hints' clauses lead to a conflict.
fn follow(
    clauses: &Table,
    hints: &[u64],
    marks: &mut [bool],
    trail: &mut Vec<Lit>,
) -> Result<bool, AllocError>
    requires live { All (λ id. IsSome (held clauses.now id)) hints.now }
    requires places { ClausesHavePlaces (held clauses.now) marks.old }
    requires marks { Marks marks.old trail.old.items }
    requires consistent { IsConsistent trail.old.items }
    ensures marks { Marks marks.new trail.new.items }
    ensures exact { IfOk result (λ b. IsTrue b ↔ Refutes (held clauses.now) trail.old.items hints.now) }
{
    for id in hints {
        let Some(clause) = clauses.get(*id) else {
            unreachable!();
        };
        match clause_status(clause, marks) {
            Status::Negated => {
                return Ok(true);
            }
            Status::OneLeft(l) => {
                assign(marks, trail, l)?;
            }
            Status::MoreLeft => {}
        }
    }
    Ok(false)
}

fn unmark(trail: &[Lit], marks: &mut [bool])
    requires { Marks marks.old trail.now }
    ensures { IsClear marks.new }
{
    for l in trail {
        set_mark(marks, *l, false);
    }
}

fn leads_to_conflict(
    clauses: &Table,
    clause: &[Lit],
    hints: &[u64],
    marks: &mut [bool],
    trail: &mut Vec<Lit>,
) -> Result<bool, AllocError>
    requires live { All (λ id. IsSome (held clauses.now id)) hints.now }
    requires places { ClausesHavePlaces (held clauses.now) marks.old }
    requires clause { All (HasPlaces marks.old) clause.now }
    requires none { trail.old.items ≡ [] }
    requires clear { IsClear marks.old }
    ensures marks { Marks marks.new trail.new.items }
    ensures exact { IfOk result (λ b. IsTrue b ↔ IsHinted (held clauses.now) clause.now hints.now) }
{
    let consistent = assume(clause, marks, trail)?;
    if !consistent {
        return Ok(true);
    }
    follow(clauses, hints, marks, trail)
}

// Whether the hints admit the clause. Marks are for this call alone.
pub(crate) fn is_hinted(
    clauses: &Table,
    clause: &[Lit],
    hints: &[u64],
    marks: &mut [bool],
    trail: &mut Vec<Lit>,
) -> Result<bool, AllocError>
    requires live { All (λ id. IsSome (held clauses.now id)) hints.now }
    requires places { ClausesHavePlaces (held clauses.now) marks.old }
    requires clause { All (HasPlaces marks.old) clause.now }
    requires clear { IsClear marks.old }
    ensures clear { IsClear marks.new }
    ensures exact { IfOk result (λ b. IsTrue b ↔ IsHinted (held clauses.now) clause.now hints.now) }
{
    trail.clear();
    let found = leads_to_conflict(clauses, clause, hints, marks, trail);
    unmark(trail, marks);
    found
}
