// Deletions. The checker's contract says what they do; here they have to end within the time of a test.

ghost use Rattle.std.specs.Prelude.{◌≡◌, ◌<◌, ◌≤◌, IfOk};
ghost use Rattle.cnf_form.specs.Cnf.{ClauseWithin};
ghost use Rattle.cnf_form.specs.declared.literal.TheConstants.{MAX_VARS};

use cnf_form::{Formula, Lit};
use drup_check::Checker;
use std::alloc::{AllocError, Global};
use std::test::Fail;

// A checker of this many copies of a clause over these variables.
fn of_copies(alloc: Global, vars: u32, clause: &[Lit], times: u32) -> Result<Checker, AllocError>
    requires limit { vars ≤ MAX_VARS }
    requires within { ClauseWithin vars clause.now }
    ensures { IfOk result (λ checker. checker.vars ≡ vars) }
{
    let mut formula = Formula::new(alloc, vars);
    for time in 0..times {
        formula.push(clause)?;
    }
    Checker::new(alloc, &formula)
}

// Deletes a clause this many times.
fn delete_times(checker: &mut Checker, clause: &[Lit], times: u32)
    requires { ClauseWithin checker.old.vars clause.now }
    ensures { checker.new.vars ≡ checker.old.vars }
{
    for time in 0..times {
        checker.delete(clause);
    }
}

// Whether a copy of a clause of two literals is left when it was deleted as often as it was there.
fn is_copy_left(alloc: Global, times: u32) -> Result<bool, AllocError> {
    let pair = [Lit::new(1, false), Lit::new(2, false)];
    let mut checker = of_copies(alloc, 2, &pair, times)?;
    delete_times(&mut checker, &pair, times);
    checker.admits(&pair)
}

// Minutes where each deletion passes all copies that were deleted before it.
#[test]
fn copies_of_a_clause_are_deleted(rt: HostRuntime) -> Result<(), Fail> {
    assert!(rt; !is_copy_left(rt.alloc(), 300_000)?);
    Ok(())
}

// A checker of the pairs of 1 and each other variable.
fn of_pairs(alloc: Global, vars: u32) -> Result<Checker, AllocError>
    requires { vars ≤ MAX_VARS }
    ensures { IfOk result (λ checker. checker.vars ≡ vars) }
{
    let mut formula = Formula::new(alloc, vars);
    for var in 1..vars {
        formula.push(&[Lit::new(1, false), Lit::new(var + 1, false)])?;
    }
    Checker::new(alloc, &formula)
}

// Deletes them in their order.
fn delete_pairs(checker: &mut Checker, vars: u32)
    requires vars { checker.old.vars ≡ vars }
    requires limit { vars ≤ MAX_VARS }
{
    for var in 1..vars {
        checker.delete(&[Lit::new(1, false), Lit::new(var + 1, false)]);
    }
}

// Minutes where a deletion searches the clauses that watch a literal of its clause: all watch the first.
#[test]
fn pairs_of_one_literal_are_deleted(rt: HostRuntime) -> Result<(), Fail> {
    let mut checker = of_pairs(rt.alloc(), 600_000)?;
    delete_pairs(&mut checker, 600_000);
    Ok(())
}

// 1 and another variable, and then 2 this many times.
fn repeated(alloc: Global, vars: u32, other: u32, times: u32) -> Result<Vec<Lit>, AllocError>
    requires least { 2 ≤ vars }
    requires limit { vars ≤ MAX_VARS }
    requires some { 0 < other }
    requires within { other ≤ vars }
    ensures { IfOk result (λ line. ClauseWithin vars line.items) }
{
    let mut line = Vec::new(alloc);
    line.push(Lit::new(1, false))?;
    line.push(Lit::new(other, false))?;
    for time in 0..times {
        line.push(Lit::new(2, false))?;
    }
    Ok(line)
}

// Deletes some copies of a clause by lines that are as long as a line may be over these variables.
fn delete_by_long_lines(alloc: Global, vars: u32, copies: u32, lines: u32) -> Result<(), AllocError>
    requires least { 2 ≤ vars }
    requires limit { vars ≤ MAX_VARS }
{
    let pair = [Lit::new(1, false), Lit::new(2, false)];
    let mut checker = of_copies(alloc, vars, &pair, copies)?;
    let line = repeated(alloc, vars, 2, vars - 2)?;
    delete_times(&mut checker, &line, lines);
    Ok(())
}

// Minutes where a deletion counts the literals of its line as deleted, and not those of the clause: every other line then ends in a
// collection, which goes through all clauses that are left.
#[test]
fn deletions_that_repeat_a_literal_are_counted_once(rt: HostRuntime) -> Result<(), Fail> {
    delete_by_long_lines(rt.alloc(), 33_000, 700_000, 2000)?;
    Ok(())
}

// A variable such that a clause of 1, 2 and it begins on the chain of 1 and 2.
const AIMED: u32 = 123_717;

// Minutes where each deletion passes all copies of another clause, which is aimed at the chain of its own.
#[test]
fn copies_on_the_chain_of_another_clause_are_passed_once(rt: HostRuntime) -> Result<(), Fail> {
    let pair = [Lit::new(1, false), Lit::new(2, false)];
    let aimed = [
        Lit::new(1, false),
        Lit::new(2, false),
        Lit::new(AIMED, false),
    ];
    let mut checker = of_copies(rt.alloc(), AIMED, &aimed, 300_000)?;
    delete_times(&mut checker, &pair, 20_000);
    Ok(())
}

// Minutes where a deletion goes through its line again for each clause on its chain that is a subset of it.
#[test]
fn long_lines_pass_subsets(rt: HostRuntime) -> Result<(), Fail> {
    let pair = [Lit::new(1, false), Lit::new(2, false)];
    let mut checker = of_copies(rt.alloc(), AIMED, &pair, 300_000)?;
    let line = repeated(rt.alloc(), AIMED, AIMED, 30_000)?;
    delete_times(&mut checker, &line, 10);
    Ok(())
}

// Minutes where each deletion of a reason, which stays, goes through the clause.
#[test]
fn long_reasons_are_not_searched(rt: HostRuntime) -> Result<(), Fail> {
    let mut long = Vec::new(rt.alloc());
    for time in 0..600_000 {
        long.push(Lit::new(1, false))?;
    }
    let mut checker = of_copies(rt.alloc(), 1, &long, 1)?;
    delete_times(&mut checker, &[Lit::new(1, false)], 20_000);
    Ok(())
}
