// Frozen clauses, and a search that is long enough for them.

ghost use Rattle.std.specs.Prelude.{◌≤◌, false};
ghost use Rattle.cnf_form.specs.Cnf.{LitWithin};

use cdcl_core::{Log, Solved, solve};
use cnf_form::{Formula, Lit};
use frozen_clauses::Frozen;
use sby_edge::Failed;
use std::alloc::{AllocError, Global};
use std::test::Fail;

#[test]
fn finds_a_frozen_subset(rt: HostRuntime) -> Result<(), Fail> {
    let a = Lit::new(1, false);
    let b = Lit::new(2, true);
    let c = Lit::new(3, false);
    let d = Lit::new(4, true);
    let mut frozen = Frozen::new(rt.alloc(), 4)?;
    frozen.push(&[a, b, c])?;
    frozen.push(&[d, b, a.negate()])?;
    frozen.push(&[d, c])?;
    assert_eq!(rt; frozen.len(), 3);
    assert_eq!(rt; frozen.subset_of(&[c, b, a]), Some(0));
    assert_eq!(rt; frozen.subset_of(&[a, d.negate(), b, c]), Some(0));
    assert_eq!(rt; frozen.subset_of(&[a, b, d]), None);
    assert_eq!(rt; frozen.subset_of(&[a, b.negate(), c]), None);
    assert_eq!(rt; frozen.subset_of(&[a.negate(), b, d]), Some(1));
    assert_eq!(rt; frozen.subset_of(&[c, d]), Some(2));
    frozen.remove_clause(0);
    assert_eq!(rt; frozen.subset_of(&[a, b, c]), None);
    assert!(rt; frozen.clause(0).is_none());
    frozen.collect()?;
    assert_eq!(rt; frozen.len(), 2);
    assert_eq!(rt; frozen.subset_of(&[c, d]), Some(1));
    Ok(())
}

// Counts additions and deletions, and how often the latter were more than half of the former.
#[derive(Drop)]
struct FairLog {
    additions: u64,
    deletions: u64,
    unfair: u64,
    ends_empty: bool,
}

impl Log for FairLog {
    ghost takes = { λ log line next. Unit {0} };

    ghost fails = { λ log line next. Unit {0} };

    ghost faults = { λ log. 0 };

    ghost hinted = { false };

    fn is_hinted(&self) -> bool {
        false
    }

    fn clause(&mut self, clause: &[Lit], _id: u64, _hints: &[u64]) -> Result<(), Failed> {
        self.additions = self.additions.saturating_add(1);
        self.ends_empty = clause.is_empty();
        Ok(())
    }

    fn fact(&mut self, _l: Lit, _id: u64, _hints: &[u64]) -> Result<(), Failed> {
        Ok(())
    }

    fn delete(&mut self, _clause: &[Lit], _id: u64) -> Result<(), Failed> {
        self.deletions = self.deletions.saturating_add(1);
        if self.deletions > self.additions / 2 {
            self.unfair = self.unfair.saturating_add(1);
        }
        Ok(())
    }
}

fn roll(dice: u64) -> u64 {
    dice % 2_147_483_647 * 16_807 % 2_147_483_647
}

// A literal of one of twenty variables after this one.
fn lit(base: u32, dice: u64) -> Lit
    requires { base ≤ 60 }
    ensures { LitWithin 80 result }
{
    Lit::new(base + (dice / 2 % 20) as u32 + 1, dice % 2 == 1)
}

// Clauses of four literals by dice.
pub(crate) fn by_dice(alloc: Global, count: u32) -> Result<Formula, AllocError> {
    let mut formula = Formula::new(alloc, 80);
    let mut dice = 2;
    for _ in 0..count {
        let first = roll(dice);
        let second = roll(first);
        let third = roll(second);
        dice = roll(third);
        formula.push(&[
            lit(0, first),
            lit(20, second),
            lit(40, third),
            lit(60, dice),
        ])?;
    }
    Ok(formula)
}

// Some forty thousand conflicts, after 32 thousand of which clauses are frozen too.
#[test]
fn a_long_search_deletes_at_most_half(rt: HostRuntime) -> Result<(), Fail> {
    let formula = by_dice(rt.alloc(), 800)?;
    let mut log = FairLog {
        additions: 0,
        deletions: 0,
        unfair: 0,
        ends_empty: false,
    };
    let solved = solve(rt.alloc(), &formula, 1_000_000, &mut log)?;
    assert!(rt; matches!(solved, Solved::Unsat));
    assert!(rt; log.ends_empty);
    assert!(rt; log.additions > 32_000);
    assert!(rt; log.deletions > 10_000);
    assert_eq!(rt; log.unfair, 0);
    Ok(())
}
