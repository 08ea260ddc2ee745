// The solver at work, over a log in memory.

ghost use Rattle.std.specs.Prelude.{false};

use cdcl_core::{Log, Solved, solve};
use cnf_form::{Formula, Lit, read_dimacs};
use sby_edge::Failed;
use std::alloc::{AllocError, Global};
use std::test::Fail;

// Counts the lines that it takes, and fails where it has no room for one. It doesn't tell them.
#[derive(Drop)]
struct CountingLog {
    room: u64,
    lines: u64,
    ends_empty: bool,
    faults: u64,
}

impl Log for CountingLog {
    ghost takes = { λ log line next. Unit {0} };

    ghost fails = { λ log line next. Unit {0} };

    ghost faults = { λ log. log.faults };

    ghost hinted = { false };

    fn is_hinted(&self) -> bool {
        false
    }

    fn clause(&mut self, clause: &[Lit], _id: u64, _hints: &[u64]) -> Result<(), Failed> {
        if self.lines >= self.room {
            self.faults = self.faults.saturating_add(1);
            return Err(Failed);
        }
        self.lines += 1;
        self.ends_empty = clause.is_empty();
        Ok(())
    }

    fn fact(&mut self, _l: Lit, _id: u64, _hints: &[u64]) -> Result<(), Failed> {
        Ok(())
    }

    fn delete(&mut self, clause: &[Lit], id: u64) -> Result<(), Failed> {
        self.clause(clause, id, &[])
    }
}

#[derive(Clone, Copy, Debug, PartialEq, Eq)]
enum Answer {
    Sat,
    Unsat,
    Budget,
    LogFailed,
    Wrong,
}

fn is_true(values: &[bool], l: Lit) -> bool {
    match values.get(l.var() as usize) {
        Some(value) => *value != l.is_negated(),
        None => false,
    }
}

fn satisfies(values: &[bool], formula: &Formula) -> bool {
    let clauses = formula.clauses();
    for place in 0..clauses.len() {
        if !clauses.get(place).iter().any(|l| is_true(values, *l)) {
            return false;
        }
    }
    true
}

// What is answered, how many lines were logged, and whether the last was the empty clause.
fn solved(
    alloc: Global,
    formula: &Formula,
    budget: u64,
    room: u64,
) -> Result<(Answer, u64, bool), AllocError> {
    let mut log = CountingLog {
        room,
        lines: 0,
        ends_empty: false,
        faults: 0,
    };
    let answer = match solve(alloc, formula, budget, &mut log)? {
        Solved::Sat(values) => {
            if satisfies(&values, formula) {
                Answer::Sat
            } else {
                Answer::Wrong
            }
        }
        Solved::Unsat => Answer::Unsat,
        Solved::Budget => Answer::Budget,
        Solved::LogFailed => Answer::LogFailed,
    };
    Ok((answer, log.lines, log.ends_empty))
}

fn read(alloc: Global, text: &str) -> Result<Formula, Fail> {
    match read_dimacs(alloc, text.as_bytes())? {
        Ok(formula) => Ok(formula),
        Err(_) => Err(Fail::from("no formula")),
    }
}

const FOUR: &str = "p cnf 2 4\n1 2 0\n-1 2 0\n1 -2 0\n-1 -2 0\n";

// Four pigeons in three holes: variable 3 p + h + 1 says that pigeon p is in hole h.
pub(crate) const PIGEONS: &str =
    "p cnf 12 22\n1 2 3 0\n4 5 6 0\n7 8 9 0\n10 11 12 0\n-1 -4 0\n-1 -7 0\n-1 -10 0\n-4 -7 0\n-4 -10 0\n-7 -10 0\n-2 -5 0\n-2 -8 0\n-2 -11 0\n-5 -8 0\n-5 -11 0\n-8 -11 0\n-3 -6 0\n-3 -9 0\n-3 -12 0\n-6 -9 0\n-6 -12 0\n-9 -12 0\n";

#[test]
fn answers_small_formulas(rt: HostRuntime) -> Result<(), Fail> {
    for (text, budget, room, wanted) in [
        (FOUR, 0, 9, (Answer::Budget, 0, false)),
        (FOUR, 1, 9, (Answer::Budget, 1, false)),
        (FOUR, 2, 9, (Answer::Unsat, 2, true)),
        (FOUR, 9, 1, (Answer::LogFailed, 1, false)),
        (FOUR, 9, 0, (Answer::LogFailed, 0, false)),
        ("p cnf 0 0\n", 1, 9, (Answer::Sat, 0, false)),
        ("p cnf 3 0\n", 1, 9, (Answer::Sat, 0, false)),
        ("p cnf 2 2\n1 -2 0\n-1 2 0\n", 1, 9, (Answer::Sat, 0, false)),
        ("p cnf 1 2\n1 0\n0\n", 1, 9, (Answer::Unsat, 1, true)),
        ("p cnf 1 2\n1 0\n-1 0\n", 1, 9, (Answer::Unsat, 1, true)),
        ("p cnf 1 1\n0\n", 0, 9, (Answer::Budget, 0, false)),
    ] {
        let formula = read(rt.alloc(), text)?;
        assert_eq!(rt;
            solved(rt.alloc(), &formula, budget, room)?,
            wanted,
            "{text}"
        );
    }
    Ok(())
}

// The budget is answered until there is one conflict fewer than it has.
#[test]
fn answers_each_budget(rt: HostRuntime) -> Result<(), Fail> {
    let formula = read(rt.alloc(), PIGEONS)?;
    let (answer, needed, ends_empty) = solved(rt.alloc(), &formula, 1000, 1000)?;
    assert_eq!(rt; answer, Answer::Unsat);
    assert!(rt; ends_empty);
    for budget in 1..needed {
        assert_eq!(rt;
            solved(rt.alloc(), &formula, budget, 1000)?,
            (Answer::Budget, budget, false)
        );
    }
    assert_eq!(rt;
        solved(rt.alloc(), &formula, needed, 1000)?,
        (Answer::Unsat, needed, true)
    );
    Ok(())
}
