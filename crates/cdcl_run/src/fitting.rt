// The formula that is searched: a header may name far more variables than the clauses have.

ghost use Rattle.std.specs.Prelude.{◌≤◌, ℕ, All};
ghost use Rattle.cnf_form.specs.Cnf.{Within};
ghost use Rattle.cdcl_run.specs.Searching.{IsFitted};

use cnf_form::{Formula, Lit};

// The greatest variable of a clause, 0 where it has none.
fn greatest_var(clause: &[Lit]) -> u32
    ensures above { All (λ l. l.var ≤ result) clause.now }
    ensures least { (vars : ℕ) → All (λ l. l.var ≤ vars) clause.now → result ≤ vars }
{
    let mut greatest = 0;
    for l in clause {
        greatest = greatest.max(l.var());
    }
    greatest
}

// The fewest variables that the clauses of a formula are within.
fn used_vars(formula: &Formula) -> u32
    ensures within { Within result formula.now.clauses }
    ensures fewest { (vars : ℕ) → Within vars formula.now.clauses → result ≤ vars }
    ensures fewer { result ≤ formula.now.vars }
{
    let clauses = formula.clauses();
    let mut used = 0;
    for place in 0..clauses.len() {
        used = used.max(greatest_var(clauses.get(place)));
    }
    used
}

// The same clauses over the fewest variables that they are within, so that a search costs what these do.
pub(crate) fn fitted(formula: Formula) -> Formula
    ensures fitted { IsFitted formula result }
    ensures fewest { (vars : ℕ) → Within vars formula.clauses → result.vars ≤ vars }
{
    let _limit = formula.vars();
    let used = used_vars(&formula);
    formula.with_vars(used)
}
