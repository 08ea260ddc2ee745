// Whether the values of cycles are a run that breaks an assertion.

ghost use Rattle.std.specs.Prelude.{◌≡◌, ◌+◌, ◌<◌, ℕ, IfSome, IsTrue, length, true};
ghost use Rattle.cnf_form.specs.Cnf.{Satisfies, SatisfiesClause, lit_in};
ghost use Rattle.cdcl_core.specs.Solving.{valued};
ghost use Rattle.pdr_run.specs.Breaking.{Breaks, Follows};
ghost use Rattle.pdr_run.specs.Deciding.{cycle_at};

use cnf_form::{Formula, Lit};
use pair_form::{BitLits, Pair};

// A variable that has no value is false.
fn value(values: &[bool], lit: Lit) -> bool
    ensures { result ≡ lit_in (valued values.now) lit }
{
    let own = match values.get(lit.var() as usize) {
        Some(own) => *own,
        None => false,
    };
    own != lit.is_negated()
}

fn satisfies_clause(values: &[bool], clause: &[Lit]) -> bool
    ensures { IsTrue result → SatisfiesClause (valued values.now) clause.now }
{
    for lit in clause {
        if value(values, *lit) {
            return true;
        }
    }
    false
}

fn satisfies(values: &[bool], formula: &Formula) -> bool
    ensures { IsTrue result → Satisfies (valued values.now) formula.now.clauses }
{
    let clauses = formula.clauses();
    for place in 0..clauses.len() {
        if !satisfies_clause(values, clauses.get(place)) {
            return false;
        }
    }
    true
}

// Whether a state bit has in the second cycle the value that the first says.
fn is_carried(first: &[bool], second: &[bool], bit: Option<BitLits>) -> bool
    ensures { IsTrue result → IfSome bit (λ b. lit_in (valued first.now) b.second ≡ lit_in (valued second.now) b.first) }
{
    match bit {
        Some(lits) => value(first, lits.second) == value(second, lits.first),
        None => true,
    }
}

fn follows(pair: &Pair, first: &[bool], second: &[bool]) -> bool
    ensures { IsTrue result → Follows pair.now (valued first.now) (valued second.now) }
{
    for bit in pair.bits() {
        if !is_carried(first, second, *bit) {
            return false;
        }
    }
    value(first, pair.next())
}

// Whether each cycle satisfies the formula.
fn all_satisfy(pair: &Pair, cycles: &[Vec<bool>]) -> bool
    ensures { IsTrue result → (i : ℕ) → i < length cycles.now → Satisfies (cycle_at cycles.now i) pair.now.formula.clauses }
{
    for values in cycles {
        if !satisfies(values, pair.formula()) {
            return false;
        }
    }
    true
}

// Whether each cycle but the last is followed by the next one.
fn all_follow(pair: &Pair, cycles: &[Vec<bool>]) -> bool
    ensures { IsTrue result → (i : ℕ) → i + 1 < length cycles.now → Follows pair.now (cycle_at cycles.now i) (cycle_at cycles.now (i + 1)) }
{
    for place in 1..cycles.len() {
        if !follows(pair, &cycles[place - 1], &cycles[place]) {
            return false;
        }
    }
    true
}

// Whether a run may begin in the first of the cycles, and the last breaks an assertion.
fn has_ends(pair: &Pair, first: &[bool], last: &[bool]) -> bool
    ensures { IsTrue result → (lit_in (valued first.now) pair.now.start ≡ true) × (lit_in (valued last.now) pair.now.bad ≡ true) }
{
    value(first, pair.start()) && value(last, pair.bad())
}

// Whether the values are a run that breaks an assertion in its last cycle.
pub(crate) fn breaks(pair: &Pair, cycles: &[Vec<bool>]) -> bool
    ensures { IsTrue result → Breaks pair.now (length cycles.now) }
{
    let (Some(first), Some(last)) = (cycles.first(), cycles.last()) else {
        return false;
    };
    if !has_ends(pair, first, last) {
        return false;
    }
    all_satisfy(pair, cycles) && all_follow(pair, cycles)
}
