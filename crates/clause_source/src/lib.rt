//! Formulas whose clauses are given one after the other.
#![tactic(auto)]

ghost use Rattle.std.specs.Prelude.{◌≡◌, ℕ, ◌+◌, ◌<◌, ◌≤◌, Contains, Some, length, slice_get};
ghost use Rattle.cnf_form.specs.Cnf.{FormulaOf, Within};
ghost use Rattle.cnf_form.specs.declared.literal.TheConstants.{MAX_VARS};
ghost use Rattle.clause_source.specs.Given.{lits_of};

use cnf_form::{Formula, Lit};

/// Where a clause stands among those that a source gives: counted as the source likes.
#[derive(Clone, Copy, Debug, PartialEq, Eq)]
pub struct Place {
    pub part: usize,
    pub within: usize,
}

/// A clause as a source gives it.
#[derive(Clone, Copy)]
pub enum Given<'a> {
    One(Lit),
    Two(Lit, Lit),
    Three(Lit, Lit, Lit),
    All(&'a [Lit]),
}

/// A formula whose clauses are given one after the other, as often as is asked.
pub trait ClauseSource: Drop {
    ghost use Rattle.clause_source.specs.declared.Place.{Place};

    /// The formula.
    ghost formula: { Self → FormulaOf };

    /// The place is that of the clause of this number, counted from 0.
    ghost at: { Self → Place → ℕ → Type 0 };

    /// The number of variables, which are numbered from 1.
    fn vars(&self) -> u32
        ensures vars { result ≡ (formula self.now).vars }
        ensures limit { (formula self.now).vars ≤ MAX_VARS };

    /// The number of clauses.
    fn count(&self) -> usize
        ensures count { result ≡ length (formula self.now).clauses }
        ensures within { Within (formula self.now).vars (formula self.now).clauses };

    /// The place of the first clause.
    fn first(&self) -> Place
        ensures { at self.now result 0 };

    /// The clause at a place, which moves on to that of the next clause.
    fn next(&self, place: &mut Place) -> Given<'_>
        requires { (k : ℕ) × at self.now place.old k × (k < length (formula self.now).clauses) }
        ensures clause { (k : ℕ) → at self.now place.old k → k < length (formula self.now).clauses
            → slice_get (formula self.now).clauses k ≡ Some (lits_of result) }
        ensures within { Contains (formula self.now).clauses (lits_of result) }
        ensures place { (k : ℕ) → at self.now place.old k → k < length (formula self.now).clauses
            → at self.now place.new (k + 1) };
}

impl ClauseSource for Formula {
    ghost formula = { λ f. f };

    ghost at = { λ f p k. p.within ≡ k };

    fn vars(&self) -> u32 {
        self.vars()
    }

    fn count(&self) -> usize {
        self.clauses().len()
    }

    fn first(&self) -> Place {
        Place { part: 0, within: 0 }
    }

    fn next(&self, place: &mut Place) -> Given<'_> {
        let clauses = self.clauses();
        let _count = clauses.len();
        let clause = clauses.get(place.within);
        place.within += 1;
        Given::All(clause)
    }
}
