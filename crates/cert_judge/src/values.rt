// The values that a stream names, in a table with a place for each variable.

ghost use Rattle.std.specs.Prelude.{◌≡◌, ◌↔◌, ℕ, ◌+◌, ◌<◌, false, All, length, IfNone, IfOk, IfSome, IsTrue};
ghost use Rattle.clause_source.specs.Given.{lits_of};
ghost use Rattle.cnf_form.specs.Cnf.{ClauseWithin, LitOf, Satisfies, SatisfiesClause, lit_in};
ghost use Rattle.cert_judge.specs.Values.{IsFirstUnsatisfied, named, values_of};

use clause_source::{ClauseSource, Given};
use cnf_form::Lit;
use std::alloc::{AllocError, Global};
use std::marker::Model;

fn is_true(values: &[bool], l: Lit) -> bool
    requires { l.var < length values.now }
    ensures { result ≡ lit_in (values_of values.now) l }
{
    let value = values[l.var() as usize];
    if l.is_negated() { !value } else { value }
}

fn satisfies_clause(values: &[bool], clause: &[Lit]) -> bool
    requires { All (λ l. l.var < length values.now) clause.now }
    ensures { IsTrue result ↔ SatisfiesClause (values_of values.now) clause.now }
{
    for l in clause {
        if is_true(values, *l) {
            return true;
        }
    }
    false
}

fn satisfies_given(values: &[bool], given: Given<'_>) -> bool
    requires { All (λ l. l.var < length values.now) (lits_of given) }
    ensures { IsTrue result ↔ SatisfiesClause (values_of values.now) (lits_of given.entry) }
{
    match given {
        Given::One(a) => satisfies_clause(values, &[a]),
        Given::Two(a, b) => satisfies_clause(values, &[a, b]),
        Given::Three(a, b, c) => satisfies_clause(values, &[a, b, c]),
        Given::All(clause) => satisfies_clause(values, clause),
    }
}

// The number of the first clause, from 1, that the values don't satisfy.
fn first_unsatisfied<S: ClauseSource>(values: &[bool], source: &S) -> Option<u64>
    requires { length values.now ≡ (S.formula source.now).vars + 1 }
    ensures some { IfSome result (IsFirstUnsatisfied (values_of values.now) (S.formula source.now).clauses) }
    ensures none { IfNone result (Satisfies (values_of values.now) (S.formula source.now).clauses) }
{
    let mut place = source.first();
    for number in 0..source.count() {
        if !satisfies_given(values, source.next(&mut place)) {
            return Some(number as u64 + 1);
        }
    }
    None
}

/// The values that a stream named so far, of the variables up to the greatest one.
#[derive(Drop)]
pub struct Values {
    bits: Vec<bool>,
}

impl Model for Values {
    ghost use Rattle.std.specs.Prelude.{Bool, List};

    ghost Value = { List Bool };

    ghost view = { λ a. a.bits.items };
}

impl Values {
    /// Before any variable is named.
    pub fn new(alloc: Global, vars: u32) -> Result<Values, AllocError>
        ensures size { IfOk result (λ values. length values ≡ vars + 1) }
        ensures unnamed { IfOk result (λ values. (v : ℕ) → values_of values v ≡ false) }
    {
        let bits = vec![in alloc; false; vars as usize + 1]?;
        Ok(Values { bits })
    }

    /// A bit for each variable, at its number; place 0 is no variable's.
    pub fn bits(&self) -> &[bool]
        ensures { result.now ≡ self.now }
    {
        self.bits.as_slice()
    }

    /// A literal gives its variable its sign.
    pub fn name(&mut self, l: Lit)
        requires { l.var < length self.old }
        ensures size { length self.new ≡ length self.old }
        ensures named { (v : ℕ) → values_of self.new v ≡ named (values_of self.old) l v }
    {
        self.bits[l.var() as usize] = !l.is_negated();
    }

    /// The number of the first clause, from 1, of a source's formula that they don't satisfy.
    pub fn first_unsatisfied<S: ClauseSource>(&self, source: &S) -> Option<u64>
        requires { length self.now ≡ (S.formula source.now).vars + 1 }
        ensures some { IfSome result (IsFirstUnsatisfied (values_of self.now) (S.formula source.now).clauses) }
        ensures none { IfNone result (Satisfies (values_of self.now) (S.formula source.now).clauses) }
    {
        first_unsatisfied(self.bits.as_slice(), source)
    }
}
