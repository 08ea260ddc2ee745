// Where a part's proof begins.

ghost use Rattle.std.specs.Prelude.{◌≡◌, ◌++◌, ◌∷◌, [], IfOk, OnOk};
ghost use Rattle.cnf_form.specs.Cnf.{LitWithin};
ghost use Rattle.drup_check.specs.Checking.{start as fresh};
ghost use Rattle.pair_form.specs.Pair.{clauses_over};
ghost use Rattle.pair_form.specs.declared.pair.Frame.TheVariants.{First};
ghost use Rattle.inv_fate.specs.Fate.{opened};
ghost use Rattle.inv_judge.specs.Claim.{part_of_proof};

use crate::asking::say;
use crate::stage::Proof;
use clause_source::{ClauseSource, Given, Place};
use cnf_form::{Formula, Lit};
use drup_check::Checker;
use pair_form::{Frame, Pair};
use std::alloc::{AllocError, Global};
use std::marker::Model;

// A formula, and clauses after its own.
#[derive(Drop)]
struct Extended<'a> {
    formula: &'a Formula,
    more: Formula,
    count: usize,
}

impl<'a> Model for Extended<'a> {
    ghost use Rattle.std.specs.Prelude.{◌≡◌, ◌+◌, ◌++◌, length};
    ghost use Rattle.cnf_form.specs.Cnf.{FormulaOf};

    ghost Value = { FormulaOf };

    ghost view = { λ a. record { vars = a.formula.now.vars; clauses = a.formula.now.clauses ++ a.more.clauses } };

    ghost invariant = { λ a. (a.more.vars ≡ a.formula.now.vars) × (a.count ≡ length a.formula.now.clauses + length a.more.clauses) };
}

impl<'a> Extended<'a> {
    // More clauses than can be counted are answered as out of memory.
    fn new(formula: &'a Formula, more: Formula) -> Result<Self, AllocError>
        requires { more.vars ≡ formula.now.vars }
        ensures { IfOk result (λ a. a ≡ record { vars = formula.now.vars; clauses = formula.now.clauses ++ more.clauses }) }
    {
        let own = formula.clauses().len();
        let others = more.clauses().len();
        let Some(count) = own.checked_add(others) else {
            return Err(AllocError);
        };
        Ok(Extended {
            formula,
            more,
            count,
        })
    }
}

impl<'a> ClauseSource for Extended<'a> {
    ghost formula = { λ f. f };

    ghost at = { λ f p k. p.within ≡ k };

    fn vars(&self) -> u32 {
        self.formula.vars()
    }

    fn count(&self) -> usize {
        let _own = self.formula.clauses();
        let _others = self.more.clauses();
        self.count
    }

    fn first(&self) -> Place {
        Place { part: 0, within: 0 }
    }

    fn next(&self, place: &mut Place) -> Given<'_> {
        let _count = self.count;
        let number = place.within;
        place.within += 1;
        let own = self.formula.clauses();
        if number < own.len() {
            return Given::All(own.get(number));
        }
        let others = self.more.clauses();
        Given::All(others.get(number - own.len()))
    }
}

// Puts an invariant's clauses after the others, as they are said of the first cycle.
fn push_all(
    formula: &mut Formula,
    lits: &mut Vec<Lit>,
    pair: &Pair,
    invariant: &Formula,
) -> Result<(), AllocError>
    requires { formula.old.vars ≡ pair.now.formula.vars }
    ensures vars { formula.new.vars ≡ formula.old.vars }
    ensures clauses { OnOk result (formula.new.clauses ≡ formula.old.clauses ++ clauses_over pair.now First invariant.now.clauses) }
{
    pair.promise();
    let clauses = invariant.clauses();
    for place in 0..clauses.len() {
        say(lits, pair, Frame::First, clauses.get(place))?;
        formula.push(lits.as_slice())?;
    }
    Ok(())
}

// A checker of the pair's formula with others after its own, the last a unit.
fn load(alloc: Global, pair: &Pair, others: Formula, unit: Lit) -> Result<Checker, AllocError>
    requires vars { others.vars ≡ pair.now.formula.vars }
    requires unit { LitWithin pair.now.formula.vars unit }
    ensures { IfOk result (λ k. k ≡ fresh (record { vars = pair.now.formula.vars; clauses = pair.now.formula.clauses ++ (others.clauses ++ (unit ∷ []) ∷ []) })) }
{
    let mut more = others;
    more.push(&[unit])?;
    let source = Extended::new(pair.formula(), more)?;
    Checker::new(alloc, &source)
}

// A checker of the pair's formula, an invariant's clauses as they are said of the first cycle, and a unit.
fn load_under(
    alloc: Global,
    lits: &mut Vec<Lit>,
    pair: &Pair,
    invariant: &Formula,
    unit: Lit,
) -> Result<Checker, AllocError>
    requires { LitWithin pair.now.formula.vars unit }
    ensures { IfOk result (λ k. k ≡ fresh (record { vars = pair.now.formula.vars; clauses = pair.now.formula.clauses ++ (clauses_over pair.now First invariant.now.clauses ++ (unit ∷ []) ∷ []) })) }
{
    let mut others = Formula::new(alloc, pair.formula().vars());
    push_all(&mut others, lits, pair, invariant)?;
    load(alloc, pair, others, unit)
}

// A checker that has the clauses from which a part's proof goes.
pub(crate) fn open(
    alloc: Global,
    lits: &mut Vec<Lit>,
    pair: &Pair,
    invariant: &Formula,
    proof: Proof,
) -> Result<Checker, AllocError>
    ensures vars { IfOk result (λ k. k.vars ≡ pair.now.formula.vars) }
    ensures clauses { IfOk result (λ k. k.clauses ≡ opened pair.now (part_of_proof proof) invariant.now.clauses) }
{
    pair.promise();
    match proof {
        Proof::Start => {
            let none = Formula::new(alloc, pair.formula().vars());
            load(alloc, pair, none, pair.start())
        }
        Proof::Step => load_under(alloc, lits, pair, invariant, pair.next()),
        Proof::Safe => load_under(alloc, lits, pair, invariant, pair.bad()),
    }
}
