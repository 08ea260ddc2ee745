// The clauses of a gate.

ghost use Rattle.std.specs.Prelude.{◌≡◌, ◌<◌, ◌++◌, ◌∷◌, [], OnOk, Some, length, slice_get};
ghost use Rattle.cnf_form.specs.Cnf.{ClauseWithin, LitOf, LitWithin};
ghost use Rattle.gate_graph.specs.Folding.{clauses_of, operands};
ghost use Rattle.gate_graph.specs.Kept.{OthersWithin};
ghost use Rattle.net_unroll.specs.Clauses.{lits_of};

use cnf_form::{Formula, Lit};
use gate_graph::Gate;
use std::alloc::AllocError;

/// A clause of a gate, by its literals.
#[derive(Clone, Copy, Debug, PartialEq, Eq)]
pub enum Clause {
    Two(Lit, Lit),
    Three(Lit, Lit, Lit),
}

impl Clause {
    /// How many literals there are.
    pub fn len(self) -> usize
        ensures { result ≡ length (lits_of self) }
    {
        match self {
            Clause::Two(..) => 2,
            Clause::Three(..) => 3,
        }
    }

    /// The literal at a place, counted from 0.
    pub fn lit(self, place: usize) -> Lit
        requires { place < length (lits_of self) }
        ensures { slice_get (lits_of self) place ≡ Some result }
    {
        match self {
            Clause::Two(a, b) => { if place == 0 { a } else { b } }
            Clause::Three(a, b, c) => match place {
                0 => a,
                1 => b,
                _ => c,
            },
        }
    }
}

/// How many clauses say what a gate is.
pub fn clause_count(gate: &Gate) -> usize
    ensures { (y : LitOf) → result ≡ length (clauses_of y gate.now) }
{
    match *gate {
        Gate::And(..) => 3,
        Gate::Xor(..) => 4,
        Gate::Mux(..) => 4,
        Gate::Maj(..) => 6,
    }
}

/// Of the clauses that say of a literal what a gate is, the one at a place, counted from 0.
pub fn clause_at(gate: &Gate, lit: Lit, place: usize) -> Clause
    requires { place < length (clauses_of lit gate.now) }
    ensures { slice_get (clauses_of lit gate.now) place ≡ Some (lits_of result) }
{
    match *gate {
        Gate::And(a, b) => and_clause(lit, a, b, place),
        Gate::Xor(a, b) => xor_clause(lit, a, b, place),
        Gate::Mux(s, a, b) => mux_clause(lit, s, a, b, place),
        Gate::Maj(a, b, c) => maj_clause(lit, a, b, c, place),
    }
}

fn and_clause(lit: Lit, a: Lit, b: Lit, place: usize) -> Clause
    requires { place < 3 }
    ensures { slice_get (clauses_of lit (Gate.And a b)) place ≡ Some (lits_of result) }
{
    match place {
        0 => Clause::Two(lit.negate(), a),
        1 => Clause::Two(lit.negate(), b),
        _ => Clause::Three(lit, a.negate(), b.negate()),
    }
}

fn xor_clause(lit: Lit, a: Lit, b: Lit, place: usize) -> Clause
    requires { place < 4 }
    ensures { slice_get (clauses_of lit (Gate.Xor a b)) place ≡ Some (lits_of result) }
{
    match place {
        0 => Clause::Three(lit.negate(), a, b),
        1 => Clause::Three(lit.negate(), a.negate(), b.negate()),
        2 => Clause::Three(lit, a, b.negate()),
        _ => Clause::Three(lit, a.negate(), b),
    }
}

fn mux_clause(lit: Lit, s: Lit, a: Lit, b: Lit, place: usize) -> Clause
    requires { place < 4 }
    ensures { slice_get (clauses_of lit (Gate.Mux s a b)) place ≡ Some (lits_of result) }
{
    match place {
        0 => Clause::Three(lit.negate(), s, a),
        1 => Clause::Three(lit, s, a.negate()),
        2 => Clause::Three(lit.negate(), s.negate(), b),
        _ => Clause::Three(lit, s.negate(), b.negate()),
    }
}

fn maj_clause(lit: Lit, a: Lit, b: Lit, c: Lit, place: usize) -> Clause
    requires { place < 6 }
    ensures { slice_get (clauses_of lit (Gate.Maj a b c)) place ≡ Some (lits_of result) }
{
    match place {
        0 => Clause::Three(lit.negate(), a, b),
        1 => Clause::Three(lit.negate(), a, c),
        2 => Clause::Three(lit.negate(), b, c),
        3 => Clause::Three(lit, a.negate(), b.negate()),
        4 => Clause::Three(lit, a.negate(), c.negate()),
        _ => Clause::Three(lit, b.negate(), c.negate()),
    }
}

// Puts a clause after the others.
fn push_clause(formula: &mut Formula, clause: Clause) -> Result<(), AllocError>
    requires { ClauseWithin formula.old.vars (lits_of clause) }
    ensures { let all = formula.old.clauses ++ lits_of clause ∷ [] in
        OnOk result (formula.new ≡ record formula.old { clauses = all }) }
{
    match clause {
        Clause::Two(a, b) => formula.push(&[a, b]),
        Clause::Three(a, b, c) => formula.push(&[a, b, c]),
    }
}

// Puts the clauses that say of a literal what a gate is after the others.
pub(crate) fn push_clauses(formula: &mut Formula, gate: &Gate, lit: Lit) -> Result<(), AllocError>
    requires operands { OthersWithin formula.old.vars (operands gate.now) }
    requires literal { LitWithin formula.old.vars lit }
    ensures { let all = formula.old.clauses ++ clauses_of lit gate.now in
        OnOk result (formula.new ≡ record formula.old { clauses = all }) }
{
    for place in 0..clause_count(gate) {
        push_clause(formula, clause_at(gate, lit, place))?;
    }
    Ok(())
}
