//! The clauses of an encoding's formula, as they are asked for.

ghost use Rattle.std.specs.Prelude.{◌≡◌, ◌<◌, IfOk, Some, drop, length, slice_get};
ghost use Rattle.clause_source.specs.Given.{lits_of};
ghost use Rattle.net_text.specs.Clauses.{IsAt, IsPlaceOf, clauses_left};
ghost use Rattle.net_unroll.specs.Clauses.{lits_of as lits_in};
ghost use Rattle.net_unroll.specs.Encoding.{formula_of};

use crate::pieces::count_clauses;
use clause_source::{ClauseSource, Given, Place};
use cnf_form::Lit;
use net_unroll::{Clause, Encoded, clause_at, clause_count};
use std::alloc::AllocError;
use std::marker::Model;

fn given(clause: Clause) -> Given<'static>
    ensures { lits_of result ≡ lits_in clause }
{
    match clause {
        Clause::Two(a, b) => Given::Two(a, b),
        Clause::Three(a, b, c) => Given::Three(a, b, c),
    }
}

// The first clause: that variable 1 is true, or the empty clause.
fn first_clause(encoded: &Encoded) -> Given<'_>
    ensures { slice_get (formula_of encoded.now).clauses 0 ≡ Some (lits_of result) }
{
    if encoded.asks() {
        Given::One(Lit::new(1, false))
    } else {
        Given::All(&encoded.goals()[..0])
    }
}

// The clause at a place.
fn clause_of(encoded: &Encoded, place: Place) -> Given<'_>
    requires place { IsPlaceOf encoded.now place.part place.within }
    requires some { 0 < length (clauses_left encoded.now place.part place.within) }
    ensures { slice_get (clauses_left encoded.now place.part place.within) 0 ≡ Some (lits_of result) }
{
    if place.part == 0 {
        return first_clause(encoded);
    }
    match encoded.gates().get(place.part - 1) {
        Some((gate, lit)) => given(clause_at(gate, *lit, place.within)),
        None => Given::All(encoded.goals()),
    }
}

// The place after it.
fn place_after(encoded: &Encoded, place: Place) -> Place
    requires { IsPlaceOf encoded.now place.part place.within }
    ensures place { IsPlaceOf encoded.now result.part result.within }
    ensures left { clauses_left encoded.now result.part result.within ≡ drop 1 (clauses_left encoded.now place.part place.within) }
{
    let gates = encoded.gates();
    let end = Place {
        part: gates.len() + 1,
        within: 1,
    };
    if place.part == 0 {
        return if encoded.asks() {
            Place { part: 1, within: 0 }
        } else {
            end
        };
    }
    let Some((gate, _)) = gates.get(place.part - 1) else {
        return end;
    };
    if place.within + 1 < clause_count(gate) {
        Place {
            part: place.part,
            within: place.within + 1,
        }
    } else {
        Place {
            part: place.part + 1,
            within: 0,
        }
    }
}

/// An encoding that gives the clauses of its formula as they are asked for: none of them is kept.
#[derive(Drop)]
pub struct EncodedClauses {
    encoded: Encoded,
    count: usize,
}

impl Model for EncodedClauses {
    ghost use Rattle.std.specs.Prelude.{◌≡◌};
    ghost use Rattle.net_text.specs.Text.{count_of};
    ghost use Rattle.net_unroll.specs.Encoding.{EncodedOf};

    ghost Value = { EncodedOf };

    ghost view = { λ c. c.encoded };

    ghost invariant = { λ c. c.count ≡ count_of c.encoded };
}

impl EncodedClauses {
    /// More clauses than can be counted are answered as out of memory.
    pub fn new(encoded: Encoded) -> Result<Self, AllocError>
        ensures { IfOk result (λ c. c ≡ encoded) }
    {
        let Ok(count) = usize::try_from(count_clauses(&encoded)) else {
            return Err(AllocError);
        };
        Ok(EncodedClauses { encoded, count })
    }
}

impl ClauseSource for EncodedClauses {
    ghost formula = { formula_of };

    ghost at = { IsAt };

    fn vars(&self) -> u32 {
        self.encoded.promise();
        self.encoded.vars()
    }

    fn count(&self) -> usize {
        self.encoded.promise();
        self.count
    }

    fn first(&self) -> Place {
        Place { part: 0, within: 0 }
    }

    fn next(&self, place: &mut Place) -> Given<'_> {
        let clause = clause_of(&self.encoded, *place);
        *place = place_after(&self.encoded, *place);
        clause
    }
}
