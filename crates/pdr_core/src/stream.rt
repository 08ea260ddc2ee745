// The stream of an invariant: its clauses, and three proofs, of which only those lines are written that something rests on.

use crate::meter::{Meter, Stop};
use crate::queries::{load, push_all};
use cnf_form::Lit;
use itoa::Buffer;
use pair_form::Pair;
use pdr_solver::{Answer, Solver};
use std::alloc::{AllocError, Global};

// Writes a clause.
fn put_clause(text: &mut Vec<u8>, clause: &[Lit]) -> Result<(), AllocError> {
    let mut digits = Buffer::new();
    for l in clause {
        if l.is_negated() {
            text.push(b'-')?;
        }
        text.extend_from_slice(digits.format(l.var()).as_bytes())?;
        text.push(b' ')?;
    }
    text.extend_from_slice(b"0\n")?;
    Ok(())
}

// Writes the clauses that exclude cubes.
fn put_invariant(alloc: Global, text: &mut Vec<u8>, cubes: &[Vec<Lit>]) -> Result<(), AllocError> {
    text.extend_from_slice(b"inv\n")?;
    for cube in cubes {
        let mut clause = Vec::new(alloc);
        for l in cube {
            clause.push(l.negate())?;
        }
        put_clause(text, &clause)?;
    }
    Ok(())
}

// A part of the stream: the unit from which its proof goes, whether the invariant is said of the first cycle, and of which cycle the
// proof shows it.
#[derive(Drop)]
struct Part {
    word: &'static str,
    unit: Lit,
    under: bool,
    second: bool,
}

// A solver from which a part's proof goes.
fn open(alloc: Global, pair: &Pair, cubes: &[Vec<Lit>], part: &Part) -> Result<Solver, AllocError> {
    let mut solver = load(alloc, pair.formula(), true)?;
    if part.under {
        for cube in cubes {
            let mut clause = Vec::new(alloc);
            push_all(pair, cube, false, true, &mut clause)?;
            solver.add(&clause)?;
        }
    }
    solver.add(&[part.unit])?;
    Ok(solver)
}

// Whether there are no values under the assumptions.
fn refute(solver: &mut Solver, assumptions: &[Lit], meter: &mut Meter) -> Result<bool, Stop> {
    meter.count_query()?;
    let (answer, conflicts) = solver.solve(assumptions, meter.left())?;
    meter.count_conflicts(conflicts);
    match answer {
        Answer::Sat => Ok(false),
        Answer::Unsat => Ok(true),
        Answer::Spent => Err(Stop::Spent),
    }
}

// Writes a part: its word, and the learnt clauses that its proof rests on. Whether it shows what it is to.
fn put_part(
    alloc: Global,
    text: &mut Vec<u8>,
    pair: &Pair,
    cubes: &[Vec<Lit>],
    part: &Part,
    meter: &mut Meter,
) -> Result<bool, Stop> {
    let mut solver = open(alloc, pair, cubes, part)?;
    let mut assumptions = Vec::new(alloc);
    for cube in cubes {
        assumptions.clear();
        push_all(pair, cube, part.second, false, &mut assumptions)?;
        if !refute(&mut solver, &assumptions, meter)? {
            return Ok(false);
        }
    }
    text.extend_from_slice(part.word.as_bytes())?;
    put_proof(text, &solver)?;
    Ok(true)
}

// Writes the learnt clauses that answers rested on.
fn put_proof(text: &mut Vec<u8>, solver: &Solver) -> Result<(), AllocError> {
    let needed = solver.needed()?;
    for number in &needed {
        put_clause(text, solver.clause(*number))?;
    }
    Ok(())
}

// Writes the last part, which shows that the clauses rule a break out.
fn put_safe(
    alloc: Global,
    text: &mut Vec<u8>,
    pair: &Pair,
    cubes: &[Vec<Lit>],
    meter: &mut Meter,
) -> Result<bool, Stop> {
    let part = Part {
        word: "safe\n",
        unit: pair.bad(),
        under: true,
        second: false,
    };
    let mut solver = open(alloc, pair, cubes, &part)?;
    if !refute(&mut solver, &[], meter)? {
        return Ok(false);
    }
    text.extend_from_slice(part.word.as_bytes())?;
    put_proof(text, &solver)?;
    text.extend_from_slice(b"0\n")?;
    Ok(true)
}

// The bytes of a stream that is to show that the negations of the cubes are an invariant, if it does.
pub(crate) fn write(
    alloc: Global,
    pair: &Pair,
    cubes: &[Vec<Lit>],
    meter: &mut Meter,
) -> Result<Option<Vec<u8>>, Stop> {
    let mut text = Vec::new(alloc);
    put_invariant(alloc, &mut text, cubes)?;
    let start = Part {
        word: "start\n",
        unit: pair.start(),
        under: false,
        second: false,
    };
    let step = Part {
        word: "step\n",
        unit: pair.next(),
        under: true,
        second: true,
    };
    let shows = put_part(alloc, &mut text, pair, cubes, &start, meter)?
        && put_part(alloc, &mut text, pair, cubes, &step, meter)?
        && put_safe(alloc, &mut text, pair, cubes, meter)?;
    Ok(if shows { Some(text) } else { None })
}
