// A run by an obligation's cubes, whose cycles all have values.

use crate::blocking::{Entry, Search};
use crate::meter::{Meter, Stop};
use crate::obligations::NONE;
use crate::queries::{load, push_all};
use cnf_form::{Lit, MAX_VARS};
use pair_form::Pair;
use pdr_solver::{Answer, Solver};
use std::alloc::{AllocError, Global};

// A run so far: the values of the variables in each cycle.
#[derive(Drop)]
struct Replay<'a> {
    alloc: Global,
    pair: &'a Pair,
    solver: Solver,
    assumptions: Vec<Lit>,
    cycles: Vec<Vec<bool>>,
}

impl<'a> Replay<'a> {
    // Finds a cycle for the assumptions. Returns whether there is one.
    fn add_cycle(&mut self, meter: &mut Meter) -> Result<bool, Stop> {
        meter.count_query()?;
        let (answer, conflicts) = self.solver.solve(&self.assumptions, meter.left())?;
        meter.count_conflicts(conflicts);
        match answer {
            Answer::Sat => {}
            Answer::Unsat => return Ok(false),
            Answer::Spent => return Err(Stop::Spent),
        }
        let values = self.values()?;
        self.assumptions.clear();
        for bit in self.pair.bits() {
            if let Some(lits) = bit {
                let holds = self.solver.is_true(lits.second);
                let first = lits.first;
                self.assumptions
                    .push(if holds { first } else { first.negate() })?;
            }
        }
        self.cycles.push(values)?;
        Ok(true)
    }

    // The values of the formula's variables, that of each at its number.
    fn values(&self) -> Result<Vec<bool>, AllocError> {
        let mut values = Vec::new(self.alloc);
        values.push(false)?;
        for place in 0..self.pair.formula().vars() {
            if place < MAX_VARS {
                values.push(self.solver.is_true(Lit::new(place + 1, false)))?;
            }
        }
        Ok(values)
    }
}

// The run that begins so, if it is one.
pub(crate) fn find_run(
    search: &Search,
    entry: Entry,
    meter: &mut Meter,
) -> Result<Option<Vec<Vec<bool>>>, Stop> {
    let pair = search.queries.pair;
    let alloc = search.queries.alloc;
    let mut replay = Replay {
        alloc,
        pair,
        solver: load(alloc, pair.formula(), false)?,
        assumptions: Vec::new(alloc),
        cycles: Vec::new(alloc),
    };
    replay.assumptions.push(pair.start())?;
    let mut target = match entry {
        Entry::Before(place) => place,
        Entry::Inside(place) => {
            push_all(
                pair,
                search.obligations.cube(place),
                false,
                false,
                &mut replay.assumptions,
            )?;
            search.obligations.next(place)
        }
    };
    for _ in 0..u64::MAX {
        if target == NONE {
            break;
        }
        replay.assumptions.push(pair.next())?;
        push_all(
            pair,
            search.obligations.cube(target),
            true,
            false,
            &mut replay.assumptions,
        )?;
        if !replay.add_cycle(meter)? {
            return Ok(None);
        }
        target = search.obligations.next(target);
    }
    replay.assumptions.push(pair.bad())?;
    if !replay.add_cycle(meter)? {
        return Ok(None);
    }
    Ok(Some(replay.cycles))
}
