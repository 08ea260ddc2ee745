// A smaller invariant: clauses that neither safety nor the other clauses that stay rest on are left out.

use crate::meter::{Meter, Stop};
use crate::queries::{load, push_all};
use cnf_form::Lit;
use pair_form::Pair;
use pdr_solver::{Answer, Solver, at, set};
use std::alloc::Global;

// The cubes whose negations are an invariant, each with a switch under which its clause counts in the first cycle.
#[derive(Drop)]
struct Trimming<'a> {
    alloc: Global,
    pair: &'a Pair,
    solver: Solver,
    cubes: &'a [Vec<Lit>],
    switches: Vec<Lit>,
    assumptions: Vec<Lit>,
    needed: Vec<bool>,
    open: Vec<usize>,
}

impl<'a> Trimming<'a> {
    fn new(alloc: Global, pair: &'a Pair, cubes: &'a [Vec<Lit>]) -> Result<Self, Stop> {
        let mut trimming = Trimming {
            alloc,
            pair,
            solver: load(alloc, pair.formula(), false)?,
            cubes,
            switches: Vec::new(alloc),
            assumptions: Vec::new(alloc),
            needed: vec![in alloc; false; cubes.len()]?,
            open: Vec::new(alloc),
        };
        for cube in cubes {
            let switch = trimming.solver.add_var()?;
            let mut clause = Vec::new(alloc);
            clause.push(switch.negate())?;
            push_all(pair, cube, false, true, &mut clause)?;
            trimming.solver.add(&clause)?;
            trimming.switches.push(switch)?;
        }
        Ok(trimming)
    }

    // Asks under all clauses and more. Those that it rests on that there are no values are needed. Whether there are none.
    fn ask(&mut self, meter: &mut Meter) -> Result<bool, Stop> {
        meter.count_query()?;
        for place in 0..self.switches.len() {
            self.assumptions.push(self.switches[place])?;
        }
        let (answer, conflicts) = self.solver.solve(&self.assumptions, meter.left())?;
        meter.count_conflicts(conflicts);
        match answer {
            Answer::Sat => return Ok(false),
            Answer::Unsat => {}
            Answer::Spent => return Err(Stop::Spent),
        }
        let first = match self.switches.first() {
            Some(first) => first.var(),
            None => return Ok(true),
        };
        for l in self.solver.core() {
            let place = match l.var().checked_sub(first) {
                Some(place) => place as usize,
                None => continue,
            };
            if place < self.needed.len() && !self.needed[place] {
                set(&mut self.needed, place, true);
                self.open.push(place)?;
            }
        }
        Ok(true)
    }

    // Finds what safety rests on, and what these rest on in turn. Whether the clauses are inductive.
    fn run(&mut self, meter: &mut Meter) -> Result<bool, Stop> {
        self.assumptions.clear();
        self.assumptions.push(self.pair.bad())?;
        if !self.ask(meter)? {
            return Ok(false);
        }
        for _ in 0..u64::MAX {
            let Some(place) = self.open.pop() else {
                break;
            };
            let Some(cube) = self.cubes.get(place) else {
                break;
            };
            self.assumptions.clear();
            self.assumptions.push(self.pair.next())?;
            push_all(self.pair, cube, true, false, &mut self.assumptions)?;
            if !self.ask(meter)? {
                return Ok(false);
            }
        }
        Ok(true)
    }

    // The cubes that are needed.
    fn kept(&self) -> Result<Vec<Vec<Lit>>, Stop> {
        let mut kept = Vec::new(self.alloc);
        for place in 0..self.cubes.len() {
            if at(&self.needed, place, false) {
                kept.push(Vec::from_slice(self.alloc, &self.cubes[place])?)?;
            }
        }
        Ok(kept)
    }
}

// The cubes that an invariant needs, or all where they aren't inductive.
pub(crate) fn trim(
    alloc: Global,
    pair: &Pair,
    cubes: Vec<Vec<Lit>>,
    meter: &mut Meter,
) -> Result<Vec<Vec<Lit>>, Stop> {
    let kept = {
        let mut trimming = Trimming::new(alloc, pair, &cubes)?;
        if !trimming.run(meter)? {
            None
        } else {
            Some(trimming.kept()?)
        }
    };
    match kept {
        Some(kept) => Ok(kept),
        None => Ok(cubes),
    }
}
