// What is asked of the solver: about one step from the states that a level's clauses leave.

use crate::cones::Cones;
use crate::frames::Frames;
use crate::gates::Gates;
use crate::lifting::Lifting;
use crate::meter::{Meter, Stop};
use cnf_form::{Formula, Lit};
use pair_form::{BitLits, Pair};
use pdr_solver::{Answer, Solver, at, narrow, set};
use std::alloc::{AllocError, Global};

// The solver is made again after this many of its clauses have become useless.
const SPENT_CLAUSES: usize = 1_500;

// What a search stands on. `switches` has a literal for each level, under which its clauses count; that of level 0 is the pair's start.
#[derive(Drop)]
pub(crate) struct Queries<'a> {
    pub(crate) alloc: Global,
    pub(crate) pair: &'a Pair,
    pub(crate) solver: Solver,
    pub(crate) switches: Vec<Lit>,
    pub(crate) meter: Meter,
    gates: Gates,
    lifting: Lifting,
    spent: usize,
    used: Option<Lit>,
    assumptions: Vec<Lit>,
    in_core: Vec<bool>,
    cones: Cones,
    has_start: Option<bool>,
    // Which literals of state bits hold in each start, as far as propagation tells, by places of literals over bits.
    starts: Vec<bool>,
}

// A solver with the formula's clauses.
pub(crate) fn load(alloc: Global, formula: &Formula, derives: bool) -> Result<Solver, AllocError> {
    let mut solver = Solver::new(alloc, derives)?;
    solver.add_vars(formula.vars())?;
    let clauses = formula.clauses();
    for place in 0..clauses.len() {
        solver.add(clauses.get(place))?;
    }
    Ok(solver)
}

// A literal over state bits as one of the first cycle or the second.
pub(crate) fn over(pair: &Pair, l: Lit, second: bool) -> Option<Lit> {
    let lits: BitLits = match pair.bits().get((l.var() as usize).saturating_sub(1)) {
        Some(Some(lits)) => *lits,
        _ => return None,
    };
    let bit = if second { lits.second } else { lits.first };
    Some(if l.is_negated() { bit.negate() } else { bit })
}

impl<'a> Queries<'a> {
    pub fn new(alloc: Global, pair: &'a Pair, left: u64) -> Result<Self, Stop> {
        let vars = pair.formula().vars();
        let mut switches = Vec::new(alloc);
        switches.push(pair.start())?;
        let mut queries = Queries {
            alloc,
            pair,
            solver: load(alloc, pair.formula(), false)?,
            switches,
            meter: Meter::new(left),
            gates: Gates::new(alloc, pair)?,
            lifting: Lifting::new(alloc, vars)?,
            spent: 0,
            used: None,
            assumptions: Vec::new(alloc),
            in_core: Vec::new(alloc),
            cones: Cones::new(alloc, vars)?,
            has_start: None,
            starts: Vec::new(alloc),
        };
        queries.find_starts()?;
        queries.keep_base()?;
        Ok(queries)
    }

    // Finds which literals of state bits hold in each start.
    fn find_starts(&mut self) -> Result<(), Stop> {
        let places = self.pair.bits().len().saturating_mul(2).saturating_add(2);
        self.starts = vec![in self.alloc; false; places]?;
        self.solver.assume_alone(self.pair.start())?;
        let mut index: usize = 2;
        for bit in self.pair.bits() {
            if let Some(lits) = bit {
                let holds = self.solver.is_true(lits.first);
                set(&mut self.starts, index, holds);
                let fails = self.solver.is_true(lits.first.negate());
                set(&mut self.starts, index.saturating_add(1), fails);
            }
            index = index.saturating_add(2);
        }
        Ok(())
    }

    // What each query rests on: the assumptions of both cycles.
    fn keep_base(&mut self) -> Result<(), Stop> {
        let formula = self.pair.formula();
        for unit in self.gates.units() {
            self.cones.add(formula, &self.gates, *unit)?;
        }
        self.cones.add(formula, &self.gates, self.pair.next())?;
        self.cones.keep();
        Ok(())
    }

    // The highest level.
    pub fn top(&self) -> u32 {
        narrow(self.switches.len()).saturating_sub(1)
    }

    // Adds a level without clauses.
    pub fn add_level(&mut self) -> Result<(), Stop> {
        let switch = self.solver.add_var()?;
        self.switches.push(switch)?;
        Ok(())
    }

    // Adds the clause by which a cube is excluded up to a level.
    pub fn exclude(&mut self, cube: &[Lit], level: u32) -> Result<(), Stop> {
        let mut clause = Vec::new(self.alloc);
        let switch = at(&self.switches, level as usize, self.pair.start());
        clause.push(switch.negate())?;
        push_all(self.pair, cube, false, true, &mut clause)?;
        self.solver.add(&clause)?;
        let mut vars = Vec::new(self.alloc);
        for l in cube {
            if let Some(bit) = over(self.pair, *l, false) {
                vars.push(bit.var())?;
            }
        }
        self.cones.join(&vars);
        Ok(())
    }

    // Makes the solver again where many of its clauses are useless.
    pub fn renew_if_due(&mut self, frames: &Frames) -> Result<(), Stop> {
        if self.spent < SPENT_CLAUSES {
            return Ok(());
        }
        self.spent = 0;
        self.used = None;
        let mut solver = load(self.alloc, self.pair.formula(), false)?;
        solver.take_phases(&self.solver, self.pair.formula().vars());
        self.solver = solver;
        self.cones.part();
        for level in 1..self.switches.len() {
            let switch = self.solver.add_var()?;
            set(&mut self.switches, level, switch);
        }
        for lemma in &frames.lemmas {
            if lemma.level > 0 {
                self.exclude(&lemma.cube, lemma.level)?;
            }
        }
        Ok(())
    }

    // Counts clauses of the solver that have become useless.
    pub fn waste(&mut self, clauses: usize) {
        self.spent = self.spent.saturating_add(clauses);
    }

    // The solver's answer under the assumptions, of which those after this many rest on gates, and a clause over the state bits of a cube.
    fn ask(&mut self, from: usize, cube: &[Lit]) -> Result<bool, Stop> {
        self.meter.count_query()?;
        self.cones.begin()?;
        let formula = self.pair.formula();
        for l in cube {
            if let Some(bit) = over(self.pair, *l, false) {
                self.cones.add(formula, &self.gates, bit)?;
            }
        }
        for place in from..self.assumptions.len() {
            let root = self.assumptions[place];
            self.cones.add(formula, &self.gates, root)?;
        }
        self.solver.restrict(self.cones.vars(), formula.vars())?;
        let (answer, conflicts) = self.solver.solve(&self.assumptions, self.meter.left())?;
        self.meter.count_conflicts(conflicts);
        match answer {
            Answer::Sat => Ok(true),
            Answer::Unsat => Ok(false),
            Answer::Spent => Err(Stop::Spent),
        }
    }

    // The assumptions that a level's clauses count.
    fn assume_level(&mut self, level: u32) -> Result<(), Stop> {
        self.assumptions.clear();
        if let Some(used) = self.used {
            self.solver.add(&[used.negate()])?;
            self.used = None;
            self.spent = self.spent.saturating_add(1);
        }
        for place in level as usize..self.switches.len() {
            self.assumptions.push(self.switches[place])?;
            if level == 0 {
                break;
            }
        }
        Ok(())
    }

    // Whether some state of a level, which has values in the solver then, breaks an assertion.
    pub fn breaks(&mut self, level: u32) -> Result<bool, Stop> {
        self.assume_level(level)?;
        let from = if level == 0 {
            0
        } else {
            self.assumptions.len()
        };
        self.assumptions.push(self.pair.bad())?;
        self.ask(from, &[])
    }

    // Whether a step leads from a state of a level into a cube. `outside` has the state not in the cube itself.
    pub fn reaches(&mut self, cube: &[Lit], level: u32, outside: bool) -> Result<bool, Stop> {
        self.assume_level(level)?;
        if outside {
            let switch = self.solver.add_var()?;
            let mut clause = Vec::new(self.alloc);
            clause.push(switch.negate())?;
            push_all(self.pair, cube, false, true, &mut clause)?;
            self.solver.add(&clause)?;
            self.assumptions.push(switch)?;
            self.used = Some(switch);
        }
        self.assumptions.push(self.pair.next())?;
        let from = if level == 0 {
            0
        } else {
            self.assumptions.len()
        };
        push_all(self.pair, cube, true, false, &mut self.assumptions)?;
        self.ask(from, if outside { cube } else { &[] })
    }

    // Whether some start is in a cube, if propagation doesn't tell.
    fn meets_start(&mut self, cube: &[Lit]) -> Result<bool, Stop> {
        self.assume_level(0)?;
        push_all(self.pair, cube, false, false, &mut self.assumptions)?;
        self.ask(0, &[])
    }

    // Whether a literal over state bits is false in each start.
    pub fn is_off(&self, l: Lit) -> bool {
        at(&self.starts, l.negate().index(), false)
    }

    // Whether a cube has no start.
    pub fn is_free(&mut self, cube: &[Lit]) -> Result<bool, Stop> {
        let mut is_told = true;
        for l in cube {
            if self.is_off(*l) {
                return Ok(true);
            }
            is_told = is_told && self.is_off(l.negate());
        }
        if !is_told {
            return Ok(!self.meets_start(cube)?);
        }
        if let Some(has_start) = self.has_start {
            return Ok(!has_start);
        }
        let has_start = self.meets_start(&[])?;
        self.has_start = Some(has_start);
        Ok(!has_start)
    }

    // The literals of a cube on which the last answer rested, as those of the second cycle.
    pub fn core_of(&mut self, cube: &[Lit]) -> Result<Vec<Lit>, Stop> {
        let places = self.solver.vars() as usize * 2 + 2;
        for _ in self.in_core.len()..places {
            self.in_core.push(false)?;
        }
        for l in self.solver.core() {
            set(&mut self.in_core, l.index(), true);
        }
        let mut core = Vec::new(self.alloc);
        for l in cube {
            if let Some(bit) = over(self.pair, *l, true) {
                if at(&self.in_core, bit.index(), false) {
                    core.push(*l)?;
                }
            }
        }
        for l in self.solver.core() {
            set(&mut self.in_core, l.index(), false);
        }
        Ok(core)
    }

    // A part of a cube that has no start, with as little more of the cube as makes it so.
    pub fn free_within(&mut self, part: Vec<Lit>, cube: &[Lit]) -> Result<Vec<Lit>, Stop> {
        let mut part = part;
        if self.is_free(&part)? {
            return Ok(part);
        }
        for l in cube {
            if self.is_off(*l) {
                part.push(*l)?;
                part.sort_by_key(|l| l.var())?;
                return Ok(part);
            }
        }
        Ok(Vec::from_slice(self.alloc, cube)?)
    }

    // The state bits on which it rests that the values break an assertion.
    pub fn lift_break(&mut self) -> Result<Vec<Lit>, Stop> {
        let mut roots = Vec::from_slice(self.alloc, self.gates.units())?;
        roots.push(self.pair.bad())?;
        self.lift(&roots)
    }

    // The state bits on which it rests that the values lead into a cube.
    pub fn lift_step(&mut self, cube: &[Lit]) -> Result<Vec<Lit>, Stop> {
        let mut roots = Vec::from_slice(self.alloc, self.gates.units())?;
        roots.push(self.pair.next())?;
        push_all(self.pair, cube, true, false, &mut roots)?;
        self.lift(&roots)
    }

    fn lift(&mut self, roots: &[Lit]) -> Result<Vec<Lit>, Stop> {
        let formula = self.pair.formula();
        let mut cube = self
            .lifting
            .lift(self.alloc, formula, &self.gates, &self.solver, roots)?;
        cube.sort_by_key(|l| l.var())?;
        Ok(cube)
    }
}

// Adds the literals of a cube after others, as those of a cycle, negated where that is wanted.
pub(crate) fn push_all(
    pair: &Pair,
    cube: &[Lit],
    second: bool,
    negated: bool,
    lits: &mut Vec<Lit>,
) -> Result<(), AllocError> {
    for l in cube {
        if let Some(bit) = over(pair, *l, second) {
            lits.push(if negated { bit.negate() } else { bit })?;
        }
    }
    Ok(())
}
