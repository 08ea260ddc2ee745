// Local search over values of all variables (break-only ProbSAT: Balint and Schöning, 2012): of a falsified clause the value of one
// variable is flipped, most likely one by which few other clauses become false. Satisfiable random formulas are hard for the search
// by conflicts, and often solved so at once. Its result is phases by which variables are decided: nothing is promised of it.

ghost use Rattle.std.specs.Prelude.{◌<◌};

use crate::cover::{Cover, at, narrow, set};
use crate::order::Order;
use crate::weights::set_phases_by_weight;
use cnf_form::Lit;
use std::alloc::{AllocError, Global};
use unit_propagation::Propagator;

// Where there are more literals and variables, there is no local search.
const MOST_LITERALS: usize = 1 << 16;

// At first a local search looks at this many clauses at most, ..
const MOST_LOOKS: u64 = 3_000_000;

// .. and in a smaller formula this often at each literal.
const LOOKS_A_LITERAL: u64 = 500;

// Each flip counts as this many more looks.
const CHANGE: u64 = 10;

// The weight of a variable whose flip makes no clause false.
const WHOLE: u64 = 1 << 40;

// Weights differ for fewer clauses than this many.
const WEIGHTS: usize = 24;

// By how much a weight falls with each clause that a flip makes false, in hundredths, where clauses have this many hundredths of a
// literal on average: steeper where they are longer.
fn fall(length: u64) -> u64
    ensures { 0 < result }
{
    if length <= 300 {
        200 + length / 6
    } else if length <= 400 {
        250 + (length - 300) * 35 / 100
    } else if length <= 500 {
        285 + (length - 400) * 85 / 100
    } else if length <= 600 {
        370 + (length - 500) * 140 / 100
    } else {
        520
    }
}

// Of each variable whether it is false, and whether it was where fewest clauses were false; the variables that were flipped since
// then. Of each clause of the cover how many literals are true, and the exclusive or of their indices: where one alone is true, its
// index. Of each variable how many clauses its flip makes false: those with no other true literal. The falsified clauses, and of each
// its place among them.
#[derive(Drop)]
struct LocalSearch {
    phases: Vec<bool>,
    best: Vec<bool>,
    changed: Vec<u32>,
    least: usize,
    trues: Vec<u32>,
    sums: Vec<u32>,
    breaks: Vec<u32>,
    falsified: Vec<u32>,
    places: Vec<u32>,
    weights: Vec<u64>,
    dice: u64,
    looks: u64,
}

impl LocalSearch {
    fn new(
        alloc: Global,
        core: &Propagator,
        order: &Order,
        cover: &Cover,
    ) -> Result<Self, AllocError> {
        let mut search = LocalSearch {
            phases: Vec::new(alloc),
            best: Vec::new(alloc),
            changed: Vec::new(alloc),
            least: 0,
            trues: vec![in alloc; 0; cover.len()]?,
            sums: vec![in alloc; 0; cover.len()]?,
            breaks: vec![in alloc; 0; core.vars() as usize + 1]?,
            falsified: Vec::new(alloc),
            places: vec![in alloc; 0; cover.len()]?,
            weights: Vec::new(alloc),
            dice: 1,
            looks: 0,
        };
        search.weigh(cover)?;
        search.begin(core, order)?;
        search.count(cover)?;
        search.least = search.falsified.len();
        Ok(search)
    }

    fn weigh(&mut self, cover: &Cover) -> Result<(), AllocError> {
        let count = (cover.len() as u64).max(1);
        let fall = fall((cover.literals() as u64).saturating_mul(100) / count);
        let mut weight = WHOLE;
        for _ in 0..WEIGHTS {
            self.weights.push(weight)?;
            weight = (weight / fall).saturating_mul(100).max(1);
        }
        Ok(())
    }

    // Begins with the phases that the variables would be decided by.
    fn begin(&mut self, core: &Propagator, order: &Order) -> Result<(), AllocError> {
        self.phases.push(true)?;
        self.best.push(true)?;
        for place in 0..core.vars() {
            let l = Lit::new(place + 1, false);
            let phase = if core.is_true(l) {
                false
            } else if core.is_true(l.negate()) {
                true
            } else {
                order.phase(place + 1)
            };
            self.phases.push(phase)?;
            self.best.push(phase)?;
        }
        Ok(())
    }

    fn is_true(&self, l: Lit) -> bool {
        match self.phases.get(l.var() as usize) {
            Some(phase) => *phase == l.is_negated(),
            None => false,
        }
    }

    fn count(&mut self, cover: &Cover) -> Result<(), AllocError> {
        for clause in 0..cover.len() {
            self.falsify(narrow(clause))?;
            for l in cover.clause(clause) {
                if self.is_true(*l) {
                    self.add_true(narrow(clause), *l);
                }
            }
        }
        Ok(())
    }

    // The flip of a variable makes one more clause false.
    fn add_break(&mut self, var: u32) {
        let count = at(&self.breaks, var as usize);
        set(&mut self.breaks, var as usize, count.saturating_add(1));
    }

    // The flip of a variable makes one clause fewer false.
    fn drop_break(&mut self, var: u32) {
        let count = at(&self.breaks, var as usize);
        set(&mut self.breaks, var as usize, count.saturating_sub(1));
    }

    // A clause becomes false.
    fn falsify(&mut self, clause: u32) -> Result<(), AllocError> {
        set(
            &mut self.places,
            clause as usize,
            narrow(self.falsified.len()),
        );
        self.falsified.push(clause)?;
        Ok(())
    }

    // A clause isn't false any more.
    fn satisfy(&mut self, clause: u32) {
        let place = at(&self.places, clause as usize);
        if let Some(last) = self.falsified.pop() {
            if last != clause {
                set(&mut self.falsified, place as usize, last);
                set(&mut self.places, last as usize, place);
            }
        }
    }

    // A literal of a clause becomes true.
    fn add_true(&mut self, clause: u32, l: Lit) {
        let place = clause as usize;
        let trues = at(&self.trues, place);
        let sum = at(&self.sums, place);
        if trues == 0 {
            self.satisfy(clause);
            self.add_break(l.var());
        } else if trues == 1 {
            self.drop_break(sum / 2);
        }
        set(&mut self.trues, place, trues.saturating_add(1));
        set(&mut self.sums, place, sum ^ narrow(l.index()));
    }

    // A literal of a clause becomes false.
    fn drop_true(&mut self, clause: u32, l: Lit) -> Result<(), AllocError> {
        let place = clause as usize;
        let trues = at(&self.trues, place);
        let sum = at(&self.sums, place) ^ narrow(l.index());
        if trues == 1 {
            self.falsify(clause)?;
            self.drop_break(l.var());
        } else if trues == 2 {
            self.add_break(sum / 2);
        }
        set(&mut self.trues, place, trues.saturating_sub(1));
        set(&mut self.sums, place, sum);
        Ok(())
    }

    // Makes a false literal true.
    fn flip(&mut self, cover: &Cover, l: Lit) -> Result<(), AllocError> {
        let place = l.var() as usize;
        if place < self.phases.len() {
            self.phases[place] = l.is_negated();
        }
        let gaining = cover.clauses_of(l);
        for clause in gaining {
            self.add_true(*clause, l);
        }
        let losing = cover.clauses_of(l.negate());
        for clause in losing {
            self.drop_true(*clause, l.negate())?;
        }
        self.looks = self
            .looks
            .saturating_add(gaining.len() as u64)
            .saturating_add(losing.len() as u64)
            .saturating_add(CHANGE);
        if self.changed.len() <= self.phases.len() {
            self.changed.push(l.var())?;
        }
        self.keep_best();
        Ok(())
    }

    // Keeps the values where fewer clauses are false than ever before.
    fn keep_best(&mut self) {
        if self.falsified.len() >= self.least {
            return;
        }
        self.least = self.falsified.len();
        if self.changed.len() > self.phases.len() {
            for place in 0..self.phases.len() {
                self.keep(place);
            }
        } else {
            for k in 0..self.changed.len() {
                let var = at(&self.changed, k);
                self.keep(var as usize);
            }
        }
        self.changed.clear();
    }

    fn keep(&mut self, place: usize) {
        if place < self.best.len() && place < self.phases.len() {
            self.best[place] = self.phases[place];
        }
    }

    fn weight(&self, l: Lit) -> u64 {
        let breaks = at(&self.breaks, l.var() as usize) as usize;
        match self.weights.get(breaks.min(WEIGHTS - 1)) {
            Some(weight) => *weight,
            None => 1,
        }
    }

    // A number below this one, which isn't 0.
    fn roll(&mut self, sides: u64) -> u64 {
        self.dice = self
            .dice
            .wrapping_mul(6_364_136_223_846_793_005)
            .wrapping_add(1_442_695_040_888_963_407);
        (self.dice ^ self.dice / (1 << 32)) % sides.max(1)
    }

    // The literal of a false clause that is to become true.
    fn pick(&mut self, clause: &[Lit]) -> Option<Lit> {
        let mut sum: u64 = 0;
        for l in clause {
            sum = sum.saturating_add(self.weight(*l));
        }
        let mut left = self.roll(sum);
        for l in clause {
            let weight = self.weight(*l);
            if left < weight {
                return Some(*l);
            }
            left -= weight;
        }
        None
    }

    // Flips variables until no clause is false, or enough was looked at.
    fn run(&mut self, cover: &Cover, most: u64) -> Result<(), AllocError> {
        self.looks = 0;
        for _ in 0..most {
            if self.looks >= most || self.falsified.len() == 0 {
                break;
            }
            let count = self.falsified.len() as u64;
            let place = self.roll(count) as usize;
            let clause = at(&self.falsified, place);
            if let Some(l) = self.pick(cover.clause(clause as usize)) {
                self.flip(cover, l)?;
            }
        }
        Ok(())
    }
}

// Whether there are few enough variables, and literals of the first clauses.
fn is_small(core: &Propagator, given: usize) -> bool {
    let mut literals = core.vars() as usize;
    for k in 0..core.len() {
        if k >= given || literals > MOST_LITERALS {
            break;
        }
        if let Some(clause) = core.clause(k as u32) {
            literals = literals.saturating_add(clause.len());
        }
    }
    literals <= MOST_LITERALS
}

// A local search that may go on, and its clauses.
#[derive(Drop)]
pub(crate) struct Paused {
    cover: Cover,
    search: LocalSearch,
}

// A local search over the first clauses, this many, which is to begin.
fn start(
    alloc: Global,
    core: &Propagator,
    given: usize,
    order: &Order,
) -> Result<Paused, AllocError> {
    let cover = Cover::new(alloc, core, given)?;
    let search = LocalSearch::new(alloc, core, order, &cover)?;
    Ok(Paused { cover, search })
}

// How many clauses the local search is to look at.
fn looks_for(order: &Order, cover: &Cover) -> u64 {
    if order.rephasing.count() > 0 {
        return order.rephasing.looks();
    }
    (cover.literals() as u64)
        .saturating_mul(LOOKS_A_LITERAL)
        .min(MOST_LOOKS)
}

/// At level 0, where it is time to, begins local search or goes on with it. Its best phases are taken at first, and later where they
/// satisfy all clauses, so that else the search isn't changed. Where a formula is too large for it, phases are those by weight.
pub fn rephase_by_local_search(
    alloc: Global,
    core: &Propagator,
    given: usize,
    order: &mut Order,
) -> Result<(), AllocError> {
    if !order.wants_local_search() {
        return Ok(());
    }
    if !is_small(core, given) {
        set_phases_by_weight(alloc, core, given, order)?;
        order.rephasing.end();
        return Ok(());
    }
    let mut paused = match order.rephasing.resume() {
        Some(paused) => paused,
        None => start(alloc, core, given, order)?,
    };
    let looks = looks_for(order, &paused.cover);
    paused.search.run(&paused.cover, looks)?;
    let least = paused.search.least;
    let clauses = paused.cover.len();
    if order.rephasing.count() == 0 || least == 0 {
        order.set_phases(&paused.search.best, least == 0);
    }
    order.rephasing.pause(paused, least, clauses);
    Ok(())
}
