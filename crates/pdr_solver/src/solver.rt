// The solver's state: variables, their values, and clauses.

use crate::clauses::Clauses;
use crate::derived::Derived;
use crate::list::{at, narrow, set};
use crate::needs::needed;
use crate::order::Order;
use cnf_form::{Lit, MAX_VARS};
use std::alloc::{AllocError, Global};

// The number of no clause.
pub(crate) const NO_CLAUSE: u32 = 0xffff_ffff;

// A clause that is watched, and another literal of it: while that is true, the clause needs no look.
#[derive(Clone, Copy)]
pub(crate) struct Watch {
    pub(crate) clause: u32,
    pub(crate) other: Lit,
}

/// Clauses over variables from 1 on, and values that follow from decisions. After an answer that there are values, they stand until the
/// next call.
#[derive(Drop)]
pub struct Solver {
    pub(crate) alloc: Global,
    // By the literals' places: which literals are true, and the clauses that watch the literal.
    pub(crate) truth: Vec<bool>,
    pub(crate) watches: Vec<Vec<Watch>>,
    // By variables: the level of its value, the clause that it came from, its last phase (whether it was false), and a mark.
    pub(crate) levels: Vec<u32>,
    pub(crate) reasons: Vec<u32>,
    pub(crate) phases: Vec<bool>,
    pub(crate) seen: Vec<bool>,
    // The true literals in their order, how many there were where each level began, and how many were propagated.
    pub(crate) trail: Vec<Lit>,
    pub(crate) limits: Vec<usize>,
    pub(crate) head: usize,
    pub(crate) clauses: Clauses,
    pub(crate) learnts: Vec<u32>,
    pub(crate) order: Order,
    // The assumptions that an answer rested on.
    pub(crate) core: Vec<Lit>,
    // A clause that is false at level 0.
    pub(crate) refuted: bool,
    pub(crate) step: u32,
    // Literals of a clause in the making, and variables whose marks are to be taken back.
    pub(crate) clause: Vec<Lit>,
    pub(crate) marked: Vec<u32>,
    pub(crate) stack: Vec<Lit>,
    pub(crate) derived: Derived,
    // The number of the restriction to some variables, or 0, and by variables that of the last to which it belonged.
    pub(crate) restriction: u32,
    pub(crate) restrictions: Vec<u32>,
}

impl Solver {
    /// A solver without variables. It keeps what each learnt clause was derived from, and all of them, where that is wanted.
    pub fn new(alloc: Global, derives: bool) -> Result<Self, AllocError> {
        let mut solver = Solver {
            alloc,
            truth: Vec::new(alloc),
            watches: Vec::new(alloc),
            levels: Vec::new(alloc),
            reasons: Vec::new(alloc),
            phases: Vec::new(alloc),
            seen: Vec::new(alloc),
            trail: Vec::new(alloc),
            limits: Vec::new(alloc),
            head: 0,
            clauses: Clauses::new(alloc),
            learnts: Vec::new(alloc),
            order: Order::new(alloc),
            core: Vec::new(alloc),
            refuted: false,
            step: 1,
            clause: Vec::new(alloc),
            marked: Vec::new(alloc),
            stack: Vec::new(alloc),
            derived: Derived::new(alloc, derives),
            restriction: 0,
            restrictions: Vec::new(alloc),
        };
        solver.grow()?;
        Ok(solver)
    }

    /// The greatest variable.
    pub fn vars(&self) -> u32 {
        narrow(self.levels.len()).saturating_sub(1)
    }

    // Adds places in the tables for one more variable.
    fn grow(&mut self) -> Result<(), AllocError> {
        self.truth.push(false)?;
        self.truth.push(false)?;
        self.watches.push(Vec::new(self.alloc))?;
        self.watches.push(Vec::new(self.alloc))?;
        self.levels.push(0)?;
        self.reasons.push(NO_CLAUSE)?;
        self.phases.push(true)?;
        self.seen.push(false)?;
        self.order.grow()
    }

    /// The positive literal of a new variable. More than `MAX_VARS` are answered as out of memory.
    pub fn add_var(&mut self) -> Result<Lit, AllocError> {
        let var = narrow(self.levels.len());
        if var == 0 || var > MAX_VARS {
            return Err(AllocError);
        }
        self.grow()?;
        self.order.insert(var)?;
        Ok(Lit::new(var, false))
    }

    /// Adds variables up to this one.
    pub fn add_vars(&mut self, vars: u32) -> Result<(), AllocError> {
        for _ in self.vars()..vars {
            self.add_var()?;
        }
        Ok(())
    }

    /// Whether a literal is true.
    pub fn is_true(&self, l: Lit) -> bool {
        at(&self.truth, l.index(), false)
    }

    pub(crate) fn is_false(&self, l: Lit) -> bool {
        at(&self.truth, l.negate().index(), false)
    }

    pub(crate) fn is_open(&self, l: Lit) -> bool {
        !self.is_true(l) && !self.is_false(l)
    }

    pub(crate) fn level(&self, l: Lit) -> u32 {
        at(&self.levels, l.var() as usize, 0)
    }

    pub(crate) fn reason(&self, l: Lit) -> u32 {
        at(&self.reasons, l.var() as usize, NO_CLAUSE)
    }

    // Whether a variable is left out by a restriction. One that is newer than the restriction isn't.
    pub(crate) fn is_outside(&self, var: u32) -> bool {
        self.restriction != 0
            && at(&self.restrictions, var as usize, self.restriction) != self.restriction
    }

    /// Decides from now on only these of the variables up to the last one, and propagates clauses of these. The other variables up
    /// to that one are to be defined by clauses in which they are the greatest, so that each has a value for those of these.
    pub fn restrict(&mut self, vars: &[u32], last: u32) -> Result<(), AllocError> {
        self.cancel(0)?;
        for _ in self.restrictions.len()..last as usize + 1 {
            self.restrictions.push(0)?;
        }
        self.restriction = self.restriction.wrapping_add(1).max(1);
        self.order.clear();
        for var in vars {
            set(&mut self.restrictions, *var as usize, self.restriction);
            self.order.insert(*var)?;
        }
        Ok(())
    }

    // The level that is being decided.
    pub(crate) fn depth(&self) -> u32 {
        narrow(self.limits.len())
    }

    // Makes an unassigned literal true.
    pub(crate) fn assign(&mut self, l: Lit, reason: u32) -> Result<(), AllocError> {
        let depth = self.depth();
        set(&mut self.truth, l.index(), true);
        set(&mut self.levels, l.var() as usize, depth);
        set(&mut self.reasons, l.var() as usize, reason);
        self.trail.push(l)?;
        Ok(())
    }

    // Takes back all levels above one.
    pub(crate) fn cancel(&mut self, level: u32) -> Result<(), AllocError> {
        let limit = match self.limits.get(level as usize) {
            Some(limit) => *limit,
            None => return Ok(()),
        };
        for _ in limit..self.trail.len() {
            if let Some(l) = self.trail.pop() {
                set(&mut self.truth, l.index(), false);
                set(&mut self.phases, l.var() as usize, l.is_negated());
                if !self.is_outside(l.var()) {
                    self.order.insert(l.var())?;
                }
            }
        }
        self.limits.truncate(level as usize);
        self.head = limit;
        Ok(())
    }

    // Watches a literal in a clause.
    pub(crate) fn watch(&mut self, l: Lit, clause: u32, other: Lit) -> Result<(), AllocError> {
        if l.index() < self.watches.len() {
            self.watches[l.index()].push(Watch { clause, other })?;
        }
        Ok(())
    }

    // Adds a clause of at least two literals, of which the first two are watched. Returns its number.
    pub(crate) fn attach(&mut self, clause: &[Lit], learnt: bool) -> Result<u32, AllocError> {
        let number = self.clauses.push(clause, learnt)?;
        if let [first, second, ..] = clause {
            self.watch(*first, number, *second)?;
            self.watch(*second, number, *first)?;
        }
        Ok(number)
    }

    /// Adds a clause, at level 0. Its literals are of variables that there are.
    pub fn add(&mut self, clause: &[Lit]) -> Result<(), AllocError> {
        self.cancel(0)?;
        let mut open = Vec::new(self.alloc);
        for l in clause {
            if self.is_true(*l) {
                return Ok(());
            }
            if !self.is_false(*l) || self.derived.is_wanted() {
                open.push(*l)?;
            }
        }
        if self.derived.is_wanted() {
            self.put_open_first(&mut open);
        }
        self.add_open(&open)
    }

    // Literals that aren't false come first.
    fn put_open_first(&self, clause: &mut Vec<Lit>) {
        let mut count = 0;
        for place in 0..clause.len() {
            if count < clause.len() && !self.is_false(clause[place]) {
                clause.swap(count, place);
                count += 1;
            }
        }
    }

    // Adds a clause whose unassigned literals come first.
    fn add_open(&mut self, clause: &[Lit]) -> Result<(), AllocError> {
        let number = self.attach(clause, false)?;
        match clause {
            [] => self.refute(number)?,
            [first] => self.settle(*first, number)?,
            [first, second, ..] => {
                if self.is_false(*first) || self.is_false(*second) {
                    self.settle(*first, number)?;
                }
            }
        }
        Ok(())
    }

    // Makes a literal true at level 0, for a clause whose others are false.
    fn settle(&mut self, l: Lit, clause: u32) -> Result<(), AllocError> {
        if self.is_false(l) {
            return self.refute(clause);
        }
        self.assign(l, clause)?;
        match self.propagate()? {
            Some(conflict) => self.refute(conflict),
            None => Ok(()),
        }
    }

    /// The literals of the assumptions that the last answer rested on.
    pub fn core(&self) -> &[Lit] {
        self.core.as_slice()
    }

    /// The numbers of the learnt clauses that the answers so far rest on, in the order in which they were learnt. They are kept where
    /// the solver was to keep what they were derived from.
    pub fn needed(&self) -> Result<Vec<u32>, AllocError> {
        needed(self)
    }

    /// The literals of a clause.
    pub fn clause(&self, number: u32) -> &[Lit] {
        self.clauses.get(number)
    }
}
