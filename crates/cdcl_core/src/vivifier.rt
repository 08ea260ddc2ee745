// Which learnt clauses are vivified, and in which order the negations of their literals are decided. Nothing is promised of it.

use crate::facts::fixed_count;
use crate::learnts::Learnts;
use cnf_form::Lit;
use std::alloc::{AllocError, Global};
use unit_propagation::Propagator;

// For one literal that probes make true, this many are true on the last levels of conflicts.
const EFFORT: u64 = 12;

// A literal that is in this many of the clauses that are to be vivified. Those of the greatest are decided first: so more clauses
// share their first decisions' consequences, and rare literals, which follow from less, come last.
#[derive(Clone, Copy, PartialEq, Eq, PartialOrd, Ord)]
struct Ranked {
    count: u32,
    var: u32,
    negated: bool,
}

// Below the rank of each literal.
const NO_RANK: Ranked = Ranked {
    count: 0,
    var: 0,
    negated: false,
};

// A clause by its two literals of the highest ranks.
#[derive(Clone, Copy, PartialEq, Eq, PartialOrd, Ord)]
struct Scheduled {
    first: Ranked,
    second: Ranked,
    number: u32,
}

// The numbers are those of the clauses that are left, the next one last; they were listed after as many reductions as `round`. The
// counts are by literals: in how many of these clauses each is. The plan has the literals that are decided for the clause `number`.
#[derive(Drop)]
pub(crate) struct Vivifier {
    round: u64,
    numbers: Vec<u32>,
    counts: Vec<u32>,
    scheduled: Vec<Scheduled>,
    ranked: Vec<Ranked>,
    plan: Vec<Lit>,
    next_plan: Vec<Lit>,
    number: u32,
    probing: bool,
    kept: usize,
    spent: u64,
    granted: u64,
}

// Whether a literal is true at level 0, which has this many.
fn is_fixed(core: &Propagator, l: Lit, root: usize) -> bool {
    if l.var() > core.vars() {
        return false;
    }
    if !core.is_true(l) {
        return false;
    }
    core.place(l) < root
}

impl Vivifier {
    pub fn new(alloc: Global, vars: u32) -> Result<Self, AllocError> {
        let counts = vec![in alloc; 0; 2 * vars as usize + 2]?;
        Ok(Vivifier {
            round: 0,
            numbers: Vec::new(alloc),
            counts,
            scheduled: Vec::new(alloc),
            ranked: Vec::new(alloc),
            plan: Vec::new(alloc),
            next_plan: Vec::new(alloc),
            number: 0,
            probing: false,
            kept: 0,
            spent: 0,
            granted: 0,
        })
    }

    // Whether the decisions are those of a probe.
    pub fn is_probing(&self) -> bool {
        self.probing
    }

    // The literals that are decided.
    pub fn plan(&self) -> &[Lit] {
        self.plan.as_slice()
    }

    // A conflict of the search, on whose last level this many literals were true.
    pub fn grant(&mut self, literals: usize) {
        self.granted = self.granted.saturating_add(literals as u64);
    }

    // A probe begins, where some literals are true already.
    pub fn begin(&mut self, core: &Propagator) {
        self.kept = core.trail().len();
    }

    // A probe made literals true.
    pub fn spend(&mut self, core: &Propagator) {
        let made = core.trail().len().saturating_sub(self.kept);
        self.spent = self.spent.saturating_add(made as u64);
    }

    // The probes are over.
    pub fn end(&mut self) {
        self.probing = false;
    }

    // Counts in how many of the listed clauses each literal is.
    fn count_all(&mut self, core: &Propagator) {
        for index in 0..self.counts.len() {
            self.counts[index] = 0;
        }
        for place in 0..self.numbers.len() {
            let number = self.numbers[place];
            if number as usize >= core.len() {
                continue;
            }
            if let Some(clause) = core.clause(number) {
                for l in clause {
                    let index = l.index();
                    if index < self.counts.len() {
                        self.counts[index] = self.counts[index].saturating_add(1);
                    }
                }
            }
        }
    }

    // The rank of a literal's negation.
    fn rank(&self, l: Lit) -> Ranked {
        let count = match self.counts.get(l.index()) {
            Some(count) => *count,
            None => 0,
        };
        Ranked {
            count,
            var: l.var(),
            negated: !l.is_negated(),
        }
    }

    // Sorts the listed clauses by their two literals of the highest ranks, so that clauses with the same first decisions follow each other.
    fn sort(&mut self, core: &Propagator) -> Result<(), AllocError> {
        self.scheduled.clear();
        for place in 0..self.numbers.len() {
            let number = self.numbers[place];
            if number as usize >= core.len() {
                continue;
            }
            if let Some(clause) = core.clause(number) {
                if clause.len() < 3 {
                    continue;
                }
                let mut first = NO_RANK;
                let mut second = NO_RANK;
                for l in clause {
                    let rank = self.rank(*l);
                    if rank > first {
                        second = first;
                        first = rank;
                    } else if rank > second {
                        second = rank;
                    }
                }
                self.scheduled.push(Scheduled {
                    first,
                    second,
                    number,
                })?;
            }
        }
        self.scheduled.sort_unstable();
        self.numbers.clear();
        for scheduled in &self.scheduled {
            self.numbers.push(scheduled.number)?;
        }
        Ok(())
    }

    // How many of the first levels were decided as the plan begins.
    pub fn shared_levels(&self, core: &Propagator) -> usize {
        let trail = core.trail();
        for level in 0..core.levels() {
            let place = core.limit(level);
            if level >= self.plan.len()
                || place >= trail.len()
                || trail[place] != self.plan[level]
            {
                return level;
            }
        }
        core.levels()
    }

    // Lists clauses after each reduction. Returns how many are left.
    pub fn list(&mut self, core: &Propagator, learnts: &mut Learnts) -> Result<usize, AllocError> {
        if learnts.round() != self.round {
            self.round = learnts.round();
            self.numbers.clear();
            learnts.list_fresh(core, &mut self.numbers)?;
            self.count_all(core);
            self.sort(core)?;
        }
        Ok(self.numbers.len())
    }

    // Plans to decide the negations of a clause's literals. Returns false where one is true at level 0.
    fn plan_for(&mut self, core: &Propagator, clause: &[Lit]) -> Result<bool, AllocError> {
        self.ranked.clear();
        self.plan.clear();
        let root = fixed_count(core);
        for l in clause {
            let l = *l;
            if is_fixed(core, l, root) {
                return Ok(false);
            }
            if !is_fixed(core, l.negate(), root) {
                let rank = self.rank(l);
                self.ranked.push(rank)?;
            }
        }
        self.ranked.sort_unstable();
        for _ in 0..self.ranked.len() {
            if let Some(ranked) = self.ranked.pop() {
                if 0 < ranked.var && ranked.var <= core.vars() {
                    self.plan.push(Lit::new(ranked.var, ranked.negated))?;
                }
            }
        }
        Ok(true)
    }

    // Plans for the next clause. Returns false where there is none, or enough was tried.
    pub fn next(&mut self, core: &Propagator) -> Result<bool, AllocError> {
        for _ in 0..self.numbers.len() {
            if self.spent > self.granted / EFFORT {
                return Ok(false);
            }
            let Some(number) = self.numbers.pop() else {
                return Ok(false);
            };
            if number as usize >= core.len() {
                continue;
            }
            let Some(clause) = core.clause(number) else {
                continue;
            };
            if self.plan_for(core, clause)? {
                self.number = number;
                self.probing = true;
                return Ok(true);
            }
        }
        Ok(false)
    }

    // The planned literal that is false, if there is one.
    fn false_one(&self, core: &Propagator) -> Option<Lit> {
        for l in &self.plan {
            let l = *l;
            if l.var() <= core.vars() && core.is_true(l.negate()) {
                return Some(l);
            }
        }
        None
    }

    // After the planned decisions: where a planned literal is false, it is decided first in the next plan. Returns false where there is
    // none, or the clause itself made it false and each other literal was decided.
    pub fn turn(&mut self, core: &Propagator) -> Result<bool, AllocError> {
        self.spend(core);
        let Some(last) = self.false_one(core) else {
            return Ok(false);
        };
        if last.var() > core.vars() {
            return Ok(false);
        }
        self.next_plan.clear();
        self.next_plan.push(last)?;
        let mut follows = false;
        for l in &self.plan {
            let l = *l;
            if l == last || l.var() > core.vars() || !core.is_true(l) {
                continue;
            }
            if (core.reason(l) as usize) < core.len() {
                follows = true;
            } else {
                self.next_plan.push(l)?;
            }
        }
        self.plan.clear();
        for l in &self.next_plan {
            self.plan.push(*l)?;
        }
        Ok(follows || core.reason(last.negate()) != self.number)
    }

    // What a clause that was learnt from a probe replaces: its glue, with the new one's length. The old clause goes at the next reduction.
    pub fn replace(&mut self, learnts: &mut Learnts, length: usize) -> u32 {
        let glue = learnts.retire(self.number);
        if (glue as usize) < length {
            return glue;
        }
        (length as u32).saturating_sub(1)
    }
}
