// Which variables are eliminated, and by which resolvents (bounded variable elimination: Eén and Biere, 2005). Nothing is promised of it.

use crate::choose::has_goal;
use crate::extend::Extension;
use crate::learnts::Learnts;
use crate::occurrences::Occurrences;
use cnf_form::{Formula, Lit};
use decision_order::{Order, is_unassigned};
use std::alloc::{AllocError, Global};
use unit_propagation::Propagator;

// A variable with a resolvent of more literals isn't eliminated.
const MOST_LITERALS: usize = 100;

// A round looks at this many literals and entries of lists.
const EFFORT: u64 = 20_000_000;

// A round goes through the variables this often at most.
const MOST_PASSES: u32 = 4;

// In the first round a variable has no more resolvents than clauses; where the formula lists a job's goals, it may have this many more in
// each later round than in the one before ..
const BOUND_STEP: usize = 8;

// .. but no more than this.
const MOST_MORE: usize = 16;

// This many conflicts come before the first round, since an easy formula needs none, and between it and the second; before each later
// one there are twice as many.
const INTERVAL: u64 = 2000;

// Resolvents are at most one in this many of the lines that the budget has.
const SHARE: u64 = 10;

// In a formula of more clauses no variable is eliminated.
const MOST_CLAUSES: usize = 4_000_000;

// A resolvent: of which clauses, and on which literal of the first; and where its literals begin and end.
#[derive(Clone, Copy)]
pub(crate) struct Proposal {
    pub first: u32,
    pub second: u32,
    pub on: Lit,
    start: usize,
    end: usize,
}

// A variable that may be eliminated. The fewer resolvents it can have, the higher it ranks.
#[derive(Clone, Copy, PartialEq, Eq, PartialOrd, Ord)]
struct Candidate {
    rank: u64,
    var: u32,
}

// The number at a place, or that of no clause.
fn number_at(numbers: &[u32], place: usize) -> u32 {
    match numbers.get(place) {
        Some(number) => *number,
        None => u32::MAX,
    }
}

// Whether a variable of a clause is passed over, since it was eliminated.
pub(crate) fn is_passed(order: &Order, clause: &[Lit]) -> bool {
    for l in clause {
        if order.is_passed(l.var()) {
            return true;
        }
    }
    false
}

// A round is due after some conflicts; `has_goal` says whether the formula lists a job's goals. In a round: the clauses that are never to go, by their literals; the number of each clause in the
// index; which literals are marked, and of which variables clauses came or went since they were candidates; the candidates, the best
// last. Of the current variable: its clauses and its resolvents, the first of which, to `place`, were proposed. The variables that were
// chosen; the extension has clauses of those after the first clauses, this many.
#[derive(Drop)]
pub(crate) struct Eliminator {
    alloc: Global,
    has_goal: bool,
    rounds: u32,
    due: u64,
    occurrences: Occurrences,
    numbers: Vec<u32>,
    marks: Vec<bool>,
    touched: Vec<bool>,
    candidates: Vec<Candidate>,
    passes: u32,
    lines: u64,
    most_lines: u64,
    var: u32,
    has_failed: bool,
    positive: Vec<u32>,
    negative: Vec<u32>,
    lits: Vec<Lit>,
    proposals: Vec<Proposal>,
    place: usize,
    chosen: Vec<u32>,
    extension: Extension,
    ended: usize,
}

impl Eliminator {
    pub fn new(alloc: Global, vars: u32) -> Result<Self, AllocError> {
        let marks = vec![in alloc; false; 2 * vars as usize + 2]?;
        let touched = vec![in alloc; false; vars as usize + 1]?;
        Ok(Eliminator {
            alloc,
            has_goal: false,
            rounds: 0,
            due: INTERVAL,
            occurrences: Occurrences::new(alloc),
            numbers: Vec::new(alloc),
            marks,
            touched,
            candidates: Vec::new(alloc),
            passes: 0,
            lines: 0,
            most_lines: 0,
            var: 0,
            has_failed: false,
            positive: Vec::new(alloc),
            negative: Vec::new(alloc),
            lits: Vec::new(alloc),
            proposals: Vec::new(alloc),
            place: 0,
            chosen: Vec::new(alloc),
            extension: Extension::new(alloc),
            ended: 0,
        })
    }

    // Whether it is time for a round, after this many conflicts.
    pub fn is_due(&mut self, conflicts: u64) -> bool {
        if conflicts < self.due {
            return false;
        }
        let wait = INTERVAL.saturating_mul(1 << self.rounds.min(32) as u64);
        self.due = conflicts.saturating_add(wait);
        true
    }

    // The values of variables that were eliminated.
    pub fn extend(&self, values: &mut [bool]) {
        self.extension.extend(values);
    }

    // A round begins.
    pub fn begin(
        &mut self,
        core: &Propagator,
        learnts: &Learnts,
        order: &Order,
        formula: &Formula,
        budget: u64,
    ) -> Result<(), AllocError> {
        self.rounds = self.rounds.saturating_add(1);
        self.extension.truncate(self.ended);
        self.chosen.clear();
        self.numbers.clear();
        self.candidates.clear();
        self.leave();
        self.most_lines = budget / SHARE;
        self.passes = 0;
        if core.len() > MOST_CLAUSES {
            self.passes = MOST_PASSES;
            return Ok(());
        }
        self.occurrences.clear(core.vars())?;
        for number in 0..core.len() {
            self.enlist(core, learnts, number as u32)?;
        }
        self.touch_all(core, order);
        self.has_goal = has_goal(formula);
        if self.has_goal {
            let clauses = formula.clauses();
            if clauses.len() > 0 {
                self.bar(clauses.get(clauses.len() - 1));
            }
        }
        Ok(())
    }

    // Clauses with any variable came or went, but those that are passed over were eliminated.
    fn touch_all(&mut self, core: &Propagator, order: &Order) {
        for place in 0..core.vars() {
            let index = place as usize + 1;
            if index < self.touched.len() {
                self.touched[index] = true;
            }
            if order.is_passed(place + 1) {
                self.bar(&[Lit::new(place + 1, false)]);
            }
        }
    }

    // The variables of these literals aren't eliminated any more.
    fn bar(&mut self, goals: &[Lit]) {
        for l in goals {
            self.occurrences.bar(*l);
            self.occurrences.bar(l.negate());
        }
    }

    // Lists a clause by its literals, if it is never to go.
    fn enlist(
        &mut self,
        core: &Propagator,
        learnts: &Learnts,
        number: u32,
    ) -> Result<(), AllocError> {
        if number as usize >= core.len() {
            return Ok(());
        }
        if let Some(clause) = core.clause(number) {
            self.numbers.push(number)?;
            if learnts.is_kept(number as usize) {
                self.occurrences.push(number, clause)?;
            }
        }
        Ok(())
    }

    // Clauses with these variables came or went.
    fn touch(&mut self, clause: &[Lit]) {
        for l in clause {
            let index = l.var() as usize;
            if index < self.touched.len() {
                self.touched[index] = true;
            }
        }
    }

    // The current variable is left, chosen or not.
    fn leave(&mut self) {
        self.var = 0;
        self.has_failed = false;
        self.lits.clear();
        self.proposals.clear();
        self.place = 0;
    }

    // The current variable isn't eliminated.
    pub fn fail(&mut self) {
        self.has_failed = true;
        self.place = self.proposals.len();
    }

    // The round is over, but for what was chosen.
    pub fn stop(&mut self) {
        self.fail();
        self.candidates.clear();
        self.passes = MOST_PASSES;
    }

    // The resolvent that is proposed.
    pub fn proposal(&self) -> Proposal {
        match self.proposals.get(self.place.wrapping_sub(1)) {
            Some(proposal) => *proposal,
            None => Proposal {
                first: u32::MAX,
                second: u32::MAX,
                on: Lit::new(1, false),
                start: 0,
                end: 0,
            },
        }
    }

    // Its literals.
    pub fn resolvent(&self) -> &[Lit] {
        let proposal = self.proposal();
        if proposal.start > proposal.end || proposal.end > self.lits.len() {
            return &self.lits[..0];
        }
        &self.lits[proposal.start..proposal.end]
    }

    // The resolvent gets this number.
    pub fn record(&mut self, number: usize, clause: &[Lit]) -> Result<(), AllocError> {
        self.lines = self.lines.saturating_add(1);
        if number < u32::MAX as usize {
            self.numbers.push(number as u32)?;
            self.occurrences.push(number as u32, clause)?;
        }
        self.touch(clause);
        Ok(())
    }

    // A clause with this number in the index is a subset of the resolvent: that one is never to go, then.
    pub fn cover(
        &mut self,
        core: &Propagator,
        learnts: &mut Learnts,
        k: u32,
    ) -> Result<(), AllocError> {
        let number = number_at(&self.numbers, k as usize);
        if number as usize >= core.len() || learnts.is_kept(number as usize) {
            return Ok(());
        }
        learnts.keep(number);
        if let Some(clause) = core.clause(number) {
            self.occurrences.push(number, clause)?;
            self.touch(clause);
        }
        Ok(())
    }

    // Proposes the next resolvent. Returns false where there is none any more.
    pub fn next(&mut self, core: &Propagator) -> Result<bool, AllocError> {
        for _ in 0..u64::MAX {
            if self.place < self.proposals.len() {
                self.place += 1;
                let length = self.resolvent().len();
                // Each literal is looked for among all.
                self.occurrences.count_work(length.saturating_mul(length));
                return Ok(true);
            }
            if self.var != 0 && !self.has_failed {
                self.choose(core)?;
            }
            self.leave();
            if self.lines >= self.most_lines || self.occurrences.work() > EFFORT {
                return Ok(false);
            }
            if !self.take_candidate(core)? {
                return Ok(false);
            }
        }
        Ok(false)
    }

    // Makes the best candidate the current variable, if its resolvents are few enough. Returns false where there is none any more.
    fn take_candidate(&mut self, core: &Propagator) -> Result<bool, AllocError> {
        let Some(candidate) = self.candidates.pop() else {
            return self.list_candidates(core);
        };
        let var = candidate.var;
        if var == 0 || var > core.vars() || var as usize >= self.touched.len() {
            return Ok(true);
        }
        self.touched[var as usize] = false;
        let l = Lit::new(var, false);
        // Where level 0 satisfies a variable's clauses, they don't tell what its resolvents are.
        if is_unassigned(core, l) && self.resolve_all(core, l)? {
            self.var = var;
        } else {
            self.leave();
        }
        Ok(true)
    }

    // How a variable ranks as a candidate, if it is one.
    fn rank(&self, core: &Propagator, var: u32) -> Option<Candidate> {
        if var == 0 || var > core.vars() || var as usize >= self.touched.len() {
            return None;
        }
        let l = Lit::new(var, false);
        let is_touched = self.touched[var as usize];
        if !is_touched
            || !self.occurrences.is_rare(l)
            || !self.occurrences.is_rare(l.negate())
            || !is_unassigned(core, l)
        {
            return None;
        }
        let count = self.occurrences.count(l) as u64;
        let other = self.occurrences.count(l.negate()) as u64;
        Some(Candidate {
            rank: u64::MAX - count.saturating_mul(other),
            var,
        })
    }

    // Lists the variables of which clauses came or went since they were candidates. Returns false where there is none, or it was done
    // often enough.
    fn list_candidates(&mut self, core: &Propagator) -> Result<bool, AllocError> {
        if self.passes >= MOST_PASSES {
            return Ok(false);
        }
        self.passes += 1;
        for place in 0..core.vars() {
            if let Some(candidate) = self.rank(core, place + 1) {
                self.candidates.push(candidate)?;
            }
        }
        self.candidates.sort_unstable();
        Ok(!self.candidates.is_empty())
    }

    // How many resolvents a variable with this many clauses may have.
    fn most_resolvents(&self, clauses: usize) -> usize {
        if !self.has_goal {
            return clauses;
        }
        let round = self.rounds.saturating_sub(1) as usize;
        clauses.saturating_add(round.saturating_mul(BOUND_STEP).min(MOST_MORE))
    }

    // The resolvents of a literal's clauses with those of its negation. Returns false where they are too many or too long.
    fn resolve_all(&mut self, core: &Propagator, l: Lit) -> Result<bool, AllocError> {
        if !self.occurrences.list(core, l, &mut self.positive)?
            || !self.occurrences.list(core, l.negate(), &mut self.negative)?
        {
            return Ok(false);
        }
        let most = self.most_resolvents(self.positive.len().saturating_add(self.negative.len()));
        for i in 0..self.positive.len() {
            let first = number_at(&self.positive, i);
            for j in 0..self.negative.len() {
                let second = number_at(&self.negative, j);
                if !self.resolve(core, first, second, l)? || self.proposals.len() > most {
                    return Ok(false);
                }
            }
        }
        Ok(true)
    }

    // Adds the resolvent of two clauses to the proposals, unless it is a tautology. Returns false where it is too long.
    fn resolve(
        &mut self,
        core: &Propagator,
        first: u32,
        second: u32,
        on: Lit,
    ) -> Result<bool, AllocError> {
        if first as usize >= core.len() || second as usize >= core.len() {
            return Ok(true);
        }
        let (Some(a), Some(b)) = (core.clause(first), core.clause(second)) else {
            return Ok(true);
        };
        let start = self.lits.len();
        self.occurrences.count_work(a.len());
        self.occurrences.count_work(b.len());
        let is_contingent = join(&mut self.lits, &mut self.marks, a, on)?
            && join(&mut self.lits, &mut self.marks, b, on.negate())?;
        unmark(&mut self.marks, &self.lits[start.min(self.lits.len())..]);
        if !is_contingent {
            self.lits.truncate(start);
            return Ok(true);
        }
        let end = self.lits.len();
        self.proposals.push(Proposal {
            first,
            second,
            on,
            start,
            end,
        })?;
        Ok(end.saturating_sub(start) <= MOST_LITERALS)
    }

    // The current variable is chosen: its clauses go once the round is over.
    fn choose(&mut self, core: &Propagator) -> Result<(), AllocError> {
        if self.var > core.vars() || self.var == 0 {
            return Ok(());
        }
        let l = Lit::new(self.var, self.positive.len() > self.negative.len());
        if !is_unassigned(core, l) {
            return Ok(());
        }
        self.chosen.push(self.var)?;
        self.remove(core, l)?;
        self.remove(core, l.negate())?;
        self.bar(&[l]);
        self.extension.push(l.negate(), &[])
    }

    // Removes the current variable's clauses with a literal. The extension gets those where they are the fewer ones.
    fn remove(&mut self, core: &Propagator, l: Lit) -> Result<(), AllocError> {
        let is_fewer = l.is_negated() == (self.positive.len() > self.negative.len());
        let count = if l.is_negated() {
            self.negative.len()
        } else {
            self.positive.len()
        };
        for place in 0..count {
            let number = if l.is_negated() {
                number_at(&self.negative, place)
            } else {
                number_at(&self.positive, place)
            };
            if number as usize >= core.len() {
                continue;
            }
            if let Some(clause) = core.clause(number) {
                if is_fewer {
                    self.extension.push(l, clause)?;
                }
                self.occurrences.remove(number, clause);
                self.touch(clause);
            }
        }
        Ok(())
    }

    // The round is over, and the variables that were chosen are eliminated.
    pub fn end(&mut self, order: &mut Order) -> Result<(), AllocError> {
        for var in &self.chosen {
            order.pass_over(*var)?;
        }
        self.chosen.clear();
        self.ended = self.extension.len();
        self.occurrences.end(self.alloc);
        Ok(())
    }
}

// Adds the literals of a clause but one to those of a resolvent, unless they are there, and marks them. Returns false where the negation
// of one is marked.
fn join(
    lits: &mut Vec<Lit>,
    marks: &mut [bool],
    clause: &[Lit],
    but: Lit,
) -> Result<bool, AllocError> {
    for l in clause {
        let l = *l;
        let other = l.negate().index();
        let index = l.index();
        if l == but {
            continue;
        }
        if index >= marks.len() || other >= marks.len() || marks[other] || l == but.negate() {
            return Ok(false);
        }
        if !marks[index] {
            marks[index] = true;
            lits.push(l)?;
        }
    }
    Ok(true)
}

// Takes back the marks of these literals.
fn unmark(marks: &mut [bool], lits: &[Lit]) {
    for l in lits {
        let index = l.index();
        if index < marks.len() {
            marks[index] = false;
        }
    }
}
