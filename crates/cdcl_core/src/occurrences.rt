// In which clauses literals are. Nothing is promised of it.

use cnf_form::Lit;
use decision_order::is_satisfied;
use std::alloc::{AllocError, Global};
use unit_propagation::Propagator;

// Where a list ends.
const END: u32 = u32::MAX;

// More clauses of one literal aren't listed.
const MOST_CLAUSES: u32 = 16;

// The number of a clause, and the place of the next node in the list.
#[derive(Clone, Copy)]
struct Node {
    clause: u32,
    next: u32,
}

// A list of clauses for each literal: its first node, and how many of its clauses aren't removed. Of each clause whether it is removed.
// `work` counts the nodes and literals that were looked at.
#[derive(Drop)]
pub(crate) struct Occurrences {
    nodes: Vec<Node>,
    heads: Vec<u32>,
    counts: Vec<u32>,
    removed: Vec<bool>,
    work: u64,
}

impl Occurrences {
    pub fn new(alloc: Global) -> Self {
        Occurrences {
            nodes: Vec::new(alloc),
            heads: Vec::new(alloc),
            counts: Vec::new(alloc),
            removed: Vec::new(alloc),
            work: 0,
        }
    }

    // No clause is listed any more.
    pub fn clear(&mut self, vars: u32) -> Result<(), AllocError> {
        self.nodes.clear();
        self.heads.clear();
        self.counts.clear();
        self.removed.clear();
        self.work = 0;
        for _ in 0..2 * vars as usize + 2 {
            self.heads.push(END)?;
            self.counts.push(0)?;
        }
        Ok(())
    }

    // Gives back the memory.
    pub fn end(&mut self, alloc: Global) {
        *self = Occurrences::new(alloc);
    }

    pub fn work(&self) -> u64 {
        self.work
    }

    // Counts literals that were looked at.
    pub fn count_work(&mut self, literals: usize) {
        self.work = self.work.saturating_add(literals as u64);
    }

    // How many clauses a literal has.
    pub fn count(&self, l: Lit) -> u32 {
        match self.counts.get(l.index()) {
            Some(count) => *count,
            None => 0,
        }
    }

    // Whether a literal's clauses are few enough to be listed.
    pub fn is_rare(&self, l: Lit) -> bool {
        self.count(l) <= MOST_CLAUSES
    }

    // A literal's clauses are never few.
    pub fn bar(&mut self, l: Lit) {
        let index = l.index();
        if index < self.counts.len() {
            self.counts[index] = u32::MAX;
        }
    }

    // Adds a clause to the lists of its literals.
    pub fn push(&mut self, number: u32, clause: &[Lit]) -> Result<(), AllocError> {
        self.work = self.work.saturating_add(clause.len() as u64);
        for _ in self.removed.len()..number as usize + 1 {
            self.removed.push(false)?;
        }
        for l in clause {
            let index = l.index();
            let place = self.nodes.len();
            if index >= self.heads.len() || index >= self.counts.len() || place >= END as usize {
                continue;
            }
            self.nodes.push(Node {
                clause: number,
                next: self.heads[index],
            })?;
            self.heads[index] = place as u32;
            self.counts[index] = self.counts[index].saturating_add(1);
        }
        Ok(())
    }

    // Removes a clause from the lists of its literals.
    pub fn remove(&mut self, number: u32, clause: &[Lit]) {
        if number as usize >= self.removed.len() || self.removed[number as usize] {
            return;
        }
        self.removed[number as usize] = true;
        for l in clause {
            let index = l.index();
            if index < self.counts.len() {
                self.counts[index] = self.counts[index].saturating_sub(1);
            }
        }
    }

    // Whether a clause is listed, and level 0 doesn't satisfy it.
    fn is_left(&self, core: &Propagator, number: u32) -> bool {
        if number as usize >= core.len() || number as usize >= self.removed.len() {
            return false;
        }
        if self.removed[number as usize] {
            return false;
        }
        match core.clause(number) {
            Some(clause) => !is_satisfied(core, clause),
            None => false,
        }
    }

    // The numbers of a literal's clauses. Returns false where they are too many.
    pub fn list(
        &mut self,
        core: &Propagator,
        l: Lit,
        numbers: &mut Vec<u32>,
    ) -> Result<bool, AllocError> {
        numbers.clear();
        if !self.is_rare(l) || l.index() >= self.heads.len() {
            return Ok(false);
        }
        let mut next = self.heads[l.index()];
        for _ in 0..self.nodes.len() {
            if next as usize >= self.nodes.len() {
                break;
            }
            let node = self.nodes[next as usize];
            self.work = self.work.saturating_add(1);
            if self.is_left(core, node.clause) {
                numbers.push(node.clause)?;
            }
            next = node.next;
        }
        Ok(true)
    }
}
