// Chains of clauses by what the sets of their literals weigh.

ghost use Rattle.std.specs.Prelude.{◌≡◌, ◌≢◌, ℕ, ◌+◌, ◌<◌, ◌≤◌, ◌++◌, ◌∷◌, [], length, IfOk, OnOk, OnErr, slice_index_or};
ghost use Rattle.drup_check.specs.Copies.{Holds, after, beginning, link_at};

use std::alloc::{AllocError, Global};
use std::marker::Model;

// A chain has this many clauses on average before there are twice as many chains.
const FULL: usize = 4;

// Searches pass this many times what filing all clauses takes before that is done again.
const SLOW: usize = 8;

// A clause goes before the clauses of its chain that have lower numbers, and stays there until a search meets it after it is deleted.
#[derive(Drop)]
pub(crate) struct Copies {
    // By chain: one more than the number of its first clause, or 0.
    firsts: Vec<u32>,
    // By clause: one more than the number of the next one on its chain, or 0.
    nexts: Vec<u32>,
    // One more than the highest number on a chain.
    count: usize,
    // The literals of the clauses that searches passed, which were other sets than theirs.
    passed: usize,
}

impl Model for Copies {
    ghost use Rattle.drup_check.specs.Copies.{CopiesOf, AreChains};

    ghost Value = { CopiesOf };

    ghost view = { λ t. record { firsts = t.firsts.items; nexts = t.nexts.items; count = t.count } };

    ghost invariant = { λ t. AreChains t.firsts.items t.nexts.items t.count };
}

impl Copies {
    // Copies without entries: this many chains, and places for this many clauses.
    pub fn new(alloc: Global, chains: usize, clauses: usize) -> Result<Self, AllocError>
        requires { 0 < chains }
        ensures count { IfOk result (λ t. t.count ≡ 0) }
        ensures places { IfOk result (λ t. length t.nexts ≡ clauses) }
    {
        let firsts = vec![in alloc; 0; chains]?;
        let nexts = vec![in alloc; 0; clauses]?;
        Ok(Copies {
            firsts,
            nexts,
            count: 0,
            passed: 0,
        })
    }

    // The number of chains.
    pub fn chains(&self) -> usize
        ensures count { result ≡ length self.now.firsts }
        ensures some { 0 < result }
    {
        self.firsts.len()
    }

    // Whether the chains are long.
    pub fn is_full(&self) -> bool {
        self.nexts.len() / FULL >= self.firsts.len()
    }

    // Whether searches passed far more than filing all clauses again takes, which have this many literals.
    pub fn is_slow(&self, literals: usize) -> bool {
        let places = self.nexts.len().saturating_add(self.firsts.len());
        self.passed / SLOW > places.saturating_add(literals)
    }

    // A search passes a clause of this many literals.
    pub fn pass(&mut self, literals: usize)
        ensures { self.new ≡ self.old }
    {
        self.passed = self.passed.saturating_add(literals);
    }

    // One more than the number of the first clause that has the weight, or 0.
    pub fn first(&self, weight: u64) -> u32
        ensures first { result ≡ beginning self.now.firsts weight }
        ensures falls { (i : ℕ) → slice_index_or self.now.nexts i 0 ≤ i }
    {
        self.firsts[weight as usize % self.firsts.len()]
    }

    // One more than the number of the clause that comes after this one, or 0.
    pub fn next(&self, k: u32) -> u32
        ensures next { result ≡ slice_index_or self.now.nexts k 0 }
        ensures falls { result ≤ k }
    {
        if k as usize >= self.nexts.len() {
            return 0;
        }
        self.nexts[k as usize]
    }

    // Makes a place for one clause more.
    pub fn make_place(&mut self) -> Result<(), AllocError>
        ensures ok { OnOk result (self.new ≡ record self.old { nexts = self.old.nexts ++ 0 ∷ [] }) }
        ensures err { OnErr result (self.new ≡ self.old) }
    {
        self.nexts.push(0)?;
        Ok(())
    }

    // Takes all clauses off their chains, and leaves places for this many.
    pub fn clear(&mut self, clauses: usize)
        requires { clauses ≤ length self.old.nexts }
        ensures count { self.new.count ≡ 0 }
        ensures places { length self.new.nexts ≡ clauses }
    {
        for chain in 0..self.firsts.len() {
            self.firsts[chain] = 0;
        }
        self.nexts.truncate(clauses);
        self.count = 0;
        self.passed = 0;
    }

    // Enters a clause whose number is higher than those of all that were entered.
    pub fn enter(&mut self, weight: u64, k: u32)
        requires count { self.old.count ≤ k }
        requires place { k < length self.old.nexts }
        requires limit { k < u32.MAX }
        ensures keeps { (h j : ℕ) → Holds self.old h j → Holds self.new h j }
        ensures holds { Holds self.new weight k }
        ensures count { self.new.count ≡ k + 1 }
        ensures places { length self.new.nexts ≡ length self.old.nexts }
    {
        let chain = weight as usize % self.firsts.len();
        self.nexts[k as usize] = self.firsts[chain];
        self.firsts[chain] = k + 1;
        self.count = k as usize + 1;
    }

    // Takes off its chain the clause to which this link leads: that after the clause `before`, or the first that has the weight.
    pub fn unlink(&mut self, weight: u64, before: Option<u32>, k: u32)
        requires { link_at self.old weight before ≡ k + 1 }
        ensures next { link_at self.new weight before ≡ slice_index_or self.old.nexts k 0 }
        ensures keeps { (h j : ℕ) → j ≢ k → Holds self.old h j → Holds self.new h j }
        ensures ahead { (at n j : ℕ) → j ≢ k → after self.old.nexts at n ≡ j + 1 → (m : ℕ) × (after self.new.nexts at m ≡ j + 1) }
        ensures falls { (i : ℕ) → slice_index_or self.new.nexts i 0 ≤ i }
        ensures count { self.new.count ≡ self.old.count }
        ensures places { length self.new.nexts ≡ length self.old.nexts }
        ensures chains { length self.new.firsts ≡ length self.old.firsts }
    {
        let next = self.next(k);
        match before {
            Some(before) => self.nexts[before as usize] = next,
            None => {
                let chain = weight as usize % self.firsts.len();
                self.firsts[chain] = next;
            }
        }
    }
}
