// Cubes that are to be excluded, since they lead to a break, the lowest levels first.

use cnf_form::Lit;
use pdr_solver::narrow;
use std::alloc::{AllocError, Global};

// The place of no obligation.
pub(crate) const NONE: u32 = 0xffff_ffff;

// A cube of states, and the obligation whose cube they lead to in one step; without it they break an assertion.
#[derive(Drop)]
pub(crate) struct Obligation {
    pub(crate) cube: Vec<Lit>,
    pub(crate) next: u32,
}

// All obligations, and the places of those that wait, by their levels.
#[derive(Drop)]
pub(crate) struct Obligations {
    alloc: Global,
    all: Vec<Obligation>,
    waiting: Vec<Vec<u32>>,
}

impl Obligations {
    pub fn new(alloc: Global) -> Self {
        Obligations {
            alloc,
            all: Vec::new(alloc),
            waiting: Vec::new(alloc),
        }
    }

    // Removes all obligations.
    pub fn clear(&mut self) {
        self.all.clear();
        self.waiting.clear();
    }

    // Adds an obligation. Returns its place.
    pub fn push(&mut self, cube: Vec<Lit>, next: u32) -> Result<u32, AllocError> {
        let place = narrow(self.all.len());
        self.all.push(Obligation { cube, next })?;
        Ok(place)
    }

    // The obligation at a place waits at a level.
    pub fn wait(&mut self, place: u32, level: u32) -> Result<(), AllocError> {
        for _ in self.waiting.len()..level as usize + 1 {
            self.waiting.push(Vec::new(self.alloc))?;
        }
        if let Some(list) = self.waiting.get_mut(level as usize) {
            list.push(place)?;
        }
        Ok(())
    }

    // Removes an obligation of the lowest level from those that wait. Returns its place and the level.
    pub fn pop(&mut self) -> Option<(u32, u32)> {
        for level in 0..self.waiting.len() {
            if let Some(list) = self.waiting.get_mut(level) {
                if let Some(place) = list.pop() {
                    return Some((place, narrow(level)));
                }
            }
        }
        None
    }

    pub fn cube(&self, place: u32) -> &[Lit] {
        match self.all.get(place as usize) {
            Some(obligation) => obligation.cube.as_slice(),
            None => &[],
        }
    }

    pub fn next(&self, place: u32) -> u32 {
        match self.all.get(place as usize) {
            Some(obligation) => obligation.next,
            None => NONE,
        }
    }
}
