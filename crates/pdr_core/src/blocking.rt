// The search by frames (IC3: Bradley, 2011; property-directed reachability: Eén, Mishchenko and Brayton, 2011).

use crate::frames::Frames;
use crate::meter::Stop;
use crate::obligations::{NONE, Obligations};
use crate::queries::Queries;
use cnf_form::Lit;
use pair_form::Pair;
use pdr_solver::{at, set};
use std::alloc::Global;

// Dropping literals of a cube ends after this many that had to stay, one after the other.
const MISSES: u32 = 24;

// How a run begins that breaks an assertion: in a cube that has a start; or in a start that leads into the cube.
#[derive(Clone, Copy, Debug, PartialEq, Eq)]
pub(crate) enum Entry {
    Inside(u32),
    Before(u32),
}

// The result of a search: the level above which the clauses are an invariant, or an obligation that a start meets. Without an
// obligation the start itself breaks an assertion.
pub(crate) enum Reached {
    Closed(u32),
    Met(Entry),
}

#[derive(Drop)]
pub(crate) struct Search<'a> {
    pub(crate) queries: Queries<'a>,
    pub(crate) frames: Frames,
    pub(crate) obligations: Obligations,
    // How many excluded cubes have each literal over state bits.
    uses: Vec<u32>,
}

impl<'a> Search<'a> {
    pub fn new(alloc: Global, pair: &'a Pair, left: u64) -> Result<Self, Stop> {
        let places = pair.bits().len().saturating_mul(2).saturating_add(2);
        Ok(Search {
            queries: Queries::new(alloc, pair, left)?,
            frames: Frames::new(alloc),
            obligations: Obligations::new(alloc),
            uses: vec![in alloc; 0; places]?,
        })
    }

    // Searches level by level.
    pub fn run(&mut self) -> Result<Reached, Stop> {
        if self.queries.breaks(0)? {
            return Ok(Reached::Met(Entry::Before(NONE)));
        }
        self.queries.add_level()?;
        for _ in 0..u64::MAX {
            if let Some(entry) = self.clear_breaks()? {
                return Ok(Reached::Met(entry));
            }
            if let Some(level) = self.push_clauses()? {
                return Ok(Reached::Closed(level));
            }
        }
        Err(Stop::Spent)
    }

    // Excludes all states at the top level that break an assertion.
    fn clear_breaks(&mut self) -> Result<Option<Entry>, Stop> {
        let top = self.queries.top();
        for _ in 0..u64::MAX {
            if !self.queries.breaks(top)? {
                return Ok(None);
            }
            let cube = self.queries.lift_break()?;
            self.obligations.clear();
            let place = self.obligations.push(cube, NONE)?;
            if let Some(entry) = self.oblige(place, top)? {
                return Ok(Some(entry));
            }
            if let Some(entry) = self.discharge()? {
                return Ok(Some(entry));
            }
        }
        Ok(None)
    }

    // An obligation waits, unless its cube has a start.
    fn oblige(&mut self, place: u32, level: u32) -> Result<Option<Entry>, Stop> {
        if !self.queries.is_free(self.obligations.cube(place))? {
            return Ok(Some(Entry::Inside(place)));
        }
        self.obligations.wait(place, level)?;
        Ok(None)
    }

    // Excludes all cubes that wait.
    fn discharge(&mut self) -> Result<Option<Entry>, Stop> {
        for _ in 0..u64::MAX {
            let Some((place, level)) = self.obligations.pop() else {
                break;
            };
            let entry = self.exclude(place, level)?;
            if entry.is_some() {
                return Ok(entry);
            }
        }
        Ok(None)
    }

    // Excludes the cube of an obligation at a level, or finds one that leads into it.
    fn exclude(&mut self, place: u32, level: u32) -> Result<Option<Entry>, Stop> {
        let known = self.frames.level_of(self.obligations.cube(place));
        if known >= level {
            self.wait_above(place, known)?;
            return Ok(None);
        }
        self.queries.renew_if_due(&self.frames)?;
        let cube = self.obligations.cube(place);
        let below = level.saturating_sub(1);
        if self.queries.reaches(cube, below, true)? {
            if below == 0 {
                return Ok(Some(Entry::Before(place)));
            }
            let cube = self.queries.lift_step(cube)?;
            self.obligations.wait(place, level)?;
            let before = self.obligations.push(cube, place)?;
            return self.oblige(before, below);
        }
        let core = self.reduce(place)?;
        let cube = self.generalize(core, below)?;
        let level = self.learn(cube, level)?;
        self.wait_above(place, level)?;
        Ok(None)
    }

    // An obligation waits above a level, if there is one.
    fn wait_above(&mut self, place: u32, level: u32) -> Result<(), Stop> {
        if level < self.queries.top() {
            self.obligations.wait(place, level.saturating_add(1))?;
        }
        Ok(())
    }

    // The part of an obligation's cube on which the last answer rested.
    fn reduce(&mut self, place: u32) -> Result<Vec<Lit>, Stop> {
        let cube = self.obligations.cube(place);
        let core = self.queries.core_of(cube)?;
        self.queries.free_within(core, cube)
    }

    // Drops literals of a cube that no step from a level leads into, so long as none does.
    fn generalize(&mut self, cube: Vec<Lit>, level: u32) -> Result<Vec<Lit>, Stop> {
        let mut cube = cube;
        let mut order = Vec::from_slice(self.queries.alloc, cube.as_slice())?;
        let uses = &self.uses;
        order.sort_by_key(|l| at(uses, l.index(), 0))?;
        let mut misses: u32 = 0;
        for place in 0..order.len() {
            let l = order[place];
            if cube.len() <= 1 || misses >= MISSES {
                break;
            }
            if !cube.contains(&l) {
                continue;
            }
            match self.try_without(&cube, l, level)? {
                Some(smaller) => {
                    cube = smaller;
                    misses = 0;
                }
                None => misses += 1,
            }
        }
        Ok(cube)
    }

    // The cube without a literal, or a part of it, if no step from the level leads into it.
    fn try_without(&mut self, cube: &[Lit], l: Lit, level: u32) -> Result<Option<Vec<Lit>>, Stop> {
        let mut smaller = Vec::new(self.queries.alloc);
        for m in cube {
            if *m != l {
                smaller.push(*m)?;
            }
        }
        if !self.queries.is_free(&smaller)? || self.queries.reaches(&smaller, level, true)? {
            return Ok(None);
        }
        let core = self.queries.core_of(&smaller)?;
        let core = self.queries.free_within(core, &smaller)?;
        Ok(Some(core))
    }

    // Excludes a cube at a level, and at the higher ones that no step leads into it from. Returns the highest.
    fn learn(&mut self, cube: Vec<Lit>, level: u32) -> Result<u32, Stop> {
        let mut cube = cube;
        let mut level = level;
        for _ in level..self.queries.top() {
            if self.queries.reaches(&cube, level, true)? {
                break;
            }
            let core = self.queries.core_of(&cube)?;
            cube = self.queries.free_within(core, &cube)?;
            level = level.saturating_add(1);
        }
        for place in 0..cube.len() {
            let index = cube[place].index();
            let uses = at(&self.uses, index, 0);
            set(&mut self.uses, index, uses.saturating_add(1));
        }
        self.queries.exclude(&cube, level)?;
        self.frames.add(cube, level)?;
        Ok(level)
    }

    // Excludes each cube one level higher, where no step leads into it. Returns the level at which none is left, if there is one.
    fn push_clauses(&mut self) -> Result<Option<u32>, Stop> {
        let top = self.queries.top();
        self.queries.add_level()?;
        self.frames.compact(self.queries.alloc)?;
        for level in 1..top.saturating_add(1) {
            self.push_level(level)?;
            if self.frames.is_empty_at(level) {
                return Ok(Some(level));
            }
        }
        Ok(None)
    }

    // Excludes each cube of a level one level higher, where no step leads into it.
    fn push_level(&mut self, level: u32) -> Result<(), Stop> {
        for place in 0..self.frames.lemmas.len() {
            let Some(lemma) = self.frames.lemmas.get(place) else {
                break;
            };
            if lemma.level != level {
                continue;
            }
            self.queries.renew_if_due(&self.frames)?;
            let Some(lemma) = self.frames.lemmas.get(place) else {
                break;
            };
            if self.queries.reaches(&lemma.cube, level, false)? {
                continue;
            }
            let core = self.queries.core_of(&lemma.cube)?;
            let cube = self.queries.free_within(core, &lemma.cube)?;
            let above = level.saturating_add(1);
            self.queries.exclude(&cube, above)?;
            self.queries.waste(1);
            self.frames.add(cube, above)?;
        }
        Ok(())
    }
}
