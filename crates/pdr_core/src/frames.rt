// The clauses of the frames: each excludes a cube of state bits up to a level.

use cnf_form::Lit;
use std::alloc::{AllocError, Global};

// A cube that no run within `level` steps of a start reaches. At level 0 it doesn't count any more.
#[derive(Drop)]
pub(crate) struct Lemma {
    pub(crate) cube: Vec<Lit>,
    pub(crate) level: u32,
    signature: u64,
}

#[derive(Drop)]
pub(crate) struct Frames {
    pub(crate) lemmas: Vec<Lemma>,
}

// A bit for each literal of a cube, of 64: a cube within another has no other bits.
fn signature(cube: &[Lit]) -> u64 {
    let mut bits: u64 = 0;
    for l in cube {
        bits |= 1u64 << (l.index() % 64);
    }
    bits
}

// The first index from one on at which a cube has no lower bit than a literal's.
fn place_of(cube: &[Lit], l: Lit, place: usize) -> usize {
    for at in place..cube.len() {
        if cube[at].var() >= l.var() {
            return at;
        }
    }
    cube.len()
}

// Whether each literal of a cube is one of another. Both are in the order of their bits.
pub(crate) fn is_within(cube: &[Lit], other: &[Lit]) -> bool {
    let mut place: usize = 0;
    for l in cube {
        place = place_of(other, *l, place);
        match other.get(place) {
            Some(m) if *m == *l => {}
            _ => return false,
        }
    }
    true
}

impl Frames {
    pub fn new(alloc: Global) -> Self {
        Frames {
            lemmas: Vec::new(alloc),
        }
    }

    // The highest level at which a cube is known to be excluded, or 0.
    pub fn level_of(&self, cube: &[Lit]) -> u32 {
        let bits = signature(cube);
        let mut level = 0;
        for lemma in &self.lemmas {
            if lemma.level > level && lemma.signature & !bits == 0 && is_within(&lemma.cube, cube) {
                level = lemma.level;
            }
        }
        level
    }

    // Adds a cube after the others, of which those that it makes needless don't count any more.
    pub fn add(&mut self, cube: Vec<Lit>, level: u32) -> Result<(), AllocError> {
        let bits = signature(&cube);
        for place in 0..self.lemmas.len() {
            let Some(lemma) = self.lemmas.get_mut(place) else {
                break;
            };
            if lemma.level > 0
                && lemma.level <= level
                && bits & !lemma.signature == 0
                && is_within(&cube, &lemma.cube)
            {
                lemma.level = 0;
            }
        }
        self.lemmas.push(Lemma {
            cube,
            level,
            signature: bits,
        })?;
        Ok(())
    }

    // Whether no cube is excluded up to this level and no further.
    pub fn is_empty_at(&self, level: u32) -> bool {
        for lemma in &self.lemmas {
            if lemma.level == level {
                return false;
            }
        }
        true
    }

    // The cubes that are excluded above a level.
    pub fn above(&self, alloc: Global, level: u32) -> Result<Vec<Vec<Lit>>, AllocError> {
        let mut cubes = Vec::new(alloc);
        for lemma in &self.lemmas {
            if lemma.level > level {
                cubes.push(Vec::from_slice(alloc, &lemma.cube)?)?;
            }
        }
        Ok(cubes)
    }

    // Removes the cubes that don't count any more.
    pub fn compact(&mut self, alloc: Global) -> Result<(), AllocError> {
        let mut kept = Vec::new(alloc);
        for _ in 0..self.lemmas.len() {
            if let Some(lemma) = self.lemmas.pop() {
                if lemma.level > 0 {
                    kept.push(lemma)?;
                }
            }
        }
        kept.reverse();
        self.lemmas = kept;
        Ok(())
    }
}
