// The order in which variables are decided: those first that conflicts rested on lately, by activities that fade (VSIDS: Moskewicz and
// others, 2001; Eén and Sörensson, 2003).

use crate::list::{at, narrow, set};
use std::alloc::{AllocError, Global};

// Where an activity is lessened with all others.
const MAX_ACTIVITY: u64 = 1 << 60;

// The place of a variable that isn't in the heap.
const NO_PLACE: u32 = 0xffff_ffff;

// A heap of variables by their activities.
#[derive(Drop)]
pub(crate) struct Order {
    heap: Vec<u32>,
    places: Vec<u32>,
    activities: Vec<u64>,
    step: u64,
}

impl Order {
    // An order without variables.
    pub fn new(alloc: Global) -> Self {
        Order {
            heap: Vec::new(alloc),
            places: Vec::new(alloc),
            activities: Vec::new(alloc),
            step: 1 << 20,
        }
    }

    // Adds places in the tables for one more variable.
    pub fn grow(&mut self) -> Result<(), AllocError> {
        self.places.push(NO_PLACE)?;
        self.activities.push(0)?;
        Ok(())
    }

    fn activity(&self, var: u32) -> u64 {
        at(&self.activities, var as usize, 0)
    }

    fn put(&mut self, place: usize, var: u32) {
        set(&mut self.heap, place, var);
        set(&mut self.places, var as usize, narrow(place));
    }

    // Moves a variable up from a place.
    fn rise(&mut self, place: usize) {
        let var = at(&self.heap, place, 0);
        let activity = self.activity(var);
        let mut place = place;
        for _ in 0..64 {
            if place == 0 {
                break;
            }
            let parent = (place - 1) / 2;
            let other = at(&self.heap, parent, 0);
            if self.activity(other) >= activity {
                break;
            }
            self.put(place, other);
            place = parent;
        }
        self.put(place, var);
    }

    // Of the two places below one, that of the more active variable.
    fn child(&self, place: usize) -> usize {
        let left = place.saturating_mul(2).saturating_add(1);
        let right = left.saturating_add(1);
        let active = |place: usize| self.activity(at(&self.heap, place, 0));
        if right < self.heap.len() && active(right) > active(left) {
            right
        } else {
            left
        }
    }

    // Moves a variable down from a place.
    fn sink(&mut self, place: usize) {
        let var = at(&self.heap, place, 0);
        let activity = self.activity(var);
        let mut place = place;
        for _ in 0..64 {
            let child = self.child(place);
            if child >= self.heap.len() {
                break;
            }
            let other = at(&self.heap, child, 0);
            if self.activity(other) <= activity {
                break;
            }
            self.put(place, other);
            place = child;
        }
        self.put(place, var);
    }

    // Removes the most active variable from the heap, and returns it, or 0.
    pub fn pop(&mut self) -> u32 {
        let top = at(&self.heap, 0, 0);
        if let Some(last) = self.heap.pop() {
            set(&mut self.places, top as usize, NO_PLACE);
            if last != top {
                self.put(0, last);
                self.sink(0);
            }
        }
        top
    }

    // Removes all variables from the heap.
    pub fn clear(&mut self) {
        for place in 0..self.heap.len() {
            let var = at(&self.heap, place, 0);
            set(&mut self.places, var as usize, NO_PLACE);
        }
        self.heap.clear();
    }

    // A variable is unassigned again.
    pub fn insert(&mut self, var: u32) -> Result<(), AllocError> {
        let place = at(&self.places, var as usize, 0);
        if place == NO_PLACE {
            let place = self.heap.len();
            self.heap.push(var)?;
            self.put(place, var);
            self.rise(place);
        }
        Ok(())
    }

    // A conflict rested on a variable.
    pub fn bump(&mut self, var: u32) {
        let activity = self.activity(var).saturating_add(self.step);
        set(&mut self.activities, var as usize, activity);
        if activity > MAX_ACTIVITY {
            self.lessen();
        }
        let place = at(&self.places, var as usize, NO_PLACE);
        if place != NO_PLACE {
            self.rise(place as usize);
        }
    }

    fn lessen(&mut self) {
        for place in 0..self.activities.len() {
            let activity = at(&self.activities, place, 0);
            set(&mut self.activities, place, activity >> 40);
        }
        self.step = (self.step >> 40).max(1);
    }

    // Later conflicts count more than this one.
    pub fn decay(&mut self) {
        self.step = self.step.saturating_add(self.step / 16 + 1);
    }
}
