// The order in which variables are decided: in focused mode of a job those come first that a conflict rested on last, else those that
// conflicts rested on lately, by activities that fade (VSIDS: Moskewicz and others, 2001; Eén and Sörensson, 2003). Nothing is promised of
// it.

ghost use Rattle.std.specs.Prelude.{◌<◌};

use crate::goals::Goals;
use crate::lucky::Lucky;
use crate::passed::Passed;
use crate::queue::Queue;
use crate::rephasing::Rephasing;
use cnf_form::Lit;
use std::alloc::{AllocError, Global};
use unit_propagation::Propagator;

// Where an activity is halved with all others.
const MAX_ACTIVITY: u64 = 1 << 60;

// One in this many stretches in stable mode begins with all variables true.
const TURNED: u32 = 8;

// The place of a variable that isn't in the heap.
const NO_PLACE: u32 = 0xffff_ffff;

#[derive(Drop)]
pub struct Order {
    heap: Vec<u32>,
    places: Vec<u32>,
    activities: Vec<u64>,
    phases: Vec<bool>,
    queue: Queue,
    has_queue: bool,
    passed: Passed,
    step: u64,
    pub goals: Goals,
    pub lucky: Lucky,
    stable: bool,
    probing: bool,
    stretches: u32,
    targets: Vec<bool>,
    longest: usize,
    pub(crate) rephasing: Rephasing,
}

impl Order {
    pub fn new(alloc: Global, vars: u32, has_goal: bool) -> Result<Self, AllocError>
        requires { vars < 0xffff_ffff }
    {
        let mut heap = Vec::new(alloc);
        let mut places = Vec::new(alloc);
        places.push(NO_PLACE)?;
        for place in 0..vars {
            heap.push(place + 1)?;
            places.push(place)?;
        }
        let activities = vec![in alloc; 0; vars as usize + 1]?;
        let phases = vec![in alloc; true; vars as usize + 1]?;
        let targets = vec![in alloc; true; vars as usize + 1]?;
        Ok(Order {
            heap,
            places,
            activities,
            phases,
            queue: Queue::new(alloc, vars)?,
            has_queue: has_goal,
            passed: Passed::new(alloc, vars)?,
            step: 1 << 20,
            goals: Goals::new(has_goal),
            lucky: Lucky::new(has_goal),
            stable: false,
            probing: false,
            stretches: 0,
            targets,
            longest: 0,
            rephasing: Rephasing::new(),
        })
    }

    /// How many variables are in the heap.
    pub fn len(&self) -> usize {
        self.heap.len()
    }

    /// Whether a variable is to be false: its phase (Pipatsrisawat and Darwiche, 2007), which is as it was last; in stable mode its target
    /// phase (Biere and Fleury, 2020), which is as it was on the longest trail of the stretch.
    pub fn phase(&self, var: u32) -> bool {
        let phase = if self.stable {
            self.targets.get(var as usize)
        } else {
            self.phases.get(var as usize)
        };
        match phase {
            Some(phase) => *phase,
            None => true,
        }
    }

    /// A stretch in stable mode, or focused mode, goes on or begins. Some in stable mode begin with all variables true (rephasing:
    /// Biere and Fleury, 2020), the others with the phases that variables had last.
    pub fn set_stable(&mut self, stable: bool) {
        if stable && !self.stable {
            self.longest = 0;
            self.stretches = self.stretches.saturating_add(1);
            let turned = self.stretches % TURNED == 4;
            for index in 0..self.targets.len() {
                if index < self.phases.len() {
                    self.targets[index] = !turned && self.phases[index];
                }
            }
        }
        self.stable = stable;
    }

    /// Decisions are probes, from now on or not any more: no phase is kept of them.
    pub fn set_probing(&mut self, probing: bool) {
        self.probing = probing;
    }

    /// Whether local search is to begin or to go on, once guesses are over.
    pub fn wants_local_search(&self) -> bool {
        self.rephasing.is_due() && !self.lucky.is_left()
    }

    /// Whether local search is to begin.
    pub fn wants_first_local_search(&self) -> bool {
        self.wants_local_search() && self.rephasing.count() == 0
    }

    /// Sets the phases of variables. Goals don't come first any more where these satisfy all clauses.
    pub fn set_phases(&mut self, phases: &[bool], satisfy: bool) {
        for index in 0..phases.len() {
            if index < self.phases.len() {
                self.phases[index] = phases[index];
            }
            if index < self.targets.len() {
                self.targets[index] = phases[index];
            }
        }
        if satisfy {
            self.goals.end();
        }
    }

    /// Keeps the phases of these true literals, where they are the most of a stretch in stable mode.
    pub fn save_target(&mut self, lits: &[Lit]) {
        if !self.stable || lits.len() <= self.longest {
            return;
        }
        self.longest = lits.len();
        for l in lits {
            let index = l.var() as usize;
            if index < self.targets.len() {
                self.targets[index] = l.is_negated();
            }
        }
    }

    fn activity(&self, var: u32) -> u64 {
        match self.activities.get(var as usize) {
            Some(activity) => *activity,
            None => 0,
        }
    }

    // The variable at a place of the heap.
    fn at(&self, place: usize) -> u32 {
        match self.heap.get(place) {
            Some(var) => *var,
            None => 0,
        }
    }

    fn set(&mut self, place: usize, var: u32) {
        if place < self.heap.len() && place < 0xffff_ffff {
            self.heap[place] = var;
            if (var as usize) < self.places.len() {
                self.places[var as usize] = place as u32;
            }
        }
    }

    // Moves a variable up from a place.
    fn rise(&mut self, place: usize) {
        let var = self.at(place);
        let activity = self.activity(var);
        let mut place = place;
        for _ in 0..64 {
            if place == 0 {
                break;
            }
            let parent = (place - 1) / 2;
            let other = self.at(parent);
            if self.activity(other) >= activity {
                break;
            }
            self.set(place, other);
            place = parent;
        }
        self.set(place, var);
    }

    // Of the two places below one, that of the more active variable.
    fn child(&self, place: usize) -> usize {
        let left = place.saturating_mul(2).saturating_add(1);
        let right = left.saturating_add(1);
        if right < self.heap.len() && self.activity(self.at(right)) > self.activity(self.at(left)) {
            right
        } else {
            left
        }
    }

    // Moves a variable down from a place.
    fn sink(&mut self, place: usize) {
        let var = self.at(place);
        let activity = self.activity(var);
        let mut place = place;
        for _ in 0..64 {
            let child = self.child(place);
            if child >= self.heap.len() {
                break;
            }
            let other = self.at(child);
            if self.activity(other) <= activity {
                break;
            }
            self.set(place, other);
            place = child;
        }
        self.set(place, var);
    }

    /// Removes the most active variable from the heap, and returns it, or 0.
    pub fn pop(&mut self) -> u32 {
        let top = self.at(0);
        if let Some(last) = self.heap.pop() {
            if (top as usize) < self.places.len() {
                self.places[top as usize] = NO_PLACE;
            }
            if last != top {
                self.set(0, last);
                self.sink(0);
            }
        }
        top
    }

    /// A variable is passed over from now on: it is decided after all others.
    pub fn pass_over(&mut self, var: u32) -> Result<(), AllocError> {
        self.passed.push(var)
    }

    /// Whether a variable is passed over.
    pub fn is_passed(&self, var: u32) -> bool {
        self.passed.has(var)
    }

    /// The unassigned variable that comes first of those that are passed over, or 0.
    pub fn next_passed(&mut self, core: &Propagator) -> u32 {
        self.passed.next(core)
    }

    /// A variable is unassigned again: keeps the phase that it had, unless that was guessed or of a probe.
    pub fn unassign(&mut self, var: u32, phase: bool) -> Result<(), AllocError> {
        let index = var as usize;
        self.rephasing.count_unassigned();
        self.queue.unassign(var);
        self.passed.unassign(var);
        if index < self.phases.len() && !self.probing && !self.lucky.is_left() {
            self.phases[index] = phase;
        }
        if index < self.places.len() && self.places[index] == NO_PLACE {
            let place = self.heap.len();
            self.heap.push(var)?;
            self.set(place, var);
            self.rise(place);
        }
        Ok(())
    }

    // Whether variables are decided by the queue: in focused mode, where the formula is that of a job over several cycles. Others are
    // solved sooner by activities.
    fn is_by_queue(&self) -> bool {
        self.has_queue && !self.stable
    }

    /// The unassigned variable that comes first, where the queue decides, else 0.
    pub fn front(&mut self, core: &Propagator) -> u32 {
        if !self.is_by_queue() {
            return 0;
        }
        self.queue.front(core, &self.passed.marks)
    }

    /// A conflict rested on a variable, which has a value.
    pub fn bump(&mut self, var: u32) -> Result<(), AllocError> {
        if self.is_by_queue() {
            return self.queue.push(var);
        }
        self.activate(var);
        Ok(())
    }

    // Makes a variable more active.
    fn activate(&mut self, var: u32) {
        let index = var as usize;
        if index < self.activities.len() {
            self.activities[index] = self.activities[index].saturating_add(self.step);
            if self.activities[index] > MAX_ACTIVITY {
                self.shrink();
            }
        }
        if index < self.places.len() {
            let place = self.places[index];
            if place != NO_PLACE {
                self.rise(place as usize);
            }
        }
    }

    /// Later conflicts count more than this one.
    pub fn decay(&mut self) {
        if self.is_by_queue() {
            self.queue.move_all();
            return;
        }
        self.step = self.step.saturating_add(self.step / 20);
    }

    // Makes all activities smaller, in the same order but for ties.
    fn shrink(&mut self) {
        for index in 0..self.activities.len() {
            self.activities[index] /= 1 << 40;
        }
        self.step = self.step / (1 << 40) + 1;
    }
}
