// Where the children of scripts are live. What stands under the lock, no clause can name.

use sby_terms::JobName;
use std::alloc::{AllocError, Global};
use std::sync::{Mutex, Wait};

// Whose child it is.
#[derive(Clone, Copy, Debug, PartialEq, Eq)]
pub struct Role {
    pub task: u32,
    pub lane: u32,
    pub job: JobName,
}

// A child that was started, the child that it is to meet, and what came of it.
#[derive(Drop)]
struct Actor {
    role: Role,
    partner: Option<Role>,
    is_live: bool,
    standing: Standing,
}

#[derive(Clone, Copy, Debug)]
pub struct Standing {
    // It and its partner have been live at one moment.
    pub has_met: bool,
    pub is_killed: bool,
    // Its pipe gave the stream's end.
    pub has_ended: bool,
    // How many bytes its pipe gave.
    pub given: usize,
}

#[derive(Clone, Copy, Debug, PartialEq, Eq)]
pub enum Turn {
    Killed,
    // Its pipe gave this many bytes in all.
    Gave(usize),
    Ended,
    Reaped,
}

#[derive(Drop)]
struct Actors {
    list: Vec<Actor>,
}

impl Actors {
    fn enter(&mut self, role: Role, partner: Option<Role>) -> Result<usize, AllocError> {
        let place = self.list.len();
        let has_met = self
            .list
            .iter()
            .any(|actor| actor.is_live && partner == Some(actor.role));
        self.list.push(Actor {
            role,
            partner,
            is_live: true,
            standing: Standing {
                has_met,
                is_killed: false,
                has_ended: false,
                given: 0,
            },
        })?;
        for actor in self.list.iter_mut() {
            if actor.is_live && actor.partner == Some(role) {
                actor.standing.has_met = true;
            }
        }
        Ok(place)
    }

    fn take(&mut self, place: usize, turn: Turn) {
        if let Some(actor) = self.list.get_mut(place) {
            match turn {
                Turn::Killed => actor.standing.is_killed = true,
                Turn::Gave(given) => actor.standing.given = given,
                Turn::Ended => actor.standing.has_ended = true,
                Turn::Reaped => actor.is_live = false,
            }
        }
    }

    fn standing(&self, place: usize) -> Option<Standing> {
        self.list.get(place).map(|actor| actor.standing)
    }
}

/// Where the children of a yard of scripts are live, so that one can wait for another.
#[derive(Drop)]
pub struct Stage {
    actors: Mutex<Actors>,
}

impl Stage {
    pub fn new(alloc: Global) -> Self {
        Stage {
            actors: Mutex::new(Actors {
                list: Vec::new(alloc),
            }),
        }
    }

    // A child starts. Answers its place.
    pub(crate) fn enter<R: Wait>(
        &self,
        rt: &R,
        role: Role,
        partner: Option<Role>,
    ) -> Result<usize, AllocError> {
        self.actors.lock(rt).enter(role, partner)
    }

    pub(crate) fn take<R: Wait>(&self, rt: &R, place: usize, turn: Turn) {
        self.actors.lock(rt).take(place, turn);
    }

    pub(crate) fn standing<R: Wait>(&self, rt: &R, place: usize) -> Option<Standing> {
        self.actors.lock(rt).standing(place)
    }
}
