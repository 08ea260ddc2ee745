// Watched literals.

use cnf_form::Lit;

// In `from`: the clause was removed.
pub const GONE: u32 = 0xffff_ffff;

// Where a clause's literals begin, where the search for another watch does, and the two literals that it watches. It
// watches nothing where they are the same.
#[derive(Clone, Copy)]
pub struct Head {
    pub start: u32,
    pub from: u32,
    pub left: Lit,
    pub right: Lit,
}

// An entry of a literal's watch list: a clause, and another literal of it.
#[derive(Clone, Copy)]
pub struct Watch {
    pub clause: u32,
    pub blocker: Lit,
}

// The place of a literal on the trail, and the clause that made it true.
#[derive(Clone, Copy)]
pub struct Origin {
    pub place: u32,
    pub reason: u32,
}
