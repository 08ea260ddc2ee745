// The handles through which a call reaches the outside.

ghost use Rattle.std.specs.Prelude.{◌≡◌, ℕ};
ghost use Rattle.sby_top.specs.World.{World, world_at};
ghost use Rattle.task_race.specs.Bays.{counts_at, yard_at};

use sby_edge::{Clock, Files, Sink, Yard};
use std::alloc::Global;
use std::sync::Wait;
use std::thread::Threads;

/// What handles show of the outside, for clauses alone.
pub trait Outside {
    /// The outside at this moment.
    ghost world: { Self → World };

    /// A reading that the clock may give.
    ghost may_read: { Self → ℕ → Type 0 };

    /// The second has the first's handles.
    ghost keeps: { Self → Self → Type 0 };
}

/// The handles of a call: where its threads start, its memory, its files, its output, its children and its clock.
#[derive(Drop)]
pub struct Host<'h, R, F, S, Y, C> {
    pub rt: &'h R,
    pub alloc: Global,
    pub files: &'h mut F,
    pub out: &'h mut S,
    pub yard: &'h mut Y,
    pub clock: &'h C,
}

impl<R: Threads + Wait + Sync, F: Files, S: Sink, Y: Yard, C: Clock> Outside
    for Host<'_, R, F, S, Y, C> {
    ghost world = { λ h. world_at (F.told h.files.now) (F.faults h.files.now) (F.blamed h.files.now)
        (S.taken h.out.now) (S.faults h.out.now) (S.ended h.out.now)
        (yard_at (Y.told h.yard.now) (Y.started h.yard.now) (counts_at (Y.start_faults h.yard.now) (Y.read_faults h.yard.now) (Y.hold_faults h.yard.now))) };

    ghost may_read = { λ h. C.may_read h.clock.now };

    ghost keeps = { λ h g. (g.files.ghost_name ≡ h.files.ghost_name) × (g.out.ghost_name ≡ h.out.ghost_name)
        × (g.yard.ghost_name ≡ h.yard.ghost_name) × (g.clock.now ≡ h.clock.now) };
}
