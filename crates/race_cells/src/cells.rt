// Cells that are set once.

ghost use Rattle.std.specs.Prelude.{◌≡◌, ◌<◌, IfOk, OnErr, None, Some, length, map};
ghost use Rattle.std.specs.Option.{MatchOption};
ghost use Rattle.race_cells.specs.Notes.{AreNotesOf, Learns, fresh, known_at};
ghost use Rattle.race_cells.specs.Settling.{Settles};

use crate::notes::Notes;
use once_cell::race::OnceBox;
use sby_terms::Settled;
use std::alloc::{AllocError, Global};
use std::marker::Model;

/// What came of settling a cell.
#[derive(Drop, Debug)]
pub enum Settling<T> {
    /// The cell was empty, and now has the value.
    Won,
    /// The cell has a value already. This is the one that was passed.
    Lost(T),
}

/// One cell for each job of a task, each set at most once, by whichever thread comes first. Contracts see the names of the cells.
#[derive(Drop)]
pub struct Cells<T> {
    cells: Vec<OnceBox<T>>,
}

impl<T> Model for Cells<T> {
    ghost use Rattle.std.specs.Prelude.{ℕ, List, map};
    ghost use Rattle.once_cell.specs.Once.{cell_name};

    ghost Value = { List ℕ };

    ghost view = { λ c. map cell_name c.cells.items };
}

impl<T: Settled + Drop> Cells<T> {
    /// An empty cell for each of this many jobs.
    pub fn new(alloc: Global, jobs: u32) -> Result<Self, AllocError>
        ensures { IfOk result (λ cells. length cells ≡ jobs) }
    {
        let mut cells = Vec::with_capacity(alloc, jobs as usize)?;
        for _ in 0..jobs {
            cells.push(OnceBox::new(alloc))?;
        }
        Ok(Cells { cells })
    }

    /// Notes that know nothing of these cells yet.
    pub fn notes(&self, alloc: Global) -> Result<Notes<T>, AllocError>
        ensures fresh { IfOk result (λ notes. notes ≡ map fresh self.now) }
        ensures notes { IfOk result (λ notes. AreNotesOf self.now notes) }
    {
        Notes::of(alloc, &self.cells)
    }

    /// Sets the job's cell to the value, where it is empty. Either way the note knows the cell's value afterwards, and that stays for
    /// good. After an answer out of memory the value is gone, and the notes are as before.
    pub fn settle(
        &self,
        alloc: Global,
        job: u32,
        value: T,
        notes: &mut Notes<T>,
    ) -> Result<Settling<T>, AllocError>
        requires place { job < length self.now }
        requires notes { AreNotesOf self.now notes.old }
        ensures notes { AreNotesOf self.now notes.new }
        ensures settling { IfOk result (Settles job value notes.old notes.new) }
        ensures memory { OnErr result (notes.new ≡ notes.old) }
    {
        let cell = &self.cells[job as usize];
        notes.settle(alloc, job as usize, cell, value)
    }

    /// The value of the job's cell, once it has one. What a note knows is found at each later look.
    pub fn look<'a>(&'a self, job: u32, notes: &mut Notes<T>) -> Option<&'a T>
        requires place { job < length self.now }
        requires notes { AreNotesOf self.now notes.old }
        ensures notes { AreNotesOf self.now notes.new }
        ensures value { MatchOption result ((known_at notes.old job ≡ None) × (notes.new ≡ notes.old)) (λ value. Learns job value.now notes.old notes.new) }
    {
        let cell = &self.cells[job as usize];
        notes.look(job as usize, cell)
    }
}
