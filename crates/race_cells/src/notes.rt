// What a thread knows of the cells of a race.

ghost use Rattle.std.specs.Prelude.{◌≡◌, ◌<◌, Some, None, IfOk, IfSome, OnErr, slice_get, length, map};
ghost use Rattle.race_cells.specs.Notes.{NoteOf, Agree, Agrees, Learns, both, fresh, joined, known_at, knowing};
ghost use Rattle.once_cell.specs.Once.{cell_name};
ghost use Rattle.race_cells.specs.Settling.{Settles, SettlesOne};
ghost use Rattle.std.specs.Option.{MatchOption};

use crate::cells::Settling;
use once_cell::race::{Note, OnceBox};
use sby_terms::Settled;
use std::alloc::{AllocError, Global};
use std::marker::Model;

// The note of one cell, and whether it knows the cell's value.
#[derive(Drop)]
struct Noted<T> {
    note: Note<T>,
    knows: bool,
}

impl<T> Model for Noted<T> {
    ghost use Rattle.std.specs.Prelude.{◌≡◌, is_some};
    ghost use Rattle.race_cells.specs.Notes.{NoteOf};

    ghost Value = { NoteOf T };

    ghost view = { λ n. record { cell = n.note.cell; known = n.note.known } };

    ghost invariant = { λ n. n.knows ≡ is_some n.note.known };
}

impl<T: Drop> Noted<T> {
    fn of(cell: &OnceBox<T>) -> Noted<T>
        ensures { result ≡ fresh (cell_name cell.now) }
    {
        Noted {
            note: cell.note(),
            knows: false,
        }
    }

    fn look<'a>(&mut self, cell: &'a OnceBox<T>) -> Option<&'a T>
        requires { self.old.cell ≡ cell_name cell.now }
        ensures cell { self.new.cell ≡ self.old.cell }
        ensures value { MatchOption result ((self.old.known ≡ None) × (self.new ≡ self.old)) (λ value. (self.new ≡ knowing value.now self.old) × Agrees self.old.known value.now) }
    {
        let value = cell.get_as(&mut self.note)?;
        self.knows = true;
        Some(value)
    }

    fn again(&mut self) -> Noted<T>
        ensures same { self.new ≡ self.old }
        ensures result { result ≡ self.old }
    {
        Noted {
            note: self.note.again(),
            knows: self.knows,
        }
    }

    fn agree(&mut self, other: &mut Noted<T>)
        requires { other.old.cell ≡ self.old.cell }
        ensures agree { IfSome other.old.known (Agrees self.old.known) }
        ensures same { (self.new ≡ self.old) × (other.new ≡ other.old) }
    {
        let Noted { note, knows: _ } = other.again();
        self.note.compare(note);
    }

    fn join(&mut self, other: Noted<T>)
        requires { other.cell ≡ self.old.cell }
        ensures joined { self.new ≡ both self.old other }
        ensures agree { IfSome other.known (Agrees self.old.known) }
    {
        if self.knows {
            let Noted { note, knows: _ } = other;
            self.note.compare(note);
        } else {
            *self = other;
        }
    }
}

impl<T: Settled + Drop> Noted<T> {
    fn settle(
        &mut self,
        alloc: Global,
        cell: &OnceBox<T>,
        value: T,
    ) -> Result<Settling<T>, AllocError>
        requires { self.old.cell ≡ cell_name cell.now }
        ensures cell { self.new.cell ≡ self.old.cell }
        ensures settling { IfOk result (SettlesOne value self.old self.new) }
        ensures memory { OnErr result (self.new ≡ self.old) }
    {
        let boxed = Box::new(alloc, value)?;
        let answer = cell.set_as(boxed, &mut self.note);
        self.knows = true;
        match answer {
            Ok(()) => Ok(Settling::Won),
            Err(back) => Ok(Settling::Lost(Box::into_inner(back))),
        }
    }
}

/// What a thread knows of the cells of a race. Contracts see a list: of each cell its name, and its value, once that was seen.
#[derive(Drop)]
pub struct Notes<T> {
    notes: Vec<Noted<T>>,
}

impl<T> Model for Notes<T> {
    ghost use Rattle.std.specs.Prelude.{List};
    ghost use Rattle.race_cells.specs.Notes.{NoteOf};

    ghost Value = { List (NoteOf T) };

    ghost view = { λ n. n.notes.items };
}

impl<T: Drop> Notes<T> {
    // Notes that know nothing yet.
    pub(crate) fn of(alloc: Global, cells: &[OnceBox<T>]) -> Result<Self, AllocError>
        ensures { IfOk result (λ notes. notes ≡ map fresh (map cell_name cells.now)) }
    {
        let mut notes = Vec::with_capacity(alloc, cells.len())?;
        for cell in cells {
            notes.push(Noted::of(cell))?;
        }
        Ok(Notes { notes })
    }

    pub(crate) fn look<'a>(&mut self, place: usize, cell: &'a OnceBox<T>) -> Option<&'a T>
        requires place { place < length self.old }
        requires cell { slice_get (map (λ n. n.cell) self.old) place ≡ Some (cell_name cell.now) }
        ensures cells { map (λ n. n.cell) self.new ≡ map (λ n. n.cell) self.old }
        ensures value { MatchOption result ((known_at self.old place ≡ None) × (self.new ≡ self.old)) (λ value. Learns place value.now self.old self.new) }
    {
        self.notes[place].look(cell)
    }

    /// Second notes, as for another thread. They know the same.
    pub fn again(&mut self, alloc: Global) -> Result<Self, AllocError>
        ensures same { self.new ≡ self.old }
        ensures result { IfOk result (λ again. again ≡ self.old) }
    {
        let mut notes = Vec::with_capacity(alloc, self.notes.len())?;
        for place in 0..self.notes.len() {
            notes.push(self.notes[place].again())?;
        }
        Ok(Notes { notes })
    }

    /// Where both know the value of a cell, they know the same.
    pub fn agree(&mut self, other: &mut Notes<T>)
        requires { map (λ n. n.cell) other.old ≡ map (λ n. n.cell) self.old }
        ensures agree { Agree self.old other.old }
        ensures same { (self.new ≡ self.old) × (other.new ≡ other.old) }
    {
        for place in 0..self.notes.len() {
            self.notes[place].agree(&mut other.notes[place]);
        }
    }

    /// Takes in what the others know.
    pub fn join(&mut self, mut other: Notes<T>)
        requires { map (λ n. n.cell) other ≡ map (λ n. n.cell) self.old }
        ensures joined { self.new ≡ joined self.old other }
        ensures cells { map (λ n. n.cell) self.new ≡ map (λ n. n.cell) self.old }
        ensures agree { Agree self.old other }
    {
        for place in 0..self.notes.len() {
            self.notes[place].join(other.notes[place].again());
        }
    }
}

impl<T: Settled + Drop> Notes<T> {
    pub(crate) fn settle(
        &mut self,
        alloc: Global,
        place: usize,
        cell: &OnceBox<T>,
        value: T,
    ) -> Result<Settling<T>, AllocError>
        requires place { place < length self.old }
        requires cell { slice_get (map (λ n. n.cell) self.old) place ≡ Some (cell_name cell.now) }
        ensures cells { map (λ n. n.cell) self.new ≡ map (λ n. n.cell) self.old }
        ensures settling { IfOk result (Settles place value self.old self.new) }
        ensures memory { OnErr result (self.new ≡ self.old) }
    {
        self.notes[place].settle(alloc, cell, value)
    }
}
