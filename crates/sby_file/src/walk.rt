// The lines of a text, one after the other, each with its number and the section in which it stands.

ghost use Rattle.std.specs.Prelude.{◌≡◌, ℕ, ◌<◌, [], ◌∷◌, length, IfOk, MatchOption};
ghost use Rattle.sby_file.specs.Placed.{placed_from, placed, section_after};
ghost use Rattle.sby_file.specs.Text.{lines_of};

use crate::line::{Line, line_of};
use crate::section::{Section, section_named};
use memchr::memchr;
use std::alloc::{AllocError, Global};
use std::marker::Model;

/// A line in its place.
#[derive(Drop, Debug)]
pub struct Placed {
    /// From 1.
    pub number: usize,
    /// Where it stands.
    pub section: Section,
    pub line: Line,
}

fn section_after(section: Section, line: &Line) -> Section
    ensures { result ≡ section_after section line.now }
{
    match line {
        Line::Header(name) => section_named(name.as_slice()),
        _ => section,
    }
}

// The first line of a text, and what is after it.
fn first_line(bytes: &[u8]) -> (&[u8], &[u8])
    requires { 0 < length bytes.now }
    ensures lines { lines_of bytes.now ≡ result.0.now ∷ lines_of result.1.now }
    ensures less { length result.1.now < length bytes.now }
{
    match memchr(b'\n', bytes) {
        Some(end) => (&bytes[..end], &bytes[end + 1..]),
        None => (bytes, &[]),
    }
}

/// The lines that are left. Contracts see their list.
#[derive(Drop)]
pub struct Walk<'a> {
    rest: &'a [u8],
    // Of the line before.
    number: usize,
    section: Section,
}

impl<'a> Model for Walk<'a> {
    ghost use Rattle.std.specs.Prelude.{List, ◌+◌, ◌<◌, ◌^◌, length};
    ghost use Rattle.sby_file.specs.declared.walk.Placed.{Placed};
    ghost use Rattle.sby_file.specs.Text.{lines_of};
    ghost use Rattle.sby_file.specs.Placed.{placed_from};

    ghost Value = { List Placed };

    ghost view = { λ w. placed_from w.section w.number (lines_of w.rest.now) };

    ghost invariant = { λ w. w.number + length w.rest.now < 2 ^ 64 };
}

impl<'a> Walk<'a> {
    pub fn new(bytes: &'a [u8]) -> Self
        ensures { result ≡ placed bytes.now }
    {
        Walk {
            rest: bytes,
            number: 0,
            section: Section::Nowhere,
        }
    }

    /// Returns a second walk over the lines that are left, to look ahead.
    pub fn ahead(&self) -> Walk<'a>
        ensures { result ≡ self.now }
    {
        Walk {
            rest: self.rest,
            number: self.number,
            section: self.section,
        }
    }

    /// The next line.
    pub fn next(&mut self, alloc: Global) -> Result<Option<Placed>, AllocError>
        ensures { IfOk result (λ found. MatchOption found (self.old ≡ []) (λ line. self.old ≡ line ∷ self.new)) }
    {
        if self.rest.is_empty() {
            return Ok(None);
        }
        let section = self.section;
        let (text, behind) = first_line(self.rest);
        let line = line_of(alloc, section.is_file(), text)?;
        self.rest = behind;
        self.number += 1;
        self.section = section_after(section, &line);
        Ok(Some(Placed {
            number: self.number,
            section,
            line,
        }))
    }
}
