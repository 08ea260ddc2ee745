// What the lines so far have, and what is wrong with the next one.

ghost use Rattle.std.specs.Prelude.{◌≡◌, Bool, List, map, string_bytes, IfOk, unwrap_or};
ghost use Rattle.sby_file.specs.Section.{name_of, section_named};
ghost use Rattle.sby_file.specs.Names.{has};
ghost use Rattle.sby_file.specs.Faults.{Seen, nothing_seen, first, had, with_header, header_faults, task_faults, prefix_faults, is_closed, scoped_faults, stray, content_faults, line_faults, seen_header, seen_task, seen_scoped, seen_content, seen_after, closes_before};
ghost use Rattle.sby_file.specs.Meant.{meant};

use crate::declaration::Declared;
use crate::fault::SbyKind;
use crate::headers::Headers;
use crate::line::Line;
use crate::names::Names;
use crate::prefix::{are_known, are_names, is_block_end, opens_block, prefix_length};
use crate::section::{Section, name_of, section_named};
use crate::walk::{Placed, Walk};
use std::alloc::{AllocError, Global};
use std::marker::Model;

/// The most tasks of a file.
const MAX_TASKS: usize = 1000;

fn had(headers: &Headers, section: Section) -> bool
    ensures { result ≡ had headers.now section }
{
    match section {
        Section::Tasks => headers.tasks,
        Section::Options => headers.options,
        Section::Engines => headers.engines,
        Section::Script => headers.script,
        Section::Files => headers.files,
        _ => false,
    }
}

fn with_header(mut headers: Headers, section: Section) -> Headers
    ensures { result ≡ with_header headers section }
{
    match section {
        Section::Tasks => headers.tasks = true,
        Section::Options => headers.options = true,
        Section::Engines => headers.engines = true,
        Section::Script => headers.script = true,
        Section::Files => headers.files = true,
        _ => {}
    }
    headers
}

/// What the lines so far have: sections, names of tasks and files, and whether a block is open.
#[derive(Drop)]
pub struct Seen {
    headers: Headers,
    tasks: Vec<String>,
    files: Names,
    is_inside: bool,
}

impl Model for Seen {
    ghost use Rattle.std.specs.Prelude.{map, string_bytes};
    ghost use Rattle.sby_file.specs.Faults.{Seen};

    ghost Value = { Seen };

    ghost view = { λ s. record { headers = s.headers; tasks = map string_bytes s.tasks.items; files = s.files; is_inside = s.is_inside } };
}

fn is_among(tasks: &[String], name: &String) -> bool
    ensures { result ≡ has (map string_bytes tasks.now) (string_bytes name.now) }
{
    tasks.contains(name)
}

impl Seen {
    pub fn new(alloc: Global) -> Self
        ensures { result ≡ nothing_seen }
    {
        let headers = Headers {
            tasks: false,
            options: false,
            engines: false,
            script: false,
            files: false,
        };
        Seen {
            headers,
            tasks: Vec::new(alloc),
            files: Names::new(alloc),
            is_inside: false,
        }
    }

    fn header_fault(&self, alloc: Global, words: &[String]) -> Result<Option<SbyKind>, AllocError>
        ensures { IfOk result (λ found. found ≡ first (header_faults self.now (section_named (map string_bytes words.now)) (name_of (map string_bytes words.now)))) }
    {
        match section_named(words) {
            Section::Unknown => Ok(Some(SbyKind::UnknownSection)),
            Section::File => {
                let name = name_of(alloc, words)?;
                if self.files.contains(name.as_str()) {
                    Ok(Some(SbyKind::DoubleFile))
                } else {
                    Ok(None)
                }
            }
            section => {
                if had(&self.headers, section) {
                    Ok(Some(SbyKind::DoubleSection))
                } else {
                    Ok(None)
                }
            }
        }
    }

    fn task_fault(&self, words: &[String]) -> Option<SbyKind>
        ensures { result ≡ first (task_faults self.now (map string_bytes words.now)) }
    {
        let name = words.first()?;
        if !are_names(words) {
            Some(SbyKind::StrayLine)
        } else if is_among(&self.tasks, name) {
            Some(SbyKind::DoubleTask)
        } else if self.tasks.len() >= MAX_TASKS {
            Some(SbyKind::Limit)
        } else {
            None
        }
    }

    fn scoped_fault(
        &self,
        alloc: Global,
        declared: &Declared,
        words: &[String],
        later: &Walk<'_>,
    ) -> Result<Option<SbyKind>, AllocError>
        ensures { IfOk result (λ found. found ≡ first (scoped_faults (meant declared.now) self.now (map string_bytes words.now) later.now)) }
    {
        if is_block_end(words) {
            if self.is_inside {
                return Ok(None);
            }
            return Ok(Some(SbyKind::StrayLine));
        }
        if opens_block(words) && (self.is_inside || !is_closed(alloc, later.ahead())?) {
            return Ok(Some(SbyKind::StrayLine));
        }
        Ok(prefix_fault(declared, words))
    }

    fn content_fault(
        &self,
        alloc: Global,
        declared: &Declared,
        section: Section,
        words: &[String],
        later: &Walk<'_>,
    ) -> Result<Option<SbyKind>, AllocError>
        ensures { IfOk result (λ found. found ≡ first (content_faults (meant declared.now) self.now section (map string_bytes words.now) later.now)) }
    {
        match section {
            Section::Nowhere => Ok(stray_fault(words)),
            Section::Tasks => Ok(self.task_fault(words)),
            Section::File | Section::Unknown => Ok(None),
            _ => self.scoped_fault(alloc, declared, words, later),
        }
    }

    /// The first fault of a line, by what the file declares and by the later lines.
    pub fn fault(
        &self,
        alloc: Global,
        declared: &Declared,
        placed: &Placed,
        later: &Walk<'_>,
    ) -> Result<Option<SbyKind>, AllocError>
        ensures { IfOk result (λ found. found ≡ first (line_faults (meant declared.now) self.now placed.now.section placed.now.line later.now)) }
    {
        match &placed.line {
            Line::NotText => Ok(Some(SbyKind::NotText)),
            Line::Header(name) => self.header_fault(alloc, name.as_slice()),
            Line::Content(words) => {
                self.content_fault(alloc, declared, placed.section, words.as_slice(), later)
            }
            Line::Raw(_) => Ok(None),
        }
    }

    fn note_header(&mut self, alloc: Global, words: &[String]) -> Result<(), AllocError>
        ensures { IfOk result (λ _. self.new ≡ seen_header self.old (section_named (map string_bytes words.now)) (name_of (map string_bytes words.now))) }
    {
        let section = section_named(words);
        if section.is_file() {
            let name = name_of(alloc, words)?;
            self.files.insert(name)?;
        }
        self.headers = with_header(self.headers, section);
        self.is_inside = false;
        Ok(())
    }

    fn note_task(&mut self, words: &[String]) -> Result<(), AllocError>
        ensures { IfOk result (λ _. self.new ≡ seen_task self.old (map string_bytes words.now)) }
    {
        if let Some(name) = words.first() {
            self.tasks.push(name.clone()?)?;
        }
        Ok(())
    }

    fn note_scoped(&mut self, words: &[String])
        ensures { self.new ≡ seen_scoped self.old (map string_bytes words.now) }
    {
        self.is_inside = !is_block_end(words) && (self.is_inside || opens_block(words));
    }

    fn note_content(&mut self, section: Section, words: &[String]) -> Result<(), AllocError>
        ensures { IfOk result (λ _. self.new ≡ seen_content self.old section (map string_bytes words.now)) }
    {
        match section {
            Section::Tasks => self.note_task(words),
            Section::Nowhere | Section::File | Section::Unknown => Ok(()),
            _ => {
                self.note_scoped(words);
                Ok(())
            }
        }
    }

    /// Takes note of a line.
    pub fn note(&mut self, alloc: Global, placed: &Placed) -> Result<(), AllocError>
        ensures { IfOk result (λ _. self.new ≡ seen_after self.old placed.now.section placed.now.line) }
    {
        match &placed.line {
            Line::Header(name) => self.note_header(alloc, name.as_slice()),
            Line::Content(words) => self.note_content(placed.section, words.as_slice()),
            Line::NotText | Line::Raw(_) => Ok(()),
        }
    }
}

// Words before any section.
fn stray_fault(words: &[String]) -> Option<SbyKind>
    ensures { result ≡ first (stray (map string_bytes words.now)) }
{
    match words {
        [] => None,
        [_, ..] => Some(SbyKind::StrayLine),
    }
}

fn prefix_fault(declared: &Declared, words: &[String]) -> Option<SbyKind>
    ensures { result ≡ first (prefix_faults (meant declared.now) (map string_bytes words.now)) }
{
    let length = prefix_length(words);
    if length == 0 {
        None
    } else if !declared.has_tasks {
        Some(SbyKind::PrefixWithoutTasks)
    } else if are_known(&declared.names, &words[..length]) {
        None
    } else {
        Some(SbyKind::UnknownTask)
    }
}

// What a line says of the block before it: that it closes, that it stays open, or nothing.
fn block_end(line: Line) -> Option<bool>
    ensures { (later : Bool) → closes_before line later ≡ unwrap_or result later }
{
    match &line {
        Line::Header(_) => Some(false),
        Line::Content(words) => {
            if is_block_end(words.as_slice()) {
                Some(true)
            } else {
                None
            }
        }
        _ => None,
    }
}

// Whether a line `--` comes before the section's end.
fn is_closed(alloc: Global, walk: Walk<'_>) -> Result<bool, AllocError>
    ensures { IfOk result (λ closed. closed ≡ is_closed walk.entry) }
{
    let mut walk = walk;
    'lines: while let Some(placed) = walk.next(alloc)? {
        if let Some(closed) = block_end(placed.line) {
            return Ok(closed);
        }
    }
    Ok(false)
}
