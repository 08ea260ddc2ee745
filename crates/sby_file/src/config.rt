// What a task file holds.

ghost use Rattle.std.specs.Prelude.{◌≡◌, [], ◌∷◌, ◌++◌, List, ℕ, cond, map, string_bytes, IfOk};
ghost use Rattle.sby_file.specs.Config.{nothing, with_task, with_row, with_file, with_content, with_line, content_line, content_of};

use crate::line::{Bytes, Line};
use crate::section::{Section, name_of, section_named};
use crate::walk::{Placed, Walk};
use sby_terms::Words;
use std::alloc::{AllocError, Global};
use std::marker::Model;

/// A name. Contracts see its bytes.
#[derive(Drop, Debug)]
pub struct Name {
    text: String,
}

impl Model for Name {
    ghost use Rattle.std.specs.Prelude.{ℕ, List, string_bytes};

    ghost Value = { List ℕ };

    ghost view = { λ n. string_bytes n.text };
}

impl Name {
    pub fn new(text: String) -> Self
        ensures { result ≡ string_bytes text }
    {
        Name { text }
    }

    pub fn as_str(&self) -> &str
        ensures { result.now ≡ self.now }
    {
        self.text.as_str()
    }

    /// The text, as it was given.
    pub fn into_string(self) -> String
        ensures { string_bytes result ≡ self }
    {
        self.text
    }
}

/// A line of a section whose lines may have prefixes, by its words.
#[derive(Drop, Debug)]
pub struct Row {
    pub number: usize,
    pub section: Section,
    pub words: Words,
}

/// A section `[file NAME]`.
#[derive(Drop, Debug)]
pub struct StoredFile {
    pub name: Name,
    pub bytes: Bytes,
}

/// A task file as it was read.
///
/// Contracts see its tasks, their tags, the lines of its sections, and the files that stand in it, each in file order.
#[derive(Drop, Debug)]
pub struct Config {
    tasks: Vec<String>,
    tags: Vec<Words>,
    rows: Vec<Row>,
    files: Vec<StoredFile>,
}

impl Model for Config {
    ghost use Rattle.std.specs.Prelude.{map, string_bytes};
    ghost use Rattle.sby_file.specs.Config.{ConfigOf};

    ghost Value = { ConfigOf };

    ghost view = { λ c. record { tasks = map string_bytes c.tasks.items; tags = c.tags.items; rows = c.rows.items; files = c.files.items } };
}

// Equal words, or out of memory.
pub fn copied_words(alloc: Global, words: &[String]) -> Result<Words, AllocError>
    ensures { IfOk result (λ copied. copied ≡ map string_bytes words.now) }
{
    let mut copied = Vec::new(alloc);
    for word in words {
        copied.push(word.clone()?)?;
    }
    Ok(Words::new(copied))
}

// Adds a line to a file's bytes, and answers whether the file ended before it.
fn add_content(bytes: &mut Vec<u8>, line: Line) -> Result<bool, AllocError>
    ensures { IfOk result (λ ended. (later : List ℕ) → bytes.old.items ++ content_line line later ≡ bytes.new.items ++ cond ended [] later) }
{
    match &line {
        Line::Header(_) => Ok(true),
        Line::Raw(text) => {
            bytes.extend_from_slice(text.as_slice())?;
            bytes.push(b'\n')?;
            Ok(false)
        }
        Line::NotText | Line::Content(_) => Ok(false),
    }
}

// The bytes of the file that begins here.
fn content(alloc: Global, walk: Walk<'_>) -> Result<Bytes, AllocError>
    ensures { IfOk result (λ bytes. bytes ≡ content_of walk.entry) }
{
    let mut walk = walk;
    let mut bytes = Vec::new(alloc);
    'lines: while let Some(placed) = walk.next(alloc)? {
        if add_content(&mut bytes, placed.line)? {
            break;
        }
    }
    Ok(Bytes::new(bytes))
}

impl Config {
    pub fn new(alloc: Global) -> Self
        ensures { result ≡ nothing }
    {
        Config {
            tasks: Vec::new(alloc),
            tags: Vec::new(alloc),
            rows: Vec::new(alloc),
            files: Vec::new(alloc),
        }
    }

    /// The names of the tasks, in file order.
    pub fn tasks(&self) -> &[String]
        ensures { map string_bytes result.now ≡ self.now.tasks }
    {
        &self.tasks
    }

    pub fn tags(&self) -> &[Words]
        ensures { result.now ≡ self.now.tags }
    {
        &self.tags
    }

    pub fn rows(&self) -> &[Row]
        ensures { result.now ≡ self.now.rows }
    {
        &self.rows
    }

    pub fn files(&self) -> &[StoredFile]
        ensures { result.now ≡ self.now.files }
    {
        &self.files
    }

    fn add_task(&mut self, alloc: Global, words: &[String]) -> Result<(), AllocError>
        ensures { IfOk result (λ _. self.new ≡ with_task self.old (map string_bytes words.now)) }
    {
        match words {
            [] => Ok(()),
            [name, tags @ ..] => {
                self.tasks.push(name.clone()?)?;
                self.tags.push(copied_words(alloc, tags)?)?;
                Ok(())
            }
        }
    }

    fn add_row(&mut self, number: usize, section: Section, words: Words) -> Result<(), AllocError>
        ensures { IfOk result (λ _. self.new ≡ with_row self.old number section words) }
    {
        if !words.as_slice().is_empty() {
            self.rows.push(Row {
                number,
                section,
                words,
            })?;
        }
        Ok(())
    }

    fn add_file(
        &mut self,
        alloc: Global,
        words: &[String],
        later: &Walk<'_>,
    ) -> Result<(), AllocError>
        ensures { IfOk result (λ _. self.new ≡ with_file self.old (map string_bytes words.now) later.now) }
    {
        if section_named(words).is_file() {
            let name = Name::new(name_of(alloc, words)?);
            let bytes = content(alloc, later.ahead())?;
            self.files.push(StoredFile { name, bytes })?;
        }
        Ok(())
    }

    fn add_content_line(
        &mut self,
        alloc: Global,
        number: usize,
        section: Section,
        words: Words,
    ) -> Result<(), AllocError>
        ensures { IfOk result (λ _. self.new ≡ with_content self.old number section words) }
    {
        match section {
            Section::Tasks => self.add_task(alloc, words.as_slice()),
            Section::Nowhere | Section::File | Section::Unknown => Ok(()),
            _ => self.add_row(number, section, words),
        }
    }

    /// Adds what a line says.
    pub fn add(&mut self, alloc: Global, placed: Placed, later: &Walk<'_>) -> Result<(), AllocError>
        ensures { IfOk result (λ _. self.new ≡ with_line self.old placed later.now) }
    {
        let Placed {
            number,
            section,
            line,
        } = placed;
        match line {
            Line::Header(name) => self.add_file(alloc, name.as_slice(), later),
            Line::Content(words) => self.add_content_line(alloc, number, section, words),
            Line::NotText | Line::Raw(_) => Ok(()),
        }
    }
}
