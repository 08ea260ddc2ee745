// What a file declares anywhere, which its prefixes speak of.

ghost use Rattle.std.specs.Prelude.{◌≡◌, ◌||◌, ℕ, List, IfOk};
ghost use Rattle.sby_file.specs.Names.{has};
ghost use Rattle.sby_file.specs.Faults.{line_names, declared_names, has_tasks, starts_tasks, is_tasks};

use crate::line::Line;
use crate::names::Names;
use crate::section::{Section, section_named};
use crate::walk::{Placed, Walk};
use std::alloc::{AllocError, Global};

/// Whether there is a section `[tasks]`, and the words that stand in it.
#[derive(Drop)]
pub struct Declared {
    pub has_tasks: bool,
    pub names: Names,
}

fn starts_tasks(line: &Line) -> bool
    ensures { result ≡ starts_tasks line.now }
{
    match line {
        Line::Header(name) => matches!(section_named(name.as_slice()), Section::Tasks),
        _ => false,
    }
}

// Adds what a line declares.
fn declare(declared: &mut Declared, placed: Placed) -> Result<(), AllocError>
    ensures tasks { IfOk result (λ _. declared.new.has_tasks ≡ (declared.old.has_tasks || starts_tasks placed.line)) }
    ensures names { IfOk result (λ _. (name : List ℕ) → has declared.new.names name ≡ (has declared.old.names name || has (line_names placed.section placed.line) name)) }
{
    if starts_tasks(&placed.line) {
        declared.has_tasks = true;
    }
    match (placed.section, &placed.line) {
        (Section::Tasks, Line::Content(words)) => declared.names.insert_all(words.as_slice()),
        _ => Ok(()),
    }
}

/// What the lines declare.
pub fn declaration(alloc: Global, walk: Walk<'_>) -> Result<Declared, AllocError>
    ensures tasks { IfOk result (λ d. d.has_tasks ≡ has_tasks walk.entry) }
    ensures names { IfOk result (λ d. (name : List ℕ) → has d.names name ≡ has (declared_names walk.entry) name) }
{
    let mut walk = walk;
    let mut declared = Declared {
        has_tasks: false,
        names: Names::new(alloc),
    };
    'lines: while let Some(placed) = walk.next(alloc)? {
        declare(&mut declared, placed)?;
    }
    Ok(declared)
}
