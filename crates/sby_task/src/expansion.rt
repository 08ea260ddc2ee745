// Expanding a task.

ghost use Rattle.std.specs.Prelude.{◌≡◌, ◌∷◌, List, None, Ok, map, string_bytes, IfOk, ℕ, MatchOption, true, All};
ghost use Rattle.std.specs.Option.{option_copied};
ghost use Rattle.sby_file.specs.Names.{has};
ghost use Rattle.sby_task.specs.Files.{bytes_in};
ghost use Rattle.sby_task.specs.Draft.{blank};
ghost use Rattle.sby_task.specs.Cycles.{IsTaskSpan};
ghost use Rattle.sby_task.specs.Marks.{IsMarked};
ghost use Rattle.sby_task.specs.Expand.{drafted, finished, no_line, design_path, tags_of, expected, names_asked, asked_text, IsAsked, task_of, expansion};
ghost use Rattle.sby_task.specs.Scope.{kept};

use crate::cycles::span_of;
use crate::draft::Draft;
use crate::engines::Engines;
use crate::files::{bytes_in, path_in};
use crate::scope::kept;
use crate::task::read_row;
use crate::task_fault::{TaskFault, TaskKind};
use crate::values::mode_by;
use sby_file::{Bytes, Config, Name, Names, Row, StoredFile};
use sby_terms::{Expect, Mode, Span, Status, Words};
use std::alloc::{AllocError, Global};

/// A task of a file.
#[derive(Drop, Debug)]
pub struct Task {
    /// Empty where the file has no tasks.
    pub name: Name,
    pub mode: Mode,
    /// Its depth is at most 100,000. In prove and cover it is all cycles below the depth, as one slice.
    pub span: Span,
    /// In seconds, from 1 to 1,000,000.
    pub timeout: Option<u32>,
    pub expect: Expect,
    pub wait: bool,
    /// From 1 to 64.
    pub engines: Engines,
    /// The path of the design in the file store, or its name where it stands in the task file.
    pub design_path: Name,
    /// The design's text, where it stands in the task file.
    pub design_bytes: Option<Bytes>,
}

// Reads the lines that hold for a task.
fn read_rows(
    alloc: Global,
    files: &[StoredFile],
    rows: &[Row],
) -> Result<Result<Draft, TaskFault>, AllocError>
    ensures { IfOk result (λ draft. draft ≡ drafted files.now rows.now (Ok blank) rows.now) }
{
    let mut draft = Draft::new(alloc);
    for row in rows {
        if let Err(kind) = read_row(alloc, &mut draft, files, rows, row)? {
            let line = row.number;
            return Ok(Err(TaskFault { line, kind }));
        }
    }
    Ok(Ok(draft))
}

// The text of a design that stands in the file.
fn stored_design(files: &[StoredFile], design: &str) -> Result<Option<Bytes>, AllocError>
    ensures { IfOk result (λ bytes. bytes ≡ bytes_in files.now design.now) }
{
    match bytes_in(files, design) {
        Some(bytes) => Ok(Some(bytes.copy()?)),
        None => Ok(None),
    }
}

fn design_path(
    alloc: Global,
    bytes: &Option<Bytes>,
    rows: &[Row],
    design: Name,
) -> Result<Name, AllocError>
    ensures { IfOk result (λ path. path ≡ design_path bytes.now rows.now design) }
{
    if bytes.is_some() {
        return Ok(design);
    }
    match path_in(alloc, rows, design.as_str())? {
        Some(path) => Ok(path),
        None => Ok(design),
    }
}

fn expected(alloc: Global, expect: Option<Expect>) -> Result<Expect, AllocError>
    ensures { IfOk result (λ statuses. statuses ≡ expected expect) }
{
    match expect {
        Some(expect) => Ok(expect),
        None => {
            let mut statuses = Vec::new(alloc);
            statuses.push(Status::Pass)?;
            Ok(Expect::new(statuses))
        }
    }
}

// A fault that is no line's.
fn no_line(kind: TaskKind) -> Result<Result<Task, TaskFault>, AllocError>
    ensures { IfOk result (λ task. task ≡ no_line kind) }
{
    Ok(Err(TaskFault { line: 0, kind }))
}

// The task of a draft, where nothing is missing.
fn finished(
    alloc: Global,
    name: Name,
    draft: Draft,
    files: &[StoredFile],
    rows: &[Row],
) -> Result<Result<Task, TaskFault>, AllocError>
    ensures { IfOk result (λ task. task ≡ finished files.now rows.now name draft) }
{
    let Draft {
        mode,
        by,
        skip,
        depth,
        stride,
        timeout,
        expect,
        wait,
        multiclock: _,
        engines,
        script,
    } = draft;
    let Some(mode) = mode else {
        return no_line(TaskKind::NoMode);
    };
    if engines.is_empty() {
        return no_line(TaskKind::NoEngine);
    }
    let Some(design) = script else {
        return no_line(TaskKind::Script);
    };
    let Some(span) = span_of(mode, skip, depth, stride) else {
        return no_line(TaskKind::Slices);
    };
    let design_bytes = stored_design(files, design.as_str())?;
    let design_path = design_path(alloc, &design_bytes, rows, design)?;
    let expect = expected(alloc, expect)?;
    Ok(Ok(Task {
        name,
        mode: mode_by(mode, by),
        span,
        timeout,
        expect,
        wait: wait.unwrap_or(false),
        engines,
        design_path,
        design_bytes,
    }))
}

// The tags of a task.
fn tags_of<'a>(tasks: &[String], tags: &'a [Words], name: &str) -> Option<&'a Words>
    ensures { option_copied result ≡ tags_of (map string_bytes tasks.now) tags.now name.now }
{
    for (i, task) in tasks.iter().enumerate() {
        if i >= tags.len() {
            return None;
        }
        if task.as_str() == name {
            return Some(&tags[i]);
        }
    }
    None
}

/// The task that is asked for: its name, and its name and tags.
#[derive(Drop)]
pub struct AskedTask {
    pub name: Name,
    pub names: Names,
}

fn asked_task(
    alloc: Global,
    config: &Config,
    asked: Option<&str>,
) -> Result<Option<AskedTask>, AllocError>
    ensures { IfOk result (λ found. MatchOption found (names_asked config.now (option_copied asked.entry) ≡ None)
        (λ a. IsAsked a (asked_text (option_copied asked.entry)) (names_asked config.now (option_copied asked.entry)))) }
{
    match asked {
        None => {
            if !config.tasks().is_empty() {
                return Ok(None);
            }
            let name = Name::new(String::new(alloc));
            Ok(Some(AskedTask {
                name,
                names: Names::new(alloc),
            }))
        }
        Some(text) => match tags_of(config.tasks(), config.tags(), text) {
            None => Ok(None),
            Some(tags) => {
                let mut names = Names::new(alloc);
                names.insert(String::from_str(alloc, text)?)?;
                names.insert_all(tags.as_slice())?;
                let name = Name::new(String::from_str(alloc, text)?);
                Ok(Some(AskedTask { name, names }))
            }
        },
    }
}

fn expand_asked(
    alloc: Global,
    config: &Config,
    asked: AskedTask,
) -> Result<Result<Task, TaskFault>, AllocError>
    ensures { IfOk result (λ task. task ≡ task_of config.now.files (kept (has asked.names) true config.now.rows) asked.name) }
{
    let AskedTask { name, names } = asked;
    let rows = kept(alloc, &names, config.rows())?;
    match read_rows(alloc, config.files(), rows.as_slice())? {
        Err(fault) => Ok(Err(fault)),
        Ok(draft) => finished(alloc, name, draft, config.files(), rows.as_slice()),
    }
}

/// Expands a task of a file, or its nameless task where it has none. The answer is the task, or the first fault: that the task
/// isn't there, at line 0; of the first line at fault, the first in the order of `TaskKind`; and where no line is at fault, at
/// line 0, what is missing. The outer `Err` is out of memory alone.
pub fn expand(
    alloc: Global,
    config: &Config,
    asked: Option<&str>,
) -> Result<Result<Task, TaskFault>, AllocError>
    ensures task { IfOk result (λ task. task ≡ expansion config.now (option_copied asked.entry)) }
    ensures span { IfOk result (λ answer. IfOk answer (λ task. IsTaskSpan task.mode task.span)) }
    ensures marks { IfOk result (λ answer. IfOk answer (λ task. All IsMarked task.engines)) }
{
    match asked_task(alloc, config, asked)? {
        None => no_line(TaskKind::UnknownTask),
        Some(found) => {
            let task = expand_asked(alloc, config, found)?;
            Ok(task)
        }
    }
}
