// The tasks that words ask, each in its turn.

ghost use Rattle.std.specs.Prelude.{◌≡◌, ◌↔◌, ◌*◌, List, ℕ, Contains, IfOk, IsTrue, option_map, string_bytes};
ghost use Rattle.sby_task.specs.Expand.{expansion};
ghost use Rattle.sby_top.specs.Task.{design_seen, task_seen};
ghost use Rattle.sby_top.specs.Turns.{IsNameOf, IsSound, IsTurnOf, design_at, file_task, judge_task, turn_seen};

use crate::task::{DesignAt, Service, Task};
use sby_file::{Bytes, Config, Name};
use sby_lines::Early;
use sby_task::expand;
use sby_terms::{Expect, Span, Status};
use sby_words::{JudgeWords, folder_of};
use std::alloc::{AllocError, Global};

/// What is run in its turn.
#[derive(Drop)]
pub enum Turn {
    /// Under this name only a fault is told.
    Refused(String, Early),
    Run(Task),
}

/// The task that `--judge` asks: PASS is expected, and its streams are stored.
pub fn judge_task(alloc: Global, words: JudgeWords) -> Result<Task, AllocError>
    ensures { IfOk result (λ task. task_seen task ≡ judge_task words) }
{
    let expect = Expect::new(vec![in alloc; Status::Pass]?);
    let JudgeWords {
        folder,
        design,
        mode,
        depth,
        streams,
    } = words;
    Ok(Task {
        name: folder,
        mode,
        span: Span::whole(depth),
        expect,
        limit: None,
        design: DesignAt::Stored(design),
        wait: false,
        service: Service::Streams(streams),
    })
}

// Where the text of a task file's design is.
fn design_at(path: Name, bytes: Option<Bytes>) -> DesignAt
    ensures { design_seen result ≡ design_at path bytes }
{
    match bytes {
        Some(bytes) => DesignAt::Given(bytes.into_vec()),
        None => DesignAt::Stored(path.into_string()),
    }
}

// Seconds in milliseconds.
fn milliseconds(seconds: Option<u32>) -> Option<u64>
    ensures { result ≡ option_map (λ n. n * 1000) seconds }
{
    match seconds {
        Some(seconds) => Some(u64::from(seconds) * 1000),
        None => None,
    }
}

// The task of a task file, with this work folder.
fn file_task(folder: String, task: sby_task::Task) -> Task
    ensures { task_seen result ≡ file_task (string_bytes folder) task }
{
    let sby_task::Task {
        name: _,
        mode,
        span,
        timeout,
        expect,
        wait,
        engines,
        design_path,
        design_bytes,
    } = task;
    Task {
        name: folder,
        mode,
        span,
        expect,
        limit: milliseconds(timeout),
        design: design_at(design_path, design_bytes),
        wait,
        service: Service::Lanes(engines.into_engines()),
    }
}

/// A task file that was read, and where its tasks' work folders are.
#[derive(Drop)]
pub struct Book<'a> {
    pub config: &'a Config,
    pub stem: &'a str,
    pub directory: Option<&'a str>,
}

fn is_task(config: &Config, name: &str) -> bool
    ensures { IsTrue result ↔ Contains config.now.tasks name.now }
{
    for task in config.tasks() {
        if task.as_str() == name {
            return true;
        }
    }
    false
}

// The name under which a task is told.
fn name_of(alloc: Global, book: &Book<'_>, asked: Option<&str>) -> Result<String, AllocError>
    ensures { IfOk result (λ name. IsNameOf book.now.stem.now (option_map (λ s. s.now) book.now.directory) book.now.config.now (option_map (λ s. s.now) asked.entry) (string_bytes name)) }
{
    match asked {
        Some(task) => {
            if is_task(book.config, task) {
                folder_of(alloc, book.stem, book.directory, task)
            } else {
                folder_of(alloc, book.stem, book.directory, "")
            }
        }
        None => folder_of(alloc, book.stem, book.directory, ""),
    }
}

/// The turn of a task that is asked for: it is expanded, or told as refused.
pub fn turn_of(alloc: Global, book: &Book<'_>, asked: Option<&str>) -> Result<Turn, AllocError>
    ensures turn { IfOk result (λ turn. (name : List ℕ) × IsNameOf book.now.stem.now (option_map (λ s. s.now) book.now.directory) book.now.config.now (option_map (λ s. s.now) asked.entry) name
        × IsTurnOf name (expansion book.now.config.now (option_map (λ s. s.now) asked.entry)) (turn_seen turn)) }
    ensures sound { IfOk result (λ turn. IsSound (turn_seen turn)) }
{
    let name = name_of(alloc, book, asked)?;
    match expand(alloc, book.config, asked) {
        Ok(Ok(task)) => Ok(Turn::Run(file_task(name, task))),
        Ok(Err(fault)) => Ok(Turn::Refused(name, Early::Task(fault))),
        Err(_) => Ok(Turn::Refused(name, Early::Memory)),
    }
}
