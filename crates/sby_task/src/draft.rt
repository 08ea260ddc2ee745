// A task whose lines are being read.

ghost use Rattle.std.specs.Prelude.{◌≡◌, Bool, List, map, string_bytes, IfOk};
ghost use Rattle.sby_task.specs.Proved.{is_proved};
ghost use Rattle.sby_task.specs.Draft.{Becomes, blank, option_name, option_after, option_row, engine_row, script_row, once};

use crate::engines::{Engines, engine_of};
use crate::proved::is_proved;
use crate::task_fault::TaskKind;
use crate::values::{by_of, count_of, mode_of, number_of, statuses_of, switch_of};
use sby_file::{Name, Row};
use sby_terms::{Expect, MAX_DEPTH, Mode};
use std::alloc::{AllocError, Global};

const MAX_TIMEOUT: u32 = 1_000_000;

const MAX_ENGINES: usize = 64;

/// How prove shows that nothing breaks.
#[derive(Clone, Copy, Debug, PartialEq, Eq)]
pub enum By {
    Induction,
    Invariant,
}

/// The first word of an option line.
#[derive(Clone, Copy, Debug, PartialEq, Eq)]
pub enum OptionName {
    Mode,
    By,
    Skip,
    Depth,
    Stride,
    Timeout,
    Expect,
    Wait,
    Multiclock,
    Unknown,
}

fn option_name(word: &str) -> OptionName
    ensures { result ≡ option_name word.now }
{
    match word {
        "mode" => OptionName::Mode,
        "by" => OptionName::By,
        "skip" => OptionName::Skip,
        "depth" => OptionName::Depth,
        "stride" => OptionName::Stride,
        "timeout" => OptionName::Timeout,
        "expect" => OptionName::Expect,
        "wait" => OptionName::Wait,
        "multiclock" => OptionName::Multiclock,
        _ => OptionName::Unknown,
    }
}

/// What the lines so far say of a task.
#[derive(Drop)]
pub struct Draft {
    pub mode: Option<Mode>,
    pub by: Option<By>,
    pub skip: Option<u32>,
    pub depth: Option<u32>,
    pub stride: Option<u32>,
    pub timeout: Option<u32>,
    pub expect: Option<Expect>,
    pub wait: Option<bool>,
    pub multiclock: Option<bool>,
    pub engines: Engines,
    pub script: Option<Name>,
}

impl Draft {
    pub fn new(alloc: Global) -> Self
        ensures { result ≡ blank }
    {
        Draft {
            mode: None,
            by: None,
            skip: None,
            depth: None,
            stride: None,
            timeout: None,
            expect: None,
            wait: None,
            multiclock: None,
            engines: Engines::new(Vec::new(alloc)),
            script: None,
        }
    }

    fn set_mode(&mut self, value: &[String]) -> Result<(), TaskKind>
        ensures { (proved : Bool) → Becomes result self.new (option_after proved self.old OptionName.Mode (map string_bytes value.now)) }
    {
        if self.mode.is_some() {
            return Err(TaskKind::DoubleOption);
        }
        match mode_of(value) {
            None => Err(TaskKind::BadValue),
            Some(mode) => {
                self.mode = Some(mode);
                Ok(())
            }
        }
    }

    // `by` stands in prove alone, which some line has to give.
    fn set_by(&mut self, rows: &[Row], value: &[String]) -> Result<(), TaskKind>
        ensures { Becomes result self.new (option_after (is_proved rows.now) self.old OptionName.By (map string_bytes value.now)) }
    {
        if self.by.is_some() {
            return Err(TaskKind::DoubleOption);
        }
        if !is_proved(rows) {
            return Err(TaskKind::BadValue);
        }
        match by_of(value) {
            None => Err(TaskKind::BadValue),
            Some(by) => {
                self.by = Some(by);
                Ok(())
            }
        }
    }

    fn set_depth(&mut self, value: &[String]) -> Result<(), TaskKind>
        ensures { (proved : Bool) → Becomes result self.new (option_after proved self.old OptionName.Depth (map string_bytes value.now)) }
    {
        if self.depth.is_some() {
            return Err(TaskKind::DoubleOption);
        }
        match number_of(MAX_DEPTH, value) {
            None => Err(TaskKind::BadValue),
            Some(depth) => {
                self.depth = Some(depth);
                Ok(())
            }
        }
    }

    fn set_skip(&mut self, value: &[String]) -> Result<(), TaskKind>
        ensures { (proved : Bool) → Becomes result self.new (option_after proved self.old OptionName.Skip (map string_bytes value.now)) }
    {
        if self.skip.is_some() {
            return Err(TaskKind::DoubleOption);
        }
        match count_of(MAX_DEPTH - 1, value) {
            None => Err(TaskKind::BadValue),
            Some(skip) => {
                self.skip = Some(skip);
                Ok(())
            }
        }
    }

    fn set_stride(&mut self, value: &[String]) -> Result<(), TaskKind>
        ensures { (proved : Bool) → Becomes result self.new (option_after proved self.old OptionName.Stride (map string_bytes value.now)) }
    {
        if self.stride.is_some() {
            return Err(TaskKind::DoubleOption);
        }
        match number_of(MAX_DEPTH, value) {
            None => Err(TaskKind::BadValue),
            Some(stride) => {
                self.stride = Some(stride);
                Ok(())
            }
        }
    }

    fn set_timeout(&mut self, value: &[String]) -> Result<(), TaskKind>
        ensures { (proved : Bool) → Becomes result self.new (option_after proved self.old OptionName.Timeout (map string_bytes value.now)) }
    {
        if self.timeout.is_some() {
            return Err(TaskKind::DoubleOption);
        }
        match number_of(MAX_TIMEOUT, value) {
            None => Err(TaskKind::BadValue),
            Some(timeout) => {
                self.timeout = Some(timeout);
                Ok(())
            }
        }
    }

    fn set_expect(
        &mut self,
        alloc: Global,
        value: &[String],
    ) -> Result<Result<(), TaskKind>, AllocError>
        ensures { (proved : Bool) → IfOk result (λ set. Becomes set self.new (option_after proved self.old OptionName.Expect (map string_bytes value.now))) }
    {
        if self.expect.is_some() {
            return Ok(Err(TaskKind::DoubleOption));
        }
        match statuses_of(alloc, value)? {
            None => Ok(Err(TaskKind::BadValue)),
            Some(expect) => {
                self.expect = Some(expect);
                Ok(Ok(()))
            }
        }
    }

    fn set_wait(&mut self, value: &[String]) -> Result<(), TaskKind>
        ensures { (proved : Bool) → Becomes result self.new (option_after proved self.old OptionName.Wait (map string_bytes value.now)) }
    {
        if self.wait.is_some() {
            return Err(TaskKind::DoubleOption);
        }
        match switch_of(value) {
            None => Err(TaskKind::BadValue),
            Some(wait) => {
                self.wait = Some(wait);
                Ok(())
            }
        }
    }

    fn set_multiclock(&mut self, value: &[String]) -> Result<(), TaskKind>
        ensures { (proved : Bool) → Becomes result self.new (option_after proved self.old OptionName.Multiclock (map string_bytes value.now)) }
    {
        if self.multiclock.is_some() {
            return Err(TaskKind::DoubleOption);
        }
        match switch_of(value) {
            Some(false) => {
                self.multiclock = Some(false);
                Ok(())
            }
            _ => Err(TaskKind::BadValue),
        }
    }

    /// Reads an option line, one of these lines that hold for the task.
    pub fn set_option(
        &mut self,
        alloc: Global,
        rows: &[Row],
        words: &[String],
    ) -> Result<Result<(), TaskKind>, AllocError>
        ensures { IfOk result (λ set. Becomes set self.new (option_row (is_proved rows.now) self.old (map string_bytes words.now))) }
    {
        match words {
            [] => Ok(Err(TaskKind::UnknownOption)),
            [name, value @ ..] => match option_name(name.as_str()) {
                OptionName::Mode => Ok(self.set_mode(value)),
                OptionName::By => Ok(self.set_by(rows, value)),
                OptionName::Skip => Ok(self.set_skip(value)),
                OptionName::Depth => Ok(self.set_depth(value)),
                OptionName::Stride => Ok(self.set_stride(value)),
                OptionName::Timeout => Ok(self.set_timeout(value)),
                OptionName::Expect => self.set_expect(alloc, value),
                OptionName::Wait => Ok(self.set_wait(value)),
                OptionName::Multiclock => Ok(self.set_multiclock(value)),
                OptionName::Unknown => Ok(Err(TaskKind::UnknownOption)),
            },
        }
    }

    /// Reads an engine line.
    pub fn add_engine(
        &mut self,
        alloc: Global,
        words: &[String],
    ) -> Result<Result<(), TaskKind>, AllocError>
        ensures { IfOk result (λ set. Becomes set self.new (engine_row self.old (map string_bytes words.now))) }
    {
        if self.engines.len() >= MAX_ENGINES {
            return Ok(Err(TaskKind::Limit));
        }
        match engine_of(alloc, words)? {
            Err(kind) => Ok(Err(kind)),
            Ok(engine) => {
                self.engines.push(engine)?;
                Ok(Ok(()))
            }
        }
    }

    /// Reads a line of the script.
    pub fn set_script(&mut self, words: &[String]) -> Result<Result<(), TaskKind>, AllocError>
        ensures { IfOk result (λ set. Becomes set self.new (script_row self.old (map string_bytes words.now))) }
    {
        if self.script.is_some() {
            return Ok(Err(TaskKind::Script));
        }
        match words {
            [command, name] => {
                if command.as_str() != "read_rtlil" {
                    return Ok(Err(TaskKind::Script));
                }
                self.script = Some(Name::new(name.clone()?));
                Ok(Ok(()))
            }
            _ => Ok(Err(TaskKind::Script)),
        }
    }
}
