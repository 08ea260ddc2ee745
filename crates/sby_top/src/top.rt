// The top call.

ghost use Rattle.std.specs.Prelude.{◌≡◌, ◌⊎◌, ◌<◌, ◌≤◌, [], ◌∷◌, List, ℕ, IfOk, None, Option, Some, length, map, option_map, string_bytes, vec_capacity};
ghost use Rattle.gen_design.specs.Ring.{task_lines, text_of};
ghost use Rattle.sby_edge.specs.Cause.{CountsOf, Rose};
ghost use Rattle.sby_edge.specs.Files.{Store};
ghost use Rattle.sby_edge.specs.Sink.{AreAll};
ghost use Rattle.sby_lines.specs.Telling.{GrownBySome, Tells, grown};
ghost use Rattle.sby_lines.specs.Texts.{usage_line};
ghost use Rattle.sby_words.specs.Folders.{task_folder};
ghost use Rattle.sby_words.specs.Requests.{AskGen, AskJudge, AskTasks};
ghost use Rattle.sby_top.specs.End.{exit_seen};
ghost use Rattle.sby_top.specs.Ending.{IsAsk, RanAtOnce, RunsTo, told_code};
ghost use Rattle.sby_top.specs.Promise.{Promises};
ghost use Rattle.sby_top.specs.Run.{Did, LinesAlone, NamesTold, TurnsDone, WasRefused, name_lines, rc_of_exit};
ghost use Rattle.sby_top.specs.Generated.{gen_stem};
ghost use Rattle.sby_top.specs.Turns.{AreTextTurns, AreTurnsOf, IsSound, Refused, Turn as TurnOf, asked_tasks, turn_seen};
ghost use Rattle.sby_top.specs.Steps.{files_at};
ghost use Rattle.sby_top.specs.World.{at_once, world_at};
ghost use Rattle.task_race.specs.Bays.{YardAt, counts_at, yard_at};

use crate::claims::output_can_be_read;
use crate::host::{Host, Outside};
use crate::outcome::{Done, TaskEnd};
use crate::run::{Exit, refuse};
use crate::serve::get;
use crate::turns::{Book, Turn, judge_task, turn_of};
use gen_design::task_file;
use sby_edge::{Clock, Files, Sink, Yard};
use sby_file::{Config, read};
use sby_lines::{Early, Stop, offer, tell_name, usage_line};
use sby_terms::Expect;
use sby_words::{Asked, GenWords, JudgeWords, TaskWords, asked_of, folder_of, stem_of};
use std::alloc::{AllocError, Global};
use std::sync::Wait;
use std::thread::Threads;

const MOST_TASK_FILE: u64 = 1 << 24;

/// Memory ran out before anything was done.
pub fn out_of_memory(alloc: Global) -> Done
    ensures rc { result.rc ≡ 32 }
    ensures ends { result.ends.items ≡ [] }
{
    Done {
        rc: 32,
        ends: Vec::new(alloc),
    }
}

// The exit status: exactly 16 where a failed call of the sink cut the run short.
fn rc_of_exit(exit: Exit) -> u8
    ensures { result ≡ rc_of_exit (exit_seen exit) }
{
    match exit {
        Exit::Code(rc) => rc,
        Exit::Cut => 16,
    }
}

// The text, where there is one.
fn text_in(text: &Option<String>) -> Option<&str>
    ensures { option_map (λ s. s.now) result ≡ option_map string_bytes text.now }
{
    match text {
        Some(text) => Some(text.as_str()),
        None => None,
    }
}

// The stem and the text of the generated task file of a size.
fn generated(alloc: Global, size: u32) -> Result<(String, Vec<u8>), AllocError>
    requires { 2 ≤ size }
    ensures { IfOk result (λ made. (string_bytes made.0 ≡ gen_stem size) × (made.1.items ≡ text_of (task_lines size))) }
{
    let stem = format!(in alloc; "gen_{size}")?;
    let text = task_file(alloc, size)?;
    Ok((stem, text))
}

// Offers the names of tasks, one a line.
fn offer_names<S: Sink>(alloc: Global, out: &mut S, names: &[String]) -> Result<(), Stop>
    ensures { Tells (S.taken out.old) (S.taken out.new) (S.faults out.old) (S.faults out.new) (S.ended out.new) (name_lines (map string_bytes names.now)) result }
{
    for name in names {
        tell_name(alloc, out, name.as_str())?;
    }
    Ok(())
}

// The exit status, by how lines were told.
fn told_code(told: Result<(), Stop>) -> u8
    ensures { result ≡ told_code told }
{
    match told {
        Ok(()) => 0,
        Err(Stop::Memory) => 32,
        Err(Stop::Sink) => 16,
    }
}

// Prints the names of a file's tasks.
fn tell_names<S: Sink>(alloc: Global, out: &mut S, config: &Config) -> Done
    ensures { (told : Option Store) (faults : ℕ) (blamed : Option (List ℕ)) (yard : YardAt) → LinesAlone
        (world_at told faults blamed (S.taken out.old) (S.faults out.old) (S.ended out.old) yard) (world_at told faults blamed (S.taken out.new) (S.faults out.new) (S.ended out.new) yard)
        (name_lines config.now.tasks) result }
{
    let told = offer_names(alloc, out, config.tasks());
    Done {
        rc: told_code(told),
        ends: Vec::new(alloc),
    }
}

// Prints the usage line.
fn run_usage<S: Sink>(alloc: Global, out: &mut S) -> Done
    ensures rc { result.rc ≡ 16 }
    ensures ends { result.ends.items ≡ [] }
    ensures later { S.faults out.old ≤ S.faults out.new }
    ensures line { ((S.faults out.new ≡ S.faults out.old) × (S.taken out.new ≡ grown (S.taken out.old) usage_line))
        ⊎ (Rose (S.faults out.old) (S.faults out.new) × AreAll (S.ended out.new) (S.taken out.new) × GrownBySome (S.taken out.old) (S.taken out.new) usage_line) }
{
    // A failed call has the exit status of the usage line.
    let _ = offer(out, usage_line().as_bytes());
    Done {
        rc: 16,
        ends: Vec::new(alloc),
    }
}

impl<R: Threads + Wait + Sync, F: Files, S: Sink, Y: Yard, C: Clock> Host<'_, R, F, S, Y, C> {
    // Runs a turn.
    fn run_turn(&mut self, number: u32, turn: Turn) -> (TaskEnd, Exit)
        requires { IsSound (turn_seen turn) }
        ensures had { RanAtOnce (⟦<Self as Outside>⟧.may_read self.old) number
            (⟦<Self as Outside>⟧.world self.old)
            (⟦<Self as Outside>⟧.world self.new)
            (turn_seen turn) result.0 (exit_seen result.1) }
        ensures keeps { ⟦<Self as Outside>⟧.keeps self.old self.new }
    {
        match turn {
            Turn::Refused(name, early) => refuse(self.alloc, self.out, name, early),
            Turn::Run(task) => self.run_task(number, task),
        }
    }

    // Runs the only turn there is, without an allowance.
    fn run_one(&mut self, turn: Turn) -> Done
        requires { IsSound (turn_seen turn) }
        ensures ran { RunsTo None (⟦<Self as Outside>⟧.may_read self.old)
            (⟦<Self as Outside>⟧.world self.old) (turn_seen turn ∷ [])
            (⟦<Self as Outside>⟧.world self.new) result }
        ensures keeps { ⟦<Self as Outside>⟧.keeps self.old self.new }
    {
        let mut ends = match Vec::with_capacity(self.alloc, 1) {
            Ok(ends) => ends,
            Err(_) => return out_of_memory(self.alloc),
        };
        let (end, exit) = self.run_turn(0, turn);
        ends.push(end).unwrap();
        Done {
            rc: rc_of_exit(exit),
            ends,
        }
    }

    // Runs the only turn there is.
    fn run_only(&mut self, jobs: Option<u32>, turn: Turn) -> Done
        requires { IsSound (turn_seen turn) }
        ensures ran { RunsTo jobs (⟦<Self as Outside>⟧.may_read self.old)
            (⟦<Self as Outside>⟧.world self.old) (turn_seen turn ∷ [])
            (⟦<Self as Outside>⟧.world self.new) result }
        ensures keeps { ⟦<Self as Outside>⟧.keeps self.old self.new }
    {
        match jobs {
            None => self.run_one(turn),
            Some(most) => self.run_only_together(most, turn),
        }
    }

    // Runs the turn of the task that is asked for, and answers whether others may follow.
    fn run_asked(&mut self, book: &Book<'_>, asked: Option<&str>, done: &mut Done) -> bool
        requires { length done.old.ends.items < vec_capacity done.old.ends }
        ensures asked { IsAsk (⟦<Self as Outside>⟧.may_read self.old)
            (⟦<Self as Outside>⟧.world self.old)
            (⟦<Self as Outside>⟧.world self.new)
            book.now.stem.now (option_map (λ s. s.now) book.now.directory) book.now.config.now (option_map (λ s. s.now) asked.entry) done.old done.new result }
        ensures room { vec_capacity done.old.ends ≤ vec_capacity done.new.ends }
        ensures keeps { ⟦<Self as Outside>⟧.keeps self.old self.new }
    {
        // More turns than a number of 32 bits counts don't run.
        let (Ok(number), Ok(turn)) = (
            u32::try_from(done.ends.len()),
            turn_of(self.alloc, book, asked),
        ) else {
            done.rc |= 32;
            return false;
        };
        let (end, exit) = self.run_turn(number, turn);
        done.ends.push(end).unwrap();
        match exit {
            Exit::Code(rc) => {
                done.rc |= rc;
                true
            }
            Exit::Cut => {
                done.rc = 16;
                false
            }
        }
    }

    // Runs the tasks of these names, one after the other.
    fn run_in_turn(&mut self, book: &Book<'_>, names: &[String]) -> Done
        requires { 0 < length names.now }
        ensures ran { (turns : List TurnOf) × AreTurnsOf book.now.stem.now (option_map (λ s. s.now) book.now.directory) book.now.config.now (map Some (map string_bytes names.now)) turns
            × RunsTo None (⟦<Self as Outside>⟧.may_read self.old)
            (⟦<Self as Outside>⟧.world self.old) turns
            (⟦<Self as Outside>⟧.world self.new) result }
        ensures keeps { ⟦<Self as Outside>⟧.keeps self.old self.new }
    {
        let ends = match Vec::with_capacity(self.alloc, names.len()) {
            Ok(ends) => ends,
            Err(_) => return out_of_memory(self.alloc),
        };
        let mut done = Done { rc: 0, ends };
        for name in names {
            if !self.run_asked(book, Some(name.as_str()), &mut done) {
                return done;
            }
        }
        done
    }

    // Runs the tasks of these names.
    fn run_named(&mut self, jobs: Option<u32>, book: &Book<'_>, names: &[String]) -> Done
        requires { 0 < length names.now }
        ensures ran { (turns : List TurnOf) × AreTurnsOf book.now.stem.now (option_map (λ s. s.now) book.now.directory) book.now.config.now (map Some (map string_bytes names.now)) turns
            × RunsTo jobs (⟦<Self as Outside>⟧.may_read self.old)
            (⟦<Self as Outside>⟧.world self.old) turns
            (⟦<Self as Outside>⟧.world self.new) result }
        ensures keeps { ⟦<Self as Outside>⟧.keeps self.old self.new }
    {
        match jobs {
            None => self.run_in_turn(book, names),
            Some(most) => self.run_together(most, book, names),
        }
    }

    // Runs the nameless task.
    fn run_nameless(&mut self, jobs: Option<u32>, book: &Book<'_>) -> Done
        ensures ran { (turns : List TurnOf) × AreTurnsOf book.now.stem.now (option_map (λ s. s.now) book.now.directory) book.now.config.now (None ∷ []) turns
            × RunsTo jobs (⟦<Self as Outside>⟧.may_read self.old)
            (⟦<Self as Outside>⟧.world self.old) turns
            (⟦<Self as Outside>⟧.world self.new) result }
        ensures keeps { ⟦<Self as Outside>⟧.keeps self.old self.new }
    {
        match turn_of(self.alloc, book, None) {
            Ok(turn) => self.run_only(jobs, turn),
            Err(_) => out_of_memory(self.alloc),
        }
    }

    // Runs the turns of the tasks that are asked for: those that are named, else all of the file.
    fn run_book(&mut self, jobs: Option<u32>, book: &Book<'_>, names: &[String]) -> Done
        ensures ran { (turns : List TurnOf) × AreTurnsOf book.now.stem.now (option_map (λ s. s.now) book.now.directory) book.now.config.now (asked_tasks (map string_bytes names.now) book.now.config.now) turns
            × RunsTo jobs (⟦<Self as Outside>⟧.may_read self.old)
            (⟦<Self as Outside>⟧.world self.old) turns
            (⟦<Self as Outside>⟧.world self.new) result }
        ensures keeps { ⟦<Self as Outside>⟧.keeps self.old self.new }
    {
        if !names.is_empty() {
            return self.run_named(jobs, book, names);
        }
        let tasks = book.config.tasks();
        if tasks.is_empty() {
            self.run_nameless(jobs, book)
        } else {
            self.run_named(jobs, book, tasks)
        }
    }

    // Tells a fault of a task file, under its stem.
    fn run_fault(
        &mut self,
        jobs: Option<u32>,
        stem: &str,
        directory: Option<&str>,
        early: Early,
    ) -> Done
        ensures ran { RunsTo jobs (⟦<Self as Outside>⟧.may_read self.old)
            (⟦<Self as Outside>⟧.world self.old)
            (Refused (task_folder stem.now (option_map (λ s. s.now) directory.entry) []) early ∷ [])
            (⟦<Self as Outside>⟧.world self.new) result }
        ensures keeps { ⟦<Self as Outside>⟧.keeps self.old self.new }
    {
        match folder_of(self.alloc, stem, directory, "") {
            Ok(name) => self.run_only(jobs, Turn::Refused(name, early)),
            Err(_) => out_of_memory(self.alloc),
        }
    }

    // Runs the turns that a task file's text gives.
    fn run_text(
        &mut self,
        jobs: Option<u32>,
        stem: &str,
        directory: Option<&str>,
        names: &[String],
        text: &[u8],
    ) -> Done
        ensures ran { (turns : List TurnOf) × AreTextTurns stem.now (option_map (λ s. s.now) directory.entry) (map string_bytes names.now) text.now turns
            × RunsTo jobs (⟦<Self as Outside>⟧.may_read self.old)
            (⟦<Self as Outside>⟧.world self.old) turns
            (⟦<Self as Outside>⟧.world self.new) result }
        ensures keeps { ⟦<Self as Outside>⟧.keeps self.old self.new }
    {
        match read(self.alloc, text) {
            Ok(Ok(config)) => {
                let book = Book {
                    config: &config,
                    stem,
                    directory,
                };
                self.run_book(jobs, &book, names)
            }
            Ok(Err(fault)) => self.run_fault(jobs, stem, directory, Early::Sby(fault)),
            Err(_) => self.run_fault(jobs, stem, directory, Early::Memory),
        }
    }

    // Runs the turns that a task file gives.
    fn run_tasks(&mut self, words: &TaskWords) -> Done
        ensures done { TurnsDone (⟦<Self as Outside>⟧.may_read self.old)
            (⟦<Self as Outside>⟧.world self.old)
            (⟦<Self as Outside>⟧.world self.new)
            result (AskTasks words.now) }
        ensures keeps { ⟦<Self as Outside>⟧.keeps self.old self.new }
    {
        let stem = stem_of(words.file.as_str());
        let directory = text_in(&words.directory);
        match get(self.alloc, self.files, words.file.as_str(), MOST_TASK_FILE) {
            Ok(text) => self.run_text(words.jobs, stem, directory, &words.names, &text),
            Err(early) => self.run_fault(words.jobs, stem, directory, early),
        }
    }

    // Runs the turns of the generated task file.
    fn run_gen(&mut self, words: &GenWords) -> Done
        requires { 2 ≤ words.now.size }
        ensures done { TurnsDone (⟦<Self as Outside>⟧.may_read self.old)
            (⟦<Self as Outside>⟧.world self.old)
            (⟦<Self as Outside>⟧.world self.new)
            result (AskGen words.now) }
        ensures keeps { ⟦<Self as Outside>⟧.keeps self.old self.new }
    {
        match generated(self.alloc, words.size) {
            Ok((stem, text)) => {
                let directory = text_in(&words.directory);
                self.run_text(None, stem.as_str(), directory, &[], &text)
            }
            Err(_) => out_of_memory(self.alloc),
        }
    }

    // Runs the turn of the task that `--judge` asks.
    fn run_judge(&mut self, words: JudgeWords) -> Done
        requires least { 1 ≤ words.depth }
        requires most { words.depth ≤ 100000 }
        ensures done { TurnsDone (⟦<Self as Outside>⟧.may_read self.old)
            (⟦<Self as Outside>⟧.world self.old)
            (⟦<Self as Outside>⟧.world self.new)
            result (AskJudge words) }
        ensures keeps { ⟦<Self as Outside>⟧.keeps self.old self.new }
    {
        match judge_task(self.alloc, words) {
            Ok(task) => self.run_only(None, Turn::Run(task)),
            Err(_) => out_of_memory(self.alloc),
        }
    }

    // Prints the names of the tasks of a file, or tells its fault.
    fn run_names(&mut self, file: &str) -> Done
        ensures told { NamesTold (⟦<Self as Outside>⟧.may_read self.old)
            (⟦<Self as Outside>⟧.world self.old)
            (⟦<Self as Outside>⟧.world self.new)
            file.now result }
        ensures keeps { ⟦<Self as Outside>⟧.keeps self.old self.new }
    {
        let stem = stem_of(file);
        let text = match get(self.alloc, self.files, file, MOST_TASK_FILE) {
            Ok(text) => text,
            Err(early) => return self.run_fault(None, stem, None, early),
        };
        match read(self.alloc, &text) {
            Ok(Ok(config)) => tell_names(self.alloc, self.out, &config),
            Ok(Err(fault)) => self.run_fault(None, stem, None, Early::Sby(fault)),
            Err(_) => self.run_fault(None, stem, None, Early::Memory),
        }
    }

    // Does what the words ask.
    fn do_asked(&mut self, words: &[String]) -> Done
        ensures did { Did (⟦<Self as Outside>⟧.may_read self.old)
            (⟦<Self as Outside>⟧.world self.old)
            (⟦<Self as Outside>⟧.world self.new)
            (map string_bytes words.now) result }
        ensures keeps { ⟦<Self as Outside>⟧.keeps self.old self.new }
    {
        match asked_of(self.alloc, words) {
            Ok(Some(Asked::Judge(asked))) => self.run_judge(asked),
            Ok(Some(Asked::Tasks(asked))) => self.run_tasks(&asked),
            Ok(Some(Asked::Names(file))) => self.run_names(file.as_str()),
            Ok(Some(Asked::Gen(asked))) => self.run_gen(&asked),
            Ok(None) => run_usage(self.alloc, self.out),
            Err(AllocError) => out_of_memory(self.alloc),
        }
    }

    // Does what the words ask, with all that a reader of the output is promised.
    fn do_promised(&mut self, words: &[String]) -> Done
        ensures did { Did (⟦<Self as Outside>⟧.may_read self.old) (⟦<Self as Outside>⟧.world self.old) (⟦<Self as Outside>⟧.world self.new) (map string_bytes words.now) result }
        ensures promises { Promises (⟦<Self as Outside>⟧.may_read self.old) (⟦<Self as Outside>⟧.world self.old) (⟦<Self as Outside>⟧.world self.new) (map string_bytes words.now) result }
        ensures keeps { ⟦<Self as Outside>⟧.keeps self.old self.new }
    {
        output_can_be_read(self.clock);
        self.do_asked(words)
    }
}

/// Does all that the program `sby` does: `words` are its arguments, `files` and `out` the file store and the output that it uses.
/// Returns the exit status, and how each task ended.
///
/// Served are all forms of words: `--judge` with stored streams, task files, `--gen` and `--dumptasks`. The jobs of a task file are raced
/// by its engines, one lane for each, on threads of `rt`: their children are started in bays of `yard`, which all come back to it. `clock`
/// is read under a timeout alone. That memory ran out is told in the answer: status MEMORY, exit status 32.
pub fn run_sby<'h, R: Threads + Wait + Sync, F: Files, S: Sink, Y: Yard, C: Clock>(
    rt: &'h R,
    alloc: Global,
    words: &[String],
    files: &'h mut F,
    out: &'h mut S,
    yard: &'h mut Y,
    clock: &'h C,
) -> Done
    // The headline: what the words ask was done, and what a reader of the output is promised, claim by claim.
    ensures did { Did (C.may_read clock.now)
        (world_at (F.told files.old) (F.faults files.old) (F.blamed files.old) (S.taken out.old) (S.faults out.old) (S.ended out.old) (yard_at (Y.told yard.old) (Y.started yard.old) (counts_at (Y.start_faults yard.old) (Y.read_faults yard.old) (Y.hold_faults yard.old))))
        (world_at (F.told files.new) (F.faults files.new) (F.blamed files.new) (S.taken out.new) (S.faults out.new) (S.ended out.new) (yard_at (Y.told yard.new) (Y.started yard.new) (counts_at (Y.start_faults yard.new) (Y.read_faults yard.new) (Y.hold_faults yard.new))))
        (map string_bytes words.now) result }
    ensures promises { Promises (C.may_read clock.now)
        (world_at (F.told files.old) (F.faults files.old) (F.blamed files.old) (S.taken out.old) (S.faults out.old) (S.ended out.old) (yard_at (Y.told yard.old) (Y.started yard.old) (counts_at (Y.start_faults yard.old) (Y.read_faults yard.old) (Y.hold_faults yard.old))))
        (world_at (F.told files.new) (F.faults files.new) (F.blamed files.new) (S.taken out.new) (S.faults out.new) (S.ended out.new) (yard_at (Y.told yard.new) (Y.started yard.new) (counts_at (Y.start_faults yard.new) (Y.read_faults yard.new) (Y.hold_faults yard.new))))
        (map string_bytes words.now) result }
{
    let mut host = Host {
        rt,
        alloc,
        files,
        out,
        yard,
        clock,
    };
    host.do_promised(words)
}
