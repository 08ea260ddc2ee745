// A task is run, and its lines are printed.

ghost use Rattle.std.specs.Prelude.{◌≡◌, ◌⊎◌, ◌≤◌, [], ◌∷◌, ◌++◌, IsOk, List, None, Option, Some, length, map, string_bytes, vec_capacity, ℕ};
ghost use Rattle.judge.specs.Problem.{IsProblem};
ghost use Rattle.sby_edge.specs.Cause.{Rose};
ghost use Rattle.sby_terms.specs.Span.{slices_of};
ghost use Rattle.sby_terms.specs.declared.names.Status.{Status as StatusOf};
ghost use Rattle.sby_terms.specs.declared.names.Status.TheVariants.{Memory as MemoryStatus};
ghost use Rattle.sby_lines.specs.Lines.{HasJobLines, design_line, done_line, unput_lines};
ghost use Rattle.sby_lines.specs.Telling.{Tells};
ghost use Rattle.sby_lines.specs.Told.{AreLimited, AreReported, IsCollected, Request, asked_by, came};
ghost use Rattle.jobs_pool.specs.Places.{PoolOf};
ghost use Rattle.sby_edge.specs.Files.{Store};
ghost use Rattle.sby_top.specs.Causes.{AreTracesPut, HasReason, IsSpared};
ghost use Rattle.sby_top.specs.End.{AreShownPut, IsEnd, IsFaultTold, ended, exit_seen};
ghost use Rattle.sby_top.specs.Headline.{AreLines, HasOwnStatus, IsPrinted, TaskRan};
ghost use Rattle.sby_top.specs.Shown.{AreFitting, ArePutUpto, trace_seen};
ghost use Rattle.sby_top.specs.Task.{IsAskable, task_seen};
ghost use Rattle.sby_top.specs.Ready.{WasPrepared, WasRaced, back_by};
ghost use Rattle.sby_top.specs.World.{FilesOf, World, at_once, files_of, with_yard, world_at};
ghost use Rattle.sby_top.specs.Run.{WasRefused};
ghost use Rattle.task_race.specs.Bays.{AreLater, YardAt};

use crate::host::{Host, Outside};
use crate::outcome::TaskEnd;
use crate::serve::{Raced, Served};
use crate::task::Task;
use crate::traces::{Shown, put_traces, shown_runs};
use judge::{
    Designs, Problem, Text, base_and_step_show_that_nothing_breaks, slices_show_that_nothing_breaks,
};
use lane_berth::Allowance;
use sby_edge::{Clock, Files, Sink, Yard};
use sby_lines::{
    Early, Heading, Stop, early_status, fail_shows_its_run, job_lines_exist,
    settled_statement_is_shown, tell_design, tell_done, tell_early, tell_jobs, tell_unput,
};
use sby_terms::{Expect, Status, rc_of};
use std::alloc::Global;
use std::sync::Wait;
use std::thread::Threads;

/// How a run exits: with a number, or cut short by a failed call of the sink.
#[derive(Clone, Copy, Debug, PartialEq, Eq)]
pub enum Exit {
    Code(u8),
    Cut,
}

// A task as its lines show it.
fn heading(task: &Task) -> Heading<'_>
    ensures request { asked_by result (task_seen task.now).request.expect ≡ (task_seen task.now).request }
    ensures mode { result.mode ≡ task.now.mode }
    ensures limit { result.limit ≡ task.now.limit }
    ensures span { result.span ≡ task.now.span }
{
    Heading {
        name: task.name.as_str(),
        mode: task.mode,
        span: task.span,
        limit: task.limit,
    }
}

// The status and the exit, by how the lines were told.
fn ended(told: Result<(), Stop>, decided: Status, rc: u8) -> (Status, Exit)
    ensures { (result.0, exit_seen result.1) ≡ ended told decided rc }
{
    match told {
        Ok(()) => (decided, Exit::Code(rc)),
        Err(Stop::Memory) => (Status::Memory, Exit::Code(32)),
        Err(Stop::Sink) => (decided, Exit::Cut),
    }
}

/// Prints the lines of a fault before the lanes of a task of this many slices, with this name.
pub fn finish_fault<S: Sink>(
    alloc: Global,
    out: &mut S,
    name: String,
    slices: u32,
    expect: &Expect,
    early: Early,
) -> (TaskEnd, Exit)
    ensures end { IsEnd (string_bytes name) (Some early) [] [] None result.0 }
    ensures unput { result.0.unput.items ≡ [] }
    ensures told { (request : Request) → request.name ≡ string_bytes name → slices_of request.span ≡ slices → request.expect ≡ expect.now
        → IsFaultTold request early (S.taken out.old) (S.taken out.new) (S.faults out.old) (S.faults out.new) (S.ended out.new) result.0.status (exit_seen result.1) }
    ensures later { S.faults out.old ≤ S.faults out.new }
{
    let decided = early_status(&early);
    let rc = rc_of(expect, decided);
    let told = tell_early(alloc, out, name.as_str(), slices, &early, decided, rc);
    let (status, exit) = ended(told, decided, rc);
    let end = TaskEnd {
        name,
        status,
        early: Some(early),
        start: None,
        reports: Vec::new(alloc),
        unput: Vec::new(alloc),
        text: Text::empty(),
    };
    (end, exit)
}

/// Only a fault is told, under this name. Its status has its number whatever is expected.
pub fn refuse<S: Sink>(alloc: Global, out: &mut S, name: String, early: Early) -> (TaskEnd, Exit)
    ensures { (told : Option Store) (faults : ℕ) (blamed : Option (List ℕ)) (yard : YardAt) (got : FilesOf) (pool : Option PoolOf) → WasRefused
        (record { got = got; put = got; pool = pool; before = world_at told faults blamed (S.taken out.old) (S.faults out.old) (S.ended out.old) yard; after = world_at told faults blamed (S.taken out.new) (S.faults out.new) (S.ended out.new) yard })
        (string_bytes name) early result.0 (exit_seen result.1) }
{
    let expect = Expect::new(Vec::new(alloc));
    finish_fault(alloc, out, name, 1, &expect, early)
}

// The lines of the trace files that couldn't be put, and the last line.
fn tell_last<S: Sink>(
    alloc: Global,
    out: &mut S,
    heading: &Heading<'_>,
    unput: &[u32],
    status: Status,
    rc: u8,
) -> Result<(), Stop>
    ensures { (expect : List StatusOf) → Tells (S.taken out.old) (S.taken out.new) (S.faults out.old) (S.faults out.new) (S.ended out.new)
        (unput_lines (asked_by heading.now expect) unput.now ++ done_line heading.now.name.now status rc ∷ []) result }
{
    tell_unput(alloc, out, heading, unput)?;
    tell_done(alloc, out, heading.name, status, rc)
}

impl<R: Threads + Wait + Sync, F: Files, S: Sink, Y: Yard, C: Clock> Host<'_, R, F, S, Y, C> {
    // Prints the lines of a task that was served, after that of its design, and puts the trace files of these runs before the lines that tell
    // of them.
    fn tell_served(
        &mut self,
        heading: &Heading<'_>,
        served: &Served,
        runs: &[Shown<'_>],
        unput: &mut Vec<u32>,
        rc: u8,
    ) -> Result<(), Stop>
        requires reported { AreReported heading.now.mode heading.now.span served.now.problem.design served.now.reports.items }
        requires limited { AreLimited served.now.start heading.now.limit served.now.reports.items }
        requires collected { IsCollected heading.now.mode heading.now.span served.now.problem.design served.now.reports.items served.now.collected }
        requires fitting { AreFitting served.now.problem.design (map trace_seen runs.now) }
        requires none { unput.old.items ≡ [] }
        requires room { length runs.now ≤ vec_capacity unput.old }
        ensures told { (expect : List StatusOf) (lines : List (List ℕ)) → HasJobLines (asked_by heading.now expect) (came served.now.problem.design served.now.reports.items served.now.start) served.now.collected.status (design_line heading.now.name.now served.now.problem.design ∷ lines)
            → Tells (⟦<Self as Outside>⟧.world self.old).taken (⟦<Self as Outside>⟧.world self.new).taken (⟦<Self as Outside>⟧.world self.old).sink_faults (⟦<Self as Outside>⟧.world self.new).sink_faults (⟦<Self as Outside>⟧.world self.new).ended
            (lines ++ (unput_lines (asked_by heading.now expect) unput.new.items ++ done_line heading.now.name.now served.now.collected.status rc ∷ [])) result }
        ensures put { (expect : List StatusOf) → ArePutUpto (asked_by heading.now expect) served.now.problem.design (map trace_seen runs.now) (files_of (⟦<Self as Outside>⟧.world self.old)) (files_of (⟦<Self as Outside>⟧.world self.new)) unput.new.items (IsOk result) }
        ensures later { (⟦<Self as Outside>⟧.world self.old).file_faults ≤ (⟦<Self as Outside>⟧.world self.new).file_faults }
        ensures yard { self.new.yard.now ≡ self.old.yard.now }
        ensures keeps { ⟦<Self as Outside>⟧.keeps self.old self.new }
    {
        let flat = served.problem.flat();
        tell_jobs(
            self.alloc,
            self.out,
            heading,
            flat,
            &served.reports,
            served.start,
            &served.collected,
        )?;
        match put_traces(self.alloc, self.files, heading, flat, runs, unput) {
            Ok(()) => tell_last(
                self.alloc,
                self.out,
                heading,
                unput,
                served.collected.status,
                rc,
            ),
            Err(_) => Err(Stop::Memory),
        }
    }

    // Prints the lines of a task that was served, and puts its trace files.
    fn tell_task(
        &mut self,
        heading: &Heading<'_>,
        served: &Served,
        unput: &mut Vec<u32>,
        rc: u8,
        head: Result<(), Stop>,
    ) -> Result<(), Stop>
        requires reported { AreReported heading.now.mode heading.now.span served.now.problem.design served.now.reports.items }
        requires limited { AreLimited served.now.start heading.now.limit served.now.reports.items }
        requires collected { IsCollected heading.now.mode heading.now.span served.now.problem.design served.now.reports.items served.now.collected }
        requires none { unput.old.items ≡ [] }
        ensures told { (first : Option (List ℕ)) (faults : ℕ) (expect : List StatusOf) (lines : List (List ℕ))
            → Tells first (⟦<Self as Outside>⟧.world self.old).taken faults (⟦<Self as Outside>⟧.world self.old).sink_faults (⟦<Self as Outside>⟧.world self.old).ended (design_line heading.now.name.now served.now.problem.design ∷ []) head
            → HasJobLines (asked_by heading.now expect) (came served.now.problem.design served.now.reports.items served.now.start) served.now.collected.status lines
            → Tells first (⟦<Self as Outside>⟧.world self.new).taken faults (⟦<Self as Outside>⟧.world self.new).sink_faults (⟦<Self as Outside>⟧.world self.new).ended
            (lines ++ (unput_lines (asked_by heading.now expect) unput.new.items ++ done_line heading.now.name.now served.now.collected.status rc ∷ [])) result }
        ensures put { (expect : List StatusOf) → AreShownPut (asked_by heading.now expect) served.now.problem.design served.now.reports.items (files_of (⟦<Self as Outside>⟧.world self.old)) (files_of (⟦<Self as Outside>⟧.world self.new)) unput.new.items (IsOk result) }
        ensures later { (⟦<Self as Outside>⟧.world self.old).file_faults ≤ (⟦<Self as Outside>⟧.world self.new).file_faults }
        ensures yard { self.new.yard.now ≡ self.old.yard.now }
        ensures keeps { ⟦<Self as Outside>⟧.keeps self.old self.new }
    {
        head?;
        match shown_runs(
            self.alloc,
            &served.reports,
            heading,
            served.problem.flat(),
            &served.collected,
        ) {
            Ok(runs) => match unput.reserve(runs.len()) {
                Ok(()) => self.tell_served(heading, served, &runs, unput, rc),
                Err(_) => Err(Stop::Memory),
            },
            Err(_) => Err(Stop::Memory),
        }
    }

    // Prints the lines of a task that was served, and puts its trace files.
    fn finish_served(
        &mut self,
        task: Task,
        served: Served,
        head: Result<(), Stop>,
    ) -> (TaskEnd, Exit)
        requires problem { IsProblem served.problem }
        requires reported { AreReported task.mode task.span served.problem.design served.reports.items }
        requires limited { AreLimited served.start task.limit served.reports.items }
        requires collected { IsCollected task.mode task.span served.problem.design served.reports.items served.collected }
        ensures end { IsEnd (string_bytes task.name) None served.problem.problem.text served.reports.items served.start result.0 }
        ensures status { HasOwnStatus (task_seen task) result.0 ⊎ (result.0.status ≡ MemoryStatus) }
        ensures printed { (first : Option (List ℕ)) (faults : ℕ)
            → Tells first (⟦<Self as Outside>⟧.world self.old).taken faults (⟦<Self as Outside>⟧.world self.old).sink_faults (⟦<Self as Outside>⟧.world self.old).ended (design_line (string_bytes task.name) served.problem.design ∷ []) head
            → IsPrinted (string_bytes task.name) first (⟦<Self as Outside>⟧.world self.new).taken faults (⟦<Self as Outside>⟧.world self.new).sink_faults (⟦<Self as Outside>⟧.world self.new).ended (AreLines (task_seen task) result.0) task.expect (HasOwnStatus (task_seen task) result.0) result.0.status (exit_seen result.1) }
        ensures put { (first : Option (List ℕ)) (faults : ℕ)
            → Tells first (⟦<Self as Outside>⟧.world self.old).taken faults (⟦<Self as Outside>⟧.world self.old).sink_faults (⟦<Self as Outside>⟧.world self.old).ended (design_line (string_bytes task.name) served.problem.design ∷ []) head
            → AreTracesPut (task_seen task) (files_of (⟦<Self as Outside>⟧.world self.old)) (files_of (⟦<Self as Outside>⟧.world self.new)) served.problem served.reports.items result.0.unput.items
            ((result.0.status ≡ MemoryStatus) ⊎ Rose faults (⟦<Self as Outside>⟧.world self.new).sink_faults) }
        ensures files { (⟦<Self as Outside>⟧.world self.old).file_faults ≤ (⟦<Self as Outside>⟧.world self.new).file_faults }
        ensures later { (first : Option (List ℕ)) (faults : ℕ)
            → Tells first (⟦<Self as Outside>⟧.world self.old).taken faults (⟦<Self as Outside>⟧.world self.old).sink_faults (⟦<Self as Outside>⟧.world self.old).ended (design_line (string_bytes task.name) served.problem.design ∷ []) head
            → faults ≤ (⟦<Self as Outside>⟧.world self.new).sink_faults }
        ensures yard { self.new.yard.now ≡ self.old.yard.now }
        ensures keeps { ⟦<Self as Outside>⟧.keeps self.old self.new }
    {
        job_lines_exist();
        let decided = served.collected.status;
        let rc = rc_of(&task.expect, decided);
        let mut unput = Vec::new(self.alloc);
        let told = self.tell_task(&heading(&task), &served, &mut unput, rc, head);
        let (status, exit) = ended(told, decided, rc);
        let end = TaskEnd {
            name: task.name,
            status,
            early: None,
            start: served.start,
            reports: served.reports,
            unput,
            text: served.problem.into_text(),
        };
        (end, exit)
    }

    // Settles a task that was raced, prints its lines after that of its design, and puts its trace files.
    fn finish_raced(
        &mut self,
        number: u32,
        task: Task,
        raced: Raced<Y::Bay>,
        head: Result<(), Stop>,
    ) -> (TaskEnd, Exit)
        requires askable { IsAskable (task_seen task) }
        requires raced { (pool : Option PoolOf) × (told : Option Store) × WasRaced (back_by Y.Bay.told Y.Bay.start_faults Y.Bay.read_faults Y.Bay.hold_faults)
            (task_seen task) number pool (⟦<Self as Outside>⟧.may_read self.old) told (⟦<Self as Outside>⟧.world self.old).yard.scripts raced }
        ensures ran { (got put : FilesOf) (pool : Option PoolOf) (before : World) → WasPrepared (task_seen task) got put raced.problem
            → WasRaced (back_by Y.Bay.told Y.Bay.start_faults Y.Bay.read_faults Y.Bay.hold_faults)
            (task_seen task) number pool (⟦<Self as Outside>⟧.may_read self.old) put.told (⟦<Self as Outside>⟧.world self.old).yard.scripts raced
            → before.yard ≡ (⟦<Self as Outside>⟧.world self.old).yard → files_of before ≡ files_of (⟦<Self as Outside>⟧.world self.old)
            → Tells before.taken (⟦<Self as Outside>⟧.world self.old).taken before.sink_faults (⟦<Self as Outside>⟧.world self.old).sink_faults (⟦<Self as Outside>⟧.world self.old).ended (design_line (string_bytes task.name) raced.problem.design ∷ []) head
            → TaskRan (⟦<Self as Outside>⟧.may_read self.old) number (record { got = got; put = put; pool = pool; before = before; after = ⟦<Self as Outside>⟧.world self.new })
            (task_seen task) result.0 (exit_seen result.1) }
        ensures keeps { ⟦<Self as Outside>⟧.keeps self.old self.new }
    {
        // PASS of prove and of bmc stands on these laws, and what is shown on the others.
        base_and_step_show_that_nothing_breaks();
        slices_show_that_nothing_breaks();
        fail_shows_its_run();
        job_lines_exist();
        settled_statement_is_shown();
        let served = self.settle(number, &task, raced);
        self.finish_served(task, served, head)
    }

    // Tells the fault by which a task ended before its lanes.
    fn finish_early(&mut self, number: u32, task: Task, early: Early) -> (TaskEnd, Exit)
        requires askable { IsAskable (task_seen task) }
        ensures ran { (got put : FilesOf) (pool : Option PoolOf) (before : World) → HasReason (task_seen task) got put early → got.faults ≤ put.faults
            → before ≡ with_yard (⟦<Self as Outside>⟧.world self.old) before.yard → IsSpared before.yard (⟦<Self as Outside>⟧.world self.old).yard early
            → (⟦<Self as Outside>⟧.world self.old).yard.scripts ≡ before.yard.scripts → AreLater before.yard.counts (⟦<Self as Outside>⟧.world self.old).yard.counts
            → TaskRan (⟦<Self as Outside>⟧.may_read self.old) number (record { got = got; put = put; pool = pool; before = before; after = ⟦<Self as Outside>⟧.world self.new })
            (task_seen task) result.0 (exit_seen result.1) }
        ensures files { self.new.files.now ≡ self.old.files.now }
        ensures yard { self.new.yard.now ≡ self.old.yard.now }
        ensures keeps { ⟦<Self as Outside>⟧.keeps self.old self.new }
    {
        base_and_step_show_that_nothing_breaks();
        slices_show_that_nothing_breaks();
        fail_shows_its_run();
        job_lines_exist();
        settled_statement_is_shown();
        let slices = task.span.slices();
        finish_fault(self.alloc, self.out, task.name, slices, &task.expect, early)
    }

    // Prints the line of the design of a task.
    fn tell_head(&mut self, task: &Task, problem: &Problem) -> Result<(), Stop>
        ensures told { Tells (⟦<Self as Outside>⟧.world self.old).taken (⟦<Self as Outside>⟧.world self.new).taken (⟦<Self as Outside>⟧.world self.old).sink_faults (⟦<Self as Outside>⟧.world self.new).sink_faults (⟦<Self as Outside>⟧.world self.new).ended
            (design_line (string_bytes task.now.name) problem.now.design ∷ []) result }
        ensures files { self.new.files.now ≡ self.old.files.now }
        ensures yard { self.new.yard.now ≡ self.old.yard.now }
        ensures keeps { ⟦<Self as Outside>⟧.keeps self.old self.new }
    {
        tell_design(self.alloc, self.out, task.name.as_str(), problem.flat())
    }

    /// Runs a task, which has this number in its call: gets its design, puts its jobs' files, serves its jobs, prints its lines and puts its
    /// trace files.
    pub fn run_task(&mut self, number: u32, task: Task) -> (TaskEnd, Exit)
        requires { IsAskable (task_seen task) }
        ensures ran { (put : FilesOf) × TaskRan (⟦<Self as Outside>⟧.may_read self.old) number (at_once
            (⟦<Self as Outside>⟧.world self.old) put
            (⟦<Self as Outside>⟧.world self.new))
            (task_seen task) result.0 (exit_seen result.1) }
        ensures keeps { ⟦<Self as Outside>⟧.keeps self.old self.new }
    {
        let mut alone = Allowance::none();
        let prepared = {
            let mut designs = Designs::new(self.alloc);
            self.prepare(number, &task, &mut designs, &mut alone)
        };
        alone.end();
        match prepared {
            Ok(ready) => {
                // The design is told at once, before its race.
                let head = self.tell_head(&task, &ready.problem);
                let raced = self.race(number, &task, ready);
                self.finish_raced(number, task, raced, head)
            }
            Err(early) => self.finish_early(number, task, early),
        }
    }

    /// Prints the lines of a task that was raced beside others, and puts its trace files.
    pub fn show_task(&mut self, number: u32, task: Task, raced: Raced<Y::Bay>) -> (TaskEnd, Exit)
        requires askable { IsAskable (task_seen task) }
        requires raced { (pool : Option PoolOf) × (told : Option Store) × WasRaced (back_by Y.Bay.told Y.Bay.start_faults Y.Bay.read_faults Y.Bay.hold_faults)
            (task_seen task) number pool (⟦<Self as Outside>⟧.may_read self.old) told (⟦<Self as Outside>⟧.world self.old).yard.scripts raced }
        ensures ran { (got put : FilesOf) (pool : Option PoolOf) → WasPrepared (task_seen task) got put raced.problem
            → WasRaced (back_by Y.Bay.told Y.Bay.start_faults Y.Bay.read_faults Y.Bay.hold_faults)
            (task_seen task) number pool (⟦<Self as Outside>⟧.may_read self.old) put.told (⟦<Self as Outside>⟧.world self.old).yard.scripts raced
            → TaskRan (⟦<Self as Outside>⟧.may_read self.old) number
            (record { got = got; put = put; pool = pool; before = ⟦<Self as Outside>⟧.world self.old; after = ⟦<Self as Outside>⟧.world self.new })
            (task_seen task) result.0 (exit_seen result.1) }
        ensures keeps { ⟦<Self as Outside>⟧.keeps self.old self.new }
    {
        let head = self.tell_head(&task, &raced.problem);
        self.finish_raced(number, task, raced, head)
    }

    /// Prints the lines of a task that ended before its lanes while others were prepared.
    pub fn show_early(&mut self, number: u32, task: Task, early: Early) -> (TaskEnd, Exit)
        requires askable { IsAskable (task_seen task) }
        ensures ran { (got put : FilesOf) (pool : Option PoolOf) → HasReason (task_seen task) got put early → got.faults ≤ put.faults
            → TaskRan (⟦<Self as Outside>⟧.may_read self.old) number
            (record { got = got; put = put; pool = pool; before = ⟦<Self as Outside>⟧.world self.old; after = ⟦<Self as Outside>⟧.world self.new })
            (task_seen task) result.0 (exit_seen result.1) }
        ensures keeps { ⟦<Self as Outside>⟧.keeps self.old self.new }
    {
        self.finish_early(number, task, early)
    }
}
