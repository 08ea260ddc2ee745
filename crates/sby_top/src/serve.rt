// A task's design is got, its jobs' files are put, and its streams judged, or its lanes raced.

ghost use Rattle.std.specs.Prelude.{◌≡◌, ◌⊎◌, ◌<◌, ◌≤◌, [], ℕ, List, None, Option, Some, IfErr, IfOk, OnErr, OnOk, Contains, length, map, slice_get, string_bytes};
ghost use Rattle.judge.specs.Problem.{AskedOf, IsProblem};
ghost use Rattle.sby_terms.specs.declared.names.JobName.{JobName};
ghost use Rattle.sby_top.specs.Causes.{HasReason, IsSpared};
ghost use Rattle.sby_top.specs.Judged.{AreJudged, AreReports, AreStreamReports, IsGotFor, racing_of};
ghost use Rattle.jobs_pool.specs.Places.{PoolOf};
ghost use Rattle.sby_edge.specs.Child.{YardOf};
ghost use Rattle.sby_top.specs.Ready.{HasCome, IsReady, IsServing, WasRaced, back_by, report_count};
ghost use Rattle.sby_lines.specs.declared.early.Early.TheVariants.{Memory as EarlyMemory};
ghost use Rattle.sby_top.specs.Steps.{files_at, got_items, IsCutShort, IsFailedCall, IsPathJudged, IsRefusal, IsTextFailed};
ghost use Rattle.sby_top.specs.Served.{ArePut, IsGot, IsServed, IsTextOf, files_in, jobs_in};
ghost use Rattle.sby_edge.specs.Files.{PieceFrom};
ghost use Rattle.sby_top.specs.Headline.{early_of};
ghost use Rattle.judge.specs.Fault.{IsProblemFault};
ghost use Rattle.sby_terms.specs.Problem.{ProblemOf};
ghost use Rattle.sby_lines.specs.Told.{AreLimited, AreReported, IsCollected};
ghost use Rattle.sby_top.specs.World.{files_of, race_of};
ghost use Rattle.sby_top.specs.Task.{IsAskable, TaskOf, problem_of, design_seen, service_seen, streams_in, task_seen};
ghost use Rattle.sby_terms.specs.declared.engine.Engine.{Engine as EngineOf};
ghost use Rattle.sby_edge.specs.Files.{Store};
ghost use Rattle.task_race.specs.Bays.{AreLater};
ghost use Rattle.task_race.specs.Ran.{racing_seen};
ghost use Rattle.sby_top.specs.Task.{Lanes, Streams};

use crate::host::{Host, Outside};
use crate::judge_stream::judge_stored;
use crate::put::put_jobs;
use crate::task::{DesignAt, Service, Task};
use judge::{Designs, Finding, Problem, ProblemFault, one_file, serves};
use lane_berth::Allowance;
use race_core::{JobEnd, Report, Room};
use sby_edge::{Clock, Fail, Files, Got, Launch, Sink, Yard};
use sby_lines::{Collected, Early};
use sby_terms::{Engine, JobName};
use sby_words::stream_kind;
use std::alloc::Global;
use std::sync::Wait;
use std::thread::Threads;
use task_race::{
    PreparedRace, RacedLanes, Racing, RanLanes, finish_race, prepare_race, race_prepared,
};

const MOST_DESIGN: u64 = 1 << 26;

/// What serves the jobs of a task that is ready for its race.
pub enum Serving<'p, L> {
    /// Stored streams, which were judged: their report.
    Judged(Vec<Report<Finding>>),
    /// Lanes, for which all memory is taken.
    Lanes(PreparedRace<'p, L>),
}

/// A task whose design was accepted and whose jobs' files were put, with room for what its reports decide.
pub struct Ready<'p, L> {
    pub problem: Problem,
    pub room: Room,
    pub serving: Serving<'p, L>,
}

/// What a task's jobs left.
pub enum Came<L> {
    /// The report of stored streams.
    Judged(Vec<Report<Finding>>),
    /// Lanes that ran, whose bays aren't back in their yard.
    Raced(RacedLanes<L>),
}

/// A task whose jobs ended, with room for what its reports decide.
pub struct Raced<L> {
    pub problem: Problem,
    pub room: Room,
    pub came: Came<L>,
}

/// A task whose design was accepted: its problem, what its lanes report, and what the reports decide.
#[derive(Drop)]
pub struct Served {
    pub problem: Problem,
    pub reports: Vec<Report<Finding>>,
    /// The reading at which lanes under a limit started.
    pub start: Option<u64>,
    pub collected: Collected,
}

pub(crate) fn file_fault(alloc: Global, path: &str) -> Early
    ensures { IsFailedCall (files_at None 0 None) (files_at None 1 None) path.now result }
{
    match String::from_str(alloc, path) {
        Ok(path) => Early::File(path),
        Err(_) => Early::Memory,
    }
}

fn bytes_of(got: Got) -> Vec<u8>
    ensures { result.items ≡ got_items got }
{
    match got {
        Got::All(bytes) => bytes,
        Got::Long(bytes) => bytes,
    }
}

/// Gets the content of a path, cut after `most + 1` bytes.
pub fn get<F: Files>(alloc: Global, files: &mut F, path: &str, most: u64) -> Result<Vec<u8>, Early>
    ensures got { IfOk result (λ bytes. IsGot (F.told files.old) path.now most bytes.items) }
    ensures failed { IfErr result (IsFailedCall (files_at (F.told files.old) (F.faults files.old) (F.blamed files.old)) (files_at (F.told files.new) (F.faults files.new) (F.blamed files.new)) path.now) }
    ensures told { F.told files.new ≡ F.told files.old }
    ensures still { OnOk result (F.faults files.new ≡ F.faults files.old) }
    ensures blamed { OnOk result (F.blamed files.new ≡ F.blamed files.old) }
    ensures later { F.faults files.old ≤ F.faults files.new }
{
    match files.get(alloc, path, most) {
        Ok(got) => Ok(bytes_of(got)),
        Err(Fail::Failed) => Err(file_fault(alloc, path)),
        Err(Fail::Memory) => Err(Early::Memory),
    }
}

/// Gets the bytes of the content of a path from a place on, at most `most` of them.
pub fn get_piece<F: Files>(
    alloc: Global,
    files: &mut F,
    path: &str,
    from: u64,
    most: usize,
) -> Result<Vec<u8>, Early>
    ensures got { IfOk result (λ piece. PieceFrom (F.told files.old) path.now from most piece.items) }
    ensures failed { IfErr result (IsFailedCall (files_at (F.told files.old) (F.faults files.old) (F.blamed files.old)) (files_at (F.told files.new) (F.faults files.new) (F.blamed files.new)) path.now) }
    ensures told { F.told files.new ≡ F.told files.old }
    ensures still { OnOk result (F.faults files.new ≡ F.faults files.old) }
    ensures blamed { OnOk result (F.blamed files.new ≡ F.blamed files.old) }
    ensures later { F.faults files.old ≤ F.faults files.new }
{
    match files.get_piece(alloc, path, from, most) {
        Ok(piece) => Ok(piece),
        Err(Fail::Failed) => Err(file_fault(alloc, path)),
        Err(Fail::Memory) => Err(Early::Memory),
    }
}

// The text of a design, which is got where its path is given.
fn design_text<F: Files>(alloc: Global, files: &mut F, design: &DesignAt) -> Result<Vec<u8>, Early>
    ensures got { IfOk result (λ text. IsTextOf (F.told files.old) (design_seen design.now) text.items) }
    ensures failed { IfErr result (IsTextFailed (design_seen design.now) (files_at (F.told files.old) (F.faults files.old) (F.blamed files.old)) (files_at (F.told files.new) (F.faults files.new) (F.blamed files.new))) }
    ensures told { F.told files.new ≡ F.told files.old }
    ensures still { OnOk result (F.faults files.new ≡ F.faults files.old) }
    ensures blamed { OnOk result (F.blamed files.new ≡ F.blamed files.old) }
    ensures later { F.faults files.old ≤ F.faults files.new }
{
    match design {
        DesignAt::Stored(path) => get(alloc, files, path.as_str(), MOST_DESIGN),
        DesignAt::Given(bytes) => match Vec::from_slice(alloc, bytes) {
            Ok(text) => Ok(text),
            Err(_) => Err(Early::Memory),
        },
    }
}

fn refusal(fault: ProblemFault) -> Early
    ensures early { result ≡ early_of fault }
    ensures refuses { (p : ProblemOf) → IsProblemFault p fault → IsRefusal p result }
{
    match fault {
        ProblemFault::Read(fault) => Early::Read(fault),
        ProblemFault::Design(fault) => Early::Design(fault),
        ProblemFault::TooMany(job) => Early::TooMany(job),
    }
}

fn problem_of(
    alloc: Global,
    designs: &mut Designs,
    text: Vec<u8>,
    task: &Task,
) -> Result<Problem, Early>
    requires { IsAskable (task_seen task.now) }
    ensures ok { IfOk result (λ p. (p.problem ≡ problem_of (task_seen task.now) text.items) × IsProblem p) }
    ensures err { IfErr result (IsRefusal (problem_of (task_seen task.now) text.items)) }
{
    match designs.problem(alloc, text, task.mode, task.span) {
        Ok(Ok(problem)) => Ok(problem),
        Ok(Err(fault)) => Err(refusal(fault)),
        Err(_) => Err(Early::Memory),
    }
}

// How many stored streams there are.
fn stream_count(service: &Service) -> usize
    ensures { result ≡ length (streams_in (service_seen service.now)) }
{
    match service {
        Service::Streams(paths) => paths.len(),
        Service::Lanes(_) => 0,
    }
}

// Gets the design. It is accepted, and there is a job for each stream, or nothing was put.
fn accept<F: Files>(
    alloc: Global,
    files: &mut F,
    designs: &mut Designs,
    task: &Task,
) -> Result<Problem, Early>
    requires { IsAskable (task_seen task.now) }
    ensures ok { IfOk result (IsServed (F.told files.old) (task_seen task.now)) }
    ensures err { IfErr result (HasReason (task_seen task.now) (files_at (F.told files.old) (F.faults files.old) (F.blamed files.old)) (files_at (F.told files.new) (F.faults files.new) (F.blamed files.new))) }
    ensures told { F.told files.new ≡ F.told files.old }
    ensures still { OnOk result (F.faults files.new ≡ F.faults files.old) }
    ensures blamed { OnOk result (F.blamed files.new ≡ F.blamed files.old) }
    ensures later { F.faults files.old ≤ F.faults files.new }
{
    let text = design_text(alloc, files, &task.design)?;
    let problem = problem_of(alloc, designs, text, task)?;
    if stream_count(&task.service) > problem.jobs() {
        return Err(Early::Streams);
    }
    Ok(problem)
}

// How many jobs there are. A design has at most 2^27 cells.
fn job_count(problem: &Problem) -> u32
    ensures { result ≡ length (jobs_in problem.now) }
{
    // A flat design is one, of so few cells.
    let _ = problem.flat();
    problem.jobs() as u32
}

// Judges the stream of the job at a place, if there is one that is judged for such a job.
fn judge_place<F: Files>(
    alloc: Global,
    files: &mut F,
    problem: &Problem,
    paths: &[String],
    place: usize,
) -> Result<JobEnd<Finding>, Early>
    requires { place < length (jobs_in problem.now) }
    ensures ok { IfOk result (λ end. (job : JobName) × (slice_get (jobs_in problem.now) place ≡ Some job)
        × IsPathJudged problem.now (F.told files.old) job (slice_get (map string_bytes paths.now) place) end) }
    ensures err { IfErr result (λ early. (path : List ℕ) × IsGotFor problem.now (map string_bytes paths.now) path
        × IsFailedCall (files_at (F.told files.old) (F.faults files.old) (F.blamed files.old)) (files_at (F.told files.new) (F.faults files.new) (F.blamed files.new)) path early) }
    ensures told { F.told files.new ≡ F.told files.old }
    ensures still { OnOk result (F.faults files.new ≡ F.faults files.old) }
    ensures blamed { OnOk result (F.blamed files.new ≡ F.blamed files.old) }
    ensures later { F.faults files.old ≤ F.faults files.new }
{
    let job = problem.job(place);
    let Some(path) = paths.get(place) else {
        return Ok(JobEnd::NotServed);
    };
    let kind = stream_kind(path.as_str());
    if serves(kind, job) {
        judge_stored(alloc, files, problem, job, kind, path.as_str())
    } else {
        Ok(JobEnd::NotServed)
    }
}

// Judges the streams, in the order of the jobs. A job without one that is judged for it isn't served.
fn judge_jobs<F: Files>(
    alloc: Global,
    files: &mut F,
    problem: &Problem,
    paths: &[String],
    report: &mut Report<Finding>,
) -> Result<(), Early>
    requires none { report.old.ends ≡ [] }
    requires room { report.old.jobs ≡ length (jobs_in problem.now) }
    ensures ok { OnOk result (AreJudged problem.now (F.told files.old) (jobs_in problem.now) (map string_bytes paths.now) report.new.ends) }
    ensures report { OnOk result (report.new ≡ record report.old { ends = report.new.ends }) }
    ensures err { IfErr result (λ early. (path : List ℕ) × IsGotFor problem.now (map string_bytes paths.now) path
        × IsFailedCall (files_at (F.told files.old) (F.faults files.old) (F.blamed files.old)) (files_at (F.told files.new) (F.faults files.new) (F.blamed files.new)) path early) }
    ensures told { F.told files.new ≡ F.told files.old }
    ensures still { OnOk result (F.faults files.new ≡ F.faults files.old) }
    ensures blamed { OnOk result (F.blamed files.new ≡ F.blamed files.old) }
    ensures later { F.faults files.old ≤ F.faults files.new }
{
    for place in 0..problem.jobs() {
        let end = judge_place(alloc, files, problem, paths, place)?;
        report.push_end(end);
    }
    Ok(())
}

// Puts the jobs' files, then judges the streams.
fn judge_streams<F: Files>(
    alloc: Global,
    files: &mut F,
    problem: &Problem,
    task: &Task,
    paths: &[String],
) -> Result<Vec<Report<Finding>>, Early>
    requires { (service_seen task.now.service) ≡ Streams (map string_bytes paths.now) }
    ensures put { OnOk result (ArePut problem.now (task_seen task.now).request.name (files_in (task_seen task.now).service problem.now) (F.told files.old) (F.told files.new)) }
    ensures ok { IfOk result (λ reports. AreStreamReports problem.now (F.told files.new) (map string_bytes paths.now) reports.items) }
    ensures err { IfErr result (IsCutShort problem.now (task_seen task.now).request.name (task_seen task.now).service (files_at (F.told files.old) (F.faults files.old) (F.blamed files.old)) (files_at (F.told files.new) (F.faults files.new) (F.blamed files.new))) }
    ensures still { OnOk result (F.faults files.new ≡ F.faults files.old) }
    ensures blamed { OnOk result (F.blamed files.new ≡ F.blamed files.old) }
    ensures later { F.faults files.old ≤ F.faults files.new }
{
    let (Ok(report), Ok(reports)) = (
        Report::new(alloc, 0, job_count(problem)),
        Vec::with_capacity(alloc, 1),
    ) else {
        return Err(Early::Memory);
    };
    let mut report = report;
    let mut reports = reports;
    put_jobs(alloc, files, problem, task)?;
    judge_jobs(alloc, files, problem, paths, &mut report)?;
    reports.push(report).unwrap();
    Ok(reports)
}

// What is raced of a task: the jobs of its problem, by these engines.
fn racing<'a>(
    problem: &'a Problem,
    task: &'a Task,
    engines: &'a [Engine],
    number: u32,
) -> Racing<'a>
    ensures { racing_seen result ≡ racing_of (task_seen task.now) problem.now number engines.now }
{
    Racing {
        problem,
        engines,
        folder: task.name.as_str(),
        task: number,
        wait: task.wait,
        limit: task.limit,
    }
}

// How many reports there will be.
fn report_count(service: &Service) -> usize
    ensures { result ≡ report_count (service_seen service.now) }
{
    match service {
        Service::Streams(_) => 1,
        Service::Lanes(engines) => engines.len(),
    }
}

impl<R: Threads + Wait + Sync, F: Files, S: Sink, Y: Yard, C: Clock> Host<'_, R, F, S, Y, C> {
    // Puts the jobs' files, then takes all that the race of these engines needs.
    fn prepare_lanes<'p>(
        &mut self,
        problem: &Problem,
        task: &Task,
        engines: &[Engine],
        number: u32,
        allowance: &mut Allowance<'p>,
    ) -> Result<Serving<'p, Y::Bay>, Early>
        ensures put { OnOk result (ArePut problem.now (task_seen task.now).request.name (files_in (task_seen task.now).service problem.now) (⟦<Self as Outside>⟧.world self.old).told (⟦<Self as Outside>⟧.world self.new).told) }
        ensures serving { IfOk result (λ s. (task_seen task.now).service ≡ Lanes engines.now → IsServing (back_by Y.Bay.told Y.Bay.start_faults Y.Bay.read_faults Y.Bay.hold_faults)
            (task_seen task.now) problem.now number allowance.old (⟦<Self as Outside>⟧.world self.new).told (⟦<Self as Outside>⟧.world self.old).yard.scripts s) }
        ensures allowance { allowance.new ≡ allowance.old }
        ensures yard { OnOk result ((⟦<Self as Outside>⟧.world self.new).yard ≡ (⟦<Self as Outside>⟧.world self.old).yard) }
        ensures err { IfErr result (IsCutShort problem.now (task_seen task.now).request.name (task_seen task.now).service (files_of (⟦<Self as Outside>⟧.world self.old)) (files_of (⟦<Self as Outside>⟧.world self.new))) }
        ensures spared { IfErr result (IsSpared (⟦<Self as Outside>⟧.world self.old).yard (⟦<Self as Outside>⟧.world self.new).yard) }
        ensures still { OnOk result ((⟦<Self as Outside>⟧.world self.new).file_faults ≡ (⟦<Self as Outside>⟧.world self.old).file_faults) }
        ensures blamed { OnOk result ((⟦<Self as Outside>⟧.world self.new).blamed ≡ (⟦<Self as Outside>⟧.world self.old).blamed) }
        ensures later { (⟦<Self as Outside>⟧.world self.old).file_faults ≤ (⟦<Self as Outside>⟧.world self.new).file_faults }
        ensures scripts { (⟦<Self as Outside>⟧.world self.new).yard.scripts ≡ (⟦<Self as Outside>⟧.world self.old).yard.scripts }
        ensures children { AreLater (⟦<Self as Outside>⟧.world self.old).yard.counts (⟦<Self as Outside>⟧.world self.new).yard.counts }
        ensures out { self.new.out.now ≡ self.old.out.now }
        ensures keeps { ⟦<Self as Outside>⟧.keeps self.old self.new }
    {
        put_jobs(self.alloc, self.files, problem, task)?;
        let racing = racing(problem, task, engines, number);
        match prepare_race(self.alloc, self.yard, &racing, allowance) {
            Ok(prepared) => Ok(Serving::Lanes(prepared)),
            Err(_) => Err(Early::Memory),
        }
    }

    // Puts the jobs' files of an accepted design, and judges the stored streams, or takes all that the race needs.
    fn prepare_jobs<'p>(
        &mut self,
        problem: &Problem,
        task: &Task,
        number: u32,
        allowance: &mut Allowance<'p>,
    ) -> Result<Serving<'p, Y::Bay>, Early>
        ensures put { OnOk result (ArePut problem.now (task_seen task.now).request.name (files_in (task_seen task.now).service problem.now) (⟦<Self as Outside>⟧.world self.old).told (⟦<Self as Outside>⟧.world self.new).told) }
        ensures serving { IfOk result (IsServing (back_by Y.Bay.told Y.Bay.start_faults Y.Bay.read_faults Y.Bay.hold_faults)
            (task_seen task.now) problem.now number allowance.old (⟦<Self as Outside>⟧.world self.new).told (⟦<Self as Outside>⟧.world self.old).yard.scripts) }
        ensures allowance { allowance.new ≡ allowance.old }
        ensures yard { OnOk result ((⟦<Self as Outside>⟧.world self.new).yard ≡ (⟦<Self as Outside>⟧.world self.old).yard) }
        ensures err { IfErr result (IsCutShort problem.now (task_seen task.now).request.name (task_seen task.now).service (files_of (⟦<Self as Outside>⟧.world self.old)) (files_of (⟦<Self as Outside>⟧.world self.new))) }
        ensures spared { IfErr result (IsSpared (⟦<Self as Outside>⟧.world self.old).yard (⟦<Self as Outside>⟧.world self.new).yard) }
        ensures still { OnOk result ((⟦<Self as Outside>⟧.world self.new).file_faults ≡ (⟦<Self as Outside>⟧.world self.old).file_faults) }
        ensures blamed { OnOk result ((⟦<Self as Outside>⟧.world self.new).blamed ≡ (⟦<Self as Outside>⟧.world self.old).blamed) }
        ensures later { (⟦<Self as Outside>⟧.world self.old).file_faults ≤ (⟦<Self as Outside>⟧.world self.new).file_faults }
        ensures scripts { (⟦<Self as Outside>⟧.world self.new).yard.scripts ≡ (⟦<Self as Outside>⟧.world self.old).yard.scripts }
        ensures children { AreLater (⟦<Self as Outside>⟧.world self.old).yard.counts (⟦<Self as Outside>⟧.world self.new).yard.counts }
        ensures out { self.new.out.now ≡ self.old.out.now }
        ensures keeps { ⟦<Self as Outside>⟧.keeps self.old self.new }
    {
        match &task.service {
            Service::Streams(paths) => {
                let reports = judge_streams(self.alloc, self.files, problem, task, paths)?;
                Ok(Serving::Judged(reports))
            }
            Service::Lanes(engines) => {
                self.prepare_lanes(problem, task, engines, number, allowance)
            }
        }
    }

    /// Gets the design, which may be one of these already, puts the jobs' files, and judges the stored streams, or takes all that the race
    /// needs: after this memory runs out for none of the reports.
    pub fn prepare<'p>(
        &mut self,
        number: u32,
        task: &Task,
        designs: &mut Designs,
        allowance: &mut Allowance<'p>,
    ) -> Result<Ready<'p, Y::Bay>, Early>
        requires { IsAskable (task_seen task.now) }
        ensures served { IfOk result (λ r. IsServed (⟦<Self as Outside>⟧.world self.old).told (task_seen task.now) r.problem) }
        ensures put { IfOk result (λ r. ArePut r.problem (task_seen task.now).request.name (files_in (task_seen task.now).service r.problem) (⟦<Self as Outside>⟧.world self.old).told (⟦<Self as Outside>⟧.world self.new).told) }
        ensures ready { IfOk result (IsReady (back_by Y.Bay.told Y.Bay.start_faults Y.Bay.read_faults Y.Bay.hold_faults)
            (task_seen task.now) number allowance.old (⟦<Self as Outside>⟧.world self.new).told (⟦<Self as Outside>⟧.world self.old).yard.scripts) }
        ensures allowance { allowance.new ≡ allowance.old }
        ensures yard { OnOk result ((⟦<Self as Outside>⟧.world self.new).yard ≡ (⟦<Self as Outside>⟧.world self.old).yard) }
        ensures err { IfErr result (HasReason (task_seen task.now) (files_of (⟦<Self as Outside>⟧.world self.old)) (files_of (⟦<Self as Outside>⟧.world self.new))) }
        ensures spared { IfErr result (IsSpared (⟦<Self as Outside>⟧.world self.old).yard (⟦<Self as Outside>⟧.world self.new).yard) }
        ensures still { OnOk result ((⟦<Self as Outside>⟧.world self.new).file_faults ≡ (⟦<Self as Outside>⟧.world self.old).file_faults) }
        ensures blamed { OnOk result ((⟦<Self as Outside>⟧.world self.new).blamed ≡ (⟦<Self as Outside>⟧.world self.old).blamed) }
        ensures later { (⟦<Self as Outside>⟧.world self.old).file_faults ≤ (⟦<Self as Outside>⟧.world self.new).file_faults }
        ensures scripts { (⟦<Self as Outside>⟧.world self.new).yard.scripts ≡ (⟦<Self as Outside>⟧.world self.old).yard.scripts }
        ensures children { AreLater (⟦<Self as Outside>⟧.world self.old).yard.counts (⟦<Self as Outside>⟧.world self.new).yard.counts }
        ensures out { self.new.out.now ≡ self.old.out.now }
        ensures keeps { ⟦<Self as Outside>⟧.keeps self.old self.new }
    {
        // A job has one file, and the problem is one.
        one_file();
        let problem = accept(self.alloc, self.files, designs, task)?;
        let Ok(room) = Room::new(self.alloc, job_count(&problem), report_count(&task.service))
        else {
            return Err(Early::Memory);
        };
        let serving = self.prepare_jobs(&problem, task, number, allowance)?;
        Ok(Ready {
            problem,
            room,
            serving,
        })
    }

    /// Races the lanes of a task that is ready. A store that tells has the files of its jobs.
    pub fn race(&self, number: u32, task: &Task, ready: Ready<'_, Y::Bay>) -> Raced<Y::Bay>
        requires ready { (pool : Option PoolOf) × IsReady (back_by Y.Bay.told Y.Bay.start_faults Y.Bay.read_faults Y.Bay.hold_faults)
            (task_seen task.now) number pool (⟦<Self as Outside>⟧.world self.now).told (⟦<Self as Outside>⟧.world self.now).yard.scripts ready }
        ensures problem { result.problem ≡ ready.entry.problem }
        ensures raced { (pool : Option PoolOf) → IsReady (back_by Y.Bay.told Y.Bay.start_faults Y.Bay.read_faults Y.Bay.hold_faults)
            (task_seen task.now) number pool (⟦<Self as Outside>⟧.world self.now).told (⟦<Self as Outside>⟧.world self.now).yard.scripts ready.entry
            → WasRaced (back_by Y.Bay.told Y.Bay.start_faults Y.Bay.read_faults Y.Bay.hold_faults)
            (task_seen task.now) number pool (⟦<Self as Outside>⟧.may_read self.now) (⟦<Self as Outside>⟧.world self.now).told (⟦<Self as Outside>⟧.world self.now).yard.scripts result }
    {
        race(self.rt, self.alloc, self.clock, number, task, ready)
    }

    /// The bays of lanes that ran come back.
    pub fn come_back(&mut self, came: Came<Y::Bay>) -> RanLanes
        ensures reports { (task : TaskOf) (p : AskedOf) (number : ℕ) (pool : Option PoolOf) (told : Option Store) → HasCome (back_by Y.Bay.told Y.Bay.start_faults Y.Bay.read_faults Y.Bay.hold_faults)
            task p number pool (⟦<Self as Outside>⟧.may_read self.old) told (⟦<Self as Outside>⟧.world self.old).yard.scripts came
            → AreReports task.service (⟦<Self as Outside>⟧.may_read self.old) task p told
            (race_of number pool (⟦<Self as Outside>⟧.world self.old) (⟦<Self as Outside>⟧.world self.new) result.start) result.reports.items }
        ensures scripts { (⟦<Self as Outside>⟧.world self.new).yard.scripts ≡ (⟦<Self as Outside>⟧.world self.old).yard.scripts }
        ensures children { AreLater (⟦<Self as Outside>⟧.world self.old).yard.counts (⟦<Self as Outside>⟧.world self.new).yard.counts }
        ensures files { self.new.files.now ≡ self.old.files.now }
        ensures out { self.new.out.now ≡ self.old.out.now }
        ensures keeps { ⟦<Self as Outside>⟧.keeps self.old self.new }
    {
        match came {
            Came::Judged(reports) => RanLanes {
                reports,
                start: None,
            },
            Came::Raced(raced) => finish_race(self.yard, raced),
        }
    }

    /// Takes back the bays of a task that was raced, and collects what its reports decide.
    pub fn settle(&mut self, number: u32, task: &Task, raced: Raced<Y::Bay>) -> Served
        requires { (pool : Option PoolOf) × (told : Option Store) × WasRaced (back_by Y.Bay.told Y.Bay.start_faults Y.Bay.read_faults Y.Bay.hold_faults)
            (task_seen task.now) number pool (⟦<Self as Outside>⟧.may_read self.old) told (⟦<Self as Outside>⟧.world self.old).yard.scripts raced }
        ensures problem { result.problem ≡ raced.problem }
        ensures reports { (pool : Option PoolOf) (told : Option Store) → WasRaced (back_by Y.Bay.told Y.Bay.start_faults Y.Bay.read_faults Y.Bay.hold_faults)
            (task_seen task.now) number pool (⟦<Self as Outside>⟧.may_read self.old) told (⟦<Self as Outside>⟧.world self.old).yard.scripts raced
            → AreReports (task_seen task.now).service (⟦<Self as Outside>⟧.may_read self.old) (task_seen task.now) raced.problem told
            (race_of number pool (⟦<Self as Outside>⟧.world self.old) (⟦<Self as Outside>⟧.world self.new) result.start) result.reports.items }
        ensures reported { AreReported task.now.mode task.now.span result.problem.design result.reports.items }
        ensures limited { AreLimited result.start task.now.limit result.reports.items }
        ensures collected { IsCollected task.now.mode task.now.span result.problem.design result.reports.items result.collected }
        ensures scripts { (⟦<Self as Outside>⟧.world self.new).yard.scripts ≡ (⟦<Self as Outside>⟧.world self.old).yard.scripts }
        ensures children { AreLater (⟦<Self as Outside>⟧.world self.old).yard.counts (⟦<Self as Outside>⟧.world self.new).yard.counts }
        ensures files { self.new.files.now ≡ self.old.files.now }
        ensures out { self.new.out.now ≡ self.old.out.now }
        ensures keeps { ⟦<Self as Outside>⟧.keeps self.old self.new }
    {
        let Raced {
            problem,
            room,
            came,
        } = raced;
        let ran = self.come_back(came);
        let collected = Collected::new(room, task.mode, &task.span, problem.flat(), &ran.reports);
        Served {
            problem,
            reports: ran.reports,
            start: ran.start,
            collected,
        }
    }
}

// The engines of a task's lanes.
fn engines_of(task: &Task) -> &[Engine]
    ensures { (engines : List EngineOf) → (task_seen task.now).service ≡ Lanes engines → result.now ≡ engines }
{
    match &task.service {
        Service::Lanes(engines) => engines,
        Service::Streams(_) => &[],
    }
}

// What comes of the jobs of a task: the report of the streams that were judged, or what its lanes leave.
fn race_serving<R: Threads + Wait + Sync, L: Launch + Send, C: Clock>(
    rt: &R,
    alloc: Global,
    clock: &C,
    number: u32,
    task: &Task,
    problem: &Problem,
    serving: Serving<'_, L>,
) -> Came<L>
    requires { (pool : Option PoolOf) × (told : Option Store) × (scripts : Option YardOf) × IsServing (back_by L.told L.start_faults L.read_faults L.hold_faults) (task_seen task.now) problem.now number pool told scripts serving }
    ensures { (pool : Option PoolOf) (told : Option Store) (scripts : Option YardOf) → IsServing (back_by L.told L.start_faults L.read_faults L.hold_faults) (task_seen task.now) problem.now number pool told scripts serving.entry
        → HasCome (back_by L.told L.start_faults L.read_faults L.hold_faults) (task_seen task.now) problem.now number pool (C.may_read clock.now) told scripts result }
{
    match serving {
        Serving::Judged(reports) => Came::Judged(reports),
        Serving::Lanes(prepared) => {
            let racing = racing(problem, task, engines_of(task), number);
            Came::Raced(race_prepared(rt, alloc, clock, &racing, prepared))
        }
    }
}

/// Races the lanes of a task that is ready, where its jobs have lanes.
pub fn race<R: Threads + Wait + Sync, L: Launch + Send, C: Clock>(
    rt: &R,
    alloc: Global,
    clock: &C,
    number: u32,
    task: &Task,
    ready: Ready<'_, L>,
) -> Raced<L>
    requires { (pool : Option PoolOf) × (told : Option Store) × (scripts : Option YardOf) × IsReady (back_by L.told L.start_faults L.read_faults L.hold_faults) (task_seen task.now) number pool told scripts ready }
    ensures problem { result.problem ≡ ready.entry.problem }
    ensures raced { (pool : Option PoolOf) (told : Option Store) (scripts : Option YardOf) → IsReady (back_by L.told L.start_faults L.read_faults L.hold_faults) (task_seen task.now) number pool told scripts ready.entry
        → WasRaced (back_by L.told L.start_faults L.read_faults L.hold_faults) (task_seen task.now) number pool (C.may_read clock.now) told scripts result }
{
    let Ready {
        problem,
        room,
        serving,
    } = ready;
    let came = race_serving(rt, alloc, clock, number, task, &problem, serving);
    Raced {
        problem,
        room,
        came,
    }
}
