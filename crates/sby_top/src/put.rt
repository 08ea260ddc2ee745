// The files of a task's jobs are put, one after the other.

ghost use Rattle.std.specs.Prelude.{◌≡◌, ◌≢◌, ◌&&◌, ◌<◌, ◌≤◌, ℕ, List, Some, IfErr, OnErr, OnOk, codes, length, option_map, slice_get};
ghost use Rattle.judge.specs.Problem.{IsJob, IsJobFile};
ghost use Rattle.cert_judge.specs.declared.stream.Kind.TheVariants.{Witness};
ghost use Rattle.judge.specs.Fates.{Serves};
ghost use Rattle.judge.specs.Witness.{IsLinesFile};
ghost use Rattle.sby_edge.specs.Files.{put_at};
ghost use Rattle.sby_terms.specs.Path.{job_path};
ghost use Rattle.sby_terms.specs.declared.names.JobName.{JobName};
ghost use Rattle.sby_top.specs.Served.{ArePut, asks_run, ends_in, files_in, is_btor, job_files, jobs_in, slices_in, some_btor, takes_witness};
ghost use Rattle.sby_top.specs.Steps.{files_at, IsFailedCall, IsPutFailed};
ghost use Rattle.sby_top.specs.Task.{service_seen, task_seen};
ghost use Rattle.task_race.specs.Words.{btor_path};

use crate::serve::file_fault;
use crate::task::{Service, Task};
use cert_judge::Kind;
use judge::Problem;
use sby_edge::{Bytes, Fail, Files, Source};
use sby_lines::Early;
use sby_terms::{Engine, JobName, job_path};
use sby_words::stream_kind;
use std::alloc::Global;
use task_race::{FileText, btor_path};

// Puts all that a source gives.
fn put_from<F: Files, S: Source>(
    alloc: Global,
    files: &mut F,
    path: &str,
    source: &mut S,
) -> Result<(), Early>
    ensures ok { OnOk result (F.told files.new ≡ option_map (put_at path.now (S.rest source.old)) (F.told files.old)) }
    ensures failed { IfErr result (IsFailedCall (files_at (F.told files.old) (F.faults files.old) (F.blamed files.old)) (files_at (F.told files.new) (F.faults files.new) (F.blamed files.new)) path.now) }
    ensures told { OnErr result (F.told files.new ≡ F.told files.old) }
    ensures still { OnOk result (F.faults files.new ≡ F.faults files.old) }
    ensures blamed { OnOk result (F.blamed files.new ≡ F.blamed files.old) }
    ensures later { F.faults files.old ≤ F.faults files.new }
{
    match files.put_from(alloc, path, source) {
        Ok(()) => Ok(()),
        Err(Fail::Failed) => Err(file_fault(alloc, path)),
        Err(Fail::Memory) => Err(Early::Memory),
    }
}

// Puts a job's own file: its formula, or the pair of two cycles.
fn put_formula<F: Files>(
    alloc: Global,
    files: &mut F,
    problem: &Problem,
    folder: &str,
    slices: u32,
    job: JobName,
) -> Result<(), Early>
    requires { IsJob problem.now job }
    ensures ok { OnOk result ((file : List ℕ) × IsJobFile problem.now job file × (F.told files.new ≡ option_map (put_at (job_path folder.now slices job) file) (F.told files.old))) }
    ensures failed { IfErr result (IsFailedCall (files_at (F.told files.old) (F.faults files.old) (F.blamed files.old)) (files_at (F.told files.new) (F.faults files.new) (F.blamed files.new)) (job_path folder.now slices job)) }
    ensures told { OnErr result (F.told files.new ≡ F.told files.old) }
    ensures still { OnOk result (F.faults files.new ≡ F.faults files.old) }
    ensures blamed { OnOk result (F.blamed files.new ≡ F.blamed files.old) }
    ensures later { F.faults files.old ≤ F.faults files.new }
{
    let path = match job_path(alloc, folder, slices, job) {
        Ok(path) => path,
        Err(_) => return Err(Early::Memory),
    };
    let Ok(file) = problem.job_file(alloc, job) else {
        return Err(Early::Memory);
    };
    let mut text = FileText::new(file.text());
    put_from(alloc, files, path.as_str(), &mut text)
}

// How many slices there are.
fn slice_count(problem: &Problem) -> u32
    ensures { result ≡ slices_in problem.now }
{
    // The span is one.
    let _ = problem.flat();
    problem.span().slices()
}

// Puts a job's model in BTOR2.
fn put_btor<F: Files>(
    alloc: Global,
    files: &mut F,
    problem: &Problem,
    folder: &str,
    slices: u32,
    job: JobName,
) -> Result<(), Early>
    requires job { IsJob problem.now job }
    requires run { Serves Witness job }
    ensures ok { OnOk result ((text : List ℕ) × IsLinesFile problem.now job text × (F.told files.new ≡ option_map (put_at (btor_path folder.now slices job) text) (F.told files.old))) }
    ensures failed { IfErr result (IsFailedCall (files_at (F.told files.old) (F.faults files.old) (F.blamed files.old)) (files_at (F.told files.new) (F.faults files.new) (F.blamed files.new)) (btor_path folder.now slices job)) }
    ensures told { OnErr result (F.told files.new ≡ F.told files.old) }
    ensures still { OnOk result (F.faults files.new ≡ F.faults files.old) }
    ensures blamed { OnOk result (F.blamed files.new ≡ F.blamed files.old) }
    ensures later { F.faults files.old ≤ F.faults files.new }
{
    let path = match btor_path(alloc, folder, slices, job) {
        Ok(path) => path,
        Err(_) => return Err(Early::Memory),
    };
    let Ok(text) = problem.lines_file(alloc, job) else {
        return Err(Early::Memory);
    };
    put_from(alloc, files, path.as_str(), &mut Bytes::new(&text))
}

// Whether a job asks for a run from the start.
fn asks_run(job: JobName) -> bool
    ensures { result ≡ asks_run job }
{
    match job {
        JobName::Base(_) | JobName::Cover(_) => true,
        JobName::Step | JobName::Inv => false,
    }
}

fn is_btor(engine: &Engine) -> bool
    ensures { result ≡ is_btor engine.now }
{
    matches!(engine, Engine::Btor(_))
}

fn some_btor(engines: &[Engine]) -> bool
    ensures { result ≡ some_btor engines.now }
{
    for engine in engines {
        if is_btor(engine) {
            return true;
        }
    }
    false
}

// Whether a stored stream is a witness by its name.
fn is_witness_name(path: &str) -> bool
    ensures { result ≡ ends_in (codes ".wit") path.now }
{
    match stream_kind(path) {
        Kind::Witness => true,
        Kind::Certificate(_) | Kind::Invariant => false,
    }
}

// Whether some witness may be judged for the job at a place.
fn takes_witness(service: &Service, place: usize) -> bool
    ensures { result ≡ takes_witness (service_seen service.now) place }
{
    match service {
        Service::Streams(paths) => match paths.get(place) {
            Some(path) => is_witness_name(path.as_str()),
            None => false,
        },
        Service::Lanes(engines) => some_btor(engines),
    }
}

// Whether the model in BTOR2 is put for the job at a place.
fn wants_btor(service: &Service, place: usize, job: JobName) -> bool
    ensures { result ≡ (asks_run job && takes_witness (service_seen service.now) place) }
{
    asks_run(job) && takes_witness(service, place)
}

// Puts the files of the job at a place, up to a call that fails.
fn put_job<F: Files>(
    alloc: Global,
    files: &mut F,
    problem: &Problem,
    task: &Task,
    place: usize,
) -> Result<(), Early>
    requires { place < length (jobs_in problem.now) }
    ensures ok { OnOk result ((job : JobName) × (slice_get (jobs_in problem.now) place ≡ Some job)
        × ArePut problem.now (task_seen task.now).request.name (job_files (task_seen task.now).service place job) (F.told files.old) (F.told files.new)) }
    ensures err { IfErr result (λ early. (job : JobName) × (slice_get (jobs_in problem.now) place ≡ Some job)
        × IsPutFailed problem.now (task_seen task.now).request.name (job_files (task_seen task.now).service place job) (files_at (F.told files.old) (F.faults files.old) (F.blamed files.old)) (files_at (F.told files.new) (F.faults files.new) (F.blamed files.new)) early) }
    ensures still { OnOk result (F.faults files.new ≡ F.faults files.old) }
    ensures blamed { OnOk result (F.blamed files.new ≡ F.blamed files.old) }
    ensures later { F.faults files.old ≤ F.faults files.new }
{
    let folder = task.name.as_str();
    let slices = slice_count(problem);
    let job = problem.job(place);
    put_formula(alloc, files, problem, folder, slices, job)?;
    if !wants_btor(&task.service, place, job) {
        return Ok(());
    }
    put_btor(alloc, files, problem, folder, slices, job)?;
    Ok(())
}

/// Puts the files of all jobs, in their order, up to a call that fails.
pub(crate) fn put_jobs<F: Files>(
    alloc: Global,
    files: &mut F,
    problem: &Problem,
    task: &Task,
) -> Result<(), Early>
    ensures ok { OnOk result (ArePut problem.now (task_seen task.now).request.name (files_in (task_seen task.now).service problem.now) (F.told files.old) (F.told files.new)) }
    ensures err { IfErr result (IsPutFailed problem.now (task_seen task.now).request.name (files_in (task_seen task.now).service problem.now) (files_at (F.told files.old) (F.faults files.old) (F.blamed files.old)) (files_at (F.told files.new) (F.faults files.new) (F.blamed files.new))) }
    ensures still { OnOk result (F.faults files.new ≡ F.faults files.old) }
    ensures blamed { OnOk result (F.blamed files.new ≡ F.blamed files.old) }
    ensures later { F.faults files.old ≤ F.faults files.new }
{
    for place in 0..problem.jobs() {
        put_job(alloc, files, problem, task, place)?;
    }
    Ok(())
}
