// The trace files of a task.

ghost use Rattle.std.specs.Prelude.{◌≡◌, ◌≢◌, ◌<◌, ◌≤◌, ◌^◌, [], ◌∷◌, ◌++◌, ℕ, List, None, Some, slice_get, IfOk, IsOk, OnErr, OnOk, length, map, option_map, vec_capacity, Contains};
ghost use Rattle.design_meaning.specs.Runs.{IsRunOf, shown_of};
ghost use Rattle.design_trace.specs.Changes.{vcd};
ghost use Rattle.judge.specs.Finding.{FindingOf};
ghost use Rattle.judge.specs.Jobs.{jobs_in};
ghost use Rattle.race_core.specs.Asking.{name_at};
ghost use Rattle.race_core.specs.Collect.{AreCollected, HasFinding};
ghost use Rattle.sby_terms.specs.declared.names.Answer.{Answer as AnswerOf};
ghost use Rattle.sby_terms.specs.declared.names.Answer.TheVariants.{Sat};
ghost use Rattle.race_core.specs.Report.{ReportOf};
ghost use Rattle.sby_terms.specs.declared.names.Mode.TheVariants.{Cover};
ghost use Rattle.sby_terms.specs.declared.names.Status.{Status};
ghost use Rattle.sby_lines.specs.Told.{AreReported, IsCollected, IsFirstSat, IsPrintedFinding, answer_of, asked_by, came, job_of};
ghost use Rattle.sby_top.specs.Shown.{AreFitting, ArePutUpto, IsFilePut, IsOnePut, IsStatementTrace, trace_seen};
ghost use Rattle.sby_top.specs.Steps.{files_at};
ghost use Rattle.sby_top.specs.Traces.{ArePutTraces, AreTraces, HasCoverTraces, HasFailTrace, HasTrace, TraceOf};

use design_check::flat::Flat;
use design_trace::{VcdText, Waveform};
use judge::{Finding, PlayedRun};
use race_core::Report;
use sby_edge::{Fail, Files, Source};
use sby_lines::{Collected, Heading, first_sat, printed_finding, trace_path};
use sby_terms::{Answer, Mode, Verdict};
use std::alloc::{AllocError, Global};

/// A run that is shown, and the number of its trace file: of cover its statement's, else 0.
#[derive(Drop)]
pub struct Shown<'a> {
    pub number: u32,
    pub run: &'a PlayedRun,
}

// The run of the finding that is printed for the settled job at a place, where it carries one.
fn run_at<'a>(
    reports: &'a [Report<Finding>],
    heading: &Heading<'_>,
    flat: &Flat,
    place: u32,
) -> Option<&'a PlayedRun>
    requires reports { AreReported heading.now.mode heading.now.span flat.now reports.now }
    requires place { place < length (jobs_in heading.now.mode heading.now.span flat.now) }
    requires settled { (r : ReportOf FindingOf) × Contains reports.now r × HasFinding job_of (name_at heading.now.mode place) r }
    ensures { (f : FindingOf) × IsPrintedFinding heading.now.mode reports.entry.now place f × (option_map (λ r. r.now) result ≡ f.run) }
{
    match printed_finding(reports, heading.mode, place) {
        Some(finding) => finding.run(),
        None => None,
    }
}

// Adds the run that is printed for the settled job at a place, where there is one.
fn push_run<'a>(
    shown: &mut Vec<Shown<'a>>,
    reports: &'a [Report<Finding>],
    heading: &Heading<'_>,
    flat: &Flat,
    place: u32,
    number: u32,
) -> Result<(), AllocError>
    requires reports { AreReported heading.now.mode heading.now.span flat.now reports.now }
    requires place { place < length (jobs_in heading.now.mode heading.now.span flat.now) }
    requires settled { (r : ReportOf FindingOf) × Contains reports.now r × HasFinding job_of (name_at heading.now.mode place) r }
    ensures { OnOk result ((f : FindingOf) × (own : List TraceOf) × IsPrintedFinding heading.now.mode reports.entry.now place f × HasTrace number f.run own
        × (map trace_seen shown.new.items ≡ map trace_seen shown.old.items ++ own)) }
{
    if let Some(run) = run_at(reports, heading, flat, place) {
        shown.push(Shown { number, run })?;
    }
    Ok(())
}

// The run that is printed for the first job with answer Sat.
fn sat_run<'a>(
    alloc: Global,
    reports: &'a [Report<Finding>],
    heading: &Heading<'_>,
    flat: &Flat,
    answers: &[Option<Answer>],
) -> Result<Vec<Shown<'a>>, AllocError>
    requires reports { AreReported heading.now.mode heading.now.span flat.now reports.now }
    requires answers { AreCollected job_of answer_of heading.now.mode (length (jobs_in heading.now.mode heading.now.span flat.now)) reports.now answers.now }
    requires few { length answers.now < 2 ^ 32 }
    requires sat { (k : ℕ) × (slice_get answers.now k ≡ Some (Some Sat)) }
    ensures { IfOk result (λ shown. (place : ℕ) × (f : FindingOf) × IsFirstSat answers.entry.now place × IsPrintedFinding heading.now.mode reports.entry.now place f × HasTrace 0 f.run (map trace_seen shown.items)) }
{
    let mut shown = Vec::new(alloc);
    match first_sat(answers) {
        Some(place) => push_run(&mut shown, reports, heading, flat, place as u32, 0)?,
        None => {}
    }
    Ok(shown)
}

// The run that FAIL shows, where that is the verdict of bmc or prove.
fn fail_run<'a>(
    alloc: Global,
    reports: &'a [Report<Finding>],
    heading: &Heading<'_>,
    flat: &Flat,
    collected: &Collected,
) -> Result<Vec<Shown<'a>>, AllocError>
    requires mode { heading.now.mode ≢ Cover }
    requires reports { AreReported heading.now.mode heading.now.span flat.now reports.now }
    requires collected { IsCollected heading.now.mode heading.now.span flat.now reports.now collected.now }
    ensures { IfOk result (λ shown. (expect : List Status) → HasFailTrace (asked_by heading.now expect) (came flat.now reports.entry.now None) collected.now.answers.items collected.now.verdict (map trace_seen shown.items)) }
{
    match collected.verdict {
        Some(Verdict::Fail) => sat_run(alloc, reports, heading, flat, &collected.answers),
        Some(Verdict::Pass) | None => Ok(Vec::new(alloc)),
    }
}

// Adds the run that is printed for a cover statement, where its job is settled and there is one.
fn push_statement<'a>(
    shown: &mut Vec<Shown<'a>>,
    reports: &'a [Report<Finding>],
    heading: &Heading<'_>,
    flat: &Flat,
    place: u32,
    answer: Option<Answer>,
) -> Result<(), AllocError>
    requires reports { AreReported heading.now.mode heading.now.span flat.now reports.now }
    requires place { place < length (jobs_in heading.now.mode heading.now.span flat.now) }
    requires settled { (a : AnswerOf) → answer ≡ Some a → (r : ReportOf FindingOf) × Contains reports.now r × HasFinding job_of (name_at heading.now.mode place) r }
    ensures { OnOk result ((own : List TraceOf) × IsStatementTrace heading.now.mode reports.entry.now place answer own × (map trace_seen shown.new.items ≡ map trace_seen shown.old.items ++ own)) }
{
    match answer {
        Some(_) => push_run(shown, reports, heading, flat, place, place),
        None => Ok(()),
    }
}

// The runs of the cover statements, in their order.
fn cover_runs<'a>(
    alloc: Global,
    reports: &'a [Report<Finding>],
    heading: &Heading<'_>,
    flat: &Flat,
    collected: &Collected,
) -> Result<Vec<Shown<'a>>, AllocError>
    requires reports { AreReported heading.now.mode heading.now.span flat.now reports.now }
    requires collected { IsCollected heading.now.mode heading.now.span flat.now reports.now collected.now }
    ensures { IfOk result (λ shown. (expect : List Status) → HasCoverTraces (asked_by heading.now expect) (came flat.now reports.entry.now None) 0 collected.now.answers.items (map trace_seen shown.items)) }
{
    let answers = collected.answers.as_slice();
    let mut shown = Vec::new(alloc);
    for place in 0..answers.len() {
        push_statement(
            &mut shown,
            reports,
            heading,
            flat,
            place as u32,
            answers[place],
        )?;
    }
    Ok(shown)
}

/// The runs that are shown, in the order in which they are printed.
pub fn shown_runs<'a>(
    alloc: Global,
    reports: &'a [Report<Finding>],
    heading: &Heading<'_>,
    flat: &Flat,
    collected: &Collected,
) -> Result<Vec<Shown<'a>>, AllocError>
    requires reports { AreReported heading.now.mode heading.now.span flat.now reports.now }
    requires collected { IsCollected heading.now.mode heading.now.span flat.now reports.now collected.now }
    ensures traces { IfOk result (λ shown. (expect : List Status) → AreTraces (asked_by heading.now expect) (came flat.now reports.entry.now None) (map trace_seen shown.items)) }
{
    match heading.mode {
        Mode::Bmc | Mode::Prove | Mode::ProveInv => {
            fail_run(alloc, reports, heading, flat, collected)
        }
        Mode::Cover => cover_runs(alloc, reports, heading, flat, collected),
    }
}

// What the wires of a run have.
#[derive(Drop)]
struct Wires<'a> {
    run: &'a PlayedRun,
}

impl<'a> Waveform for Wires<'a> {
    ghost rows = { λ w. shown_of w.run.now };

    #[tactic(auto, using(design_trace::proofs::Lines::shown_length))]
    fn cycles(&self) -> usize {
        self.run.cycles()
    }

    #[tactic(auto, using(design_trace::proofs::Lines::shown_length))]
    fn bit(&self, cycle: usize, place: u32) -> bool {
        self.run.wire_bit(cycle, place)
    }
}

// The bytes of a run's trace file, which is put by pieces.
#[derive(Drop)]
struct TraceText<'a> {
    text: VcdText<'a, Wires<'a>>,
}

impl<'a> Source for TraceText<'a> {
    ghost rest = { λ t. t.text };

    fn next(&mut self, buffer: &mut [u8]) -> usize {
        self.text.next(buffer)
    }
}

// The whole trace file.
#[tactic(auto, using(design_trace::proofs::Lines::shown_fits))]
fn trace_text<'a>(flat: &'a Flat, run: &'a PlayedRun) -> TraceText<'a>
    requires { IsRunOf flat.now run.now }
    ensures { result.text ≡ vcd flat.now (shown_of run.now) }
{
    TraceText {
        text: VcdText::new(flat, Wires { run }),
    }
}

// Puts a trace file, and answers whether that went well.
fn put_file<F: Files>(
    alloc: Global,
    files: &mut F,
    path: &str,
    text: &mut TraceText<'_>,
) -> Result<bool, AllocError>
    ensures put { IfOk result (λ well. IsFilePut path.now text.old.text (files_at (F.told files.old) (F.faults files.old) (F.blamed files.old)) (files_at (F.told files.new) (F.faults files.new) (F.blamed files.new)) well) }
    ensures err { OnErr result (files_at (F.told files.new) (F.faults files.new) (F.blamed files.new) ≡ files_at (F.told files.old) (F.faults files.old) (F.blamed files.old)) }
    ensures later { F.faults files.old ≤ F.faults files.new }
{
    match files.put_from(alloc, path, text) {
        Ok(()) => Ok(true),
        Err(Fail::Failed) => Ok(false),
        Err(Fail::Memory) => Err(AllocError),
    }
}

// Puts the trace file of a run, and answers whether that went well.
fn put_trace<F: Files>(
    alloc: Global,
    files: &mut F,
    heading: &Heading<'_>,
    flat: &Flat,
    shown: &Shown<'_>,
) -> Result<bool, AllocError>
    requires { IsRunOf flat.now shown.now.run.now }
    ensures put { IfOk result (λ well. (expect : List Status) → IsOnePut (asked_by heading.now expect) flat.now (trace_seen shown.now) (files_at (F.told files.old) (F.faults files.old) (F.blamed files.old)) (files_at (F.told files.new) (F.faults files.new) (F.blamed files.new)) well) }
    ensures err { OnErr result (files_at (F.told files.new) (F.faults files.new) (F.blamed files.new) ≡ files_at (F.told files.old) (F.faults files.old) (F.blamed files.old)) }
    ensures later { F.faults files.old ≤ F.faults files.new }
{
    let path = trace_path(alloc, heading.name, heading.mode, shown.number)?;
    let mut text = trace_text(flat, shown.run);
    put_file(alloc, files, path.as_str(), &mut text)
}

// Puts the trace file of a run, and lists it where that fails.
fn put_listed<F: Files>(
    alloc: Global,
    files: &mut F,
    heading: &Heading<'_>,
    flat: &Flat,
    shown: &Shown<'_>,
    unput: &mut Vec<u32>,
) -> Result<(), AllocError>
    requires rows { IsRunOf flat.now shown.now.run.now }
    requires room { length unput.old.items < vec_capacity unput.old }
    ensures put { OnOk result ((own : List ℕ) × ((expect : List Status) → ArePutTraces (asked_by heading.now expect) flat.now (trace_seen shown.now ∷ []) (files_at (F.told files.old) (F.faults files.old) (F.blamed files.old)) (files_at (F.told files.new) (F.faults files.new) (F.blamed files.new)) own)
        × (unput.new.items ≡ unput.old.items ++ own) × (length own ≤ 1)) }
    ensures err { OnErr result ((files_at (F.told files.new) (F.faults files.new) (F.blamed files.new) ≡ files_at (F.told files.old) (F.faults files.old) (F.blamed files.old)) × (unput.new.items ≡ unput.old.items)) }
    ensures room { vec_capacity unput.old ≤ vec_capacity unput.new }
    ensures later { F.faults files.old ≤ F.faults files.new }
{
    if put_trace(alloc, files, heading, flat, shown)? {
        Ok(())
    } else {
        unput.push(shown.number).unwrap();
        Ok(())
    }
}

/// Puts the trace files of runs, one after the other, up to one for which memory runs out, and lists those that couldn't be put.
pub fn put_traces<F: Files>(
    alloc: Global,
    files: &mut F,
    heading: &Heading<'_>,
    flat: &Flat,
    runs: &[Shown<'_>],
    unput: &mut Vec<u32>,
) -> Result<(), AllocError>
    requires fitting { AreFitting flat.now (map trace_seen runs.now) }
    requires none { unput.old.items ≡ [] }
    requires room { length runs.now ≤ vec_capacity unput.old }
    ensures put { (expect : List Status) → ArePutUpto (asked_by heading.now expect) flat.now (map trace_seen runs.now) (files_at (F.told files.old) (F.faults files.old) (F.blamed files.old)) (files_at (F.told files.new) (F.faults files.new) (F.blamed files.new)) unput.new.items (IsOk result) }
    ensures later { F.faults files.old ≤ F.faults files.new }
{
    for run in runs {
        put_listed(alloc, files, heading, flat, run, unput)?;
    }
    Ok(())
}
