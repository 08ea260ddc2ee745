// The lines of a task.

ghost use Rattle.std.specs.Prelude.{◌≡◌, ◌<◌, ◌^◌, [], ◌∷◌, ◌++◌, ℕ, All, IfOk, List, Option, Some, length, string_bytes};
ghost use Rattle.judge.specs.Jobs.{jobs_in};
ghost use Rattle.sby_terms.specs.Span.{IsSpan, slices_of};
ghost use Rattle.sby_terms.specs.declared.names.Status.{Status};
ghost use Rattle.sby_terms.specs.declared.names.JobName.{JobName};
ghost use Rattle.design_core.specs.Shape.{DesignOf};
ghost use Rattle.sby_lines.specs.Jobs.{HasJobs};
ghost use Rattle.sby_lines.specs.Lines.{HasJobLines, HasStopLines, HasVerdictLines, design_line, done_line, early_text, line_if, race_lines, settled_lines, skipped_lines, told_answers, unless_decided, unput_lines};
ghost use Rattle.sby_lines.specs.Telling.{Tells};
ghost use Rattle.sby_lines.specs.Texts.{line_of, not_written_text, stopped_text, trace_path};
ghost use Rattle.sby_lines.specs.Told.{AreInPlace, AreLimited, AreReported, IsCollected, IsStopReading, asked_by, came};

use crate::collected::{Collected, told_answers};
use crate::counts::counts_of;
use crate::early::Early;
use crate::heading::Heading;
use crate::printed::stop_reading;
use crate::tell::{Stop, tell_line, tell_line_if};
use crate::tell_covers::tell_covers;
use crate::tell_lanes::{tell_answers, tell_race};
use crate::tell_run::tell_failure;
use crate::{ends, text};
use design_check::flat::Flat;
use judge::Finding;
use race_core::Report;
use sby_edge::Sink;
use sby_terms::{Answer, Mode, Status};
use std::alloc::{AllocError, Global};

/// Offers the last line of a task.
pub fn tell_done<S: Sink>(
    alloc: Global,
    out: &mut S,
    name: &str,
    status: Status,
    rc: u8,
) -> Result<(), Stop>
    ensures { Tells (S.taken out.old) (S.taken out.new) (S.faults out.old) (S.faults out.new) (S.ended out.new) (done_line name.now status rc ∷ []) result }
{
    match text::done_text(alloc, text::status_text(status), rc) {
        Ok(text) => tell_line(alloc, out, name, text.as_str()),
        Err(_) => Err(Stop::Memory),
    }
}

fn tell_fault<S: Sink>(
    alloc: Global,
    out: &mut S,
    name: &str,
    slices: u32,
    early: &Early,
) -> Result<(), Stop>
    ensures { Tells (S.taken out.old) (S.taken out.new) (S.faults out.old) (S.faults out.new) (S.ended out.new) (line_if name.now (early_text slices early.now)) result }
{
    match ends::early_text(alloc, slices, early) {
        Ok(text) => tell_line_if(alloc, out, name, &text),
        Err(_) => Err(Stop::Memory),
    }
}

/// Offers the lines of a task of this many slices with a fault before its lanes.
pub fn tell_early<S: Sink>(
    alloc: Global,
    out: &mut S,
    name: &str,
    slices: u32,
    early: &Early,
    status: Status,
    rc: u8,
) -> Result<(), Stop>
    ensures { Tells (S.taken out.old) (S.taken out.new) (S.faults out.old) (S.faults out.new) (S.ended out.new)
        (line_if name.now (early_text slices early.now) ++ done_line name.now status rc ∷ []) result }
{
    tell_fault(alloc, out, name, slices, early)?;
    tell_done(alloc, out, name, status, rc)
}

/// Offers the line of a task's design.
pub fn tell_design<S: Sink>(alloc: Global, out: &mut S, name: &str, flat: &Flat) -> Result<(), Stop>
    ensures { Tells (S.taken out.old) (S.taken out.new) (S.faults out.old) (S.faults out.new) (S.ended out.new) (design_line name.now flat.now ∷ []) result }
{
    match text::design_text(alloc, &counts_of(flat.design())) {
        Ok(text) => tell_line(alloc, out, name, text.as_str()),
        Err(_) => Err(Stop::Memory),
    }
}

fn tell_skipped<S: Sink>(alloc: Global, out: &mut S, heading: &Heading<'_>) -> Result<(), Stop>
    ensures { (expect : List Status) → Tells (S.taken out.old) (S.taken out.new) (S.faults out.old) (S.faults out.new) (S.ended out.new) (skipped_lines (asked_by heading.now expect)) result }
{
    if heading.span.skip == 0 {
        return Ok(());
    }
    match text::skipped_text(alloc, heading.span.skip) {
        Ok(text) => tell_line(alloc, out, heading.name, text.as_str()),
        Err(_) => Err(Stop::Memory),
    }
}

// The lines of the cycles that are skipped, and of the settled jobs.
fn tell_head<S: Sink>(
    alloc: Global,
    out: &mut S,
    heading: &Heading<'_>,
    collected: &Collected,
) -> Result<(), Stop>
    requires span { IsSpan heading.now.span }
    requires few { length collected.now.answers.items < 2 ^ 32 }
    ensures { (expect : List Status) (d : DesignOf) → length collected.now.answers.items ≡ length (jobs_in heading.now.mode heading.now.span d)
        → Tells (S.taken out.old) (S.taken out.new) (S.faults out.old) (S.faults out.new) (S.ended out.new)
        (skipped_lines (asked_by heading.now expect)
        ++ settled_lines heading.now.name.now (slices_of heading.now.span) (jobs_in heading.now.mode heading.now.span d)
        (told_answers heading.now.mode collected.now.answers.items)) result }
{
    tell_skipped(alloc, out, heading)?;
    let answers = told_answers(heading.mode, &collected.answers);
    tell_answers(alloc, out, heading, heading.span.slices(), answers)
}

fn tell_stopped<S: Sink>(
    alloc: Global,
    out: &mut S,
    name: &str,
    reading: u64,
    start: u64,
    limit: u64,
) -> Result<(), Stop>
    ensures { Tells (S.taken out.old) (S.taken out.new) (S.faults out.old) (S.faults out.new) (S.ended out.new) (line_of name.now (stopped_text reading start limit) ∷ []) result }
{
    match text::stopped_text(alloc, reading, start, limit) {
        Ok(text) => tell_line(alloc, out, name, text.as_str()),
        Err(_) => Err(Stop::Memory),
    }
}

fn tell_reading<S: Sink>(
    alloc: Global,
    out: &mut S,
    heading: &Heading<'_>,
    reading: u64,
    start: Option<u64>,
) -> Result<(), Stop>
    ensures { (from limit : ℕ) → start ≡ Some from → heading.now.limit ≡ Some limit
        → Tells (S.taken out.old) (S.taken out.new) (S.faults out.old) (S.faults out.new) (S.ended out.new) (line_of heading.now.name.now (stopped_text reading from limit) ∷ []) result }
{
    match (start, heading.limit) {
        (Some(start), Some(limit)) => {
            tell_stopped(alloc, out, heading.name, reading, start, limit)
        }
        _ => Ok(()),
    }
}

// The line of the stop of the lowest lane that was stopped.
fn tell_lowest_stop<S: Sink>(
    alloc: Global,
    out: &mut S,
    heading: &Heading<'_>,
    reports: &[Report<Finding>],
    start: Option<u64>,
    answers: &[Option<Answer>],
) -> Result<(), Stop>
    requires places { AreInPlace reports.now }
    requires ends { All (λ r. length r.ends ≡ length answers.now) reports.now }
    ensures { (reading from limit : ℕ) → IsStopReading reports.now answers.now reading → start ≡ Some from → heading.now.limit ≡ Some limit
        → Tells (S.taken out.old) (S.taken out.new) (S.faults out.old) (S.faults out.new) (S.ended out.new) (line_of heading.now.name.now (stopped_text reading from limit) ∷ []) result }
{
    match stop_reading(reports, answers) {
        Some(reading) => tell_reading(alloc, out, heading, reading, start),
        None => Ok(()),
    }
}

// The line of a stop, where the status is TIMEOUT.
fn tell_stop<S: Sink>(
    alloc: Global,
    out: &mut S,
    heading: &Heading<'_>,
    reports: &[Report<Finding>],
    start: Option<u64>,
    collected: &Collected,
) -> Result<(), Stop>
    requires places { AreInPlace reports.now }
    requires ends { All (λ r. length r.ends ≡ length collected.now.answers.items) reports.now }
    ensures { (expect : List Status) (d : DesignOf) (lines : List (List ℕ))
        → HasStopLines (asked_by heading.now expect) (came d reports.now start) collected.now.answers.items collected.now.status lines
        → Tells (S.taken out.old) (S.taken out.new) (S.faults out.old) (S.faults out.new) (S.ended out.new) lines result }
{
    match collected.status {
        Status::Timeout => {
            tell_lowest_stop(alloc, out, heading, reports, start, &collected.answers)
        }
        Status::Pass | Status::Fail | Status::Unknown | Status::Error | Status::Memory => Ok(()),
    }
}

// The lines of the unsettled jobs, where there is no verdict.
fn tell_undecided<S: Sink>(
    alloc: Global,
    out: &mut S,
    heading: &Heading<'_>,
    reports: &[Report<Finding>],
    collected: &Collected,
) -> Result<(), Stop>
    requires span { IsSpan heading.now.span }
    requires few { length collected.now.answers.items < 2 ^ 32 }
    requires ends { All (λ r. length r.ends ≡ length collected.now.answers.items) reports.now }
    ensures { (jobs : List JobName) → HasJobs heading.now.mode (length collected.now.answers.items) jobs → Tells (S.taken out.old) (S.taken out.new) (S.faults out.old) (S.faults out.new) (S.ended out.new)
        (unless_decided collected.now.verdict (race_lines heading.now.name.now (slices_of heading.now.span) jobs collected.now.answers.items reports.now)) result }
{
    match collected.verdict {
        None => tell_race(
            alloc,
            out,
            heading,
            heading.span.slices(),
            &collected.answers,
            reports,
        ),
        Some(_) => Ok(()),
    }
}

// The lines of the runs that findings carry.
fn tell_verdict<S: Sink>(
    alloc: Global,
    out: &mut S,
    heading: &Heading<'_>,
    flat: &Flat,
    reports: &[Report<Finding>],
    collected: &Collected,
) -> Result<(), Stop>
    requires reports { AreReported heading.now.mode heading.now.span flat.now reports.now }
    requires collected { IsCollected heading.now.mode heading.now.span flat.now reports.now collected.now }
    ensures { (expect : List Status) (start : Option ℕ) (lines : List (List ℕ))
        → HasVerdictLines heading.now.mode (asked_by heading.now expect) (came flat.now reports.now start) collected.now.answers.items collected.now.verdict lines
        → Tells (S.taken out.old) (S.taken out.new) (S.faults out.old) (S.faults out.new) (S.ended out.new) lines result }
{
    match heading.mode {
        Mode::Bmc | Mode::Prove | Mode::ProveInv => {
            tell_failure(alloc, out, heading, flat, reports, collected)
        }
        Mode::Cover => tell_covers(alloc, out, heading, flat, reports, collected),
    }
}

/// Offers the lines of a task's jobs, which come after its design's (`tell_design`), by what its lanes report, the reading of the clock
/// at which they started, in milliseconds, and what the reports decide. A lane is stopped under a limit alone, so these lines exist.
pub fn tell_jobs<S: Sink>(
    alloc: Global,
    out: &mut S,
    heading: &Heading<'_>,
    flat: &Flat,
    reports: &[Report<Finding>],
    start: Option<u64>,
    collected: &Collected,
) -> Result<(), Stop>
    requires reports { AreReported heading.now.mode heading.now.span flat.now reports.now }
    requires limited { AreLimited start heading.now.limit reports.now }
    requires collected { IsCollected heading.now.mode heading.now.span flat.now reports.now collected.now }
    ensures { (expect : List Status) (lines : List (List ℕ))
        → HasJobLines (asked_by heading.now expect) (came flat.now reports.now start) collected.now.status (design_line heading.now.name.now flat.now ∷ lines)
        → Tells (S.taken out.old) (S.taken out.new) (S.faults out.old) (S.faults out.new) (S.ended out.new) lines result }
{
    tell_head(alloc, out, heading, collected)?;
    tell_stop(alloc, out, heading, reports, start, collected)?;
    tell_undecided(alloc, out, heading, reports, collected)?;
    tell_verdict(alloc, out, heading, flat, reports, collected)
}

fn tell_not_written<S: Sink>(
    alloc: Global,
    out: &mut S,
    heading: &Heading<'_>,
    number: u32,
) -> Result<(), Stop>
    ensures { Tells (S.taken out.old) (S.taken out.new) (S.faults out.old) (S.faults out.new) (S.ended out.new)
        (line_of heading.now.name.now (not_written_text (trace_path heading.now.name.now heading.now.mode number)) ∷ []) result }
{
    match not_written_text(alloc, heading, number) {
        Ok(text) => tell_line(alloc, out, heading.name, text.as_str()),
        Err(_) => Err(Stop::Memory),
    }
}

fn not_written_text(alloc: Global, heading: &Heading<'_>, number: u32) -> Result<String, AllocError>
    ensures { IfOk result (λ t. string_bytes t ≡ not_written_text (trace_path heading.now.name.now heading.now.mode number)) }
{
    let path = text::trace_path(alloc, heading.name, heading.mode, number)?;
    text::not_written_text(alloc, path.as_str())
}

/// Offers the lines of the trace files that couldn't be put, by their numbers.
pub fn tell_unput<S: Sink>(
    alloc: Global,
    out: &mut S,
    heading: &Heading<'_>,
    unput: &[u32],
) -> Result<(), Stop>
    ensures { (expect : List Status) → Tells (S.taken out.old) (S.taken out.new) (S.faults out.old) (S.faults out.new) (S.ended out.new) (unput_lines (asked_by heading.now expect) unput.now) result }
{
    for number in unput {
        tell_not_written(alloc, out, heading, *number)?;
    }
    Ok(())
}
