// The lines of a run that breaks an assertion.

ghost use Rattle.std.specs.Prelude.{◌≡◌, ◌≢◌, ◌-◌, ◌<◌, ◌^◌, [], ◌∷◌, ℕ, List, Option, IfOk, Some, length, slice_get, string_bytes};
ghost use Rattle.design_meaning.specs.Runs.{CycleOf, IsRunOf, shown_of};
ghost use Rattle.design_core.specs.Shape.{CellOf};
ghost use Rattle.judge.specs.Finding.{FindingOf};
ghost use Rattle.judge.specs.Jobs.{jobs_in};
ghost use Rattle.sby_terms.specs.declared.names.Mode.TheVariants.{Cover};
ghost use Rattle.sby_terms.specs.declared.names.Status.{Status};
ghost use Rattle.sby_lines.specs.Broken.{AreLinesOf, Breaks, HasBrokenLines, IsBrokenCell, broken_line};
ghost use Rattle.sby_lines.specs.Lines.{HasRunLines};
ghost use Rattle.sby_lines.specs.Telling.{Tells};
ghost use Rattle.sby_lines.specs.Texts.{broken_text};
ghost use Rattle.sby_lines.specs.Told.{AreReported, IsCollected, IsFirstSat, IsPrintedFinding, asked_by, came};
ghost use Rattle.design_trace.specs.Trace.{cycle_text, trace};

use crate::collected::{Collected, first_sat};
use crate::heading::Heading;
use crate::printed::printed_finding;
use crate::tell::{Stop, tell_line, tell_lines};
use crate::text;
use design_check::flat::Flat;
use design_meaning::run::Run;
use judge::{Finding, PlayedRun};
use race_core::Report;
use sby_edge::Sink;
use sby_terms::{Answer, Verdict};
use std::alloc::{AllocError, Global};

// The last cycle of a run, as a run of its own.
fn last_cycle(alloc: Global, played: &PlayedRun) -> Result<Run, AllocError>
    requires { 0 < length played.now }
    ensures { IfOk result (λ last. (cycle : CycleOf) × (slice_get played.now (length played.now - 1) ≡ Some cycle) × (last ≡ cycle ∷ [])) }
{
    let mut last = Run::new(alloc);
    last.push(played.cycle(alloc, played.cycles() - 1)?)?;
    Ok(last)
}

// What is printed of the assertion that a run breaks: the first one in file order that is broken in its last cycle.
fn broken_text(alloc: Global, flat: &Flat, played: &PlayedRun) -> Result<String, AllocError>
    requires { Breaks flat.now played.now }
    ensures { IfOk result (λ t. (cell : CellOf) → IsBrokenCell flat.now played.now cell → string_bytes t ≡ broken_text cell.name (length played.now - 1)) }
{
    let last = last_cycle(alloc, played)?;
    match flat.broken(&last) {
        Some(number) => text::broken_text(alloc, flat.assert_name(number), played.cycles() - 1),
        None => unreachable!(),
    }
}

fn tell_assertion<S: Sink>(
    alloc: Global,
    out: &mut S,
    name: &str,
    flat: &Flat,
    played: &PlayedRun,
) -> Result<(), Stop>
    requires { Breaks flat.now played.now }
    ensures { (cell : CellOf) → IsBrokenCell flat.now played.now cell
        → Tells (S.taken out.old) (S.taken out.new) (S.faults out.old) (S.faults out.new) (S.ended out.new) (broken_line name.now cell played.now ∷ []) result }
{
    match broken_text(alloc, flat, played) {
        Ok(text) => tell_line(alloc, out, name, text.as_str()),
        Err(_) => Err(Stop::Memory),
    }
}

// The text of the cycle of a run by its number, from 0.
fn cycle_text(
    alloc: Global,
    flat: &Flat,
    played: &PlayedRun,
    number: usize,
) -> Result<Vec<u8>, AllocError>
    requires rows { IsRunOf flat.now played.now }
    requires number { number < length played.now }
    ensures { IfOk result (λ text. (cycle : CycleOf) → slice_get played.now number ≡ Some cycle → text.items ≡ cycle_text flat.now number cycle.wires) }
{
    let cycle = played.cycle(alloc, number)?;
    design_trace::cycle_text(alloc, flat, &cycle, number as u64)
}

fn tell_cycle<S: Sink>(
    alloc: Global,
    out: &mut S,
    flat: &Flat,
    played: &PlayedRun,
    number: usize,
) -> Result<(), Stop>
    requires rows { IsRunOf flat.now played.now }
    requires number { number < length played.now }
    ensures { (cycle : CycleOf) (lines : List (List ℕ)) → slice_get played.now number ≡ Some cycle → AreLinesOf (cycle_text flat.now number cycle.wires) lines
        → Tells (S.taken out.old) (S.taken out.new) (S.faults out.old) (S.faults out.new) (S.ended out.new) lines result }
{
    match cycle_text(alloc, flat, played, number) {
        Ok(text) => tell_lines(out, text.as_slice()),
        Err(_) => Err(Stop::Memory),
    }
}

/// Offers the lines of a run's trace, cycle by cycle: memory holds one cycle at a time, and its text.
pub fn tell_trace<S: Sink>(
    alloc: Global,
    out: &mut S,
    flat: &Flat,
    played: &PlayedRun,
) -> Result<(), Stop>
    requires { IsRunOf flat.now played.now }
    ensures { (lines : List (List ℕ)) → AreLinesOf (trace flat.now (shown_of played.now)) lines
        → Tells (S.taken out.old) (S.taken out.new) (S.faults out.old) (S.faults out.new) (S.ended out.new) lines result }
{
    for number in 0..played.cycles() {
        tell_cycle(alloc, out, flat, played, number)?;
    }
    Ok(())
}

fn tell_broken<S: Sink>(
    alloc: Global,
    out: &mut S,
    name: &str,
    flat: &Flat,
    played: &PlayedRun,
) -> Result<(), Stop>
    requires { Breaks flat.now played.now }
    ensures { (lines : List (List ℕ)) → HasBrokenLines flat.now name.now played.now lines
        → Tells (S.taken out.old) (S.taken out.new) (S.faults out.old) (S.faults out.new) (S.ended out.new) lines result }
{
    tell_assertion(alloc, out, name, flat, played)?;
    tell_trace(alloc, out, flat, played)
}

// The lines of the run that a finding carries.
fn tell_finding<S: Sink>(
    alloc: Global,
    out: &mut S,
    name: &str,
    flat: &Flat,
    finding: &Finding,
) -> Result<(), Stop>
    requires { (run : List CycleOf) → finding.now.run ≡ Some run → Breaks flat.now run }
    ensures { (run : List CycleOf) (lines : List (List ℕ)) → finding.now.run ≡ Some run → HasBrokenLines flat.now name.now run lines
        → Tells (S.taken out.old) (S.taken out.new) (S.faults out.old) (S.faults out.new) (S.ended out.new) lines result }
{
    match finding.run() {
        Some(played) => tell_broken(alloc, out, name, flat, played),
        None => Ok(()),
    }
}

// The lines of the run that is printed for the job at a place.
fn tell_shown<S: Sink>(
    alloc: Global,
    out: &mut S,
    heading: &Heading<'_>,
    flat: &Flat,
    reports: &[Report<Finding>],
    place: u32,
) -> Result<(), Stop>
    requires mode { heading.now.mode ≢ Cover }
    requires reports { AreReported heading.now.mode heading.now.span flat.now reports.now }
    requires place { place < length (jobs_in heading.now.mode heading.now.span flat.now) }
    ensures { (f : FindingOf) (run : List CycleOf) (lines : List (List ℕ)) → IsPrintedFinding heading.now.mode reports.now place f → f.run ≡ Some run
        → HasBrokenLines flat.now heading.now.name.now run lines
        → Tells (S.taken out.old) (S.taken out.new) (S.faults out.old) (S.faults out.new) (S.ended out.new) lines result }
{
    match printed_finding(reports, heading.mode, place) {
        Some(finding) => tell_finding(alloc, out, heading.name, flat, finding),
        None => Ok(()),
    }
}

// The lines of the run that is printed for the first job with answer Sat.
fn tell_failing<S: Sink>(
    alloc: Global,
    out: &mut S,
    heading: &Heading<'_>,
    flat: &Flat,
    reports: &[Report<Finding>],
    answers: &[Option<Answer>],
) -> Result<(), Stop>
    requires mode { heading.now.mode ≢ Cover }
    requires reports { AreReported heading.now.mode heading.now.span flat.now reports.now }
    requires count { length answers.now ≡ length (jobs_in heading.now.mode heading.now.span flat.now) }
    requires few { length answers.now < 2 ^ 32 }
    ensures { (place : ℕ) (f : FindingOf) (run : List CycleOf) (lines : List (List ℕ)) → IsFirstSat answers.now place
        → IsPrintedFinding heading.now.mode reports.now place f → f.run ≡ Some run → HasBrokenLines flat.now heading.now.name.now run lines
        → Tells (S.taken out.old) (S.taken out.new) (S.faults out.old) (S.faults out.new) (S.ended out.new) lines result }
{
    match first_sat(answers) {
        Some(place) => tell_shown(alloc, out, heading, flat, reports, place as u32),
        None => Ok(()),
    }
}

/// Offers the lines of the run that FAIL shows, where that is the verdict of bmc or prove.
pub fn tell_failure<S: Sink>(
    alloc: Global,
    out: &mut S,
    heading: &Heading<'_>,
    flat: &Flat,
    reports: &[Report<Finding>],
    collected: &Collected,
) -> Result<(), Stop>
    requires mode { heading.now.mode ≢ Cover }
    requires reports { AreReported heading.now.mode heading.now.span flat.now reports.now }
    requires collected { IsCollected heading.now.mode heading.now.span flat.now reports.now collected.now }
    ensures { (expect : List Status) (start : Option ℕ) (lines : List (List ℕ))
        → HasRunLines (asked_by heading.now expect) (came flat.now reports.now start) collected.now.answers.items collected.now.verdict lines
        → Tells (S.taken out.old) (S.taken out.new) (S.faults out.old) (S.faults out.new) (S.ended out.new) lines result }
{
    match collected.verdict {
        Some(Verdict::Fail) => tell_failing(alloc, out, heading, flat, reports, &collected.answers),
        Some(Verdict::Pass) | None => Ok(()),
    }
}
