// The lines of cover statements.

ghost use Rattle.std.specs.Prelude.{◌≡◌, ◌-◌, ◌<◌, [], ◌∷◌, ℕ, List, Option, Some, length, slice_get};
ghost use Rattle.design_core.specs.Shape.{CellOf};
ghost use Rattle.design_meaning.specs.Meaning.{covers};
ghost use Rattle.design_meaning.specs.Runs.{CycleOf, IsRunOf};
ghost use Rattle.sby_terms.specs.declared.names.Mode.TheVariants.{Cover};
ghost use Rattle.sby_terms.specs.declared.names.Status.{Status};
ghost use Rattle.sby_lines.specs.Lines.{HasCoverLines, HasStatementLines};
ghost use Rattle.sby_lines.specs.Reached.{HasReachLines, Reaches, reached_line, unreached_line};
ghost use Rattle.sby_lines.specs.Telling.{Tells};
ghost use Rattle.sby_lines.specs.Told.{AreReported, IsCollected, asked_by, came};

use crate::collected::Collected;
use crate::counts::is_statement;
use crate::heading::Heading;
use crate::printed::printed_finding;
use crate::tell::{Stop, tell_line};
use crate::tell_run::tell_trace;
use crate::text;
use cell_table::kind::Statement;
use design_check::flat::Flat;
use judge::{Finding, PlayedRun};
use race_core::Report;
use sby_edge::Sink;
use sby_terms::Answer;
use std::alloc::Global;

// The name of a cover statement by its number in file order, counted from 0.
fn cover_name(flat: &Flat, number: usize) -> &str
    requires { number < length (covers flat.now) }
    ensures { (c : CellOf) × (slice_get (covers flat.now) number ≡ Some c) × (result.now ≡ c.name) }
{
    let mut before = 0;
    let cells = flat.design().cells();
    for cell in cells {
        if is_statement(Statement::Cover, cell.kind()) {
            if before == number {
                return cell.name();
            }
            before += 1;
        }
    }
    unreachable!()
}

fn tell_reached<S: Sink>(
    alloc: Global,
    out: &mut S,
    name: &str,
    flat: &Flat,
    number: usize,
    played: &PlayedRun,
) -> Result<(), Stop>
    requires statement { number < length (covers flat.now) }
    requires some { 0 < length played.now }
    ensures { (cell : CellOf) → slice_get (covers flat.now) number ≡ Some cell
        → Tells (S.taken out.old) (S.taken out.new) (S.faults out.old) (S.faults out.new) (S.ended out.new) (reached_line name.now cell played.now ∷ []) result }
{
    match text::reached_text(alloc, cover_name(flat, number), played.cycles() - 1) {
        Ok(text) => tell_line(alloc, out, name, text.as_str()),
        Err(_) => Err(Stop::Memory),
    }
}

fn tell_unreached<S: Sink>(
    alloc: Global,
    out: &mut S,
    name: &str,
    flat: &Flat,
    number: usize,
) -> Result<(), Stop>
    requires { number < length (covers flat.now) }
    ensures { (cell : CellOf) → slice_get (covers flat.now) number ≡ Some cell
        → Tells (S.taken out.old) (S.taken out.new) (S.faults out.old) (S.faults out.new) (S.ended out.new) (unreached_line name.now cell ∷ []) result }
{
    match text::unreached_text(alloc, cover_name(flat, number)) {
        Ok(text) => tell_line(alloc, out, name, text.as_str()),
        Err(_) => Err(Stop::Memory),
    }
}

fn tell_reaching<S: Sink>(
    alloc: Global,
    out: &mut S,
    name: &str,
    flat: &Flat,
    number: usize,
    played: &PlayedRun,
) -> Result<(), Stop>
    requires statement { number < length (covers flat.now) }
    requires rows { IsRunOf flat.now played.now }
    requires some { 0 < length played.now }
    ensures { (cell : CellOf) (lines : List (List ℕ)) → slice_get (covers flat.now) number ≡ Some cell → HasReachLines flat.now name.now cell (Some played.now) lines
        → Tells (S.taken out.old) (S.taken out.new) (S.faults out.old) (S.faults out.new) (S.ended out.new) lines result }
{
    tell_reached(alloc, out, name, flat, number, played)?;
    tell_trace(alloc, out, flat, played)
}

// The lines of a cover statement, by the finding for its job.
fn tell_found<S: Sink>(
    alloc: Global,
    out: &mut S,
    name: &str,
    flat: &Flat,
    number: usize,
    finding: &Finding,
) -> Result<(), Stop>
    requires statement { number < length (covers flat.now) }
    requires reaches { (run : List CycleOf) → finding.now.run ≡ Some run → Reaches flat.now run }
    ensures { (cell : CellOf) (lines : List (List ℕ)) → slice_get (covers flat.now) number ≡ Some cell → HasReachLines flat.now name.now cell finding.now.run lines
        → Tells (S.taken out.old) (S.taken out.new) (S.faults out.old) (S.faults out.new) (S.ended out.new) lines result }
{
    match finding.run() {
        Some(played) => tell_reaching(alloc, out, name, flat, number, played),
        None => tell_unreached(alloc, out, name, flat, number),
    }
}

// The lines of a cover statement, by the answer to its job.
fn tell_statement<S: Sink>(
    alloc: Global,
    out: &mut S,
    heading: &Heading<'_>,
    flat: &Flat,
    reports: &[Report<Finding>],
    place: u32,
    answer: Option<Answer>,
) -> Result<(), Stop>
    requires mode { heading.now.mode ≡ Cover }
    requires reports { AreReported heading.now.mode heading.now.span flat.now reports.now }
    requires statement { place < length (covers flat.now) }
    ensures { (expect : List Status) (start : Option ℕ) (lines : List (List ℕ))
        → HasStatementLines (asked_by heading.now expect) (came flat.now reports.now start) place answer lines
        → Tells (S.taken out.old) (S.taken out.new) (S.faults out.old) (S.faults out.new) (S.ended out.new) lines result }
{
    match answer {
        Some(_) => match printed_finding(reports, heading.mode, place) {
            Some(finding) => tell_found(alloc, out, heading.name, flat, place as usize, finding),
            None => Ok(()),
        },
        None => Ok(()),
    }
}

/// Offers the lines of the cover statements, in their order, by the answers to their jobs.
pub fn tell_covers<S: Sink>(
    alloc: Global,
    out: &mut S,
    heading: &Heading<'_>,
    flat: &Flat,
    reports: &[Report<Finding>],
    collected: &Collected,
) -> Result<(), Stop>
    requires mode { heading.now.mode ≡ Cover }
    requires reports { AreReported heading.now.mode heading.now.span flat.now reports.now }
    requires collected { IsCollected heading.now.mode heading.now.span flat.now reports.now collected.now }
    ensures { (expect : List Status) (start : Option ℕ) (lines : List (List ℕ))
        → HasCoverLines (asked_by heading.now expect) (came flat.now reports.now start) 0 collected.now.answers.items lines
        → Tells (S.taken out.old) (S.taken out.new) (S.faults out.old) (S.faults out.new) (S.ended out.new) lines result }
{
    let answers = collected.answers.as_slice();
    for place in 0..answers.len() {
        tell_statement(
            alloc,
            out,
            heading,
            flat,
            reports,
            place as u32,
            answers[place],
        )?;
    }
    Ok(())
}
