// The lines of jobs: of those that are settled, and of how the others ended in each lane.

ghost use Rattle.std.specs.Prelude.{◌≡◌, ◌≢◌, ◌<◌, ◌^◌, ℕ, All, List, IfOk, None, OnErr, length, option_map, string_bytes};
ghost use Rattle.sby_terms.specs.declared.names.JobName.{JobName};
ghost use Rattle.sby_lines.specs.Jobs.{HasJobs};
ghost use Rattle.sby_lines.specs.Lines.{end_text, lane_line, lane_lines, race_lines, settled_line, settled_lines};
ghost use Rattle.sby_lines.specs.Telling.{Tells};
ghost use Rattle.sby_lines.specs.Texts.{answer_text, lane_text, settled_text};
ghost use Rattle.sby_terms.specs.Path.{job_text};

use crate::heading::Heading;
use crate::tell::{Stop, tell_line, tell_line_if};
use crate::{ends, text};
use judge::Finding;
use race_core::{JobEnd, Report, job_at};
use sby_edge::Sink;
use sby_terms::{Answer, JobName, job_text};
use std::alloc::{AllocError, Global};

// A job of a task with this many slices, in a lane.
#[derive(Clone, Copy)]
struct LaneJob {
    lane: u32,
    slices: u32,
    job: JobName,
}

fn settled_text(
    alloc: Global,
    slices: u32,
    job: JobName,
    answer: Answer,
) -> Result<String, AllocError>
    ensures { IfOk result (λ t. string_bytes t ≡ settled_text (job_text slices job) (answer_text answer)) }
{
    let job = job_text(alloc, slices, job)?;
    text::settled_text(alloc, job.as_str(), text::answer_text(answer))
}

fn tell_settled<S: Sink>(
    alloc: Global,
    out: &mut S,
    name: &str,
    slices: u32,
    job: JobName,
    answer: Option<Answer>,
) -> Result<(), Stop>
    ensures { Tells (S.taken out.old) (S.taken out.new) (S.faults out.old) (S.faults out.new) (S.ended out.new) (settled_line name.now slices job answer) result }
{
    match answer {
        Some(answer) => match settled_text(alloc, slices, job, answer) {
            Ok(text) => tell_line(alloc, out, name, text.as_str()),
            Err(_) => Err(Stop::Memory),
        },
        None => Ok(()),
    }
}

/// Offers the lines of the settled jobs, by the answers from that of the first job on.
pub fn tell_answers<S: Sink>(
    alloc: Global,
    out: &mut S,
    heading: &Heading<'_>,
    slices: u32,
    answers: &[Option<Answer>],
) -> Result<(), Stop>
    requires { length answers.now < 2 ^ 32 }
    ensures { (jobs : List JobName) → HasJobs heading.now.mode (length answers.now) jobs
        → Tells (S.taken out.old) (S.taken out.new) (S.faults out.old) (S.faults out.new) (S.ended out.new) (settled_lines heading.now.name.now slices jobs answers.now) result }
{
    for place in 0..answers.len() {
        let job = job_at(heading.mode, place as u32);
        tell_settled(alloc, out, heading.name, slices, job, answers[place])?;
    }
    Ok(())
}

// What is printed of a lane's end, where something is.
fn lane_text(
    alloc: Global,
    at: LaneJob,
    end: &JobEnd<Finding>,
) -> Result<Option<String>, AllocError>
    ensures ok { IfOk result (λ t. option_map string_bytes t ≡ option_map (lane_text at.lane (job_text at.slices at.job)) (end_text end.now)) }
    ensures err { OnErr result (end_text end.now ≢ None) }
{
    let text = ends::end_text(alloc, end)?;
    match text {
        Some(text) => {
            let job = job_text(alloc, at.slices, at.job)?;
            let text = text::lane_text(alloc, at.lane, job.as_str(), text.as_str())?;
            Ok(Some(text))
        }
        None => Ok(None),
    }
}

fn tell_end<S: Sink>(
    alloc: Global,
    out: &mut S,
    name: &str,
    at: LaneJob,
    answer: Option<Answer>,
    end: &JobEnd<Finding>,
) -> Result<(), Stop>
    ensures { Tells (S.taken out.old) (S.taken out.new) (S.faults out.old) (S.faults out.new) (S.ended out.new) (lane_line name.now at.slices at.lane at.job answer (end_text end.now)) result }
{
    if answer.is_some() {
        return Ok(());
    }
    match lane_text(alloc, at, end) {
        Ok(text) => tell_line_if(alloc, out, name, &text),
        Err(_) => Err(Stop::Memory),
    }
}

// The lines of a lane's unsettled jobs.
fn tell_lane<S: Sink>(
    alloc: Global,
    out: &mut S,
    heading: &Heading<'_>,
    slices: u32,
    answers: &[Option<Answer>],
    report: &Report<Finding>,
) -> Result<(), Stop>
    requires few { length answers.now < 2 ^ 32 }
    requires ends { length report.now.ends ≡ length answers.now }
    ensures { (jobs : List JobName) → HasJobs heading.now.mode (length answers.now) jobs
        → Tells (S.taken out.old) (S.taken out.new) (S.faults out.old) (S.faults out.new) (S.ended out.new) (lane_lines heading.now.name.now slices report.now.lane jobs answers.now report.now.ends) result }
{
    let ends = report.ends();
    for place in 0..ends.len() {
        let at = LaneJob {
            lane: report.lane(),
            slices,
            job: job_at(heading.mode, place as u32),
        };
        tell_end(alloc, out, heading.name, at, answers[place], &ends[place])?;
    }
    Ok(())
}

/// Offers the lines of the unsettled jobs of all lanes.
pub fn tell_race<S: Sink>(
    alloc: Global,
    out: &mut S,
    heading: &Heading<'_>,
    slices: u32,
    answers: &[Option<Answer>],
    reports: &[Report<Finding>],
) -> Result<(), Stop>
    requires few { length answers.now < 2 ^ 32 }
    requires ends { All (λ r. length r.ends ≡ length answers.now) reports.now }
    ensures { (jobs : List JobName) → HasJobs heading.now.mode (length answers.now) jobs
        → Tells (S.taken out.old) (S.taken out.new) (S.faults out.old) (S.faults out.new) (S.ended out.new) (race_lines heading.now.name.now slices jobs answers.now reports.now) result }
{
    for report in reports {
        tell_lane(alloc, out, heading, slices, answers, report)?;
    }
    Ok(())
}
