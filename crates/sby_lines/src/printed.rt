// Whose finding is printed, and whose stop.

ghost use Rattle.std.specs.Prelude.{◌≡◌, ◌<◌, ℕ, All, Contains, IfNone, IfSome, List, length};
ghost use Rattle.judge.specs.Finding.{FindingOf};
ghost use Rattle.race_core.specs.Asking.{name_at};
ghost use Rattle.race_core.specs.Carrying.{Carries};
ghost use Rattle.race_core.specs.Collect.{HasFinding};
ghost use Rattle.race_core.specs.Report.{ReportOf};
ghost use Rattle.sby_lines.specs.Printed.{HasNoFinding, HasNoStop, IsFirstStop};
ghost use Rattle.sby_lines.specs.Told.{AreInPlace, IsFirstFinding, IsPrintedFinding, IsStopReading, IsStoppedIn, WinnersHaveFindings, job_of};

use judge::Finding;
use race_core::{JobEnd, Report, job_at, printing_lane};
use sby_terms::{Answer, JobName, Mode};

// The finding that an end carries.
fn carried(end: &JobEnd<Finding>) -> Option<&Finding>
    ensures some { IfSome result (λ f. Carries end.now f.now) }
    ensures none { IfNone result ((f : FindingOf) → Carries end.now f → ⊥) }
{
    match end {
        JobEnd::Found(finding) | JobEnd::Skipped(finding) | JobEnd::CalledOff(finding) => Some(
            finding,
        ),
        _ => None,
    }
}

// The finding for the job that an end carries.
fn carried_for(end: &JobEnd<Finding>, job: JobName) -> Option<&Finding>
    ensures some { IfSome result (λ f. Carries end.now f.now × (f.now.job ≡ job)) }
    ensures none { IfNone result ((f : FindingOf) → Carries end.now f → f.job ≡ job → ⊥) }
{
    match carried(end) {
        Some(finding) if finding.job() == job => Some(finding),
        _ => None,
    }
}

// The first finding for the job that a report carries.
fn finding_in(report: &Report<Finding>, job: JobName) -> Option<&Finding>
    ensures some { IfSome result (λ f. IsFirstFinding report.now.ends job f.now) }
    ensures none { IfNone result (HasNoFinding report.now.ends job) }
{
    for end in report.ends() {
        let found = carried_for(end, job);
        if found.is_some() {
            return found;
        }
    }
    None
}

/// The finding that is printed for the job at a place: the first for it in the report of the lowest lane that won its cell; where
/// none won, of the lowest lane with a finding for it.
pub fn printed_finding(reports: &[Report<Finding>], mode: Mode, place: u32) -> Option<&Finding>
    requires places { AreInPlace reports.now }
    requires events { All (λ r. place < length r.events) reports.now }
    requires winners { WinnersHaveFindings mode reports.now }
    ensures some { IfSome result (λ f. IsPrintedFinding mode reports.now place f.now) }
    ensures none { IfNone result ((r : ReportOf FindingOf) → Contains reports.now r → HasFinding job_of (name_at mode place) r → ⊥) }
{
    let job = job_at(mode, place);
    match printing_lane(reports, place as usize, job) {
        Some(lane) => finding_in(&reports[lane as usize], job),
        None => None,
    }
}

// The reading that stopped a lane in the job at a place, where that is unsettled.
fn stop_at(report: &Report<Finding>, answers: &[Option<Answer>], place: usize) -> Option<u64>
    requires answer { place < length answers.now }
    requires end { place < length report.now.ends }
    ensures some { IfSome result (IsStoppedIn answers.now report.now place) }
    ensures none { IfNone result ((t : ℕ) → IsStoppedIn answers.now report.now place t → ⊥) }
{
    match (&answers[place], &report.ends()[place]) {
        (None, JobEnd::Stopped(reading)) => Some(*reading),
        _ => None,
    }
}

// The reading that stopped a lane in an unsettled job, by the first such job.
fn stopped_in(report: &Report<Finding>, answers: &[Option<Answer>]) -> Option<u64>
    requires { length report.now.ends ≡ length answers.now }
    ensures some { IfSome result (IsFirstStop answers.now report.now) }
    ensures none { IfNone result (HasNoStop answers.now report.now) }
{
    for place in 0..answers.len() {
        let reading = stop_at(report, answers, place);
        if reading.is_some() {
            return reading;
        }
    }
    None
}

/// The reading that stopped the lowest lane which was stopped in an unsettled job, by the first such job of that lane.
pub fn stop_reading(reports: &[Report<Finding>], answers: &[Option<Answer>]) -> Option<u64>
    requires places { AreInPlace reports.now }
    requires ends { All (λ r. length r.ends ≡ length answers.now) reports.now }
    ensures some { IfSome result (IsStopReading reports.now answers.now) }
    ensures none { IfNone result ((r : ReportOf FindingOf) → Contains reports.now r → HasNoStop answers.now r) }
{
    for report in reports {
        if let Some(reading) = stopped_in(report, answers) {
            return Some(reading);
        }
    }
    None
}
