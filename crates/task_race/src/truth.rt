// Whoever is handed a report learns that what it carries is true.

ghost use Rattle.std.specs.Prelude.{Contains};
ghost use Rattle.judge.specs.Finding.{FindingOf, IsTrueFinding};
ghost use Rattle.race_core.specs.Carrying.{Carries};
ghost use Rattle.race_core.specs.Collect.{CarriedIn};
ghost use Rattle.race_core.specs.Report.{ReportOf};

use judge::Finding;
use race_core::{JobEnd, Report};

// The finding of an end is true.
fn learn_end(end: &JobEnd<Finding>)
    ensures { (f : FindingOf) → Carries end.now f → IsTrueFinding f }
{
    match end {
        JobEnd::Found(finding) | JobEnd::Skipped(finding) | JobEnd::CalledOff(finding) => {
            let _answer = finding.answer();
        }
        JobEnd::Unknown
        | JobEnd::NotServed
        | JobEnd::Bad { no: _, at: _ }
        | JobEnd::ReadFailed
        | JobEnd::StartFailed
        | JobEnd::HoldFailed
        | JobEnd::Stopped(_)
        | JobEnd::Memory => {}
    }
}

// The findings of these ends are true.
fn learn_ends(ends: &[JobEnd<Finding>])
    ensures { (f : FindingOf) → CarriedIn ends.now f → IsTrueFinding f }
{
    for end in ends {
        learn_end(end);
    }
}

/// The findings that reports carry are true.
pub fn learn_reports(reports: &[Report<Finding>])
    ensures { (r : ReportOf FindingOf) (f : FindingOf) → Contains reports.now r → CarriedIn r.ends f → IsTrueFinding f }
{
    for report in reports {
        learn_ends(report.ends());
    }
}
