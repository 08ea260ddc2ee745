// What follows from the reports of a race: answers, printing lanes and the status.

ghost use Rattle.race_core.specs.Asking.{name_at};
ghost use Rattle.race_core.specs.Carrying.{Carries};
ghost use Rattle.std.specs.Prelude.{◌≡◌, ◌≤◌, [], Option, vec_capacity};
ghost use Rattle.race_core.specs.Collect.{AreCollected, CarriedIn, SettledIn, IsAnswer};

use crate::{JobEnd, Report};
use sby_terms::{Answer, JobName, Mode, Settled};

// The answer of the finding that an end carries for a job.
fn answer_in<T: Settled>(end: &JobEnd<T>, job: JobName) -> Option<Answer>
    ensures { IsAnswer T.answer (λ f. Carries end.now f × (T.job f ≡ job)) result }
{
    match end {
        JobEnd::Found(value) | JobEnd::Skipped(value) | JobEnd::CalledOff(value) => answer_for(
            value, job,
        ),
        _ => None,
    }
}

fn answer_for<T: Settled>(value: &T, job: JobName) -> Option<Answer>
    ensures { IsAnswer T.answer (λ f. (value.now ≡ f) × (T.job f ≡ job)) result }
{
    if value.job() == job {
        Some(value.answer())
    } else {
        None
    }
}

// The answer of the findings that a report carries for a job.
pub(crate) fn answer_of<T: Settled + Drop>(report: &Report<T>, job: JobName) -> Option<Answer>
    ensures { IsAnswer T.answer (λ f. CarriedIn report.now.ends f × (T.job f ≡ job)) result }
{
    for end in report.ends() {
        let answer = answer_in(end, job);
        if answer.is_some() {
            return answer;
        }
    }
    None
}

/// The answer of the findings that reports carry for a job.
pub fn answer_among<T: Settled + Drop>(reports: &[Report<T>], job: JobName) -> Option<Answer>
    ensures { IsAnswer T.answer (λ f. SettledIn T.job reports.now job f) result }
{
    for report in reports {
        let answer = answer_of(report, job);
        if answer.is_some() {
            return answer;
        }
    }
    None
}

/// The name of the job at a place.
pub fn job_at(mode: Mode, place: u32) -> JobName
    ensures { result ≡ name_at mode place }
{
    match mode {
        Mode::Bmc => JobName::Base(place),
        Mode::Prove | Mode::ProveInv if place == 0 => JobName::Base(0),
        Mode::Prove if place == 1 => JobName::Step,
        Mode::ProveInv if place == 1 => JobName::Inv,
        Mode::Prove | Mode::ProveInv => JobName::Cover(place - 2),
        Mode::Cover => JobName::Cover(place),
    }
}

/// The answers of the findings that reports carry, one entry per job, in a vector with room for them.
pub(crate) fn answers<T: Settled + Drop>(
    mut answers: Vec<Option<Answer>>,
    reports: &[Report<T>],
    mode: Mode,
    jobs: u32,
) -> Vec<Option<Answer>>
    requires none { answers.items ≡ [] }
    requires room { jobs ≤ vec_capacity answers }
    ensures { AreCollected T.job T.answer mode jobs reports.now result.items }
{
    for place in 0..jobs {
        answers.push_reserved(answer_among(reports, job_at(mode, place)));
    }
    answers
}
