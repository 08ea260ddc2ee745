// What a lane knows of findings by its earlier jobs.

ghost use Rattle.std.specs.Prelude.{◌≡◌, ◌⊎◌, ℕ, ◌<◌, Some, Contains, true};
ghost use Rattle.std.specs.Option.{MatchOption};
ghost use Rattle.race_core.specs.Asking.{is_skipped};
ghost use Rattle.race_core.specs.Report.{EventsOf};
ghost use Rattle.race_core.specs.declared.end.JobEnd.TheVariants as end;
ghost use Rattle.race_core.specs.declared.event.LaneEvent.TheVariants as event;
ghost use Rattle.lane_run.specs.Done.{KnownIn};

use race_core::{JobEnd, JobEvents, JobTerms, LaneEvent, Report};
use sby_terms::Settled;

// The end's own finding, where it skips the job.
fn skipping_found<'a, T: Settled>(ended: &'a JobEnd<T>, terms: &JobTerms) -> Option<&'a T>
    ensures { MatchOption result ((f : T) → ended.now ≡ end.Found f → is_skipped T.job T.answer terms.now f ≡ true → ⊥)
        (λ f. (ended.now ≡ end.Found f.now) × (is_skipped T.job T.answer terms.now f.now ≡ true)) }
{
    match ended {
        JobEnd::Found(value) if terms.is_skipped_by(value) => Some(value),
        _ => None,
    }
}

// What a look showed, where it skips the job.
fn skipping_shown<'a, T: Settled>(shown: &'a LaneEvent<T>, terms: &JobTerms) -> Option<&'a T>
    ensures { MatchOption result ((c : ℕ) (f : T) → shown.now ≡ event.Look c (Some f) → is_skipped T.job T.answer terms.now f ≡ true → ⊥)
        (λ f. ((c : ℕ) × (shown.now ≡ event.Look c (Some f.now))) × (is_skipped T.job T.answer terms.now f.now ≡ true)) }
{
    match shown {
        LaneEvent::Look {
            cell: _,
            known: Some(value),
        } if terms.is_skipped_by(value) => Some(value),
        _ => None,
    }
}

// An own finding among the ends that skips the job.
fn found_skipping<'a, T: Settled>(ends: &'a [JobEnd<T>], terms: &JobTerms) -> Option<&'a T>
    ensures { MatchOption result ((f : T) → Contains ends.now (end.Found f) → is_skipped T.job T.answer terms.now f ≡ true → ⊥)
        (λ f. Contains ends.now (end.Found f.now) × (is_skipped T.job T.answer terms.now f.now ≡ true)) }
{
    for end in ends {
        if let Some(value) = skipping_found(end, terms) {
            return Some(value);
        }
    }
    None
}

// A finding that a look of the list showed, and that skips the job.
fn looked_skipping<'a, T: Settled>(events: &'a [LaneEvent<T>], terms: &JobTerms) -> Option<&'a T>
    ensures { MatchOption result ((c : ℕ) (f : T) → Contains events.now (event.Look c (Some f)) → is_skipped T.job T.answer terms.now f ≡ true → ⊥)
        (λ f. ((c : ℕ) × Contains events.now (event.Look c (Some f.now))) × (is_skipped T.job T.answer terms.now f.now ≡ true)) }
{
    for event in events {
        if let Some(value) = skipping_shown(event, terms) {
            return Some(value);
        }
    }
    None
}

// A finding that a look of some job showed, and that skips the job.
fn looked_before<'a, T: Settled + Drop>(
    events: &'a [JobEvents<T>],
    terms: &JobTerms,
) -> Option<&'a T>
    ensures { MatchOption result ((es : EventsOf T) (c : ℕ) (f : T) → Contains events.now es → Contains es.keeper (event.Look c (Some f)) → is_skipped T.job T.answer terms.now f ≡ true → ⊥)
        (λ f. ((es : EventsOf T) × Contains events.now es × ((c : ℕ) × Contains es.keeper (event.Look c (Some f.now)))) × (is_skipped T.job T.answer terms.now f.now ≡ true)) }
{
    for job in events {
        if let Some(value) = looked_skipping(job.keeper(), terms) {
            return Some(value);
        }
    }
    None
}

// A finding that the lane knows by its jobs so far, and that skips the job.
pub(crate) fn known_skipping<'a, T: Settled + Drop>(
    report: &'a Report<T>,
    terms: &JobTerms,
) -> Option<&'a T>
    ensures { MatchOption result ((f : T) → KnownIn report.now f → is_skipped T.job T.answer terms.now f ≡ true → ⊥)
        (λ f. KnownIn report.now f.now × (is_skipped T.job T.answer terms.now f.now ≡ true)) }
{
    if let Some(value) = found_skipping(report.ends(), terms) {
        return Some(value);
    }
    match looked_before(report.events(), terms) {
        Some(value) => Some(value),
        None => None,
    }
}
