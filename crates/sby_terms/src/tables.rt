// The tables: what the answers decide, the status, and the number of a task's end.

ghost use Rattle.std.specs.Prelude.{◌≡◌, ◌↔◌, [], Contains, IsTrue, List, Option, Some, slice_get};
ghost use Rattle.sby_terms.specs.declared.names.Answer.{Answer};
ghost use Rattle.sby_terms.specs.declared.names.Event.{Event};
ghost use Rattle.sby_terms.specs.declared.names.Mode.{Mode};
ghost use Rattle.sby_terms.specs.declared.names.Status.{Status};
ghost use Rattle.sby_terms.specs.declared.names.Verdict.{Verdict};
ghost use Rattle.sby_terms.specs.Code.{HasCode};
ghost use Rattle.sby_terms.specs.Decide.{AreAll, BaseIs, Decides, InvIs, StepIs};
ghost use Rattle.sby_terms.specs.Status.{HasStatus};

use crate::{Answer, Event, Expect, Mode, Status, Verdict};

/// What the answers decide: one entry per job, in the order of the jobs. None where they don't decide yet.
pub fn decide(mode: Mode, answers: &[Option<Answer>]) -> Option<Verdict>
    ensures pass { (result ≡ Some Verdict.Pass) ↔ Decides mode answers.now Verdict.Pass }
    ensures fail { (result ≡ Some Verdict.Fail) ↔ Decides mode answers.now Verdict.Fail }
{
    match mode {
        Mode::Bmc => decide_bmc(answers),
        Mode::Prove => decide_prove(answers),
        Mode::ProveInv => decide_prove_inv(answers),
        Mode::Cover => decide_cover(answers),
    }
}

fn decide_bmc(answers: &[Option<Answer>]) -> Option<Verdict>
    ensures pass { (result ≡ Some Verdict.Pass) ↔ ((answers.now ≡ [] → ⊥) × AreAll answers.now Answer.Unsat) }
    ensures fail { (result ≡ Some Verdict.Fail) ↔ Contains answers.now (Some Answer.Sat) }
{
    if has_answer(answers, Some(Answer::Sat)) {
        Some(Verdict::Fail)
    } else if !answers.is_empty() && are_all(answers, Answer::Unsat) {
        Some(Verdict::Pass)
    } else {
        None
    }
}

fn decide_prove(answers: &[Option<Answer>]) -> Option<Verdict>
    ensures pass { (result ≡ Some Verdict.Pass) ↔ (BaseIs answers.now Answer.Unsat × StepIs answers.now Answer.Unsat) }
    ensures fail { (result ≡ Some Verdict.Fail) ↔ BaseIs answers.now Answer.Sat }
{
    match (answer_at(answers, 0), answer_at(answers, 1)) {
        (Some(Answer::Sat), _) => Some(Verdict::Fail),
        (Some(Answer::Unsat), Some(Answer::Unsat)) => Some(Verdict::Pass),
        _ => None,
    }
}

fn decide_prove_inv(answers: &[Option<Answer>]) -> Option<Verdict>
    ensures pass { (result ≡ Some Verdict.Pass) ↔ ((BaseIs answers.now Answer.Sat → ⊥) × InvIs answers.now Answer.Unsat) }
    ensures fail { (result ≡ Some Verdict.Fail) ↔ BaseIs answers.now Answer.Sat }
{
    match (answer_at(answers, 0), answer_at(answers, 1)) {
        (Some(Answer::Sat), _) => Some(Verdict::Fail),
        (_, Some(Answer::Unsat)) => Some(Verdict::Pass),
        _ => None,
    }
}

fn decide_cover(answers: &[Option<Answer>]) -> Option<Verdict>
    ensures pass { (result ≡ Some Verdict.Pass) ↔ AreAll answers.now Answer.Sat }
    ensures fail { (result ≡ Some Verdict.Fail) ↔ Contains answers.now (Some Answer.Unsat) }
{
    if has_answer(answers, Some(Answer::Unsat)) {
        Some(Verdict::Fail)
    } else if are_all(answers, Answer::Sat) {
        Some(Verdict::Pass)
    } else {
        None
    }
}

// The answer of the job at a place, where it has one.
fn answer_at(answers: &[Option<Answer>], place: usize) -> Option<Answer>
    ensures sat { (result ≡ Some Answer.Sat) ↔ (slice_get answers.now place ≡ Some (Some Answer.Sat)) }
    ensures unsat { (result ≡ Some Answer.Unsat) ↔ (slice_get answers.now place ≡ Some (Some Answer.Unsat)) }
{
    if place < answers.len() {
        answers[place]
    } else {
        None
    }
}

fn has_answer(answers: &[Option<Answer>], answer: Option<Answer>) -> bool
    ensures { IsTrue result ↔ Contains answers.now answer }
{
    answers.contains(&answer)
}

fn are_all(answers: &[Option<Answer>], answer: Answer) -> bool
    ensures { IsTrue result ↔ AreAll answers.now answer }
{
    answers.iter().all(|one| *one == Some(answer))
}

/// The status of a task that ran its lanes, by what its answers decided and by the ends of its unsettled jobs.
pub fn status_of(decided: Option<Verdict>, events: &[Event]) -> Status
    ensures { HasStatus decided events.now result }
{
    match decided {
        Some(Verdict::Pass) => Status::Pass,
        Some(Verdict::Fail) => Status::Fail,
        None if has_event(events, Event::Memory) => Status::Memory,
        None if has_event(events, Event::Stopped) => Status::Timeout,
        None if has_event(events, Event::Fault) => Status::Error,
        None => Status::Unknown,
    }
}

fn has_event(events: &[Event], event: Event) -> bool
    ensures { IsTrue result ↔ Contains events.now event }
{
    events.contains(&event)
}

/// The number with which a task ends: 0 where its status is expected, else 1, 2, 4, 8, 16 or 32.
pub fn rc_of(expect: &Expect, status: Status) -> u8
    ensures { HasCode expect.now status result }
{
    match status {
        Status::Memory => 32,
        _ if is_listed(expect.statuses(), status) => 0,
        Status::Pass => 1,
        Status::Fail => 2,
        Status::Unknown => 4,
        Status::Timeout => 8,
        Status::Error => 16,
    }
}

fn is_listed(statuses: &[Status], status: Status) -> bool
    ensures { IsTrue result ↔ Contains statuses.now status }
{
    statuses.contains(&status)
}

/// A law: answers decide one verdict at most.
pub fn one_verdict()
    ensures { (mode : Mode) (answers : List (Option Answer)) (v w : Verdict)
        → Decides mode answers v → Decides mode answers w → v ≡ w }
{}

/// A law: a task has one status.
pub fn one_status()
    ensures { (decided : Option Verdict) (events : List Event) (s t : Status)
        → HasStatus decided events s → HasStatus decided events t → s ≡ t }
{}
