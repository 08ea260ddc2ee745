// What the reports of a task decide.

ghost use Rattle.std.specs.Prelude.{◌≡◌, ◌<◌, ℕ, true, false, IfNone, IfSome, Some, length, slice_get};
ghost use Rattle.judge.specs.Jobs.{jobs_in};
ghost use Rattle.race_core.specs.Room.{HasRoom};
ghost use Rattle.sby_terms.specs.Span.{IsSpan};
ghost use Rattle.sby_terms.specs.declared.names.Answer.TheVariants.{Sat};
ghost use Rattle.sby_lines.specs.Lines.{told_answers};
ghost use Rattle.sby_lines.specs.Told.{AreReported, IsCollected, IsFirstSat};

use crate::counts::counts_of;
use design_check::flat::Flat;
use judge::Finding;
use race_core::{Outcome, Report, Room, collect_in};
use sby_terms::{Answer, Mode, Span, Status, Verdict, decide};

/// What the reports of a task decide.
#[derive(Drop)]
pub struct Collected {
    /// The answer of each job that is settled.
    pub answers: Vec<Option<Answer>>,
    /// The verdict that they decide.
    pub verdict: Option<Verdict>,
    pub status: Status,
}

// How many jobs there are.
fn job_count(mode: Mode, span: &Span, flat: &Flat) -> u32
    requires { IsSpan span.now }
    ensures { result ≡ length (jobs_in mode span.now flat.now) }
{
    match mode {
        Mode::Bmc => span.slices(),
        Mode::Prove | Mode::ProveInv => 2,
        Mode::Cover => counts_of(flat.design()).covers as u32,
    }
}

impl Collected {
    /// Collects the reports of a task in room that was made for them.
    pub fn new(
        room: Room,
        mode: Mode,
        span: &Span,
        flat: &Flat,
        reports: &[Report<Finding>],
    ) -> Collected
        requires reported { AreReported mode span.now flat.now reports.now }
        requires room { HasRoom (length (jobs_in mode span.now flat.now)) (length reports.now) room }
        ensures { IsCollected mode span.now flat.now reports.now result }
    {
        let jobs = job_count(mode, span, flat);
        let Outcome {
            answers,
            lanes: _,
            status,
        } = collect_in(room, reports, mode, jobs);
        let verdict = decide(mode, &answers);
        Collected {
            answers,
            verdict,
            status,
        }
    }
}

fn is_sat(answers: &[Option<Answer>], place: usize) -> bool
    requires { place < length answers.now }
    ensures yes { result ≡ true → slice_get answers.now place ≡ Some (Some Sat) }
    ensures no { result ≡ false → slice_get answers.now place ≡ Some (Some Sat) → ⊥ }
{
    matches!(answers[place], Some(Answer::Sat))
}

/// The place of the first answer Sat.
pub fn first_sat(answers: &[Option<Answer>]) -> Option<usize>
    ensures some { IfSome result (IsFirstSat answers.now) }
    ensures none { IfNone result ((k : ℕ) → slice_get answers.now k ≡ Some (Some Sat) → ⊥) }
{
    for place in 0..answers.len() {
        if is_sat(answers, place) {
            return Some(place);
        }
    }
    None
}

/// The answers that have a line: in bmc and prove none after the first that is Sat.
pub fn told_answers(mode: Mode, answers: &[Option<Answer>]) -> &[Option<Answer>]
    ensures { result.now ≡ told_answers mode answers.now }
{
    match mode {
        Mode::Bmc | Mode::Prove | Mode::ProveInv => match first_sat(answers) {
            Some(place) => answers.split_at(place + 1).0,
            None => answers,
        },
        Mode::Cover => answers,
    }
}
