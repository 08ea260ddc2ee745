// The outcome of a run that was played.

ghost use Rattle.std.specs.Prelude.{◌≡◌, ◌↔◌, ◌<◌, ◌&&◌, [], All, IsTrue, List, MatchOption, Option, Some, length, not, slice_index_or};
ghost use Rattle.sby_bits.specs.Rows.{Row};
ghost use Rattle.model_core.specs.Meaning.{Assumed};
ghost use Rattle.model_core.specs.Shape.{IsStatement};
ghost use Rattle.model_play.specs.Playing.{cycles_of};
ghost use Rattle.btor_emit.specs.Goals.{IsGoal};
ghost use Rattle.witness_judge.specs.Judging.{fate_of};
ghost use Rattle.witness_judge.specs.Playing.{AreAssumed, IsFirstUnassumed, IsReached, RunFate};
ghost use Rattle.witness_judge.specs.declared.outcome.Outcome.TheVariants.{Played};

use crate::outcome::{Outcome, not_playing};
use crate::sought::Sought;
use btor_emit::goal::Goal;
use model_core::model::{Statement, WordModel};
use model_play::kept::Kept;

// Whether a statement has EN 1 and A 0 in a cycle.
fn fails(run: &Kept, cycle: usize, statement: Statement) -> bool
    requires cycle { cycle < length run.now }
    requires statement { IsStatement (length (slice_index_or run.now cycle [])) statement }
    ensures { result ≡ (cycles_of run.now cycle statement.en && not (cycles_of run.now cycle statement.a)) }
{
    run.get(cycle, statement.en) && !run.get(cycle, statement.a)
}

// Whether it has EN 1 and A 1.
fn is_reached(run: &Kept, cycle: usize, statement: Statement) -> bool
    requires cycle { cycle < length run.now }
    requires statement { IsStatement (length (slice_index_or run.now cycle [])) statement }
    ensures { result ≡ (cycles_of run.now cycle statement.en && cycles_of run.now cycle statement.a) }
{
    run.get(cycle, statement.en) && run.get(cycle, statement.a)
}

// Whether a cycle is assumed.
fn is_assumed(model: &WordModel, run: &Kept, cycle: usize) -> bool
    requires cycle { cycle < length run.now }
    requires rows { All (λ row. length row ≡ model.now.size) run.now }
    ensures { IsTrue result ↔ Assumed model.now (cycles_of run.now cycle) }
{
    let _size = model.size();
    let statements = model.assumes();
    for statement in statements {
        if fails(run, cycle, *statement) {
            return false;
        }
    }
    true
}

// Whether bad `bad`, counted from 0, is in a cycle.
fn is_bad(model: &WordModel, run: &Kept, cycle: usize, goal: Goal, bad: u64) -> bool
    requires cycle { cycle < length run.now }
    requires rows { All (λ row. length row ≡ model.now.size) run.now }
    ensures { IsTrue result ↔ IsGoal model.now goal (cycles_of run.now cycle) bad }
{
    let _size = model.size();
    match goal {
        Goal::Asserts => match model.asserts().get(bad as usize) {
            Some(statement) => fails(run, cycle, *statement),
            None => false,
        },
        Goal::Cover(cover) => match model.covers().get(cover as usize) {
            Some(statement) => bad == 0 && is_reached(run, cycle, *statement),
            None => false,
        },
    }
}

// The first cycle that isn't assumed.
fn first_unassumed(model: &WordModel, run: &Kept) -> Option<usize>
    requires { All (λ row. length row ≡ model.now.size) run.now }
    ensures { MatchOption result (AreAssumed model.now (length run.now) (cycles_of run.now)) (λ t. IsFirstUnassumed model.now (length run.now) (cycles_of run.now) t) }
{
    for cycle in 0..run.cycles() {
        if !is_assumed(model, run, cycle) {
            return Some(cycle);
        }
    }
    None
}

// Whether the last cycle is late enough, and bad `bad` is in it.
fn is_sought(model: &WordModel, run: &Kept, sought: Sought, bad: u64) -> bool
    requires some { 0 < length run.now }
    requires rows { All (λ row. length row ≡ model.now.size) run.now }
    ensures { IsTrue result ↔ IsReached model.now sought (length run.now) (cycles_of run.now) bad }
{
    let cycles = run.cycles();
    cycles > sought.first as usize && is_bad(model, run, cycles - 1, sought.goal, bad)
}

/// The outcome of a run, as one that a witness for this bad chooses.
pub(crate) fn outcome(model: &WordModel, run: Kept, sought: Sought, bad: u64) -> Outcome
    requires some { 0 < length run }
    requires rows { All (λ row. length row ≡ model.now.size) run }
    ensures fate { RunFate model.now sought (length run) (cycles_of run) bad (fate_of result) }
    ensures run { (rows : List Row) → result ≡ Played rows → rows ≡ run }
{
    if let Some(cycle) = first_unassumed(model, &run) {
        return not_playing(cycle as u64);
    }
    if !is_sought(model, &run, sought, bad) {
        return not_playing(run.cycles() as u64 - 1);
    }
    Outcome::Played(run)
}
