// What holds of the reasons in a lane's lists.

ghost use Rattle.std.specs.Prelude.{◌≡◌, ◌⊎◌, ℕ, ◌<◌, List, Option, Some, length, true};
ghost use Rattle.race_core.specs.Consistent.{Consistent, end_at};
ghost use Rattle.race_core.specs.Asking.{name_at, terms_of};
ghost use Rattle.lane_run.specs.Asked.{IsFor, terms_at};
ghost use Rattle.lane_run.specs.Raced.{LanesDone};
ghost use Rattle.race_core.specs.Carrying.{Looked};
ghost use Rattle.race_core.specs.Ends.{HasReason};
ghost use Rattle.race_core.specs.Parts.{Terms, keeper_from, shows_limit};
ghost use Rattle.race_core.specs.declared.event.LaneEvent.{LaneEvent};
ghost use Rattle.race_core.specs.declared.part.Keeper.TheVariants as keeper;
ghost use Rattle.race_core.specs.declared.part.Reason.TheVariants as reason;
ghost use Rattle.lane_run.specs.Complete.{IsKnown, IsPlain, IsUndisturbed};
ghost use Rattle.lane_run.specs.Done.{IsLastReading, LaneFaults, LaneSoFar, LaneStops};
ghost use Rattle.jobs_pool.specs.Places.{PoolOf};
ghost use Rattle.lane_run.specs.Started.{LaneStarts};
ghost use Rattle.sby_edge.specs.Cause.{CountsOf};
ghost use Rattle.sby_edge.specs.Child.{BayOf};

use crate::LaneFactory;
use crate::task::Task;
use race_cells::Notes;
use race_core::Report;
use sby_edge::Clock;
use sby_terms::Settled;

/// A job is called off by a finding that a look of its keeper showed, and that makes it needless; it is skipped by one that skips it; and
/// it is stopped by the last reading of its keeper, which shows the limit.
pub fn reasons_have_causes<T>()
    ensures needless { (a : Terms T) (f : T) (es : List (LaneEvent T)) → HasReason (keeper_from a keeper.Fresh es) (reason.Needless f)
        → ((c : ℕ) × Looked c f es) × (a.needless f ≡ true) }
    ensures skipped { (a : Terms T) (f : T) (es : List (LaneEvent T)) → HasReason (keeper_from a keeper.Fresh es) (reason.Skip f)
        → ((c : ℕ) × Looked c f es) × (a.skipped f ≡ true) }
    ensures limit { (a : Terms T) (t : ℕ) (es : List (LaneEvent T)) → HasReason (keeper_from a keeper.Fresh es) (reason.Limit t)
        → IsLastReading t es × (shows_limit a.start a.limit t ≡ true) }
{}

/// Lanes that have done all their jobs report consistently, where one note knows what their events say.
pub fn lanes_are_consistent<M: LaneFactory<T>, T: Settled, C: Clock>(
    task: &Task<'_, M, T, C>,
    notes: &Notes<T>,
    reports: &[Report<T>],
)
    requires { LanesDone (IsFor T.problem T.job (M.problem task.now.factory.now) task.now.mode) (λ i k. M.is_served task.now.factory.now i (name_at task.now.mode k))
        (λ k. terms_of T.job T.answer (terms_at task.now.mode task.now.limit k)) (C.may_read task.now.clock.now) (length task.now.cells.now) notes.now reports.now }
    ensures { Consistent (IsFor T.problem T.job (M.problem task.now.factory.now) task.now.mode) (λ i k. M.is_served task.now.factory.now i (name_at task.now.mode k))
        (λ k. terms_of T.job T.answer (terms_at task.now.mode task.now.limit k)) (length reports.now) (length task.now.cells.now) reports.now }
{}

/// The ends of a lane that nothing disturbed are Plain's, or carry a finding that the lane knows: its own, or one that a look showed. So
/// it is where the bay tells its scripts, none has a gate, no call failed, no two readings are the limit apart, and memory sufficed.
pub fn undisturbed_lanes_are_plain<M: LaneFactory<T>, T: Settled, C: Clock>(
    task: &Task<'_, M, T, C>,
    notes: &Notes<T>,
    report: &Report<T>,
)
    requires done { LaneSoFar (IsFor T.problem T.job (M.problem task.now.factory.now) task.now.mode) (λ k. M.is_served task.now.factory.now report.now.lane (name_at task.now.mode k))
        (λ k. terms_of T.job T.answer (terms_at task.now.mode task.now.limit k)) (C.may_read task.now.clock.now) report.now.jobs notes.now report.now }
    requires stopped { LaneStops (C.may_read task.now.clock.now) task.now.limit report.now.jobs report.now }
    ensures { (pool : Option PoolOf) (bay : BayOf) (told : Option BayOf) (before now : CountsOf) → LaneFaults before now report.now.jobs report.now
        → LaneStarts pool (M.words task.now.factory.now report.now.lane) (M.file task.now.factory.now) (M.stands task.now.factory.now report.now.lane) (M.ends task.now.factory.now report.now.lane) (M.proves task.now.factory.now report.now.lane)
        (M.most task.now.factory.now) (M.most_output task.now.factory.now report.now.lane) task.now.mode (Some bay) told report.now.jobs report.now
        → IsUndisturbed (C.may_read task.now.clock.now) task.now.limit task.now.mode bay before now report.now.jobs report.now
        → (j : ℕ) → j < report.now.jobs
        → IsPlain (M.is_served task.now.factory.now report.now.lane (name_at task.now.mode j)) (M.ends task.now.factory.now report.now.lane (name_at task.now.mode j)) (M.proves task.now.factory.now report.now.lane (name_at task.now.mode j))
        (M.most task.now.factory.now) bay (name_at task.now.mode j) (end_at report.now j)
        ⊎ IsKnown report.now.jobs report.now (end_at report.now j) }
{}
