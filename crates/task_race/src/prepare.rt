// What a race takes before its first child.

ghost use Rattle.std.specs.Prelude.{◌≡◌, ℕ, IfOk, OnErr, Option, length, map};
ghost use Rattle.judge.specs.Jobs.{jobs_of};
ghost use Rattle.task_race.specs.Bays.{NoneStarted, counts_at, yard_at};
ghost use Rattle.task_race.specs.Prepared.{AreNew, IsPrepared, bays_in};
ghost use Rattle.jobs_pool.specs.Places.{PoolOf};
ghost use Rattle.task_race.specs.Ran.{RacingOf, racing_seen};

use crate::bays::{give_back, take_bays};
use crate::racing::Racing;
use judge::{Finding, Problem};
use lane_berth::Allowance;
use lane_run::{FreshLanes, fresh_lanes, spare_lanes};
use race_cells::Cells;
use sby_edge::Yard;
use std::alloc::{AllocError, Global};

/// All that a race takes before its first child: a cell for each job, and its lanes, in bays of a yard.
pub struct PreparedRace<'p, L> {
    pub(crate) cells: Cells<Finding>,
    pub(crate) lanes: FreshLanes<'p, L, Finding>,
}

// How many jobs there are. A design has at most 2^27 cells.
fn job_count(problem: &Problem) -> u32
    ensures { result ≡ length (jobs_of problem.now.problem problem.now.design) }
{
    // A flat design is one, of so few cells.
    let _ = problem.flat();
    problem.jobs() as u32
}

/// Takes all memory that a race needs before its first child, and a bay of the yard for each lane, under an allowance where there is one.
/// Where memory runs out, nothing is started, and the bays come back.
pub fn prepare_race<'p, Y: Yard>(
    alloc: Global,
    yard: &mut Y,
    racing: &Racing<'_>,
    allowance: &mut Allowance<'p>,
) -> Result<PreparedRace<'p, Y::Bay>, AllocError>
    ensures told { Y.told yard.new ≡ Y.told yard.old }
    ensures counts { counts_at (Y.start_faults yard.new) (Y.read_faults yard.new) (Y.hold_faults yard.new) ≡ counts_at (Y.start_faults yard.old) (Y.read_faults yard.old) (Y.hold_faults yard.old) }
    ensures started { IfOk result (λ _. Y.started yard.new ≡ Y.started yard.old) }
    ensures prepared { IfOk result (λ p. IsPrepared (racing_seen racing.now) allowance.old p) }
    ensures allowance { allowance.new ≡ allowance.old }
    ensures bays { IfOk result (λ p. AreNew (Y.told yard.old) racing.now.task (map (λ b. record { told = Y.Bay.told b; counts = counts_at (Y.Bay.start_faults b) (Y.Bay.read_faults b) (Y.Bay.hold_faults b) }) (bays_in p))) }
    ensures memory { OnErr result (NoneStarted (yard_at (Y.told yard.old) (Y.started yard.old) (counts_at (Y.start_faults yard.old) (Y.read_faults yard.old) (Y.hold_faults yard.old)))
        (yard_at (Y.told yard.new) (Y.started yard.new) (counts_at (Y.start_faults yard.new) (Y.read_faults yard.new) (Y.hold_faults yard.new)))) }
{
    // This many lanes as a number of 32 bits can't count aren't raced.
    let Ok(count) = u32::try_from(racing.engines.len()) else {
        return Err(AllocError);
    };
    let jobs = job_count(racing.problem);
    let cells = Cells::new(alloc, jobs)?;
    let bays = take_bays(alloc, yard, racing.task, count)?;
    match fresh_lanes(alloc, &cells, jobs, bays, allowance) {
        Ok(lanes) => Ok(PreparedRace { cells, lanes }),
        Err(bays) => {
            give_back(yard, bays);
            Err(AllocError)
        }
    }
}

/// Gives back what a race has taken that isn't run after all.
pub fn cancel_race<Y: Yard>(yard: &mut Y, prepared: PreparedRace<'_, Y::Bay>)
    requires { (racing : RacingOf) × (pool : Option PoolOf) × IsPrepared racing pool prepared }
    ensures told { Y.told yard.new ≡ Y.told yard.old }
    ensures none { (task : ℕ) → AreNew (Y.told yard.old) task (map (λ b. record { told = Y.Bay.told b; counts = counts_at (Y.Bay.start_faults b) (Y.Bay.read_faults b) (Y.Bay.hold_faults b) }) (bays_in prepared.entry))
        → NoneStarted (yard_at (Y.told yard.old) (Y.started yard.old) (counts_at (Y.start_faults yard.old) (Y.read_faults yard.old) (Y.hold_faults yard.old)))
        (yard_at (Y.told yard.new) (Y.started yard.new) (counts_at (Y.start_faults yard.new) (Y.read_faults yard.new) (Y.hold_faults yard.new))) }
{
    let PreparedRace { cells: _, lanes } = prepared;
    give_back(yard, spare_lanes(lanes));
}
