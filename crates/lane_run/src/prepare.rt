// What a race needs before its lanes run. All memory is taken before the first bay is moved.

ghost use Rattle.std.specs.Prelude.{◌≡◌, ◌<◌, ◌≤◌, ◌^◌, ℕ, List, [], All, IfErr, IfOk, false, length, map, slice_index_or, vec_capacity};
ghost use Rattle.race_cells.specs.Notes.{AreNotesOf};
ghost use Rattle.lane_run.specs.Raced.{AreReady, IsReady, bays_of, pool_of};

use crate::gather::{Raced, gather};
use crate::racing::Lane;
use jobs_pool::Pool;
use lane_berth::Allowance;
use race_cells::{Cells, Notes};
use race_core::Report;
use sby_terms::Settled;
use std::alloc::{AllocError, Global};

// What a lane has before it gets its bay.
#[derive(Drop)]
struct PreparedLane<T> {
    report: Report<T>,
    notes: Notes<T>,
}

// What a race has before its bays: its prepared lanes, and the room for its lanes and for what they leave.
struct Room<'p, L, T> {
    prepared: Vec<PreparedLane<T>>,
    lanes: Vec<Lane<'p, L, T>>,
    raced: Raced<L, T>,
}

/// Lanes that have done nothing yet, in their bays; the room for what they leave; and the pool of their places, where there is an allowance.
pub struct FreshLanes<'p, L, T> {
    pub(crate) lanes: Vec<Lane<'p, L, T>>,
    pub(crate) raced: Raced<L, T>,
    pub(crate) pool: Option<&'p Pool>,
}

// Prepares the lane at a place.
fn prepare_lane<T: Settled + Drop>(
    alloc: Global,
    cells: &Cells<T>,
    jobs: u32,
    place: u32,
) -> Result<PreparedLane<T>, AllocError>
    requires { jobs ≡ length cells.now }
    ensures ready { IfOk result (λ s. IsReady cells.now s.report s.notes) }
    ensures place { IfOk result (λ s. s.report.lane ≡ place) }
{
    let report = Report::new(alloc, place, jobs)?;
    let notes = cells.notes(alloc)?;
    Ok(PreparedLane { report, notes })
}

// Prepares this many lanes.
fn prepare_lanes<T: Settled + Drop>(
    alloc: Global,
    cells: &Cells<T>,
    jobs: u32,
    count: u32,
) -> Result<Vec<PreparedLane<T>>, AllocError>
    requires jobs { jobs ≡ length cells.now }
    ensures count { IfOk result (λ prepared. length prepared.items ≡ count) }
    ensures ready { IfOk result (λ prepared. All (λ s. IsReady cells.now s.report s.notes) prepared.items) }
    ensures places { IfOk result (λ prepared. (i : ℕ) (d : PreparedLane T) → i < length prepared.items → (slice_index_or prepared.items i d).report.lane ≡ i) }
{
    let mut prepared = Vec::with_capacity(alloc, count as usize)?;
    for place in 0..count {
        prepared.push_reserved(prepare_lane(alloc, cells, jobs, place)?);
    }
    Ok(prepared)
}

// Room for this many lanes, and for their bays after them.
fn fresh_rows<'p, L, T>(
    alloc: Global,
    count: usize,
) -> Result<(Vec<Lane<'p, L, T>>, Vec<L>), AllocError>
    ensures lanes { IfOk result (λ r. (r.0.items ≡ []) × (count ≤ vec_capacity r.0)) }
    ensures bays { IfOk result (λ r. (r.1.items ≡ []) × (count ≤ vec_capacity r.1)) }
{
    let lanes = Vec::with_capacity(alloc, count)?;
    match Vec::with_capacity(alloc, count) {
        Ok(bays) => Ok((lanes, bays)),
        Err(error) => {
            lanes.destroy_empty();
            Err(error)
        }
    }
}

// All memory that this many lanes need to be raced.
fn fresh_room<'p, L, T: Settled + Drop>(
    alloc: Global,
    cells: &Cells<T>,
    jobs: u32,
    count: u32,
) -> Result<Room<'p, L, T>, AllocError>
    requires jobs { jobs ≡ length cells.now }
    ensures count { IfOk result (λ r. length r.prepared.items ≡ count) }
    ensures ready { IfOk result (λ r. All (λ s. IsReady cells.now s.report s.notes) r.prepared.items) }
    ensures places { IfOk result (λ r. (i : ℕ) (d : PreparedLane T) → i < length r.prepared.items → (slice_index_or r.prepared.items i d).report.lane ≡ i) }
    ensures lanes { IfOk result (λ r. (r.lanes.items ≡ []) × (count ≤ vec_capacity r.lanes)) }
    ensures fresh { IfOk result (λ r. (r.raced.bays.items ≡ []) × (r.raced.reports.items ≡ [])) }
    ensures notes { IfOk result (λ r. AreNotesOf cells.now r.raced.notes) }
    ensures room { IfOk result (λ r. (count ≤ vec_capacity r.raced.bays) × (count ≤ vec_capacity r.raced.reports)) }
{
    let prepared = prepare_lanes(alloc, cells, jobs, count)?;
    let reports = Vec::with_capacity(alloc, count as usize)?;
    let notes = cells.notes(alloc)?;
    let (lanes, bays) = fresh_rows(alloc, count as usize)?;
    Ok(Room {
        prepared,
        lanes,
        raced: Raced {
            bays,
            reports,
            notes,
        },
    })
}

// Gives each prepared lane the bay at its place. There is room for the lanes.
fn give_bays<'p, L, T: Drop>(
    prepared: Vec<PreparedLane<T>>,
    bays: Vec<L>,
    lanes: &mut Vec<Lane<'p, L, T>>,
    allowance: &mut Allowance<'p>,
)
    requires fresh { lanes.old.items ≡ [] }
    requires same { length prepared.items ≡ length bays.items }
    requires room { length prepared.items ≤ vec_capacity lanes.old }
    ensures bays { map (λ l. l.bay.bay) lanes.new.items ≡ bays.items }
    ensures pools { map (λ l. l.bay.pool) lanes.new.items ≡ map (λ _. allowance.old) prepared.items }
    ensures away { map (λ l. l.bay.holds) lanes.new.items ≡ map (λ _. false) prepared.items }
    ensures none { map (λ l. l.bay.stands) lanes.new.items ≡ map (λ _. false) prepared.items }
    ensures allowance { allowance.new ≡ allowance.old }
    ensures reports { map (λ l. l.report) lanes.new.items ≡ map (λ s. s.report) prepared.items }
    ensures notes { map (λ l. l.notes) lanes.new.items ≡ map (λ s. s.notes) prepared.items }
{
    let mut left = bays.into_iter();
    for lane in prepared {
        let Some(bay) = left.next() else {
            unreachable!();
        };
        let PreparedLane { report, notes } = lane;
        let bay = allowance.berth(bay);
        lanes.push_reserved(Lane { bay, report, notes });
    }
    left.destroy_empty();
}

/// A lane that can run for each bay, under an allowance where there is one, and all memory that their race takes before its first child.
/// Where memory runs out, the bays come back.
pub fn fresh_lanes<'p, L, T: Settled + Drop>(
    alloc: Global,
    cells: &Cells<T>,
    jobs: u32,
    bays: Vec<L>,
    allowance: &mut Allowance<'p>,
) -> Result<FreshLanes<'p, L, T>, Vec<L>>
    requires jobs { jobs ≡ length cells.now }
    requires few { length bays.items < 2 ^ 32 }
    ensures given_back { IfErr result (λ given. given.items ≡ bays.items) }
    ensures ready { IfOk result (λ f. AreReady cells.now f) }
    ensures bays { IfOk result (λ f. bays_of f ≡ bays.items) }
    ensures pool { IfOk result (λ f. pool_of f ≡ allowance.old) }
    ensures allowance { allowance.new ≡ allowance.old }
{
    let Ok(room) = fresh_room(alloc, cells, jobs, bays.len() as u32) else {
        return Err(bays);
    };
    let Room {
        prepared,
        mut lanes,
        raced,
    } = room;
    let pool = allowance.pool();
    give_bays(prepared, bays, &mut lanes, allowance);
    Ok(FreshLanes { lanes, raced, pool })
}

/// The bays of lanes that aren't run after all, as they were.
pub fn spare_lanes<L, T: Drop>(fresh: FreshLanes<'_, L, T>) -> Vec<L>
    requires { (cells : List ℕ) × AreReady cells fresh }
    ensures { result.items ≡ bays_of fresh.entry }
{
    let FreshLanes {
        lanes,
        mut raced,
        pool: _,
    } = fresh;
    gather(lanes, &mut raced);
    let Raced {
        bays,
        reports: _,
        notes: _,
    } = raced;
    bays
}
