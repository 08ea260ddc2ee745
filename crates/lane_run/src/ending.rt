// How a job that had a child ends.

ghost use Rattle.std.specs.Prelude.{◌≡◌, ◌≢◌, ◌⊎◌, IfNone, IfSome, MatchBool, true};
ghost use Rattle.lane_run.specs.Keeping.{HasKept};
ghost use Rattle.lane_run.specs.Reading.{IsFound, IsOver, IsReaders, LeavesEnd};
ghost use Rattle.lane_run.specs.Starting.{HasRun};
ghost use Rattle.race_core.specs.Ends.{EndIs, IsKilled, IsShort, Yields};
ghost use Rattle.race_core.specs.Parts.{Terms};
ghost use Rattle.race_core.specs.declared.end.JobEnd.TheVariants as end;
ghost use Rattle.race_core.specs.declared.part.Keeper.TheVariants as keeper;
ghost use Rattle.race_core.specs.declared.part.Reader.{Reader};
ghost use Rattle.race_core.specs.declared.part.Reader.TheVariants as reader;
ghost use Rattle.race_core.specs.declared.part.Reason.TheVariants as reason;

use race_core::{By, JobEnd, Keeper, Reader, Reason};

// An early end: the stream stops short of a certificate.
const EARLY: u8 = 48;

// The end by the keeper's part, where the reader leaves it to that.
fn end_by_keeper<T: Drop>(kept: Keeper<T>, is_failed: bool) -> JobEnd<T>
    requires kept { HasKept kept }
    ensures end { (a : Terms T) (part : Reader T) → IsShort part ⊎ (Yields part × IsKilled kept) → EndIs a (λ _. ⊥) part kept result }
    ensures ran { HasRun result }
    ensures other { result ≢ end.ReadFailed }
    ensures hold { result ≡ end.HoldFailed → (is_failed ≡ true) ⊎ (kept ≡ keeper.Killed reason.Fault) }
{
    match kept {
        Keeper::Killed(Reason::Limit(reading)) => JobEnd::Stopped(reading),
        Keeper::Killed(Reason::Needless(value)) => JobEnd::CalledOff(value),
        Keeper::Killed(Reason::Fault) => JobEnd::HoldFailed,
        _ if is_failed => JobEnd::HoldFailed,
        _ => JobEnd::Memory,
    }
}

fn is_killed<T>(keeper: &Keeper<T>) -> bool
    ensures { MatchBool result (IsKilled keeper.now) (IsKilled keeper.now → ⊥) }
{
    matches!(keeper, Keeper::Killed(_))
}

// The reader's end, if it has one that isn't a finding and doesn't yield to a kill.
fn plain_end<T: Drop>(part: &Reader<T>, is_killed: bool) -> Option<JobEnd<T>>
    ensures some { IfSome result (λ e. IsReaders part.now e × HasRun e × (Yields part.now → is_killed ≡ true → ⊥)) }
    ensures none { IfNone result (LeavesEnd is_killed part.now) }
{
    match part {
        Reader::Unknown { by } if !(is_killed && *by == By::Close) => Some(JobEnd::Unknown),
        Reader::Bad { no, at, by } if !(is_killed && *by == By::Close && *no == EARLY) => Some(
            JobEnd::Bad { no: *no, at: *at },
        ),
        Reader::Failed => Some(JobEnd::ReadFailed),
        _ => None,
    }
}

// The reader's finding, or the end by the keeper's part.
fn found_end<T: Drop>(part: Reader<T>, kept: Keeper<T>, is_failed: bool) -> JobEnd<T>
    requires over { IsOver part kept }
    requires kept { HasKept kept }
    requires left { IsFound part ⊎ (IsShort part ⊎ (Yields part × IsKilled kept)) }
    ensures end { (a : Terms T) → EndIs a (λ _. ⊥) part kept result }
    ensures ran { HasRun result }
    ensures other { result ≢ end.ReadFailed }
    ensures hold { result ≡ end.HoldFailed → (is_failed ≡ true) ⊎ (kept ≡ keeper.Killed reason.Fault) }
{
    match part {
        Reader::Found {
            value,
            by: _,
            won: _,
        } => JobEnd::Found(value),
        left => {
            drop(left);
            end_by_keeper(kept, is_failed)
        }
    }
}

// Returns the end of a job, by the last states of its reader and its keeper, and whether a kill or the reap failed.
pub(crate) fn job_end<T: Drop>(part: Reader<T>, kept: Keeper<T>, is_failed: bool) -> JobEnd<T>
    requires over { IsOver part kept }
    requires kept { HasKept kept }
    ensures end { (a : Terms T) → EndIs a (λ _. ⊥) part kept result }
    ensures ran { HasRun result }
    ensures read { result ≡ end.ReadFailed → part ≡ reader.Failed }
    ensures hold { result ≡ end.HoldFailed → (is_failed ≡ true) ⊎ (kept ≡ keeper.Killed reason.Fault) }
{
    let killed = is_killed(&kept);
    match plain_end(&part, killed) {
        Some(end) => end,
        None => found_end(part, kept, is_failed),
    }
}
