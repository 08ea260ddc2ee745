// Jobs that a lane's engine doesn't serve.

ghost use Rattle.std.specs.Prelude.{◌≡◌, ◌≢◌, ◌+◌, ◌<◌, ◌≤◌, [], IfSome, length};
ghost use Rattle.race_cells.specs.Notes.{AreNotesOf};
ghost use Rattle.race_core.specs.Asking.{terms_of};
ghost use Rattle.race_core.specs.Ends.{UnservedEndIs};
ghost use Rattle.race_core.specs.Parts.{RightKeeper, keeper_from, place_from};
ghost use Rattle.race_core.specs.declared.part.Keeper.TheVariants as keeper;
ghost use Rattle.race_core.specs.declared.part.Place.TheVariants.{Away};
ghost use Rattle.race_core.specs.declared.part.Reader.TheVariants as reader;
ghost use Rattle.lane_run.specs.Keeping.{IsOfCell, Keeps};
ghost use Rattle.lane_run.specs.Starting.{NoStart};
ghost use Rattle.lane_run.specs.Done.{KnownIn};

use crate::known::known_skipping;
use crate::{ForJob, Watch, look_first, want};
use race_cells::Notes;
use race_core::{EventList, JobEnd, Report};
use sby_edge::Clock;
use sby_terms::Settled;

// The end of a job that isn't served: it is skipped, by a look or by what the lane knows already, or it isn't served.
pub(crate) fn pass_job<J: ForJob<T>, T: Settled + Drop, C: Clock>(
    watch: &Watch<'_, J, T, C>,
    report: &Report<T>,
    notes: &mut Notes<T>,
    events: &mut EventList<T>,
) -> JobEnd<T>
    requires cell { watch.now.terms.now.cell < length watch.now.cells.now }
    requires other { IfSome watch.now.other (λ o. o.0 < length watch.now.cells.now) }
    requires notes { AreNotesOf watch.now.cells.now notes.old }
    requires fresh { (events.old.events ≡ []) × (3 ≤ events.old.room) }
    ensures end { UnservedEndIs (terms_of T.job T.answer watch.now.terms.now) (KnownIn report.now) reader.Fresh (keeper_from (terms_of T.job T.answer watch.now.terms.now) keeper.Fresh events.new.events) result }
    ensures no_start { NoStart result }
    ensures looked { keeper_from (terms_of T.job T.answer watch.now.terms.now) keeper.Fresh events.new.events ≢ keeper.Fresh }
    ensures right { RightKeeper (keeper_from (terms_of T.job T.answer watch.now.terms.now) keeper.Fresh events.new.events) }
    ensures place { place_from Away events.new.events ≡ Away }
    ensures keeps { Keeps (IsOfCell T.problem T.job (J.problem watch.now.problem.now) watch.now.terms.now watch.now.other) (C.may_read watch.now.clock.now) notes.old notes.new [] events.new.events }
{
    if let Some(end) = look_first(watch, notes, events) {
        return end;
    }
    let Some(value) = known_skipping(report, watch.terms) else {
        return JobEnd::NotServed;
    };
    match value.copy() {
        Ok(value) => JobEnd::Skipped(value),
        Err(_) => want(watch, notes, events),
    }
}
