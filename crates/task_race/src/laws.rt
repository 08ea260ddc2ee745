// What follows of lanes that ran.

ghost use Rattle.std.specs.Prelude.{◌≡◌, ℕ, ◌+◌, ◌<◌, List, Option, Contains, IsSome, None, Some, length, slice_get, take};
ghost use Rattle.sby_edge.specs.Cause.{CountsOf};
ghost use Rattle.sby_edge.specs.Child.{up_to};
ghost use Rattle.sby_edge.specs.Script.{ScriptOf};
ghost use Rattle.cert_judge.specs.Fate.{Fate};
ghost use Rattle.jobs_pool.specs.Places.{PoolOf};
ghost use Rattle.judge.specs.Finding.{FindingOf};
ghost use Rattle.judge.specs.Problem.{IsJobFile};
ghost use Rattle.race_core.specs.Carrying.{Carries};
ghost use Rattle.race_core.specs.Consistent.{end_at};
ghost use Rattle.race_core.specs.Report.{ReportOf};
ghost use Rattle.race_core.specs.declared.end.JobEnd.TheVariants as end;
ghost use Rattle.task_race.specs.Fates.{most_bytes};
ghost use Rattle.task_race.specs.Serving.{IsServing};
ghost use Rattle.task_race.specs.Bays.{AreCountsOf, YardAt};
ghost use Rattle.task_race.specs.Ends.{HasEndCause, IsEndOfFate, IsFateOf, script_of};
ghost use Rattle.task_race.specs.Ran.{EachLane, LanesRan, RacingOf, WinnersFind, evidence_in, job_count, name_in};

use sby_edge::Clock;

/// Each job's end in each lane has its cause. One that tells of a failed call has it in the counts of the lane's own bay.
pub fn ends_have_causes<C: Clock>(clock: &C)
    ensures { (racing : RacingOf) (pool : Option PoolOf) (before now : YardAt) (start : Option ℕ) (reports : List (ReportOf FindingOf)) → LanesRan racing pool (C.may_read clock.now) before now start reports
        → EachLane reports (λ lane r. (counts : CountsOf) × AreCountsOf racing.task lane before now counts × ((place : ℕ) → place < job_count racing
        → HasEndCause racing (C.may_read clock.now) before.scripts counts start lane (name_in racing place) (end_at r place))) }
{}

/// A job ends by the fate of what its child leaves as evidence for the job: its stream, or, where its output leaves that to it,
/// its proof file. So it is where the lane's engine serves the job and its script is told and has no gate; unless a call failed, the job was
/// skipped, called off or stopped, or memory ran out.
pub fn streams_give_their_fates<C: Clock>(clock: &C)
    ensures { (racing : RacingOf) (pool : Option PoolOf) (before now : YardAt) (start : Option ℕ) (reports : List (ReportOf FindingOf)) → LanesRan racing pool (C.may_read clock.now) before now start reports
        → EachLane reports (λ lane r. (place : ℕ) (script : ScriptOf) (file : List ℕ) (fate : Fate) → place < job_count racing
        → IsServing (slice_get racing.engines lane) (name_in racing place) → script_of before.scripts racing.task lane (name_in racing place) ≡ Some script → script.gate ≡ None
        → IsJobFile racing.problem (name_in racing place) file → IsFateOf racing.problem (name_in racing place) (evidence_in racing lane) file (up_to script.stalls script.bytes) (take (most_bytes + 1) script.proof) fate
        → IsEndOfFate fate (end_at r place)) }
{}

/// The reports are those of lanes 0, 1 and so on, one for each engine line, and each has an end and events for each job.
pub fn each_lane_reports<C: Clock>(clock: &C)
    ensures count { (racing : RacingOf) (pool : Option PoolOf) (before now : YardAt) (start : Option ℕ) (reports : List (ReportOf FindingOf)) → LanesRan racing pool (C.may_read clock.now) before now start reports
        → length reports ≡ length racing.engines }
    ensures each { (racing : RacingOf) (pool : Option PoolOf) (before now : YardAt) (start : Option ℕ) (reports : List (ReportOf FindingOf)) → LanesRan racing pool (C.may_read clock.now) before now start reports
        → EachLane reports (λ lane r. (r.lane ≡ lane) × (length r.ends ≡ job_count racing) × (length r.events ≡ job_count racing)) }
{}

/// A lane is stopped under a limit alone.
pub fn lanes_stop_under_a_limit<C: Clock>(clock: &C)
    ensures { (racing : RacingOf) (pool : Option PoolOf) (before now : YardAt) (start : Option ℕ) (reports : List (ReportOf FindingOf)) → LanesRan racing pool (C.may_read clock.now) before now start reports
        → (r : ReportOf FindingOf) (place t : ℕ) → Contains reports r → end_at r place ≡ end.Stopped t → IsSome start × IsSome racing.limit }
{}

/// A lane that says that it won a job's cell carries a finding for the job.
pub fn winners_carry_findings<C: Clock>(clock: &C)
    ensures { (racing : RacingOf) (pool : Option PoolOf) (before now : YardAt) (start : Option ℕ) (reports : List (ReportOf FindingOf)) → LanesRan racing pool (C.may_read clock.now) before now start reports
        → WinnersFind racing reports }
{}
