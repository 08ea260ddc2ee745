// Laws of certificates, stored and of children, and of completeness. Each stands over the definitions, and its body is empty but for the laws of
// the judge that it cites.

ghost use Rattle.std.specs.Prelude.{◌≡◌, ◌≢◌, ◌⊎◌, ◌↔◌, ◌+◌, ◌<◌, ◌≤◌, [], ◌∷◌, ◌++◌, ℕ, true, Contains, List, IsSome, None, Option, length, map, slice_get, take, Some};
ghost use Rattle.cert_judge.specs.KindCert.{HoldsCert};
ghost use Rattle.cert_judge.specs.Fate.{Fate, Found};
ghost use Rattle.cert_judge.specs.declared.stream.Kind.{Kind};
ghost use Rattle.cert_judge.specs.declared.stream.Kind.TheVariants.{Certificate};
ghost use Rattle.cert_judge.specs.declared.stream.StreamKind.{StreamKind};
ghost use Rattle.design_core.specs.Shape.{DesignOf};
ghost use Rattle.design_reader.specs.Grammar.{Reads};
ghost use Rattle.judge.specs.Fates.{IsFate};
ghost use Rattle.judge.specs.Fault.{IsProblemFault};
ghost use Rattle.judge.specs.Jobs.{jobs_in};
ghost use Rattle.judge.specs.Problem.{AskedOf, IsJobFile};
ghost use Rattle.race_core.specs.Asking.{name_at};
ghost use Rattle.judge.specs.declared.problem.ProblemFault.{ProblemFault};
ghost use Rattle.sby_edge.specs.Child.{up_to};
ghost use Rattle.sby_edge.specs.Files.{Store};
ghost use Rattle.sby_edge.specs.Script.{ScriptOf};
ghost use Rattle.task_race.specs.Serving.{IsServing, evidence_at};
ghost use Rattle.sby_terms.specs.Decide.{Decides};
ghost use Rattle.sby_terms.specs.Path.{job_path};
ghost use Rattle.sby_terms.specs.Span.{slices_of};
ghost use Rattle.sby_terms.specs.Status.{HasStatus};
ghost use Rattle.sby_terms.specs.declared.engine.Engine.{Engine};
ghost use Rattle.sby_terms.specs.declared.names.Answer.{Answer};
ghost use Rattle.sby_terms.specs.declared.names.JobName.{JobName};
ghost use Rattle.sby_terms.specs.declared.names.JobName.TheVariants.{Base};
ghost use Rattle.sby_terms.specs.declared.names.Mode.TheVariants.{Bmc};
ghost use Rattle.sby_terms.specs.declared.names.Status.{Status};
ghost use Rattle.sby_terms.specs.declared.names.Status.TheVariants.{Memory};
ghost use Rattle.sby_terms.specs.declared.names.Verdict.{Verdict};
ghost use Rattle.sby_words.specs.Kinds.{IsKindNamed};
ghost use Rattle.sby_words.specs.Requests.{JudgeRequest};
ghost use Rattle.sby_top.specs.Claims.{AreValidChildren, IsInTime, IsJobInTime, IsJudgedAt, IsTaskOf, IsVerdictInTime, status_for};
ghost use Rattle.sby_top.specs.Complete.{IsByLook, IsPlainLanesStatus, IsUndisturbed, IsVerdictStatus};
ghost use Rattle.sby_top.specs.Headline.{AreFates, AreWhole, IsSmooth, fate_answer};
ghost use Rattle.sby_top.specs.Served.{Btor, IsTextOf, TakesWitness, files_in, jobs_in as jobs_asked, most_stream};
ghost use Rattle.sby_top.specs.Task.{Lanes, Service, TaskOf, problem_of, streams_in};
ghost use Rattle.sby_top.specs.Turns.{judge_task};
ghost use Rattle.sby_top.specs.World.{Moments, World};
ghost use Rattle.sby_top.specs.declared.outcome.Done.{Done};
ghost use Rattle.sby_top.specs.declared.outcome.TaskEnd.{TaskEnd};
ghost use Rattle.task_race.specs.Ends.{IsFateOf, script_of};

use cert_judge::certificates_are_found;
use judge::{findings_tell_what_can_be_solved, one_fate, one_file, some_fate};
use sby_edge::Clock;

/// A design that is not refused is judged: over a store that tells, where no call failed and memory did not run out, and where there is a
/// job for each stream, the task reaches its lanes, and there is a store at which it was judged; of `--judge` in bmc where there is one
/// stream at most.
pub fn accepted_design_is_judged<C: Clock>(clock: &C)
    ensures bmc { (before after : World) (m : Moments) (words : List (List ℕ)) (done : Done) (j : JudgeRequest) (end : TaskEnd) (store : Store) (text : List ℕ) → (is : IsTaskOf (C.may_read clock.now) before after words done m (judge_task j) end)
        → IsSmooth m end.status → m.got.told ≡ Some store → j.mode ≡ Bmc → IsTextOf (Some store) (judge_task j).design text → ((fault : ProblemFault) → IsProblemFault (problem_of (judge_task j) text) fault → ⊥)
        → length j.streams ≤ 1 → end.early ≡ None }
    ensures every { (before after : World) (m : Moments) (words : List (List ℕ)) (done : Done) (task : TaskOf) (end : TaskEnd) (store : Store) (text : List ℕ) (d : DesignOf) → (is : IsTaskOf (C.may_read clock.now) before after words done m task end)
        → IsSmooth m end.status → m.got.told ≡ Some store → IsTextOf (Some store) task.design text → ((fault : ProblemFault) → IsProblemFault (problem_of task text) fault → ⊥)
        → Reads text d → length (streams_in task.service) ≤ length (jobs_in task.request.mode task.request.span d) → end.early ≡ None }
    ensures at { (before after : World) (m : Moments) (words : List (List ℕ)) (done : Done) (task : TaskOf) (end : TaskEnd) (store : Store) → (is : IsTaskOf (C.may_read clock.now) before after words done m task end) → m.got.told ≡ Some store → end.early ≡ None
        → (now : Store) × IsJudgedAt (C.may_read clock.now) is.place m task end now }
{}

/// The model in BTOR2 is put for the jobs for which a witness may be judged, and for no other.
pub fn models_are_put_for_witnesses()
    ensures { (service : Service) (p : AskedOf) (job : JobName) → Contains (files_in service p) (Btor job) ↔ TakesWitness service p job }
{}

/// A valid certificate gives its verdict, PASS for Unsat and FAIL for Sat: of `--judge` in bmc, where memory did not run out, and the one
/// stream, of the kind that its path names, is a certificate for this answer of the job's file, as both stand when the task is judged.
pub fn valid_certificate_gives_its_verdict<C: Clock>(clock: &C)
    ensures { (before after : World) (m : Moments) (words : List (List ℕ)) (done : Done) (j : JudgeRequest) (end : TaskEnd) (now : Store) (path stream file : List ℕ) (kind : Kind) (answer : Answer)
        → (is : IsTaskOf (C.may_read clock.now) before after words done m (judge_task j) end) → (judged : IsJudgedAt (C.may_read clock.now) is.place m (judge_task j) end now) → j.mode ≡ Bmc → end.status ≢ Memory
        → j.streams ≡ path ∷ [] → IsKindNamed path kind → now path ≡ Some stream → now (job_path j.folder 1 (Base 0)) ≡ Some file → IsFate judged.done.problem (Base 0) kind file stream most_stream (Found answer) → end.status ≡ status_for answer }
{
    one_fate();
    one_file();
}

/// Valid certificates give their verdict, in every mode: of `--judge`, where memory did not run out, and each stream is there, with its fate, as
/// one of the kind that its path names, for its job's file, as both stand when the task is judged, but witnesses for Step, which are not judged:
/// where the answers of these fates decide a verdict, the status is that verdict's.
pub fn valid_certificates_give_their_verdict<C: Clock>(clock: &C)
    ensures { (before after : World) (m : Moments) (words : List (List ℕ)) (done : Done) (j : JudgeRequest) (end : TaskEnd) (now : Store) (fates : List (Option Fate)) (verdict : Verdict)
        → (is : IsTaskOf (C.may_read clock.now) before after words done m (judge_task j) end) → (judged : IsJudgedAt (C.may_read clock.now) is.place m (judge_task j) end now) → end.status ≢ Memory
        → AreFates judged.done.problem now (jobs_asked judged.done.problem) j.streams fates → AreWhole (jobs_asked judged.done.problem) j.streams fates → Decides j.mode (map fate_answer fates) verdict → HasStatus (Some verdict) [] end.status }
{
    one_fate();
    one_file();
}

/// A stored certificate of any kind gives its verdict: of `--judge` in bmc, where memory did not run out, and the one stream, of the kind that
/// its path names, begins with a certificate of the job's file that counts within 2^32 bytes, whatever comes then, or is a proof file that
/// its end completes, as both stand when the task is judged.
pub fn stored_certificate_gives_its_verdict<C: Clock>(clock: &C)
    ensures { (before after : World) (m : Moments) (words : List (List ℕ)) (done : Done) (j : JudgeRequest) (end : TaskEnd) (now : Store) (path stream file : List ℕ) (kind : StreamKind) (answer : Answer)
        → (is : IsTaskOf (C.may_read clock.now) before after words done m (judge_task j) end) → IsJudgedAt (C.may_read clock.now) is.place m (judge_task j) end now → j.mode ≡ Bmc → end.status ≢ Memory
        → j.streams ≡ path ∷ [] → IsKindNamed path (Certificate kind) → now path ≡ Some stream → now (job_path j.folder 1 (Base 0)) ≡ Some file → HoldsCert kind file stream most_stream answer → end.status ≡ status_for answer }
{
    one_fate();
    one_file();
    certificates_are_found();
}

/// A valid certificate of a child, judged in time, gives its verdict, PASS for Unsat and FAIL for Sat: of bmc of one slice, where the script
/// of a lane's child is told and has no gate, the lane's engine serves the job, and what the child leaves is valid evidence for this answer: a
/// certificate of the job's file, as it stands when the task is judged, or a witness that plays: what it writes, up to its stall; or, where the engine's kind is such and that decides
/// nothing, its proof file. Else memory ran out; a reading of the clock showed the limit, with TIMEOUT; or a call for a child of this lane
/// failed, with ERROR.
pub fn valid_child_gives_its_verdict<C: Clock>(clock: &C)
    ensures { (before after : World) (m : Moments) (words : List (List ℕ)) (done : Done) (task : TaskOf) (end : TaskEnd) (engines : List Engine) (lane : ℕ) (script : ScriptOf) (now : Store) (file : List ℕ) (answer : Answer)
        → (is : IsTaskOf (C.may_read clock.now) before after words done m task end) → (judged : IsJudgedAt (C.may_read clock.now) is.place m task end now)
        → task.request.mode ≡ Bmc → slices_of task.request.span ≡ 1 → task.service ≡ Lanes engines → IsServing (slice_get engines lane) (Base 0)
        → script_of m.before.yard.scripts is.place lane (Base 0) ≡ Some script → script.gate ≡ None
        → now (job_path task.request.name 1 (Base 0)) ≡ Some file → IsFateOf judged.done.problem (Base 0) (evidence_at (slice_get engines lane)) file (up_to script.stalls script.bytes) (take (most_stream + 1) script.proof) (Found answer)
        → IsInTime (C.may_read clock.now) is.place lane m task end (status_for answer) }
{
    findings_tell_what_can_be_solved();
}

/// Valid certificates of children, judged in time, give their verdict, in every mode: where each of some answers has a valid certificate
/// (`IsValidChild`: its script is told and has no gate) in the lane that is named for its job, and these answers decide a verdict, the task has the verdict's status, whatever failed in other lanes.
/// Else memory ran out; a call for a child of one of these lanes failed, with ERROR or TIMEOUT; or such a lane was stopped in its job by a
/// reading that shows the limit, with TIMEOUT.
pub fn valid_children_give_their_verdict<C: Clock>(clock: &C)
    ensures { (before after : World) (m : Moments) (words : List (List ℕ)) (done : Done) (task : TaskOf) (end : TaskEnd) (engines : List Engine) (now : Store) (answers : List (Option Answer)) (lane_of : ℕ → ℕ) (verdict : Verdict)
        → (is : IsTaskOf (C.may_read clock.now) before after words done m task end) → (judged : IsJudgedAt (C.may_read clock.now) is.place m task end now) → task.service ≡ Lanes engines
        → length answers ≡ length (jobs_asked judged.done.problem)
        → AreValidChildren m.before.yard.scripts is.place lane_of engines judged.done.problem task.request.mode answers → Decides task.request.mode answers verdict
        → IsVerdictInTime (C.may_read clock.now) is.place lane_of answers m task end verdict }
{
    findings_tell_what_can_be_solved();
}

/// A valid certificate of a child settles its job, in every mode: where the script of a lane's child is told and has no gate, the lane's engine
/// serves the job, and what the child leaves is a certificate for this answer of the job's file, some report carries a finding for the job with
/// this answer. Else a call for a child of this lane failed, whatever failed in another; a reading of the clock showed the limit; the lane
/// ran out of memory; or the job was skipped or called off by a finding that decides it.
pub fn valid_child_settles_its_job<C: Clock>(clock: &C)
    ensures { (before after : World) (m : Moments) (words : List (List ℕ)) (done : Done) (task : TaskOf) (end : TaskEnd) (engines : List Engine) (lane place : ℕ) (script : ScriptOf) (now : Store) (file : List ℕ) (answer : Answer)
        → (is : IsTaskOf (C.may_read clock.now) before after words done m task end) → (judged : IsJudgedAt (C.may_read clock.now) is.place m task end now)
        → task.service ≡ Lanes engines → place < length (jobs_asked judged.done.problem) → IsServing (slice_get engines lane) (name_at task.request.mode place)
        → script_of m.before.yard.scripts is.place lane (name_at task.request.mode place) ≡ Some script → script.gate ≡ None → IsJobFile judged.done.problem (name_at task.request.mode place) file
        → IsFateOf judged.done.problem (name_at task.request.mode place) (evidence_at (slice_get engines lane)) file (up_to script.stalls script.bytes) (take (most_stream + 1) script.proof) (Found answer)
        → IsJobInTime (C.may_read clock.now) is.place lane place m task judged.done.problem engines end answer }
{}

/// There is a plain status of a task's lanes, where the yard tells its scripts, whatever these are: it can't be that no status is one.
pub fn some_plain_status<C: Clock>(clock: &C)
    ensures { (before after : World) (m : Moments) (words : List (List ℕ)) (done : Done) (task : TaskOf) (end : TaskEnd) (engines : List Engine) (now : Store)
        → (is : IsTaskOf (C.may_read clock.now) before after words done m task end) → (judged : IsJudgedAt (C.may_read clock.now) is.place m task end now) → IsSome m.before.yard.scripts
        → ((status : Status) → IsPlainLanesStatus m task judged.done.problem is.place engines status → ⊥) → ⊥ }
{
    some_fate();
    one_file();
}

/// And there is at most one, where none of the task's scripts has a gate.
pub fn one_plain_status<C: Clock>(clock: &C)
    ensures { (before after : World) (m : Moments) (words : List (List ℕ)) (done : Done) (task : TaskOf) (end : TaskEnd) (engines : List Engine) (now : Store)
        → (is : IsTaskOf (C.may_read clock.now) before after words done m task end) → (judged : IsJudgedAt (C.may_read clock.now) is.place m task end now) → IsSome m.before.yard.scripts
        → ((lane : ℕ) (job : JobName) (script : ScriptOf) → script_of m.before.yard.scripts is.place lane job ≡ Some script → script.gate ≡ None)
        → (s t : Status) → IsPlainLanesStatus m task judged.done.problem is.place engines s → IsPlainLanesStatus m task judged.done.problem is.place engines t → s ≡ t }
{
    one_fate();
}

/// Lanes that nothing disturbed give Plain's status, which depends on the scripts and the engine lines alone: always where that is a verdict; else
/// so, or some job's finding came by a look, while no lane's end of that job is Found. Nothing disturbs them where the yard tells its scripts
/// and the task's have no gates, no call for a child failed, there is no timeout or no two readings that the clock may give are the limit
/// apart, and memory did not run out.
pub fn undisturbed_lanes_give_the_plain_status<C: Clock>(clock: &C)
    ensures verdict { (before after : World) (m : Moments) (words : List (List ℕ)) (done : Done) (task : TaskOf) (end : TaskEnd) (engines : List Engine) (now : Store) (status : Status)
        → (is : IsTaskOf (C.may_read clock.now) before after words done m task end) → (judged : IsJudgedAt (C.may_read clock.now) is.place m task end now) → task.service ≡ Lanes engines
        → IsUndisturbed (C.may_read clock.now) is.place m task end → IsPlainLanesStatus m task judged.done.problem is.place engines status → IsVerdictStatus status → end.status ≡ status }
    ensures other { (before after : World) (m : Moments) (words : List (List ℕ)) (done : Done) (task : TaskOf) (end : TaskEnd) (engines : List Engine) (now : Store) (status : Status)
        → (is : IsTaskOf (C.may_read clock.now) before after words done m task end) → (judged : IsJudgedAt (C.may_read clock.now) is.place m task end now) → task.service ≡ Lanes engines
        → IsUndisturbed (C.may_read clock.now) is.place m task end → IsPlainLanesStatus m task judged.done.problem is.place engines status
        → (end.status ≡ status) ⊎ IsByLook task.request.mode end.reports.items }
{
    findings_tell_what_can_be_solved();
}
