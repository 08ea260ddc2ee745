// What is claimed of a call of the program, one claim each. Each law stands on what `run_sby` ensures, and its body is empty.

ghost use Rattle.std.specs.Prelude.{◌≡◌, ◌≢◌, ◌⊎◌, ℕ, Contains, List, None, Some};
ghost use Rattle.design_core.specs.Shape.{DesignOf};
ghost use Rattle.design_meaning.specs.Claims.{NeverBreak, NoBreak};
ghost use Rattle.sby_terms.specs.declared.names.Mode.TheVariants.{Bmc, Cover};
ghost use Rattle.judge.specs.Finding.{FindingOf, IsTrueFinding};
ghost use Rattle.race_core.specs.Collect.{CarriedIn};
ghost use Rattle.race_core.specs.Report.{ReportOf};
ghost use Rattle.sby_terms.specs.declared.names.Status.{Status};
ghost use Rattle.sby_terms.specs.declared.names.Status.TheVariants.{Fail, Memory, Pass};
ghost use Rattle.sby_top.specs.Claims.{AreShownReaches, HasTold, IsDesignOf, IsNamedUnreached, IsShownBreak, IsStored, IsTaskOf};
ghost use Rattle.sby_top.specs.Headline.{AreLines, Exit, HasOwnStatus, IsPrinted};
ghost use Rattle.sby_top.specs.Promise.{EachEndHasTurn, FailOfBmc, FailOfCover, FailOfProve, IsProve, LastLine, NamesItsEvent, OfTasks, PassOfBmc, PassOfCover, PassOfProve, Promises, ZeroIsExpected};
ghost use Rattle.sby_words.specs.Requests.{Request};
ghost use Rattle.sby_words.specs.Words.{Asks};
ghost use Rattle.sby_top.specs.Run.{Did, IsNothing, UsageAlone};
ghost use Rattle.sby_top.specs.Task.{TaskOf, problem_of};
ghost use Rattle.sby_top.specs.World.{Moments, World};
ghost use Rattle.sby_top.specs.declared.outcome.Done.{Done};
ghost use Rattle.sby_top.specs.declared.outcome.TaskEnd.{TaskEnd};

use sby_edge::Clock;

/// Each end of a call is that of the turn at its place, of a task that the words ask or of a fault that is told: it ran when the turns
/// before it had run.
pub fn each_end_is_of_a_task<C: Clock>(clock: &C)
    ensures { (before after : World) (words : List (List ℕ)) (done : Done) → Did (C.may_read clock.now) before after words done → EachEndHasTurn (C.may_read clock.now) before after words done }
{}

/// PASS of bmc: the design's text reads a flat design of which no run of more cycles than are skipped breaks an assertion within the depth.
pub fn pass_of_bmc_is_true<C: Clock>(clock: &C)
    ensures { (before after : World) (words : List (List ℕ)) (done : Done) → OfTasks (C.may_read clock.now) before after words done PassOfBmc }
{}

/// PASS of prove, by induction or by an invariant: the design's text reads a flat design of which no run breaks an assertion, whatever its length.
pub fn pass_of_prove_is_true<C: Clock>(clock: &C)
    ensures { (before after : World) (words : List (List ℕ)) (done : Done) → OfTasks (C.may_read clock.now) before after words done PassOfProve }
{}

/// FAIL of bmc shows a run, all of its cycles assumed, whose last breaks an assertion. The lines name that assertion and show that run, and
/// the sink has them, or a part of them where a call of it failed.
pub fn fail_of_bmc_shows_its_run<C: Clock>(clock: &C)
    ensures { (before after : World) (words : List (List ℕ)) (done : Done) → OfTasks (C.may_read clock.now) before after words done FailOfBmc }
{}

/// FAIL of prove shows a run, as FAIL of bmc does.
pub fn fail_of_prove_shows_its_run<C: Clock>(clock: &C)
    ensures { (before after : World) (words : List (List ℕ)) (done : Done) → OfTasks (C.may_read clock.now) before after words done FailOfProve }
{}

/// PASS of cover shows for each cover statement a run that reaches it.
pub fn pass_of_cover_shows_its_runs<C: Clock>(clock: &C)
    ensures { (before after : World) (words : List (List ℕ)) (done : Done) → OfTasks (C.may_read clock.now) before after words done PassOfCover }
{}

/// FAIL of cover names a statement that no run of at most the depth's cycles reaches.
pub fn fail_of_cover_names_a_statement<C: Clock>(clock: &C)
    ensures { (before after : World) (words : List (List ℕ)) (done : Done) → OfTasks (C.may_read clock.now) before after words done FailOfCover }
{}

/// What the last line says is the task's status: where a sink that tells took it of a task, no call of it failed, and memory did not run out.
pub fn last_line_is_the_status<C: Clock>(clock: &C)
    ensures { (before after : World) (words : List (List ℕ)) (done : Done) → OfTasks (C.may_read clock.now) before after words done LastLine }
{}

/// So whoever reads the output of a call that did what its words ask is promised all of this.
pub fn output_can_be_read<C: Clock>(clock: &C)
    ensures { (before after : World) (words : List (List ℕ)) (done : Done) → Did (C.may_read clock.now) before after words done → Promises (C.may_read clock.now) before after words done }
{}

/// So a printed PASS or FAIL is true of the text that the end keeps: a sink that took `DONE (PASS, rc=..)` or `DONE (FAIL, rc=..)` as the last
/// line of a task, without a fault and with memory left, took it of a design of which the claim of its mode is true.
pub fn printed_verdicts_are_true<C: Clock>(clock: &C)
    ensures pass_of_bmc { (before after : World) (m : Moments) (words : List (List ℕ)) (done : Done) (task : TaskOf) (end : TaskEnd) (rc : ℕ) → IsTaskOf (C.may_read clock.now) before after words done m task end → end.status ≢ Memory
        → HasTold m task.request.name Pass rc → task.request.mode ≡ Bmc → (d : DesignOf) × IsDesignOf m task end d × NoBreak d task.request.span.skip task.request.span.depth }
    ensures pass_of_prove { (before after : World) (m : Moments) (words : List (List ℕ)) (done : Done) (task : TaskOf) (end : TaskEnd) (rc : ℕ) → IsTaskOf (C.may_read clock.now) before after words done m task end → end.status ≢ Memory
        → HasTold m task.request.name Pass rc → IsProve task.request.mode → (d : DesignOf) × IsDesignOf m task end d × NeverBreak d }
    ensures pass_of_cover { (before after : World) (m : Moments) (words : List (List ℕ)) (done : Done) (task : TaskOf) (end : TaskEnd) (rc : ℕ) → IsTaskOf (C.may_read clock.now) before after words done m task end → end.status ≢ Memory
        → HasTold m task.request.name Pass rc → task.request.mode ≡ Cover → AreShownReaches m task end }
    ensures fail_of_bmc { (before after : World) (m : Moments) (words : List (List ℕ)) (done : Done) (task : TaskOf) (end : TaskEnd) (rc : ℕ) → IsTaskOf (C.may_read clock.now) before after words done m task end → end.status ≢ Memory
        → HasTold m task.request.name Fail rc → task.request.mode ≡ Bmc → IsShownBreak m task end }
    ensures fail_of_prove { (before after : World) (m : Moments) (words : List (List ℕ)) (done : Done) (task : TaskOf) (end : TaskEnd) (rc : ℕ) → IsTaskOf (C.may_read clock.now) before after words done m task end → end.status ≢ Memory
        → HasTold m task.request.name Fail rc → IsProve task.request.mode → IsShownBreak m task end }
    ensures fail_of_cover { (before after : World) (m : Moments) (words : List (List ℕ)) (done : Done) (task : TaskOf) (end : TaskEnd) (rc : ℕ) → IsTaskOf (C.may_read clock.now) before after words done m task end → end.status ≢ Memory
        → HasTold m task.request.name Fail rc → task.request.mode ≡ Cover → IsNamedUnreached m task end }
{}

/// The findings that a task's reports carry are true, and are of the text that its end keeps.
pub fn findings_are_of_the_text<C: Clock>(clock: &C)
    ensures { (before after : World) (m : Moments) (words : List (List ℕ)) (done : Done) (task : TaskOf) (end : TaskEnd) (r : ReportOf FindingOf) (f : FindingOf) → IsTaskOf (C.may_read clock.now) before after words done m task end
        → Contains end.reports.items r → CarriedIn r.ends f → IsTrueFinding f × (f.problem ≡ problem_of task end.text) }
{}

/// Exit status 0 means that all that was asked for ended as expected: there is an end for each turn, each turn is a task that was run, and
/// its status is one that the task expects; or the names of a file's tasks were asked for.
pub fn exit_status_0_is_as_expected<C: Clock>(clock: &C)
    ensures { (before after : World) (words : List (List ℕ)) (done : Done) → Did (C.may_read clock.now) before after words done → ZeroIsExpected (C.may_read clock.now) before after words done }
{}

/// Each other status names its event. UNKNOWN: each end of a job without an answer is Unknown or NotServed, and has its cause. TIMEOUT: such
/// an end was stopped by a reading of the clock that shows the limit. ERROR: a fault before the lanes, by its kind and place; or such an end
/// is that of a stream which is no certificate, or of a call for a child that failed. MEMORY needs no cause.
pub fn each_status_names_its_event<C: Clock>(clock: &C)
    ensures { (before after : World) (words : List (List ℕ)) (done : Done) → NamesItsEvent (C.may_read clock.now) before after words done }
{}

/// Files change by nothing but the files of the first jobs of the accepted design, and after them its trace files.
pub fn files_change_by_job_and_trace_files<C: Clock>(clock: &C)
    ensures { (before after : World) (m : Moments) (words : List (List ℕ)) (done : Done) (task : TaskOf) (end : TaskEnd) → IsTaskOf (C.may_read clock.now) before after words done m task end → IsStored task m }
{}

/// The sink grows by the task's lines: whole; or, where memory ran out, by the first of them; or, where a call of it failed, by a part of
/// their bytes.
pub fn sink_grows_by_lines<C: Clock>(clock: &C)
    ensures { (before after : World) (m : Moments) (words : List (List ℕ)) (done : Done) (task : TaskOf) (end : TaskEnd) → IsTaskOf (C.may_read clock.now) before after words done m task end
        → (exit : Exit) × IsPrinted task.request.name m.before.taken m.after.taken m.before.sink_faults m.after.sink_faults m.after.ended (AreLines task end) task.request.expect (HasOwnStatus task end) end.status exit }
{}

/// Refused words give the usage line alone, exit status 16 and no change of files; or memory ran out, and nothing was done.
pub fn refused_words_give_the_usage_line<C: Clock>(clock: &C)
    ensures { (before after : World) (words : List (List ℕ)) (done : Done) → Did (C.may_read clock.now) before after words done → ((request : Request) → Asks words request → ⊥) → UsageAlone before after done ⊎ IsNothing before after done }
{}
