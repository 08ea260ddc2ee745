// What holds of every race, in whatever order its steps come.

ghost use Rattle.race_core.specs.Carrying.{Carries};
ghost use Rattle.std.specs.Prelude.{◌≡◌, ◌<◌, ℕ, List, Option};
ghost use Rattle.sby_terms.specs.declared.names.Status.{Status};
ghost use Rattle.race_core.specs.declared.end.JobEnd.{JobEnd};
ghost use Rattle.race_law.specs.World.{Script, Serves, World, Step};
ghost use Rattle.race_law.specs.Theorem.{TaskOf, IsFor, Ran, Undisturbed, Agree, WasFound, RaceStatus, PlainStatus, race_of};
ghost use Rattle.race_core.specs.Report.{ReportOf};
ghost use Rattle.race_core.specs.Consistent.{Consistent, AreOf};
ghost use Rattle.sby_terms.specs.Problem.{ProblemOf};
ghost use Rattle.sby_terms.specs.declared.names.Mode.{Mode};
ghost use Rattle.sby_terms.specs.declared.names.Answer.{Answer};
ghost use Rattle.race_core.specs.Collect.{AreTrue, IsOutcome, SameMembers};

use sby_terms::Settled;

/// A law: for every list of steps, the reports are consistent (their events replay to their ends, and what lanes know of one cell is
/// equal), every finding that an end carries was found by some lane and is for a job of the task, what is collected has the race's
/// status, and, without a failed call, a reading that shows the limit or out of memory, that is the status of the scripts themselves.
pub fn any_order<T: Settled>()
    ensures consistent { (task : TaskOf) (script : ℕ → ℕ → Option (Script T)) (w v : World T) (ss : List (Step T)) (ends : ℕ → ℕ → JobEnd T)
        → Ran T.problem T.job T.answer T.is_true task script w ss v ends
        → (reports : List (ReportOf T)) → AreOf v.events ends task.lanes task.jobs reports
        → Consistent (IsFor T.problem T.job T.is_true task) (Serves script) (race_of T.job T.answer task script).terms task.lanes task.jobs reports }
    ensures agree { (task : TaskOf) (script : ℕ → ℕ → Option (Script T)) (w v : World T) (ss : List (Step T)) (ends : ℕ → ℕ → JobEnd T)
        → Ran T.problem T.job T.answer T.is_true task script w ss v ends → Agree v }
    ensures found { (task : TaskOf) (script : ℕ → ℕ → Option (Script T)) (w v : World T) (ss : List (Step T)) (ends : ℕ → ℕ → JobEnd T)
        → Ran T.problem T.job T.answer T.is_true task script w ss v ends
        → (i j : ℕ) (f : T) → i < task.lanes → j < task.jobs → Carries (ends i j) f → WasFound (IsFor T.problem T.job T.is_true task) v f }
    ensures collected { (task : TaskOf) (script : ℕ → ℕ → Option (Script T)) (w v : World T) (ss : List (Step T)) (ends : ℕ → ℕ → JobEnd T)
        → Ran T.problem T.job T.answer T.is_true task script w ss v ends
        → (reports : List (ReportOf T)) → AreOf v.events ends task.lanes task.jobs reports
        → (answers : List (Option Answer)) (printing : List (Option ℕ)) (s : Status)
        → IsOutcome T.job T.answer task.mode task.jobs reports answers printing s
        → RaceStatus T.problem T.job T.answer T.is_true task script ends s }
    ensures plain { (task : TaskOf) (script : ℕ → ℕ → Option (Script T)) (w v : World T) (ss : List (Step T)) (ends : ℕ → ℕ → JobEnd T)
        → Ran T.problem T.job T.answer T.is_true task script w ss v ends → Undisturbed T.job T.answer task script ss ends
        → (s t : Status) → RaceStatus T.problem T.job T.answer T.is_true task script ends s
        → PlainStatus T.problem T.job T.answer T.is_true task script t → s ≡ t }
{
    sby_terms::one_verdict();
}

/// A law: reports in another order have the same answers, printing lanes and status, where the findings that they carry are true
/// ones of one problem.
pub fn any_report_order<T: Settled>()
    ensures { (mode : Mode) (jobs : ℕ) (p : ProblemOf) (xs ys : List (ReportOf T)) → SameMembers xs ys → AreTrue T.problem T.is_true p xs
        → (cs bs : List (Option Answer)) (ls ms : List (Option ℕ)) (s t : Status)
        → IsOutcome T.job T.answer mode jobs xs cs ls s → IsOutcome T.job T.answer mode jobs ys bs ms t → (cs ≡ bs) × (ls ≡ ms) × (s ≡ t) }
{
    sby_terms::one_verdict();
}
