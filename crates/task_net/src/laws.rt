//! Laws of the definitions: each function's contract is a law, and its body is empty.

ghost use Rattle.std.specs.Prelude.{◌≡◌, ◌^◌, ◌≤◌};
ghost use Rattle.model_core.specs.Served.{IsModel};
ghost use Rattle.model_core.specs.Shape.{ModelOf};
ghost use Rattle.job_terms.specs.Jobs.{IsJob};
ghost use Rattle.net_jobs.specs.Jobs.{job_made};
ghost use Rattle.sby_terms.specs.declared.names.JobName.{JobName};
ghost use Rattle.sby_terms.specs.declared.span.Span.{Span};
ghost use Rattle.task_net.specs.Asking.{asked_of};
ghost use Rattle.task_net.specs.Net.{IsEncodedJob, IsTaskNet, TaskNetOf, task_encoded};

/// A job of a task's net has what is promised of an encoded job of the model.
pub fn jobs_of_tasks_are_encoded()
    ensures { (m : ModelOf) (t : TaskNetOf) (job : JobName) (span : Span) → IsModel m → IsTaskNet m (asked_of job) t → IsJob m job span
        → job_made t.net job span ≤ 2 ^ 27 → IsEncodedJob m job span (task_encoded t job span) }
{}
