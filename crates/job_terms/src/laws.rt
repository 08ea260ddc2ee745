//! A law of the definitions: the function's contract is the law, and its body is empty.

ghost use Rattle.sby_terms.specs.declared.names.JobName.{JobName};
ghost use Rattle.sby_terms.specs.declared.span.Span.{Span};
ghost use Rattle.model_core.specs.Shape.{ModelOf};
ghost use Rattle.job_terms.specs.Jobs.{AsksNothing, Solvable};

/// Over no statement a job can't be solved.
pub fn what_asks_nothing_cant_be_solved()
    ensures { (m : ModelOf) (job : JobName) (span : Span) → AsksNothing m job → Solvable m job span → ⊥ }
{}
