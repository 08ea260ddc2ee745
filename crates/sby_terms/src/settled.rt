// What the race knows of a finding.

ghost use Rattle.std.specs.Prelude.{◌≡◌, IfOk};

use crate::{Answer, JobName};
use std::alloc::AllocError;

/// A value that answers one job of one problem, and is true of it.
pub trait Settled {
    ghost use Rattle.sby_terms.specs.Problem.{ProblemOf};
    ghost use Rattle.sby_terms.specs.declared.names.JobName.{JobName};
    ghost use Rattle.sby_terms.specs.declared.names.Answer.{Answer};

    ghost problem: { Self → ProblemOf };

    ghost job: { Self → JobName };

    ghost answer: { Self → Answer };

    /// What keeps the value true. Whoever is handed something out of it learns it.
    ghost is_true: { Self → Type 0 };

    fn job(&self) -> JobName
        ensures job { result ≡ job self.now }
        ensures is_true { is_true self.now };

    fn answer(&self) -> Answer
        ensures answer { result ≡ answer self.now }
        ensures is_true { is_true self.now };

    /// An equal value, or out of memory.
    fn copy(&self) -> Result<Self, AllocError>
        ensures equal { IfOk result (λ copied. copied ≡ self.now) }
        ensures is_true { is_true self.now };

    // True values of one problem and job have one answer.
    ghost one_answer: { (a b : Self) → is_true a → is_true b → problem a ≡ problem b → job a ≡ job b → answer a ≡ answer b };
}
