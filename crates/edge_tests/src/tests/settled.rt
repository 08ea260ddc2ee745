// A settled job, as tests have it.

use sby_terms::{Answer, JobName, Settled};
use std::alloc::AllocError;

/// A job whose answer is always Sat, with the number of who gave it.
#[derive(Drop)]
pub struct Given {
    pub job: JobName,
    pub by: u32,
}

impl Settled for Given {
    ghost use Rattle.std.specs.Prelude.{[], refl};
    ghost use Rattle.sby_terms.specs.Span.{whole};
    ghost use Rattle.sby_terms.specs.declared.names.Mode.TheVariants.{Bmc};
    ghost use Rattle.sby_terms.specs.declared.names.Answer.TheVariants.{Sat};

    ghost problem = { λ _. record { text = []; mode = Bmc; span = whole 1 } };

    ghost job = { λ g. g.job };

    ghost answer = { λ _. Sat };

    ghost is_true = { λ _. Unit {0} };

    ghost one_answer = { λ a b _ _ _ _. refl };

    fn job(&self) -> JobName {
        self.job
    }

    fn answer(&self) -> Answer {
        Answer::Sat
    }

    fn copy(&self) -> Result<Self, AllocError> {
        Ok(Given {
            job: self.job,
            by: self.by,
        })
    }
}
