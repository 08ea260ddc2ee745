// Designs that several problems share.

ghost use Rattle.std.specs.Prelude.{◌≡◌, ◌≢◌, ◌≤◌, IfOk, IfSome, MatchResult};
ghost use Rattle.judge.specs.Fault.{IsProblemFault};
ghost use Rattle.judge.specs.Problem.{IsProblem};
ghost use Rattle.sby_terms.specs.Span.{IsSpan, whole};

use crate::basis::Basis;
use crate::encoding::asked_in;
use crate::problem::{Problem, ProblemFault};
use model_cone::asked::Asked;
use sby_terms::{Mode, Span};
use std::alloc::{AllocError, Global};
use std::sync::Arc;

/// The designs of the problems that were made here, with their models and nets: a problem of the same text that asks of the same
/// statements shares them.
#[derive(Drop)]
pub struct Designs {
    bases: Vec<Arc<Basis, Global>>,
}

impl Designs {
    /// None yet.
    pub fn new(alloc: Global) -> Designs {
        Designs {
            bases: Vec::new(alloc),
        }
    }

    // What was made of this text for what is asked.
    fn find(&self, text: &[u8], asked: Asked) -> Option<&Arc<Basis, Global>>
        ensures { IfSome result (λ b. (b.now.value.text ≡ text.now) × (b.now.value.asked ≡ asked)) }
    {
        for basis in &self.bases {
            if basis.asked() == asked && basis.text().as_slice() == text {
                return Some(basis);
            }
        }
        None
    }

    /// The problem of a design's text, as `Problem::new` makes it; it shares design, model and net with those that were made here before.
    pub fn problem(
        &mut self,
        alloc: Global,
        text: Vec<u8>,
        mode: Mode,
        span: Span,
    ) -> Result<Result<Problem, ProblemFault>, AllocError>
        requires span { IsSpan span }
        requires most { span.depth ≤ 100000 }
        requires mode { mode ≢ Mode.Bmc → span ≡ whole span.depth }
        ensures problem { IfOk result (λ r. MatchResult r
            (λ p. (p.problem ≡ record { text = text.items; mode = mode; span = span }) × IsProblem p)
            (IsProblemFault (record { text = text.items; mode = mode; span = span }))) }
    {
        if let Some(basis) = self.find(text.as_slice(), asked_in(mode)) {
            let basis = Arc::try_clone(basis)?;
            return Problem::over(alloc, basis, mode, span);
        }
        let made = Problem::new(alloc, text, mode, span)?;
        if let Ok(problem) = &made {
            let basis = problem.share_basis()?;
            self.bases.push(basis)?;
        }
        Ok(made)
    }
}
