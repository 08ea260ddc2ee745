// What answers a job.

ghost use Rattle.std.specs.Prelude.{◌≡◌, ◌≤◌, ℕ, List, Err, OnOk};
ghost use Rattle.sby_edge.specs.Cause.{Rose};
ghost use Rattle.sby_edge.specs.declared.outside.Fail.TheVariants as fail;
ghost use Rattle.net_link.specs.Frame.{CanAsk};
ghost use Rattle.net_answer.specs.Written.{Wrote};

use sby_edge::{Fail, Sink};
use std::alloc::Global;

/// What answers a job with a stream.
pub trait Answers {
    /// The streams that may answer a job's bytes within a budget of conflicts.
    ghost may_answer: { Self → ℕ → List ℕ → List ℕ → Type 0 };

    /// Writes a stream that answers the job's bytes within this budget of conflicts, whole; where it fails, a part may be written. The
    /// job is taken, so that its memory can be given back before the search.
    fn answer<S: Sink>(
        &self,
        alloc: Global,
        job: Vec<u8>,
        budget: u64,
        sink: &mut S,
    ) -> Result<(), Fail>
        requires { CanAsk budget job.items }
        ensures whole { OnOk result (Wrote (S.taken sink.old) (S.taken sink.new) (may_answer self.now budget job.items)) }
        ensures failed { result ≡ Err fail.Failed → Rose (S.faults sink.old) (S.faults sink.new) }
        ensures later { S.faults sink.old ≤ S.faults sink.new };
}
