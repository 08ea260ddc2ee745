// What a lane needs of the factory of its children and their judges.

ghost use Rattle.std.specs.Prelude.{◌≡◌, ◌≢◌, ◌≤◌, ℕ, List, [], ◌++◌, IfOk, MatchBool, map, string_bytes};
ghost use Rattle.lane_run.specs.Judging.{Within};
ghost use Rattle.race_core.specs.declared.event.Judged.{Judged};
ghost use Rattle.race_core.specs.declared.event.Judged.TheVariants.{More};
ghost use Rattle.sby_terms.specs.declared.names.JobName.{JobName};

use crate::child_judge::{ChildJudge, ForJob};
use sby_edge::JobFile;
use sby_terms::{JobName, Settled};
use std::alloc::{AllocError, Global};

/// What the start of a child takes, and who judges its output.
#[derive(Drop)]
pub struct Child<S> {
    pub judge: S,
    /// The words of the child. One on this machine finds the path of the job's file among them.
    pub words: Vec<String>,
    /// The path at which the child may leave a proof file.
    pub proof: String,
}

/// Makes the children of a task's lanes, and their judges. Lanes are counted from 0.
pub trait LaneFactory<T: Settled>: ForJob<T> {
    type ChildJudge: ChildJudge<T> + Send + Drop;

    type File: JobFile + Send + Drop;

    /// The lane's engine serves the job.
    ghost is_served: { Self → ℕ → JobName → Type 0 };

    /// The words of the child.
    ghost words: { Self → ℕ → JobName → List (List ℕ) };

    /// The path at which the child may leave a proof file.
    ghost proof: { Self → ℕ → JobName → List ℕ };

    /// The bytes of the job's file.
    ghost file: { Self → JobName → List ℕ };

    /// What an output that begins with these bytes is judged as, these bytes as the whole output, and these as the whole proof file.
    ghost stands: { Self → ℕ → JobName → List ℕ → Judged T → Type 0 };

    ghost ends: { Self → ℕ → JobName → List ℕ → Judged T → Type 0 };

    ghost proves: { Self → ℕ → JobName → List ℕ → Judged T → Type 0 };

    /// The most bytes of a proof file that are judged.
    ghost most: { Self → ℕ };

    /// The most bytes of a lane's output after which nothing is decided.
    ghost most_output: { Self → ℕ → ℕ };

    fn serves(&self, lane: u32, job: JobName) -> bool
        ensures { MatchBool result (is_served self.now lane job) (is_served self.now lane job → ⊥) };

    /// A fresh judge of the job, and what the start of its child takes.
    fn make(
        &self,
        alloc: Global,
        lane: u32,
        job: JobName,
    ) -> Result<Child<Self::ChildJudge>, AllocError>
        requires { is_served self.now lane job }
        ensures about { IfOk result (λ c. (Self.ChildJudge.problem c.judge ≡ Self.problem self.now) × (Self.ChildJudge.job c.judge ≡ job)) }
        ensures fresh { IfOk result (λ c. (Self.ChildJudge.taken c.judge ≡ []) × Self.ChildJudge.goes_on c.judge) }
        ensures most { IfOk result (λ c. Self.ChildJudge.most c.judge ≤ most_output self.now lane) }
        ensures words { IfOk result (λ c. map string_bytes c.words.items ≡ words self.now lane job) }
        ensures proof { IfOk result (λ c. string_bytes c.proof ≡ proof self.now lane job) }
        ensures judges { IfOk result (λ c. Within (Self.ChildJudge.stands c.judge) (stands self.now lane job) × Within (Self.ChildJudge.ends c.judge) (ends self.now lane job)
            × Within (Self.ChildJudge.proves c.judge) (proves self.now lane job)) };

    /// The file of a job that the lane serves.
    fn file(&self, lane: u32, job: JobName) -> Self::File
        requires { is_served self.now lane job }
        ensures { Self.File.bytes result ≡ file self.now job };

    fn most(&self) -> u64
        ensures { result ≡ most self.now };

    // What stands, stays, also where the output ends there.
    ghost stays: { (m : Self) (lane : ℕ) (job : JobName) (bytes more : List ℕ) (p : Judged T) → p ≢ More → stands m lane job bytes p → ends m lane job (bytes ++ more) p };
}
