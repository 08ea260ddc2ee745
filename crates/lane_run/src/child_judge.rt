// What a lane needs of a judge.

ghost use Rattle.std.specs.Prelude.{◌≡◌, ◌≢◌, ◌⊎◌, ℕ, ◌≤◌, List, [], ◌++◌, Bool, IfOk, true, length};
ghost use Rattle.lane_run.specs.Judging.{Says, Within};
ghost use Rattle.race_core.specs.declared.event.Judged.{Judged};
ghost use Rattle.race_core.specs.declared.event.Judged.TheVariants.{Found, More};
ghost use Rattle.sby_terms.specs.Problem.{ProblemOf};
ghost use Rattle.sby_terms.specs.declared.names.JobName.{JobName};

use race_core::Judged;
use sby_terms::{JobName, Settled};
use std::alloc::{AllocError, Global};

/// Judges the output of one child, piece by piece, and the proof file after it where the output leaves it to that.
pub trait ChildJudge<T: Settled> {
    /// The problem and the job that are asked about.
    ghost problem: { Self → ProblemOf };

    ghost job: { Self → JobName };

    /// The output so far.
    ghost taken: { Self → List ℕ };

    /// How many bytes of output it takes and still judges nothing.
    ghost most: { Self → ℕ };

    /// Nothing stands in the output so far, and it takes more.
    ghost goes_on: { Self → Type 0 };

    /// The output ended and decided nothing: the proof file is due.
    ghost awaits: { Self → Type 0 };

    /// What was taken of the proof file.
    ghost proved: { Self → List ℕ };

    /// The proof file is being judged, and it takes more: nothing stands in what was taken of it.
    ghost proving: { Self → Type 0 };

    /// What an output that begins with these bytes is judged as, whatever follows; More where nothing stands yet.
    ghost stands: { Self → List ℕ → Judged T → Type 0 };

    /// What these bytes as the whole output are judged as; More where that is left to the proof file.
    ghost ends: { Self → List ℕ → Judged T → Type 0 };

    /// What these bytes as the whole proof file are judged as.
    ghost proves: { Self → List ℕ → Judged T → Type 0 };

    /// Takes the next piece of the output.
    fn feed(&mut self, alloc: Global, piece: &[u8]) -> Judged<T>
        requires { goes_on self.old }
        ensures about { (problem self.new ≡ problem self.old) × (job self.new ≡ job self.old) × (most self.new ≡ most self.old) }
        ensures taken { taken self.new ≡ taken self.old ++ piece.now }
        ensures says { Says (stands self.old) (taken self.new) result }
        ensures more { result ≡ More → goes_on self.new × (length (taken self.new) ≤ most self.old) }
        ensures same { Within (stands self.new) (stands self.old) × Within (ends self.new) (ends self.old) × Within (proves self.new) (proves self.old) };

    /// The output ends.
    fn end(&mut self, alloc: Global) -> Judged<T>
        requires { goes_on self.old }
        ensures about { (problem self.new ≡ problem self.old) × (job self.new ≡ job self.old) × (most self.new ≡ most self.old) }
        ensures taken { taken self.new ≡ taken self.old }
        ensures says { Says (ends self.old) (taken self.old) result }
        ensures more { result ≡ More → awaits self.new }
        ensures same { Within (proves self.new) (proves self.old) };

    /// Begins to judge the proof file.
    fn open_proof(&mut self, alloc: Global) -> Result<(), AllocError>
        requires { awaits self.old }
        ensures opened { IfOk result (λ _. proving self.new × (proved self.new ≡ [])) }
        ensures same { Within (proves self.new) (proves self.old) };

    /// Takes the next piece of the proof file. What is said of it, unless it is More, is said of the file whatever follows.
    fn feed_proof(&mut self, alloc: Global, piece: &[u8]) -> Judged<T>
        requires { proving self.old }
        ensures proved { proved self.new ≡ proved self.old ++ piece.now }
        ensures says { result ≢ More → (more : List ℕ) → Says (proves self.old) (proved self.new ++ more) result }
        ensures more { result ≡ More → proving self.new }
        ensures same { Within (proves self.new) (proves self.old) };

    /// The proof file ends.
    fn end_proof(&mut self, alloc: Global) -> Judged<T>
        requires { proving self.old }
        ensures says { Says (proves self.old) (proved self.old) result }
        ensures whole { result ≢ More };

    // What stands, stays, also where the output ends there.
    ghost stays: { (s : Self) (bytes more : List ℕ) (p : Judged T) → p ≢ More → stands s bytes p → ends s (bytes ++ more) p };

    // A finding is one for the job of the problem.
    ghost is_for: { (s : Self) (bytes : List ℕ) (f : T) → stands s bytes (Found f) ⊎ (ends s bytes (Found f) ⊎ proves s bytes (Found f))
        → (T.problem f ≡ problem s) × (T.job f ≡ job s) };
}

/// The problem of a race.
pub trait ForJob<T: Settled> {
    ghost problem: { Self → ProblemOf };

    /// Whether a finding is one for this job of this problem.
    fn is_for(&self, value: &T, job: JobName) -> bool
        ensures yes { result ≡ true → (T.problem value.now ≡ problem self.now) × (T.job value.now ≡ job) }
        ensures no { T.problem value.now ≡ problem self.now → T.job value.now ≡ job → result ≡ true };
}
