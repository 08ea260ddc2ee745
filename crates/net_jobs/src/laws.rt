//! Laws of the definitions: each function's contract is a law, and its body is empty.

ghost use Rattle.std.specs.Prelude.{◌≡◌, ◌↔◌, ◌^◌, ◌<◌, ◌≤◌, ℕ, false, length, true, Contains};
ghost use Rattle.cnf_form.specs.Cnf.{Assignment, Satisfies};
ghost use Rattle.sby_terms.specs.Span.{IsSpan};
ghost use Rattle.sby_terms.specs.declared.names.JobName.{JobName};
ghost use Rattle.sby_terms.specs.declared.names.JobName.TheVariants.{Inv, Step};
ghost use Rattle.sby_terms.specs.declared.span.Span.{Span};
ghost use Rattle.model_core.specs.Choices.{AreChoicesFor, Plays};
ghost use Rattle.model_core.specs.Meaning.{Cycle};
ghost use Rattle.model_core.specs.Served.{IsModel};
ghost use Rattle.model_core.specs.Shape.{ModelOf};
ghost use Rattle.bit_net.specs.Net.{IsNet, NetOf};
ghost use Rattle.frame_net.specs.NetOf.{IsNetOf};
ghost use Rattle.net_unroll.specs.Encoding.{formula_of};
ghost use Rattle.net_unroll.specs.Promises.{CanBeSatisfied};
ghost use Rattle.net_unroll.specs.declared.encoded.Free.{Free};
ghost use Rattle.job_terms.specs.Encoding.{IsDecoded, empty_job};
ghost use Rattle.job_terms.specs.Jobs.{AsksNothing, IsJob, Solvable};
ghost use Rattle.net_jobs.specs.Jobs.{StandsFor, cycles_of, decoded, job_encoding, job_made};
ghost use Rattle.net_jobs.specs.Reading.{IsEncoded, encoded_of};

/// The formula of a job can be satisfied exactly where the job can be solved.
pub fn jobs_tell_what_can_be_solved()
    ensures { (m : ModelOf) (n : NetOf) (job : JobName) (span : Span) → IsModel m → IsNet n → IsNetOf m n → IsSpan span → IsJob m job span → job_made n job span ≤ 2 ^ 27
        → CanBeSatisfied (formula_of (job_encoding n job span)) ↔ Solvable m job span }
{}

/// But for Step, each assignment tells choices for a run of the model, and one that satisfies the formula those for a run that shows the job's
/// goal, its last cycle the first of those that count in which it is met.
pub fn assignments_tell_runs()
    ensures choices { (m : ModelOf) (n : NetOf) (job : JobName) (span : Span) → IsModel m → IsNet n → IsNetOf m n → (job ≡ Step → ⊥)
        → (x : Assignment) → AreChoicesFor m (decoded m n (cycles_of job span) (job_encoding n job span) x) }
    ensures decoded { (m : ModelOf) (n : NetOf) (job : JobName) (span : Span) → IsModel m → IsNet n → IsNetOf m n → IsSpan span → IsJob m job span → job_made n job span ≤ 2 ^ 27 → (job ≡ Step → ⊥)
        → (x : Assignment) → Satisfies x (formula_of (job_encoding n job span)).clauses → IsDecoded m job span (decoded m n (cycles_of job span) (job_encoding n job span) x) }
{}

/// Over no statement the formula of a job is one variable and the empty clause.
pub fn jobs_ask_nothing()
    ensures { (m : ModelOf) (n : NetOf) (job : JobName) (span : Span) → IsNetOf m n → AsksNothing m job → formula_of (job_encoding n job span) ≡ empty_job }
{}

/// Each free variable stands for a bit that the job leaves open. But for Step, a run with the choices that an assignment tells has there what
/// the assignment says, and 0 at what is open and has no variable.
pub fn free_variables_stand_for_bits()
    ensures bits { (m : ModelOf) (n : NetOf) (job : JobName) (span : Span) → IsModel m → IsNet n → IsNetOf m n → job_made n job span ≤ 2 ^ 27
        → (f : Free) → Contains (job_encoding n job span).free f → (f.cycle < (cycles_of job span).count) × ((p : ℕ) × StandsFor m n (cycles_of job span).start f.cycle f.place p) }
    ensures values { (m : ModelOf) (n : NetOf) (job : JobName) (span : Span) → IsModel m → IsNet n → IsNetOf m n → job_made n job span ≤ 2 ^ 27 → (job ≡ Step → ⊥)
        → (x : Assignment) (cs : ℕ → Cycle) → Plays m (decoded m n (cycles_of job span) (job_encoding n job span) x) cs
        → (f : Free) (p : ℕ) → Contains (job_encoding n job span).free f → StandsFor m n true f.cycle f.place p → f.cycle < length (decoded m n (cycles_of job span) (job_encoding n job span) x).inputs → cs f.cycle p ≡ x f.var }
    ensures rest { (m : ModelOf) (n : NetOf) (job : JobName) (span : Span) → IsModel m → IsNet n → IsNetOf m n → job_made n job span ≤ 2 ^ 27 → (job ≡ Step → ⊥)
        → (x : Assignment) (cs : ℕ → Cycle) → Plays m (decoded m n (cycles_of job span) (job_encoding n job span) x) cs
        → (t v p : ℕ) → StandsFor m n true t v p → t < length (decoded m n (cycles_of job span) (job_encoding n job span) x).inputs
        → ((f : Free) → Contains (job_encoding n job span).free f → f.cycle ≡ t → f.place ≡ v → ⊥) → cs t p ≡ false }
{}

/// A job of a net in the terms of all jobs has what is promised of an encoded job; Inv is none of these.
pub fn jobs_are_encoded()
    ensures { (m : ModelOf) (n : NetOf) (job : JobName) (span : Span) → IsModel m → IsNet n → IsNetOf m n → job_made n job span ≤ 2 ^ 27 → (job ≡ Inv → ⊥) → IsEncoded m job span (encoded_of n job span) }
{}
