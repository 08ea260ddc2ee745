// Laws of problems, and of what their findings say.

ghost use Rattle.std.specs.Prelude.{◌≡◌, ◌↔◌, ◌<◌, ◌≤◌, ◌*◌, ◌^◌, ◌++◌, ◌∷◌, [], ℕ, suc, Bool, false, Contains, List, None, codes, length, Some, slice_get};
ghost use Rattle.cnf_form.specs.Cnf.{FormulaOf, LitOf};
ghost use Rattle.pair_form.specs.Pair.{IsInvariant};
ghost use Rattle.cnf_form.specs.Dimacs.{IsDimacs};
ghost use Rattle.task_net.specs.Asking.{HasOriginsInCone};
ghost use Rattle.design_check.specs.Faults.{IsFlat};
ghost use Rattle.design_core.specs.Places.{place_of};
ghost use Rattle.design_core.specs.Shape.{CellOf, DesignOf, IsDesign};
ghost use Rattle.design_core.specs.Table.{role_of};
ghost use Rattle.design_meaning.specs.Claims.{NeverBreak, NoBreak, ReachRun, Shows};
ghost use Rattle.design_meaning.specs.Meaning.{Broken, Frame, IsCell, Reached, Run, bit_in};
ghost use Rattle.design_meaning.specs.Runs.{CycleOf, valuations};
ghost use Rattle.design_meaning.specs.States.{StateBit, input_bits, state_bits, state_in, state_of};
ghost use Rattle.design_reader.specs.Grammar.{Reads};
ghost use Rattle.design_signals.specs.declared.sig_bit.SigBit.{SigBit};
ghost use Rattle.job_terms.specs.Encoding.{CanBeSatisfied, EncodedOf};
ghost use Rattle.job_terms.specs.Encoding.Origin.{First, Input};
ghost use Rattle.job_terms.specs.Jobs.{frames};
ghost use Rattle.model_core.specs.Choices.{AreChoicesFor, ChoicesOf, Plays};
ghost use Rattle.model_core.specs.Meaning.{Cycle};
ghost use Rattle.model_core.specs.Shape.{states};
ghost use Rattle.model_laws.specs.Cost.{cost};
ghost use Rattle.model_laws.specs.Reads.{IsReadOtherwise, IsStateRead};
ghost use Rattle.sby_terms.specs.Span.{IsSpan, first_of, last_of, slices_of, whole};
ghost use Rattle.sby_terms.specs.declared.names.Answer.TheVariants.{Sat, Unsat};
ghost use Rattle.sby_terms.specs.declared.names.JobName.{JobName};
ghost use Rattle.sby_terms.specs.declared.names.JobName.TheVariants.{Base, Cover, Inv, Step};
ghost use Rattle.sby_terms.specs.declared.names.Mode.{Mode};
ghost use Rattle.sby_terms.specs.declared.names.Mode.TheVariants.{Bmc};
ghost use Rattle.sby_terms.specs.declared.span.Span.{Span};
ghost use Rattle.cert_judge.specs.Fate.{Fate, Found};
ghost use Rattle.cert_judge.specs.declared.stream.Kind.{Kind};
ghost use Rattle.cert_judge.specs.declared.stream.Kind.TheVariants.{Certificate};
ghost use Rattle.cert_judge.specs.declared.stream.StreamKind.{StreamKind};
ghost use Rattle.word_model.specs.Layout.{state_place, valued};
ghost use Rattle.word_model.specs.Registers.{BeginsWith};
ghost use Rattle.judge.specs.Fault.{IsTooMany};
ghost use Rattle.judge.specs.Finding.{FindingOf, IsTrueFinding};
ghost use Rattle.judge.specs.Jobs.{AsksNothing, IsEarlier, Solvable, jobs_in, span_of};
ghost use Rattle.judge.specs.Fates.{IsFate, IsFateSoFar, IsStreamsRun, Serves};
ghost use Rattle.judge.specs.Problem.{AskedOf, IsEncodedJob, IsEncodedOf, IsFormulaOf, IsJob, IsJobFile, IsProblem, pair_in};

use witness_judge::some_fate as some_witness_fate;

/// A job of a problem has one formula, and one file.
pub fn one_file()
    ensures formula { (p : AskedOf) (job : JobName) (f g : FormulaOf) → IsFormulaOf p job f → IsFormulaOf p job g → f ≡ g }
    ensures file { (p : AskedOf) (job : JobName) (a b : List ℕ) → IsJobFile p job a → IsJobFile p job b → a ≡ b }
{}

/// A job's file, but for that of Inv, is a formula that can be satisfied exactly where the job can be solved. Where the job asks nothing, its
/// lines are `p cnf 1 1` and `0`.
pub fn files_tell_what_jobs_ask()
    ensures solvable { (p : AskedOf) (job : JobName) (bytes : List ℕ) (f : FormulaOf) → IsProblem p → IsJobFile p job bytes → IsDimacs bytes f → (job ≡ Inv → ⊥)
        → CanBeSatisfied f ↔ Solvable p.design job (span_of p.problem) }
    ensures empty { (p : AskedOf) (job : JobName) (bytes : List ℕ) → IsProblem p → IsJobFile p job bytes → AsksNothing p.design job
        → bytes ≡ codes "p cnf 1 1" ++ 10 ∷ 48 ∷ 10 ∷ [] }
{}

/// Each job of a problem has what is promised of an encoded job of its design.
pub fn jobs_of_problems_are_encoded()
    ensures { (p : AskedOf) (job : JobName) (e : EncodedOf) → IsProblem p → IsEncodedOf p job e → IsEncodedJob p.design p.model job (span_of p.problem) e }
{}

/// A job has too many variables only where its frames take more than 2^27 by the design's cost.
pub fn too_many_only_past_the_cost()
    ensures { (d : DesignOf) (job : JobName) (span : Span) → IsDesign d → IsFlat d → IsSpan span → IsTooMany d job span → 2 ^ 27 < frames job span * cost d }
{}

/// The jobs of a mode stand in the order in which they are encoded.
pub fn jobs_stand_in_their_order()
    ensures { (mode : Mode) (span : Span) (d : DesignOf) (i j : ℕ) (earlier job : JobName) → slice_get (jobs_in mode span d) i ≡ Some earlier → slice_get (jobs_in mode span d) j ≡ Some job
        → (i < j) ↔ IsEarlier earlier job }
{}

/// A finding tells of each design that its text reads whether its job can be solved: Sat says that it can, Unsat that it can't.
pub fn findings_tell_what_can_be_solved()
    ensures sat { (f : FindingOf) (d : DesignOf) → IsTrueFinding f → Reads f.problem.text d → f.answer ≡ Sat → Solvable d f.job (span_of f.problem) }
    ensures unsat { (f : FindingOf) (d : DesignOf) → IsTrueFinding f → Reads f.problem.text d → f.answer ≡ Unsat → Solvable d f.job (span_of f.problem) → ⊥ }
{}

/// A stream's run of a job shows what the job asks for, in its last cycle: of Base(i) a broken assertion in a cycle of slice i, of Cover(k)
/// that statement k is reached; and where it is played from the values of a certificate, no earlier cycle that counts has it.
pub fn played_run_ends_at_first_goal()
    ensures base { (p : AskedOf) (i : ℕ) (kind : Kind) (ended : Bool) (bytes : List ℕ) (most : ℕ) (run : List CycleOf) → IsProblem p → IsStreamsRun p (Base i) kind ended bytes most run
        → (a : ℕ) × Shows p.design (length run) (valuations p.design run) a }
    ensures slice { (p : AskedOf) (i : ℕ) (kind : Kind) (ended : Bool) (bytes : List ℕ) (most : ℕ) (run : List CycleOf) → IsProblem p → IsStreamsRun p (Base i) kind ended bytes most run
        → (first_of (span_of p.problem) i < length run) × (length run ≤ last_of (span_of p.problem) i) }
    ensures first { (p : AskedOf) (i : ℕ) (kind : StreamKind) (ended : Bool) (bytes : List ℕ) (most : ℕ) (run : List CycleOf) → IsProblem p → IsStreamsRun p (Base i) (Certificate kind) ended bytes most run
        → (t a : ℕ) → first_of (span_of p.problem) i ≤ t → suc t < length run → Broken p.design (valuations p.design run t) a → ⊥ }
    ensures cover { (p : AskedOf) (k : ℕ) (kind : Kind) (ended : Bool) (bytes : List ℕ) (most : ℕ) (run : List CycleOf) → IsProblem p → IsStreamsRun p (Cover k) kind ended bytes most run
        → ReachRun p.design (length run) (valuations p.design run) k × (length run ≤ (span_of p.problem).depth) }
    ensures first_reach { (p : AskedOf) (k : ℕ) (kind : StreamKind) (ended : Bool) (bytes : List ℕ) (most : ℕ) (run : List CycleOf) → IsProblem p → IsStreamsRun p (Cover k) (Certificate kind) ended bytes most run
        → (t : ℕ) → suc t < length run → Reached p.design (valuations p.design run t) k → ⊥ }
{}

/// A stream has one run of a job.
pub fn one_played_run()
    ensures { (p : AskedOf) (job : JobName) (kind : Kind) (ended : Bool) (bytes : List ℕ) (most : ℕ) (run other : List CycleOf) → IsProblem p
        → IsStreamsRun p job kind ended bytes most run → IsStreamsRun p job kind ended bytes most other → run ≡ other }
{}

/// Whatever is chosen for the bits that a run leaves open, the problem's design has a run with it, and whatever the state bits and the inputs
/// have, a frame.
pub fn every_choice_has_a_run_of_the_design()
    ensures run { (p : AskedOf) → IsProblem p → (c : ChoicesOf) → AreChoicesFor p.model c → 0 < length c.inputs
        → (cs : ℕ → Cycle) × Plays p.model c cs × Run p.design (length c.inputs) (λ t. valued p.design (cs t)) }
    ensures frame { (p : AskedOf) → IsProblem p → (c : Cycle)
        → (e : Cycle) × Frame p.design (valued p.design e) × ((n : ℕ) → Contains (states p.model ++ p.model.inputs) n → e n ≡ c n) }
{}

/// A job has a free variable only for what the design reads otherwise than as a clock: an input in a cycle, or a state bit in the first. A
/// stored row is read where some bit of its register's output is.
pub fn free_variables_are_read()
    ensures inputs { (p : AskedOf) (job : JobName) (e : EncodedOf) → IsProblem p → IsEncodedOf p job e → (o : HasOriginsInCone p.model job (span_of p.problem) e)
        → (t : ℕ) (b : SigBit) → Contains (input_bits p.design) b → Contains o.has.origins (Input t (place_of p.design b)) → IsReadOtherwise p.design b }
    ensures starts { (p : AskedOf) (job : JobName) (e : EncodedOf) → IsProblem p → IsEncodedOf p job e → (o : HasOriginsInCone p.model job (span_of p.problem) e)
        → (s : StateBit) → Contains (state_bits p.design) s → Contains o.has.origins (First (state_place p.design s)) → IsStateRead p.design s }
{}

/// In a run that is played from the values of a certificate what is open and isn't read is 0: the inputs in each cycle, and the state bits without a start digit in the first. A
/// bit that only clocks read isn't read.
pub fn played_run_is_zero_where_nothing_reads()
    ensures inputs { (p : AskedOf) (job : JobName) (kind : StreamKind) (ended : Bool) (bytes : List ℕ) (most : ℕ) (run : List CycleOf) → IsProblem p → IsStreamsRun p job (Certificate kind) ended bytes most run → (job ≡ Step → ⊥)
        → (t : ℕ) (b : SigBit) → t < length run → Contains (input_bits p.design) b → ¬ IsReadOtherwise p.design b → bit_in (valuations p.design run t) b ≡ false }
    ensures starts { (p : AskedOf) (job : JobName) (kind : StreamKind) (ended : Bool) (bytes : List ℕ) (most : ℕ) (run : List CycleOf) → IsProblem p → IsStreamsRun p job (Certificate kind) ended bytes most run → (job ≡ Step → ⊥)
        → (i k : ℕ) (c : CellOf) (s : StateBit) → IsCell p.design i c → slice_get (state_of (i, c)) k ≡ Some s → ((x : Bool) → BeginsWith (role_of c.kind) p.design i k x → ⊥)
        → (IsStateRead p.design s → ⊥) → state_in (valuations p.design run 0) s ≡ false }
{}

/// Bmc over a span: none of its jobs can be solved exactly where no run of more cycles than are skipped, and of at most `depth`, breaks an
/// assertion in its last. Each slice is within the span, and the slices cover it.
pub fn slices_show_that_nothing_breaks()
    ensures jobs { (d : DesignOf) (span : Span) → IsSpan span
        → ((job : JobName) → Contains (jobs_in Bmc span d) job → Solvable d job span → ⊥) ↔ NoBreak d span.skip span.depth }
    ensures slices { (d : DesignOf) (span : Span) → IsSpan span
        → ((i : ℕ) → i < slices_of span → NoBreak d (first_of span i) (last_of span i)) ↔ NoBreak d span.skip span.depth }
    ensures within { (span : Span) (i : ℕ) → (span.skip ≤ first_of span i) × (last_of span i ≤ span.depth) }
{}

/// k-induction: where neither Base nor Step of one depth, over one slice from cycle 0, can be solved, no run breaks an assertion, whatever its
/// length.
pub fn base_and_step_show_that_nothing_breaks()
    ensures { (d : DesignOf) (n : ℕ) → 0 < n → (Solvable d (Base 0) (whole n) → ⊥) → (Solvable d Step (whole n) → ⊥) → NeverBreak d }
{}

/// The file of Inv tells whether an invariant shows that nothing breaks: one that the pair of two cycles has shows that no run breaks an
/// assertion, whatever its length.
pub fn invariants_show_that_nothing_breaks()
    ensures { (p : AskedOf) (I : List (List LitOf)) → IsProblem p → IsJob p Inv → IsInvariant (pair_in p) I → NeverBreak p.design }
{}

/// A stream has one fate at most as evidence for a job.
pub fn one_fate()
    ensures { (p : AskedOf) (job : JobName) (kind : Kind) (file stream : List ℕ) (most : ℕ) (x y : Fate) → IsProblem p → IsFate p job kind file stream most x → IsFate p job kind file stream most y → x ≡ y }
{}

/// It has one, if streams of its kind are judged for the job: it can't be that none is its fate.
pub fn some_fate()
    ensures { (p : AskedOf) (job : JobName) (kind : Kind) (file stream : List ℕ) (most : ℕ) (f : FormulaOf) → IsProblem p → IsDimacs file f → Serves kind job
        → ((x : Fate) → IsFate p job kind file stream most x → ⊥) → ⊥ }
{
    some_witness_fate();
}

/// A fate stays, whatever follows; without one there are at most `most` bytes.
#[tactic(auto, using(crate::proofs::StreamFates::stays, crate::proofs::StreamFates::within_most))]
pub fn fates_stay()
    ensures stays { (p : AskedOf) (job : JobName) (kind : Kind) (file bytes more : List ℕ) (most : ℕ) (fate : Fate) → IsFateSoFar p job kind file bytes most (Some fate) → IsFate p job kind file (bytes ++ more) most fate }
    ensures none { (p : AskedOf) (job : JobName) (kind : Kind) (file bytes : List ℕ) (most : ℕ) → IsFateSoFar p job kind file bytes most None → length bytes ≤ most }
{}

/// What is found in a stream tells whether the job can be solved.
pub fn found_fates_tell_what_can_be_solved()
    ensures sat { (p : AskedOf) (job : JobName) (kind : Kind) (file stream : List ℕ) (most : ℕ) → IsProblem p → IsJobFile p job file → IsFate p job kind file stream most (Found Sat) → Solvable p.design job (span_of p.problem) }
    ensures unsat { (p : AskedOf) (job : JobName) (kind : Kind) (file stream : List ℕ) (most : ℕ) → IsProblem p → IsJobFile p job file → IsFate p job kind file stream most (Found Unsat) → Solvable p.design job (span_of p.problem) → ⊥ }
{}
