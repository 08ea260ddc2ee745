// Laws of the fates of solvers' outputs.

ghost use Rattle.std.specs.Prelude.{◌≡◌, ◌≤◌, ◌++◌, ℕ, Bool, true, false, List, length, Option, Some, None};
ghost use Rattle.cnf_form.specs.Cnf.{Assignment, FormulaOf, Satisfies};
ghost use Rattle.cnf_form.specs.Dimacs.{IsDimacs};
ghost use Rattle.sby_terms.specs.declared.names.Answer.TheVariants.{Sat, Unsat};
ghost use Rattle.cert_judge.specs.Fate.{Fate, Found};
ghost use Rattle.cert_judge.specs.OutputFate.{IsOutputFate, IsOutputFateSoFar};
ghost use Rattle.cert_judge.specs.Output.{has_unknown, has_values, stream_of};
ghost use Rattle.cert_judge.specs.Spots.{given, given_at_end, spot_after, values_after, values_at_end};
ghost use Rattle.cert_judge.specs.declared.spot.Spot.TheVariants.{Start};

/// Bytes handed on one after the other are the stream as which the lines are read; and a line of values is found where there is one.
#[tactic(auto, using(crate::proofs::OutputReading::given_is, crate::proofs::OutputReading::given_whole, crate::proofs::OutputReading::values_are))]
pub fn outputs_are_read_by_lines()
    ensures so_far { (bytes : List ℕ) → given Start bytes ≡ stream_of false bytes }
    ensures whole { (bytes : List ℕ) → given Start bytes ++ given_at_end (spot_after Start bytes) ≡ stream_of true bytes }
    ensures values { (bytes : List ℕ) → values_at_end (spot_after Start bytes) (values_after Start false bytes) ≡ has_values bytes }
{}

/// What was read of an output stays, whatever follows, and where it ends.
#[tactic(auto, using(crate::proofs::OutputFates::read_more, crate::proofs::OutputFates::read_end))]
pub fn output_readings_go_on()
    ensures goes_on { (bytes rest : List ℕ) → (more : List ℕ) × (stream_of false (bytes ++ rest) ≡ stream_of false bytes ++ more) }
    ensures ends { (bytes : List ℕ) → (more : List ℕ) × (stream_of true bytes ≡ stream_of false bytes ++ more) }
{}

/// An output has one fate at most, and its bytes so far have one.
pub fn outputs_have_one_fate()
    ensures whole { (job bytes : List ℕ) (most : ℕ) (x y : Option Fate) → IsOutputFate job bytes most x → IsOutputFate job bytes most y → x ≡ y }
    ensures so_far { (job bytes : List ℕ) (most : ℕ) (x y : Option Fate) → IsOutputFateSoFar job bytes most x → IsOutputFateSoFar job bytes most y → x ≡ y }
{}

/// A fate that stands in the first bytes stays, whatever bytes follow, and is the output's: so it doesn't matter how an output is cut
/// into pieces.
pub fn output_fates_stay()
    ensures so_far { (job bytes rest : List ℕ) (most : ℕ) (fate : Fate) → IsOutputFateSoFar job bytes most (Some fate) → IsOutputFateSoFar job (bytes ++ rest) most (Some fate) }
    ensures whole { (job bytes rest : List ℕ) (most : ℕ) (fate : Fate) → IsOutputFateSoFar job bytes most (Some fate) → IsOutputFate job (bytes ++ rest) most (Some fate) }
{}

/// Where an output ends, a fate of all its bytes so far is its fate.
pub fn output_fate_so_far_is_the_fate()
    ensures { (job bytes : List ℕ) (most : ℕ) (fate : Fate) → IsOutputFateSoFar job bytes most (Some fate) → IsOutputFate job bytes most (Some fate) }
{}

/// Where an output's values are found to satisfy the formula of the job's file, some assignment does.
pub fn found_output_is_satisfiable()
    ensures { (job bytes : List ℕ) (most : ℕ) (f : FormulaOf) → IsDimacs job f → IsOutputFate job bytes most (Some (Found Sat)) → (x : Assignment) × Satisfies x f.clauses }
{}

/// The proof file decides exactly where an output has no more bytes than are taken, and neither a line of values nor the line s UNKNOWN.
pub fn proof_decides()
    ensures only { (job bytes : List ℕ) (most : ℕ) → IsOutputFate job bytes most None → (length bytes ≤ most) × (has_values bytes ≡ false) × (has_unknown bytes ≡ false) }
    ensures where_none { (job bytes : List ℕ) (most : ℕ) (f : FormulaOf) → IsDimacs job f → length bytes ≤ most → has_values bytes ≡ false → has_unknown bytes ≡ false
        → IsOutputFate job bytes most None }
{}
