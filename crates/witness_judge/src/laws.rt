//! Laws of fates: each function's contract is a law, and its body is empty.

ghost use Rattle.std.specs.Prelude.{◌≡◌, ◌++◌, ℕ, List, Option, Some, length};
ghost use Rattle.sby_bits.specs.Rows.{Row};
ghost use Rattle.sby_terms.specs.declared.names.Answer.{Answer};
ghost use Rattle.sby_terms.specs.declared.names.Answer.TheVariants.{Sat};
ghost use Rattle.model_core.specs.Served.{IsModel};
ghost use Rattle.model_play.specs.Playing.{cycles_of};
ghost use Rattle.cert_judge.specs.Fate.{Fate, Found};
ghost use Rattle.btor_witness.specs.Grammar.{WitnessOf};
ghost use Rattle.witness_judge.specs.Choosing.{AskedOf, IsAsked};
ghost use Rattle.witness_judge.specs.Fate.{IsWitnessFate, IsWitnessFateSoFar};
ghost use Rattle.witness_judge.specs.Judging.{IsPlayed};
ghost use Rattle.witness_judge.specs.Playing.{IsFound, ShowsGoal};

use btor_witness::bytes_are_read;

/// The fate of bytes stays, whatever follows, and is that of a stream that begins with them.
#[tactic(auto, using(crate::proofs::Staying::so_far_stays, crate::proofs::Staying::stays))]
pub fn fates_stay()
    ensures so_far { (a : AskedOf) (bytes more : List ℕ) (most : ℕ) (fate : Fate) → IsWitnessFateSoFar a bytes most (Some fate) → IsWitnessFateSoFar a (bytes ++ more) most (Some fate) }
    ensures whole { (a : AskedOf) (bytes more : List ℕ) (most : ℕ) (fate : Fate) → IsWitnessFateSoFar a bytes most (Some fate) → IsWitnessFate a (bytes ++ more) most fate }
{}

/// A stream has one fate at most, and its bytes so far have one.
pub fn one_fate()
    ensures so_far { (a : AskedOf) → IsModel a.model → (bytes : List ℕ) (most : ℕ) (x y : Option Fate) → IsWitnessFateSoFar a bytes most x → IsWitnessFateSoFar a bytes most y → x ≡ y }
    ensures whole { (a : AskedOf) → IsModel a.model → (bytes : List ℕ) (most : ℕ) (x y : Fate) → IsWitnessFate a bytes most x → IsWitnessFate a bytes most y → x ≡ y }
{}

/// A stream has one: it can't be that none is its fate.
pub fn some_fate()
    ensures { (a : AskedOf) → IsModel a.model → IsAsked a → (bytes : List ℕ) (most : ℕ) → ((x : Fate) → IsWitnessFate a bytes most x → ⊥) → ⊥ }
{
    bytes_are_read();
}

/// A stream that is found to be a witness is one for Sat: there is a run of the model that shows the goal where it is sought.
#[tactic(auto, using(crate::proofs::Finding::found_so_far, crate::proofs::Finding::found_whole))]
pub fn found_is_shown()
    ensures so_far { (a : AskedOf) (bytes : List ℕ) (most : ℕ) (answer : Answer) → IsWitnessFateSoFar a bytes most (Some (Found answer)) → (answer ≡ Sat) × IsFound a.model a.sought }
    ensures whole { (a : AskedOf) (bytes : List ℕ) (most : ℕ) (answer : Answer) → IsWitnessFate a bytes most (Found answer) → (answer ≡ Sat) × IsFound a.model a.sought }
{}

/// A run that was played for a witness shows the goal.
pub fn played_runs_show()
    ensures { (a : AskedOf) (x : WitnessOf) (rows : List Row) → IsPlayed a x rows → ShowsGoal a.model a.sought.goal (length rows) (cycles_of rows) }
{}
