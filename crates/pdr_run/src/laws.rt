// What a call promises.

ghost use Rattle.std.specs.Prelude.{◌≡◌, ◌≢◌, ◌⊎◌, ◌<◌, ◌≤◌, ◌^◌, ℕ, List, Option, Some, length};
ghost use Rattle.pair_form.specs.Pair.{IsPair, PairOf};
ghost use Rattle.pair_form.specs.Text.{pair_text};
ghost use Rattle.cdcl_words.specs.Asking.{AsksPlainly};
ghost use Rattle.sby_edge.specs.Files.{Store};
ghost use Rattle.inv_fate.specs.Fate.{InvFateOf, Unknown};
ghost use Rattle.cdcl_run.specs.Answer.{budget_of};
ghost use Rattle.cdcl_run.specs.Output.{grown};
ghost use Rattle.cdcl_run.specs.Run.{IsOutOfMemory, IsUngot, World};
ghost use Rattle.pdr_run.specs.Answer.{IsAnswer, IsBrokenStream, IsSpentStream};
ghost use Rattle.pdr_run.specs.Run.{Did, IsCutShort};

use cnf_form::dimacs_faults_are_decided;
use pair_form::{texts_are_dimacs, texts_have_one_pair};

/// A stream that says that it doesn't know, all of whose bytes are taken, has no other result for any pair: its fate is Unknown.
pub fn unknown_streams_are_unknown()
    ensures spent { (p : PairOf) (stream : List ℕ) (budget most : ℕ) → IsSpentStream budget stream → budget < 2 ^ 64 → length stream ≤ most → InvFateOf p stream most Unknown }
    ensures broken { (p q : PairOf) (stream : List ℕ) (most : ℕ) → IsBrokenStream p stream → length stream ≤ most → InvFateOf q stream most Unknown }
{}

/// Where a store tells a file of at most 2^32 bytes that is the text of a pair, and words ask for it, a call of `run_pdr` writes a
/// whole stream with the answer of its exit status for this pair, unless that is 1 or 32. At 1 a call of the sink failed, and what was
/// written is a first part of such a stream; or a call of the store failed. At 32 memory ran out, and nothing was written.
pub fn promise_is_kept()
    ensures answer { (before after : World) (words : List (List ℕ)) (exit : ℕ) (conflicts : Option ℕ) (file : List ℕ) (store : Store) (p : PairOf)
        → Did before after words exit → AsksPlainly words conflicts file → before.told ≡ Some store → store file ≡ Some (pair_text p) → length (pair_text p) ≤ 2 ^ 32 → IsPair p
        → exit ≢ 1 → exit ≢ 32
        → (stream : List ℕ) × (after.taken ≡ grown before.taken stream) × IsAnswer p (budget_of conflicts) stream exit }
    ensures failed { (before after : World) (words : List (List ℕ)) (exit : ℕ) (conflicts : Option ℕ) (file : List ℕ) (store : Store) (p : PairOf)
        → Did before after words exit → AsksPlainly words conflicts file → before.told ≡ Some store → store file ≡ Some (pair_text p) → length (pair_text p) ≤ 2 ^ 32 → IsPair p
        → exit ≡ 1 → IsCutShort before after p (budget_of conflicts) ⊎ IsUngot before after exit }
    ensures memory { (before after : World) (words : List (List ℕ)) (exit : ℕ) (conflicts : Option ℕ) (file : List ℕ) (store : Store) (p : PairOf)
        → Did before after words exit → AsksPlainly words conflicts file → before.told ≡ Some store → store file ≡ Some (pair_text p) → length (pair_text p) ≤ 2 ^ 32 → IsPair p
        → exit ≡ 32 → IsOutOfMemory before after exit }
{
    dimacs_faults_are_decided();
    texts_are_dimacs();
    texts_have_one_pair();
}
