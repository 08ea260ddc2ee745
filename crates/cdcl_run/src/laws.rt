// What a call promises.

ghost use Rattle.std.specs.Prelude.{◌≡◌, ◌≢◌, ◌⊎◌, ◌+◌, ◌≤◌, ◌^◌, ◌++◌, ℕ, Bool, true, false, List, All, Option, Some, length, map, option_map};
ghost use Rattle.cnf_form.specs.Cnf.{FormulaOf};
ghost use Rattle.cnf_form.specs.Dimacs.{IsDimacs};
ghost use Rattle.cdcl_words.specs.Asking.{Asks, AsksToServe};
ghost use Rattle.sby_edge.specs.Cause.{greatest};
ghost use Rattle.sby_edge.specs.Files.{Store};
ghost use Rattle.net_serve.specs.declared.serving.Served.TheVariants as served;
ghost use Rattle.cdcl_run.specs.Answer.{IsAnswer, IsUnknownStream, budget_of};
ghost use Rattle.cert_judge.specs.Fate.{Unknown};
ghost use Rattle.cert_judge.specs.Kinds.{IsFate};
ghost use Rattle.cert_judge.specs.declared.stream.StreamKind.TheVariants.{Drup, Lrat};
ghost use Rattle.cdcl_run.specs.Output.{grown};
ghost use Rattle.cdcl_run.specs.Run.{Did, IsCutShort, IsLeftOff, IsUngot, World};
ghost use Rattle.cdcl_run.specs.Serving.{Connection, DoorOf, Passed, Ran, opened};

use cnf_form::dimacs_faults_are_decided;

/// A stream that says that it doesn't know, with hints or without, all of whose bytes are taken, has no other result: its fate is Unknown.
pub fn unknown_streams_are_unknown()
    ensures plain { (job stream : List ℕ) (budget most : ℕ) → IsUnknownStream false job budget stream → length stream ≤ most → IsFate Drup job stream most Unknown }
    ensures hinted { (job stream : List ℕ) (budget most : ℕ) → IsUnknownStream true job budget stream → length stream ≤ most → IsFate Lrat job stream most Unknown }
{}

/// Where a store tells a file of at most 2^32 bytes that is a formula, and words ask for it, a call of `run_engine` writes a
/// whole stream with the answer of its exit status, with hints where the words ask for them, unless that is 1 or 32; what was
/// written is then a first part of such a stream, of the lines of a search for values of the formula, or of the line that says
/// that the file can't be got. The last comes only where a call of the store failed, and the exit status is 1; at 32 it is the
/// lines of a search. Else it is 1 only where a call of the sink failed, and at least one byte is missing.
pub fn promise_is_kept()
    ensures answer { (before after : World) (words : List (List ℕ)) (exit : ℕ) (hinted : Bool) (conflicts : Option ℕ) (file job : List ℕ) (store : Store) (f : FormulaOf)
        → Did before after words exit → Asks words hinted conflicts file → before.told ≡ Some store → store file ≡ Some job → length job ≤ 2 ^ 32 → IsDimacs job f
        → exit ≢ 1 → exit ≢ 32
        → (stream : List ℕ) × (after.taken ≡ grown before.taken stream) × IsAnswer hinted job (budget_of conflicts) stream exit }
    ensures failed { (before after : World) (words : List (List ℕ)) (exit : ℕ) (hinted : Bool) (conflicts : Option ℕ) (file job : List ℕ) (store : Store) (f : FormulaOf)
        → Did before after words exit → Asks words hinted conflicts file → before.told ≡ Some store → store file ≡ Some job → length job ≤ 2 ^ 32 → IsDimacs job f
        → exit ≡ 1 → IsCutShort hinted before after job (budget_of conflicts) ⊎ IsUngot before after exit }
    ensures memory { (before after : World) (words : List (List ℕ)) (exit : ℕ) (hinted : Bool) (conflicts : Option ℕ) (file job : List ℕ) (store : Store) (f : FormulaOf)
        → Did before after words exit → Asks words hinted conflicts file → before.told ≡ Some store → store file ≡ Some job → length job ≤ 2 ^ 32 → IsDimacs job f
        → exit ≡ 32 → IsLeftOff hinted before after job (budget_of conflicts) }
{
    dimacs_faults_are_decided();
}

/// Where the words ask for a file, the door stays as it was, and a call does what the words ask for of the file.
pub fn files_are_not_served()
    ensures { (before after : World) (door door_after : DoorOf) (words : List (List ℕ)) (exit : ℕ) (hinted : Bool) (conflicts : Option ℕ) (file : List ℕ)
        → Ran before after door door_after words exit → Asks words hinted conflicts file → (door_after ≡ door) × Did before after words exit }
{}

/// Where the words ask to serve n connections and the exit status is 0, the door listens at their address, where it tells where, n more
/// came back, and each on which no call failed was answered: by a stream for what its bytes ask for, or, where they ask for nothing, by
/// the line that says so. Connections that came back are those that the door tells of, in their order, and the door counts them.
pub fn connections_are_answered()
    ensures answered { (before after : World) (door door_after : DoorOf) (words : List (List ℕ)) (address : List ℕ) (count : ℕ)
        → Ran before after door door_after words 0 → AsksToServe words address count
        → (connections : List Connection) × Passed (opened address door) door_after connections × (length connections ≡ count)
        × All (λ c. c.back.faults ≡ 0 → (c.served ≡ served.Answered) ⊎ (c.served ≡ served.BadFrame)) connections }
    ensures listens { (before after : DoorOf) (connections : List Connection) → Passed before after connections → after.listens_at ≡ before.listens_at }
    ensures told { (before after : DoorOf) (connections : List Connection) → Passed before after connections
        → after.came_back ≡ option_map (λ all. all ++ map (λ c. c.back) connections) before.came_back }
    ensures counted { (before after : DoorOf) (connections : List Connection) → Passed before after connections
        → before.backs + length connections ≤ greatest → after.backs ≡ before.backs + length connections }
{}
