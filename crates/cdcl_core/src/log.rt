// Where the lines of a proof go.

ghost use Rattle.std.specs.Prelude.{◌≡◌, ℕ, Bool, OnOk, OnErr};
ghost use Rattle.sby_edge.specs.Cause.{HasPlainCause};
ghost use Rattle.cdcl_core.specs.Lines.{LogLine, Adds, Notes, Drops};

use cnf_form::Lit;
use sby_edge::Failed;

/// Where the lines of a proof go. A log is given ids and hints if it wants them; else each id is 0, there are no hints, and no fact comes.
pub trait Log {
    /// What becomes of it when it takes a line.
    ghost takes: { Self → LogLine → Self → Type 0 };

    /// What becomes of it when a call for a line fails.
    ghost fails: { Self → LogLine → Self → Type 0 };

    /// How often a call failed; it stays at the greatest u64.
    ghost faults: { Self → ℕ };

    /// Whether it wants ids and hints.
    ghost hinted: { Bool };

    /// Whether it wants ids and hints.
    fn is_hinted(&self) -> bool
        ensures { result ≡ hinted };

    /// Takes the addition of a clause.
    fn clause(&mut self, clause: &[Lit], id: u64, hints: &[u64]) -> Result<(), Failed>
        ensures ok { OnOk result (takes self.old (Adds clause.now id hints.now) self.new) }
        ensures err { OnErr result (fails self.old (Adds clause.now id hints.now) self.new) }
        ensures cause { HasPlainCause (faults self.old) (faults self.new) result };

    /// Takes a fact: the unit clause of a literal that is true at level 0.
    fn fact(&mut self, l: Lit, id: u64, hints: &[u64]) -> Result<(), Failed>
        ensures ok { OnOk result (takes self.old (Notes l id hints.now) self.new) }
        ensures err { OnErr result (fails self.old (Notes l id hints.now) self.new) }
        ensures cause { HasPlainCause (faults self.old) (faults self.new) result };

    /// Takes the deletion of a clause.
    fn delete(&mut self, clause: &[Lit], id: u64) -> Result<(), Failed>
        ensures ok { OnOk result (takes self.old (Drops clause.now id) self.new) }
        ensures err { OnErr result (fails self.old (Drops clause.now id) self.new) }
        ensures cause { HasPlainCause (faults self.old) (faults self.new) result };
}
