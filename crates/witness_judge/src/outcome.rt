// Outcomes.

ghost use Rattle.std.specs.Prelude.{◌≡◌};
ghost use Rattle.cert_judge.specs.declared.stream.CertKind.TheVariants.{EarlyEnd, NotPlaying};
ghost use Rattle.witness_judge.specs.declared.outcome.Outcome.TheVariants as outcome;

use cert_judge::{BadCert, CertKind};
use model_play::kept::Kept;

/// The outcome of judging a stream as a witness.
#[derive(Drop)]
pub enum Outcome {
    /// This run, played as the witness chooses, reaches the goal.
    Played(Kept),
    /// The engine doesn't know.
    Unknown,
    Bad(BadCert),
}

/// A fault at this place.
pub(crate) fn bad(kind: CertKind, at: u64) -> Outcome
    ensures { result ≡ outcome.Bad (record { kind = kind; at = at }) }
{
    Outcome::Bad(BadCert { kind, at })
}

/// The run doesn't reach the goal, by this cycle.
pub(crate) fn not_playing(cycle: u64) -> Outcome
    ensures { result ≡ outcome.Bad (record { kind = NotPlaying; at = cycle }) }
{
    bad(CertKind::NotPlaying, cycle)
}
