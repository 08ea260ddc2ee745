// How propagation ends.

ghost use Rattle.std.specs.Prelude.{◌≡◌};
ghost use Rattle.unit_propagation.specs.Propagator.{is_conflict};

/// How propagation from assumptions ends.
#[derive(Clone, Copy, Debug, PartialEq, Eq)]
pub enum Outcome {
    /// All assumptions are true, and nothing is left to do.
    Complete,
    /// The clause with this number is falsified.
    Falsified(u32),
    /// An assumption is false.
    Opposed,
}

impl Outcome {
    /// Whether a clause or an assumption is falsified.
    pub fn is_conflict(self) -> bool
        ensures { result ≡ is_conflict self }
    {
        match self {
            Outcome::Complete => false,
            Outcome::Falsified(_) => true,
            Outcome::Opposed => true,
        }
    }
}
