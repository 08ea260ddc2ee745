// Why reading stops.

ghost use Rattle.std.specs.Prelude.{◌≡◌};
ghost use Rattle.design_reader.specs.declared.stop.Stop.TheVariants.{Memory, Fault};

use crate::fault::ReadFaultKind;
use std::alloc::{AllocError, AllocFailed};

/// Out of memory, or a word that is refused.
#[derive(Clone, Copy, Debug, PartialEq, Eq)]
pub enum Stop {
    Memory,
    Fault(ReadFaultKind),
}

impl From<AllocError> for Stop {
    ghost from_gives = { λ _ e. e ≡ Memory };

    fn from(_e: AllocError) -> Stop {
        Stop::Memory
    }
}

impl<T: Drop> From<AllocFailed<T>> for Stop {
    ghost from_gives = { λ _ e. e ≡ Memory };

    fn from(_e: AllocFailed<T>) -> Stop {
        Stop::Memory
    }
}

impl From<ReadFaultKind> for Stop {
    ghost from_gives = { λ kind e. e ≡ Fault kind };

    fn from(kind: ReadFaultKind) -> Stop {
        Stop::Fault(kind)
    }
}
