// Why a search stops without an answer.

ghost use Rattle.std.specs.Prelude.{◌≡◌};
ghost use Rattle.cdcl_core.specs.declared.stop.Stop.TheVariants.{OutOfMemory};

use std::alloc::AllocError;

// Out of memory, or a call of the log failed.
#[derive(Drop)]
pub(crate) enum Stop {
    OutOfMemory,
    Failed,
}

impl From<AllocError> for Stop {
    ghost from_gives = { λ _ e. e ≡ OutOfMemory };

    fn from(_: AllocError) -> Self {
        Stop::OutOfMemory
    }
}
