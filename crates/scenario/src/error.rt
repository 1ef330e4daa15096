// Why a script can't be played.

use std::alloc::AllocError;
use thiserror::Error;

/// Why a script wasn't played to its end.
#[derive(Clone, Copy, Debug, Error)]
pub enum PlayError {
    /// What it prints wasn't taken; the sink has counted it.
    #[error("the output failed")]
    Failed,
    /// Out of memory.
    #[error("out of memory")]
    Memory,
}

impl From<AllocError> for PlayError {
    ghost use Rattle.std.specs.Prelude.{◌≡◌};
    ghost use Rattle.scenario.specs.declared.error.PlayError.TheVariants.{Memory};

    ghost from_gives = { λ _ why. why ≡ Memory };

    fn from(_: AllocError) -> Self {
        PlayError::Memory
    }
}
