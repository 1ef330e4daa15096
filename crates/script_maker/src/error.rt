// Why a script can't be made.

use std::alloc::AllocError;
use thiserror::Error;

/// Why a script wasn't made to its end.
#[derive(Clone, Copy, Debug, PartialEq, Eq, Error)]
pub enum MakeError {
    /// The output failed; it has counted that.
    #[error("the output failed")]
    Failed,
    /// Out of memory.
    #[error("out of memory")]
    Memory,
}

impl From<AllocError> for MakeError {
    ghost use Rattle.std.specs.Prelude.{◌≡◌};
    ghost use Rattle.script_maker.specs.declared.error.MakeError.TheVariants.{Memory};

    ghost from_gives = { λ _ why. why ≡ Memory };

    fn from(_: AllocError) -> Self {
        MakeError::Memory
    }
}
