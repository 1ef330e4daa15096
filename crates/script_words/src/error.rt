// Why a text is no such words.

use std::alloc::{AllocError, AllocFailed};
use thiserror::Error;

/// Why a text isn't made of the words that are read.
#[derive(Clone, Copy, Debug, Error)]
pub enum WordError {
    /// It isn't in the grammar.
    #[error("not in the grammar of scripts")]
    Malformed,
    /// Out of memory.
    #[error("out of memory")]
    Memory,
}

impl From<AllocError> for WordError {
    ghost use Rattle.std.specs.Prelude.{◌≡◌};
    ghost use Rattle.script_words.specs.declared.error.WordError.TheVariants.{Memory};

    ghost from_gives = { λ _ why. why ≡ Memory };

    fn from(_: AllocError) -> Self {
        WordError::Memory
    }
}

impl<T: Drop> From<AllocFailed<T>> for WordError {
    ghost use Rattle.std.specs.Prelude.{◌≡◌};
    ghost use Rattle.script_words.specs.declared.error.WordError.TheVariants.{Memory};

    ghost from_gives = { λ _ why. why ≡ Memory };

    fn from(_: AllocFailed<T>) -> Self {
        WordError::Memory
    }
}
