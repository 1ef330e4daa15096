// What comes of an audit.
use crate::state_list::StateList;
use mail_bytes::ByteText;
use std::alloc::AllocError;
use thiserror::Error;

/// What a queue holds.
#[derive(Drop)]
pub struct Audit {
    /// How many names `pid/` has, whatever they are.
    pub pids: u64,
    /// Each number that has one of the files of a message, in ascending order, with its state.
    pub states: StateList,
}

/// Why there is no audit of a queue.
#[derive(Debug, Drop, Error)]
pub enum AuditError {
    /// The disk failed at a call, and has counted that.
    #[error("the queue couldn't be listed")]
    Fault,
    /// This directory of the queue is missing.
    #[error("a directory of the queue is missing")]
    Missing(ByteText),
    /// Out of memory.
    #[error("out of memory")]
    Memory,
}

impl From<AllocError> for AuditError {
    ghost use Rattle.std.specs.Prelude.{◌≡◌};
    ghost use Rattle.queue_states.specs.declared.outcome.AuditError.TheVariants.{Memory};

    ghost from_gives = { λ _ why. why ≡ Memory };

    fn from(_: AllocError) -> Self {
        AuditError::Memory
    }
}
