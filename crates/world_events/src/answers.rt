// What a world answers: what a step did, or why it refuses.
ghost use Rattle.std.specs.Prelude.{◌≡◌};

use actor_names::ActorName;
use std::alloc::AllocError;
use thiserror::Error;

/// What a step did.
#[derive(Clone, Copy)]
pub struct Did {
    /// The index of its event in the history, from 0.
    pub at: u64,
    /// The exit status, if the actor ended.
    pub ended: Option<u8>,
    /// Whether an idle turn has just ended.
    pub idle: bool,
}

impl Did {
    /// A step with this event.
    pub fn new(at: u64, ended: Option<u8>, idle: bool) -> Did
        ensures { result ≡ record { at = at; ended = ended; idle = idle } }
    {
        Did { at, ended, idle }
    }
}

/// Why the world refuses; it is then as before.
#[derive(Debug, Drop, Error)]
pub enum WorldError {
    /// A member of a generation lives: the first in the order sender, clean, lspawn, rspawn.
    #[error("a member of the generation lives")]
    Alive(ActorName),
    /// The actor has ended or was stopped; with the index of that event in the history, from 0.
    #[error("the actor has ended")]
    Gone(ActorName, u64),
    /// The actor can't do anything yet.
    #[error("the actor waits")]
    NotWaiting(ActorName),
    /// No actor of this name was started.
    #[error("there is no actor of this name")]
    Unknown,
    /// The name of a mail was used, or is no name of a mail.
    #[error("the name is taken")]
    Taken,
    /// The moment lies before the present one, which is told.
    #[error("the moment has passed")]
    Past(u64),
    /// Out of memory.
    #[error("out of memory")]
    Memory,
}

impl From<AllocError> for WorldError {
    ghost use Rattle.std.specs.Prelude.{◌≡◌};
    ghost use Rattle.world_events.specs.declared.answers.WorldError.TheVariants.{Memory};

    ghost from_gives = { λ _ why. why ≡ Memory };

    fn from(_: AllocError) -> Self {
        WorldError::Memory
    }
}
