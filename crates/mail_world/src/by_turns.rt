// A world whose actors are stepped in turn.

use crate::{ActorName, Did, World, WorldError};
use call_fs::CallFs;
use mail_bytes::Memory;
use std::alloc::{AllocError, Global};
use yard_lock::Stepped;

/// What is asked is the name of an actor; the answer is what a step of it did, or why there was none.
impl<D: CallFs> Stepped for World<D> {
    ghost use Rattle.mail_world.specs.Moves.{moves};

    type In = ActorName;

    type Out = Result<Did, WorldError>;

    ghost moves = { moves D.plan D.disk };

    fn apply(
        &mut self,
        alloc: Global,
        actor: ActorName,
    ) -> Result<Result<Did, WorldError>, Memory> {
        let answer = self.step(alloc, &actor);
        if matches!(answer, Err(WorldError::Memory)) {
            return Err(AllocError);
        }
        Ok(answer)
    }
}
