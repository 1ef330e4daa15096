// How a run of a spawner ended.
ghost use Rattle.std.specs.Prelude.{◌≡◌};
ghost use Rattle.spawn_command.specs.Spawned.{status_of};

use mail_bytes::Memory;
use queue_limits::MEMORY;

/// The exit status after a run.
pub(crate) fn status_of(ran: Result<Option<u8>, Memory>) -> u8
    ensures { result ≡ status_of ran }
{
    match ran {
        Ok(Some(status)) => status,
        // after all the turns that a run may take, which nobody lives to see
        Ok(None) => MEMORY,
        Err(_) => MEMORY,
    }
}
