// The exit status of the program.
ghost use Rattle.std.specs.Prelude.{◌≡◌, IfErr, IfOk};
ghost use Rattle.queue_limits.specs.declared.statuses.TheConstants.{MEMORY};

use mail_bytes::Memory;
use queue_limits::MEMORY;

/// The exit status of a call, or of memory that ran out before it.
pub fn status_of(called: Result<u8, Memory>) -> u8
    ensures called { IfOk called (λ status. result ≡ status) }
    ensures memory { IfErr called (λ _. result ≡ MEMORY) }
{
    match called {
        Ok(status) => status,
        Err(_) => MEMORY,
    }
}
