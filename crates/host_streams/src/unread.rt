// Words of the command line that couldn't be read.
ghost use Rattle.std.specs.Prelude.{◌≡◌, ◌≢◌, [], IfOk, IfErr};
ghost use Rattle.std.specs.declared.io.ErrorKind.TheVariants.{OutOfMemory};

use mail_bytes::Memory;
use std::alloc::{AllocError, Global};
use std::io::ErrorKind;

/// What takes the place of words that couldn't be read for this reason: no words, which are no command. It fails exactly
/// if memory ran out.
pub fn unread_words(alloc: Global, why: ErrorKind) -> Result<Vec<String>, Memory>
    ensures none { IfOk result (λ words. words.items ≡ []) }
    ensures other { IfOk result (λ _. why ≢ OutOfMemory) }
    ensures memory { IfErr result (λ _. why ≡ OutOfMemory) }
{
    match why {
        ErrorKind::OutOfMemory => Err(AllocError),
        _ => Ok(Vec::new(alloc)),
    }
}
