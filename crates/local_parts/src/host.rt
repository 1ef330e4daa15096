// The name of the host.
ghost use Rattle.std.specs.Prelude.{◌≡◌, IfOk};
ghost use Rattle.local_parts.specs.Host.{host_in};

use address_rules::{ControlError, Controls};
use mail_bytes::{ByteText, Memory};
use std::alloc::{AllocError, Global};

/// The host that control/me names; `None` if that is no good control file (qmail-control(5)). Fails only if out of memory.
pub fn host_in(alloc: Global, bytes: &[u8]) -> Result<Option<ByteText>, Memory>
    ensures { IfOk result (λ host. host ≡ host_in bytes.now) }
{
    let me = ByteText::from_slice(alloc, bytes)?;
    let files = [
        Some(me),
        None,
        None,
        None,
        None,
        None,
        None,
        None,
        None,
        None,
        None,
        None,
    ];
    match Controls::read(alloc, &files) {
        Ok(controls) => Ok(Some(controls.me)),
        Err(ControlError::BadControl { .. }) => Ok(None),
        Err(ControlError::Memory) => Err(AllocError),
    }
}
