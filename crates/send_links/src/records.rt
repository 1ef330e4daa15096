// What a channel file says.
ghost use Rattle.std.specs.Prelude.{◌≡◌, IfOk};
ghost use Rattle.std.specs.Option.{option_map};
ghost use Rattle.send_links.specs.Records.{records_of};

use envelope_records::{Record, RecordError, records};
use mail_bytes::Memory;
use std::alloc::{AllocError, Global};

/// The records of a channel file; `None` if it has anything but records. Fails only if out of memory.
pub fn records_in(alloc: Global, bytes: &[u8]) -> Result<Option<Vec<Record>>, Memory>
    ensures { IfOk result (λ found. option_map (λ (v : _). v.items) found ≡ records_of bytes.now) }
{
    match records(alloc, bytes) {
        Ok(found) => Ok(Some(found)),
        Err(RecordError::Memory) => Err(AllocError),
        Err(RecordError::Letter { .. }) => Ok(None),
        Err(RecordError::Unended { .. }) => Ok(None),
    }
}
