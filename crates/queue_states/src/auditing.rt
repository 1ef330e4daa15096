// An audit of a queue.
ghost use Rattle.std.specs.Prelude.{IfOk};
ghost use Rattle.queue_paths.specs.Dirs.{queue_dirs};
ghost use Rattle.queue_states.specs.Audit.{IsAuditOf};
ghost use Rattle.queue_states.specs.Searches.{HasSearched};

use crate::files::states_of;
use crate::listing::{count_names, gather_all};
use crate::outcome::{Audit, AuditError};
use call_fs::CallFs;
use queue_paths::queue_dirs;
use std::alloc::Global;
use std::collections::BTreeMap;

/// Looks at a queue (qmail's INTERNALS, "Queue structure"): counts the names in `pid/`, and tells the state of each number
/// that has one of the files of a message. Other names in the other directories are passed over. It searches for names and does
/// nothing else, so it opens and changes nothing. For n names it makes n searches and one more for each directory, and
/// takes time in proportion to n log n beside them. A search reads no clock, so the moment `_now` isn't looked at.
///
/// `Fault` only if the disk's count of failures rose in this call, or stands at its last value. `Missing` with a
/// directory of the queue only if that is missing; if one is, there is no `Ok`. `Memory` if there is no room for the
/// numbers.
pub fn audit<D: CallFs>(alloc: Global, disk: &mut D, _now: u64) -> Result<Audit, AuditError>
    ensures audited { IfOk result (IsAuditOf (D.disk disk.old)) }
    ensures searched { HasSearched queue_dirs
        (record { disk = D.disk disk.old; calls = D.calls disk.old; faults = D.faults disk.old })
        (record { disk = D.disk disk.new; calls = D.calls disk.new; faults = D.faults disk.new })
        result }
{
    let dirs = queue_dirs(alloc)?;
    let pids = count_names(alloc, disk, b"pid")?;
    let mut found = BTreeMap::new(alloc);
    // the first directory is `pid/`, which has no files of numbers
    gather_all(alloc, disk, &dirs[1..], &mut found)?;
    let states = states_of(alloc, &found)?;
    Ok(Audit { pids, states })
}
