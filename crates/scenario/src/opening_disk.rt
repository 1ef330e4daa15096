// The disk that a script begins with, on which calls may fail by choice.
ghost use Rattle.std.specs.Prelude.{◌≡◌, IfOk, Some};
ghost use Rattle.call_fs.specs.Plan.{no_plan};
ghost use Rattle.crash_fs.specs.Crash.{crash_disk, crash_plan};
ghost use Rattle.script_disks.specs.FirstDisk.{IsFirstDisk};

use crash_fs::CrashDisk;
use mail_bytes::Memory;
use script_disks::entered_disk;
use script_words::Entry;
use std::alloc::Global;

/// The disk that a script with these entries begins with. Nothing of it is chosen to fail.
pub fn first_disk(alloc: Global, opening: &[Entry]) -> Result<CrashDisk, Memory>
    ensures disk { IfOk result (λ disk. IsFirstDisk opening.now (crash_disk disk)) }
    ensures plan { IfOk result (λ disk. crash_plan disk ≡ Some no_plan) }
{
    let disk = entered_disk(alloc, opening)?;
    Ok(CrashDisk::new(disk))
}
