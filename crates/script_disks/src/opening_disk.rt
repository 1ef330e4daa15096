// The disk that a script begins with.
ghost use Rattle.std.specs.Prelude.{◌≡◌, [], IfOk, OnOk};
ghost use Rattle.mem_fs.specs.MemDisk.{disk_of, held_nothing, with_held};
ghost use Rattle.script_words.specs.Entries.{dirs_above};
ghost use Rattle.call_fs.specs.Placing.{HasMade};
ghost use Rattle.script_disks.specs.FirstDisk.{with_dirs, AreMade, Enters, EntersAll, IsFirstDisk};

use crate::bare_dirs::{bare_dirs, put_dir};
use mail_bytes::{ByteText, Memory};
use mem_fs::MemFs;
use script_words::Entry;
use std::alloc::Global;

/// The disk in memory that a script with these entries begins with. It has no plan.
pub fn entered_disk(alloc: Global, opening: &[Entry]) -> Result<MemFs, Memory>
    ensures disk { IfOk result (λ disk. IsFirstDisk opening.now (disk_of disk.held)) }
    ensures quiet { IfOk result (λ disk. (disk.picks ≡ []) × (disk.plan ≡ [])) }
{
    // a disk in memory doesn't tell its directories, so they are kept beside it
    let mut dirs = bare_dirs(alloc)?;
    let mut disk = disk_with(alloc, &dirs)?;
    enter_all(alloc, &mut disk, &mut dirs, opening)?;
    Ok(disk)
}

/// A disk with these directories and no file.
fn disk_with(alloc: Global, dirs: &[ByteText]) -> Result<MemFs, Memory>
    ensures disk { IfOk result (λ disk. disk_of disk.held ≡ with_dirs (disk_of held_nothing) dirs.now) }
    ensures quiet { IfOk result (λ disk. (disk.picks ≡ []) × (disk.plan ≡ [])) }
{
    let mut disk = MemFs::new(alloc, Vec::new(alloc), Vec::new(alloc))?;
    for dir in dirs {
        disk.dir(alloc, dir.as_slice())?;
    }
    Ok(disk)
}

/// Puts entries on a disk, one after the other. The condition: these are its directories.
fn enter_all(
    alloc: Global,
    disk: &mut MemFs,
    dirs: &mut Vec<ByteText>,
    entries: &[Entry],
) -> Result<(), Memory>
    requires { dirs.old.items ≡ disk.old.held.dirs }
    ensures entered { OnOk result (EntersAll (disk_of disk.old.held) entries.now (disk_of disk.new.held)) }
    ensures rest { disk.new ≡ with_held disk.old disk.new.held }
{
    for entry in entries {
        enter(alloc, disk, dirs, entry)?;
    }
    Ok(())
}

/// Puts an entry on a disk. The condition: these are its directories.
fn enter(
    alloc: Global,
    disk: &mut MemFs,
    dirs: &mut Vec<ByteText>,
    entry: &Entry,
) -> Result<(), Memory>
    requires { dirs.old.items ≡ disk.old.held.dirs }
    ensures entered { OnOk result (Enters (disk_of disk.old.held) entry.now (disk_of disk.new.held)) }
    ensures listed { OnOk result (dirs.new.items ≡ disk.new.held.dirs) }
    ensures rest { disk.new ≡ with_held disk.old disk.new.held }
{
    match entry {
        Entry::File { path, bytes } => {
            make_above(alloc, disk, dirs, path.as_slice())?;
            disk.place(alloc, path.as_slice(), bytes.as_slice())
        }
        Entry::Dir(path) => {
            make_above(alloc, disk, dirs, path.as_slice())?;
            make(alloc, disk, dirs, path.as_slice())
        }
    }
}

/// Makes the directories above a path if they are missing. The condition: these are the disk's directories.
fn make_above(
    alloc: Global,
    disk: &mut MemFs,
    dirs: &mut Vec<ByteText>,
    path: &[u8],
) -> Result<(), Memory>
    requires { dirs.old.items ≡ disk.old.held.dirs }
    ensures made { OnOk result (AreMade (disk_of disk.old.held) (dirs_above path.now) (disk_of disk.new.held)) }
    ensures listed { OnOk result (dirs.new.items ≡ disk.new.held.dirs) }
    ensures rest { disk.new ≡ with_held disk.old disk.new.held }
{
    for at in 0..path.len() {
        if path[at] == b'/' {
            make(alloc, disk, dirs, &path[..at])?;
        }
    }
    Ok(())
}

/// Makes a directory if it is missing. The condition: these are the disk's directories.
fn make(alloc: Global, disk: &mut MemFs, dirs: &mut Vec<ByteText>, dir: &[u8]) -> Result<(), Memory>
    requires { dirs.old.items ≡ disk.old.held.dirs }
    ensures made { OnOk result (HasMade (disk_of disk.old.held) dir.now (disk_of disk.new.held)) }
    ensures listed { OnOk result (dirs.new.items ≡ disk.new.held.dirs) }
    ensures rest { disk.new ≡ with_held disk.old disk.new.held }
{
    if dirs.iter().any(|d| d.is(dir)) {
        return Ok(());
    }
    disk.dir(alloc, dir)?;
    put_dir(alloc, dirs, dir)
}
