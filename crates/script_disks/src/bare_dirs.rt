// The directories of each script's disk.
ghost use Rattle.std.specs.Prelude.{◌≡◌, ◌++◌, ◌∷◌, [], IfOk, OnOk};
ghost use Rattle.script_disks.specs.FirstDisk.{bare_dirs};

use mail_bytes::{ByteText, Memory};
use queue_paths::queue_dirs;
use std::alloc::Global;

/// The directories of each script's disk.
pub fn bare_dirs(alloc: Global) -> Result<Vec<ByteText>, Memory>
    ensures { IfOk result (λ dirs. dirs.items ≡ bare_dirs) }
{
    let mut dirs = Vec::new(alloc);
    put_dir(alloc, &mut dirs, b"control")?;
    put_dir(alloc, &mut dirs, b"users")?;
    put_dir(alloc, &mut dirs, b"home")?;
    dirs.append(&mut queue_dirs(alloc)?)?;
    Ok(dirs)
}

/// Puts a directory after others.
pub fn put_dir(alloc: Global, dirs: &mut Vec<ByteText>, dir: &[u8]) -> Result<(), Memory>
    ensures { OnOk result (dirs.new.items ≡ dirs.old.items ++ dir.now ∷ []) }
{
    dirs.push(ByteText::from_slice(alloc, dir)?)?;
    Ok(())
}
