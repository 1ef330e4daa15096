// The directories that hold the queue's files.
ghost use Rattle.std.specs.Prelude.{◌≡◌, ◌++◌, ◌∷◌, [], IfOk, OnOk};
ghost use Rattle.mail_bytes.specs.Decimal.{digits};
ghost use Rattle.queue_paths.specs.Dirs.{queue_dirs, splits_of};

use mail_bytes::{ByteText, Memory, dec};
use std::alloc::Global;

/// The directories that hold files of a message themselves.
pub const FLAT_DIRS: [&[u8]; 3] = [b"intd", b"todo", b"bounce"];

/// Those that have one directory for each split.
pub const SPLIT_DIRS: [&[u8]; 6] = [b"mess", b"info", b"local", b"remote", b"intdx", b"todox"];

/// How many splits there are; the first is 0.
pub const SPLITS: u64 = 23;

/// The directory of a split: `DIR/SPLIT`. Fails only if out of memory.
pub fn split_dir(alloc: Global, dir: &[u8], split: u64) -> Result<Vec<u8>, Memory>
    ensures { IfOk result (λ name. name.items ≡ dir.now ++ 47 ∷ digits split) }
{
    let mut text = [0; 20];
    let len = dec(split, &mut text);
    let mut name = Vec::from_slice(alloc, dir)?;
    name.push(b'/')?;
    name.extend_from_slice(&text[..len])?;
    Ok(name)
}

/// The directories that hold the queue's files, each without those above it: `pid`, the flat ones, and for each of the
/// others those of its splits. Fails only if out of memory.
pub fn queue_dirs(alloc: Global) -> Result<Vec<ByteText>, Memory>
    ensures { IfOk result (λ dirs. dirs.items ≡ queue_dirs) }
{
    let mut dirs = Vec::new(alloc);
    put_queue_dirs(alloc, &mut dirs)?;
    Ok(dirs)
}

/// Puts the queue's directories after others.
fn put_queue_dirs(alloc: Global, dirs: &mut Vec<ByteText>) -> Result<(), Memory>
    ensures { OnOk result (dirs.new.items ≡ dirs.old.items ++ queue_dirs) }
{
    put_dir(alloc, dirs, b"pid")?;
    put_dir(alloc, dirs, b"intd")?;
    put_dir(alloc, dirs, b"todo")?;
    put_dir(alloc, dirs, b"bounce")?;
    put_splits(alloc, dirs, b"mess")?;
    put_splits(alloc, dirs, b"info")?;
    put_splits(alloc, dirs, b"local")?;
    put_splits(alloc, dirs, b"remote")?;
    put_splits(alloc, dirs, b"intdx")?;
    put_splits(alloc, dirs, b"todox")
}

/// Puts the directories of the splits after others, from the last to the first.
fn put_splits(alloc: Global, dirs: &mut Vec<ByteText>, dir: &[u8]) -> Result<(), Memory>
    ensures { OnOk result (dirs.new.items ≡ dirs.old.items ++ splits_of dir.now SPLITS) }
{
    let mut split = SPLITS;
    while split > 0 {
        split -= 1;
        let name = split_dir(alloc, dir, split)?;
        put_dir(alloc, dirs, &name)?;
    }
    Ok(())
}

/// Puts a directory after others.
fn put_dir(alloc: Global, dirs: &mut Vec<ByteText>, dir: &[u8]) -> Result<(), Memory>
    ensures { OnOk result (dirs.new.items ≡ dirs.old.items ++ dir.now ∷ []) }
{
    dirs.push(ByteText::from_slice(alloc, dir)?)?;
    Ok(())
}
