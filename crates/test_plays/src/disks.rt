// Disks with the directories of a queue and chosen names.

use crate::fields::{field, has_field, numbers, parts};
use mail_bytes::{ByteText, Memory};
use mem_fs::MemFs;
use std::alloc::Global;

/// How many names of a directory are told.
const MOST_NAMES: usize = 20;

/// The directories that a row names, or else those of a queue, 96 in all.
pub(crate) fn dirs_of(alloc: Global, lines: &str) -> Vec<ByteText> {
    if has_field(lines, "dirs") {
        return parts(alloc, lines, "dirs");
    }
    match directories(alloc) {
        Ok(dirs) => dirs,
        Err(_) => Vec::new(alloc),
    }
}

/// The directories of a queue.
fn directories(alloc: Global) -> Result<Vec<ByteText>, Memory> {
    let mut dirs = Vec::new(alloc);
    for dir in ["pid", "intd", "todo", "bounce"] {
        dirs.push(ByteText::from_slice(alloc, dir.as_bytes())?)?;
    }
    for dir in ["mess", "info", "local", "remote", "intdx", "todox"] {
        put_splits(alloc, &mut dirs, dir)?;
    }
    Ok(dirs)
}

/// Puts the 23 directories below this one at the end.
fn put_splits(alloc: Global, dirs: &mut Vec<ByteText>, dir: &str) -> Result<(), Memory> {
    for split in 0..23u64 {
        let name = format!(in alloc; "{dir}/{split}")?;
        dirs.push(ByteText::from_slice(alloc, name.as_bytes())?)?;
    }
    Ok(())
}

/// A disk with these directories except the one that a row leaves out, and the names that the row says, each of an empty
/// file, whose calls of the indexes that it says fail.
pub(crate) fn disk_of(alloc: Global, lines: &str, dirs: &[ByteText]) -> MemFs {
    let fails = numbers(alloc, lines, "disk_fails");
    let mut disk = MemFs::new(alloc, Vec::new(alloc), fails).unwrap();
    add_dirs(alloc, &mut disk, dirs, field(lines, "without").as_bytes());
    add_names(alloc, &mut disk, field(lines, "names"));
    disk
}

/// Adds these directories except one.
fn add_dirs(alloc: Global, disk: &mut MemFs, dirs: &[ByteText], without: &[u8]) {
    for dir in dirs {
        if !dir.is(without) {
            let _ = disk.dir(alloc, dir.as_slice());
        }
    }
}

/// Adds these names, each of an empty file.
fn add_names(alloc: Global, disk: &mut MemFs, names: &str) {
    for name in names.split(' ') {
        if !name.is_empty() {
            let _ = disk.place(alloc, name.as_bytes(), b"");
        }
    }
}

/// The names in these directories, parted by spaces.
pub(crate) fn names_in(alloc: Global, disk: &MemFs, dirs: &[ByteText]) -> Vec<u8> {
    let mut names = Vec::new(alloc);
    for dir in dirs {
        put_names(&mut names, disk, dir.as_slice());
    }
    names
}

/// Puts the first names of a directory at the end of a text.
fn put_names(names: &mut Vec<u8>, disk: &MemFs, dir: &[u8]) {
    let mut after: &[u8] = b"";
    for _ in 0..MOST_NAMES {
        let Some(name) = disk.name_after(dir, after) else {
            return;
        };
        put_name(names, dir, name);
        after = name;
    }
}

/// Puts a name at the end of a text, after a space if it isn't the first.
fn put_name(names: &mut Vec<u8>, dir: &[u8], name: &[u8]) {
    if !names.is_empty() {
        let _ = names.push(b' ');
    }
    let _ = names.extend_from_slice(dir);
    let _ = names.push(b'/');
    let _ = names.extend_from_slice(name);
}
