// A command that only reads a queue: it makes no directory, and says which one it can't list.

use host_fs::{HostFs, System};
use host_streams::WriterSink;
use mail_bytes::{ByteText, Memory};
use outside::Sink;
use queue_limits::INPUT;
use queue_paths::queue_dirs;
use std::alloc::Global;
use std::io::ErrorKind;
use std::str;

/// Whether the command of this name only reads.
fn only_reads(name: &str) -> bool {
    name == "audit"
}

/// The files below the directory of the command of these words. Missing directories are made, unless it only reads.
pub(crate) fn open_disk<S: System + Copy>(
    system: &S,
    alloc: Global,
    words: &[String],
    dir: &[u8],
) -> Result<HostFs<S>, Memory> {
    match words.first() {
        Some(name) if only_reads(name.as_str()) => HostFs::open_as_is(system, alloc, dir),
        _ => HostFs::open(system, alloc, dir),
    }
}

/// After a command that only reads has ended with 54, standard error gets a line on the first of the queue's directories that can't
/// be listed, if there is one, and memory for the line.
pub(crate) fn tell_unlisted(
    rt: &HostRuntime,
    alloc: Global,
    words: &[String],
    dir: Option<&[u8]>,
    status: u8,
) {
    match (words.first(), dir) {
        (Some(name), Some(dir)) if only_reads(name.as_str()) && status == INPUT => {
            let _told = tell_first(rt, alloc, name.as_bytes(), dir);
        }
        _ => {}
    }
}

/// Looks at the directory of the queue, then at those below it in the order in which they are searched.
fn tell_first(rt: &HostRuntime, alloc: Global, name: &[u8], dir: &[u8]) -> Result<(), Memory> {
    if tell(rt, alloc, name, dir)? {
        return Ok(());
    }
    for below in queue_dirs(alloc)?.iter() {
        let mut path = ByteText::from_slice(alloc, dir)?;
        path.extend(b"/")?;
        path.extend(below.as_slice())?;
        if tell(rt, alloc, name, path.as_slice())? {
            return Ok(());
        }
    }
    Ok(())
}

/// Whether this directory can't be listed; if so, its line is given.
fn tell(rt: &HostRuntime, alloc: Global, name: &[u8], dir: &[u8]) -> Result<bool, Memory> {
    let Some(why) = trouble(rt, dir) else {
        return Ok(false);
    };
    let mut line = ByteText::from_slice(alloc, name)?;
    line.extend(b": ")?;
    line.extend(dir)?;
    line.extend(why)?;
    let _given = WriterSink::new(rt.stderr()).give(line.as_slice());
    Ok(true)
}

/// Why this directory can't be listed, as the end of a line; None if it can.
fn trouble(rt: &HostRuntime, dir: &[u8]) -> Option<&'static [u8]> {
    let path = str::from_utf8(dir).ok()?;
    match System::list(rt, path) {
        Ok(listing) => {
            drop(listing);
            None
        }
        Err(why) => match why.kind() {
            ErrorKind::NotFound => Some(b" is missing\n"),
            ErrorKind::NotADirectory => Some(b" is no directory\n"),
            _ => Some(b" can't be listed\n"),
        },
    }
}
