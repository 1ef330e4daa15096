// A disk with a queued message, and what is left of that.

use crate::needs::put_escaped;
use crash_fs::CrashDisk;
use mail_bytes::{Memory, dec};
use mem_fs::MemFs;
use std::alloc::Global;

/// The directories of the queue that aren't split, and those of the channels that message 1 is in.
const DIRS: [&[u8]; 6] = [
    b"control",
    b"todo",
    b"intd",
    b"bounce",
    b"local/1",
    b"remote/1",
];

/// The envelope of message 1: a remote recipient and a local one.
const ENVELOPE: &[u8] = b"u0\0p7\0Fa@x\0Tb@y\0Tc@localhost\0";

/// The files of message 1 when it is queued.
const FILES: [(&[u8], &[u8]); 3] = [
    (b"mess/1/1", b"hello"),
    (b"intd/1", ENVELOPE),
    (b"todo/1", ENVELOPE),
];

/// All names that message 1 can have.
const NAMES: [&[u8]; 7] = [
    b"mess/1/1",
    b"intd/1",
    b"todo/1",
    b"info/1/1",
    b"local/1/1",
    b"remote/1/1",
    b"bounce/1",
];

/// An empty disk of which this call fails, counted from 1; of 0 none does.
pub(crate) fn disk_of(alloc: Global, fault: u64) -> Result<CrashDisk, Memory> {
    let faults = Vec::from_slice(alloc, &[fault])?;
    Ok(CrashDisk::new(MemFs::new(alloc, Vec::new(alloc), faults)?))
}

/// Makes the directories of a queue, and queues message 1.
pub(crate) fn queue(alloc: Global, disk: &mut CrashDisk) -> Result<(), Memory> {
    split_dirs(alloc, disk, b"info/")?;
    split_dirs(alloc, disk, b"mess/")?;
    dirs(alloc, disk)?;
    files(alloc, disk)
}

/// The directories of this name, 0 to 22.
fn split_dirs(alloc: Global, disk: &mut CrashDisk, name: &[u8]) -> Result<(), Memory> {
    for split in 0..23 {
        split_dir(alloc, disk, name, split)?;
    }
    Ok(())
}

/// The directory of this name and number.
fn split_dir(alloc: Global, disk: &mut CrashDisk, name: &[u8], split: u64) -> Result<(), Memory> {
    let mut text = Vec::new(alloc);
    let end = match write_split(&mut text, name, split) {
        Ok(()) => disk.dir(alloc, text.as_slice()),
        Err(memory) => Err(memory),
    };
    drop(text);
    end
}

/// Writes this name and number.
fn write_split(text: &mut Vec<u8>, name: &[u8], split: u64) -> Result<(), Memory> {
    let mut digits = [0; 20];
    let len = dec(split, &mut digits);
    text.extend_from_slice(name)?;
    text.extend_from_slice(&digits[..len])
}

/// The other directories.
fn dirs(alloc: Global, disk: &mut CrashDisk) -> Result<(), Memory> {
    for dir in DIRS {
        disk.dir(alloc, dir)?;
    }
    Ok(())
}

/// The files of message 1.
fn files(alloc: Global, disk: &mut CrashDisk) -> Result<(), Memory> {
    for (name, bytes) in FILES {
        disk.place(alloc, name, bytes)?;
    }
    Ok(())
}

/// Writes the files of message 1 that are left, each as `NAME=BYTES` and a space.
pub(crate) fn write_left(
    alloc: Global,
    left: &mut Vec<u8>,
    disk: &CrashDisk,
) -> Result<(), Memory> {
    for name in NAMES {
        add_file(alloc, left, name, disk.bytes_of(name))?;
    }
    Ok(())
}

/// Adds a file, if it is there.
fn add_file(
    alloc: Global,
    left: &mut Vec<u8>,
    name: &[u8],
    bytes: Option<&[u8]>,
) -> Result<(), Memory> {
    let Some(bytes) = bytes else {
        return Ok(());
    };
    left.extend_from_slice(name)?;
    left.push(b'=')?;
    put_escaped(alloc, left, bytes)?;
    left.push(b' ')?;
    Ok(())
}
