// Code over any disk, whose contracts say what its callers rest on, and a test of it over the disk in memory.
ghost use Rattle.std.specs.Prelude.{◌≡◌, ◌≢◌, ◌≤◌, ℕ, length, Some, None, IfOk};
ghost use Rattle.call_fs.specs.Maps.{put_at};
ghost use Rattle.call_fs.specs.Disk.{IsSynced};
ghost use Rattle.mail_bytes.specs.Moments.{IsMoment};
ghost use Rattle.call_fs.specs.Told.{HasCause};
ghost use Rattle.mail_bytes.specs.Told.{Meets};

use super::steps::Seen::{Bytes, Done, File, Made, Number, Refused};
use super::steps::Step::{Create, Link, Stat, Unlink};
use super::steps::{Seen, Step, done, made, number, play, put, same, text};
use call_fs::{CallFs, FsError, How, Survival};
use mail_bytes::Memory;
use mem_fs::MemFs;
use std::alloc::Global;
use std::process::Abort;

/// Makes a file with these bytes, waits until they are on the disk, and gives it two names. After an `Err` some of that
/// may have been done.
pub fn put_twice<D: CallFs>(
    alloc: Global,
    disk: &mut D,
    now: u64,
    first: &[u8],
    second: &[u8],
    bytes: &[u8],
) -> Result<u64, FsError>
    requires { IsMoment now }
    ensures names { IfOk result (λ number. Meets (D.disk disk.old) (D.disk disk.new)
        (λ before after. after.names ≡ put_at (put_at before.names first.now (Some number)) second.now (Some number))) }
    ensures free { IfOk result (λ number. Meets (D.disk disk.old) (D.disk disk.new)
        (λ before after. (before.names first.now ≡ None) × (before.names second.now ≡ None))) }
    ensures synced { IfOk result (λ number. Meets (D.disk disk.old) (D.disk disk.new)
        (λ before after. IsSynced (after.files number) bytes.now)) }
    ensures others { IfOk result (λ number. Meets (D.disk disk.old) (D.disk disk.new)
        (λ before after. (other : ℕ) → other ≢ number → after.files other ≡ before.files other)) }
    ensures closed { IfOk result (λ number. Meets (D.disk disk.old) (D.disk disk.new)
        (λ before after. after.opens ≡ before.opens)) }
    ensures cause { HasCause (D.faults disk.old) (D.faults disk.new) result }
{
    let (fd, number) = disk.create_excl(alloc, now, first)?;
    disk.append(alloc, now, fd, bytes)?;
    disk.sync(fd)?;
    disk.close(fd)?;
    disk.link(alloc, first, second)?;
    Ok(number)
}

/// Overwrites what lies of a file from its second byte on, and cuts it. After an `Err` some of that may have been done.
fn mend<D: CallFs>(
    alloc: Global,
    disk: &mut D,
    now: u64,
    name: &[u8],
    bytes: &[u8],
    len: u64,
) -> Result<(), FsError>
    requires { IsMoment now }
    ensures { HasCause (D.faults disk.old) (D.faults disk.new) result }
{
    let fd = disk.open(alloc, name, How::Write)?;
    disk.write_at(alloc, now, fd, 1, bytes)?;
    disk.truncate(fd, len)?;
    disk.sync(fd)?;
    disk.close(fd)?;
    Ok(())
}

/// Reads from a place of a file on. After an `Err` the file may be left open.
pub fn read_from<D: CallFs>(
    alloc: Global,
    disk: &mut D,
    name: &[u8],
    at: u64,
    into: &mut [u8],
) -> Result<u64, FsError>
    ensures count { IfOk result (λ count. count ≤ length into.old) }
    ensures cause { HasCause (D.faults disk.old) (D.faults disk.new) result }
{
    let fd = disk.open(alloc, name, How::Read)?;
    let count = disk.read_at(fd, at, into)?;
    disk.close(fd)?;
    Ok(count)
}

/// A disk with the directories of these tests, whose calls of these indexes fail. A directory that can't be made shows in what
/// is made below it.
pub fn mem_disk(alloc: Global, faults: &[u64]) -> Result<MemFs, Memory> {
    let faults = Vec::from_slice(alloc, faults)?;
    let mut disk = MemFs::new(alloc, Vec::new(alloc), faults)?;
    for dir in [b"pid".as_slice(), b"mess", b"mess/1"] {
        let _ = disk.dir(alloc, dir);
    }
    Ok(disk)
}

/// A file with two names, until one is unlinked.
const TWO_NAMES: &[(Step<'static>, Seen<'static>)] = &[
    (Link(b"pid/a", b"mess/1/24"), Refused(FsError::Exists)),
    (Link(b"pid/c", b"mess/1/25"), Refused(FsError::NotThere)),
    (Unlink(b"pid/a"), Done),
    (Unlink(b"pid/a"), Refused(FsError::NotThere)),
    (Stat(b"mess/1/24"), File(1, 3, 5)),
];

/// Whether a file has two names until one is taken away.
fn has_two_names(rt: &impl Abort, alloc: Global, disk: &mut MemFs) -> bool {
    let twice = put_twice(alloc, disk, 5, b"pid/a", b"mess/1/24", b"one");
    same(rt, number(twice), Number(1));
    play(rt, alloc, disk, TWO_NAMES);
    same(rt, text(disk.bytes_of(b"mess/1/24")), Bytes(b"one"));
    true
}

/// Whether files are read, overwritten and cut; the thirteenth call fails.
fn is_mended(rt: &impl Abort, alloc: Global, disk: &mut MemFs) -> bool {
    same(rt, put(disk.place(alloc, b"pid/a", b"abcdef")), Done);
    let mut into = [0; 4];
    let count = read_from(alloc, disk, b"pid/a", 4, &mut into);
    same(rt, number(count), Number(2));
    same(rt, Bytes(&into), Bytes(b"ef\0\0"));
    let mended = mend(alloc, disk, 5, b"pid/a", b"xyz", 3);
    same(rt, done(mended), Done);
    same(rt, text(disk.bytes_of(b"pid/a")), Bytes(b"axy"));
    let mended = mend(alloc, disk, 6, b"pid/a", b"1234", 9);
    same(rt, done(mended), Done);
    same(rt, text(disk.bytes_of(b"pid/a")), Bytes(b"a12"));
    let missing = mend(alloc, disk, 7, b"pid/b", b"", 0);
    same(rt, done(missing), Refused(FsError::NotThere));
    let failed = read_from(alloc, disk, b"pid/a", 0, &mut into);
    same(rt, number(failed), Refused(FsError::Fault));
    play(rt, alloc, disk, &[(Stat(b"pid/a"), File(u64::MAX, 3, 6))]);
    true
}

/// Whether a number is picked for one file.
fn is_picked(rt: &impl Abort, alloc: Global, disk: &mut MemFs) -> bool {
    play(rt, alloc, disk, &[(Create(b"pid/a"), Made(1, 1))]);
    let picked = disk.create_picked(alloc, 7, b"pid/b", Some(3000));
    same(rt, made(picked), Made(2, 3000));
    let taken = disk.create_picked(alloc, 7, b"pid/c", Some(3000));
    same(rt, made(taken), Made(3, 2));
    same(rt, put(disk.halt(alloc, Survival::Keep)), Done);
    disk.is_free(4) && !disk.is_free(3000)
}

/// What is tried with a new disk.
#[derive(Clone, Copy)]
enum Try {
    TwoNames,
    Mended,
    Picked,
}

/// Whether that goes as it should.
fn holds(rt: &impl Abort, alloc: Global, what: Try, faults: &[u64]) -> bool {
    match mem_disk(alloc, faults) {
        Ok(mut disk) => {
            let is_so = match what {
                Try::TwoNames => has_two_names(rt, alloc, &mut disk),
                Try::Mended => is_mended(rt, alloc, &mut disk),
                Try::Picked => is_picked(rt, alloc, &mut disk),
            };
            drop(disk);
            is_so
        }
        Err(_) => false,
    }
}

#[test]
fn a_file_has_two_names_until_one_is_taken_away(rt: HostRuntime) {
    assert!(rt; holds(&rt, rt.alloc(), Try::TwoNames, &[]));
}

#[test]
fn files_are_read_overwritten_and_cut(rt: HostRuntime) {
    assert!(rt; holds(&rt, rt.alloc(), Try::Mended, &[13]));
}

// What the disk in memory does besides its calls; the disk whose machine can be stopped hands the rest on.
#[test]
fn a_number_is_picked_for_one_file(rt: HostRuntime) {
    assert!(rt; holds(&rt, rt.alloc(), Try::Picked, &[]));
}
