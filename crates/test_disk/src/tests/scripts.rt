// Scripts over the disk in memory whose machine can be stopped.
ghost use Rattle.std.specs.Prelude.{◌≤◌};

use super::steps::Step::{
    Append, Create, Cut, Link, Make, Next, Open, Read, Stat, Sync, Unlink, Write,
};
use super::steps::{Seen, Step, put, take_step, text, told};
use call_fs::{Answer, CallFs, CrashFs, FsError, PIECE, Survival};
use crash_fs::CrashDisk;
use mail_bytes::Memory;
use mem_fs::MemFs;
use std::alloc::Global;
use std::process::Abort;

/// What is done to the disk.
#[derive(Clone, Copy)]
enum Deed<'a> {
    /// A step of any disk.
    Call(Step<'a>),
    /// Adds a directory.
    Dir(&'a [u8]),
    /// Puts a file with these bytes.
    Place(&'a [u8], &'a [u8]),
    /// Replaces a file by these bytes from outside, at moment 9.
    Replace(&'a [u8], &'a [u8]),
    /// Tells the bytes of a file.
    BytesOf(&'a [u8]),
    /// Tells the name of a directory after this one, as no call does.
    NameAfter(&'a [u8], &'a [u8]),
    /// Stops the machine.
    Stop(Survival),
    /// Chooses the call from now that fails.
    Fail(u64),
    /// Chooses the number of the next new file.
    Pick(u64),
    /// Tells how often it has failed.
    Faults,
}

use Deed::{BytesOf, Call, Dir, Faults, NameAfter, Pick, Place, Replace, Stop};
use Seen::{Bytes, Done, File, Made, Nothing, Number, Refused, Taken};

/// A deed and what is seen of it.
type Row = (Deed<'static>, Seen<'static>);

/// The directories of all scripts.
const DIRS: &[Row] = &[
    (Dir(b"pid"), Done),
    (Dir(b"mess"), Done),
    (Dir(b"mess/1"), Done),
];

/// New files take the least numbers.
const LEAST_NUMBERS: &[Row] = &[
    (Call(Create(b"pid/a")), Made(1, 1)),
    (Call(Create(b"pid/b")), Made(2, 2)),
    (Call(Create(b"pid/a")), Refused(FsError::Exists)),
    (Call(Create(b"info/a")), Refused(FsError::NotThere)),
];

/// Names come in byte order.
const BYTE_ORDER: &[Row] = &[
    (Call(Create(b"pid/b")), Made(1, 1)),
    (Call(Create(b"pid/a")), Made(2, 2)),
    (Call(Create(b"pid/c")), Made(3, 3)),
    (Call(Create(b"mess/1/24")), Made(4, 4)),
    (Call(Next(b"pid", b"a")), Bytes(b"b")),
    (Call(Next(b"pid", b"c")), Nothing),
    (Call(Next(b"mess", b"")), Nothing),
    (Call(Next(b"info", b"")), Refused(FsError::NotThere)),
    (NameAfter(b"mess/1", b""), Bytes(b"24")),
];

/// Names of subdirectories are none of the directory's own, which are all found around them: the bytes `.`, `/` and `0` follow
/// each other.
const AROUND_SUBDIRECTORIES: &[Row] = &[
    (Dir(b"pid/a"), Done),
    (Dir(b"pid/a/b"), Done),
    (Dir(b"pid/a00"), Done),
    (Dir(b"pid/c"), Done),
    (Dir(b"pid0"), Done),
    (Place(b"pid/a/x", b""), Done),
    (Place(b"pid/a/y", b""), Done),
    (Place(b"pid/a/b/x", b""), Done),
    (Place(b"pid/a/b/y", b""), Done),
    (Place(b"pid/a00/0", b""), Done),
    (Place(b"pid/c/.", b""), Done),
    (Place(b"pid/c/0", b""), Done),
    (Call(Next(b"pid", b"")), Nothing),
    (Place(b"pid0/a", b""), Done),
    (Call(Next(b"pid", b"")), Nothing),
    (Place(b"pid/b", b""), Done),
    (Call(Next(b"pid", b"")), Bytes(b"b")),
    (Place(b"pid/a.", b""), Done),
    (Place(b"pid/a0", b""), Done),
    (Place(b"pid/a.z", b""), Done),
    (Call(Next(b"pid", b"")), Bytes(b"a.")),
    (Call(Next(b"pid", b"a")), Bytes(b"a.")),
    (Call(Next(b"pid", b"a.")), Bytes(b"a.z")),
    (Call(Next(b"pid", b"a.z")), Bytes(b"a0")),
    (Call(Next(b"pid", b"a/")), Bytes(b"a0")),
    (Call(Next(b"pid", b"a/b/x")), Bytes(b"a0")),
    (Call(Next(b"pid", b"a0")), Bytes(b"b")),
    (Call(Next(b"pid", b"b")), Nothing),
    (Call(Next(b"pid", b"c")), Nothing),
    (Call(Next(b"pid/a", b"")), Bytes(b"x")),
    (Call(Next(b"pid/a", b"x")), Bytes(b"y")),
    (Call(Next(b"pid/a", b"y")), Nothing),
    (Call(Next(b"pid/a/b", b"x")), Bytes(b"y")),
    (Call(Next(b"pid/c", b"")), Bytes(b".")),
    (Call(Next(b"pid/c", b".")), Bytes(b"0")),
    (NameAfter(b"pid", b"a.z"), Bytes(b"a0")),
];

/// The picks 0, 40, 40 and 7; the second and the fourth call fail.
const PICKS_AND_FAULTS: &[Row] = &[
    (Place(b"control/me", b"host"), Done),
    (BytesOf(b"control/me"), Bytes(b"host")),
    (Call(Create(b"pid/a")), Made(1, 1)),
    (Call(Create(b"pid/b")), Refused(FsError::Fault)),
    (Call(Create(b"pid/b")), Made(2, 40)),
    (Call(Unlink(b"pid/a")), Refused(FsError::Fault)),
    (Faults, Number(2)),
    (Call(Stat(b"control/me")), File(u64::MAX, 4, 0)),
    (Call(Create(b"pid/c")), Made(3, 2)),
    (Call(Create(b"pid/d")), Made(4, 7)),
    (Call(Create(b"pid/e")), Made(5, 3)),
];

/// What isn't synced is kept or lost.
const KEPT_OR_LOST: &[Row] = &[
    (Place(b"pid/placed", b"old"), Done),
    (Call(Make(b"pid/a", b"one")), Made(1, 1)),
    (Stop(Survival::Keep), Done),
    (BytesOf(b"pid/a"), Bytes(b"one")),
    (Call(Write(b"pid/a", 1, b"xyz")), Done),
    (Call(Append(b"pid/placed", b" and new")), Done),
    (Call(Make(b"pid/b", b"two")), Made(3, 2)),
    (Stop(Survival::Lose), Done),
    (BytesOf(b"pid/a"), Bytes(b"one")),
    (BytesOf(b"pid/b"), Bytes(b"")),
    (BytesOf(b"pid/placed"), Bytes(b"old")),
    (Call(Open(b"pid/b")), Number(1)),
    (NameAfter(b"pid", b"a"), Bytes(b"b")),
];

/// The draws from 7 are 599, 44999, 32612, ..: the first file has 3 + 599 mod 5 bytes.
const DRAWN: &[Row] = &[
    (Call(Make(b"pid/a", b"abcd")), Made(1, 1)),
    (Call(Sync(b"pid/a")), Done),
    (Call(Write(b"pid/a", 1, b"XY")), Done),
    (Call(Write(b"pid/a", 1, b"Z")), Done),
    (Call(Append(b"pid/a", b"efg")), Done),
    (Call(Cut(b"pid/a", 3)), Done),
    (Call(Make(b"pid/b", b"hello")), Made(7, 2)),
    (Call(Make(b"pid/c", b"gone")), Made(8, 3)),
    (Call(Unlink(b"pid/c")), Done),
    (Call(Make(b"pid/d", b"qq")), Made(9, 4)),
    (Call(Sync(b"pid/d")), Done),
    (Stop(Survival::Junk(7)), Done),
    (BytesOf(b"pid/a"), Bytes(&[97, 90, 99, 100, 113, 77, 206])),
    (BytesOf(b"pid/b"), Bytes(&[6, 2, 183, 186])),
    (BytesOf(b"pid/d"), Bytes(b"qq")),
];

/// The chosen call fails, and the chosen number is taken.
const CHOSEN: &[Row] = &[
    (Call(Make(b"pid/a", b"")), Made(1, 1)),
    (Pick(1), Taken),
    (Pick(40), Done),
    (Pick(457), Done),
    (Deed::Fail(1), Done),
    (Deed::Fail(3), Done),
    (Stop(Survival::Keep), Done),
    (Call(Make(b"pid/b", b"")), Made(1, 457)),
    (Call(Unlink(b"pid/b")), Refused(FsError::Fault)),
    (Faults, Number(1)),
    (Call(Make(b"pid/c", b"")), Made(2, 2)),
    (BytesOf(b"pid/b"), Bytes(b"")),
];

/// A file that is replaced keeps its number, is on the disk, and has the moment 9. A new one takes the greatest free number, and
/// its directory is made. The chosen call is still to come.
const REPLACED: &[Row] = &[
    (Call(Make(b"pid/a", b"one")), Made(1, 1)),
    (Deed::Fail(1), Done),
    (Replace(b"pid/a", b"other"), Done),
    (Replace(b"control/me", b"host"), Done),
    (Replace(b"control/locals", b""), Done),
    (Replace(b"control/me", b"x"), Done),
    (Faults, Number(0)),
    (Call(Stat(b"pid/a")), Refused(FsError::Fault)),
    (Call(Stat(b"pid/a")), File(1, 5, 9)),
    (Call(Stat(b"control/me")), File(u64::MAX, 1, 9)),
    (Call(Stat(b"control/locals")), File(u64::MAX - 1, 0, 9)),
    (Call(Next(b"control", b"")), Bytes(b"locals")),
    (Call(Next(b"control", b"locals")), Bytes(b"me")),
    (Stop(Survival::Lose), Done),
    (BytesOf(b"pid/a"), Bytes(b"other")),
    (BytesOf(b"control/me"), Bytes(b"x")),
];

/// With much use of memory: a number over a thousand, many names of one file, a text longer than what is read at once.
const AMPLE: &[Row] = &[
    (Pick(2000), Done),
    (Call(Make(b"pid/a", b"one")), Made(1, 2000)),
    (Call(Link(b"pid/a", b"mess/1/2000")), Done),
    (Call(Link(b"mess/1/2000", b"mess/1/2001")), Done),
    (Call(Append(b"mess/1/2000", &[b'x'; 9000])), Done),
    (Call(Stat(b"mess/1/2001")), File(2000, 9003, 7)),
    (Call(Read(b"pid/a", 2, 4)), Bytes(b"exxx")),
    (Place(b"mess/1/2002", b"two"), Done),
    (Call(Link(b"mess/1/2002", b"pid/b")), Done),
    (Call(Stat(b"pid/b")), File(u64::MAX, 3, 0)),
];

/// All calls come at the moment 7, and a placed file has the moment 0: a write of no bytes, and one past the end, set it.
const NO_BYTES: &[Row] = &[
    (Place(b"pid/a", b"one"), Done),
    (Place(b"pid/b", b"two"), Done),
    (Call(Append(b"pid/a", b"")), Done),
    (Call(Write(b"pid/b", 3, b"xyz")), Done),
    (Call(Stat(b"pid/a")), File(u64::MAX, 3, 7)),
    (Call(Stat(b"pid/b")), File(u64::MAX - 1, 3, 7)),
];

/// A name with a `/` before its first part is another name than the one without. What isn't of the form of a name has no
/// directory, so no disk has it.
const FORMS_OF_NAMES: &[Row] = &[
    (Call(Create(b"pid//a")), Refused(FsError::NotThere)),
    (Call(Create(b"/pid/a")), Refused(FsError::NotThere)),
    (Call(Create(b"/a")), Refused(FsError::NotThere)),
    (Dir(b""), Done),
    (Dir(b"/pid"), Done),
    (Call(Create(b"/a")), Made(1, 1)),
    (Call(Create(b"a")), Made(2, 2)),
    (Call(Create(b"/pid/a")), Made(3, 3)),
    (Call(Create(b"pid/a")), Made(4, 4)),
    (Call(Create(b"pid/")), Refused(FsError::NotThere)),
    (Call(Create(b"")), Refused(FsError::NotThere)),
    (Call(Create(b"//a")), Refused(FsError::NotThere)),
    (Call(Create(b"pid/b\0")), Refused(FsError::NotThere)),
    (Dir(b"pid/"), Done),
    (Call(Create(b"pid//a")), Refused(FsError::NotThere)),
    (Call(Link(b"pid/a", b"pid/")), Refused(FsError::NotThere)),
    (Call(Link(b"pid/a", b"pid//b")), Refused(FsError::NotThere)),
    (Call(Next(b"pid", b"")), Bytes(b"a")),
    (Call(Next(b"pid", b"a")), Nothing),
    (Call(Next(b"/pid", b"")), Bytes(b"a")),
    (Call(Next(b"", b"")), Bytes(b"a")),
    (Call(Unlink(b"/pid/a")), Done),
    (BytesOf(b"/pid/a"), Nothing),
    (BytesOf(b"pid/a"), Bytes(b"")),
];

/// A new disk with these picks, whose calls of these indexes fail.
fn disk_of(alloc: Global, picks: &[u64], faults: &[u64]) -> Result<CrashDisk, Memory> {
    let picks = Vec::from_slice(alloc, picks)?;
    let faults = Vec::from_slice(alloc, faults)?;
    Ok(CrashDisk::new(MemFs::new(alloc, picks, faults)?))
}

/// Plays a script over such a disk; whether that can be made.
fn play(rt: &impl Abort, alloc: Global, picks: &[u64], faults: &[u64], script: &[Row]) -> bool {
    match disk_of(alloc, picks, faults) {
        Ok(mut disk) => {
            play_rows(rt, alloc, &mut disk, DIRS);
            play_rows(rt, alloc, &mut disk, script);
            drop(disk);
            true
        }
        Err(_) => false,
    }
}

/// Does these deeds, and compares what is seen of each.
fn play_rows(rt: &impl Abort, alloc: Global, disk: &mut CrashDisk, script: &[Row]) {
    for (at, (deed, wanted)) in script.iter().enumerate() {
        let mut answer = Answer::NoName;
        let mut into = [0; PIECE];
        let seen = act(alloc, disk, *deed, &mut answer, &mut into);
        assert_eq!(rt; seen, *wanted, "at step {at}");
    }
}

/// Does a deed, with room for an answer and the bytes of a read.
fn act<'a>(
    alloc: Global,
    disk: &'a mut CrashDisk,
    deed: Deed<'_>,
    answer: &'a mut Answer,
    into: &'a mut [u8; PIECE],
) -> Seen<'a> {
    match deed {
        Call(step) => {
            *answer = take_step(alloc, disk, step, into);
            told(answer, into)
        }
        Dir(name) => put(disk.dir(alloc, name)),
        Place(name, bytes) => put(disk.place(alloc, name, bytes)),
        Replace(name, bytes) => put(disk.replace(alloc, 9, name, bytes)),
        BytesOf(name) => text(disk.bytes_of(name)),
        NameAfter(dir, after) => text(disk.name_after(dir, after)),
        Stop(how) => stop(alloc, disk, how),
        Deed::Fail(k) => fail_at(disk, k.max(1)),
        Pick(number) => pick(disk, number.max(1)),
        Faults => Number(disk.faults()),
    }
}

/// Stops the machine.
fn stop<D: CrashFs>(alloc: Global, disk: &mut D, how: Survival) -> Seen<'static> {
    put(disk.halt(alloc, how))
}

/// Chooses a call that is to fail.
fn fail_at<D: CrashFs>(disk: &mut D, k: u64) -> Seen<'static>
    requires { 1 ≤ k }
{
    disk.fault_in(k);
    Done
}

/// Chooses the number of the next new file.
fn pick<D: CrashFs>(disk: &mut D, number: u64) -> Seen<'static>
    requires { 1 ≤ number }
{
    match disk.pick(number) {
        Ok(()) => Done,
        Err(_) => Taken,
    }
}

#[test]
fn new_files_take_the_least_numbers(rt: HostRuntime) {
    assert!(rt; play(&rt, rt.alloc(), &[], &[], LEAST_NUMBERS));
    assert!(rt; play(&rt, rt.alloc(), &[], &[], FORMS_OF_NAMES));
}

#[test]
fn names_come_in_byte_order(rt: HostRuntime) {
    assert!(rt; play(&rt, rt.alloc(), &[], &[], BYTE_ORDER));
    assert!(rt; play(&rt, rt.alloc(), &[], &[], AROUND_SUBDIRECTORIES));
}

#[test]
fn planned_calls_fail_and_picks_are_taken(rt: HostRuntime) {
    assert!(rt; play(&rt, rt.alloc(), &[0, 40, 40, 7], &[2, 4], PICKS_AND_FAULTS));
}

#[test]
fn bytes_that_are_not_synced_are_kept_or_lost(rt: HostRuntime) {
    assert!(rt; play(&rt, rt.alloc(), &[], &[], KEPT_OR_LOST));
}

#[test]
fn bytes_that_are_not_synced_are_drawn(rt: HostRuntime) {
    assert!(rt; play(&rt, rt.alloc(), &[], &[], DRAWN));
}

#[test]
fn the_chosen_call_fails_and_the_chosen_number_is_taken(rt: HostRuntime) {
    assert!(rt; play(&rt, rt.alloc(), &[], &[], CHOSEN));
}

#[test]
fn no_call_fails_for_memory_that_is_there(rt: HostRuntime) {
    assert!(rt; play(&rt, rt.alloc(), &[], &[], AMPLE));
    assert!(rt; play(&rt, rt.alloc(), &[], &[], NO_BYTES));
    assert!(rt; play(&rt, rt.alloc(), &[], &[], REPLACED));
}
