// A recorder over the disk in memory.
use super::calls::{CallRow, row_of};
use super::clients::{mem_disk, put_twice, read_from};
use super::steps::Seen::{Bytes, Done, Made, Number, Refused};
use super::steps::Step::{Append, Close, Create, Cut, Link, Next, Read, Stat, Unlink, Write};
use super::steps::{Seen, Step, number, play, same, told};
use call_fs::{CallFs, FsError, Recorded, Recorder};
use mem_fs::MemFs;
use std::alloc::Global;
use std::process::Abort;

/// A call that was kept, its answer, and the bytes of a read.
type Row = (CallRow<'static>, Seen<'static>, &'static [u8]);

/// A file that gets a second name, and is read.
const TWICE_AND_READ: &[Row] = &[
    (CallRow("create", [0; 3], b"pid/a", b""), Made(1, 1), b""),
    (CallRow("append", [1, 0, 0], b"one", b""), Done, b""),
    (CallRow("sync", [1, 0, 0], b"", b""), Done, b""),
    (CallRow("close", [1, 0, 0], b"", b""), Done, b""),
    (CallRow("link", [0; 3], b"pid/a", b"mess/1/24"), Done, b""),
    (
        CallRow("open to read", [0; 3], b"mess/1/24", b""),
        Number(1),
        b"",
    ),
    (CallRow("read", [1, 1, 4], b"", b""), Bytes(b"ne"), b"ne"),
    (CallRow("close", [1, 0, 0], b"", b""), Done, b""),
    (
        CallRow("unlink", [0; 3], b"pid/b", b""),
        Refused(FsError::NotThere),
        b"",
    ),
];

/// Each kind of call, and more of them than twenty.
const MANY: &[(Step<'static>, Seen<'static>)] = &[
    (Create(b"pid/a"), Made(1, 1)),
    (Append(b"pid/a", b"abcdef"), Done),
    (Write(b"pid/a", 1, b"XY"), Done),
    (Cut(b"pid/a", 4), Done),
    (Read(b"pid/a", 0, 9), Bytes(b"aXYd")),
    (Step::Sync(b"pid/a"), Done),
    (Close(b"pid/a"), Done),
    (Link(b"pid/a", b"mess/1/1"), Done),
    (Stat(b"mess/1/1"), Seen::File(1, 4, 7)),
    (Next(b"mess/1", b""), Bytes(b"1")),
    (Next(b"mess/1", b"1"), Seen::Nothing),
    (Unlink(b"pid/a"), Done),
    (Step::Open(b"mess/1/1"), Number(7)),
    (Read(b"mess/1/1", 2, 1), Bytes(b"Y")),
    (Read(b"mess/1/1", 9, 1), Bytes(b"")),
    (Stat(b"mess/1/2"), Refused(FsError::NotThere)),
    (Unlink(b"mess/1/1"), Done),
];

/// The last five calls of them.
const LAST: &[Row] = &[
    (CallRow("read", [8, 2, 1], b"", b""), Bytes(b"Y"), b"Y"),
    (
        CallRow("open to read", [0; 3], b"mess/1/1", b""),
        Number(9),
        b"",
    ),
    (CallRow("read", [9, 9, 1], b"", b""), Bytes(b""), b""),
    (
        CallRow("stat", [0; 3], b"mess/1/2", b""),
        Refused(FsError::NotThere),
        b"",
    ),
    (CallRow("unlink", [0; 3], b"mess/1/1", b""), Done, b""),
];

/// The calls from this one on are these.
fn same_calls(rt: &impl Abort, kept: &[Recorded], from: usize, wanted: &[Row]) {
    for (at, row) in wanted.iter().enumerate() {
        let found = kept.get(from.saturating_add(at));
        assert!(rt; found.is_some_and(|one| is_seen(one, row)), "at call {at}");
    }
}

/// Whether this is seen of a kept call.
fn is_seen(kept: &Recorded, row: &Row) -> bool {
    let answer = kept.told.answer.copy();
    let bytes = kept.told.bytes.as_slice();
    row_of(&kept.call) == row.0 && told(&answer, bytes) == row.1 && bytes == row.2
}

/// The calls that a recorder kept.
fn calls(disk: &Recorder<MemFs>) -> &[Recorded] {
    disk.calls().unwrap_or(&[])
}

/// Makes calls over a recorder, and looks at what it kept.
fn make_and_read(rt: &impl Abort, alloc: Global, disk: &mut Recorder<MemFs>) {
    let twice = put_twice(alloc, disk, 5, b"pid/a", b"mess/1/24", b"one");
    same(rt, number(twice), Number(1));
    let count = read_from(alloc, disk, b"mess/1/24", 1, &mut [0; 4]);
    same(rt, number(count), Number(2));
    let missing = [(Unlink(b"pid/b"), Refused(FsError::NotThere))];
    play(rt, alloc, disk, &missing);
    same_calls(rt, calls(disk), 0, TWICE_AND_READ);
    same(rt, Number(calls(disk).len() as u64), Number(9));
}

/// Makes more than twenty calls over a recorder, and looks at what it kept.
fn make_many(rt: &impl Abort, alloc: Global, disk: &mut Recorder<MemFs>) {
    play(rt, alloc, disk, MANY);
    same(rt, Number(calls(disk).len() as u64), Number(25));
    same_calls(rt, calls(disk), 20, LAST);
    same(rt, Number(disk.disk().faults()), Number(0));
}

/// Whether all that goes as it should, over new disks, and what was recorded was done.
fn records(rt: &impl Abort, alloc: Global, is_many: bool) -> bool {
    match mem_disk(alloc, &[]) {
        Ok(disk) => {
            let mut disk = Recorder::new(alloc, disk);
            if is_many {
                make_many(rt, alloc, &mut disk);
            } else {
                make_and_read(rt, alloc, &mut disk);
            }
            let below = disk.into_inner();
            let is_one = below.bytes_of(b"pid/a") == Some(b"one".as_slice());
            drop(below);
            is_one != is_many
        }
        Err(_) => false,
    }
}

#[test]
fn a_recorder_keeps_each_call_with_its_answer(rt: HostRuntime) {
    assert!(rt; records(&rt, rt.alloc(), false));
}

#[test]
fn a_recorder_keeps_more_than_twenty_calls(rt: HostRuntime) {
    assert!(rt; records(&rt, rt.alloc(), true));
}
