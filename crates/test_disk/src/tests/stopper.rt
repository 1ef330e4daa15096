// A disk that is unplugged after its first calls.
use super::clients::mem_disk;
use super::steps::Seen::{Bytes, Done, Made, Number, Refused};
use super::steps::Step::{Append, Close, Make, Next, Read, Stat, Sync, Unlink};
use super::steps::{Seen, Step, play, same};
use call_fs::{CallFs, FsError};
use crash_fs::{CrashDisk, Stopper};
use std::alloc::Global;
use std::process::Abort;

/// Four calls are passed on.
const UNPLUGGED: &[(Step<'static>, Seen<'static>)] = &[
    (Make(b"pid/a", b"one"), Made(1, 1)),
    (Sync(b"pid/a"), Done),
    (Unlink(b"pid/a"), Refused(FsError::Fault)),
    (Append(b"pid/a", b"two"), Refused(FsError::Fault)),
];

/// Each call is passed on, and takes the memory that is there.
const PLUGGED: &[(Step<'static>, Seen<'static>)] = &[
    (Make(b"pid/a", b"one"), Made(1, 1)),
    (Append(b"pid/a", b"two"), Done),
    (Close(b"pid/a"), Done),
    (Read(b"pid/a", 2, 9), Bytes(b"etwo")),
    (Stat(b"pid/a"), Seen::File(1, 6, 7)),
    (Next(b"pid", b""), Bytes(b"a")),
];

/// Plays these steps over a disk that is unplugged after so many calls, and counts its faults; whether that can be made, and
/// `pid/a` has these bytes then.
fn plays(
    rt: &impl Abort,
    alloc: Global,
    calls: u64,
    steps: &[(Step<'_>, Seen<'_>)],
    faults: u64,
    bytes: &[u8],
) -> bool {
    match mem_disk(alloc, &[]) {
        Ok(below) => {
            let mut disk = Stopper::new(CrashDisk::new(below), calls);
            play(rt, alloc, &mut disk, steps);
            same(rt, Number(disk.faults()), Number(faults));
            let is_left = disk.disk().bytes_of(b"pid/a") == Some(bytes);
            drop(disk);
            is_left
        }
        Err(_) => false,
    }
}

#[test]
fn a_stopper_passes_its_first_calls_on(rt: HostRuntime) {
    assert!(rt; plays(&rt, rt.alloc(), 4, UNPLUGGED, 2, b"one"));
}

#[test]
fn a_stopper_passes_each_kind_of_call_on(rt: HostRuntime) {
    assert!(rt; plays(&rt, rt.alloc(), 99, PLUGGED, 0, b"onetwo"));
}
