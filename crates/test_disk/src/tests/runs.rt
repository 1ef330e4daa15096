// Lists of calls, over both forms of the disk in memory.
use call_fs::{Answer, Call, CallData, CallFs, Fd, How, Told};
use call_runs::{PlainFs, run_calls};
use mail_bytes::Memory;
use mem_fs::MemFs;
use std::alloc::Global;

/// What an injector writes of a message and of its envelope.
const MESSAGE: &[u8] = b"Received: (qmail 77 invoked by uid 1000); 1 Jan 1970 00:00:00 -0000\nhi\n";

const ENVELOPE: &[u8] = b"u1000\0p77\0Fa@x\0Tb@y\0";

/// The calls with which a message is queued, and then files that take the numbers which are free.
const CALLS: [Call<'static>; 22] = [
    Call::CreateExcl(b"pid/77.0.1"),
    Call::Link(b"pid/77.0.1", b"mess/1/1"),
    Call::Unlink(b"pid/77.0.1"),
    Call::Append(Fd(1), MESSAGE),
    Call::Sync(Fd(1)),
    Call::CreateExcl(b"intd/1"),
    Call::Append(Fd(2), ENVELOPE),
    Call::Sync(Fd(2)),
    Call::Link(b"intd/1", b"todo/1"),
    // Now it is queued.
    Call::Stat(b"mess/1/1"),
    Call::Open(b"mess/1/1", How::Read),
    Call::ReadAt(Fd(3), 0, 8192),
    Call::Unlink(b"mess/1/1"),
    // No name leads to the first file, but it is open still, so this one is number 3.
    Call::CreateExcl(b"pid/77.0.2"),
    Call::Close(Fd(1)),
    Call::Close(Fd(3)),
    // Number 1 is free now, and so are both descriptors.
    Call::CreateExcl(b"pid/77.0.3"),
    Call::CreateExcl(b"pid/77.0.4"),
    Call::NextName(b"pid", b"77.0.2"),
    Call::CreateExcl(b"pid/77.0.4"),
    // None of these calls opened that one.
    Call::Sync(Fd(9)),
    Call::Stat(b"pid/77.0.3"),
];

/// The directories that they need.
const DIRS: [&[u8]; 4] = [b"pid", b"mess/1", b"intd", b"todo"];

/// How many of them are made.
const MADE: usize = 20;

/// These calls with names and bytes of their own, at the moments 1, 2 and so on.
fn owned(alloc: Global) -> Result<Vec<(u64, CallData)>, Memory> {
    let mut calls = Vec::new(alloc);
    let mut moment = 0u64;
    for call in &CALLS {
        moment = moment.saturating_add(1);
        calls.push((moment, CallData::of(alloc, *call)?))?;
    }
    Ok(calls)
}

/// What the calls tell on this disk; none if there is no memory.
fn told_on<D: CallFs>(alloc: Global, disk: &mut D) -> Vec<Told> {
    match owned(alloc) {
        Ok(calls) => run_calls(alloc, disk, &calls).unwrap_or(Vec::new(alloc)),
        Err(_) => Vec::new(alloc),
    }
}

/// The same on a disk with the directories of these names.
fn told_by_a_map(alloc: Global) -> Vec<Told> {
    let Ok(mut disk) = MemFs::new(alloc, Vec::new(alloc), Vec::new(alloc)) else {
        return Vec::new(alloc);
    };
    for dir in DIRS {
        let _ = disk.dir(alloc, dir);
    }
    told_on(alloc, &mut disk)
}

/// The same on a disk that is plain lists.
fn told_by_lists(alloc: Global) -> Vec<Told> {
    let Ok(mut disk) = PlainFs::new(alloc, Vec::new(alloc), Vec::new(alloc)) else {
        return Vec::new(alloc);
    };
    for dir in DIRS {
        let _ = disk.dir(alloc, dir);
    }
    told_on(alloc, &mut disk)
}

/// The descriptor and the number of what the call at this place made.
fn made(told: &[Told], at: usize) -> Option<(u64, u64)> {
    match told.get(at)?.answer.copy() {
        Answer::Created(fd, number) => Some((fd.0, number)),
        _ => None,
    }
}

/// Whether two answers are one.
fn is_same(one: &Answer, other: &Answer) -> bool {
    match (one, other) {
        (Answer::Created(a, m), Answer::Created(b, n)) => a == b && m == n,
        (Answer::Opened(a), Answer::Opened(b)) => a == b,
        (Answer::Count(a), Answer::Count(b)) => a == b,
        (Answer::Stat(a), Answer::Stat(b)) => a == b,
        (Answer::Name(a), Answer::Name(b)) => a.as_slice() == b.as_slice(),
        (Answer::Refused(a), Answer::Refused(b)) => a == b,
        (Answer::Done, Answer::Done) | (Answer::NoName, Answer::NoName) => true,
        _ => false,
    }
}

/// Whether both told the same.
fn are_same(one: &[Told], other: &[Told]) -> bool {
    one.len() == other.len()
        && one.iter().zip(other.iter()).all(|(a, b)| is_same(&a.answer.copy(), &b.answer.copy())
            && a.bytes.as_slice() == b.bytes.as_slice())
}

#[test]
fn a_list_of_calls_stops_before_a_strange_descriptor(rt: HostRuntime) {
    let told = told_by_a_map(rt.alloc());
    assert!(rt; told.len() == MADE);
    assert!(rt; made(&told, 0) == Some((1, 1)));
    assert!(rt; made(&told, 5) == Some((2, 2)));
    assert!(rt; made(&told, 13) == Some((4, 3)));
    assert!(rt; made(&told, 16) == Some((1, 1)));
    assert!(rt; made(&told, 17) == Some((3, 4)));
    assert!(rt;
        told.get(11)
            .is_some_and(|read| read.bytes.as_slice() == MESSAGE)
    );
    assert!(rt;
        told.get(19).is_some_and(|told| is_same(
            &told.answer.copy(),
            &Answer::Refused(call_fs::FsError::Exists)
        ))
    );
}

#[test]
fn both_disks_in_memory_answer_alike(rt: HostRuntime) {
    let told = told_by_a_map(rt.alloc());
    assert!(rt; are_same(&told, &told_by_lists(rt.alloc())));
}
