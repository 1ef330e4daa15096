// A program that starts a child, gives it its input, and takes its output and its status.

use super::one_word::OneWord;
use super::sent::{Sent, posts_of, same};
use crate::{Errand, Kind};
use call_fs::CallFs;
use mail_bytes::Memory;
use mem_fs::MemFs;
use outside::{
    Clock, MemChild, MemClock, MemPosts, MemSpawner, OpenGate, Posts, Sink, Spawner, Status,
};
use program_runner::{Lines, Nothing, run_member};
use std::alloc::Global;
use std::test::Fail;

/// Which child is started, the one that can be, which calls of the spawner fail, counted from 1, and what comes; the exit status, what the
/// child was fed if there is one, and how often the spawner failed.
struct Row {
    kind: Kind,
    child: Option<MemChild>,
    failing: &'static [u64],
    sent: &'static [Sent],
    status: u8,
    fed: Option<&'static [u8]>,
    faults: u64,
}

/// A child that exits with 7.
const EXITS: MemChild = MemChild {
    pid: 82,
    room: 9,
    status: Status::Ended(7),
};

/// A child that takes one byte.
const FULL: MemChild = MemChild {
    pid: 82,
    room: 1,
    status: Status::Ended(7),
};

/// A child that crashes.
const CRASHES: MemChild = MemChild {
    pid: 82,
    room: 9,
    status: Status::Crashed,
};

/// Of the posts those of channel 1 are the child's.
const ROWS: [Row; 11] = [
    Row {
        kind: Kind::Bounce,
        child: Some(EXITS),
        failing: &[],
        sent: &[Sent::Bytes(1, b"ab"), Sent::Bytes(1, b"c"), Sent::End(1)],
        status: 7,
        fed: Some(b"hi"),
        faults: 0,
    },
    // the programs of deliveries
    Row {
        kind: Kind::Remote,
        child: Some(EXITS),
        failing: &[],
        sent: &[Sent::Bytes(1, b"ab"), Sent::End(1)],
        status: 7,
        fed: Some(b"hi"),
        faults: 0,
    },
    Row {
        kind: Kind::Local,
        child: Some(EXITS),
        failing: &[],
        sent: &[Sent::Bytes(1, b"ab"), Sent::End(1)],
        status: 7,
        fed: Some(b"hi"),
        faults: 0,
    },
    // of another channel nothing is taken
    Row {
        kind: Kind::Bounce,
        child: Some(EXITS),
        failing: &[],
        sent: &[Sent::Failed(0), Sent::Failed(2), Sent::End(1)],
        status: 7,
        fed: Some(b"hi"),
        faults: 0,
    },
    // there is no child
    Row {
        kind: Kind::Bounce,
        child: None,
        failing: &[],
        sent: &[],
        status: 1,
        fed: None,
        faults: 1,
    },
    // its start fails
    Row {
        kind: Kind::Bounce,
        child: Some(EXITS),
        failing: &[1],
        sent: &[Sent::End(1)],
        status: 1,
        fed: None,
        faults: 1,
    },
    // the giving fails, of which one byte was taken
    Row {
        kind: Kind::Bounce,
        child: Some(FULL),
        failing: &[],
        sent: &[Sent::End(1)],
        status: 2,
        fed: Some(b"h"),
        faults: 1,
    },
    // and none
    Row {
        kind: Kind::Bounce,
        child: Some(EXITS),
        failing: &[2],
        sent: &[Sent::End(1)],
        status: 2,
        fed: Some(b""),
        faults: 1,
    },
    // the taking of the output fails
    Row {
        kind: Kind::Bounce,
        child: Some(EXITS),
        failing: &[],
        sent: &[Sent::Bytes(1, b"ab"), Sent::Failed(1)],
        status: 3,
        fed: Some(b"hi"),
        faults: 0,
    },
    Row {
        kind: Kind::Bounce,
        child: Some(CRASHES),
        failing: &[],
        sent: &[Sent::End(1)],
        status: 4,
        fed: Some(b"hi"),
        faults: 0,
    },
    // the status can't be taken
    Row {
        kind: Kind::Bounce,
        child: Some(EXITS),
        failing: &[3],
        sent: &[Sent::End(1)],
        status: 5,
        fed: Some(b"hi"),
        faults: 1,
    },
];

/// Runs an errand to its end; its exit status, none if it hasn't ended.
fn run<D: CallFs, K: Clock, P: Posts, S: Spawner, O: Sink>(
    alloc: Global,
    kind: Kind,
    lines: &mut Lines,
    disk: &mut D,
    clock: &mut K,
    posts: &mut P,
    spawner: &mut S,
    output: &mut O,
) -> Option<u8> {
    let mut errand = Errand::new(kind);
    match run_member(
        alloc,
        &mut errand,
        &OneWord,
        lines,
        disk,
        clock,
        posts,
        spawner,
        output,
        &OpenGate,
    ) {
        Ok(status) => status,
        Err(_) => None,
    }
}

/// Runs it at moment 0 without links, over this disk and no output.
fn run_with<D: CallFs, P: Posts, S: Spawner>(
    alloc: Global,
    kind: Kind,
    disk: &mut D,
    posts: &mut P,
    spawner: &mut S,
) -> Option<u8> {
    let mut lines = Lines::new(alloc, [None; 4]);
    let mut clock = MemClock::new(Vec::new(alloc), 77);
    let mut output = Nothing;
    run(
        alloc,
        kind,
        &mut lines,
        disk,
        &mut clock,
        posts,
        spawner,
        &mut output,
    )
}

/// Runs it over an empty disk.
fn run_by<P: Posts, S: Spawner>(
    alloc: Global,
    kind: Kind,
    posts: &mut P,
    spawner: &mut S,
) -> Option<u8> {
    match MemFs::new(alloc, Vec::new(alloc), Vec::new(alloc)) {
        Ok(mut disk) => run_with(alloc, kind, &mut disk, posts, spawner),
        Err(_) => None,
    }
}

/// Whether a child was started by its word, was fed just that, and its input was ended; none says that there is no child.
fn is_served(spawner: &MemSpawner, fed: Option<&[u8]>) -> bool {
    match (spawner.fed(1), fed) {
        (Some(one), Some(other)) => {
            same(one, other) && spawner.is_finished(1) == Some(true) && has_word(spawner)
        }
        (None, None) => true,
        _ => false,
    }
}

/// Whether the child was started by its word alone.
fn has_word(spawner: &MemSpawner) -> bool {
    match spawner.words(1) {
        Some([word]) => word.is(b"child"),
        _ => false,
    }
}

/// Whether this spawner is as the row says once an errand has run.
fn is_right_over(alloc: Global, row: &Row, posts: &mut MemPosts, spawner: &mut MemSpawner) -> bool {
    let status = run_by(alloc, row.kind, posts, spawner);
    (status == Some(row.status)) & (spawner.faults() == row.faults) & is_served(spawner, row.fed)
}

/// A spawner of this child.
fn spawner_of(alloc: Global, row: &Row) -> Result<MemSpawner, Memory> {
    let failing = Vec::from_slice(alloc, row.failing)?;
    let mut children = Vec::new(alloc);
    if let Some(child) = row.child {
        children.push(child)?;
    }
    Ok(MemSpawner::new(alloc, children, failing))
}

/// The same, over a new spawner.
fn is_right_by(alloc: Global, row: &Row, posts: &mut MemPosts) -> bool {
    match spawner_of(alloc, row) {
        Ok(mut spawner) => is_right_over(alloc, row, posts, &mut spawner),
        Err(_) => false,
    }
}

/// Whether an errand does what the row says.
fn is_right(alloc: Global, row: &Row) -> bool {
    match posts_of(alloc, row.sent) {
        Ok(posts) => {
            let mut posts = MemPosts::new(posts);
            is_right_by(alloc, row, &mut posts)
        }
        Err(_) => false,
    }
}

/// Which row goes otherwise first; none if all go so.
fn first_wrong(alloc: Global, rows: &[Row]) -> Option<usize> {
    for (at, row) in rows.iter().enumerate() {
        if !is_right(alloc, row) {
            return Some(at);
        }
    }
    None
}

#[test]
fn a_child_is_served(rt: HostRuntime) -> Result<(), Fail> {
    assert_eq!(rt; first_wrong(rt.alloc(), &ROWS), None);
    Ok(())
}
