// The spawner in memory.

use super::fields::{bytes, named, none_is_wrong, numbers};
use super::sinks::gave_of;
use outside::{MemChild, MemSpawner, Spawner, Started, Status};
use std::alloc::Global;

/// The words of a child.
const EXIT: &[&[u8]] = &[b"sh", b"-c", b"exit 99"];

/// The words of another one, of which one is empty and one has a NUL.
const REMOTE: &[&[u8]] = &[b"remote", b"", b"a\0b"];

// Each row is a call, what it gives, what the children of the channels 1 and 2 were fed then, each after `=`, or `-` if there
// is no such child, and the count of failures. `start exit` and `start remote` start a child with the words above, and give
// its channel and process number.

/// Of one child; the first, the third and the sixth call are planned to fail.
const ROWS: &str = "start exit | failed | - - | 1
start exit | 1 82 | = - | 1
feed 1 no | failed | = - | 2
feed 1 hi | done | =hi - | 2
finish 1 | | =hi - | 2
ask 1 | ended 99 | =hi - | 2
ask 1 | failed | =hi - | 3
# there is no other child
start exit | failed | =hi - | 4
feed 2 hi | failed | =hi - | 5
ask 2 | failed | =hi - | 6";

/// Of two children that are fed in turn; no call is planned to fail. The second has room for four bytes.
const TWO: &str = "start exit | 1 82 | = - | 0
start remote | 2 0 | = = | 0
feed 1 ab | done | =ab = | 0
feed 2 xyz | done | =ab =xyz | 0
feed 1 c%00 | done | =abc%00 =xyz | 0
feed 2 | done | =abc%00 =xyz | 0
# one of them fits
feed 2 pq | failed | =abc%00 =xyzp | 1
finish 1 | | =abc%00 =xyzp | 1
feed 1 d | failed | =abc%00 =xyzp | 2
finish 3 | | =abc%00 =xyzp | 2
feed 0 | failed | =abc%00 =xyzp | 3
ask 2 | crashed | =abc%00 =xyzp | 3
ask 1 | ended 99 | =abc%00 =xyzp | 3";

/// A number as decimal text; the greatest for any other text.
fn number(text: &str) -> u32 {
    text.parse::<u32>().unwrap_or(u32::MAX)
}

/// What came of a start, as a text.
fn started_of(text: &str) -> Started {
    let (chan, pid) = named(text);
    match text {
        "failed" => Started::Failed,
        _ => Started::Chan {
            chan: number(chan),
            pid: number(pid),
        },
    }
}

/// How a child ended, as a text; None for any other text.
fn status_of(text: &str) -> Option<Status> {
    match named(text) {
        ("ended", status) => Some(Status::Ended(status.parse::<u8>().ok()?)),
        ("crashed", _) => Some(Status::Crashed),
        ("failed", _) => Some(Status::Failed),
        _ => None,
    }
}

/// Whether feeding these bytes gives what a text says.
fn feeds(alloc: Global, spawner: &mut MemSpawner, chan: u32, text: &str, wanted: &str) -> bool {
    let bytes = bytes(alloc, text);
    let is_so = Some(spawner.feed(chan, &bytes)) == gave_of(wanted);
    drop(bytes);
    is_so
}

/// Whether the call gives what a row says.
fn answers(alloc: Global, spawner: &mut MemSpawner, call: &str, wanted: &str) -> bool {
    let (kind, rest) = named(call);
    let (first, second) = named(rest);
    match (kind, first) {
        ("start", "exit") => spawner.start(alloc, EXIT) == started_of(wanted),
        ("start", "remote") => spawner.start(alloc, REMOTE) == started_of(wanted),
        ("feed", _) => feeds(alloc, spawner, number(first), second, wanted),
        ("finish", _) => {
            spawner.finish(number(first));
            true
        }
        ("ask", _) => Some(spawner.status(number(first))) == status_of(wanted),
        _ => false,
    }
}

/// Whether a child was fed just what a text says.
fn is_fed(alloc: Global, fed: Option<&[u8]>, wanted: &str) -> bool {
    match (fed, wanted.strip_prefix("=")) {
        (Some(fed), Some(text)) => {
            let bytes = bytes(alloc, text);
            let is_so = fed == bytes.as_slice();
            drop(bytes);
            is_so
        }
        (None, None) => wanted == "-",
        _ => false,
    }
}

/// Whether the spawner does what the row says.
fn does(alloc: Global, spawner: &mut MemSpawner, row: &str) -> bool {
    let (call, rest) = row.split_once(" | ").unwrap_or((row, ""));
    let (wanted, rest) = rest.split_once("| ").unwrap_or((rest, ""));
    let (fed, faults) = rest.split_once(" | ").unwrap_or((rest, ""));
    let (first, second) = named(fed);
    answers(alloc, spawner, call, wanted.trim_end())
        && is_fed(alloc, spawner.fed(1), first)
        && is_fed(alloc, spawner.fed(2), second)
        && faults.parse::<u64>().unwrap_or(u64::MAX) == spawner.faults()
}

/// Which row the spawner does otherwise first; none if it does all. A line that begins with `#` is a comment.
fn first_wrong(
    alloc: Global,
    spawner: &mut MemSpawner,
    rows: &'static str,
) -> Option<&'static str> {
    for row in rows.lines() {
        if !row.starts_with('#') && !does(alloc, spawner, row) {
            return Some(row);
        }
    }
    None
}

/// Whether the child of a channel was started with these words.
fn has_words(spawner: &MemSpawner, chan: u32, words: &[&[u8]]) -> bool {
    let Some(found) = spawner.words(chan) else {
        return false;
    };
    for (at, word) in words.iter().enumerate() {
        match found.get(at) {
            Some(text) if text.is(word) => {}
            _ => return false,
        }
    }
    found.len() == words.len()
}

/// The words of both children, and whether the input of each was ended.
fn are_kept(spawner: &MemSpawner) -> bool {
    has_words(spawner, 1, EXIT)
        && has_words(spawner, 2, REMOTE)
        && spawner.words(3).is_none()
        && spawner.is_finished(1) == Some(true)
        && spawner.is_finished(2) == Some(false)
        && spawner.is_finished(3) == None
}

/// A child that exits with 99.
const EXITS: MemChild = MemChild {
    pid: 82,
    room: 100,
    status: Status::Ended(99),
};

/// A child that takes four bytes and crashes.
const CRASHES: MemChild = MemChild {
    pid: 0,
    room: 4,
    status: Status::Crashed,
};

/// These children.
fn children_of(alloc: Global, planned: &[MemChild]) -> Vec<MemChild> {
    let mut children = Vec::new(alloc);
    for child in planned {
        let _ = children.push(*child);
    }
    children
}

/// What is seen of a new spawner with these children, of which these calls are planned to fail: the first row that it does
/// otherwise, if there is one, and whether it keeps the words and the inputs' ends of two children.
fn seen(
    alloc: Global,
    planned: &[MemChild],
    fails: &str,
    rows: &'static str,
) -> (Option<&'static str>, bool) {
    let children = children_of(alloc, planned);
    let mut spawner = MemSpawner::new(alloc, children, numbers(alloc, fails));
    let seen = (first_wrong(alloc, &mut spawner, rows), are_kept(&spawner));
    drop(spawner);
    seen
}

#[test]
fn a_child_and_failures(rt: HostRuntime) {
    none_is_wrong(&rt, seen(rt.alloc(), &[EXITS], "1 3 6", ROWS).0);
}

#[test]
fn two_children_fed_in_turn(rt: HostRuntime) {
    let (wrong, are_kept) = seen(rt.alloc(), &[EXITS, CRASHES], "", TWO);
    none_is_wrong(&rt, wrong);
    assert!(rt; are_kept);
}
