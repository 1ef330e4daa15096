// Children that are fed much.

use super::shells::prints;
use super::yard::{POST, Yard};
use outside::{Gave, Post, Posts, Spawner, Status};
use proc_runner::System;
use std::alloc::Global;
use std::sync::Wait;

/// How many bytes the text has that is fed.
pub const TEXT: usize = 1 << 20;

/// How many bytes of it are fed at once, at most.
const PART: usize = 50_000;

/// How often it is fed where that is much: 64 MiB in all.
pub const MANY_TIMES: usize = 64;

/// What came back: how many bytes, where they stand in the text that comes again and again, and whether all were its.
#[derive(Clone, Copy)]
struct Back {
    bytes: usize,
    at: usize,
    is_right: bool,
}

impl Back {
    /// These bytes came.
    fn add(&mut self, text: &[u8], bytes: &[u8]) {
        let rest = text.get(self.at..).unwrap_or(&[]);
        let count = rest.len().min(bytes.len());
        self.is_right = self.is_right
            && rest[..count] == bytes[..count]
            && text.starts_with(&bytes[count..]);
        self.bytes = self.bytes.saturating_add(bytes.len());
        self.at = self
            .at
            .saturating_add(bytes.len())
            .checked_rem(text.len())
            .unwrap_or(0);
    }
}

/// Takes what has come by now.
fn take<R: Wait + Drop, S: System>(yard: &mut Yard<R, S>, text: &[u8], back: &mut Back) {
    let mut buffer = [0; 4096];
    for _ in 0..1_000_000 {
        match yard.posts.next(&mut buffer) {
            Post::Bytes { chan: _, len } => back.add(text, &buffer[..len]),
            _ => return,
        }
    }
}

/// Takes all that comes until the channel has ended. Answers whether it has, and didn't fail.
fn take_rest<R: Wait + Drop, S: System>(
    yard: &mut Yard<R, S>,
    text: &[u8],
    back: &mut Back,
) -> bool {
    let mut buffer = [0; POST];
    for _ in 0..1_000_000 {
        match yard.next(&mut buffer) {
            Post::Bytes { chan: _, len } => back.add(text, &buffer[..len]),
            Post::End { chan: _ } => return true,
            Post::Failed { chan: _ } | Post::Turn => return false,
        }
    }
    false
}

/// Feeds a text, in parts. Answers whether all was taken.
fn feed<R: Wait + Drop, S: System>(yard: &mut Yard<R, S>, chan: u32, text: &[u8]) -> bool {
    let mut right = true;
    for part in text.chunks(PART) {
        right = yard.children.feed(chan, part) == Gave::Done && right;
    }
    right
}

/// Whether a command gives back a text that it is fed so often, byte for byte. The status of a child whose output isn't taken to its
/// end isn't asked for: its reader would wait for room for ever.
pub fn gives_back<R: Wait + Drop, S: System>(
    yard: &mut Yard<R, S>,
    alloc: Global,
    text: &[u8],
    times: usize,
) -> bool {
    let mut back = Back {
        bytes: 0,
        at: 0,
        is_right: true,
    };
    let chan = yard.start(alloc, &[b"sh", b"-c", b"exec cat"]);
    let mut right = true;
    for _ in 0..times {
        right = feed(yard, chan, text) && right;
        take(yard, text, &mut back);
    }
    yard.children.finish(chan);
    if !take_rest(yard, text, &mut back) {
        return false;
    }
    right = yard.children.status(chan) == Status::Ended(0) && right;
    right && back.is_right && back.bytes == text.len().saturating_mul(times)
}

/// Whether a command that only counts gets all of 64 MiB.
pub fn counts<R: Wait + Drop, S: System>(
    yard: &mut Yard<R, S>,
    alloc: Global,
    text: &[u8],
) -> bool {
    let chan = yard.start(alloc, &[b"sh", b"-c", b"wc -c | tr -d ' '"]);
    let mut right = true;
    for _ in 0..MANY_TIMES {
        right = feed(yard, chan, text) && right;
    }
    yard.children.finish(chan);
    yard.bytes.clear();
    if !yard.collect() {
        return false;
    }
    right = yard.children.status(chan) == Status::Ended(0) && right;
    right && yard.bytes.as_slice() == b"67108864\n".as_slice()
}

/// Whether commands that don't end are ended by the limit: one that reads nothing; one that has closed its output too, which is
/// fed this; and what they have started with them. One that has ended has the status that it has, though a child of its holds its
/// output open, also one that has left its group.
pub fn sleepers<R: Wait + Drop, S: System>(
    yard: &mut Yard<R, S>,
    alloc: Global,
    text: &[u8],
) -> bool {
    let open = b"exec sleep 1000".as_slice();
    let closed = b"exec sleep 1000 >&-".as_slice();
    let grouped = b"sleep 1000 & sleep 1000".as_slice();
    let left = b"sleep 1000 & echo left; exit 3".as_slice();
    let apart = b"setsid sleep 20 & sleep 0.02; echo apart; exit 4".as_slice();
    let is_ended = prints(yard, alloc, open, b"", b"", Status::Crashed)
        && prints(yard, alloc, grouped, b"", b"", Status::Crashed);
    let is_told = prints(yard, alloc, left, b"", b"left\n", Status::Ended(3))
        && prints(yard, alloc, apart, b"", b"apart\n", Status::Ended(4));
    prints(yard, alloc, closed, text, b"", Status::Crashed) && is_ended && is_told
}
