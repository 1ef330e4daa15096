// Posts in memory.

use super::byte_texts::same;
use super::fields::{bytes, none_is_wrong};
use mail_bytes::ByteText;
use outside::{MemPosts, Post, Posts, Waiting};
use std::alloc::Global;

/// What an asking gives, the bytes that stand in a buffer of two then, and the count of failures.
type Row = (Post, &'static [u8], u64);

/// Each post with the buffer and the failures after it.
const ROWS: [Row; 5] = [
    (Post::Bytes { chan: 1, len: 2 }, b"ab", 0),
    (Post::Bytes { chan: 1, len: 1 }, b"cb", 0),
    (Post::Failed { chan: 2 }, b"cb", 1),
    (Post::End { chan: 1 }, b"cb", 1),
    (Post::Turn, b"cb", 1),
];

/// Bytes of channel 1, no bytes of channel 2, then its failure, and the end of channel 1.
fn waiting(alloc: Global) -> Vec<Waiting> {
    let mut waiting = Vec::new(alloc);
    let bytes = ByteText::from_vec(bytes(alloc, "abc"));
    let _ = waiting.push(Waiting::Bytes { chan: 1, bytes });
    let bytes = ByteText::new(alloc);
    let _ = waiting.push(Waiting::Bytes { chan: 2, bytes });
    let _ = waiting.push(Waiting::Failed { chan: 2 });
    let _ = waiting.push(Waiting::End { chan: 1 });
    waiting
}

/// Whether the posts give what the row says.
fn gives(posts: &mut MemPosts, into: &mut [u8; 2], row: &Row) -> bool {
    posts.next(into) == row.0 && same(into.as_slice(), row.1) && posts.faults() == row.2
}

/// Which row the posts give otherwise first; none if they give all.
fn first_wrong(posts: &mut MemPosts, rows: &[Row]) -> Option<usize> {
    let mut into = [0; 2];
    for (at, row) in rows.iter().enumerate() {
        if !gives(posts, &mut into, row) {
            return Some(at);
        }
    }
    None
}

#[test]
fn posts_come_in_order(rt: HostRuntime) {
    let mut posts = MemPosts::new(waiting(rt.alloc()));
    none_is_wrong(&rt, first_wrong(&mut posts, &ROWS));
}
