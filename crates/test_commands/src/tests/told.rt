// What the clock, the posts and the spawner of a run were asked, as text.

use super::fields::{are_numbers, field, is_text};
use super::paced_posts::{LateClock, PacedPosts};
use mail_bytes::{ByteText, dec};
use outside::{
    Gave, KeptPost, KeptSpawnCall, MemSpawner, Post, Recorder, SpawnCallData, Started, Status,
};
use std::alloc::Global;

/// A clock whose readings are kept.
pub type Timing<'a> = Recorder<LateClock<'a>, u64>;

/// Posts whose answers are kept.
pub type Posting<'a> = Recorder<PacedPosts<'a>, KeptPost>;

/// A spawner whose calls are kept.
pub type Spawning = Recorder<MemSpawner, KeptSpawnCall>;

/// Puts these bytes at the end.
fn put(text: &mut Vec<u8>, more: &[u8]) {
    let _ = text.extend_from_slice(more);
}

/// Puts a number at the end.
fn put_number(text: &mut Vec<u8>, number: u64) {
    let mut digits = [0; 20];
    let count = dec(number, &mut digits);
    put(text, &digits[..count]);
}

/// Puts these words at the end, each after a space; an empty one is `""`.
fn put_words(text: &mut Vec<u8>, words: &[ByteText]) {
    for word in words {
        put(text, b" ");
        if word.is_empty() {
            put(text, b"\"\"");
        } else {
            put(text, word.as_slice());
        }
    }
}

/// Puts what came of a start at the end: a channel and the number of a process.
fn put_started(text: &mut Vec<u8>, started: Started) {
    match started {
        Started::Chan { chan, pid } => {
            put_number(text, u64::from(chan));
            put(text, b"/");
            put_number(text, u64::from(pid));
        }
        Started::Failed => put(text, b"failed"),
        Started::Memory => put(text, b"memory"),
    }
}

/// Puts how a child ended at the end.
fn put_status(text: &mut Vec<u8>, status: Status) {
    match status {
        Status::Ended(code) => put_number(text, u64::from(code)),
        Status::Crashed => put(text, b"crashed"),
        Status::Failed => put(text, b"failed"),
    }
}

/// Puts what a child was fed at the end, and whether that failed.
fn put_fed(text: &mut Vec<u8>, bytes: &[u8], gave: Gave) {
    put(text, bytes);
    if gave == Gave::Failed {
        put(text, b" -> failed");
    }
}

/// Puts a call of a spawner at the end.
fn put_call(text: &mut Vec<u8>, call: &SpawnCallData) {
    match call {
        SpawnCallData::Start { words, started } => {
            put(text, b"start");
            put_words(text, words.as_slice());
            put(text, b" -> ");
            put_started(text, *started);
        }
        SpawnCallData::Feed { chan, bytes, gave } => {
            put(text, b"feed ");
            put_number(text, u64::from(*chan));
            put(text, b" ");
            put_fed(text, bytes.as_slice(), *gave);
        }
        SpawnCallData::Finish { chan } => {
            put(text, b"finish ");
            put_number(text, u64::from(*chan));
        }
        SpawnCallData::AskStatus { chan, status } => {
            put(text, b"status ");
            put_number(text, u64::from(*chan));
            put(text, b" -> ");
            put_status(text, *status);
        }
    }
}

/// Puts a call of a spawner at the end, after ` | ` if it isn't the first; what goes to the child of this channel is put to what that
/// was fed before. The channel of this feeding, if it is one that went well.
fn put_next(text: &mut Vec<u8>, fed: Option<u32>, call: &SpawnCallData) -> Option<u32> {
    match call {
        SpawnCallData::Feed { chan, bytes, gave } if fed == Some(*chan) => {
            put_fed(text, bytes.as_slice(), *gave);
        }
        _ => {
            let parted: &[u8] = if text.is_empty() { b"" } else { b" | " };
            put(text, parted);
            put_call(text, call);
        }
    }
    match call {
        SpawnCallData::Feed {
            chan,
            gave: Gave::Done,
            ..
        } => Some(*chan),
        _ => None,
    }
}

/// These calls of a spawner, parted by ` | `. What a child was fed in parts, one directly after the other, counts as one.
fn calls_text(alloc: Global, calls: &[KeptSpawnCall]) -> Vec<u8> {
    let mut text = Vec::new(alloc);
    let mut fed = None;
    for call in calls {
        fed = put_next(&mut text, fed, call.call());
    }
    text
}

/// Puts an answer of posts at the end, after a space, and so many before it that nothing was waiting.
fn put_post(text: &mut Vec<u8>, turns: u64, post: &KeptPost) {
    put_turns(text, turns);
    let (chan, told): (u32, &[u8]) = match post.answer() {
        Post::Bytes { chan, .. } => (chan, post.bytes()),
        Post::End { chan } => (chan, b"end"),
        Post::Failed { chan } => (chan, b"failed"),
        Post::Turn => return,
    };
    put(text, b" ");
    put_number(text, u64::from(chan));
    put(text, b":");
    put(text, told);
}

/// Puts so many answers at the end, after a space, that nothing was waiting; nothing if there are none.
fn put_turns(text: &mut Vec<u8>, turns: u64) {
    if turns > 0 {
        put(text, b" -");
        put_number(text, turns);
    }
}

/// These answers of posts, each after a space.
fn posts_text(alloc: Global, posts: &[KeptPost]) -> Vec<u8> {
    let mut text = Vec::new(alloc);
    let mut turns = 0_u64;
    for post in posts {
        if post.answer() == Post::Turn {
            turns = turns.saturating_add(1);
        } else {
            put_post(&mut text, turns, post);
            turns = 0;
        }
    }
    put_turns(&mut text, turns);
    text
}

/// Whether this is what the part of the row that has this name says; or there is none.
fn is_told(alloc: Global, row: &str, name: &str, text: Vec<u8>) -> bool {
    let wanted = field(row, name);
    let found = text.strip_prefix(b" ").unwrap_or(text.as_slice());
    let is_so = wanted.is_empty() || is_text(alloc, row, wanted, found);
    drop(text);
    is_so
}

/// Whether each of the three told its calls to the end, and those that the row says.
pub fn are_told(
    alloc: Global,
    row: &str,
    clock: &Timing<'_>,
    posts: &Posting<'_>,
    spawner: &Spawning,
) -> bool {
    let (Some(moments), Some(answers), Some(calls)) = (
        clock.calls(),
        posts.calls(),
        spawner.calls(),
    ) else {
        return false;
    };
    are_numbers(alloc, row, "moments", moments)
        & are_numbers(alloc, row, "readings", &[moments.len() as u64])
        & is_told(alloc, row, "asked", posts_text(alloc, answers))
        & is_told(alloc, row, "calls", calls_text(alloc, calls))
}
