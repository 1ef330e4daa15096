// Children of a script: what their channels bring, and how they end.

use super::orders::are_kept;
use super::scripted::{Closed, Script, Scripted, ScriptedOutput, Turns, unordered};
use super::yard::{NOTHING, Yard, gather};
use outside::{Gate, Gave, Post, Posts, Spawner, Started, Status};
use proc_runner::{ChildPosts, MOST_PRINTED, Opener, OwnReading, read_own_input, share};
use resting_gates::{RestingGate, drain_limit, idle_limit};
use std::alloc::{AllocError, Global};
use std::sync::{Arc, Wait};
use std::test::*;
use std::thread::{self, Threads};

/// Four scripts, how many bytes come of each, whether its channel fails, its status, and how many are cut off.
#[derive(Clone, Copy)]
pub struct Row {
    scripts: [Script; 4],
    bytes: [usize; 4],
    fails: [bool; 4],
    statuses: [Status; 4],
    cuts: u64,
}

/// What is done with children of a script.
#[derive(Clone, Copy)]
pub enum Deed<'a> {
    /// Four children bring what a row says.
    Channels(&'a Row),
    /// One is cut, and one isn't.
    Cut(&'a Closed),
    /// Three are read in each of these orders.
    Orders(&'a Turns),
}

/// Whether that goes as it is to go, in a yard.
fn goes<R: Wait + Drop>(yard: &mut Yard<R, Scripted>, alloc: Global, deed: Deed<'_>) -> bool {
    match deed {
        Deed::Channels(row) => starts(yard, alloc) && brings(yard, row),
        Deed::Cut(closed) => ends_what_is_cut(yard, alloc, closed),
        Deed::Orders(turns) => are_kept(yard, alloc, turns),
    }
}

/// The same, with children of this system, for whose pieces there is so much room.
pub fn is_done<R: Threads + Wait + Copy + Send + Sync + Drop + 'static>(
    rt: R,
    alloc: Global,
    room: usize,
    system: Scripted,
    deed: Deed<'_>,
) -> bool {
    match Yard::new(rt, alloc, room, system, 86_400_000) {
        Ok(mut yard) => {
            let is_so = goes(&mut yard, alloc, deed);
            drop(yard);
            is_so
        }
        Err(_) => false,
    }
}

/// Starts four children, each of which is fed 1000 bytes; a fifth can't be started. Answers whether that is so.
fn starts<R: Wait + Drop>(yard: &mut Yard<R, Scripted>, alloc: Global) -> bool {
    let names: [&[u8]; 4] = [b"0", b"1", b"2", b"3"];
    let mut right = true;
    for at in 0..4 {
        let chan = yard.start(alloc, &[names[at]]);
        right = right && chan == at as u32 + 1;
        right = right && yard.children.feed(chan, &[b'x'; 1000]) == Gave::Done;
        yard.children.finish(chan);
    }
    right
        && yard.children.start(alloc, &[b"none"]) == Started::Failed
        && yard.children.faults() == 1
}

/// Whether four children bring what they are to bring, and have their statuses.
fn brings<R: Wait + Drop>(yard: &mut Yard<R, Scripted>, row: &Row) -> bool {
    let mut came = [NOTHING; 4];
    for at in 0..4 {
        came[at].letter = row.scripts[at].letter;
    }
    gather(yard, &mut came);
    let mut right = true;
    let mut failures: u64 = 0;
    for at in 0..4 {
        let one = came[at];
        let is_failed = u64::from(row.fails[at]);
        let is_ended = u64::from(!row.fails[at]);
        failures = failures.saturating_add(is_failed);
        right = right && one.is_right && one.bytes == row.bytes[at];
        right = right && one.ends == is_ended && one.failures == is_failed;
        right = yard.children.status(at as u32 + 1) == row.statuses[at] && right;
    }
    right && yard.posts.faults() == failures && yard.posts.cuts() == row.cuts
}

/// Whether all is so with this room.
fn holds<R: Threads + Wait + Copy + Send + Sync + Drop + 'static>(
    rt: R,
    alloc: Global,
    room: usize,
    row: &Row,
) -> bool {
    match unordered(alloc, row.scripts) {
        Ok(system) => is_done(rt, alloc, room, system, Deed::Channels(row)),
        Err(_) => false,
    }
}

const QUIET: Script = Script {
    letter: b'q',
    prints: 0,
    at_once: 4096,
    breaks: false,
    asks: 0,
    code: 0,
    in_order: false,
    takes: 10_000,
};

/// One that prints nothing, one that goes on after its output ended, one whose output breaks, and one of many pieces.
const FOUR: Row = Row {
    scripts: [
        QUIET,
        Script {
            letter: b'l',
            prints: 5000,
            asks: 50,
            code: 111,
            ..QUIET
        },
        Script {
            letter: b'b',
            prints: 4097,
            breaks: true,
            asks: 1,
            ..QUIET
        },
        Script {
            letter: b'm',
            prints: 1_000_000,
            code: 100,
            ..QUIET
        },
    ],
    bytes: [0, 5000, 4097, 1_000_000],
    fails: [false, false, true, false],
    statuses: [
        Status::Ended(0),
        Status::Ended(111),
        Status::Crashed,
        Status::Ended(100),
    ],
    cuts: 0,
};

/// One that prints as much as it may, and two that print a byte more: one exits with 0 before it can be killed, one only later.
const PRINTING: Row = Row {
    scripts: [
        Script {
            letter: b'w',
            prints: MOST_PRINTED,
            asks: 3,
            ..QUIET
        },
        Script {
            letter: b'e',
            prints: MOST_PRINTED + 1,
            asks: 0,
            ..QUIET
        },
        Script {
            letter: b'a',
            prints: MOST_PRINTED + 1,
            asks: 1_000,
            ..QUIET
        },
        QUIET,
    ],
    bytes: [MOST_PRINTED, MOST_PRINTED, MOST_PRINTED, 0],
    fails: [false; 4],
    statuses: [
        Status::Ended(0),
        Status::Crashed,
        Status::Crashed,
        Status::Ended(0),
    ],
    cuts: 2,
};

#[test]
fn channels_of_four_children(rt: HostRuntime) {
    assert!(rt;
        holds(rt, rt.alloc(), 1, &FOUR)
            && holds(rt, rt.alloc(), 64, &FOUR)
            && holds(rt, rt.alloc(), 8, &PRINTING)
    );
}

/// One that takes two bytes of its input, and doesn't end by itself.
const STUCK: Script = Script {
    letter: b's',
    asks: u64::MAX,
    takes: 2,
    ..QUIET
};

/// Feeds a child until that fails. Answers whether it does.
fn fails_at_last<R: Wait + Drop>(yard: &mut Yard<R, Scripted>, chan: u32) -> bool {
    for _ in 0..1_000_000 {
        if yard.children.feed(chan, b"abc") == Gave::Failed {
            return true;
        }
        thread::yield_now();
    }
    false
}

/// Whether a child that doesn't take all that it is fed is ended, and its input closed as one that isn't whole; and one that does is
/// told that its input is.
fn ends_what_is_cut<R: Wait + Drop>(
    yard: &mut Yard<R, Scripted>,
    alloc: Global,
    closed: &Closed,
) -> bool {
    let cut = yard.start(alloc, &[b"0"]);
    let fails = fails_at_last(yard, cut);
    let is_ended = yard.collect() && yard.children.status(cut) == Status::Crashed;
    let whole = yard.start(alloc, &[b"1"]);
    let is_fed = yard.children.feed(whole, b"abc") == Gave::Done;
    yard.children.finish(whole);
    let is_well = yard.collect() && yard.children.status(whole) == Status::Ended(0);
    fails && is_ended && is_fed && is_well && are_closed(closed, (1, 1))
}

/// Whether so many inputs were closed soon, as whole ones and as others.
fn are_closed(closed: &Closed, counts: (u64, u64)) -> bool {
    for _ in 0..1_000_000 {
        if closed.counts() == counts {
            return true;
        }
        thread::yield_now();
    }
    false
}

/// Whether that is so of children of this system.
fn cuts<R: Threads + Wait + Copy + Send + Sync + Drop + 'static>(
    rt: R,
    alloc: Global,
    system: Scripted,
) -> bool {
    match Arc::try_clone(&system.closed) {
        Ok(closed) => {
            let is_so = is_done(rt, alloc, 4, system, Deed::Cut(closed.as_ref()));
            drop(closed);
            is_so
        }
        Err(_) => {
            drop(system);
            false
        }
    }
}

#[test]
fn a_cut_input_ends_its_child(rt: HostRuntime) {
    match unordered(rt.alloc(), [STUCK, QUIET, QUIET, QUIET]) {
        Ok(system) => assert!(rt; cuts(rt, rt.alloc(), system)),
        Err(_) => assert!(rt; false),
    }
}

/// What comes of the program's own input: how many bytes, and whether it ended.
type Own = (usize, bool);

/// What comes of an input that can't be read.
const UNREAD: Own = (usize::MAX, false);

/// What comes of the program's own input, where the script is that of the first output.
fn own_input<R: Threads + Wait + Copy + Send + Sync + Drop + 'static>(
    rt: R,
    alloc: Global,
    script: Script,
) -> Own {
    match share(alloc, 2) {
        Ok((mut opener, taker)) => {
            let mut posts = ChildPosts::new(rt, taker);
            let told = own_input_by(rt, alloc, script, &mut opener, &mut posts);
            drop(posts);
            drop(opener);
            told
        }
        Err(_) => UNREAD,
    }
}

/// The same, where this opens channels whose pieces these posts take.
fn own_input_by<R: Threads + Wait + Copy + Send + Sync + Drop + 'static>(
    rt: R,
    alloc: Global,
    script: Script,
    opener: &mut Opener,
    posts: &mut ChildPosts<R>,
) -> Own {
    match opener.queue() {
        Ok(queue) => {
            let gate = RestingGate::new(rt, queue);
            let told = own_input_at(rt, alloc, script, opener, posts, &gate);
            drop(gate);
            told
        }
        Err(_) => UNREAD,
    }
}

/// The same, with this gate.
fn own_input_at<R: Threads + Wait + Copy + Send + Sync + Drop + 'static>(
    rt: R,
    alloc: Global,
    script: Script,
    opener: &mut Opener,
    posts: &mut ChildPosts<R>,
    gate: &RestingGate<R>,
) -> Own {
    match reading_of(rt, alloc, script, opener) {
        Ok(OwnReading::Begun(thread)) => {
            let told = take_own(posts, gate);
            let _ = thread.join(&rt);
            told
        }
        Ok(OwnReading::Failed(through)) => {
            drop(through);
            UNREAD
        }
        Err(_) => UNREAD,
    }
}

/// Reads what a script prints as the next channel.
fn reading_of<R: Threads + Wait + Copy + Send + Sync + Drop + 'static>(
    rt: R,
    alloc: Global,
    script: Script,
    opener: &mut Opener,
) -> Result<OwnReading, AllocError> {
    match opener.open() {
        Ok(Some(reader)) => match output_of(alloc, script) {
            Ok(output) => read_own_input(rt, alloc, reader, output),
            Err(why) => {
                drop(reader);
                Err(why)
            }
        },
        _ => Err(AllocError),
    }
}

/// What a script prints.
fn output_of(alloc: Global, script: Script) -> Result<ScriptedOutput, AllocError> {
    match unordered(alloc, [script; 4]) {
        Ok(system) => {
            let output = system.output(0);
            drop(system);
            output
        }
        Err(why) => Err(why),
    }
}

/// Takes the posts of channel 0: how many bytes came, and whether it ended.
fn take_own<R: Wait + Drop>(posts: &mut ChildPosts<R>, gate: &RestingGate<R>) -> Own {
    let mut bytes: usize = 0;
    let mut looks = 0;
    let mut buffer = [0; 100];
    for _ in 0..1_000_000 {
        match posts.next(&mut buffer) {
            Post::Bytes { chan: 0, len } => {
                looks = 0;
                bytes = bytes.saturating_add(len);
            }
            Post::Turn if looks < 60 => {
                looks += 1;
                gate.pause(0, looks);
            }
            Post::End { chan: 0 } => return (bytes, true),
            _ => return (bytes, false),
        }
    }
    (bytes, false)
}

#[test]
fn own_input_is_channel_0(rt: HostRuntime) {
    let long = Script {
        letter: b'o',
        prints: 100_000,
        ..QUIET
    };
    let broken = Script {
        breaks: true,
        ..long
    };
    assert!(rt;
        own_input(rt, rt.alloc(), QUIET) == (0, true)
            && own_input(rt, rt.alloc(), long) == (100_000, true)
            && own_input(rt, rt.alloc(), broken) == (100_000, false)
    );
}

/// Whether a channel whose reader isn't started has one post, its failure, which is counted.
fn fails_at_once<R: Wait + Copy + Drop>(rt: R, alloc: Global) -> bool {
    match share(alloc, 1) {
        Ok((mut opener, taker)) => {
            let mut posts = ChildPosts::new(rt, taker);
            let is_told = fails_reader(&rt, &mut opener);
            let is_so = is_told & has_failed(&mut posts);
            drop(posts);
            drop(opener);
            is_so
        }
        Err(_) => false,
    }
}

/// Opens the next channel, and fails its reader. Answers whether that is told.
fn fails_reader<R: Wait>(rt: &R, opener: &mut Opener) -> bool {
    match opener.open() {
        Ok(Some(reader)) => {
            let left = reader.fail(rt);
            let is_told = left.is_ok();
            drop(left);
            is_told
        }
        _ => false,
    }
}

/// Whether the failure of channel 0 is the one post, and counted.
fn has_failed<R: Wait + Drop>(posts: &mut ChildPosts<R>) -> bool {
    let mut buffer = [0; 10];
    let is_first = posts.next(&mut buffer) == Post::Failed { chan: 0 };
    let is_last = posts.next(&mut buffer) == Post::Turn;
    is_first & is_last & (posts.faults() == 1)
}

#[test]
fn a_reader_that_is_not_started(rt: HostRuntime) {
    assert!(rt; fails_at_once(rt, rt.alloc()));
}

#[test]
fn limits_that_are_told(rt: HostRuntime) {
    assert!(rt;
        drain_limit(None) == Some(600_000)
            && drain_limit(Some(b"0")).is_none()
            && drain_limit(Some(b"1")) == Some(1)
            && drain_limit(Some(b"86400000")) == Some(86_400_000)
            && drain_limit(Some(b"86400001")).is_none()
            && drain_limit(Some(b"10s")).is_none()
            && drain_limit(Some(b"")).is_none()
            && idle_limit(None) == Some(0)
            && idle_limit(Some(b"0")) == Some(0)
            && idle_limit(Some(b"60000")) == Some(60_000)
            && idle_limit(Some(b"60001")).is_none()
    );
}
