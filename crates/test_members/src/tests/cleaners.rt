// The cleaner, whose input is a channel of posts.

use super::one_word::OneWord;
use super::sent::{Sent, posts_of, same};
use call_fs::CallFs;
use mem_fs::MemFs;
use outside::{Clock, MemClock, MemPosts, MemSink, MemSpawner, OpenGate, Posts, Sink, Spawner};
use program_runner::{Lines, run_member};
use queue_clean::{Cleaner, asks_for_little};
use std::alloc::Global;
use std::test::Fail;

/// The channel of the input, what comes, and for how many bytes the output has room; the exit status, the answers that were
/// given, and whether `mess/1/1` is left.
struct Row {
    input: Option<u32>,
    sent: &'static [Sent],
    room: usize,
    status: u8,
    given: &'static [u8],
    is_left: bool,
}

/// A command that comes in pieces; a rest that is no whole command; the input's end and its failure, each after which nothing
/// counts; an input without a channel; and an output that is full.
const ROWS: [Row; 9] = [
    Row {
        input: Some(0),
        sent: &[
            Sent::Bytes(0, b"foop/"),
            Sent::Bytes(0, b"1\0x\0foop/2\0"),
            Sent::End(0),
        ],
        room: 9,
        status: 0,
        given: b"+x+",
        is_left: false,
    },
    // of another channel nothing is taken, and it parts no command
    Row {
        input: Some(3),
        sent: &[
            Sent::Bytes(3, b"foop/"),
            Sent::Bytes(0, b"2\0"),
            Sent::End(0),
            Sent::Bytes(3, b"1\0"),
            Sent::End(3),
        ],
        room: 9,
        status: 0,
        given: b"+",
        is_left: false,
    },
    Row {
        input: Some(0),
        sent: &[Sent::Bytes(1, b"foop/1\0"), Sent::Failed(1), Sent::End(0)],
        room: 9,
        status: 0,
        given: b"",
        is_left: true,
    },
    Row {
        input: Some(0),
        sent: &[Sent::Bytes(0, b"foop/1"), Sent::End(0)],
        room: 9,
        status: 0,
        given: b"",
        is_left: true,
    },
    Row {
        input: Some(0),
        sent: &[
            Sent::Bytes(0, b"foop/2\0"),
            Sent::End(0),
            Sent::Bytes(0, b"foop/1\0"),
        ],
        room: 9,
        status: 0,
        given: b"+",
        is_left: true,
    },
    Row {
        input: Some(0),
        sent: &[Sent::Bytes(0, b"foop/1\0"), Sent::Failed(0)],
        room: 9,
        status: 54,
        given: b"+",
        is_left: false,
    },
    Row {
        input: Some(0),
        sent: &[Sent::Failed(0), Sent::Bytes(0, b"foop/1\0"), Sent::End(0)],
        room: 9,
        status: 54,
        given: b"",
        is_left: true,
    },
    Row {
        input: None,
        sent: &[Sent::Bytes(0, b"foop/1\0"), Sent::End(0)],
        room: 9,
        status: 54,
        given: b"",
        is_left: true,
    },
    Row {
        input: Some(0),
        sent: &[Sent::Bytes(0, b"foop/2\0foop/3\0foop/1\0"), Sent::End(0)],
        room: 1,
        status: 53,
        given: b"+",
        is_left: true,
    },
];

/// Runs a cleaner to its end; its exit status, none if it hasn't ended.
fn run<D: CallFs, K: Clock, P: Posts, S: Spawner, O: Sink>(
    alloc: Global,
    lines: &mut Lines,
    disk: &mut D,
    clock: &mut K,
    posts: &mut P,
    spawner: &mut S,
    output: &mut O,
) -> Option<u8> {
    asks_for_little();
    let mut cleaner = Cleaner::new();
    match run_member(
        alloc,
        &mut cleaner,
        &OneWord,
        lines,
        disk,
        clock,
        posts,
        spawner,
        output,
        &OpenGate,
    ) {
        Ok(status) => status,
        Err(_) => None,
    }
}

/// Runs it at moment 0 with this input and no children.
fn run_with<D: CallFs, P: Posts, O: Sink>(
    alloc: Global,
    input: Option<u32>,
    disk: &mut D,
    posts: &mut P,
    output: &mut O,
) -> Option<u8> {
    let mut lines = Lines::new(alloc, [input, None, None, None]);
    let mut clock = MemClock::new(Vec::new(alloc), 77);
    let mut spawner = MemSpawner::new(alloc, Vec::new(alloc), Vec::new(alloc));
    run(
        alloc,
        &mut lines,
        disk,
        &mut clock,
        posts,
        &mut spawner,
        output,
    )
}

/// Puts `mess/1/1` there; whether that was done.
fn is_filled(alloc: Global, disk: &mut MemFs) -> bool {
    disk.dir(alloc, b"mess/1").is_ok() & disk.place(alloc, b"mess/1/1", b"hi").is_ok()
}

/// Whether this disk and this output are as the row says once a cleaner has run.
fn is_right_over(
    alloc: Global,
    row: &Row,
    posts: &mut MemPosts,
    disk: &mut MemFs,
    output: &mut MemSink,
) -> bool {
    let is_filled = is_filled(alloc, disk);
    let status = run_with(alloc, row.input, disk, posts, output);
    let is_left = disk.bytes_of(b"mess/1/1").is_some();
    is_filled
        & (status == Some(row.status))
        & same(output.taken(), row.given)
        & (is_left == row.is_left)
}

/// The same, over an output as the row says.
fn is_right_into(alloc: Global, row: &Row, posts: &mut MemPosts, disk: &mut MemFs) -> bool {
    match MemSink::new(alloc, row.room, Vec::new(alloc)) {
        Ok(mut output) => is_right_over(alloc, row, posts, disk, &mut output),
        Err(_) => false,
    }
}

/// The same, over a new disk.
fn is_right_by(alloc: Global, row: &Row, posts: &mut MemPosts) -> bool {
    match MemFs::new(alloc, Vec::new(alloc), Vec::new(alloc)) {
        Ok(mut disk) => is_right_into(alloc, row, posts, &mut disk),
        Err(_) => false,
    }
}

/// Whether a cleaner does what the row says.
fn is_right(alloc: Global, row: &Row) -> bool {
    match posts_of(alloc, row.sent) {
        Ok(posts) => {
            let mut posts = MemPosts::new(posts);
            is_right_by(alloc, row, &mut posts)
        }
        Err(_) => false,
    }
}

/// Which row goes otherwise first; none if all go so.
fn first_wrong(alloc: Global, rows: &[Row]) -> Option<usize> {
    for (at, row) in rows.iter().enumerate() {
        if !is_right(alloc, row) {
            return Some(at);
        }
    }
    None
}

#[test]
fn the_input_is_a_channel(rt: HostRuntime) -> Result<(), Fail> {
    assert_eq!(rt; first_wrong(rt.alloc(), &ROWS), None);
    Ok(())
}
