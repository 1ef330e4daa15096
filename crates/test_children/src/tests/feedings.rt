// What a child is fed, and what its writer writes of it.

use child_input::{Feeder, Writer, feed_ends};
use std::alloc::Global;
use std::io::{self, ErrorKind, Write};
use std::sync::Wait;
use std::test::*;

/// An input in memory: it takes up to 3 bytes at once, and so many in all; then a write fails.
#[derive(Drop)]
struct Narrow {
    bytes: Vec<u8>,
    left: usize,
}

impl Write for Narrow {
    fn write(&mut self, buf: &[u8]) -> io::Result<usize> {
        if self.left == 0 {
            return Err(io::Error::from(ErrorKind::BrokenPipe));
        }
        let count = buf.len().min(3).min(self.left);
        self.bytes.extend_from_slice(&buf[..count])?;
        self.left -= count;
        Ok(count)
    }

    fn flush(&mut self) -> io::Result<()> {
        Ok(())
    }
}

/// What ends a feeding.
#[derive(Clone, Copy)]
enum Last {
    /// The input is ended.
    End,
    /// The program gives up.
    GiveUp,
    /// Nothing.
    Nothing,
}

/// Feeds these texts, one after the other, and ends so. Answers whether all were taken.
fn feed_all<R: Wait>(
    rt: &R,
    alloc: Global,
    feeder: &mut Feeder,
    texts: &[&[u8]],
    last: Last,
) -> bool {
    let mut right = true;
    for text in texts {
        right = feeder.feed_copy(rt, alloc, text) && right;
    }
    match last {
        Last::End => feeder.end(rt) && right,
        Last::GiveUp => {
            feeder.give_up();
            right
        }
        Last::Nothing => right,
    }
}

/// Whether an input with this room gets this text of what was fed, and whether that is all as this writer tells it.
fn writes<R: Wait>(
    rt: &R,
    alloc: Global,
    writer: Writer,
    room: usize,
    text: &[u8],
    is_whole: bool,
) -> bool {
    let mut input = Narrow {
        bytes: Vec::new(alloc),
        left: room,
    };
    let written = writer.write(rt, &mut input);
    let is_so = (written.is_whole() == is_whole) & (input.bytes.as_slice() == text);
    drop(written);
    drop(input);
    is_so
}

/// Whether an input with this room gets this text of what is fed, where all of it is to be written or not; and whether nothing more
/// is taken after that.
fn gets<R: Wait>(
    rt: &R,
    alloc: Global,
    texts: &[&[u8]],
    last: Last,
    room: usize,
    text: &[u8],
    is_whole: bool,
) -> bool {
    match feed_ends(alloc) {
        Ok((mut feeder, writer)) => {
            let is_fed = feed_all(rt, alloc, &mut feeder, texts, last);
            let is_so = writes(rt, alloc, writer, room, text, is_whole);
            let is_late = feeder.feed_copy(rt, alloc, b"late");
            let is_ended = feeder.end(rt);
            drop(feeder);
            is_fed & is_so & !is_late & is_ended
        }
        Err(_) => false,
    }
}

const THREE: [&[u8]; 3] = [b"one, ", b"", b"and another"];

/// A text of which each write takes three bytes: 334 writes.
const LONG: [u8; 1000] = [b'x'; 1000];

#[test]
fn texts_are_written_in_order(rt: HostRuntime) {
    let alloc = rt.alloc();
    assert!(rt;
        gets(
            &rt,
            alloc,
            &THREE,
            Last::End,
            100,
            b"one, and another",
            true
        ) && gets(&rt, alloc, &THREE, Last::End, 7, b"one, an", false)
            && gets(&rt, alloc, &[&LONG], Last::End, 1000, &LONG, true)
            && gets(&rt, alloc, &[b"first"], Last::Nothing, 0, b"", false)
            && gets(&rt, alloc, &[b"first"], Last::GiveUp, 100, b"first", false)
    );
}
