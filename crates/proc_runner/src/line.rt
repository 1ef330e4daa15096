// What the program and the threads of a child share besides its process and what it is fed.
ghost use Rattle.std.specs.Prelude.{◌≡◌, ◌%◌, ◌^◌};

use crate::shared::Reader;
use crate::system::{Closing, Process};
use child_input::Writer;
use std::io::{self, Write};
use std::sync::atomic::{AtomicU64, Ordering};
use std::sync::{Mutex, Wait};
use std::time::Duration;

/// How long a watcher sleeps at most before it looks again, in milliseconds.
const LOOK: u64 = 1000;

/// How long the output of a child that has exited may be held open from when that is seen, in milliseconds. With the look before it
/// and the one after it that are five seconds.
const HELD: u64 = 3000;

/// A child's reader, until that reads; for how many milliseconds the child may run on after its input ended; whether the reader is
/// through; whether the child's input was ended; and a count of what is done.
#[derive(Drop)]
pub(crate) struct Line {
    pub(crate) reader: Mutex<Option<Reader>>,
    drain: u64,
    over: AtomicU64,
    ended: AtomicU64,
    moves: AtomicU64,
}

impl Line {
    /// No reader yet. Takes no memory.
    pub(crate) fn new(drain: u64) -> Self
        ensures { result.drain ≡ drain }
    {
        Line {
            reader: Mutex::new(None),
            drain,
            over: AtomicU64::new(0),
            ended: AtomicU64::new(0),
            moves: AtomicU64::new(0),
        }
    }

    fn tell(&self) {
        self.moves.fetch_add(1, Ordering::SeqCst);
        self.moves.wake_all();
    }

    /// The child's reader is through, so nobody needs to watch the child.
    pub(crate) fn let_go(&self) {
        self.over.store(1, Ordering::SeqCst);
        self.over.wake_all();
        self.tell();
    }

    /// The program has ended the child's input.
    pub(crate) fn end_input(&self) {
        self.ended.store(1, Ordering::SeqCst);
        self.tell();
    }

    /// Waits until the child's reader is through.
    pub(crate) fn await_end<R: Wait>(&self, rt: &R) {
        for _ in rt.forever() {
            if self.over.load(Ordering::SeqCst) != 0 {
                return;
            }
            self.over.park(rt, 0);
        }
    }

    /// Whether the child's reader is through.
    fn is_over(&self) -> bool {
        self.over.load(Ordering::SeqCst) != 0
    }

    /// Waits until the child has ended, and from the end of its input on no longer than it may run on after something was
    /// written there, nor much longer than until it has exited. Answers whether its reader is through.
    fn watch<R: Wait, P: Process>(&self, rt: &R, process: &P) -> bool {
        let mut left = self.drain;
        for _ in rt.forever() {
            let seen = self.moves.load(Ordering::SeqCst);
            if self.is_over() {
                return true;
            }
            if self.ended.load(Ordering::SeqCst) == 0 {
                self.moves.park(rt, low_half(seen));
            } else if left == 0 {
                return false;
            } else {
                left = self.after_nap(rt, seen, left, process);
            }
        }
        unreachable!()
    }

    /// Sleeps until something is done, or for a while. Answers what is left of the time.
    fn after_nap<R: Wait, P: Process>(&self, rt: &R, seen: u64, left: u64, process: &P) -> u64 {
        let slice = left.min(LOOK);
        self.moves
            .park_timeout(rt, low_half(seen), Duration::from_millis(slice));
        if self.moves.load(Ordering::SeqCst) != seen {
            return self.drain;
        }
        let rest = left - slice;
        if rest > HELD && process.has_exited() {
            return HELD;
        }
        rest
    }

    /// Waits until the child's reader is through, for a while at most. Answers whether it is.
    fn is_soon_over<R: Wait>(&self, rt: &R) -> bool {
        if !self.is_over() {
            self.over.park_timeout(rt, 0, Duration::from_millis(LOOK));
        }
        self.is_over()
    }
}

/// An input that tells a line of each write.
struct Told<'a, I: Write> {
    input: I,
    line: &'a Line,
}

impl<'a, I: Write> Write for Told<'a, I> {
    ghost contents = { λ t. I.contents t.input };

    fn write(&mut self, buf: &[u8]) -> io::Result<usize> {
        let count = self.input.write(buf)?;
        self.line.tell();
        Ok(count)
    }

    fn flush(&mut self) -> io::Result<()> {
        self.input.flush()
    }
}

/// What a child's writer does: it writes what is fed, and closes the input.
pub(crate) fn run_writer<R: Wait, I: Write + Closing>(
    rt: &R,
    line: &Line,
    writer: Writer,
    input: I,
) {
    let mut told = Told { input, line };
    let written = writer.write(rt, &mut told);
    let Told { input, line } = told;
    input.close(written.is_whole());
    line.tell();
}

/// What a child's watcher does: it ends the child if it runs on for longer than it may after its input was ended, also if it reads
/// no more of it, and what it has started if that holds its output open after it has exited. What has left its group can hold the
/// output open even then, and isn't waited for.
pub(crate) fn watch_child<R: Wait, P: Process>(rt: &R, line: &Line, process: &P) {
    if line.watch(rt, process) {
        return;
    }
    process.kill();
    if !line.is_soon_over(rt) {
        process.cut();
    }
}

/// The low 32 bits of a count.
pub(crate) fn low_half(count: u64) -> u32
    ensures { result ≡ count % 2 ^ 32 }
{
    (count % (1 << 32)) as u32
}
