// The thread that starts the readers and the writers of children.

use crate::line::{Line, low_half, run_writer, watch_child};
use crate::outflow::{Outflow, end_process};
use crate::shared::Reader;
use crate::system::{Closing, Process, Readable};
use child_input::Writer;
use mail_bytes::Memory;
use std::alloc::Global;
use std::collections::VecDeque;
use std::io::Write;
use std::sync::atomic::{AtomicU64, Ordering};
use std::sync::{Arc, Mutex, Wait};
use std::thread::{self, Threads};
use std::time::Duration;

/// How long it sleeps, in milliseconds, if there is no room for the failure of a channel.
const NAP: u64 = 10;

/// A process whose output is to be read; `also` and `kept` are for the case that this can't begin.
#[derive(Drop)]
pub(crate) struct ToRead<P: Process, O: Readable> {
    pub(crate) line: Arc<Line, Global>,
    pub(crate) also: Arc<Line, Global>,
    pub(crate) process: Arc<P, Global>,
    pub(crate) kept: Arc<P, Global>,
    pub(crate) output: O,
    pub(crate) left: Option<usize>,
}

/// A process whose input is to be written, and which is to be watched; `also` and `kept` are for the case that this can't begin.
#[derive(Drop)]
pub(crate) struct ToWrite<P: Process, I: Write + Closing> {
    pub(crate) line: Arc<Line, Global>,
    pub(crate) also: Arc<Line, Global>,
    pub(crate) process: Arc<P, Global>,
    pub(crate) kept: Arc<P, Global>,
    pub(crate) writer: Writer,
    pub(crate) input: I,
}

/// What a thread is to be started for.
#[derive(Drop)]
pub(crate) enum Work<P: Process, I: Write + Closing, O: Readable> {
    /// A reader.
    Read(ToRead<P, O>),
    /// A writer.
    Write(ToWrite<P, I>),
}

/// What threads are to be started for, oldest first.
#[derive(Drop)]
pub(crate) struct Desk<P: Process, I: Write + Closing, O: Readable> {
    works: Mutex<VecDeque<Work<P, I, O>>>,
    changes: AtomicU64,
}

impl<P: Process, I: Write + Closing, O: Readable> Desk<P, I, O> {
    /// Nothing is to be started yet. Takes no memory.
    pub(crate) fn new(alloc: Global) -> Self {
        Desk {
            works: Mutex::new(VecDeque::new(alloc)),
            changes: AtomicU64::new(0),
        }
    }

    /// Takes room for one more.
    pub(crate) fn reserve<R: Wait>(&self, rt: &R) -> Result<(), Memory> {
        let mut works = self.works.lock(rt);
        works.reserve(1)?;
        Ok(())
    }

    /// A thread is to be started. After a `reserve` there is room.
    pub(crate) fn put<R: Wait>(&self, rt: &R, work: Work<P, I, O>) -> Result<(), Memory> {
        let mut works = self.works.lock(rt);
        works.push_back(work)?;
        drop(works);
        self.changes.fetch_add(1, Ordering::SeqCst);
        self.changes.wake_all();
        Ok(())
    }

    fn take<R: Wait>(&self, rt: &R) -> Option<Work<P, I, O>> {
        self.works.lock(rt).pop_front()
    }
}

/// Starts threads for whatever comes, for ever.
pub(crate) fn run_desk<
    R: Threads + Wait + Copy + Send + Drop + 'static,
    P: Process + Send + Sync + 'static,
    I: Write + Closing + Send + 'static,
    O: Readable + Send + 'static,
>(rt: R, desk: &Desk<P, I, O>) {
    for _ in rt.forever() {
        let seen = desk.changes.load(Ordering::SeqCst);
        match desk.take(&rt) {
            Some(Work::Read(work)) => begin_reader(rt, work),
            Some(Work::Write(work)) => begin_writer(rt, work),
            None => desk.changes.park(&rt, low_half(seen)),
        }
    }
}

/// Starts a reader. If that can't be done the process is ended and its channel fails.
fn begin_reader<
    R: Threads + Wait + Copy + Send + Drop + 'static,
    P: Process + Send + Sync + 'static,
    O: Readable + Send + 'static,
>(rt: R, work: ToRead<P, O>) {
    let ToRead {
        line,
        also,
        process,
        kept,
        output,
        left,
    } = work;
    let begun = thread::spawn(&rt, move || {
        read_child(&rt, &line, process.as_ref(), output, left)
    });
    if begun.is_ok() {
        return;
    }
    end_process(&rt, kept.as_ref());
    let reader = also.reader.lock(&rt).take();
    if let Some(reader) = reader {
        fail(&rt, reader);
    }
    also.let_go();
}

/// Starts a writer, and what watches the child. If that can't be done the process is ended, before its input is closed.
fn begin_writer<
    R: Threads + Wait + Copy + Send + Drop + 'static,
    P: Process + Send + Sync + 'static,
    I: Write + Closing + Send + 'static,
>(rt: R, work: ToWrite<P, I>) {
    let ToWrite {
        line,
        also,
        process,
        kept,
        writer,
        input,
    } = work;
    let watching = thread::spawn(&rt, move || { watch_child(&rt, &also, process.as_ref()) });
    if watching.is_err() {
        kept.kill();
    }
    let begun = thread::spawn(&rt, move || run_writer(&rt, &line, writer, input));
    if let Err(refused) = begun {
        kept.kill();
        drop(refused);
    }
}

/// What a child's reader does: it reads the output to its end, and pushes what came.
fn read_child<R: Wait, P: Process, O: Readable>(
    rt: &R,
    line: &Line,
    process: &P,
    output: O,
    left: Option<usize>,
) {
    let taken = line.reader.lock(rt).take();
    if let Some(reader) = taken {
        let mut flow = Outflow::new(rt, process, output, left);
        let _ = reader.read(rt, &mut flow);
    }
    line.let_go();
}

/// Pushes that a channel failed, once there is room.
fn fail<R: Wait>(rt: &R, reader: Reader) {
    let mut left = reader;
    let never = AtomicU64::new(0);
    for _ in rt.forever() {
        match left.fail(rt) {
            Ok(_) => return,
            Err(back) => left = back,
        }
        never.park_timeout(rt, 0, Duration::from_millis(NAP));
    }
}
