// Children as processes.
ghost use Rattle.std.specs.Prelude.{◌≡◌, ◌<◌, ◌≤◌, IfNone, IfOk, IfSome, OnErr, Some, length, map, slice_get, Contains, []};
ghost use Rattle.std.specs.Arc.{arc_value};
ghost use Rattle.mail_bytes.specs.Told.{Rose};
ghost use Rattle.outside.specs.Children.{Starts};
ghost use Rattle.outside.specs.Forms.{channels};
ghost use Rattle.outside.specs.Streams.{CountsFailures};
ghost use Rattle.child_input.specs.Feedings.{feeding_of, nothing_fed};
ghost use Rattle.proc_runner.specs.Ends.{IsTold};
ghost use Rattle.proc_runner.specs.Running.{EndsInput, Feeds, HasLimit, RunsMore, TellsStatus, child, limit_of};

use crate::desk::{Desk, ToRead, Work, run_desk};
use crate::line::Line;
use crate::outflow::end_process;
use crate::running::Running;
use crate::shared::{Opener, Reader};
use crate::start::{Kind, Start};
use crate::system::{Born, Process, System};
use child_input::{Feeder, Writer, feed_ends};
use mail_bytes::Memory;
use outside::{Gave, Spawner, Started, Status};
use std::alloc::{AllocError, Global};
use std::io::ErrorKind;
use std::sync::{Arc, Wait};
use std::thread::{self, Threads};

/// How many bytes a local delivery or a remote program may print, since its spawner keeps them. What the command of a user prints
/// its delivery lets go.
pub const MOST_PRINTED: usize = 1 << 20;

/// The readers of the next channels: what opens them, and one that is left of a start that failed.
#[derive(Drop)]
struct Readers {
    opener: Opener,
    spare: Option<Reader>,
}

impl Readers {
    /// The reader of the next channel; None if no number is left for it.
    fn next(&mut self) -> Result<Option<Reader>, Memory> {
        match self.spare.take() {
            Some(reader) => Ok(Some(reader)),
            None => self.opener.open(),
        }
    }
}

/// What is made for a child before it is started.
#[derive(Drop)]
struct Made {
    line: Arc<Line, Global>,
    theirs: Arc<Line, Global>,
    also: Arc<Line, Global>,
    feeder: Feeder,
    writer: Writer,
}

impl Made {
    /// For a child that may run on for so many milliseconds after its input ended.
    fn new(alloc: Global, drain: u64) -> Result<Made, Memory>
        ensures fed { IfOk result (λ made. feeding_of made.feeder.pass.me.view.client made.feeder.is_open ≡ nothing_fed) }
        ensures drain { IfOk result (λ made. (arc_value made.line).drain ≡ drain) }
        ensures shared { IfOk result (λ made. (arc_value made.theirs ≡ arc_value made.line) × (arc_value made.also ≡ arc_value made.line)) }
    {
        let line = Arc::new(alloc, Line::new(drain))?;
        let theirs = Arc::try_clone(&line)?;
        let also = Arc::try_clone(&line)?;
        let (feeder, writer) = feed_ends(alloc)?;
        Ok(Made {
            line,
            theirs,
            also,
            feeder,
            writer,
        })
    }
}

/// A process twice more.
fn twice<P: Process>(process: &Arc<P, Global>) -> Result<(Arc<P, Global>, Arc<P, Global>), Memory>
    ensures { IfOk result (λ both. (arc_value both.0 ≡ arc_value process.now) × (arc_value both.1 ≡ arc_value process.now)) }
{
    let one = Arc::try_clone(process)?;
    let two = Arc::try_clone(process)?;
    Ok((one, two))
}

/// Children as processes of a system. The empty word in place of a program is this program itself.
#[derive(Drop)]
pub struct Children<R: Drop, S: System> {
    rt: R,
    alloc: Global,
    system: S,
    readers: Readers,
    desk: Arc<Desk<S::Process, S::Input, S::Output>, Global>,
    count: u32,
    running: Vec<Running<S>>,
    drain: u64,
    faults: u64,
}

impl<R: Threads + Wait + Copy + Send + Drop + 'static, S: System> Children<R, S>
where
    S::Process: Send + Sync + 'static,
    S::Input: Send + 'static,
    S::Output: Send + 'static,
{
    /// No children yet. What they print is read into the queue of this opener, of which channel 0, and no other, was opened
    /// before; else each start fails. A child that runs for longer than `drain` milliseconds after its input ended is ended.
    /// `Err` if there is no memory, or no thread that starts readers and writers.
    pub fn new(rt: R, alloc: Global, system: S, opener: Opener, drain: u64) -> Result<Self, Memory>
        ensures count { IfOk result (λ children. children.count ≡ 0) }
        ensures running { IfOk result (λ children. children.running.items ≡ []) }
        ensures faults { IfOk result (λ children. children.faults ≡ 0) }
        ensures system { IfOk result (λ children. children.system ≡ system) }
        ensures opener { IfOk result (λ children. children.readers.opener ≡ opener) }
        ensures drain { IfOk result (λ children. children.drain ≡ drain) }
    {
        let desk = Arc::new(alloc, Desk::new(alloc))?;
        let theirs = Arc::try_clone(&desk)?;
        let begun = thread::spawn(&rt, move || run_desk(rt, &theirs));
        if begun.is_err() {
            return Err(AllocError);
        }
        Ok(Children {
            rt,
            alloc,
            system,
            readers: Readers {
                opener,
                spare: None,
            },
            desk,
            count: 0,
            running: Vec::new(alloc),
            drain,
            faults: 0,
        })
    }
}

impl<R: Wait + Drop, S: System> Children<R, S> {
    /// Where the child of a channel stands.
    fn place_of(&self, chan: u32) -> Option<usize>
        ensures some { IfSome result (λ place. slice_get (map (λ r. r.chan) self.now.running.items) place ≡ Some chan) }
        ensures within { IfSome result (λ place. place < length self.now.running.items) }
        ensures none { IfNone result (¬ (Contains (map (λ r. r.chan) self.now.running.items) chan)) }
    {
        for place in 0..self.running.len() {
            if self.running[place].chan == chan {
                return Some(place);
            }
        }
        None
    }

    fn count_failure(&mut self)
        ensures later { self.old.faults ≤ self.new.faults }
        ensures rose { Rose self.old.faults self.new.faults }
        ensures same { (self.new.running.items ≡ self.old.running.items) × (self.new.count ≡ self.old.count) × (self.new.drain ≡ self.old.drain) }
    {
        self.faults = self.faults.saturating_add(1);
    }

    /// Starts a child with these words. If that fails no child is left.
    fn run(&mut self, alloc: Global, words: &[&[u8]]) -> Result<Started, Memory>
        ensures ran { IfOk result (λ started. RunsMore (S.gives self.old.system) (map (λ w. w.now) words.now) started
            (map (λ r. child r.chan (arc_value r.process) (feeding_of r.feeder.pass.me.view.client r.feeder.is_open)) self.old.running.items) (map (λ r. child r.chan (arc_value r.process) (feeding_of r.feeder.pass.me.view.client r.feeder.is_open)) self.new.running.items)) }
        ensures chan { IfOk result (λ started. Starts started (channels self.old.count) (channels self.new.count)) }
        ensures drain { IfOk result (λ started. HasLimit self.old.drain started (map (λ r. limit_of (arc_value r.line)) self.old.running.items) (map (λ r. limit_of (arc_value r.line)) self.new.running.items)) }
        ensures memory { OnErr result ((self.new.running.items ≡ self.old.running.items) × (self.new.count ≡ self.old.count)) }
        ensures same { (self.new.faults ≡ self.old.faults) × (self.new.drain ≡ self.old.drain) }
    {
        let Some(start) = Start::of(words) else {
            return Ok(Started::Failed);
        };
        self.running.reserve(1)?;
        self.desk.reserve(&self.rt)?;
        let made = Made::new(self.alloc, self.drain)?;
        let Some(reader) = self.readers.next()? else {
            return Ok(Started::Failed);
        };
        let chan = reader.chan();
        if chan <= self.count || chan - self.count != 1 {
            self.readers.spare = Some(reader);
            return Ok(Started::Failed);
        }
        let born = match self.system.spawn(alloc, &start) {
            Ok(born) => born,
            Err(why) => {
                self.readers.spare = Some(reader);
                return refused(why.kind());
            }
        };
        let number = born.number;
        let child = adopt(&self.rt, &self.desk, made, reader, start.kind, born)?;
        self.running.push(child).unwrap();
        self.count = chan;
        Ok(Started::Chan { chan, pid: number })
    }
}

/// A child of this process, whose output is read from now on. The error: out of memory; the process was ended.
fn adopt<R: Wait, S: System>(
    rt: &R,
    desk: &Desk<S::Process, S::Input, S::Output>,
    made: Made,
    reader: Reader,
    kind: Kind,
    born: Born<S::Process, S::Input, S::Output>,
) -> Result<Running<S>, Memory>
    ensures chan { IfOk result (λ child. child.chan ≡ reader.chan) }
    ensures process { IfOk result (λ child. arc_value child.process ≡ arc_value born.process) }
    ensures feeder { IfOk result (λ child. child.feeder ≡ made.feeder) }
    ensures line { IfOk result (λ child. child.line ≡ made.line) }
{
    let Made {
        line,
        theirs,
        also,
        feeder,
        writer,
    } = made;
    let Born {
        process,
        number: _,
        input,
        output,
    } = born;
    let chan = reader.chan();
    *line.reader.lock(rt) = Some(reader);
    let Ok((shared, kept)) = twice(&process) else {
        end_process(rt, process.as_ref());
        return Err(AllocError);
    };
    let work = ToRead {
        line: theirs,
        also,
        process: shared,
        kept,
        output,
        left: most_printed(kind),
    };
    if desk.put(rt, Work::Read(work)).is_err() {
        end_process(rt, process.as_ref());
        return Err(AllocError);
    }
    Ok(Running {
        chan,
        process,
        line,
        feeder,
        input: Some((writer, input)),
    })
}

/// How many bytes a child may print; None if as many as it wants to.
fn most_printed(kind: Kind) -> Option<usize> {
    match kind {
        Kind::Member | Kind::Command => None,
        Kind::Delivery | Kind::Remote => Some(MOST_PRINTED),
    }
}

/// What came of a start that the system refused.
fn refused(why: ErrorKind) -> Result<Started, Memory>
    ensures { IfOk result (λ started. started ≡ Started.Failed) }
{
    if why == ErrorKind::OutOfMemory {
        return Err(AllocError);
    }
    Ok(Started::Failed)
}

impl<R: Wait + Drop, S: System> Spawner for Children<R, S> {
    ghost use Rattle.std.specs.Prelude.{None};
    ghost use Rattle.outside.specs.Forms.{channels};

    ghost children = { λ s. channels s.count };

    ghost calls = { λ _. None };

    ghost faults = { λ s. s.faults };

    fn faults(&self) -> u64 {
        self.faults
    }

    fn start(&mut self, alloc: Global, words: &[&[u8]]) -> Started
        ensures chan { Starts result (channels self.old.count) (channels self.new.count) }
        ensures cause { CountsFailures self.old.faults self.new.faults (result ≡ Started.Failed) }
        ensures drain { HasLimit self.old.drain result (map (λ r. limit_of (arc_value r.line)) self.old.running.items) (map (λ r. limit_of (arc_value r.line)) self.new.running.items) }
        ensures kept { self.new.drain ≡ self.old.drain }
        ensures ran { RunsMore (S.gives self.old.system) (map (λ w. w.now) words.now) result
            (map (λ r. child r.chan (arc_value r.process) (feeding_of r.feeder.pass.me.view.client r.feeder.is_open)) self.old.running.items) (map (λ r. child r.chan (arc_value r.process) (feeding_of r.feeder.pass.me.view.client r.feeder.is_open)) self.new.running.items) }
    {
        match self.run(alloc, words) {
            Ok(Started::Failed) => {
                self.count_failure();
                Started::Failed
            }
            Ok(started) => started,
            Err(_) => Started::Memory,
        }
    }

    fn feed(&mut self, chan: u32, bytes: &[u8]) -> Gave
        ensures same { channels self.new.count ≡ channels self.old.count }
        ensures cause { CountsFailures self.old.faults self.new.faults (result ≡ Gave.Failed) }
        ensures fed { Feeds chan bytes.now result
            (map (λ r. child r.chan (arc_value r.process) (feeding_of r.feeder.pass.me.view.client r.feeder.is_open)) self.old.running.items)
            (map (λ r. child r.chan (arc_value r.process) (feeding_of r.feeder.pass.me.view.client r.feeder.is_open)) self.new.running.items) }
    {
        let Some(place) = self.place_of(chan) else {
            self.count_failure();
            return Gave::Failed;
        };
        if self.running[place].give(&self.rt, self.alloc, &self.desk, bytes) {
            return Gave::Done;
        }
        self.count_failure();
        Gave::Failed
    }

    fn finish(&mut self, chan: u32)
        ensures same { channels self.new.count ≡ channels self.old.count }
        ensures cause { self.new.faults ≡ self.old.faults }
        ensures ended { EndsInput chan
            (map (λ r. child r.chan (arc_value r.process) (feeding_of r.feeder.pass.me.view.client r.feeder.is_open)) self.old.running.items)
            (map (λ r. child r.chan (arc_value r.process) (feeding_of r.feeder.pass.me.view.client r.feeder.is_open)) self.new.running.items) }
    {
        if let Some(place) = self.place_of(chan) {
            self.running[place].finish(&self.rt, &self.desk);
        }
    }

    /// It waits for the reader, which is through once its channel's end or failure was told: ask no sooner.
    fn status(&mut self, chan: u32) -> Status
        ensures same { channels self.new.count ≡ channels self.old.count }
        ensures cause { CountsFailures self.old.faults self.new.faults (result ≡ Status.Failed) }
        ensures told { TellsStatus (λ p. IsTold (S.Process.ends p) (S.Process.fate p)) chan result
            (map (λ r. child r.chan (arc_value r.process) (feeding_of r.feeder.pass.me.view.client r.feeder.is_open)) self.old.running.items) (map (λ r. child r.chan (arc_value r.process) (feeding_of r.feeder.pass.me.view.client r.feeder.is_open)) self.new.running.items) }
    {
        let Some(place) = self.place_of(chan) else {
            self.count_failure();
            return Status::Failed;
        };
        let child = self.running.remove(place);
        match child.status(&self.rt) {
            Status::Failed => {
                self.count_failure();
                Status::Failed
            }
            status => status,
        }
    }
}
