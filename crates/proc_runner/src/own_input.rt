// The program's own input.
ghost use Rattle.std.specs.Prelude.{◌≡◌, IfOk, None, true};
ghost use Rattle.crossbeam_queue.specs.Passes.{view};
ghost use Rattle.piece_queue.specs.Pieces.{FitsRoom};
ghost use Rattle.piece_queue.specs.Rule.{FailsAtOnce};
ghost use Rattle.proc_runner.specs.Flows.{Breaks, CutsOff, FailsFor, ReadsBytes};
ghost use Rattle.proc_runner.specs.Own.{IfLeft};

use crate::outflow::read_again;
use crate::shared::{Reader, Through};
use crate::system::Readable;
use mail_bytes::Memory;
use piece_queue::{Brought, Inflow, ROOM};
use std::alloc::{AllocError, Global};
use std::io::{self, Read};
use std::sync::{Arc, Mutex, Wait};
use std::thread::{self, JoinHandle, Threads};

/// A reader of std, whose errors no contract knows.
#[derive(Drop)]
pub struct StdReader<I: Read + Drop> {
    input: I,
}

impl<I: Read + Drop> StdReader<I> {
    /// Reads this.
    pub fn new(input: I) -> Self
        ensures { result.input ≡ input }
    {
        StdReader { input }
    }
}

impl<I: Read + Drop> Readable for StdReader<I> {
    ghost remaining = { λ r. I.remaining r.input };

    ghost breaks = { λ _ _. Unit {0} };

    fn read(&mut self, into: &mut [u8; ROOM]) -> io::Result<usize> {
        self.input.read(into)
    }
}

/// The program's own input, which has no process and no limit.
#[derive(Drop)]
struct OwnInput<R: Wait + Drop, I: Readable> {
    rt: R,
    input: I,
}

impl<R: Wait + Drop, I: Readable> Inflow for OwnInput<R, I> {
    ghost use Rattle.std.specs.Prelude.{None};

    ghost readings = { λ _. None };

    fn read(&mut self, into: &mut [u8; ROOM]) -> Brought
        ensures fits { FitsRoom result }
        ensures bytes { ReadsBytes result into.new (I.remaining self.old.input) (I.remaining self.new.input) }
        ensures cut { CutsOff result None into.new (I.remaining self.old.input) (I.remaining self.new.input) }
        ensures failed { FailsFor (Breaks (I.breaks self.old.input)) result }
    {
        match read_again(&self.rt, &mut self.input, into) {
            Some(0) => Brought::End,
            Some(count) => Brought::Bytes(count),
            None => Brought::Failed,
        }
    }
}

/// What became of a reading of the program's own input.
#[derive(Drop)]
pub enum OwnReading {
    /// This thread reads it, and gives what is left of the reader.
    Begun(JoinHandle<Option<Through>>),
    /// No thread could be started. The channel has one post, its failure, and this is left of the reader.
    Failed(Through),
}

/// Reads the program's own input from now on, as the channel of this reader, in a thread of its own. If that can't be started the
/// channel has one post, its failure. `Err` if there is no memory for that, or no room in the queue for the failure.
pub fn read_own_input<
    R: Threads + Wait + Copy + Send + Drop + 'static,
    I: Read + Send + Drop + 'static,
>(rt: R, alloc: Global, reader: Reader, input: I) -> Result<OwnReading, Memory>
    ensures failed { IfOk result (λ own. IfLeft own (λ through. FailsAtOnce reader.chan true (view through.pass))) }
{
    let chan = reader.chan();
    let slot = Arc::new(alloc, Mutex::new(Some(reader)))?;
    let theirs = Arc::try_clone(&slot)?;
    let mut source = OwnInput {
        rt,
        input: StdReader::new(input),
    };
    let begun = thread::spawn(&rt, move || {
        let taken = theirs.lock(&rt).take();
        match taken {
            Some(reader) => Some(reader.read(&rt, &mut source)),
            None => None,
        }
    });
    if let Ok(thread) = begun {
        return Ok(OwnReading::Begun(thread));
    }
    let left = slot.lock(&rt).take();
    match left {
        Some(reader) if reader.chan() == chan => match reader.fail(&rt) {
            Ok(through) => Ok(OwnReading::Failed(through)),
            Err(_) => Err(AllocError),
        },
        _ => Err(AllocError),
    }
}
