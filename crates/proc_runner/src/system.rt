// What a system does for children.

use crate::start::Start;
use piece_queue::ROOM;
use std::alloc::Global;
use std::io::{self, Write};
use std::sync::Arc;
use std::time::Duration;

/// How a process ended.
#[derive(Clone, Copy)]
pub enum Exit {
    /// It exited with this status.
    Code(u8),
    /// It was ended by a signal.
    Signal,
}

/// A process that was started. The program, its reader and its writer share it.
pub trait Process: Drop {
    ghost use Rattle.std.specs.Prelude.{IfErr, IfOk, IfSome, Option};
    ghost use Rattle.std.specs.declared.io.Error.{Error};
    ghost use Rattle.proc_runner.specs.declared.system.Exit.{Exit};
    ghost use Rattle.proc_runner.specs.declared.system.Exit.TheVariants as exit;
    ghost use Rattle.proc_runner.specs.Ends.{IsFate, IsTold};

    /// An end that the system may tell of it.
    ghost ends: { Self → Exit → Type 0 };

    /// The end that all are told who ask, if that is known.
    ghost fate: { Self → Option Exit };

    /// An error that may come in place of an answer.
    ghost errs: { Self → Error → Type 0 };

    /// How it ended, None if it runs; as waitpid(2) with `WNOHANG`. It doesn't wait, and an end is told again.
    fn ask(&self) -> io::Result<Option<Exit>>
        ensures told { IfOk result (λ exit. IfSome exit (IsTold (ends self.now) (fate self.now))) }
        ensures untold { IfErr result (errs self.now) };

    /// Whether it has exited, as far as the system tells. Its end isn't told by this, so its number is still its own.
    fn has_exited(&self) -> bool;

    /// Ends it by SIGKILL, with all of its group if it leads one; one that wasn't started yet never is. Nothing is done to one whose
    /// end was told.
    fn kill(&self);

    /// Ends it by SIGKILL, also if it has exited before: its end is told as that of a signal. Nobody was told its end so far.
    fn condemn(&self)
        ensures { IsFate (fate self.now) exit.Signal };

    /// No more of its output is read: a reading that waits ends.
    fn cut(&self);

    /// Sleeps so long, before it is asked again.
    fn nap(&self, time: Duration);
}

/// An input that is closed once, and told whether it is whole.
pub trait Closing: Drop {
    /// Ends the input. A process that gets it as a file is started now if it is whole, and else never.
    fn close(self, is_whole: bool);
}

/// What is read as a channel: the output of a process, or the program's own input.
pub trait Readable: Drop {
    ghost use Rattle.std.specs.Prelude.{ℕ, IfErr, IfOk, List, Option};
    ghost use Rattle.std.specs.Io.KnownBytes.{Keeps};
    ghost use Rattle.std.specs.declared.io.Error.{Error};
    ghost use Rattle.proc_runner.specs.Flows.{Comes};

    /// The bytes that are left to be read, if they are known.
    ghost remaining: { Self → Option (List ℕ) };

    /// An error that may come in place of bytes, now or later.
    ghost breaks: { Self → Error → Type 0 };

    /// Reads some bytes, to the start of this room: how many, 0 only at the end. As read(2).
    fn read(&mut self, into: &mut [u8; ROOM]) -> io::Result<usize>
        ensures bytes { IfOk result (λ count. Comes count into.new (remaining self.old) (remaining self.new)) }
        ensures kept { IfErr result (λ _. Keeps (remaining self.old) (remaining self.new)) }
        ensures broke { IfErr result (breaks self.old) }
        ensures later { (why : Error) → breaks self.new why → breaks self.old why };
}

/// A process that was started, its number, and our ends of its input and its output.
#[derive(Drop)]
pub struct Born<P: Process, I: Write + Drop, O: Readable> {
    /// The process.
    pub process: Arc<P, Global>,
    /// Its number, 0 if the system tells none.
    pub number: u32,
    /// What is written there is its input; closing it, or letting go of it, ends the input.
    pub input: I,
    /// What is read there is its output.
    pub output: O,
}

/// A system, by the calls that `Children` makes of it.
pub trait System: Drop {
    ghost use Rattle.std.specs.Prelude.{ℕ, IfOk};
    ghost use Rattle.std.specs.Arc.{arc_value};
    ghost use Rattle.proc_runner.specs.declared.start.Start.{Start};

    /// A process.
    type Process: Process;

    /// Our end of a process's input. A write to a process that has gone fails, and raises no signal.
    type Input: Write + Closing;

    /// Our end of a process's output.
    type Output: Readable;

    /// What the system may give for a start: the number of a process, and the process.
    ghost gives: { Self → Start → ℕ → Self.Process → Type 0 };

    /// Starts a process, as posix_spawn(3), its output piped. The input of this same program is piped; another program gets a file,
    /// and is started only when that is whole: that it could be is asked here. All memory is taken before it is started.
    fn spawn(
        &self,
        alloc: Global,
        start: &Start<'_>,
    ) -> io::Result<Born<Self::Process, Self::Input, Self::Output>>
        ensures { IfOk result (λ born. gives self.now start.now born.number (arc_value born.process)) };
}
