// What a channel's reader reads.
ghost use Rattle.std.specs.Prelude.{◌≡◌, ◌⊎◌, IfNone, IfSome, MatchBool};
ghost use Rattle.piece_queue.specs.Pieces.{FitsRoom};
ghost use Rattle.proc_runner.specs.Ends.{EndsAfter, HasEnded};
ghost use Rattle.proc_runner.specs.Flows.{Breaks, Comes, CountsPrinted, CutsOff, FailsFor, IsUntold, MayPrint, ReadsBytes, after_printing};

use crate::system::{Process, Readable};
use piece_queue::{Brought, Inflow, ROOM};
use std::io::ErrorKind;
use std::sync::Wait;
use std::time::Duration;

/// How long a reader sleeps before it asks again whether its process has ended: at first, and at most, in microseconds. One that has
/// closed its output by its end has ended a moment later.
const FIRST_NAP: u64 = 50;

const LONGEST_NAP: u64 = 1_000_000;

/// The output of a process. It ends when the process has closed it and has exited. If more is printed than the process may, it
/// is cut off there, and the process counts as ended by a signal. It fails if it can't be read, and if the system doesn't tell how
/// the process ended.
#[derive(Drop)]
pub(crate) struct Outflow<'a, R: Wait, P: Process, O: Readable> {
    rt: &'a R,
    process: &'a P,
    output: O,
    left: Option<usize>,
}

impl<'a, R: Wait, P: Process, O: Readable> Outflow<'a, R, P, O> {
    /// The output of this process, which may print so many bytes, or as many as it wants to.
    pub(crate) fn new(rt: &'a R, process: &'a P, output: O, left: Option<usize>) -> Self {
        Outflow {
            rt,
            process,
            output,
            left,
        }
    }
}

/// Waits until a process has exited. Answers whether the system told how.
fn await_exit<R: Wait, P: Process>(rt: &R, process: &P) -> bool
    ensures { MatchBool result (HasEnded (P.ends process.now) (P.fate process.now)) (IsUntold (P.errs process.now)) }
{
    let mut nap = FIRST_NAP;
    for _ in rt.forever() {
        match process.ask() {
            Ok(Some(_)) => return true,
            Ok(None) => {}
            Err(_) => return false,
        }
        process.nap(Duration::from_micros(nap));
        nap = nap.saturating_mul(2).min(LONGEST_NAP);
    }
    unreachable!()
}

/// Ends a process of which nothing more is read, and waits until it has exited, so that it leaves no zombie.
pub(crate) fn end_process<R: Wait, P: Process>(rt: &R, process: &P) {
    process.kill();
    await_exit(rt, process);
}

impl<'a, R: Wait, P: Process, O: Readable> Inflow for Outflow<'a, R, P, O> {
    ghost use Rattle.std.specs.Prelude.{None};

    ghost readings = { λ _. None };

    fn read(&mut self, into: &mut [u8; ROOM]) -> Brought
        ensures fits { FitsRoom result }
        ensures bytes { ReadsBytes result into.new (O.remaining self.old.output) (O.remaining self.new.output) }
        ensures printed { CountsPrinted result self.old.left self.new.left }
        ensures cut { CutsOff result self.old.left into.new (O.remaining self.old.output) (O.remaining self.new.output) }
        ensures ended { EndsAfter (P.ends self.old.process.now) (P.fate self.old.process.now) result }
        ensures failed { FailsFor (Breaks (O.breaks self.old.output) ⊎ IsUntold (P.errs self.old.process.now)) result }
    {
        match read_again(self.rt, &mut self.output, into) {
            Some(0) => {
                if await_exit(self.rt, self.process) {
                    return Brought::End;
                }
                Brought::Failed
            }
            Some(count) => {
                if allows(&mut self.left, count) {
                    return Brought::Bytes(count);
                }
                self.process.condemn();
                if await_exit(self.rt, self.process) {
                    return Brought::Cut;
                }
                Brought::Failed
            }
            None => {
                end_process(self.rt, self.process);
                Brought::Failed
            }
        }
    }
}

/// Whether so many bytes more may be printed, of as many as there is room for or of any number; they are counted then.
fn allows(room: &mut Option<usize>, count: usize) -> bool
    ensures { MatchBool result (MayPrint room.old count × (room.new ≡ after_printing room.old count)) (¬ (MayPrint room.old count) × (room.new ≡ room.old)) }
{
    match *room {
        None => true,
        Some(left) if count <= left => {
            *room = Some(left - count);
            true
        }
        Some(_) => false,
    }
}

/// A reader's bytes: how many came, 0 at the end, None if they can't be read. An interrupted read is tried again.
pub(crate) fn read_again<R: Wait, I: Readable>(
    rt: &R,
    input: &mut I,
    into: &mut [u8; ROOM],
) -> Option<usize>
    ensures some { IfSome result (λ count. Comes count into.new (I.remaining input.old) (I.remaining input.new)) }
    ensures none { IfNone result (Breaks (I.breaks input.old)) }
{
    for _ in rt.forever() {
        match input.read(into) {
            Ok(count) => return Some(count),
            Err(why) => match why.kind() {
                ErrorKind::Interrupted => {}
                _ => return None,
            },
        }
    }
    unreachable!()
}
