// A system that waits until a member is at work.
ghost use Rattle.std.specs.Prelude.{◌≡◌};

use crate::start::{Kind, Start};
use crate::system::{Born, Process, System};
use std::alloc::Global;
use std::io::{self, ErrorKind};
use std::time::Duration;

/// How often it is looked whether a member is at work, and how many milliseconds lie between two looks: half a minute in all.
const LOOKS: u32 = 3000;

const NAP: u64 = 10;

/// What tells whether a member that was started is at work.
pub trait Look: Drop {
    /// Whether the member of these words holds its lock, so that whoever begins later waits for its end.
    fn is_at_work(&self, alloc: Global, words: &[&[u8]]) -> bool;
}

/// A system that starts what another one starts. A member counts as started only once it is at work, or has ended; one that isn't
/// within half a minute is ended, and its start fails.
#[derive(Drop)]
pub struct PatientSystem<S: System, L: Look> {
    system: S,
    look: L,
}

impl<S: System, L: Look> PatientSystem<S, L> {
    /// Over this system, whose members this looks at.
    pub fn new(system: S, look: L) -> Self
        ensures system { result.system ≡ system }
        ensures look { result.look ≡ look }
    {
        PatientSystem { system, look }
    }
}

/// Waits until a member of these words is at work, or has ended. Answers whether it is so.
fn awaits<P: Process, L: Look>(look: &L, process: &P, alloc: Global, words: &[&[u8]]) -> bool {
    for _ in 0..LOOKS {
        if look.is_at_work(alloc, words) {
            return true;
        }
        match process.ask() {
            Ok(Some(_)) => return true,
            Ok(None) => process.nap(Duration::from_millis(NAP)),
            Err(_) => return false,
        }
    }
    false
}

/// Ends a process, and waits for a while until it has exited.
fn end<P: Process>(process: &P) {
    process.kill();
    for _ in 0..LOOKS {
        match process.ask() {
            Ok(None) => process.nap(Duration::from_millis(NAP)),
            _ => return,
        }
    }
}

impl<S: System, L: Look> System for PatientSystem<S, L> {
    type Process = S::Process;

    type Input = S::Input;

    type Output = S::Output;

    ghost gives = { λ s. S.gives s.system };

    fn spawn(
        &self,
        alloc: Global,
        start: &Start<'_>,
    ) -> io::Result<Born<S::Process, S::Input, S::Output>> {
        let born = self.system.spawn(alloc, start)?;
        if !matches!(start.kind, Kind::Member) {
            return Ok(born);
        }
        if awaits(&self.look, born.process.as_ref(), alloc, start.words) {
            return Ok(born);
        }
        end(born.process.as_ref());
        Err(io::Error::from(ErrorKind::TimedOut))
    }
}
