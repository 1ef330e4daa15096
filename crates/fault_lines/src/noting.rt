// A system that notes why it refuses calls.
ghost use Rattle.std.specs.Prelude.{◌≡◌};

use crate::fault_lines::FaultLines;
use call_fs::How;
use host_fs::{Facts, System};
use std::io::{self, ErrorKind};
use std::time::Duration;

/// A system whose refusals are noted. A directory that can't be made is told at once, since that counts as no fault.
#[derive(Clone, Copy)]
pub struct Noting<'a, S: System + Copy> {
    system: S,
    lines: &'a FaultLines,
}

impl<'a, S: System + Copy> Noting<'a, S> {
    /// This system, whose refusals are noted there.
    pub fn new(system: S, lines: &'a FaultLines) -> Self
        ensures { result.system ≡ system }
    {
        Noting { system, lines }
    }

    /// Notes why a call was refused, if it was, and hands its outcome on.
    fn noted<T>(&self, outcome: io::Result<T>) -> io::Result<T>
        ensures { result ≡ outcome }
    {
        if let Err(why) = &outcome {
            self.lines.note(why.raw_os_error());
        }
        outcome
    }
}

impl<'a, S: System + Copy> System for Noting<'a, S> {
    type File = S::File;

    type Listing = S::Listing;

    fn create(&self, path: &str) -> io::Result<S::File> {
        self.noted(self.system.create(path))
    }

    fn open(&self, path: &str, how: How) -> io::Result<S::File> {
        self.noted(self.system.open(path, how))
    }

    fn list(&self, path: &str) -> io::Result<S::Listing> {
        self.noted(self.system.list(path))
    }

    fn stat(&self, path: &str) -> io::Result<Facts> {
        self.noted(self.system.stat(path))
    }

    fn fstat(&self, file: &S::File) -> io::Result<Facts> {
        self.noted(self.system.fstat(file))
    }

    fn read_at(&self, file: &S::File, into: &mut [u8], at: u64) -> io::Result<usize> {
        self.noted(self.system.read_at(file, into, at))
    }

    fn write_at(&self, file: &S::File, bytes: &[u8], at: u64) -> io::Result<usize> {
        self.noted(self.system.write_at(file, bytes, at))
    }

    fn append(&self, file: &S::File, bytes: &[u8]) -> io::Result<usize> {
        self.noted(self.system.append(file, bytes))
    }

    fn set_len(&self, file: &S::File, len: u64) -> io::Result<()> {
        self.noted(self.system.set_len(file, len))
    }

    fn sync(&self, file: &S::File) -> io::Result<()> {
        self.noted(self.system.sync(file))
    }

    fn link(&self, old: &str, new: &str) -> io::Result<()> {
        self.noted(self.system.link(old, new))
    }

    fn unlink(&self, path: &str) -> io::Result<()> {
        self.noted(self.system.unlink(path))
    }

    fn make_dir(&self, path: &str) -> io::Result<()> {
        let made = self.noted(self.system.make_dir(path));
        match &made {
            Err(why) if why.kind() != ErrorKind::AlreadyExists => {
                self.lines.tell("mkdir", path.as_bytes());
            }
            _ => {}
        }
        made
    }

    fn now(&self) -> io::Result<Duration> {
        self.noted(self.system.now())
    }
}
