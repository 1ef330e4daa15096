// Files whose faults are told.
ghost use Rattle.std.specs.Prelude.{◌≡◌};

use crate::fault_lines::FaultLines;
use call_fs::{CallFs, Fd, FsError, How, Stat};
use mail_bytes::{ByteText, NameBuf};
use std::alloc::Global;

/// The name of what is open as a descriptor.
#[derive(Drop)]
struct Named {
    fd: u64,
    name: ByteText,
}

/// Files that tell each fault that is counted.
#[derive(Drop)]
pub struct TellingFiles<'a, F: CallFs + Drop> {
    below: F,
    alloc: Global,
    lines: &'a FaultLines,
    open: Vec<Named>,
}

impl<'a, F: CallFs + Drop> TellingFiles<'a, F> {
    /// These files, whose system notes its refusals there.
    pub fn new(below: F, alloc: Global, lines: &'a FaultLines) -> Self
        ensures { result.below ≡ below }
    {
        TellingFiles {
            below,
            alloc,
            lines,
            open: Vec::new(alloc),
        }
    }

    /// Tells a fault of a call of this name, if it came to one.
    fn judge<T>(&self, call: &str, name: &[u8], outcome: &Result<T, FsError>) {
        if let Err(FsError::Fault) = outcome {
            self.lines.tell(call, name);
        }
    }

    /// The same of a call of what is open.
    fn judge_open<T>(&self, call: &str, fd: Fd, outcome: &Result<T, FsError>) {
        match self.open.iter().find(|open| open.fd == fd.0) {
            Some(open) => self.judge(call, open.name.as_slice(), outcome),
            None => self.judge(call, b"?", outcome),
        }
    }

    /// Keeps the name of what was opened, if there is memory for it.
    fn keep(&mut self, fd: Fd, name: &[u8])
        ensures { self.new.below ≡ self.old.below }
    {
        if let Ok(name) = ByteText::from_slice(self.alloc, name) {
            let _kept = self.open.push(Named { fd: fd.0, name });
        }
    }
}

impl<'a, F: CallFs + Drop> CallFs for TellingFiles<'a, F> {
    ghost disk = { λ t. F.disk t.below };

    ghost calls = { λ t. F.calls t.below };

    ghost faults = { λ t. F.faults t.below };

    ghost plan = { λ t. F.plan t.below };

    fn faults(&self) -> u64 {
        self.below.faults()
    }

    fn create_excl(&mut self, alloc: Global, now: u64, name: &[u8]) -> Result<(Fd, u64), FsError> {
        self.lines.clear();
        let outcome = self.below.create_excl(alloc, now, name);
        self.judge("create", name, &outcome);
        if let Ok((fd, _)) = &outcome {
            self.keep(*fd, name);
        }
        outcome
    }

    fn open(&mut self, alloc: Global, name: &[u8], how: How) -> Result<Fd, FsError> {
        self.lines.clear();
        let outcome = self.below.open(alloc, name, how);
        self.judge("open", name, &outcome);
        if let Ok(fd) = &outcome {
            self.keep(*fd, name);
        }
        outcome
    }

    fn read_at(&mut self, fd: Fd, at: u64, into: &mut [u8]) -> Result<u64, FsError> {
        self.lines.clear();
        let outcome = self.below.read_at(fd, at, into);
        self.judge_open("read", fd, &outcome);
        outcome
    }

    fn write_at(
        &mut self,
        alloc: Global,
        now: u64,
        fd: Fd,
        at: u64,
        bytes: &[u8],
    ) -> Result<(), FsError> {
        self.lines.clear();
        let outcome = self.below.write_at(alloc, now, fd, at, bytes);
        self.judge_open("mark", fd, &outcome);
        outcome
    }

    fn append(&mut self, alloc: Global, now: u64, fd: Fd, bytes: &[u8]) -> Result<(), FsError> {
        self.lines.clear();
        let outcome = self.below.append(alloc, now, fd, bytes);
        self.judge_open("write", fd, &outcome);
        outcome
    }

    fn truncate(&mut self, fd: Fd, len: u64) -> Result<(), FsError> {
        self.lines.clear();
        let outcome = self.below.truncate(fd, len);
        self.judge_open("truncate", fd, &outcome);
        outcome
    }

    fn sync(&mut self, fd: Fd) -> Result<(), FsError> {
        self.lines.clear();
        let outcome = self.below.sync(fd);
        self.judge_open("sync", fd, &outcome);
        outcome
    }

    fn close(&mut self, fd: Fd) -> Result<(), FsError> {
        self.open.retain(|open| open.fd != fd.0);
        self.below.close(fd)
    }

    fn link(&mut self, alloc: Global, old: &[u8], new: &[u8]) -> Result<(), FsError> {
        self.lines.clear();
        let outcome = self.below.link(alloc, old, new);
        self.judge("link", new, &outcome);
        outcome
    }

    fn unlink(&mut self, name: &[u8]) -> Result<(), FsError> {
        self.lines.clear();
        let outcome = self.below.unlink(name);
        self.judge("unlink", name, &outcome);
        outcome
    }

    fn stat(&mut self, name: &[u8]) -> Result<Stat, FsError> {
        self.lines.clear();
        let outcome = self.below.stat(name);
        self.judge("stat", name, &outcome);
        outcome
    }

    fn next_name(&mut self, dir: &[u8], after: &[u8], into: &mut NameBuf) -> Result<bool, FsError> {
        self.lines.clear();
        let outcome = self.below.next_name(dir, after, into);
        self.judge("list", dir, &outcome);
        outcome
    }
}
