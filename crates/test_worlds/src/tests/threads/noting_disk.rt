// A disk in memory that notes the first calls of members.
use call_fs::{CallFs, Fd, FsError, How, Stat};
use mail_bytes::NameBuf;
use mem_fs::MemFs;
use std::alloc::Global;
use std::sync::atomic::{AtomicU64, Ordering};

/// What the sender, the cleaner and the local spawner have asked, if each has made its first call. No mail makes one of these.
pub const ALL_ASKED: u64 = 7;

/// A disk in memory that notes these calls; the other spawner makes none without a request.
#[derive(Drop)]
pub struct NotingDisk<'a> {
    below: MemFs,
    asked: &'a AtomicU64,
}

impl<'a> NotingDisk<'a> {
    /// This disk, whose calls are noted here.
    pub fn new(below: MemFs, asked: &'a AtomicU64) -> Self {
        NotingDisk { below, asked }
    }

    /// Notes an open.
    fn note_open(&self, name: &[u8]) {
        if name == b"control/me".as_slice() {
            self.note(1);
        }
        if name == b"users/assign".as_slice() {
            self.note(4);
        }
    }

    /// Notes a look into a directory.
    fn note_look(&self, dir: &[u8]) {
        if dir == b"pid".as_slice() {
            self.note(2);
        }
    }

    fn note(&self, bit: u64) {
        self.asked.fetch_or(bit, Ordering::SeqCst);
    }
}

impl CallFs for NotingDisk<'_> {
    ghost use Rattle.std.specs.Prelude.{Some, None};
    ghost use Rattle.mem_fs.specs.MemDisk.{disk_of};

    ghost disk = { λ c. Some (disk_of c.below.held) };

    ghost calls = { λ _. None };

    ghost faults = { λ c. c.below.faults };

    ghost plan = { λ _. None };

    fn faults(&self) -> u64 {
        self.below.faults()
    }

    fn create_excl(&mut self, alloc: Global, now: u64, name: &[u8]) -> Result<(Fd, u64), FsError> {
        self.below.create_excl(alloc, now, name)
    }

    fn open(&mut self, alloc: Global, name: &[u8], how: How) -> Result<Fd, FsError> {
        self.note_open(name);
        self.below.open(alloc, name, how)
    }

    fn read_at(&mut self, fd: Fd, at: u64, into: &mut [u8]) -> Result<u64, FsError> {
        self.below.read_at(fd, at, into)
    }

    fn write_at(
        &mut self,
        alloc: Global,
        now: u64,
        fd: Fd,
        at: u64,
        bytes: &[u8],
    ) -> Result<(), FsError> {
        self.below.write_at(alloc, now, fd, at, bytes)
    }

    fn append(&mut self, alloc: Global, now: u64, fd: Fd, bytes: &[u8]) -> Result<(), FsError> {
        self.below.append(alloc, now, fd, bytes)
    }

    fn truncate(&mut self, fd: Fd, len: u64) -> Result<(), FsError> {
        self.below.truncate(fd, len)
    }

    fn sync(&mut self, fd: Fd) -> Result<(), FsError> {
        self.below.sync(fd)
    }

    fn close(&mut self, fd: Fd) -> Result<(), FsError> {
        self.below.close(fd)
    }

    fn link(&mut self, alloc: Global, old: &[u8], new: &[u8]) -> Result<(), FsError> {
        self.below.link(alloc, old, new)
    }

    fn unlink(&mut self, name: &[u8]) -> Result<(), FsError> {
        self.below.unlink(name)
    }

    fn stat(&mut self, name: &[u8]) -> Result<Stat, FsError> {
        self.below.stat(name)
    }

    fn next_name(&mut self, dir: &[u8], after: &[u8], into: &mut NameBuf) -> Result<bool, FsError> {
        self.note_look(dir);
        self.below.next_name(dir, after, into)
    }
}
