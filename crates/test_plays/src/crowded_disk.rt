// A disk in memory that lacks memory for one call.
ghost use Rattle.std.specs.Prelude.{◌≡◌, ◌⊎◌, Ok, Err};
ghost use Rattle.call_fs.specs.declared.calls.FsError.TheVariants as FsError;

use call_fs::{CallFs, Fd, FsError, How, Stat};
use mail_bytes::NameBuf;
use mem_fs::MemFs;
use std::alloc::Global;

/// A disk in memory that answers `Memory` to one of its calls, if that call may; counted from 1 over every call but
/// `close`.
#[derive(Drop)]
pub(crate) struct CrowdedDisk {
    below: MemFs,
    made: u64,
    lacking: u64,
}

impl CrowdedDisk {
    /// This disk, which lacks memory for the call of this index.
    pub(crate) fn new(below: MemFs, lacking: u64) -> Self {
        CrowdedDisk {
            below,
            made: 0,
            lacking,
        }
    }

    /// The disk below.
    pub(crate) fn below(&self) -> &MemFs {
        &self.below
    }

    /// Counts a call.
    fn count(&mut self)
        ensures { self.new.below ≡ self.old.below }
    {
        self.made = self.made.saturating_add(1);
    }

    /// Counts a call, and answers `Memory` where it is the one.
    fn begin(&mut self) -> Result<(), FsError>
        ensures below { self.new.below ≡ self.old.below }
        ensures memory { (result ≡ Ok tt) ⊎ (result ≡ Err FsError.Memory) }
    {
        self.count();
        if self.made == self.lacking {
            return Err(FsError::Memory);
        }
        Ok(())
    }
}

impl CallFs for CrowdedDisk {
    ghost use Rattle.std.specs.Prelude.{Some, None};
    ghost use Rattle.mem_fs.specs.MemDisk.{disk_of};

    ghost disk = { λ c. Some (disk_of c.below.held) };

    ghost calls = { λ _. None };

    ghost faults = { λ c. c.below.faults };

    ghost plan = { λ _. None };

    fn faults(&self) -> u64 {
        self.below.faults()
    }

    fn create_excl(&mut self, alloc: Global, now: u64, name: &[u8]) -> Result<(Fd, u64), FsError> {
        self.begin()?;
        self.below.create_excl(alloc, now, name)
    }

    fn open(&mut self, alloc: Global, name: &[u8], how: How) -> Result<Fd, FsError> {
        self.begin()?;
        self.below.open(alloc, name, how)
    }

    fn read_at(&mut self, fd: Fd, at: u64, into: &mut [u8]) -> Result<u64, FsError> {
        self.count();
        self.below.read_at(fd, at, into)
    }

    fn write_at(
        &mut self,
        alloc: Global,
        now: u64,
        fd: Fd,
        at: u64,
        bytes: &[u8],
    ) -> Result<(), FsError> {
        self.begin()?;
        self.below.write_at(alloc, now, fd, at, bytes)
    }

    fn append(&mut self, alloc: Global, now: u64, fd: Fd, bytes: &[u8]) -> Result<(), FsError> {
        self.begin()?;
        self.below.append(alloc, now, fd, bytes)
    }

    fn truncate(&mut self, fd: Fd, len: u64) -> Result<(), FsError> {
        self.count();
        self.below.truncate(fd, len)
    }

    fn sync(&mut self, fd: Fd) -> Result<(), FsError> {
        self.count();
        self.below.sync(fd)
    }

    fn close(&mut self, fd: Fd) -> Result<(), FsError> {
        self.below.close(fd)
    }

    fn link(&mut self, alloc: Global, old: &[u8], new: &[u8]) -> Result<(), FsError> {
        self.begin()?;
        self.below.link(alloc, old, new)
    }

    fn unlink(&mut self, name: &[u8]) -> Result<(), FsError> {
        self.count();
        self.below.unlink(name)
    }

    fn stat(&mut self, name: &[u8]) -> Result<Stat, FsError> {
        self.count();
        self.below.stat(name)
    }

    fn next_name(&mut self, dir: &[u8], after: &[u8], into: &mut NameBuf) -> Result<bool, FsError> {
        self.count();
        self.below.next_name(dir, after, into)
    }
}
