// A disk that keeps names alone.
ghost use Rattle.std.specs.Prelude.{◌≡◌, ◌⊎◌, Ok, Err};
ghost use Rattle.call_fs.specs.declared.calls.FsError.TheVariants as FsError;

use call_fs::{CallFs, Fd, FsError, How, Stat};
use mail_bytes::{ByteText, NameBuf};
use std::alloc::Global;

/// A disk that keeps the names that it is given until they are taken away, and drops each byte that is written. So it
/// tells nothing of what it holds.
#[derive(Drop)]
pub struct NameDisk {
    names: Vec<ByteText>,
}

impl NameDisk {
    /// A disk without names.
    pub fn new(alloc: Global) -> Self {
        NameDisk {
            names: Vec::new(alloc),
        }
    }

    /// Whether it has no name.
    pub fn is_empty(&self) -> bool {
        self.names.is_empty()
    }

    /// Keeps a name.
    fn add(&mut self, alloc: Global, name: &[u8]) -> Result<(), FsError>
        ensures { (result ≡ Ok tt) ⊎ (result ≡ Err FsError.Memory) }
    {
        let Ok(name) = ByteText::from_slice(alloc, name) else {
            return Err(FsError::Memory);
        };
        match self.names.push(name) {
            Ok(()) => Ok(()),
            Err(_) => Err(FsError::Memory),
        }
    }
}

impl CallFs for NameDisk {
    ghost use Rattle.std.specs.Prelude.{None};

    ghost disk = { λ _. None };

    ghost calls = { λ _. None };

    ghost faults = { λ _. 0 };

    ghost plan = { λ _. None };

    fn faults(&self) -> u64 {
        0
    }

    fn create_excl(&mut self, alloc: Global, _now: u64, name: &[u8]) -> Result<(Fd, u64), FsError> {
        self.add(alloc, name)?;
        Ok((Fd(1), 1))
    }

    fn open(&mut self, _alloc: Global, _name: &[u8], _how: How) -> Result<Fd, FsError> {
        Ok(Fd(1))
    }

    fn read_at(&mut self, _fd: Fd, _at: u64, _into: &mut [u8]) -> Result<u64, FsError> {
        Ok(0)
    }

    fn write_at(
        &mut self,
        _alloc: Global,
        _now: u64,
        _fd: Fd,
        _at: u64,
        _bytes: &[u8],
    ) -> Result<(), FsError> {
        Ok(())
    }

    fn append(&mut self, _alloc: Global, _now: u64, _fd: Fd, _bytes: &[u8]) -> Result<(), FsError> {
        Ok(())
    }

    fn truncate(&mut self, _fd: Fd, _len: u64) -> Result<(), FsError> {
        Ok(())
    }

    fn sync(&mut self, _fd: Fd) -> Result<(), FsError> {
        Ok(())
    }

    fn close(&mut self, _fd: Fd) -> Result<(), FsError> {
        Ok(())
    }

    fn link(&mut self, alloc: Global, _old: &[u8], new: &[u8]) -> Result<(), FsError> {
        self.add(alloc, new)
    }

    fn unlink(&mut self, name: &[u8]) -> Result<(), FsError> {
        self.names.retain(|kept| !kept.is(name));
        Ok(())
    }

    fn stat(&mut self, _name: &[u8]) -> Result<Stat, FsError> {
        Err(FsError::NotThere)
    }

    fn next_name(
        &mut self,
        _dir: &[u8],
        _after: &[u8],
        _into: &mut NameBuf,
    ) -> Result<bool, FsError> {
        Ok(false)
    }
}
