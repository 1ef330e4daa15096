// The files below a queue's directory, as the machine has them.
ghost use Rattle.std.specs.Io.{ReadsAtMost, WritesAtMost};

use crate::leaving::Leaving;
use crate::system::{Facts, System};
use call_fs::How;
use std::alloc::Global;
use std::fs::{self, File};
use std::io;
use std::os::unix::fs::MetadataExt;
use std::rt::Files;
use std::sync::{Arc, Wait};
use std::time::Duration;

/// The calls of the machine. To take away the last name of a file can take as long as a sync, since some file systems give back its
/// room then, and tell the disk of that. So the file is kept open until its name is gone, and a thread lets go of it.
#[derive(Drop)]
pub struct QueueFiles<R: Wait + Drop> {
    rt: HostRuntime,
    handle: R,
    leaving: Arc<Leaving, Global>,
}

impl<R: Wait + Drop> QueueFiles<R> {
    /// The calls of the machine by the handles of this program, with files to be let go of.
    pub fn new(rt: &HostRuntime, handle: R, leaving: Arc<Leaving, Global>) -> Self {
        QueueFiles {
            rt: *rt,
            handle,
            leaving,
        }
    }
}

/// The file of a path, open, if this is its only name and it has bytes.
fn last_of(rt: &HostRuntime, path: &str) -> Option<File> {
    let facts = fs::metadata(rt, path).ok()?;
    if !facts.is_file() || facts.nlink() != 1 || facts.len() == 0 {
        return None;
    }
    File::open(rt, path).ok()
}

impl<'a, R: Wait + Drop> System for &'a QueueFiles<R> {
    type File = File;

    type Listing = <HostRuntime as Files>::Dir;

    fn create(&self, path: &str) -> io::Result<File> {
        System::create(&self.rt, path)
    }

    fn open(&self, path: &str, how: How) -> io::Result<File> {
        System::open(&self.rt, path, how)
    }

    fn list(&self, path: &str) -> io::Result<<HostRuntime as Files>::Dir> {
        System::list(&self.rt, path)
    }

    fn stat(&self, path: &str) -> io::Result<Facts> {
        System::stat(&self.rt, path)
    }

    fn fstat(&self, file: &File) -> io::Result<Facts> {
        System::fstat(&self.rt, file)
    }

    fn read_at(&self, file: &File, into: &mut [u8], at: u64) -> io::Result<usize> {
        System::read_at(&self.rt, file, into, at)
    }

    fn write_at(&self, file: &File, bytes: &[u8], at: u64) -> io::Result<usize> {
        System::write_at(&self.rt, file, bytes, at)
    }

    fn append(&self, file: &File, bytes: &[u8]) -> io::Result<usize> {
        System::append(&self.rt, file, bytes)
    }

    fn set_len(&self, file: &File, len: u64) -> io::Result<()> {
        System::set_len(&self.rt, file, len)
    }

    fn sync(&self, file: &File) -> io::Result<()> {
        System::sync(&self.rt, file)
    }

    fn link(&self, old: &str, new: &str) -> io::Result<()> {
        System::link(&self.rt, old, new)
    }

    fn unlink(&self, path: &str) -> io::Result<()> {
        if !self.leaving.has_room(&self.handle) {
            return System::unlink(&self.rt, path);
        }
        let last = last_of(&self.rt, path);
        System::unlink(&self.rt, path)?;
        if let Some(file) = last {
            self.leaving.put(&self.handle, file);
        }
        Ok(())
    }

    fn make_dir(&self, path: &str) -> io::Result<()> {
        System::make_dir(&self.rt, path)
    }

    fn now(&self) -> io::Result<Duration> {
        System::now(&self.rt)
    }
}
