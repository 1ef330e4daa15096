// The calls of the system that stand below a real directory, so that a test can stand in for the system.
ghost use Rattle.std.specs.Io.{ReadsAtMost, WritesAtMost};

use call_fs::How;
use std::fs::{self, File, Metadata, OpenOptions};
use std::io::{self, ErrorKind, Read, Write};
use std::os::unix::fs::{FileExt, MetadataExt, OpenOptionsExt};
use std::rt::Files;
use std::time::{Duration, SystemTime, UNIX_EPOCH};

/// The rights of a new file, less those that umask(2) takes away.
const NEW_FILE_MODE: u32 = 0o644;

/// What the system tells of a file or a directory.
#[derive(Clone, Copy)]
pub struct Facts {
    /// Whether it is a directory.
    pub is_dir: bool,
    /// Whether it is a regular file: neither a directory, nor a FIFO, a socket or a device.
    pub is_file: bool,
    /// Its inode number.
    pub number: u64,
    /// How many bytes it has.
    pub length: u64,
    /// Its time of modification, in seconds since 1 January 1970 UTC.
    pub modified: i64,
    /// The nanoseconds of that time after its last full second.
    pub modified_nanos: i64,
    /// The time of its last change of any kind, in seconds since 1 January 1970 UTC.
    pub changed: i64,
    /// The nanoseconds of that time after its last full second.
    pub changed_nanos: i64,
}

/// A system, by the calls that `HostFs` makes of it. Each method is one call; what it answers is judged above.
pub trait System: Drop {
    /// An open file or directory. Letting go of it closes it.
    type File: Drop;

    /// An open listing: a reader of its names, each ended by a NUL. No read ends inside a name.
    type Listing: Read + Drop;

    /// Makes a new empty file and opens it for reading and for writing at its end, as open(2) with `O_CREAT`, `O_EXCL`
    /// and `O_APPEND`.
    fn create(&self, path: &str) -> io::Result<Self::File>;

    /// Opens a file for reading, and for what else is asked; or a directory for reading. As open(2).
    fn open(&self, path: &str, how: How) -> io::Result<Self::File>;

    /// Opens the listing of a directory, as opendir(3).
    fn list(&self, path: &str) -> io::Result<Self::Listing>;

    /// Tells what a path names, as stat(2).
    fn stat(&self, path: &str) -> io::Result<Facts>;

    /// Tells what is open, as fstat(2).
    fn fstat(&self, file: &Self::File) -> io::Result<Facts>;

    /// Reads from this place on, as pread(2).
    fn read_at(&self, file: &Self::File, into: &mut [u8], at: u64) -> io::Result<usize>
        ensures bound { ReadsAtMost result into.new };

    /// Writes from this place on, as pwrite(2).
    fn write_at(&self, file: &Self::File, bytes: &[u8], at: u64) -> io::Result<usize>
        ensures bound { WritesAtMost result bytes.now };

    /// Writes at the end of a file that was opened for that, as write(2).
    fn append(&self, file: &Self::File, bytes: &[u8]) -> io::Result<usize>
        ensures bound { WritesAtMost result bytes.now };

    /// Cuts or grows a file to this length, as ftruncate(2).
    fn set_len(&self, file: &Self::File, len: u64) -> io::Result<()>;

    /// Waits until a file, or the names of a directory, are on the disk, as fsync(2).
    fn sync(&self, file: &Self::File) -> io::Result<()>;

    /// Gives the file of a path a second one, as link(2).
    fn link(&self, old: &str, new: &str) -> io::Result<()>;

    /// Takes a path of a file away, as unlink(2).
    fn unlink(&self, path: &str) -> io::Result<()>;

    /// Makes a directory, as mkdir(2).
    fn make_dir(&self, path: &str) -> io::Result<()>;

    /// Tells the time since 1 January 1970 UTC, as clock_gettime(2) of the machine's clock.
    fn now(&self) -> io::Result<Duration>;
}

/// The facts that a real system tells.
fn facts_of(metadata: Metadata) -> Facts {
    Facts {
        is_dir: metadata.is_dir(),
        is_file: metadata.is_file(),
        number: metadata.ino(),
        length: metadata.len(),
        modified: metadata.mtime(),
        modified_nanos: metadata.mtime_nsec(),
        changed: metadata.ctime(),
        changed_nanos: metadata.ctime_nsec(),
    }
}

impl System for HostRuntime {
    type File = File;

    type Listing = <HostRuntime as Files>::Dir;

    fn create(&self, path: &str) -> io::Result<File> {
        let mut options = OpenOptions::new();
        options.read(true).append(true).create_new(true);
        options.mode(NEW_FILE_MODE);
        options.open(self, path)
    }

    fn open(&self, path: &str, how: How) -> io::Result<File> {
        let mut options = OpenOptions::new();
        options.read(true);
        options.write(how == How::Write);
        options.append(how == How::Append);
        options.open(self, path)
    }

    fn list(&self, path: &str) -> io::Result<<HostRuntime as Files>::Dir> {
        self.open_dir(path)
    }

    fn stat(&self, path: &str) -> io::Result<Facts> {
        Ok(facts_of(fs::metadata(self, path)?))
    }

    fn fstat(&self, file: &File) -> io::Result<Facts> {
        Ok(facts_of(file.metadata()?))
    }

    fn read_at(&self, file: &File, into: &mut [u8], at: u64) -> io::Result<usize> {
        file.read_at(into, at)
    }

    fn write_at(&self, file: &File, bytes: &[u8], at: u64) -> io::Result<usize> {
        file.write_at(bytes, at)
    }

    fn append(&self, file: &File, bytes: &[u8]) -> io::Result<usize> {
        let mut end = file;
        end.write(bytes)
    }

    fn set_len(&self, file: &File, len: u64) -> io::Result<()> {
        file.set_len(len)
    }

    fn sync(&self, file: &File) -> io::Result<()> {
        file.sync_all()
    }

    fn link(&self, old: &str, new: &str) -> io::Result<()> {
        fs::hard_link(self, old, new)
    }

    fn unlink(&self, path: &str) -> io::Result<()> {
        fs::remove_file(self, path)
    }

    fn make_dir(&self, path: &str) -> io::Result<()> {
        fs::create_dir(self, path)
    }

    fn now(&self) -> io::Result<Duration> {
        match SystemTime::now(self)?.duration_since(UNIX_EPOCH) {
            Ok(now) => Ok(now),
            Err(_) => Err(io::Error::from(ErrorKind::Other)),
        }
    }
}
