// What the lists hold, and what each call does to them.
ghost use Rattle.std.specs.Prelude.{◌≡◌, ◌↔◌, IsTrue, IsSome, IfSome, IfNone, OnOk, OnErr, Some, None, Contains, length};
ghost use Rattle.std.specs.Option.{option_copied, option_map};
ghost use Rattle.call_fs.specs.declared.calls.CallData.TheVariants as call;
ghost use Rattle.call_fs.specs.declared.calls.Answer.TheVariants as answer;
ghost use Rattle.call_fs.specs.Disk.{HasDir};
ghost use Rattle.mail_bytes.specs.Moments.{IsMoment};
ghost use Rattle.call_fs.specs.Apply.{effect, IsStat, IsNextName, IsLastName};
ghost use Rattle.call_fs.specs.Columns.{IsRead};
ghost use Rattle.call_fs.specs.Free.{IsFree, IsLeastFree, IsNextDescriptor};
ghost use Rattle.mem_files.specs.MemFiles.{file_at};
ghost use Rattle.call_fs.specs.Placing.{with_dir};
ghost use Rattle.mem_fs.specs.MemDisk.{disk_of, held_nothing};
ghost use Rattle.call_runs.specs.Lists.{held_of};

use crate::pairs::{self, PlainOpen};
use crate::plain_file::PlainFile;
use crate::{plain_files, plain_names};
use call_fs::{Fd, How, Mode, Stat, is_name};
use mail_bytes::{ByteText, Memory};
use std::alloc::Global;

/// The directories, the number of each name, the file of each number, and the open descriptors, in any order. A file that
/// nothing uses any more is kept until its number is taken again; a number without one has an empty file.
#[derive(Drop)]
pub struct PlainLists {
    /// The directories.
    pub dirs: Vec<ByteText>,
    /// The names with their numbers.
    pub names: Vec<(ByteText, u64)>,
    /// The numbers with their files.
    pub files: Vec<(u64, PlainFile)>,
    /// The descriptors with what they are open on.
    pub opens: Vec<(u64, PlainOpen)>,
}

impl PlainLists {
    /// Nothing. Takes no memory.
    pub fn new(alloc: Global) -> Self
        ensures { held_of result ≡ held_nothing }
    {
        PlainLists {
            dirs: Vec::new(alloc),
            names: Vec::new(alloc),
            files: Vec::new(alloc),
            opens: Vec::new(alloc),
        }
    }

    /// A directory more. After an `Err` it is as before.
    pub fn add_dir(&mut self, alloc: Global, dir: &[u8]) -> Result<(), Memory>
        ensures ok { OnOk result (disk_of (held_of self.new) ≡ with_dir (disk_of (held_of self.old)) dir.now) }
        ensures err { OnErr result (held_of self.new ≡ held_of self.old) }
    {
        let dir = ByteText::from_slice(alloc, dir)?;
        self.dirs.push(dir)?;
        Ok(())
    }

    /// Whether this is a directory.
    pub fn is_dir(&self, dir: &[u8]) -> bool
        ensures { IsTrue result ↔ Contains (disk_of (held_of self.now)).dirs dir.now }
    {
        self.dirs.iter().any(|one| one.is(dir))
    }

    /// Whether the directory of this name is there. What isn't of the form of a name has none.
    pub fn has_dir(&self, name: &[u8]) -> bool
        ensures { IsTrue result ↔ HasDir (disk_of (held_of self.now)) name.now }
    {
        is_name(name) && self.is_dir(plain_names::dir_of(name))
    }

    /// The number of a name.
    pub fn number_of(&self, name: &[u8]) -> Option<u64>
        ensures { result ≡ (disk_of (held_of self.now)).names name.now }
    {
        pairs::number_of(&self.names, name)
    }

    /// Whether a new file may take the number.
    pub fn is_free(&self, number: u64) -> bool
        ensures { IsTrue result ↔ IsFree (disk_of (held_of self.now)) number }
    {
        if number == 0 {
            return false;
        }
        if pairs::is_named(&self.names, number) {
            return false;
        }
        !pairs::is_opened(&self.opens, number)
    }

    /// The least number that a new file may take.
    pub fn least_free(&self) -> Option<u64>
        ensures { IfSome result (IsLeastFree (disk_of (held_of self.now))) }
    {
        let mut number = 1u64;
        while !self.is_free(number) {
            number = number.checked_add(1)?;
        }
        Some(number)
    }

    /// The least descriptor that isn't open.
    pub fn least_descriptor(&self) -> Option<Fd>
        ensures { IfSome result (λ fd. IsNextDescriptor (disk_of (held_of self.now)) fd.0) }
    {
        let mut fd = 1u64;
        while pairs::is_open(&self.opens, fd) {
            fd = fd.checked_add(1)?;
        }
        Some(Fd(fd))
    }

    /// Makes a new empty file under a new name, open. After an `Err` it is as before.
    pub fn create(
        &mut self,
        alloc: Global,
        now: u64,
        name: &[u8],
        fd: Fd,
        number: u64,
    ) -> Result<(), Memory>
        requires moment { IsMoment now }
        requires name { (disk_of (held_of self.old)).names name.now ≡ None }
        ensures ok { OnOk result (disk_of (held_of self.new)
            ≡ effect (disk_of (held_of self.old)) now (call.CreateExcl name.now) (answer.Created fd number) 0) }
        ensures err { OnErr result (held_of self.new ≡ held_of self.old) }
    {
        let name = ByteText::from_slice(alloc, name)?;
        self.names.reserve(1)?;
        self.files.reserve(1)?;
        self.opens.reserve(1)?;
        pairs::add_name(&mut self.names, name, number);
        pairs::set(&mut self.files, number, PlainFile::new(alloc, now));
        pairs::set(&mut self.opens, fd.0, PlainOpen::new(number, Mode::Created));
        Ok(())
    }

    /// Opens the file of a name. After an `Err` it is as before.
    pub fn open(&mut self, name: &[u8], how: How, fd: Fd) -> Result<(), Memory>
        requires { IsNextDescriptor (disk_of (held_of self.old)) fd.0 }
        ensures ok { OnOk result (disk_of (held_of self.new)
            ≡ effect (disk_of (held_of self.old)) 0 (call.Open name.now how) (answer.Opened fd) 0) }
        ensures err { OnErr result (held_of self.new ≡ held_of self.old) }
    {
        match self.number_of(name) {
            Some(number) => {
                self.opens.reserve(1)?;
                pairs::set(
                    &mut self.opens,
                    fd.0,
                    PlainOpen::new(number, Mode::Opened(how)),
                );
                Ok(())
            }
            None => Ok(()),
        }
    }

    /// Reads from a place of an open file on into the buffer, as many bytes as it has room for, or as there are.
    pub fn read_at(&self, fd: Fd, at: u64, into: &mut [u8]) -> u64
        ensures { IsRead (disk_of (held_of self.now)) fd.0 at (length into.old) result into.new }
    {
        let Some(number) = pairs::opened_on(&self.opens, fd.0) else {
            return 0;
        };
        match pairs::value_of(&self.files, number) {
            Some(file) => file.read_at(at as usize, into) as u64,
            None => 0,
        }
    }

    /// Overwrites what lies below the length of an open file. After an `Err` it is as before.
    pub fn write_at(
        &mut self,
        alloc: Global,
        now: u64,
        fd: Fd,
        at: u64,
        bytes: &[u8],
    ) -> Result<(), Memory>
        requires { IsMoment now }
        ensures ok { OnOk result (disk_of (held_of self.new)
            ≡ effect (disk_of (held_of self.old)) now (call.WriteAt fd at bytes.now) answer.Done 0) }
        ensures err { OnErr result (held_of self.new ≡ held_of self.old) }
    {
        match pairs::opened_on(&self.opens, fd.0) {
            Some(number) => {
                plain_files::overwrite(&mut self.files, alloc, number, now, at as usize, bytes)
            }
            None => Ok(()),
        }
    }

    /// Writes bytes at the end of an open file. After an `Err` it is as before.
    pub fn append(&mut self, alloc: Global, now: u64, fd: Fd, bytes: &[u8]) -> Result<(), Memory>
        requires { IsMoment now }
        ensures ok { OnOk result (disk_of (held_of self.new)
            ≡ effect (disk_of (held_of self.old)) now (call.Append fd bytes.now) answer.Done 0) }
        ensures err { OnErr result (held_of self.new ≡ held_of self.old) }
    {
        match pairs::opened_on(&self.opens, fd.0) {
            Some(number) => plain_files::append(&mut self.files, alloc, number, now, bytes),
            None => Ok(()),
        }
    }

    /// Cuts an open file to a length, if it is longer.
    pub fn truncate(&mut self, fd: Fd, len: u64)
        ensures { disk_of (held_of self.new) ≡ effect (disk_of (held_of self.old)) 0 (call.Truncate fd len) answer.Done 0 }
    {
        if let Some(number) = pairs::opened_on(&self.opens, fd.0) {
            plain_files::cut(&mut self.files, number, len as usize);
        }
    }

    /// All bytes of an open file are on the disk.
    pub fn sync(&mut self, fd: Fd)
        ensures { disk_of (held_of self.new) ≡ effect (disk_of (held_of self.old)) 0 (call.Sync fd) answer.Done 0 }
    {
        if let Some(number) = pairs::opened_on(&self.opens, fd.0) {
            plain_files::sync(&mut self.files, number);
        }
    }

    /// Closes a descriptor.
    pub fn close(&mut self, fd: Fd)
        ensures { disk_of (held_of self.new) ≡ effect (disk_of (held_of self.old)) 0 (call.Close fd) answer.Done 0 }
    {
        pairs::remove(&mut self.opens, fd.0);
    }

    /// Gives the file of `old` the name `new` too. After an `Err` it is as before.
    pub fn link(&mut self, alloc: Global, old: &[u8], new: &[u8]) -> Result<(), Memory>
        requires { (disk_of (held_of self.old)).names new.now ≡ None }
        ensures ok { OnOk result (disk_of (held_of self.new)
            ≡ effect (disk_of (held_of self.old)) 0 (call.Link old.now new.now) answer.Done 0) }
        ensures err { OnErr result (held_of self.new ≡ held_of self.old) }
    {
        match self.number_of(old) {
            Some(number) => {
                let name = ByteText::from_slice(alloc, new)?;
                self.names.reserve(1)?;
                pairs::add_name(&mut self.names, name, number);
                Ok(())
            }
            None => Ok(()),
        }
    }

    /// Takes a name away.
    pub fn unlink(&mut self, name: &[u8])
        ensures { disk_of (held_of self.new) ≡ effect (disk_of (held_of self.old)) 0 (call.Unlink name.now) answer.Done 0 }
    {
        pairs::remove_name(&mut self.names, name);
    }

    /// What the file of a name is; None exactly if the name is missing.
    pub fn stat(&self, name: &[u8]) -> Option<Stat>
        ensures some { IfSome result (IsStat (disk_of (held_of self.now)) name.now) }
        ensures moment { IfSome result (λ stat. IsMoment stat.moment) }
        ensures none { IfNone result ((disk_of (held_of self.now)).names name.now ≡ None) }
    {
        let number = self.number_of(name)?;
        let (length, moment) = plain_files::size_of(&self.files, number);
        Some(Stat {
            number,
            length,
            moment,
        })
    }

    /// The least name in a directory after that one; None exactly if there is none.
    pub fn next_name(&self, dir: &[u8], after: &[u8]) -> Option<&[u8]>
        ensures some { IfSome result (λ name. IsNextName (disk_of (held_of self.now)) dir.now after.now name.now) }
        ensures none { IfNone result (IsLastName (disk_of (held_of self.now)) dir.now after.now) }
    {
        plain_names::next(&self.names, dir, after)
    }
}
