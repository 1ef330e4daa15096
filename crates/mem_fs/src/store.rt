// What a disk in memory holds, and what each call does to it.
ghost use Rattle.std.specs.Prelude.{◌≡◌, ◌↔◌, ◌++◌, ◌∷◌, [], ℕ, IsTrue, IsSome, IfSome, IfNone, OnOk, OnErr, OnSome, Some, None, Contains, length, List};
ghost use Rattle.std.specs.Option.{option_copied, option_map};
ghost use Rattle.call_fs.specs.declared.calls.CallData.TheVariants as call;
ghost use Rattle.call_fs.specs.declared.calls.Answer.TheVariants as answer;
ghost use Rattle.call_fs.specs.Maps.{put, put_at};
ghost use Rattle.call_fs.specs.Disk.{Disk, HasDir, IsUnused, dir_of};
ghost use Rattle.mail_bytes.specs.Moments.{IsMoment};
ghost use Rattle.call_fs.specs.Apply.{effect, IsStat, IsNextName, IsLastName};
ghost use Rattle.call_fs.specs.Columns.{IsRead};
ghost use Rattle.call_fs.specs.Choices.{Halts};
ghost use Rattle.call_fs.specs.Free.{IsFree, IsLeastFree, IsNextDescriptor, IsGreatestFree};
ghost use Rattle.call_fs.specs.Placing.{with_dir, with_file, HasMade, PlacesNew, Replaces};
ghost use Rattle.mem_fs.specs.MemDisk.{disk_of, held_nothing, IsOpenOn, bytes_at, NoneFree, AllOpen, Places};

use crate::free::Free;
use crate::names::Names;
use crate::open_file::OpenFile;
use crate::{free, names, part};
use call_fs::{Fd, How, Stat, Survival, is_name};
use mail_bytes::{ByteText, Memory};
use mem_files::files::{self, Files};
use mem_files::{FileData, Inode, halt, numbers};
use std::alloc::{AllocError, Global};
use std::collections::{BTreeMap, BTreeSet};
use std::marker::Model;

/// Directories, names, files and open descriptors. A file that nothing uses any more is kept until its number is taken
/// again. Each number from 1 below `low` that nothing uses is among `free`, so the least free number is the first of these,
/// or else the first one from `low` on.
#[derive(Drop)]
pub struct Store {
    dirs: Vec<ByteText>,
    names: Names,
    files: Files,
    opens: Vec<(u64, OpenFile)>,
    free: Free,
    low: u64,
    alloc: Global,
}

impl Model for Store {
    ghost use Rattle.mem_fs.specs.MemDisk.{Held, IsIndexed, IsSound};
    ghost use Rattle.mem_fs.specs.Tables.{texts};

    ghost Value = { Held };

    ghost view = { λ s. record { dirs = s.dirs.items; names = texts s.names.entries; files = s.files.items; opens = s.opens.items } };

    ghost invariant = { λ s. IsSound (record { dirs = s.dirs.items; names = texts s.names.entries; files = s.files.items; opens = s.opens.items })
        × IsIndexed s.files.items s.free s.low };
}

impl Store {
    /// Holds nothing. Takes no memory.
    pub fn new(alloc: Global) -> Self
        ensures { result ≡ held_nothing }
    {
        Store {
            dirs: Vec::new(alloc),
            names: BTreeMap::new(alloc),
            files: Vec::new(alloc),
            opens: Vec::new(alloc),
            free: BTreeSet::new(alloc),
            low: 1,
            alloc,
        }
    }

    /// Whether this is a directory.
    pub fn is_dir(&self, dir: &[u8]) -> bool
        ensures { IsTrue result ↔ Contains (disk_of self.now).dirs dir.now }
    {
        part::is_dir(&self.dirs, dir)
    }

    /// Whether the directory of this name is there. What isn't of the form of a name has none.
    pub fn has_dir(&self, name: &[u8]) -> bool
        ensures { IsTrue result ↔ HasDir (disk_of self.now) name.now }
    {
        is_name(name) && self.is_dir(part::dir_of(name))
    }

    /// The number of a name.
    pub fn number_of(&self, name: &[u8]) -> Option<u64>
        ensures { result ≡ (disk_of self.now).names name.now }
    {
        names::number_of(&self.names, name)
    }

    /// Whether a new file may take the number.
    pub fn is_free(&self, number: u64) -> bool
        ensures { IsTrue result ↔ IsFree (disk_of self.now) number }
    {
        number != 0 && files::is_idle(&self.files, number)
    }

    /// The least number that a new file may take; None only if each u64 from 1 is used.
    pub fn least_free(&self) -> Option<u64>
        ensures some { IfSome result (IsLeastFree (disk_of self.now)) }
        ensures none { IfNone result (NoneFree (disk_of self.now)) }
    {
        free::least(&self.files, &self.free, self.low)
    }

    /// The greatest number that a new file may take; None only if each u64 from 1 is used.
    pub fn greatest_free(&self) -> Option<u64>
        ensures some { IfSome result (IsGreatestFree (disk_of self.now)) }
        ensures none { IfNone result (NoneFree (disk_of self.now)) }
    {
        files::greatest_idle(&self.files)
    }

    /// The least descriptor that isn't open; None only if each u64 from 1 is open.
    pub fn least_descriptor(&self) -> Option<Fd>
        ensures some { IfSome result (λ fd. IsNextDescriptor (disk_of self.now) fd.0) }
        ensures none { IfNone result (AllOpen (disk_of self.now)) }
    {
        Some(Fd(numbers::least_missing(&self.opens)?))
    }

    /// Makes a new empty file under a new name, open. After an `Err` it is as before.
    pub fn create(
        &mut self,
        alloc: Global,
        now: u64,
        name: &[u8],
        fd: Fd,
        number: u64,
    ) -> Result<(), Memory>
        requires moment { IsMoment now }
        requires name { (disk_of self.old).names name.now ≡ None }
        requires number { IsFree (disk_of self.old) number }
        requires descriptor { IsNextDescriptor (disk_of self.old) fd.0 }
        ensures ok { OnOk result (disk_of self.new ≡ effect (disk_of self.old) now (call.CreateExcl name.now) (answer.Created fd number) 0) }
        ensures err { OnErr result (self.new ≡ self.old) }
    {
        let name = Vec::from_slice(alloc, name)?;
        self.files.reserve(1)?;
        self.opens.reserve(1)?;
        names::insert(&mut self.names, name, number)?;
        let inode = Inode {
            links: 1,
            opens: 1,
            file: FileData::new(alloc, now),
        };
        numbers::insert(&mut self.files, number, inode);
        numbers::insert(&mut self.opens, fd.0, OpenFile::created(number));
        self.low = free::taken(&mut self.free, self.low, number, &self.files);
        Ok(())
    }

    /// Opens the file of a name. After an `Err` it is as before.
    pub fn open(&mut self, name: &[u8], how: How, fd: Fd) -> Result<(), Memory>
        requires there { IsSome ((disk_of self.old).names name.now) }
        requires descriptor { IsNextDescriptor (disk_of self.old) fd.0 }
        ensures ok { OnOk result (disk_of self.new ≡ effect (disk_of self.old) 0 (call.Open name.now how) (answer.Opened fd) 0) }
        ensures err { OnErr result (self.new ≡ self.old) }
    {
        let number = names::number_of(&self.names, name).unwrap();
        self.opens.reserve(1)?;
        prove!(self.opens.len() < self.opens.capacity());
        files::add_open(&mut self.files, number);
        numbers::insert(&mut self.opens, fd.0, OpenFile::opened(number, how));
        Ok(())
    }

    /// Reads from a place of an open file on into the buffer, as many bytes as it has room for, or as there are.
    pub fn read_at(&self, fd: Fd, at: u64, into: &mut [u8]) -> u64
        requires { IsSome ((disk_of self.now).opens fd.0) }
        ensures { IsRead (disk_of self.now) fd.0 at (length into.old) result into.new }
    {
        let number = self.opened(fd);
        let file = files::file_of(&self.files, number);
        file.read_at(at as usize, into) as u64
    }

    /// Overwrites what lies below the length of an open file. After an `Err` it is as before.
    pub fn write_at(&mut self, now: u64, fd: Fd, at: u64, bytes: &[u8]) -> Result<(), Memory>
        requires moment { IsMoment now }
        requires open { IsSome ((disk_of self.old).opens fd.0) }
        ensures ok { OnOk result (disk_of self.new ≡ effect (disk_of self.old) now (call.WriteAt fd at bytes.now) answer.Done 0) }
        ensures err { OnErr result (self.new ≡ self.old) }
    {
        let number = self.opened(fd);
        files::overwrite(&mut self.files, number, now, at as usize, bytes)
    }

    /// Writes bytes at the end of an open file. After an `Err` it is as before.
    pub fn append(&mut self, now: u64, fd: Fd, bytes: &[u8]) -> Result<(), Memory>
        requires moment { IsMoment now }
        requires open { IsSome ((disk_of self.old).opens fd.0) }
        ensures ok { OnOk result (disk_of self.new ≡ effect (disk_of self.old) now (call.Append fd bytes.now) answer.Done 0) }
        ensures err { OnErr result (self.new ≡ self.old) }
    {
        let number = self.opened(fd);
        files::append(&mut self.files, number, now, bytes)
    }

    /// Cuts an open file to a length, if it is longer.
    pub fn truncate(&mut self, fd: Fd, len: u64)
        requires { IsSome ((disk_of self.old).opens fd.0) }
        ensures { disk_of self.new ≡ effect (disk_of self.old) 0 (call.Truncate fd len) answer.Done 0 }
    {
        let number = self.opened(fd);
        files::cut(&mut self.files, number, len as usize);
    }

    /// All bytes of an open file are on the disk.
    pub fn sync(&mut self, fd: Fd)
        requires { IsSome ((disk_of self.old).opens fd.0) }
        ensures { disk_of self.new ≡ effect (disk_of self.old) 0 (call.Sync fd) answer.Done 0 }
    {
        let number = self.opened(fd);
        files::sync(&mut self.files, number);
    }

    /// Closes a descriptor.
    pub fn close(&mut self, fd: Fd)
        requires { IsSome ((disk_of self.old).opens fd.0) }
        ensures { disk_of self.new ≡ effect (disk_of self.old) 0 (call.Close fd) answer.Done 0 }
    {
        let number = self.opened(fd);
        numbers::remove(&mut self.opens, fd.0);
        files::drop_open(&mut self.files, number);
        self.low = free::returned(&mut self.free, self.low, number, &self.files);
    }

    /// Gives the file of `old` the name `new` too. After an `Err` it is as before.
    pub fn link(&mut self, alloc: Global, old: &[u8], new: &[u8]) -> Result<(), Memory>
        requires there { IsSome ((disk_of self.old).names old.now) }
        requires free { (disk_of self.old).names new.now ≡ None }
        ensures ok { OnOk result (disk_of self.new ≡ effect (disk_of self.old) 0 (call.Link old.now new.now) answer.Done 0) }
        ensures err { OnErr result (self.new ≡ self.old) }
    {
        let number = names::number_of(&self.names, old).unwrap();
        let name = Vec::from_slice(alloc, new)?;
        names::insert(&mut self.names, name, number)?;
        files::add_link(&mut self.files, number);
        Ok(())
    }

    /// Takes a name away.
    pub fn unlink(&mut self, name: &[u8])
        requires { IsSome ((disk_of self.old).names name.now) }
        ensures { disk_of self.new ≡ effect (disk_of self.old) 0 (call.Unlink name.now) answer.Done 0 }
    {
        let number = names::number_of(&self.names, name).unwrap();
        names::remove(&mut self.names, name);
        files::drop_link(&mut self.files, number);
        self.low = free::returned(&mut self.free, self.low, number, &self.files);
    }

    /// The number of an open descriptor.
    fn opened(&self, fd: Fd) -> u64
        requires { IsSome ((disk_of self.now).opens fd.0) }
        ensures { IsOpenOn (disk_of self.now) fd.0 result }
    {
        numbers::value_of(&self.opens, fd.0).unwrap().number()
    }

    /// The file of a name.
    fn file_of(&self, name: &[u8]) -> Option<(u64, &FileData)>
        ensures { ((disk_of self.now).names name.now ≡ option_map (λ f. f.0) result) × IfSome result (λ f. f.1.now ≡ (disk_of self.now).files f.0) }
    {
        let number = names::number_of(&self.names, name)?;
        let inode = numbers::value_of(&self.files, number).unwrap();
        Some((number, &inode.file))
    }

    /// What the file of a name is; None exactly if the name is missing.
    pub fn stat(&self, name: &[u8]) -> Option<Stat>
        ensures some { IfSome result (IsStat (disk_of self.now) name.now) }
        ensures moment { IfSome result (λ stat. IsMoment stat.moment) }
        ensures none { IfNone result ((disk_of self.now).names name.now ≡ None) }
    {
        let (number, file) = self.file_of(name)?;
        Some(Stat {
            number,
            length: file.len() as u64,
            moment: file.moment(),
        })
    }

    /// The bytes of the file of a name; None exactly if the name is missing.
    pub fn bytes_of(&self, name: &[u8]) -> Option<&[u8]>
        ensures { option_copied result ≡ bytes_at (disk_of self.now) name.now }
    {
        let (_, file) = self.file_of(name)?;
        Some(file.as_slice())
    }

    /// The least name in a directory after that one; None exactly if there is none.
    pub fn next_name(&self, dir: &[u8], after: &[u8]) -> Option<&[u8]>
        ensures some { IfSome result (λ name. IsNextName (disk_of self.now) dir.now after.now name.now) }
        ensures none { IfNone result (IsLastName (disk_of self.now) dir.now after.now) }
    {
        names::next(self.alloc, &self.names, dir, after)
    }

    /// The machine stops and starts again. After an `Err` it is as before.
    pub fn halt(&mut self, alloc: Global, how: Survival) -> Result<(), Memory>
        ensures ok { OnOk result (Halts how (disk_of self.old) (disk_of self.new)) }
        ensures err { OnErr result (self.new ≡ self.old) }
    {
        let files = halt::settled_entries(alloc, how, &self.files)?;
        self.files = files;
        self.opens.clear();
        self.free.clear();
        self.low = 1;
        Ok(())
    }

    /// Adds a directory. After an `Err` it is as before.
    pub fn add_dir(&mut self, alloc: Global, dir: &[u8]) -> Result<(), Memory>
        ensures ok { OnOk result (disk_of self.new ≡ with_dir (disk_of self.old) dir.now) }
        ensures err { OnErr result (self.new ≡ self.old) }
    {
        let dir = ByteText::from_slice(alloc, dir)?;
        self.dirs.push(dir)?;
        Ok(())
    }

    /// Puts a synced file under a name. After an `Err` it is as before.
    pub fn place(&mut self, alloc: Global, name: &[u8], bytes: &[u8]) -> Result<(), Memory>
        ensures ok { OnOk result (Places (disk_of self.old) name.now bytes.now (disk_of self.new)) }
        ensures err { OnErr result (self.new ≡ self.old) }
    {
        let file = FileData::settled(alloc, 0, bytes)?;
        match self.number_of(name) {
            Some(number) => {
                self.put_file(name, number, file);
                Ok(())
            }
            None => self.place_new(alloc, name, file),
        }
    }

    /// The file of a name has these bytes, all of them on the disk, and this moment. A new one takes the greatest free
    /// number, and its directory is made if it is missing. After an `Err` it is as before.
    pub fn replace(
        &mut self,
        alloc: Global,
        now: u64,
        name: &[u8],
        bytes: &[u8],
    ) -> Result<(), Memory>
        requires { IsMoment now }
        ensures ok { OnOk result (Replaces now name.now bytes.now (disk_of self.old) (disk_of self.new)) }
        ensures err { OnErr result (self.new ≡ self.old) }
    {
        let file = FileData::settled(alloc, now, bytes)?;
        match self.number_of(name) {
            Some(number) => {
                self.put_file(name, number, file);
                Ok(())
            }
            None => self.place_below(alloc, name, file),
        }
    }

    /// Puts another file in the place of that of a name, which has this number.
    fn put_file(&mut self, name: &[u8], number: u64, file: FileData)
        requires { (disk_of self.old).names name.now ≡ Some number }
        ensures { disk_of self.new ≡ with_file (disk_of self.old) number file }
    {
        files::replace(&mut self.files, number, file);
    }

    /// Puts a synced file under a new name, whose directory is made if it is missing. After an `Err` it is as before.
    fn place_below(&mut self, alloc: Global, name: &[u8], file: FileData) -> Result<(), Memory>
        requires { (disk_of self.old).names name.now ≡ None }
        ensures ok { OnOk result ((mid : Disk) × HasMade (disk_of self.old) (dir_of name.now) mid
            × PlacesNew mid name.now file (disk_of self.new)) }
        ensures err { OnErr result (self.new ≡ self.old) }
    {
        if self.is_dir(part::dir_of(name)) {
            return self.place_new(alloc, name, file);
        }
        self.dirs
            .push(ByteText::from_slice(alloc, part::dir_of(name))?)?;
        let placed = self.place_new(alloc, name, file);
        if placed.is_err() {
            self.dirs.pop();
        }
        placed
    }

    /// Puts a synced file under a new name. After an `Err` it is as before.
    fn place_new(&mut self, alloc: Global, name: &[u8], file: FileData) -> Result<(), Memory>
        requires { (disk_of self.old).names name.now ≡ None }
        ensures ok { OnOk result (PlacesNew (disk_of self.old) name.now file (disk_of self.new)) }
        ensures err { OnErr result (self.new ≡ self.old) }
    {
        let Some(number) = self.greatest_free() else {
            return Err(AllocError);
        };
        let name = Vec::from_slice(alloc, name)?;
        self.files.reserve(1)?;
        names::insert(&mut self.names, name, number)?;
        let inode = Inode {
            links: 1,
            opens: 0,
            file,
        };
        numbers::insert(&mut self.files, number, inode);
        self.low = free::taken(&mut self.free, self.low, number, &self.files);
        Ok(())
    }
}
