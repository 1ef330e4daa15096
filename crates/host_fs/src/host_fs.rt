// The file system of the machine, below one directory.
ghost use Rattle.std.specs.Prelude.{◌≡◌, ◌≤◌, IfOk, IsOk, IsSome, IsSomeAnd, IsErrOf, OnErr, length, Some, None};
ghost use Rattle.call_fs.specs.declared.calls.CallData.TheVariants as call;
ghost use Rattle.call_fs.specs.declared.calls.FsError.TheVariants as FsError;
ghost use Rattle.call_fs.specs.declared.modes.Mode.TheVariants as made;
ghost use Rattle.call_fs.specs.Disk.{IsForAppend, IsForWrite, IsForCut};
ghost use Rattle.call_fs.specs.Calls.{created, opened, counted, done, stated, next_found, told_with, without_bytes};
ghost use Rattle.mail_bytes.specs.Moments.{IsMoment};
ghost use Rattle.call_fs.specs.Told.{HasCause};
ghost use Rattle.host_fs.specs.Listing.{FoundAfter};
ghost use Rattle.host_fs.specs.Modes.{Opens, OpensNone};
ghost use Rattle.host_fs.specs.Names.{IsPath};
ghost use Rattle.host_fs.specs.Refusals.{count_after};

use crate::directories::make_directories;
use crate::files::{create_new, link_file, open_file, stat_file, unlink_file};
use crate::kept::Kept;
use crate::listing;
use crate::open_file::OpenFile;
use crate::paths::path_of;
use crate::refusals::{or_fault, without_memory};
use crate::system::System;
use crate::table::Table;
use crate::transfers::{Cursor, End, lying, read_full};
use call_fs::{CallFs, Fd, FsError, How, Mode, Stat};
use mail_bytes::{ByteText, Memory, NameBuf};
use std::alloc::Global;
use std::io::Write;

/// The files below a directory of a system. It doesn't tell what they hold. A name that begins with `/` is a path of
/// the machine instead.
///
/// The number of a file is that of its inode. These count as faults: a name that isn't of the form that file calls ask
/// for, that isn't UTF-8 or that is a directory's; a descriptor that isn't open or doesn't fit the call; and being out of
/// memory in a call that has no answer for it.
///
/// A second name that `link` gives is on the disk before it is answered: the directory of that name is synced. A failure
/// of that sync is a fault too, and then the name may be there.
#[derive(Drop)]
pub struct HostFs<S: System> {
    system: S,
    alloc: Global,
    root: ByteText,
    table: Table<OpenFile<S::File>>,
    faults: u64,
    kept: Option<Kept>,
}

impl<S: System + Copy> HostFs<S> {
    ghost use Rattle.host_fs.specs.HostFs.{root_of, opens_of, faults_of};

    /// The files below this directory. The missing ones of a queue's directories are made: `pid`, `intd`, `todo`,
    /// `bounce`, 0 to 22 under `mess`, `info`, `local` and `remote`, and `control`, `users` and `home`. One that can't be
    /// made stays missing, which counts as no fault; calls on its names answer so. If the root is no path of UTF-8, each
    /// call on a name below it is a fault.
    pub fn open(system: &S, alloc: Global, root: &[u8]) -> Result<HostFs<S>, Memory>
        ensures root { IfOk result (λ disk. root_of disk ≡ root.now) }
        ensures opens { IfOk result (λ disk. (fd : _) → opens_of disk fd ≡ None) }
        ensures faults { IfOk result (λ disk. faults_of disk ≡ 0) }
    {
        make_directories(system, alloc, root)?;
        HostFs::open_as_is(system, alloc, root)
    }

    /// The same, but no directory is made, for a command that only reads.
    pub fn open_as_is(system: &S, alloc: Global, root: &[u8]) -> Result<HostFs<S>, Memory>
        ensures root { IfOk result (λ disk. root_of disk ≡ root.now) }
        ensures opens { IfOk result (λ disk. (fd : _) → opens_of disk fd ≡ None) }
        ensures faults { IfOk result (λ disk. faults_of disk ≡ 0) }
    {
        Ok(HostFs {
            system: *system,
            alloc,
            root: ByteText::from_slice(alloc, root)?,
            table: Table::new(alloc),
            faults: 0,
            kept: None,
        })
    }
}

impl<S: System> HostFs<S> {
    ghost use Rattle.host_fs.specs.HostFs.{root_of, opens_of, faults_of};

    /// Hands an outcome on, and counts it if it is a fault.
    fn counted<T>(&mut self, outcome: Result<T, FsError>) -> Result<T, FsError>
        ensures same { result ≡ outcome }
        ensures count { faults_of self.new ≡ count_after (faults_of self.old) result }
        ensures cause { HasCause (faults_of self.old) (faults_of self.new) result }
        ensures root { root_of self.new ≡ root_of self.old }
        ensures opens { OpensNone (opens_of self.old) (opens_of self.new) }
    {
        if let Err(FsError::Fault) = &outcome {
            self.faults = self.faults.saturating_add(1);
        }
        outcome
    }

    /// The path of a name, for a call that has no answer for being out of memory.
    fn path(&self, name: &[u8]) -> Result<String, FsError>
        ensures no_path { ¬ (IsPath (root_of self.now) name.now) → IsErrOf result FsError.Fault }
        ensures fault { OnErr result (IsErrOf result FsError.Fault) }
    {
        match path_of(self.alloc, self.root.as_slice(), name) {
            Ok(path) => Ok(path),
            Err(why) => Err(without_memory(why)),
        }
    }

    /// The open file of a descriptor.
    fn target(&self, fd: Fd) -> Result<&OpenFile<S::File>, FsError>
        ensures open { IfOk result (λ target. opens_of self.now fd.0 ≡ Some target.now.mode) }
        ensures fault { OnErr result (IsErrOf result FsError.Fault) }
    {
        self.table.get(fd.0).ok_or(FsError::Fault)
    }

    /// As `create_excl`, uncounted.
    fn create(&mut self, alloc: Global, name: &[u8]) -> Result<(Fd, u64), FsError>
        ensures number { IfOk result (λ created. 1 ≤ created.1) }
        ensures no_path { ¬ (IsPath (root_of self.old) name.now) → IsErrOf result FsError.Fault }
        ensures opens { IfOk result (λ created. Opens (opens_of self.old) (opens_of self.new) created.0.0 made.Created) }
        ensures none { OnErr result (OpensNone (opens_of self.old) (opens_of self.new)) }
        ensures root { root_of self.new ≡ root_of self.old }
        ensures faults { faults_of self.new ≡ faults_of self.old }
    {
        let path = path_of(alloc, self.root.as_slice(), name)?;
        let place = self.table.make_room()?;
        let (file, number) = create_new(&self.system, path.as_str())?;
        let mode = Mode::Created;
        self.table.put(place, OpenFile { file, mode });
        Ok((Fd(place as u64), number))
    }

    /// As `open` of a name, uncounted.
    fn open_name(&mut self, alloc: Global, name: &[u8], how: How) -> Result<Fd, FsError>
        ensures exists { ¬ (IsErrOf result FsError.Exists) }
        ensures no_path { ¬ (IsPath (root_of self.old) name.now) → IsErrOf result FsError.Fault }
        ensures opens { IfOk result (λ fd. Opens (opens_of self.old) (opens_of self.new) fd.0 (made.Opened how)) }
        ensures none { OnErr result (OpensNone (opens_of self.old) (opens_of self.new)) }
        ensures root { root_of self.new ≡ root_of self.old }
        ensures faults { faults_of self.new ≡ faults_of self.old }
    {
        let path = path_of(alloc, self.root.as_slice(), name)?;
        let place = self.table.make_room()?;
        let file = open_file(&self.system, path.as_str(), how)?;
        let mode = Mode::Opened(how);
        self.table.put(place, OpenFile { file, mode });
        Ok(Fd(place as u64))
    }

    /// As `read_at`, uncounted.
    fn read(&self, fd: Fd, at: u64, into: &mut [u8]) -> Result<u64, FsError>
        ensures count { IfOk result (λ count. count ≤ length into.old) }
        ensures fits { IsOk result → IsSome (opens_of self.now fd.0) }
        ensures fault { OnErr result (IsErrOf result FsError.Fault) }
    {
        let file = &self.target(fd)?.file;
        let system = &self.system;
        read_full(&mut Cursor { system, file, at }, into)
    }

    /// As `write_at`, uncounted.
    fn write(&self, fd: Fd, at: u64, bytes: &[u8]) -> Result<(), FsError>
        ensures fits { IsOk result → IsSomeAnd (opens_of self.now fd.0) IsForWrite }
        ensures fault { OnErr result (IsErrOf result FsError.Fault) }
    {
        let target = self.target(fd)?;
        if !target.mode.is_for_write() {
            return Err(FsError::Fault);
        }
        let (system, file) = (&self.system, &target.file);
        let length = or_fault(system.fstat(file))?.length;
        or_fault(Cursor { system, file, at }.write_all(lying(length, at, bytes)))
    }

    /// As `append`, uncounted.
    fn put_at_end(&self, fd: Fd, bytes: &[u8]) -> Result<(), FsError>
        ensures fits { IsOk result → IsSomeAnd (opens_of self.now fd.0) IsForAppend }
        ensures fault { OnErr result (IsErrOf result FsError.Fault) }
    {
        let target = self.target(fd)?;
        if !target.mode.is_for_append() {
            return Err(FsError::Fault);
        }
        let (system, file) = (&self.system, &target.file);
        or_fault(End { system, file }.write_all(bytes))
    }

    /// As `truncate`, uncounted.
    fn cut(&self, fd: Fd, len: u64) -> Result<(), FsError>
        ensures fits { IsOk result → IsSomeAnd (opens_of self.now fd.0) IsForCut }
        ensures fault { OnErr result (IsErrOf result FsError.Fault) }
    {
        let target = self.target(fd)?;
        if !target.mode.is_for_cut() {
            return Err(FsError::Fault);
        }
        if len >= or_fault(self.system.fstat(&target.file))?.length {
            return Ok(());
        }
        or_fault(self.system.set_len(&target.file, len))
    }

    /// As `sync`, uncounted.
    fn settle(&self, fd: Fd) -> Result<(), FsError>
        ensures fits { IsOk result → IsSome (opens_of self.now fd.0) }
        ensures fault { OnErr result (IsErrOf result FsError.Fault) }
    {
        or_fault(self.system.sync(&self.target(fd)?.file))
    }

    /// As `link`, uncounted.
    fn link_names(&self, alloc: Global, old: &[u8], new: &[u8]) -> Result<(), FsError>
        ensures no_old { ¬ (IsPath (root_of self.now) old.now) → IsErrOf result FsError.Fault }
        ensures no_new { ¬ (IsPath (root_of self.now) new.now) → IsErrOf result FsError.Fault }
    {
        let new = path_of(alloc, self.root.as_slice(), new);
        if let Err(FsError::Fault) = &new {
            return Err(FsError::Fault);
        }
        let old = path_of(alloc, self.root.as_slice(), old)?;
        link_file(&self.system, old.as_str(), new?.as_str())
    }

    /// As `unlink`, uncounted.
    fn unlink_name(&self, name: &[u8]) -> Result<(), FsError>
        ensures no_path { ¬ (IsPath (root_of self.now) name.now) → IsErrOf result FsError.Fault }
        ensures exists { ¬ (IsErrOf result FsError.Exists) }
        ensures memory { ¬ (IsErrOf result FsError.Memory) }
    {
        unlink_file(&self.system, self.path(name)?.as_str())
    }

    /// As `stat`, uncounted.
    fn stat_name(&self, name: &[u8]) -> Result<Stat, FsError>
        ensures moment { IfOk result (λ stat. IsMoment stat.moment) }
        ensures no_path { ¬ (IsPath (root_of self.now) name.now) → IsErrOf result FsError.Fault }
        ensures exists { ¬ (IsErrOf result FsError.Exists) }
        ensures memory { ¬ (IsErrOf result FsError.Memory) }
    {
        stat_file(&self.system, self.path(name)?.as_str())
    }

    /// As `next_name`, uncounted.
    fn name_after(&mut self, dir: &[u8], after: &[u8], into: &mut NameBuf) -> Result<bool, FsError>
        ensures later { IfOk result (λ found. FoundAfter found after.now into.new) }
        ensures no_path { ¬ (IsPath (root_of self.old) dir.now) → IsErrOf result FsError.Fault }
        ensures exists { ¬ (IsErrOf result FsError.Exists) }
        ensures memory { ¬ (IsErrOf result FsError.Memory) }
        ensures root { root_of self.new ≡ root_of self.old }
        ensures opens { OpensNone (opens_of self.old) (opens_of self.new) }
        ensures faults { faults_of self.new ≡ faults_of self.old }
    {
        let path = self.path(dir)?;
        listing::next_name(
            &self.system,
            self.alloc,
            &mut self.kept,
            path.as_str(),
            after,
            into,
        )
    }
}

impl<S: System> CallFs for HostFs<S> {
    ghost use Rattle.host_fs.specs.HostFs.{faults_of, HostWent, Serves};

    ghost disk = { λ _. None };

    ghost calls = { λ _. None };

    ghost faults = { faults_of };

    ghost plan = { λ _. None };

    fn faults(&self) -> u64 {
        self.faults
    }

    fn create_excl(&mut self, alloc: Global, now: u64, name: &[u8]) -> Result<(Fd, u64), FsError>
        ensures went { HostWent self.old self.new now (call.CreateExcl name.now) (without_bytes (created result)) }
        ensures serves { Serves self.old self.new (call.CreateExcl name.now) (created result) }
    {
        let outcome = self.create(alloc, name);
        self.counted(outcome)
    }

    fn open(&mut self, alloc: Global, name: &[u8], how: How) -> Result<Fd, FsError>
        ensures went { HostWent self.old self.new 0 (call.Open name.now how) (without_bytes (opened result)) }
        ensures serves { Serves self.old self.new (call.Open name.now how) (opened result) }
    {
        let outcome = self.open_name(alloc, name, how);
        self.counted(outcome)
    }

    fn read_at(&mut self, fd: Fd, at: u64, into: &mut [u8]) -> Result<u64, FsError>
        ensures went { HostWent self.old self.new 0 (call.ReadAt fd at (length into.old))
            (told_with (counted result) into.new) }
        ensures serves { Serves self.old self.new (call.ReadAt fd at (length into.old)) (counted result) }
    {
        let outcome = self.read(fd, at, into);
        self.counted(outcome)
    }

    fn write_at(
        &mut self,
        _alloc: Global,
        now: u64,
        fd: Fd,
        at: u64,
        bytes: &[u8],
    ) -> Result<(), FsError>
        ensures went { HostWent self.old self.new now (call.WriteAt fd at bytes.now) (without_bytes (done result)) }
        ensures serves { Serves self.old self.new (call.WriteAt fd at bytes.now) (done result) }
    {
        let outcome = self.write(fd, at, bytes);
        self.counted(outcome)
    }

    fn append(&mut self, _alloc: Global, now: u64, fd: Fd, bytes: &[u8]) -> Result<(), FsError>
        ensures went { HostWent self.old self.new now (call.Append fd bytes.now) (without_bytes (done result)) }
        ensures serves { Serves self.old self.new (call.Append fd bytes.now) (done result) }
    {
        let outcome = self.put_at_end(fd, bytes);
        self.counted(outcome)
    }

    fn truncate(&mut self, fd: Fd, len: u64) -> Result<(), FsError>
        ensures went { HostWent self.old self.new 0 (call.Truncate fd len) (without_bytes (done result)) }
        ensures serves { Serves self.old self.new (call.Truncate fd len) (done result) }
    {
        let outcome = self.cut(fd, len);
        self.counted(outcome)
    }

    fn sync(&mut self, fd: Fd) -> Result<(), FsError>
        ensures went { HostWent self.old self.new 0 (call.Sync fd) (without_bytes (done result)) }
        ensures serves { Serves self.old self.new (call.Sync fd) (done result) }
    {
        let outcome = self.settle(fd);
        self.counted(outcome)
    }

    fn close(&mut self, fd: Fd) -> Result<(), FsError>
        ensures went { HostWent self.old self.new 0 (call.Close fd) (without_bytes (done result)) }
        ensures serves { Serves self.old self.new (call.Close fd) (done result) }
    {
        self.table.remove(fd.0);
        Ok(())
    }

    /// The name is on the disk once this is `Ok`. After a fault it may be there.
    fn link(&mut self, alloc: Global, old: &[u8], new: &[u8]) -> Result<(), FsError>
        ensures went { HostWent self.old self.new 0 (call.Link old.now new.now) (without_bytes (done result)) }
        ensures serves { Serves self.old self.new (call.Link old.now new.now) (done result) }
    {
        let outcome = self.link_names(alloc, old, new);
        self.counted(outcome)
    }

    fn unlink(&mut self, name: &[u8]) -> Result<(), FsError>
        ensures went { HostWent self.old self.new 0 (call.Unlink name.now) (without_bytes (done result)) }
        ensures serves { Serves self.old self.new (call.Unlink name.now) (done result) }
    {
        let outcome = self.unlink_name(name);
        self.counted(outcome)
    }

    fn stat(&mut self, name: &[u8]) -> Result<Stat, FsError>
        ensures went { HostWent self.old self.new 0 (call.Stat name.now) (without_bytes (stated result)) }
        ensures serves { Serves self.old self.new (call.Stat name.now) (stated result) }
    {
        let outcome = self.stat_name(name);
        self.counted(outcome)
    }

    /// A name that it gives is one part of a name, in UTF-8. Entries of another name are passed over, as directories are.
    fn next_name(&mut self, dir: &[u8], after: &[u8], into: &mut NameBuf) -> Result<bool, FsError>
        ensures went { HostWent self.old self.new 0 (call.NextName dir.now after.now)
            (without_bytes (next_found result into.new)) }
        ensures serves { Serves self.old self.new (call.NextName dir.now after.now) (next_found result into.new) }
    {
        let outcome = self.name_after(dir, after, into);
        self.counted(outcome)
    }
}
