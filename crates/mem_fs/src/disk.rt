// The disk in memory.
ghost use Rattle.std.specs.Prelude.{◌≡◌, ◌≤◌, ◌↔◌, IsTrue, IfOk, IfSome, IfNone, OnOk, OnErr, Some, None, Ok, length, drop};
ghost use Rattle.std.specs.Option.{option_copied};
ghost use Rattle.call_fs.specs.declared.calls.CallData.TheVariants as call;
ghost use Rattle.call_fs.specs.Disk.{MayUse, MayAppend, MayWrite, MayCut};
ghost use Rattle.mail_bytes.specs.Moments.{IsMoment};
ghost use Rattle.call_fs.specs.Calls.{created, opened, counted, done, stated, next_found, told_with, without_bytes};
ghost use Rattle.call_fs.specs.Apply.{Apply, IsNextName, IsLastName};
ghost use Rattle.call_fs.specs.Choices.{Halts};
ghost use Rattle.call_fs.specs.Told.{HasCause};
ghost use Rattle.call_fs.specs.Free.{IsFree};
ghost use Rattle.call_fs.specs.Placing.{with_dir, Replaces};
ghost use Rattle.mem_fs.specs.MemDisk.{disk_of, fresh, with_held, bytes_at, Places, NoneFree, IsNextNumber, IsPickedNumber, empty_plan, Counts, MemWent};

use crate::picks::Picks;
use crate::plan::Plan;
use crate::store::Store;
use call_fs::{CallFs, Fd, FsError, How, Stat, Survival};
use mail_bytes::{Memory, NameBuf};
use std::alloc::Global;
use std::marker::Model;

/// A disk in memory. It keeps a tree of names and plain lists, tells what it holds, and fails at the calls that were
/// planned and at no others. A file that nothing uses any more is kept until its number is taken again.
#[derive(Drop)]
pub struct MemFs {
    store: Store,
    picks: Picks,
    plan: Plan,
}

impl Model for MemFs {
    ghost use Rattle.mem_fs.specs.MemDisk.{Planned};

    ghost Value = { Planned };

    ghost view = { λ m. record { held = m.store; picks = m.picks; plan = m.plan.at.items; made = m.plan.made; faults = m.plan.faults } };
}

impl MemFs {
    /// An empty disk without directories. A new file takes the next of the picks if that is free, else the least free
    /// number from 1; a pick that isn't free is used up. The calls at the indexes of `faults` fail, counted from 1 over
    /// every call but `close`.
    pub fn new(alloc: Global, picks: Vec<u64>, faults: Vec<u64>) -> Result<MemFs, Memory>
        ensures { result ≡ Ok (fresh picks.items faults.items) }
    {
        Ok(MemFs {
            store: Store::new(alloc),
            picks: Picks::new(picks),
            plan: Plan {
                at: faults,
                made: 0,
                faults: 0,
            },
        })
    }

    /// Adds a directory. After `Memory` it is as before.
    pub fn dir(&mut self, alloc: Global, name: &[u8]) -> Result<(), Memory>
        ensures ok { OnOk result (disk_of self.new.held ≡ with_dir (disk_of self.old.held) name.now) }
        ensures rest { self.new ≡ with_held self.old self.new.held }
        ensures err { OnErr result (self.new ≡ self.old) }
    {
        self.store.add_dir(alloc, name)
    }

    /// Puts a file with these bytes under a name, all of them on the disk, with moment 0. A new name takes the greatest
    /// free number; a name that is there keeps its number, and its file has these bytes instead. After `Memory` it is
    /// as before.
    pub fn place(&mut self, alloc: Global, name: &[u8], bytes: &[u8]) -> Result<(), Memory>
        ensures ok { OnOk result (Places (disk_of self.old.held) name.now bytes.now (disk_of self.new.held)) }
        ensures rest { self.new ≡ with_held self.old self.new.held }
        ensures err { OnErr result (self.new ≡ self.old) }
    {
        self.store.place(alloc, name, bytes)
    }

    /// The file of a name has these bytes from now on, all of them on the disk, with this moment; it keeps its number. A
    /// missing one takes the greatest free number, and its directory is made if it is missing. It isn't counted as a call.
    /// After `Memory` it is as before.
    pub fn replace(
        &mut self,
        alloc: Global,
        now: u64,
        name: &[u8],
        bytes: &[u8],
    ) -> Result<(), Memory>
        requires { IsMoment now }
        ensures ok { OnOk result (Replaces now name.now bytes.now (disk_of self.old.held) (disk_of self.new.held)) }
        ensures rest { self.new ≡ with_held self.old self.new.held }
        ensures err { OnErr result (self.new ≡ self.old) }
    {
        self.store.replace(alloc, now, name, bytes)
    }

    /// The least name in a directory after that one in byte order; None exactly if there is none.
    pub fn name_after(&self, dir: &[u8], after: &[u8]) -> Option<&[u8]>
        ensures some { IfSome result (λ name. IsNextName (disk_of self.now.held) dir.now after.now name.now) }
        ensures none { IfNone result (IsLastName (disk_of self.now.held) dir.now after.now) }
    {
        self.store.next_name(dir, after)
    }

    /// The bytes of the file of a name; None exactly if the name is missing.
    pub fn bytes_of(&self, name: &[u8]) -> Option<&[u8]>
        ensures { option_copied result ≡ bytes_at (disk_of self.now.held) name.now }
    {
        self.store.bytes_of(name)
    }

    /// Whether a new file may take the number.
    pub fn is_free(&self, number: u64) -> bool
        ensures { IsTrue result ↔ IsFree (disk_of self.now.held) number }
    {
        self.store.is_free(number)
    }

    /// Makes a new file as `create_excl` does; if a number is picked here and is free, it takes that one, and no pick
    /// of the disk is used up.
    pub fn create_picked(
        &mut self,
        alloc: Global,
        now: u64,
        name: &[u8],
        pick: Option<u64>,
    ) -> Result<(Fd, u64), FsError>
        requires { IsMoment now }
        ensures told { Apply (disk_of self.old.held) now (call.CreateExcl name.now) (created result) (disk_of self.new.held) }
        ensures from_one { IfOk result (λ made. 1 ≤ made.1) }
        ensures cause { HasCause self.old.faults self.new.faults result }
        ensures counts { Counts self.old self.new pick (created result) }
    {
        self.plan.begin()?;
        if !self.store.has_dir(name) {
            return Err(FsError::NotThere);
        }
        if self.store.number_of(name).is_some() {
            return Err(FsError::Exists);
        }
        let Some((number, used)) = picked_number(&self.store, self.picks.as_slice(), pick) else {
            return Err(FsError::Memory);
        };
        let Some(fd) = self.store.least_descriptor() else {
            return Err(FsError::Memory);
        };
        self.store.create(alloc, now, name, fd, number)?;
        self.picks.use_up(used);
        Ok((fd, number))
    }

    /// The machine stops and starts again. It isn't counted as a call, and the picks and the calls that are to fail stay.
    /// After `Memory` it is as before.
    pub fn halt(&mut self, alloc: Global, how: Survival) -> Result<(), Memory>
        ensures ok { OnOk result (Halts how (disk_of self.old.held) (disk_of self.new.held)) }
        ensures rest { self.new ≡ with_held self.old self.new.held }
        ensures err { OnErr result (self.new ≡ self.old) }
    {
        self.store.halt(alloc, how)
    }
}

/// The number that a new file takes, and how many picks are used up then: the picked one if that is free. None
/// only if each u64 from 1 is used.
fn picked_number(store: &Store, picks: &[u64], pick: Option<u64>) -> Option<(u64, usize)>
    ensures number { IfSome result (λ next. IsPickedNumber (disk_of store.now) pick picks.now next.0 (drop next.1 picks.now)) }
    ensures free { IfSome result (λ next. IsFree (disk_of store.now) next.0) }
    ensures used { IfSome result (λ next. next.1 ≤ length picks.now) }
    ensures none { IfNone result (NoneFree (disk_of store.now)) }
{
    let Some(pick) = pick else {
        return next_number(store, picks);
    };
    if store.is_free(pick) {
        return Some((pick, 0));
    }
    next_number(store, picks)
}

/// The number that a new file takes, and how many picks are used up then; None only if each u64 from 1 is used.
fn next_number(store: &Store, picks: &[u64]) -> Option<(u64, usize)>
    ensures number { IfSome result (λ next. IsNextNumber (disk_of store.now) picks.now next.0 (drop next.1 picks.now)) }
    ensures free { IfSome result (λ next. IsFree (disk_of store.now) next.0) }
    ensures used { IfSome result (λ next. next.1 ≤ length picks.now) }
    ensures none { IfNone result (NoneFree (disk_of store.now)) }
{
    let Some(pick) = picks.first() else {
        return Some((store.least_free()?, 0));
    };
    if store.is_free(*pick) {
        return Some((*pick, 1));
    }
    Some((store.least_free()?, 1))
}

/// Puts a name into the buffer, in place of what it had. The condition: a name can be as long.
fn fill(into: &mut NameBuf, name: &[u8])
    requires { length name.now ≤ 255 }
    ensures { into.new ≡ name.now }
{
    into.clear();
    into.extend(name).unwrap();
}

impl CallFs for MemFs {
    ghost disk = { λ m. Some (disk_of m.held) };

    ghost calls = { λ _. None };

    ghost faults = { λ m. m.faults };

    // without picks, and without calls that are to fail

    ghost plan = { λ m. empty_plan m.picks m.plan };

    fn faults(&self) -> u64 {
        self.plan.faults
    }

    /// As the trait says. The new file takes the next number by the picks, and the least free descriptor.
    fn create_excl(&mut self, alloc: Global, now: u64, name: &[u8]) -> Result<(Fd, u64), FsError>
        requires { IsMoment now }
        ensures went { MemWent self.old self.new now (call.CreateExcl name.now) (without_bytes (created result)) }
        ensures counts { Counts self.old self.new None (created result) }
    {
        self.create_picked(alloc, now, name, None)
    }

    /// As the trait says. It takes the least free descriptor.
    fn open(&mut self, _alloc: Global, name: &[u8], how: How) -> Result<Fd, FsError>
        ensures went { MemWent self.old self.new 0 (call.Open name.now how) (without_bytes (opened result)) }
        ensures counts { Counts self.old self.new None (opened result) }
    {
        self.plan.begin()?;
        if self.store.number_of(name).is_none() {
            return Err(FsError::NotThere);
        }
        let Some(fd) = self.store.least_descriptor() else {
            return Err(FsError::Memory);
        };
        self.store.open(name, how, fd)?;
        Ok(fd)
    }

    fn read_at(&mut self, fd: Fd, at: u64, into: &mut [u8]) -> Result<u64, FsError>
        requires { MayUse (disk_of self.old.held) fd.0 }
        ensures went { MemWent self.old self.new 0 (call.ReadAt fd at (length into.old)) (told_with (counted result) into.new) }
        ensures counts { Counts self.old self.new None (counted result) }
    {
        self.plan.begin()?;
        Ok(self.store.read_at(fd, at, into))
    }

    fn write_at(
        &mut self,
        _alloc: Global,
        now: u64,
        fd: Fd,
        at: u64,
        bytes: &[u8],
    ) -> Result<(), FsError>
        requires moment { IsMoment now }
        requires fits { MayWrite (disk_of self.old.held) fd.0 }
        ensures went { MemWent self.old self.new now (call.WriteAt fd at bytes.now) (without_bytes (done result)) }
        ensures counts { Counts self.old self.new None (done result) }
    {
        self.plan.begin()?;
        self.store.write_at(now, fd, at, bytes)?;
        Ok(())
    }

    fn append(&mut self, _alloc: Global, now: u64, fd: Fd, bytes: &[u8]) -> Result<(), FsError>
        requires moment { IsMoment now }
        requires fits { MayAppend (disk_of self.old.held) fd.0 }
        ensures went { MemWent self.old self.new now (call.Append fd bytes.now) (without_bytes (done result)) }
        ensures counts { Counts self.old self.new None (done result) }
    {
        self.plan.begin()?;
        self.store.append(now, fd, bytes)?;
        Ok(())
    }

    fn truncate(&mut self, fd: Fd, len: u64) -> Result<(), FsError>
        requires { MayCut (disk_of self.old.held) fd.0 }
        ensures went { MemWent self.old self.new 0 (call.Truncate fd len) (without_bytes (done result)) }
        ensures counts { Counts self.old self.new None (done result) }
    {
        self.plan.begin()?;
        self.store.truncate(fd, len);
        Ok(())
    }

    fn sync(&mut self, fd: Fd) -> Result<(), FsError>
        requires { MayUse (disk_of self.old.held) fd.0 }
        ensures went { MemWent self.old self.new 0 (call.Sync fd) (without_bytes (done result)) }
        ensures counts { Counts self.old self.new None (done result) }
    {
        self.plan.begin()?;
        self.store.sync(fd);
        Ok(())
    }

    /// As the trait says. It isn't counted as a call.
    fn close(&mut self, fd: Fd) -> Result<(), FsError>
        requires { MayUse (disk_of self.old.held) fd.0 }
        ensures went { MemWent self.old self.new 0 (call.Close fd) (without_bytes (done result)) }
        ensures rest { self.new ≡ with_held self.old self.new.held }
    {
        self.store.close(fd);
        Ok(())
    }

    fn link(&mut self, alloc: Global, old: &[u8], new: &[u8]) -> Result<(), FsError>
        ensures went { MemWent self.old self.new 0 (call.Link old.now new.now) (without_bytes (done result)) }
        ensures counts { Counts self.old self.new None (done result) }
    {
        self.plan.begin()?;
        if self.store.number_of(old).is_none() || !self.store.has_dir(new) {
            return Err(FsError::NotThere);
        }
        if self.store.number_of(new).is_some() {
            return Err(FsError::Exists);
        }
        self.store.link(alloc, old, new)?;
        Ok(())
    }

    fn unlink(&mut self, name: &[u8]) -> Result<(), FsError>
        ensures went { MemWent self.old self.new 0 (call.Unlink name.now) (without_bytes (done result)) }
        ensures counts { Counts self.old self.new None (done result) }
    {
        self.plan.begin()?;
        if self.store.number_of(name).is_none() {
            return Err(FsError::NotThere);
        }
        self.store.unlink(name);
        Ok(())
    }

    fn stat(&mut self, name: &[u8]) -> Result<Stat, FsError>
        ensures went { MemWent self.old self.new 0 (call.Stat name.now) (without_bytes (stated result)) }
        ensures counts { Counts self.old self.new None (stated result) }
    {
        self.plan.begin()?;
        match self.store.stat(name) {
            Some(stat) => Ok(stat),
            None => Err(FsError::NotThere),
        }
    }

    fn next_name(&mut self, dir: &[u8], after: &[u8], into: &mut NameBuf) -> Result<bool, FsError>
        ensures went { MemWent self.old self.new 0 (call.NextName dir.now after.now) (without_bytes (next_found result into.new)) }
        ensures counts { Counts self.old self.new None (next_found result into.new) }
    {
        self.plan.begin()?;
        if !self.store.is_dir(dir) {
            return Err(FsError::NotThere);
        }
        match self.store.next_name(dir, after) {
            Some(name) => {
                fill(into, name);
                Ok(true)
            }
            None => Ok(false),
        }
    }
}
