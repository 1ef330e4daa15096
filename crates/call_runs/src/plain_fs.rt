// The disk in memory as lists.
ghost use Rattle.std.specs.Prelude.{◌≡◌, ◌≤◌, Some, None, Ok, OnOk, OnErr, IfOk, IfSome, length, drop};
ghost use Rattle.call_fs.specs.declared.calls.CallData.TheVariants as call;
ghost use Rattle.call_fs.specs.Disk.{MayUse, MayAppend, MayWrite, MayCut};
ghost use Rattle.mail_bytes.specs.Moments.{IsMoment};
ghost use Rattle.call_fs.specs.Calls.{created, opened, counted, done, stated, next_found, told_with, without_bytes};
ghost use Rattle.call_fs.specs.Apply.{Apply};
ghost use Rattle.call_fs.specs.Told.{HasCause};
ghost use Rattle.call_fs.specs.Free.{IsFree};
ghost use Rattle.call_fs.specs.Placing.{with_dir};
ghost use Rattle.mem_fs.specs.MemDisk.{disk_of, fresh, with_held, empty_plan, Counts, IsNextNumber, MemWent};
ghost use Rattle.call_runs.specs.Lists.{held_of};

use crate::plain_lists::PlainLists;
use crate::plan::Plan;
use call_fs::{CallFs, Fd, FsError, How, Stat};
use mail_bytes::{Memory, NameBuf};
use std::alloc::Global;
use std::marker::Model;

/// A disk in memory that is lists in any order and nothing else: each call goes through them from the first to the last,
/// and each new file's number is looked for from 1 on. It does what `MemFs` does, by the same clauses; tests compare the
/// two.
#[derive(Drop)]
pub struct PlainFs {
    lists: PlainLists,
    picks: Vec<u64>,
    plan: Plan,
}

impl Model for PlainFs {
    ghost use Rattle.mem_fs.specs.MemDisk.{Planned};
    ghost use Rattle.call_runs.specs.Lists.{held_of};

    ghost Value = { Planned };

    ghost view = { λ p. record { held = held_of p.lists; picks = p.picks.items; plan = p.plan.at.items; made = p.plan.made; faults = p.plan.faults } };
}

impl PlainFs {
    /// As `MemFs::new`.
    pub fn new(alloc: Global, picks: Vec<u64>, faults: Vec<u64>) -> Result<PlainFs, Memory>
        ensures { result ≡ Ok (fresh picks.items faults.items) }
    {
        Ok(PlainFs {
            lists: PlainLists::new(alloc),
            picks,
            plan: Plan {
                at: faults,
                made: 0,
                faults: 0,
            },
        })
    }

    /// As `MemFs::dir`.
    pub fn dir(&mut self, alloc: Global, name: &[u8]) -> Result<(), Memory>
        ensures ok { OnOk result (disk_of self.new.held ≡ with_dir (disk_of self.old.held) name.now) }
        ensures rest { self.new ≡ with_held self.old self.new.held }
        ensures err { OnErr result (self.new ≡ self.old) }
    {
        self.lists.add_dir(alloc, name)
    }

    /// Makes a new empty file, as `create_excl`.
    fn make(&mut self, alloc: Global, now: u64, name: &[u8]) -> Result<(Fd, u64), FsError>
        requires { IsMoment now }
        ensures told { Apply (disk_of self.old.held) now (call.CreateExcl name.now) (created result) (disk_of self.new.held) }
        ensures from_one { IfOk result (λ made. 1 ≤ made.1) }
        ensures cause { HasCause self.old.faults self.new.faults result }
        ensures counts { Counts self.old self.new None (created result) }
    {
        self.plan.begin()?;
        if !self.lists.has_dir(name) {
            return Err(FsError::NotThere);
        }
        if self.lists.number_of(name).is_some() {
            return Err(FsError::Exists);
        }
        let Some(number) = next_number(&self.lists, &self.picks) else {
            return Err(FsError::Memory);
        };
        let Some(fd) = self.lists.least_descriptor() else {
            return Err(FsError::Memory);
        };
        self.lists.create(alloc, now, name, fd, number)?;
        without_first(&mut self.picks);
        Ok((fd, number))
    }
}

/// The number that a new file takes: the first pick if that is free, else the least free number.
fn next_number(lists: &PlainLists, picks: &[u64]) -> Option<u64>
    ensures number { IfSome result (λ n. IsNextNumber (disk_of (held_of lists.now)) picks.now n (drop 1 picks.now)) }
    ensures free { IfSome result (IsFree (disk_of (held_of lists.now))) }
{
    let Some(pick) = picks.first() else {
        return Some(lists.least_free()?);
    };
    if lists.is_free(*pick) {
        return Some(*pick);
    }
    Some(lists.least_free()?)
}

/// Without its first element.
fn without_first(picks: &mut Vec<u64>)
    ensures { picks.new.items ≡ drop 1 picks.old.items }
{
    if !picks.is_empty() {
        picks.remove(0);
    }
}

/// Puts a name into the buffer, in place of what it had. The condition: a name can be as long.
fn fill(into: &mut NameBuf, name: &[u8])
    requires { length name.now ≤ 255 }
    ensures { into.new ≡ name.now }
{
    into.clear();
    into.extend(name).unwrap();
}

impl CallFs for PlainFs {
    ghost disk = { λ m. Some (disk_of m.held) };

    ghost calls = { λ _. None };

    ghost faults = { λ m. m.faults };

    ghost plan = { λ m. empty_plan m.picks m.plan };

    fn faults(&self) -> u64 {
        self.plan.faults
    }

    /// As the trait says. The new file takes the next number by the picks, and the least free descriptor.
    fn create_excl(&mut self, alloc: Global, now: u64, name: &[u8]) -> Result<(Fd, u64), FsError>
        requires { IsMoment now }
        ensures went { MemWent self.old self.new now (call.CreateExcl name.now) (without_bytes (created result)) }
        ensures counts { Counts self.old self.new None (created result) }
    {
        self.make(alloc, now, name)
    }

    /// As the trait says. It takes the least free descriptor.
    fn open(&mut self, _alloc: Global, name: &[u8], how: How) -> Result<Fd, FsError>
        ensures went { MemWent self.old self.new 0 (call.Open name.now how) (without_bytes (opened result)) }
        ensures counts { Counts self.old self.new None (opened result) }
    {
        self.plan.begin()?;
        if self.lists.number_of(name).is_none() {
            return Err(FsError::NotThere);
        }
        let Some(fd) = self.lists.least_descriptor() else {
            return Err(FsError::Memory);
        };
        self.lists.open(name, how, fd)?;
        Ok(fd)
    }

    fn read_at(&mut self, fd: Fd, at: u64, into: &mut [u8]) -> Result<u64, FsError>
        requires { MayUse (disk_of self.old.held) fd.0 }
        ensures went { MemWent self.old self.new 0 (call.ReadAt fd at (length into.old))
            (told_with (counted result) into.new) }
        ensures counts { Counts self.old self.new None (counted result) }
    {
        self.plan.begin()?;
        Ok(self.lists.read_at(fd, at, into))
    }

    fn write_at(
        &mut self,
        alloc: Global,
        now: u64,
        fd: Fd,
        at: u64,
        bytes: &[u8],
    ) -> Result<(), FsError>
        requires moment { IsMoment now }
        requires fits { MayWrite (disk_of self.old.held) fd.0 }
        ensures went { MemWent self.old self.new now (call.WriteAt fd at bytes.now) (without_bytes (done result)) }
        ensures counts { Counts self.old self.new None (done result) }
    {
        self.plan.begin()?;
        self.lists.write_at(alloc, now, fd, at, bytes)?;
        Ok(())
    }

    fn append(&mut self, alloc: Global, now: u64, fd: Fd, bytes: &[u8]) -> Result<(), FsError>
        requires moment { IsMoment now }
        requires fits { MayAppend (disk_of self.old.held) fd.0 }
        ensures went { MemWent self.old self.new now (call.Append fd bytes.now) (without_bytes (done result)) }
        ensures counts { Counts self.old self.new None (done result) }
    {
        self.plan.begin()?;
        self.lists.append(alloc, now, fd, bytes)?;
        Ok(())
    }

    fn truncate(&mut self, fd: Fd, len: u64) -> Result<(), FsError>
        requires { MayCut (disk_of self.old.held) fd.0 }
        ensures went { MemWent self.old self.new 0 (call.Truncate fd len) (without_bytes (done result)) }
        ensures counts { Counts self.old self.new None (done result) }
    {
        self.plan.begin()?;
        self.lists.truncate(fd, len);
        Ok(())
    }

    fn sync(&mut self, fd: Fd) -> Result<(), FsError>
        requires { MayUse (disk_of self.old.held) fd.0 }
        ensures went { MemWent self.old self.new 0 (call.Sync fd) (without_bytes (done result)) }
        ensures counts { Counts self.old self.new None (done result) }
    {
        self.plan.begin()?;
        self.lists.sync(fd);
        Ok(())
    }

    /// As the trait says. It isn't counted as a call.
    fn close(&mut self, fd: Fd) -> Result<(), FsError>
        requires { MayUse (disk_of self.old.held) fd.0 }
        ensures went { MemWent self.old self.new 0 (call.Close fd) (without_bytes (done result)) }
        ensures rest { self.new ≡ with_held self.old self.new.held }
    {
        self.lists.close(fd);
        Ok(())
    }

    fn link(&mut self, alloc: Global, old: &[u8], new: &[u8]) -> Result<(), FsError>
        ensures went { MemWent self.old self.new 0 (call.Link old.now new.now) (without_bytes (done result)) }
        ensures counts { Counts self.old self.new None (done result) }
    {
        self.plan.begin()?;
        if self.lists.number_of(old).is_none() || !self.lists.has_dir(new) {
            return Err(FsError::NotThere);
        }
        if self.lists.number_of(new).is_some() {
            return Err(FsError::Exists);
        }
        self.lists.link(alloc, old, new)?;
        Ok(())
    }

    fn unlink(&mut self, name: &[u8]) -> Result<(), FsError>
        ensures went { MemWent self.old self.new 0 (call.Unlink name.now) (without_bytes (done result)) }
        ensures counts { Counts self.old self.new None (done result) }
    {
        self.plan.begin()?;
        if self.lists.number_of(name).is_none() {
            return Err(FsError::NotThere);
        }
        self.lists.unlink(name);
        Ok(())
    }

    fn stat(&mut self, name: &[u8]) -> Result<Stat, FsError>
        ensures went { MemWent self.old self.new 0 (call.Stat name.now) (without_bytes (stated result)) }
        ensures counts { Counts self.old self.new None (stated result) }
    {
        self.plan.begin()?;
        match self.lists.stat(name) {
            Some(stat) => Ok(stat),
            None => Err(FsError::NotThere),
        }
    }

    fn next_name(&mut self, dir: &[u8], after: &[u8], into: &mut NameBuf) -> Result<bool, FsError>
        ensures went { MemWent self.old self.new 0 (call.NextName dir.now after.now)
            (without_bytes (next_found result into.new)) }
        ensures counts { Counts self.old self.new None (next_found result into.new) }
    {
        self.plan.begin()?;
        if !self.lists.is_dir(dir) {
            return Err(FsError::NotThere);
        }
        match self.lists.next_name(dir, after) {
            Some(name) => {
                fill(into, name);
                Ok(true)
            }
            None => Ok(false),
        }
    }
}
