// A disk in memory whose machine can be stopped.
ghost use Rattle.std.specs.Prelude.{◌≡◌, ◌≤◌, ◌↔◌, Some, None, length, IsOk, IfSome, IfNone, OnOk, OnErr};
ghost use Rattle.std.specs.Option.{option_copied};
ghost use Rattle.call_fs.specs.declared.calls.CallData.TheVariants as call;
ghost use Rattle.call_fs.specs.Disk.{IsUnused, MayUse, MayAppend, MayWrite, MayCut};
ghost use Rattle.mail_bytes.specs.Moments.{IsMoment};
ghost use Rattle.call_fs.specs.Calls.{created, opened, counted, done, stated, next_found, told_with, without_bytes};
ghost use Rattle.call_fs.specs.Apply.{IsNextName, IsLastName};
ghost use Rattle.call_fs.specs.Plan.{with_fault, with_pick};
ghost use Rattle.call_fs.specs.Choices.{Halts};
ghost use Rattle.call_fs.specs.Placing.{with_dir, Replaces};
ghost use Rattle.mem_fs.specs.MemDisk.{bytes_at, Places};
ghost use Rattle.crash_fs.specs.Crash.{crash_disk, crash_faults, crash_plan, crash_over, with_below, with_plan, Passes, CrashWent};

use crate::chosen_fault::ChosenFault;
use call_fs::{CallFs, CrashFs, Fd, FsError, How, Stat, Survival, Taken};
use mail_bytes::{Memory, NameBuf};
use mem_fs::MemFs;
use std::alloc::Global;
use std::marker::Model;

/// A disk in memory whose machine can be stopped. It fails at the chosen call, and else as the disk below does; a call
/// that fails by choice changes nothing, and the disk below isn't asked.
#[derive(Drop)]
pub struct CrashDisk {
    below: MemFs,
    fault: ChosenFault,
    pick: Option<u64>,
}

impl Model for CrashDisk {
    ghost use Rattle.crash_fs.specs.Crash.{Crash};

    ghost Value = { Crash };

    ghost view = { λ c. record { below = c.below; plan = record { fault = c.fault.at; pick = c.pick }; failed = c.fault.failed } };
}

impl CrashDisk {
    /// Over this disk. Nothing is chosen.
    pub fn new(below: MemFs) -> CrashDisk
        ensures { result ≡ crash_over below }
    {
        CrashDisk {
            below,
            fault: ChosenFault {
                at: None,
                failed: 0,
            },
            pick: None,
        }
    }

    /// The disk that it is over.
    pub fn below(&self) -> &MemFs
        ensures { result.now ≡ self.now.below }
    {
        &self.below
    }

    /// Adds a directory. After `Memory` it is as before.
    pub fn dir(&mut self, alloc: Global, name: &[u8]) -> Result<(), Memory>
        ensures ok { OnOk result (crash_disk self.new ≡ with_dir (crash_disk self.old) name.now) }
        ensures rest { self.new ≡ with_below self.old self.new.below.held }
        ensures err { OnErr result (self.new ≡ self.old) }
    {
        self.below.dir(alloc, name)
    }

    /// Puts a file with these bytes under a name, all of them on the disk, with moment 0. A new name takes the greatest
    /// free number; a name that is there keeps its number, and its file has these bytes instead. After `Memory` it is
    /// as before.
    pub fn place(&mut self, alloc: Global, name: &[u8], bytes: &[u8]) -> Result<(), Memory>
        ensures ok { OnOk result (Places (crash_disk self.old) name.now bytes.now (crash_disk self.new)) }
        ensures rest { self.new ≡ with_below self.old self.new.below.held }
        ensures err { OnErr result (self.new ≡ self.old) }
    {
        self.below.place(alloc, name, bytes)
    }

    /// The least name in a directory after that one in byte order; None exactly if there is none.
    pub fn name_after(&self, dir: &[u8], after: &[u8]) -> Option<&[u8]>
        ensures some { IfSome result (λ name. IsNextName (crash_disk self.now) dir.now after.now name.now) }
        ensures none { IfNone result (IsLastName (crash_disk self.now) dir.now after.now) }
    {
        self.below.name_after(dir, after)
    }

    /// The bytes of the file of a name; None exactly if the name is missing.
    pub fn bytes_of(&self, name: &[u8]) -> Option<&[u8]>
        ensures { option_copied result ≡ bytes_at (crash_disk self.now) name.now }
    {
        self.below.bytes_of(name)
    }
}

impl CallFs for CrashDisk {
    ghost disk = { λ c. Some (crash_disk c) };

    ghost calls = { λ _. None };

    ghost faults = { crash_faults };

    // without picks, and without calls that are to fail

    // if the disk below has no picks and no calls that are to fail
    ghost plan = { crash_plan };

    fn faults(&self) -> u64 {
        self.below.faults().saturating_add(self.fault.failed)
    }

    /// As the trait says. If a number is chosen and is free the new file takes that one, else the next by the picks of the
    /// disk below; it takes the least free descriptor.
    fn create_excl(&mut self, alloc: Global, now: u64, name: &[u8]) -> Result<(Fd, u64), FsError>
        requires { IsMoment now }
        ensures went { CrashWent self.old self.new now (call.CreateExcl name.now) (without_bytes (created result)) }
        ensures passes { Passes self.old self.new (created result) }
    {
        self.fault.begin()?;
        let made = self.below.create_picked(alloc, now, name, self.pick)?;
        self.pick = None;
        Ok(made)
    }

    /// As the trait says. It takes the least free descriptor.
    fn open(&mut self, alloc: Global, name: &[u8], how: How) -> Result<Fd, FsError>
        ensures went { CrashWent self.old self.new 0 (call.Open name.now how) (without_bytes (opened result)) }
        ensures passes { Passes self.old self.new (opened result) }
    {
        self.fault.begin()?;
        self.below.open(alloc, name, how)
    }

    fn read_at(&mut self, fd: Fd, at: u64, into: &mut [u8]) -> Result<u64, FsError>
        requires { MayUse (crash_disk self.old) fd.0 }
        ensures went { CrashWent self.old self.new 0 (call.ReadAt fd at (length into.old))
            (told_with (counted result) into.new) }
        ensures passes { Passes self.old self.new (counted result) }
    {
        self.fault.begin()?;
        self.below.read_at(fd, at, into)
    }

    fn write_at(
        &mut self,
        alloc: Global,
        now: u64,
        fd: Fd,
        at: u64,
        bytes: &[u8],
    ) -> Result<(), FsError>
        requires moment { IsMoment now }
        requires fits { MayWrite (crash_disk self.old) fd.0 }
        ensures went { CrashWent self.old self.new now (call.WriteAt fd at bytes.now)
            (without_bytes (done result)) }
        ensures passes { Passes self.old self.new (done result) }
    {
        self.fault.begin()?;
        self.below.write_at(alloc, now, fd, at, bytes)
    }

    fn append(&mut self, alloc: Global, now: u64, fd: Fd, bytes: &[u8]) -> Result<(), FsError>
        requires moment { IsMoment now }
        requires fits { MayAppend (crash_disk self.old) fd.0 }
        ensures went { CrashWent self.old self.new now (call.Append fd bytes.now) (without_bytes (done result)) }
        ensures passes { Passes self.old self.new (done result) }
    {
        self.fault.begin()?;
        self.below.append(alloc, now, fd, bytes)
    }

    fn truncate(&mut self, fd: Fd, len: u64) -> Result<(), FsError>
        requires { MayCut (crash_disk self.old) fd.0 }
        ensures went { CrashWent self.old self.new 0 (call.Truncate fd len) (without_bytes (done result)) }
        ensures passes { Passes self.old self.new (done result) }
    {
        self.fault.begin()?;
        self.below.truncate(fd, len)
    }

    fn sync(&mut self, fd: Fd) -> Result<(), FsError>
        requires { MayUse (crash_disk self.old) fd.0 }
        ensures went { CrashWent self.old self.new 0 (call.Sync fd) (without_bytes (done result)) }
        ensures passes { Passes self.old self.new (done result) }
    {
        self.fault.begin()?;
        self.below.sync(fd)
    }

    /// As the trait says. It isn't counted as a call.
    fn close(&mut self, fd: Fd) -> Result<(), FsError>
        requires { MayUse (crash_disk self.old) fd.0 }
        ensures went { CrashWent self.old self.new 0 (call.Close fd) (without_bytes (done result)) }
        ensures rest { self.new ≡ with_below self.old self.new.below.held }
    {
        self.below.close(fd)
    }

    fn link(&mut self, alloc: Global, old: &[u8], new: &[u8]) -> Result<(), FsError>
        ensures went { CrashWent self.old self.new 0 (call.Link old.now new.now) (without_bytes (done result)) }
        ensures passes { Passes self.old self.new (done result) }
    {
        self.fault.begin()?;
        self.below.link(alloc, old, new)
    }

    fn unlink(&mut self, name: &[u8]) -> Result<(), FsError>
        ensures went { CrashWent self.old self.new 0 (call.Unlink name.now) (without_bytes (done result)) }
        ensures passes { Passes self.old self.new (done result) }
    {
        self.fault.begin()?;
        self.below.unlink(name)
    }

    fn stat(&mut self, name: &[u8]) -> Result<Stat, FsError>
        ensures went { CrashWent self.old self.new 0 (call.Stat name.now) (without_bytes (stated result)) }
        ensures passes { Passes self.old self.new (stated result) }
    {
        self.fault.begin()?;
        self.below.stat(name)
    }

    fn next_name(&mut self, dir: &[u8], after: &[u8], into: &mut NameBuf) -> Result<bool, FsError>
        ensures went { CrashWent self.old self.new 0 (call.NextName dir.now after.now)
            (without_bytes (next_found result into.new)) }
        ensures passes { Passes self.old self.new (next_found result into.new) }
    {
        self.fault.begin()?;
        self.below.next_name(dir, after, into)
    }
}

impl CrashFs for CrashDisk {
    fn halt(&mut self, alloc: Global, how: Survival) -> Result<(), Memory>
        ensures ok { OnOk result (Halts how (crash_disk self.old) (crash_disk self.new)) }
        ensures rest { self.new ≡ with_below self.old self.new.below.held }
        ensures err { OnErr result (self.new ≡ self.old) }
    {
        self.below.halt(alloc, how)
    }

    fn replace(&mut self, alloc: Global, now: u64, name: &[u8], bytes: &[u8]) -> Result<(), Memory>
        requires { IsMoment now }
        ensures ok { OnOk result (Replaces now name.now bytes.now (crash_disk self.old) (crash_disk self.new)) }
        ensures rest { self.new ≡ with_below self.old self.new.below.held }
        ensures err { OnErr result (self.new ≡ self.old) }
    {
        self.below.replace(alloc, now, name, bytes)
    }

    fn fault_in(&mut self, k: u64)
        requires { 1 ≤ k }
        ensures { self.new ≡ with_plan self.old (with_fault k self.old.plan) }
    {
        self.fault.at = Some(k);
    }

    fn pick(&mut self, number: u64) -> Result<(), Taken>
        requires { 1 ≤ number }
        ensures unused { IsOk result ↔ IsUnused (crash_disk self.old) number }
        ensures ok { OnOk result (self.new ≡ with_plan self.old (with_pick number self.old.plan)) }
        ensures err { OnErr result (self.new ≡ self.old) }
    {
        if !self.below.is_free(number) {
            return Err(Taken);
        }
        self.pick = Some(number);
        Ok(())
    }
}
