// A disk that fails from some call on.
ghost use Rattle.std.specs.Prelude.{◌≡◌, ◌↔◌, ◌-◌, None, length, IsErr, IsOkUnless, is_err, if◌then◌else◌};
ghost use Rattle.call_fs.specs.declared.calls.CallData.TheVariants as call;
ghost use Rattle.call_fs.specs.Disk.{MayUse, MayAppend, MayWrite, MayCut};
ghost use Rattle.mail_bytes.specs.Moments.{IsMoment};
ghost use Rattle.call_fs.specs.Calls.{created, opened, counted, done, stated, next_found, told_with, without_bytes};
ghost use Rattle.mail_bytes.specs.Told.{OnTold, raised};
ghost use Rattle.crash_fs.specs.Stopped.{Stopped, stopped_faults, PassesOrFails, StoppedWent};

use call_fs::{CallFs, Fd, FsError, How, Stat};
use mail_bytes::NameBuf;
use std::alloc::Global;
use std::marker::Model;

/// A disk that passes its first calls on to another one, and answers `Fault` to all later ones, as when a disk is
/// unplugged. `close` isn't counted, and is passed on always. A call that fails so changes nothing.
#[derive(Drop)]
pub struct Stopper<D> {
    below: D,
    left: u64,
    refused: u64,
}

impl<D> Model for Stopper<D> {
    ghost use Rattle.crash_fs.specs.Stopped.{Stopped};

    ghost Value = { Stopped D };

    ghost view = { λ s. record { below = s.below; left = s.left; refused = s.refused } };
}

impl<D: CallFs> Stopper<D> {
    /// Passes so many calls on to this disk.
    pub fn new(below: D, calls: u64) -> Self
        ensures { result ≡ record { below = below; left = calls; refused = 0 } }
    {
        Stopper {
            below,
            left: calls,
            refused: 0,
        }
    }

    /// The disk below.
    pub fn disk(&self) -> &D
        ensures { result.now ≡ self.now.below }
    {
        &self.below
    }

    /// Counts a call; `Fault` exactly if none is passed on any more.
    fn begin(&mut self) -> Result<(), FsError>
        ensures stopped { IsErr result ↔ (self.old.left ≡ 0) }
        ensures fault { IsOkUnless result FsError.Fault }
        ensures is { self.new ≡ record {
          below = self.old.below;
          left = self.old.left - 1;
          refused = if is_err result then raised self.old.refused else self.old.refused;
        } }
    {
        if self.left == 0 {
            self.refused = self.refused.saturating_add(1);
            return Err(FsError::Fault);
        }
        self.left -= 1;
        Ok(())
    }
}

impl<D: CallFs> CallFs for Stopper<D> {
    ghost disk = { λ s. D.disk s.below };

    ghost calls = { λ _. None };

    ghost faults = { λ s. stopped_faults D.faults s };

    // it fails without being asked to

    ghost plan = { λ _. None };

    fn faults(&self) -> u64 {
        self.below.faults().saturating_add(self.refused)
    }

    fn create_excl(&mut self, alloc: Global, now: u64, name: &[u8]) -> Result<(Fd, u64), FsError>
        requires { IsMoment now }
        ensures went { StoppedWent D.disk D.faults self.old self.new now (call.CreateExcl name.now)
            (without_bytes (created result)) }
        ensures passes { PassesOrFails D.calls D.faults self.old self.new (call.CreateExcl name.now)
            (without_bytes (created result)) }
    {
        self.begin()?;
        self.below.create_excl(alloc, now, name)
    }

    fn open(&mut self, alloc: Global, name: &[u8], how: How) -> Result<Fd, FsError>
        ensures went { StoppedWent D.disk D.faults self.old self.new 0 (call.Open name.now how)
            (without_bytes (opened result)) }
        ensures passes { PassesOrFails D.calls D.faults self.old self.new (call.Open name.now how)
            (without_bytes (opened result)) }
    {
        self.begin()?;
        self.below.open(alloc, name, how)
    }

    fn read_at(&mut self, fd: Fd, at: u64, into: &mut [u8]) -> Result<u64, FsError>
        requires { OnTold (D.disk self.old.below) (λ before. MayUse before fd.0) }
        ensures went { StoppedWent D.disk D.faults self.old self.new 0 (call.ReadAt fd at (length into.old))
            (told_with (counted result) into.new) }
        ensures passes { PassesOrFails D.calls D.faults self.old self.new (call.ReadAt fd at (length into.old))
            (told_with (counted result) into.new) }
    {
        self.begin()?;
        self.below.read_at(fd, at, into)
    }

    fn write_at(
        &mut self,
        alloc: Global,
        now: u64,
        fd: Fd,
        at: u64,
        bytes: &[u8],
    ) -> Result<(), FsError>
        requires moment { IsMoment now }
        requires fits { OnTold (D.disk self.old.below) (λ before. MayWrite before fd.0) }
        ensures went { StoppedWent D.disk D.faults self.old self.new now (call.WriteAt fd at bytes.now)
            (without_bytes (done result)) }
        ensures passes { PassesOrFails D.calls D.faults self.old self.new (call.WriteAt fd at bytes.now)
            (without_bytes (done result)) }
    {
        self.begin()?;
        self.below.write_at(alloc, now, fd, at, bytes)
    }

    fn append(&mut self, alloc: Global, now: u64, fd: Fd, bytes: &[u8]) -> Result<(), FsError>
        requires moment { IsMoment now }
        requires fits { OnTold (D.disk self.old.below) (λ before. MayAppend before fd.0) }
        ensures went { StoppedWent D.disk D.faults self.old self.new now (call.Append fd bytes.now)
            (without_bytes (done result)) }
        ensures passes { PassesOrFails D.calls D.faults self.old self.new (call.Append fd bytes.now)
            (without_bytes (done result)) }
    {
        self.begin()?;
        self.below.append(alloc, now, fd, bytes)
    }

    fn truncate(&mut self, fd: Fd, len: u64) -> Result<(), FsError>
        requires { OnTold (D.disk self.old.below) (λ before. MayCut before fd.0) }
        ensures went { StoppedWent D.disk D.faults self.old self.new 0 (call.Truncate fd len)
            (without_bytes (done result)) }
        ensures passes { PassesOrFails D.calls D.faults self.old self.new (call.Truncate fd len)
            (without_bytes (done result)) }
    {
        self.begin()?;
        self.below.truncate(fd, len)
    }

    fn sync(&mut self, fd: Fd) -> Result<(), FsError>
        requires { OnTold (D.disk self.old.below) (λ before. MayUse before fd.0) }
        ensures went { StoppedWent D.disk D.faults self.old self.new 0 (call.Sync fd)
            (without_bytes (done result)) }
        ensures passes { PassesOrFails D.calls D.faults self.old self.new (call.Sync fd)
            (without_bytes (done result)) }
    {
        self.begin()?;
        self.below.sync(fd)
    }

    /// As the trait says. It isn't counted, and is passed on always.
    fn close(&mut self, fd: Fd) -> Result<(), FsError>
        requires { OnTold (D.disk self.old.below) (λ before. MayUse before fd.0) }
        ensures went { StoppedWent D.disk D.faults self.old self.new 0 (call.Close fd)
            (without_bytes (done result)) }
        ensures passes { PassesOrFails D.calls D.faults self.old self.new (call.Close fd)
            (without_bytes (done result)) }
    {
        self.below.close(fd)
    }

    fn link(&mut self, alloc: Global, old: &[u8], new: &[u8]) -> Result<(), FsError>
        ensures went { StoppedWent D.disk D.faults self.old self.new 0 (call.Link old.now new.now)
            (without_bytes (done result)) }
        ensures passes { PassesOrFails D.calls D.faults self.old self.new (call.Link old.now new.now)
            (without_bytes (done result)) }
    {
        self.begin()?;
        self.below.link(alloc, old, new)
    }

    fn unlink(&mut self, name: &[u8]) -> Result<(), FsError>
        ensures went { StoppedWent D.disk D.faults self.old self.new 0 (call.Unlink name.now)
            (without_bytes (done result)) }
        ensures passes { PassesOrFails D.calls D.faults self.old self.new (call.Unlink name.now)
            (without_bytes (done result)) }
    {
        self.begin()?;
        self.below.unlink(name)
    }

    fn stat(&mut self, name: &[u8]) -> Result<Stat, FsError>
        ensures went { StoppedWent D.disk D.faults self.old self.new 0 (call.Stat name.now)
            (without_bytes (stated result)) }
        ensures passes { PassesOrFails D.calls D.faults self.old self.new (call.Stat name.now)
            (without_bytes (stated result)) }
    {
        self.begin()?;
        self.below.stat(name)
    }

    fn next_name(&mut self, dir: &[u8], after: &[u8], into: &mut NameBuf) -> Result<bool, FsError>
        ensures went { StoppedWent D.disk D.faults self.old self.new 0 (call.NextName dir.now after.now)
            (without_bytes (next_found result into.new)) }
        ensures passes { PassesOrFails D.calls D.faults self.old self.new (call.NextName dir.now after.now)
            (without_bytes (next_found result into.new)) }
    {
        self.begin()?;
        self.below.next_name(dir, after, into)
    }
}
