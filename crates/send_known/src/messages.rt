// What is known, and when it is due.
ghost use Rattle.std.specs.Prelude.{◌≡◌, ℕ, List, IfOk, OnOk, OnErr};
ghost use Rattle.retry_schedule.specs.Due.{IsSchedule, IsDueOf};
ghost use Rattle.send_known.specs.Messages.{dropped_if, entered_if};

use crate::known::{Known, KnownList};
use mail_bytes::Memory;
use retry_schedule::Due;
use std::alloc::{AllocError, Global};

/// The known messages, and when each is due on each channel. While a pass over a channel file goes on, its message is due
/// there at a moment that never comes (`NEVER`).
#[derive(Drop)]
pub struct Messages {
    /// The known messages.
    pub known: KnownList,
    /// When each is due on the local channel.
    pub local: Due,
    /// When each is due on the remote channel.
    pub remote: Due,
}

/// A moment that never comes: no clock tells it.
pub const NEVER: u64 = 18_446_744_073_709_551_615;

impl Messages {
    ghost use Rattle.std.specs.Prelude.{◌≡◌, OnOk, OnErr};
    ghost use Rattle.send_known.specs.Messages.{none_known, learned, local_gone, remote_gone, forgotten};

    /// None. Takes no memory.
    pub fn new(alloc: Global) -> Self
        ensures { result ≡ none_known }
    {
        Messages {
            known: KnownList::new(alloc),
            local: Due::new(alloc),
            remote: Due::new(alloc),
        }
    }

    /// A message is known from now on, and is due then on each channel of which it has a file. After an `Err` all is as
    /// before: what was put in is taken out again.
    pub fn learn(&mut self, _alloc: Global, known: Known, due: u64) -> Result<(), Memory>
        ensures ok { OnOk result (self.new ≡ learned known due self.old) }
        ensures err { OnErr result (self.new ≡ self.old) }
    {
        let n = known.n;
        let (on_local, on_remote) = (known.local, known.remote);
        let was_local = enter(&mut self.local, on_local, due, n)?;
        let was_remote = match enter(&mut self.remote, on_remote, due, n) {
            Ok(was) => was,
            Err(_) => {
                undo(&mut self.local, on_local, was_local, n);
                return Err(AllocError);
            }
        };
        if self.known.learn(known).is_err() {
            undo(&mut self.remote, on_remote, was_remote, n);
            undo(&mut self.local, on_local, was_local, n);
            return Err(AllocError);
        }
        drop_if(&mut self.local, !on_local, n);
        drop_if(&mut self.remote, !on_remote, n);
        Ok(())
    }

    /// The message's file of the local channel is gone. Takes no memory.
    pub fn local_gone(&mut self, n: u64)
        ensures { self.new ≡ local_gone n self.old }
    {
        self.known.local_gone(n);
        self.local.remove(n);
    }

    /// The message's file of the remote channel is gone. Takes no memory.
    pub fn remote_gone(&mut self, n: u64)
        ensures { self.new ≡ remote_gone n self.old }
    {
        self.known.remote_gone(n);
        self.remote.remove(n);
    }

    /// The message isn't known any more. Takes no memory.
    pub fn forget(&mut self, n: u64)
        ensures { self.new ≡ forgotten n self.old }
    {
        self.known.forget(n);
        self.local.remove(n);
        self.remote.remove(n);
    }
}

/// The number is due then, if it has a file there; when it was due before. After an `Err` all is as before.
fn enter(schedule: &mut Due, has_file: bool, due: u64, n: u64) -> Result<Option<u64>, Memory>
    ensures schedule { IsSchedule schedule.old }
    ensures was { IfOk result (IsDueOf n schedule.old) }
    ensures ok { OnOk result (schedule.new ≡ entered_if has_file (due, n) schedule.old) }
    ensures err { OnErr result (schedule.new ≡ schedule.old) }
{
    schedule.is_schedule();
    let was = schedule.due_of(n);
    if has_file {
        schedule.put(due, n)?;
    }
    Ok(was)
}

/// What `enter` has put in is as it was before. Takes no memory.
fn undo(schedule: &mut Due, has_file: bool, was: Option<u64>, n: u64)
    ensures { (due : ℕ) (before : List (ℕ × ℕ)) → IsSchedule before → IsDueOf n before was
        → schedule.old ≡ entered_if has_file (due, n) before → schedule.new ≡ before }
{
    if has_file {
        match was {
            Some(due) => schedule.reschedule(n, due),
            None => schedule.remove(n),
        }
    }
}

/// The number isn't due any more, if that is so. Takes no memory.
fn drop_if(schedule: &mut Due, is_gone: bool, n: u64)
    ensures { schedule.new ≡ dropped_if is_gone n schedule.old }
{
    if is_gone {
        schedule.remove(n);
    }
}
