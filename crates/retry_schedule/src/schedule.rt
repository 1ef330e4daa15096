// What a schedule does, for each of its forms.
ghost use Rattle.std.specs.Prelude.{◌≡◌, ℕ, List, [], IfOk, OnErr, OnOk};
ghost use Rattle.retry_schedule.specs.Due.{HasNoEntry, IsSchedule, IsFirst, HasEntry, IsDueOf, added, removed, is_due, put, moved, first_due};

use crate::due::Due;
use crate::plain_due::PlainDue;
use std::alloc::{AllocError, Global};

/// Which message numbers are due, and when. `Due` is one, and so is `PlainDue`, which is a plain list: both do what this
/// says of the list of their entries in order, and nothing tells them apart but the time that they take.
pub trait Schedule: Drop {
    /// The entries in order.
    ghost entries: { Self → List (ℕ × ℕ) };

    /// No entry. Takes no memory.
    fn new(alloc: Global) -> Self
        ensures { entries result ≡ [] };

    /// Puts an entry in. The condition: n has none. After an `Err`, which means out of memory, it is as before.
    fn add(&mut self, due: u64, n: u64) -> Result<(), AllocError>
        requires { HasNoEntry n (entries self.old) }
        ensures ok { OnOk result (entries self.new ≡ added (due, n) (entries self.old)) }
        ensures err { OnErr result (entries self.new ≡ entries self.old) };

    /// The least (due, n) of those that are due at most now; `None` exactly when there is none. Takes no memory.
    fn first(&self, now: u64) -> Option<(u64, u64)>
        ensures first { IsFirst now (entries self.now) result }
        ensures is { result ≡ first_due now (entries self.now) }
        ensures schedule { IsSchedule (entries self.now) };

    /// When n is due; `None` exactly when it has no entry. Takes no memory.
    fn due_of(&self, n: u64) -> Option<u64>
        ensures { IsDueOf n (entries self.now) result };

    /// Gives n another due moment. The condition: n has an entry. After an `Err`, which means out of memory, it is
    /// as before.
    fn change(&mut self, n: u64, due: u64) -> Result<(), AllocError>
        requires { HasEntry n (entries self.old) }
        ensures ok { OnOk result (entries self.new ≡ added (due, n) (removed n (entries self.old))) }
        ensures err { OnErr result (entries self.new ≡ entries self.old) };

    /// Gives n a due moment, in place of the one that it has, if it has one. After an `Err`, which means out of memory,
    /// it is as before.
    fn put(&mut self, due: u64, n: u64) -> Result<(), AllocError>
        ensures ok { OnOk result (entries self.new ≡ put (due, n) (entries self.old)) }
        ensures err { OnErr result (entries self.new ≡ entries self.old) };

    /// Whether n has an entry. Takes no memory.
    fn is_due(&self, n: u64) -> bool
        ensures { result ≡ is_due n (entries self.now) };

    /// Gives n another due moment, if it has one; of a number without an entry nothing changes. Takes no memory.
    fn reschedule(&mut self, n: u64, due: u64)
        ensures { entries self.new ≡ moved (due, n) (entries self.old) };

    /// Takes the entry of n out, if there is one. Takes no memory.
    fn remove(&mut self, n: u64)
        ensures { entries self.new ≡ removed n (entries self.old) };

    /// The same entries, with memory of their own.
    fn copy(&self, alloc: Global) -> Result<Self, AllocError>
        ensures { IfOk result (λ copy. entries copy ≡ entries self.now) };
}

impl Schedule for Due {
    ghost entries = { λ d. d };

    fn new(alloc: Global) -> Self {
        Due::new(alloc)
    }

    fn add(&mut self, due: u64, n: u64) -> Result<(), AllocError> {
        Due::add(self, due, n)
    }

    fn first(&self, now: u64) -> Option<(u64, u64)> {
        Due::first(self, now)
    }

    fn due_of(&self, n: u64) -> Option<u64> {
        Due::due_of(self, n)
    }

    fn change(&mut self, n: u64, due: u64) -> Result<(), AllocError> {
        Due::change(self, n, due)
    }

    fn put(&mut self, due: u64, n: u64) -> Result<(), AllocError> {
        Due::put(self, due, n)
    }

    fn is_due(&self, n: u64) -> bool {
        Due::is_due(self, n)
    }

    fn reschedule(&mut self, n: u64, due: u64) {
        Due::reschedule(self, n, due);
    }

    fn remove(&mut self, n: u64) {
        Due::remove(self, n);
    }

    fn copy(&self, alloc: Global) -> Result<Self, AllocError> {
        Due::copy(self, alloc)
    }
}

impl Schedule for PlainDue {
    ghost entries = { λ d. d };

    fn new(alloc: Global) -> Self {
        PlainDue::new(alloc)
    }

    fn add(&mut self, due: u64, n: u64) -> Result<(), AllocError> {
        PlainDue::add(self, due, n)
    }

    fn first(&self, now: u64) -> Option<(u64, u64)> {
        PlainDue::first(self, now)
    }

    fn due_of(&self, n: u64) -> Option<u64> {
        PlainDue::due_of(self, n)
    }

    fn change(&mut self, n: u64, due: u64) -> Result<(), AllocError> {
        PlainDue::change(self, n, due)
    }

    fn put(&mut self, due: u64, n: u64) -> Result<(), AllocError> {
        PlainDue::put(self, due, n)
    }

    fn is_due(&self, n: u64) -> bool {
        PlainDue::is_due(self, n)
    }

    fn reschedule(&mut self, n: u64, due: u64) {
        PlainDue::reschedule(self, n, due);
    }

    fn remove(&mut self, n: u64) {
        PlainDue::remove(self, n);
    }

    fn copy(&self, alloc: Global) -> Result<Self, AllocError> {
        PlainDue::copy(self, alloc)
    }
}
