// Which entry is due first.
ghost use Rattle.std.specs.Prelude.{◌≡◌, List, [], IfOk, OnErr, OnOk};
ghost use Rattle.retry_schedule.specs.Due.{HasNoEntry, IsSchedule, IsFirst, HasEntry, IsDueOf, added, removed, is_due, put, moved, first_due};

use crate::index;
use crate::index::{Index, Moments};
use std::alloc::{AllocError, Global};
use std::collections::{BTreeMap, BTreeSet};
use std::marker::Model;

/// Which message numbers are due, and when: an entry is (due, n). A number has at most one. Contracts see the list of
/// the entries in order, the one that is due first at its head; of equals it's the one with the least number.
///
/// A map has the due moment of each number, and an index has the entries in order. `reschedule` takes no memory that it
/// couldn't do without: where there is none for the index, the map alone tells the entries, `first` walks over it, and
/// the next call that may take memory makes the index anew.
#[derive(Drop)]
pub struct Due {
    /// When each number is due.
    moments: Moments,
    /// The entries in order, if it tells them.
    index: Index,
    /// Whether the index tells the entries.
    indexed: bool,
}

impl Model for Due {
    ghost use Rattle.std.specs.Prelude.{List, ℕ};
    ghost use Rattle.retry_schedule.specs.Index.{IsKept, listed};

    ghost Value = { List (ℕ × ℕ) };

    ghost view = { λ d. listed d.moments.entries };

    ghost invariant = { λ d. IsKept d.moments d.index d.indexed };
}

impl Due {
    /// No entry. Takes no memory.
    pub fn new(alloc: Global) -> Self
        ensures { result ≡ [] }
    {
        Due {
            moments: BTreeMap::new(alloc),
            index: BTreeSet::new(alloc),
            indexed: true,
        }
    }

    /// Puts an entry in. The condition: n has none. After an `Err`, which means out of memory, it is as before.
    pub fn add(&mut self, due: u64, n: u64) -> Result<(), AllocError>
        requires { HasNoEntry n self.old }
        ensures ok { OnOk result (self.new ≡ added (due, n) self.old) }
        ensures err { OnErr result (self.new ≡ self.old) }
    {
        self.put(due, n)
    }

    /// The least (due, n) of those that are due at most now; `None` exactly when there is none. Takes no memory.
    pub fn first(&self, now: u64) -> Option<(u64, u64)>
        ensures first { IsFirst now self.now result }
        ensures is { result ≡ first_due now self.now }
        ensures schedule { IsSchedule self.now }
    {
        index::first(&self.moments, &self.index, self.indexed, now)
    }

    /// What holds of it at any time. Does nothing.
    pub fn is_schedule(&self)
        ensures { IsSchedule self.now }
    {
        let _ = &self.moments;
    }

    /// When n is due; `None` exactly when it has no entry. Takes no memory.
    pub fn due_of(&self, n: u64) -> Option<u64>
        ensures { IsDueOf n self.now result }
    {
        index::due_of(&self.moments, n)
    }

    /// Gives n another due moment. The condition: n has an entry. After an `Err`, which means out of memory, it is
    /// as before.
    pub fn change(&mut self, n: u64, due: u64) -> Result<(), AllocError>
        requires { HasEntry n self.old }
        ensures ok { OnOk result (self.new ≡ added (due, n) (removed n self.old)) }
        ensures err { OnErr result (self.new ≡ self.old) }
    {
        self.put(due, n)
    }

    /// Gives n a due moment, in place of the one that it has, if it has one. After an `Err`, which means out of memory,
    /// it is as before.
    pub fn put(&mut self, due: u64, n: u64) -> Result<(), AllocError>
        ensures ok { OnOk result (self.new ≡ put (due, n) self.old) }
        ensures err { OnErr result (self.new ≡ self.old) }
    {
        index::reindex(&self.moments, &mut self.index, &mut self.indexed)?;
        index::put(&mut self.moments, &mut self.index, due, n)
    }

    /// Whether n has an entry. Takes no memory.
    pub fn is_due(&self, n: u64) -> bool
        ensures { result ≡ is_due n self.now }
    {
        index::due_of(&self.moments, n).is_some()
    }

    /// Gives n another due moment, if it has one; of a number without an entry nothing changes. Takes no memory: where
    /// there is none for the index, the map alone tells the entries from then on.
    pub fn reschedule(&mut self, n: u64, due: u64)
        ensures { self.new ≡ moved (due, n) self.old }
    {
        index::reschedule(
            &mut self.moments,
            &mut self.index,
            &mut self.indexed,
            due,
            n,
        );
    }

    /// Takes the entry of n out, if there is one. Takes no memory.
    pub fn remove(&mut self, n: u64)
        ensures { self.new ≡ removed n self.old }
    {
        index::take_out(&mut self.moments, &mut self.index, n);
    }

    /// The same entries, with memory of their own. Their index is made when an entry is put in.
    pub fn copy(&self, alloc: Global) -> Result<Self, AllocError>
        ensures { IfOk result (λ copy. copy ≡ self.now) }
    {
        Ok(Due {
            moments: self.moments.clone()?,
            index: BTreeSet::new(alloc),
            indexed: false,
        })
    }
}
