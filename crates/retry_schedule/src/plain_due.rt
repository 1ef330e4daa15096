// Which entry is due first, by a plain list.
ghost use Rattle.std.specs.Prelude.{◌≡◌, ◌≢◌, ◌<◌, ◌≤◌, ◌↔◌, ◌⊎◌, ℕ, Bool, true, List, [], Option, Contains, IfOk, OnErr, OnOk, length, vec_len, vec_capacity};
ghost use Rattle.std.specs.List.{insert};
ghost use Rattle.retry_schedule.specs.Due.{IsInOrder, HasNoEntry, IsSchedule, IsFirst, HasEntry, IsDueOf, added, removed, is_due, put, moved, first_due};

use crate::order::is_before;
use std::alloc::{AllocError, Global};
use std::marker::Model;

/// What `Due` is, as a list of the entries in order: each call walks it. Tests compare the two.
#[derive(Drop)]
pub struct PlainDue {
    entries: Vec<(u64, u64)>,
}

impl Model for PlainDue {
    ghost use Rattle.std.specs.Prelude.{List, ℕ};
    ghost use Rattle.retry_schedule.specs.Due.{IsSchedule};

    ghost Value = { List (ℕ × ℕ) };

    ghost view = { λ d. d.entries.items };

    ghost invariant = { λ d. IsSchedule d.entries.items };
}

impl PlainDue {
    /// No entry. Takes no memory.
    pub fn new(alloc: Global) -> Self
        ensures { result ≡ [] }
    {
        PlainDue {
            entries: Vec::new(alloc),
        }
    }

    /// Puts an entry in. The condition: n has none. After an `Err`, which means out of memory, it is as before.
    pub fn add(&mut self, due: u64, n: u64) -> Result<(), AllocError>
        requires { HasNoEntry n self.old }
        ensures ok { OnOk result (self.new ≡ added (due, n) self.old) }
        ensures err { OnErr result (self.new ≡ self.old) }
    {
        put(&mut self.entries, (due, n))
    }

    /// The least (due, n) of those that are due at most now; `None` exactly when there is none. Takes no memory.
    pub fn first(&self, now: u64) -> Option<(u64, u64)>
        ensures first { IsFirst now self.now result }
        ensures is { result ≡ first_due now self.now }
        ensures schedule { IsSchedule self.now }
    {
        first_of(&self.entries, now)
    }

    /// What holds of it at any time. Does nothing.
    pub fn is_schedule(&self)
        ensures { IsSchedule self.now }
    {
        let _ = &self.entries;
    }

    /// When n is due; `None` exactly when it has no entry. Takes no memory.
    pub fn due_of(&self, n: u64) -> Option<u64>
        ensures { IsDueOf n self.now result }
    {
        due_in(&self.entries, n)
    }

    /// Gives n another due moment. The condition: n has an entry. After an `Err`, which means out of memory, it is
    /// as before.
    pub fn change(&mut self, n: u64, due: u64) -> Result<(), AllocError>
        requires { HasEntry n self.old }
        ensures ok { OnOk result (self.new ≡ added (due, n) (removed n self.old)) }
        ensures err { OnErr result (self.new ≡ self.old) }
    {
        self.put(due, n)
    }

    /// Gives n a due moment, in place of the one that it has, if it has one. After an `Err`, which means out of memory,
    /// it is as before.
    pub fn put(&mut self, due: u64, n: u64) -> Result<(), AllocError>
        ensures ok { OnOk result (self.new ≡ put (due, n) self.old) }
        ensures err { OnErr result (self.new ≡ self.old) }
    {
        // With this room the entry that was taken out can be put back in.
        self.entries.reserve(1)?;
        take_out(&mut self.entries, n);
        put(&mut self.entries, (due, n))
    }

    /// Whether n has an entry. Takes no memory.
    pub fn is_due(&self, n: u64) -> bool
        ensures { result ≡ is_due n self.now }
    {
        is_due(&self.entries, n)
    }

    /// Gives n another due moment, if it has one; of a number without an entry nothing changes. Takes no memory: the entry
    /// that is taken out leaves its room.
    pub fn reschedule(&mut self, n: u64, due: u64)
        ensures { self.new ≡ moved (due, n) self.old }
    {
        if is_due(&self.entries, n) {
            take_out(&mut self.entries, n);
            put_back(&mut self.entries, (due, n));
        }
    }

    /// Takes the entry of n out, if there is one. Takes no memory.
    pub fn remove(&mut self, n: u64)
        ensures { self.new ≡ removed n self.old }
    {
        take_out(&mut self.entries, n);
    }

    /// The same entries, with memory of their own.
    pub fn copy(&self, alloc: Global) -> Result<Self, AllocError>
        ensures { IfOk result (λ copy. copy ≡ self.now) }
    {
        Ok(PlainDue {
            entries: Vec::from_slice(alloc, &self.entries)?,
        })
    }
}

/// Whether a number has an entry.
fn is_due(entries: &[(u64, u64)], n: u64) -> bool
    ensures { result ≡ is_due n entries.now }
{
    entries.iter().any(|entry| entry.1 == n)
}

/// Takes the entries of n out, and answers how many they were.
fn take_out(entries: &mut Vec<(u64, u64)>, n: u64) -> usize
    requires schedule { IsSchedule entries.old.items }
    ensures items { entries.new.items ≡ removed n entries.old.items }
    ensures schedule { IsSchedule entries.new.items }
    ensures free { HasNoEntry n entries.new.items }
    ensures len { vec_len entries.new ≤ vec_len entries.old }
    ensures less { is_due n entries.old.items ≡ true → vec_len entries.new < vec_len entries.old }
    ensures capacity { vec_capacity entries.new ≡ vec_capacity entries.old }
{
    let all = entries.as_slice().len();
    entries.retain(|entry| entry.1 != n);
    all - entries.as_slice().len()
}

/// Puts an entry in. The conditions: its number has none, and there is room.
fn put_back(entries: &mut Vec<(u64, u64)>, entry: (u64, u64))
    requires schedule { IsSchedule entries.old.items }
    requires free { HasNoEntry entry.1 entries.old.items }
    requires room { vec_len entries.old < vec_capacity entries.old }
    ensures schedule { IsSchedule entries.new.items }
    ensures items { entries.new.items ≡ added entry entries.old.items }
{
    put(entries, entry).unwrap();
}

/// Puts an entry in. The condition: its number has none. It needs memory only when the room is full.
fn put(entries: &mut Vec<(u64, u64)>, entry: (u64, u64)) -> Result<(), AllocError>
    requires schedule { IsSchedule entries.old.items }
    requires free { HasNoEntry entry.1 entries.old.items }
    ensures schedule { IsSchedule entries.new.items }
    ensures ok { OnOk result (entries.new.items ≡ added entry entries.old.items) }
    ensures err { OnErr result (entries.new.items ≡ entries.old.items) }
    ensures full { OnErr result (vec_capacity entries.old ≤ vec_len entries.old) }
{
    let at = place(entries, entry);
    entries.insert(at, entry)?;
    Ok(())
}

/// How many entries are before this one.
fn place(entries: &[(u64, u64)], entry: (u64, u64)) -> usize
    requires order { IsInOrder entries.now }
    requires free { HasNoEntry entry.1 entries.now }
    ensures within { result ≤ length entries.now }
    ensures place { insert entries.now result entry ≡ added entry entries.now }
{
    entries.partition_point(|other| is_before(*other, entry))
}

/// The first entry, if it is due by now.
fn first_of(entries: &[(u64, u64)], now: u64) -> Option<(u64, u64)>
    requires { IsInOrder entries.now }
    ensures first { IsFirst now entries.now result }
    ensures is { result ≡ first_due now entries.now }
{
    let (entry, _) = entries.split_first()?;
    if entry.0 <= now { Some(*entry) } else { None }
}

/// When a number is due; `None` exactly when it has no entry.
fn due_in(entries: &[(u64, u64)], n: u64) -> Option<u64>
    ensures { IsDueOf n entries.now result }
{
    for entry in entries {
        if entry.1 == n {
            return Some(entry.0);
        }
    }
    None
}
