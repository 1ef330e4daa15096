// The slots of a channel.
ghost use Rattle.std.specs.Prelude.{◌≡◌, ◌<◌, ◌≤◌, Option, None, length, min, replicate, set, count_by, is_some, IfOk, IfSome, IfNone, OnSome};
ghost use Rattle.std.specs.List.{list_any};
ghost use Rattle.std.specs.Option.{option_copied};
ghost use Rattle.send_jobs.specs.Slots.{attempt_in, lowest, is_on};

use crate::attempts::Attempt;
use mail_bytes::Memory;
use queue_limits::MAX_SLOTS;
use std::alloc::Global;
use std::marker::Model;

/// The slots of a channel; contracts see the list of what each has in flight.
#[derive(Drop)]
pub struct SlotTable {
    slots: Vec<Option<Attempt>>,
}

impl Model for SlotTable {
    ghost use Rattle.std.specs.Prelude.{List, Option, ◌≤◌, length};
    ghost use Rattle.send_jobs.specs.declared.attempts.Attempt.{Attempt};
    ghost use Rattle.queue_limits.specs.declared.counts.TheConstants.{MAX_SLOTS};

    ghost Value = { List (Option Attempt) };

    ghost view = { λ t. t.slots.items };

    ghost invariant = { λ t. length t.slots.items ≤ MAX_SLOTS };
}

impl SlotTable {
    /// So many free slots, and no more than `MAX_SLOTS`. The error: out of memory.
    pub fn free(alloc: Global, count: u8) -> Result<Self, Memory>
        ensures { IfOk result (λ table. table ≡ replicate (min count MAX_SLOTS) None) }
    {
        let mut slots = Vec::new(alloc);
        for _ in 0..count.min(MAX_SLOTS) {
            slots.push(None)?;
        }
        Ok(SlotTable { slots })
    }

    /// How many slots there are.
    pub fn len(&self) -> u8
        ensures is { result ≡ length self.now }
        ensures small { result ≤ MAX_SLOTS }
    {
        self.slots.len() as u8
    }

    /// How many of them have an attempt in flight.
    pub fn in_flight(&self) -> u8
        ensures { result ≡ count_by is_some self.now }
    {
        self.slots.iter().filter(|slot| slot.is_some()).count() as u8
    }

    /// The lowest free slot.
    pub fn lowest(&self) -> Option<u8>
        ensures lowest { result ≡ lowest self.now }
        ensures inside { IfSome result (λ slot. slot < length self.now) }
    {
        let place = self.free_place()?;
        Some(place as u8)
    }

    /// The same, as a place.
    fn free_place(&self) -> Option<usize>
        ensures lowest { result ≡ lowest self.now }
        ensures inside { IfSome result (λ slot. slot < length self.now) }
        ensures small { IfSome result (λ slot. slot < MAX_SLOTS) }
    {
        self.slots.iter().position(|slot| slot.is_none())
    }

    /// What is in flight in this slot.
    pub fn get(&self, slot: u8) -> Option<&Attempt>
        ensures { option_copied result ≡ attempt_in self.now slot }
    {
        match self.slots.get(usize::from(slot)) {
            None => None,
            Some(cell) => cell.as_ref(),
        }
    }

    /// Whether an attempt at this message is in flight.
    pub fn hold(&self, n: u64) -> bool
        ensures { result ≡ list_any (is_on n) self.now }
    {
        self.slots.iter().any(|slot| is_on(n, slot))
    }

    /// An attempt goes out in this slot. The condition: there is such a slot.
    pub fn put(&mut self, slot: u8, attempt: Attempt)
        requires { slot < length self.old }
        ensures { self.new ≡ set self.old slot (Some attempt) }
    {
        self.slots[usize::from(slot)] = Some(attempt);
    }

    /// Takes out what is in flight in this slot.
    pub fn take(&mut self, slot: u8) -> Option<Attempt>
        ensures attempt { result ≡ attempt_in self.old slot }
        ensures free { OnSome result (self.new ≡ set self.old slot None) }
        ensures none { IfNone result (self.new ≡ self.old) }
        ensures small { length self.old ≤ MAX_SLOTS }
    {
        let place = usize::from(slot);
        if place < self.slots.len() {
            self.slots[place].take()
        } else {
            None
        }
    }
}

/// Whether an attempt at this message is in flight in a slot.
fn is_on(n: u64, slot: &Option<Attempt>) -> bool
    ensures { result ≡ is_on n slot.now }
{
    match slot {
        None => false,
        Some(attempt) => attempt.n == n,
    }
}
