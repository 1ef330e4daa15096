// One channel of the sender.

use crate::attempts::{Attempt, Mark};
use crate::jobs::{Job, Jobs};
use crate::left::Left;
use crate::marks::Marks;
use crate::slot_table::SlotTable;
use envelope_records::Record;
use mail_bytes::Memory;
use std::alloc::Global;

/// What the sender keeps of a channel.
#[derive(Drop)]
pub struct Lane {
    /// What the open pass has still to give.
    pub left: Left,
    /// What is in flight.
    pub slots: SlotTable,
    /// Which marks are to be made.
    pub marks: Marks,
    /// The jobs.
    pub jobs: Jobs,
}

impl Lane {
    ghost use Rattle.std.specs.Prelude.{◌≡◌, IsSome, IfOk, OnOk, OnErr};
    ghost use Rattle.send_jobs.specs.Lanes.{empty, next, begun_by, sent, finished, job_over};
    ghost use Rattle.send_jobs.specs.Slots.{lowest, is_on};

    /// Nothing, with so many slots. The error: out of memory.
    pub fn new(alloc: Global, limit: u8) -> Result<Self, Memory>
        ensures { IfOk result (λ lane. lane ≡ empty limit) }
    {
        Ok(Lane {
            left: Left::new(alloc),
            slots: SlotTable::free(alloc, limit)?,
            marks: Marks::new(alloc)?,
            jobs: Jobs::new(alloc),
        })
    }

    /// A pass begins. After an `Err` all is as before.
    pub fn begin(
        &mut self,
        alloc: Global,
        n: u64,
        records: &[Record],
        begun: u64,
        dying: bool,
    ) -> Result<(), Memory>
        ensures ok { OnOk result (self.new ≡ begun_by n records.now begun dying self.old) }
        ensures err { OnErr result (self.new ≡ self.old) }
    {
        let left = Left::of(alloc, n, records, dying)?;
        let unmarked = false;
        self.jobs.put(Job { n, begun, unmarked })?;
        self.left = left;
        Ok(())
    }

    /// The next attempt goes out in the lowest free slot, as this delivery. The condition: there is a next one.
    pub fn send(&mut self, delivery: u64) -> Option<u8>
        requires { IsSome (next self.old) }
        ensures slot { result ≡ lowest self.old.slots }
        ensures sent { self.new ≡ sent delivery self.old }
    {
        let slot = self.slots.lowest()?;
        let mut attempt = self.left.take_first()?;
        attempt.delivery = delivery;
        self.slots.put(slot, attempt);
        Some(slot)
    }

    /// Whether each place of the message's pass was reported.
    pub fn is_finished(&self, n: u64) -> bool
        ensures { result ≡ finished n self.now }
    {
        !self.is_open_on(n) && !self.slots.hold(n)
    }

    /// Whether the open pass is this message's.
    fn is_open_on(&self, n: u64) -> bool
        ensures { result ≡ is_on n (next self.now) }
    {
        match self.left.get(0) {
            None => false,
            Some(attempt) => attempt.n == n,
        }
    }

    /// The job on this message, if it is over.
    pub fn job_over(&self, n: u64) -> Option<Job>
        ensures { result ≡ job_over n self.now }
    {
        if self.is_finished(n) && !self.marks.hold(n) {
            self.jobs.of(n)
        } else {
            None
        }
    }
}
