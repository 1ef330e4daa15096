// The slots, passes, marks and jobs of both channels.

use crate::attempts::{Attempt, Mark};
use crate::jobs::Job;
use crate::lane::Lane;
use crate::marks::Marks;
use envelope_records::Record;
use mail_bytes::Memory;
use queue_limits::MAX_SLOTS;
use send_known::Channel;
use std::alloc::Global;
use thiserror::Error;

/// No attempt is in flight in this slot.
#[derive(Clone, Copy, Debug, PartialEq, Eq, Error)]
#[error("nothing is in flight in slot {0}")]
pub struct OutOfRange(pub u8);

/// What the sender has out on both channels: its attempts in flight, what the open pass of each has still to give, the
/// marks that are to be made, and the jobs. Only `new` and `begin_pass` take memory.
#[derive(Drop)]
pub struct Slots {
    local: Lane,
    remote: Lane,
    given: u64,
}

impl Slots {
    ghost use Rattle.std.specs.Prelude.{◌≡◌, ◌<◌, ◌≤◌, None, Some, false, length, slice_get, slice_index, IsSome, OnSome, IfNone, IfOk, IfErr, OnOk, OnErr};
    ghost use Rattle.std.specs.Option.{option_map, option_copied};
    ghost use Rattle.send_jobs.specs.declared.attempts.Attempt.{Attempt};
    ghost use Rattle.send_jobs.specs.declared.slots.Slots.{Slots};
    ghost use Rattle.send_jobs.specs.Slots.{attempt_in, lowest, IsLeastFree};
    ghost use Rattle.send_jobs.specs.Jobs.{job_of};
    ghost use Rattle.send_jobs.specs.Lanes.{begun_by, next, sent, reported, in_flight, is_in_flight, finished, is_free_for, owes, mark_settled, left_unmarked, job_over, ended, IsRoomy};
    ghost use Rattle.send_jobs.specs.Sending.{lane, at_lane, none_out, next_delivery, sent_on};

    /// Nothing is out. `limits` says how many local and how many remote slots there are; more than `MAX_SLOTS` count as
    /// `MAX_SLOTS`. The error: out of memory.
    pub fn new(alloc: Global, limits: [u8; 2]) -> Result<Self, Memory>
        ensures { IfOk result (λ slots. slots ≡ none_out (slice_index limits 0) (slice_index limits 1)) }
    {
        Ok(Slots {
            local: Lane::new(alloc, limits[0])?,
            remote: Lane::new(alloc, limits[1])?,
            given: 0,
        })
    }

    /// One channel.
    fn lane(&self, channel: Channel) -> &Lane
        ensures { result.now ≡ lane channel self.now }
    {
        match channel {
            Channel::Local => &self.local,
            Channel::Remote => &self.remote,
        }
    }

    /// How many slots a channel has.
    pub fn limit(&self, channel: Channel) -> u8
        ensures { result ≡ length (lane channel self.now).slots }
    {
        self.lane(channel).slots.len()
    }

    /// How many attempts are in flight on a channel.
    pub fn in_flight(&self, channel: Channel) -> u8
        ensures { result ≡ in_flight (lane channel self.now) }
    {
        self.lane(channel).slots.in_flight()
    }

    /// The number of the next delivery, from 1. It stays at u64's last value.
    pub fn next_delivery(&self) -> u64
        ensures { result ≡ next_delivery self.now }
    {
        self.given.saturating_add(1)
    }

    /// A pass over these records of message n begins: an attempt is to be made at each record that reads `T`, in order.
    /// `begun` is the moment of its begin, and `dying` says whether the message is too old to be tried again. The
    /// conditions: `next_place` is `None`, and no slot of this channel in flight holds n. After an `Err` all is as before.
    pub fn begin_pass(
        &mut self,
        alloc: Global,
        channel: Channel,
        n: u64,
        records: &[Record],
        begun: u64,
        dying: bool,
    ) -> Result<(), Memory>
        requires over { next (lane channel self.old) ≡ None }
        requires free { is_in_flight n (lane channel self.old) ≡ false }
        ensures ok { OnOk result (self.new ≡ at_lane channel (begun_by n records.now begun dying) self.old) }
        ensures err { OnErr result (self.new ≡ self.old) }
    {
        match channel {
            Channel::Local => self.local.begin(alloc, n, records, begun, dying),
            Channel::Remote => self.remote.begin(alloc, n, records, begun, dying),
        }
    }

    /// The place of the next attempt of the open pass; `None` exactly when no place of it that reads `T` is left.
    pub fn next_place(&self, channel: Channel) -> Option<u64>
        ensures { result ≡ option_map (λ (a : Attempt). a.place) (next (lane channel self.now)) }
    {
        match self.upcoming(channel, 0) {
            None => None,
            Some(attempt) => Some(attempt.place),
        }
    }

    /// The attempt that comes so many after the next one in the open pass.
    pub fn upcoming(&self, channel: Channel, ahead: usize) -> Option<&Attempt>
        ensures { option_copied result ≡ slice_get (lane channel self.now).left ahead }
    {
        self.lane(channel).left.get(ahead)
    }

    /// The lowest free slot, into which `take_lowest` would put an attempt; `None` exactly when all are in flight.
    pub fn lowest_free(&self, channel: Channel) -> Option<u8>
        ensures { result ≡ lowest (lane channel self.now).slots }
    {
        self.lane(channel).slots.lowest()
    }

    /// The attempt in flight in this slot; `None` exactly when there is none.
    pub fn attempt(&self, channel: Channel, slot: u8) -> Option<&Attempt>
        ensures { option_copied result ≡ attempt_in (lane channel self.now).slots slot }
    {
        self.lane(channel).slots.get(slot)
    }

    /// Puts the next attempt of the open pass into the lowest free slot, and gives that slot; `None` exactly when all are in
    /// flight, and then all is as before. The condition: there is a next place. Takes no memory.
    pub fn take_lowest(&mut self, channel: Channel) -> Option<u8>
        requires { IsSome (next (lane channel self.old)) }
        ensures slot { result ≡ lowest (lane channel self.old).slots }
        ensures least { IsLeastFree (lane channel self.old).slots result }
        ensures sent { self.new ≡ sent_on channel self.old }
    {
        let delivery = self.next_delivery();
        let slot = self.send(channel, delivery)?;
        self.given = delivery;
        Some(slot)
    }

    /// The same, without counting it.
    fn send(&mut self, channel: Channel, delivery: u64) -> Option<u8>
        requires { IsSome (next (lane channel self.old)) }
        ensures slot { result ≡ lowest (lane channel self.old).slots }
        ensures sent { self.new ≡ at_lane channel (sent delivery) self.old }
    {
        match channel {
            Channel::Local => self.local.send(delivery),
            Channel::Remote => self.remote.send(delivery),
        }
    }

    /// A report of this slot came: gives its attempt, which is in flight no more, and which there is room to mark if no attempt
    /// went out while a mark was to be made. `OutOfRange` exactly when no attempt is in flight there, and then all is as
    /// before. Takes no memory.
    pub fn report(&mut self, channel: Channel, slot: u8) -> Result<Attempt, OutOfRange>
        ensures ok { IfOk result (λ attempt. attempt_in (lane channel self.old).slots slot ≡ Some attempt) }
        ensures free { OnOk result (self.new ≡ at_lane channel (reported slot) self.old) }
        ensures none { OnErr result (attempt_in (lane channel self.old).slots slot ≡ None) }
        ensures out { IfErr result (λ out. out ≡ record { 0 = slot }) }
        ensures err { OnErr result (self.new ≡ self.old) }
        ensures room { IsRoomy (lane channel self.old) → OnOk result (length (lane channel self.new).marks < MAX_SLOTS) }
    {
        match self.taken_from(channel, slot) {
            None => Err(OutOfRange(slot)),
            Some(attempt) => Ok(attempt),
        }
    }

    /// Takes out what is in flight in this slot.
    fn taken_from(&mut self, channel: Channel, slot: u8) -> Option<Attempt>
        ensures attempt { result ≡ attempt_in (lane channel self.old).slots slot }
        ensures free { OnSome result (self.new ≡ at_lane channel (reported slot) self.old) }
        ensures none { IfNone result (self.new ≡ self.old) }
        ensures small { length (lane channel self.old).slots ≤ MAX_SLOTS }
    {
        match channel {
            Channel::Local => self.local.slots.take(slot),
            Channel::Remote => self.remote.slots.take(slot),
        }
    }

    /// Whether each place of the pass over message n was reported. Takes no memory.
    pub fn finished(&self, channel: Channel, n: u64) -> bool
        ensures { result ≡ finished n (lane channel self.now) }
    {
        self.lane(channel).is_finished(n)
    }

    /// Whether no pass is open on the channel, and no attempt at message n is in flight there. Takes no memory.
    pub fn is_free_for(&self, channel: Channel, n: u64) -> bool
        ensures { result ≡ is_free_for n (lane channel self.now) }
    {
        self.next_place(channel).is_none() && self.finished(channel, n)
    }

    /// The marks that are to be made.
    pub fn marks(&self, channel: Channel) -> &Marks
        ensures { result.now ≡ (lane channel self.now).marks }
    {
        &self.lane(channel).marks
    }

    /// A mark is to be made, after those that are to be made already. The condition: these are fewer than `MAX_SLOTS`. Takes
    /// no memory.
    pub fn add_mark(&mut self, channel: Channel, mark: Mark)
        requires { length (lane channel self.old).marks < MAX_SLOTS }
        ensures { self.new ≡ at_lane channel (owes mark) self.old }
    {
        match channel {
            Channel::Local => self.local.marks.push(mark),
            Channel::Remote => self.remote.marks.push(mark),
        }
    }

    /// The first mark that is to be made.
    pub fn first_mark(&self, channel: Channel) -> Option<&Mark>
        ensures { option_copied result ≡ slice_get (lane channel self.now).marks 0 }
    {
        self.lane(channel).marks.get(0)
    }

    /// The first mark was made, or was given up.
    pub fn settle_mark(&mut self, channel: Channel)
        ensures { self.new ≡ at_lane channel mark_settled self.old }
    {
        match channel {
            Channel::Local => self.local.marks.drop_first(),
            Channel::Remote => self.remote.marks.drop_first(),
        }
    }

    /// A place of the job on message n stays `T`: its attempt is to be made again, or its mark couldn't be made.
    pub fn leave_unmarked(&mut self, channel: Channel, n: u64)
        ensures { self.new ≡ at_lane channel (left_unmarked n) self.old }
    {
        match channel {
            Channel::Local => self.local.jobs.unmark(n),
            Channel::Remote => self.remote.jobs.unmark(n),
        }
    }

    /// The job on message n, over or not; `None` exactly when there is none.
    pub fn job(&self, channel: Channel, n: u64) -> Option<Job>
        ensures { result ≡ job_of n (lane channel self.now).jobs }
    {
        self.lane(channel).jobs.of(n)
    }

    /// The job on message n, if it is over: each of its places was reported, and no mark of it is to be made. `None` exactly
    /// when there is no such job.
    pub fn job_over(&self, channel: Channel, n: u64) -> Option<Job>
        ensures { result ≡ job_over n (lane channel self.now) }
    {
        self.lane(channel).job_over(n)
    }

    /// There is no job on message n any more: its channel file is gone, or it is due again.
    pub fn end_job(&mut self, channel: Channel, n: u64)
        ensures { self.new ≡ at_lane channel (ended n) self.old }
    {
        match channel {
            Channel::Local => self.local.jobs.end(n),
            Channel::Remote => self.remote.jobs.end(n),
        }
    }
}
