// What the sender keeps.
ghost use Rattle.std.specs.Prelude.{◌≡◌};

use crate::{Point, Row};
use bounce_record::{BounceSender, NoteWriter};
use envelope_records::Record;
use mail_bytes::{Memory, NameBuf};
use send_jobs::{Channel, Job, Slots, due_then, retry};
use send_known::NEVER;
use send_links::{Link, Requests};
use send_parts::{Book, sweep_due};
use std::alloc::Global;
use todo_pass::Pass;

/// What the sender keeps: where it stands, what it knows and has due, what is in flight, unmarked and still to be given, and
/// what a search, a reading, a todo pass, a note or a return at work holds.
#[derive(Drop)]
pub struct Desk {
    /// Where it stands.
    pub row: Row,
    /// What it has read and knows: the control files, the known messages, and what a reading or a search at work holds.
    pub book: Book,
    /// What is in flight, to be given and to be marked, and the jobs.
    pub slots: Slots,
    /// The link to the local spawner.
    pub local: Link,
    /// The link to the remote spawner.
    pub remote: Link,
    /// The number whose todo pass was left last, as text; empty if none was.
    pub last_left: NameBuf,
    /// The moment of the last sweep.
    pub swept: Option<u64>,
    /// Whether this turn had a step besides the search of `todo`.
    pub busy: bool,
    /// How many turns are left, if that is limited.
    pub turns: Option<u64>,
    /// The todo pass at work, or the last one.
    pub pass: Pass,
    /// The note at work, or the last one.
    pub note: NoteWriter,
    /// The return of a message at work, or the last one.
    pub bounce: BounceSender,
}

impl Desk {
    ghost use Rattle.std.specs.Prelude.{◌≡◌, IsTrue, OnOk, OnErr};
    ghost use Rattle.send_jobs.specs.Sending.{lane};
    ghost use Rattle.send_core.specs.Desk.{stands_at, link, with_requests, retried, closed, closed_by, is_dying, has_begun, request_sent, ready_on, ready, next_idle, turn_over, turn_counted, past_finish, past_todo, never, is_free_for};

    /// Stands between two steps.
    pub fn stands_at(&mut self, point: Point)
        ensures { self.new ≡ stands_at self.old point }
    {
        self.row = Row::Turn(point);
    }

    /// The link to the spawner of a channel.
    pub fn link(&self, channel: Channel) -> &Link
        ensures { result.now ≡ link channel self.now }
    {
        match channel {
            Channel::Local => &self.local,
            Channel::Remote => &self.remote,
        }
    }

    /// These requests are to be given.
    fn set_requests(&mut self, channel: Channel, requests: Requests)
        ensures { self.new ≡ with_requests channel requests self.old }
    {
        match channel {
            Channel::Local => self.local.requests = requests,
            Channel::Remote => self.remote.requests = requests,
        }
    }

    /// A job that left a place `T` is over.
    pub fn retry(&mut self, channel: Channel, n: u64, begun: u64)
        ensures { self.new ≡ retried channel n begun self.old }
    {
        retry(&mut self.slots, &mut self.book.messages, channel, n, begun);
    }

    /// After a place of a message's job was settled.
    pub fn close(&mut self, channel: Channel, n: u64, point: Point)
        ensures { self.new ≡ closed channel n point self.old }
    {
        let over = self.slots.job_over(channel, n);
        self.close_by(over, channel, n, point);
    }

    /// The same, by the job that is over, if one is: tried again if a place of it stayed `T`, else its file goes.
    fn close_by(&mut self, over: Option<Job>, channel: Channel, n: u64, point: Point)
        ensures { self.new ≡ closed_by over channel n point self.old }
    {
        match over {
            None => self.stands_at(point),
            Some(job) if job.unmarked => {
                self.stands_at(point);
                self.retry(channel, n, job.begun);
            }
            Some(_) => self.row = Row::UnlinkFile { channel, n, point },
        }
    }

    /// Whether a pass over a message that begins then is a dying one.
    fn is_dying(&self, n: u64, begun: u64) -> bool
        ensures { result ≡ is_dying n begun self.now }
    {
        let birth = self.book.messages.known.birth_of(n);
        begun.saturating_sub(birth) > u64::from(self.book.controls.queue_lifetime)
    }

    /// A pass over these records of a message begins. After an `Err` all is as before. The condition: none is open on the
    /// channel, and no attempt at the message is in flight there.
    pub fn begin(
        &mut self,
        alloc: Global,
        channel: Channel,
        n: u64,
        begun: u64,
        records: &[Record],
    ) -> Result<(), Memory>
        requires { IsTrue (is_free_for n (lane channel self.old.slots)) }
        ensures ok { OnOk result (self.new ≡ has_begun channel n begun records.now self.old) }
        ensures err { OnErr result (self.new ≡ self.old) }
    {
        let requests = Requests::of(alloc, n, self.book.messages.known.sender_of(n), records)?;
        let dying = self.is_dying(n, begun);
        self.slots
            .begin_pass(alloc, channel, n, records, begun, dying)?;
        due_then(&mut self.book.messages, channel, n, NEVER);
        self.set_requests(channel, requests);
        Ok(())
    }

    /// The next request of a channel was given.
    pub fn request_sent(&mut self, channel: Channel)
        ensures { self.new ≡ request_sent channel self.old }
    {
        if self.slots.next_place(channel).is_some() {
            self.slots.take_lowest(channel);
            match channel {
                Channel::Local => self.local.requests.drop_first(),
                Channel::Remote => self.remote.requests.drop_first(),
            }
        }
    }

    /// The next request of each channel is for its lowest free slot.
    pub fn make_ready(&mut self)
        ensures { self.new ≡ ready self.old }
    {
        let slot = self.slots.lowest_free(Channel::Local);
        self.local.requests.name_slot(slot);
        let slot = self.slots.lowest_free(Channel::Remote);
        self.remote.requests.name_slot(slot);
    }

    /// The least number that may be finished now.
    pub fn next_idle(&self, now: u64) -> Option<u64>
        ensures { result ≡ next_idle now self.now }
    {
        self.book.messages.known.first_idle(now)
    }

    /// The turn is over.
    pub fn turn_over(&mut self)
        ensures { self.new ≡ turn_over self.old }
    {
        self.busy = false;
        match self.turns {
            None => self.row = Row::Turn(Point::TakeLocal),
            Some(k) if k > 1 => {
                self.turns = Some(k - 1);
                self.row = Row::Turn(Point::TakeLocal);
            }
            Some(_) => {
                self.turns = Some(0);
                self.row = Row::Ended(0);
            }
        }
    }

    /// After the finish point, at this moment.
    pub fn past_finish(&mut self, now: u64)
        ensures { self.new ≡ past_finish now self.old }
    {
        if sweep_due(now, self.swept) {
            self.stands_at(Point::Sweep);
        } else {
            self.turn_over();
        }
    }

    /// After the todo point, at this moment.
    pub fn past_todo(&mut self, now: u64)
        ensures { self.new ≡ past_todo now self.old }
    {
        if self.next_idle(now).is_some() || sweep_due(now, self.swept) {
            self.stands_at(Point::Finish);
        } else {
            self.turn_over();
        }
    }
}
