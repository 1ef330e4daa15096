// Point 3 of a turn: passes and requests.
ghost use Rattle.std.specs.Prelude.{◌≡◌, ◌++◌, OnOk, OnErr};
ghost use Rattle.std.specs.Option.{option_map};
ghost use Rattle.mail_bytes.specs.Moments.{IsMoment};
ghost use Rattle.send_jobs.specs.Lanes.{next};
ghost use Rattle.send_jobs.specs.Sending.{lane};
ghost use Rattle.send_parts.specs.Lines.{if_fine};
ghost use Rattle.send_parts.specs.Readings.{read_on};
ghost use Rattle.send_parts.specs.Replies.{said_of};
ghost use Rattle.send_core.specs.Log.{request_lines};
ghost use Rattle.send_core.specs.Turn.{file_read, pass_opened, put_later, requested};

use crate::reports::lost;
use crate::{Desk, Point, Row};
use envelope_records::Record;
use mail_bytes::Memory;
use send_jobs::{Channel, due_again, put_starting, status_if};
use send_links::records_in;
use send_log::Log;
use send_parts::{Progress, Reading, Reply, Way, keep, read_on};
use std::alloc::Global;

/// A step of reading a channel file, whose pass begins or began then. After an `Err` all is as before.
pub fn file_read(
    desk: &mut Desk,
    alloc: Global,
    channel: Channel,
    n: u64,
    begun: u64,
    reading: Reading,
    now: u64,
    reply: &Reply<'_>,
) -> Result<(), Memory>
    requires { IsMoment now }
    ensures ok { let s = said_of reply.now in OnOk result (desk.new ≡ file_read (read_on reading s) channel n begun reading now s desk.old) }
    ensures err { OnErr result (desk.new ≡ desk.old) }
{
    match read_on(reading, reply) {
        Progress::Goes(next) => {
            keep(&mut desk.book.read, alloc, reading, reply.bytes)?;
            let reading = next;
            desk.row = Row::ReadFile {
                channel,
                n,
                begun,
                reading,
            };
        }
        Progress::Whole => {
            let records = records_in(alloc, desk.book.read.as_slice())?;
            pass_opened(desk, alloc, records, channel, n, begun, now)?;
        }
        Progress::Missing | Progress::Failed => put_later(desk, channel, n, now),
    }
    Ok(())
}

/// A channel file was read to its end. After an `Err` all is as before.
fn pass_opened(
    desk: &mut Desk,
    alloc: Global,
    records: Option<Vec<Record>>,
    channel: Channel,
    n: u64,
    begun: u64,
    now: u64,
) -> Result<(), Memory>
    requires { IsMoment now }
    ensures ok { OnOk result (desk.new ≡ pass_opened (option_map (λ (v : _). v.items) records) channel n begun now desk.old) }
    ensures err { OnErr result (desk.new ≡ desk.old) }
{
    match records {
        None => put_later(desk, channel, n, now),
        Some(records) => {
            if desk.slots.is_free_for(channel, n) {
                desk.begin(alloc, channel, n, begun, &records)?;
                desk.close(channel, n, Point::Pass(channel, false));
            } else {
                put_later(desk, channel, n, now);
            }
        }
    }
    Ok(())
}

/// A pass can't begin: it is tried again later.
fn put_later(desk: &mut Desk, channel: Channel, n: u64, now: u64)
    requires { IsMoment now }
    ensures { desk.new ≡ put_later channel n now desk.old }
{
    desk.stands_at(Point::Pass(channel, false));
    due_again(
        &mut desk.slots,
        &mut desk.book.messages,
        channel,
        n,
        now + 123,
    );
}

/// A request was given, or its link is lost. After an `Err` all is as before.
#[tactic(auto, using(crate::proofs::Sent::status_then))]
pub fn requested(desk: &mut Desk, log: &mut Log, way: Way, channel: Channel) -> Result<(), Memory>
    ensures ok { OnOk result (desk.new ≡ requested way channel desk.old) }
    ensures log { OnOk result (log.new.text ≡ log.old.text ++ if_fine way (request_lines (next (lane channel desk.old.slots)) channel desk.old.slots)) }
    ensures err { OnErr result (desk.new ≡ desk.old) }
    ensures quiet { OnErr result (log.new.text ≡ log.old.text) }
{
    match way {
        Way::Fine => {
            let starts = put_starting(log, &desk.slots, channel)?;
            desk.stands_at(Point::Pass(channel, false));
            desk.request_sent(channel);
            status_if(log, starts, &desk.slots);
        }
        _ => desk.row = lost(channel),
    }
    Ok(())
}
