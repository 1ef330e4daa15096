// Points 1 and 2 of a turn: what the spawners report, and where it leads.
ghost use Rattle.std.specs.Prelude.{◌≡◌, ◌≤◌, ◌+◌, ◌++◌, OnOk, OnErr};
ghost use Rattle.mail_bytes.specs.Moments.{IsMoment};
ghost use Rattle.send_jobs.specs.Lines.{settled_room};
ghost use Rattle.send_links.specs.Rooms.{reports_room};
ghost use Rattle.send_parts.specs.Lines.{if_fine};
ghost use Rattle.send_parts.specs.Replies.{said_of};
ghost use Rattle.send_core.specs.Desk.{deferred, heard, retried_if, settle, told, told_all, with_reader};
ghost use Rattle.send_core.specs.Log.{report_lines_on, taken_lines, told_lines};
ghost use Rattle.send_core.specs.Turn.{after_take, lost, took, unlinked};

use crate::{Desk, Point, Row};
use mail_bytes::Memory;
use queue_limits::{MAX_SLOTS, NO_LOCAL, NO_REMOTE};
use send_jobs::{
    Attempt, Channel, Job, Mark, done_with, due_again, failure_in, is_final, put_settled,
};
use send_links::make_room;
use send_log::{Line, Log};
use send_parts::{Reply, Way};
use spawn_protocol::{Report, ReportReader};
use std::alloc::Global;

/// The end if a link has ended or failed.
pub fn lost(channel: Channel) -> Row
    ensures { result ≡ lost channel }
{
    match channel {
        Channel::Local => Row::Ended(NO_LOCAL),
        Channel::Remote => Row::Ended(NO_REMOTE),
    }
}

/// Bytes of a link were taken, or it is lost. After an `Err` all is as before.
pub fn took(
    desk: &mut Desk,
    log: &mut Log,
    alloc: Global,
    channel: Channel,
    reply: &Reply<'_>,
) -> Result<(), Memory>
    ensures ok { OnOk result (desk.new ≡ took (said_of reply.now).way (said_of reply.now).bytes channel desk.old) }
    ensures log { OnOk result (log.new.text ≡ log.old.text ++ if_fine (said_of reply.now).way (taken_lines channel (said_of reply.now).bytes desk.old)) }
    ensures err { OnErr result (desk.new ≡ desk.old) }
    ensures quiet { OnErr result (log.new.text ≡ log.old.text) }
{
    match reply.way {
        Way::Fine => {
            hear(desk, log, alloc, channel, reply.bytes)?;
            desk.stands_at(after_take(channel));
        }
        _ => desk.row = lost(channel),
    }
    Ok(())
}

/// Where the turn goes on after a taking.
fn after_take(channel: Channel) -> Point
    ensures { result ≡ after_take channel }
{
    match channel {
        Channel::Local => Point::TakeRemote,
        Channel::Remote => Point::Reports,
    }
}

/// Hears bytes of a link. After an `Err` all is as before: they are read, and room for their lines is made, before anything is
/// changed.
fn hear(
    desk: &mut Desk,
    log: &mut Log,
    alloc: Global,
    channel: Channel,
    bytes: &[u8],
) -> Result<(), Memory>
    ensures ok { OnOk result (desk.new ≡ heard channel bytes.now desk.old) }
    ensures log { OnOk result (log.new.text ≡ log.old.text ++ taken_lines channel bytes.now desk.old) }
    ensures err { OnErr result (desk.new ≡ desk.old) }
    ensures quiet { OnErr result (log.new.text ≡ log.old.text) }
{
    let heard = desk.link(channel).reader.hear(alloc, bytes)?;
    make_room(log, &heard.reports)?;
    set_reader(desk, channel, heard.reader);
    tell_all(desk, log, channel, heard.reports);
    Ok(())
}

/// What has come of a report that hasn't ended.
fn set_reader(desk: &mut Desk, channel: Channel, reader: ReportReader)
    ensures { desk.new ≡ with_reader channel reader desk.old }
{
    match channel {
        Channel::Local => desk.local.reader = reader,
        Channel::Remote => desk.remote.reader = reader,
    }
}

/// Reports were taken. The condition: there is room for their lines.
fn tell_all(desk: &mut Desk, log: &mut Log, channel: Channel, reports: Vec<Report>)
    requires { reports_room reports.items ≤ log.old.room }
    ensures desk { desk.new ≡ told_all channel reports.items desk.old }
    ensures log { log.new.text ≡ log.old.text ++ told_lines channel reports.items desk.old }
{
    for report in reports {
        tell(desk, log, channel, report);
    }
}

/// A report was taken: of the attempt in its slot, if one is in flight there. The condition: there is room for its lines.
fn tell(desk: &mut Desk, log: &mut Log, channel: Channel, report: Report)
    requires { settled_room report.text ≤ log.old.room }
    ensures desk { desk.new ≡ told channel report desk.old }
    ensures log { log.new.text ≡ log.old.text ++ report_lines_on channel report desk.old }
    ensures room { log.old.room ≤ log.new.room + settled_room report.text }
{
    match desk.slots.report(channel, report.slot) {
        Ok(attempt) => {
            put_settled(
                log,
                &attempt,
                report.letter,
                report.text.as_slice(),
                &desk.slots,
            );
            settle(desk, channel, attempt, report);
        }
        Err(_) => log.put(&Line::StrayReport { slot: report.slot }),
    }
}

/// The place of an attempt that is in flight no more is to be marked, or stays `T`.
fn settle(desk: &mut Desk, channel: Channel, attempt: Attempt, report: Report)
    ensures { desk.new ≡ settle report channel attempt desk.old }
{
    if is_final(report.counts_as(), attempt.dying)
        && desk.slots.marks(channel).len() < usize::from(MAX_SLOTS)
    {
        let note = failure_in(report);
        desk.slots.add_mark(channel, Mark { attempt, note });
    } else {
        defer(desk, channel, attempt.n);
    }
}

/// A place of the message stays `T`.
fn defer(desk: &mut Desk, channel: Channel, n: u64)
    ensures { desk.new ≡ deferred channel n desk.old }
{
    desk.slots.leave_unmarked(channel, n);
    let over = desk.slots.job_over(channel, n);
    retry_if(desk, over, channel, n);
}

/// The message is due at the next retry, if its job is over.
fn retry_if(desk: &mut Desk, over: Option<Job>, channel: Channel, n: u64)
    ensures { desk.new ≡ retried_if over channel n desk.old }
{
    if let Some(job) = over {
        desk.retry(channel, n, job.begun);
    }
}

/// The channel file of a job that left no place `T` was unlinked, or couldn't be.
pub fn unlinked(desk: &mut Desk, way: Way, channel: Channel, n: u64, point: Point, now: u64)
    requires { IsMoment now }
    ensures { desk.new ≡ unlinked way channel n point now desk.old }
{
    desk.stands_at(point);
    match way {
        Way::Fine => done_with(&mut desk.slots, &mut desk.book.messages, channel, n),
        _ => due_again(
            &mut desk.slots,
            &mut desk.book.messages,
            channel,
            n,
            now + 123,
        ),
    }
}
