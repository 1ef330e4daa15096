// Point 2 of a turn: the marks that reports lead to, each after its note if the recipient couldn't be delivered to.
ghost use Rattle.std.specs.Prelude.{◌≡◌, false, IfOk, IsOk, OnOk, OnErr};
ghost use Rattle.std.specs.Option.{option_copied};
ghost use Rattle.call_fs.specs.Program.{came_of};
ghost use Rattle.send_core.specs.Turn.{act_mark, begin_note, mark_opened, mark_over, mark_takes_memory, note_opened, noted, told_report};

use crate::{Desk, MarkRow, Marked, Point, Row};
use bounce_record::{NoteRow, late_report};
use call_fs::{Fd, Got};
use mail_bytes::Memory;
use send_jobs::{Failure, Mark};
use send_parts::{Way, is_fine, reply_of};
use std::alloc::Global;

/// What came at a row of a mark. After an `Err` all is as before.
pub fn act_mark(
    desk: &mut Desk,
    alloc: Global,
    row: MarkRow,
    marked: Marked,
    got: &Got<'_>,
) -> Result<(), Memory>
    ensures ok { OnOk result (desk.new ≡ act_mark row marked (came_of got.now) desk.old) }
    ensures memory { mark_takes_memory row ≡ false → IsOk result }
    ensures err { OnErr result (desk.new ≡ desk.old) }
{
    let reply = reply_of(got);
    match row {
        MarkRow::Note => note_opened(desk, alloc, marked, got)?,
        MarkRow::Noting => note_went(desk, marked, got),
        MarkRow::Open => mark_opened(desk, reply.way, marked, reply.fd),
        MarkRow::Write(fd) => {
            desk.row = Row::Mark(MarkRow::Close(fd, is_fine(reply.way)), marked);
        }
        MarkRow::Close(_, written) => mark_over(desk, written, marked),
    }
    Ok(())
}

/// The bounce file was opened for the note of a mark, or couldn't be. After an `Err` all is as before.
fn note_opened(desk: &mut Desk, alloc: Global, marked: Marked, got: &Got<'_>) -> Result<(), Memory>
    ensures ok { OnOk result (desk.new ≡ note_opened marked (came_of got.now) desk.old) }
    ensures err { OnErr result (desk.new ≡ desk.old) }
{
    begin_note(desk, alloc, marked)?;
    note_went(desk, marked, got);
    Ok(())
}

/// The note of the first mark of the channel begins. After an `Err` all is as before.
fn begin_note(desk: &mut Desk, alloc: Global, marked: Marked) -> Result<(), Memory>
    ensures ok { OnOk result (desk.new ≡ begin_note marked desk.old) }
    ensures err { OnErr result (desk.new ≡ desk.old) }
{
    match desk.slots.first_mark(marked.channel) {
        Some(mark) => {
            let report = told_report(alloc, mark)?;
            let address = mark.attempt.address.as_slice();
            desk.note
                .begin(alloc, &desk.book.controls, marked.n, address, &report)
        }
        None => desk
            .note
            .begin(alloc, &desk.book.controls, marked.n, b"", b""),
    }
}

/// What the note of a mark says of its recipient; nothing if it has none.
fn told_report(alloc: Global, mark: &Mark) -> Result<Vec<u8>, Memory>
    ensures { IfOk result (λ report. report.items ≡ told_report mark.now.note) }
{
    match &mark.note {
        None => Ok(Vec::new(alloc)),
        Some(failure) if failure.is_late => late_report(alloc, failure.report.as_slice()),
        Some(failure) => Vec::from_slice(alloc, failure.report.as_slice()),
    }
}

/// The note goes on by what came: once it is written, the mark is made; after a failure it is given up.
fn note_went(desk: &mut Desk, marked: Marked, got: &Got<'_>)
    ensures { desk.new ≡ noted marked (came_of got.now) desk.old }
{
    desk.note.done(got);
    match desk.note.row() {
        NoteRow::Written => desk.row = Row::Mark(MarkRow::Open, marked),
        NoteRow::Failed => mark_over(desk, false, marked),
        _ => desk.row = Row::Mark(MarkRow::Noting, marked),
    }
}

/// The channel file was opened for a mark, or couldn't be.
fn mark_opened(desk: &mut Desk, way: Way, marked: Marked, fd: Fd)
    ensures { desk.new ≡ mark_opened way marked fd desk.old }
{
    match way {
        Way::Fine => desk.row = Row::Mark(MarkRow::Write(fd), marked),
        _ => mark_over(desk, false, marked),
    }
}

/// A mark was made, or was given up.
fn mark_over(desk: &mut Desk, written: bool, marked: Marked)
    ensures { desk.new ≡ mark_over written marked desk.old }
{
    desk.slots.settle_mark(marked.channel);
    if !written {
        desk.slots.leave_unmarked(marked.channel, marked.n);
    }
    desk.close(marked.channel, marked.n, Point::Reports);
}
