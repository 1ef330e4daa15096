// Points 5 and 6 of a turn: the finish of a message, and the sweep. Of these rows the return of a message takes memory, and the
// last one of a finish, for its line of the log.
ghost use Rattle.std.specs.Prelude.{◌≡◌, ◌++◌, false, IsOk, OnOk, OnErr};
ghost use Rattle.mail_bytes.specs.Moments.{IsMoment};
ghost use Rattle.send_parts.specs.Lines.{finish_takes_memory};
ghost use Rattle.send_parts.specs.Replies.{said_of};
ghost use Rattle.bounce_record.specs.Lines.{return_lines};
ghost use Rattle.bounce_record.specs.Rows.{takes_memory};
ghost use Rattle.call_fs.specs.Program.{came_of};
ghost use Rattle.send_core.specs.Log.{finish_lines_on};
ghost use Rattle.send_core.specs.Finish.{act_finish, act_sweep, bounce_on, bounce_opened, finish_at, returned, returned_to, sweep_at, sweep_begun};

use crate::{Desk, Row};
use bounce_record::{ReturnRow, add_returned};
use call_fs::Got;
use mail_bytes::Memory;
use queue_limits::NO_CLEANER;
use send_log::Log;
use send_parts::{FinishRow, Reply, SweepRow, add_finished, finish_to, reply_of};
use std::alloc::Global;

/// What came at a row of the finish of a message. After an `Err` all is as before.
pub fn act_finish(
    desk: &mut Desk,
    log: &mut Log,
    alloc: Global,
    row: FinishRow,
    n: u64,
    now: u64,
    got: &Got<'_>,
) -> Result<(), Memory>
    requires { IsMoment now }
    ensures ok { OnOk result (desk.new ≡ act_finish row n now (came_of got.now) desk.old) }
    ensures log { OnOk result (log.new.text ≡ log.old.text ++ finish_lines_on row n (came_of got.now) desk.old) }
    ensures memory { finish_takes_memory row ≡ false → IsOk result }
    ensures err { OnErr result (desk.new ≡ desk.old) }
    ensures quiet { OnErr result (log.new.text ≡ log.old.text) }
{
    match row {
        FinishRow::OpenBounce => bounce_opened(desk, alloc, n, now, got),
        FinishRow::Return => returned(desk, log, alloc, n, now, got)?,
        _ => {
            let way = reply_of(got).way;
            add_finished(log, row, n, way)?;
            finish_at(desk, finish_to(row, way), n, now);
        }
    }
    Ok(())
}

/// What came at the open of the bounce file: the return of the message begins with it. The turn isn't an idle one. Takes no
/// memory.
fn bounce_opened(desk: &mut Desk, alloc: Global, n: u64, now: u64, got: &Got<'_>)
    requires { IsMoment now }
    ensures { desk.new ≡ bounce_opened n now (came_of got.now) desk.old }
{
    desk.busy = true;
    desk.bounce.begin(alloc, n);
    go_back(desk, alloc, n, now, got).unwrap();
    let row = returned_to(desk.bounce.row());
    finish_at(desk, row, n, now);
}

/// What came at a step of the return of the message. After an `Err` all is as before.
fn returned(
    desk: &mut Desk,
    log: &mut Log,
    alloc: Global,
    n: u64,
    now: u64,
    got: &Got<'_>,
) -> Result<(), Memory>
    requires { IsMoment now }
    ensures ok { OnOk result (desk.new ≡ returned n now (came_of got.now) desk.old) }
    ensures log { OnOk result (log.new.text ≡ log.old.text ++ return_lines desk.old.bounce.row n (came_of got.now)) }
    ensures err { OnErr result (desk.new ≡ desk.old) }
    ensures quiet { OnErr result (log.new.text ≡ log.old.text) }
{
    add_returned(log, desk.bounce.row(), n, got)?;
    go_back(desk, alloc, n, now, got)?;
    let row = returned_to(desk.bounce.row());
    finish_at(desk, row, n, now);
    Ok(())
}

/// The return goes on by what came. After an `Err` all is as before.
fn go_back(desk: &mut Desk, alloc: Global, n: u64, now: u64, got: &Got<'_>) -> Result<(), Memory>
    requires { IsMoment now }
    ensures ok { OnOk result (desk.new ≡ record desk.old { bounce = bounce_on n now (came_of got.now) desk.old.bounce desk.old.book }) }
    ensures memory { takes_memory desk.old.bounce.row ≡ false → IsOk result }
    ensures err { OnErr result (desk.new ≡ desk.old) }
{
    let sender = desk.book.messages.known.sender_of(n);
    desk.bounce
        .done(alloc, &desk.book.controls, sender, now, got)
}

/// Where the finish then stands: a message that was returned, or that has no bounce file, goes on to the unlink of its info file.
fn returned_to(row: ReturnRow) -> FinishRow
    ensures { result ≡ returned_to row }
{
    match row {
        ReturnRow::Over => FinishRow::UnlinkInfo,
        ReturnRow::Failed => FinishRow::Later,
        _ => FinishRow::Return,
    }
}

/// The finish of a message goes to this row, or is over.
fn finish_at(desk: &mut Desk, row: FinishRow, n: u64, now: u64)
    requires { IsMoment now }
    ensures { desk.new ≡ finish_at row n now desk.old }
{
    match row {
        FinishRow::Later => {
            desk.book.messages.known.put_off(n, now + 123);
            desk.past_finish(now);
        }
        FinishRow::Over => {
            desk.book.messages.forget(n);
            desk.past_finish(now);
        }
        FinishRow::Lost => desk.row = Row::Ended(NO_CLEANER),
        row => desk.row = Row::Finish(row, n),
    }
}

/// What came at a row of the sweep.
pub fn act_sweep(desk: &mut Desk, row: SweepRow, now: u64, reply: &Reply<'_>)
    ensures { desk.new ≡ act_sweep row now (said_of reply.now) desk.old }
{
    sweep_begun(desk, row, now);
    let next = send_parts::act_sweep(&mut desk.book, row, now, reply);
    sweep_at(desk, next);
}

/// A sweep begins: the last one is that of the moment of its first search.
fn sweep_begun(desk: &mut Desk, row: SweepRow, now: u64)
    ensures { desk.new ≡ sweep_begun row now desk.old }
{
    if let SweepRow::First = row {
        desk.swept = Some(now);
        desk.busy = true;
    }
}

/// The sweep goes to this row, or is over.
fn sweep_at(desk: &mut Desk, row: SweepRow)
    ensures { desk.new ≡ sweep_at row desk.old }
{
    match row {
        SweepRow::Over => desk.turn_over(),
        SweepRow::Lost => desk.row = Row::Ended(NO_CLEANER),
        row => desk.row = Row::Sweep(row),
    }
}
