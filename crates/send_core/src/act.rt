// What came at a row.
ghost use Rattle.std.specs.Prelude.{◌≡◌, ◌++◌, false, IsOk, OnOk, OnErr};
ghost use Rattle.call_fs.specs.Program.{came_of};
ghost use Rattle.mail_bytes.specs.Moments.{IsMoment};
ghost use Rattle.send_core.specs.Log.{lines_at};
ghost use Rattle.send_core.specs.Table.{act, moved_by, takes_memory};

use crate::finish::{act_finish, act_sweep};
use crate::passes::{file_read, requested};
use crate::reports::{took, unlinked};
use crate::todo::{in_todo, todo_named};
use crate::{Desk, Row, marks, start};
use call_fs::Got;
use mail_bytes::Memory;
use send_log::Log;
use send_parts::{begun_at, reply_of};
use std::alloc::Global;

/// What came at this row, at this moment; then the next request of each channel is for its lowest free slot. After an `Err`
/// all is as before.
pub fn go_on(
    desk: &mut Desk,
    log: &mut Log,
    alloc: Global,
    row: Row,
    now: u64,
    got: &Got<'_>,
) -> Result<(), Memory>
    requires { IsMoment now }
    ensures ok { OnOk result (desk.new ≡ moved_by row now (came_of got.now) desk.old) }
    ensures log { OnOk result (log.new.text ≡ log.old.text ++ lines_at row now (came_of got.now) desk.old) }
    ensures memory { takes_memory row ≡ false → IsOk result }
    ensures err { OnErr result (desk.new ≡ desk.old) }
    ensures quiet { OnErr result (log.new.text ≡ log.old.text) }
{
    act(desk, log, alloc, row, now, got)?;
    desk.make_ready();
    Ok(())
}

/// What came at this row, at this moment. After an `Err` all is as before.
fn act(
    desk: &mut Desk,
    log: &mut Log,
    alloc: Global,
    row: Row,
    now: u64,
    got: &Got<'_>,
) -> Result<(), Memory>
    requires { IsMoment now }
    ensures ok { OnOk result (desk.new ≡ act row now (came_of got.now) desk.old) }
    ensures log { OnOk result (log.new.text ≡ log.old.text ++ lines_at row now (came_of got.now) desk.old) }
    ensures memory { takes_memory row ≡ false → IsOk result }
    ensures err { OnErr result (desk.new ≡ desk.old) }
    ensures quiet { OnErr result (log.new.text ≡ log.old.text) }
{
    let reply = reply_of(got);
    match row {
        Row::Start(row) => start::started(desk, log, alloc, row, &reply)?,
        Row::TakeLink(channel) => {
            took(desk, log, alloc, channel, &reply)?;
            desk.busy = true;
        }
        Row::Mark(row, marked) => marks::act_mark(desk, alloc, row, marked, got)?,
        Row::UnlinkFile { channel, n, point } => {
            unlinked(desk, reply.way, channel, n, point, now);
        }
        Row::ReadFile {
            channel,
            n,
            begun,
            reading,
        } => {
            let begun = begun_at(reading, begun, now);
            file_read(desk, alloc, channel, n, begun, reading, now, &reply)?;
            desk.busy = true;
        }
        Row::Request(channel) => {
            requested(desk, log, reply.way, channel)?;
            desk.busy = true;
        }
        Row::FindTodo(search) => todo_named(desk, alloc, search, now, &reply),
        Row::InTodo => in_todo(desk, log, alloc, now, got)?,
        Row::Finish(row, n) => act_finish(desk, log, alloc, row, n, now, got)?,
        Row::Sweep(row) => act_sweep(desk, row, now, &reply),
        Row::Turn(_) | Row::Ended(_) => {}
    }
    Ok(())
}
