// The sender's start, and what it goes over into.
ghost use Rattle.std.specs.Prelude.{◌≡◌, ◌++◌, false, IsOk, OnOk, OnErr};
ghost use Rattle.send_parts.specs.Replies.{said_of};
ghost use Rattle.send_parts.specs.Start.{start_takes_memory};
ghost use Rattle.send_core.specs.Log.{start_lines};
ghost use Rattle.send_core.specs.Start.{entered, started};

use crate::Desk;
use mail_bytes::Memory;
use send_jobs::Slots;
use send_log::{LINE_ROOM, Log};
use send_parts::{
    Reply, StartRow, act_start, is_info, is_skipped, put_skipped, read_on, remote_limit, start_at,
};
use std::alloc::Global;

/// What came at a row of the start. After an `Err` all is as before.
pub fn started(
    desk: &mut Desk,
    log: &mut Log,
    alloc: Global,
    row: StartRow,
    reply: &Reply<'_>,
) -> Result<(), Memory>
    ensures ok { OnOk result (desk.new ≡ started row (said_of reply.now) desk.old) }
    ensures log { OnOk result (log.new.text ≡ log.old.text ++ start_lines row (said_of reply.now) desk.old) }
    ensures memory { start_takes_memory row ≡ false → IsOk result }
    ensures err { OnErr result (desk.new ≡ desk.old) }
    ensures quiet { OnErr result (log.new.text ≡ log.old.text) }
{
    entered(desk, log, alloc, row, reply)?;
    desk.row = start_at(desk.book.row);
    Ok(())
}

/// The same, before the sender goes on to the next row.
fn entered(
    desk: &mut Desk,
    log: &mut Log,
    alloc: Global,
    row: StartRow,
    reply: &Reply<'_>,
) -> Result<(), Memory>
    ensures ok { OnOk result (desk.new ≡ entered row (said_of reply.now) desk.old) }
    ensures log { OnOk result (log.new.text ≡ log.old.text ++ start_lines row (said_of reply.now) desk.old) }
    ensures memory { start_takes_memory row ≡ false → IsOk result }
    ensures err { OnErr result (desk.new ≡ desk.old) }
    ensures quiet { OnErr result (log.new.text ≡ log.old.text) }
{
    match row {
        StartRow::GreetRemote { limit } => {
            let remote = remote_limit(reply.bytes, &desk.book.controls);
            let slots = Slots::new(alloc, [limit, remote])?;
            act_start(&mut desk.book, alloc, row, reply)?;
            desk.slots = slots;
        }
        StartRow::ReadInfo { n, reading, .. } => {
            log.reserve(LINE_ROOM)?;
            let good = is_info(desk.book.read.as_slice());
            let skipped = is_skipped(read_on(reading, reply), good);
            act_start(&mut desk.book, alloc, row, reply)?;
            put_skipped(log, skipped, n);
        }
        _ => act_start(&mut desk.book, alloc, row, reply)?,
    }
    Ok(())
}
