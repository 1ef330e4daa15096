// The lines of the log that speak of bounces.
ghost use Rattle.std.specs.Prelude.{◌≡◌, ◌++◌, false, IsOk, OnOk, OnErr};
ghost use Rattle.call_fs.specs.Program.{came_of};
ghost use Rattle.bounce_record.specs.Lines.{lines_take_memory, return_lines};

use crate::ReturnRow;
use call_fs::{Answer, Got};
use mail_bytes::Memory;
use send_log::{LINE_ROOM, Line, Log};

/// Puts the line of what came at a row of the return of message n, if one is due: that its bounce was queued, or that a double
/// bounce which came back was dropped (qmail-log(5)). After an `Err` the text is as before.
pub fn add_returned(log: &mut Log, row: ReturnRow, n: u64, got: &Got<'_>) -> Result<(), Memory>
    ensures ok { OnOk result (log.new.text ≡ log.old.text ++ return_lines row n (came_of got.now)) }
    ensures memory { lines_take_memory row ≡ false → IsOk result }
    ensures err { OnErr result (log.new.text ≡ log.old.text) }
{
    match (row, got) {
        (ReturnRow::Await { pid }, Got::Ended(0)) => {
            log.reserve(LINE_ROOM)?;
            log.put(&Line::Bounced { message: n, pid });
        }
        (ReturnRow::Discard, Got::File(Answer::Done, _)) => {
            log.reserve(LINE_ROOM)?;
            log.put(&Line::TripleBounce { message: n });
        }
        _ => {}
    }
    Ok(())
}
