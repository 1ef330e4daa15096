// Lines of the log: those of the start and of a finish.
ghost use Rattle.std.specs.Prelude.{◌≡◌, ◌≤◌, ◌++◌, false, IsOk, OnOk, OnErr};
ghost use Rattle.send_parts.specs.Lines.{finish_lines, finish_takes_memory, is_skipped, skipped_if};

use crate::{FinishRow, Progress, Way};
use mail_bytes::Memory;
use send_log::{LINE_ROOM, Line, Log};

/// Whether a step of reading an info file of the start scan passes the message over; what it read is an info file if `good`.
pub fn is_skipped(progress: Progress, good: bool) -> bool
    ensures { result ≡ is_skipped progress good }
{
    match progress {
        Progress::Whole => !good,
        Progress::Missing => true,
        Progress::Goes(_) | Progress::Failed => false,
    }
}

/// Puts the line of a message that is passed over. The condition: there is room for it.
pub fn put_skipped(log: &mut Log, skipped: bool, n: u64)
    requires { LINE_ROOM ≤ log.old.room }
    ensures { log.new.text ≡ log.old.text ++ skipped_if skipped n }
{
    if skipped {
        log.put(&Line::Skipped { message: n });
    }
}

/// Puts the line of a finished message, at the answer to its removal. After an `Err` the text is as before.
pub fn add_finished(log: &mut Log, row: FinishRow, n: u64, way: Way) -> Result<(), Memory>
    ensures ok { OnOk result (log.new.text ≡ log.old.text ++ finish_lines row n way) }
    ensures memory { finish_takes_memory row ≡ false → IsOk result }
    ensures err { OnErr result (log.new.text ≡ log.old.text) }
{
    match (row, way) {
        (FinishRow::Take, Way::Fine) => {
            log.reserve(LINE_ROOM)?;
            log.put(&Line::EndMessage { message: n });
        }
        _ => {}
    }
    Ok(())
}
