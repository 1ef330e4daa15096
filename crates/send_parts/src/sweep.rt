// Where the steps of the sweep lead.
ghost use Rattle.std.specs.Prelude.{◌≡◌};
ghost use Rattle.send_parts.specs.Replies.{said_of};
ghost use Rattle.send_parts.specs.Sweep.{info_stated, mess_stated, searched, sweep_due, sweep_given, sweep_row, sweep_taken, sweep_to, swept, todo_stated};

use crate::{Book, Reply, SweepRow, Way, hold, message_number};
use queue_limits::PID_NAME_AGE;
use send_known::KnownList;

/// Whether a sweep is due after one that began at this moment, if there was one.
pub fn sweep_due(now: u64, last: Option<u64>) -> bool
    ensures { result ≡ sweep_due now last }
{
    match last {
        None => true,
        Some(last) => last <= now && now - last >= 76_431,
    }
}

/// What came at a row of the sweep, at this moment, and where that leads. Takes no memory.
pub fn act_sweep(book: &mut Book, row: SweepRow, now: u64, reply: &Reply<'_>) -> SweepRow
    ensures to { result ≡ sweep_to row now (said_of reply.now) book.old }
    ensures book { book.new ≡ searched row (said_of reply.now) book.old }
{
    let way = reply.way;
    match row {
        SweepRow::First => swept(book, 0, reply),
        SweepRow::Next { split } => swept(book, split, reply),
        SweepRow::StatMess { split, n } => mess_stated(way, split, n, reply.stat.moment, now),
        SweepRow::StatTodo { split, n } => todo_stated(way, split, n),
        SweepRow::StatInfo { split, n, todo } => info_stated(way, split, n, todo),
        SweepRow::Give { split, n } => sweep_given(way, split, n),
        SweepRow::Take { split, .. } => sweep_taken(way, split),
        SweepRow::Over | SweepRow::Lost => row,
    }
}

/// A name of the sweep.
fn swept(book: &mut Book, split: u64, reply: &Reply<'_>) -> SweepRow
    ensures to { result ≡ swept (said_of reply.now).way (said_of reply.now).bytes split book.old }
    ensures book { book.new ≡ searched (SweepRow.Next split) (said_of reply.now) book.old }
{
    match reply.way {
        Way::Fine => {
            book.after = hold(reply.bytes);
            sweep_row(message_number(reply.bytes), split, &book.messages.known)
        }
        _ if split < 22 => {
            book.after.clear();
            SweepRow::Next { split: split + 1 }
        }
        _ => {
            book.after.clear();
            SweepRow::Over
        }
    }
}

/// After a name of the sweep.
fn sweep_row(n: Option<u64>, split: u64, known: &KnownList) -> SweepRow
    ensures { result ≡ sweep_row n split known.now }
{
    match n {
        Some(n) if !known.is_known(n) => SweepRow::StatMess { split, n },
        _ => SweepRow::Next { split },
    }
}

/// After the stat of a message file, at this moment: one that was last written more than 36 hours before is looked at closer. A
/// later moment would say nothing, since the number may have another message by then.
fn mess_stated(way: Way, split: u64, n: u64, moment: u64, now: u64) -> SweepRow
    ensures { result ≡ mess_stated way split n moment now }
{
    match way {
        Way::Fine if now.saturating_sub(moment) > PID_NAME_AGE => SweepRow::StatTodo { split, n },
        _ => SweepRow::Next { split },
    }
}

/// After the stat of its todo file.
fn todo_stated(way: Way, split: u64, n: u64) -> SweepRow
    ensures { result ≡ todo_stated way split n }
{
    let todo = matches!(way, Way::Fine);
    match way {
        Way::Fine | Way::Absent => SweepRow::StatInfo { split, n, todo },
        _ => SweepRow::Next { split },
    }
}

/// After the stat of its info file.
fn info_stated(way: Way, split: u64, n: u64, todo: bool) -> SweepRow
    ensures { result ≡ info_stated way split n todo }
{
    match way {
        Way::Absent if !todo => SweepRow::Give { split, n },
        _ => SweepRow::Next { split },
    }
}

/// After the command to remove it was given, or couldn't be.
fn sweep_given(way: Way, split: u64, n: u64) -> SweepRow
    ensures { result ≡ sweep_given way split n }
{
    match way {
        Way::Fine => SweepRow::Take { split, n },
        _ => SweepRow::Lost,
    }
}

/// After that was answered.
fn sweep_taken(way: Way, split: u64) -> SweepRow
    ensures { result ≡ sweep_taken way split }
{
    match way {
        Way::Fine => SweepRow::Next { split },
        _ => SweepRow::Lost,
    }
}
