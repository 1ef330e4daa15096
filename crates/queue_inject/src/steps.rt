// Where an answer leads, and what follows the written bytes of a text: the injector's table.
ghost use Rattle.std.specs.Prelude.{◌≡◌};
ghost use Rattle.queue_inject.specs.Table.{goes_to, failure};
ghost use Rattle.queue_inject.specs.Rows.{CountsOn, IsAfterMess, has_piece, row_by};

use crate::Row;
use crate::intake::Verdict;
use call_fs::{Answer, FsError, PIECE};
use queue_limits::{IN_INTD, IN_MESS, IN_PID, IN_TODO, MEMORY, OUTPUT};

/// Where an answer to the call of `row` leads, with no look at the texts. After an append this is the next one, whether the
/// text has more bytes or not. The condition: a piece more than was written can be counted.
pub fn after(row: Row, answer: &Answer) -> Row
    requires { CountsOn row }
    ensures { result ≡ goes_to row answer.now }
{
    match row {
        Row::Create { seq } => after_create(seq, answer),
        Row::LinkMess { seq, number, fd } => match answer {
            Answer::Done => Row::UnlinkPid { seq, number, fd },
            _ => Row::Failed {
                status: failure(answer, IN_MESS),
            },
        },
        Row::UnlinkPid { number, fd, .. } => match answer {
            Answer::Done => Row::AppendMess {
                number,
                fd,
                done: 0,
            },
            _ => clean_mess(number, answer, IN_PID),
        },
        Row::AppendMess { number, fd, done } => match answer {
            Answer::Done => {
                let done = done + PIECE;
                Row::AppendMess { number, fd, done }
            }
            _ => clean_mess(number, answer, OUTPUT),
        },
        Row::SyncMess { number, .. } => match answer {
            Answer::Done => Row::CreateIntd { number },
            _ => clean_mess(number, answer, OUTPUT),
        },
        _ => after_mess(row, answer),
    }
}

/// Where an answer leads from a row after the message's. The conditions: it is one, and a piece more can be counted.
fn after_mess(row: Row, answer: &Answer) -> Row
    requires rows { IsAfterMess row }
    requires counts { CountsOn row }
    ensures { result ≡ goes_to row answer.now }
{
    match row {
        Row::CreateIntd { number } => match answer {
            Answer::Created(fd, _) => {
                let (fd, done) = (*fd, 0);
                Row::AppendTodo { number, fd, done }
            }
            _ => clean_mess(number, answer, IN_INTD),
        },
        Row::AppendTodo { number, fd, done } => match answer {
            Answer::Done => {
                let done = done + PIECE;
                Row::AppendTodo { number, fd, done }
            }
            _ => clean_intd(number, answer, OUTPUT),
        },
        Row::SyncTodo { number, .. } => match answer {
            Answer::Done => Row::LinkTodo { number },
            _ => clean_intd(number, answer, OUTPUT),
        },
        Row::LinkTodo { .. } => match answer {
            Answer::Done => Row::Queued,
            _ => Row::Failed {
                status: failure(answer, IN_TODO),
            },
        },
        Row::CleanIntd { number, status } => match answer {
            Answer::Done | Answer::Refused(FsError::NotThere) => Row::CleanMess { number, status },
            _ => Row::Failed { status },
        },
        Row::CleanMess { status, .. } => Row::Failed { status },
        _ => row,
    }
}

/// A pid name was tried: if it is taken, the next one comes, nine in all.
fn after_create(seq: u8, answer: &Answer) -> Row
    ensures { result ≡ goes_to (Row.Create seq) answer.now }
{
    match answer {
        Answer::Created(fd, number) => Row::LinkMess {
            seq,
            number: *number,
            fd: *fd,
        },
        Answer::Refused(FsError::Exists) if seq < 9 => Row::Create { seq: seq + 1 },
        _ => Row::Failed {
            status: failure(answer, IN_PID),
        },
    }
}

/// The row whose call is due, by what the text at hand is and how many bytes its next piece has: that piece, or after the
/// text its sync, or the clean up if the input failed. Any other row writes no text.
pub fn next_row(row: Row, verdict: Verdict, len: usize) -> Row
    ensures { result ≡ row_by verdict len row }
{
    match row {
        _ if has_piece(verdict, len) => row,
        Row::AppendMess { number, fd, .. } => match verdict {
            Verdict::Faulty { status } => Row::CleanMess { number, status },
            _ => Row::SyncMess { number, fd },
        },
        Row::AppendTodo { number, fd, .. } => match verdict {
            Verdict::Faulty { status } => Row::CleanIntd { number, status },
            _ => Row::SyncTodo { number, fd },
        },
        _ => row,
    }
}

/// Whether a piece of so many bytes is written: before a fault only a full one, and no empty one.
fn has_piece(verdict: Verdict, len: usize) -> bool
    ensures { result ≡ has_piece verdict len }
{
    match verdict {
        Verdict::Open => true,
        Verdict::Whole => len > 0,
        Verdict::Faulty { .. } => len >= PIECE,
    }
}

/// The row that cleans up from the message file on, after a failed call that has this status.
fn clean_mess(number: u64, answer: &Answer, status: u8) -> Row
    ensures { result ≡ Row.CleanMess number (failure answer.now status) }
{
    let status = failure(answer, status);
    Row::CleanMess { number, status }
}

/// The row that cleans up from the intd file on, after a failed call that has this status.
fn clean_intd(number: u64, answer: &Answer, status: u8) -> Row
    ensures { result ≡ Row.CleanIntd number (failure answer.now status) }
{
    let status = failure(answer, status);
    Row::CleanIntd { number, status }
}

/// A failed call ends with this status: out of memory has its own.
fn failure(answer: &Answer, status: u8) -> u8
    ensures { result ≡ failure answer.now status }
{
    match answer {
        Answer::Refused(FsError::Memory) => MEMORY,
        _ => status,
    }
}
