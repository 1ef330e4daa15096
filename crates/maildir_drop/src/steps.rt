// Where an answer leads: the plain part of the table of a drop.
ghost use Rattle.std.specs.Prelude.{◌≡◌};
ghost use Rattle.maildir_drop.specs.Table.{begin_row, create_row, failed, link_row, next_row, sync_row, taken_row, why_of};

use crate::names::is_name;
use crate::{Attempt, DropNames, Outcome, Row, Why};
use call_fs::{Answer, Fd, FsError};

/// Why nothing was dropped whose call got this answer.
pub fn why_of(answer: &Answer) -> Why
    ensures { result ≡ why_of answer.now }
{
    match answer {
        Answer::Refused(FsError::Memory) => Why::Memory,
        _ => Why::Defer,
    }
}

/// The end of a drop that failed with no file made.
fn failed(attempt: Attempt, why: Why) -> Row
    ensures { result ≡ failed attempt why }
{
    let outcome = Outcome::Failed(why);
    Row::Ended { attempt, outcome }
}

/// A try begins, if its name has the form of one; else its directory counts as missing, and no call is made.
pub fn begin_row(names: &DropNames, attempt: Attempt) -> Row
    ensures { result ≡ begin_row names.now attempt }
{
    if is_name(names.pair(attempt).tmp.as_slice()) {
        Row::Create { attempt }
    } else {
        failed(attempt, Why::Defer)
    }
}

/// After a name was taken: the next one, and after the third none.
fn taken_row(names: &DropNames, attempt: Attempt) -> Row
    ensures { result ≡ taken_row names.now attempt }
{
    match attempt {
        Attempt::First => begin_row(names, Attempt::Second),
        Attempt::Second => begin_row(names, Attempt::Third),
        Attempt::Third => failed(attempt, Why::Defer),
    }
}

/// Writes on, or syncs what is complete.
pub fn next_row(attempt: Attempt, fd: Fd, is_complete: bool) -> Row
    ensures { result ≡ next_row attempt fd is_complete }
{
    if is_complete {
        Row::Sync { attempt, fd }
    } else {
        Row::Append { attempt, fd }
    }
}

/// After the creation of the file.
pub fn create_row(names: &DropNames, attempt: Attempt, is_complete: bool, answer: &Answer) -> Row
    ensures { result ≡ create_row names.now attempt is_complete answer.now }
{
    match answer {
        Answer::Created(fd, _) => next_row(attempt, *fd, is_complete),
        Answer::Refused(FsError::Exists) => taken_row(names, attempt),
        _ => failed(attempt, why_of(answer)),
    }
}

/// After its sync.
pub fn sync_row(attempt: Attempt, fd: Fd, answer: &Answer) -> Row
    ensures { result ≡ sync_row attempt fd answer.now }
{
    match answer {
        Answer::Done => Row::Close { attempt, fd },
        _ => Row::Shut {
            attempt,
            fd,
            why: why_of(answer),
        },
    }
}

/// After its link into `new`.
pub fn link_row(attempt: Attempt, answer: &Answer) -> Row
    ensures { result ≡ link_row attempt answer.now }
{
    let outcome = match answer {
        Answer::Done => Outcome::Dropped,
        _ => Outcome::Failed(why_of(answer)),
    };
    Row::Unlink { attempt, outcome }
}
