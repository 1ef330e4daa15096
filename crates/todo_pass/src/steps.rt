// Where an answer leads that changes nothing but the row: the plain part of the table of a todo pass.
ghost use Rattle.std.specs.Prelude.{◌≡◌};
ghost use Rattle.call_fs.specs.Program.{came_of};
ghost use Rattle.todo_pass.specs.Rows.{is_done};
ghost use Rattle.todo_pass.specs.Sorting.{has};
ghost use Rattle.todo_pass.specs.Table.{answer_row, clear_row, cleared, create_row, give_row, made_row, local_row, remote_row, open_row, sync_row, why_of};

use crate::{Part, Row, Sorted, Target, Why};
use call_fs::{Answer, Fd, FsError, Got};

/// Why a pass is left whose call at this file got this answer.
pub fn why_of(answer: &Answer, part: Part) -> Why
    ensures { result ≡ why_of answer.now part }
{
    match answer {
        Answer::Refused(FsError::Memory) => Why::Memory,
        _ => Why::Fault(part),
    }
}

/// After the unlink of what an earlier pass left, which may be missing.
pub fn clear_row(target: Target, answer: &Answer) -> Row
    ensures { result ≡ clear_row target answer.now }
{
    match answer {
        Answer::Done | Answer::Refused(FsError::NotThere) => cleared(target),
        _ => Row::Left {
            why: why_of(answer, target.part()),
        },
    }
}

/// After a file of an earlier pass is gone.
fn cleared(target: Target) -> Row
    ensures { result ≡ cleared target }
{
    match target {
        Target::Info => Row::Clear {
            target: Target::Local,
        },
        Target::Local => Row::Clear {
            target: Target::Remote,
        },
        Target::Remote => Row::StatMess,
    }
}

/// After the open of the todo file.
pub fn open_row(answer: &Answer) -> Row
    ensures { result ≡ open_row answer.now }
{
    match answer {
        Answer::Opened(fd) => Row::ReadTodo { fd: *fd },
        _ => Row::Left {
            why: why_of(answer, Part::Todo),
        },
    }
}

/// After the creation of a file.
pub fn create_row(target: Target, answer: &Answer) -> Row
    ensures { result ≡ create_row target answer.now }
{
    match answer {
        Answer::Created(fd, _) => Row::Append {
            target,
            fd: *fd,
            done: 0,
        },
        _ => Row::Left {
            why: why_of(answer, target.part()),
        },
    }
}

/// After the sync of a file.
pub fn sync_row(target: Target, fd: Fd, answer: &Answer) -> Row
    ensures { result ≡ sync_row target fd answer.now }
{
    match answer {
        Answer::Done => Row::Close { target, fd },
        _ => Row::Shut {
            fd,
            why: why_of(answer, target.part()),
        },
    }
}

/// After a file is complete: the next channel that has recipients, then the command to the cleaner.
pub fn made_row(target: Target, sorted: &Sorted) -> Row
    ensures { result ≡ made_row target sorted.now }
{
    let remote = has(sorted.remote.as_slice());
    match target {
        Target::Info => local_row(has(sorted.local.as_slice()), remote),
        Target::Local => remote_row(remote),
        Target::Remote => Row::Give,
    }
}

/// The local file if there is one to make, else what comes after it.
fn local_row(local: bool, remote: bool) -> Row
    ensures { result ≡ local_row local remote }
{
    if local {
        Row::Create {
            target: Target::Local,
        }
    } else {
        remote_row(remote)
    }
}

/// The remote file if there is one to make, else the command.
fn remote_row(remote: bool) -> Row
    ensures { result ≡ remote_row remote }
{
    if remote {
        Row::Create {
            target: Target::Remote,
        }
    } else {
        Row::Give
    }
}

/// Whether the text of a channel has a record.
pub fn has(text: &[u8]) -> bool
    ensures { result ≡ has text.now }
{
    match text {
        [] => false,
        _ => true,
    }
}

/// After the command to the cleaner was given, or couldn't be.
pub fn give_row(got: &Got<'_>) -> Row
    ensures { result ≡ give_row (came_of got.now) }
{
    match got {
        Got::Gave => Row::Answer,
        _ => Row::Lost,
    }
}

/// Whether the cleaner answered `+`.
pub fn is_plus(got: &Got<'_>) -> bool
    ensures { result ≡ is_done (answer_row (came_of got.now)) }
{
    match got {
        Got::Took(bytes) => *bytes == b"+".as_slice(),
        _ => false,
    }
}

/// After the answer of the cleaner, or the end of the link.
pub fn answer_row(got: &Got<'_>) -> Row
    ensures { result ≡ answer_row (came_of got.now) }
{
    match got {
        Got::Took(bytes) if *bytes == b"+".as_slice() => Row::Done,
        Got::Took(_) => Row::Left { why: Why::Unclean },
        _ => Row::Lost,
    }
}
