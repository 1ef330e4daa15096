// The rows of a todo pass's table, and its ends.

use crate::{Part, Target};
use call_fs::Fd;

/// Why a pass left its number as it was.
#[derive(Clone, Copy)]
pub enum Why {
    /// A call at this file failed, or was told that a name is missing or taken, when that is no answer of its row.
    Fault(Part),
    /// The message file is missing.
    NoMess,
    /// The bytes of the todo file are no todo text.
    BadRecord {
        /// The place, from 0, of the first byte that no todo text has there, or the length of bytes that end too early.
        at: u64,
    },
    /// The cleaner didn't answer `+`.
    Unclean,
    /// A call found no memory.
    Memory,
}

/// How a pass ended.
#[derive(Clone, Copy)]
pub enum End {
    /// The message is preprocessed: its info file and its channel files are complete and on the disk, and the cleaner has
    /// removed its todo file.
    Done {
        /// The number of the message.
        n: u64,
        /// Whether it has local recipients.
        has_local: bool,
        /// Whether it has remote recipients.
        has_remote: bool,
    },
    /// The message stays as it was queued, and another pass may try again.
    Left {
        /// The number of the message.
        n: u64,
        /// Why it was left.
        why: Why,
    },
}

/// Where a pass stands: at the step that is named. `fd` is an open file.
#[derive(Clone, Copy)]
pub enum Row {
    /// Unlinks what an earlier pass left: info, then local, then remote.
    Clear { target: Target },
    /// Looks at the message file.
    StatMess,
    /// Opens the todo file.
    OpenTodo,
    /// Reads its next piece.
    ReadTodo { fd: Fd },
    /// Closes it, read to its end.
    CloseTodo { fd: Fd },
    /// Creates a file.
    Create { target: Target },
    /// Appends to it the piece after so many bytes.
    Append { target: Target, fd: Fd, done: usize },
    /// Syncs it.
    Sync { target: Target, fd: Fd },
    /// Closes it, complete and synced.
    Close { target: Target, fd: Fd },
    /// Closes what is open after a failure.
    Shut { fd: Fd, why: Why },
    /// Gives the cleaner its command.
    Give,
    /// Takes the cleaner's answer.
    Answer,
    /// Has ended: the message is preprocessed.
    Done,
    /// Has ended: the message stays as it was.
    Left { why: Why },
    /// Has ended: the link to the cleaner has ended or failed, so no answer comes. The message stays as it was.
    Lost,
}
