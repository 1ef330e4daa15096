// The rows of an injector's table.
ghost use Rattle.std.specs.Prelude.{◌≡◌};

use crate::Part;
use call_fs::Fd;

/// Where an injector stands: at the call that is named. `number` is the number of the message file and so of the message;
/// `fd` is an open file; `done` counts 8192 bytes for each piece of a text that was written, the last one as a whole one
/// too; `status` is that of the failure that a clean up ends with.
#[derive(Clone, Copy)]
pub enum Row {
    /// Creates the pid name with this number at its end, from 1 to 9.
    Create { seq: u8 },
    /// Links the pid name to the message's name.
    LinkMess { seq: u8, number: u64, fd: Fd },
    /// Unlinks the pid name.
    UnlinkPid { seq: u8, number: u64, fd: Fd },
    /// Appends the next piece of the first line and the message.
    AppendMess { number: u64, fd: Fd, done: usize },
    /// Syncs the message file.
    SyncMess { number: u64, fd: Fd },
    /// Creates the intd file.
    CreateIntd { number: u64 },
    /// Appends the next piece of the todo text.
    AppendTodo { number: u64, fd: Fd, done: usize },
    /// Syncs the intd file.
    SyncTodo { number: u64, fd: Fd },
    /// Links intd to todo, by which the message is queued.
    LinkTodo { number: u64 },
    /// Unlinks intd after a failure.
    CleanIntd { number: u64, status: u8 },
    /// Unlinks the message file after a failure.
    CleanMess { number: u64, status: u8 },
    /// Has ended with 0: the message is queued.
    Queued,
    /// Has ended with another status.
    Failed { status: u8 },
}

impl Row {
    ghost use Rattle.std.specs.Prelude.{◌≡◌};
    ghost use Rattle.queue_inject.specs.Rows.{seq_in, number_in, part_in};

    /// The number at the end of the pid name, if the call has that name.
    pub(crate) fn seq(self) -> Option<u8>
        ensures { result ≡ seq_in self }
    {
        match self {
            Row::Create { seq } | Row::LinkMess { seq, .. } | Row::UnlinkPid { seq, .. } => Some(
                seq,
            ),
            _ => None,
        }
    }

    /// The number of the message, if it has one by then and the injector hasn't ended.
    pub(crate) fn number(self) -> Option<u64>
        ensures { result ≡ number_in self }
    {
        match self {
            Row::Create { .. } | Row::Queued | Row::Failed { .. } => None,
            Row::LinkMess { number, .. } | Row::UnlinkPid { number, .. } => Some(number),
            Row::AppendMess { number, .. } | Row::SyncMess { number, .. } => Some(number),
            Row::CreateIntd { number } | Row::LinkTodo { number } => Some(number),
            Row::AppendTodo { number, .. } | Row::SyncTodo { number, .. } => Some(number),
            Row::CleanIntd { number, .. } | Row::CleanMess { number, .. } => Some(number),
        }
    }

    /// The part of the input whose text is written next, if one is.
    pub(crate) fn part(self) -> Option<Part>
        ensures { result ≡ part_in self }
    {
        match self {
            Row::Create { .. } | Row::LinkMess { .. } | Row::UnlinkPid { .. } => Some(
                Part::Message,
            ),
            Row::AppendMess { .. } => Some(Part::Message),
            Row::AppendTodo { .. } => Some(Part::Envelope),
            _ => None,
        }
    }
}
