// The rows of the sender's table.

use crate::{FinishRow, Reading, Search, StartRow, SweepRow};
use call_fs::Fd;
use send_known::Channel;

/// A place in a turn between two steps: what comes next is decided by the moment and by what is ready.
#[derive(Clone, Copy)]
pub enum Point {
    /// At the beginning of a turn: the taking from the local spawner comes first.
    TakeLocal,
    /// The taking from the remote spawner comes first.
    TakeRemote,
    /// The marks that reports lead to come first.
    Reports,
    /// The pass of this channel comes first; whether the turn may still begin one there.
    Pass(Channel, bool),
    /// A message to finish comes first.
    Finish,
    /// The sweep comes first.
    Sweep,
}

/// Where a mark is made: the channel, the message, and the place of the record's letter in the channel file.
#[derive(Clone, Copy)]
pub struct Marked {
    /// The channel.
    pub channel: Channel,
    /// The number of the message.
    pub n: u64,
    /// The place of the letter, from 0.
    pub place: u64,
}

/// The steps of a mark, and of the note that is written before it if the recipient couldn't be delivered to.
#[derive(Clone, Copy)]
pub enum MarkRow {
    /// Opens the bounce file, to put a note at its end.
    Note,
    /// Writes the note: at the step of that.
    Noting,
    /// Opens the channel file for writing.
    Open,
    /// Overwrites the letter by `D`.
    Write(Fd),
    /// Closes it; whether the letter was written.
    Close(Fd, bool),
}

/// Where the sender stands: between two steps, or at a step.
#[derive(Clone, Copy)]
pub enum Row {
    /// At a step of the start.
    Start(StartRow),
    /// In a turn, between two steps.
    Turn(Point),
    /// Takes what a spawner reports.
    TakeLink(Channel),
    /// At a step of a mark.
    Mark(MarkRow, Marked),
    /// Unlinks a channel file each of whose records reads `D`; where the turn then goes on.
    UnlinkFile {
        channel: Channel,
        n: u64,
        point: Point,
    },
    /// Reads a channel file, to begin a pass over it: the moment of its open.
    ReadFile {
        channel: Channel,
        n: u64,
        begun: u64,
        reading: Reading,
    },
    /// Gives a request of the open pass.
    Request(Channel),
    /// Searches `todo`.
    FindTodo(Search),
    /// At a step of the todo pass.
    InTodo,
    /// At a step of the finish of a message.
    Finish(FinishRow, u64),
    /// At a step of the sweep.
    Sweep(SweepRow),
    /// Has ended with this exit status.
    Ended(u8),
}
