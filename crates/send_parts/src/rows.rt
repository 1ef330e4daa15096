// Rows of the sender's table that stand by themselves: of its start, of the finish of a message, of the sweep, and of the search
// of `todo`.

use crate::Reading;
use address_rules::ControlFile;

/// The steps of the start. A number `split` counts the 23 directories from 0.
#[derive(Clone, Copy)]
pub enum StartRow {
    /// Reads a control file.
    Control(ControlFile, Reading),
    /// Takes the local spawner's byte.
    GreetLocal,
    /// Takes the remote spawner's byte; how many local deliveries may run at once.
    GreetRemote {
        limit: u8,
    },
    /// Searches a directory of info files.
    Scan {
        split: u64,
    },
    /// Asks whether a message of which there is an info file has a todo file.
    StatTodo {
        split: u64,
        n: u64,
    },
    /// Reads its info file.
    ReadInfo {
        split: u64,
        n: u64,
        reading: Reading,
    },
    /// Asks of what moment that is.
    StatInfo {
        split: u64,
        n: u64,
    },
    /// Asks whether there is a file of the local channel.
    StatLocal {
        split: u64,
        n: u64,
        birth: u64,
    },
    /// Asks whether there is a file of the remote channel; whether there is one of the local channel.
    StatRemote {
        split: u64,
        n: u64,
        birth: u64,
        local: bool,
    },
    /// The start is over: the first turn begins.
    Over,
    /// The start failed: the sender ends with this exit status.
    Ended(u8),
}

/// The steps by which a message is finished.
#[derive(Clone, Copy)]
pub enum FinishRow {
    /// Opens its bounce file.
    OpenBounce,
    /// Returns it: at the step of that.
    Return,
    /// Unlinks its info file.
    UnlinkInfo,
    /// Gives the cleaner the command to remove it.
    Give,
    /// Takes the cleaner's answer.
    Take,
    /// A step failed: it is finished later.
    Later,
    /// It is finished: its number is forgotten.
    Over,
    /// The link to the cleaner is lost.
    Lost,
}

/// The steps of a sweep. A number `split` counts the 23 directories from 0.
#[derive(Clone, Copy)]
pub enum SweepRow {
    /// Begins: searches the first directory of message files.
    First,
    /// Searches a directory for the next name.
    Next { split: u64 },
    /// Asks of what moment a message file is that isn't known.
    StatMess { split: u64, n: u64 },
    /// Asks whether it has a todo file.
    StatTodo { split: u64, n: u64 },
    /// Asks whether it has an info file; whether it has a todo file.
    StatInfo { split: u64, n: u64, todo: bool },
    /// Gives the cleaner the command to remove it.
    Give { split: u64, n: u64 },
    /// Takes the cleaner's answer.
    Take { split: u64, n: u64 },
    /// All directories were searched.
    Over,
    /// The link to the cleaner is lost.
    Lost,
}

/// From where `todo` is searched.
#[derive(Clone, Copy)]
pub enum Search {
    /// After the number that was left last; from the start if none was.
    AfterLeft,
    /// From the start.
    FromStart,
    /// After a name that is no number; whether the search has begun again from the start.
    AfterStray { again: bool },
}

impl Search {
    ghost use Rattle.std.specs.Prelude.{◌≡◌};
    ghost use Rattle.send_parts.specs.Rows.{is_again};

    /// Whether it has begun again from the start.
    pub fn is_again(self) -> bool
        ensures { result ≡ is_again self }
    {
        match self {
            Search::AfterLeft => false,
            Search::FromStart => true,
            Search::AfterStray { again } => again,
        }
    }
}
