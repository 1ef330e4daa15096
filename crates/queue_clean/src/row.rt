// The rows of a cleaner's table.
ghost use Rattle.std.specs.Prelude.{◌≡◌};

use crate::Command;

/// What a cleaner answers to a command.
#[derive(Clone, Copy)]
pub enum Reply {
    /// `+`: both names are gone.
    Removed,
    /// `!`: a name could not be removed.
    Failed,
    /// `x`: that was no command.
    Unknown,
}

impl Reply {
    ghost use Rattle.std.specs.Prelude.{◌≡◌};
    ghost use Rattle.queue_clean.specs.Table.{reply_text};

    /// The byte that is given.
    pub(crate) fn text(self) -> &'static [u8]
        ensures { result.now ≡ reply_text self }
    {
        match self {
            Reply::Removed => b"+",
            Reply::Failed => b"!",
            Reply::Unknown => b"x",
        }
    }
}

/// Where a cleaner stands: at what is named.
#[derive(Clone, Copy)]
pub enum Row {
    /// Searches `pid` for the name after the one that it got last.
    FindPid,
    /// Asks of what moment that name's file is.
    StatPid,
    /// The file was last written at this moment, in seconds since 1 January 1970 UTC. If that is more than 36 hours
    /// before the moment now, unlinks the name, else searches for the next one.
    JudgePid { moment: u64 },
    /// Takes more of its input.
    TakeInput,
    /// Unlinks `intd/N`.
    UnlinkIntd { command: Command },
    /// Unlinks `mess/S/N` or `todo/N`.
    UnlinkSecond { command: Command },
    /// Gives its answer to a command.
    Answer { reply: Reply },
    /// Has ended with this exit status.
    Ended { status: u8 },
}

impl Row {
    ghost use Rattle.std.specs.Prelude.{◌≡◌, option_map};
    ghost use Rattle.queue_paths.specs.Names.{name_of};
    ghost use Rattle.queue_clean.specs.Machine.{unlinked};
    ghost use Rattle.queue_clean.specs.Table.{first_row};

    /// The name that it unlinks for a command.
    pub(crate) fn unlinked(self) -> Option<queue_paths::Name>
        ensures { option_map name_of result ≡ unlinked self }
    {
        match self {
            Row::UnlinkIntd { command } => Some(command.first_name()),
            Row::UnlinkSecond { command } => Some(command.second_name()),
            _ => None,
        }
    }

    /// The first row of a command; one that is none is answered.
    pub(crate) fn first(command: Option<Command>) -> Row
        ensures { result ≡ first_row command }
    {
        match command {
            None => Row::Answer {
                reply: Reply::Unknown,
            },
            Some(command) => Row::UnlinkIntd { command },
        }
    }
}
