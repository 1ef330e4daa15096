// The rows of a drop's table, and its ends.

use call_fs::Fd;

/// The exit status of a delivery that another try may make (qmail-command(8)).
pub const DEFER: u8 = 111;

/// Which of its three names a drop tries.
#[derive(Clone, Copy)]
pub enum Attempt {
    /// `TIME.PID.HOST`.
    First,
    /// `TIME.PID_1.HOST`.
    Second,
    /// `TIME.PID_2.HOST`.
    Third,
}

/// Why nothing was dropped.
#[derive(Clone, Copy)]
pub enum Why {
    /// A call failed, a directory is missing, or a name was taken: another try may go well.
    Defer,
    /// A call found no memory.
    Memory,
}

/// What a drop came to.
#[derive(Clone, Copy)]
pub enum Outcome {
    /// The message stands in `new`.
    Dropped,
    /// It doesn't.
    Failed(Why),
}

/// How a drop ended.
#[derive(Clone, Copy)]
pub enum End<'a> {
    /// The message stands in `new`.
    Dropped {
        /// Its name there, with the path of the maildir.
        name: &'a [u8],
    },
    /// Nothing was dropped, and another try may go well.
    Defer,
    /// Nothing was dropped, since a call found no memory.
    Memory,
}

/// Where a drop stands: at the step that is named. `fd` is its open file.
#[derive(Clone, Copy)]
pub enum Row {
    /// Creates the file in `tmp`.
    Create { attempt: Attempt },
    /// Appends the next piece of the message.
    Append { attempt: Attempt, fd: Fd },
    /// Syncs the file, which is complete.
    Sync { attempt: Attempt, fd: Fd },
    /// Closes it.
    Close { attempt: Attempt, fd: Fd },
    /// Links it into `new`.
    Link { attempt: Attempt },
    /// Closes it after a failure.
    Shut { attempt: Attempt, fd: Fd, why: Why },
    /// Unlinks it in `tmp`.
    Unlink { attempt: Attempt, outcome: Outcome },
    /// Has ended.
    Ended { attempt: Attempt, outcome: Outcome },
}
