// The rows of a local delivery's table.

use call_fs::Fd;

/// A file that a local delivery reads.
#[derive(Clone, Copy)]
pub enum Wanted {
    /// control/me, for the name of the host.
    Host,
    /// A `.qmail` file, for the instructions.
    Instructions,
}

/// How the reading of a file went.
#[derive(Clone, Copy)]
pub enum Reading {
    /// It was read to its end.
    Whole,
    /// A read failed.
    Fault,
    /// A read found no memory.
    Memory,
}

/// Why a local delivery failed whose commands and whose injector of forwards have no part in it.
#[derive(Clone, Copy)]
pub enum Failure {
    /// Its input isn't a whole netstring, or couldn't be taken.
    Unreadable,
    /// The message has its Delivered-To line already.
    Looping,
    /// The home couldn't be read, or control/me, or the `.qmail` file.
    Home,
    /// The home has no file for the address.
    NoMailbox,
    /// The first line of the instructions is blank.
    BlankFirst,
    /// A line delivers to a mailbox file.
    Mailbox,
    /// A drop into a maildir failed.
    Maildir,
}

/// Where a local delivery stands: at what is named.
#[derive(Clone, Copy)]
pub enum Row {
    /// Takes its input.
    TakeInput,
    /// Opens a file.
    Open {
        wanted: Wanted,
    },
    /// Reads its next piece.
    Read {
        wanted: Wanted,
        fd: Fd,
    },
    /// Closes it.
    Close {
        wanted: Wanted,
        fd: Fd,
        reading: Reading,
    },
    /// Asks for the next name of the home.
    NextName,
    /// Drops the message into a maildir: at the next step of the drop.
    Drop,
    /// Runs a command.
    Run,
    /// Starts the injector of forwards.
    Start,
    /// Gives it the message and the envelope.
    Feed,
    /// Takes its exit status.
    TakeStatus,
    /// Gives its report, and then ends with this exit status.
    Report {
        status: u8,
    },
    /// Gives the text of a failure, and then ends with its exit status.
    Fail {
        failure: Failure,
    },
    /// Has ended with this exit status.
    Ended {
        status: u8,
    },
}
