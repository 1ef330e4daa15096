// The rows of a spawner's table.

use call_fs::Fd;

/// Where a spawner stands: at what is named.
#[derive(Clone, Copy)]
pub enum Row {
    /// Tells how many programs it runs at once.
    Greet,
    /// Between two steps: what is ready decides what it does next.
    Idle,
    /// Takes more requests.
    TakeInput,
    /// Opens the message's file.
    OpenMess,
    /// Reads its next piece.
    ReadMess { fd: Fd },
    /// Closes it. `whole`: it was read to its end, and no read failed.
    CloseMess { fd: Fd, whole: bool },
    /// Starts the program.
    Start,
    /// Gives the program what it gets of the message.
    Feed,
    /// Takes what the program of this slot printed, which has ended.
    TakeOutput { slot: u8 },
    /// Takes its exit status.
    TakeStatus { slot: u8 },
    /// Gives a report.
    Report,
    /// Has ended with this exit status.
    Ended { status: u8 },
}
