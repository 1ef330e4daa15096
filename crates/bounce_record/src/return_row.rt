// The rows of a message that is returned.

use call_fs::Fd;

/// Where the return of a message stands: at the step that is named. `fd` is an open file, `pid` the process number of the
/// bounce's injector.
#[derive(Clone, Copy)]
pub enum ReturnRow {
    /// Opens the bounce file.
    Open,
    /// Reads its next piece.
    ReadNotes { fd: Fd },
    /// Closes it, read to its end.
    CloseNotes { fd: Fd },
    /// Opens the message file.
    OpenMessage,
    /// Reads its next piece.
    ReadMessage { fd: Fd },
    /// Closes it, read to its end.
    CloseMessage { fd: Fd },
    /// Closes what is open after a failure.
    Shut { fd: Fd },
    /// Starts the injector of the bounce.
    Start,
    /// Gives it the bounce and its envelope.
    Give { pid: u32 },
    /// Waits for its end, and takes its status.
    Await { pid: u32 },
    /// Unlinks the bounce file, the bounce being queued.
    Unlink,
    /// Unlinks the bounce file of a double bounce that came back, which nobody is told of.
    Discard,
    /// Has ended: there is no bounce file.
    Over,
    /// Has ended: a step failed. The bounce file may still be there.
    Failed,
}
