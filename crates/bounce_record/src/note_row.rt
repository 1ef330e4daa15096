// The rows of a note that is written.

use call_fs::Fd;

/// Where the writing of a note stands: at the step that is named. `fd` is the open bounce file.
#[derive(Clone, Copy, PartialEq, Eq)]
pub enum NoteRow {
    /// Opens the bounce file, to append to it.
    Open,
    /// Creates it, since it is missing.
    Create,
    /// Asks how long the file is that was there.
    Stat { fd: Fd },
    /// Reads its last two bytes, or the one that it has.
    Read { fd: Fd, at: u64, len: u64 },
    /// Appends the piece of the text after so many bytes.
    Append { fd: Fd, done: usize },
    /// Syncs the file.
    Sync { fd: Fd },
    /// Closes it, the note being in it and on the disk.
    Close { fd: Fd },
    /// Closes it after a failure.
    Shut { fd: Fd },
    /// Has ended: the note is in the file and on the disk.
    Written,
    /// Has ended: a step failed. The file may hold a part of the note, or the note, which may not be on the disk.
    Failed,
}
