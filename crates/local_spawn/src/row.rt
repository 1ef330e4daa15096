// The rows of a local spawner's table.

use call_fs::Fd;

/// Where a local spawner stands: at what is named.
#[derive(Clone, Copy)]
pub enum Row {
    /// Opens users/assign.
    OpenUsers,
    /// Reads its next piece.
    ReadUsers { fd: Fd },
    /// Closes it. `whole`: it was read to its end, and no read failed.
    CloseUsers { fd: Fd, whole: bool },
    /// Serves requests: where, its work says.
    Serves,
    /// Has ended, since it was out of memory in its start.
    OutOfMemory,
}
