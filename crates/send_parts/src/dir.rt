// The directories that the sender searches.

/// A directory that the sender searches, name after name (INTERNALS, "Queue structure").
#[derive(Clone, Copy)]
pub enum Dir {
    /// `info/S`, S this split.
    Info(u64),
    /// `mess/S`, S this split.
    Mess(u64),
    /// `todo`.
    Todo,
}
