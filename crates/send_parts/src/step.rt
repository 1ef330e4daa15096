// What the sender does at a step.

use crate::Dir;
use address_rules::ControlFile;
use call_fs::{Fd, How, Port};
use queue_paths::Name;

/// What the sender does at a step, with numbers in place of names. Of a search the name after which it goes on, and of a
/// giving the bytes, are told beside it.
#[derive(Clone, Copy)]
pub enum Step {
    /// Opens a control file for reading.
    OpenControl(ControlFile),
    /// Opens a file of the queue.
    Open(Name, How),
    /// Reads the piece of 8192 bytes from this place on.
    Read(Fd, u64),
    /// Overwrites the byte at this place by `D`.
    Mark(Fd, u64),
    /// Closes a descriptor.
    Close(Fd),
    /// Unlinks a file of the queue.
    Unlink(Name),
    /// Asks for the state of a file of the queue.
    Stat(Name),
    /// Searches a directory for the next name.
    Search(Dir),
    /// Takes what a pipe holds.
    Take(Port),
    /// Gives bytes to a pipe.
    Give(Port),
    /// Gives the cleaner the command to remove a message: `foop/N`.
    Remove(u64),
    /// Does nothing.
    Wait,
    /// Has ended with this exit status.
    Ended(u8),
}
