// What a spawner keeps.

use crate::Row;
use mail_bytes::ByteText;
use queue_limits::MAX_SLOTS;
use spawn_protocol::{Inbox, Request};

/// How many programs it runs at once, in the slots from 0 on.
pub const SLOTS: usize = MAX_SLOTS as usize;

/// What a spawner keeps: where it stands, and what its steps need.
#[derive(Drop)]
pub struct Place {
    /// Where it stands.
    pub row: Row,
    /// What it holds of its requests.
    pub inbox: Inbox,
    /// The request at work, or the last one.
    pub request: Request,
    /// The name of its message's file.
    pub name: ByteText,
    /// What was read of the message; once its program is to be started, what that is given.
    pub message: ByteText,
    /// What the program printed whose end is dealt with.
    pub output: ByteText,
    /// The report that is due: its slot, its letter and text, and NUL.
    pub report: ByteText,
    /// In which slots a program runs whose status wasn't taken yet.
    pub running: [bool; SLOTS],
}
