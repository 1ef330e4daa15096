// What a line, or the end of the lines, leads to.

use crate::{Dropping, Failure};
use local_parts::Injection;
use mail_bytes::ByteText;

/// What a line of the instructions, or their end, leads to.
#[derive(Drop)]
pub enum Step {
    /// All was done; this is reported.
    Report(ByteText),
    /// The forwards are injected.
    Start(Injection),
    /// Runs this command.
    Run(ByteText),
    /// Drops the message into a maildir.
    Drop(Dropping),
    /// The delivery fails.
    Fail(Failure),
}
