//! The streams of a real system: sources over readers, as standard input and a file that is opened late, and a sink over
//! a writer, as standard output and standard error. Also the clock of the system, what stands for words of the command
//! line that couldn't be read, the exit status, and the locks by which a queue has one generation at a time.
//!
//! The contract of this crate: each is what its trait in outside asks for, and counts a failure of the stream below it as
//! one. What a real stream or clock holds no contract can say, so a source and a clock don't tell; of a writer that tells
//! what it holds, it holds what the sink was given. The calls are those of read(2), write(2), clock_gettime(2) and getpid(2).
//!
//! # What is claimed
//!
//! - The adapters count a failure of standard input, output and error, and of the file of the envelope, as one. A
//!   writer that tells what it holds has taken all that a sink says was given, and after a failure a prefix of it;
//!   a read of the envelope fails if the words name no file. The clock never falls and tells no moment past the
//!   last; which moment follows for given readings of the system's clock and of the monotonic one; words that can't be read are none, which is no command, unless
//!   memory ran out, which is an error. The exit status is the call's, or 51 if memory ran out before it: `impl
//!   Source`, `impl Sink` (`give`: `cause`, `all`, `some`), `impl Clock`; `Pace::next`, `next_moment`; `LateFile::read`: `none`;
//!   `unread_words`; `status_of`.
//!
//! Of the locks nothing is claimed: they are a help for who runs a queue (qmail-send(8)).
#![tactic(auto)]

mod host_clock;
mod late_file;
mod pace;
mod queue_locks;
mod reader_source;
mod status;
mod unread;
mod writer_sink;

pub use host_clock::HostClock;
pub use late_file::LateFile;
pub use pace::{MINUTE, Pace};
pub use queue_locks::{MemberLock, is_locked, lock_member, lock_sender};
pub use reader_source::ReaderSource;
pub use status::status_of;
pub use unread::unread_words;
pub use writer_sink::WriterSink;
