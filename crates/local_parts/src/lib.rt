//! What a local delivery works with (qmail-local(8), dot-qmail(5)): its message in blocks, its instructions line by line, the
//! lines that it puts before a message, what it injects for the addresses that it forwards to, and what it prints.
//!
//! The contract of this crate: each function gives exactly what the definition of its name in `specs/` says of whole texts.
//! `netstrings_are_exact` says which inputs are a message.
//!
//! It is a crate of its own, and no part of local_deliver, for the checker alone: so a check of either stays short.
//!
//! # What is claimed
//!
//! - Which input is a message: exactly the decimal length of a message under 2^64 bytes, a colon, the message and a
//!   comma, and nothing after it: `message_in`; the law `netstrings_are_exact` (by `IsNetstring`).
//! - What a delivery is started with, by the words of its command line, its user's number and its process number:
//!   `LocalArgs::of` (by `local_args`).
//! - Which message is looping: its header, the lines up to the first empty one, has the line `Delivered-To:
//!   LOCAL@DOMAIN`: `is_looping`, `delivered_to`.
//! - The name of the host by control/me, and none exactly if that is no good control file: `host_in`.
//! - Which of a home's files handles an address, and its name. The instructions of a file, and the default ones;
//!   which of their lines is to be done next, which are done, and that at 99 the later ones are passed over:
//!   `chosen_by`, `file_name`, `course_of`, `default_course`, `Course::{new, work, later_work, pass, cut,
//!   lines_so_far, lines}`.
//! - The file of a maildir: both lines and the message, in blocks of at most 8192 bytes: `maildir_blocks`,
//!   `Blocks::{new, len, put, put_all, put_into, part, parts, front, into_blocks}`.
//! - What is injected for the addresses of forwards: one netstring of `Delivered-To` and the message, one of the
//!   envelope; none exactly if there are no forwards; the sender by the owner files: `injection_of`,
//!   `forward_sender`.
//! - The exit status and the text of a delivery by that of a command or of the injector, and the text of one that
//!   went well: `command_status`, `command_report`, `forward_status`, `forward_report`, `did_report`,
//!   `forwarded_report`.
#![tactic(auto)]

mod arguments;
mod blocks;
mod choosing;
mod course;
mod endings;
mod forwarding;
mod host;
mod inputs;
pub mod laws;
mod looping;
mod names;
mod tally;
mod texts;

pub use arguments::LocalArgs;
pub use blocks::Blocks;
pub use choosing::{chosen_by, file_name};
pub use course::{Course, Work, course_of, default_course};
pub use endings::{
    PERMANENT, TEMPORARY, command_report, command_status, forward_report, forward_status,
};
pub use forwarding::{Injection, forward_sender, injection_of};
pub use host::host_in;
pub use inputs::message_in;
pub use looping::is_looping;
pub use names::Names;
pub use tally::{did_report, forwarded_report};
pub use texts::{delivered_to, maildir_blocks};
