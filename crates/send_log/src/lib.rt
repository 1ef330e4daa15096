//! The sender's log: its lines, and the text of it that is kept until it is written (qmail-log(5), qmail-send(8)).
//!
//! The contract of this crate: `Log::put` puts exactly the text of a line at the end of the log, and takes no memory for it,
//! since its room was made by `Log::reserve` before the sender acts. `lines_are_exact` says that a line is one line of
//! printed bytes, and that lines with the same text are of one kind, with the same numbers and words.
//!
//! # What is claimed
//!
//! - The text of each line of the sender's log goes to the end of what is kept, and takes no memory, since its room
//!   was made before; what comes of a report by its letter: `Log::{new, reserve, release, put, clear, as_slice}`,
//!   `Line::room`, `Outcome::of_report`.
//! - A line is printed bytes and spaces, and a newline. Two lines have the same text exactly if they are of one
//!   kind, with the same numbers and words, and show addresses and reports that look the same: the law
//!   `lines_are_exact`: `printed`, `same` (by `IsSame`).
#![tactic(auto)]

mod kept;
mod laws;
mod lines;
mod pieces;
mod texts;

pub use kept::Log;
pub use laws::lines_are_exact;
pub use lines::{LINE_ROOM, Line, Load, Outcome, Target};
