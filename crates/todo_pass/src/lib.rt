//! Preprocessing: the sender's work on one queued message, which makes its info file and its channel files of its todo
//! file and has the cleaner remove that (qmail-send(8); INTERNALS, "How messages are preprocessed").
//!
//! The contract of this crate: a pass needs what its table says after its own past (`Pass::done`, `TodoPass`). It ends
//! done only when the files of the route are complete and on the disk and the cleaner answered `+` (`laws`).
//!
//! `Pass` is the machine without its controls. A sender that holds both keeps one pass and begins it anew for each number;
//! `TodoPass` borrows the controls, and is a machine like any other. `work` and `learn` are the steps of a pass in a sender's
//! hands: with the lines of its log, and after the last one what is known of the message.
//!
//! # What is claimed
//!
//! - A pass does what its table says after each past that it stands for, takes memory only at what comes of a read
//!   of todo and of its close, and is unchanged after `Memory`. It uses only descriptors that it holds open. If
//!   other programs leave alone what the pass holds: from its command to the cleaner to a good end its info and
//!   channel files are complete and synced. They are those of the sender and of the route of each recipient of the
//!   todo text that was read; a channel without recipients has no file. Until the command is given todo holds just
//!   what was read. Each record stands at its place, and the text of each channel is a channel file that `records`
//!   takes, if what the controls say has no NUL. It ends done only after `+`; each reason to leave a number has its
//!   cause in its past. A todo file is read as what it says exactly if it is a todo text, and else its first bad
//!   byte is told: `Pass::{begin, need, done, end}`, `TodoPass::{new, look, need, done}`: clauses `moved`,
//!   `memory`, `stands`, and its `impl Machine`; `laws::{files_are_made_before_the_command,
//!   a_pass_alone_is_left_alone, todos_are_exact, each_record_is_at_its_place, channels_are_records,
//!   ends_have_causes}`.
//! - What a step leaves in the log, and what is known of a message that was preprocessed; after out of memory pass, log
//!   and what is known are as before: `work`, `learn`.
#![tactic(auto)]

mod arguments;
mod head;
pub mod laws;
mod lines;
mod machine;
mod names;
mod part;
mod pass;
mod row;
mod sorted;
mod sorter;
mod sorting;
mod steps;
mod working;

pub use arguments::Arguments;
pub use lines::{put_left, put_queued, queued_room};
pub use machine::TodoPass;
pub use names::number_text;
pub use part::{Part, Target};
pub use pass::Pass;
pub use row::{End, Row, Why};
pub use sorted::Sorted;
pub use steps::is_plus;
pub use working::{learn, work};
