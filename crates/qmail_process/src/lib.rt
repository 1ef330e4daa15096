//! A command over the real things: lends a call (`top_call`) the real standard input, output and error, the files, the clock and the
//! children. The program's call is the one public call, `qmail`.
//!
//! The words of the command line name the file of the envelope and the directory of the queue, and whether the command has
//! children. Without a directory the disk is an empty one in memory. A command without children gets posts and a spawner in
//! memory, which it doesn't touch; one that has them gets processes of the system, and a gate that rests until one of them
//! tells something. A member of a generation holds its lock all the while; a sender waits first until no member of an earlier
//! generation is left, and ends with 84 if there is another sender. An injector that ended well wakes a sender that rests (`trigger`).
//!
//! # What is claimed
//!
//! - The call was made with the words that were told, or with none if the queue's directory has no name, and its status is the exit
//!   status; or none was made, and the status is that of a refusal: `run`.
//!
//! What the call is handed, its locks and its gates are shown by tests alone, and so is what wakes a sender.
#![tactic(auto)]

mod child_limits;
mod child_signals;
mod descriptors;
mod looks;
mod owner;
mod process;
mod reading;
mod told;
mod trigger;
mod watching;

pub use process::{run, words_of};
