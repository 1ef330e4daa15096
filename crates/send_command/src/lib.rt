//! The command `send`: the sender, with its cleaner and its spawners as children, run over a queue's disk, posts and a spawner of
//! processes (qmail-send(8)).
//!
//! The contract of this crate is that of one function: `send` starts a child for each link, does what a run of the sender's table
//! does over their channels, and at last ends their inputs and takes the status of each. Its log took the lines of its past.
//!
//! # What is claimed
//!
//! - The children of the links are started first, in order: `clean`, `lspawn`, `rspawn`. If one can't be started, no file call
//!   is made, no post is asked for and the log takes nothing; the status is 84, or 51 out of memory: `send` (by `WasUnstarted`).
//! - A whole run of the sender: each call, taking, giving, start, feeding and status is that of what was handed in. What was
//!   ready is what the posts gave and wasn't taken; they were asked until nothing was waiting before each event. Then the inputs
//!   of the links' children were ended, and the status of each was taken: `send` (by `WasRun`).
//! - The log took the lines of the whole past. With 51 and 53 the past may be one that was cut short, and the log then took a
//!   prefix of its lines; 53 only if the log's count rose: `send` (by `HasRun`).
//! - When the sender rests, at a gate, changes nothing of that: a gate answers nothing.
#![tactic(auto)]

mod lines;
mod links;
mod resting;
mod running;
mod sending;

pub use resting::{AT_IDLE_TURNS, AT_LAST_TURNS, AT_WAITS};
pub use sending::send;
