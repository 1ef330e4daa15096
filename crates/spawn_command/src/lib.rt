//! The commands `lspawn` and `rspawn`: the spawners, run over a queue's disk, posts and a spawner of processes.
//!
//! The contract of this crate: `spawn_local` and `spawn_remote` do what a run of their spawner does, over channel 0 as their
//! input and a channel for each program (`WasSpawned`). They end with 0 exactly if their requests ended, no program is left
//! and no give failed. The programs are those of qmail-lspawn(8) and qmail-rspawn(8).
//!
//! # What is claimed
//!
//! - A whole run of a spawner: each call, taking, giving, start, feeding and status is that of what was handed in. What was
//!   ready is what the posts gave and wasn't taken; they were asked until nothing was waiting before each event. 0 and 91
//!   exactly by their causes; 53 and 54 only if the output's or the posts' count rose; else 51. If no count rose and no
//!   field was too long, 0 or 51: `spawn_remote`, `spawn_local` (by `WasSpawned`).
#![tactic(auto)]

mod ending;
mod local;
mod remote;

pub use local::spawn_local;
pub use remote::spawn_remote;
