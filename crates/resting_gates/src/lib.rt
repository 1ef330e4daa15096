//! Where programs with children rest, and how long: gates that sleep until a piece of a channel is pushed or a limit is over, and what the
//! environment tells of such limits.
//!
//! # What is claimed
//!
//! - A limit is read exactly as its environment variable says: `drain_limit` (QMAIL_DRAIN_MS), `idle_limit` (QMAIL_IDLE_MS).
//! - A gate rests on the queue that it was made with: `RestingGate::new`, `SendingGate::new`.
//! - How long it sleeps, and that a piece wakes it, is shown by tests alone: what rests a sender's gate asks for, of a queue that counts
//!   them (`Restful`).
#![tactic(auto)]

mod drain;
mod idle;
mod resting;
mod sending_gate;

pub use drain::{DRAIN, LONGEST_DRAIN, SHORTEST_DRAIN, drain_limit};
pub use idle::{IDLE, LONGEST_IDLE, idle_limit};
pub use resting::RestingGate;
pub use sending_gate::{Restful, SendingGate};
