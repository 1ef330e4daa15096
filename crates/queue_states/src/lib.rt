//! The states of a message number, S1 to S5, by which of its files are there; and the audit of a queue: how many
//! names `pid/` has, and each number that has a file, with its state.
//!
//! The contracts of this crate: `state_of` is the table of qmail's INTERNALS, "Queue structure"; an `audit` of a disk that
//! tells what it holds is exact, and leaves that disk as it was.
//!
//! # What is claimed
//!
//! - The state of a number, by which of its files are there, and its name; the lines that tell it: `state_of`,
//!   `State::word`, `put_line`, `put_count_line`, `put_state_line`.
//! - An audit of a disk that tells: how many names `pid/` has, and exactly the numbers that have one of the
//!   files of a message, each with its state; and every directory of the queue is there. Of every disk: the numbers ascend; the
//!   disk holds what it held; only next names were asked for, if it keeps a list of its calls; a fault only if its
//!   count rose, or stands at its last value. A missing directory only if it is one of the queue's, and of a disk
//!   that tells only if it isn't there: `audit`: `audited` (by `IsAuditOf`), `searched` (by `HasSearched`).
#![tactic(auto)]

mod auditing;
mod files;
mod lines;
mod listing;
mod outcome;
mod state;
mod state_list;

pub use auditing::audit;
pub use lines::{put_count_line, put_line, put_state_line};
pub use outcome::{Audit, AuditError};
pub use state::{State, state_of};
pub use state_list::StateList;
