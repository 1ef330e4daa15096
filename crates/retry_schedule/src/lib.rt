//! When a message that couldn't be delivered is tried again, and which message is due first.
//!
//! The contract of this crate: `next_retry` is the schedule of qmail-send(8), in which a message is tried again after
//! ever longer gaps, each a square of seconds. `Due::first` is the least entry that is due, and no entry if none is.
//! `roots_are_exact` and `entries_are_exact` say that these words leave no choice.
//!
//! # What is claimed
//!
//! - `root` is the greatest number whose square is at most x, for every u64; `next_retry` is birth + (root(age) +
//!   skip)^2, for all moments: `root`, `next_retry`, the law `roots_are_exact`.
//! - The entries (due, n) in order, each number at most once: adding, changing and removing alter the entry of that
//!   number alone. The least entry that is due, and none exactly if there is none; after out of memory nothing
//!   changed: `Due::{new, add, first, due_of, is_due, change, put, reschedule, remove, copy, is_schedule}`, the law
//!   `entries_are_exact`.
//! - `Due` keeps a map by number and the entries in order, so a call takes time in proportion to the logarithm of how many
//!   there are. `PlainDue`, for tests, keeps a plain list; both do what `Schedule` says.
#![tactic(auto)]

mod due;
mod index;
mod laws;
mod order;
mod plain_due;
mod retry;
mod schedule;

pub use due::Due;
pub use laws::{entries_are_exact, roots_are_exact};
pub use plain_due::PlainDue;
pub use retry::{next_retry, root};
pub use schedule::Schedule;
