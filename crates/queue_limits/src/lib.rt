//! The times, lengths, counts and exit statuses that more than one program of the queue counts with.
//!
//! Code and definitions both take them from here. Their figures are laws: the contracts of functions that do nothing.
//!
//! # What is claimed
//!
//! - It has constants alone, the times, lengths, counts and exit statuses that code and definitions count with;
//!   their figures: the laws `limits_are_these`, `statuses_are_these`.
#![tactic(auto)]

mod counts;
mod laws;
mod lengths;
mod statuses;
mod times;

pub use counts::MAX_SLOTS;
pub use laws::{limits_are_these, statuses_are_these};
pub use lengths::MOST_BYTES;
pub use statuses::{
    BAD_CONTROL, DONE, IN_INTD, IN_MESS, IN_PID, IN_TODO, INPUT, LATE, LONG_ADDRESS, MALFORMED,
    MEMORY, NO_CLEANER, NO_LOCAL, NO_REMOTE, NO_START, OUTPUT, TOO_LONG, USAGE,
};
pub use times::{DAY, LONGEST_STALL, PID_NAME_AGE};
