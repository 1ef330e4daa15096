//! The first line of a message file, which tells who put the message into the queue and when, and its date.
//!
//! The contract of this crate: at each moment that a clock may tell, `received` gives exactly the line and `date` exactly
//! the date of that moment in UTC. The form is that of qmail-queue(8)'s Received line (RFC 822, section 4.3.2).
//!
//! # What is claimed
//!
//! - The Received line and its date, exact at every moment that a clock may tell: `received`, `date`.
#![tactic(auto)]

mod line;

pub use line::{Invoked, date, received};
