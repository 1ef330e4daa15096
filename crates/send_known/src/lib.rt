//! The messages that the sender knows: their birth and sender, which of their channel files are there, when each channel of
//! each is due, and which may be finished (qmail-send(8); INTERNALS, section 6). And the two channels themselves (`Channel`).
//!
//! The contract of this crate: each call of `Messages` does what the definition of the same name does to the list of known
//! messages, in order of number, and to the two schedules. Only `learn` may answer that there is no memory, and then nothing changed.
//!
//! It is a crate of its own, and no part of send_core, for the checker alone: so a check of either stays short.
//!
//! # What is claimed
//!
//! - What is known of each message, in order of number, and when it is due on each channel. A message is made known
//!   with all or nothing changed, and only that takes memory: `KnownList::{new, is_known, birth_of, sender_of,
//!   learn, forget, put_off, local_gone, remote_gone, first_idle}`, `Messages::{new, learn, local_gone,
//!   remote_gone, forget}`, each an equation with the definition of that name.
#![tactic(auto)]

mod by_number;
mod channel;
mod known;
mod messages;

pub use channel::Channel;
pub use known::{Known, KnownList};
pub use messages::{Messages, NEVER};
