//! The line that a trace has for an event that a world kept (`specs/Events.antt`). For what an actor did that is a file call with
//! its answer, a taking, a giving, the start of a remote program or a command (`specs/Acts.antt`). And the lines of a mail and of
//! its recipients (`specs/Mails.antt`), and of what became of all (`specs/Fates.antt`).
//!
//! It is a crate of its own, and no part of scenario, for the checker alone: so a check of either stays short.
//!
//! # What is claimed
//!
//! - The line of each event that a world keeps: a start, an end, a stop, the start of a generation, a report, a
//!   moment, a machine stop, and what an actor did. That is a file call with what was answered, a taking and a
//!   giving with the count of bytes, the start of a remote program, or a command. The lines of a mail and of its
//!   recipients: `put_event` (by `kept_line`, and that by `act_line`); `put_life`, `put_fates`, `alike`. The counts of what
//!   became of them: `put_sum` (by `sum_line`), the law `each_is_counted`.
#![tactic(auto)]

mod acting;
mod events;
mod fates;
pub mod laws;
mod mails;
mod passing;
mod printing;
mod sums;

pub use events::put_event;
pub use fates::{RecipientFate, alike, put_fates};
pub use mails::put_life;
pub use printing::{put_escaped, put_number};
pub use sums::put_sum;
