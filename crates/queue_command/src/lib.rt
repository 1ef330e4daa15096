//! The command `queue`: one message comes in, and either it is queued and on the disk, or the exit status says why not
//! (qmail-queue(8)).
//!
//! `inject` feeds the injector of queue_inject from two sources, or from two netstrings of one, and lets it take a turn
//! whenever it has what it asks for; of the input no more than a piece is in memory. The one contract, `HasInjected` in
//! specs/Injected.antt: each file call that was made is what the injector's table asked for at that moment. The exit
//! status is the one that its table ends with, whatever comes after what was read. The disk and the clock were asked for
//! nothing else.
//!
//! # What is claimed
//!
//! - A whole injection. What was read of the message and of the envelope, from two sources or as two netstrings
//!   from one, and how each ended if that was found. Of each at most one byte more than it may have, and of the
//!   envelope nothing before the message was whole: `inject` (by `HasInjected`; `AreRead`).
//! - Its run over any disk and clock, for whatever input begins with what was read: its calls and its moments, if
//!   these keep them, and its status: `inject` (by `HasRun`, `IsPossible`).
//! - The cause of its status, and which messages are queued, for each such input: `inject` (by `IsCausedBy`,
//!   `MayBeQueued`).
#![tactic(auto)]

mod injecting;
mod input;
mod netstring;
mod tell;

pub use injecting::inject;
pub use input::Form;
