//! Running one program over what a real command has: a disk, a clock, an input and an output.
//!
//! A program is a machine that says what it does next. A turn tells it the moment, does that one thing, and hands in what
//! came of it. The contract of this crate is that the events of a run are those of the program's table. Its calls, moments,
//! takings and givings are those of the disk, the clock, the source and the sink that were handed in. The commands
//! qmail-queue(8) and qmail-clean(8) are run so. A program with channels, as qmail-send(8) and its spawners, is run over
//! posts and a spawner in place of the source (`member_turn`, `run_member`).
//!
//! # What is claimed
//!
//! - One turn of any machine over a disk, a clock, an input and an output: the event was due, the machine stands
//!   for it, and it did outside what it says. Or the program has ended and only the clock was read. Contracts:
//!   `turn`: `turned` (by `IsTurn`), `nearer`, `room`.
//! - A program run to its end: its past is a run of its table, and its calls, moments, takings and givings are
//!   those of the disk, the clock, the source and the sink that were handed in. Each failure among them was
//!   counted. Contracts: `run_on` (by `HasRun`), for a run that ended. One that gives up has made 2^64 - 1 turns,
//!   and its machine stands for what it did (`IsRunning`).
//! - One turn, and a whole run, of a program with channels, over a disk, a clock, posts and a spawner: its past is
//!   a run of its table. In each turn the posts were asked until nothing was waiting, and what was ready is what
//!   came of them and wasn't taken; a taking brings some bytes if there is room for any. A status is told only once
//!   that program has ended; a run answers a status exactly at the first look that finds the program at its end.
//!   Its calls, moments, takings, givings, starts and statuses are those of what was handed in; each failure among
//!   them was counted; out of memory cuts the run short. Commands of a user aren't carried: `member_turn` (by
//!   `IsTurnOf`), `run_member` (by `RanTo`).
//! - A delivery has a channel exactly if the past has a program of it, and a taking of a channel fails only if a
//!   post told so: the law `lines_tell_the_past`.
//! - By which words the children of a queue's programs are started: `QueueChildren` (by `words_of`).
#![tactic(auto)]

mod child_words;
mod laws;
mod line;
mod lines;
mod member_running;
mod nothing;
mod one_member_turn;
mod one_turn;
mod queue_children;
mod running;
mod served;
mod serving;

pub use child_words::ChildWords;
pub use laws::lines_tell_the_past;
pub use lines::Lines;
pub use member_running::run_member;
pub use nothing::Nothing;
pub use one_member_turn::member_turn;
pub use one_turn::{take, turn};
pub use queue_children::{QueueChildren, dir_word};
pub use running::run_on;
pub use served::Served;
