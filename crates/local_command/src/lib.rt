//! The command `local`: one local delivery, run over a queue's disk, its input, its output, and children (qmail-local(8)).
//!
//! `deliver` runs the machine of local_deliver. Commands of the user are children, and so is the injector of its forwards. The
//! one contract, `WasDelivered` in specs/Delivered.antt: what was done is a run of the delivery's table, each event was done as
//! it says over the disk, the input, the output, the posts and the spawner, and the exit status has its cause in that run.
//!
//! # What is claimed
//!
//! - A whole delivery: its calls, moments, takings and givings are those of the disk, the clock, the input and the output,
//!   and what its events ask of posts and spawner is all that these were asked: `deliver` (by `HasDone`).
//! - A command of the user is started by the shell, and fed the message that was taken, in parts, up to the first feeding that
//!   failed. Its status is asked once the posts have told its end, or after 2^64 - 1 posts: `deliver` (by `RunsCommand`).
//! - The injector of forwards is started by its words, with the uid of the delivery; it is fed its whole input, and its status
//!   is asked once the posts have told its end: `deliver` (by `Serves`).
//! - Why it ended with 0, 100, 111 or 51. Each failure of a child was counted by the spawner. 51 also tells that memory ran out
//!   for what came of an event, or that it hasn't ended after 2^64 - 1 events: `deliver` (by `WasDelivered`).
//! - If nothing hinders it and no count of failures rose, it ends with 0 or 51: `deliver` (by `IsUnhindered`).
#![tactic(auto)]

mod commands;
mod delivering;
mod serving;
mod stepping;
mod waiting;

pub use delivering::deliver;
