//! What a child is fed: texts that the program puts, oldest first, and that a writer in a thread of its own writes to the child's
//! input.
//!
//! The two share a queue without a bound, and neither waits for the other. Each holds a pass of it, and knows what its pass
//! shows: what the program has fed, what the writer has taken to be written. The queue takes memory for what is fed alone; a
//! feeding without memory fails. A real spawner feeds its children so (proc_runner).
//!
//! # What is claimed
//!
//! - All bytes of a feeding that was taken stand behind what was fed before. After one that failed, and after the end, none is
//!   taken: `Feeder::feed`, `feed_copy`, `end`, `give_up` (by `after_feeding`, `after_end`).
//! - What a writer has taken is a prefix of what was fed, in order: `Feeder::compare`.
//! - What a writer has written is a prefix of the bytes of what it has taken, in order; and all of them, to the end of the
//!   input, if it answers that it is whole: `Writer::write` (by `WritesFed`).
//! - It isn't claimed that what was fed is ever written, nor that a writer that sleeps is woken.
#![tactic(auto)]

mod feed_rule;
mod feeding;
mod writing;

pub use feed_rule::{Fed, Feed};
pub use feeding::{Feeder, Writer, Written, feed_ends};
