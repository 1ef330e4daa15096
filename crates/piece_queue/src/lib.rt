//! The queue between the readers of channels and the program: pieces held in place, numbered by their readers.
//!
//! A reader pushes what comes of its channel, piece by piece, and the program takes the pieces of all channels, the oldest
//! first. Each of them holds a pass of the queue, and knows what its pass shows: what a reader has pushed, what the program
//! has taken. The contract of this crate: what was taken of a channel is, at each moment, a prefix of what its reader has
//! pushed (`PieceQueue::compare`). The pieces of a channel come numbered 0, 1, 2 and so on (`take`); and what tells its
//! end, or a failure, is its last piece. The room is bounded, and only `new` takes memory. A reader that finds the queue
//! full sleeps until a piece was taken; a program that has nothing to do may sleep until one was pushed. It is the queue
//! that a real spawner and its posts stand on: its channels are those of `outside`.
//!
//! # What is claimed
//!
//! - The queue between the readers of channels and the program, shared by threads: what was taken of a channel is a
//!   prefix of what its reader has pushed, and all of it once its last piece was taken (`Agree`). The pieces of a channel
//!   are numbered 0, 1, 2 and so on, and nothing comes after its end or a failure. A reader pushes each reading, as one
//!   piece; a channel without a reader has one piece, its failure: `PieceQueue::compare`; `take`: `next`; `read_channel`:
//!   `all`, `over`; `try_fail`.
//! - It isn't claimed that a piece is ever taken, nor that a reader that sleeps is woken.
#![tactic(auto)]

mod ending;
mod hand;
mod piece;
mod queue;
mod reading;
mod rule;

pub use hand::Hand;
pub use piece::{Brought, Piece, ROOM};
pub use queue::{PieceQueue, QueuePass};
pub use reading::{Inflow, read_channel};
pub use rule::InOrder;
