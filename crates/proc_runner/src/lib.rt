//! Children as processes, and the posts of their channels: what runs a program with channels over real programs.
//!
//! `Children` is a spawner. It starts this same program, the remote program, and `/bin/sh` for the command of a user, each
//! with its output piped. `ChildPosts` are the posts of their channels, of which channel 0 is the program's
//! own input. What the system does for both is one trait, `System`, so that they are proved, and tested, over a system in
//! memory; its lines over std (host_children) are the trusted edge.
//!
//! What runs besides the program's own thread:
//!
//! - One that starts the others. `Children::new` starts it, and what a start or a feeding needs is put before it (`desk`).
//! - A reader for each channel. It reads pieces of at most 4096 bytes and pushes them into the queue of piece_queue; if that
//!   is full it sleeps. A child's reader waits, at the end of its output, until the child has exited, and pushes `End` then.
//!   So the end of a child is known before its status is asked for, `status` doesn't wait for a program, and no zombie is
//!   left. One that can't be started gives its channel's failure as the only post, and the child is ended.
//! - A writer and a watcher for each child that was fed or whose input was ended. The writer owns the input, writes what was
//!   fed in order, and closes the input when it was ended; it tells the system whether the input is whole then. The watcher kills the
//!   child with its group if it doesn't end within the time that it has from then on, also if it reads no more of its input; and if
//!   it has exited, and something that it started holds its output open for five seconds more. While nothing is to be done both
//!   sleep. So a feeding never waits for the child. A child whose feeding fails is killed, since it would take a part for the whole.
//!
//! What is bounded: the room of the queue; what a local delivery or a remote program may print (1 MiB, which its
//! spawner keeps). At one byte more it is killed: its channel is cut off, which is told as its end and counted
//! (`ChildPosts::cuts`), and its status is that of a signal, also if it exited with 0 before. What lies before a writer is what the
//! program fed, copied once. Room for a child, its reader and its pass are taken before it is started, so that no child runs that
//! isn't known. Nobody spins: the program's thread rests in a gate (resting_gates), until a piece is pushed or a limit
//! is over.
//!
//! # What is claimed
//!
//! - Each post is what the piece that was taken holds, and the rest of a piece comes before the next one. The pieces of a
//!   channel come in order, each once, with `End` or a failure as the last: `ChildPosts` (by `IsPostOf`).
//! - What was taken of a channel is a prefix of what its reader has pushed: `ChildPosts::compare`. What it pushes is what its
//!   reading brought (`ReadsBytes`), with the end only once the process has ended. A channel is cut off only if more came than may be
//!   printed (`CutsOff`), and then all who ask are told that a signal ended its process (`EndsAfter`). It fails only if a read did, or
//!   the system didn't tell how the process ended (`FailsFor`).
//! - A start, a feeding and a status of `Children` are those of the child of this channel and no other (by `RunsMore`, `Feeds`,
//!   `EndsInput`, `TellsStatus`). All bytes of a feeding that was done stand behind what the child was fed before; after one
//!   that failed each fails, and is counted.
//! - Each child that is started has the limit that `Children::new` was given (`HasLimit`).
//!
//! A sender starts nothing more before a member is at work, and ends with it if it isn't (`PatientSystem`); tests show that.
//!
//! It isn't claimed that what was fed is ever written, that a child whose feeding failed ends, nor that a limit ends it. That a
//! child is handed the writer of its own feeder is told by no clause, since it goes through a lock: tests show it.
#![tactic(auto)]

mod children;
mod desk;
mod line;
mod outflow;
mod own_input;
mod patient;
mod posts;
mod running;
mod shared;
mod start;
mod system;

pub use children::{Children, MOST_PRINTED};
pub use own_input::{OwnReading, StdReader, read_own_input};
pub use patient::{Look, PatientSystem};
pub use posts::ChildPosts;
pub use shared::{Opener, Reader, Shared, Taker, Through, share};
pub use start::{Kind, Start};
pub use system::{Born, Closing, Exit, Process, Readable, System};
