//! What lies outside a program besides files: where bytes come from and go to, the clock, children and their posts,
//! and a gate at which threads can be held.
//!
//! Each is a trait with a form in memory, which tests use and which stands for what a command doesn't touch. The
//! contract of this crate is what each trait tells of its calls. If one can fail it counts its failures, and
//! answers a failure only if that count rose in the call, or stands at its last value. The calls are those of
//! read(2), write(2), time(2), getpid(2), execvp(3) and wait(2).
//!
//! # What is claimed
//!
//! - The forms in memory of sources, sinks, clock, posts and spawner: what each tells, and which calls fail: those
//!   that are planned to and, of a sink and a feeding, those for whose bytes there isn't room, and no others. What
//!   a sink or a child has taken then; with which words each child was started, what each was fed, and how each
//!   ended: traits `Source`, `Sink`, `Clock`, `Posts`, `Spawner` and their forms; `MemSink::taken`,
//!   `MemSpawner::{words, fed, is_finished}`.
//! - A count of failures rises only with a failure, of every source, sink, spawner and of all posts: those traits:
//!   clause `cause`, by `CountsFailures`.
//! - Taking bytes from a source until so many have come, or it ends or fails: they are the next ones, and why no
//!   more were taken: `take_up_to`.
//! - A recorder is to its caller the clock, the posts or the spawner below it: what that tells, it tells, and it asks that the
//!   same and answers as that does. It keeps each call with its answer, in order; once it found no memory for one, none any
//!   more: `Recorder::{new, calls, inner}`; `impl Clock`, `impl Posts` and `impl Spawner for Recorder`: clauses `told`, `passed`.
#![tactic(auto)]

mod bounded;
mod clock;
mod fault_plan;
mod gate;
mod kept_calls;
mod posts;
mod recorder;
mod sink;
mod source;
mod spawner;
mod taking;

pub use clock::{Clock, MemClock};
pub use gate::{Gate, OpenGate};
pub use kept_calls::{KeptPost, KeptSpawnCall, SpawnCallData};
pub use posts::{MemPosts, Post, Posts, Waiting};
pub use recorder::Recorder;
pub use sink::{Gave, MemSink, Sink};
pub use source::{MemSource, Source, Took};
pub use spawner::{MemChild, MemSpawner, Spawner, Started, Status};
pub use taking::{Stopped, take_up_to};
