//! Scripts: playing one over a disk in memory, and showing what came of it.
//!
//! Which bytes are a script, and what it says, stands in the crate `script_lines`, which reads one. The disk that it
//! begins with in `script_disks` (`specs/FirstDisk.antt`), the history that it plays in `specs/Played.antt`, and what it
//! prints in `specs/Shown.antt`, `specs/Traced.antt` and `specs/Text.antt`: one text, by the laws in `laws`.
//!
//! # What is claimed
//!
//! - The disk that a script begins with holds the directories of each script's disk, and its entries, each with the
//!   directories above it, all of it synced, and nothing else. Entries make one such disk, and no file of it has
//!   two names: `first_disk` (by `IsFirstDisk`), the law `one_disk`.
//! - A play: the sink took what the lines print, or a prefix of what the first of them print. The history is legal
//!   and that of the lines, with the call failing that they name and the number taken that they pick. The lines are
//!   steps and runs of any actor, the start of a generation, reports of remote programs, turns, and the rounds of
//!   `settle`. A play that prints nothing gives its sink nothing, and out of memory is answered only if the sink
//!   hasn't failed: `play`: `played`, `begun`, `silent`, `cause`, `unfailed`.
//! - Each script prints a text, and only one; what it begins to print is a prefix of that: the laws `has_text`,
//!   `one_text`.
//! - What `show` prints: the names in `pid/`, the numbers that aren't in S1 with their states, and the life of each
//!   mail in the books. Of each recipient of an accepted one it prints whether it is pending, was reported
//!   delivered or is named by the bounce file, by the disk, and by the routes and deliveries in the books. If
//!   it is none of these, it is bounced, or dropped if the mail is a double bounce. What `sum` prints: how many mails
//!   were accepted, and of how many of their recipients `show` tells each of these. What `cat` prints; the lines of all
//!   events from one on: `show` (by `IsShown`), `sum` (by `sum_text`; the law `all_are_summed`, and `each_is_counted` of
//!   script_traces), `cat` (by `cat_line`), `put_events_after` (by `kept_line` of script_traces; what a play prints of
//!   them is by `event_line`).
#![tactic(auto)]

mod error;
mod fates;
mod generating;
pub mod laws;
mod opening_disk;
mod overview;
mod playing;
mod refusing;
mod showing;
mod stepping;
mod summing;
mod tracing;
mod turning;

pub use error::PlayError;
pub use opening_disk::first_disk;
pub use playing::{give, play};
pub use script_lines::{MAX_SCRIPT, Script, ScriptError, read_script};
pub use showing::show;
pub use stepping::lacked_memory;
pub use tracing::put_events_after;
pub use turning::settle;
