//! A line on standard error for each fault that is counted: what was asked, of which name, and why it failed, as
//! `fault: open info/3/141: Permission denied`. The log of a sender has other lines, and none of them begins so.
//!
//! - Files and children that count a fault tell it. Each answers just what the one below it answers, and counts what that counts.
//! - The same line is told at most once a minute, and no more than 200 in a minute. Control characters in a name, as newlines, and
//!   bytes that aren't UTF-8 are `?`, and a long name is cut.
//! - Nothing fails because a line can't be told.
//!
//! # What is claimed
//!
//! - Each call of files and of a spawner is the call of those below: the clauses of `impl CallFs` and `impl Spawner`. That a line is
//!   told, and which, is tested.
#![tactic(auto)]

mod fault_lines;
mod noting;
mod telling_files;
mod telling_spawner;

pub use fault_lines::FaultLines;
pub use noting::Noting;
pub use telling_files::TellingFiles;
pub use telling_spawner::TellingSpawner;
