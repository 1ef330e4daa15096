//! The disk in memory that a script begins with, and what `show` of a script reads of such a disk: the names in a directory, the
//! message numbers that it holds with their states, and which recipients a bounce file names. Also where
//! control files put the record of each recipient of a mail. Its contracts: the numbers are exactly those that aren't in S1 (INTERNALS, "Queue structure"), each record
//! is where preprocessing writes it, and a recipient is named if the bounce file has a note of it.
//!
//! It is a crate of its own, and no part of scenario, for the checker alone: so a check of either stays short.
//!
//! # What is claimed
//!
//! - The disk that a script begins with: `entered_disk` (by `IsFirstDisk`).
//! - The names in a directory of a disk in memory, in order; the message numbers that aren't in S1, each once and
//!   in order; and the state of a number. Whether a recipient's record reads `T`, and which names a bounce file has
//!   notes of: `names_of` (by `AreNamesIn`), `numbers_of` (by `AreNumbersIn`), `state_on`, `is_unmarked`,
//!   `noted_on` (by `AreNoted`).
//! - The channel, the place and the record of each recipient of a mail, as preprocessing writes them under given control
//!   files: `routes_of` (by `routes_in`).
#![tactic(auto)]

mod bare_dirs;
mod numbers;
mod opening_disk;
mod records;
mod routes;

pub use numbers::{is_either, names_of, numbers_of, state_on};
pub use opening_disk::entered_disk;
pub use records::{is_among, is_unmarked, noted_on};
pub use routes::{Routed, routes_of};
