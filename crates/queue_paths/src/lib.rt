//! The names of the queue's files, and the directories that they lie in.
//!
//! The contract of this crate, `names_are_exact`: each name has one text, and each text is at most one name's. A text
//! is read as a name exactly if the queue uses that name and writes it so. The names are those of qmail's INTERNALS,
//! "Queue structure".
//!
//! # What is claimed
//!
//! - The number of splits, as a figure: the law `splits_are_23`.
//! - Names of the queue's files, their texts, and reading them back: `split`, `path`, `parse`, and the law
//!   `names_are_exact`.
//! - What a number has in intd and in todo, by its names, as all laws say it: the law `waits_are_named`.
//! - The directories that hold them, one list for the model, the disk of a script and a real directory:
//!   `queue_dirs`, `split_dir`.
#![tactic(auto)]

mod dirs;
mod laws;
mod names;

pub use dirs::{FLAT_DIRS, SPLIT_DIRS, SPLITS, queue_dirs, split_dir};
pub use laws::{names_are_exact, splits_are_23, waits_are_named};
pub use names::{Name, parse, path, split};
