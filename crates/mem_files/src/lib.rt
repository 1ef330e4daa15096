//! Files of a disk in memory, in order of their numbers: what each holds, what of it is on the disk, and what a machine stop leaves.
//!
//! # What is claimed
//!
//! - A file is read and changed as the disk relation has it, and a sync takes no memory: `FileData`.
//! - One entry of a list of files changes so, and no other; the greatest number that nothing uses: `files`.
//! - A list of pairs of a number and a value is a map: `numbers`.
//! - The files after a machine stop have the contents that the choice leaves: `halt::settled_entries`.
#![tactic(auto)]

mod file;
pub mod files;
pub mod halt;
mod junk;
pub mod numbers;

pub use file::{FileData, Inode};
