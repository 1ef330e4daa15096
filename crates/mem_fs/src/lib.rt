//! A disk in memory, over a tree of names, a list of files in order of number and the free numbers, which tells what it holds and fails by plan.
//!
//! # What is claimed
//!
//! - The disk in memory meets each clause of the trait; it takes the next pick if that is free, else the least free
//!   number, and the least descriptor from 1. Exactly the planned calls fail: `impl CallFs for MemFs`: `went`, and
//!   `counts` (the record `Counts`: what was planned, and by `takes` the number, the descriptor and the picks
//!   left).
//! - A disk with chosen contents, its names in order and their bytes; a machine stop by a choice, a new file of
//!   a chosen number, and a file that is replaced from outside: `MemFs::{new, dir, place, replace, name_after, bytes_of,
//!   is_free, create_picked, halt}`.
#![tactic(auto)]

mod disk;
mod free;
mod names;
mod open_file;
mod part;
mod picks;
mod plan;
mod store;

pub use disk::MemFs;
