//! The command `clean`: the cleaner, run over a queue's disk, its input and its output.
//!
//! The contract of this crate: `clean` does what a run of the cleaner does (`HasCleaned`), and ends with 0 exactly if its
//! input ended. The program is that of qmail-clean(8).
//!
//! # What is claimed
//!
//! - A whole run of the cleaner: each call, taking and giving, and of each answer that was given why it was this
//!   one, by what came before it. 0 only if its input ended, and of an input that tells nothing is left; 53 and 54
//!   only if the output's or the input's count rose; else 51, if it hasn't ended after 2^64 - 1 turns. The command
//!   of the top call has a second 51: out of memory, before anything was done: `clean` (by `WasRun`), `qmail` (by
//!   `WasCleaned`).
#![tactic(auto)]

mod cleaning;

pub use cleaning::clean;
