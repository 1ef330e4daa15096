//! Disks that are there to fail: one whose machine can be stopped, and one that fails from some call on.
//!
//! `CrashDisk` is a disk in memory that meets every clause of `CallFs`, fails at the call that is chosen, and after a
//! machine stop holds what the named choice leaves of it. `Stopper` passes the first calls on to any disk, and fails at
//! all later ones, as a disk does whose cable was pulled. A disk that fails only at the chosen call, and has memory, has
//! one answer for each call: the laws `answers_are_planned`, `one_answer` and `has_answer`.
//!
//! # What is claimed
//!
//! - Two disks meet each clause of their traits: one in memory whose machine can be stopped, and that fails at the
//!   chosen call; and one that passes the first calls on and fails at all later ones. Which calls each passes on to
//!   the disk below it, and what is left of its choice or its count. Contracts: `impl CallFs for CrashDisk`, `impl
//!   CallFs for Stopper`: `went`, and `passes` (the records `Passes`, `PassesOrFails`); `impl CrashFs for
//!   CrashDisk`.
//! - Unless memory runs out, a disk in memory answers by its plan. By a plan each of the twelve calls has one
//!   answer, and on a disk with finitely many names and open descriptors, as each disk in memory is, each call that
//!   may be made has one. A call and a machine stop leave them finitely many: the laws `answers_are_planned`,
//!   `one_answer`, `has_answer` (by `Answers`, `IsFinite`).
#![tactic(auto)]

mod chosen_fault;
mod crash_disk;
mod laws;
mod stopper;

pub use crash_disk::CrashDisk;
pub use laws::{answers_are_planned, has_answer, one_answer};
pub use stopper::Stopper;
