//! Tests of runs of programs with channels: of the cleaner, whose input is a channel of posts, and of a program that starts a
//! child; of the pipes between actors; of the names of children; and of how commands exit.
//!
//! Each test is data: rows with what comes of them, which few functions play. Each of the values that a run is played over is
//! owned by a function that does little else.
#![tactic(auto)]

mod errand;

pub use errand::{Errand, Kind, Row};

#[cfg(test)]
mod tests;
