//! Tests of commands with channels, over posts, children and a disk in memory: of the spawners, of local delivery and of the
//! sender. Their clock, posts and spawner tell each call, and so does the clock of an injection and of a cleaner. They stand in
//! a crate of their own, with nothing else in it, so that the crates that they call are proved without them.
//!
//! Each test is data: rows with what comes of them, which few functions play. Each of the values that a command is run over is
//! owned by a function that does little else.
#![tactic(auto)]

#[cfg(test)]
mod tests;
