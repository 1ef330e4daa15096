//! Tests of the disks: scripts and tables of rows with the answers that are expected, played by a few functions.
//!
//! A script speaks of files by their names, and its steps are made on any disk, through the trait's clauses alone. So
//! the disk in memory, the one whose machine can be stopped, the one that is unplugged and the recorder over any of them
//! are played alike. A real directory is played over real files, and over a system whose answers are given.
#![tactic(auto)]

#[cfg(test)]
mod tests;
