//! Tests of what a queue's files mean: addresses and their rules, as tables; preprocessing, its steps by rows and its files over a
//! disk in memory; and audits over disks in memory, whose rows come from the table of states in qmail's INTERNALS, "Queue
//! structure". They stand in a crate of their own, with nothing else in it but what a run over a disk rests on, so that the
//! crates that they call are proved without them.
//!
//! Each test is data: rows with the answers that are expected, which few functions play.
#![tactic(auto)]

#[cfg(test)]
mod tests;
