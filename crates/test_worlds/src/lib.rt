//! Tests of worlds: generations that are started, stepped, reported to and stopped by hand, over a disk in memory, and actors that
//! run as threads. The library is empty; each test is a table of rows with the expected answers.
#![tactic(auto)]

#[cfg(test)]
mod tests;
