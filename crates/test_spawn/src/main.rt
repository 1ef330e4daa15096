//! Reads a long file users/assign and looks for local parts in it. The file has as many lines as the first word says, or else
//! 500,000. What came of it is printed. A reading or a search whose time grows with the square of the lines takes minutes for so
//! many, and one that looks at each of them once takes seconds; bench/users.sh compares the times of two files.
//!
//! Tests of the spawners: their steps, the letters of local deliveries, and the file users/assign; and of what they are asked,
//! when and how they answer: the retry schedule, requests and reports. They stand in a crate of their own, with nothing else in
//! it, so that the crates that they call are proved without them. Each test is data: rows or steps with the answers that are
//! expected, which few functions play.
#![tactic(auto)]

mod long_file;
#[cfg(test)]
mod tests;

use long_file::is_read;
use std::{env, io};

/// How many lines the file has.
const LINES: u64 = 500_000;

fn main(rt: HostRuntime) -> io::Result<()> {
    let count = count_of(&rt)?;
    let said = if is_read(rt.alloc(), count) {
        "read, and the last one found"
    } else {
        "not read as they are"
    };
    println!(rt; "users: {count} lines {said}")
}

/// How many lines the file has, by the first word.
fn count_of(rt: &HostRuntime) -> io::Result<u64> {
    let Some(word) = env::args(rt)?.nth(1) else {
        return Ok(LINES);
    };
    Ok(word.parse::<u64>().unwrap_or(LINES))
}
