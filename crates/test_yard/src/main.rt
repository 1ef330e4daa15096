//! Threads add to one number in turn, each one a turn, and the sum is printed: so many threads with so many turns each. With two words
//! on the command line it does so once, with that many threads and that many turns each; with 0 threads the turns are taken without a
//! yard. Whatever the order of the turns, what is printed is the same.
//!
//! Tests of the queue of pieces: two readers in threads of their own, and one that takes.
#![tactic(auto)]

mod tally;
#[cfg(test)]
mod tests;
mod turns;

use std::{env, io};
use turns::sum;

/// How many threads, and how many turns each takes.
const ROWS: [(u32, u64); 6] = [(1, 1000), (2, 500), (3, 300), (4, 250), (8, 125), (16, 60)];

fn main(rt: HostRuntime) -> io::Result<()> {
    if let Some((threads, turns)) = told(&rt)? {
        return print_row(&rt, threads, turns, sum(&rt, rt.alloc(), threads, turns));
    }
    for (threads, turns) in ROWS {
        print_row(&rt, threads, turns, sum(&rt, rt.alloc(), threads, turns))?;
    }
    Ok(())
}

/// The threads and the turns of the command line, if it has both.
fn told(rt: &HostRuntime) -> io::Result<Option<(u32, u64)>> {
    let mut words = env::args(rt)?.skip(1);
    let Some(threads) = words.next() else {
        return Ok(None);
    };
    let Some(turns) = words.next() else {
        return Ok(None);
    };
    let Ok(threads) = threads.parse::<u32>() else {
        return Ok(None);
    };
    Ok(turns.parse::<u64>().ok().map(|turns| (threads, turns)))
}

/// Prints a row and its sum.
fn print_row(rt: &HostRuntime, threads: u32, turns: u64, sum: Option<u64>) -> io::Result<()> {
    match sum {
        Some(sum) => println!(rt; "{threads} threads, {turns} turns each: {sum}"),
        None => println!(rt; "out of memory"),
    }
}
