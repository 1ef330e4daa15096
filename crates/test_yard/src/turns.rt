// Threads that take turns.
ghost use Rattle.std.specs.Prelude.{◌≡◌, ◌+◌, ◌<◌, IfOk, OnOk, All, vec_len};

use crate::tally::Tally;
use mail_bytes::Memory;
use std::alloc::Global;
use std::sync::Wait;
use std::thread::{Threads, map_vec};
use yard_lock::{Pass, Stepped, Yard};

/// The sum of so many threads with so many turns each, or of so many turns without a yard if there is no thread. None if there was no
/// memory.
pub(crate) fn sum<R: Threads + Wait + Sync>(
    rt: &R,
    alloc: Global,
    threads: u32,
    turns: u64,
) -> Option<u64> {
    if threads == 0 {
        Some(alone(alloc, turns))
    } else {
        total(rt, alloc, threads, turns)
    }
}

/// The sum after so many turns without a yard.
fn alone(alloc: Global, turns: u64) -> u64 {
    let mut tally = Tally { sum: 0 };
    for _ in 0..turns {
        let _ = tally.apply(alloc, 1);
    }
    tally.sum
}

/// The sum after so many turns of each of so many threads. None if there was no memory.
fn total<R: Threads + Wait + Sync>(rt: &R, alloc: Global, threads: u32, turns: u64) -> Option<u64> {
    let count = u64::from(threads);
    let (yard, mut first) = Yard::new(alloc, Tally { sum: 0 }, count + 1).ok()?;
    let all = passes(alloc, &yard, &mut first, count).ok()?;
    let task = |pass: Pass<Tally>| -> Pass<Tally>
        requires { (pass.yard ≡ yard.id) × (pass.parts ≡ 1) }
        ensures { (result.yard ≡ yard.id) × (result.parts ≡ 1) }
    { take_turns(rt, alloc, &yard, pass, turns) };
    let done = map_vec(rt, all, &task).ok()?;
    gather(&yard, &mut first, done);
    Some(yard.close(first).sum)
}

/// So many passes of one part each.
fn passes(
    alloc: Global,
    yard: &Yard<Tally>,
    first: &mut Pass<Tally>,
    count: u64,
) -> Result<Vec<Pass<Tally>>, Memory>
    requires own { first.old.yard ≡ yard.now.id }
    requires parts { first.old.parts ≡ count + 1 }
    ensures yard { first.new.yard ≡ first.old.yard }
    ensures parts { OnOk result (first.new.parts ≡ 1) }
    ensures many { IfOk result (λ all. vec_len all ≡ count) }
    ensures each { IfOk result (λ all. All (λ p. (p.yard ≡ yard.now.id) × (p.parts ≡ 1)) all.items) }
{
    let mut all = Vec::new(alloc);
    for _ in 0..count {
        all.push(first.split(yard, 1)?)?;
    }
    Ok(all)
}

/// Takes so many turns.
fn take_turns<R: Wait>(
    rt: &R,
    alloc: Global,
    yard: &Yard<Tally>,
    mut pass: Pass<Tally>,
    turns: u64,
) -> Pass<Tally>
    requires { (pass.yard ≡ yard.now.id) × (pass.parts ≡ 1) }
    ensures { (result.yard ≡ yard.now.id) × (result.parts ≡ 1) }
{
    for _ in 0..turns {
        let _ = yard.step(rt, alloc, &mut pass, 1);
    }
    pass
}

/// Takes all passes in.
fn gather(yard: &Yard<Tally>, first: &mut Pass<Tally>, mut done: Vec<Pass<Tally>>)
    requires own { first.old.yard ≡ yard.now.id }
    requires each { All (λ p. (p.yard ≡ yard.now.id) × (p.parts ≡ 1)) done.items }
    ensures yard { first.new.yard ≡ first.old.yard }
    ensures parts { first.new.parts ≡ first.old.parts + vec_len done }
{
    while let Some(pass) = done.pop() {
        first.join(yard, pass);
    }
}
