// A world whose actors run as threads.
ghost use Rattle.std.specs.Prelude.{◌≡◌, ◌≤◌, ◌<◌, ◌+◌, OnOk, IfOk, All};
ghost use Rattle.mail_world.specs.LivingMails.{AreLivingMails};
ghost use Rattle.actor_runner.specs.Turns.{IsOver};
ghost use Rattle.actor_runner.specs.Runs.{HasRun};

use crate::jobs::{Done, Job, gather, jobs_for, work};
use crate::mails::see_all_over;
use crate::members::MEMBERS;
use call_fs::CallFs;
use mail_bytes::Memory;
use mail_world::{ActorName, World};
use outside::Gate;
use std::alloc::{AllocError, Global};
use std::marker::Send;
use std::sync::Wait;
use std::thread::{Threads, map_vec};
use yard_lock::{Pass, Yard};

/// Runs the mails of a world to their ends in so many threads, and steps the members of the generation in four others, one thread at a
/// time at one step. A thread that can't be started is run by the caller. The conditions: these are the world's mails in the order of
/// their starts, all of them alive, and there are 1 to 16 threads. The error: out of memory; then the world is dropped.
pub fn run_threads<D: CallFs + Send + Drop, G: Gate + Sync, R: Threads + Wait + Sync>(
    rt: &R,
    alloc: Global,
    world: World<D>,
    mails: &[ActorName],
    threads: u64,
    gate: &G,
) -> Result<World<D>, Memory>
    requires mails { AreLivingMails world.events mails.now }
    requires threads { (1 ≤ threads) × (threads ≤ 16) }
    ensures { IfOk result (λ new. HasRun D.plan D.disk mails.now world new) }
{
    let (yard, mut first) = Yard::new(alloc, world, threads + MEMBERS + 1)?;
    match run_all(rt, alloc, &yard, &mut first, mails, threads, gate) {
        Ok(()) => Ok(yard.close(first)),
        Err(AllocError) => {
            drop(yard);
            Err(AllocError)
        }
    }
}

/// Has threads run the mails and step the members, and sees that all mails have ended; then the pass has all its parts again. The
/// conditions: the pass is of this yard and has a part for each thread and one more, and there are 1 to 16 threads for the mails.
fn run_all<D: CallFs + Send + Drop, G: Gate + Sync, R: Threads + Wait + Sync>(
    rt: &R,
    alloc: Global,
    yard: &Yard<World<D>>,
    first: &mut Pass<World<D>>,
    mails: &[ActorName],
    threads: u64,
    gate: &G,
) -> Result<(), Memory>
    requires own { first.old.yard ≡ yard.now.id }
    requires parts { first.old.parts ≡ threads + MEMBERS + 1 }
    requires threads { (1 ≤ threads) × (threads ≤ 16) }
    ensures yard { first.new.yard ≡ first.old.yard }
    ensures parts { OnOk result (first.new.parts ≡ first.old.parts) }
    ensures over { OnOk result (All (λ a. IsOver a first.new.seen) mails.now) }
{
    let jobs = jobs_for(alloc, yard, first, threads + MEMBERS)?;
    let task = |job: Job<D>| -> Done<D>
        requires { (job.pass.yard ≡ yard.now.id) × (job.pass.parts ≡ 1) × (0 < threads) × (job.number < threads + MEMBERS) }
        ensures { (result.pass.yard ≡ yard.entry.now.id) × (result.pass.parts ≡ 1) }
    { work(rt, alloc, yard, job, mails, threads, gate) };
    let done = map_vec(rt, jobs, &task)?;
    gather(yard, first, done)?;
    see_all_over(rt, alloc, yard, first, mails)
}
