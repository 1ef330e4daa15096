// What threads are given and give back.
ghost use Rattle.std.specs.Prelude.{◌≡◌, ◌+◌, ◌<◌, IfOk, OnOk, All, vec_len};

use crate::mails::run_some;
use crate::members::{MEMBERS, step_member};
use call_fs::CallFs;
use mail_bytes::Memory;
use mail_world::{ActorName, World};
use outside::Gate;
use std::alloc::Global;
use std::sync::Wait;
use yard_lock::{Pass, Yard};

/// What one thread is given: its number and a pass.
#[derive(Drop)]
pub(crate) struct Job<D: CallFs> {
    pub number: u64,
    pub pass: Pass<World<D>>,
}

/// What it gives back: its pass, and whether there was memory.
#[derive(Drop)]
pub(crate) struct Done<D: CallFs> {
    pub pass: Pass<World<D>>,
    pub ran: Result<(), Memory>,
}

/// So many jobs, with a pass of one part each. The conditions: the first pass is of this yard, and has one part more.
pub(crate) fn jobs_for<D: CallFs>(
    alloc: Global,
    yard: &Yard<World<D>>,
    first: &mut Pass<World<D>>,
    count: u64,
) -> Result<Vec<Job<D>>, Memory>
    requires own { first.old.yard ≡ yard.now.id }
    requires parts { first.old.parts ≡ count + 1 }
    ensures yard { first.new.yard ≡ first.old.yard }
    ensures parts { OnOk result (first.new.parts ≡ 1) }
    ensures many { IfOk result (λ jobs. vec_len jobs ≡ count) }
    ensures each { IfOk result (λ jobs. All (λ j. (j.pass.yard ≡ yard.now.id) × (j.pass.parts ≡ 1) × (j.number < count)) jobs.items) }
{
    let mut jobs = Vec::new(alloc);
    for number in 0..count {
        let pass = first.split(yard, 1)?;
        jobs.push(Job { number, pass })?;
    }
    Ok(jobs)
}

/// Does one job: the first ones step the members, each other one runs its mails. The conditions: its pass is of this yard, and it is one
/// of these.
pub(crate) fn work<D: CallFs, G: Gate, R: Wait>(
    rt: &R,
    alloc: Global,
    yard: &Yard<World<D>>,
    job: Job<D>,
    mails: &[ActorName],
    threads: u64,
    gate: &G,
) -> Done<D>
    requires own { (job.pass.yard ≡ yard.now.id) × (job.pass.parts ≡ 1) }
    requires threads { (0 < threads) × (job.number < threads + MEMBERS) }
    ensures { (result.pass.yard ≡ yard.now.id) × (result.pass.parts ≡ 1) }
{
    let Job { number, mut pass } = job;
    let ran = if number < MEMBERS {
        step_member(rt, alloc, yard, &mut pass, number, gate)
    } else {
        run_some(
            rt,
            alloc,
            yard,
            &mut pass,
            mails,
            number - MEMBERS,
            threads,
            gate,
        )
    };
    Done { pass, ran }
}

/// Takes all passes in. `Memory` if a thread had none. The conditions: all passes are of this yard.
pub(crate) fn gather<D: CallFs>(
    yard: &Yard<World<D>>,
    first: &mut Pass<World<D>>,
    mut done: Vec<Done<D>>,
) -> Result<(), Memory>
    requires own { first.old.yard ≡ yard.now.id }
    requires each { All (λ d. (d.pass.yard ≡ yard.now.id) × (d.pass.parts ≡ 1)) done.items }
    ensures yard { first.new.yard ≡ first.old.yard }
    ensures parts { OnOk result (first.new.parts ≡ first.old.parts + vec_len done) }
{
    while let Some(Done { pass, ran }) = done.pop() {
        first.join(yard, pass);
        ran?;
    }
    Ok(())
}
