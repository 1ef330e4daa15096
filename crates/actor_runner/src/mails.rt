// Threads that run mails.
ghost use Rattle.std.specs.Prelude.{◌≡◌, ◌<◌, IsTrue, OnOk, All};
ghost use Rattle.yard_lock.specs.Turns.{IsPrefix};
ghost use Rattle.actor_runner.specs.Turns.{IsLast, IsOver};

use call_fs::CallFs;
use mail_bytes::Memory;
use mail_world::{ActorName, Did, World, WorldError};
use outside::{Gate, OpenGate};
use std::alloc::Global;
use std::sync::Wait;
use yard_lock::{Pass, Yard};

/// Steps a mail until it has ended. Before each step it passes the gate, outside its turn. The condition: the pass is of this yard.
pub(crate) fn run_mail<D: CallFs, G: Gate, R: Wait>(
    rt: &R,
    alloc: Global,
    yard: &Yard<World<D>>,
    pass: &mut Pass<World<D>>,
    mail: &ActorName,
    number: u64,
    gate: &G,
) -> Result<(), Memory>
    requires { pass.old.yard ≡ yard.now.id }
    ensures pass { pass.new ≡ record pass.old { seen = pass.new.seen } }
    ensures prefix { IsPrefix pass.old.seen pass.new.seen }
    ensures over { OnOk result (IsOver mail.now pass.new.seen) }
{
    let mut step: u64 = 1;
    for _ in rt.forever() {
        gate.pause(number, step);
        let answer = yard.step(rt, alloc, pass, mail.copy())?;
        if is_last(&answer) {
            return Ok(());
        }
        step = step.saturating_add(1);
    }
    unreachable!()
}

/// Whether an actor is over after this.
fn is_last(answer: &Result<Did, WorldError>) -> bool
    ensures { IsTrue result → IsLast answer.now }
{
    match answer {
        Ok(did) => did.ended.is_some(),
        Err(WorldError::Gone(..)) => true,
        Err(_) => false,
    }
}

/// Runs the mails of one thread: of all mails each of so many, from the one with this number on. The conditions: the pass is of this
/// yard, and there is a thread.
pub(crate) fn run_some<D: CallFs, G: Gate, R: Wait>(
    rt: &R,
    alloc: Global,
    yard: &Yard<World<D>>,
    pass: &mut Pass<World<D>>,
    mails: &[ActorName],
    worker: u64,
    threads: u64,
    gate: &G,
) -> Result<(), Memory>
    requires own { pass.old.yard ≡ yard.now.id }
    requires threads { 0 < threads }
    ensures pass { pass.new ≡ record pass.old { seen = pass.new.seen } }
{
    for i in 0..mails.len() {
        let number = i as u64;
        if number % threads == worker {
            run_mail(rt, alloc, yard, pass, &mails[i], number + 1, gate)?;
        }
    }
    Ok(())
}

/// Sees that all mails have ended. A step of one that has is refused, and nothing happens. No gate is passed. The condition: the pass is
/// of this yard.
pub(crate) fn see_all_over<D: CallFs, R: Wait>(
    rt: &R,
    alloc: Global,
    yard: &Yard<World<D>>,
    pass: &mut Pass<World<D>>,
    mails: &[ActorName],
) -> Result<(), Memory>
    requires { pass.old.yard ≡ yard.now.id }
    ensures pass { pass.new ≡ record pass.old { seen = pass.new.seen } }
    ensures over { OnOk result (All (λ a. IsOver a pass.new.seen) mails.now) }
{
    for i in 0..mails.len() {
        run_mail(rt, alloc, yard, pass, &mails[i], 0, &OpenGate)?;
    }
    Ok(())
}
