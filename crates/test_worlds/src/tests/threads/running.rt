// Mails run to their ends, by however many threads, and each member is stepped.
ghost use Rattle.std.specs.Prelude.{◌≤◌};

use super::beginning::{Begun, queue_disk, world_with};
use actor_runner::run_threads;
use call_fs::CallFs;
use mail_world::{Event, World};
use mem_fs::MemFs;
use outside::{Gate, OpenGate};
use std::alloc::Global;
use std::marker::Send;
use std::sync::Wait;
use std::test::*;
use std::thread::Threads;

/// The members of a generation.
const MEMBERS: [&[u8]; 4] = [b"sender", b"clean", b"lspawn", b"rspawn"];

/// Runs so many mails by so many threads that pass this gate. How many actors ended with 0; none if there was no memory, there are
/// fewer mails, or a member made no step: nothing but `run_threads` steps it here.
pub fn ended_by<R: Threads + Wait + Sync, G: Gate + Sync>(
    rt: &R,
    alloc: Global,
    threads: u64,
    mails: usize,
    gate: &G,
) -> Option<usize>
    requires { (1 ≤ threads) × (threads ≤ 16) }
{
    let disk = queue_disk(alloc).ok()?;
    let world = run_over(rt, alloc, disk, threads, mails, gate)?;
    let ended = ended(&world);
    let have_stepped = have_stepped(&world);
    drop(world);
    have_stepped.then_some(ended)
}

/// The world over this disk after so many mails were run by so many threads that pass this gate; none if there was no memory, or there
/// are fewer mails.
pub fn run_over<D: CallFs + Send + Drop, R: Threads + Wait + Sync, G: Gate + Sync>(
    rt: &R,
    alloc: Global,
    disk: D,
    threads: u64,
    mails: usize,
    gate: &G,
) -> Option<World<D>>
    requires { (1 ≤ threads) × (threads ≤ 16) }
{
    let Begun {
        world,
        mails: names,
    } = world_with(alloc, disk, mails)?;
    if names.len() != mails {
        drop(world);
        return None;
    }
    run_threads(rt, alloc, world, &names, threads, gate).ok()
}

/// How many actors ended with 0.
pub fn ended<D: CallFs>(world: &World<D>) -> usize {
    world
        .history()
        .events()
        .iter()
        .filter(|event| matches!(event, Event::End { status: 0, .. }))
        .count()
}

/// Whether each member made a step.
fn have_stepped(world: &World<MemFs>) -> bool {
    MEMBERS.iter().all(|member| has_stepped(world, *member))
}

/// Whether the actor with this name made a step.
fn has_stepped(world: &World<MemFs>, name: &[u8]) -> bool {
    world
        .history()
        .events()
        .iter()
        .any(|event| is_step(event, name))
}

/// Whether this event is a step of the actor with this name.
pub fn is_step(event: &Event, name: &[u8]) -> bool {
    matches!(event, Event::Act { actor, .. } if actor.is(name))
}

#[test]
fn mails_run_to_their_ends(rt: HostRuntime) {
    assert!(rt; ended_by(&rt, rt.alloc(), 1, 0, &OpenGate) == Some(0));
    assert!(rt; ended_by(&rt, rt.alloc(), 2, 2, &OpenGate) == Some(2));
    assert!(rt; ended_by(&rt, rt.alloc(), 3, 5, &OpenGate) == Some(5));
    assert!(rt; ended_by(&rt, rt.alloc(), 16, 3, &OpenGate) == Some(3));
}
