// Runs of actors, turns of all, and rounds until all is settled.

use super::seen::{put, put_end, put_refusal};
use call_fs::CallFs;
use mail_world::{ActorName, Did, Event, World, WorldError};
use std::alloc::Global;

/// How many steps a run has at most, how many actors a turn, and how many rounds are made.
const MOST_STEPS: usize = 10_000;

const MOST_ACTORS: usize = 20;

const MOST_ROUNDS: usize = 200;

/// Where a step leads.
#[derive(Drop)]
enum Led {
    /// There is more to do.
    On,
    /// An idle turn has ended.
    Idle,
    /// The actor ended with this status.
    End(u8),
    /// It can't do anything yet.
    Wait,
    /// The step was refused otherwise.
    Refused(WorldError),
}

/// Makes a step of this actor.
fn step<D: CallFs>(alloc: Global, world: &mut World<D>, actor: &ActorName) -> Led {
    match world.step(alloc, actor) {
        Ok(did) => led_by(&did),
        Err(WorldError::NotWaiting(_)) => Led::Wait,
        Err(why) => Led::Refused(why),
    }
}

/// Where a step led that did this.
fn led_by(did: &Did) -> Led {
    match did.ended {
        Some(status) => Led::End(status),
        None if did.idle => Led::Idle,
        None => Led::On,
    }
}

/// Steps of this actor, until it ends, waits, or an idle turn has ended. Whether it only waits or idles.
pub fn run<D: CallFs>(
    alloc: Global,
    world: &mut World<D>,
    actor: &ActorName,
    seen: &mut Vec<u8>,
) -> bool {
    for made in 0..MOST_STEPS {
        let led = step(alloc, world, actor);
        if !matches!(led, Led::On) {
            return rests(seen, actor, &led, made);
        }
    }
    put(seen, &[b"refused steps\n"]);
    false
}

/// Whether the newest event is the start of a child.
fn has_started<D: CallFs>(world: &World<D>) -> bool {
    matches!(world.history().events().last(), Some(Event::Child { .. }))
}

/// Steps of this actor, until it has started a child.
pub fn to_child<D: CallFs>(
    alloc: Global,
    world: &mut World<D>,
    actor: &ActorName,
    seen: &mut Vec<u8>,
) {
    for _ in 0..MOST_STEPS {
        let led = step(alloc, world, actor);
        if has_started(world) {
            return;
        }
        if !matches!(led, Led::On) {
            break;
        }
    }
    put(seen, &[b"no child\n"]);
}

/// Puts down where so many steps and one more led. Whether the actor only waits or idles.
fn rests(seen: &mut Vec<u8>, actor: &ActorName, led: &Led, made: usize) -> bool {
    match led {
        Led::On => false,
        Led::Idle => true,
        Led::Wait => made == 0,
        Led::End(status) => {
            put_end(seen, actor, *status);
            false
        }
        Led::Refused(why) => {
            put_refusal(seen, actor.as_slice(), why);
            false
        }
    }
}

/// The first living actor that started at this place or later, and the place after its own.
fn next<D: CallFs>(world: &World<D>, from: u64) -> Option<(ActorName, u64)> {
    let (actor, at) = world.next_living(from)?;
    Some((actor.copy(), at.saturating_add(1)))
}

/// Each living actor runs, in order of start. Whether they only wait or idle.
pub fn turn<D: CallFs>(alloc: Global, world: &mut World<D>, seen: &mut Vec<u8>) -> bool {
    let mut from = 0;
    let mut is_quiet = true;
    for _ in 0..MOST_ACTORS {
        let Some((actor, after)) = next(world, from) else {
            return is_quiet;
        };
        is_quiet &= run(alloc, world, &actor, seen);
        from = after;
    }
    put(seen, &[b"refused actors\n"]);
    false
}

/// The remote program in this slot reports that letter and text.
pub fn report<D: CallFs>(
    alloc: Global,
    world: &mut World<D>,
    slot: u8,
    letter: u8,
    text: &[u8],
    seen: &mut Vec<u8>,
) {
    if let Err(why) = world.report(alloc, slot, letter, text) {
        put_refusal(seen, b"report", &why);
    }
}

/// Each remote program without a report gives one. Whether there is none.
fn report_all<D: CallFs>(alloc: Global, world: &mut World<D>, seen: &mut Vec<u8>) -> bool {
    for made in 0..MOST_ACTORS {
        let Some(slot) = world.unreported(0) else {
            return made == 0;
        };
        report(alloc, world, slot, b'K', b"settled", seen);
    }
    false
}

/// Rounds, each a turn and then a report of each remote program, until one makes only an idle turn.
pub fn settle<D: CallFs>(alloc: Global, world: &mut World<D>, seen: &mut Vec<u8>) {
    for _ in 0..MOST_ROUNDS {
        if turn(alloc, world, seen) & report_all(alloc, world, seen) {
            return;
        }
    }
    put(seen, &[b"refused rounds settle\n"]);
}
