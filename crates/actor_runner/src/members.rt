// Threads that step the members of a generation.
ghost use Rattle.std.specs.Prelude.{◌≡◌, ◌<◌};

use actor_names::Member;
use call_fs::CallFs;
use mail_bytes::Memory;
use mail_world::World;
use outside::Gate;
use std::alloc::Global;
use std::sync::Wait;
use yard_lock::{Pass, Yard};

/// How many members a generation has.
pub(crate) const MEMBERS: u64 = 4;

/// How often a thread tries to step its member.
const TRIES: u64 = 10_000;

/// The member with this number, in their order, from 0.
fn member(number: u64) -> Member {
    match number {
        0 => Member::Sender,
        1 => Member::Cleaner,
        2 => Member::LocalSpawner,
        _ => Member::RemoteSpawner,
    }
}

/// Steps one member, as often as it is tried; a step that is refused counts as a try. It passes the gate before the first, outside its
/// turn. The conditions: the pass is of this yard, and there is a member with this number.
pub(crate) fn step_member<D: CallFs, G: Gate, R: Wait>(
    rt: &R,
    alloc: Global,
    yard: &Yard<World<D>>,
    pass: &mut Pass<World<D>>,
    number: u64,
    gate: &G,
) -> Result<(), Memory>
    requires own { pass.old.yard ≡ yard.now.id }
    requires four { number < MEMBERS }
    ensures pass { pass.new ≡ record pass.old { seen = pass.new.seen } }
{
    let name = member(number).actor_name();
    gate.pause(0, number + 1);
    for _ in 0..TRIES {
        let _ = yard.step(rt, alloc, pass, name.copy())?;
    }
    Ok(())
}
