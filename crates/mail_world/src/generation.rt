// The members of a generation, and their start.
ghost use Rattle.std.specs.Prelude.{IfOk};
ghost use Rattle.mail_world.specs.Crew.{IsFirst, IsSeatedNew, AreNew, HasBegun};

use crate::ActorName;
use crate::actor::Actor;
use crate::any_machine::AnyMachine;
use actor_names::Member;
use local_spawn::LocalSpawn;
use mail_bytes::{Memory, OnHeap};
use queue_clean::Cleaner;
use remote_spawn::RemoteSpawn;
use send_core::Sender;
use std::alloc::Global;

/// The first of these that lives.
pub fn first_alive(crew: &[Actor]) -> Option<ActorName>
    ensures { IsFirst crew.now result }
{
    for actor in crew.iter() {
        if actor.ended.is_none() {
            return Some(actor.name.copy());
        }
    }
    None
}

/// The members of a new generation, in their order.
#[tactic(auto, using(crate::proofs::NewCrew::one_more, crate::proofs::NewCrew::seat_filled, crate::proofs::NewCrew::seated_new))]
pub fn members(alloc: Global) -> Result<Vec<Actor>, Memory>
    ensures { IfOk result (λ crew. AreNew crew.items) }
{
    let mut crew = Vec::with_capacity(alloc, Member::COUNT)?;
    for seat in 0..Member::COUNT {
        let member = Member::at(seat).unwrap();
        crew.push(seated(alloc, member, machine_of(alloc, member)?))?;
    }
    Ok(crew)
}

/// The machine of what a member runs, which has done nothing yet. The error: out of memory.
fn machine_of(alloc: Global, member: Member) -> Result<AnyMachine, Memory>
    ensures { IfOk result (λ machine. HasBegun machine member) }
{
    match member {
        Member::Sender => {
            let sender = OnHeap::new(alloc, Sender::new(alloc, None)?)?;
            return Ok(AnyMachine::Send(sender));
        }
        Member::Cleaner => {
            let cleaner = OnHeap::new(alloc, Cleaner::new())?;
            return Ok(AnyMachine::Clean(cleaner));
        }
        Member::LocalSpawner => {
            let spawner = OnHeap::new(alloc, LocalSpawn::new(alloc)?)?;
            return Ok(AnyMachine::Local(spawner));
        }
        Member::RemoteSpawner => {
            let spawner = OnHeap::new(alloc, RemoteSpawn::new(alloc)?)?;
            return Ok(AnyMachine::Remote(spawner));
        }
    }
}

/// A member of a new generation with this machine. Takes no memory.
fn seated(alloc: Global, member: Member, machine: AnyMachine) -> Actor
    ensures { IsSeatedNew result member machine }
{
    Actor::new(
        alloc,
        member.actor_name(),
        machine,
        Some(member.seat()),
        None,
        None,
    )
}
