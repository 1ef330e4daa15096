// What is done with a world, as data.

use super::running::{report, run, settle, to_child, turn};
use super::seen::{put, put_names, put_names_in, put_refusal};
use mail_bytes::Memory;
use mail_world::{ActorName, World, WorldError};
use mem_fs::MemFs;
use queue_paths::queue_dirs;
use std::alloc::Global;

/// What is done with a world.
#[derive(Clone, Copy)]
pub enum Deed {
    /// A mail starts, with this message and envelope.
    Mail(&'static [u8], &'static [u8], &'static [u8]),
    /// A generation starts.
    Sender,
    /// This actor makes a step.
    Step(&'static [u8]),
    /// It makes steps until it ends, waits, or an idle turn has ended.
    Run(&'static [u8]),
    /// It is stopped.
    Stop(&'static [u8]),
    /// The sender makes steps until it has started a child.
    ToChild,
    /// This actor makes steps until it has started a child.
    Bear(&'static [u8]),
    /// Each living actor runs.
    Turn,
    /// The remote program in this slot reports success.
    Report(u8),
    /// The remote program in this slot reports that it failed for good.
    Fail(u8),
    /// Rounds are made until one makes only an idle turn; each remote program reports success.
    Settle,
    /// The names in the queue are told.
    Show,
    /// The names in this directory are told.
    Names(&'static str),
}

/// Puts down why a world refused what was asked of this actor, if it did.
fn tell(seen: &mut Vec<u8>, actor: &[u8], answer: Result<(), WorldError>) {
    if let Err(why) = answer {
        put_refusal(seen, actor, &why);
    }
}

/// What is done with the actor of this name.
fn act_by(
    alloc: Global,
    world: &mut World<MemFs>,
    name: &ActorName,
    deed: &Deed,
    seen: &mut Vec<u8>,
) {
    match deed {
        Deed::Mail(_, message, envelope) => {
            let answer = world.start_mail(alloc, name, message, envelope);
            tell(seen, name.as_slice(), answer);
        }
        Deed::Step(_) => {
            let answer = world.step(alloc, name).map(|_| ());
            tell(seen, name.as_slice(), answer);
        }
        Deed::Run(_) => {
            run(alloc, world, name, seen);
        }
        Deed::Stop(_) => tell(seen, name.as_slice(), world.stop(name)),
        Deed::Bear(_) => to_child(alloc, world, name, seen),
        _ => put(seen, &[b"no name\n"]),
    }
}

/// The sender makes steps until it has started a child.
fn sender_to_child(alloc: Global, world: &mut World<MemFs>, seen: &mut Vec<u8>) {
    if let Some(sender) = ActorName::of(b"sender") {
        to_child(alloc, world, &sender, seen);
    }
}

/// What is done with all.
fn act_on_all(alloc: Global, world: &mut World<MemFs>, deed: &Deed, seen: &mut Vec<u8>) {
    match deed {
        Deed::Sender => tell(seen, b"sender", world.start_generation(alloc)),
        Deed::Turn => {
            turn(alloc, world, seen);
        }
        Deed::Report(slot) => report(alloc, world, *slot, b'K', b"ok", seen),
        Deed::Fail(slot) => report(alloc, world, *slot, b'D', b"no such user", seen),
        Deed::ToChild => sender_to_child(alloc, world, seen),
        Deed::Settle => settle(alloc, world, seen),
        Deed::Show => put_names(alloc, seen, world.disk()),
        Deed::Names(dir) => put_names_in(seen, world.disk(), dir.as_bytes()),
        _ => put(seen, &[b"a name\n"]),
    }
}

/// The actor that it is done with; none if it is done with all.
fn actor_of(deed: &Deed) -> Option<ActorName> {
    match deed {
        Deed::Mail(name, _, _)
        | Deed::Step(name)
        | Deed::Run(name)
        | Deed::Stop(name)
        | Deed::Bear(name) => ActorName::of(name),
        _ => None,
    }
}

/// Does this.
fn act(alloc: Global, world: &mut World<MemFs>, deed: &Deed, seen: &mut Vec<u8>) {
    match actor_of(deed) {
        Some(name) => act_by(alloc, world, &name, deed, seen),
        None => act_on_all(alloc, world, deed, seen),
    }
}

/// What a disk holds at first beside the directories of a queue: a directory, or a file with these bytes.
pub type Entry = (&'static str, Option<&'static str>);

/// A disk with the directories of a queue and these entries.
fn queue_disk(alloc: Global, entries: &[Entry]) -> Result<MemFs, Memory> {
    let dirs = queue_dirs(alloc)?;
    let mut disk = MemFs::new(alloc, Vec::new(alloc), Vec::new(alloc))?;
    let _ = disk.dir(alloc, b"control");
    let _ = disk.dir(alloc, b"users");
    for dir in &dirs {
        let _ = disk.dir(alloc, dir.as_slice());
    }
    for entry in entries {
        put_entry(alloc, &mut disk, entry);
    }
    Ok(disk)
}

/// Puts an entry on a disk.
fn put_entry(alloc: Global, disk: &mut MemFs, entry: &Entry) {
    match entry.1 {
        Some(bytes) => {
            let _ = disk.place(alloc, entry.0.as_bytes(), bytes.as_bytes());
        }
        None => {
            let _ = disk.dir(alloc, entry.0.as_bytes());
        }
    }
}

/// What is seen when all this is done with a world, in order.
fn act_all(alloc: Global, mut world: World<MemFs>, deeds: &[Deed]) -> Vec<u8> {
    let mut seen = Vec::new(alloc);
    for deed in deeds {
        act(alloc, &mut world, deed, &mut seen);
    }
    seen
}

/// The same, with a new world.
pub fn seen_of(alloc: Global, deeds: &[Deed]) -> Result<Vec<u8>, Memory> {
    seen_with(alloc, &[], deeds)
}

/// The same, over a disk with these entries.
pub fn seen_with(alloc: Global, entries: &[Entry], deeds: &[Deed]) -> Result<Vec<u8>, Memory> {
    let disk = queue_disk(alloc, entries)?;
    let world = World::new(alloc, disk)?;
    Ok(act_all(alloc, world, deeds))
}
