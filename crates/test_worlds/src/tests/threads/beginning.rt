// Worlds whose actors are to run.
ghost use Rattle.mail_world.specs.LivingMails.{AreLivingMails};

use actor_names::ActorName;
use call_fs::CallFs;
use mail_bytes::Memory;
use mail_world::World;
use mem_fs::MemFs;
use queue_paths::queue_dirs;
use std::alloc::Global;

/// The names of mails.
const NAMES: [&[u8]; 5] = [b"a", b"b", b"c", b"d", b"e"];

/// A world, and its mails.
pub struct Begun<D: CallFs> {
    /// The world.
    pub world: World<D>,
    /// The names of its mails.
    pub mails: Vec<ActorName>,
    ghost living: { AreLivingMails world.events mails.items },
}

/// A world over this disk of an empty queue, with the first of the mails, so many, and a generation. If there is no memory, there are
/// fewer mails, or none is returned.
pub fn world_with<D: CallFs + Drop>(alloc: Global, disk: D, count: usize) -> Option<Begun<D>> {
    let mut world = World::new(alloc, disk).ok()?;
    let mut mails = Vec::new(alloc);
    for at in 0..count {
        if let Some(name) = name_of(at) {
            add_mail(alloc, &mut world, &mut mails, &name);
        }
    }
    add_generation(alloc, &mut world, &mails);
    Some(Begun { world, mails })
}

/// The name of the mail at this place, if there is one.
fn name_of(at: usize) -> Option<ActorName> {
    ActorName::of(NAMES.get(at)?)
}

/// A disk in memory with the directories of a queue.
pub fn queue_disk(alloc: Global) -> Result<MemFs, Memory> {
    let dirs = queue_dirs(alloc)?;
    let mut disk = MemFs::new(alloc, Vec::new(alloc), Vec::new(alloc))?;
    let _ = disk.dir(alloc, b"control");
    let _ = disk.dir(alloc, b"users");
    for dir in &dirs {
        let _ = disk.dir(alloc, dir.as_slice());
    }
    Ok(disk)
}

/// One mail more, if there is memory.
fn add_mail<D: CallFs>(
    alloc: Global,
    world: &mut World<D>,
    mails: &mut Vec<ActorName>,
    name: &ActorName,
)
    requires { AreLivingMails world.old.events mails.old.items }
    ensures { AreLivingMails world.new.events mails.new.items }
{
    let Ok(()) = mails.reserve(1) else { return };
    match world.start_mail(alloc, name, b"hi\n", b"Fa@x\0Tb@y\0\0") {
        Ok(()) => mails.push(name.copy()).unwrap(),
        Err(_) => {}
    }
}

/// Starts a generation, if there is memory.
fn add_generation<D: CallFs>(alloc: Global, world: &mut World<D>, mails: &[ActorName])
    requires { AreLivingMails world.old.events mails.now }
    ensures { AreLivingMails world.new.events mails.now }
{
    let _ = mails;
    let _ = world.start_generation(alloc);
}
