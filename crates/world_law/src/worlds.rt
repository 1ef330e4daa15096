// Each world is safe.
ghost use Rattle.std.specs.Prelude.{List};
ghost use Rattle.mail_bytes.specs.Told.{OnTold};
ghost use Rattle.call_fs.specs.Disk.{Disk};
ghost use Rattle.mail_world.specs.History.{Opening, Legal, Event as Happening};
ghost use Rattle.mail_world.specs.Waiting.{EachWaiting, HasNoGeneration};
ghost use Rattle.mail_world.specs.World.{Leads, Happened};
ghost use Rattle.world_law.specs.Headline.{EachPromised, IsSafeBy};

use call_fs::CallFs;
use mail_world::World;

/// Whatever happened in a world since an initial disk kept the promise after each event. If no generation was started each accepted
/// message waited in todo. Each world whose disk tells has a history that led to it from some disk, of which all of this holds if that
/// disk was an initial one. Nothing is done.
pub fn each_world_is_safe<D: CallFs>(world: &World<D>)
    ensures safe { (opening : Disk) (h : List Happening) → Happened D.disk opening world.now h → EachPromised opening h }
    ensures waiting { (opening : Disk) (h : List Happening)
        → Happened D.disk opening world.now h → HasNoGeneration h → EachWaiting opening h }
    ensures happened { OnTold (D.disk world.now.disk) (λ now. (opening : Disk) × (h : List Happening)
        × Leads opening now world.now.events world.now.present h
        × (Opening opening → Legal opening h × IsSafeBy opening h)) }
{
    world.history();
}
