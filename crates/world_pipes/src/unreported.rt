// The reports of remote programs, which run in the slots of the remote spawner.
ghost use Rattle.std.specs.Prelude.{◌≡◌, ◌<◌, ◌&&◌, true, false, length};
ghost use Rattle.std.specs.List.{slice_get};
ghost use Rattle.actor_names.specs.Members.{seat_of};
ghost use Rattle.actor_names.specs.declared.member.Member.TheVariants.{RemoteSpawner};
ghost use Rattle.world_pipes.specs.Mouths.{is_remote, IsLowest};
ghost use Rattle.world_pipes.specs.Wired.{tenant_in};

use crate::Mouths;
use actor_names::Member;

/// Whether the remote spawner lives, and a program runs in this slot of which no report came. The condition: if it lives, it has pipes.
pub fn is_unreported(lives: bool, mouths: &[Mouths], slot: u8) -> bool
    requires { lives ≡ true → seat_of RemoteSpawner < length mouths.now }
    ensures { result ≡ (lives && is_remote false (tenant_in (slice_get mouths.now (seat_of RemoteSpawner)) slot)) }
{
    lives && mouths[Member::RemoteSpawner.seat()].runs(slot, false)
}

/// The lowest such slot from this one on. The condition: as above.
pub fn first_unreported(lives: bool, mouths: &[Mouths], from: u8) -> Option<u8>
    requires { lives ≡ true → seat_of RemoteSpawner < length mouths.now }
    ensures { IsLowest (λ d. lives && is_remote false (tenant_in (slice_get mouths.now (seat_of RemoteSpawner)) d)) from result }
{
    if lives {
        mouths[Member::RemoteSpawner.seat()].lowest(from, false)
    } else {
        None
    }
}
