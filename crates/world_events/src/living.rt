// Who of those who started lives, in the order of starts.
ghost use Rattle.std.specs.Prelude.{◌≡◌, ◌≤◌, Bool, length, option_map};
ghost use Rattle.std.specs.List.{slice_get};
ghost use Rattle.actor_names.specs.MailNames.{members};
ghost use Rattle.actor_names.specs.Members.{seat_of};
ghost use Rattle.actor_names.specs.declared.member.Member.TheVariants as member;
ghost use Rattle.world_events.specs.Starts.{IsNextStart, start_at, lasts};

use crate::Starts;
use actor_names::Member;

/// Who may have ended.
pub trait Living {
    /// It hasn't.
    ghost lives: { Self → Bool };

    /// Whether it lives.
    fn is_alive(&self) -> bool
        ensures { result ≡ lives self.now };
}

/// Of the living ones of these actors whose newest start is at this place in the order, or later, the first, and its place there. So
/// many of the actors are members. The condition: no more than a generation has.
pub fn next_living<'a, A: Living>(
    starts: &Starts,
    actors: &'a [A],
    crew: usize,
    from: u64,
) -> Option<(&'a A, u64)>
    requires { crew ≤ length members }
    ensures { IsNextStart A.lives starts.now actors.now crew from (option_map (λ next. (next.0.now, next.1)) result) }
{
    let mut at = from as usize;
    while at < starts.count() {
        if let Some(actor) = living_at(starts, actors, crew, at) {
            return Some((actor, at as u64));
        }
        at += 1;
    }
    None
}

/// The actor that started at this place in the order, if it lives and hasn't started again. The condition: as above.
fn living_at<'a, A: Living>(
    starts: &Starts,
    actors: &'a [A],
    crew: usize,
    at: usize,
) -> Option<&'a A>
    requires { crew ≤ length members }
    ensures { option_map (λ x. x.now) result ≡ start_at A.lives starts.now actors.now crew at }
{
    let place = starts.place_at(crew, at)?;
    match actors.get(place) {
        Some(actor) if actor.is_alive() => Some(actor),
        _ => None,
    }
}

/// Whether the remote spawner of these members lives.
pub fn spawner_lives<A: Living>(crew: &[A]) -> bool
    ensures { result ≡ lasts A.lives (slice_get crew.now (seat_of member.RemoteSpawner)) }
{
    match crew.get(Member::RemoteSpawner.seat()) {
        Some(actor) => actor.is_alive(),
        None => false,
    }
}
