// Waiting for the end of a child.
ghost use Rattle.std.specs.Prelude.{◌≡◌};
ghost use Rattle.local_command.specs.Commands.{is_end_of};
ghost use Rattle.local_command.specs.Waiting.{HasAwaited};

use call_fs::PIECE;
use outside::{Gate, Post, Posts};

/// Asks the posts until they tell the end of this channel, or that it can't be read any more. What came else is let go. It
/// rests at the gate whenever nothing is waiting.
pub(crate) fn await_end<P: Posts, G: Gate>(chan: u32, posts: &mut P, gate: &G)
    ensures { HasAwaited chan
        (record { waiting = P.waiting posts.old; asked = P.calls posts.old; faults = P.faults posts.old })
        (record { waiting = P.waiting posts.new; asked = P.calls posts.new; faults = P.faults posts.new }) }
{
    let mut bytes = [0; PIECE];
    let mut looks = 0;
    for _ in 0..u64::MAX {
        let post = posts.next(&mut bytes);
        if is_end_of(chan, post) {
            return;
        }
        looks = rest(gate, looks, post);
    }
}

/// Whether a post tells that this channel has ended, or can't be read any more.
fn is_end_of(chan: u32, post: Post) -> bool
    ensures { result ≡ is_end_of chan post }
{
    match post {
        Post::End { chan: from } | Post::Failed { chan: from } => from == chan,
        Post::Bytes { .. } | Post::Turn => false,
    }
}

/// Rests at the gate if nothing was waiting, and answers how many looks in a row found nothing, of which there were so many
/// before.
fn rest<G: Gate>(gate: &G, looks: u64, post: Post) -> u64 {
    match post {
        Post::Turn => {
            let looks = looks.saturating_add(1);
            gate.pause(0, looks);
            looks
        }
        _ => 0,
    }
}
