// A command of a user.
ghost use Rattle.std.specs.Prelude.{◌≡◌};
ghost use Rattle.program_runner.specs.Serving.{served_status};
ghost use Rattle.local_command.specs.Waiting.{HasAsked, HasFed, HasFedParts, HasRunCommand, parts_of};

use crate::waiting::await_end;
use local_parts::Blocks;
use outside::{Gate, Gave, Posts, Spawner, Started, Status};
use program_runner::Served;
use std::alloc::Global;

/// Runs a command of a user by the shell, with this message as its input, and answers how it ended (qmail-command(8)). What
/// it prints is let go.
pub(crate) fn run_command<P: Posts, S: Spawner, G: Gate>(
    alloc: Global,
    text: &[u8],
    message: &Blocks,
    posts: &mut P,
    spawner: &mut S,
    gate: &G,
) -> Served
    ensures { HasRunCommand text.now message.now result
        (record { posts = record { waiting = P.waiting posts.old; asked = P.calls posts.old; faults = P.faults posts.old }; spawner = record { children = S.children spawner.old; calls = S.calls spawner.old; faults = S.faults spawner.old } })
        (record { posts = record { waiting = P.waiting posts.new; asked = P.calls posts.new; faults = P.faults posts.new }; spawner = record { children = S.children spawner.new; calls = S.calls spawner.new; faults = S.faults spawner.new } }) }
{
    match spawner.start(alloc, &[b"sh", b"-c", text]) {
        Started::Failed => Served::Failed,
        Started::Memory => Served::Memory,
        Started::Chan { chan, .. } => {
            feed_message(chan, message, spawner);
            spawner.finish(chan);
            served_status(end_of(chan, posts, spawner, gate))
        }
    }
}

/// Gives a child this message, block by block, up to the first feeding that fails.
fn feed_message<S: Spawner>(chan: u32, message: &Blocks, spawner: &mut S)
    ensures { HasFed chan message.now
        (record { children = S.children spawner.old; calls = S.calls spawner.old; faults = S.faults spawner.old })
        (record { children = S.children spawner.new; calls = S.calls spawner.new; faults = S.faults spawner.new }) }
{
    let (full, last) = message.parts();
    match feed_blocks(chan, full, spawner) {
        Gave::Done => {
            spawner.feed(chan, last);
        }
        Gave::Failed => {}
    }
}

/// Gives a child these blocks, up to the first feeding that fails, and answers whether none did.
fn feed_blocks<S: Spawner>(chan: u32, blocks: &[Vec<u8>], spawner: &mut S) -> Gave
    ensures { HasFedParts chan (parts_of blocks.now) result
        (record { children = S.children spawner.old; calls = S.calls spawner.old; faults = S.faults spawner.old })
        (record { children = S.children spawner.new; calls = S.calls spawner.new; faults = S.faults spawner.new }) }
{
    for block in blocks {
        match spawner.feed(chan, block.as_slice()) {
            Gave::Done => {}
            Gave::Failed => return Gave::Failed,
        }
    }
    Gave::Done
}

/// Waits for the end of a child, and answers how it ended.
pub(crate) fn end_of<P: Posts, S: Spawner, G: Gate>(
    chan: u32,
    posts: &mut P,
    spawner: &mut S,
    gate: &G,
) -> Status
    ensures { HasAsked chan result
        (record { posts = record { waiting = P.waiting posts.old; asked = P.calls posts.old; faults = P.faults posts.old }; spawner = record { children = S.children spawner.old; calls = S.calls spawner.old; faults = S.faults spawner.old } })
        (record { posts = record { waiting = P.waiting posts.new; asked = P.calls posts.new; faults = P.faults posts.new }; spawner = record { children = S.children spawner.new; calls = S.calls spawner.new; faults = S.faults spawner.new } }) }
{
    await_end(chan, posts, gate);
    spawner.status(chan)
}

/// How a child ended, as it is served.
pub(crate) fn served_status(status: Status) -> Served
    ensures { result ≡ served_status status }
{
    match status {
        Status::Ended(code) => Served::Ended(code),
        Status::Crashed => Served::Crashed,
        Status::Failed => Served::Failed,
    }
}
