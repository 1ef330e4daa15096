// The children of a sender's links.
ghost use Rattle.std.specs.Prelude.{◌≡◌, List, map};
ghost use Rattle.outside.specs.Children.{SpawnCall};
ghost use Rattle.program_runner.specs.Serving.{Spawns};
ghost use Rattle.send_command.specs.Links.{AreBegun, AreEnded, AsksOf, IsBegun, ends_of, link_words};

use outside::{Spawner, Started};
use queue_limits::{MEMORY, NO_START};
use std::alloc::Global;

/// What stands in the place of a program's name for this same program.
const ITSELF: &[u8] = b"";

/// The channels of the links' children that were started.
#[derive(Clone, Copy)]
pub struct Links {
    /// The cleaner's.
    pub clean: Option<u32>,
    /// The local spawner's.
    pub lspawn: Option<u32>,
    /// The remote spawner's.
    pub rspawn: Option<u32>,
}

/// What came of starting them: their channels, and a status if one couldn't be started.
#[derive(Clone, Copy)]
pub struct Begun {
    /// The channels of those that were started.
    pub links: Links,
    /// 84 if one couldn't be started, 51 if memory ran out; none if all were.
    pub unstarted: Option<u8>,
}

/// Starts the cleaner and both spawners of the queue in this directory, in this order, as this same program; the remote spawner
/// delivers by this program. After one that can't be started it starts no more.
pub(crate) fn start_links<S: Spawner>(
    alloc: Global,
    dir: &[u8],
    program: &[u8],
    spawn: &mut S,
) -> Begun
    ensures { AreBegun (link_words dir.now program.now) result
        (record { children = S.children spawn.old; calls = S.calls spawn.old; faults = S.faults spawn.old })
        (record { children = S.children spawn.new; calls = S.calls spawn.new; faults = S.faults spawn.new }) }
{
    let clean = match start_link(alloc, &[ITSELF, b"clean", dir], spawn) {
        Ok(chan) => chan,
        Err(status) => return begun_so(None, None, None, Some(status)),
    };
    let lspawn = match start_link(alloc, &[ITSELF, b"lspawn", dir], spawn) {
        Ok(chan) => chan,
        Err(status) => return begun_so(Some(clean), None, None, Some(status)),
    };
    match start_link(alloc, &[ITSELF, b"rspawn", dir, program], spawn) {
        Ok(rspawn) => begun_so(Some(clean), Some(lspawn), Some(rspawn), None),
        Err(status) => begun_so(Some(clean), Some(lspawn), None, Some(status)),
    }
}

/// These channels and this status.
fn begun_so(
    clean: Option<u32>,
    lspawn: Option<u32>,
    rspawn: Option<u32>,
    unstarted: Option<u8>,
) -> Begun
    ensures { result ≡ record { links = record { clean = clean; lspawn = lspawn; rspawn = rspawn }; unstarted = unstarted } }
{
    Begun {
        links: Links {
            clean,
            lspawn,
            rspawn,
        },
        unstarted,
    }
}

/// Starts a child with these words. The channel; or the status that tells why there is none.
fn start_link<S: Spawner>(alloc: Global, words: &[&[u8]], spawn: &mut S) -> Result<u32, u8>
    ensures { IsBegun (map (λ w. w.now) words.now) result
        (record { children = S.children spawn.old; calls = S.calls spawn.old; faults = S.faults spawn.old })
        (record { children = S.children spawn.new; calls = S.calls spawn.new; faults = S.faults spawn.new }) }
{
    match spawn.start(alloc, words) {
        Started::Chan { chan, .. } => Ok(chan),
        Started::Failed => Err(NO_START),
        Started::Memory => Err(MEMORY),
    }
}

/// Ends the inputs of the links' children that were started, and then takes the status of each: so all of them have ended when
/// this returns.
pub(crate) fn end_links<S: Spawner>(links: Links, spawn: &mut S)
    ensures { AreEnded links
        (record { children = S.children spawn.old; calls = S.calls spawn.old; faults = S.faults spawn.old })
        (record { children = S.children spawn.new; calls = S.calls spawn.new; faults = S.faults spawn.new }) }
{
    end_input(links.clean, spawn);
    end_input(links.lspawn, spawn);
    end_input(links.rspawn, spawn);
    take_status(links.clean, spawn);
    take_status(links.lspawn, spawn);
    take_status(links.rspawn, spawn);
}

/// Ends the input of the child of this channel, if there is one.
fn end_input<S: Spawner>(chan: Option<u32>, spawn: &mut S)
    ensures { Spawns (ends_of chan)
        (record { children = S.children spawn.old; calls = S.calls spawn.old; faults = S.faults spawn.old })
        (record { children = S.children spawn.new; calls = S.calls spawn.new; faults = S.faults spawn.new }) }
{
    match chan {
        Some(chan) => spawn.finish(chan),
        None => {}
    }
}

/// Takes the status of the child of this channel, if there is one.
fn take_status<S: Spawner>(chan: Option<u32>, spawn: &mut S)
    ensures { (calls : List SpawnCall) × AsksOf chan calls × Spawns calls
        (record { children = S.children spawn.old; calls = S.calls spawn.old; faults = S.faults spawn.old })
        (record { children = S.children spawn.new; calls = S.calls spawn.new; faults = S.faults spawn.new }) }
{
    match chan {
        Some(chan) => {
            let _ = spawn.status(chan);
        }
        None => {}
    }
}
