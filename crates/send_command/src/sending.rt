// The sender, with its children.
ghost use Rattle.std.specs.Prelude.{None};
ghost use Rattle.program_runner.specs.ChildWords.{dir_word};
ghost use Rattle.program_runner.specs.Lines.{LineState};
ghost use Rattle.program_runner.specs.Members.{uncounted};
ghost use Rattle.send_command.specs.Sent.{WasSent, no_lines};

use crate::links::{end_links, start_links};
use crate::running::run_sender;
use call_fs::CallFs;
use outside::{Clock, Gate, Posts, Sink, Spawner};
use program_runner::dir_word;
use queue_limits::MEMORY;
use std::alloc::Global;

/// Starts the cleaner, the local and the remote spawner of the queue in this directory as children, is the sender over this disk
/// for so many turns, from 1, and then ends its children's inputs and waits for them. The remote spawner delivers by this
/// program. The log is that of qmail-send(8); each line is given by itself. The exit status:
///
/// 0: all turns were made. 81, 82, 83: the link of the cleaner, the local or the remote spawner has ended, or a taking of it or a
/// giving to it failed, and the posts or the spawner have counted that. 84: a child couldn't be started; or a file call failed
/// in the start, and the disk has counted that, or a directory of the queue is missing. 85: a control file is bad. 53: the log
/// failed, and has counted that. 51: out of memory, or it hasn't ended after 18,446,744,073,709,551,615 events and looks.
///
/// It pauses at the gate when a look found nothing to do, after a turn in which nothing happened, and before its last turns while
/// deliveries are in flight (`AT_WAITS`, `AT_IDLE_TURNS`, `AT_LAST_TURNS`). A gate that sleeps until a post comes, or for so long,
/// so lets it rest.
pub fn send<D: CallFs, L: Sink, K: Clock, P: Posts, S: Spawner, G: Gate>(
    alloc: Global,
    dir: &[u8],
    program: &[u8],
    turns: u64,
    disk: &mut D,
    log: &mut L,
    clock: &mut K,
    posts: &mut P,
    spawn: &mut S,
    gate: &G,
) -> u8
    ensures { (lines : LineState) × WasSent (dir_word dir.now) program.now turns result
        (record { disk = D.disk disk.old; calls = D.calls disk.old; disk_faults = D.faults disk.old; moments = None; last = K.last clock.old; left = None; input_faults = uncounted; taken = None; output_faults = 0 })
        (record { disk = D.disk disk.new; calls = D.calls disk.new; disk_faults = D.faults disk.new; moments = None; last = K.last clock.new; left = None; input_faults = uncounted; taken = None; output_faults = 0 })
        (record { moments = K.calls clock.old; posts = record { waiting = P.waiting posts.old; asked = P.calls posts.old; faults = P.faults posts.old }; spawner = record { children = S.children spawn.old; calls = S.calls spawn.old; faults = S.faults spawn.old }; lines = no_lines })
        (record { moments = K.calls clock.new; posts = record { waiting = P.waiting posts.new; asked = P.calls posts.new; faults = P.faults posts.new }; spawner = record { children = S.children spawn.new; calls = S.calls spawn.new; faults = S.faults spawn.new }; lines = lines })
        (record { taken = L.taken log.old; faults = L.faults log.old })
        (record { taken = L.taken log.new; faults = L.faults log.new }) }
{
    let Ok(dir) = dir_word(alloc, dir) else {
        return MEMORY;
    };
    send_in(
        alloc,
        dir.as_slice(),
        program,
        turns,
        disk,
        log,
        clock,
        posts,
        spawn,
        gate,
    )
}

/// The same, with the directory as its children are told it.
fn send_in<D: CallFs, L: Sink, K: Clock, P: Posts, S: Spawner, G: Gate>(
    alloc: Global,
    dir: &[u8],
    program: &[u8],
    turns: u64,
    disk: &mut D,
    log: &mut L,
    clock: &mut K,
    posts: &mut P,
    spawn: &mut S,
    gate: &G,
) -> u8
    ensures { (lines : LineState) × WasSent dir.now program.now turns result
        (record { disk = D.disk disk.old; calls = D.calls disk.old; disk_faults = D.faults disk.old; moments = None; last = K.last clock.old; left = None; input_faults = uncounted; taken = None; output_faults = 0 })
        (record { disk = D.disk disk.new; calls = D.calls disk.new; disk_faults = D.faults disk.new; moments = None; last = K.last clock.new; left = None; input_faults = uncounted; taken = None; output_faults = 0 })
        (record { moments = K.calls clock.old; posts = record { waiting = P.waiting posts.old; asked = P.calls posts.old; faults = P.faults posts.old }; spawner = record { children = S.children spawn.old; calls = S.calls spawn.old; faults = S.faults spawn.old }; lines = no_lines })
        (record { moments = K.calls clock.new; posts = record { waiting = P.waiting posts.new; asked = P.calls posts.new; faults = P.faults posts.new }; spawner = record { children = S.children spawn.new; calls = S.calls spawn.new; faults = S.faults spawn.new }; lines = lines })
        (record { taken = L.taken log.old; faults = L.faults log.old })
        (record { taken = L.taken log.new; faults = L.faults log.new }) }
{
    let begun = start_links(alloc, dir, program, spawn);
    match begun.unstarted {
        Some(status) => {
            end_links(begun.links, spawn);
            status
        }
        None => {
            let status = run_sender(
                alloc,
                dir,
                program,
                turns,
                begun.links,
                disk,
                log,
                clock,
                posts,
                spawn,
                gate,
            );
            end_links(begun.links, spawn);
            status
        }
    }
}
