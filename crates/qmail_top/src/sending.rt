// The command `send`.
ghost use Rattle.std.specs.Prelude.{None};
ghost use Rattle.program_runner.specs.ChildWords.{dir_word};
ghost use Rattle.program_runner.specs.Lines.{LineState};
ghost use Rattle.program_runner.specs.Members.{uncounted};
ghost use Rattle.send_command.specs.Sent.{WasSent, no_lines};

use call_fs::CallFs;
use command_words::SendWords;
use outside::{Clock, Gate, Posts, Sink, Spawner};
use send_command::send;
use std::alloc::Global;

/// Is the sender that the words of `send` tell.
pub fn be_sender<D: CallFs, L: Sink, K: Clock, P: Posts, S: Spawner, G: Gate>(
    alloc: Global,
    told: SendWords,
    disk: &mut D,
    log: &mut L,
    clock: &mut K,
    posts: &mut P,
    spawn: &mut S,
    gate: &G,
) -> u8
    ensures { (lines : LineState) × WasSent (dir_word told.dir) told.program told.turns result
        (record { disk = D.disk disk.old; calls = D.calls disk.old; disk_faults = D.faults disk.old; moments = None; last = K.last clock.old; left = None; input_faults = uncounted; taken = None; output_faults = 0 })
        (record { disk = D.disk disk.new; calls = D.calls disk.new; disk_faults = D.faults disk.new; moments = None; last = K.last clock.new; left = None; input_faults = uncounted; taken = None; output_faults = 0 })
        (record { moments = K.calls clock.old; posts = record { waiting = P.waiting posts.old; asked = P.calls posts.old; faults = P.faults posts.old }; spawner = record { children = S.children spawn.old; calls = S.calls spawn.old; faults = S.faults spawn.old }; lines = no_lines })
        (record { moments = K.calls clock.new; posts = record { waiting = P.waiting posts.new; asked = P.calls posts.new; faults = P.faults posts.new }; spawner = record { children = S.children spawn.new; calls = S.calls spawn.new; faults = S.faults spawn.new }; lines = lines })
        (record { taken = L.taken log.old; faults = L.faults log.old })
        (record { taken = L.taken log.new; faults = L.faults log.new }) }
{
    let SendWords {
        dir,
        program,
        turns,
    } = told;
    send(
        alloc,
        dir.as_slice(),
        program.as_slice(),
        turns,
        disk,
        log,
        clock,
        posts,
        spawn,
        gate,
    )
}
