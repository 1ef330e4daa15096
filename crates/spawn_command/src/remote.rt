// The remote spawner is run.
ghost use Rattle.std.specs.Prelude.{[], None};
ghost use Rattle.program_runner.specs.ChildWords.{words_of};
ghost use Rattle.program_runner.specs.Lines.{LineState};
ghost use Rattle.program_runner.specs.Members.{uncounted};
ghost use Rattle.spawner_parts.specs.Causes.{IsEnded};
ghost use Rattle.remote_spawn.specs.Table.{Next};
ghost use Rattle.spawn_command.specs.Spawned.{WasSpawned, begun_lines};

use crate::ending::status_of;
use call_fs::CallFs;
use outside::{Clock, Gate, Posts, Sink, Spawner};
use program_runner::{Lines, QueueChildren, lines_tell_the_past, run_member};
use queue_limits::MEMORY;
use remote_spawn::RemoteSpawn;
use std::alloc::Global;

/// Runs the remote spawner over this disk until its requests end and no program is left, and answers its exit status. Its
/// requests are channel 0 of the posts, as qmail-rspawn(8) takes them; for each it starts `PROGRAM DOMAIN SENDER RECIPIENT`,
/// whose output is a channel of the posts. It gives one byte first, 120, and then a report for each request.
///
/// 0: the requests ended, and each has its report. 91: a field of a request has a 4097th byte, and each request before has
/// its report. 53: the output failed, and has counted that. 54: the requests or what a program printed couldn't be taken,
/// and the posts have counted that. 51: out of memory, or it hasn't ended after 18,446,744,073,709,551,615 turns.
pub fn spawn_remote<D: CallFs, K: Clock, P: Posts, S: Spawner, O: Sink, G: Gate>(
    alloc: Global,
    program: &[u8],
    disk: &mut D,
    clock: &mut K,
    posts: &mut P,
    spawn: &mut S,
    out: &mut O,
    gate: &G,
) -> u8
    ensures { (lines : LineState) × WasSpawned Next (words_of [] program.now) IsEnded result
        (record { disk = D.disk disk.old; calls = D.calls disk.old; disk_faults = D.faults disk.old; moments = None; last = K.last clock.old; left = None; input_faults = uncounted; taken = O.taken out.old; output_faults = O.faults out.old })
        (record { disk = D.disk disk.new; calls = D.calls disk.new; disk_faults = D.faults disk.new; moments = None; last = K.last clock.new; left = None; input_faults = uncounted; taken = O.taken out.new; output_faults = O.faults out.new })
        (record { moments = K.calls clock.old; posts = record { waiting = P.waiting posts.old; asked = P.calls posts.old; faults = P.faults posts.old }; spawner = record { children = S.children spawn.old; calls = S.calls spawn.old; faults = S.faults spawn.old }; lines = begun_lines })
        (record { moments = K.calls clock.new; posts = record { waiting = P.waiting posts.new; asked = P.calls posts.new; faults = P.faults posts.new }; spawner = record { children = S.children spawn.new; calls = S.calls spawn.new; faults = S.faults spawn.new }; lines = lines }) }
{
    lines_tell_the_past();
    match RemoteSpawn::new(alloc) {
        Ok(mut machine) => {
            let words = QueueChildren { dir: b"", program };
            let mut lines = Lines::new(alloc, [Some(0), None, None, None]);
            let ran = run_member(
                alloc,
                &mut machine,
                &words,
                &mut lines,
                disk,
                clock,
                posts,
                spawn,
                out,
                gate,
            );
            drop(lines);
            drop(machine);
            status_of(ran)
        }
        Err(_) => MEMORY,
    }
}
