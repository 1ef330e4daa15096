// The sender is run over the channels of its children.
ghost use Rattle.std.specs.Prelude.{◌≡◌, [], None, Some};
ghost use Rattle.program_runner.specs.ChildWords.{words_of};
ghost use Rattle.program_runner.specs.Lines.{LineState};
ghost use Rattle.program_runner.specs.Members.{uncounted};
ghost use Rattle.send_core.specs.Stands.{Stands};
ghost use Rattle.send_command.specs.Sent.{HasRun, lines_with};

use crate::lines::give_lines;
use crate::links::Links;
use crate::resting::{AT_WAITS, Resting};
use call_fs::CallFs;
use outside::{Clock, Gate, Gave, Posts, Sink, Spawner};
use program_runner::{Lines, Nothing, QueueChildren, member_turn};
use queue_limits::{MEMORY, OUTPUT};
use send_core::Sender;
use std::alloc::Global;

/// The most turns of the runner, looks and events: at a million a second, those of 500,000 years.
const TURNS: u64 = u64::MAX;

/// Runs the sender of so many turns over these links, and answers its exit status.
pub(crate) fn run_sender<D: CallFs, L: Sink, K: Clock, P: Posts, S: Spawner, G: Gate>(
    alloc: Global,
    dir: &[u8],
    program: &[u8],
    turns: u64,
    links: Links,
    disk: &mut D,
    log: &mut L,
    clock: &mut K,
    posts: &mut P,
    spawn: &mut S,
    gate: &G,
) -> u8
    ensures { (lines : LineState) × HasRun (words_of dir.now program.now) turns result
        (record { disk = D.disk disk.old; calls = D.calls disk.old; disk_faults = D.faults disk.old; moments = None; last = K.last clock.old; left = None; input_faults = uncounted; taken = None; output_faults = 0 })
        (record { disk = D.disk disk.new; calls = D.calls disk.new; disk_faults = D.faults disk.new; moments = None; last = K.last clock.new; left = None; input_faults = uncounted; taken = None; output_faults = 0 })
        (record { moments = K.calls clock.old; posts = record { waiting = P.waiting posts.old; asked = P.calls posts.old; faults = P.faults posts.old }; spawner = record { children = S.children spawn.old; calls = S.calls spawn.old; faults = S.faults spawn.old }; lines = lines_with links.clean links.lspawn links.rspawn })
        (record { moments = K.calls clock.new; posts = record { waiting = P.waiting posts.new; asked = P.calls posts.new; faults = P.faults posts.new }; spawner = record { children = S.children spawn.new; calls = S.calls spawn.new; faults = S.faults spawn.new }; lines = lines })
        (record { taken = L.taken log.old; faults = L.faults log.old })
        (record { taken = L.taken log.new; faults = L.faults log.new }) }
{
    let Ok(mut sender) = Sender::new(alloc, Some(turns)) else {
        return MEMORY;
    };
    let words = QueueChildren { dir, program };
    let mut lines = Lines::new(alloc, [links.clean, links.lspawn, links.rspawn, None]);
    let mut resting = Resting::new(turns);
    let status = run_on(
        alloc,
        &mut sender,
        turns,
        &words,
        &mut lines,
        &mut resting,
        disk,
        log,
        clock,
        posts,
        spawn,
        gate,
    );
    drop(lines);
    drop(sender);
    status
}

/// Runs this sender, which has no past yet, until it ends, its log fails or memory runs out. After each event it gives the lines
/// of that, and rests if there is nothing to do.
fn run_on<D: CallFs, L: Sink, K: Clock, P: Posts, S: Spawner, G: Gate>(
    alloc: Global,
    sender: &mut Sender,
    turns: u64,
    words: &QueueChildren<'_>,
    lines: &mut Lines,
    resting: &mut Resting,
    disk: &mut D,
    log: &mut L,
    clock: &mut K,
    posts: &mut P,
    spawn: &mut S,
    gate: &G,
) -> u8
    requires new { Stands sender.old (Some turns) [] }
    requires quiet { sender.old.log ≡ [] }
    requires fresh { lines.old.kept ≡ [] }
    ensures { HasRun (words_of words.now.dir.now words.now.program.now) turns result
        (record { disk = D.disk disk.old; calls = D.calls disk.old; disk_faults = D.faults disk.old; moments = None; last = K.last clock.old; left = None; input_faults = uncounted; taken = None; output_faults = 0 })
        (record { disk = D.disk disk.new; calls = D.calls disk.new; disk_faults = D.faults disk.new; moments = None; last = K.last clock.new; left = None; input_faults = uncounted; taken = None; output_faults = 0 })
        (record { moments = K.calls clock.old; posts = record { waiting = P.waiting posts.old; asked = P.calls posts.old; faults = P.faults posts.old }; spawner = record { children = S.children spawn.old; calls = S.calls spawn.old; faults = S.faults spawn.old }; lines = lines.old })
        (record { moments = K.calls clock.new; posts = record { waiting = P.waiting posts.new; asked = P.calls posts.new; faults = P.faults posts.new }; spawner = record { children = S.children spawn.new; calls = S.calls spawn.new; faults = S.faults spawn.new }; lines = lines.new })
        (record { taken = L.taken log.old; faults = L.faults log.old })
        (record { taken = L.taken log.new; faults = L.faults log.new }) }
{
    let mut looks = 0;
    for _ in 0..TURNS {
        match member_turn(
            alloc,
            sender,
            words,
            lines,
            disk,
            clock,
            posts,
            spawn,
            &mut Nothing,
            &mut looks,
        ) {
            Ok(None) => {}
            Ok(Some(status)) => return status,
            Err(_) => return MEMORY,
        }
        match give_lines(log, sender.log()) {
            Gave::Done => {}
            Gave::Failed => return OUTPUT,
        }
        resting.hear(sender.log());
        sender.clear_log();
        rest(sender, lines, looks, resting, gate);
    }
    MEMORY
}

/// Pauses at the gate if the last looks found nothing to do, so many of them in a row; or between two turns, if nothing is to be
/// done in the next one.
fn rest<G: Gate>(sender: &Sender, lines: &Lines, looks: u64, resting: &mut Resting, gate: &G) {
    if looks > 0 {
        gate.pause(AT_WAITS, looks);
    } else if sender.is_between() {
        let ready = lines.ready();
        resting.rest(ready.links[1] || ready.links[2], gate);
    }
}
