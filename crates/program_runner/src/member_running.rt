// A program with channels that runs until it ends.
ghost use Rattle.std.specs.Prelude.{◌<◌, [], List, ℕ, None};
ghost use Rattle.call_fs.specs.Past.{IsRunBy};
ghost use Rattle.call_fs.specs.declared.past.Own.{Own};
ghost use Rattle.call_fs.specs.declared.program.Ready.{Ready as Found};
ghost use Rattle.program_runner.specs.Members.{IsCarried, RanTo, uncounted};

use crate::child_words::ChildWords;
use crate::lines::Lines;
use crate::one_member_turn::member_turn;
use call_fs::{CallFs, Machine};
use mail_bytes::Memory;
use outside::{Clock, Gate, Posts, Sink, Spawner};
use std::alloc::Global;

/// The most turns that a run takes: at a million a second, those of 500,000 years.
const TURNS: u64 = u64::MAX;

/// Runs a program with channels to its end, and answers its exit status. Its input is a channel of the posts, its links and
/// its children are channels of the spawner; its children are started by these words. It goes on as long as it has to wait,
/// for `TURNS` turns at most, which nobody lives to see; then `None`. Fails only if memory runs out; what it did until then
/// is a run that was cut short. The conditions: it has no past yet, it may find anything ready at any time, and it asks for
/// no command of a user.
///
/// After each look that found nothing to do it pauses at the gate, as the k-th in a row: `gate.pause(0, k)`. So a gate that
/// rests lets a program sleep that waits.
pub fn run_member<
    M: Machine,
    D: CallFs,
    K: Clock,
    C: ChildWords,
    P: Posts,
    S: Spawner,
    O: Sink,
    G: Gate,
>(
    alloc: Global,
    machine: &mut M,
    words: &C,
    lines: &mut Lines,
    disk: &mut D,
    clock: &mut K,
    posts: &mut P,
    spawner: &mut S,
    output: &mut O,
    gate: &G,
) -> Result<Option<u8>, Memory>
    requires new { (args : M.Arguments) × M.stands machine.old args [] }
    requires finds { (m : M) (ready : Found) → M.can_find m ready }
    requires carried { (args : M.Arguments) (past : List Own) (now : ℕ) (ready : Found) → IsRunBy (M.next args) past → IsCarried (M.next args past now ready) }
    ensures { RanTo result M.next (C.words words.now) ((m : M) → 0 < M.takes_at_most m) (M.stands machine.new) (λ args. M.stands machine.old args []) (K.last clock.old)
        (record { disk = D.disk disk.old; calls = D.calls disk.old; disk_faults = D.faults disk.old; moments = None; last = K.last clock.old; left = None; input_faults = uncounted; taken = O.taken output.old; output_faults = O.faults output.old })
        (record { disk = D.disk disk.new; calls = D.calls disk.new; disk_faults = D.faults disk.new; moments = None; last = K.last clock.new; left = None; input_faults = uncounted; taken = O.taken output.new; output_faults = O.faults output.new })
        (record { moments = K.calls clock.old; posts = record { waiting = P.waiting posts.old; asked = P.calls posts.old; faults = P.faults posts.old }; spawner = record { children = S.children spawner.old; calls = S.calls spawner.old; faults = S.faults spawner.old }; lines = lines.old })
        (record { moments = K.calls clock.new; posts = record { waiting = P.waiting posts.new; asked = P.calls posts.new; faults = P.faults posts.new }; spawner = record { children = S.children spawner.new; calls = S.calls spawner.new; faults = S.faults spawner.new }; lines = lines.new }) }
{
    let mut looks = 0;
    for _ in 0..TURNS {
        match member_turn(
            alloc, machine, words, lines, disk, clock, posts, spawner, output, &mut looks,
        ) {
            Ok(None) => rest(gate, looks),
            Ok(Some(status)) => return Ok(Some(status)),
            Err(memory) => return Err(memory),
        }
    }
    Ok(None)
}

/// Pauses at the gate, if the last looks found nothing to do; so many of them, one after the other.
fn rest<G: Gate>(gate: &G, looks: u64) {
    if looks > 0 {
        gate.pause(0, looks);
    }
}
