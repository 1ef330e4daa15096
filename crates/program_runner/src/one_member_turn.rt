// One turn of a program with channels.
ghost use Rattle.std.specs.Prelude.{◌≡◌, ℕ, IfOk, None};
ghost use Rattle.call_fs.specs.declared.past.GotData.{GotData};
ghost use Rattle.call_fs.specs.declared.program.Ready.{Ready as Found};
ghost use Rattle.program_runner.specs.Members.{CountsLooks, IsTurnOf, MayAct, uncounted};

use crate::child_words::ChildWords;
use crate::lines::Lines;
use crate::one_turn::bytes_read;
use crate::serving::serve;
use call_fs::{CallFs, Got, Machine, Need, PIECE, perform};
use mail_bytes::Memory;
use outside::{Clock, Posts, Sink, Spawner};
use std::alloc::Global;

/// One turn of a program with channels: what its posts brought is kept, it is told the moment and what is ready, and does
/// what is due: a file call, a taking from what came, a giving, a start. None then, also if it has to wait; its exit
/// status if it has ended. Its children are started by these words. It counts how many looks in a row found nothing to do.
/// Fails only if memory runs out. The conditions: it may find anything ready; and it stands for a run that asks for no
/// command of a user, and whose descriptors are open.
pub fn member_turn<M: Machine, D: CallFs, K: Clock, C: ChildWords, P: Posts, S: Spawner, O: Sink>(
    alloc: Global,
    machine: &mut M,
    words: &C,
    lines: &mut Lines,
    disk: &mut D,
    clock: &mut K,
    posts: &mut P,
    spawner: &mut S,
    output: &mut O,
    looks: &mut u64,
) -> Result<Option<u8>, Memory>
    requires finds { (m : M) (ready : Found) → M.can_find m ready }
    requires may { MayAct M.next (M.stands machine.old) (D.disk disk.old) }
    ensures turned { IsTurnOf M.next (C.words words.now) (M.takes_at_most machine.old) (M.stands machine.old) (M.stands machine.new)
        (λ read found came. (mid : M) × M.looks machine.old read found mid × M.goes mid came machine.new)
        (λ read found. M.looks machine.old read found machine.new) result
        (record { disk = D.disk disk.old; calls = D.calls disk.old; disk_faults = D.faults disk.old; moments = None; last = K.last clock.old; left = None; input_faults = uncounted; taken = O.taken output.old; output_faults = O.faults output.old })
        (record { disk = D.disk disk.new; calls = D.calls disk.new; disk_faults = D.faults disk.new; moments = None; last = K.last clock.new; left = None; input_faults = uncounted; taken = O.taken output.new; output_faults = O.faults output.new })
        (record { moments = K.calls clock.old; posts = record { waiting = P.waiting posts.old; asked = P.calls posts.old; faults = P.faults posts.old }; spawner = record { children = S.children spawner.old; calls = S.calls spawner.old; faults = S.faults spawner.old }; lines = lines.old })
        (record { moments = K.calls clock.new; posts = record { waiting = P.waiting posts.new; asked = P.calls posts.new; faults = P.faults posts.new }; spawner = record { children = S.children spawner.new; calls = S.calls spawner.new; faults = S.faults spawner.new }; lines = lines.new }) }
    ensures looks { IfOk result (λ ended. ended ≡ None → CountsLooks looks.old looks.new
        ((read : ℕ) × (found : Found) × (came : GotData) × (mid : M) × M.looks machine.old read found mid × M.goes mid came machine.new)
        ((read : ℕ) × (found : Found) × M.looks machine.old read found machine.new)) }
{
    M::uses_held();
    let before = *looks;
    *looks = 0;
    lines.gather(alloc, posts)?;
    let ready = lines.ready();
    let now = clock.now();
    machine.look(now, ready);
    let mut bytes = [0; PIECE];
    let asked = machine.need();
    match asked {
        Need::File(call) => {
            let answer = perform(alloc, disk, now, call, &mut bytes);
            let read = bytes_read(&answer, &bytes);
            machine.done(alloc, Got::File(answer, read))?;
        }
        Need::Ended(status) => return Ok(Some(status)),
        _ => {
            let most = machine.taking_room();
            let served = serve(
                alloc, words, lines, asked, most, &mut bytes, spawner, output,
            )?;
            if served.is_done() {
                machine.done(alloc, served.came(&bytes))?;
                return Ok(None);
            }
            *looks = before.saturating_add(1);
        }
    }
    Ok(None)
}
