// One event of a delivery.
ghost use Rattle.std.specs.Prelude.{◌≡◌};
ghost use Rattle.call_fs.specs.Calls.{bytes_read};
ghost use Rattle.program_runner.specs.Outside.{HasFew};
ghost use Rattle.local_deliver.specs.Stands.{Stands};
ghost use Rattle.local_command.specs.Serving.{IsStep, MayGoOn};

use crate::serving::serve;
use call_fs::{Answer, CallFs, Got, INPUT_READY, Machine, Need, PIECE, perform};
use local_deliver::{Local, commands_get_the_message, deliveries_ask_for_this};
use mail_bytes::Memory;
use outside::{Clock, Gate, Posts, Sink, Source, Spawner};
use program_runner::ChildWords;
use std::alloc::Global;

/// One event of a delivery: it is told the moment, and that its input is ready, and does what is due. None then; its exit
/// status if it has ended. The injector of forwards has this channel once it was started. Fails only if memory runs out for
/// what came of an event. The condition: it stands for a run, and its descriptors are open.
pub(crate) fn step<
    D: CallFs,
    C: ChildWords,
    M: Source,
    O: Sink,
    K: Clock,
    P: Posts,
    S: Spawner,
    G: Gate,
>(
    alloc: Global,
    machine: &mut Local,
    words: &C,
    injector: &mut Option<u32>,
    disk: &mut D,
    input: &mut M,
    output: &mut O,
    clock: &mut K,
    posts: &mut P,
    spawner: &mut S,
    gate: &G,
) -> Result<Option<u8>, Memory>
    requires may { MayGoOn (Stands machine.old) injector.old (D.disk disk.old) }
    ensures { IsStep (C.words words.now) (Stands machine.old) (Stands machine.new) injector.old injector.new result
        (record { disk = D.disk disk.old; calls = D.calls disk.old; disk_faults = D.faults disk.old; moments = K.calls clock.old; last = K.last clock.old; left = M.left input.old; input_faults = M.faults input.old; taken = O.taken output.old; output_faults = O.faults output.old })
        (record { disk = D.disk disk.new; calls = D.calls disk.new; disk_faults = D.faults disk.new; moments = K.calls clock.new; last = K.last clock.new; left = M.left input.new; input_faults = M.faults input.new; taken = O.taken output.new; output_faults = O.faults output.new })
        (record { posts = record { waiting = P.waiting posts.old; asked = P.calls posts.old; faults = P.faults posts.old }; spawner = record { children = S.children spawner.old; calls = S.calls spawner.old; faults = S.faults spawner.old } })
        (record { posts = record { waiting = P.waiting posts.new; asked = P.calls posts.new; faults = P.faults posts.new }; spawner = record { children = S.children spawner.new; calls = S.calls spawner.new; faults = S.faults spawner.new } }) }
{
    Local::uses_held();
    deliveries_ask_for_this();
    commands_get_the_message();
    let now = clock.now();
    machine.look(now, INPUT_READY);
    let mut bytes = [0; PIECE];
    let need = machine.need();
    match need {
        Need::File(call) => {
            let answer = perform(alloc, disk, now, call, &mut bytes);
            let read = bytes_read(&answer, &bytes);
            machine.done(alloc, Got::File(answer, read))?;
        }
        Need::Ended(status) => return Ok(Some(status)),
        _ => {
            let served = serve(
                alloc,
                words,
                need,
                machine.message(),
                injector,
                &mut bytes,
                input,
                output,
                posts,
                spawner,
                gate,
            );
            machine.done(alloc, served.came(&bytes))?;
        }
    }
    Ok(None)
}

/// The bytes that a read put into this buffer. The condition: they are no more than a piece.
fn bytes_read<'b>(answer: &Answer, buffer: &'b [u8; PIECE]) -> &'b [u8]
    requires { HasFew answer.now }
    ensures { result.now ≡ bytes_read answer.now buffer.now }
{
    match answer {
        Answer::Count(count) => &buffer[..*count as usize],
        _ => &[],
    }
}
