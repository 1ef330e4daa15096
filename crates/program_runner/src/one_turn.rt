// One turn of a program.
ghost use Rattle.std.specs.Prelude.{◌≡◌, min, None, Some, IfOk, IsOk, OnErr};
ghost use Rattle.mail_bytes.specs.Told.{Meets};
ghost use Rattle.outside.specs.Streams.{CountsFailures, FitsInto, TakesBytes};
ghost use Rattle.call_fs.specs.Calls.{bytes_read};
ghost use Rattle.program_runner.specs.Outside.{HasFew};
ghost use Rattle.call_fs.specs.Program.{IsNearer};
ghost use Rattle.program_runner.specs.Runs.{GoesOn, IsTurn, MayTurn};

use call_fs::{Answer, CallFs, Got, Machine, Need, PIECE, Port, Ready, perform};
use mail_bytes::Memory;
use outside::{Clock, Gave, Sink, Source, Took};
use std::alloc::Global;

/// One turn of a program: it is told the moment and what is ready, and does what is due: a file call, a taking of its
/// input, a giving to its output. None then; its exit status if it has ended. Fails only when out of memory at what came of
/// a call that was made: that event is one more then, whatever became of the machine. The conditions: it may find this ready; and it stands for a run that asks for no more than
/// that, and whose descriptors are open.
pub fn turn<M: Machine, D: CallFs, K: Clock, S: Source, O: Sink>(
    alloc: Global,
    machine: &mut M,
    ready: Ready,
    disk: &mut D,
    clock: &mut K,
    input: &mut S,
    output: &mut O,
) -> Result<Option<u8>, Memory>
    requires finds { M.can_find machine.old ready }
    requires may { MayTurn M.next (M.stands machine.old) ready (D.disk disk.old) }
    ensures turned { IfOk result (λ ended. IsTurn M.next (M.stands machine.old) (M.stands machine.new)
        (λ read found came. (mid : M) × M.looks machine.old read found mid × M.goes mid came machine.new) ready ended
        (record { disk = D.disk disk.old; calls = D.calls disk.old; disk_faults = D.faults disk.old; moments = K.calls clock.old; last = K.last clock.old; left = S.left input.old; input_faults = S.faults input.old; taken = O.taken output.old; output_faults = O.faults output.old })
        (record { disk = D.disk disk.new; calls = D.calls disk.new; disk_faults = D.faults disk.new; moments = K.calls clock.new; last = K.last clock.new; left = S.left input.new; input_faults = S.faults input.new; taken = O.taken output.new; output_faults = O.faults output.new })) }
    ensures cut { OnErr result (GoesOn M.next (M.stands machine.old) (λ args past. Unit {0}) (λ read found came. Unit {0}) ready
        (record { disk = D.disk disk.old; calls = D.calls disk.old; disk_faults = D.faults disk.old; moments = K.calls clock.old; last = K.last clock.old; left = S.left input.old; input_faults = S.faults input.old; taken = O.taken output.old; output_faults = O.faults output.old })
        (record { disk = D.disk disk.new; calls = D.calls disk.new; disk_faults = D.faults disk.new; moments = K.calls clock.new; last = K.last clock.new; left = S.left input.new; input_faults = S.faults input.new; taken = O.taken output.new; output_faults = O.faults output.new })) }
    ensures nearer { IfOk result (λ ended. ended ≡ None → IsNearer (M.ahead machine.old) (M.ahead machine.new)) }
    ensures room { M.has_room machine.old → IsOk result × M.has_room machine.new }
{
    M::uses_held();
    let now = clock.now();
    machine.look(now, ready);
    let mut bytes = [0; PIECE];
    match machine.need() {
        Need::File(call) => {
            let answer = perform(alloc, disk, now, call, &mut bytes);
            let read = bytes_read(&answer, &bytes);
            machine.done(alloc, Got::File(answer, read))?;
        }
        Need::Take(Port::Input) => {
            match take(input, machine.taking_room(), &mut bytes) {
                Took::Got(count) => machine.done(alloc, Got::Took(&bytes[..count]))?,
                Took::End => machine.done(alloc, Got::End)?,
                Took::Failed => machine.done(alloc, Got::Failed)?,
            }
        }
        Need::Give(Port::Output, given) => match output.give(given) {
            Gave::Done => machine.done(alloc, Got::Gave)?,
            Gave::Failed => machine.done(alloc, Got::Failed)?,
        },
        Need::Ended(status) => return Ok(Some(status)),
        _ => unreachable!(),
    }
    Ok(None)
}

/// Takes bytes of an input into this buffer, at most so many.
pub fn take<S: Source>(input: &mut S, most: usize, buffer: &mut [u8; PIECE]) -> Took
    ensures fits { FitsInto result (min most PIECE) }
    ensures told { Meets (S.left input.old) (S.left input.new) (TakesBytes result buffer.new) }
    ensures cause { CountsFailures (S.faults input.old) (S.faults input.new) (result ≡ Took.Failed) }
{
    input.take(&mut buffer[..most.min(PIECE)])
}

/// The bytes that a read put into this buffer. The condition: they are no more than a piece.
pub(crate) fn bytes_read<'b>(answer: &Answer, buffer: &'b [u8; PIECE]) -> &'b [u8]
    requires { HasFew answer.now }
    ensures { result.now ≡ bytes_read answer.now buffer.now }
{
    match answer {
        Answer::Count(count) => &buffer[..*count as usize],
        _ => &[],
    }
}
