// A whole injection.
ghost use Rattle.std.specs.Prelude.{◌≡◌, ◌<◌, ◌^◌, IfOk, OnErr};
ghost use Rattle.mail_bytes.specs.Moments.{IsMoment};
ghost use Rattle.queue_command.specs.Injected.{HasInjected, HasInjectedFrom};

use crate::input::{Form, feed};
use crate::netstring::Place;
use call_fs::{CallFs, INPUT_READY, PIECE};
use mail_bytes::Memory;
use outside::{Clock, Source};
use program_runner::{Nothing, turn};
use queue_inject::{Injector, statuses_have_causes};
use received_line::Invoked;
use std::alloc::Global;

/// The exit status for out of memory.
const MEMORY: u8 = 51;

/// Injects one message for this user, and answers the exit status, which is that of qmail-queue(8).
///
/// The clock's first reading starts the injector, before the first byte of the input is taken; its later ones come one
/// before each file call, and one at the end. The message is read as it is written, and its envelope once the message is
/// synced. Of each at most 1,073,741,825 bytes are taken, and none after a call that failed.
///
/// 0: the message is queued. 11: an address has over 1002 bytes. 31: the message or the envelope has over 1,073,741,824
/// bytes. 51: out of memory. 52: a day went by. 53: a write or a sync failed. 54: the input could not be read to its end.
/// 63: no pid name could be made, or taken away. 64, 65, 66: trouble in mess, intd, todo. 91: the envelope, or a
/// netstring, is malformed.
pub fn inject<D: CallFs, M: Source, E: Source, K: Clock>(
    alloc: Global,
    uid: u32,
    invoked: Invoked,
    form: Form,
    disk: &mut D,
    message: &mut M,
    envelope: &mut E,
    clock: &mut K,
) -> u8
    ensures injected { HasInjected (record { uid = uid; pid = K.pid clock.old; invoked = invoked }) form
        (record { old = M.left message.old; new = M.left message.new; faults_old = M.faults message.old; faults_new = M.faults message.new })
        (record { old = E.left envelope.old; new = E.left envelope.new; faults_old = E.faults envelope.old; faults_new = E.faults envelope.new })
        (record { disk = D.disk disk.old; calls = D.calls disk.old; faults = D.faults disk.old; moments = K.calls clock.old })
        (record { disk = D.disk disk.new; calls = D.calls disk.new; faults = D.faults disk.new; moments = K.calls clock.new })
        result }
    ensures beside { form ≡ Form.Netstrings → envelope.new ≡ envelope.old }
{
    statuses_have_causes();
    let start = clock.now();
    let pid = clock.pid();
    match inject_from(
        alloc, uid, pid, invoked, start, form, disk, message, envelope, clock,
    ) {
        Ok(status) => status,
        Err(_) => MEMORY,
    }
}

/// Injects one message in a process with this number, started now. Fails only if memory runs out, before the first byte is
/// taken and the first call is made. The conditions: the start is the moment that the clock told last.
fn inject_from<D: CallFs, M: Source, E: Source, K: Clock>(
    alloc: Global,
    uid: u32,
    pid: u32,
    invoked: Invoked,
    start: u64,
    form: Form,
    disk: &mut D,
    message: &mut M,
    envelope: &mut E,
    clock: &mut K,
) -> Result<u8, Memory>
    requires moment { IsMoment start }
    requires now { K.last clock.old ≡ start }
    ensures ran { IfOk result (λ status. HasInjectedFrom (record { uid = uid; pid = pid; invoked = invoked }) start form
        (record { old = M.left message.old; new = M.left message.new; faults_old = M.faults message.old; faults_new = M.faults message.new })
        (record { old = E.left envelope.old; new = E.left envelope.new; faults_old = E.faults envelope.old; faults_new = E.faults envelope.new })
        (record { disk = D.disk disk.old; calls = D.calls disk.old; faults = D.faults disk.old; moments = K.calls clock.old })
        (record { disk = D.disk disk.new; calls = D.calls disk.new; faults = D.faults disk.new; moments = K.calls clock.new })
        status) }
    ensures number { pid < 2 ^ 32 }
    ensures beside { form ≡ Form.Netstrings → envelope.new ≡ envelope.old }
    ensures disk { OnErr result (disk.new ≡ disk.old) }
    ensures clock { OnErr result (clock.new ≡ clock.old) }
    ensures message { OnErr result (message.new ≡ message.old) }
    ensures envelope { OnErr result (envelope.new ≡ envelope.old) }
{
    let mut injector = Injector::new(alloc, uid, pid, invoked, start, PIECE)?;
    let mut place = Place::Head;
    loop {
        feed(&mut injector, form, &mut place, message, envelope);
        match turn(
            alloc,
            &mut injector,
            INPUT_READY,
            disk,
            clock,
            &mut Nothing,
            &mut Nothing,
        )? {
            None => {}
            Some(status) => return Ok(status),
        }
    }
}
