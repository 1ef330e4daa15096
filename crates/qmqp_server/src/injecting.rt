// An injector that is fed a package.
ghost use Rattle.std.specs.Prelude.{◌≡◌, ◌<◌, ◌^◌, false, IfOk, OnErr};
ghost use Rattle.mail_bytes.specs.Moments.{IsMoment};
ghost use Rattle.queue_inject.specs.Machine.{room_of};
ghost use Rattle.received_line.specs.declared.line.Invoked.TheVariants.{Uid};
ghost use Rattle.qmqp_server.specs.inside.Feeding.{FeedsNext, HasFed};
ghost use Rattle.qmqp_server.specs.inside.Places.{IsNew, is_over};

use crate::reader::{Next, Reader};
use crate::reading::next;
use call_fs::{CallFs, INPUT_READY, PIECE};
use mail_bytes::Memory;
use outside::{Clock, Source};
use program_runner::{Nothing, turn};
use queue_inject::Injector;
use received_line::Invoked;
use std::alloc::Global;

/// Runs an injector for this user, in a process with this number, started now, to its end, and feeds it what it asks for of a
/// package, as far as that goes. Answers its exit status. Fails only if memory runs out, before the next byte is taken and the
/// first call is made. The conditions: the start is the moment that the clock told last, and of the package no more than the
/// first two heads were read.
pub fn inject<D: CallFs, S: Source, K: Clock>(
    alloc: Global,
    uid: u32,
    pid: u32,
    start: u64,
    reader: &mut Reader,
    disk: &mut D,
    source: &mut S,
    clock: &mut K,
) -> Result<u8, Memory>
    requires moment { IsMoment start }
    requires now { K.last clock.old ≡ start }
    requires new { IsNew reader.old }
    ensures fed { IfOk result (λ status. HasFed (record { uid = uid; pid = pid; invoked = Uid uid }) start reader.old reader.new
        (record { old = S.left source.old; new = S.left source.new; faults_old = S.faults source.old; faults_new = S.faults source.new })
        (record { disk = D.disk disk.old; calls = D.calls disk.old; faults = D.faults disk.old; moments = K.calls clock.old })
        (record { disk = D.disk disk.new; calls = D.calls disk.new; faults = D.faults disk.new; moments = K.calls clock.new })
        status) }
    ensures number { pid < 2 ^ 32 }
    ensures disk { OnErr result (disk.new ≡ disk.old) }
    ensures clock { OnErr result (clock.new ≡ clock.old) }
    ensures source { OnErr result (source.new ≡ source.old) }
{
    let mut injector = Injector::new(alloc, uid, pid, Invoked::Uid(uid), start, PIECE)?;
    loop {
        if injector.room() > 0 {
            feed_next(&mut injector, reader, source);
        } else {
            match turn(
                alloc,
                &mut injector,
                INPUT_READY,
                disk,
                clock,
                &mut Nothing,
                &mut Nothing,
            )? {
                None => {}
                Some(status) => return Ok(status),
            }
        }
    }
}

/// Feeds an injector what comes next of a package. The conditions: it asks for more, and the package isn't over.
fn feed_next<S: Source>(injector: &mut Injector, reader: &mut Reader, source: &mut S)
    requires asks { 0 < room_of injector.old }
    requires going { is_over reader.old ≡ false }
    ensures { FeedsNext injector.old injector.new reader.old reader.new
        (record { old = S.left source.old; new = S.left source.new; faults_old = S.faults source.old; faults_new = S.faults source.new }) }
{
    let mut buffer = [0; PIECE];
    match next(reader, source, injector.room(), &mut buffer) {
        Next::Bytes(count) => injector.feed(&buffer[..count]),
        Next::MessageOver => injector.end_input(),
        Next::Nothing => injector.fail_input(false),
    }
}
