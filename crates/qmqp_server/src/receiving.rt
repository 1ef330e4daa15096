// A whole package.
ghost use Rattle.std.specs.Prelude.{◌≡◌};
ghost use Rattle.mail_bytes.specs.Moments.{IsMoment};
ghost use Rattle.received_line.specs.declared.line.Invoked.TheVariants.{Uid};
ghost use Rattle.qmqp_server.specs.Answers.{answer_of};
ghost use Rattle.qmqp_server.specs.Received.{HasReceived, IsGiven, status_of};
ghost use Rattle.qmqp_server.specs.inside.Places.{IsNew};
ghost use Rattle.qmqp_server.specs.inside.Whole.{HasReceivedFrom};

use crate::answer::answer_of;
use crate::injecting::inject;
use crate::reader::{Beginning, PackageFault, Place, Reader, begin};
use crate::reading::pass_over;
use call_fs::CallFs;
use outside::{Clock, Gave, Sink, Source};
use queue_inject::statuses_have_causes;
use queue_limits::{DONE, INPUT, MALFORMED, MEMORY, OUTPUT, TOO_LONG};
use std::alloc::Global;

/// Takes one package of `message`, injects its message for this user, and gives one answer to `out`. Answers the exit status.
///
/// 0: an answer was given whole: `K` and `ok START qp PID` if the message is queued, at the moment START by the process PID; `D`
/// and `bad address` if the sender or a recipient has a NUL, and else `status 11` if one of them has over 1002 bytes; `Z` and
/// `status S` for each other status of qmail-queue(8). 31: the package's length is over 1,073,741,824. 51: out of memory, before
/// the first file call. 53: the answer could not be given; the message may be queued. 54: the package could not be read to its
/// end. 91: it is malformed. Nothing is given with 31, 51, 54 and 91, and nothing is queued.
///
/// The clock is read once after the head of the message; its later readings come one before each file call, and one at the
/// injector's end. No byte after the package is taken, and of one that is malformed none after the first that shows that.
pub fn receive<D: CallFs, M: Source, O: Sink, K: Clock>(
    alloc: Global,
    uid: u32,
    disk: &mut D,
    message: &mut M,
    out: &mut O,
    clock: &mut K,
) -> u8
    ensures { HasReceived (record { uid = uid; pid = K.pid clock.old; invoked = Uid uid })
        (record { old = M.left message.old; new = M.left message.new; faults_old = M.faults message.old; faults_new = M.faults message.new })
        (record { disk = D.disk disk.old; calls = D.calls disk.old; faults = D.faults disk.old; moments = K.calls clock.old })
        (record { disk = D.disk disk.new; calls = D.calls disk.new; faults = D.faults disk.new; moments = K.calls clock.new })
        (record { old = O.taken out.old; new = O.taken out.new; faults_old = O.faults out.old; faults_new = O.faults out.new })
        result }
{
    match begin(message) {
        Beginning::Heads(reader) => { receive_rest(alloc, uid, reader, disk, message, out, clock) }
        Beginning::TooLong => TOO_LONG,
        Beginning::Broken(fault) => status_of(fault),
    }
}

/// The same once the first two heads of the package were read. The condition: no more was.
fn receive_rest<D: CallFs, M: Source, O: Sink, K: Clock>(
    alloc: Global,
    uid: u32,
    mut reader: Reader,
    disk: &mut D,
    message: &mut M,
    out: &mut O,
    clock: &mut K,
) -> u8
    requires { IsNew reader }
    ensures { HasReceivedFrom reader (record { uid = uid; pid = K.pid clock.old; invoked = Uid uid })
        (record { old = M.left message.old; new = M.left message.new; faults_old = M.faults message.old; faults_new = M.faults message.new })
        (record { disk = D.disk disk.old; calls = D.calls disk.old; faults = D.faults disk.old; moments = K.calls clock.old })
        (record { disk = D.disk disk.new; calls = D.calls disk.new; faults = D.faults disk.new; moments = K.calls clock.new })
        (record { old = O.taken out.old; new = O.taken out.new; faults_old = O.faults out.old; faults_new = O.faults out.new })
        result }
{
    statuses_have_causes();
    let start = clock.now();
    let pid = clock.pid();
    let Ok(ended) = inject(alloc, uid, pid, start, &mut reader, disk, message, clock) else {
        return MEMORY;
    };
    pass_over(&mut reader, message);
    match reader.place {
        Place::Broken(fault) => status_of(fault),
        _ => give_answer(reader.has_nul, ended, start, pid, out),
    }
}

/// Gives the answer. The condition: a clock may tell the start.
fn give_answer<O: Sink>(has_nul: bool, ended: u8, start: u64, pid: u32, out: &mut O) -> u8
    requires { IsMoment start }
    ensures { IsGiven (answer_of has_nul ended start pid)
        (record { old = O.taken out.old; new = O.taken out.new; faults_old = O.faults out.old; faults_new = O.faults out.new }) result }
{
    match out.give(answer_of(has_nul, ended, start, pid).as_slice()) {
        Gave::Done => DONE,
        Gave::Failed => OUTPUT,
    }
}

/// The exit status of bytes that are no package.
fn status_of(fault: PackageFault) -> u8
    ensures { result ≡ status_of fault }
{
    match fault {
        PackageFault::Cut => INPUT,
        PackageFault::Malformed => MALFORMED,
    }
}
