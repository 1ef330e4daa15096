// The cleaner is run.
ghost use Rattle.std.specs.Prelude.{◌≡◌};
ghost use Rattle.clean_command.specs.Cleaned.{WasRun};

use call_fs::CallFs;
use outside::{Clock, Sink, Source};
use program_runner::run_on;
use queue_clean::{Cleaner, answers_have_causes, asks_for_little};
use queue_limits::MEMORY;
use std::alloc::Global;

/// Runs the cleaner over this disk until its input ends, and answers its exit status. It takes commands, each a text that
/// ends with a NUL, and gives one byte for each, as qmail-clean(8).
///
/// 0: the input ended. 53: the output failed, and has counted that. 54: the input failed, and has counted that. 51: it
/// hasn't ended after 18,446,744,073,709,551,615 turns, each of them done as in a run that goes on.
pub fn clean<D: CallFs, M: Source, O: Sink, K: Clock>(
    alloc: Global,
    disk: &mut D,
    message: &mut M,
    out: &mut O,
    clock: &mut K,
) -> u8
    ensures { WasRun
        (record { disk = D.disk disk.old; calls = D.calls disk.old; disk_faults = D.faults disk.old; moments = K.calls clock.old; last = K.last clock.old; left = M.left message.old; input_faults = M.faults message.old; taken = O.taken out.old; output_faults = O.faults out.old })
        (record { disk = D.disk disk.new; calls = D.calls disk.new; disk_faults = D.faults disk.new; moments = K.calls clock.new; last = K.last clock.new; left = M.left message.new; input_faults = M.faults message.new; taken = O.taken out.new; output_faults = O.faults out.new })
        result }
{
    answers_have_causes();
    asks_for_little();
    let mut cleaner = Cleaner::new();
    match run_on(alloc, &mut cleaner, disk, clock, message, out) {
        Ok(Some(status)) => status,
        // after all the turns that a run may take, which nobody lives to see
        Ok(None) => MEMORY,
        Err(_) => MEMORY,
    }
}
