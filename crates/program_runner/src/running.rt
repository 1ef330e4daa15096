// A program that runs until its input ends.
ghost use Rattle.std.specs.Prelude.{◌≡◌, [], List, ℕ, IsOk, IfOk, OnErr};
ghost use Rattle.call_fs.specs.Past.{IsRunBy};
ghost use Rattle.call_fs.specs.declared.past.Own.{Own};
ghost use Rattle.program_runner.specs.Runs.{IsRunning, IsPlain, RunsTo};
ghost use Rattle.call_fs.specs.declared.program.TheConstants.{INPUT_READY};

use crate::one_turn::turn;
use call_fs::{CallFs, INPUT_READY, Machine};
use mail_bytes::Memory;
use outside::{Clock, Sink, Source};
use std::alloc::Global;

/// The most turns that a run takes: at a million a second, those of 500,000 years.
const TURNS: u64 = u64::MAX;

/// Runs a program to its end, and answers its exit status. It goes on as long as its input does, for `TURNS` turns at most,
/// which nobody lives to see; then `None`. Its input always counts as ready: a taking waits for it. Fails only if memory
/// runs out, and never if it takes none; what it did until then is a run that was cut short. The conditions: it has no past yet, it may find its input ready at any time, and
/// it asks for file calls, its input and its output alone.
pub fn run_on<M: Machine, D: CallFs, K: Clock, S: Source, O: Sink>(
    alloc: Global,
    machine: &mut M,
    disk: &mut D,
    clock: &mut K,
    input: &mut S,
    output: &mut O,
) -> Result<Option<u8>, Memory>
    requires new { (args : M.Arguments) × M.stands machine.old args [] }
    requires finds { (m : M) → M.can_find m INPUT_READY }
    requires plain { (args : M.Arguments) (past : List Own) (now : ℕ) → IsRunBy (M.next args) past → IsPlain (M.next args past now INPUT_READY) }
    ensures room { M.has_room machine.old → IsOk result }
    ensures ran { IfOk result (λ ended. RunsTo ended M.next (M.stands machine.new) (λ args. M.stands machine.old args []) INPUT_READY (K.last clock.old)
        (record { disk = D.disk disk.old; calls = D.calls disk.old; disk_faults = D.faults disk.old; moments = K.calls clock.old; last = K.last clock.old; left = S.left input.old; input_faults = S.faults input.old; taken = O.taken output.old; output_faults = O.faults output.old })
        (record { disk = D.disk disk.new; calls = D.calls disk.new; disk_faults = D.faults disk.new; moments = K.calls clock.new; last = K.last clock.new; left = S.left input.new; input_faults = S.faults input.new; taken = O.taken output.new; output_faults = O.faults output.new })) }
    ensures cut { OnErr result ((turns : ℕ) × IsRunning M.next (λ args past. Unit {0}) (λ args. M.stands machine.old args []) INPUT_READY (K.last clock.old) turns
        (record { disk = D.disk disk.old; calls = D.calls disk.old; disk_faults = D.faults disk.old; moments = K.calls clock.old; last = K.last clock.old; left = S.left input.old; input_faults = S.faults input.old; taken = O.taken output.old; output_faults = O.faults output.old })
        (record { disk = D.disk disk.new; calls = D.calls disk.new; disk_faults = D.faults disk.new; moments = K.calls clock.new; last = K.last clock.new; left = S.left input.new; input_faults = S.faults input.new; taken = O.taken output.new; output_faults = O.faults output.new })) }
{
    for _ in 0..TURNS {
        match turn(alloc, machine, INPUT_READY, disk, clock, input, output)? {
            None => {}
            Some(status) => return Ok(Some(status)),
        }
    }
    Ok(None)
}
