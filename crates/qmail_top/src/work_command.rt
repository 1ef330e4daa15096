// The command `work`: reads a script, checks it and runs its mails by threads.
ghost use Rattle.std.specs.Prelude.{◌≡◌, ◌≢◌, ◌⊎◌, ◌++◌, [], List, ℕ, true, take, IsOk, IfErr, OnOk, Err, length, ◌<◌, ◌≤◌};
ghost use Rattle.mail_bytes.specs.Told.{Rose, Meets, OnTold};
ghost use Rattle.script_lines.specs.Lines.{most_bytes};
ghost use Rattle.scenario.specs.Text.{PrintsBadLine};
ghost use Rattle.scenario.specs.Working.{IsWorked, PrintsWorked};
ghost use Rattle.qmail_top.specs.Works.{WasWorked};
ghost use Rattle.qmail_top.specs.Command.{IsChecked, IsPrintedAtEnd, HasReason};

use crate::around_threads::{Begun, begin_work, end_work};
use crate::play_command::{Failure, read_whole, status_of};
use crate::refusing::refuse;
use actor_runner::run_threads;
use outside::{Gate, Sink, Source};
use queue_limits::DONE;
use scenario::{PlayError, Script, ScriptError, read_script};
use std::alloc::Global;
use std::sync::Wait;
use std::thread::Threads;

/// Runs the mails of the script that a source gives by so many threads, beside a generation, and answers the exit status. The
/// condition: there are 1 to 16 threads.
pub fn work_script<R: Threads + Wait + Sync, M: Source, O: Sink, G: Gate + Sync>(
    rt: &R,
    alloc: Global,
    threads: u64,
    message: &mut M,
    out: &mut O,
    gate: &G,
) -> u8
    requires threads { (1 ≤ threads) × (threads ≤ 16) }
    ensures { WasWorked
        (record { left = M.left message.old; ended = M.ended message.old; input_faults = M.faults message.old; taken = O.taken out.old; output_faults = O.faults out.old })
        (record { left = M.left message.new; ended = M.ended message.new; input_faults = M.faults message.new; taken = O.taken out.new; output_faults = O.faults out.new })
        (out.new ≡ out.old) result }
{
    match work_message(rt, alloc, threads, message, out, gate) {
        Ok(()) => DONE,
        Err(why) => status_of(why),
    }
}

/// Runs the mails of the script that a source gives. The condition: there are 1 to 16 threads.
fn work_message<R: Threads + Wait + Sync, M: Source, O: Sink, G: Gate + Sync>(
    rt: &R,
    alloc: Global,
    threads: u64,
    message: &mut M,
    out: &mut O,
    gate: &G,
) -> Result<(), Failure>
    requires { (1 ≤ threads) × (threads ≤ 16) }
    ensures prints { OnTold (M.left message.old) (λ script. OnOk result (Meets (O.taken out.old) (O.taken out.new)
        (λ before after. (text : List ℕ) × PrintsWorked script text × (after ≡ before ++ text)))) }
    ensures begins { IfErr result (λ why. OnTold (M.left message.old) (λ script. why ≡ Failure.Output
        → Meets (O.taken out.old) (O.taken out.new)
        (λ before after. (text : List ℕ) × (k : ℕ) × PrintsWorked script text × (after ≡ before ++ take k text)))) }
    ensures refuses { IfErr result (λ why. OnTold (M.left message.old) (λ script. why ≡ Failure.Malformed
        → Meets (O.taken out.old) (O.taken out.new)
        (λ before after. (text : List ℕ) × PrintsBadLine script text (Rose (O.faults out.old) (O.faults out.new))
        × (after ≡ before ++ text)))) }
    ensures reached { Meets (M.left message.old) (M.left message.new) (λ script rest. rest ≢ []
        → (out.new ≡ out.old) ⊎ ((result ≡ Err Failure.Malformed) × (most_bytes < length script))) }
    ensures unended { IsPrintedAtEnd (M.ended message.new) (out.new ≡ out.old) (result ≡ Err Failure.Malformed) (M.left message.old) }
    ensures ended { Meets (M.left message.old) (M.left message.new) (λ script rest. IsOk result → rest ≡ []) }
    ensures told_end { OnOk result (OnTold (M.ended message.new) (λ is. is ≡ true)) }
    ensures cause { IfErr result (λ why. HasReason why (record { before = M.faults message.old; after = M.faults message.new })
        (record { before = O.faults out.old; after = O.faults out.new })) }
    ensures unwritten { IfErr result (λ why. (why ≡ Failure.Input) ⊎ (why ≡ Failure.Memory) → out.new ≡ out.old) }
    ensures checked { OnTold (M.left message.old) (λ bytes. IsChecked bytes result) }
{
    let bytes = read_whole(alloc, message)?;
    let script = match read_script(alloc, &bytes) {
        Ok(script) => script,
        Err(ScriptError::Line(number)) => {
            refuse(out, number);
            return Err(Failure::Malformed);
        }
        Err(ScriptError::Memory) => return Err(Failure::Memory),
    };
    run_script(rt, alloc, threads, &script, out, gate)
}

/// Runs the mails of a script, and gives what is printed. The condition: there are 1 to 16 threads.
fn run_script<R: Threads + Wait + Sync, O: Sink, G: Gate + Sync>(
    rt: &R,
    alloc: Global,
    threads: u64,
    script: &Script,
    out: &mut O,
    gate: &G,
) -> Result<(), Failure>
    requires { (1 ≤ threads) × (threads ≤ 16) }
    ensures printed { OnOk result (Meets (O.taken out.old) (O.taken out.new)
        (λ before after. (text : List ℕ) × IsWorked script.now.opening script.now.lines text × (after ≡ before ++ text))) }
    ensures begun { result ≡ Err Failure.Output → Meets (O.taken out.old) (O.taken out.new) (λ before after. (text : List ℕ) × (k : ℕ)
        × IsWorked script.now.opening script.now.lines text × (after ≡ before ++ take k text)) }
    ensures cause { IfErr result (λ why. ((why ≡ Failure.Output) × Rose (O.faults out.old) (O.faults out.new))
        ⊎ ((why ≡ Failure.Memory) × (out.new ≡ out.old))) }
    ensures unfailed { OnOk result (O.faults out.new ≡ O.faults out.old) }
{
    let begun = begin_work(alloc, script)?;
    let Begun { world, mails } = begun;
    let mut worked = run_threads(rt, alloc, world, &mails, threads, gate)?;
    match end_work(alloc, &mut worked, out) {
        Ok(()) => Ok(()),
        Err(PlayError::Failed) => Err(Failure::Output),
        Err(PlayError::Memory) => Err(Failure::Memory),
    }
}
