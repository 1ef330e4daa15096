// An audit is printed.
ghost use Rattle.std.specs.Prelude.{◌≡◌, ◌⊎◌, ◌++◌, IfOk, OnOk};
ghost use Rattle.queue_paths.specs.Dirs.{queue_dirs};
ghost use Rattle.queue_states.specs.Audit.{IsAuditOf};
ghost use Rattle.queue_states.specs.Searches.{HasSearched};
ghost use Rattle.audit_command.specs.Audited.{HasAudited, IsTextOf, Prints, text_of, lines_of, status_of};

use call_fs::CallFs;
use mail_bytes::Memory;
use outside::{Gave, Sink};
use queue_limits::{DONE, INPUT, MEMORY, OUTPUT};
use queue_states::{Audit, AuditError, State, audit, put_count_line, put_state_line};
use std::alloc::Global;

/// Prints an audit of the queue on this disk: `pid COUNT`, how many names `pid/` has, then for each number that has a file
/// a line `N S2` to `N S5` or `N other`, in ascending order. Answers the exit status.
///
/// 0: all was printed. 51: out of memory; nothing was printed. 53: the output failed, and has counted that; it took a
/// prefix. 54: the disk failed, and has counted that, or a directory of the queue is missing; nothing was printed.
pub fn print_audit<D: CallFs, O: Sink>(alloc: Global, disk: &mut D, out: &mut O) -> u8
    ensures audited { HasAudited
        (record { disk = D.disk disk.old; calls = D.calls disk.old; faults = D.faults disk.old })
        (record { disk = D.disk disk.new; calls = D.calls disk.new; faults = D.faults disk.new })
        (record { old = O.taken out.old; new = O.taken out.new; faults_old = O.faults out.old; faults_new = O.faults out.new })
        result }
    ensures unwritten { (result ≡ MEMORY) ⊎ (result ≡ INPUT) → out.new ≡ out.old }
{
    match audit_text(alloc, disk) {
        Ok(text) => print(&text, out),
        Err(why) => status_of(&why),
    }
}

/// The text of an audit of the queue on this disk.
fn audit_text<D: CallFs>(alloc: Global, disk: &mut D) -> Result<Vec<u8>, AuditError>
    ensures text { IfOk result (λ text. IsTextOf (D.disk disk.old) text.items) }
    ensures searched { HasSearched queue_dirs
        (record { disk = D.disk disk.old; calls = D.calls disk.old; faults = D.faults disk.old })
        (record { disk = D.disk disk.new; calls = D.calls disk.new; faults = D.faults disk.new })
        result }
{
    // no call of an audit reads the moment
    let audit = audit(alloc, disk, 0)?;
    Ok(text_of(alloc, &audit)?)
}

/// The lines of an audit.
fn text_of(alloc: Global, audit: &Audit) -> Result<Vec<u8>, Memory>
    ensures { IfOk result (λ text. text.items ≡ text_of audit.now) }
{
    let mut text = Vec::new(alloc);
    put_count_line(&mut text, audit.pids)?;
    put_states(&mut text, audit.states.as_slice())?;
    Ok(text)
}

/// Puts the line of each of these numbers at the end of a text.
fn put_states(text: &mut Vec<u8>, states: &[(u64, State)]) -> Result<(), Memory>
    ensures { OnOk result (text.new.items ≡ text.old.items ++ lines_of states.now) }
{
    for (number, state) in states {
        put_state_line(text, *number, *state)?;
    }
    Ok(())
}

/// Gives a text to the output, and answers the exit status.
fn print<O: Sink>(text: &[u8], out: &mut O) -> u8
    ensures { Prints (record { old = O.taken out.old; new = O.taken out.new; faults_old = O.faults out.old; faults_new = O.faults out.new })
        text.now result }
{
    match out.give(text) {
        Gave::Done => DONE,
        Gave::Failed => OUTPUT,
    }
}

/// The exit status of a failed audit.
fn status_of(why: &AuditError) -> u8
    ensures { result ≡ status_of why.now }
{
    match why {
        AuditError::Memory => MEMORY,
        AuditError::Fault | AuditError::Missing(_) => INPUT,
    }
}
