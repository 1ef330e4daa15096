// Plays a run over a disk. Each of the disk, the links and the sender is owned by a function that does nothing else.
ghost use Rattle.test_sender.specs.Runs.{IsRunning};

use crate::disk_lines::{Head, Wanted, add_lines, nothing, read_head};
use crate::disk_runs::{Links, are_open, no_links, run};
use crate::player::{logs, looks, wants};
use crate::queued::{disk_of, queue, write_left};
use crate::trouble::Trouble;
use call_fs::{CallFs, Ready};
use crash_fs::CrashDisk;
use send_core::Sender;
use std::alloc::Global;

/// The most steps of a run.
const STEPS: u64 = 5000;

/// Nothing is ready.
const QUIET: Ready = Ready {
    links: [false; 4],
    child: None,
};

/// Plays a run over a disk by its head and its other lines, once for each call that fails. If one goes wrong, tells which call
/// failed, and what is wrong; what is found in place of what is wanted is written.
pub(crate) fn play_disk(
    alloc: Global,
    head: &str,
    lines: &str,
    found: &mut Vec<u8>,
) -> Result<(), (u64, Trouble)> {
    let Some(head) = read_head(head) else {
        return Err((0, Trouble::Malformed));
    };
    let mut wanted = nothing(alloc);
    let end = match add_lines(&mut wanted, lines) {
        Ok(()) => play_calls(alloc, head, &wanted, found),
        Err(trouble) => Err((0, trouble)),
    };
    drop(wanted);
    end
}

/// Plays it once for each call that fails.
fn play_calls(
    alloc: Global,
    head: Head<'_>,
    wanted: &Wanted,
    found: &mut Vec<u8>,
) -> Result<(), (u64, Trouble)> {
    for call in head.first..head.last.saturating_add(1) {
        if let Err(trouble) = play_call(alloc, head, wanted, call, found) {
            return Err((call, trouble));
        }
    }
    Ok(())
}

/// Plays it over a disk of which this call fails.
fn play_call(
    alloc: Global,
    head: Head<'_>,
    wanted: &Wanted,
    call: u64,
    found: &mut Vec<u8>,
) -> Result<(), Trouble> {
    match disk_of(alloc, call) {
        Ok(mut disk) => {
            let end = play_over(alloc, head, wanted, &mut disk, found);
            drop(disk);
            end
        }
        Err(_) => Err(Trouble::Memory),
    }
}

/// Plays it over this disk.
fn play_over(
    alloc: Global,
    head: Head<'_>,
    wanted: &Wanted,
    disk: &mut CrashDisk,
    found: &mut Vec<u8>,
) -> Result<(), Trouble> {
    queue(alloc, disk)?;
    play_linked(alloc, head, wanted, disk, found)?;
    write_left(alloc, found, disk)?;
    wants(found, wanted.left.as_slice(), Trouble::Left)
}

/// Plays it over this disk, with a message queued.
fn play_linked<D: CallFs>(
    alloc: Global,
    head: Head<'_>,
    wanted: &Wanted,
    disk: &mut D,
    found: &mut Vec<u8>,
) -> Result<(), Trouble> {
    let mut links = no_links(alloc, head.letter);
    let end = if are_open(&mut links) {
        play_sender(alloc, head, wanted, disk, &mut links, found)
    } else {
        Err(Trouble::Memory)
    };
    drop(links);
    end
}

/// Plays it with these links.
fn play_sender<D: CallFs>(
    alloc: Global,
    head: Head<'_>,
    wanted: &Wanted,
    disk: &mut D,
    links: &mut Links,
    found: &mut Vec<u8>,
) -> Result<(), Trouble> {
    match Sender::new(alloc, Some(head.turns)) {
        Ok(mut sender) => {
            let end = play_steps(alloc, head, wanted, disk, links, &mut sender, found);
            drop(sender);
            end
        }
        Err(_) => Err(Trouble::Memory),
    }
}

/// Plays it by this sender. Refuses one that logs other lines, or needs something else at the end.
fn play_steps<D: CallFs>(
    alloc: Global,
    head: Head<'_>,
    wanted: &Wanted,
    disk: &mut D,
    links: &mut Links,
    sender: &mut Sender,
    found: &mut Vec<u8>,
) -> Result<(), Trouble>
    requires { IsRunning sender.old (D.disk disk.old) }
{
    run(alloc, sender, disk, links, STEPS);
    logs(alloc, sender, wanted.log.as_slice(), found)?;
    looks(alloc, sender, 0, QUIET, head.end, found)
}
