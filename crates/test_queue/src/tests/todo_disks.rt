// Preprocessing over a disk in memory that can be halted.
ghost use Rattle.std.specs.Prelude.{◌≡◌, ◌≤◌, [], Some, IfOk};
ghost use Rattle.std.specs.Bool.{OnTrue};
ghost use Rattle.test_queue.specs.Passes.{IsRunning};

use address_rules::{ControlError, Controls};
use call_fs::{Answer, CallFs, CrashFs, Got, Need, PIECE, Survival, UNREADY, perform};
use crash_fs::CrashDisk;
use mail_bytes::{ByteText, Memory};
use mem_fs::MemFs;
use std::alloc::Global;
use todo_pass::{End, Part, TodoPass, Why};

/// How many bytes of a piece were read.
fn count_of(answer: &Answer) -> usize
    ensures { result ≤ 8192 }
{
    match answer {
        Answer::Count(count) => (*count).min(PIECE as u64) as usize,
        _ => 0,
    }
}

/// Makes the next step of a pass, to which the cleaner answers this; whether it went on.
fn makes_step<D: CallFs>(
    alloc: Global,
    pass: &mut TodoPass<'_>,
    disk: &mut D,
    answer: &[u8],
) -> bool
    requires { IsRunning pass.old (D.disk disk.old) }
    ensures { OnTrue result (IsRunning pass.new (D.disk disk.new)) }
{
    let mut into = [0; PIECE];
    pass.look(5, UNREADY);
    match pass.need() {
        Need::File(call) => {
            let answer = perform(alloc, disk, 5, call, &mut into);
            let count = count_of(&answer);
            pass.done(alloc, Got::File(answer, &into[..count])).is_ok()
        }
        Need::Give(..) => pass.done(alloc, Got::Gave).is_ok(),
        Need::Take(_) => pass.done(alloc, Got::Took(answer)).is_ok(),
        _ => false,
    }
}

/// Makes so many steps of a pass, or fewer until it has ended, and tells how it ended.
fn run<D: CallFs>(
    alloc: Global,
    pass: &mut TodoPass<'_>,
    disk: &mut D,
    answer: &[u8],
    steps: usize,
) -> Option<End>
    requires { IsRunning pass.old (D.disk disk.old) }
{
    for _ in 0..steps {
        if !makes_step(alloc, pass, disk, answer) {
            return pass.end();
        }
    }
    pass.end()
}

/// Whether a pass ended so, or hasn't ended and wasn't to.
pub fn is_end(found: Option<End>, wanted: Option<End>) -> bool {
    match (found, wanted) {
        (None, None) => true,
        (
            Some(
                End::Done {
                    n,
                    has_local,
                    has_remote,
                },
            ),
            Some(
                End::Done {
                    n: number,
                    has_local: local,
                    has_remote: remote,
                },
            ),
        ) => n == number && has_local == local && has_remote == remote,
        (
            Some(End::Left { n, why }),
            Some(
                End::Left {
                    n: number,
                    why: cause,
                },
            ),
        ) => { n == number && is_why(why, cause) }
        _ => false,
    }
}

/// Whether a message was left for this reason.
fn is_why(found: Why, wanted: Why) -> bool {
    match (found, wanted) {
        (Why::Fault(part), Why::Fault(other)) => is_part(part, other),
        (Why::BadRecord { at }, Why::BadRecord { at: place }) => at == place,
        (Why::NoMess, Why::NoMess) | (Why::Unclean, Why::Unclean) | (Why::Memory, Why::Memory) =>
            true,
        _ => false,
    }
}

/// Whether two files of a message are the same.
fn is_part(one: Part, other: Part) -> bool {
    matches!(
        (one, other),
        (Part::Mess, Part::Mess)
            | (Part::Todo, Part::Todo)
            | (Part::Info, Part::Info)
            | (Part::Local, Part::Local)
            | (Part::Remote, Part::Remote)
    )
}

/// Whether a pass of message 24 over this disk, to which the cleaner answers `+`, ends so after at most so many steps.
fn ends(
    alloc: Global,
    controls: &Controls,
    disk: &mut CrashDisk,
    steps: usize,
    end: Option<End>,
) -> bool {
    match TodoPass::new(alloc, 24, controls) {
        Ok(mut pass) => {
            let is_so = is_end(run(alloc, &mut pass, disk, b"+", steps), end);
            drop(pass);
            is_so
        }
        Err(_) => false,
    }
}

/// The domain `x` is here, and nothing else.
pub fn controls(alloc: Global) -> Result<Controls, ControlError> {
    let me = ByteText::from_slice(alloc, b"x")?;
    let files = [
        Some(me),
        None,
        None,
        None,
        None,
        None,
        None,
        None,
        None,
        None,
        None,
        None,
    ];
    Controls::read(alloc, &files)
}

/// A disk of which the calls with these indexes fail, from 1.
fn disk_of(alloc: Global, faults: &[u64]) -> Result<CrashDisk, Memory> {
    let faults = Vec::from_slice(alloc, faults)?;
    Ok(CrashDisk::new(MemFs::new(alloc, Vec::new(alloc), faults)?))
}

/// The directories that a pass uses.
const DIRS: [&[u8]; 5] = [b"mess/1", b"info/1", b"local/1", b"remote/1", b"todo"];

/// A queued message 24, and what an earlier pass left of it.
const QUEUED: [(&[u8], &[u8]); 2] = [
    (b"todo/24", b"u0\0p0\0Fs@y\0Ta@x\0Tb@y\0Tc\0"),
    (b"remote/1/24", b"Told@y\0"),
];

/// Puts them on a disk, and a message file if there is one; whether there was memory.
fn is_laid(alloc: Global, disk: &mut CrashDisk, mess: Option<&[u8]>) -> bool {
    let mut is_done = true;
    for dir in DIRS {
        is_done &= disk.dir(alloc, dir).is_ok();
    }
    for (name, bytes) in QUEUED {
        is_done &= disk.place(alloc, name, bytes).is_ok();
    }
    if let Some(bytes) = mess {
        is_done &= disk.place(alloc, b"mess/1/24", bytes).is_ok();
    }
    is_done
}

/// What a file of message 24 holds.
type Held = (&'static [u8], Option<&'static [u8]>);

/// Whether these are the same bytes, or both none.
fn is_same(seen: Option<&[u8]>, wanted: Option<&[u8]>) -> bool {
    seen == wanted
}

/// Whether the disk has just this, also after a machine stop that loses all that wasn't synced.
fn has_all(alloc: Global, disk: &mut CrashDisk, files: &[Held]) -> bool {
    let is_halted = disk.halt(alloc, Survival::Lose).is_ok();
    let mut are_right = is_halted;
    for (name, bytes) in files {
        are_right = is_same(disk.bytes_of(name), *bytes) && are_right;
    }
    are_right
}

/// The files that a pass makes, and todo.
const MADE: [Held; 4] = [
    (b"info/1/24", Some(b"Fs@y\0")),
    (b"local/1/24", Some(b"Ta@x\0Tc@x\0")),
    (b"remote/1/24", Some(b"Tb@y\0")),
    (b"todo/24", Some(b"u0\0p0\0Fs@y\0Ta@x\0Tb@y\0Tc\0")),
];

/// How that pass ends.
const DONE: End = End::Done {
    n: 24,
    has_local: true,
    has_remote: true,
};

/// Passes one after the other: how many steps each makes at most, and how it ends.
type Passes<'a> = &'a [(usize, Option<End>)];

/// Whether passes over this disk end so, and the disk has these files after each of them.
fn all_end(
    alloc: Global,
    controls: &Controls,
    disk: &mut CrashDisk,
    runs: Passes<'_>,
    files: &[Held],
) -> bool {
    for (steps, end) in runs {
        if !ends(alloc, controls, disk, *steps, *end) || !has_all(alloc, disk, files) {
            return false;
        }
    }
    true
}

/// Whether that is so on a disk of which these calls fail, and which has this message file.
fn holds_on(
    alloc: Global,
    controls: &Controls,
    faults: &[u64],
    mess: Option<&[u8]>,
    runs: Passes<'_>,
    files: &[Held],
) -> bool {
    match disk_of(alloc, faults) {
        Ok(mut disk) => {
            let is_so = is_laid(alloc, &mut disk, mess)
                && all_end(alloc, controls, &mut disk, runs, files);
            drop(disk);
            is_so
        }
        Err(_) => false,
    }
}

/// Whether that is so by those controls.
fn holds(
    alloc: Global,
    faults: &[u64],
    mess: Option<&[u8]>,
    runs: Passes<'_>,
    files: &[Held],
) -> bool {
    match controls(alloc) {
        Ok(controls) => {
            let is_so = holds_on(alloc, &controls, faults, mess, runs, files);
            drop(controls);
            is_so
        }
        Err(_) => false,
    }
}

/// The message file.
const HELLO: Option<&[u8]> = Some(b"hello");

/// The 19 steps before the command, and then a second pass over what the first one left.
const TWO_PASSES: [(usize, Option<End>); 2] = [(19, None), (100, Some(DONE))];

#[test]
fn the_files_survive_a_halt_when_the_command_is_given(rt: HostRuntime) {
    assert!(rt; holds(rt.alloc(), &[], HELLO, &TWO_PASSES, &MADE));
}

/// The todo file of that pass.
const TODO_TEXT: Held = (b"todo/24", Some(b"u0\0p0\0Fs@y\0Ta@x\0Tb@y\0Tc\0"));

/// What a pass without a message leaves.
const LEFT: [Held; 3] = [TODO_TEXT, (b"info/1/24", None), (b"remote/1/24", None)];

/// How it ends.
const NO_MESS: End = End::Left {
    n: 24,
    why: Why::NoMess,
};

#[test]
fn without_a_message_todo_stays(rt: HostRuntime) {
    assert!(rt; holds(rt.alloc(), &[], None, &[(100, Some(NO_MESS))], &LEFT));
}

/// The call that fails, from 1, closes not counted, and its file.
const FAULTS: [(u64, Part); 15] = [
    (1, Part::Info),
    (2, Part::Local),
    (3, Part::Remote),
    (4, Part::Mess),
    (5, Part::Todo),
    (6, Part::Todo),
    (7, Part::Info),
    (8, Part::Info),
    (9, Part::Info),
    (10, Part::Local),
    (11, Part::Local),
    (12, Part::Local),
    (13, Part::Remote),
    (14, Part::Remote),
    (15, Part::Remote),
];

/// Of which of these calls a fault doesn't leave the number and todo first; none if each does.
fn first_wrong(alloc: Global, faults: &[(u64, Part)]) -> Option<u64> {
    for (at, part) in faults {
        let why = Why::Fault(*part);
        let left = Some(End::Left { n: 24, why });
        if !holds(alloc, &[*at], HELLO, &[(100, left)], &[TODO_TEXT]) {
            return Some(*at);
        }
    }
    None
}

#[test]
fn after_each_fault_todo_stays(rt: HostRuntime) {
    assert_eq!(rt; first_wrong(rt.alloc(), &FAULTS), None);
}
