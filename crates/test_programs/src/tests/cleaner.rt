// The cleaner over a disk in memory whose machine can be stopped.

use super::fields::{field, is_well_formed, none_is_wrong, number, numbers, repeated};
use call_fs::{
    Answer, Call, CrashFs, FsError, Got, Machine, Need, PIECE, Port, Ready, Survival, perform,
};
use crash_fs::CrashDisk;
use mail_bytes::{LAST_MOMENT, Memory};
use mem_fs::MemFs;
use queue_clean::Cleaner;
use std::alloc::Global;

/// Nothing is ready, and no child has ended.
const READY: Ready = Ready {
    links: [false; 4],
    child: None,
};

/// Its input: takings of these sizes, the last of which is that of each later one too. After its last byte it ends or
/// fails.
#[derive(Drop)]
struct Input<'a> {
    rest: &'a [u8],
    sizes: [usize; 3],
    takings: usize,
    is_failing: bool,
}

/// Its output: the answers that are expected, how many were given, and how many can be.
#[derive(Drop)]
struct Output<'a> {
    wanted: &'a [u8],
    given: usize,
    room: usize,
    is_right: bool,
}

/// What lies outside a cleaner besides its disk: the moment, its input and its output, and how often it has searched `pid`.
#[derive(Drop)]
struct Outside<'a> {
    now: u64,
    input: Input<'a>,
    output: Output<'a>,
    searches: usize,
}

/// Takings of as many bytes as there may be.
const LARGE: [usize; 3] = [PIECE; 3];

/// What lies outside by a row, with this input in takings of these sizes, and these answers that are expected.
fn begin<'a>(row: &str, text: &'a [u8], sizes: [usize; 3], wanted: &'a [u8]) -> Outside<'a> {
    Outside {
        now: number(row, "now", 0),
        input: Input {
            rest: text,
            sizes,
            takings: 0,
            is_failing: field(row, "end") == "failed",
        },
        output: Output {
            wanted,
            given: 0,
            room: number(row, "room", u64::MAX) as usize,
            is_right: true,
        },
        searches: 0,
    }
}

/// The next taking; empty after the last byte.
fn taking<'a>(input: &mut Input<'a>) -> &'a [u8] {
    let size = input.sizes[input.takings.min(2)];
    let (first, rest) = input.rest.split_at(size.min(input.rest.len()));
    input.rest = rest;
    input.takings = input.takings.saturating_add(1);
    first
}

/// Hands in a taking.
fn take(cleaner: &mut Cleaner, input: &mut Input<'_>) {
    let bytes = taking(input);
    let is_handed = if bytes.is_empty() && input.is_failing {
        cleaner.done(Got::Failed)
    } else if bytes.is_empty() {
        cleaner.done(Got::End)
    } else if bytes.len() > PIECE {
        Ok(())
    } else {
        cleaner.done(Got::Took(bytes))
    };
    let _ = is_handed;
}

/// Whether an answer could be given; it is compared with the one that is expected.
fn could_give(output: &mut Output<'_>, bytes: &[u8]) -> bool {
    if output.given >= output.room {
        return false;
    }
    let is_wanted = match output.wanted.get(output.given) {
        Some(wanted) => bytes == [*wanted].as_slice(),
        None => false,
    };
    output.is_right = output.is_right && is_wanted;
    output.given = output.given.saturating_add(1);
    true
}

/// Hands in whether an answer was given.
fn answer(cleaner: &mut Cleaner, was_given: bool) {
    let is_handed = if was_given {
        cleaner.done(Got::Gave)
    } else {
        cleaner.done(Got::Failed)
    };
    let _ = is_handed;
}

/// Makes a call of the three that a cleaner makes.
fn make(alloc: Global, disk: &mut CrashDisk, call: Call<'_>, searches: &mut usize) -> Answer {
    let mut bytes = [0; 8192];
    match call {
        Call::NextName(dir, after) => {
            *searches = searches.saturating_add(1);
            perform(alloc, disk, 0, Call::NextName(dir, after), &mut bytes)
        }
        Call::Stat(name) => perform(alloc, disk, 0, Call::Stat(name), &mut bytes),
        Call::Unlink(name) => perform(alloc, disk, 0, Call::Unlink(name), &mut bytes),
        _ => Answer::Refused(FsError::Fault),
    }
}

/// One step; the exit status if it has ended.
fn step(
    alloc: Global,
    cleaner: &mut Cleaner,
    disk: &mut CrashDisk,
    outside: &mut Outside<'_>,
) -> Option<u8> {
    cleaner.look(outside.now.min(LAST_MOMENT), READY);
    match cleaner.need() {
        Need::File(call) => {
            let answer = make(alloc, disk, call, &mut outside.searches);
            let _ = cleaner.done(Got::File(answer, &[]));
        }
        Need::Take(_) => take(cleaner, &mut outside.input),
        Need::Give(_, bytes) => {
            let was_given = could_give(&mut outside.output, bytes);
            answer(cleaner, was_given);
        }
        Need::Ended(status) => return Some(status),
        _ => {}
    }
    None
}

/// Runs a cleaner; its exit status, none if it doesn't end.
fn run(alloc: Global, disk: &mut CrashDisk, outside: &mut Outside<'_>) -> Option<u8> {
    let mut cleaner = Cleaner::new();
    for _ in 0..1_000_000_u32 {
        if let Some(status) = step(alloc, &mut cleaner, disk, outside) {
            return Some(status);
        }
    }
    None
}

/// The directories of the queue that these tests use.
const DIRS: &str = "pid intd todo mess/1 mess/2 mess/3 mess/4 mess/5 mess/6 mess/7 mess/8 mess/9";

/// Makes the queue's directories, unless a row says that there are none, and puts its files there, empty and of moment 0;
/// whether all that was done.
fn is_filled(alloc: Global, disk: &mut CrashDisk, row: &str) -> bool {
    let mut is_done = true;
    let dirs = if field(row, "dirs") == "none" {
        ""
    } else {
        DIRS
    };
    for dir in dirs.split_whitespace() {
        is_done &= disk.dir(alloc, dir.as_bytes()).is_ok();
    }
    for name in field(row, "files").split_whitespace() {
        is_done &= disk.place(alloc, name.as_bytes(), b"").is_ok();
    }
    is_done
}

/// Whether each of these names is there, or none is.
fn are_there(disk: &CrashDisk, names: &str, is_there: bool) -> bool {
    let mut are_so = true;
    for name in names.split_whitespace() {
        are_so &= disk.bytes_of(name.as_bytes()).is_some() == is_there;
    }
    are_so
}

/// What a row may say: files that are in the queue, whether it has no directories, calls that fail, and the moment; the
/// input, the answers to it, `*` for any, and how often both come; how the input ends, and for how many answers there is
/// room; the status, and how often `pid` is searched; which of the files are there once the run has ended and the machine
/// has stopped, and which are not.
const NAMES: [&str; 13] = [
    "files", "dirs", "fails", "now", "input", "answers", "times", "end", "room", "status",
    "searches", "left", "gone",
];

/// Whether the answers are those of the row.
fn are_given(row: &str, text: &[u8], output: &Output<'_>) -> bool {
    if field(row, "answers") == "*" {
        return output.given == nuls_in(text);
    }
    output.is_right & (output.given == output.wanted.len())
}

/// Whether it ended with the status of the row.
fn has_ended(row: &str, status: Option<u8>) -> bool {
    match status {
        Some(status) => u64::from(status) == number(row, "status", 0),
        None => false,
    }
}

/// Whether a run over this disk goes as the row says.
fn goes(alloc: Global, row: &str, disk: &mut CrashDisk, mut outside: Outside<'_>) -> bool {
    let text = outside.input.rest;
    let is_filled = is_filled(alloc, disk, row);
    let status = run(alloc, disk, &mut outside);
    let is_stopped = disk.halt(alloc, Survival::Lose).is_ok();
    let searches = outside.searches as u64;
    is_filled
        & is_stopped
        & has_ended(row, status)
        & are_given(row, text, &outside.output)
        & (number(row, "searches", searches) == searches)
        & are_there(disk, field(row, "left"), true)
        & are_there(disk, field(row, "gone"), false)
        & (field(row, "answers") != "*" || are_as_named(disk, text))
}

/// Whether a run over a new disk does, which fails at the calls that the row says, counted from 1.
fn goes_anew(alloc: Global, row: &str, outside: Outside<'_>) -> bool {
    let fails = numbers(alloc, field(row, "fails"));
    match MemFs::new(alloc, Vec::new(alloc), fails) {
        Ok(disk) => {
            let mut disk = CrashDisk::new(disk);
            let is_so = goes(alloc, row, &mut disk, outside);
            drop(disk);
            is_so
        }
        Err(_) => false,
    }
}

/// Whether a run goes as the row says, with takings of these sizes.
fn is_right(alloc: Global, row: &str, sizes: [usize; 3]) -> bool {
    let text = repeated(alloc, row, "input");
    let wanted = repeated(alloc, row, "answers");
    let is_so = goes_anew(alloc, row, begin(row, &text, sizes, &wanted));
    drop(text);
    drop(wanted);
    is_so & is_well_formed(alloc, row, &NAMES)
}

/// The first row that goes otherwise, if there is one. A line that begins with `#` is a comment.
fn first_wrong(alloc: Global, rows: &'static str) -> Option<&'static str> {
    for row in rows.lines() {
        if !row.starts_with('#') && !is_right(alloc, row, LARGE) {
            return Some(row);
        }
    }
    None
}

/// Over a queue without files.
const ANSWERS: &str = "input foop/1%00; answers +
input todo/1%00; answers +
input foop/%00; answers x
input todo/%00; answers x
input foop/18446744073709551615%00; answers +
input todo/18446744073709551616%00; answers x
input foop/0%00; answers x
input foop/01%00; answers x
input foop/1x%00; answers x
input foop/%201%00; answers x
input foop/+1%00; answers x
input foop%00; answers x
input fool/1%00; answers x
input FOOP/1%00; answers x
input %20foop/1%00; answers x
input foop/1%0A%00; answers x
input mess/1/1%00; answers x
input %00; answers x
input %00%00%00; answers xxx
input foop/1%00todo/2%00zzzzzz%00; answers ++x
# a rest without NUL is dropped
input foop/1%00foop/2; answers +
input foop/1
input
# of 100 bytes, and of 101
input foop/1111111111111111111111111111111111111111111111111111111111111111111111111111111111111111111111%00todo/11111111111111111111111111111111111111111111111111111111111111111111111111111111111111111111111%00foop/1%00; answers xx+";

#[test]
fn each_text_has_its_answers(rt: HostRuntime) {
    none_is_wrong(&rt, first_wrong(rt.alloc(), ANSWERS));
}

/// Call 1 is the search of `pid`, which has no name.
const UNLINKS: &str =
    "files intd/1 mess/1/1 todo/1 mess/1/24; input foop/1%00; answers +; left todo/1 mess/1/24; gone intd/1 mess/1/1
files intd/1 mess/1/1 todo/1 todo/24; input todo/1%00; answers +; left mess/1/1 todo/24; gone intd/1 todo/1
files mess/1/1 mess/1/24; input foop/24%00; answers +; left mess/1/1; gone mess/1/24
# the unlink of intd fails: the other one isn't made
files intd/1 mess/1/1 todo/1; fails 2; input todo/1%00; answers !; left intd/1 mess/1/1 todo/1
files intd/1 mess/1/1 todo/1; fails 2; input foop/1%00; answers !; left intd/1 mess/1/1 todo/1
# the other one fails
files intd/1 todo/1; fails 3; input todo/1%00; answers !; left todo/1; gone intd/1
files intd/1 mess/1/1; fails 3; input foop/1%00; answers !; left mess/1/1; gone intd/1
# the next command is carried out all the same
files intd/1 mess/1/1 mess/2/2; fails 2; input foop/1%00x%00foop/2%00; answers !x+; left intd/1 mess/1/1; gone mess/2/2
# what is no command removes nothing
files intd/1 mess/1/1 todo/1; input foop/01%00todo/1%20%00mess/1/1%00intd/1%00foop/1; answers xxxx; left intd/1 mess/1/1 todo/1";

#[test]
fn each_command_removes_its_names(rt: HostRuntime) {
    none_is_wrong(&rt, first_wrong(rt.alloc(), UNLINKS));
}

/// Files in `pid` have moment 0.
const SCANS: &str = "files pid/77.0.1 pid/78.0.1; now 129600; left pid/77.0.1 pid/78.0.1
files pid/77.0.1 pid/78.0.1 mess/1/1; now 129601; left mess/1/1; gone pid/77.0.1 pid/78.0.1
# a name of another form, and the longest one
files pid/stray pid/xxxxxxxxxxxxxxxxxxxxxxxxxxxxxxxxxxxxxxxxxxxxxxxxxxxxxxxxxxxxxxxxxxxxxxxxxxxxxxxxxxxxxxxxxxxxxxxxxxxxxxxxxxxxxxxxxxxxxxxxxxxxxxxxxxxxxxxxxxxxxxxxxxxxxxxxxxxxxxxxxxxxxxxxxxxxxxxxxxxxxxxxxxxxxxxxxxxxxxxxxxxxxxxxxxxxxxxxxxxxxxxxxxxxxxxxxxxxxxxxxxxxxxxxxxxxxxx; now 129601; gone pid/stray pid/xxxxxxxxxxxxxxxxxxxxxxxxxxxxxxxxxxxxxxxxxxxxxxxxxxxxxxxxxxxxxxxxxxxxxxxxxxxxxxxxxxxxxxxxxxxxxxxxxxxxxxxxxxxxxxxxxxxxxxxxxxxxxxxxxxxxxxxxxxxxxxxxxxxxxxxxxxxxxxxxxxxxxxxxxxxxxxxxxxxxxxxxxxxxxxxxxxxxxxxxxxxxxxxxxxxxxxxxxxxxxxxxxxxxxxxxxxxxxxxxxxxxxxxxxxxxxxx
# a stat that fails is passed over
files pid/77.0.1 pid/78.0.1; fails 2; now 129601; left pid/77.0.1; gone pid/78.0.1
# so is an unlink
files pid/77.0.1 pid/78.0.1; fails 3; now 129601; left pid/77.0.1; gone pid/78.0.1
# a search that fails ends the scan
files pid/77.0.1 pid/78.0.1 mess/1/1; fails 1; now 129601; input foop/1%00; answers +; left pid/77.0.1 pid/78.0.1; gone mess/1/1
files pid/77.0.1 pid/78.0.1; fails 4; now 129601; left pid/78.0.1; gone pid/77.0.1
# 31 commands later the next scan begins again, and removes what the first one could not
files pid/77.0.1 pid/78.0.1; fails 2 4; now 129601; input %00; times 31; answers x; gone pid/77.0.1 pid/78.0.1";

/// `pid` is gone through before commands 1, 32 and 63.
const SEARCHES: &str = "input %00; times 0; answers x; searches 1
input %00; times 1; answers x; searches 1
input %00; times 30; answers x; searches 1
input %00; times 31; answers x; searches 2
input %00; times 40; answers x; searches 2
input %00; times 61; answers x; searches 2
input %00; times 62; answers x; searches 3";

#[test]
fn each_scan_removes_the_old_names(rt: HostRuntime) {
    none_is_wrong(&rt, first_wrong(rt.alloc(), SCANS));
    none_is_wrong(&rt, first_wrong(rt.alloc(), SEARCHES));
}

/// The output is full, or the input fails after its last byte.
const FAILURES: &str = "dirs none; input x%00x%00; room 0; status 53
dirs none; input x%00x%00; room 1; answers x; status 53
dirs none; input x%00x%00; room 2; answers xx; status 0
dirs none; input x%00x%00; end failed; room 2; answers xx; status 54
dirs none; input x%00x%00; end failed; room 1; answers x; status 53
dirs none; end failed; room 0; status 54
dirs none; input foop/1; end failed; room 0; status 54";

#[test]
fn what_fails_outside_ends_it(rt: HostRuntime) {
    none_is_wrong(&rt, first_wrong(rt.alloc(), FAILURES));
}

/// Three commands, the second one of which is no command.
const THREE: &str = "dirs none; input foop/1%00foop/x%00todo/2%00; answers +x+";

/// How many bytes they have.
const LENGTH: usize = 21;

#[test]
fn it_does_not_matter_where_the_cuts_are(rt: HostRuntime) {
    for first in 1..=LENGTH {
        for second in 1..=LENGTH {
            let is_cut = is_right(rt.alloc(), THREE, [first, second, PIECE]);
            assert!(rt; is_cut, "{first} {second}");
        }
        assert!(rt; is_right(rt.alloc(), THREE, [first; 3]), "{first}");
    }
}

/// What an input of chance is put together from.
const FRAGMENTS: [&[u8]; 16] = [
    b"foop/", b"foop/", b"todo/", b"todo/", b"\0", b"\0", b"1", b"2", b"3", b"4", b"5", b"6", b"7",
    b"8", b"9", b"mess",
];

/// 100,000 bytes, the last of them a NUL.
fn chance(alloc: Global) -> Result<Vec<u8>, Memory> {
    let mut text = Vec::new(alloc);
    let mut draw: u32 = 1;
    for _ in 0..99_999 {
        draw = (75 * (draw % 65_537) + 74) % 65_537;
        let fragment = FRAGMENTS[draw as usize % FRAGMENTS.len()];
        let room = 99_999_usize.saturating_sub(text.len());
        text.extend_from_slice(&fragment[..fragment.len().min(room)])?;
    }
    text.push(0)?;
    Ok(text)
}

/// Whether the text has this command.
fn has_command(text: &[u8], command: &[u8]) -> bool {
    text.split(|byte| *byte == 0).any(|part| part == command)
}

/// How many NULs it has.
fn nuls_in(text: &[u8]) -> usize {
    let mut count = 0_usize;
    for byte in text {
        if *byte == 0 {
            count = count.saturating_add(1);
        }
    }
    count
}

/// Whether those of the files of the message of this digit are gone that the text names, and no others.
fn is_as_named(disk: &CrashDisk, text: &[u8], digit: u8) -> bool {
    let is_foop = has_command(text, &[b'f', b'o', b'o', b'p', b'/', digit]);
    let is_todo = has_command(text, &[b't', b'o', b'd', b'o', b'/', digit]);
    let intd = disk.bytes_of(&[b'i', b'n', b't', b'd', b'/', digit]);
    let mess = disk.bytes_of(&[b'm', b'e', b's', b's', b'/', digit, b'/', digit]);
    let todo = disk.bytes_of(&[b't', b'o', b'd', b'o', b'/', digit]);
    (intd.is_none() == (is_foop | is_todo))
        & (mess.is_none() == is_foop)
        & (todo.is_none() == is_todo)
}

/// Whether each message's files are.
fn are_as_named(disk: &CrashDisk, text: &[u8]) -> bool {
    let mut are_so = true;
    for digit in b"123456789" {
        are_so &= is_as_named(disk, text, *digit);
    }
    are_so
}

/// The files of nine messages, and an input that gets an answer for each NUL.
const CHANCE: &str =
    "files intd/1 mess/1/1 todo/1 intd/2 mess/2/2 todo/2 intd/3 mess/3/3 todo/3 intd/4 mess/4/4 todo/4 intd/5 mess/5/5 todo/5 intd/6 mess/6/6 todo/6 intd/7 mess/7/7 todo/7 intd/8 mess/8/8 todo/8 intd/9 mess/9/9 todo/9; answers *";

/// Whether a run over an input of chance goes so, and removes what that names.
fn removes_what_is_named(alloc: Global) -> bool {
    match chance(alloc) {
        Ok(text) => {
            let is_so = goes_anew(alloc, CHANCE, begin(CHANCE, &text, LARGE, b""));
            drop(text);
            is_so
        }
        Err(_) => false,
    }
}

#[test]
fn input_of_chance_removes_only_what_it_names(rt: HostRuntime) {
    assert!(rt; removes_what_is_named(rt.alloc()));
}

/// Whether it may be handed 8192 bytes of one taking, by the trait of machines, and answers the first of 8192 commands.
fn takes_a_full_piece(alloc: Global) -> bool {
    let mut cleaner = Cleaner::new();
    let _ = cleaner.done(Got::File(Answer::NoName, &[]));
    Machine::look(&mut cleaner, 0, READY);
    match Machine::need(&cleaner) {
        Need::Take(Port::Input) => {}
        _ => return false,
    }
    let is_handed = Machine::done(&mut cleaner, alloc, Got::Took(&[0; 8192])).is_ok();
    let is_answered = match Machine::need(&cleaner) {
        Need::Give(Port::Output, bytes) => bytes == b"x".as_slice(),
        _ => false,
    };
    Machine::taking_room(&cleaner) == 8192 && is_handed && is_answered
}

#[test]
fn it_takes_a_full_piece(rt: HostRuntime) {
    assert!(rt; takes_a_full_piece(rt.alloc()));
}
