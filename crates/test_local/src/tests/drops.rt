// Drops over a disk in memory that can be halted.
ghost use Rattle.std.specs.Prelude.{◌≡◌, ◌≤◌, All, IfOk, OnOk, length};
ghost use Rattle.test_local.specs.Drops.{IsRunning};

use call_fs::{Call, CallFs, CrashFs, Got, Need, PIECE, Survival, UNREADY, perform};
use crash_fs::CrashDisk;
use mail_bytes::Memory;
use maildir_drop::{End, MaildirDrop};
use mem_fs::MemFs;
use std::alloc::Global;
use std::test::Fail;

/// Makes the next step of a drop; whether there was one.
fn makes_step<D: CallFs>(alloc: Global, machine: &mut MaildirDrop, disk: &mut D) -> bool
    requires { IsRunning machine.old (D.disk disk.old) }
    ensures { IsRunning machine.new (D.disk disk.new) }
{
    machine.look(5, UNREADY);
    let mut into = [0; PIECE];
    match machine.need() {
        Need::File(call) => {
            let answer = perform(alloc, disk, 5, call, &mut into);
            machine.done(Got::File(answer, b"")).is_ok()
        }
        _ => false,
    }
}

/// Makes so many steps of a drop, or fewer until it has ended.
fn run<D: CallFs>(alloc: Global, machine: &mut MaildirDrop, disk: &mut D, steps: usize)
    requires { IsRunning machine.old (D.disk disk.old) }
    ensures { IsRunning machine.new (D.disk disk.new) }
{
    for _ in 0..steps {
        if !makes_step(alloc, machine, disk) {
            return;
        }
    }
}

/// Puts a block at the end, unless it has over 8192 bytes.
fn put_block(alloc: Global, blocks: &mut Vec<Vec<u8>>, part: &[u8]) -> Result<(), Memory>
    requires { All (λ block. length block.items ≤ 8192) blocks.old.items }
    ensures { OnOk result (All (λ block. length block.items ≤ 8192) blocks.new.items) }
{
    if part.len() <= PIECE {
        blocks.push(Vec::from_slice(alloc, part)?)?;
    }
    Ok(())
}

/// The blocks of a message.
fn blocks(alloc: Global, parts: &[&[u8]]) -> Result<Vec<Vec<u8>>, Memory>
    ensures { IfOk result (λ blocks. All (λ block. length block.items ≤ 8192) blocks.items) }
{
    let mut blocks = Vec::new(alloc);
    for part in parts {
        put_block(alloc, &mut blocks, part)?;
    }
    Ok(blocks)
}

/// The bytes that are dropped, in two blocks.
const PARTS: [&[u8]; 2] = [b"Return-Path: <a@x>\n", b"hi\n"];

/// The same, as the file has them.
const TEXT: &[u8] = b"Return-Path: <a@x>\nhi\n";

/// The maildir.
const DIR: &[u8] = b"h/Maildir/";

/// Its names in `tmp`.
const TMP_1: &[u8] = b"h/Maildir/tmp/7.82.localhost";

const TMP_2: &[u8] = b"h/Maildir/tmp/7.82_1.localhost";

const TMP_3: &[u8] = b"h/Maildir/tmp/7.82_2.localhost";

const TMP: [&[u8]; 3] = [TMP_1, TMP_2, TMP_3];

/// Its names in `new`.
const NEW_1: &[u8] = b"h/Maildir/new/7.82.localhost";

const NEW_2: &[u8] = b"h/Maildir/new/7.82_1.localhost";

const NEW_3: &[u8] = b"h/Maildir/new/7.82_2.localhost";

const NEW: [&[u8]; 3] = [NEW_1, NEW_2, NEW_3];

/// Its directories.
const TMP_DIR: &[u8] = b"h/Maildir/tmp";

const NEW_DIR: &[u8] = b"h/Maildir/new";

const BOTH: [&[u8]; 2] = [TMP_DIR, NEW_DIR];

/// A disk with these directories of the maildir and these names; the calls with these indexes fail, from 1, closes not
/// counted.
fn made(
    alloc: Global,
    dirs: &[&[u8]],
    names: &[&[u8]],
    faults: &[u64],
) -> Result<CrashDisk, Memory> {
    let faults = Vec::from_slice(alloc, faults)?;
    let mut disk = CrashDisk::new(MemFs::new(alloc, Vec::new(alloc), faults)?);
    for dir in dirs {
        disk.dir(alloc, dir)?;
    }
    for name in names {
        disk.place(alloc, name, b"old")?;
    }
    Ok(disk)
}

/// How a drop ended.
#[derive(Clone, Copy, Debug, PartialEq, Eq)]
enum Ended {
    /// It hasn't.
    Goes,
    /// Dropped, under the name with this place in `NEW`.
    Dropped(usize),
    /// Deferred.
    Defer,
    /// Otherwise.
    Other,
}

/// Which of the names it is.
fn place_of(name: &[u8]) -> Ended {
    for (k, it) in NEW.iter().enumerate() {
        if *it == name {
            return Ended::Dropped(k);
        }
    }
    Ended::Other
}

/// How a drop has ended.
fn end_of(machine: &MaildirDrop) -> Ended {
    match machine.end() {
        None => Ended::Goes,
        Some(End::Dropped { name }) => place_of(name),
        Some(End::Defer) => Ended::Defer,
        Some(End::Memory) => Ended::Other,
    }
}

/// Makes at most so many steps of the drop of the message into the maildir of this path, under a name with this host.
fn drops(alloc: Global, disk: &mut CrashDisk, dir: &[u8], host: &[u8], steps: usize) -> Ended {
    let Ok(blocks) = blocks(alloc, &PARTS) else {
        return Ended::Other;
    };
    let Ok(mut machine) = MaildirDrop::new(alloc, dir, 7, 82, host, blocks) else {
        return Ended::Other;
    };
    run(alloc, &mut machine, disk, steps);
    end_of(&machine)
}

/// What stands under a name: nothing, what stood there before, the message, or something else.
#[derive(Clone, Copy, Debug, PartialEq, Eq)]
enum Held {
    /// Nothing.
    Nothing,
    /// What stood there before.
    Old,
    /// The message.
    Message,
    /// Something else.
    Other,
}

/// What bytes are.
fn what_stands(bytes: Option<&[u8]>) -> Held {
    match bytes {
        None => Held::Nothing,
        Some(bytes) if bytes == b"old".as_slice() => Held::Old,
        Some(bytes) if bytes == TEXT => Held::Message,
        Some(_) => Held::Other,
    }
}

/// A row: directories, names that are there, the call that fails, and how the drop ends, with what then stands under the
/// three names in `tmp` and in `new`.
type Row = (
    &'static [&'static [u8]],
    &'static [&'static [u8]],
    u64,
    Ended,
    [Held; 3],
    [Held; 3],
);

/// Nothing under three names.
const NONE: [Held; 3] = [Held::Nothing; 3];

/// The message under the first one.
const FIRST: [Held; 3] = [Held::Message, Held::Nothing, Held::Nothing];

const ROWS: [Row; 14] = [
    // each call fails: the creation, the append, the sync, the link, the unlink, none
    (&BOTH, &[], 1, Ended::Defer, NONE, NONE),
    (&BOTH, &[], 2, Ended::Defer, NONE, NONE),
    (&BOTH, &[], 3, Ended::Defer, NONE, NONE),
    (&BOTH, &[], 4, Ended::Defer, NONE, NONE),
    (&BOTH, &[], 5, Ended::Dropped(0), FIRST, FIRST),
    (&BOTH, &[], 6, Ended::Dropped(0), NONE, FIRST),
    // names that are taken
    (
        &BOTH,
        &[TMP_1],
        9,
        Ended::Dropped(1),
        [Held::Old, Held::Nothing, Held::Nothing],
        [Held::Nothing, Held::Message, Held::Nothing],
    ),
    (
        &BOTH,
        &[TMP_1, TMP_2],
        9,
        Ended::Dropped(2),
        [Held::Old, Held::Old, Held::Nothing],
        [Held::Nothing, Held::Nothing, Held::Message],
    ),
    (
        &BOTH,
        &[TMP_1, TMP_2, TMP_3],
        9,
        Ended::Defer,
        [Held::Old; 3],
        NONE,
    ),
    (
        &BOTH,
        &[NEW_1],
        9,
        Ended::Defer,
        NONE,
        [Held::Old, Held::Nothing, Held::Nothing],
    ),
    // a directory is missing
    (&[TMP_DIR], &[], 9, Ended::Defer, NONE, NONE),
    (&[NEW_DIR], &[], 9, Ended::Defer, NONE, NONE),
    (&[], &[], 9, Ended::Defer, NONE, NONE),
    // after a failed sync the unlink fails too
    (&BOTH, &[], 34, Ended::Defer, FIRST, NONE),
];

/// The calls that fail of a row: two of them if it has two digits.
fn faults_of(row: &Row) -> [u64; 2] {
    if row.2 > 9 {
        [row.2 / 10, row.2 % 10]
    } else {
        [row.2, 99]
    }
}

/// What stands under three names.
fn under(disk: &CrashDisk, names: &[&[u8]; 3]) -> [Held; 3] {
    [
        what_stands(disk.bytes_of(names[0])),
        what_stands(disk.bytes_of(names[1])),
        what_stands(disk.bytes_of(names[2])),
    ]
}

/// Whether a row comes out as it says.
fn comes_out(alloc: Global, row: &Row) -> bool {
    let Ok(mut disk) = made(alloc, row.0, row.1, &faults_of(row)) else {
        return false;
    };
    let ended = drops(alloc, &mut disk, DIR, b"localhost", 100);
    ended == row.3 && under(&disk, &TMP) == row.4 && under(&disk, &NEW) == row.5
}

#[test]
fn a_drop_ends_as_its_calls_do(rt: HostRuntime) -> Result<(), Fail> {
    for (k, row) in ROWS.iter().enumerate() {
        assert!(rt; comes_out(rt.alloc(), row), "row {k}");
    }
    Ok(())
}

/// What a machine stop leaves.
const SURVIVALS: [Survival; 3] = [Survival::Keep, Survival::Lose, Survival::Junk(1)];

/// Whether after so many calls and a machine stop the message stands in `new` just if it was linked.
fn survives(alloc: Global, steps: usize, how: Survival) -> bool {
    let Ok(mut disk) = made(alloc, &BOTH, &[], &[]) else {
        return false;
    };
    drops(alloc, &mut disk, DIR, b"localhost", steps);
    let is_halted = disk.halt(alloc, how).is_ok();
    let wanted = if steps < 5 { NONE } else { FIRST };
    is_halted && under(&disk, &NEW) == wanted
}

#[test]
fn a_machine_stop_leaves_the_whole_message_or_nothing(rt: HostRuntime) -> Result<(), Fail> {
    for steps in 0..7 {
        for how in SURVIVALS {
            assert!(rt; survives(rt.alloc(), steps, how), "after {steps} calls");
        }
    }
    Ok(())
}

/// The maildir's third directory, and a name in it that a reader gives.
const CUR_DIR: &[u8] = b"h/Maildir/cur";

const CUR: &[u8] = b"h/Maildir/cur/7.82.localhost:2,";

/// A reader moves the mail that a drop has linked into `new` to `cur`, if it is there.
fn move_on<D: CallFs>(alloc: Global, machine: &MaildirDrop, disk: &mut D)
    requires { IsRunning machine.now (D.disk disk.old) }
    ensures { IsRunning machine.now (D.disk disk.new) }
{
    let mut into = [0; PIECE];
    let _linked = perform(alloc, disk, 5, Call::Link(NEW_1, CUR), &mut into);
    let _unlinked = perform(alloc, disk, 5, Call::Unlink(NEW_1), &mut into);
}

/// Whether a drop ends well if a reader comes after so many calls of it, and the mail stands where he left it.
fn is_read(alloc: Global, steps: usize) -> bool {
    let Ok(mut disk) = made(alloc, &[TMP_DIR, NEW_DIR, CUR_DIR], &[], &[]) else {
        return false;
    };
    let Ok(blocks) = blocks(alloc, &PARTS) else {
        return false;
    };
    let Ok(mut machine) = MaildirDrop::new(alloc, DIR, 7, 82, b"localhost", blocks) else {
        return false;
    };
    run(alloc, &mut machine, &mut disk, steps);
    move_on(alloc, &machine, &mut disk);
    run(alloc, &mut machine, &mut disk, 100);
    let wanted = if steps < 5 {
        FIRST
    } else {
        [Held::Nothing, Held::Message, Held::Nothing]
    };
    end_of(&machine) == Ended::Dropped(0) && under(&disk, &[NEW_1, CUR, TMP_1]) == wanted
}

#[test]
fn a_reader_may_move_the_mail_once_it_is_linked(rt: HostRuntime) -> Result<(), Fail> {
    for steps in 0..7 {
        assert!(rt; is_read(rt.alloc(), steps), "after {steps} calls");
    }
    Ok(())
}

/// Paths and hosts that give no name.
const UNNAMED: [(&[u8], &[u8]); 4] = [
    (b"h//", b"localhost"),
    (b"//", b"localhost"),
    (b"h/Maildir/", b"a\0b"),
    (b"h/Maildir/", &[b'x'; 251]),
];

/// Whether such a drop ends with no call made.
fn makes_no_call(alloc: Global, dir: &[u8], host: &[u8]) -> bool {
    let Ok(mut disk) = made(alloc, &BOTH, &[], &[]) else {
        return false;
    };
    drops(alloc, &mut disk, dir, host, 0) == Ended::Defer
}

#[test]
fn what_gives_no_name_counts_as_missing(rt: HostRuntime) -> Result<(), Fail> {
    for (k, (dir, host)) in UNNAMED.iter().enumerate() {
        assert!(rt; makes_no_call(rt.alloc(), dir, host), "row {k}");
    }
    Ok(())
}

/// 8192 bytes.
const FULL: [u8; 8192] = [b'x'; 8192];

/// Blocks, and how many steps their drop takes before the last one: four, and one for each piece of 8192 bytes.
const BLOCKS: [(&[&[u8]], usize); 5] = [
    (&[], 4),
    (&[b"", b"a", b""], 5),
    (&[&FULL], 5),
    (&[b"a", &FULL, b"b"], 6),
    (&[&FULL, b"a", &FULL, &FULL], 8),
];

/// Whether the drop of the blocks ends at the step after so many.
fn takes_steps(alloc: Global, parts: &[&[u8]], before: usize) -> bool {
    let Ok(mut disk) = made(alloc, &BOTH, &[], &[]) else {
        return false;
    };
    let Ok(blocks) = blocks(alloc, parts) else {
        return false;
    };
    let Ok(mut machine) = MaildirDrop::new(alloc, DIR, 7, 82, b"localhost", blocks) else {
        return false;
    };
    run(alloc, &mut machine, &mut disk, before);
    let goes = end_of(&machine) == Ended::Goes;
    run(alloc, &mut machine, &mut disk, 1);
    goes && end_of(&machine) == Ended::Dropped(0)
}

#[test]
fn blocks_are_written_in_pieces(rt: HostRuntime) -> Result<(), Fail> {
    for (k, (parts, before)) in BLOCKS.iter().enumerate() {
        assert!(rt; takes_steps(rt.alloc(), parts, *before), "row {k}");
    }
    Ok(())
}
