// Each test is a table of rows, whose lines were worked out from the rule of the draws.
// Scripts of a seed and a count, whole and cut where an output fails.
use outside::{MemSink, Sink};
use script_maker::{LAST_SEED, MakeError, make};
use std::alloc::Global;

/// What each script begins with.
const OPENING: &[u8] = b"file users/assign : +u:u:1000:1000:home/u:-::%0A.%0A\n\
    file home/u/.qmail-default : ./Maildir/%0A\n\
    dir home/u/Maildir/tmp\n\
    dir home/u/Maildir/new\n\
    dir home/u/Maildir/cur\n";

/// A seed, a count, and the lines of the script after its opening.
struct Row(u64, u64, &'static [u8]);

/// Whole scripts.
const ROWS: &[Row] = &[
    Row(0, 0, b"sender\nsettle K\nsum\n"),
    Row(
        1,
        1,
        b"mail m1 s49@h.example r4@h.example r9@h.example r9@h.example : body 1%0A\nrun m1\n\
        sender\nsettle K\nsum\n",
    ),
    Row(
        1,
        2,
        b"mail m1 s49@h.example r4@h.example r9@h.example r9@h.example : body 1%0A\nrun m1\n\
        mail m2 s72@h.example u6@localhost u6@localhost : body 2%0A\nrun m2\n\
        sender\nsettle K\nsum\n",
    ),
    // the greatest seed
    Row(
        65536,
        1,
        b"mail m1 s36@h.example u6@localhost u6@localhost : body 1%0A\nrun m1\n\
        sender\nsettle K\nsum\n",
    ),
];

/// A longer script, which is given in pieces: its length, its last mail and what follows.
const LONG: (u64, u64, usize, &[u8]) = (
    7,
    2000,
    148_228,
    b"\nmail m2000 s59@h.example u4@localhost u0@localhost u8@localhost : body 2000%0A\nrun m2000\n\
    sender\nsettle K\nsum\n",
);

/// Makes the script of a seed and a count.
fn makes(
    alloc: Global,
    seed: u64,
    count: u64,
    sink: &mut MemSink,
) -> Option<Result<(), MakeError>> {
    if seed > LAST_SEED {
        return None;
    }
    Some(make(alloc, seed, count, sink))
}

/// Whether the text is the opening and these lines.
fn is_script(taken: &[u8], lines: &[u8]) -> bool {
    taken.len() - lines.len().min(taken.len()) == OPENING.len()
        && taken.starts_with(OPENING)
        && taken.ends_with(lines)
}

/// The script of a row is made.
fn is_made(alloc: Global, row: &Row, sink: &mut MemSink) -> bool {
    let Row(seed, count, lines) = *row;
    makes(alloc, seed, count, sink) == Some(Ok(())) && is_script(sink.taken(), lines)
}

/// The longer script is made.
fn long_is_made(alloc: Global, sink: &mut MemSink) -> bool {
    let (seed, count, length, last) = LONG;
    makes(alloc, seed, count, sink) == Some(Ok(()))
        && sink.taken().len() == length
        && sink.taken().starts_with(OPENING)
        && sink.taken().ends_with(last)
}

/// An output with room for so many bytes takes that many of the longer script, and fails once.
fn is_cut_at(alloc: Global, room: usize, sink: &mut MemSink) -> bool {
    let (seed, count, _, _) = LONG;
    makes(alloc, seed, count, sink) == Some(Err(MakeError::Failed))
        && sink.faults() == 1
        && sink.taken().len() == room
}

/// What is made over a new output.
#[derive(Clone, Copy)]
enum Made<'a> {
    /// The script of a row.
    Row(&'a Row),
    /// The longer script, whole or cut.
    Whole,
    Cut,
}

/// Whether that is so, over an output with room for so many bytes.
fn holds(alloc: Global, what: Made<'_>, room: usize) -> bool {
    match MemSink::new(alloc, room, Vec::new(alloc)) {
        Ok(mut sink) => {
            let is_so = match what {
                Made::Row(row) => is_made(alloc, row, &mut sink),
                Made::Whole => long_is_made(alloc, &mut sink),
                Made::Cut => is_cut_at(alloc, room, &mut sink),
            };
            drop(sink);
            is_so
        }
        Err(_) => false,
    }
}

#[test]
fn scripts_are_made(rt: HostRuntime) {
    let alloc = rt.alloc();
    let mut all = true;
    for row in ROWS {
        all = all && holds(alloc, Made::Row(row), 1_000);
    }
    assert!(rt; all);
}

#[test]
fn pieces_are_one_script(rt: HostRuntime) {
    assert!(rt; holds(rt.alloc(), Made::Whole, LONG.2));
}

#[test]
fn outputs_that_are_full_take_a_prefix(rt: HostRuntime) {
    let alloc = rt.alloc();
    let mut all = true;
    for room in [0, 100, 8_191, 8_192, 20_000, 148_227] {
        all = all && holds(alloc, Made::Cut, room);
    }
    assert!(rt; all);
}
