// Rows, each of a command that is run over what it says, with what comes of it.

use super::counting_gate::CountingGate;
use super::fields::{are_numbers, field, is_text, is_well_formed, number, numbers};
use super::made::{make_dirs, posts_of, put_files, source_of, spawner_of, take_away, words_of};
use super::paced_posts::{LateClock, PacedPosts};
use super::told::{Posting, Spawning, Timing, are_told};
use call_fs::CallFs;
use clean_command::clean;
use local_command::deliver;
use mail_bytes::ByteText;
use mem_fs::MemFs;
use outside::{MemPosts, MemSink, MemSource, MemSpawner, Posts, Recorder, Sink, Spawner};
use queue_command::{Form, inject};
use received_line::Invoked;
use send_command::send;
use spawn_command::{spawn_local, spawn_remote};
use std::alloc::Global;

/// How often slow posts bring nothing before each thing that they bring.
pub const SLOW_ASKS: u64 = 12;

/// What a row may say:
///
/// - `run`: `rspawn` and the program, `lspawn` and the directory, `send` and how many turns, over the directory `d` with the
///   program `p`, `local`, a delivery to `j@localhost` from `a@x` in process 82, with the uid 1000, `queue`, an injection by
///   this user from netstrings, or `clean`;
/// - `lacks`: a directory that isn't there; `gone`: the names that were taken away since the run before; `mail`: the files that
///   are put there then, each a name and after `=` its bytes, or `queued` or `known`: message 1 as it is queued, or once it was
///   preprocessed;
/// - `qmail`: the instructions of `j`; `input`: the input of a delivery, an injection or a cleaner;
/// - `posts`: what the posts bring: a channel, and after `:` bytes, `end` or `failed`; `pace`: how often the command pauses at its
///   gate before each of them comes;
/// - `moment`: what the clock tells after so many pauses as `later` says, and 0 before;
/// - `children`: those that can be started: the number of the process, for how many bytes it has room, and the exit status,
///   `crashed`, or `failed` if it can't be had; `fails`, `disk_fails`: which calls for children, and which of the disk, fail;
/// - `room`: for how many bytes the output has room, or the log of a sender;
/// - `times`: how often each post of channel 1 that brings bytes comes, once if that isn't told;
/// - `letters`: for how many letters `a` the `{letters}` of a text stands;
/// - `status`, `given`: the exit status, and what the output got, or the log; `words`, `fed`, `words2`, `fed2`: the words of the
///   first and the second child that were started, of which `""` is an empty one, and what each was fed; `started`: how many
///   were started as a sender's, and what two more were fed is `fed3` and `fed4`; `dropped`: the file in the maildir. No other
///   child is started, and without `dropped` there is no file;
/// - `counted`: how many calls have failed: of children, of the disk, of the posts and of the output;
/// - `calls`: each call for a child, with what was answered, what it was fed in parts as one; `asked`: each answer of the posts, of which `-N` stands for N times
///   nothing; `moments`: each moment that the clock told; `readings`: how many these were;
/// - `rests`: how often it paused at its gate, and the sum of the steps, with a thousand for each that was of a mail;
/// - `then`: what follows is another run over the same disk.
const NAMES: [&str; 32] = [
    "run",
    "lacks",
    "gone",
    "mail",
    "qmail",
    "input",
    "posts",
    "pace",
    "moment",
    "later",
    "children",
    "fails",
    "disk_fails",
    "room",
    "times",
    "letters",
    "status",
    "given",
    "words",
    "fed",
    "words2",
    "fed2",
    "fed3",
    "fed4",
    "started",
    "dropped",
    "counted",
    "calls",
    "asked",
    "moments",
    "readings",
    "rests",
];

/// Of each channel: the part of a row with its words, that with what it was fed, and its words if it is a sender's.
const CHILDREN: [(u32, &str, &str, &str); 4] = [
    (1, "words", "fed", "\"\" clean d"),
    (2, "words2", "fed2", "\"\" lspawn d"),
    (3, "", "fed3", "\"\" rspawn d p"),
    (4, "", "fed4", "\"\" queue - d --bounce"),
];

/// Makes a local delivery; its exit status.
fn deliver_row(
    alloc: Global,
    row: &str,
    disk: &mut MemFs,
    clock: &mut Timing<'_>,
    posts: &mut Posting<'_>,
    spawner: &mut Spawning,
    output: &mut MemSink,
    gate: &CountingGate,
) -> u8 {
    let mut input = source_of(alloc, row);
    let words = words_of(alloc);
    let status = deliver(
        alloc, b"d", words, 1000, disk, &mut input, output, clock, posts, spawner, gate,
    );
    drop(input);
    status
}

/// Runs the remote spawner; its exit status.
fn spawn_remote_row(
    alloc: Global,
    row: &str,
    disk: &mut MemFs,
    clock: &mut Timing<'_>,
    posts: &mut Posting<'_>,
    spawner: &mut Spawning,
    output: &mut MemSink,
    gate: &CountingGate,
) -> u8 {
    let program = told(row).as_bytes();
    spawn_remote(alloc, program, disk, clock, posts, spawner, output, gate)
}

/// Runs the local spawner; its exit status.
fn spawn_local_row(
    alloc: Global,
    row: &str,
    disk: &mut MemFs,
    clock: &mut Timing<'_>,
    posts: &mut Posting<'_>,
    spawner: &mut Spawning,
    output: &mut MemSink,
    gate: &CountingGate,
) -> u8 {
    let dir = told(row).as_bytes();
    spawn_local(alloc, dir, disk, clock, posts, spawner, output, gate)
}

/// Runs the sender; its exit status.
fn send_row(
    alloc: Global,
    row: &str,
    disk: &mut MemFs,
    clock: &mut Timing<'_>,
    posts: &mut Posting<'_>,
    spawner: &mut Spawning,
    output: &mut MemSink,
    gate: &CountingGate,
) -> u8 {
    let turns = told(row).parse::<u64>().unwrap_or(0);
    send(
        alloc, b"d", b"p", turns, disk, output, clock, posts, spawner, gate,
    )
}

/// Injects a message; the exit status.
fn queue_row(alloc: Global, row: &str, disk: &mut MemFs, clock: &mut Timing<'_>) -> u8 {
    let mut input = source_of(alloc, row);
    let mut none = MemSource::new(Vec::new(alloc), Vec::new(alloc));
    let invoked = Invoked::Uid(1000);
    let status = inject(
        alloc,
        1000,
        invoked,
        Form::Netstrings,
        disk,
        &mut input,
        &mut none,
        clock,
    );
    drop(input);
    drop(none);
    status
}

/// Runs the cleaner; its exit status.
fn clean_row(
    alloc: Global,
    row: &str,
    disk: &mut MemFs,
    clock: &mut Timing<'_>,
    output: &mut MemSink,
) -> u8 {
    let mut input = source_of(alloc, row);
    let status = clean(alloc, disk, &mut input, output, clock);
    drop(input);
    status
}

/// Which command a row runs.
fn name(row: &str) -> &str {
    let run = field(row, "run");
    let (name, _) = run.split_once(' ').unwrap_or((run, ""));
    name
}

/// The clock of a row, whose readings are kept: that of process 82 for a delivery, of process 77 for others.
fn clock_of<'a>(alloc: Global, row: &str, gate: &'a CountingGate) -> Timing<'a> {
    let moment = field(row, "moment").parse::<u32>().unwrap_or(0);
    let pid = if name(row) == "local" { 82 } else { 77 };
    Recorder::new(
        alloc,
        LateClock::new(gate, number(row, "later"), moment, pid),
    )
}

/// What the command of a row is told.
fn told(row: &str) -> &str {
    let (_, told) = field(row, "run").split_once(' ').unwrap_or(("", ""));
    told
}

/// Runs the command of a row; its exit status.
fn run(
    alloc: Global,
    row: &str,
    disk: &mut MemFs,
    clock: &mut Timing<'_>,
    posts: &mut Posting<'_>,
    spawner: &mut Spawning,
    output: &mut MemSink,
    gate: &CountingGate,
) -> u8 {
    match name(row) {
        "rspawn" => spawn_remote_row(alloc, row, disk, clock, posts, spawner, output, gate),
        "lspawn" => spawn_local_row(alloc, row, disk, clock, posts, spawner, output, gate),
        "send" => send_row(alloc, row, disk, clock, posts, spawner, output, gate),
        "queue" => queue_row(alloc, row, disk, clock),
        "clean" => clean_row(alloc, row, disk, clock, output),
        _ => deliver_row(alloc, row, disk, clock, posts, spawner, output, gate),
    }
}

/// Whether these are the words of a text.
fn are_words(alloc: Global, row: &str, words: &str, told: &[ByteText]) -> bool {
    let mut at = 0_usize;
    for word in words.split_whitespace() {
        let is_so = match told.get(at) {
            Some(text) => is_text(alloc, row, word.trim_matches('"'), text.as_slice()),
            None => false,
        };
        if !is_so {
            return false;
        }
        at = at.saturating_add(1);
    }
    at == told.len()
}

/// Whether the child of this channel was started with these words and fed this, and its input was ended then; or there is no
/// such child, and there are no words.
fn is_started(
    alloc: Global,
    row: &str,
    spawner: &MemSpawner,
    chan: u32,
    words: &str,
    fed: &str,
) -> bool {
    match (spawner.words(chan), spawner.fed(chan)) {
        (Some(told), Some(taken)) => {
            !words.is_empty()
                && are_words(alloc, row, words, told)
                && is_text(alloc, row, fed, taken)
                && spawner.is_finished(chan) == Some(true)
        }
        _ => words.is_empty(),
    }
}

/// Whether the children were started and fed as the row says, and no more of them.
fn are_started(alloc: Global, row: &str, spawner: &MemSpawner) -> bool {
    let links = number(row, "started");
    for (chan, words, fed, link) in CHILDREN {
        let words = if u64::from(chan) <= links {
            link
        } else {
            field(row, words)
        };
        if !is_started(alloc, row, spawner, chan, words, field(row, fed)) {
            return false;
        }
    }
    spawner.words(5).is_none()
}

/// Whether the maildir has the file that the row says, or none.
fn is_dropped(alloc: Global, row: &str, disk: &MemFs) -> bool {
    let wanted = field(row, "dropped");
    match disk.bytes_of(b"home/j/Maildir/new/0.82.localhost") {
        Some(found) => !wanted.is_empty() && is_text(alloc, row, wanted, found),
        None => wanted.is_empty(),
    }
}

/// Whether a run over this disk into this output does what it says.
fn is_right_by(
    alloc: Global,
    row: &str,
    asks: u64,
    disk: &mut MemFs,
    posts: &mut MemPosts,
    spawner: &mut Spawning,
    output: &mut MemSink,
) -> bool {
    let gate = CountingGate::new();
    let mut clock = clock_of(alloc, row, &gate);
    let paced = PacedPosts::new(posts, &gate, asks, number(row, "pace"));
    let mut paced = Recorder::new(alloc, paced);
    let status = run(
        alloc, row, disk, &mut clock, &mut paced, spawner, output, &gate,
    );
    let counted = [
        spawner.faults(),
        disk.faults(),
        paced.faults(),
        output.faults(),
    ];
    let is_so = are_told(alloc, row, &clock, &paced, spawner);
    drop(paced);
    drop(clock);
    is_so
        & (u64::from(status) == number(row, "status"))
        & is_text(alloc, row, field(row, "given"), output.taken())
        & are_started(alloc, row, spawner.inner())
        & is_dropped(alloc, row, disk)
        & are_numbers(alloc, row, "counted", &counted)
        & are_numbers(alloc, row, "rests", &[gate.pauses(), gate.steps()])
}

/// The same, with its own posts and children, and once its files are there.
fn is_right_into(
    alloc: Global,
    row: &str,
    asks: u64,
    disk: &mut MemFs,
    output: &mut MemSink,
) -> bool {
    let is_gone = take_away(disk, row);
    put_files(alloc, disk, row);
    let mut posts = posts_of(alloc, row);
    let mut spawner = Recorder::new(alloc, spawner_of(alloc, row));
    let is_so = is_right_by(alloc, row, asks, disk, &mut posts, &mut spawner, output);
    drop(posts);
    drop(spawner);
    is_gone & is_so & is_well_formed(alloc, row, &NAMES)
}

/// The same, into a new output.
fn is_right_on(alloc: Global, row: &str, asks: u64, disk: &mut MemFs) -> bool {
    match MemSink::new(alloc, number(row, "room") as usize, Vec::new(alloc)) {
        Ok(mut output) => {
            let is_so = is_right_into(alloc, row, asks, disk, &mut output);
            drop(output);
            is_so
        }
        Err(_) => false,
    }
}

/// Whether all runs of a row do what it says, one after another over this disk.
fn are_right_on(alloc: Global, row: &str, asks: u64, disk: &mut MemFs) -> bool {
    for part in row.split("; then; ") {
        if !is_right_on(alloc, part, asks, disk) {
            return false;
        }
    }
    true
}

/// The same, over a new disk.
fn are_right(alloc: Global, row: &str, asks: u64) -> bool {
    match MemFs::new(alloc, Vec::new(alloc), numbers(alloc, row, "disk_fails")) {
        Ok(mut disk) => {
            make_dirs(alloc, &mut disk, row);
            let is_so = are_right_on(alloc, row, asks, &mut disk);
            drop(disk);
            is_so
        }
        Err(_) => false,
    }
}

/// The first row that goes otherwise, if there is one, with posts that bring nothing for so many asks before each thing. A line
/// that begins with `#` is a comment.
pub fn first_wrong(alloc: Global, rows: &'static str, asks: u64) -> Option<&'static str> {
    for row in rows.lines() {
        if !row.starts_with('#') && !are_right(alloc, row, asks) {
            return Some(row);
        }
    }
    None
}
