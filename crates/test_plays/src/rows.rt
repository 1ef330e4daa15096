// Calls of `qmail`, as rows of a file.

use crate::calling::call_with_threads;
use crate::crowded_disk::CrowdedDisk;
use crate::disks::{dirs_of, disk_of, names_in};
use crate::fields::{are_well_formed, bytes, field, has_field, number, numbers, parts};
use crate::told::is_told;
use call_fs::Recorder;
use mail_bytes::ByteText;
use mem_fs::MemFs;
use outside::{MemClock, MemSink, MemSource, OpenGate};
use std::alloc::Global;
use std::io;
use std::sync::Wait;
use std::thread::Threads;

/// The names that lines of a row begin with.
const NAMES: [&str; 24] = [
    "words",
    "pid",
    "moments",
    "room",
    "dirs",
    "without",
    "names",
    "disk_fails",
    "lacks",
    "message",
    "message_fails",
    "envelope",
    "times",
    "steady",
    "out_fails",
    "status",
    "out",
    "ends",
    "log",
    "left",
    "opening",
    "play",
    "told",
    "rests",
];

/// Makes the call of each row, and prints which rows go otherwise and how many go as they say.
pub(crate) fn make_rows<H: Threads + Wait + Sync>(
    rt: &HostRuntime,
    handle: &H,
    file: &str,
    text: &str,
) -> io::Result<()> {
    let (head, _) = text.split_once("\nrow").unwrap_or((text, ""));
    let mut right = 0u64;
    for row in text.split("\nrow").skip(1) {
        if is_right(rt, handle, head, row)? {
            right = right.saturating_add(1);
        } else {
            println!(rt; "{file}: otherwise: {row}")?;
        }
    }
    println!(rt; "{file}: {right} rows")
}

/// Whether the call of a row goes as it says. The lines before all rows count if the row has no line of that name.
fn is_right<H: Threads + Wait + Sync>(
    rt: &HostRuntime,
    handle: &H,
    head: &str,
    row: &str,
) -> io::Result<bool> {
    let lines = format!(in rt.alloc(); "{row}\n{head}")?;
    if !are_well_formed(&lines, &NAMES) {
        return Ok(false);
    }
    if has_field(&lines, "told") {
        return is_told(rt, &lines);
    }
    Ok(is_made(rt, handle, &lines)? && is_steady(rt, handle, &lines)?)
}

/// Whether what comes of a call is what the row says.
fn is_made<H: Threads + Wait + Sync>(
    rt: &HostRuntime,
    handle: &H,
    lines: &str,
) -> io::Result<bool> {
    Ok(made(rt, handle, lines, false)?.is_right)
}

/// Whether a call makes the same file calls, with the same answers, if its input comes byte by byte, where the row asks that.
fn is_steady<H: Threads + Wait + Sync>(
    rt: &HostRuntime,
    handle: &H,
    lines: &str,
) -> io::Result<bool> {
    if !has_field(lines, "steady") {
        return Ok(true);
    }
    let whole = made(rt, handle, lines, false)?;
    let cut = made(rt, handle, lines, true)?;
    Ok(cut.calls.as_str() == whole.calls.as_str() && whole.calls.contains("CreateExcl"))
}

/// What came of a call: whether that is what the row says, and the exit status and the file calls with their answers as a
/// text.
#[derive(Drop)]
struct Came {
    is_right: bool,
    calls: String,
}

/// Makes the call of a row, with its input as it stands or byte by byte.
fn made<H: Threads + Wait + Sync>(
    rt: &HostRuntime,
    handle: &H,
    lines: &str,
    is_cut: bool,
) -> io::Result<Came> {
    let room = number(lines, "room") as usize;
    let out = MemSink::new(rt.alloc(), room, numbers(rt.alloc(), lines, "out_fails"))?;
    let log = MemSink::new(rt.alloc(), room, Vec::new(rt.alloc()))?;
    Ok(call_row(rt, handle, lines, is_cut, out, log))
}

/// Makes the call of a row with this output and this log. It holds forms of every kind, so nothing branches here, and each is
/// dropped by name.
fn call_row<H: Threads + Wait + Sync>(
    rt: &HostRuntime,
    handle: &H,
    lines: &str,
    is_cut: bool,
    mut out: MemSink,
    mut log: MemSink,
) -> Came {
    let alloc = rt.alloc();
    let words = words_of(alloc, lines);
    let dirs = dirs_of(alloc, lines);
    let disk = CrowdedDisk::new(disk_of(alloc, lines, &dirs), number(lines, "lacks"));
    let mut disk = Recorder::new(alloc, disk);
    let message = pieces_of(alloc, lines, "message", is_cut);
    let mut message = MemSource::new(message, numbers(alloc, lines, "message_fails"));
    let envelope = pieces_of(alloc, lines, "envelope", is_cut);
    let mut envelope = MemSource::new(envelope, Vec::new(alloc));
    let mut clock = MemClock::new(numbers(alloc, lines, "moments"), pid_of(lines));
    let status = call_with_threads(
        rt,
        handle,
        &words,
        &mut disk,
        &mut message,
        &mut envelope,
        &mut out,
        &mut log,
        &mut clock,
        &OpenGate,
    );
    drop(words);
    drop(message);
    drop(envelope);
    drop(clock);
    let came = seen(alloc, lines, status, &disk, &dirs, &out, &log);
    drop(dirs);
    drop(disk);
    drop(out);
    drop(log);
    came
}

/// What came of the call of a row that ended with this status over this disk, this output and this log.
fn seen(
    alloc: Global,
    lines: &str,
    status: u8,
    disk: &Recorder<CrowdedDisk>,
    dirs: &[ByteText],
    out: &MemSink,
    log: &MemSink,
) -> Came {
    let is_right = has_left(alloc, lines, status, disk.disk().below(), dirs)
        & has_printed(alloc, lines, out)
        & has_taken(alloc, lines, "log", log);
    Came {
        is_right,
        calls: calls_of(alloc, status, disk),
    }
}

/// Whether a call ended with the status that a row says, and left the names that it says in these directories.
fn has_left(alloc: Global, lines: &str, status: u8, disk: &MemFs, dirs: &[ByteText]) -> bool {
    u64::from(status) == number(lines, "status")
        && names_in(alloc, disk, dirs).as_slice()
            == bytes(alloc, lines, field(lines, "left")).as_slice()
}

/// Whether the output took the bytes that a row says; or at the end those after `ends`, if it has them.
fn has_printed(alloc: Global, lines: &str, out: &MemSink) -> bool {
    if !has_field(lines, "ends") {
        return has_taken(alloc, lines, "out", out);
    }
    out.taken()
        .ends_with(bytes(alloc, lines, field(lines, "ends")).as_slice())
}

/// Whether a sink took the bytes that stand after this name.
fn has_taken(alloc: Global, lines: &str, name: &str, sink: &MemSink) -> bool {
    sink.taken() == bytes(alloc, lines, field(lines, name)).as_slice()
}

/// The exit status and the file calls with their answers, as a text.
fn calls_of(alloc: Global, status: u8, disk: &Recorder<CrowdedDisk>) -> String {
    match format!(in alloc; "{status} {:?}", disk.calls()) {
        Ok(text) => text,
        Err(_) => String::new(alloc),
    }
}

/// The number of this process.
fn pid_of(lines: &str) -> u32 {
    field(lines, "pid").parse::<u32>().unwrap_or(0)
}

/// The words of a call.
pub(crate) fn words_of(alloc: Global, lines: &str) -> Vec<String> {
    let mut words = Vec::new(alloc);
    for word in field(lines, "words").split(' ') {
        put_word(alloc, &mut words, word);
    }
    words
}

/// Puts a word at the end, unless it is empty.
fn put_word(alloc: Global, words: &mut Vec<String>, word: &str) {
    if word.is_empty() {
        return;
    }
    if let Ok(word) = String::from_str(alloc, word) {
        let _ = words.push(word);
    }
}

/// The pieces in which a source gives the bytes after this name: as they stand, or byte by byte.
fn pieces_of(alloc: Global, lines: &str, name: &str, is_cut: bool) -> Vec<ByteText> {
    let pieces = parts(alloc, lines, name);
    if !is_cut {
        return pieces;
    }
    let mut cut = Vec::new(alloc);
    for piece in &pieces {
        put_bytes(alloc, &mut cut, piece.as_slice());
    }
    cut
}

/// Puts each of these bytes at the end, as a piece.
fn put_bytes(alloc: Global, pieces: &mut Vec<ByteText>, bytes: &[u8]) {
    for byte in bytes {
        if let Ok(piece) = ByteText::from_slice(alloc, &[*byte]) {
            let _ = pieces.push(piece);
        }
    }
}
