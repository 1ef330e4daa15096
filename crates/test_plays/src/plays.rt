// Scripts that `play` plays.

use crate::calling::call;
use crate::crowded_disk::CrowdedDisk;
use crate::rows::words_of;
use call_fs::Recorder;
use mail_bytes::ByteText;
use mem_fs::MemFs;
use outside::{MemClock, MemSink, MemSource};
use queue_limits::DONE;
use std::alloc::Global;
use std::{io, str};

/// How many bytes the output and the log have room for.
const MOST_PRINTED: usize = 1_000_000;

/// What came of a script: the exit status, and what the output and the log took.
#[derive(Drop)]
struct Played {
    status: u8,
    out: MemSink,
    log: MemSink,
}

/// Whether a script ends with 0, logs nothing and prints this.
pub(crate) fn prints(rt: &HostRuntime, script: Vec<u8>, expected: &[u8]) -> io::Result<bool> {
    let played = play(rt, script)?;
    let is_right = has_printed(&played, expected);
    drop(played);
    Ok(is_right)
}

/// What a script prints; nothing if the exit status isn't 0 or anything is logged.
pub(crate) fn printed(rt: &HostRuntime, script: String) -> io::Result<String> {
    let played = play(rt, script.into_bytes())?;
    let text = String::from_str(rt.alloc(), text_of(&played));
    drop(played);
    Ok(text?)
}

/// Whether a script ended well and printed this.
fn has_printed(played: &Played, expected: &[u8]) -> bool {
    is_done(played) && played.out.taken() == expected
}

/// What a script printed, if it ended well.
fn text_of(played: &Played) -> &str {
    if is_done(played) {
        str::from_utf8(played.out.taken()).unwrap_or("")
    } else {
        ""
    }
}

/// Whether the exit status is 0, and nothing is logged.
fn is_done(played: &Played) -> bool {
    played.status == DONE && played.log.taken().is_empty()
}

/// Plays a script.
fn play(rt: &HostRuntime, script: Vec<u8>) -> io::Result<Played> {
    let alloc = rt.alloc();
    let out = MemSink::new(alloc, MOST_PRINTED, Vec::new(alloc))?;
    let log = MemSink::new(alloc, MOST_PRINTED, Vec::new(alloc))?;
    Ok(call_play(rt, script, out, log))
}

/// Calls `qmail` to play a script, with this output and this log. It holds forms of every kind, so nothing branches here, and
/// each is dropped by name.
fn call_play(rt: &HostRuntime, script: Vec<u8>, mut out: MemSink, mut log: MemSink) -> Played {
    let alloc = rt.alloc();
    let words = words_of(alloc, "words play");
    let disk = MemFs::new(alloc, Vec::new(alloc), Vec::new(alloc)).unwrap();
    let mut disk = Recorder::new(alloc, CrowdedDisk::new(disk, 0));
    let mut message = MemSource::new(one_piece(alloc, script), Vec::new(alloc));
    let mut envelope = MemSource::new(Vec::new(alloc), Vec::new(alloc));
    let mut clock = MemClock::new(Vec::new(alloc), 1);
    let status = call(
        rt,
        &words,
        &mut disk,
        &mut message,
        &mut envelope,
        &mut out,
        &mut log,
        &mut clock,
    );
    drop(words);
    drop(disk);
    drop(message);
    drop(envelope);
    drop(clock);
    Played { status, out, log }
}

/// These bytes as the one piece of a source.
fn one_piece(alloc: Global, bytes: Vec<u8>) -> Vec<ByteText> {
    let mut pieces = Vec::new(alloc);
    let _ = pieces.push(ByteText::from_vec(bytes));
    pieces
}
