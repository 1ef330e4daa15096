// Calls on a real directory, and what is seen of them as text.
use call_fs::{Answer, Call, CallFs, Fd, FsError, How, PIECE, perform};
use host_fs::{HostFs, System};
use mail_bytes::{Memory, undec, unescape};
use std::alloc::Global;

/// The bytes of a text in which `%` and two hexadecimal digits are one byte; of any other `%` the text itself.
pub fn bytes(alloc: Global, text: &str) -> Vec<u8> {
    match unescape(alloc, text.as_bytes()) {
        Ok(bytes) => bytes,
        Err(_) => Vec::from_slice(alloc, text.as_bytes()).unwrap_or(Vec::new(alloc)),
    }
}

/// A number as decimal text; 0 for any other text.
fn number(text: &[u8]) -> u64 {
    undec(text).unwrap_or(0)
}

/// The call of this name with these arguments.
fn call_of<'a>(name: &str, first: &'a [u8], second: &'a [u8], third: &'a [u8]) -> Call<'a> {
    let fd = Fd(number(first));
    match name {
        "create" => Call::CreateExcl(first),
        "open_read" => Call::Open(first, How::Read),
        "open_append" => Call::Open(first, How::Append),
        "open_write" => Call::Open(first, How::Write),
        "read" => Call::ReadAt(fd, number(second), number(third)),
        "write" => Call::WriteAt(fd, number(second), third),
        "append" => Call::Append(fd, second),
        "cut" => Call::Truncate(fd, number(second)),
        "sync" => Call::Sync(fd),
        "close" => Call::Close(fd),
        "link" => Call::Link(first, second),
        "unlink" => Call::Unlink(first),
        "stat" => Call::Stat(first),
        _ => Call::NextName(first, second),
    }
}

/// What stands before the first space, and after it.
pub fn parted(text: &str) -> (&str, &str) {
    text.split_once(' ').unwrap_or((text, ""))
}

/// What is seen of the call that a text is, its arguments parted by spaces.
pub fn see_text<S: System>(alloc: Global, disk: &mut HostFs<S>, text: &str, whole: bool) -> String {
    let (name, rest) = parted(text);
    let (first, rest) = parted(rest);
    let (second, third) = parted(rest);
    let first = bytes(alloc, first);
    let second = bytes(alloc, second);
    let third = bytes(alloc, third);
    let seen = see(alloc, disk, call_of(name, &first, &second, &third), whole);
    drop(first);
    drop(second);
    drop(third);
    seen
}

/// Makes the call, with room for the bytes of a read.
fn make_call<S: System>(
    alloc: Global,
    disk: &mut HostFs<S>,
    call: Call<'_>,
    into: &mut [u8; PIECE],
) -> Answer {
    match call {
        Call::CreateExcl(name) => perform(alloc, disk, 0, Call::CreateExcl(name), into),
        Call::Open(name, how) => perform(alloc, disk, 0, Call::Open(name, how), into),
        Call::ReadAt(fd, at, len) => {
            perform(
                alloc,
                disk,
                0,
                Call::ReadAt(fd, at, len.min(PIECE as u64)),
                into,
            )
        }
        Call::WriteAt(fd, at, bytes) => perform(alloc, disk, 0, Call::WriteAt(fd, at, bytes), into),
        Call::Append(fd, bytes) => perform(alloc, disk, 0, Call::Append(fd, bytes), into),
        Call::Truncate(fd, len) => perform(alloc, disk, 0, Call::Truncate(fd, len), into),
        Call::Sync(fd) => perform(alloc, disk, 0, Call::Sync(fd), into),
        Call::Close(fd) => perform(alloc, disk, 0, Call::Close(fd), into),
        Call::Link(old, new) => perform(alloc, disk, 0, Call::Link(old, new), into),
        Call::Unlink(name) => perform(alloc, disk, 0, Call::Unlink(name), into),
        Call::Stat(name) => perform(alloc, disk, 0, Call::Stat(name), into),
        Call::NextName(dir, after) => perform(alloc, disk, 0, Call::NextName(dir, after), into),
    }
}

/// An answer as text; a fault with the count of faults, and numbers and moments of files if all is to be told.
fn text_of(
    alloc: Global,
    answer: &Answer,
    into: &[u8],
    faults: u64,
    whole: bool,
) -> Result<String, Memory> {
    match answer {
        Answer::Created(fd, number) => {
            let (fd, number) = (fd.0, if whole { *number } else { 0 });
            format!(in alloc; "created {fd} {number}")
        }
        Answer::Opened(fd) => {
            let fd = fd.0;
            format!(in alloc; "opened {fd}")
        }
        Answer::Count(count) => {
            let bytes = into
                .split_at(into.len().min(*count as usize))
                .0
                .escape_ascii();
            format!(in alloc; "read {bytes}")
        }
        Answer::Done => format!(in alloc; "done"),
        Answer::Stat(stat) => {
            let length = stat.length;
            let (number, moment) = if whole {
                (stat.number, stat.moment)
            } else {
                (0, 0)
            };
            format!(in alloc; "file {number} {length} {moment}")
        }
        Answer::Name(name) => {
            let name = name.as_slice().escape_ascii();
            format!(in alloc; "name {name}")
        }
        Answer::NoName => format!(in alloc; "no name"),
        Answer::Refused(FsError::Fault) => format!(in alloc; "Fault {faults}"),
        Answer::Refused(why) => format!(in alloc; "{why:?}"),
    }
}

/// What is seen of a call; nothing when there is no memory for it. Numbers and moments of files are told if all is to be
/// told.
pub fn see<S: System>(alloc: Global, disk: &mut HostFs<S>, call: Call<'_>, whole: bool) -> String {
    let mut into = [0; PIECE];
    let answer = make_call(alloc, disk, call, &mut into);
    match text_of(alloc, &answer, &into, disk.faults(), whole) {
        Ok(text) => text,
        Err(_) => String::new(alloc),
    }
}

/// Adds what was seen and what was wanted to a text, if they differ.
pub fn add_if_wrong(wrong: &mut String, seen: &str, wanted: &str) {
    if seen != wanted {
        for text in ["seen: ", seen, "\nwanted: ", wanted, "\n"] {
            let _ = wrong.push_str(text);
        }
    }
}
