// A message that is queued in a real directory, from the streams and by the clock of the system.

use super::scratch::scratch;
use super::streams::seconds;
use call_fs::{CallFs, FsError};
use host_fs::HostFs;
use host_streams::{HostClock, LateFile, ReaderSource};
use mail_bytes::{ByteText, LAST_MOMENT, NameBuf, undec};
use queue_command::{Form, inject};
use received_line::{Invoked, received};
use std::fmt::Display;
use std::os::unix::fs::MetadataExt;
use std::{fs, process};

/// The message.
const MESSAGE: &str = "hi\n";

/// The envelope.
const ENVELOPE: &str = "Fa@x\0Tb@y\0\0";

/// The path of this name or number below that one; empty without memory for it.
fn below<N: Display + Copy>(rt: &HostRuntime, root: &str, name: N) -> String {
    match format!(in rt.alloc(); "{root}/{name}") {
        Ok(path) => path,
        Err(_) => String::new(rt.alloc()),
    }
}

/// Writes this file, and opens a source over it. A file that can't be made shows in the status.
fn written(rt: &HostRuntime, root: &str, name: &str, text: &str) -> ReaderSource<LateFile> {
    let path = below(rt, root, name);
    let _ = fs::write(rt, path.as_str(), text);
    let place = ByteText::from_slice(rt.alloc(), path.as_bytes()).ok();
    drop(path);
    ReaderSource::new(LateFile::new(rt, place))
}

/// Injects the files `message` and `envelope` below this directory over this disk; tells the exit status.
fn inject_files(rt: &HostRuntime, root: &str, disk: &mut HostFs<HostRuntime>) -> u8 {
    let mut message = written(rt, root, "message", MESSAGE);
    let mut envelope = written(rt, root, "envelope", ENVELOPE);
    let mut clock = HostClock::new(rt);
    let status = inject(
        rt.alloc(),
        0,
        Invoked::Uid(0),
        Form::Beside,
        disk,
        &mut message,
        &mut envelope,
        &mut clock,
    );
    drop(message);
    drop(envelope);
    status
}

/// Looks for the first name in `todo`, the next one, and one in `pid`.
fn names_found<D: CallFs>(disk: &mut D, name: &mut NameBuf) -> [Result<bool, FsError>; 3] {
    let mut other = NameBuf::new();
    let found = disk.next_name(b"todo", b"", name);
    let more = disk.next_name(b"todo", name.as_slice(), &mut other);
    let left = disk.next_name(b"pid", b"", &mut other);
    [found, more, left]
}

/// The number of the only name in `todo`, if there is none in `pid`.
fn only_name<D: CallFs>(disk: &mut D) -> Option<u64> {
    let mut name = NameBuf::new();
    if names_found(disk, &mut name) == [Ok(true), Ok(false), Ok(false)] {
        return undec(name.as_slice());
    }
    None
}

/// What is done over a disk in this directory: the files are injected, and it tells the exit status; or it tells the number of
/// the only name in `todo`, if there is one.
fn told(rt: &HostRuntime, root: &str, is_injection: bool) -> Option<u64> {
    match HostFs::open(rt, rt.alloc(), root.as_bytes()) {
        Ok(mut disk) => {
            let told = if is_injection {
                Some(u64::from(inject_files(rt, root, &mut disk)))
            } else {
                only_name(&mut disk)
            };
            drop(disk);
            told
        }
        Err(_) => None,
    }
}

/// Whether the file of this path holds these bytes.
fn holds(rt: &HostRuntime, path: &str, bytes: &[u8]) -> bool {
    match fs::read(rt, path) {
        Ok(found) => found.as_slice() == bytes,
        Err(_) => false,
    }
}

/// Whether the file of this path holds the message after the first line of this moment.
fn is_dated_at(rt: &HostRuntime, path: &str, moment: u64) -> bool {
    let pid = process::id(rt.process());
    match received(rt.alloc(), pid, Invoked::Uid(0), moment.min(LAST_MOMENT)) {
        Ok(mut text) => {
            let is_whole = text.extend_from_slice(MESSAGE.as_bytes()).is_ok();
            let is_so = is_whole && holds(rt, path, text.as_slice());
            drop(text);
            is_so
        }
        Err(_) => false,
    }
}

/// Whether the message file of this path holds the message after the first line of a moment of that span, at most a
/// minute later than its first.
fn is_dated(rt: &HostRuntime, path: &str, span: (u64, u64)) -> bool {
    for late in 0..60 {
        let moment = span.0.saturating_add(late).min(LAST_MOMENT);
        if moment <= span.1 && is_dated_at(rt, path, moment) {
            return true;
        }
    }
    false
}

/// Whether the file of this path holds the envelope.
fn is_envelope(rt: &HostRuntime, path: &str) -> bool {
    let pid = process::id(rt.process());
    match format!(in rt.alloc(); "u0\0p{pid}\0Fa@x\0Tb@y\0") {
        Ok(text) => holds(rt, path, text.as_bytes()),
        Err(_) => false,
    }
}

/// Whether the file of this path has this number.
fn is_numbered(rt: &HostRuntime, path: &str, number: u64) -> bool {
    match fs::metadata(rt, path) {
        Ok(found) => found.ino() == number,
        Err(_) => false,
    }
}

/// Of the message of this number: whether its file has that number, whether it holds the message, and the envelope.
fn are_whole(rt: &HostRuntime, root: &str, number: u64, span: (u64, u64)) -> [bool; 3] {
    let mess = below(rt, "mess", number % 23);
    let mess_dir = below(rt, root, mess.as_str());
    let todo_dir = below(rt, root, "todo");
    let message = below(rt, mess_dir.as_str(), number);
    let todo = below(rt, todo_dir.as_str(), number);
    let are_whole = [
        is_numbered(rt, message.as_str(), number),
        is_dated(rt, message.as_str(), span),
        is_envelope(rt, todo.as_str()),
    ];
    drop(mess);
    drop(mess_dir);
    drop(todo_dir);
    drop(message);
    drop(todo);
    are_whole
}

/// What is seen of an injection: whether it ended with 0, and of its message as `are_whole`; None if there is no such
/// message.
fn seen(rt: &HostRuntime, root: &str) -> Option<(bool, [bool; 3])> {
    let before = seconds(rt)?;
    let status = told(rt, root, true)?;
    let after = seconds(rt)?;
    let number = told(rt, root, false)?;
    Some((status == 0, are_whole(rt, root, number, (before, after))))
}

#[test]
fn a_message_is_queued_in_a_real_directory(rt: HostRuntime) {
    let root = scratch(&rt, "queue");
    let seen = seen(&rt, root.as_str());
    let is_gone = fs::remove_dir_all(&rt, root.as_str()).is_ok();
    assert!(rt; seen == Some((true, [true; 3])), "{seen:?}");
    assert!(rt; is_gone);
}
