// What a sender needs, as a text.

use call_fs::{Call, Child, How, Need, Port};
use mail_bytes::{Memory, dec, escape};
use send_jobs::{Mark, Marks};
use std::alloc::Global;

/// Puts a word after a text, if it isn't empty.
fn put(alloc: Global, text: &mut Vec<u8>, word: &[u8]) -> Result<(), Memory> {
    if word.is_empty() {
        return Ok(());
    }
    text.push(b' ')?;
    put_escaped(alloc, text, word)
}

/// Puts bytes after a text, with escapes.
pub(crate) fn put_escaped(alloc: Global, text: &mut Vec<u8>, bytes: &[u8]) -> Result<(), Memory> {
    match escape(alloc, bytes) {
        Ok(escaped) => {
            let end = text.extend_from_slice(escaped.as_slice());
            drop(escaped);
            end
        }
        Err(memory) => Err(memory),
    }
}

/// Puts a number after a text.
fn put_number(alloc: Global, text: &mut Vec<u8>, n: u64) -> Result<(), Memory> {
    let mut digits = [0; 20];
    let len = dec(n, &mut digits);
    put(alloc, text, &digits[..len])
}

/// Writes a first word and two more, of which empty ones don't count.
fn write(
    alloc: Global,
    text: &mut Vec<u8>,
    first: &[u8],
    second: &[u8],
    third: &[u8],
) -> Result<(), Memory> {
    text.extend_from_slice(first)?;
    put(alloc, text, second)?;
    put(alloc, text, third)
}

/// Writes a first word, numbers, and a last word if it isn't empty.
fn write_numbers(
    alloc: Global,
    text: &mut Vec<u8>,
    first: &[u8],
    numbers: &[u64],
    last: &[u8],
) -> Result<(), Memory> {
    text.extend_from_slice(first)?;
    put_numbers(alloc, text, numbers)?;
    put(alloc, text, last)
}

/// Puts numbers after a text.
fn put_numbers(alloc: Global, text: &mut Vec<u8>, numbers: &[u64]) -> Result<(), Memory> {
    for n in numbers {
        put_number(alloc, text, *n)?;
    }
    Ok(())
}

/// Writes what is needed.
pub(crate) fn write_need(alloc: Global, text: &mut Vec<u8>, need: Need<'_>) -> Result<(), Memory> {
    match need {
        Need::File(call) => write_call(alloc, text, call),
        Need::Take(port) => write(alloc, text, b"take", port_word(port), b""),
        Need::Give(port, bytes) => write(alloc, text, b"give", port_word(port), bytes),
        Need::Ended(status) => { write_numbers(alloc, text, b"ended", &[u64::from(status)], b"") }
        Need::Wait => write(alloc, text, b"wait", b"", b""),
        Need::Start(Child::Bounce { room }) => {
            write_numbers(alloc, text, b"start bounce", &[room], b"")
        }
        Need::Start(_) => write(alloc, text, b"start", b"", b""),
        Need::Command(_) => write(alloc, text, b"command", b"", b""),
    }
}

/// Writes the marks that are to be made on a channel of this name, each as its message and its place.
pub(crate) fn write_marks(
    alloc: Global,
    text: &mut Vec<u8>,
    name: &str,
    marks: &Marks,
) -> Result<(), Memory> {
    text.extend_from_slice(name.as_bytes())?;
    for ahead in 0..marks.len() {
        put_mark(alloc, text, marks.get(ahead))?;
    }
    Ok(())
}

/// Puts a mark, if there is one.
fn put_mark(alloc: Global, text: &mut Vec<u8>, mark: Option<&Mark>) -> Result<(), Memory> {
    match mark {
        Some(mark) => {
            put_number(alloc, text, mark.attempt.n)?;
            put_number(alloc, text, mark.attempt.place)
        }
        None => Ok(()),
    }
}

/// What a pipe of the sender is called.
fn port_word(port: Port) -> &'static [u8] {
    match port {
        Port::Clean => b"clean",
        Port::Lspawn => b"lspawn",
        Port::Rspawn => b"rspawn",
        Port::Program(0) => b"program",
        Port::Status(0) => b"status",
        _ => b"other",
    }
}

/// Writes a file call.
fn write_call(alloc: Global, text: &mut Vec<u8>, call: Call<'_>) -> Result<(), Memory> {
    match call {
        Call::CreateExcl(name) => write(alloc, text, b"create", name, b""),
        Call::Open(name, how) => write(alloc, text, b"open", name, how_word(how)),
        Call::Link(name, new) => write(alloc, text, b"link", name, new),
        Call::Unlink(name) => write(alloc, text, b"unlink", name, b""),
        Call::Stat(name) => write(alloc, text, b"stat", name, b""),
        Call::NextName(dir, after) => write(alloc, text, b"next", dir, after),
        held => write_held(alloc, text, held),
    }
}

/// What a file is opened for, as a word.
fn how_word(how: How) -> &'static [u8] {
    match how {
        How::Read => b"r",
        How::Write => b"w",
        How::Append => b"a",
    }
}

/// Writes a call on a file that is open; of a read the length, if it isn't that of a piece.
fn write_held(alloc: Global, text: &mut Vec<u8>, call: Call<'_>) -> Result<(), Memory> {
    match call {
        Call::ReadAt(fd, at, 8192) => write_numbers(alloc, text, b"read", &[fd.0, at], b""),
        Call::ReadAt(fd, at, len) => write_numbers(alloc, text, b"read", &[fd.0, at, len], b""),
        Call::WriteAt(fd, at, bytes) => write_numbers(alloc, text, b"write", &[fd.0, at], bytes),
        Call::Append(fd, bytes) => write_numbers(alloc, text, b"append", &[fd.0], bytes),
        Call::Sync(fd) => write_numbers(alloc, text, b"sync", &[fd.0], b""),
        Call::Close(fd) => write_numbers(alloc, text, b"close", &[fd.0], b""),
        _ => write(alloc, text, b"other", b"", b""),
    }
}
