// Injections over a disk in memory that keeps its calls, from sources that give a byte at a time or all at once.

use super::fields::{
    bytes, field, is_well_formed, named, none_is_wrong, number, number_of, numbers, repeated,
};
use super::sources::put;
use call_fs::{CallData, Fd, Recorded, Recorder};
use mem_fs::MemFs;
use outside::{MemClock, MemSource, take_up_to};
use queue_command::{Form, inject};
use received_line::Invoked;
use std::alloc::Global;

/// What a row may say:
///
/// - `form`: whether the envelope comes `beside` the message, or both as `netstrings`;
/// - `message`, `envelope`: what the two sources give, byte by byte or, by `pieces whole`, at once; `times`: how often the
///   envelope's text comes; `fails`: which takings of the message fail;
/// - `status`: the exit status; `calls`: the calls, and then `left` and `envelope_left` are what the sources have left.
///   `refused`: those of a message of which no text was written before its fault was found; `refused N`: those of a whole
///   message with a file of N bytes, and of an envelope of which no text was written; `queued N M`: those of a message that is
///   queued, whose files have so many bytes;
/// - `queued`: whether the message stands in the queue, `yes` or `no`;
/// - `enough`: with how many bytes in all the message is queued.
const NAMES: [&str; 12] = [
    "form",
    "pieces",
    "message",
    "envelope",
    "times",
    "fails",
    "status",
    "calls",
    "left",
    "envelope_left",
    "queued",
    "enough",
];

/// What is given of a row: the bytes of both sources, which taking of each fails too, none if it is 0; and the status.
#[derive(Clone, Copy)]
struct Given<'a> {
    message: &'a [u8],
    envelope: &'a [u8],
    fault: u64,
    status: u64,
}

/// What a message file holds.
const MESSAGE: &[u8] = b"Received: (qmail 77 invoked by uid 1000); 1 Jan 1970 00:00:00 -0000\nhi";

/// What its envelope's todo file holds.
const ENTRY: &[u8] = b"u1000\0p77\0Fa@x\0Tb@y\0";

/// The calls of an injection whose message is refused.
const REFUSED: &str = "create pid/77.0.1
link pid/77.0.1 mess/1/1
unlink pid/77.0.1
unlink mess/1/1";

/// Those of one whose envelope is refused after its message file.
const ENVELOPE_REFUSED: &str = "create pid/77.0.1
link pid/77.0.1 mess/1/1
unlink pid/77.0.1
append 1
sync 1
create intd/1
unlink intd/1
unlink mess/1/1";

/// Those of one that queues its message.
const QUEUED: &str = "create pid/77.0.1
link pid/77.0.1 mess/1/1
unlink pid/77.0.1
append 1
sync 1
create intd/1
append 2
sync 2
link intd/1 todo/1";

/// The calls that a row says.
fn lines_of(told: &str) -> &'static str {
    match named(told) {
        ("queued", _) => QUEUED,
        (_, "") => REFUSED,
        _ => ENVELOPE_REFUSED,
    }
}

/// How many bytes a row says of the file of this descriptor.
fn count_of(told: &str, fd: u64) -> u64 {
    let (_, counts) = named(told);
    let (first, second) = named(counts);
    number_of(if fd == 1 { first } else { second })
}

/// Whether this call is that of a line; of an append the row says the count of bytes.
fn is_made(call: &CallData, line: &str, told: &str) -> bool {
    let (kind, rest) = named(line);
    let (first, second) = named(rest);
    match (call, kind) {
        (CallData::CreateExcl(name), "create") => name.is(first.as_bytes()),
        (CallData::Link(old, new), "link") => old.is(first.as_bytes()) && new.is(second.as_bytes()),
        (CallData::Unlink(name), "unlink") => name.is(first.as_bytes()),
        (CallData::Append(Fd(fd), bytes), "append") => {
            *fd == number_of(first) && bytes.len() as u64 == count_of(told, *fd)
        }
        (CallData::Sync(Fd(fd)), "sync") => *fd == number_of(first),
        _ => false,
    }
}

/// Whether these are the calls that a row says, and no others.
fn are_made(calls: &[Recorded], told: &str) -> bool {
    let mut at = 0_usize;
    for line in lines_of(told).lines() {
        let is_so = match calls.get(at) {
            Some(recorded) => is_made(&recorded.call, line, told),
            None => false,
        };
        if !is_so {
            return false;
        }
        at = at.saturating_add(1);
    }
    at == calls.len()
}

/// Whether that is all that a source has left.
fn has_left(alloc: Global, source: &mut MemSource, text: &str) -> bool {
    let wanted = bytes(alloc, text);
    let is_so = match take_up_to(alloc, source, 100) {
        Ok((left, _)) => left.as_slice() == wanted.as_slice(),
        Err(_) => false,
    };
    drop(wanted);
    is_so
}

/// Whether the file of this name holds these bytes.
fn holds(disk: &MemFs, name: &[u8], bytes: &[u8]) -> bool {
    match disk.bytes_of(name) {
        Some(found) => found == bytes,
        None => false,
    }
}

/// Whether the first message stands in the queue as the row says, if it does.
fn is_queued(row: &str, disk: &MemFs) -> bool {
    let is_there = holds(disk, b"mess/1/1", MESSAGE) & holds(disk, b"todo/1", ENTRY);
    match field(row, "queued") {
        "yes" => is_there,
        "no" => !is_there,
        _ => true,
    }
}

/// Whether the calls, and what is left, are as the row says, if it does.
fn is_seen(
    alloc: Global,
    row: &str,
    disk: &Recorder<MemFs>,
    message: &mut MemSource,
    envelope: &mut MemSource,
) -> bool {
    field(row, "calls").is_empty()
        || are_made(disk.calls().unwrap_or(&[]), field(row, "calls"))
            & has_left(alloc, message, field(row, "left"))
            & has_left(alloc, envelope, field(row, "envelope_left"))
}

/// A source of these bytes, in which these takings fail, and this one if it isn't 0.
fn source_of(alloc: Global, row: &str, bytes: &[u8], fails: &str, fault: u64) -> MemSource {
    let mut pieces = Vec::new(alloc);
    if field(row, "pieces") == "whole" {
        put(alloc, &mut pieces, bytes);
    } else {
        for byte in bytes {
            put(alloc, &mut pieces, &[*byte]);
        }
    }
    let mut failing = numbers(alloc, fails);
    let _ = failing.push(fault);
    MemSource::new(pieces, failing)
}

/// How a row's message and envelope are given.
fn form_of(row: &str) -> Form {
    match field(row, "form") {
        "netstrings" => Form::Netstrings,
        _ => Form::Beside,
    }
}

/// Whether an injection over this disk goes so. It owns the sources and the clock, so nothing branches here.
fn injects(alloc: Global, row: &str, given: Given<'_>, disk: &mut Recorder<MemFs>) -> bool {
    let fails = field(row, "fails");
    let mut message = source_of(alloc, row, given.message, fails, given.fault);
    let mut envelope = source_of(alloc, row, given.envelope, "", given.fault);
    let mut clock = MemClock::new(Vec::new(alloc), 77);
    let status = inject(
        alloc,
        1000,
        Invoked::Uid(1000),
        form_of(row),
        disk,
        &mut message,
        &mut envelope,
        &mut clock,
    );
    drop(clock);
    let is_seen = is_seen(alloc, row, disk, &mut message, &mut envelope);
    drop(message);
    drop(envelope);
    (u64::from(status) == given.status) & is_seen & is_queued(row, disk.disk())
}

/// Makes the queue's directories. One that can't be made shows in the answer.
fn fill(alloc: Global, disk: &mut MemFs) {
    for directory in [b"pid".as_slice(), b"mess/1", b"intd", b"todo"] {
        let _ = disk.dir(alloc, directory);
    }
}

/// Whether an injection over a new disk goes so.
fn injects_anew(alloc: Global, row: &str, given: Given<'_>) -> bool {
    match MemFs::new(alloc, Vec::new(alloc), Vec::new(alloc)) {
        Ok(mut disk) => {
            fill(alloc, &mut disk);
            let mut disk = Recorder::new(alloc, disk);
            let is_so = injects(alloc, row, given, &mut disk);
            drop(disk);
            is_so
        }
        Err(_) => false,
    }
}

/// Whether its input that ends, or else fails, after each number of bytes has the status of an unread one while there aren't
/// enough.
fn are_cut(alloc: Global, row: &str, message: &[u8], envelope: &[u8]) -> bool {
    let mut are_so = true;
    for count in 0..=message.len().saturating_add(envelope.len()) {
        let first = count.min(message.len());
        let second = count.saturating_sub(first).min(envelope.len());
        let is_enough = count as u64 >= number(row, "enough", 0);
        let failed = Given {
            message,
            envelope,
            fault: (count as u64).saturating_add(1),
            status: if is_enough { 0 } else { 54 },
        };
        let cut = Given {
            message: &message[..first],
            envelope: &envelope[..second],
            fault: 0,
            ..failed
        };
        are_so &= injects_anew(alloc, row, cut) & injects_anew(alloc, row, failed);
    }
    are_so
}

/// Whether an injection goes as the row says.
fn is_right(alloc: Global, row: &str) -> bool {
    let message = bytes(alloc, field(row, "message"));
    let envelope = repeated(alloc, row, "envelope");
    let is_so = if field(row, "enough").is_empty() {
        let given = Given {
            message: &message,
            envelope: &envelope,
            fault: 0,
            status: number(row, "status", 255),
        };
        injects_anew(alloc, row, given)
    } else {
        are_cut(alloc, row, &message, &envelope)
    };
    drop(message);
    drop(envelope);
    is_so & is_well_formed(alloc, row, &NAMES)
}

/// The first row that goes otherwise, if there is one. A line that begins with `#` is a comment.
fn first_wrong(alloc: Global, rows: &'static str) -> Option<&'static str> {
    for row in rows.lines() {
        if !row.starts_with('#') && !is_right(alloc, row) {
            return Some(row);
        }
    }
    None
}

/// An injection of each form.
const WHOLE: &str =
    "form beside; pieces whole; message hi; envelope Fa@x%00Tb@y%00%00; status 0; queued yes
form netstrings; pieces whole; message 2:hi,11:Fa@x%00Tb@y%00%00,; status 0; queued yes
form beside; pieces whole; message hi; envelope X; status 91; queued no";

/// A message and its envelope, byte by byte. A message's file begins with 68 bytes.
const INPUTS: &str = "form beside; message hi; envelope Fa%00Tb%00%00; status 0; calls queued 70 16
# an envelope is read after a whole message alone
form beside; message hi; envelope Fa%00Tb%00%00; fails 2; status 54; calls refused; left i; envelope_left Fa%00Tb%00%00
form netstrings; message 2:hi,7:Fa%00Tb%00%00,; envelope not%20read; status 0; calls queued 70 16; left ,; envelope_left not%20read
form netstrings; message 2:hi,7:Fa%00; status 54; calls refused 70
form netstrings; message 2:hi.7:Fa%00Tb%00%00,; status 91; calls refused; left 7:Fa%00Tb%00%00,
form netstrings; message 2:hi,7%3B; status 91; calls refused 70
# the first worked row, a byte at a time
form beside; message hi%0A; envelope Fa@x%00Tb@y%00%00; status 0; calls queued 71 20
# after a whole envelope no comma is looked for
form netstrings; message 3:hi%0A,11:Fa@x%00Tb@y%00%00X; status 0; calls queued 71 20; left X
# an envelope whose netstring ends before it does
form netstrings; message 3:hi%0A,10:Fa@x%00Tb@y%00,; status 54; calls refused 71
# of an envelope nothing is taken after its first fault: an address has at most 1002 bytes
form beside; message hi; envelope F; times 1054; status 11; calls refused 70; envelope_left FFFFFFFFFFFFFFFFFFFFFFFFFFFFFFFFFFFFFFFFFFFFFFFFFF";

/// A message's netstring that no envelope follows. The file of a message that is whole has 68 bytes and its value.
const NETSTRINGS: &str = "# whole, after which `x` is no head
form netstrings; message 3:abc,xy; status 91; calls refused 71; left y
form netstrings; message 0:,; status 54; calls refused 68
form netstrings; message 3:abc; status 54; calls refused
form netstrings; message 3:hi; status 54; calls refused
form netstrings; status 54; calls refused
form netstrings; message 12; status 54; calls refused
form netstrings; message 3:hi,x; status 91; calls refused
form netstrings; message 03:abc,; status 91; calls refused; left :abc,
form netstrings; message 3abc,; status 91; calls refused; left bc,
form netstrings; message 18446744073709551616:; status 91; calls refused; left :
form netstrings; message 18446744073709551615:abc; status 54; calls refused";

#[test]
fn injections_go_as_the_rows_say(rt: HostRuntime) {
    for rows in [WHOLE, INPUTS, NETSTRINGS] {
        none_is_wrong(&rt, first_wrong(rt.alloc(), rows));
    }
}

/// Inputs that end or fail at each of their bytes, and the bytes after which nothing is missing.
const CUTS: &str = "# the comma after the envelope isn't needed
form netstrings; message 2:hi,11:Fa@x%00Tb@y%00%00,; enough 19
form beside; envelope Fa@x%00Tb@y%00%00; enough 11";

#[test]
fn an_input_that_is_cut_is_unread(rt: HostRuntime) {
    none_is_wrong(&rt, first_wrong(rt.alloc(), CUTS));
}
