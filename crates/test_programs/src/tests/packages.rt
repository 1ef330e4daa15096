// Packages over a disk in memory, from a source that gives a byte at a time or all at once.

use super::fields::{bytes, field, is_well_formed, number, numbers};
use super::sources::put;
use audit_command::print_audit;
use mem_fs::MemFs;
use outside::{MemClock, MemSink, MemSource, take_up_to};
use qmqp_server::receive;
use queue_paths::queue_dirs;
use std::alloc::Global;

/// What a row may say:
///
/// - `package`: what the source gives, byte by byte or, by `pieces whole`, at once; `letters`: how many letters `a` stand for a
///   `*` in it; `fails`: which of its takings fail;
/// - `lacks`: a directory of the queue that isn't there; `disk_fails`: which calls of the disk fail; `room`: for how many bytes
///   the output has room, 100 if none is told; `moment`: what the clock tells;
/// - `status`: the exit status; `answer`: what the output got; `left`: what the source has left;
/// - `audit`: what an audit prints afterwards, each line with `/` after it; `todo`: what `todo/1` holds, `mess`: how many bytes
///   `mess/1/1` has.
const NAMES: [&str; 14] = [
    "package",
    "pieces",
    "letters",
    "fails",
    "lacks",
    "disk_fails",
    "room",
    "moment",
    "status",
    "answer",
    "left",
    "audit",
    "todo",
    "mess",
];

/// The bytes of a package, with so many letters for each `*`.
fn package_of(alloc: Global, row: &str) -> Vec<u8> {
    let text = bytes(alloc, field(row, "package"));
    let mut all = Vec::new(alloc);
    for byte in text.as_slice() {
        if *byte == b'*' {
            for _ in 0..number(row, "letters", 0) {
                let _ = all.push(b'a');
            }
        } else {
            let _ = all.push(*byte);
        }
    }
    drop(text);
    all
}

/// The source of a row.
fn source_of(alloc: Global, row: &str) -> MemSource {
    let package = package_of(alloc, row);
    let mut pieces = Vec::new(alloc);
    if field(row, "pieces") == "whole" {
        put(alloc, &mut pieces, &package);
    } else {
        for byte in package.as_slice() {
            put(alloc, &mut pieces, &[*byte]);
        }
    }
    drop(package);
    MemSource::new(pieces, numbers(alloc, field(row, "fails")))
}

/// Whether that is all that a source has left.
fn has_left(alloc: Global, source: &mut MemSource, text: &str) -> bool {
    let wanted = bytes(alloc, text);
    let is_so = match take_up_to(alloc, source, 100) {
        Ok((left, _)) => left.as_slice() == wanted.as_slice(),
        Err(_) => false,
    };
    drop(wanted);
    is_so
}

/// Whether a text is that of a row, in which each line ends with `/`.
fn are_lines(found: &[u8], told: &str) -> bool {
    let mut at = 0_usize;
    for byte in told.as_bytes() {
        let wanted = if *byte == b'/' { b'\n' } else { *byte };
        if found.get(at) != Some(&wanted) {
            return false;
        }
        at = at.saturating_add(1);
    }
    at == found.len()
}

/// Whether an audit of a disk prints what a row says.
fn is_audited(alloc: Global, row: &str, disk: &mut MemFs) -> bool {
    match MemSink::new(alloc, 1000, Vec::new(alloc)) {
        Ok(mut out) => {
            let status = print_audit(alloc, disk, &mut out);
            let is_so = are_lines(out.taken(), field(row, "audit"));
            drop(out);
            is_so & (status == 0)
        }
        Err(_) => false,
    }
}

/// Whether the files of the first message are as a row says, if it does.
fn are_files(alloc: Global, row: &str, disk: &MemFs) -> bool {
    let wanted = bytes(alloc, field(row, "todo"));
    let is_so = wanted.is_empty() || disk.bytes_of(b"todo/1") == Some(wanted.as_slice());
    drop(wanted);
    let message = disk.bytes_of(b"mess/1/1").unwrap_or(&[]);
    is_so & (message.len() as u64 == number(row, "mess", message.len() as u64))
}

/// Whether a package over this disk goes so. It owns the source, the sink and the clock, so nothing branches here.
fn receives(alloc: Global, row: &str, disk: &mut MemFs, mut out: MemSink) -> bool {
    let mut source = source_of(alloc, row);
    let mut moments = Vec::new(alloc);
    let _ = moments.push(number(row, "moment", 0));
    let mut clock = MemClock::new(moments, 77);
    let status = receive(alloc, 1000, disk, &mut source, &mut out, &mut clock);
    drop(clock);
    let is_left = has_left(alloc, &mut source, field(row, "left"));
    drop(source);
    let wanted = bytes(alloc, field(row, "answer"));
    let is_answered = out.taken() == wanted.as_slice();
    drop(wanted);
    drop(out);
    (u64::from(status) == number(row, "status", 255)) & is_left & is_answered
}

/// Makes the queue's directories, but for the one that a row lacks. One that can't be made shows in the answer.
fn fill(alloc: Global, row: &str, disk: &mut MemFs, is_lacking: bool) {
    if let Ok(dirs) = queue_dirs(alloc) {
        for dir in dirs.as_slice() {
            if dir.is(field(row, "lacks").as_bytes()) == is_lacking {
                let _ = disk.dir(alloc, dir.as_slice());
            }
        }
        drop(dirs);
    }
}

/// Whether a package goes so over this disk, to this sink. What is lacking is made before the audit.
fn is_kept(alloc: Global, row: &str, disk: &mut MemFs, out: MemSink) -> bool {
    fill(alloc, row, disk, false);
    let is_so = receives(alloc, row, disk, out);
    fill(alloc, row, disk, true);
    is_so & are_files(alloc, row, disk) & is_audited(alloc, row, disk)
}

/// Whether a package goes as the row says over a new disk.
fn is_right(alloc: Global, row: &str) -> bool {
    let failing = numbers(alloc, field(row, "disk_fails"));
    let room = number(row, "room", 100) as usize;
    match (
        MemFs::new(alloc, Vec::new(alloc), failing),
        MemSink::new(alloc, room, Vec::new(alloc)),
    ) {
        (Ok(mut disk), Ok(out)) => {
            let is_so = is_kept(alloc, row, &mut disk, out);
            drop(disk);
            is_so & is_well_formed(alloc, row, &NAMES)
        }
        _ => false,
    }
}

/// The first row that goes otherwise, if there is one. A line that begins with `#` is a comment.
fn first_wrong(alloc: Global, rows: &'static str) -> Option<&'static str> {
    for row in rows.lines() {
        if !row.starts_with('#') && !is_right(alloc, row) {
            return Some(row);
        }
    }
    None
}

/// Packages that are whole.
const WHOLE: &str = "# a worked one, at once and byte by byte
package 18:3:hi%0A,3:a@x,3:b@y,,; pieces whole; status 0; answer 11:Kok 0 qp 77,; audit pid 0/1 S4/; todo u1000%00p77%00Fa@x%00Tb@y%00; mess 71
package 18:3:hi%0A,3:a@x,3:b@y,,; status 0; answer 11:Kok 0 qp 77,; audit pid 0/1 S4/; todo u1000%00p77%00Fa@x%00Tb@y%00; mess 71
package 18:3:hi%0A,3:a@x,3:b@y,,; moment 250000000000; status 0; answer 22:Kok 250000000000 qp 77,; audit pid 0/1 S4/
# another one after it stays unread, and not a byte of it is taken
package 18:3:hi%0A,3:a@x,3:b@y,,18:3:ho%0A,3:a@x,3:b@y,,; status 0; answer 11:Kok 0 qp 77,; left 18:3:ho%0A,3:a@x,3:b@y,,; audit pid 0/1 S4/
package 18:3:hi%0A,3:a@x,3:b@y,,; fails 23; status 0; answer 11:Kok 0 qp 77,; audit pid 0/1 S4/
# no recipients; an empty sender, message and recipient
package 12:3:hi%0A,3:a@x,,; status 0; answer 11:Kok 0 qp 77,; audit pid 0/1 S4/; todo u1000%00p77%00Fa@x%00
package 9:0:,0:,0:,,; status 0; answer 11:Kok 0 qp 77,; audit pid 0/1 S4/; todo u1000%00p77%00F%00T%00; mess 68
# an address of 1002 bytes
package 1019:2:hi,1002:*,3:b@y,,; letters 1002; status 0; answer 11:Kok 0 qp 77,; audit pid 0/1 S4/";

/// Whole ones that are refused for an address.
const ADDRESSES: &str = "# one has 1003 bytes
package 1020:2:hi,1003:*,3:b@y,,; letters 1003; status 0; answer 10:Dstatus 11,; audit pid 0/
package 1020:2:hi,3:a@x,1003:*,,x; letters 1003; status 0; answer 10:Dstatus 11,; left x; audit pid 0/
# a NUL is in a recipient, in the sender, at an end, and beside an address that is too long
package 23:3:hi%0A,3:a@x,8:b%00Tevil@,,; status 0; answer 12:Dbad address,; audit pid 0/
package 24:3:hi%0A,3:a@x,9:b%00Tevil@x,,; status 0; answer 12:Dbad address,; audit pid 0/
package 24:3:hi%0A,3:a@x,9:b%00Tevil@x,,; pieces whole; status 0; answer 12:Dbad address,; audit pid 0/
package 18:3:hi%0A,3:a%00x,3:b@y,,; status 0; answer 12:Dbad address,; audit pid 0/
package 18:3:hi%0A,3:a@x,3:b@%00,,z; status 0; answer 12:Dbad address,; left z; audit pid 0/
package 1020:2:hi,1003:*,3:b%00y,,; letters 1003; status 0; answer 12:Dbad address,; audit pid 0/
package 1021:2:hi,1004:*%00,3:b@y,,; letters 1003; status 0; answer 12:Dbad address,; audit pid 0/";

/// What is no package.
const NONE: &str = "status 54; audit pid 0/
package 18:3:hi%0A,3:a@x,3:b@y,; status 54; audit pid 0/
package 18:3:hi%0A,3:a@x,3:b@y,.; status 91; audit pid 0/
package 18:3:hi%0A,3:a@x.3:b@y,,; status 91; left 3:b@y,,; audit pid 0/
package 18:3:hi%0A,3:a@x,3:b@y.,; status 91; left ,; audit pid 0/
package 18:3:hi%0A.3:a@x,3:b@y,,; status 91; left 3:a@x,3:b@y,,; audit pid 0/
# no netstring, one, and one with a byte after it
package 0:,; status 91; left ,; audit pid 0/
package 6:3:hi%0A,,; status 91; left ,; audit pid 0/
package 7:3:hi%0A,3,; status 91; left ,; audit pid 0/
package 1:3; status 91; audit pid 0/
# one that runs past the content, by its comma, or further
package 17:3:hi%0A,3:a@x,3:b@y,,; status 91; left b@y,,; audit pid 0/
package 18:3:hi%0A,3:a@x,4:b@yz,,; status 91; left b@yz,,; audit pid 0/
package 18:3:hi%0A,18446744073709551615:a@x; status 91; left 09551615:a@x; audit pid 0/
package 28:3:hi%0A,18446744073709551615:a@x; status 91; left a@x; audit pid 0/
package 18:18446744073709551615:a@x; status 91; left 15:a@x; audit pid 0/
package 21:18446744073709551615:a@x; status 91; left a@x; audit pid 0/
package 28:3:hi%0A,18446744073709551616:; status 91; left :; audit pid 0/
# bytes that no head has there
package 018:3:hi%0A,3:a@x,3:b@y,,; status 91; left 8:3:hi%0A,3:a@x,3:b@y,,; audit pid 0/
package 18:03:hi%0A,3:a@x,3:b@y,,; status 91; left :hi%0A,3:a@x,3:b@y,,; audit pid 0/
package 18:3:hi%0A,3:a@x,x; status 91; audit pid 0/
package x; status 91; audit pid 0/
package :; status 91; audit pid 0/
# lengths at the limits
package 1073741824:; status 54; audit pid 0/
package 1073741824:3:hi%0A,; status 54; audit pid 0/
package 1073741825:3:hi%0A,; status 31; left 3:hi%0A,; audit pid 0/
package 18446744073709551615:3:hi%0A,; status 31; left 3:hi%0A,; audit pid 0/
package 18446744073709551616:; status 91; left :; audit pid 0/
# a NUL, or an address that is too long, before the fault
package 18:3:hi%0A,3:a%00x,3:b@y,.; status 91; audit pid 0/
package 18:3:hi%0A,3:a%00x,3:b@y,; status 54; audit pid 0/
package 1020:2:hi,1003:*,3:b@y,.; letters 1003; status 91; audit pid 0/";

/// Packages whose injector, source or sink fails.
const FAILURES: &str = "# the first call fails, and the rest is read
package 18:3:hi%0A,3:a@x,3:b@y,,; disk_fails 1; status 0; answer 10:Zstatus 63,; audit pid 0/
package 18:3:hi%0A,3:a@x,3:b@y,.; disk_fails 1; status 91; audit pid 0/
package 18:3:hi%0A,3:a@x,3:b@y,; disk_fails 1; status 54; audit pid 0/
package 18:3:hi%0A,3:a%00x,3:b@y,,; disk_fails 1; status 0; answer 12:Dbad address,; audit pid 0/
package 1000015:1000000:*,3:a@x,,; letters 1000000; pieces whole; disk_fails 1; status 0; answer 10:Zstatus 63,; audit pid 0/
package 1000015:1000000:*,3:a@x,.; letters 1000000; pieces whole; disk_fails 1; status 91; audit pid 0/
# a directory is missing
package 18:3:hi%0A,3:a@x,3:b@y,,; lacks pid; status 0; answer 10:Zstatus 63,; audit pid 0/
package 18:3:hi%0A,3:a@x,3:b@y,,; lacks mess/1; status 0; answer 10:Zstatus 64,; audit pid 1/
package 18:3:hi%0A,3:a@x,3:b@y,,; lacks intd; status 0; answer 10:Zstatus 65,; audit pid 0/
package 18:3:hi%0A,3:a@x,3:b@y,,; lacks todo; status 0; answer 10:Zstatus 66,; audit pid 0/1 S3/
# a write fails: the disk is full
package 18:3:hi%0A,3:a@x,3:b@y,,; disk_fails 4; status 0; answer 10:Zstatus 53,; audit pid 0/
package 18:3:hi%0A,3:a@x,3:b@y,,; disk_fails 7; status 0; answer 10:Zstatus 53,; audit pid 0/
# the source fails, in the message, in an address, and in place of the last comma
package 18:3:hi%0A,3:a@x,3:b@y,,; fails 6; status 54; left hi%0A,3:a@x,3:b@y,,; audit pid 0/
package 18:3:hi%0A,3:a@x,3:b@y,,; fails 13; status 54; left @x,3:b@y,,; audit pid 0/
package 18:3:hi%0A,3:a@x,3:b@y,,; fails 22; status 54; left ,; audit pid 0/
# the sink fails after the message was queued
package 18:3:hi%0A,3:a@x,3:b@y,,; room 5; status 53; answer 11:Ko; audit pid 0/1 S4/";

#[test]
fn packages_go_as_the_rows_say(rt: HostRuntime) {
    for rows in [WHOLE, ADDRESSES, NONE, FAILURES] {
        assert_eq!(rt; first_wrong(rt.alloc(), rows), None);
    }
}
