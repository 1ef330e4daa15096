// The first request of some bytes.

use mail_bytes::Memory;
use spawn_protocol::{Cut, Request, cut_request};
use std::alloc::Global;

/// A request: its delivery number, its three fields, and how many bytes it has.
type Row = (u8, &'static [u8], &'static [u8], &'static [u8], usize);

/// Bytes with their first request; none if it isn't whole.
const CUTS: [(&[u8], Option<Row>); 6] = [
    (b"", None),
    (b"\x035/28\0a@x\0b@y", None),
    (
        b"\x035/28\0a@x\0b@y\0",
        Some((3, b"5/28", b"a@x", b"b@y", 14)),
    ),
    // what follows a request may be any bytes
    (
        b"\x035/28\0a@x\0b@y\0\x07",
        Some((3, b"5/28", b"a@x", b"b@y", 14)),
    ),
    (
        b"\0\x31/24\0\0r@h\0\x770/23\0#@[]\0p\0",
        Some((0, b"1/24", b"", b"r@h", 11)),
    ),
    (b"\0\0\0\0\0\0\0\0", Some((0, b"", b"", b"", 4))),
];

/// Whether the request is this one.
fn is_row(request: &Request, count: usize, row: &Row) -> bool {
    request.slot == row.0
        && request.mess.is(row.1)
        && request.sender.is(row.2)
        && request.recipient.is(row.3)
        && count == row.4
}

/// Whether the first request is this one.
fn is_cut(alloc: Global, bytes: &[u8], first: &Option<Row>) -> bool {
    match cut_request(alloc, bytes) {
        Ok(Cut::Whole(request, count)) => match first {
            Some(row) => is_row(&request, count, row),
            None => false,
        },
        Ok(Cut::More) => first.is_none(),
        Ok(Cut::TooLong) | Err(_) => false,
    }
}

#[test]
fn the_first_request_is_cut_off(rt: HostRuntime) {
    for (bytes, first) in &CUTS {
        assert!(rt; is_cut(rt.alloc(), bytes, first), "{bytes:?}");
    }
}

/// Fields before a long one, with their number.
const BEFORE: [&[u8]; 3] = [b"\x05", b"\x05m\0", b"\x05m\0s\0"];

/// The longest field.
const LONG: [u8; 4096] = [b'a'; 4096];

/// These bytes, the longest field, and these.
fn text_of(alloc: Global, before: &[u8], after: &[u8]) -> Result<Vec<u8>, Memory> {
    let mut text = Vec::new(alloc);
    text.extend_from_slice(before)?;
    text.extend_from_slice(&LONG)?;
    text.extend_from_slice(after)?;
    Ok(text)
}

/// Whether these bytes have a field that is too long; none if out of memory.
fn is_too_long(alloc: Global, before: &[u8], after: &[u8]) -> Option<bool> {
    match text_of(alloc, before, after) {
        Ok(text) => match cut_request(alloc, text.as_slice()) {
            Ok(Cut::TooLong) => Some(true),
            Ok(Cut::More | Cut::Whole(_, _)) => Some(false),
            Err(_) => None,
        },
        Err(_) => None,
    }
}

#[test]
fn a_field_of_4097_bytes_is_too_long(rt: HostRuntime) {
    for before in &BEFORE {
        let full = is_too_long(rt.alloc(), before, b"");
        let over = is_too_long(rt.alloc(), before, b"b\0s\0r\0");
        assert!(rt; full == Some(false) && over == Some(true), "{before:?}");
    }
}
