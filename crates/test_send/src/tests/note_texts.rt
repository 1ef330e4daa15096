// Notes, and the addresses that a bounce file names.

use bounce_record::{note, notes_of};
use mail_bytes::ByteText;
use std::alloc::Global;

/// An address and a report, and their note.
const NOTES: [(&[u8], &[u8], &[u8]); 17] = [
    (b"r", b"a\n\nb", b"<r>:\na\n/b\n\n"),
    (b"b@y", b"no", b"<b@y>:\nno\n\n"),
    (b"b@y", b"no\n", b"<b@y>:\nno\n\n"),
    (b"r", b"", b"<r>:\n\n"),
    (b"", b"x", b"<>:\nx\n\n"),
    // Two, three and four newlines at the beginning, after that of the first line.
    (b"r", b"\n\nb", b"<r>:\n//b\n\n"),
    (b"r", b"\n\n\nb", b"<r>:\n///b\n\n"),
    (b"r", b"\n\n\n\nb", b"<r>:\n////b\n\n"),
    // In the middle.
    (b"r", b"a\n\n\nb", b"<r>:\na\n//b\n\n"),
    (b"r", b"a\n\n\n\nb", b"<r>:\na\n///b\n\n"),
    // At the end, where the last one stays.
    (b"r", b"a\n\n", b"<r>:\na\n\n\n"),
    (b"r", b"a\n\n\n", b"<r>:\na\n/\n\n"),
    (b"r", b"a\n\n\n\n", b"<r>:\na\n//\n\n"),
    (b"r", b"\n", b"<r>:\n\n\n"),
    (b"r", b"\n\n", b"<r>:\n/\n\n"),
    // Newlines in the address, and a report that looks like a note.
    (b"a\nb\n@x", b"no", b"<a_b_@x>:\nno\n\n"),
    (b"r", b"x\n\n<s>:\ny\xff", b"<r>:\nx\n/<s>:\ny\xff\n\n"),
];

/// Bytes of a bounce file, and the addresses that they name.
const FILES: [(&[u8], &[&[u8]]); 13] = [
    (b"", &[]),
    (b"<a@x>:\nno\n\n<b@y>:\n\n", &[b"a@x", b"b@y"]),
    (b"<a>:\nno\n\n<a>:\nno\n\n", &[b"a", b"a"]),
    (b"<a>:\n<b>:\n\n", &[b"a"]),
    (b"x\n<a>:\n\n", &[]),
    (b"\n\n\n<a>:", &[b"a"]),
    (b"<>:\n", &[b""]),
    (b"<x>y>:\n\n<:\n", &[b"x>y"]),
    (b"<a>\n\na>:\n\n <b>:\n", &[]),
    (b"<a>: \n\n<b>:\r\n\n<c>:x\n", &[]),
    // A note after a file that has lost its end.
    (b"<a>:\nno\n\n\n<b>:\n\n", &[b"a", b"b"]),
    (b"<a>:\n\n<b>:\n\n", &[b"a", b"b"]),
    (b"<r>:\nx\n/<s>:\ny\n\n", &[b"r"]),
];

#[test]
fn notes_are_as_the_format_says(rt: HostRuntime) {
    for (address, report, text) in &NOTES {
        let found = note(rt.alloc(), address, report);
        assert!(rt;
            found.is_ok_and(|found| found.as_slice() == *text),
            "{address:?} {report:?}"
        );
    }
}

/// Whether the bytes name these addresses.
fn names(alloc: Global, bytes: &[u8], addresses: &[&[u8]]) -> bool {
    match notes_of(alloc, bytes) {
        Ok(found) => are_all(&found, addresses),
        Err(_) => false,
    }
}

/// Whether these are the addresses, in order.
fn are_all(found: &[ByteText], addresses: &[&[u8]]) -> bool {
    found.len() == addresses.len()
        && found
            .iter()
            .zip(addresses)
            .all(|(text, address)| text.is(address))
}

#[test]
fn paragraphs_name_their_addresses(rt: HostRuntime) {
    for (bytes, addresses) in &FILES {
        assert!(rt; names(rt.alloc(), bytes, addresses), "{bytes:?}");
    }
}
