// Bytes as printable text.

use mail_bytes::{EscapeError, escape, unescape};
use std::alloc::Global;

/// Bytes, and how they are printed.
const PRINTED: [(&[u8], &[u8]); 4] = [
    (b"hi\n", b"hi%0A"),
    (b"a b%", b"a%20b%25"),
    (b"~\x7f\xff\0", b"~%7F%FF%00"),
    (b"", b""),
];

/// Bytes, and other texts that stand for them.
const READ: [(&[u8], &[u8]); 1] = [(b" \n\xff", b" %0a%Ff")];

/// Texts with a bad escape, and its place.
const BAD: [(&[u8], usize); 5] = [
    (b"%", 0),
    (b"a%4", 1),
    (b"%41%zz", 3),
    (b"%4g", 0),
    (b"%%41", 0),
];

/// Whether the text stands for these bytes.
fn stands_for(alloc: Global, text: &[u8], bytes: &[u8]) -> bool {
    match unescape(alloc, text) {
        Ok(read) => read.as_slice() == bytes,
        Err(_) => false,
    }
}

/// Whether the bytes are printed so.
fn is_printed(alloc: Global, bytes: &[u8], text: &[u8]) -> bool {
    match escape(alloc, bytes) {
        Ok(printed) => printed.as_slice() == text,
        Err(_) => false,
    }
}

#[test]
fn bytes_are_printed_and_read_back(rt: HostRuntime) {
    for (bytes, text) in &PRINTED {
        let is_exact = is_printed(rt.alloc(), bytes, text) && stands_for(rt.alloc(), text, bytes);
        assert!(rt; is_exact, "{text:?}");
    }
}

#[test]
fn other_texts_are_read(rt: HostRuntime) {
    for (bytes, text) in &READ {
        assert!(rt; stands_for(rt.alloc(), text, bytes), "{text:?}");
    }
}

#[test]
fn the_first_bad_escape_is_told(rt: HostRuntime) {
    for (text, place) in &BAD {
        let found = match unescape(rt.alloc(), text) {
            Err(EscapeError::Bad { at }) => Some(at),
            _ => None,
        };
        assert!(rt; found == Some(*place), "{text:?}");
    }
}
