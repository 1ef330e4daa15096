// Requests, byte by byte.

use mail_bytes::{ByteText, Memory};
use spawn_protocol::{CodecError, Request, RequestReader, request_text};
use std::alloc::Global;
use std::test::Fail;

/// A request: its delivery number, and its three fields.
type Row = (u8, &'static [u8], &'static [u8], &'static [u8]);

/// Bytes with the requests that they give.
const TEXTS: [(&[u8], &[Row]); 5] = [
    (b"", &[]),
    (b"\x035/28\0a@x\0b@y\0", &[(3, b"5/28", b"a@x", b"b@y")]),
    // A number that is NUL, an empty field, and a rest.
    (
        b"\0\x31/24\0\0r@h\0\x770/23\0#@[]\0p\0\x01\x30/2",
        &[(0, b"1/24", b"", b"r@h"), (119, b"0/23", b"#@[]", b"p")],
    ),
    // The bytes of a field may be any but NUL.
    (b"Ks\n\0\xff\0 \0", &[(b'K', b"s\n", b"\xff", b" ")]),
    (b"\x020/0\0s\0r", &[]),
];

/// The longest field.
const LONG: [u8; 4096] = [b'a'; 4096];

/// Whether the request is this one.
fn is_row(request: &Request, row: &Row) -> bool {
    request.slot == row.0
        && request.mess.is(row.1)
        && request.sender.is(row.2)
        && request.recipient.is(row.3)
}

/// Feeds all bytes; the requests that come are put in a list. Whether there was no error.
fn is_fed(
    alloc: Global,
    reader: &mut RequestReader,
    bytes: &[u8],
    into: &mut Vec<Request>,
) -> bool {
    for byte in bytes {
        let is_taken = match reader.feed(alloc, *byte) {
            Ok(Some(request)) => into.push(request).is_ok(),
            Ok(None) => true,
            Err(_) => false,
        };
        if !is_taken {
            return false;
        }
    }
    true
}

/// Whether these are the requests of the rows.
fn are_rows(found: &[Request], rows: &[Row]) -> bool {
    found.len() == rows.len()
        && found
            .iter()
            .zip(rows)
            .all(|(request, row)| is_row(request, row))
}

/// Whether the bytes, cut there, give these requests.
fn gives(alloc: Global, front: &[u8], back: &[u8], rows: &[Row]) -> bool {
    let mut reader = RequestReader::new(alloc);
    let mut found = Vec::new(alloc);
    is_fed(alloc, &mut reader, front, &mut found)
        && is_fed(alloc, &mut reader, back, &mut found)
        && are_rows(found.as_slice(), rows)
}

#[test]
fn requests_are_read_however_they_are_cut(rt: HostRuntime) {
    for (bytes, rows) in &TEXTS {
        for cut in 0..bytes.len() {
            let (front, back) = bytes.split_at(cut);
            assert!(rt; gives(rt.alloc(), front, back, rows), "{bytes:?} at {cut}");
        }
    }
}

/// Fields before the long one, with its number.
const BEFORE: [&[u8]; 3] = [b"\x05", b"\x05m\0", b"\x05m\0s\0"];

/// Whether each of these bytes is refused.
fn are_refused(alloc: Global, reader: &mut RequestReader, bytes: &[u8]) -> bool {
    let mut are_refused = true;
    for byte in bytes {
        let is_refused = matches!(reader.feed(alloc, *byte), Err(CodecError::TooLong));
        are_refused = is_refused && are_refused;
    }
    are_refused
}

/// Whether a field of 4096 bytes is taken, and the next byte and all after it refused.
fn is_limit(alloc: Global, before: &[u8]) -> bool {
    let mut reader = RequestReader::new(alloc);
    let mut found = Vec::new(alloc);
    is_fed(alloc, &mut reader, before, &mut found)
        && is_fed(alloc, &mut reader, &LONG, &mut found)
        && found.is_empty()
        && are_refused(alloc, &mut reader, b"b\0\x01m\0s\0r\0")
}

#[test]
fn a_field_has_at_most_4096_bytes(rt: HostRuntime) {
    for before in &BEFORE {
        assert!(rt; is_limit(rt.alloc(), before), "{before:?}");
    }
}

/// Whether a request is read back from its text.
fn is_read_back(alloc: Global, row: &Row) -> bool {
    match row_text(alloc, row) {
        Ok(text) => gives(alloc, text.as_slice(), b"", &[*row]),
        Err(_) => false,
    }
}

#[test]
fn fields_of_4096_bytes_end(rt: HostRuntime) {
    assert!(rt; is_read_back(rt.alloc(), &(7, &LONG, &LONG, &LONG)));
}

/// The text of the request of a row.
fn row_text(alloc: Global, row: &Row) -> Result<Vec<u8>, Memory> {
    let request = Request {
        slot: row.0,
        mess: ByteText::from_slice(alloc, row.1)?,
        sender: ByteText::from_slice(alloc, row.2)?,
        recipient: ByteText::from_slice(alloc, row.3)?,
    };
    request_text(alloc, &request)
}

#[test]
fn a_request_is_written(rt: HostRuntime) -> Result<(), Fail> {
    let text = row_text(rt.alloc(), &(3, b"5/28", b"a@x", b"b@y"))?;
    assert_eq!(rt; text.as_slice(), b"\x035/28\0a@x\0b@y\0".as_slice());
    Ok(())
}

/// Whether the error is told so.
fn is_told(alloc: Global, why: &CodecError, text: &str) -> bool {
    match format!(in alloc; "{why}") {
        Ok(told) => told.as_str() == text,
        Err(_) => false,
    }
}

#[test]
fn errors_are_told_in_words(rt: HostRuntime) {
    assert!(rt;
        is_told(
            rt.alloc(),
            &CodecError::TooLong,
            "a field of over 4096 bytes"
        )
    );
    assert!(rt; is_told(rt.alloc(), &CodecError::Memory, "out of memory"));
}
