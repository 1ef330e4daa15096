// Envelopes, byte by byte.

use super::byte_texts::same;
use super::fields::none_is_wrong;
use envelope_records::{EnvFault, EnvStep, EnvelopeReader};

/// Bytes; what each of them does; the address that the last one ended; how many bytes are missing then at least; and
/// whether what was fed is an envelope, after each of them.
type Row = (&'static [u8], EnvStep, &'static [u8], usize, bool);

/// An envelope in pieces, and bytes after its end.
const ENVELOPE: [Row; 7] = [
    (b"", EnvStep::More, b"", 3, false),
    (b"Fa@x", EnvStep::More, b"", 2, false),
    (b"\0", EnvStep::Sender, b"a@x", 1, false),
    (b"Tb@y", EnvStep::More, b"", 2, false),
    (b"\0", EnvStep::Recipient, b"b@y", 1, false),
    (b"\0", EnvStep::End, b"", 0, true),
    (b"F", EnvStep::End, b"", 0, true),
];

/// An address with one byte too many.
const LONG_ADDRESS: [Row; 3] = [
    (b"F", EnvStep::More, b"", 2, false),
    (&[b'a'; 1002], EnvStep::More, b"", 2, false),
    (b"a\0", EnvStep::Fault(EnvFault::TooLong), b"", 0, false),
];

/// Bytes that begin no envelope.
const OTHER_BYTES: [Row; 1] = [(b"X", EnvStep::Fault(EnvFault::Format), b"", 0, false)];

/// Whether the reader does with these bytes what the row says.
fn reads(reader: &mut EnvelopeReader, row: &Row) -> bool {
    let mut are_read = true;
    for byte in row.0 {
        are_read = reader.feed(*byte) == row.1 && ends(reader, row.4) && are_read;
    }
    are_read && same(reader.text(), row.2) && reader.missing() == row.3
}

/// Whether what was fed is an envelope, if it should be, and else ends too early.
fn ends(reader: &EnvelopeReader, is_whole: bool) -> bool {
    let end = if is_whole {
        Ok(())
    } else {
        Err(EnvFault::EndEarly)
    };
    reader.finish() == end
}

/// Which row a new reader does otherwise first; none if it does all.
fn first_wrong(rows: &[Row]) -> Option<usize> {
    let mut reader = EnvelopeReader::new();
    for (at, row) in rows.iter().enumerate() {
        if !reads(&mut reader, row) {
            return Some(at);
        }
    }
    None
}

#[test]
fn an_envelope_is_read(rt: HostRuntime) {
    none_is_wrong(&rt, first_wrong(&ENVELOPE));
}

#[test]
fn an_address_has_at_most_1002_bytes(rt: HostRuntime) {
    none_is_wrong(&rt, first_wrong(&LONG_ADDRESS));
}

#[test]
fn other_bytes_are_no_envelope(rt: HostRuntime) {
    none_is_wrong(&rt, first_wrong(&OTHER_BYTES));
}
