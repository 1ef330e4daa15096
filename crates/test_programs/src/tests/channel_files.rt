// The records of a channel file.

use envelope_records::{Record, RecordError, records};
use std::alloc::Global;

/// A record: whether it is done, where it is, its address.
type Row = (bool, u64, &'static [u8]);

/// Files with their records.
const FILES: [(&[u8], &[Row]); 2] = [
    (
        b"Ta@x\0D\0TT D\0",
        &[(false, 0, b"a@x"), (true, 5, b""), (false, 7, b"T D")],
    ),
    (b"", &[]),
];

/// Files with a fault, the place of the first one, and whether that is a letter; else it is an end that is missing.
const FAULTS: [(&[u8], u64, bool); 5] = [
    (b"X", 0, true),
    (b"Ta\0\0", 3, true),
    (b"D\0t\0X", 2, true),
    (b"D", 0, false),
    (b"Ta\0D\0Tb", 5, false),
];

/// Whether the record is this one.
fn is_row(record: &Record, row: &Row) -> bool {
    record.done == row.0 && record.place == row.1 && record.address.is(row.2)
}

/// Whether these are the records.
fn are_rows(found: &[Record], rows: &[Row]) -> bool {
    found.len() == rows.len()
        && found
            .iter()
            .zip(rows)
            .all(|(record, row)| is_row(record, row))
}

/// Whether a file has these records.
fn is_read(alloc: Global, bytes: &[u8], rows: &[Row]) -> bool {
    match records(alloc, bytes) {
        Ok(found) => are_rows(found.as_slice(), rows),
        Err(_) => false,
    }
}

#[test]
fn a_file_of_records_is_read(rt: HostRuntime) {
    for (bytes, rows) in &FILES {
        assert!(rt; is_read(rt.alloc(), bytes, rows), "{bytes:?}");
    }
}

#[test]
fn the_first_fault_is_told(rt: HostRuntime) {
    for (bytes, place, is_letter) in &FAULTS {
        let found = match records(rt.alloc(), bytes) {
            Err(RecordError::Letter { at }) => *is_letter && at == *place,
            Err(RecordError::Unended { at }) => !*is_letter && at == *place,
            _ => false,
        };
        assert!(rt; found, "{bytes:?}");
    }
}
