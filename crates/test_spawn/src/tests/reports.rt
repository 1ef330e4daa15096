// Reports, byte by byte.

use mail_bytes::{ByteText, Memory};
use spawn_protocol::{Report, ReportReader, report_text};
use std::alloc::Global;
use std::test::Fail;

/// A report: its delivery number, its letter, what the letter counts as, its text.
type Row = (u8, u8, u8, &'static [u8]);

/// Bytes with the reports that they give.
const TEXTS: [(&[u8], &[Row]); 7] = [
    (b"", &[]),
    (b"\x03Kok\0", &[(3, b'K', b'K', b"ok")]),
    (
        b"\0Dno\n\0\x77Z\0\x02Klater",
        &[(0, b'D', b'D', b"no\n"), (119, b'Z', b'Z', b"")],
    ),
    // Any other letter, and none, counts as Z.
    (
        b"\x05kok\0\x06\0\x07\xff\xff\0",
        &[
            (5, b'k', b'Z', b"ok"),
            (6, 0, b'Z', b""),
            (7, 0xff, b'Z', b"\xff"),
        ],
    ),
    (b"\0Qx\0", &[(0, b'Q', b'Z', b"x")]),
    (b"\0\0", &[(0, 0, b'Z', b"")]),
    // The letter of the next report isn't that of one without a letter.
    (b"\x04\0\x04K\0", &[(4, 0, b'Z', b""), (4, b'K', b'K', b"")]),
];

/// The longest text that stays.
const LONG: [u8; 9998] = [b'a'; 9998];

/// Whether the report is this one.
fn is_row(report: &Report, row: &Row) -> bool {
    report.slot == row.0
        && report.letter == row.1
        && report.counts_as() == row.2
        && report.text.is(row.3)
}

/// Whether these are the reports of the rows.
fn are_rows(found: &[Report], rows: &[Row]) -> bool {
    found.len() == rows.len()
        && found
            .iter()
            .zip(rows)
            .all(|(report, row)| is_row(report, row))
}

/// Feeds all bytes; the reports that come are put in a list. Whether there was no error.
fn is_fed(alloc: Global, reader: &mut ReportReader, bytes: &[u8], into: &mut Vec<Report>) -> bool {
    for byte in bytes {
        let is_taken = match reader.feed(alloc, *byte) {
            Ok(Some(report)) => into.push(report).is_ok(),
            Ok(None) => true,
            Err(_) => false,
        };
        if !is_taken {
            return false;
        }
    }
    true
}

/// Whether the bytes, cut there, give these reports.
fn gives(alloc: Global, front: &[u8], back: &[u8], rows: &[Row]) -> bool {
    let mut reader = ReportReader::new(alloc);
    let mut found = Vec::new(alloc);
    is_fed(alloc, &mut reader, front, &mut found)
        && is_fed(alloc, &mut reader, back, &mut found)
        && are_rows(found.as_slice(), rows)
}

#[test]
fn reports_are_read_however_they_are_cut(rt: HostRuntime) {
    for (bytes, rows) in &TEXTS {
        for cut in 0..bytes.len() {
            let (front, back) = bytes.split_at(cut);
            assert!(rt; gives(rt.alloc(), front, back, rows), "{bytes:?} at {cut}");
        }
    }
}

/// The text of a report of delivery 9 with this letter, and a text of 9,998 bytes and these.
fn long_text(alloc: Global, letter: u8, more: &[u8]) -> Result<Vec<u8>, Memory> {
    let mut text = ByteText::from_slice(alloc, &LONG)?;
    text.extend(more)?;
    let report = Report {
        slot: 9,
        letter,
        text,
    };
    report_text(alloc, &report)
}

#[test]
fn text_past_the_10000th_byte_is_dropped(rt: HostRuntime) -> Result<(), Fail> {
    let rows: [Row; 1] = [(9, b'K', b'K', &LONG)];
    for more in [b"".as_slice(), b"b", b"bc", b"bcd"] {
        let text = long_text(rt.alloc(), b'K', more)?;
        assert!(rt;
            gives(rt.alloc(), text.as_slice(), b"", &rows) && text.len() == 10_001 + more.len()
        );
    }
    Ok(())
}

/// The text of the report of a row.
fn row_text(alloc: Global, row: &Row) -> Result<Vec<u8>, Memory> {
    let report = Report {
        slot: row.0,
        letter: row.1,
        text: ByteText::from_slice(alloc, row.3)?,
    };
    report_text(alloc, &report)
}

/// Reports with their texts.
const WRITTEN: [(Row, &[u8]); 3] = [
    ((3, b'K', b'K', b"ok"), b"\x03Kok\0"),
    ((0, b'D', b'D', b""), b"\0D\0"),
    ((6, 0, b'Z', b""), b"\x06\0"),
];

#[test]
fn reports_are_written(rt: HostRuntime) -> Result<(), Fail> {
    for (row, text) in &WRITTEN {
        let written = row_text(rt.alloc(), row)?;
        assert_eq!(rt; written.as_slice(), *text);
    }
    Ok(())
}
