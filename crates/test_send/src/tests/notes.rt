// How a note is written.

use super::steps::{Came, Due, FAULT, MISSING, Step, controls, got_of, is_due};
use address_rules::{ControlError, ControlFile};
use bounce_record::{NoteRow, NoteWriter};
use call_fs::{FsError, How};
use std::alloc::Global;

/// The bounce file of message 7.
const FILE: &[u8] = b"bounce/7";

const OPENS: Due = Due::Open(FILE, How::Append);

const STATS: Due = Due::Stat(FILE);

const CREATES: Due = Due::Create(FILE);

/// The file is opened as descriptor 4, or it is missing and created as that.
const OPENED: Step = (OPENS, Came::Opened(4));

const MISSED: Step = (OPENS, MISSING);

const CREATED: Step = (CREATES, Came::Created(4));

const SYNCED: Step = (Due::Sync(4), Came::Done);

const CLOSED: Step = (Due::Close(4), Came::Done);

/// Nothing is due any more.
const OVER: Step = (Due::Wait, Came::Failed);

/// The note of `b@y` with the report `no`, and with the two newlines that go before it.
const NOTE: Due = Due::Append(4, b"<b@y>:\nno\n\n");

const PARTED: Due = Due::Append(4, b"\n\n<b@y>:\nno\n\n");

/// A report as long as one may be, and one of 10,000 bytes.
const LONGEST: [u8; 9998] = [b'x'; 9998];

const LONG: [u8; 10000] = [b'x'; 10000];

/// A recipient and a report; the steps; whether the note is then in the file.
type Row = (&'static [u8], &'static [u8], &'static [Step], bool);

/// Notes: into files of all kinds, of all kinds of recipients and reports, and with a step that fails.
const ROWS: [Row; 29] = [
    // A new file.
    (
        b"b@y",
        b"no",
        &[MISSED, CREATED, (NOTE, Came::Done), SYNCED, CLOSED, OVER],
        true,
    ),
    // An empty file.
    (
        b"b@y",
        b"no",
        &[
            OPENED,
            (STATS, Came::Length(0)),
            (NOTE, Came::Done),
            SYNCED,
            CLOSED,
            OVER,
        ],
        true,
    ),
    // A file that ends with a note.
    (
        b"b@y",
        b"no",
        &[
            OPENED,
            (STATS, Came::Length(13)),
            (Due::Read(4, 11, 2), Came::Read(b"\n\n")),
            (NOTE, Came::Done),
            SYNCED,
            CLOSED,
            OVER,
        ],
        true,
    ),
    // Files that have lost their end: of two newlines one, or both, or the first of the two bytes isn't one.
    (
        b"b@y",
        b"no",
        &[
            OPENED,
            (STATS, Came::Length(12)),
            (Due::Read(4, 10, 2), Came::Read(b"o\n")),
            (PARTED, Came::Done),
            SYNCED,
            CLOSED,
        ],
        true,
    ),
    (
        b"b@y",
        b"no",
        &[
            OPENED,
            (STATS, Came::Length(11)),
            (Due::Read(4, 9, 2), Came::Read(b"no")),
            (PARTED, Came::Done),
            SYNCED,
            CLOSED,
        ],
        true,
    ),
    (
        b"b@y",
        b"no",
        &[
            OPENED,
            (STATS, Came::Length(2)),
            (Due::Read(4, 0, 2), Came::Read(b"\nx")),
            (PARTED, Came::Done),
            SYNCED,
            CLOSED,
        ],
        true,
    ),
    (
        b"b@y",
        b"no",
        &[
            OPENED,
            (STATS, Came::Length(2)),
            (Due::Read(4, 0, 2), Came::Read(b"\n\n")),
            (NOTE, Came::Done),
            SYNCED,
            CLOSED,
        ],
        true,
    ),
    // A file of one byte, which is read alone.
    (
        b"b@y",
        b"no",
        &[
            OPENED,
            (STATS, Came::Length(1)),
            (Due::Read(4, 0, 1), Came::Read(b"\n")),
            (PARTED, Came::Done),
            SYNCED,
            CLOSED,
        ],
        true,
    ),
    // Empty lines in a report, a NUL, no newline at its end, and nothing at all.
    (
        b"r",
        b"a\n\nb",
        &[
            MISSED,
            CREATED,
            (Due::Append(4, b"<r>:\na\n/b\n\n"), Came::Done),
            SYNCED,
            CLOSED,
        ],
        true,
    ),
    (
        b"r",
        b"a\0b\n",
        &[
            MISSED,
            CREATED,
            (Due::Append(4, b"<r>:\na\0b\n\n"), Came::Done),
            SYNCED,
            CLOSED,
        ],
        true,
    ),
    (
        b"r",
        b"x\n\n<s>:\ny",
        &[
            MISSED,
            CREATED,
            (Due::Append(4, b"<r>:\nx\n/<s>:\ny\n\n"), Came::Done),
            SYNCED,
            CLOSED,
        ],
        true,
    ),
    (
        b"r",
        b"",
        &[
            MISSED,
            CREATED,
            (Due::Append(4, b"<r>:\n\n"), Came::Done),
            SYNCED,
            CLOSED,
        ],
        true,
    ),
    // Long reports, in pieces: 5 bytes of the address, the report, and two newlines; and after a file that has lost its end.
    (
        b"r",
        &LONGEST,
        &[
            MISSED,
            CREATED,
            (Due::AppendMany(4, 8192), Came::Done),
            (Due::AppendMany(4, 1813), Came::Done),
            SYNCED,
            CLOSED,
        ],
        true,
    ),
    (
        b"r",
        &LONG,
        &[
            OPENED,
            (STATS, Came::Length(1)),
            (Due::Read(4, 0, 1), Came::Read(b"x")),
            (Due::AppendMany(4, 8192), Came::Done),
            (Due::AppendMany(4, 1817), Came::Done),
            SYNCED,
            CLOSED,
        ],
        true,
    ),
    // An address with newlines, one of the virtual domain, and one that only looks like it.
    (
        b"a\nb\n@x",
        b"no",
        &[
            MISSED,
            CREATED,
            (Due::Append(4, b"<a_b_@x>:\nno\n\n"), Came::Done),
            SYNCED,
            CLOSED,
        ],
        true,
    ),
    (
        b"vz-joe@v.example",
        b"no",
        &[
            MISSED,
            CREATED,
            (Due::Append(4, b"<joe@v.example>:\nno\n\n"), Came::Done),
            SYNCED,
            CLOSED,
        ],
        true,
    ),
    (
        b"vz-joe@w.example",
        b"no",
        &[
            MISSED,
            CREATED,
            (Due::Append(4, b"<vz-joe@w.example>:\nno\n\n"), Came::Done),
            SYNCED,
            CLOSED,
        ],
        true,
    ),
    // Each call fails.
    (b"b@y", b"no", &[(OPENS, FAULT), OVER], false),
    (
        b"b@y",
        b"no",
        &[(OPENS, Came::Refused(FsError::Memory)), OVER],
        false,
    ),
    (b"b@y", b"no", &[MISSED, (CREATES, FAULT), OVER], false),
    (
        b"b@y",
        b"no",
        &[MISSED, (CREATES, Came::Refused(FsError::Exists)), OVER],
        false,
    ),
    (
        b"b@y",
        b"no",
        &[MISSED, CREATED, (NOTE, FAULT), CLOSED, OVER],
        false,
    ),
    (
        b"b@y",
        b"no",
        &[
            MISSED,
            CREATED,
            (NOTE, Came::Done),
            (Due::Sync(4), FAULT),
            CLOSED,
            OVER,
        ],
        false,
    ),
    (
        b"b@y",
        b"no",
        &[OPENED, (STATS, FAULT), CLOSED, OVER],
        false,
    ),
    (
        b"b@y",
        b"no",
        &[OPENED, (STATS, MISSING), CLOSED, OVER],
        false,
    ),
    (
        b"b@y",
        b"no",
        &[
            OPENED,
            (STATS, Came::Length(9)),
            (Due::Read(4, 7, 2), FAULT),
            CLOSED,
            OVER,
        ],
        false,
    ),
    (
        b"r",
        &LONGEST,
        &[
            MISSED,
            CREATED,
            (Due::AppendMany(4, 8192), Came::Done),
            (Due::AppendMany(4, 1813), FAULT),
            CLOSED,
            OVER,
        ],
        false,
    ),
    // It isn't in the file before its sync, nor before its close.
    (b"b@y", b"no", &[MISSED, CREATED, (NOTE, Came::Done)], false),
    (
        b"b@y",
        b"no",
        &[MISSED, CREATED, (NOTE, Came::Done), SYNCED],
        false,
    ),
];

/// Whether all steps go as they should.
fn goes_so(writer: &mut NoteWriter, steps: &[Step]) -> bool {
    for (due, came) in steps {
        if !is_due(writer.need(), due) {
            return false;
        }
        writer.done(&got_of(*came));
    }
    true
}

/// Whether all steps of the row go as they should, and the note is then in the file or not.
fn is_row(alloc: Global, row: &Row) -> Result<bool, ControlError> {
    let controls = controls(alloc, &[(ControlFile::VirtualDomains, b"v.example:vz\n")])?;
    let mut writer = NoteWriter::idle(alloc);
    writer.begin(alloc, &controls, 7, row.0, row.1)?;
    let goes_so = goes_so(&mut writer, row.2);
    let is_written = writer.row() == NoteRow::Written;
    Ok(goes_so && writer.number() == 7 && is_written == row.3)
}

#[test]
fn notes_are_written_step_by_step(rt: HostRuntime) {
    for (at, row) in ROWS.iter().enumerate() {
        assert!(rt; is_row(rt.alloc(), row).is_ok_and(|is| is), "row {at}");
    }
}
