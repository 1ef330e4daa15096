// Reports of remote programs.

use outside::Status;
use remote_spawn::{letter_of, report_of};
use std::alloc::Global;

/// How a program ended, its output, and the report of that.
type Row = (Status, &'static [u8], &'static [u8]);

const ROWS: [Row; 19] = [
    // Programs that told nothing, whatever they printed.
    (Status::Crashed, b"r\0Kok\0", b"Zqmail-remote crashed.\n"),
    (
        Status::Ended(111),
        b"r\0Kok\0",
        b"ZUnable to run qmail-remote.\n",
    ),
    (
        Status::Ended(1),
        b"r\0Kok\0",
        b"DUnable to run qmail-remote.\n",
    ),
    (
        Status::Ended(0),
        b"",
        b"Zqmail-remote produced no output.\n",
    ),
    // A recipient report and a message report.
    (Status::Ended(0), b"r\0Kok\0", b"Kok"),
    (Status::Ended(0), b"rto b@y \0Kok\0", b"Kto b@y ok"),
    (Status::Ended(0), b"r\0Zlater\0", b"Zlater"),
    // Of a recipient that isn't taken; the message report counts as far as it's no better.
    (Status::Ended(0), b"sno\0Zx\0", b"Znox"),
    (Status::Ended(0), b"sno\0Kx\0", b"Zno"),
    (Status::Ended(0), b"hno\0Zx\0", b"Dno"),
    // Without a message report.
    (Status::Ended(0), b"rno\0", b"Dno"),
    (Status::Ended(0), b"rto\0", b"Dto"),
    // Parts that begin otherwise are passed over, and later message reports don't count.
    (Status::Ended(0), b"r\0x\0\0kno\0Kok\0Dno\0", b"Kok"),
    // Without a recipient report: the first part is the message report, and its text stands once.
    (Status::Ended(0), b"Zno connection\0", b"Zno connection"),
    (Status::Ended(0), b"Zx\0", b"Zx"),
    (Status::Ended(0), b"Dx\0", b"Dx"),
    (Status::Ended(0), b"Kok\0", b"Kok"),
    (Status::Ended(0), b"Zx\0Kok\0", b"Zx"),
    // What isn't ended is no part.
    (Status::Ended(0), b"r\0Kok", b"D"),
];

/// Whether this is the report, and its letter.
fn is_report(alloc: Global, row: &Row) -> bool {
    let (status, output, report) = row;
    report.first().copied() == Some(letter_of(*status, output))
        && report_of(alloc, *status, output).is_ok_and(|found| found.as_slice() == *report)
}

#[test]
fn programs_have_their_reports(rt: HostRuntime) {
    for row in &ROWS {
        assert!(rt; is_report(rt.alloc(), row), "{:?} {:?}", row.1, row.2);
    }
}
