// What .qmail files tell, by rows.

use dot_qmail::{Line, PlanError, plan};
use std::alloc::Global;
use std::test::Fail;

/// What a line tells.
#[derive(Clone, Copy)]
enum Told {
    /// A command.
    Command,
    /// A maildir.
    Maildir,
    /// A mailbox file.
    Mailbox,
    /// A forward.
    Forward,
}

/// A file, and what it tells.
type Row = (&'static [u8], &'static [(Told, &'static [u8])]);

const ROWS: [Row; 17] = [
    (b"", &[]),
    (b"# nothing\n#\n", &[]),
    (b"#\n\n \t\n", &[]),
    (b"|cmd\n", &[(Told::Command, b"cmd")]),
    (b"| exit 99 \t\n", &[(Told::Command, b" exit 99")]),
    (b"./Maildir/\n", &[(Told::Maildir, b"./Maildir/")]),
    (b"/abs/dir/\n", &[(Told::Maildir, b"/abs/dir/")]),
    (b"./\n", &[(Told::Maildir, b"./")]),
    (b"./mbox\n", &[(Told::Mailbox, b"./mbox")]),
    (b"/abs/mbox \t \n", &[(Told::Mailbox, b"/abs/mbox")]),
    (b"&a@b\n", &[(Told::Forward, b"a@b")]),
    (b"a@b\n", &[(Told::Forward, b"a@b")]),
    (b"a@b\0 after\n", &[(Told::Forward, b"a@b")]),
    (b"&a b@c  \n", &[(Told::Forward, b"a b@c")]),
    (b"+list\na@b\n", &[(Told::Forward, b"a@b")]),
    (b"a@b", &[(Told::Forward, b"a@b")]),
    (
        b"&a@b\n# c\n\n|exit 99\n./Maildir/",
        &[
            (Told::Forward, b"a@b"),
            (Told::Command, b"exit 99"),
            (Told::Maildir, b"./Maildir/"),
        ],
    ),
];

/// Whether a line tells just this.
fn is_told(line: &Line, told: Told, bytes: &[u8]) -> bool {
    match (line, told) {
        (Line::Command(text), Told::Command) => text.is(bytes),
        (Line::Maildir(text), Told::Maildir) => text.is(bytes),
        (Line::Mailbox(text), Told::Mailbox) => text.is(bytes),
        (Line::Forward(text), Told::Forward) => text.is(bytes),
        _ => false,
    }
}

/// Whether a file tells just this, in this order.
fn tells(alloc: Global, row: &Row) -> bool {
    let Ok(lines) = plan(alloc, row.0) else {
        return false;
    };
    let mut are_told = lines.len() == row.1.len();
    for (line, (told, bytes)) in lines.iter().zip(row.1) {
        are_told = are_told && is_told(line, *told, bytes);
    }
    are_told
}

#[test]
fn files_tell_their_lines(rt: HostRuntime) -> Result<(), Fail> {
    for (k, row) in ROWS.iter().enumerate() {
        assert!(rt; tells(rt.alloc(), row), "row {k}");
    }
    Ok(())
}

/// Files whose first line is blank.
const BLANK: [&[u8]; 4] = [b"\n", b" ", b" \t\na@b\n", b"\n./Maildir/\n"];

/// Whether a file is refused for its first line.
fn is_blank_first(alloc: Global, bytes: &[u8]) -> bool {
    matches!(&plan(alloc, bytes), Err(PlanError::BlankFirst))
}

#[test]
fn a_blank_first_line_is_refused(rt: HostRuntime) -> Result<(), Fail> {
    for (k, bytes) in BLANK.iter().enumerate() {
        assert!(rt; is_blank_first(rt.alloc(), bytes), "row {k}");
    }
    Ok(())
}
