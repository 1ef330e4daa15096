// The text of intd and todo.

use super::sources::pieces;
use envelope_records::todo_text;
use std::alloc::Global;

/// What a todo text is made of, and the text.
struct Row {
    uid: u32,
    pid: u32,
    sender: &'static [u8],
    recipients: &'static [&'static [u8]],
    text: &'static [u8],
}

/// Todo texts and what they are made of.
const ROWS: [Row; 3] = [
    Row {
        uid: 1000,
        pid: 77,
        sender: b"a@x",
        recipients: &[b"b@y"],
        text: b"u1000\0p77\0Fa@x\0Tb@y\0",
    },
    // a NUL in a sender makes two todo texts one
    Row {
        uid: 1,
        pid: 2,
        sender: b"a\0Tb",
        recipients: &[],
        text: b"u1\0p2\0Fa\0Tb\0",
    },
    Row {
        uid: 1,
        pid: 2,
        sender: b"a",
        recipients: &[b"b"],
        text: b"u1\0p2\0Fa\0Tb\0",
    },
];

/// Whether the todo text of a row is the one that it says.
fn is_made(alloc: Global, row: &Row) -> bool {
    let recipients = pieces(alloc, row.recipients);
    let is_so = match todo_text(alloc, row.sender, recipients.as_slice(), row.uid, row.pid) {
        Ok(text) => text.as_slice() == row.text,
        Err(_) => false,
    };
    drop(recipients);
    is_so
}

#[test]
fn a_todo_text_is_written(rt: HostRuntime) {
    for row in &ROWS {
        assert!(rt; is_made(rt.alloc(), row), "{:?}", row.text);
    }
}
