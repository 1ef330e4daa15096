// The names of the queue's files.

use mail_bytes::NameBuf;
use queue_paths::{Name, parse, path, split};

/// Names and their texts.
const NAMES: [(Name, &str); 11] = [
    (
        Name::Pid {
            pid: 77,
            start: 0,
            seq: 1,
        },
        "pid/77.0.1",
    ),
    (Name::Mess(457), "mess/20/457"),
    (Name::Intd(1), "intd/1"),
    (Name::Todo(1), "todo/1"),
    (Name::Info(23), "info/0/23"),
    (Name::Local(1), "local/1/1"),
    (Name::Remote(1), "remote/1/1"),
    (
        Name::Bounce(18_446_744_073_709_551_615),
        "bounce/18446744073709551615",
    ),
    (Name::SplitIntd(24), "intdx/1/24"),
    (Name::SplitTodo(46), "todox/0/46"),
    (
        Name::SplitTodo(18_446_744_073_709_551_615),
        "todox/5/18446744073709551615",
    ),
];

/// Texts that the queue uses for no name.
const OTHERS: [&str; 16] = [
    "",
    "mess/1/457",
    "mess/01/1",
    "intd/0",
    "intd/01",
    "todo/18446744073709551616",
    "pid/77.0.0",
    "pid/77.0.10",
    "pid/4294967296.0.1",
    "lock/1",
    "intd/1/24",
    "intdx/24",
    "todo/0/46",
    "todox/1/46",
    "todox/0/046",
    "todoy/0/46",
];

/// A name in numbers: its kind, and what it is made of.
fn numbers(name: &Name) -> [u64; 4] {
    match name {
        Name::Pid { pid, start, seq } => [0, u64::from(*pid), *start, u64::from(*seq)],
        Name::Mess(n) => [1, *n, 0, 0],
        Name::Intd(n) => [2, *n, 0, 0],
        Name::Todo(n) => [3, *n, 0, 0],
        Name::Info(n) => [4, *n, 0, 0],
        Name::Local(n) => [5, *n, 0, 0],
        Name::Remote(n) => [6, *n, 0, 0],
        Name::Bounce(n) => [7, *n, 0, 0],
        Name::SplitIntd(n) => [8, *n, 0, 0],
        Name::SplitTodo(n) => [9, *n, 0, 0],
    }
}

/// Whether the text is read as the name.
fn is_read(text: &str, name: &Name) -> bool {
    match parse(text.as_bytes()) {
        Some(found) => numbers(&found) == numbers(name),
        None => false,
    }
}

/// Whether the name is written so, and read back.
fn are_each_other(name: &Name, text: &str) -> bool {
    let mut found = NameBuf::new();
    path(name, &mut found);
    found.as_slice() == text.as_bytes() && is_read(text, name)
}

#[test]
fn a_name_and_its_text(rt: HostRuntime) {
    for (name, text) in &NAMES {
        assert!(rt; are_each_other(name, text), "{text}");
    }
}

#[test]
fn texts_of_no_name(rt: HostRuntime) {
    for text in &OTHERS {
        assert!(rt; parse(text.as_bytes()).is_none(), "{text}");
    }
}

#[test]
fn files_lie_in_23_directories(rt: HostRuntime) {
    for (number, directory) in [(1, 1), (22, 22), (23, 0), (457, 20)] {
        assert!(rt; split(number) == directory, "{number}");
    }
}
