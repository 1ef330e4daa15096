// Calls with names and bytes of their own, as rows.
use call_fs::{Call, CallData, Fd, How};
use std::alloc::Global;

/// A call as plain data: its kind, its numbers, its texts.
#[derive(Clone, Copy, Debug, PartialEq)]
pub struct CallRow<'a>(pub &'a str, pub [u64; 3], pub &'a [u8], pub &'a [u8]);

/// The row of a call.
pub fn row_of(call: &CallData) -> CallRow<'_> {
    match call {
        CallData::CreateExcl(name) => CallRow("create", [0; 3], name.as_slice(), b""),
        CallData::Open(name, how) => CallRow(open_kind(*how), [0; 3], name.as_slice(), b""),
        CallData::ReadAt(fd, at, len) => CallRow("read", [fd.0, *at, *len], b"", b""),
        CallData::WriteAt(fd, at, bytes) => CallRow("write", [fd.0, *at, 0], bytes.as_slice(), b""),
        CallData::Append(fd, bytes) => CallRow("append", [fd.0, 0, 0], bytes.as_slice(), b""),
        CallData::Truncate(fd, len) => CallRow("cut", [fd.0, *len, 0], b"", b""),
        CallData::Sync(fd) => CallRow("sync", [fd.0, 0, 0], b"", b""),
        CallData::Close(fd) => CallRow("close", [fd.0, 0, 0], b"", b""),
        CallData::Link(old, new) => CallRow("link", [0; 3], old.as_slice(), new.as_slice()),
        CallData::Unlink(name) => CallRow("unlink", [0; 3], name.as_slice(), b""),
        CallData::Stat(name) => CallRow("stat", [0; 3], name.as_slice(), b""),
        CallData::NextName(dir, after) => {
            CallRow("next name", [0; 3], dir.as_slice(), after.as_slice())
        }
    }
}

/// The kind of an opening.
fn open_kind(how: How) -> &'static str {
    match how {
        How::Read => "open to read",
        How::Write => "open to write",
        How::Append => "open to append",
    }
}

/// Each call with its row.
const CALLS: &[(Call<'static>, CallRow<'static>)] = &[
    (
        Call::CreateExcl(b"pid/a"),
        CallRow("create", [0; 3], b"pid/a", b""),
    ),
    (
        Call::Open(b"pid/a", How::Read),
        CallRow("open to read", [0; 3], b"pid/a", b""),
    ),
    (
        Call::Open(b"pid/b", How::Write),
        CallRow("open to write", [0; 3], b"pid/b", b""),
    ),
    (
        Call::Open(b"", How::Append),
        CallRow("open to append", [0; 3], b"", b""),
    ),
    (
        Call::ReadAt(Fd(3), 4, 5),
        CallRow("read", [3, 4, 5], b"", b""),
    ),
    (
        Call::WriteAt(Fd(6), 7, b"xyz"),
        CallRow("write", [6, 7, 0], b"xyz", b""),
    ),
    (
        Call::Append(Fd(8), b"\0a/"),
        CallRow("append", [8, 0, 0], b"\0a/", b""),
    ),
    (
        Call::Truncate(Fd(9), u64::MAX),
        CallRow("cut", [9, u64::MAX, 0], b"", b""),
    ),
    (Call::Sync(Fd(10)), CallRow("sync", [10, 0, 0], b"", b"")),
    (Call::Close(Fd(11)), CallRow("close", [11, 0, 0], b"", b"")),
    (
        Call::Link(b"mess/0/1", b"todo/1"),
        CallRow("link", [0; 3], b"mess/0/1", b"todo/1"),
    ),
    (
        Call::Unlink(b"intd/1"),
        CallRow("unlink", [0; 3], b"intd/1", b""),
    ),
    (Call::Stat(b"lock"), CallRow("stat", [0; 3], b"lock", b"")),
    (
        Call::NextName(b"info/3", b"26"),
        CallRow("next name", [0; 3], b"info/3", b"26"),
    ),
];

/// Whether a call is kept as this row.
fn is_kept(alloc: Global, call: Call<'_>, wanted: CallRow<'_>) -> bool {
    match CallData::of(alloc, call) {
        Ok(kept) => row_of(&kept) == wanted,
        Err(_) => false,
    }
}

#[test]
fn a_call_keeps_its_names_and_bytes(rt: HostRuntime) {
    for (call, wanted) in CALLS {
        assert!(rt; is_kept(rt.alloc(), *call, *wanted), "{wanted:?}");
    }
}
