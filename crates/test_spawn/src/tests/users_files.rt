// Files users/assign, and to whom local parts belong.

use local_spawn::{Assign, AssignError, Assignment, Found, Kind, find};
use std::alloc::Global;

/// What comes of reading a file: how many lines it has, or what is wrong with it.
#[derive(Clone, Copy, Debug, PartialEq, Eq)]
enum Reading {
    Lines(usize),
    Bad(usize),
    NoDot,
    Memory,
}

const FILES: [(&[u8], Reading); 33] = [
    (b"=j:j:1000:1000:home/j:::\n.\n", Reading::Lines(1)),
    (b".\n", Reading::Lines(0)),
    (b".", Reading::Lines(0)),
    (b"+u:u:1000:1000:home/u:-::\n.", Reading::Lines(1)),
    (b"+::0:0::::\n=::0:0::::\n.\n", Reading::Lines(2)),
    (b"=a b%:u:4294967295:0:/:-:x-:\n.\n", Reading::Lines(1)),
    // What comes after `.` is passed over.
    (b".\n=j\n\n.\n", Reading::Lines(0)),
    (b".\n\xff", Reading::Lines(0)),
    (b"", Reading::NoDot),
    (b"=j:j:1000:1000:home/j:::\n", Reading::NoDot),
    (b"=j:j:1000:1000:home/j:::", Reading::NoDot),
    (b"=j:j:1:1:h:::\n=k:k:1:1:h:::", Reading::NoDot),
    // Lines of another form: of seven parts and of nine, with a last part that isn't empty, without a sign, empty ones.
    (b"=j:j:1000:1000:home/j::\n.\n", Reading::Bad(1)),
    (b"=j:j:1000:1000:home/j::::\n.\n", Reading::Bad(1)),
    (b"=j:j:1000:1000:home/j:::x\n.\n", Reading::Bad(1)),
    (b"=j:j:1000:1000:home/j::: \n.\n", Reading::Bad(1)),
    (b"j:j:1000:1000:home/j:::\n.\n", Reading::Bad(1)),
    (b":j:1000:1000:home/j:::\n.\n", Reading::Bad(1)),
    (b"-j:j:1000:1000:home/j:::\n.\n", Reading::Bad(1)),
    (b"\n.\n", Reading::Bad(1)),
    (b"=j:j:1:1:h:::\n\n.\n", Reading::Bad(2)),
    (b" .\n", Reading::Bad(1)),
    (b".x\n.\n", Reading::Bad(1)),
    (b"..", Reading::Bad(1)),
    (b"=j:j:1:1:h:::\n+k:k:1:1:h:::\n=l\n.\n", Reading::Bad(3)),
    // Numbers that are none.
    (b"=j:j:4294967296:0:h:::\n.\n", Reading::Bad(1)),
    (b"=j:j:0:4294967296:h:::\n.\n", Reading::Bad(1)),
    (b"=j:j::0:h:::\n.\n", Reading::Bad(1)),
    (b"=j:j:01:0:h:::\n.\n", Reading::Bad(1)),
    (b"=j:j:-1:0:h:::\n.\n", Reading::Bad(1)),
    (b"=j:j:1:1 :h:::\n.\n", Reading::Bad(1)),
    (b"=j:j:18446744073709551616:0:h:::\n.\n", Reading::Bad(1)),
    // A bad line comes before the `.` that is missing.
    (b"=j", Reading::Bad(1)),
];

fn read_as(alloc: Global, bytes: &[u8]) -> Reading {
    match Assign::read(alloc, bytes) {
        Ok(assign) => Reading::Lines(assign.as_slice().len()),
        Err(AssignError::Line(line)) => Reading::Bad(line),
        Err(AssignError::NoDot) => Reading::NoDot,
        Err(AssignError::Memory) => Reading::Memory,
    }
}

#[test]
fn files_are_read(rt: HostRuntime) {
    for (bytes, wanted) in &FILES {
        assert!(rt; read_as(rt.alloc(), bytes) == *wanted, "{bytes:?}");
    }
}

/// Why a file can't be read, as a text.
const TEXTS: [(AssignError, &str); 3] = [
    (AssignError::Line(12), "line 12 assigns nothing"),
    (AssignError::NoDot, "no line `.`"),
    (AssignError::Memory, "out of memory"),
];

/// Whether the error is told so.
fn is_told(alloc: Global, why: &AssignError, text: &str) -> bool {
    match format!(in alloc; "{why}") {
        Ok(told) => told.as_str() == text,
        Err(_) => false,
    }
}

#[test]
fn errors_are_told_in_words(rt: HostRuntime) {
    for (why, text) in &TEXTS {
        assert!(rt; is_told(rt.alloc(), why, text), "{text}");
    }
}

/// Whether these are the fields of a line.
fn is_line(line: &Assignment) -> bool {
    line.kind == Kind::Wildcard
        && line.local.is(b"loc-")
        && line.user.is(b"user")
        && line.uid == 507
        && line.gid == 50
        && line.home.is(b"/home/u")
        && line.dash.is(b"-")
        && line.ext.is(b"pre")
}

#[test]
fn fields_are_read(rt: HostRuntime) {
    let assign = Assign::read(rt.alloc(), b"+loc-:user:507:50:/home/u:-:pre:\n.\n");
    assert!(rt;
        assign.is_ok_and(|assign| assign.as_slice().iter().all(is_line)
            && assign.as_slice().len() == 1)
    );
}

/// Lines whose first fields are these, each with the local parts that are looked up, and the line and the bytes that are found.
type Users = (
    &'static [u8],
    &'static [(&'static [u8], Option<(u64, u64)>)],
);

const USERS: [Users; 5] = [
    (
        b"=j:j:1:1:h:::\n.\n",
        &[
            (b"j", Some((0, 1))),
            (b"J", Some((0, 1))),
            (b"", None),
            (b"jj", None),
            (b"k", None),
        ],
    ),
    // The longest wildcard, wherever it stands, and a simple line before all of them.
    (
        b"+u:u:1:1:h:-::\n+u-:u:1:1:h:-::\n+U-l:u:1:1:h:-::\n+u-:v:1:1:h:-::\n=u-list:w:1:1:h:::\n=u-LIST:x:1:1:h:::\n.\n",
        &[
            (b"u", Some((0, 1))),
            (b"ux", Some((0, 1))),
            (b"U-", Some((1, 2))),
            (b"u-x", Some((1, 2))),
            (b"u-lis", Some((2, 3))),
            (b"u-list", Some((4, 6))),
            (b"u-lists", Some((2, 3))),
            (b"xu", None),
        ],
    ),
    // A wildcard of nothing is for all, if no other line is.
    (
        b"+:u:1:1:h:-::\n=:v:1:1:h:::\n+a:w:1:1:h:-::\n.\n",
        &[
            (b"", Some((1, 0))),
            (b"b", Some((0, 0))),
            (b"A", Some((2, 1))),
        ],
    ),
    // Only letters have a case.
    (
        b"=a@[:u:1:1:h:::\n+\xe9:v:1:1:h:-::\n.\n",
        &[
            (b"A@[", Some((0, 3))),
            (b"a`{", None),
            (b"\xc9", None),
            (b"\xe9x", Some((1, 1))),
        ],
    ),
    (b".\n", &[(b"j", None), (b"", None)]),
];

fn is_found(assign: &Assign, local: &[u8], wanted: Option<(u64, u64)>) -> bool {
    match (find(assign, local), wanted) {
        (None, None) => true,
        (Some(Found { line, rest }), Some((place, count))) => line == place && rest == count,
        _ => false,
    }
}

fn are_found(alloc: Global, users: &Users) -> bool {
    match Assign::read(alloc, users.0) {
        Ok(assign) => users
            .1
            .iter()
            .all(|(local, wanted)| is_found(&assign, local, *wanted)),
        Err(_) => false,
    }
}

#[test]
fn local_parts_have_their_lines(rt: HostRuntime) {
    for users in &USERS {
        assert!(rt; are_found(rt.alloc(), users), "{:?}", users.0);
    }
}
