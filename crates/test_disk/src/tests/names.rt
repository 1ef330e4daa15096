// Names held in place, and the texts of errors.
use call_fs::{FsError, Taken};
use mail_bytes::{NameBuf, NoRoom};
use std::alloc::Global;
use std::fmt::Display;

/// What is done to a name.
#[derive(Clone, Copy)]
enum Edit {
    Extend(&'static [u8]),
    Push(u8),
    Clear,
}

/// Edits of one name, whether there is room for each, and how long the name is then.
const EDITS: &[(Edit, Result<(), NoRoom>, usize)] = &[
    (Edit::Extend(&[b'a'; 250]), Ok(()), 250),
    (Edit::Extend(b"/mess/"), Err(NoRoom), 250),
    (Edit::Extend(b"/mess"), Ok(()), 255),
    (Edit::Push(b'/'), Err(NoRoom), 255),
    (Edit::Clear, Ok(()), 0),
    (Edit::Push(b'/'), Ok(()), 1),
];

/// Edits a name.
fn change(name: &mut NameBuf, edit: Edit) -> Result<(), NoRoom> {
    match edit {
        Edit::Extend(bytes) => name.extend(bytes),
        Edit::Push(byte) => name.push(byte),
        Edit::Clear => {
            name.clear();
            Ok(())
        }
    }
}

#[test]
fn a_name_has_room_for_255_bytes(rt: HostRuntime) {
    let mut name = NameBuf::new();
    for (step, outcome, len) in EDITS {
        let room = change(&mut name, *step);
        assert_eq!(rt; (room, name.copy().as_slice().len()), (*outcome, *len));
    }
    assert_eq!(rt; name.as_slice(), b"/".as_slice());
}

/// Whether the error is told so.
fn is_told<E: Display>(alloc: Global, why: &E, text: &str) -> bool {
    match format!(in alloc; "{why}") {
        Ok(told) => told.as_str() == text,
        Err(_) => false,
    }
}

/// What is wrong with a file call, as a text.
const TEXTS: [(FsError, &str); 4] = [
    (FsError::NotThere, "no such file or directory"),
    (FsError::Exists, "the file exists"),
    (FsError::Fault, "input or output failed"),
    (FsError::Memory, "out of memory"),
];

#[test]
fn errors_are_told_in_words(rt: HostRuntime) {
    assert!(rt; is_told(rt.alloc(), &NoRoom, "no room in a name"));
    assert!(rt; is_told(rt.alloc(), &Taken, "the number is in use"));
    for (why, text) in &TEXTS {
        assert!(rt; is_told(rt.alloc(), why, text), "{text}");
    }
}
