// Preprocessing, call by call.
ghost use Rattle.call_fs.specs.Columns.{IsMomentIn};

use super::todo_disks::{controls, is_end};
use address_rules::Controls;
use call_fs::{Answer, Call, Fd, FsError, Got, How, Need, Port, Stat, UNREADY};
use std::alloc::Global;
use todo_pass::{End, Part, TodoPass, Why};

/// What a pass needs.
enum Due {
    Unlink(&'static [u8]),
    Stat(&'static [u8]),
    Open(&'static [u8]),
    Read(u64, u64),
    Close(u64),
    Create(&'static [u8]),
    Append(u64, &'static [u8]),
    Sync(u64),
    Give(&'static [u8]),
    Take,
}

/// What comes of it.
#[derive(Clone, Copy)]
enum Came<'a> {
    Done,
    Created(u64),
    Opened(u64),
    Read(&'a [u8]),
    Stat(u64),
    Refused(FsError),
    Gave,
    Took(&'a [u8]),
    Ended,
    Failed,
}

/// Whether this is what it needs.
fn is_due(need: Need<'_>, due: &Due) -> bool {
    match need {
        Need::File(call) => is_call(call, due),
        Need::Give(Port::Clean, bytes) => is_given(bytes, due),
        Need::Take(Port::Clean) => matches!(due, Due::Take),
        _ => false,
    }
}

/// Whether this call is due.
fn is_call(call: Call<'_>, due: &Due) -> bool {
    match (call, due) {
        (Call::Unlink(name), Due::Unlink(wanted)) => name == *wanted,
        (Call::Stat(name), Due::Stat(wanted)) => name == *wanted,
        (Call::Open(name, How::Read), Due::Open(wanted)) => name == *wanted,
        (Call::ReadAt(fd, at, 8192), Due::Read(file, place)) => fd.0 == *file && at == *place,
        (Call::Close(fd), Due::Close(file)) => fd.0 == *file,
        (Call::CreateExcl(name), Due::Create(wanted)) => name == *wanted,
        (Call::Append(fd, bytes), Due::Append(file, wanted)) => fd.0 == *file && bytes == *wanted,
        (Call::Sync(fd), Due::Sync(file)) => fd.0 == *file,
        _ => false,
    }
}

/// Whether these bytes are to be given to the cleaner.
fn is_given(bytes: &[u8], due: &Due) -> bool {
    match due {
        Due::Give(wanted) => bytes == *wanted,
        _ => false,
    }
}

/// The answer to a call.
fn answer_of(came: Came<'_>) -> Answer
    ensures { IsMomentIn result }
{
    match came {
        Came::Created(fd) => Answer::Created(Fd(fd), fd),
        Came::Opened(fd) => Answer::Opened(Fd(fd)),
        Came::Read(bytes) => Answer::Count(bytes.len() as u64),
        Came::Stat(length) => Answer::Stat(Stat {
            number: 24,
            length,
            moment: 5,
        }),
        Came::Refused(why) => Answer::Refused(why),
        _ => Answer::Done,
    }
}

/// The bytes of a read.
fn bytes_of(came: Came<'_>) -> &[u8] {
    match came {
        Came::Read(bytes) => bytes,
        _ => &[],
    }
}

/// Hands in what came of its need at this moment, if that is of its kind.
fn hand_in(alloc: Global, pass: &mut TodoPass<'_>, now: u32, came: Came<'_>) -> bool {
    pass.look(u64::from(now), UNREADY);
    if let Need::File(_) = pass.need() {
        return pass
            .done(alloc, Got::File(answer_of(came), bytes_of(came)))
            .is_ok();
    }
    hand_in_link(alloc, pass, came)
}

/// So, of the link to the cleaner.
fn hand_in_link(alloc: Global, pass: &mut TodoPass<'_>, came: Came<'_>) -> bool {
    match (pass.need(), came) {
        (Need::Give(..), Came::Gave) => pass.done(alloc, Got::Gave).is_ok(),
        (Need::Give(..), Came::Failed) => pass.done(alloc, Got::Failed).is_ok(),
        (Need::Take(Port::Clean), Came::Took(bytes)) => pass.done(alloc, Got::Took(bytes)).is_ok(),
        (Need::Take(Port::Clean), Came::Ended) => pass.done(alloc, Got::End).is_ok(),
        (Need::Take(Port::Clean), Came::Failed) => pass.done(alloc, Got::Failed).is_ok(),
        _ => false,
    }
}

/// Which of these steps isn't due first, or can't be handed in; each is made one second after the one before.
fn first_wrong(alloc: Global, pass: &mut TodoPass<'_>, steps: &[(Due, Came<'_>)]) -> Option<u32> {
    let mut at = 0;
    for (due, came) in steps {
        let is_right = is_due(pass.need(), due);
        if !hand_in(alloc, pass, at, *came) || !is_right {
            return Some(at);
        }
        at = at.saturating_add(1);
    }
    None
}

/// A todo file with local and remote recipients.
const TODO_TEXT: &[u8] = b"u1000\0p77\0Fs@y\0Ta@x\0Tb@y\0Tc\0Td@z\0";

/// A pass of message 24 with local and remote recipients, and what comes of each step.
const STEPS: &[(Due, Came<'static>)] = &[
    (Due::Unlink(b"info/1/24"), Came::Refused(FsError::NotThere)),
    (Due::Unlink(b"local/1/24"), Came::Done),
    (
        Due::Unlink(b"remote/1/24"),
        Came::Refused(FsError::NotThere),
    ),
    (Due::Stat(b"mess/1/24"), Came::Stat(71)),
    (Due::Open(b"todo/24"), Came::Opened(5)),
    (Due::Read(5, 0), Came::Read(TODO_TEXT)),
    (Due::Close(5), Came::Done),
    (Due::Create(b"info/1/24"), Came::Created(6)),
    (Due::Append(6, b"Fs@y\0"), Came::Done),
    (Due::Sync(6), Came::Done),
    (Due::Close(6), Came::Done),
    (Due::Create(b"local/1/24"), Came::Created(7)),
    (Due::Append(7, b"Ta@x\0Tc@x\0"), Came::Done),
    (Due::Sync(7), Came::Done),
    (Due::Close(7), Came::Done),
    (Due::Create(b"remote/1/24"), Came::Created(8)),
    (Due::Append(8, b"Tb@y\0Td@z\0"), Came::Done),
    (Due::Sync(8), Came::Done),
    (Due::Close(8), Came::Done),
    (Due::Give(b"todo/24\0"), Came::Gave),
    (Due::Take, Came::Took(b"+")),
];

/// What is tried with a pass.
enum Try {
    /// It makes these steps, one second after the other, and ends with or without recipients on the two channels.
    Steps(&'static [(Due, Came<'static>)], bool, bool),
    /// It makes the steps of `STEPS`; then it tells the size and the birth of message 24, and what was read in its todo file.
    Tells,
    /// What the first unlinks are to remove is there, and the steps after them are those of `STEPS`.
    Again,
    /// After so many steps of `STEPS` this comes; why the number is left.
    Fails(usize, Came<'static>, Why),
    /// It reads this todo file; the place of its first fault, none if the pass goes on.
    Reads(&'static [u8], Option<u64>),
    /// It reads a todo file with a long sender, whose last byte is at this place; and so on.
    ReadsLong(usize, Option<u64>),
}

/// A pass of this number, and what is tried with it.
type Row = (u64, Try);

/// Whether a pass tells this of message 24.
fn tells(pass: &TodoPass<'_>) -> bool {
    let sorted = pass.pass().sorted();
    pass.pass().size() == 71
        && pass.pass().birth() == 8
        && sorted.uid == 1000
        && sorted.pid == 77
        && sorted.locals == 2
        && sorted.remotes == 2
}

/// Whether these things can be handed in, one after the other.
fn are_handed(alloc: Global, pass: &mut TodoPass<'_>, came: &[Came<'_>]) -> bool {
    for came in came {
        if !hand_in(alloc, pass, 0, *came) {
            return false;
        }
    }
    true
}

/// Makes so many steps of `STEPS`; whether that could be done.
fn makes_first(alloc: Global, pass: &mut TodoPass<'_>, count: usize) -> bool {
    for (_, came) in STEPS.iter().take(count) {
        if !hand_in(alloc, pass, 0, *came) {
            return false;
        }
    }
    true
}

/// Closes what is open; whether that could be done.
fn closes(alloc: Global, pass: &mut TodoPass<'_>) -> bool {
    match pass.need() {
        Need::File(Call::Close(_)) => hand_in(alloc, pass, 0, Came::Done),
        _ => true,
    }
}

/// Whether a pass comes to its end so if it reads this from its todo file, once the file is closed.
fn ends_by(alloc: Global, pass: &mut TodoPass<'_>, todo: &[u8], end: Option<End>) -> bool {
    let came = [
        NOT_THERE,
        NOT_THERE,
        NOT_THERE,
        Came::Stat(71),
        Came::Opened(5),
        Came::Read(todo),
        Came::Done,
    ];
    are_handed(alloc, pass, &came) && is_end(pass.end(), end)
}

/// So, of a todo file whose sender is of the letter `a` alone, and whose last byte, a NUL, is at this place.
fn ends_by_long(alloc: Global, pass: &mut TodoPass<'_>, last: usize, end: Option<End>) -> bool {
    let last = last.min(1010);
    let mut todo = [b'a'; 1011];
    todo[..7].copy_from_slice(b"u0\0p0\0F");
    todo[last] = 0;
    ends_by(alloc, pass, &todo[..=last], end)
}

/// How a pass ends whose todo file has its first fault at this place; none if it has none.
fn end_at(place: Option<u64>) -> Option<End> {
    match place {
        Some(at) => Some(left(Why::BadRecord { at })),
        None => None,
    }
}

/// Number 24 is left.
fn left(why: Why) -> End {
    End::Left { n: 24, why }
}

/// Whether a pass does what is tried.
fn does(alloc: Global, pass: &mut TodoPass<'_>, n: u64, what: &Try) -> bool {
    match what {
        Try::Steps(steps, has_local, has_remote) => {
            first_wrong(alloc, pass, steps).is_none()
                && is_end(
                    pass.end(),
                    Some(End::Done {
                        n,
                        has_local: *has_local,
                        has_remote: *has_remote,
                    }),
                )
        }
        Try::Tells => first_wrong(alloc, pass, STEPS).is_none() && tells(pass),
        Try::Again => {
            are_handed(alloc, pass, &[Came::Done; 3])
                && first_wrong(alloc, pass, &STEPS[3..]).is_none()
        }
        Try::Fails(at, failing, why) => {
            makes_first(alloc, pass, *at)
                && hand_in(alloc, pass, 0, *failing)
                && closes(alloc, pass)
                && is_end(pass.end(), Some(left(*why)))
        }
        Try::Reads(todo, place) => ends_by(alloc, pass, todo, end_at(*place)),
        Try::ReadsLong(last, place) => ends_by_long(alloc, pass, *last, end_at(*place)),
    }
}

/// Whether a new pass does, by these controls.
fn holds_by(alloc: Global, controls: &Controls, row: &Row) -> bool {
    match TodoPass::new(alloc, row.0, controls) {
        Ok(mut pass) => {
            let is_so = does(alloc, &mut pass, row.0, &row.1);
            drop(pass);
            is_so
        }
        Err(_) => false,
    }
}

/// Whether a new pass does.
fn holds(alloc: Global, row: &Row) -> bool {
    match controls(alloc) {
        Ok(controls) => {
            let is_so = holds_by(alloc, &controls, row);
            drop(controls);
            is_so
        }
        Err(_) => false,
    }
}

/// Which row isn't so first; none if all are.
fn first_wrong_row(alloc: Global, rows: &[Row]) -> Option<usize> {
    for (at, row) in rows.iter().enumerate() {
        if !holds(alloc, row) {
            return Some(at);
        }
    }
    None
}

/// A call failed.
const FAULT: Came<'static> = Came::Refused(FsError::Fault);

/// A name was taken.
const EXISTS: Came<'static> = Came::Refused(FsError::Exists);

/// A name was missing.
const NOT_THERE: Came<'static> = Came::Refused(FsError::NotThere);

/// There was no memory.
const MEMORY: Came<'static> = Came::Refused(FsError::Memory);

/// The step that fails, by its place in `STEPS`; how; and why the number is left.
const FAILURES: [Row; 34] = [
    (24, Try::Fails(0, FAULT, Why::Fault(Part::Info))),
    (24, Try::Fails(0, EXISTS, Why::Fault(Part::Info))),
    (24, Try::Fails(0, MEMORY, Why::Memory)),
    (24, Try::Fails(1, FAULT, Why::Fault(Part::Local))),
    (24, Try::Fails(2, FAULT, Why::Fault(Part::Remote))),
    (24, Try::Fails(3, FAULT, Why::Fault(Part::Mess))),
    (24, Try::Fails(3, NOT_THERE, Why::NoMess)),
    (24, Try::Fails(4, FAULT, Why::Fault(Part::Todo))),
    (24, Try::Fails(4, NOT_THERE, Why::Fault(Part::Todo))),
    (24, Try::Fails(4, EXISTS, Why::Fault(Part::Todo))),
    (24, Try::Fails(4, MEMORY, Why::Memory)),
    (24, Try::Fails(5, FAULT, Why::Fault(Part::Todo))),
    (24, Try::Fails(5, MEMORY, Why::Memory)),
    (24, Try::Fails(7, FAULT, Why::Fault(Part::Info))),
    (24, Try::Fails(7, EXISTS, Why::Fault(Part::Info))),
    (24, Try::Fails(7, NOT_THERE, Why::Fault(Part::Info))),
    (24, Try::Fails(7, MEMORY, Why::Memory)),
    (24, Try::Fails(8, FAULT, Why::Fault(Part::Info))),
    (24, Try::Fails(8, MEMORY, Why::Memory)),
    (24, Try::Fails(9, FAULT, Why::Fault(Part::Info))),
    (24, Try::Fails(11, EXISTS, Why::Fault(Part::Local))),
    (24, Try::Fails(12, FAULT, Why::Fault(Part::Local))),
    (24, Try::Fails(13, FAULT, Why::Fault(Part::Local))),
    (24, Try::Fails(15, NOT_THERE, Why::Fault(Part::Remote))),
    (24, Try::Fails(16, MEMORY, Why::Memory)),
    (24, Try::Fails(17, FAULT, Why::Fault(Part::Remote))),
    (24, Try::Fails(19, Came::Failed, Why::Unclean)),
    (24, Try::Fails(20, Came::Took(b"-"), Why::Unclean)),
    (24, Try::Fails(20, Came::Took(b"!"), Why::Unclean)),
    (24, Try::Fails(20, Came::Took(b"x"), Why::Unclean)),
    (24, Try::Fails(20, Came::Took(b""), Why::Unclean)),
    (24, Try::Fails(20, Came::Took(b"++"), Why::Unclean)),
    (24, Try::Fails(20, Came::Ended, Why::Unclean)),
    (24, Try::Fails(20, Came::Failed, Why::Unclean)),
];

#[test]
fn each_failure_leaves_the_number(rt: HostRuntime) {
    assert_eq!(rt; first_wrong_row(rt.alloc(), &FAILURES), None);
}

/// Bytes that are no todo text, and the first place at which none has that byte, or their length.
const BAD_RECORDS: [Row; 23] = [
    (24, Try::Reads(b"", Some(0))),
    (24, Try::Reads(b"x", Some(0))),
    (24, Try::Reads(b"u", Some(1))),
    (24, Try::Reads(b"u\0", Some(1))),
    (24, Try::Reads(b"ux", Some(1))),
    (24, Try::Reads(b"u1", Some(2))),
    (24, Try::Reads(b"u01\0", Some(2))),
    (24, Try::Reads(b"u1x\0", Some(2))),
    (24, Try::Reads(b"u4294967296\0", Some(10))),
    (24, Try::Reads(b"u42949672950\0", Some(11))),
    (24, Try::Reads(b"u0\0", Some(3))),
    (24, Try::Reads(b"u0\0q", Some(3))),
    (24, Try::Reads(b"u0\0p", Some(4))),
    (24, Try::Reads(b"u0\0p-1\0", Some(4))),
    (24, Try::Reads(b"u0\0p0\0", Some(6))),
    (24, Try::Reads(b"u0\0p0\0X", Some(6))),
    (24, Try::Reads(b"u0\0p0\0F", Some(7))),
    (24, Try::Reads(b"u0\0p0\0Fs@y", Some(10))),
    (24, Try::Reads(b"u0\0p0\0Fs@y\0X", Some(11))),
    // an envelope's last NUL isn't part of a todo text
    (24, Try::Reads(b"u0\0p0\0Fs@y\0\0", Some(11))),
    (24, Try::Reads(b"u0\0p0\0Fs@y\0T", Some(12))),
    (24, Try::Reads(b"u0\0p0\0Fs@y\0Ta@x", Some(15))),
    (24, Try::Reads(b"u0\0p0\0Fs@y\0Ta@x\0D", Some(16))),
];

#[test]
fn bad_records_are_told_by_their_place(rt: HostRuntime) {
    assert_eq!(rt; first_wrong_row(rt.alloc(), &BAD_RECORDS), None);
}

/// Senders of as many bytes as an address may have, and of one more.
const LONG_TODOS: [Row; 2] = [
    (24, Try::ReadsLong(7 + 1002, None)),
    (24, Try::ReadsLong(7 + 1003, Some(1009))),
];

#[test]
fn an_address_may_have_1002_bytes(rt: HostRuntime) {
    assert_eq!(rt; first_wrong_row(rt.alloc(), &LONG_TODOS), None);
}

/// Todo texts, the least ones too.
const GOOD_TODOS: [Row; 4] = [
    (24, Try::Reads(TODO_TEXT, None)),
    (24, Try::Reads(b"u0\0p0\0F\0", None)),
    (24, Try::Reads(b"u4294967295\0p4294967295\0F\0T\0", None)),
    (24, Try::Reads(b"u0\0p0\0F#@[]\0Ta@x\0Ta@x\0", None)),
];

#[test]
fn todo_texts_are_read(rt: HostRuntime) {
    assert_eq!(rt; first_wrong_row(rt.alloc(), &GOOD_TODOS), None);
}

/// What is made of a message without recipients: info alone.
const NO_RECIPIENTS: &[(Due, Came<'static>)] = &[
    (Due::Unlink(b"info/0/23"), Came::Done),
    (Due::Unlink(b"local/0/23"), Came::Done),
    (Due::Unlink(b"remote/0/23"), Came::Done),
    (Due::Stat(b"mess/0/23"), Came::Stat(0)),
    (Due::Open(b"todo/23"), Came::Opened(1)),
    (Due::Read(1, 0), Came::Read(b"u0\0p0\0F\0")),
    (Due::Close(1), Came::Done),
    (Due::Create(b"info/0/23"), Came::Created(1)),
    (Due::Append(1, b"F\0"), Came::Done),
    (Due::Sync(1), Came::Done),
    (Due::Close(1), Came::Done),
    (Due::Give(b"todo/23\0"), Came::Gave),
    (Due::Take, Came::Took(b"+")),
];

/// Whole passes: with and without recipients, and over what an earlier one left.
const PASSES: [Row; 4] = [
    (24, Try::Steps(STEPS, true, true)),
    (24, Try::Tells),
    (23, Try::Steps(NO_RECIPIENTS, false, false)),
    (24, Try::Again),
];

#[test]
fn each_step_is_its_row(rt: HostRuntime) {
    assert_eq!(rt; first_wrong_row(rt.alloc(), &PASSES), None);
}
