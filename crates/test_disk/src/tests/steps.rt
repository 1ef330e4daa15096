// Steps over any disk, and what is seen of them.
use call_fs::{Answer, Call, CallFs, Fd, FsError, How, PIECE, perform};
use mail_bytes::Memory;
use std::alloc::Global;
use std::process::Abort;

/// The moment of all calls.
const NOW: u64 = 7;

/// What is done over a disk. Files are told by their names; what a step makes or opens stays open, except by `Close`.
#[derive(Clone, Copy)]
pub enum Step<'a> {
    /// Makes a new empty file.
    Create(&'a [u8]),
    /// Makes a new file with these bytes.
    Make(&'a [u8], &'a [u8]),
    /// Opens a file for reading.
    Open(&'a [u8]),
    /// Reads a file from this place on, so many bytes.
    Read(&'a [u8], u64, u64),
    /// Overwrites a file from this place on.
    Write(&'a [u8], u64, &'a [u8]),
    /// Puts bytes at the end of a file.
    Append(&'a [u8], &'a [u8]),
    /// Cuts a file to this length.
    Cut(&'a [u8], u64),
    /// Waits until a file is on the disk.
    Sync(&'a [u8]),
    /// Opens a file for reading and closes it.
    Close(&'a [u8]),
    /// Gives the file of the first name the second one too.
    Link(&'a [u8], &'a [u8]),
    /// Takes a name away.
    Unlink(&'a [u8]),
    /// Tells a file.
    Stat(&'a [u8]),
    /// Tells the next name of a directory after this one.
    Next(&'a [u8], &'a [u8]),
}

/// What is seen of a step.
#[derive(Clone, Copy, Debug, PartialEq)]
pub enum Seen<'a> {
    /// It was done.
    Done,
    /// A file was made: its descriptor, its number.
    Made(u64, u64),
    /// A number: a descriptor, a count.
    Number(u64),
    /// A file as stat(2) tells it: its number, its length, its moment.
    File(u64, u64, u64),
    /// These bytes: of a read, of a file, of a name.
    Bytes(&'a [u8]),
    /// There is no such name.
    Nothing,
    /// It was refused.
    Refused(FsError),
    /// The number is in use.
    Taken,
}

/// The one assertion: this was seen, as wanted.
pub fn same(rt: &impl Abort, seen: Seen<'_>, wanted: Seen<'_>) {
    assert_eq!(rt; seen, wanted);
}

/// Makes these steps, and compares what is seen of each.
pub fn play<D: CallFs>(
    rt: &impl Abort,
    alloc: Global,
    disk: &mut D,
    script: &[(Step<'_>, Seen<'_>)],
) {
    for (at, (step, wanted)) in script.iter().enumerate() {
        let mut into = [0; PIECE];
        let answer = take_step(alloc, disk, *step, &mut into);
        assert_eq!(rt; told(&answer, &into), *wanted, "at step {at}");
    }
}

/// Makes a step, with room for the bytes of a read.
pub fn take_step<D: CallFs>(
    alloc: Global,
    disk: &mut D,
    step: Step<'_>,
    into: &mut [u8; PIECE],
) -> Answer {
    match step {
        Step::Create(name) => perform(alloc, disk, NOW, Call::CreateExcl(name), into),
        Step::Make(name, bytes) => make(alloc, disk, name, bytes, into),
        Step::Open(name) => perform(alloc, disk, NOW, Call::Open(name, How::Read), into),
        Step::Read(name, at, len) => read(alloc, disk, name, at, len, into),
        Step::Write(name, at, bytes) => write(alloc, disk, name, at, bytes, into),
        Step::Append(name, bytes) => append(alloc, disk, name, bytes, into),
        Step::Cut(name, len) => cut(alloc, disk, name, len, into),
        Step::Sync(name) => sync(alloc, disk, name, into),
        Step::Close(name) => close(alloc, disk, name, into),
        Step::Link(old, new) => perform(alloc, disk, NOW, Call::Link(old, new), into),
        Step::Unlink(name) => perform(alloc, disk, NOW, Call::Unlink(name), into),
        Step::Stat(name) => perform(alloc, disk, NOW, Call::Stat(name), into),
        Step::Next(dir, after) => perform(alloc, disk, NOW, Call::NextName(dir, after), into),
    }
}

/// Makes a new file with these bytes; its descriptor and its number.
fn make<D: CallFs>(
    alloc: Global,
    disk: &mut D,
    name: &[u8],
    bytes: &[u8],
    into: &mut [u8; PIECE],
) -> Answer {
    let made = perform(alloc, disk, NOW, Call::CreateExcl(name), into);
    let Answer::Created(fd, number) = made else {
        return made;
    };
    match perform(alloc, disk, NOW, Call::Append(fd, bytes), into) {
        Answer::Done => Answer::Created(fd, number),
        refused => refused,
    }
}

/// Reads at most so many bytes of a file.
fn read<D: CallFs>(
    alloc: Global,
    disk: &mut D,
    name: &[u8],
    at: u64,
    len: u64,
    into: &mut [u8; PIECE],
) -> Answer {
    let len = len.min(PIECE as u64);
    match perform(alloc, disk, NOW, Call::Open(name, How::Read), into) {
        Answer::Opened(fd) => perform(alloc, disk, NOW, Call::ReadAt(fd, at, len), into),
        refused => refused,
    }
}

/// Overwrites what lies of a file from a place on.
fn write<D: CallFs>(
    alloc: Global,
    disk: &mut D,
    name: &[u8],
    at: u64,
    bytes: &[u8],
    into: &mut [u8; PIECE],
) -> Answer {
    match perform(alloc, disk, NOW, Call::Open(name, How::Write), into) {
        Answer::Opened(fd) => perform(alloc, disk, NOW, Call::WriteAt(fd, at, bytes), into),
        refused => refused,
    }
}

/// Puts bytes at the end of a file.
fn append<D: CallFs>(
    alloc: Global,
    disk: &mut D,
    name: &[u8],
    bytes: &[u8],
    into: &mut [u8; PIECE],
) -> Answer {
    match perform(alloc, disk, NOW, Call::Open(name, How::Append), into) {
        Answer::Opened(fd) => perform(alloc, disk, NOW, Call::Append(fd, bytes), into),
        refused => refused,
    }
}

/// Cuts a file.
fn cut<D: CallFs>(
    alloc: Global,
    disk: &mut D,
    name: &[u8],
    len: u64,
    into: &mut [u8; PIECE],
) -> Answer {
    match perform(alloc, disk, NOW, Call::Open(name, How::Write), into) {
        Answer::Opened(fd) => perform(alloc, disk, NOW, Call::Truncate(fd, len), into),
        refused => refused,
    }
}

/// Waits until a file is on the disk.
fn sync<D: CallFs>(alloc: Global, disk: &mut D, name: &[u8], into: &mut [u8; PIECE]) -> Answer {
    match perform(alloc, disk, NOW, Call::Open(name, How::Read), into) {
        Answer::Opened(fd) => perform(alloc, disk, NOW, Call::Sync(fd), into),
        refused => refused,
    }
}

/// Opens a file and closes it.
fn close<D: CallFs>(alloc: Global, disk: &mut D, name: &[u8], into: &mut [u8; PIECE]) -> Answer {
    match perform(alloc, disk, NOW, Call::Open(name, How::Read), into) {
        Answer::Opened(fd) => perform(alloc, disk, NOW, Call::Close(fd), into),
        refused => refused,
    }
}

/// What is seen of an answer, with the bytes that a read gave.
pub fn told<'a>(answer: &'a Answer, bytes: &'a [u8]) -> Seen<'a> {
    match answer {
        Answer::Created(fd, number) => Seen::Made(fd.0, *number),
        Answer::Opened(fd) => Seen::Number(fd.0),
        Answer::Count(count) => text(bytes.get(..*count as usize)),
        Answer::Done => Seen::Done,
        Answer::Stat(stat) => Seen::File(stat.number, stat.length, stat.moment),
        Answer::Name(name) => Seen::Bytes(name.as_slice()),
        Answer::NoName => Seen::Nothing,
        Answer::Refused(why) => Seen::Refused(*why),
    }
}

/// What is seen of bytes that may be there.
pub fn text(found: Option<&[u8]>) -> Seen<'_> {
    match found {
        Some(bytes) => Seen::Bytes(bytes),
        None => Seen::Nothing,
    }
}

/// What is seen of a change that only memory may fail.
pub fn put(outcome: Result<(), Memory>) -> Seen<'static> {
    match outcome {
        Ok(()) => Seen::Done,
        Err(_) => Seen::Refused(FsError::Memory),
    }
}

/// What is seen of a number.
pub fn number(outcome: Result<u64, FsError>) -> Seen<'static> {
    match outcome {
        Ok(number) => Seen::Number(number),
        Err(why) => Seen::Refused(why),
    }
}

/// What is seen of a call that tells nothing.
pub fn done(outcome: Result<(), FsError>) -> Seen<'static> {
    match outcome {
        Ok(()) => Seen::Done,
        Err(why) => Seen::Refused(why),
    }
}

/// What is seen of a call that makes a file.
pub fn made(outcome: Result<(Fd, u64), FsError>) -> Seen<'static> {
    match outcome {
        Ok((fd, number)) => Seen::Made(fd.0, number),
        Err(why) => Seen::Refused(why),
    }
}
