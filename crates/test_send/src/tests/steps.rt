// Steps of a note and of a return, as data.

use address_rules::{ControlError, ControlFile, Controls};
use call_fs::{Answer, Call, Child, Fd, FsError, Got, How, Need, Port, Stat};
use mail_bytes::ByteText;
use std::alloc::Global;

/// What is needed.
#[derive(Clone, Copy)]
pub enum Due {
    /// To open this file.
    Open(&'static [u8], How),
    /// To create it.
    Create(&'static [u8]),
    /// To ask of what length it is.
    Stat(&'static [u8]),
    /// To read from this descriptor, at this place, so many bytes.
    Read(u64, u64, u64),
    /// To append these bytes.
    Append(u64, &'static [u8]),
    /// To append so many bytes.
    AppendMany(u64, usize),
    /// To sync.
    Sync(u64),
    /// To close.
    Close(u64),
    /// To unlink this file.
    Unlink(&'static [u8]),
    /// To start the injector of a bounce with so much room.
    Start(u64),
    /// To give it these bytes.
    Feed(&'static [u8]),
    /// To take its exit status.
    Status,
    /// Nothing.
    Wait,
}

/// What comes of it.
#[derive(Clone, Copy)]
pub enum Came {
    /// The file has this descriptor.
    Opened(u64),
    /// The new file has it.
    Created(u64),
    /// The file has so many bytes.
    Length(u64),
    /// These bytes were read.
    Read(&'static [u8]),
    /// The call was made.
    Done,
    /// It was refused.
    Refused(FsError),
    /// The program was started.
    Started(u32),
    /// The bytes were given.
    Gave,
    /// The program ended with this exit status.
    Exit(u8),
    /// It crashed.
    Crashed,
    /// It couldn't be done.
    Failed,
    /// Out of memory.
    Memory,
}

/// A step: what is due, and what comes of it.
pub type Step = (Due, Came);

/// The call failed.
pub const FAULT: Came = Came::Refused(FsError::Fault);

/// The file is missing.
pub const MISSING: Came = Came::Refused(FsError::NotThere);

/// Whether this is what is needed.
pub fn is_due(need: Need<'_>, due: &Due) -> bool {
    match need {
        Need::File(call) => is_named(call, due) || is_open(call, due),
        Need::Start(Child::Bounce { room }) => matches!(due, Due::Start(wanted) if *wanted == room),
        Need::Give(Port::Program(0), bytes) => {
            matches!(due, Due::Feed(wanted) if bytes == *wanted)
        }
        Need::Take(Port::Status(0)) => matches!(due, Due::Status),
        Need::Wait => matches!(due, Due::Wait),
        _ => false,
    }
}

/// Whether this call of a name is due.
fn is_named(call: Call<'_>, due: &Due) -> bool {
    match (call, due) {
        (Call::Open(name, how), Due::Open(wanted, mode)) => name == *wanted && how == *mode,
        (Call::CreateExcl(name), Due::Create(wanted)) => name == *wanted,
        (Call::Stat(name), Due::Stat(wanted)) => name == *wanted,
        (Call::Unlink(name), Due::Unlink(wanted)) => name == *wanted,
        _ => false,
    }
}

/// Whether this call of an open file is due.
fn is_open(call: Call<'_>, due: &Due) -> bool {
    match (call, due) {
        (Call::ReadAt(fd, at, len), Due::Read(file, place, most)) => {
            fd.0 == *file && at == *place && len == *most
        }
        (Call::Append(fd, bytes), Due::Append(file, wanted)) => fd.0 == *file && bytes == *wanted,
        (Call::Append(fd, bytes), Due::AppendMany(file, count)) => {
            fd.0 == *file && bytes.len() == *count
        }
        (Call::Sync(fd), Due::Sync(file)) => fd.0 == *file,
        (Call::Close(fd), Due::Close(file)) => fd.0 == *file,
        _ => false,
    }
}

/// What is handed in.
pub fn got_of(came: Came) -> Got<'static> {
    match came {
        Came::Opened(fd) => Got::File(Answer::Opened(Fd(fd)), b""),
        Came::Created(fd) => Got::File(Answer::Created(Fd(fd), 9), b""),
        Came::Length(length) => Got::File(
            Answer::Stat(Stat {
                number: 9,
                length,
                moment: 0,
            }),
            b"",
        ),
        Came::Read(bytes) => Got::File(Answer::Count(bytes.len() as u64), bytes),
        Came::Done => Got::File(Answer::Done, b""),
        Came::Refused(why) => Got::File(Answer::Refused(why), b""),
        Came::Started(pid) => Got::Started { pid },
        Came::Gave => Got::Gave,
        Came::Exit(status) => Got::Ended(status),
        Came::Crashed => Got::Crashed,
        Came::Failed => Got::Failed,
        Came::Memory => Got::Memory,
    }
}

/// What these control files say, and no others are there.
pub fn controls(alloc: Global, some: &[(ControlFile, &[u8])]) -> Result<Controls, ControlError> {
    let mut all = [
        None, None, None, None, None, None, None, None, None, None, None, None,
    ];
    for (file, bytes) in some {
        all[file.place()] = ByteText::from_slice(alloc, bytes).ok();
    }
    Controls::read(alloc, &all)
}
