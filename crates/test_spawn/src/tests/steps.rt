// Steps of a spawner, as data.
ghost use Rattle.call_fs.specs.Columns.{IsMomentIn};

use call_fs::{Answer, Call, Child, DeliveryWords, Fd, FsError, Got, How, Need, Port, Ready};

/// What a spawner needs.
#[derive(Clone, Copy)]
pub enum Due {
    /// To give these bytes to its output.
    Give(&'static [u8]),
    /// To take requests.
    Take,
    /// To open this file.
    Open(&'static [u8]),
    /// To read from this descriptor, at this place.
    Read(u64, u64),
    /// To close it.
    Close(u64),
    /// To start the program of a slot, with a domain, a sender and a recipient.
    Start(u8, &'static [u8], &'static [u8], &'static [u8]),
    /// To start the local delivery of a slot, with the words of its command line and the user's number.
    Deliver(u8, DeliveryWords<'static>, u32),
    /// To give the program of a slot this message.
    Feed(u8, &'static [u8]),
    /// To take what the program of a slot printed.
    Output(u8),
    /// To take its exit status.
    Status(u8),
    /// Nothing can be done.
    Wait,
    /// It has ended with this exit status.
    Ended(u8),
}

/// What comes of it.
#[derive(Clone, Copy)]
pub enum Came {
    /// The bytes were given.
    Gave,
    /// These bytes were taken.
    Took(&'static [u8]),
    /// What is taken from has ended.
    End,
    /// It couldn't be done.
    Failed,
    /// Out of memory.
    Memory,
    /// The file has this descriptor.
    Opened(u64),
    /// These bytes were read.
    Read(&'static [u8]),
    /// A call was refused.
    Refused(FsError),
    /// It was closed.
    Closed,
    /// The program was started.
    Started,
    /// It ended with this exit status.
    Exit(u8),
    /// It crashed.
    Crashed,
    /// Nothing comes: another look.
    Nothing,
}

/// What is ready: requests, and the program of a slot.
pub type Found = (bool, Option<u8>);

/// A step: what is ready, what is due then, and what comes of it.
pub type Step = (Found, Due, Came);

/// Nothing is ready.
pub const NONE: Found = (false, None);

/// Requests are ready.
pub const ASKED: Found = (true, None);

/// What a spawner is told to be ready.
pub fn ready_of(found: Found) -> Ready {
    Ready {
        links: [found.0, false, false, false],
        child: found.1,
    }
}

/// Whether this is what is needed.
pub fn is_due(need: Need<'_>, due: &Due) -> bool {
    match need {
        Need::File(call) => is_call(call, due),
        Need::Give(port, bytes) => is_given(port, bytes, due),
        Need::Take(port) => is_taken(port, due),
        Need::Start(child) => is_started(child, due),
        Need::Wait => matches!(due, Due::Wait),
        Need::Ended(status) => matches!(due, Due::Ended(wanted) if *wanted == status),
        Need::Command(_) => false,
    }
}

/// Whether this call is due.
fn is_call(call: Call<'_>, due: &Due) -> bool {
    match (call, due) {
        (Call::Open(name, How::Read), Due::Open(wanted)) => name == *wanted,
        (Call::ReadAt(fd, at, 8192), Due::Read(file, place)) => fd.0 == *file && at == *place,
        (Call::Close(fd), Due::Close(file)) => fd.0 == *file,
        _ => false,
    }
}

/// Whether these bytes are to be given.
fn is_given(port: Port, bytes: &[u8], due: &Due) -> bool {
    match (port, due) {
        (Port::Output, Due::Give(wanted)) => bytes == *wanted,
        (Port::Program(slot), Due::Feed(wanted, message)) => slot == *wanted && bytes == *message,
        _ => false,
    }
}

/// Whether this is to be taken.
fn is_taken(port: Port, due: &Due) -> bool {
    match (port, due) {
        (Port::Input, Due::Take) => true,
        (Port::Program(slot), Due::Output(wanted)) => slot == *wanted,
        (Port::Status(slot), Due::Status(wanted)) => slot == *wanted,
        _ => false,
    }
}

/// Whether this program is to be started.
fn is_started(child: Child<'_>, due: &Due) -> bool {
    match (child, due) {
        (
            Child::Remote {
                slot,
                domain,
                sender,
                recipient,
            },
            Due::Start(wanted, host, from, to),
        ) => slot == *wanted && domain == *host && sender == *from && recipient == *to,
        (Child::Local { slot, words, uid }, Due::Deliver(wanted, texts, number)) => {
            slot == *wanted && uid == *number && are_words(&words, texts)
        }
        _ => false,
    }
}

/// Whether these are the words of a delivery.
fn are_words(words: &DeliveryWords<'_>, wanted: &DeliveryWords<'static>) -> bool {
    words.user == wanted.user
        && words.home == wanted.home
        && words.local == wanted.local
        && words.dash == wanted.dash
        && words.ext == wanted.ext
        && words.domain == wanted.domain
        && words.sender == wanted.sender
        && words.line == wanted.line
}

/// What is handed in.
pub fn got_of(came: Came) -> Got<'static> {
    match came {
        Came::Gave => Got::Gave,
        Came::Took(bytes) => Got::Took(bytes),
        Came::End => Got::End,
        Came::Memory => Got::Memory,
        Came::Started => Got::Started { pid: 77 },
        Came::Exit(code) => Got::Ended(code),
        Came::Crashed => Got::Crashed,
        Came::Opened(fd) => Got::File(Answer::Opened(Fd(fd)), b""),
        Came::Read(bytes) => Got::File(Answer::Count(bytes.len() as u64), bytes),
        Came::Refused(why) => Got::File(Answer::Refused(why), b""),
        Came::Closed => Got::File(Answer::Done, b""),
        Came::Failed | Came::Nothing => Got::Failed,
    }
}
