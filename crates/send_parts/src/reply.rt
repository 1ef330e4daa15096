// What came of a step.
ghost use Rattle.std.specs.Prelude.{◌≡◌};
ghost use Rattle.call_fs.specs.Program.{came_of};
ghost use Rattle.send_parts.specs.Replies.{answered, is_fine, plain, said, said_of, with_bytes, with_fd, with_stat};

use call_fs::{Answer, Fd, FsError, Got, Stat};

/// How a step came out.
#[derive(Clone, Copy)]
pub enum Way {
    /// It was done.
    Fine,
    /// There is no more: no next name, or the end of a pipe.
    Over,
    /// The name or the directory is missing.
    Absent,
    /// It failed.
    Broken,
    /// Out of memory.
    NoMemory,
}

/// What came of a step: how it came out and, if it gave that, a descriptor, the state of a file, or bytes: of a read, of a
/// taking or of a name. What it didn't give is 0 or empty.
#[derive(Clone, Copy)]
pub struct Reply<'a> {
    /// How it came out.
    pub way: Way,
    /// The descriptor.
    pub fd: Fd,
    /// The state of the file.
    pub stat: Stat,
    /// The bytes.
    pub bytes: &'a [u8],
}

/// What was handed in, as a reply.
pub fn reply_of<'a>(got: &'a Got<'_>) -> Reply<'a>
    ensures { said_of result ≡ said (came_of got.now) }
{
    match got {
        Got::File(answer, bytes) => answered(answer, bytes),
        Got::Took(bytes) => with_bytes(bytes),
        Got::End => plain(Way::Over),
        Got::Ended(0) => plain(Way::Fine),
        Got::Ended(_) | Got::Crashed | Got::Failed => plain(Way::Broken),
        Got::Gave | Got::Started { .. } => plain(Way::Fine),
        Got::Memory => plain(Way::NoMemory),
    }
}

/// Whether a step was done.
pub fn is_fine(way: Way) -> bool
    ensures { result ≡ is_fine way }
{
    match way {
        Way::Fine => true,
        _ => false,
    }
}

/// The answer to a file call, as a reply.
fn answered<'a>(answer: &'a Answer, bytes: &'a [u8]) -> Reply<'a>
    ensures { said_of result ≡ answered answer.now bytes.now }
{
    match answer {
        Answer::Created(fd, _) | Answer::Opened(fd) => with_fd(*fd),
        Answer::Count(_) => with_bytes(bytes),
        Answer::Done => plain(Way::Fine),
        Answer::Stat(stat) => with_stat(*stat),
        Answer::Name(name) => with_bytes(name.as_slice()),
        Answer::NoName => plain(Way::Over),
        Answer::Refused(FsError::NotThere) => plain(Way::Absent),
        Answer::Refused(FsError::Memory) => plain(Way::NoMemory),
        Answer::Refused(_) => plain(Way::Broken),
    }
}

/// A reply that gives nothing.
fn plain<'a>(way: Way) -> Reply<'a>
    ensures { said_of result ≡ plain way }
{
    Reply {
        way,
        fd: Fd(0),
        stat: Stat {
            number: 0,
            length: 0,
            moment: 0,
        },
        bytes: &[],
    }
}

/// A reply that gives a descriptor.
fn with_fd<'a>(fd: Fd) -> Reply<'a>
    ensures { said_of result ≡ with_fd fd }
{
    let mut reply = plain(Way::Fine);
    reply.fd = fd;
    reply
}

/// A reply that gives the state of a file.
fn with_stat<'a>(stat: Stat) -> Reply<'a>
    ensures { said_of result ≡ with_stat stat }
{
    let mut reply = plain(Way::Fine);
    reply.stat = stat;
    reply
}

/// A reply that gives bytes.
fn with_bytes(bytes: &[u8]) -> Reply<'_>
    ensures { said_of result ≡ with_bytes bytes.now }
{
    let mut reply = plain(Way::Fine);
    reply.bytes = bytes;
    reply
}
