// The lines of a run.

use call_fs::{Answer, Fd, FsError, Got, PIECE, Ready, Stat};
use mail_bytes::{Memory, NameBuf};

/// A line of a run that is a step: the moment, what is ready, what is needed, and what comes of it.
#[derive(Clone, Copy)]
pub(crate) struct Line<'a> {
    /// The moment.
    pub now: u64,
    /// What is ready.
    pub ready: Ready,
    /// What is needed.
    pub need: &'a str,
    /// What comes of it.
    pub came: Option<&'a str>,
}

/// Reads a step; `None` if the line is none.
pub(crate) fn read_line(line: &str) -> Option<Line<'_>> {
    let (now, rest) = line.split_once(' ')?;
    let (links, rest) = rest.split_once(' ')?;
    let (need, came) = match rest.split_once(" = ") {
        Some((need, came)) => (need, Some(came)),
        None => (rest, None),
    };
    Some(Line {
        now: now.parse::<u64>().ok()?,
        ready: ready_of(links)?,
        need,
        came,
    })
}

/// The links that a word says are ready.
fn ready_of(word: &str) -> Option<Ready> {
    let (local, remote) = match word {
        "-" => (false, false),
        "l" => (true, false),
        "r" => (false, true),
        "lr" => (true, true),
        _ => return None,
    };
    Some(Ready {
        links: [false, local, remote, false],
        child: None,
    })
}

/// What comes of a step, by the word for it, the text after it, and the bytes that this stands for.
pub(crate) fn got_of<'a>(word: &str, text: &str, bytes: &'a [u8]) -> Option<Got<'a>> {
    match word {
        "took" => Some(Got::Took(bytes)),
        "gave" => Some(Got::Gave),
        "end" => Some(Got::End),
        "failed" => Some(Got::Failed),
        "nomemory" => Some(Got::Memory),
        "started" => Some(Got::Started {
            pid: text.parse::<u32>().ok()?,
        }),
        "exit" => Some(Got::Ended(text.parse::<u8>().ok()?)),
        "crashed" => Some(Got::Crashed),
        "read" => Some(Got::File(Answer::Count(bytes.len() as u64), bytes)),
        "name" if bytes.len() <= 255 => Some(Got::File(name_of(bytes), b"")),
        "stat" => Some(Got::File(stat_of(text)?, b"")),
        "opened" => Some(Got::File(Answer::Opened(fd_of(text)?), b"")),
        "created" => Some(Got::File(Answer::Created(fd_of(text)?, 9), b"")),
        _ => Some(Got::File(answer_of(word)?, b"")),
    }
}

/// Writes a piece that is read: this text, its second byte as often as that takes.
pub(crate) fn write_piece(piece: &mut Vec<u8>, text: &[u8]) -> Result<(), Memory> {
    let again = text.get(1).copied().unwrap_or(0);
    let (first, rest) = text.split_at(text.len().min(1));
    piece.extend_from_slice(first)?;
    for _ in text.len()..PIECE {
        piece.push(again)?;
    }
    piece.extend_from_slice(rest)
}

/// The name that a search found, if it isn't too long.
fn name_of(bytes: &[u8]) -> Answer {
    let mut name = NameBuf::new();
    match name.extend(bytes) {
        Ok(()) => Answer::Name(name),
        Err(_) => Answer::NoName,
    }
}

/// What is told of a file, by its length and the moment when it was last written.
fn stat_of(text: &str) -> Option<Answer> {
    let (length, moment) = text.split_once(' ')?;
    Some(Answer::Stat(Stat {
        number: 1,
        length: length.parse::<u64>().ok()?,
        moment: moment.parse::<u64>().ok()?,
    }))
}

/// The descriptor of a file that is opened or created.
fn fd_of(text: &str) -> Option<Fd> {
    Some(Fd(text.parse::<u64>().ok()?))
}

/// The answer that a word alone stands for.
fn answer_of(word: &str) -> Option<Answer> {
    match word {
        "ok" => Some(Answer::Done),
        "none" => Some(Answer::NoName),
        "notthere" => Some(Answer::Refused(FsError::NotThere)),
        "exists" => Some(Answer::Refused(FsError::Exists)),
        "fault" => Some(Answer::Refused(FsError::Fault)),
        "memory" => Some(Answer::Refused(FsError::Memory)),
        _ => None,
    }
}

/// The name of a control file, by its place in the order in which they are read, from 0.
pub(crate) fn control_file(at: u64) -> &'static str {
    match at {
        0 => "me",
        1 => "locals",
        2 => "percenthack",
        3 => "virtualdomains",
        4 => "envnoathost",
        5 => "bouncefrom",
        6 => "bouncehost",
        7 => "doublebounceto",
        8 => "doublebouncehost",
        9 => "concurrencylocal",
        10 => "concurrencyremote",
        _ => "queuelifetime",
    }
}
