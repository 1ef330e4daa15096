// How a file is read to its end.
ghost use Rattle.std.specs.Prelude.{◌≡◌};
ghost use Rattle.send_parts.specs.Readings.{begun_at, read_on, reading_step};
ghost use Rattle.send_parts.specs.Replies.{said_of};

use crate::{Reply, Step, Way};
use call_fs::{Fd, PIECE};

/// Where the reading of a file stands.
#[derive(Clone, Copy)]
pub enum Reading {
    /// It opens the file.
    Opening,
    /// It reads the next piece.
    Going(Fd),
    /// It closes the file, read to its end.
    Closing(Fd),
    /// It closes the file after a failure.
    Shutting(Fd),
}

/// What came of a step of a reading.
#[derive(Clone, Copy)]
pub enum Progress {
    /// It goes on.
    Goes(Reading),
    /// The file was read to its end and closed.
    Whole,
    /// There is no such file.
    Missing,
    /// It failed, and nothing is left open.
    Failed,
}

/// What came of a step of a reading, by its reply.
pub fn read_on(reading: Reading, reply: &Reply<'_>) -> Progress
    ensures { result ≡ read_on reading (said_of reply.now) }
{
    match reading {
        Reading::Opening => match reply.way {
            Way::Fine => Progress::Goes(Reading::Going(reply.fd)),
            Way::Absent => Progress::Missing,
            _ => Progress::Failed,
        },
        Reading::Going(fd) => match reply.way {
            Way::Fine if reply.bytes.len() < PIECE => Progress::Goes(Reading::Closing(fd)),
            Way::Fine => Progress::Goes(Reading::Going(fd)),
            _ => Progress::Goes(Reading::Shutting(fd)),
        },
        Reading::Closing(_) => Progress::Whole,
        Reading::Shutting(_) => Progress::Failed,
    }
}

/// When a reading began that is at this step: at its open.
pub fn begun_at(reading: Reading, begun: u64, now: u64) -> u64
    ensures { result ≡ begun_at reading begun now }
{
    match reading {
        Reading::Opening => now,
        _ => begun,
    }
}

/// The step of a reading: `opening` opens its file, of which so many bytes were read.
pub fn reading_step(reading: Reading, opening: Step, at: u64) -> Step
    ensures { result ≡ reading_step reading opening at }
{
    match reading {
        Reading::Opening => opening,
        Reading::Going(fd) => Step::Read(fd, at),
        Reading::Closing(fd) | Reading::Shutting(fd) => Step::Close(fd),
    }
}
