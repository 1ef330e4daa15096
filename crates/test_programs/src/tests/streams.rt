// The adapters over streams of a system: readers that are interrupted, a writer that takes little at once, a file that
// is made late, and the clock.

use super::scratch::scratch;
use host_streams::{HostClock, LateFile, ReaderSource, WriterSink};
use mail_bytes::ByteText;
use outside::{Clock, Gave, Sink, Source, Took};
use std::io::{self, ErrorKind, Read, Write};
use std::time::{SystemTime, UNIX_EPOCH};
use std::{fs, process};

/// A reader that is interrupted so often, and then gives one byte.
#[derive(Drop)]
struct Interrupted {
    left: u32,
}

impl Read for Interrupted {
    fn read(&mut self, buf: &mut [u8]) -> io::Result<usize> {
        if self.left > 0 {
            self.left -= 1;
            return Err(io::Error::from(ErrorKind::Interrupted));
        }
        match buf.first_mut() {
            Some(byte) => *byte = b'a',
            None => return Ok(0),
        }
        Ok(1)
    }
}

/// What the first taking of a source answers, whose reader is interrupted so often, and how often it has failed then.
fn first_taking(interruptions: u32) -> (Took, u64) {
    let mut source = ReaderSource::new(Interrupted {
        left: interruptions,
    });
    (source.take(&mut [0; 8]), source.faults())
}

#[test]
fn an_interrupted_read_is_tried_again(rt: HostRuntime) {
    for (interruptions, expected) in [(1000, (Took::Got(1), 0)), (1001, (Took::Failed, 1))] {
        assert!(rt; first_taking(interruptions) == expected, "{interruptions}");
    }
}

/// How many bytes a narrow writer holds at most.
const ROOM: usize = 8;

/// A writer that takes at most three bytes at once, and no more than it has room for; each second write is interrupted.
#[derive(Drop)]
struct Narrow {
    held: ByteText,
    is_ready: bool,
}

impl Write for Narrow {
    fn write(&mut self, bytes: &[u8]) -> io::Result<usize> {
        self.is_ready = !self.is_ready;
        if self.is_ready {
            return Err(io::Error::from(ErrorKind::Interrupted));
        }
        let room = ROOM.saturating_sub(self.held.len());
        let count = bytes.len().min(3).min(room);
        match self.held.extend(&bytes[..count]) {
            Ok(()) => Ok(count),
            Err(_) => Err(io::Error::from(ErrorKind::OutOfMemory)),
        }
    }

    fn flush(&mut self) -> io::Result<()> {
        Ok(())
    }
}

/// What is given, what comes of it, and the count of failures then.
const GIVEN: [(&[u8], Gave, u64); 5] = [
    (b"", Gave::Done, 0),
    (b"abcdefg", Gave::Done, 0),
    (b"hij", Gave::Failed, 1),
    (b"k", Gave::Failed, 2),
    (b"", Gave::Done, 2),
];

/// Whether a sink does as each row says.
fn gives_all<S: Sink>(sink: &mut S) -> bool {
    let mut holds = true;
    for (bytes, gave, faults) in &GIVEN {
        holds = sink.give(bytes) == *gave && sink.faults() == *faults && holds;
    }
    holds
}

#[test]
fn what_a_short_write_left_is_written(rt: HostRuntime) {
    let mut writer = Narrow {
        held: ByteText::new(rt.alloc()),
        is_ready: false,
    };
    let is_given = gives_all(&mut WriterSink::new(&mut writer));
    assert!(rt; is_given && writer.held.is(b"abcdefgh"));
}

/// What a taking answers, how often the source has failed then, and the bytes.
type Taking = (Took, u64, [u8; 8]);

/// Takes up to so many bytes.
fn taking(source: &mut ReaderSource<LateFile>, room: usize) -> Taking {
    let mut into = [0; 8];
    let room = room.min(into.len());
    (source.take(&mut into[..room]), source.faults(), into)
}

/// A buffer into which nothing was read.
const NOTHING: [u8; 8] = [0; 8];

/// Before the file is made: nothing is asked for, then it is missing.
const BEFORE: [Taking; 2] = [(Took::Got(0), 0, NOTHING), (Took::Failed, 1, NOTHING)];

/// Once it is made: its four bytes, and its end.
const AFTER: [Taking; 2] = [
    (Took::Got(4), 1, [b'F', b'a', b'@', b'x', 0, 0, 0, 0]),
    (Took::End, 1, NOTHING),
];

/// Two takings before a file is made, and two after that. A file that can't be made shows in those.
fn takings(rt: &HostRuntime, place: ByteText, path: &str) -> ([Taking; 2], [Taking; 2]) {
    let mut source = ReaderSource::new(LateFile::new(rt, Some(place)));
    let before = [taking(&mut source, 0), taking(&mut source, 8)];
    let _ = fs::write(rt, path, "Fa@x");
    let after = [taking(&mut source, 8), taking(&mut source, 8)];
    (before, after)
}

/// Whether a file that is made only after its source is read as it should be.
fn is_read_late(rt: &HostRuntime, path: &str) -> bool {
    match ByteText::from_slice(rt.alloc(), path.as_bytes()) {
        Ok(place) => {
            let (before, after) = takings(rt, place, path);
            before == BEFORE && after == AFTER
        }
        Err(_) => false,
    }
}

#[test]
fn a_file_is_opened_at_its_first_read(rt: HostRuntime) {
    let root = scratch(&rt, "late");
    let is_read = is_read_late(&rt, root.as_str());
    let is_gone = fs::remove_file(&rt, root.as_str()).is_ok();
    assert!(rt; is_gone && is_read);
}

#[test]
fn without_a_file_each_read_fails(rt: HostRuntime) {
    let mut source = ReaderSource::new(LateFile::new(&rt, None));
    assert!(rt; taking(&mut source, 8) == BEFORE[1]);
}

/// The seconds that the system's clock tells, if it does.
pub fn seconds(rt: &HostRuntime) -> Option<u64> {
    let now = SystemTime::now(rt).ok()?;
    Some(now.duration_since(UNIX_EPOCH).ok()?.as_secs())
}

/// Whether these are moments one after another.
fn are_in_order(before: Option<u64>, told: [u64; 2], after: Option<u64>) -> bool {
    match (before, after) {
        (Some(before), Some(after)) => {
            before <= told[0] && told[0] <= told[1] && told[1] <= after
        }
        _ => false,
    }
}

#[test]
fn the_clock_tells_the_seconds_of_the_system(rt: HostRuntime) {
    let mut clock = HostClock::new(&rt);
    let before = seconds(&rt);
    let told = [clock.now(), clock.now()];
    let after = seconds(&rt);
    assert!(rt; are_in_order(before, told, after));
    assert!(rt; clock.pid() == process::id(rt.process()));
}
