// Six threads of `work` meet at the gate: each is held until all six have come. Then the second mail is held until the first mail's
// thread has come to its next mail. None is held for ever: each looks a number of times, and goes on.

use crate::calling::call_with_threads;
use crate::crowded_disk::CrowdedDisk;
use call_fs::Recorder;
use mail_bytes::ByteText;
use mem_fs::MemFs;
use outside::{Gate, MemClock, MemSink, MemSource};
use std::alloc::{AllocError, Global};
use std::io;
use std::sync::Wait;
use std::sync::atomic::{AtomicU64, Ordering};
use std::thread::{Threads, yield_now};

/// How often one that waits looks.
const MOST_POLLS: u32 = 1_000_000;

/// All six.
const ALL: u64 = 63;

/// All six, and the first one's thread at its next mail.
const MORE: u64 = 127;

/// The script, and how what is printed of it ends.
const SCRIPT: &[u8] = b"mail a a@x b@y : hi\nmail b c@x d@y : ho\nmail c e@x f@y : hu\n";

const END: &[u8] = b"pid 0\na 0\na.1 delivered\nb 0\nb.1 delivered\nc 0\nc.1 delivered\n";

/// Who has come, and who was not met.
#[derive(Drop)]
struct Meeting {
    came: AtomicU64,
    late: AtomicU64,
}

impl Meeting {
    /// Nobody has come.
    fn new() -> Self {
        Meeting {
            came: AtomicU64::new(0),
            late: AtomicU64::new(0),
        }
    }

    /// Whether one of these may go on: all six have come, and for the second mail the first one's thread has come to its next.
    fn is_open(&self, bit: u64) -> bool {
        let came = self.came.load(Ordering::SeqCst);
        came == MORE || (came == ALL && bit != 2)
    }

    /// Whether all came, and none was given up.
    fn is_done(&self) -> bool {
        self.is_open(2) && self.late.load(Ordering::SeqCst) == 0
    }
}

/// The bit of one of the six: the first mail before its second step, the second one before its ninth, and the four members. One more
/// is of the third mail before its first step, which the first one's thread runs.
fn bit(mail: u64, step: u64) -> u64 {
    match (mail, step) {
        (1, 2) => 1,
        (2, 9) => 2,
        (0, 1) => 4,
        (0, 2) => 8,
        (0, 3) => 16,
        (0, 4) => 32,
        (3, 1) => 64,
        _ => 0,
    }
}

impl Gate for Meeting {
    fn pause(&self, mail: u64, step: u64) {
        let bit = bit(mail, step);
        if bit == 0 {
            return;
        }
        self.came.fetch_or(bit, Ordering::SeqCst);
        for _ in 0..MOST_POLLS {
            if self.is_open(bit) {
                return;
            }
            yield_now();
        }
        self.late.fetch_or(bit, Ordering::SeqCst);
    }
}

/// Whether all six met, the first mail's thread came to its next mail meanwhile, and the mails were delivered.
pub(crate) fn is_met<H: Threads + Wait + Sync>(rt: &HostRuntime, handle: &H) -> io::Result<bool> {
    let alloc = rt.alloc();
    let meeting = Meeting::new();
    let out = MemSink::new(alloc, 10_000_000, Vec::new(alloc))?;
    let log = MemSink::new(alloc, 100, Vec::new(alloc))?;
    let is_right = works(rt, handle, &words(alloc)?, &meeting, out, log);
    Ok(is_right && meeting.is_done())
}

/// The words of the call.
fn words(alloc: Global) -> Result<Vec<String>, AllocError> {
    let mut words = Vec::new(alloc);
    for word in ["work", "--threads", "2"] {
        words.push(String::from_str(alloc, word)?)?;
    }
    Ok(words)
}

/// Whether the call ends with 0, and with what it is to print. It holds forms of every kind, so nothing branches here, and each is
/// dropped by name.
fn works<H: Threads + Wait + Sync>(
    rt: &HostRuntime,
    handle: &H,
    words: &[String],
    meeting: &Meeting,
    mut out: MemSink,
    mut log: MemSink,
) -> bool {
    let alloc = rt.alloc();
    let disk = MemFs::new(alloc, Vec::new(alloc), Vec::new(alloc)).unwrap();
    let mut disk = Recorder::new(alloc, CrowdedDisk::new(disk, 0));
    let mut message = MemSource::new(script(alloc), Vec::new(alloc));
    let mut envelope = MemSource::new(Vec::new(alloc), Vec::new(alloc));
    let mut clock = MemClock::new(Vec::new(alloc), 1);
    let status = call_with_threads(
        rt,
        handle,
        words,
        &mut disk,
        &mut message,
        &mut envelope,
        &mut out,
        &mut log,
        &mut clock,
        meeting,
    );
    drop(disk);
    drop(message);
    drop(envelope);
    drop(clock);
    let is_right = status == 0 && out.taken().ends_with(END);
    drop(out);
    drop(log);
    is_right
}

/// The script, in one piece.
fn script(alloc: Global) -> Vec<ByteText> {
    let mut pieces = Vec::new(alloc);
    if let Ok(text) = ByteText::from_slice(alloc, SCRIPT) {
        let _ = pieces.push(text);
    }
    pieces
}
