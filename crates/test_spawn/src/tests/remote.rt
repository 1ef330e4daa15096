// The remote spawner.

use super::steps::{ASKED, Came, Due, NONE, Step, got_of, is_due, ready_of};
use call_fs::FsError;
use remote_spawn::RemoteSpawn;
use std::alloc::Global;

/// A request for delivery 0, and the greeting, the taking of it, and the reading of its message.
const ASK: &[u8] = b"\01/1\0a@x\0b@y\0";

const GREETS: Step = (ASKED, Due::Give(b"x"), Came::Gave);

const TAKES: Step = (ASKED, Due::Take, Came::Took(ASK));

const OPENS: Step = (ASKED, Due::Open(b"mess/1/1"), Came::Opened(4));

const READS: Step = (ASKED, Due::Read(4, 0), Came::Read(b"hi\n"));

const CLOSES: Step = (ASKED, Due::Close(4), Came::Closed);

const STARTS: Step = (ASKED, Due::Start(0, b"y", b"a@x", b"b@y"), Came::Started);

const FEEDS: Step = (ASKED, Due::Feed(0, b"hi\n"), Came::Gave);

/// Its program has ended.
const ENDED: (bool, Option<u8>) = (false, Some(0));

/// A field of 4097 bytes, and a whole piece of a message.
const LONG: [u8; 4097] = [b'a'; 4097];

const PIECE: [u8; 8192] = [b'm'; 8192];

/// What is told of requests for which no program runs.
const BAD: &[u8] = b"\0ZBad request. (#4.3.0)\0";

const UNABLE: &[u8] = b"\0ZUnable to open the message. (#4.3.0)\0";

const NO_MEMORY: &[u8] = b"\0ZOut of memory. (#4.3.0)\0";

const CRASHED: &[u8] = b"\0Zqmail-remote crashed.\n\0";

/// A run in three parts.
type Run = [&'static [Step]; 3];

/// Runs: each step with what is ready, what is due then, and what comes of it.
static RUNS: [Run; 8] = [
    // A delivery, and the end of the requests.
    [
        &[
            GREETS,
            TAKES,
            OPENS,
            READS,
            CLOSES,
            STARTS,
            FEEDS,
            (ASKED, Due::Take, Came::End),
            (NONE, Due::Wait, Came::Nothing),
            (ENDED, Due::Output(0), Came::Took(b"r\0Ko")),
            (NONE, Due::Output(0), Came::Took(b"k\0")),
            (NONE, Due::Output(0), Came::End),
            (NONE, Due::Status(0), Came::Exit(0)),
            (NONE, Due::Give(b"\0Kok\0"), Came::Gave),
            (NONE, Due::Ended(0), Came::Nothing),
        ],
        &[],
        &[],
    ],
    // A request that comes in pieces; what is ready first; two messages; a slot that is used again.
    [
        &[
            GREETS,
            (ASKED, Due::Take, Came::Took(b"\x771/24")),
            (NONE, Due::Wait, Came::Nothing),
            (ASKED, Due::Take, Came::Took(b"\0\0b@c@y\0\x02\x31/1\0")),
            (NONE, Due::Open(b"mess/1/24"), Came::Opened(9)),
            (NONE, Due::Read(9, 0), Came::Read(&PIECE)),
            (NONE, Due::Read(9, 8192), Came::Read(b"")),
            (NONE, Due::Close(9), Came::Closed),
            (NONE, Due::Start(119, b"y", b"", b"b@c@y"), Came::Started),
            (NONE, Due::Feed(119, &PIECE), Came::Failed),
            ((true, Some(119)), Due::Take, Came::Took(b"s@\0r@\0")),
            (NONE, Due::Open(b"mess/1/1"), Came::Opened(4)),
            (NONE, Due::Read(4, 0), Came::Read(b"")),
            (NONE, Due::Close(4), Came::Closed),
            (NONE, Due::Start(2, b"", b"s@", b"r@"), Came::Started),
            (NONE, Due::Feed(2, b""), Came::Gave),
            ((false, Some(5)), Due::Wait, Came::Nothing),
            ((false, Some(119)), Due::Output(119), Came::End),
            (ASKED, Due::Status(119), Came::Failed),
            (NONE, Due::Give(b"wZqmail-remote crashed.\n\0"), Came::Gave),
            ((false, Some(119)), Due::Wait, Came::Nothing),
            (
                (true, Some(2)),
                Due::Take,
                Came::Took(b"\x02\x31/1\0a\0b@y\0\x77\x31/1\0a\0b@y\0"),
            ),
            (NONE, Due::Give(b"\x02ZBad request. (#4.3.0)\0"), Came::Gave),
            (NONE, Due::Open(b"mess/1/1"), Came::Opened(4)),
            (NONE, Due::Read(4, 0), Came::Read(b"m")),
            (NONE, Due::Close(4), Came::Closed),
            (NONE, Due::Start(119, b"y", b"a", b"b@y"), Came::Started),
        ],
        &[],
        &[],
    ],
    // Two requests in one taking, of which the first is bad, and the end while a program runs.
    [
        &[
            GREETS,
            (
                ASKED,
                Due::Take,
                Came::Took(b"\x03\x31/1\0a@x\0b\0\01/1\0a@x\0b@y\0\x05\x31"),
            ),
            (
                ASKED,
                Due::Give(b"\x03ZBad request. (#4.3.0)\0"),
                Came::Gave,
            ),
            OPENS,
            READS,
            CLOSES,
            STARTS,
            FEEDS,
            (ASKED, Due::Take, Came::End),
            ((true, Some(0)), Due::Output(0), Came::Took(b"sno\0Zx\0")),
            (NONE, Due::Output(0), Came::End),
            (NONE, Due::Status(0), Came::Exit(0)),
            (NONE, Due::Give(b"\0Znox\0"), Came::Gave),
            (NONE, Due::Ended(0), Came::Nothing),
        ],
        &[],
        &[],
    ],
    // A field that is too long, while a program runs.
    [
        &[
            GREETS,
            TAKES,
            OPENS,
            READS,
            CLOSES,
            STARTS,
            FEEDS,
            (ASKED, Due::Take, Came::Took(b"\x07")),
            (ASKED, Due::Take, Came::Took(&LONG)),
            (ASKED, Due::Wait, Came::Nothing),
            ((true, Some(0)), Due::Output(0), Came::End),
            (ASKED, Due::Status(0), Came::Crashed),
            (ASKED, Due::Give(CRASHED), Came::Gave),
            (ASKED, Due::Ended(91), Came::Nothing),
        ],
        &[],
        &[],
    ],
    // Failed gives and takings.
    [
        &[
            GREETS,
            (ASKED, Due::Take, Came::Failed),
            (ASKED, Due::Ended(54), Came::Nothing),
        ],
        &[],
        &[],
    ],
    [
        &[
            GREETS,
            TAKES,
            OPENS,
            READS,
            CLOSES,
            STARTS,
            FEEDS,
            (ENDED, Due::Output(0), Came::Failed),
            (ASKED, Due::Ended(54), Came::Nothing),
        ],
        &[],
        &[],
    ],
    [
        &[
            (ASKED, Due::Give(b"x"), Came::Failed),
            (ASKED, Due::Ended(53), Came::Nothing),
        ],
        &[],
        &[],
    ],
    [
        &[
            GREETS,
            (ASKED, Due::Take, Came::Took(b"\x78\x31/1\0a@x\0b@y\0")),
            (ASKED, Due::Give(b"xZBad request. (#4.3.0)\0"), Came::Failed),
            (NONE, Due::Ended(53), Came::Nothing),
        ],
        &[],
        &[],
    ],
];

/// Looks, and compares what is due; hands in what comes, if anything does. Whether all was as it should be.
fn is_step(alloc: Global, spawner: &mut RemoteSpawn, step: &Step) -> bool {
    spawner.look(5, ready_of(step.0));
    let is_right = is_due(spawner.need(), &step.1);
    match step.2 {
        Came::Nothing => is_right,
        came => is_right && spawner.done(alloc, got_of(came)).is_ok(),
    }
}

/// Whether these steps all go as they should.
fn are_steps(alloc: Global, spawner: &mut RemoteSpawn, steps: &[Step]) -> bool {
    for step in steps {
        if !is_step(alloc, spawner, step) {
            return false;
        }
    }
    true
}

/// Whether all parts of a run do, one after the other.
fn goes_so(alloc: Global, spawner: &mut RemoteSpawn, run: &Run) -> bool {
    for part in run {
        if !are_steps(alloc, spawner, part) {
            return false;
        }
    }
    true
}

/// Whether a run of a new spawner does.
fn holds(alloc: Global, run: &Run) -> bool {
    match RemoteSpawn::new(alloc) {
        Ok(mut spawner) => goes_so(alloc, &mut spawner, run),
        Err(_) => false,
    }
}

/// Which run goes wrong first; none if none does.
fn first_wrong(alloc: Global, runs: &[Run]) -> Option<usize> {
    for (at, run) in runs.iter().enumerate() {
        if !holds(alloc, run) {
            return Some(at);
        }
    }
    None
}

#[test]
fn each_step_is_its_row(rt: HostRuntime) {
    assert_eq!(rt; first_wrong(rt.alloc(), &RUNS), None);
}

/// Nothing more can be done.
const RESTS: Step = (NONE, Due::Wait, Came::Nothing);

/// What follows a bad request.
const REFUSED: [Step; 2] = [(ASKED, Due::Give(BAD), Came::Gave), RESTS];

/// A message file that isn't one: of no number, of a split that isn't its own, of number 0, of a number past the last, and
/// with more before or after it; and a recipient without `@`.
static BAD_REQUESTS: [Run; 9] = [
    [
        &[GREETS],
        &[(ASKED, Due::Take, Came::Took(b"\0\0a@x\0b@y\0"))],
        &REFUSED,
    ],
    [
        &[GREETS],
        &[(ASKED, Due::Take, Came::Took(b"\01\0a@x\0b@y\0"))],
        &REFUSED,
    ],
    [
        &[GREETS],
        &[(ASKED, Due::Take, Came::Took(b"\02/1\0a@x\0b@y\0"))],
        &REFUSED,
    ],
    [
        &[GREETS],
        &[(ASKED, Due::Take, Came::Took(b"\00/0\0a@x\0b@y\0"))],
        &REFUSED,
    ],
    [
        &[GREETS],
        &[(ASKED, Due::Take, Came::Took(b"\01/01\0a@x\0b@y\0"))],
        &REFUSED,
    ],
    [
        &[GREETS],
        &[(
            ASKED,
            Due::Take,
            Came::Took(b"\06/18446744073709551616\0a@x\0b@y\0"),
        )],
        &REFUSED,
    ],
    [
        &[GREETS],
        &[(ASKED, Due::Take, Came::Took(b"\01/1/\0a@x\0b@y\0"))],
        &REFUSED,
    ],
    [
        &[GREETS],
        &[(ASKED, Due::Take, Came::Took(b"\0mess/1/1\0a@x\0b@y\0"))],
        &REFUSED,
    ],
    [
        &[GREETS],
        &[(ASKED, Due::Take, Came::Took(b"\01/1\0a@x\0\0"))],
        &REFUSED,
    ],
];

#[test]
fn bad_requests_are_told(rt: HostRuntime) {
    assert_eq!(rt; first_wrong(rt.alloc(), &BAD_REQUESTS), None);
}

/// A request that comes to no program: what comes of its last steps, and its report.
static STOPPED: [Run; 8] = [
    [
        &[GREETS, TAKES],
        &[(
            ASKED,
            Due::Open(b"mess/1/1"),
            Came::Refused(FsError::NotThere),
        )],
        &[(ASKED, Due::Give(UNABLE), Came::Gave), RESTS],
    ],
    [
        &[GREETS, TAKES],
        &[(ASKED, Due::Open(b"mess/1/1"), Came::Refused(FsError::Fault))],
        &[(ASKED, Due::Give(UNABLE), Came::Gave), RESTS],
    ],
    [
        &[GREETS, TAKES],
        &[(
            ASKED,
            Due::Open(b"mess/1/1"),
            Came::Refused(FsError::Memory),
        )],
        &[(ASKED, Due::Give(NO_MEMORY), Came::Gave), RESTS],
    ],
    [
        &[GREETS, TAKES],
        &[
            OPENS,
            (ASKED, Due::Read(4, 0), Came::Refused(FsError::Fault)),
            CLOSES,
        ],
        &[(ASKED, Due::Give(UNABLE), Came::Gave), RESTS],
    ],
    [
        &[GREETS, TAKES],
        &[
            OPENS,
            (ASKED, Due::Read(4, 0), Came::Read(&PIECE)),
            (ASKED, Due::Read(4, 8192), Came::Refused(FsError::Fault)),
            CLOSES,
        ],
        &[(ASKED, Due::Give(UNABLE), Came::Gave), RESTS],
    ],
    [
        &[GREETS, TAKES],
        &[
            OPENS,
            READS,
            CLOSES,
            (ASKED, Due::Start(0, b"y", b"a@x", b"b@y"), Came::Failed),
        ],
        &[(ASKED, Due::Give(CRASHED), Came::Gave), RESTS],
    ],
    [
        &[GREETS, TAKES],
        &[
            OPENS,
            READS,
            CLOSES,
            (ASKED, Due::Start(0, b"y", b"a@x", b"b@y"), Came::Memory),
        ],
        &[(ASKED, Due::Give(NO_MEMORY), Came::Gave), RESTS],
    ],
    [
        &[GREETS, TAKES],
        &[
            OPENS,
            READS,
            CLOSES,
            STARTS,
            FEEDS,
            (ENDED, Due::Output(0), Came::End),
            (NONE, Due::Status(0), Came::Exit(0)),
        ],
        &[
            (
                ASKED,
                Due::Give(b"\0Zqmail-remote produced no output.\n\0"),
                Came::Gave,
            ),
            RESTS,
        ],
    ],
];

#[test]
fn requests_without_a_program_are_told(rt: HostRuntime) {
    assert_eq!(rt; first_wrong(rt.alloc(), &STOPPED), None);
}

/// A program that runs.
const RUNNING: [Step; 7] = [GREETS, TAKES, OPENS, READS, CLOSES, STARTS, FEEDS];

/// What it printed, up to its end.
const PRINTS: Step = (ENDED, Due::Output(0), Came::Took(b"r\0Kok\0"));

const PRINTED: Step = (ENDED, Due::Output(0), Came::End);

/// Nothing more can be done until another look.
const WAITS: Step = (ENDED, Due::Wait, Came::Nothing);

/// How a program ended that printed a success, and the report of it.
static ENDS: [Run; 4] = [
    [
        &RUNNING,
        &[PRINTS, PRINTED, (ENDED, Due::Status(0), Came::Exit(0))],
        &[(ENDED, Due::Give(b"\0Kok\0"), Came::Gave), WAITS],
    ],
    [
        &RUNNING,
        &[PRINTS, PRINTED, (ENDED, Due::Status(0), Came::Exit(111))],
        &[
            (
                ENDED,
                Due::Give(b"\0ZUnable to run qmail-remote.\n\0"),
                Came::Gave,
            ),
            WAITS,
        ],
    ],
    [
        &RUNNING,
        &[PRINTS, PRINTED, (ENDED, Due::Status(0), Came::Exit(1))],
        &[
            (
                ENDED,
                Due::Give(b"\0DUnable to run qmail-remote.\n\0"),
                Came::Gave,
            ),
            WAITS,
        ],
    ],
    [
        &RUNNING,
        &[PRINTS, PRINTED, (ENDED, Due::Status(0), Came::Crashed)],
        &[(ENDED, Due::Give(CRASHED), Came::Gave), WAITS],
    ],
];

#[test]
fn each_end_of_a_program_is_told(rt: HostRuntime) {
    assert_eq!(rt; first_wrong(rt.alloc(), &ENDS), None);
}
