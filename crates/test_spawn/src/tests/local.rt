// The local spawner.

use super::steps::{ASKED, Came, Due, Found, NONE, Step, got_of, is_due, ready_of};
use call_fs::{DeliveryWords, FsError};
use local_spawn::LocalSpawn;
use std::alloc::Global;

/// A file users/assign of one user.
const USERS: &[u8] = b"=j:j:1000:1000:home/j:::\n.\n";

/// A request for delivery 0, to that user.
const ASK: &[u8] = b"\01/1\0a@x\0j@localhost\0";

/// The start, the taking of the request, the reading of its message, and its delivery.
pub const OPENS_USERS: Step = (NONE, Due::Open(b"users/assign"), Came::Opened(3));

const READS_USERS: Step = (NONE, Due::Read(3, 0), Came::Read(USERS));

/// The close of users/assign.
pub const CLOSES_USERS: Step = (NONE, Due::Close(3), Came::Closed);

/// The byte that tells how many programs run at once.
pub const GREETS: Step = (ASKED, Due::Give(b"x"), Came::Gave);

const TAKES: Step = (ASKED, Due::Take, Came::Took(ASK));

/// The open of the message of the request.
pub const OPENS: Step = (ASKED, Due::Open(b"mess/1/1"), Came::Opened(4));

/// The read of it.
pub const READS: Step = (ASKED, Due::Read(4, 0), Came::Read(b"hi\n"));

/// Its close.
pub const CLOSES: Step = (ASKED, Due::Close(4), Came::Closed);

const WORDS: DeliveryWords<'static> = DeliveryWords {
    user: b"j",
    home: b"home/j",
    local: b"j",
    dash: b"",
    ext: b"",
    domain: b"localhost",
    sender: b"a@x",
    line: b"./Maildir/",
};

const STARTS: Step = (ASKED, Due::Deliver(0, WORDS, 1000), Came::Started);

/// The message that is given to the delivery.
pub const FEEDS: Step = (ASKED, Due::Feed(0, b"3:hi\n,"), Came::Gave);

/// Its delivery has ended.
const ENDED: Found = (false, Some(0));

/// A field of 4097 bytes, and a whole piece of a file.
const LONG: [u8; 4097] = [b'a'; 4097];

const PIECE: [u8; 8192] = [b'm'; 8192];

/// What is told of requests that have no delivery.
const BAD: &[u8] = b"\0ZBad request. (#4.3.0)\0";

const UNABLE: &[u8] = b"\0ZUnable to open the message. (#4.3.0)\0";

const NO_MEMORY: &[u8] = b"\0ZOut of memory. (#4.3.0)\0";

const CRASHED: &[u8] = b"\0Zqmail-local crashed.\n\0";

const NO_MAILBOX: &[u8] = b"\0DSorry, no mailbox here by that name. (#5.1.1)\n\0";

const TROUBLE: &[u8] = b"\0ZTrouble reading users/assign. (#4.3.0)\n\0";

/// The start with that file.
const BEGINS: [Step; 4] = [OPENS_USERS, READS_USERS, CLOSES_USERS, GREETS];

/// A delivery up to its end.
const DELIVERS: [Step; 6] = [TAKES, OPENS, READS, CLOSES, STARTS, FEEDS];

/// A run in three parts.
pub type Run = [&'static [Step]; 3];

/// Runs after that start: each step with what is ready, what is due then, and what comes of it.
static RUNS: [Run; 7] = [
    // A delivery, and the end of the requests.
    [
        &BEGINS,
        &[
            TAKES,
            OPENS,
            READS,
            CLOSES,
            STARTS,
            FEEDS,
            (ASKED, Due::Take, Came::End),
            (NONE, Due::Wait, Came::Nothing),
            (ENDED, Due::Output(0), Came::Took(b"did 1")),
            (NONE, Due::Output(0), Came::Took(b"+0+0\n\0more")),
            (NONE, Due::Output(0), Came::End),
            (NONE, Due::Status(0), Came::Exit(0)),
            (NONE, Due::Give(b"\0Kdid 1+0+0\n\0"), Came::Gave),
            (NONE, Due::Ended(0), Came::Nothing),
        ],
        &[],
    ],
    // A request in pieces; requests come first; two messages, one of a whole piece; a failed give; a slot that is taken, and
    // one that is used again.
    [
        &BEGINS,
        &[
            (ASKED, Due::Take, Came::Took(b"\x771/24")),
            (NONE, Due::Wait, Came::Nothing),
            (ASKED, Due::Take, Came::Took(b"\0\0J@y@z\0\x02\x31/1\0")),
            (NONE, Due::Open(b"mess/1/24"), Came::Opened(9)),
            (NONE, Due::Read(9, 0), Came::Read(b"")),
            (NONE, Due::Close(9), Came::Closed),
            (
                NONE,
                Due::Give(b"wDSorry, no mailbox here by that name. (#5.1.1)\n\0"),
                Came::Gave,
            ),
            (
                ASKED,
                Due::Take,
                Came::Took(b"s@\0J@\0\x02\x31/1\0\0j@y\0\x77\x31/1\0\0j@y\0"),
            ),
            (NONE, Due::Open(b"mess/1/1"), Came::Opened(4)),
            (NONE, Due::Read(4, 0), Came::Read(b"")),
            (NONE, Due::Close(4), Came::Closed),
            (
                NONE,
                Due::Deliver(
                    2,
                    DeliveryWords {
                        user: b"j",
                        home: b"home/j",
                        local: b"J",
                        dash: b"",
                        ext: b"",
                        domain: b"",
                        sender: b"s@",
                        line: b"./Maildir/",
                    },
                    1000,
                ),
                Came::Started,
            ),
            (NONE, Due::Feed(2, b"0:,"), Came::Failed),
            (NONE, Due::Give(b"\x02ZBad request. (#4.3.0)\0"), Came::Gave),
            (NONE, Due::Open(b"mess/1/1"), Came::Opened(4)),
            (NONE, Due::Read(4, 0), Came::Read(b"m")),
            (NONE, Due::Close(4), Came::Closed),
            (
                NONE,
                Due::Deliver(
                    119,
                    DeliveryWords {
                        user: b"j",
                        home: b"home/j",
                        local: b"j",
                        dash: b"",
                        ext: b"",
                        domain: b"y",
                        sender: b"",
                        line: b"./Maildir/",
                    },
                    1000,
                ),
                Came::Started,
            ),
            (NONE, Due::Feed(119, b"1:m,"), Came::Gave),
            ((false, Some(5)), Due::Wait, Came::Nothing),
            ((true, Some(2)), Due::Take, Came::Took(b"\x02")),
            ((false, Some(2)), Due::Output(2), Came::End),
            (ASKED, Due::Status(2), Came::Failed),
            (
                NONE,
                Due::Give(b"\x02Zqmail-local crashed.\n\0"),
                Came::Gave,
            ),
            (ASKED, Due::Take, Came::Took(b"1/1\0\0j@y\0")),
            (NONE, Due::Open(b"mess/1/1"), Came::Opened(4)),
        ],
        &[],
    ],
    // A field that is too long, while a delivery runs.
    [
        &BEGINS,
        &[
            TAKES,
            OPENS,
            READS,
            CLOSES,
            STARTS,
            FEEDS,
            (ASKED, Due::Take, Came::Took(b"\x07")),
            (ASKED, Due::Take, Came::Took(&LONG)),
            (ASKED, Due::Wait, Came::Nothing),
            ((true, Some(0)), Due::Output(0), Came::End),
            (ASKED, Due::Status(0), Came::Crashed),
            (ASKED, Due::Give(CRASHED), Came::Gave),
            (ASKED, Due::Ended(91), Came::Nothing),
        ],
        &[],
    ],
    // Failed gives and takings.
    [
        &BEGINS,
        &[
            (ASKED, Due::Take, Came::Failed),
            (ASKED, Due::Ended(54), Came::Nothing),
        ],
        &[],
    ],
    [
        &BEGINS,
        &[
            TAKES,
            OPENS,
            READS,
            CLOSES,
            STARTS,
            FEEDS,
            (ENDED, Due::Output(0), Came::Failed),
            (ASKED, Due::Ended(54), Came::Nothing),
        ],
        &[],
    ],
    [
        &BEGINS,
        &[
            (ASKED, Due::Take, Came::Took(b"\x78\x31/1\0a@x\0j@y\0")),
            (ASKED, Due::Give(b"xZBad request. (#4.3.0)\0"), Came::Failed),
            (NONE, Due::Ended(53), Came::Nothing),
        ],
        &[],
    ],
    // A message of a whole piece is read on.
    [
        &BEGINS,
        &[
            TAKES,
            OPENS,
            (ASKED, Due::Read(4, 0), Came::Read(&PIECE)),
            (ASKED, Due::Read(4, 8192), Came::Read(b"")),
            CLOSES,
            STARTS,
        ],
        &[],
    ],
];

/// Looks, and compares what is due; hands in what comes, if anything does. Whether all was as it should be.
fn is_step(alloc: Global, spawner: &mut LocalSpawn, step: &Step) -> bool {
    spawner.look(5, ready_of(step.0));
    let is_right = is_due(spawner.need(), &step.1);
    match step.2 {
        Came::Nothing => is_right,
        came => is_right && spawner.done(alloc, got_of(came)).is_ok(),
    }
}

/// Whether these steps all go as they should.
fn are_steps(alloc: Global, spawner: &mut LocalSpawn, steps: &[Step]) -> bool {
    for step in steps {
        if !is_step(alloc, spawner, step) {
            return false;
        }
    }
    true
}

/// Whether all parts of a run do, one after the other.
fn goes_so(alloc: Global, spawner: &mut LocalSpawn, run: &Run) -> bool {
    for part in run {
        if !are_steps(alloc, spawner, part) {
            return false;
        }
    }
    true
}

/// Whether a run of a new spawner does.
fn holds(alloc: Global, run: &Run) -> bool {
    match LocalSpawn::new(alloc) {
        Ok(mut spawner) => goes_so(alloc, &mut spawner, run),
        Err(_) => false,
    }
}

/// Which run goes wrong first; none if none does.
pub fn first_wrong(alloc: Global, runs: &[Run]) -> Option<usize> {
    for (at, run) in runs.iter().enumerate() {
        if !holds(alloc, run) {
            return Some(at);
        }
    }
    None
}

#[test]
fn each_step_is_its_row(rt: HostRuntime) {
    assert_eq!(rt; first_wrong(rt.alloc(), &RUNS), None);
}

/// After a start the taking of a request to `j` whose message is read.
const ASKS: [Step; 5] = [GREETS, TAKES, OPENS, READS, CLOSES];

/// Nothing more can be done.
const RESTS: Step = (NONE, Due::Wait, Came::Nothing);

/// A start in which something is missing or fails, and what is told of a request to `j` after it; and starts that end it.
static BEGINNINGS: [Run; 8] = [
    [
        &[(
            NONE,
            Due::Open(b"users/assign"),
            Came::Refused(FsError::NotThere),
        )],
        &ASKS,
        &[(ASKED, Due::Give(NO_MAILBOX), Came::Gave), RESTS],
    ],
    [
        &[(
            NONE,
            Due::Open(b"users/assign"),
            Came::Refused(FsError::Fault),
        )],
        &ASKS,
        &[(ASKED, Due::Give(TROUBLE), Came::Gave), RESTS],
    ],
    [
        &[
            OPENS_USERS,
            (NONE, Due::Read(3, 0), Came::Refused(FsError::Fault)),
            CLOSES_USERS,
        ],
        &ASKS,
        &[(ASKED, Due::Give(TROUBLE), Came::Gave), RESTS],
    ],
    [
        &[
            OPENS_USERS,
            (NONE, Due::Read(3, 0), Came::Read(&PIECE)),
            (NONE, Due::Read(3, 8192), Came::Read(b"\n.\n")),
            CLOSES_USERS,
        ],
        &ASKS,
        &[(ASKED, Due::Give(TROUBLE), Came::Gave), RESTS],
    ],
    [
        &[
            OPENS_USERS,
            (
                NONE,
                Due::Read(3, 0),
                Came::Read(b"=j:j:1000:1000:home/j:::\n"),
            ),
            CLOSES_USERS,
        ],
        &ASKS,
        &[(ASKED, Due::Give(TROUBLE), Came::Gave), RESTS],
    ],
    [
        &[
            OPENS_USERS,
            (NONE, Due::Read(3, 0), Came::Read(b".\n=j:j:1:1:h:::\n")),
            CLOSES_USERS,
        ],
        &ASKS,
        &[(ASKED, Due::Give(NO_MAILBOX), Came::Gave), RESTS],
    ],
    // Memory is refused; the greeting can't be given.
    [
        &[
            (
                NONE,
                Due::Open(b"users/assign"),
                Came::Refused(FsError::Memory),
            ),
            (ASKED, Due::Ended(51), Came::Nothing),
        ],
        &[],
        &[],
    ],
    [
        &[OPENS_USERS, READS_USERS, CLOSES_USERS],
        &[
            (ASKED, Due::Give(b"x"), Came::Failed),
            (ASKED, Due::Ended(53), Came::Nothing),
        ],
        &[],
    ],
];

#[test]
fn starts_are_told(rt: HostRuntime) {
    assert_eq!(rt; first_wrong(rt.alloc(), &BEGINNINGS), None);
}

/// What follows a bad request.
const REFUSED: [Step; 2] = [(ASKED, Due::Give(BAD), Came::Gave), RESTS];

/// Requests that are bad: of messages that are none, and to nobody at all.
static BAD_REQUESTS: [Run; 4] = [
    [
        &BEGINS,
        &[(ASKED, Due::Take, Came::Took(b"\0\0a@x\0j@y\0"))],
        &REFUSED,
    ],
    [
        &BEGINS,
        &[(ASKED, Due::Take, Came::Took(b"\02/1\0a@x\0j@y\0"))],
        &REFUSED,
    ],
    [
        &BEGINS,
        &[(ASKED, Due::Take, Came::Took(b"\01/1\0a@x\0j\0"))],
        &REFUSED,
    ],
    [
        &BEGINS,
        &[(ASKED, Due::Take, Came::Took(b"\01/1\0a@x\0\0"))],
        &REFUSED,
    ],
];

#[test]
fn bad_requests_are_told(rt: HostRuntime) {
    assert_eq!(rt; first_wrong(rt.alloc(), &BAD_REQUESTS), None);
}

/// The start, and the taking of a request.
const ASKED_FOR: [Step; 5] = [OPENS_USERS, READS_USERS, CLOSES_USERS, GREETS, TAKES];

/// A request that comes to no delivery: what comes of its last steps, and its report.
static STOPPED: [Run; 7] = [
    [
        &ASKED_FOR,
        &[(
            ASKED,
            Due::Open(b"mess/1/1"),
            Came::Refused(FsError::NotThere),
        )],
        &[(ASKED, Due::Give(UNABLE), Came::Gave), RESTS],
    ],
    [
        &ASKED_FOR,
        &[(ASKED, Due::Open(b"mess/1/1"), Came::Refused(FsError::Fault))],
        &[(ASKED, Due::Give(UNABLE), Came::Gave), RESTS],
    ],
    [
        &ASKED_FOR,
        &[(
            ASKED,
            Due::Open(b"mess/1/1"),
            Came::Refused(FsError::Memory),
        )],
        &[(ASKED, Due::Give(NO_MEMORY), Came::Gave), RESTS],
    ],
    [
        &ASKED_FOR,
        &[
            OPENS,
            (ASKED, Due::Read(4, 0), Came::Refused(FsError::Fault)),
            CLOSES,
        ],
        &[(ASKED, Due::Give(UNABLE), Came::Gave), RESTS],
    ],
    [
        &ASKED_FOR,
        &[
            OPENS,
            (ASKED, Due::Read(4, 0), Came::Read(&PIECE)),
            (ASKED, Due::Read(4, 8192), Came::Refused(FsError::Fault)),
            CLOSES,
        ],
        &[(ASKED, Due::Give(UNABLE), Came::Gave), RESTS],
    ],
    [
        &ASKED_FOR,
        &[
            OPENS,
            READS,
            CLOSES,
            (ASKED, Due::Deliver(0, WORDS, 1000), Came::Failed),
        ],
        &[(ASKED, Due::Give(CRASHED), Came::Gave), RESTS],
    ],
    [
        &ASKED_FOR,
        &[
            OPENS,
            READS,
            CLOSES,
            (ASKED, Due::Deliver(0, WORDS, 1000), Came::Memory),
        ],
        &[(ASKED, Due::Give(NO_MEMORY), Came::Gave), RESTS],
    ],
];

#[test]
fn requests_without_a_delivery_are_told(rt: HostRuntime) {
    assert_eq!(rt; first_wrong(rt.alloc(), &STOPPED), None);
}

/// What a delivery printed, up to its end.
const PRINTS: Step = (ENDED, Due::Output(0), Came::Took(b"x\0y"));

const PRINTED: Step = (ENDED, Due::Output(0), Came::End);

/// Nothing more can be done until another look.
const WAITS: Step = (ENDED, Due::Wait, Came::Nothing);

/// How a delivery ended that printed `x`, NUL and `y`, and the report of it.
static ENDS: [Run; 8] = [
    [
        &BEGINS,
        &DELIVERS,
        &[
            PRINTS,
            PRINTED,
            (ENDED, Due::Status(0), Came::Exit(0)),
            (ENDED, Due::Give(b"\0Kx\0"), Came::Gave),
            WAITS,
        ],
    ],
    [
        &BEGINS,
        &DELIVERS,
        &[
            PRINTS,
            PRINTED,
            (ENDED, Due::Status(0), Came::Exit(51)),
            (ENDED, Due::Give(b"\0Zx\0"), Came::Gave),
            WAITS,
        ],
    ],
    [
        &BEGINS,
        &DELIVERS,
        &[
            PRINTS,
            PRINTED,
            (ENDED, Due::Status(0), Came::Exit(99)),
            (ENDED, Due::Give(b"\0Dx\0"), Came::Gave),
            WAITS,
        ],
    ],
    [
        &BEGINS,
        &DELIVERS,
        &[
            PRINTS,
            PRINTED,
            (ENDED, Due::Status(0), Came::Exit(100)),
            (ENDED, Due::Give(b"\0Dx\0"), Came::Gave),
            WAITS,
        ],
    ],
    [
        &BEGINS,
        &DELIVERS,
        &[
            PRINTS,
            PRINTED,
            (ENDED, Due::Status(0), Came::Exit(111)),
            (ENDED, Due::Give(b"\0Zx\0"), Came::Gave),
            WAITS,
        ],
    ],
    [
        &BEGINS,
        &DELIVERS,
        &[
            PRINTS,
            PRINTED,
            (ENDED, Due::Status(0), Came::Exit(255)),
            (ENDED, Due::Give(b"\0Dx\0"), Came::Gave),
            WAITS,
        ],
    ],
    [
        &BEGINS,
        &DELIVERS,
        &[
            PRINTS,
            PRINTED,
            (ENDED, Due::Status(0), Came::Crashed),
            (ENDED, Due::Give(CRASHED), Came::Gave),
            WAITS,
        ],
    ],
    [
        &BEGINS,
        &DELIVERS,
        &[
            PRINTS,
            PRINTED,
            (ENDED, Due::Status(0), Came::Failed),
            (ENDED, Due::Give(CRASHED), Came::Gave),
            WAITS,
        ],
    ],
];

#[test]
fn each_end_of_a_delivery_is_told(rt: HostRuntime) {
    assert_eq!(rt; first_wrong(rt.alloc(), &ENDS), None);
}
