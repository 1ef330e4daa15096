// The lines of the sender's log.

use mail_bytes::Memory;
use send_log::{Line, Load, Log, Outcome, Target};
use std::alloc::Global;

/// The last u64, and how a line tells it.
const LAST: u64 = u64::MAX;

/// Nothing is in flight.
const IDLE: Load = Load { busy: 0, limit: 10 };

/// Each of 120 slots is taken.
const FULL: Load = Load {
    busy: 120,
    limit: 120,
};

/// Lines with their texts.
const LINES: [(Line<'static>, &[u8]); 18] = [
    (Line::NewMessage { message: 53 }, b"new msg 53\n"),
    (
        Line::MessageInfo {
            message: 53,
            bytes: 2343,
            sender: b"ann@host.example",
            pid: 20345,
            uid: 666,
        },
        b"info msg 53: bytes 2343 from <ann@host.example> qp 20345 uid 666\n",
    ),
    // A bounce has no sender, and one of a bounce `#@[]`.
    (
        Line::MessageInfo {
            message: LAST,
            bytes: LAST,
            sender: b"",
            pid: u32::MAX,
            uid: u32::MAX,
        },
        b"info msg 18446744073709551615: bytes 18446744073709551615 from <> qp 4294967295 uid 4294967295\n",
    ),
    (
        Line::MessageInfo {
            message: 1,
            bytes: 0,
            sender: b"#@[]",
            pid: 0,
            uid: 0,
        },
        b"info msg 1: bytes 0 from <#@[]> qp 0 uid 0\n",
    ),
    (
        Line::Starting {
            delivery: 1,
            message: 53,
            target: Target::Local(b"bob@localhost"),
        },
        b"starting delivery 1: msg 53 to local bob@localhost\n",
    ),
    (
        Line::Starting {
            delivery: LAST,
            message: LAST,
            target: Target::Remote(b"a b@y"),
        },
        b"starting delivery 18446744073709551615: msg 18446744073709551615 to remote a_b@y\n",
    ),
    (
        Line::Status {
            local: IDLE,
            remote: FULL,
        },
        b"status: local 0/10 remote 120/120\n",
    ),
    (
        Line::Delivered {
            delivery: 3,
            outcome: Outcome::Success,
            report: b"did 0+1+1\nqp 83\n",
        },
        b"delivery 3: success: did_0+1+1/qp_83/\n",
    ),
    (
        Line::Delivered {
            delivery: 4,
            outcome: Outcome::Failure,
            report: b"Sorry, no mailbox here by that name. (#5.1.1)\n",
        },
        b"delivery 4: failure: Sorry,_no_mailbox_here_by_that_name._(#5.1.1)/\n",
    ),
    // Every kind of byte that isn't shown as it is, and those beside it.
    (
        Line::Delivered {
            delivery: 5,
            outcome: Outcome::Deferral,
            report: b"\0\t\n\x0b\x1f !\"$%&/~\x7f\x80\xff",
        },
        b"delivery 5: deferral: __/___!\"$_&/~___\n",
    ),
    (
        Line::Delivered {
            delivery: 6,
            outcome: Outcome::Success,
            report: b"",
        },
        b"delivery 6: success: \n",
    ),
    (
        Line::Bounced {
            message: 53,
            pid: 667,
        },
        b"bounce msg 53 qp 667\n",
    ),
    (
        Line::TripleBounce { message: 53 },
        b"triple bounce: discarding bounce/53\n",
    ),
    (Line::EndMessage { message: 53 }, b"end msg 53\n"),
    (Line::StrayReport { slot: 9 }, b"alert: report 9\n"),
    (Line::Skipped { message: 7 }, b"alert: skip 7\n"),
    (Line::Left { message: 8 }, b"alert: left 8\n"),
    (
        Line::EndMessage { message: LAST },
        b"end msg 18446744073709551615\n",
    ),
];

/// Letters of reports, with whether the pass is a dying one, and the word for what comes of it.
const OUTCOMES: [(u8, bool, &[u8]); 10] = [
    (b'K', false, b"delivery 1: success: \n"),
    (b'K', true, b"delivery 1: success: \n"),
    (b'D', false, b"delivery 1: failure: \n"),
    (b'D', true, b"delivery 1: failure: \n"),
    (b'Z', false, b"delivery 1: deferral: \n"),
    (b'Z', true, b"delivery 1: failure: \n"),
    // Any other letter, and none, counts as Z.
    (b'k', false, b"delivery 1: deferral: \n"),
    (b'x', true, b"delivery 1: failure: \n"),
    (0, false, b"delivery 1: deferral: \n"),
    (0, true, b"delivery 1: failure: \n"),
];

/// Puts a line into a log that has room for it and no more.
fn put(log: &mut Log, line: &Line<'_>) -> Result<(), Memory> {
    log.reserve(line.room())?;
    log.put(line);
    Ok(())
}

/// Whether this is the text of the line, alone and after another.
fn is_text(alloc: Global, line: &Line<'_>, text: &[u8]) -> bool {
    let mut log = Log::new(alloc);
    let is_first = put(&mut log, line).is_ok() && log.as_slice() == text;
    let is_second = put(&mut log, line).is_ok() && log.as_slice().len() == 2 * text.len();
    log.clear();
    is_first && is_second && log.as_slice().is_empty()
}

#[test]
fn lines_have_their_texts(rt: HostRuntime) {
    for (line, text) in &LINES {
        assert!(rt; is_text(rt.alloc(), line, text), "{text:?}");
    }
}

#[test]
fn reports_have_their_words(rt: HostRuntime) {
    for (letter, dying, text) in &OUTCOMES {
        let line = Line::Delivered {
            delivery: 1,
            outcome: Outcome::of_report(*letter, *dying),
            report: b"",
        };
        assert!(rt; is_text(rt.alloc(), &line, text), "{letter} {dying}");
    }
}
