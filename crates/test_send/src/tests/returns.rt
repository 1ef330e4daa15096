// How a message is returned.

use super::steps::{Came, Due, FAULT, MISSING, Step, controls, got_of, is_due};
use address_rules::{ControlError, ControlFile, Controls};
use bounce_record::{BounceSender, ReturnRow, add_returned};
use call_fs::{FsError, How};
use mail_bytes::Memory;
use send_log::Log;
use std::alloc::Global;

/// The bounce file and the message file of message 30.
const NOTES: &[u8] = b"bounce/30";

const MESSAGE: &[u8] = b"mess/7/30";

/// They are read as descriptors 4 and 5.
const OPENS: Due = Due::Open(NOTES, How::Read);

const OPENED: Step = (OPENS, Came::Opened(4));

const READ: Step = (Due::Read(4, 0, 8192), Came::Read(b"<b@y>:\nno\n\n"));

const CLOSED: Step = (Due::Close(4), Came::Done);

const OPENS_MESSAGE: Due = Due::Open(MESSAGE, How::Read);

const MESSAGE_OPENED: Step = (OPENS_MESSAGE, Came::Opened(5));

const MESSAGE_READ: Step = (Due::Read(5, 0, 8192), Came::Read(b"Subject: hi\n\nhello\n"));

const MESSAGE_CLOSED: Step = (Due::Close(5), Came::Done);

/// Its injector is started, given the bounce, and ends well.
const STARTED: Step = (Due::Start(400), Came::Started(83));

const GIVEN: Step = (Due::Feed(SINGLE), Came::Gave);

const QUEUED: Step = (Due::Status, Came::Exit(0));

const UNLINKS: Due = Due::Unlink(NOTES);

const UNLINKED: Step = (UNLINKS, Came::Done);

/// Nothing is due any more.
const OVER: Step = (Due::Wait, Came::Failed);

/// The bounce of a message from `ann@x`, which is told to her, and its envelope.
const SINGLE: &[u8] = b"390:Date: 2 Jan 1970 00:00:00 -0000\n\
From: MAILER-DAEMON@localhost\n\
To: ann@x\n\
Subject: failure notice\n\
\n\
Hi. This is the qmail-send program at localhost.\n\
I'm afraid I wasn't able to deliver your message to the following addresses.\n\
This is a permanent error; I've given up. Sorry it didn't work out.\n\
\n\
<b@y>:\nno\n\n\
--- Below this line is a copy of the message.\n\
\n\
Return-Path: <ann@x>\n\
Subject: hi\n\nhello\n\
,10:F\0Tann@x\0\0,";

/// That of one from `ann-@x-@[]`, which is told to `ann-@x`.
const VERPED: &[u8] = b"396:Date: 2 Jan 1970 00:00:00 -0000\n\
From: MAILER-DAEMON@localhost\n\
To: ann-@x\n\
Subject: failure notice\n\
\n\
Hi. This is the qmail-send program at localhost.\n\
I'm afraid I wasn't able to deliver your message to the following addresses.\n\
This is a permanent error; I've given up. Sorry it didn't work out.\n\
\n\
<b@y>:\nno\n\n\
--- Below this line is a copy of the message.\n\
\n\
Return-Path: <ann-@x-@[]>\n\
Subject: hi\n\nhello\n\
,11:F\0Tann-@x\0\0,";

/// That of one from nobody, with the controls set.
const DOUBLE: &[u8] = b"319:Date: 2 Jan 1970 00:00:00 -0000\n\
From: bouncer@b.example\n\
To: admin@d.example\n\
Subject: failure notice\n\
\n\
Hi. This is the qmail-send program at b.example.\n\
I tried to deliver a bounce message to this address, but the bounce bounced!\n\
\n\
<b@y>:\nno\n\n\
--- Below this line is the original bounce.\n\
\n\
Return-Path: <>\n\
Subject: hi\n\nhello\n\
,24:F#@[]\0Tadmin@d.example\0\0,";

/// The four controls of bounces.
const SET: &[(ControlFile, &[u8])] = &[
    (ControlFile::BounceFrom, b"bouncer\n"),
    (ControlFile::BounceHost, b"b.example\n"),
    (ControlFile::DoubleBounceTo, b"admin\n"),
    (ControlFile::DoubleBounceHost, b"d.example\n"),
];

/// A whole piece of a file.
const PIECE: [u8; 8192] = [b'm'; 8192];

/// The controls that are set, and the sender; the steps; the lines of the log; whether the bounce file is then gone.
type Row = (
    &'static [(ControlFile, &'static [u8])],
    &'static [u8],
    &'static [Step],
    &'static [u8],
    Option<bool>,
);

/// Returns: of all kinds of senders, and with a step that fails.
const ROWS: [Row; 25] = [
    // Nothing to return.
    (&[], b"ann@x", &[(OPENS, MISSING), OVER], b"", Some(true)),
    // To its sender.
    (
        &[],
        b"ann@x",
        &[
            OPENED,
            READ,
            CLOSED,
            MESSAGE_OPENED,
            MESSAGE_READ,
            MESSAGE_CLOSED,
            STARTED,
            GIVEN,
            QUEUED,
            UNLINKED,
            OVER,
        ],
        b"bounce msg 30 qp 83\n",
        Some(true),
    ),
    (
        &[],
        b"ann-@x-@[]",
        &[
            OPENED,
            READ,
            CLOSED,
            MESSAGE_OPENED,
            MESSAGE_READ,
            MESSAGE_CLOSED,
            (Due::Start(407), Came::Started(83)),
            (Due::Feed(VERPED), Came::Gave),
            QUEUED,
            UNLINKED,
            OVER,
        ],
        b"bounce msg 30 qp 83\n",
        Some(true),
    ),
    // From nobody: it isn't told to the sender, but to who is told of double bounces.
    (
        SET,
        b"",
        &[
            OPENED,
            READ,
            CLOSED,
            MESSAGE_OPENED,
            MESSAGE_READ,
            MESSAGE_CLOSED,
            (Due::Start(343), Came::Started(83)),
            (Due::Feed(DOUBLE), Came::Gave),
            QUEUED,
            UNLINKED,
            OVER,
        ],
        b"bounce msg 30 qp 83\n",
        Some(true),
    ),
    // A double bounce that came back: both files are read, and nothing is injected.
    (
        &[],
        b"#@[]",
        &[
            OPENED,
            READ,
            CLOSED,
            MESSAGE_OPENED,
            MESSAGE_READ,
            MESSAGE_CLOSED,
            UNLINKED,
            OVER,
        ],
        b"triple bounce: discarding bounce/30\n",
        Some(true),
    ),
    (
        &[],
        b"#@[]",
        &[
            OPENED,
            READ,
            CLOSED,
            MESSAGE_OPENED,
            MESSAGE_READ,
            MESSAGE_CLOSED,
            (UNLINKS, FAULT),
            OVER,
        ],
        b"",
        Some(false),
    ),
    // Files of more than a piece.
    (
        &[],
        b"#@[]",
        &[
            OPENED,
            (Due::Read(4, 0, 8192), Came::Read(&PIECE)),
            (Due::Read(4, 8192, 8192), Came::Read(b"")),
            CLOSED,
            MESSAGE_OPENED,
            (Due::Read(5, 0, 8192), Came::Read(&PIECE)),
            (Due::Read(5, 8192, 8192), Came::Read(&PIECE)),
            (Due::Read(5, 16384, 8192), Came::Read(b"m")),
            MESSAGE_CLOSED,
            UNLINKED,
        ],
        b"triple bounce: discarding bounce/30\n",
        Some(true),
    ),
    // Each step fails, and what is open is closed.
    (&[], b"ann@x", &[(OPENS, FAULT), OVER], b"", Some(false)),
    (
        &[],
        b"ann@x",
        &[(OPENS, Came::Refused(FsError::Memory)), OVER],
        b"",
        Some(false),
    ),
    (
        &[],
        b"ann@x",
        &[OPENED, (Due::Read(4, 0, 8192), FAULT), CLOSED, OVER],
        b"",
        Some(false),
    ),
    (
        &[],
        b"ann@x",
        &[OPENED, READ, CLOSED, (OPENS_MESSAGE, MISSING), OVER],
        b"",
        Some(false),
    ),
    (
        &[],
        b"ann@x",
        &[OPENED, READ, CLOSED, (OPENS_MESSAGE, FAULT), OVER],
        b"",
        Some(false),
    ),
    (
        &[],
        b"ann@x",
        &[
            OPENED,
            READ,
            CLOSED,
            MESSAGE_OPENED,
            (Due::Read(5, 0, 8192), FAULT),
            MESSAGE_CLOSED,
            OVER,
        ],
        b"",
        Some(false),
    ),
    (
        &[],
        b"ann@x",
        &[
            OPENED,
            READ,
            CLOSED,
            MESSAGE_OPENED,
            MESSAGE_READ,
            MESSAGE_CLOSED,
            (Due::Start(400), Came::Failed),
            OVER,
        ],
        b"",
        Some(false),
    ),
    (
        &[],
        b"ann@x",
        &[
            OPENED,
            READ,
            CLOSED,
            MESSAGE_OPENED,
            MESSAGE_READ,
            MESSAGE_CLOSED,
            (Due::Start(400), Came::Memory),
            OVER,
        ],
        b"",
        Some(false),
    ),
    (
        &[],
        b"ann@x",
        &[
            OPENED,
            READ,
            CLOSED,
            MESSAGE_OPENED,
            MESSAGE_READ,
            MESSAGE_CLOSED,
            STARTED,
            (Due::Feed(SINGLE), Came::Failed),
            OVER,
        ],
        b"",
        Some(false),
    ),
    // Its injector ends with another status, by a signal, or its status can't be had.
    (
        &[],
        b"ann@x",
        &[
            OPENED,
            READ,
            CLOSED,
            MESSAGE_OPENED,
            MESSAGE_READ,
            MESSAGE_CLOSED,
            STARTED,
            GIVEN,
            (Due::Status, Came::Exit(53)),
            OVER,
        ],
        b"",
        Some(false),
    ),
    (
        &[],
        b"ann@x",
        &[
            OPENED,
            READ,
            CLOSED,
            MESSAGE_OPENED,
            MESSAGE_READ,
            MESSAGE_CLOSED,
            STARTED,
            GIVEN,
            (Due::Status, Came::Crashed),
            OVER,
        ],
        b"",
        Some(false),
    ),
    (
        &[],
        b"ann@x",
        &[
            OPENED,
            READ,
            CLOSED,
            MESSAGE_OPENED,
            MESSAGE_READ,
            MESSAGE_CLOSED,
            STARTED,
            GIVEN,
            (Due::Status, Came::Failed),
            OVER,
        ],
        b"",
        Some(false),
    ),
    // The bounce is queued, and its file can't be unlinked.
    (
        &[],
        b"ann@x",
        &[
            OPENED,
            READ,
            CLOSED,
            MESSAGE_OPENED,
            MESSAGE_READ,
            MESSAGE_CLOSED,
            STARTED,
            GIVEN,
            QUEUED,
            (UNLINKS, FAULT),
            OVER,
        ],
        b"bounce msg 30 qp 83\n",
        Some(false),
    ),
    (
        &[],
        b"ann@x",
        &[
            OPENED,
            READ,
            CLOSED,
            MESSAGE_OPENED,
            MESSAGE_READ,
            MESSAGE_CLOSED,
            STARTED,
            GIVEN,
            QUEUED,
            (UNLINKS, MISSING),
            OVER,
        ],
        b"bounce msg 30 qp 83\n",
        Some(false),
    ),
    // It isn't over before: not while its injector is at work, nor before the unlink.
    (
        &[],
        b"ann@x",
        &[
            OPENED,
            READ,
            CLOSED,
            MESSAGE_OPENED,
            MESSAGE_READ,
            MESSAGE_CLOSED,
        ],
        b"",
        None,
    ),
    (
        &[],
        b"ann@x",
        &[
            OPENED,
            READ,
            CLOSED,
            MESSAGE_OPENED,
            MESSAGE_READ,
            MESSAGE_CLOSED,
            STARTED,
        ],
        b"",
        None,
    ),
    (
        &[],
        b"ann@x",
        &[
            OPENED,
            READ,
            CLOSED,
            MESSAGE_OPENED,
            MESSAGE_READ,
            MESSAGE_CLOSED,
            STARTED,
            GIVEN,
        ],
        b"",
        None,
    ),
    (
        &[],
        b"ann@x",
        &[
            OPENED,
            READ,
            CLOSED,
            MESSAGE_OPENED,
            MESSAGE_READ,
            MESSAGE_CLOSED,
            STARTED,
            GIVEN,
            QUEUED,
        ],
        b"bounce msg 30 qp 83\n",
        None,
    ),
];

/// The return at work, with what its steps use.
#[derive(Drop)]
struct Play {
    controls: Controls,
    sender: &'static [u8],
    returning: BounceSender,
    log: Log,
}

/// Makes a step, on 2 January 1970; whether it goes as it should.
fn is_step(alloc: Global, play: &mut Play, step: &Step) -> Result<bool, Memory> {
    let is_right = is_due(play.returning.need(), &step.0);
    let got = got_of(step.1);
    add_returned(
        &mut play.log,
        play.returning.row(),
        play.returning.number(),
        &got,
    )?;
    play.returning
        .done(alloc, &play.controls, play.sender, 86_400, &got)?;
    Ok(is_right)
}

/// Whether all steps go as they should.
fn goes_so(alloc: Global, play: &mut Play, steps: &[Step]) -> Result<bool, Memory> {
    for step in steps {
        if !is_step(alloc, play, step)? {
            return Ok(false);
        }
    }
    Ok(true)
}

/// Whether the bounce file is gone, once it is over.
fn end_of(row: ReturnRow) -> Option<bool> {
    match row {
        ReturnRow::Over => Some(true),
        ReturnRow::Failed => Some(false),
        _ => None,
    }
}

/// Whether all steps of the row go as they should, with its lines of the log, and it then ends as that says.
fn is_row(alloc: Global, row: &Row) -> Result<bool, ControlError> {
    let mut play = Play {
        controls: controls(alloc, row.0)?,
        sender: row.1,
        returning: BounceSender::idle(alloc),
        log: Log::new(alloc),
    };
    play.returning.begin(alloc, 30);
    let goes_so = goes_so(alloc, &mut play, row.2)?;
    let is_end = end_of(play.returning.row()) == row.4;
    Ok(goes_so && is_end && play.log.as_slice() == row.3)
}

#[test]
fn messages_are_returned_step_by_step(rt: HostRuntime) {
    for (at, row) in ROWS.iter().enumerate() {
        assert!(rt; is_row(rt.alloc(), row).is_ok_and(|is| is), "row {at}");
    }
}
