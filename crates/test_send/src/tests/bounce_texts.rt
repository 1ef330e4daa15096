// The message that returns a bounce file.

use bounce_record::{Bounce, bounce_message};
use std::alloc::Global;

/// The notes and the message of each row.
const NOTES: &[u8] = b"<b@y>:\nno\n\n";

/// The message that bounces.
const MESSAGE: &[u8] = b"Subject: hi\n\nhello\n";

/// A sender and the moment of the date; and the sender, recipient and text of the bounce.
type Row = (
    &'static [u8],
    u64,
    Option<(&'static [u8], &'static [u8], &'static [u8])>,
);

/// Bounces of the message, or none.
const ROWS: [Row; 6] = [
    (
        b"ann@x",
        0,
        Some((
            b"",
            b"ann@x",
            b"Date: 1 Jan 1970 00:00:00 -0000\n\
From: MAILER-DAEMON@h\xff\n\
To: ann@x\n\
Subject: failure notice\n\
\n\
Hi. This is the qmail-send program at h\xff.\n\
I'm afraid I wasn't able to deliver your message to the following addresses.\n\
This is a permanent error; I've given up. Sorry it didn't work out.\n\
\n\
<b@y>:\nno\n\n\
--- Below this line is a copy of the message.\n\
\n\
Return-Path: <ann@x>\n\
Subject: hi\n\nhello\n",
        )),
    ),
    (
        b"",
        86_400,
        Some((
            b"#@[]",
            b"postmaster@d",
            b"Date: 2 Jan 1970 00:00:00 -0000\n\
From: MAILER-DAEMON@h\xff\n\
To: postmaster@d\n\
Subject: failure notice\n\
\n\
Hi. This is the qmail-send program at h\xff.\n\
I tried to deliver a bounce message to this address, but the bounce bounced!\n\
\n\
<b@y>:\nno\n\n\
--- Below this line is the original bounce.\n\
\n\
Return-Path: <>\n\
Subject: hi\n\nhello\n",
        )),
    ),
    (b"#@[]", 0, None),
    (
        b"own-\xc3\n@host-@[]",
        0,
        Some((
            b"",
            b"own-\xc3\n@host",
            b"Date: 1 Jan 1970 00:00:00 -0000\n\
From: MAILER-DAEMON@h\xff\n\
To: own-\xc3\n@host\n\
Subject: failure notice\n\
\n\
Hi. This is the qmail-send program at h\xff.\n\
I'm afraid I wasn't able to deliver your message to the following addresses.\n\
This is a permanent error; I've given up. Sorry it didn't work out.\n\
\n\
<b@y>:\nno\n\n\
--- Below this line is a copy of the message.\n\
\n\
Return-Path: <own-\xc3\n@host-@[]>\n\
Subject: hi\n\nhello\n",
        )),
    ),
    (
        b"-@[]",
        0,
        Some((
            b"",
            b"",
            b"Date: 1 Jan 1970 00:00:00 -0000\n\
From: MAILER-DAEMON@h\xff\n\
To: \n\
Subject: failure notice\n\
\n\
Hi. This is the qmail-send program at h\xff.\n\
I'm afraid I wasn't able to deliver your message to the following addresses.\n\
This is a permanent error; I've given up. Sorry it didn't work out.\n\
\n\
<b@y>:\nno\n\n\
--- Below this line is a copy of the message.\n\
\n\
Return-Path: <-@[]>\n\
Subject: hi\n\nhello\n",
        )),
    ),
    (
        b"x#@[]",
        0,
        Some((
            b"",
            b"x#@[]",
            b"Date: 1 Jan 1970 00:00:00 -0000\n\
From: MAILER-DAEMON@h\xff\n\
To: x#@[]\n\
Subject: failure notice\n\
\n\
Hi. This is the qmail-send program at h\xff.\n\
I'm afraid I wasn't able to deliver your message to the following addresses.\n\
This is a permanent error; I've given up. Sorry it didn't work out.\n\
\n\
<b@y>:\nno\n\n\
--- Below this line is a copy of the message.\n\
\n\
Return-Path: <x#@[]>\n\
Subject: hi\n\nhello\n",
        )),
    ),
];

/// Whether the bounce is that of the row, or neither has one.
fn is_bounce(found: Option<&Bounce>, row: Option<(&[u8], &[u8], &[u8])>) -> bool {
    match (found, row) {
        (None, None) => true,
        (Some(bounce), Some((sender, recipient, text))) => {
            bounce.sender.is(sender) && bounce.recipient.is(recipient) && bounce.text.is(text)
        }
        _ => false,
    }
}

/// Whether a message of this sender is returned as the row says.
fn returns(alloc: Global, row: &Row) -> bool {
    if row.1 > 86_400 {
        return false;
    }
    let found = bounce_message(
        alloc,
        b"MAILER-DAEMON",
        b"h\xff",
        b"postmaster",
        b"d",
        row.0,
        NOTES,
        MESSAGE,
        row.1,
    );
    match found {
        Ok(found) => is_bounce(found.as_ref(), row.2),
        Err(_) => false,
    }
}

#[test]
fn bounces_are_as_the_format_says(rt: HostRuntime) {
    for row in &ROWS {
        assert!(rt; returns(rt.alloc(), row), "{row:?}");
    }
}
