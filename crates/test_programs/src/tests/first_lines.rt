// The first line of a message file, and its date.

use mail_bytes::LAST_MOMENT;
use received_line::{Invoked, date, received};
use std::alloc::Global;

/// What `date -u` prints.
const DATES: [(u64, &str); 6] = [
    (0, "1 Jan 1970 00:00:00 -0000"),
    (68_169_599, "28 Feb 1972 23:59:59 -0000"),
    (951_782_400, "29 Feb 2000 00:00:00 -0000"),
    (1_709_164_800, "29 Feb 2024 00:00:00 -0000"),
    (4_107_542_400, "1 Mar 2100 00:00:00 -0000"),
    (250_000_000_000, "8 Mar 9892 12:26:40 -0000"),
];

/// By whom process 77 was invoked, when, and the line.
const LINES: [(Invoked, u64, &str); 2] = [
    (
        Invoked::Uid(1000),
        0,
        "Received: (qmail 77 invoked by uid 1000); 1 Jan 1970 00:00:00 -0000\n",
    ),
    (
        Invoked::Bounce,
        951_782_400,
        "Received: (qmail 77 invoked for bounce); 29 Feb 2000 00:00:00 -0000\n",
    ),
];

/// Whether the date of the moment is this one.
fn is_date(alloc: Global, moment: u64, text: &str) -> bool {
    moment <= LAST_MOMENT
        && match date(alloc, moment) {
            Ok(found) => found.as_slice() == text.as_bytes(),
            Err(_) => false,
        }
}

/// Whether the first line is this one.
fn is_line(alloc: Global, invoked: Invoked, moment: u64, text: &str) -> bool {
    moment <= LAST_MOMENT
        && match received(alloc, 77, invoked, moment) {
            Ok(found) => found.as_slice() == text.as_bytes(),
            Err(_) => false,
        }
}

#[test]
fn dates_are_those_of_the_calendar(rt: HostRuntime) {
    for (moment, text) in &DATES {
        assert!(rt; is_date(rt.alloc(), *moment, text), "{text}");
    }
}

#[test]
fn the_line_tells_by_whom_and_when(rt: HostRuntime) {
    for (invoked, moment, text) in &LINES {
        assert!(rt; is_line(rt.alloc(), *invoked, *moment, text), "{text}");
    }
}
