// The users of local deliveries.

use super::local::{
    CLOSES, CLOSES_USERS, FEEDS, GREETS, OPENS, OPENS_USERS, READS, Run, first_wrong,
};
use super::steps::{ASKED, Came, Due, NONE, Step};
use call_fs::DeliveryWords;

/// A file with wildcards.
const WILDCARDS: &[u8] =
    b"+u:a:1:9:/home/a:-:x:\n+u-:b:2:9:/home/b:-:y-:\n+U-:c:3:9:/home/c:-::\n=u-list:d:4:9:/home/d:-:list:\n+:e:4294967295:9:/e:::\n.\n";

/// The beginning and the end of a request in three takings, and the reading of its message.
const BEGINS_REQUEST: Step = (ASKED, Due::Take, Came::Took(b"\01/1\0s@t\0"));

const ENDS_REQUEST: Step = (ASKED, Due::Take, Came::Took(b"\0"));

const READ: [Step; 3] = [OPENS, READS, CLOSES];

/// Users files, the recipient of a request, and the delivery that is started, by the words of its user and his number.
static DELIVERED: [Run; 6] = [
    [
        &[
            OPENS_USERS,
            (NONE, Due::Read(3, 0), Came::Read(WILDCARDS)),
            CLOSES_USERS,
            GREETS,
            BEGINS_REQUEST,
            (ASKED, Due::Take, Came::Took(b"u-x@y")),
            ENDS_REQUEST,
        ],
        &READ,
        &[
            (
                ASKED,
                Due::Deliver(
                    0,
                    DeliveryWords {
                        user: b"b",
                        home: b"/home/b",
                        local: b"u-x",
                        dash: b"-",
                        ext: b"y-x",
                        domain: b"y",
                        sender: b"s@t",
                        line: b"./Maildir/",
                    },
                    2,
                ),
                Came::Started,
            ),
            FEEDS,
        ],
    ],
    [
        &[
            OPENS_USERS,
            (NONE, Due::Read(3, 0), Came::Read(WILDCARDS)),
            CLOSES_USERS,
            GREETS,
            BEGINS_REQUEST,
            (ASKED, Due::Take, Came::Took(b"Ux@y")),
            ENDS_REQUEST,
        ],
        &READ,
        &[
            (
                ASKED,
                Due::Deliver(
                    0,
                    DeliveryWords {
                        user: b"a",
                        home: b"/home/a",
                        local: b"Ux",
                        dash: b"-",
                        ext: b"xx",
                        domain: b"y",
                        sender: b"s@t",
                        line: b"./Maildir/",
                    },
                    1,
                ),
                Came::Started,
            ),
            FEEDS,
        ],
    ],
    [
        &[
            OPENS_USERS,
            (NONE, Due::Read(3, 0), Came::Read(WILDCARDS)),
            CLOSES_USERS,
            GREETS,
            BEGINS_REQUEST,
            (ASKED, Due::Take, Came::Took(b"U-List@y")),
            ENDS_REQUEST,
        ],
        &READ,
        &[
            (
                ASKED,
                Due::Deliver(
                    0,
                    DeliveryWords {
                        user: b"d",
                        home: b"/home/d",
                        local: b"U-List",
                        dash: b"-",
                        ext: b"list",
                        domain: b"y",
                        sender: b"s@t",
                        line: b"./Maildir/",
                    },
                    4,
                ),
                Came::Started,
            ),
            FEEDS,
        ],
    ],
    [
        &[
            OPENS_USERS,
            (NONE, Due::Read(3, 0), Came::Read(WILDCARDS)),
            CLOSES_USERS,
            GREETS,
            BEGINS_REQUEST,
            (ASKED, Due::Take, Came::Took(b"v@w@y")),
            ENDS_REQUEST,
        ],
        &READ,
        &[
            (
                ASKED,
                Due::Deliver(
                    0,
                    DeliveryWords {
                        user: b"e",
                        home: b"/e",
                        local: b"v@w",
                        dash: b"",
                        ext: b"v@w",
                        domain: b"y",
                        sender: b"s@t",
                        line: b"./Maildir/",
                    },
                    4_294_967_295,
                ),
                Came::Started,
            ),
            FEEDS,
        ],
    ],
    [
        &[
            OPENS_USERS,
            (NONE, Due::Read(3, 0), Came::Read(WILDCARDS)),
            CLOSES_USERS,
            GREETS,
            BEGINS_REQUEST,
            (ASKED, Due::Take, Came::Took(b"@")),
            ENDS_REQUEST,
        ],
        &READ,
        &[
            (
                ASKED,
                Due::Deliver(
                    0,
                    DeliveryWords {
                        user: b"e",
                        home: b"/e",
                        local: b"",
                        dash: b"",
                        ext: b"",
                        domain: b"",
                        sender: b"s@t",
                        line: b"./Maildir/",
                    },
                    4_294_967_295,
                ),
                Came::Started,
            ),
            FEEDS,
        ],
    ],
    [
        &[
            OPENS_USERS,
            (NONE, Due::Read(3, 0), Came::Read(b"=j:k:1:9:h:-:z:\n.")),
            CLOSES_USERS,
            GREETS,
            BEGINS_REQUEST,
            (ASKED, Due::Take, Came::Took(b"J@Y")),
            ENDS_REQUEST,
        ],
        &READ,
        &[
            (
                ASKED,
                Due::Deliver(
                    0,
                    DeliveryWords {
                        user: b"k",
                        home: b"h",
                        local: b"J",
                        dash: b"-",
                        ext: b"z",
                        domain: b"Y",
                        sender: b"s@t",
                        line: b"./Maildir/",
                    },
                    1,
                ),
                Came::Started,
            ),
            FEEDS,
        ],
    ],
];

#[test]
fn deliveries_have_the_words_of_their_users(rt: HostRuntime) {
    assert_eq!(rt; first_wrong(rt.alloc(), &DELIVERED), None);
}
