// What is done with worlds in which local deliveries run, and what is seen then.

use super::deeds::{Deed, Entry, seen_with};
use std::alloc::Global;
use std::test::Fail;

/// What the disk holds at first, what is done, and what is seen.
type Row = (&'static [Entry], &'static [Deed], &'static str);

/// The mail `a` from `a@x` to `j@localhost`.
const A: Deed = Deed::Mail(b"a", b"hi\n", b"Fa@x\0Tj@localhost\0\0");

const TMP: &str = "home/j/Maildir/tmp";

const NEW: &str = "home/j/Maildir/new";

/// The user `j`, whose home has a maildir.
const USERS: Entry = ("users/assign", Some("=j:j:1000:1000:home/j:::\n.\n"));

const HOME: Entry = ("home/j", None);

const MAILDIR_TMP: Entry = (TMP, None);

const MAILDIR_NEW: Entry = (NEW, None);

/// No instructions: the default ones count.
const BOX: [Entry; 4] = [USERS, HOME, MAILDIR_TMP, MAILDIR_NEW];

const GOES_WELL: [Entry; 5] = [
    USERS,
    HOME,
    MAILDIR_TMP,
    MAILDIR_NEW,
    (
        "home/j/.qmail",
        Some("|exit 0\n./Maildir/\n|exit 99\n./Other/\n"),
    ),
];

const FAILS: [Entry; 5] = [
    USERS,
    HOME,
    MAILDIR_TMP,
    MAILDIR_NEW,
    ("home/j/.qmail", Some("|exit 100\n./Maildir/\n")),
];

const DEFERS: [Entry; 5] = [
    USERS,
    HOME,
    MAILDIR_TMP,
    MAILDIR_NEW,
    ("home/j/.qmail", Some("|true\n./Maildir/\n")),
];

const FORWARD: [Entry; 5] = [
    USERS,
    HOME,
    MAILDIR_TMP,
    MAILDIR_NEW,
    ("home/j/.qmail", Some("&a@b\n")),
];

const ROWS: [Row; 12] = [
    // a delivery by the default instructions
    (
        &BOX,
        &[
            A,
            Deed::Run(b"a"),
            Deed::Sender,
            Deed::Settle,
            Deed::Show,
            Deed::Names(NEW),
            Deed::Names(TMP),
        ],
        "a end 0\nl.1 end 0\n-\nhome/j/Maildir/new/0.82.localhost\n-\n-\n",
    ),
    // a command that exits with 0, and one with 99 before a maildir that is missing
    (
        &GOES_WELL,
        &[
            A,
            Deed::Run(b"a"),
            Deed::Sender,
            Deed::Settle,
            Deed::Show,
            Deed::Names(NEW),
        ],
        "a end 0\nl.1 end 0\n-\nhome/j/Maildir/new/0.82.localhost\n-\n",
    ),
    // one that exits with 100: the delivery fails for good, and a bounce comes of it
    (
        &FAILS,
        &[
            A,
            Deed::Run(b"a"),
            Deed::Sender,
            Deed::Settle,
            Deed::Show,
            Deed::Names(NEW),
        ],
        "a end 0\nl.1 end 100\nb.1 end 0\n-\n-\n",
    ),
    // one that is none of a world's: it exits with 127, and the delivery is deferred
    (
        &DEFERS,
        &[
            A,
            Deed::Run(b"a"),
            Deed::Sender,
            Deed::Settle,
            Deed::Show,
            Deed::Names(NEW),
        ],
        "a end 0\nl.1 end 111\nmess/1/1\ninfo/1/1\nlocal/1/1\n-\n-\n",
    ),
    // a forward
    (
        &FORWARD,
        &[A, Deed::Run(b"a"), Deed::Sender, Deed::Settle, Deed::Show],
        "a end 0\nf.1 end 0\nl.1 end 0\n-\n",
    ),
    // a forward that waits for its input, and a delivery that waits for its forward
    (
        &FORWARD,
        &[
            A,
            Deed::Run(b"a"),
            Deed::Sender,
            Deed::Turn,
            Deed::Turn,
            Deed::Run(b"sender"),
            Deed::Bear(b"lspawn"),
            Deed::Run(b"lspawn"),
            Deed::Bear(b"l.1"),
            Deed::Step(b"f.1"),
            Deed::Run(b"l.1"),
            Deed::Step(b"l.1"),
            Deed::Run(b"f.1"),
            Deed::Run(b"l.1"),
            Deed::Show,
        ],
        "a end 0\nrefused notwaiting f.1\nrefused notwaiting l.1\nf.1 end 0\nl.1 end 0\nintd/2\ntodo/2\nmess/2/2\nmess/1/1\ninfo/1/1\nlocal/1/1\n-\n",
    ),
    // a delivery that is stopped before its input: it counts as crashed
    (
        &BOX,
        &[
            A,
            Deed::Run(b"a"),
            Deed::Sender,
            Deed::Turn,
            Deed::Turn,
            Deed::Run(b"sender"),
            Deed::Bear(b"lspawn"),
            Deed::Step(b"l.1"),
            Deed::Stop(b"l.1"),
            Deed::Step(b"l.1"),
            Deed::Settle,
            Deed::Show,
            Deed::Names(NEW),
        ],
        "a end 0\nrefused notwaiting l.1\nrefused gone l.1\nmess/1/1\ninfo/1/1\nlocal/1/1\n-\n-\n",
    ),
    // one that is stopped once it has started its forward, which then has no input
    (
        &FORWARD,
        &[
            A,
            Deed::Run(b"a"),
            Deed::Sender,
            Deed::Turn,
            Deed::Turn,
            Deed::Run(b"sender"),
            Deed::Bear(b"lspawn"),
            Deed::Run(b"lspawn"),
            Deed::Bear(b"l.1"),
            Deed::Stop(b"l.1"),
            Deed::Run(b"f.1"),
            Deed::Settle,
            Deed::Show,
        ],
        "a end 0\nf.1 end 54\nmess/1/1\ninfo/1/1\nlocal/1/1\n-\n",
    ),
    // one that is stopped once it has given its forward the message: that goes on
    (
        &FORWARD,
        &[
            A,
            Deed::Run(b"a"),
            Deed::Sender,
            Deed::Turn,
            Deed::Turn,
            Deed::Run(b"sender"),
            Deed::Bear(b"lspawn"),
            Deed::Run(b"lspawn"),
            Deed::Bear(b"l.1"),
            Deed::Step(b"l.1"),
            Deed::Stop(b"l.1"),
            Deed::Run(b"f.1"),
            Deed::Show,
            Deed::Settle,
            Deed::Show,
        ],
        "a end 0\nf.1 end 0\nintd/2\ntodo/2\nmess/2/2\nmess/1/1\ninfo/1/1\nlocal/1/1\n-\nmess/1/1\ninfo/1/1\nlocal/1/1\n-\n",
    ),
    // a forward that is stopped: the delivery is deferred
    (
        &FORWARD,
        &[
            A,
            Deed::Run(b"a"),
            Deed::Sender,
            Deed::Turn,
            Deed::Turn,
            Deed::Run(b"sender"),
            Deed::Bear(b"lspawn"),
            Deed::Run(b"lspawn"),
            Deed::Bear(b"l.1"),
            Deed::Stop(b"f.1"),
            Deed::Run(b"l.1"),
            Deed::Settle,
            Deed::Show,
        ],
        "a end 0\nl.1 end 111\nmess/1/1\ninfo/1/1\nlocal/1/1\n-\n",
    ),
    // a spawner that is stopped before it gives the message: the delivery ends, and the next generation makes another one
    (
        &BOX,
        &[
            A,
            Deed::Run(b"a"),
            Deed::Sender,
            Deed::Turn,
            Deed::Turn,
            Deed::Run(b"sender"),
            Deed::Bear(b"lspawn"),
            Deed::Stop(b"lspawn"),
            Deed::Turn,
            Deed::Show,
            Deed::Sender,
            Deed::Settle,
            Deed::Show,
            Deed::Names(NEW),
        ],
        "a end 0\nsender end 82\nclean end 0\nrspawn end 0\nl.1 end 111\nmess/1/1\ninfo/1/1\nlocal/1/1\n-\nl.2 end 0\n-\nhome/j/Maildir/new/0.87.localhost\n-\n",
    ),
    // one that is stopped while the delivery runs, which goes on, also beside the next generation
    (
        &BOX,
        &[
            A,
            Deed::Run(b"a"),
            Deed::Sender,
            Deed::Turn,
            Deed::Turn,
            Deed::Run(b"sender"),
            Deed::Bear(b"lspawn"),
            Deed::Run(b"lspawn"),
            Deed::Step(b"l.1"),
            Deed::Stop(b"lspawn"),
            Deed::Run(b"sender"),
            Deed::Run(b"clean"),
            Deed::Run(b"rspawn"),
            Deed::Sender,
            Deed::Run(b"l.1"),
            Deed::Names(NEW),
            Deed::Settle,
            Deed::Show,
            Deed::Names(NEW),
        ],
        "a end 0\nsender end 82\nclean end 0\nrspawn end 0\nl.1 end 0\nhome/j/Maildir/new/0.82.localhost\n-\nl.2 end 0\n-\nhome/j/Maildir/new/0.82.localhost\nhome/j/Maildir/new/0.87.localhost\n-\n",
    ),
];

/// Whether something else is seen.
fn is_wrong(alloc: Global, row: &Row) -> bool {
    match seen_with(alloc, row.0, row.1) {
        Ok(seen) => seen.as_slice() != row.2.as_bytes(),
        Err(_) => true,
    }
}

/// Which row goes otherwise first; none if all go so.
fn first_wrong(alloc: Global, rows: &[Row]) -> Option<usize> {
    for (at, row) in rows.iter().enumerate() {
        if is_wrong(alloc, row) {
            return Some(at);
        }
    }
    None
}

#[test]
fn deliveries_do_as_they_are_told(rt: HostRuntime) -> Result<(), Fail> {
    assert_eq!(rt; first_wrong(rt.alloc(), &ROWS), None);
    Ok(())
}
