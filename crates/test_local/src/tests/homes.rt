// Which file of a home counts, the name of the host, calls that fail, and machine stops.

use super::rows::Case;
use super::running::{Around, did, empty_disk, first_wrong, has_dropped, is_laid};
use call_fs::{CrashFs, Survival};
use crash_fs::CrashDisk;
use std::alloc::Global;

/// Files and extensions.
const HOMES: &str = "\
    ~like plain\
    ~# the name has lower case and colons\
    ~dash -~ext Foo.Bar~files home/j/.qmail-Foo.Bar=./Nowhere/\n^home/j/.qmail-foo:bar=./Maildir/\n\
    ~like failed\
    ~# there is none, though there are some for others\
    ~dash -~ext nobody\
    ~files home/j/.qmail=./Maildir/\n^home/j/.qmail-=./Maildir/\n^home/j/.qmail-nobod=./Maildir/\n^home/j/.qmail-nobody-default=./Maildir/\n\
    ~said Sorry, no mailbox here by that name. (#5.1.1)\n\
    ~like plain\
    ~# the longest prefix that ends in a dash, and before all of them the whole name\
    ~dash -~ext a-b-c\
    ~files home/j/.qmail-a-b-default=./Maildir/\n^home/j/.qmail-a-default=./Nowhere/\n^home/j/.qmail-default=./Nowhere/\n\
    ~like plain~dash -~ext a-b-c\
    ~files home/j/.qmail-a-b-c=./Maildir/\n^home/j/.qmail-a-b-default=./Nowhere/\n^home/j/.qmail-default=./Nowhere/\n\
    ~like plain~dash -~ext a-b-c\
    ~files home/j/.qmail-a-b-c-default=./Nowhere/\n^home/j/.qmail-b-default=./Nowhere/\n^home/j/.qmail-default=./Maildir/\n\
    ~like plain\
    ~# an extension that is empty, and one that ends in a dash\
    ~dash -~files home/j/.qmail=./Nowhere/\n^home/j/.qmail-default=./Maildir/\n\
    ~like plain~dash -~ext a-\
    ~files home/j/.qmail-a-default=./Maildir/\n^home/j/.qmail-default=./Nowhere/\n\
    ~like plain\
    ~# an empty default file stands for the default line\
    ~dash -~ext a~files home/j/.qmail-default=\
    ~like plain\
    ~# without a dash one file counts alone\
    ~files home/j/.qmail-default=./Nowhere/\n\
    ~like deferred\
    ~# a home that is missing, that is a file, and two that are no names\
    ~home home/k~said Unable to read the home. (#4.3.0)\n\
    ~like deferred~home home/k~files home/k=~said Unable to read the home. (#4.3.0)\n\
    ~like deferred~home home//j~said Unable to read the home. (#4.3.0)\n\
    ~like deferred~home ~said Unable to read the home. (#4.3.0)\n\
    ~like plain\
    ~# one from the root\
    ~home /box~files /box/.qmail=./\n~at /box/new/5.82.localhost\
    ";

/// Files control/me.
const HOSTS: &str = "\
    ~like plain\
    ~# its first line without the blanks at its end is the name\
    ~files control/me=h.example \t\nother\n~at home/j/Maildir/new/5.82.h.example\
    ~like plain~files control/me=h.example~at home/j/Maildir/new/5.82.h.example\
    ~like plain\
    ~# an empty file, or first line, is an empty name\
    ~files control/me=~at home/j/Maildir/new/5.82.\
    ~like plain~files control/me= \nh.example\n~at home/j/Maildir/new/5.82.\
    ~like deferred\
    ~# a bad one: a NUL, a line that is too long\
    ~files control/me=a\0b\n~said Unable to read the home. (#4.3.0)\n\
    ~like deferred~files control/me=*401 h~said Unable to read the home. (#4.3.0)\n\
    ~like deferred\
    ~# names that make no name of a file, and one that leads into a directory that is missing\
    ~files control/me=*400 h~said Temporary error on maildir delivery. (#4.3.0)\n\
    ~like deferred~files control/me=h//x\n~said Temporary error on maildir delivery. (#4.3.0)\n\
    ~like deferred~files control/me=h/x\n~said Temporary error on maildir delivery. (#4.3.0)\n\
    ~like deferred\
    ~# it can't be read\
    ~fault 2~files control/me=h\n~said Unable to read the home. (#4.3.0)\n\
    ";

/// Each call fails once: it opens control/me, looks for two names, opens and reads `.qmail`, creates, appends, syncs, links and
/// unlinks; and none fails. Then the second reading of a file that has a whole piece, and the opening of a file that is chosen by
/// default.
const FAULTS: &str = "\
    ~like stuck~fault 1\
    ~like stuck~fault 2\
    ~like stuck~fault 3\
    ~like stuck~fault 4\
    ~like stuck~fault 5\
    ~like undropped~fault 6\
    ~like undropped~fault 7\
    ~like undropped~fault 8\
    ~like undropped~fault 9\
    ~like done~fault 10~left yes\
    ~like done~fault 11\
    ~like stuck~fault 6~files home/j/.qmail=*8192 #\
    ~like stuck~fault 4~dash -~ext a~files home/j/.qmail-default=./Maildir/\n\
    ";

#[test]
fn homes_come_out(rt: HostRuntime) {
    assert_eq!(rt; first_wrong(rt.alloc(), HOMES), None);
}

#[test]
fn hosts_come_out(rt: HostRuntime) {
    assert_eq!(rt; first_wrong(rt.alloc(), HOSTS), None);
}

#[test]
fn faults_come_out(rt: HostRuntime) {
    assert_eq!(rt; first_wrong(rt.alloc(), FAULTS), None);
}

/// What a machine stop leaves.
const SURVIVALS: [Survival; 6] = [
    Survival::Keep,
    Survival::Lose,
    Survival::Junk(1),
    Survival::Junk(2),
    Survival::Junk(3),
    Survival::Junk(4),
];

/// The steps of the delivery by the two lines up to its link, that one included: two takings, control/me, two searches, three for
/// `.qmail`, and of the drop the creation, the append, the sync, the close and the link.
const LINKED: usize = 13;

/// Makes so many steps of a delivery over this disk, and stops the machine; whether there was memory for it.
fn is_stopped(
    alloc: Global,
    case: &Case<'_>,
    disk: &mut CrashDisk,
    steps: usize,
    how: Survival,
) -> bool {
    let mut around = Around::new(alloc, case);
    let is_done = did(alloc, case, disk, &mut around, steps) && disk.halt(alloc, how).is_ok();
    drop(around);
    is_done
}

/// Whether the whole message stands in the maildir just if it was linked by so many steps.
fn is_whole(disk: &CrashDisk, steps: usize) -> bool {
    let name = if steps < LINKED { "undropped" } else { "done" };
    has_dropped(&Case::of(name), disk)
}

/// Whether after so many of its steps and a machine stop the whole message stands in the maildir just if it was linked.
fn survives(alloc: Global, steps: usize, how: Survival) -> bool {
    let case = Case::of("done");
    match empty_disk(alloc, &case) {
        Ok(mut disk) => {
            let is_right = is_laid(alloc, &mut disk, &case)
                && is_stopped(alloc, &case, &mut disk, steps, how)
                && is_whole(&disk, steps);
            drop(disk);
            is_right
        }
        Err(_) => false,
    }
}

/// After how many steps something else stands in the maildir first, if a machine stop leaves this; none if that never is so.
fn first_wrong_stop(alloc: Global, how: Survival) -> Option<usize> {
    for steps in 0..22 {
        if !survives(alloc, steps, how) {
            return Some(steps);
        }
    }
    None
}

#[test]
fn a_machine_stop_leaves_the_whole_message_or_nothing(rt: HostRuntime) {
    for how in SURVIVALS {
        assert_eq!(rt; first_wrong_stop(rt.alloc(), how), None);
    }
}
