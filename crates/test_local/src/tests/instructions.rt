// Instructions without commands and forwards that go out: which lines count, and drops into maildirs.

use super::running::first_wrong;

/// The lines of a file.
const LINES: &str = "\
    ~like plain\
    ~# newlines in addresses\
    ~sender a\n@x~local j\n~domain local\nhost\
    ~dropped Return-Path: <a_@x>\nDelivered-To: j_@local_host\nSubject: s\n\nhi\n\
    ~like plain\
    ~# the empty sender\
    ~sender ~dropped Return-Path: <>\nDelivered-To: j@localhost\nSubject: s\n\nhi\n\
    ~like plain\
    ~# an empty file stands for the default line, as a missing one; an empty and a blank default line\
    ~files home/j/.qmail=\
    ~like deferred~line ~said Uh-oh: first line of .qmail file is blank. (#4.2.1)\n\
    ~like deferred~line  ~said Uh-oh: first line of .qmail file is blank. (#4.2.1)\n\
    ~like deferred\
    ~# a blank first line\
    ~files home/j/.qmail=\n./Maildir/\n~said Uh-oh: first line of .qmail file is blank. (#4.2.1)\n\
    ~like deferred~files home/j/.qmail= \t\n./Maildir/\n\
    ~said Uh-oh: first line of .qmail file is blank. (#4.2.1)\n\
    ~like deferred~files home/j/.qmail=\n~said Uh-oh: first line of .qmail file is blank. (#4.2.1)\n\
    ~like plain\
    ~# comments, blank lines, lines that begin with `+`, and blanks at the end\
    ~files home/j/.qmail=# me\n\n./Maildir/ \t\n+list\n \t\n\
    ~like plain~files home/j/.qmail=+list\n./Maildir/\n#./Other/\n\
    ~like plain\
    ~# a last line without a newline\
    ~files home/j/.qmail=./Maildir/\
    ~like plain\
    ~# nothing to do\
    ~files home/j/.qmail=# nothing\n~said did 0+0+0\n~dropped -\
    ~like plain\
    ~# a file of one piece, which is read once more, and one of more than a piece\
    ~files home/j/.qmail=*8192 #~said did 0+0+0\n~dropped -\
    ~like plain~files home/j/.qmail=*9000 #~said did 0+0+0\n~dropped -\
    ~like deferred\
    ~# a mailbox file, by a path that begins with a dot or with a slash\
    ~files home/j/.qmail=&a@b\n./mbox\n./Maildir/\n\
    ~said Mailbox files are not delivered to here. (#4.3.0)\n\
    ~like deferred~files home/j/.qmail=/mbox\n./Maildir/\n\
    ~said Mailbox files are not delivered to here. (#4.3.0)\n\
    ";

/// Drops.
const DROPS: &str = "\
    ~like plain\
    ~# two maildirs\
    ~files home/j/.qmail=./Maildir/\n./Other/\n~said did 2+0+0\n\
    ~like plain~files home/j/.qmail=./Maildir/\n./Other/\n~said did 2+0+0\n\
    ~at home/j/Other/new/5.82.localhost\
    ~like plain\
    ~# the home itself; a path that begins with a dot; one from the root\
    ~line ./~at home/j/new/5.82.localhost\
    ~like plain~line .box/~at home/j/.box/new/5.82.localhost\
    ~like plain~line /box/~at /box/new/5.82.localhost\
    ~like deferred\
    ~# paths that give no name\
    ~line .//~said Temporary error on maildir delivery. (#4.3.0)\n\
    ~like deferred~line //~said Temporary error on maildir delivery. (#4.3.0)\n\
    ~like deferred~line ./Maildir//~said Temporary error on maildir delivery. (#4.3.0)\n\
    ~like deferred\
    ~# no such maildir: no forward starts, whether it stands before or after\
    ~files home/j/.qmail=&a@b\n./Nowhere/\n~said Temporary error on maildir delivery. (#4.3.0)\n\
    ~like deferred~files home/j/.qmail=./Nowhere/\n&a@b\n\
    ~said Temporary error on maildir delivery. (#4.3.0)\n\
    ~like plain\
    ~# one that is missing after one that is there, and before it\
    ~status 111~files home/j/.qmail=./Maildir/\n./Nowhere/\n&a@b\n\
    ~said Temporary error on maildir delivery. (#4.3.0)\n\
    ~like deferred~files home/j/.qmail=./Nowhere/\n./Maildir/\n\
    ~said Temporary error on maildir delivery. (#4.3.0)\n\
    ~like plain\
    ~# names that are taken in `tmp`, and in `new`\
    ~files home/j/Maildir/tmp/5.82.localhost=old~at home/j/Maildir/new/5.82_1.localhost~left yes\
    ~like plain~files home/j/Maildir/tmp/5.82.localhost=old^home/j/Maildir/tmp/5.82_1.localhost=old\
    ~at home/j/Maildir/new/5.82_2.localhost~left yes\
    ~like deferred\
    ~files home/j/Maildir/tmp/5.82.localhost=old^home/j/Maildir/tmp/5.82_1.localhost=old^home/j/Maildir/tmp/5.82_2.localhost=old\
    ~said Temporary error on maildir delivery. (#4.3.0)\n~left yes\
    ~like plain~status 111~files home/j/Maildir/new/5.82.localhost=old\
    ~said Temporary error on maildir delivery. (#4.3.0)\n~dropped old\
    ~like plain\
    ~# its name has the moment of the event just before its first call: the takings are at 5 and 6, the open of control/me is at\
    ~# 7, the search in the home at 8\
    ~pace 1~at home/j/Maildir/new/8.82.localhost\
    ~like plain\
    ~# after two searches, .qmail is opened at 9, read at 10 and closed at 11; the first drop makes its calls at 12 to 17\
    ~pace 1~files home/j/.qmail=./Maildir/\n./Other/\n~said did 2+0+0\n\
    ~at home/j/Maildir/new/12.82.localhost\
    ~like plain~pace 1~files home/j/.qmail=./Other/\n./Maildir/\n~said did 2+0+0\n\
    ~at home/j/Maildir/new/18.82.localhost\
    ";

#[test]
fn lines_come_out(rt: HostRuntime) {
    assert_eq!(rt; first_wrong(rt.alloc(), LINES), None);
}

#[test]
fn drops_come_out(rt: HostRuntime) {
    assert_eq!(rt; first_wrong(rt.alloc(), DROPS), None);
}
