// Commands of a .qmail file.

use super::rows::Case;
use super::running::{ends, first_wrong};
use std::alloc::Global;

/// Commands that go well.
const DONE: &str = "\
    ~like plain\
    ~# 0 goes on\
    ~files home/j/.qmail=|one x\n./Maildir/\n| two \n~exits 0 0~said did 1+0+2\n\
    ~commands one x\n two\n\
    ~like plain\
    ~# 99 has the later lines passed over, also commands and those that would fail, and no earlier one\
    ~files home/j/.qmail=./Maildir/\n|exit 99\n./Nowhere/\n|x\n&a@b\n~exits 99~said did 1+0+1\n\
    ~commands exit 99\n\
    ~like plain~dropped -~files home/j/.qmail=|exit 99\n./Maildir/\n~exits 99~said did 0+0+1\n\
    ~commands exit 99\n\
    ~like plain~files home/j/.qmail=|y\n./Maildir/\n|exit 99\n~exits 0 99~said did 1+0+2\n\
    ~commands y\nexit 99\n\
    ~like plain\
    ~# the mail of a newcomer by a file that forwards, and passes over its maildir\
    ~moment 0~input 71:Received: (qmail 77 invoked by uid 1000); 1 Jan 1970 00:00:00 -0000\nhi\n,\
    ~files home/j/.qmail=&a@b\n|exit 99\n./Maildir/\n~exits 99~said did 0+1+1\nqp 83\n\
    ~commands exit 99\n~started 1000 108\
    ~given 97:Delivered-To: j@localhost\nReceived: (qmail 77 invoked by uid 1000); 1 Jan 1970 00:00:00 -0000\nhi\n,11:Fa@x\0Ta@b\0\0,\
    ~at home/j/Maildir/new/0.82.localhost~dropped -\
    ~like plain\
    ~# the default line may be a command\
    ~line |x~exits 0~said did 0+0+1\n~commands x\n~dropped -\
    ";

/// Commands that fail for good.
const FAILURES: &str = "\
    ~like failing command~exits 64~said Command failed with status 64. (#5.3.0)\n\
    ~like failing command~exits 65~said Command failed with status 65. (#5.3.0)\n\
    ~like failing command~exits 70~said Command failed with status 70. (#5.3.0)\n\
    ~like failing command~exits 76~said Command failed with status 76. (#5.3.0)\n\
    ~like failing command~exits 77~said Command failed with status 77. (#5.3.0)\n\
    ~like failing command~exits 78~said Command failed with status 78. (#5.3.0)\n\
    ~like failing command~exits 100~said Command failed with status 100. (#5.3.0)\n\
    ~like failing command~exits 112~said Command failed with status 112. (#5.3.0)\n\
    ~like plain\
    ~# after a drop, which stays\
    ~status 100~files home/j/.qmail=./Maildir/\n|x\n&a@b\n~exits 100\
    ~said Command failed with status 100. (#5.3.0)\n~commands x\n\
    ";

/// Commands that fail for now.
const DEFERRALS: &str = "\
    ~like deferring command~exits 1~said Command failed with status 1. (#4.3.0)\n\
    ~like deferring command~exits 66~said Command failed with status 66. (#4.3.0)\n\
    ~like deferring command~exits 98~said Command failed with status 98. (#4.3.0)\n\
    ~like deferring command~exits 111~said Command failed with status 111. (#4.3.0)\n\
    ~like deferring command~exits 113~said Command failed with status 113. (#4.3.0)\n\
    ~like deferring command~exits 127~said Command failed with status 127. (#4.3.0)\n\
    ~like deferring command~exits 255~said Command failed with status 255. (#4.3.0)\n\
    ~like deferring command\
    ~# a crash, before which forwards stand that don't go out; one that can't be run\
    ~files home/j/.qmail=&a@b\n|x\n./Maildir/\n~exits crash\
    ~said Command failed with status 0. (#4.3.0)\n\
    ~like deferring command~exits failed~said Command failed with status 0. (#4.3.0)\n\
    ~like deferring command\
    ~# no memory to run it: nothing is printed\
    ~exits memory~status 51~said \
    ";

/// The statuses that end a delivery for good.
const LASTING: [u8; 8] = [64, 65, 70, 76, 77, 78, 100, 112];

/// How a delivery ends whose command ends with this status.
fn end_of(status: u8) -> u8 {
    if status == 0 || status == 99 {
        0
    } else if LASTING.contains(&status) {
        100
    } else {
        111
    }
}

#[test]
fn commands_that_go_well_come_out(rt: HostRuntime) {
    assert_eq!(rt; first_wrong(rt.alloc(), DONE), None);
}

#[test]
fn failures_come_out(rt: HostRuntime) {
    assert_eq!(rt; first_wrong(rt.alloc(), FAILURES), None);
}

#[test]
fn deferrals_come_out(rt: HostRuntime) {
    assert_eq!(rt; first_wrong(rt.alloc(), DEFERRALS), None);
}

/// Which of the 256 statuses of its commands first ends a delivery otherwise; none if all end it so.
fn first_wrong_status(alloc: Global) -> Option<u8> {
    for status in 0..=255 {
        if !ends(
            alloc,
            &Case::with_status("deferring command", status),
            end_of(status),
        ) {
            return Some(status);
        }
    }
    None
}

#[test]
fn each_status_of_a_command_counts(rt: HostRuntime) {
    assert_eq!(rt; first_wrong_status(rt.alloc()), None);
}
