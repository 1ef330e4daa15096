// Forwards, and their senders.

use super::rows::Case;
use super::running::{ends, first_wrong};
use std::alloc::Global;

/// Addresses and what else a file says.
const FORWARDS: &str = "\
    ~like forwarded\
    ~like plain\
    ~# to two addresses, and to the own maildir, which comes first\
    ~files home/j/.qmail=&a@b\n./Maildir/\nc@d \n~said did 1+2+0\nqp 83\n~started 1000 57\
    ~given 41:Delivered-To: j@localhost\nSubject: s\n\nhi\n,16:Fa@x\0Ta@b\0Tc@d\0\0,\
    ~like forwarded\
    ~# in the order of the file, also twice to one address\
    ~files home/j/.qmail=&c@d\n&a@b\n&c@d\n~said did 0+3+0\nqp 83\n~started 1000 62\
    ~given 41:Delivered-To: j@localhost\nSubject: s\n\nhi\n,21:Fa@x\0Tc@d\0Ta@b\0Tc@d\0\0,\
    ~like forwarded\
    ~# an address ends before its first NUL\
    ~files home/j/.qmail=&a@b\0@c\n\
    ~like forwarded\
    ~# a newline in the own address; the sender's stays, as in an envelope\
    ~local j\n~sender a\n@x~started 1000 54\
    ~given 42:Delivered-To: j_@localhost\nSubject: s\n\nhi\n,12:Fa\n@x\0Ta@b\0\0,\
    ~like forwarded\
    ~# before and after a command with 99\
    ~files home/j/.qmail=&a@b\n|exit 99\n&c@d\n./Maildir/\n~exits 99~said did 0+1+1\nqp 83\n\
    ~commands exit 99\n\
    ~like forwarded\
    ~# after all lines, also of those after it\
    ~files home/j/.qmail=&a@b\n|x\n./Maildir/\n~exits 0~said did 1+1+1\nqp 83\n~commands x\n\
    ~dropped Return-Path: <a@x>\nDelivered-To: j@localhost\nSubject: s\n\nhi\n\
    ~like forwarded\
    ~# the default line may be a forward\
    ~files ~line &a@b\
    ~like forwarded\
    ~# the message of an empty input\
    ~input 0:,~started 1000 37~given 26:Delivered-To: j@localhost\n,11:Fa@x\0Ta@b\0\0,\
    ";

/// Injectors that fail for good.
const FAILURES: &str = "\
    ~like failing injector~injector 11~said Unable to forward: status 11. (#5.3.0)\n\
    ~like failing injector~injector 31~said Unable to forward: status 31. (#5.3.0)\n\
    ~like failing injector~injector 40~said Unable to forward: status 40. (#5.3.0)\n\
    ~like plain\
    ~# after a drop, which stays\
    ~status 100~files home/j/.qmail=&a@b\n./Maildir/\n~injector 31\
    ~said Unable to forward: status 31. (#5.3.0)\n~started 1000 52\
    ~given 41:Delivered-To: j@localhost\nSubject: s\n\nhi\n,11:Fa@x\0Ta@b\0\0,\
    ";

/// Injectors that fail for now.
const DEFERRALS: &str = "\
    ~like deferring injector~injector 1~said Unable to forward: status 1. (#4.3.0)\n\
    ~like deferring injector~injector 10~said Unable to forward: status 10. (#4.3.0)\n\
    ~like deferring injector~injector 41~said Unable to forward: status 41. (#4.3.0)\n\
    ~like deferring injector~injector 51~said Unable to forward: status 51. (#4.3.0)\n\
    ~like deferring injector~injector 91~said Unable to forward: status 91. (#4.3.0)\n\
    ~like deferring injector~injector 99~said Unable to forward: status 99. (#4.3.0)\n\
    ~like deferring injector~injector 100~said Unable to forward: status 100. (#4.3.0)\n\
    ";

/// Injectors that have no status.
const CRASHES: &str = "\
    ~like deferring injector\
    ~# a crash, a status that can't be had, and one that can't be started\
    ~injector crash~said Unable to forward: status 0. (#4.3.0)\n\
    ~like deferring injector~injector failed~said Unable to forward: status 0. (#4.3.0)\n\
    ~like deferring injector~start failed~said Unable to forward: status 0. (#4.3.0)\n~given \
    ~like deferring injector\
    ~# no memory for it: nothing is printed\
    ~start memory~status 51~said ~given \
    ~like deferring injector\
    ~# it can't be fed, or nothing can be printed\
    ~deaf 1~said ~given \
    ~like deferring injector~deaf 2~said \
    ";

/// The senders of forwards.
const OWNERS: &str = "\
    ~like list\
    ~like list~files home/j/.qmail-list=&a@b\n^home/j/.qmail-list-owner=&j\n~started 1000 76\
    ~given 46:Delivered-To: j-list@localhost\nSubject: s\n\nhi\n,30:Fj-list-owner@localhost\0Ta@b\0\0,\
    ~like list\
    ~files home/j/.qmail-list=&a@b\n^home/j/.qmail-list-owner=&j\n^home/j/.qmail-list-owner-default=&j\n\
    ~started 1000 81\
    ~given 46:Delivered-To: j-list@localhost\nSubject: s\n\nhi\n,35:Fj-list-owner-@localhost-@[]\0Ta@b\0\0,\
    ~like list\
    ~# the default of owners by itself counts for nothing\
    ~files home/j/.qmail-list=&a@b\n^home/j/.qmail-list-owner-default=&j\n\
    ~like list\
    ~# the sender of a bounce, and of a double bounce, stays\
    ~sender ~files home/j/.qmail-list=&a@b\n^home/j/.qmail-list-owner=&j\n~started 1000 54\
    ~given 46:Delivered-To: j-list@localhost\nSubject: s\n\nhi\n,8:F\0Ta@b\0\0,\
    ~like list~sender #@[]\
    ~files home/j/.qmail-list=&a@b\n^home/j/.qmail-list-owner=&j\n^home/j/.qmail-list-owner-default=&j\n\
    ~started 1000 58~given 46:Delivered-To: j-list@localhost\nSubject: s\n\nhi\n,12:F#@[]\0Ta@b\0\0,\
    ~like forwarded\
    ~# without a dash\
    ~files home/j/.qmail=&a@b\n^home/j/.qmail-owner=&j\n~started 1000 66\
    ~given 41:Delivered-To: j@localhost\nSubject: s\n\nhi\n,25:Fj-owner@localhost\0Ta@b\0\0,\
    ~like forwarded\
    ~files home/j/.qmail=&a@b\n^home/j/.qmail-owner=&j\n^home/j/.qmail-owner-default=&j\n\
    ~started 1000 71\
    ~given 41:Delivered-To: j@localhost\nSubject: s\n\nhi\n,30:Fj-owner-@localhost-@[]\0Ta@b\0\0,\
    ~like forwarded\
    ~# the names have lower case and colons, the sender has the address as it came\
    ~local j-Foo.Bar~dash -~ext Foo.Bar\
    ~files home/j/.qmail-foo:bar=&a@b\n^home/j/.qmail-foo:bar-owner=&j\n~started 1000 82\
    ~given 49:Delivered-To: j-Foo.Bar@localhost\nSubject: s\n\nhi\n,33:Fj-Foo.Bar-owner@localhost\0Ta@b\0\0,\
    ~like list\
    ~# the owner of an address that a default file stands for, by the address's own name\
    ~files home/j/.qmail-default=&a@b\n^home/j/.qmail-default-owner=&j\n\
    ";

/// How a delivery ends whose injector ends with this status.
fn end_of(status: u8) -> u8 {
    match status {
        0 => 0,
        11..=40 => 100,
        _ => 111,
    }
}

#[test]
fn forwards_come_out(rt: HostRuntime) {
    assert_eq!(rt; first_wrong(rt.alloc(), FORWARDS), None);
}

#[test]
fn failures_come_out(rt: HostRuntime) {
    assert_eq!(rt; first_wrong(rt.alloc(), FAILURES), None);
}

#[test]
fn deferrals_come_out(rt: HostRuntime) {
    assert_eq!(rt; first_wrong(rt.alloc(), DEFERRALS), None);
}

#[test]
fn crashes_come_out(rt: HostRuntime) {
    assert_eq!(rt; first_wrong(rt.alloc(), CRASHES), None);
}

#[test]
fn owners_come_out(rt: HostRuntime) {
    assert_eq!(rt; first_wrong(rt.alloc(), OWNERS), None);
}

/// Which of the 256 statuses of its injector first ends a delivery otherwise; none if all end it so.
fn first_wrong_status(alloc: Global) -> Option<u8> {
    for status in 0..=255 {
        if !ends(
            alloc,
            &Case::with_status("forwarded", status),
            end_of(status),
        ) {
            return Some(status);
        }
    }
    None
}

#[test]
fn each_status_of_an_injector_counts(rt: HostRuntime) {
    assert_eq!(rt; first_wrong_status(rt.alloc()), None);
}
