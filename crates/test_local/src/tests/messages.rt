// Messages as they come in and as they are dropped.

use super::running::first_wrong;

/// What an input is.
const INPUTS: &str = "\
    ~like plain\
    ~like plain\
    ~# its input in single bytes, and in two parts\
    ~piece 1\
    ~like plain~input 15:Subject: s\n^\nhi\n,\
    ~like plain\
    ~# the message of the mail that a newcomer sends first\
    ~moment 0~input 71:Received: (qmail 77 invoked by uid 1000); 1 Jan 1970 00:00:00 -0000\nhi\n,\
    ~at home/j/Maildir/new/0.82.localhost\
    ~dropped Return-Path: <a@x>\nDelivered-To: j@localhost\nReceived: (qmail 77 invoked by uid 1000); 1 Jan 1970 00:00:00 -0000\nhi\n\
    ~like deferred\
    ~# an input without its comma, with another byte in its place, with more after it, with a wrong length, without a length, and none\
    ~input 15:Subject: s\n\nhi\n~said Unable to read the message. (#4.3.0)\n\
    ~like deferred~input 15:Subject: s\n\nhi\n;~said Unable to read the message. (#4.3.0)\n\
    ~like deferred~input 15:Subject: s\n\nhi\n,,~said Unable to read the message. (#4.3.0)\n\
    ~like deferred~input 14:Subject: s\n\nhi\n,~said Unable to read the message. (#4.3.0)\n\
    ~like deferred~input 16:Subject: s\n\nhi\n,~said Unable to read the message. (#4.3.0)\n\
    ~like deferred~input 015:Subject: s\n\nhi\n,~said Unable to read the message. (#4.3.0)\n\
    ~like deferred~input :Subject: s\n\nhi\n,~said Unable to read the message. (#4.3.0)\n\
    ~like deferred~input ~said Unable to read the message. (#4.3.0)\n\
    ~like deferred\
    ~# one that can't be taken to its end, whether all of it came or not\
    ~input 15:Subject: s\n~breaks yes~said Unable to read the message. (#4.3.0)\n\
    ~like deferred~breaks yes~said Unable to read the message. (#4.3.0)\n\
    ~like plain\
    ~# an empty message\
    ~input 0:,~dropped Return-Path: <a@x>\nDelivered-To: j@localhost\n\
    ";

/// What a loop is.
const LOOPS: &str = "\
    ~like failed\
    ~# the line Delivered-To in the header, also as its last line without a newline, after other lines, and in the middle of them\
    ~input 27:Delivered-To: j@localhost\n\n,\
    ~said This message is looping: it already has my Delivered-To line. (#5.4.6)\n\
    ~like failed~input 28:A:\nDelivered-To: j@localhost,\
    ~said This message is looping: it already has my Delivered-To line. (#5.4.6)\n\
    ~like failed~input 33:A:\nDelivered-To: j@localhost\nB:\n\n,\
    ~said This message is looping: it already has my Delivered-To line. (#5.4.6)\n\
    ~like failed\
    ~# it is found before the home is looked at\
    ~home nowhere~input 27:Delivered-To: j@localhost\n\n,\
    ~said This message is looping: it already has my Delivered-To line. (#5.4.6)\n\
    ~like failed\
    ~# newlines in the address are `_` there\
    ~local j\n~input 28:Delivered-To: j_@localhost\n\n,\
    ~said This message is looping: it already has my Delivered-To line. (#5.4.6)\n\
    ~like plain\
    ~# in the body; of an address that goes on; in other letters; after a blank; of another address\
    ~input 27:\n\nDelivered-To: j@localhost,\
    ~dropped Return-Path: <a@x>\nDelivered-To: j@localhost\n\n\nDelivered-To: j@localhost\
    ~like plain~input 29:Delivered-To: j@localhost.x\n\n,\
    ~dropped Return-Path: <a@x>\nDelivered-To: j@localhost\nDelivered-To: j@localhost.x\n\n\
    ~like plain~input 27:Delivered-To: J@localhost\n\n,\
    ~dropped Return-Path: <a@x>\nDelivered-To: j@localhost\nDelivered-To: J@localhost\n\n\
    ~like plain~input 27:delivered-to: j@localhost\n\n,\
    ~dropped Return-Path: <a@x>\nDelivered-To: j@localhost\ndelivered-to: j@localhost\n\n\
    ~like plain~input 28: Delivered-To: j@localhost\n\n,\
    ~dropped Return-Path: <a@x>\nDelivered-To: j@localhost\n Delivered-To: j@localhost\n\n\
    ~like plain~input 27:Delivered-To: k@localhost\n\n,\
    ~dropped Return-Path: <a@x>\nDelivered-To: j@localhost\nDelivered-To: k@localhost\n\n\
    ";

/// Long messages, whose file ends with a piece of 8192 bytes, goes one byte past it, and has more pieces; in other pieces as they
/// come in; forwarded; and with the line of a loop across the end of a piece.
const LONG: &str = "\
    ~like plain~input 8147:^*8147 x^,~piece 8192\
    ~dropped Return-Path: <a@x>\nDelivered-To: j@localhost\n^*8147 x\
    ~like plain~input 8148:^*8148 x^,~piece 8192\
    ~dropped Return-Path: <a@x>\nDelivered-To: j@localhost\n^*8148 x\
    ~like plain~input 20000:^*20000 x^,~piece 8192\
    ~dropped Return-Path: <a@x>\nDelivered-To: j@localhost\n^*20000 x\
    ~like plain~input 20000:^*20000 x^,~piece 20000\
    ~dropped Return-Path: <a@x>\nDelivered-To: j@localhost\n^*20000 x\
    ~like plain~input 20000:^*20000 x^,\
    ~dropped Return-Path: <a@x>\nDelivered-To: j@localhost\n^*20000 x\
    ~like forwarded~input 20000:^*20000 x^,~piece 8192~started 1000 20037\
    ~given 20026:Delivered-To: j@localhost\n^*20000 x^,11:Fa@x\0Ta@b\0\0,\
    ~like failed~input 8211:A: ^*8180 x^\nDelivered-To: j@localhost\n\n,~piece 8192\
    ~said This message is looping: it already has my Delivered-To line. (#5.4.6)\n\
    ";

#[test]
fn inputs_come_out(rt: HostRuntime) {
    assert_eq!(rt; first_wrong(rt.alloc(), INPUTS), None);
}

#[test]
fn loops_come_out(rt: HostRuntime) {
    assert_eq!(rt; first_wrong(rt.alloc(), LOOPS), None);
}

#[test]
fn long_messages_come_out(rt: HostRuntime) {
    assert_eq!(rt; first_wrong(rt.alloc(), LONG), None);
}
