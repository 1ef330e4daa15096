// What the deliveries of the tests have in common.

/// The directories: the home has two maildirs, and is one itself.
pub const DIRS: &str =
    "control home home/j home/j/tmp home/j/new home/j/Maildir home/j/Maildir/tmp home/j/Maildir/new \
    home/j/Other home/j/Other/tmp home/j/Other/new home/j/.box home/j/.box/tmp home/j/.box/new /box /box/tmp /box/new";

/// All fields of a delivery by the default line, which goes well.
pub const PLAIN: &str = "\
    ~home home/j~local j~dash ~ext ~domain localhost~sender a@x~line ./Maildir/~moment 5~pace 0\
    ~input 15:Subject: s\n\nhi\n,~piece 100~breaks no~files ~fault 0~exits ~others crash~start well\
    ~injector 0~deaf 0~status 0~said did 1+0+0\n~commands ~started ~given \
    ~at home/j/Maildir/new/5.82.localhost\
    ~dropped Return-Path: <a@x>\nDelivered-To: j@localhost\nSubject: s\n\nhi\n~left no\
    ";

/// One that defers and drops nothing.
const DEFERRED: &str = "\
    ~status 111~dropped -\
    ";

/// One that fails for good and drops nothing.
const FAILED: &str = "\
    ~status 100~dropped -\
    ";

/// One that forwards to one address, and drops nothing.
const FORWARDED: &str = "\
    ~files home/j/.qmail=&a@b\n~said did 0+1+0\nqp 83\n~started 1000 52\
    ~given 41:Delivered-To: j@localhost\nSubject: s\n\nhi\n,11:Fa@x\0Ta@b\0\0,~dropped -\
    ";

/// One whose command, before a maildir, fails for good; nothing comes after it.
const FAILING_COMMAND: &str = "\
    ~files home/j/.qmail=|x\n./Maildir/\n~status 100~commands x\n~dropped -\
    ";

/// One whose command, before a maildir, fails for now; nothing comes after it.
const DEFERRING_COMMAND: &str = "\
    ~files home/j/.qmail=|x\n./Maildir/\n~status 111~commands x\n~dropped -\
    ";

/// One whose injector fails for good.
const FAILING_INJECTOR: &str = "\
    ~files home/j/.qmail=&a@b\n~status 100~started 1000 52\
    ~given 41:Delivered-To: j@localhost\nSubject: s\n\nhi\n,11:Fa@x\0Ta@b\0\0,~dropped -\
    ";

/// One whose injector fails for now.
const DEFERRING_INJECTOR: &str = "\
    ~files home/j/.qmail=&a@b\n~status 111~started 1000 52\
    ~given 41:Delivered-To: j@localhost\nSubject: s\n\nhi\n,11:Fa@x\0Ta@b\0\0,~dropped -\
    ";

/// One to a list.
const LIST: &str = "\
    ~local j-list~dash -~ext list~files home/j/.qmail-list=&a@b\n~said did 0+1+0\nqp 83\n\
    ~started 1000 57~given 46:Delivered-To: j-list@localhost\nSubject: s\n\nhi\n,11:Fa@x\0Ta@b\0\0,\
    ~dropped -\
    ";

/// One whose `.qmail` has a maildir and a forward, of which a call fails: it can't go on.
const STUCK: &str = "\
    ~files home/j/.qmail=./Maildir/\n&a@b\n~status 111~said Unable to read the home. (#4.3.0)\n\
    ~dropped -\
    ";

/// One whose `.qmail` has a maildir and a forward, of which a call fails: it can't drop.
const UNDROPPED: &str = "\
    ~files home/j/.qmail=./Maildir/\n&a@b\n~status 111\
    ~said Temporary error on maildir delivery. (#4.3.0)\n~dropped -\
    ";

/// One whose `.qmail` has a maildir and a forward, of which no call fails that counts.
const DONE: &str = "\
    ~files home/j/.qmail=./Maildir/\n&a@b\n~said did 1+1+0\nqp 83\n~started 1000 52\
    ~given 41:Delivered-To: j@localhost\nSubject: s\n\nhi\n,11:Fa@x\0Ta@b\0\0,\
    ";

/// The fields of the delivery of this name, besides those that are as in a plain one.
pub fn base_of(name: &str) -> &'static str {
    match name {
        "deferred" => DEFERRED,
        "failed" => FAILED,
        "forwarded" => FORWARDED,
        "failing command" => FAILING_COMMAND,
        "deferring command" => DEFERRING_COMMAND,
        "failing injector" => FAILING_INJECTOR,
        "deferring injector" => DEFERRING_INJECTOR,
        "list" => LIST,
        "stuck" => STUCK,
        "undropped" => UNDROPPED,
        "done" => DONE,
        _ => "",
    }
}
