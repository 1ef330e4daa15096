// Children as real processes, one after another.

use super::yard::Yard;
use outside::{Gave, Posts, Spawner, Started, Status};
use proc_runner::{MOST_PRINTED, System};
use std::alloc::Global;
use std::sync::Wait;

/// Runs a child of these words, which is fed this text and whose input ends, and keeps what it prints. Answers its status; it is that
/// of a failure if the child wasn't fed all, or its channel failed.
fn run<R: Wait + Drop, S: System>(
    yard: &mut Yard<R, S>,
    alloc: Global,
    words: &[&[u8]],
    input: &[u8],
) -> Status {
    let chan = yard.start(alloc, words);
    let is_fed = input.is_empty() || yard.children.feed(chan, input) == Gave::Done;
    yard.children.finish(chan);
    yard.bytes.clear();
    if !yard.collect() {
        return Status::Failed;
    }
    let status = yard.children.status(chan);
    if is_fed { status } else { Status::Failed }
}

/// Whether a command of a shell, which is fed this text, prints this and ends so.
pub fn prints<R: Wait + Drop, S: System>(
    yard: &mut Yard<R, S>,
    alloc: Global,
    command: &[u8],
    input: &[u8],
    text: &[u8],
    status: Status,
) -> bool {
    let told = run(yard, alloc, &[b"sh", b"-c", command], input);
    told == status && yard.bytes.as_slice() == text
}

/// Commands of a shell, what each is fed and prints, and its exit status: 3; 127; one whose words to descriptor 2 are lost; one that
/// closes its output and runs on, and has ended when it exits; one whose output outlives it; one that reads nothing; one whose input
/// is a file without a name; one whose child holds its output for longer than that is read.
const COMMANDS: [(&[u8], &[u8], &[u8], u8); 8] = [
    (b"echo one; exit 3", b"", b"one\n", 3),
    (b"/proc/self/none", b"", b"", 127),
    (
        b"echo forged >&2; readlink /proc/self/fd/2",
        b"",
        b"/dev/null\n",
        0,
    ),
    (b"exec >&-; sleep 0.3; exit 7", b"", b"", 7),
    (b"(sleep 0.3; echo late) & exit 5", b"", b"late\n", 5),
    (b"echo done", b"abc", b"done\n", 0),
    (
        b"test -f /dev/stdin && stat -L -c %h-%s /dev/stdin; cat",
        b"abc",
        b"0-3\nabc",
        0,
    ),
    (b"sleep 1000 & exit 6", b"", b"", 6),
];

/// Whether each of the commands does what it is to do, and one that ends itself by a signal has crashed.
pub fn commands<R: Wait + Drop, S: System>(yard: &mut Yard<R, S>, alloc: Global) -> bool {
    let mut right = prints(yard, alloc, b"kill -9 $$", b"", b"", Status::Crashed);
    for at in 0..COMMANDS.len() {
        let (command, input, text, code) = COMMANDS[at];
        right = prints(yard, alloc, command, input, text, Status::Ended(code)) && right;
    }
    right
}

/// Whether remote programs that print a mebibyte, a byte more and then exit with 0, and for ever, are told so.
pub fn floods<R: Wait + Drop, S: System>(yard: &mut Yard<R, S>, alloc: Global) -> bool {
    let counts: [&[u8]; 3] = [b"1048576", b"1048577", b"99999999999"];
    let mut right = true;
    for at in 0..3 {
        let words: [&[u8]; 4] = [b"/usr/bin/head", b"-c", counts[at], b"/dev/zero"];
        let status = run(yard, alloc, &words, b"");
        let wanted = if at == 0 {
            Status::Ended(0)
        } else {
            Status::Crashed
        };
        right = right && status == wanted && yard.bytes.len() == MOST_PRINTED;
        right = right && yard.posts.cuts() == at as u64;
    }
    right && yard.posts.faults() == 0
}

/// Whether a remote program has a process group of its own, so that it ends nobody else, and `/dev/null` as descriptor 2; and whether
/// one that can't be started, and one with a word that the system can't take, are told so.
pub fn strangers<R: Wait + Drop, S: System>(yard: &mut Yard<R, S>, alloc: Global) -> bool {
    let killer = run(yard, alloc, &[b"/bin/sh", b"-c", b"kill -9 0", b"x"], b"");
    let none = run(yard, alloc, &[b"/proc/self/none", b"d", b"s", b"r"], b"");
    let is_silent = yard.bytes.is_empty();
    let link: [&[u8]; 4] = [b"/bin/readlink", b"-n", b"-e", b"/proc/self/fd/2"];
    let linked = run(yard, alloc, &link, b"");
    let is_apart = linked == Status::Ended(0) && yard.bytes.as_slice() == b"/dev/null".as_slice();
    let wrong = yard
        .children
        .start(alloc, &[b"/bin/echo", b"d", b"s", b"\xff"]);
    let are_crashed = [killer, none] == [Status::Crashed; 2];
    are_crashed && is_silent && is_apart && wrong == Started::Failed
}

/// Whether this same program is started as a member, and told its words: it prints, and ends, as when a shell starts the program
/// that its parent is by the same word, which has it list its tests.
pub fn itself<R: Wait + Drop, S: System>(yard: &mut Yard<R, S>, alloc: Global) -> bool {
    let member = run(yard, alloc, &[b"", b"--list"], b"");
    let chan = yard.start(alloc, &[b"sh", b"-c", b"exec /proc/$PPID/exe --list"]);
    yard.children.finish(chan);
    if !yard.collect() {
        return false;
    }
    let by_shell = yard.children.status(chan);
    let is_same = member == by_shell && matches!(member, Status::Ended(_));
    is_same && (yard.bytes.is_empty() || is_twice(yard.bytes.as_slice()))
}

/// Whether a child whose input was ended, and a channel that no child has, can't be fed, each counted once.
pub fn refuses<R: Wait + Drop, S: System>(yard: &mut Yard<R, S>, alloc: Global) -> bool {
    let before = yard.children.faults();
    let chan = yard.start(alloc, &[b"sh", b"-c", b"exec cat"]);
    yard.children.finish(chan);
    let is_late = yard.children.feed(chan, b"late") == Gave::Failed;
    let is_unknown = yard.children.feed(99_999, b"lost") == Gave::Failed;
    let is_counted = yard.children.faults() == before.saturating_add(2);
    yard.bytes.clear();
    if !yard.collect() {
        return false;
    }
    let is_silent = yard.bytes.is_empty();
    let _ = yard.children.status(chan);
    is_silent && is_late && is_unknown && is_counted
}

/// Prints its descriptors, and reads its input.
const DESCRIPTORS: &[u8] = b"echo /proc/self/fd/*; exec cat";

/// Whether two children end in the order in which their inputs are ended, where the second was asked for while the first one was, and
/// begins while that runs; and whether it has the descriptors that a child has which is alone.
pub fn keeps_apart<R: Wait + Drop, S: System>(yard: &mut Yard<R, S>, alloc: Global) -> bool {
    let words: [&[u8]; 3] = [b"sh", b"-c", DESCRIPTORS];
    let is_alone = run(yard, alloc, &words, b"") == Status::Ended(0);
    let first = yard.start(alloc, &[b"sh", b"-c", b"sleep 0.5; exec cat"]);
    let second = yard.start(alloc, &words);
    let third = yard.start(alloc, &[b"sh", b"-c", b"exec cat"]);
    // the first one runs, and the third one's input is still open, when the second one begins
    yard.children.finish(first);
    yard.children.finish(second);
    let is_second = yard.collect() && yard.children.status(second) == Status::Ended(0);
    let is_first = yard.collect() && yard.children.status(first) == Status::Ended(0);
    yard.children.finish(third);
    let is_third = yard.collect() && yard.children.status(third) == Status::Ended(0);
    is_alone && is_first && is_second && is_third && is_twice(yard.bytes.as_slice())
}

/// Whether these bytes are a text twice.
fn is_twice(bytes: &[u8]) -> bool {
    let half = bytes.len() / 2;
    let (first, second) = bytes.split_at(half);
    half > 0 && first == second
}
